//! A recorder whose commands are a list file in bytes that the caller lends. No memory is taken: a
//! `ListBytes` is those bytes and how many of them the list file uses.
#![tactic(auto)]

ghost use Rattle.std.specs.Prelude.{◌≡◌, ◌↔◌, ◌≤◌, true, [], ◌∷◌, ◌++◌, length, drop, IsOk, IfOk, IfErr};
ghost use Rattle.command_list.specs.Commands.{record_of, size};
ghost use Rattle.command_list.specs.Seen.{IsFault};
ghost use Rattle.device.specs.Meaning.{Anew, Asked};
ghost use Rattle.list_bytes.specs.Listed.{is_whole, listed, HoldsList, Opened};

use command_list::command::{Command, Fixed};
use command_list::fault::Fault;
use command_list::record::Record;
use device::recorder::Recorder;
use list_writer::writer::{Recordable, begin};

/// 1 to 65536 bytes of the caller's, which begin with a list file: the version byte, then a record
/// for each command.
#[derive(Drop)]
pub struct ListBytes<'a> {
    bytes: &'a mut [u8],
    len: usize,
    ghost within: { len ≤ length bytes.now },
    ghost small: { length bytes.now ≤ 65536 },
    ghost whole: { is_whole bytes.now len ≡ true },
}

impl<'a> ListBytes<'a> {
    ghost use Rattle.list_bytes.specs.Lists.{meaning_of, in_use, unused};

    /// An empty list: the version byte is written, and nothing else. Refused with 10 at place 0
    /// where there is no byte or there are more than 65536; then nothing is written.
    pub fn new(bytes: &'a mut [u8]) -> Result<ListBytes<'a>, Fault>
        ensures taken { IsOk result ↔ HoldsList (length bytes.old) }
        ensures opened { IfOk result (λ s.
            Opened (length bytes.old) (meaning_of s)) }
        ensures version { IfOk result (λ s. in_use s ≡ 1 ∷ []) }
        ensures rest { IfOk result (λ s. unused s ≡ drop 1 bytes.old) }
        ensures refused { IfErr result (λ f. IsFault f 10 0) }
    {
        let len = begin(bytes)?;
        Ok(ListBytes { bytes, len })
    }

    /// The list file.
    pub fn list(&self) -> &[u8]
        ensures { result.now ≡ in_use self.now }
    {
        &self.bytes[0..self.len]
    }

    /// Gives the bytes back, and says how many of them the list file uses.
    pub fn finish(self) -> (usize, &'a mut [u8])
        ensures means { listed result.1.now result.0 ≡ listed self.entry.bytes.now self.entry.len }
        ensures len { result.0 ≡ self.entry.len }
        ensures bytes { result.1.now ≡ self.entry.bytes.now }
        ensures within { result.0 ≤ length result.1.now }
    {
        let ListBytes { bytes, len } = self;
        (len, bytes)
    }
}

impl<'a> Recorder for ListBytes<'a> {
    ghost use Rattle.list_bytes.specs.Lists.{meaning_of, bytes_of, in_use, unused};

    ghost meaning = { meaning_of };

    fn space(&self) -> usize {
        self.bytes.len() - self.len
    }

    fn start_anew(&mut self)
        ensures anew { Anew (meaning_of self.old) (meaning_of self.new) }
        ensures bytes { bytes_of self.new ≡ bytes_of self.old }
    {
        self.len = 1;
    }

    // Inlined, so that the writer sees which command it writes.
    #[inline(always)]
    fn record<C: Recordable>(&mut self, command: C) -> Result<(), Fault>
        ensures asked { Asked (meaning_of self.old) (C.says command) result (meaning_of self.new) }
        ensures list { IfOk result (λ _.
            in_use self.new ≡ in_use self.old ++ record_of (C.says command)) }
        ensures rest { IfOk result (λ _.
            unused self.new ≡ drop (size (C.says command)) (unused self.old)) }
        ensures refused { IfErr result (λ _. bytes_of self.new ≡ bytes_of self.old) }
    {
        self.len = command.append_to(self.bytes, self.len)?;
        Ok(())
    }

    #[inline(always)]
    fn record_fixed(&mut self, fixed: Fixed) -> Result<(), Fault> {
        self.record(fixed)
    }

    #[inline(always)]
    fn record_given(&mut self, command: Command) -> Result<(), Fault> {
        self.record(command)
    }

    fn replay(&mut self, record: Record) -> Result<(), Fault> {
        self.record(record)
    }
}
