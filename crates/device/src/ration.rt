// A recorder with an allowance of bytes of its own.
ghost use Rattle.std.specs.Prelude.{◌≡◌, ◌+◌, List, [], ◌∷◌, Some, MatchResult};
ghost use Rattle.command_list.specs.Commands.{Command, size};
ghost use Rattle.device.specs.Meaning.{Anew, Asked, Recorded, sizes, rationed};

use crate::recorder::{Recorder, fitting};
use command_list::command::{Command, Fixed};
use command_list::fault::Fault;
use command_list::record::Record;
use list_writer::writer::Recordable;

/// A recorder whose records may take so many bytes at most, however much space there is in the
/// recorder below it.
#[derive(Drop)]
pub struct Ration<R: Recorder> {
    below: R,
    rest: usize,
    most: usize,
    // Where the recorder below shows its commands, what their records take and what is left are
    // the allowance.
    ghost spent: { (cs : List Command) →
        (R.meaning below).shown ≡ Some cs → rest + sizes cs ≡ most },
}

impl<R: Recorder> Ration<R> {
    /// An allowance of `most` bytes over a recorder, which is started anew.
    pub fn new(mut below: R, most: usize) -> Ration<R>
        ensures anew { Anew (rationed most most (R.meaning below))
            (rationed result.rest result.most (R.meaning result.below)) }
        ensures whole { (result.rest ≡ most) × (result.most ≡ most) }
        ensures below { Anew (R.meaning below) (R.meaning result.below) }
    {
        below.start_anew();
        Ration {
            below,
            rest: most,
            most,
        }
    }

    /// The recorder below, as it stands.
    pub fn into_below(self) -> R
        ensures { result ≡ self.below }
    {
        let Ration {
            below,
            rest: _,
            most: _,
        } = self;
        below
    }
}

impl<R: Recorder> Recorder for Ration<R> {
    ghost meaning = { λ s. rationed s.rest s.most (R.meaning s.below) };

    fn space(&self) -> usize {
        self.rest.min(self.below.space())
    }

    fn start_anew(&mut self)
        ensures anew { Anew (rationed self.old.rest self.old.most (R.meaning self.old.below))
            (rationed self.new.rest self.new.most (R.meaning self.new.below)) }
        ensures whole { (self.new.rest ≡ self.old.most) × (self.new.most ≡ self.old.most) }
        ensures below { Anew (R.meaning self.old.below) (R.meaning self.new.below) }
    {
        self.below.start_anew();
        self.rest = self.most;
    }

    fn record<C: Recordable>(&mut self, command: C) -> Result<(), Fault>
        ensures asked { Asked (rationed self.old.rest self.old.most (R.meaning self.old.below))
            (C.says command) result
            (rationed self.new.rest self.new.most (R.meaning self.new.below)) }
        ensures spent { MatchResult result
            (λ _. self.new.rest + size (C.says command) ≡ self.old.rest)
            (λ _. self.new.rest ≡ self.old.rest) }
        ensures most { self.new.most ≡ self.old.most }
        ensures below { MatchResult result
            (λ _. Recorded (R.meaning self.old.below)
            (C.says command ∷ []) (R.meaning self.new.below))
            (λ _. R.meaning self.new.below ≡ R.meaning self.old.below) }
    {
        let bytes = fitting(command.size()?, self.rest)?;
        self.below.record(command)?;
        self.rest -= bytes;
        Ok(())
    }

    fn record_fixed(&mut self, fixed: Fixed) -> Result<(), Fault> {
        self.record(fixed)
    }

    fn record_given(&mut self, command: Command) -> Result<(), Fault> {
        self.record(command)
    }

    fn replay(&mut self, record: Record) -> Result<(), Fault> {
        self.record(record)
    }
}
