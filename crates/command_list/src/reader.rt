ghost use Rattle.std.specs.Prelude.{◌≡◌, ℕ, ◌+◌, ◌≤◌, true, false, length, MatchResult, IfErr};
ghost use Rattle.command_list.specs.Decoding.{front as front_said, framing};
ghost use Rattle.command_list.specs.Files.{has_version};
ghost use Rattle.command_list.specs.Read.{Framed};
ghost use Rattle.command_list.specs.Seen.{IsFault, seen_front, seen_step, step_at};

use crate::code::Code;
use crate::fault::{Fault, Number};
use crate::fields::read_operands;
use crate::record::Record;

/// The longest list file in bytes.
pub const MOST_BYTES: usize = 65536;

/// A record before its code and its operands are read: it is told apart from its neighbours alone.
#[derive(Clone, Copy)]
pub struct Frame<'a> {
    /// The byte that names a code, if one has it.
    pub code: u8,
    /// What stands behind the code.
    pub operands: &'a [u8],
}

impl<'a> Frame<'a> {
    /// The frame at the front of the bytes at a place of a file, and how many bytes it takes in
    /// all; none where no bytes are left. One that is cut short or of length 0 is refused with 22
    /// at the place.
    pub fn take(bytes: &'a [u8], place: usize) -> Result<Option<(Frame<'a>, usize)>, Fault>
        ensures { Framed (framing bytes.now) place result }
    {
        match bytes {
            [] => Ok(None),
            [hi, lo, code, rest @ ..] => {
                let n = u16::from_be_bytes([*hi, *lo]) as usize;
                if n == 0 || rest.len() < n - 1 {
                    return Err(Number::Cut.at(place));
                }
                let frame = Frame {
                    code: *code,
                    operands: &rest[0..n - 1],
                };
                Ok(Some((frame, 2 + n)))
            }
            _ => Err(Number::Cut.at(place)),
        }
    }
}

// The record at the front of the bytes at a place of a file, with the bytes that it takes; none at
// the end.
#[tactic(auto, unfolding(crate::specs::Decoding::front))]
fn front(left: &[u8], place: usize) -> Result<Option<(Record, usize)>, Fault>
    ensures says { seen_front result ≡ front_said left.now }
    ensures place { IfErr result (λ f. f.place ≡ place) }
{
    let Some((frame, size)) = Frame::take(left, place)? else {
        return Ok(None);
    };
    let code = Code::try_from(frame.code).map_err(|number| number.at(place))?;
    Ok(Some((read_operands(code, frame.operands, place)?, size)))
}

/// Goes through a list file record by record.
#[derive(Drop)]
pub struct Reader<'a> {
    file: &'a [u8],
    at: usize,
    ghost within: { at ≤ length file.now },
}

impl<'a> Reader<'a> {
    /// A reader before the first record. A file that is empty, too long or of another version is
    /// refused with 21 at 0.
    pub fn open(file: &'a [u8]) -> Result<Reader<'a>, Fault>
        ensures { MatchResult result
            (λ o. (has_version file.now ≡ true) × (o.file.now ≡ file.now) × (o.at ≡ 1))
            (λ f. (has_version file.now ≡ false) × IsFault f 21 0) }
    {
        if file.len() > MOST_BYTES || file.first() != Some(&1) {
            return Err(Number::Version.at(0));
        }
        Ok(Reader { file, at: 1 })
    }

    /// Where the next record begins, in bytes from the start of the file.
    pub fn place(&self) -> usize
        ensures { result ≡ self.now.at }
    {
        let Reader { at, .. } = self;
        *at
    }

    /// The next record; none at the end of the file. A record is refused with 22 (cut short or of
    /// length 0), 23 (code), 24 (length) or 25 (operand) at its own place. A refusal leaves the
    /// reader where it stands, so each later call answers the same.
    pub fn next(&mut self) -> Result<Option<Record<'a>>, Fault>
        ensures same { self.new.file.now ≡ self.old.file.now }
        ensures gives { seen_step result self.new.at ≡ step_at self.old.file.now self.old.at }
    {
        let at = self.at;
        let Some((record, size)) = front(&self.file[at..], at)? else {
            return Ok(None);
        };
        self.at = at + size;
        Ok(Some(record))
    }
}
