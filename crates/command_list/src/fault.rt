ghost use Rattle.std.specs.Prelude.{◌≡◌};
ghost use Rattle.command_list.specs.Seen.{IsFault, number_of};

use std::error::Error;
use std::fmt;

/// Why a call was refused. Each case has a number, by which hosts know it, and which never changes.
///
/// A new case needs its number here and in `number_of`, and its text in `Display` and in `reason`.
#[derive(Clone, Copy, PartialEq, Eq, Debug)]
pub enum Number {
    /// A slot, group, count, extent, length, usage, offset or signature out of its range.
    Range = 1,
    /// A label that is not UTF-8.
    Text = 2,
    /// A layout entry, a handle or a resource that is not there.
    Absent = 3,
    /// Another number of buffers or offsets than the layout says.
    Count = 4,
    /// An address, a size or an end that passes its width or its buffer.
    Extent = 5,
    /// Another layout under the current signature.
    Layout = 6,
    /// No pipeline of the current signature in this pass.
    Pipeline = 7,
    /// A root slot whose element is not of its owner's kind.
    Unfit = 8,
    /// A scratch that does not take the barriers.
    Scratch = 9,
    /// The space does not take the call.
    Full = 10,
    /// A layout with a slot past its total, too many slots or no sensible immediates.
    Slots = 11,
    /// A slot of a layout with no owner or with two.
    Owners = 12,
    /// A file that is too long or of another version.
    Version = 21,
    /// A record cut short or of length 0.
    Cut = 22,
    /// A code that is not known.
    Unknown = 23,
    /// A length that is wrong for its code.
    Length = 24,
    /// An operand out of its range.
    Operand = 25,
}

impl Number {
    /// A refusal of this kind at a place.
    pub fn at(self, place: usize) -> Fault
        ensures { (result.number ≡ self) × (result.place ≡ place) }
    {
        Fault {
            number: self,
            place,
        }
    }
}

/// The number by which hosts know a case.
impl From<Number> for u8 {
    ghost from_gives = { λ number value. value ≡ number_of number };

    fn from(number: Number) -> u8 {
        number as u8
    }
}

/// What a number says, in a few words.
impl fmt::Display for Number {
    ghost use Rattle.std.specs.Prelude.{Some};
    ghost use Rattle.command_list.specs.Shown.{reason};

    ghost output = { λ number. Some (reason number) };

    fn fmt<W: fmt::Write>(&self, f: &mut fmt::Formatter<W>) -> fmt::Result {
        f.write_str(match self {
            Number::Range => "something is out of its range",
            Number::Text => "a label is not UTF-8",
            Number::Absent => "an entry, a handle or a resource is not there",
            Number::Count => "there are too many or too few buffers or offsets",
            Number::Extent => "an address, a size or an end is too large",
            Number::Layout => "another layout has the current signature",
            Number::Pipeline => "no pipeline of the current signature is set",
            Number::Unfit => "a root slot is not set as its layout says",
            Number::Scratch => "the scratch does not take the barriers",
            Number::Full => "there is not enough space",
            Number::Slots => "a layout's slots do not fit",
            Number::Owners => "a layout's slot has no owner, or two",
            Number::Version => "it is empty, longer than 65536 bytes, or not of version 1",
            Number::Cut => "a record is cut short or of length 0",
            Number::Unknown => "a record's code is not known",
            Number::Length => "a record's length is wrong for its code",
            Number::Operand => "an operand is out of its range",
        })
    }
}

/// A refusal: why, and where. What a place counts (bytes, items, root slots) depends on the number;
/// `docs/REFUSALS.md` says it for each.
#[derive(Clone, Copy, PartialEq, Eq, Debug)]
pub struct Fault {
    /// Why.
    pub number: Number,
    /// Where: 0 for a refusal that has no place of its own.
    pub place: usize,
}

/// A refusal in a line: its number, its place and what the number says.
impl fmt::Display for Fault {
    ghost use Rattle.std.specs.Prelude.{Some};
    ghost use Rattle.command_list.specs.Shown.{line};

    ghost output = { λ fault. Some (line fault) };

    fn fmt<W: fmt::Write>(&self, f: &mut fmt::Formatter<W>) -> fmt::Result {
        let Fault { number, place } = self;
        let value = u8::from(*number);
        write!(f, "number {value}, place {place}: {number}")
    }
}

impl Error for Fault {}

/// What writers and recorders answer where there is not enough space.
pub const FULL: Fault = Fault {
    number: Number::Full,
    place: 0,
};

/// What [`FULL`] is, as hosts see it: 10 at place 0.
pub fn full_is_ten()
    ensures { IsFault FULL 10 0 }
{}
