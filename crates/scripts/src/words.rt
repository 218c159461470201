//! The words of a line, and the numbers that they say.
ghost use Rattle.std.specs.Prelude.{◌≡◌, ◌≤◌, option_map};
ghost use Rattle.scripts.specs.Words.{IsRead, number as number_said, label as label_said, Reads, ReadsAs};

use crate::not_done::NotDone;
use std::alloc::Global;

// The number of digits alone, with no sign, if it has 64 bits.
fn digits_value(digits: &str, radix: u32) -> Option<u64>
    requires least { 2 ≤ radix }
    requires most { radix ≤ 36 }
    ensures { IsRead radix digits.now result }
{
    if digits.as_bytes().first() == Some(&b'+') {
        return None;
    }
    u64::from_str_radix(digits, radix).ok()
}

// The number of 64 bits that a word says: decimal, or in hex behind 0x.
#[tactic(auto, using(crate::proofs::Numerals::read_digits), unfolding(crate::specs::Words::number))]
fn whole(word: &str) -> Option<u64>
    ensures { result ≡ number_said 64 word.now }
{
    match word.strip_prefix("0x") {
        Some(digits) => digits_value(digits, 16),
        None => digits_value(word, 10),
    }
}

// The number of 64 bits that a word says.
pub(crate) fn wide(word: &str) -> Result<u64, NotDone>
    ensures { Reads (number_said 64 word.now) result }
{
    whole(word).ok_or(NotDone::BadLine)
}

// The number of 32 bits that a word says.
#[tactic(auto, using(crate::proofs::Numerals::narrow))]
pub(crate) fn number(word: &str) -> Result<u32, NotDone>
    ensures { Reads (number_said 32 word.now) result }
{
    match u32::try_from(wide(word)?) {
        Ok(number) => Ok(number),
        Err(_) => Err(NotDone::BadLine),
    }
}

// The number of 64 bits that a word says, as a count.
pub(crate) fn count(word: &str) -> Result<usize, NotDone>
    ensures { Reads (number_said 64 word.now) result }
{
    let number = wide(word)?;
    Ok(number as usize)
}

// A label: none, the empty one, or its bytes in hex.
pub(crate) fn label(alloc: Global, word: &str) -> Result<Option<Vec<u8>>, NotDone>
    ensures { ReadsAs (option_map (λ v. v.items)) (label_said word.now) result }
{
    match word {
        "-" => Ok(None),
        "empty" => Ok(Some(Vec::new(alloc))),
        _ => Ok(Some(hex::decode(alloc, word)?)),
    }
}
