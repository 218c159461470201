//! A label's units, made from the bytes of a text.
ghost use Rattle.std.specs.Prelude.{◌≡◌, ◌+◌, ◌≤◌, length, take, MatchResult};
ghost use Rattle.std.specs.Str.{chars};
ghost use Rattle.labels.specs.Unicode.{utf16s};
ghost use Rattle.labels.specs.Labels.{Labelled, Refused, Recordable};

use command_list::fault::{Fault, Number};
use std::str::from_utf8;

// The most bytes of a label.
const MOST_BYTES: usize = 256;

// The most units of a label: at most one for each byte, and the final 0.
const MOST_UNITS: usize = 257;

/// The UTF-16 units of a label with their final 0, 257 at most. A label takes no heap.
#[derive(Drop)]
pub struct Label {
    units: [u16; MOST_UNITS],
    len: usize,
    ghost within: { len ≤ 257 },
    ghost recordable: { Recordable (take len units) },
}

// Puts the units of a text at the front, and says how many they are.
fn fill(text: &str, units: &mut [u16; MOST_UNITS]) -> usize
    requires { length text.now ≤ 256 }
    ensures count { result ≤ length text.now }
    ensures front { take result units.new ≡ utf16s (chars text.now) }
    ensures held { length units.new ≡ 257 }
{
    let mut n = 0;
    for unit in text.encode_utf16() {
        units[n] = unit;
        n += 1;
    }
    n
}

impl Label {
    /// The label that these bytes make, which are UTF-8 with no final 0. No byte at all makes the
    /// label of one unit, 0.
    ///
    /// Refused: more than 256 bytes with 1; else bytes that are no well-formed UTF-8 with 2.
    pub fn new(bytes: &[u8]) -> Result<Label, Fault>
        ensures { MatchResult result
            (λ l. Labelled bytes.now (take l.len l.units))
            (λ f. Refused bytes.now f) }
    {
        if bytes.len() > MOST_BYTES {
            return Err(Number::Range.at(0));
        }
        let text = from_utf8(bytes).map_err(|_| Number::Text.at(0))?;
        let mut units = [0; MOST_UNITS];
        let n = fill(text, &mut units);
        units[n] = 0;
        Ok(Label { units, len: n + 1 })
    }

    /// The units, as an event is recorded with them.
    pub fn units(&self) -> &[u16]
        ensures { (result.now ≡ take self.now.len self.now.units) × Recordable result.now }
    {
        &self.units[..self.len]
    }
}
