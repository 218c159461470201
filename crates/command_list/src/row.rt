ghost use Rattle.std.specs.Prelude.{◌≡◌, ℕ, ◌+◌, ◌*◌, ◌/◌, ◌<◌, ◌≤◌, if◌then◌else◌, nat_le, nat_lt};
ghost use Rattle.std.specs.Prelude.{List, length, is_some, Option, Some, None};
ghost use Rattle.std.specs.List.{slice_get, list_all, range_with_len};
ghost use Rattle.command_list.specs.Numbers.{number_at};
ghost use Rattle.command_list.specs.Commands.{entry_width};
ghost use Rattle.command_list.specs.Decoding.{barriers};
ghost use Rattle.command_list.specs.Seen.{every, entry_at, entry_numbers};

use crate::command::{Barrier, BarrierType};
use crate::fields::Wide;

/// What a list among the operands is made of: rows of one width.
pub trait Row: Copy {
    ghost WIDTH: { ℕ };

    /// How many bytes a row takes.
    const WIDTH: usize;

    // The row that begins at a place, if the bytes are one.
    ghost row_at: { ℕ → List ℕ → Option Self };

    // The rows of some bytes, one behind the other, if each is one.
    ghost rows: { List ℕ → Option (List Self) };

    /// The row that begins at a place; none where the bytes end before it does, or are no row.
    fn read(bytes: &[u8], at: usize) -> Option<Self>
        ensures { result
            ≡ (if nat_le (at + WIDTH) (length bytes.now) then row_at at bytes.now else None) };

    /// Row `i` of some bytes; none past the last one, or where its bytes are no row.
    fn nth(bytes: &[u8], i: usize) -> Option<Self>
        ensures { result ≡ (if nat_lt i (length bytes.now / WIDTH)
            then row_at (WIDTH * i) bytes.now else None) }
    {
        Self::read(bytes, Self::WIDTH.checked_mul(i)?)
    }

    /// Whether each of the rows of some bytes is one.
    fn are_rows(bytes: &[u8]) -> bool
        ensures { result ≡ is_some (rows bytes.now) }
    {
        (0..bytes.len() / Self::WIDTH).all(|i| Self::read(bytes, Self::WIDTH * i).is_some())
    }

    ghost some: { 0 < WIDTH };

    // as many rows as there is room for whole ones
    ghost counted: { (bs : List ℕ) (xs : List Self) → rows bs ≡ Some xs
        → length bs / WIDTH ≡ length xs };

    ghost in_turn: { (bs : List ℕ) (xs : List Self) (i : ℕ) → rows bs ≡ Some xs
        → i < length bs / WIDTH → row_at (WIDTH * i) bs ≡ slice_get xs i };

    ghost past: { (bs : List ℕ) (xs : List Self) (i : ℕ) → rows bs ≡ Some xs
        → length bs / WIDTH ≤ i → None ≡ slice_get xs i };

    ghost each: { (bs : List ℕ)
        → list_all (λ i. is_some (row_at (WIDTH * i) bs)) (range_with_len 0 (length bs / WIDTH))
        ≡ is_some (rows bs) };
}

// Whether so many bytes follow a place.
fn holds(bytes: &[u8], at: usize, n: usize) -> bool
    ensures { result ≡ nat_le (at + n) (length bytes.now) }
{
    n <= bytes.len() && at <= bytes.len() - n
}

// The entry at a place, where its type is known.
fn entry(bytes: &[u8], at: usize) -> Option<Barrier>
    requires { at + entry_width ≤ length bytes.now }
    ensures { result ≡ entry_at at bytes.now }
{
    let Ok(kind) = BarrierType::try_from(u8::get(bytes, at)) else {
        return None;
    };
    Some(Barrier {
        kind,
        resource: Wide::get(bytes, at + 1),
        subresource: Wide::get(bytes, at + 5),
        before: Wide::get(bytes, at + 9),
        after: Wide::get(bytes, at + 13),
    })
}

/// The units of a label.
impl Row for u16 {
    ghost use Rattle.std.proofs.Common.{rules};
    ghost use Rattle.command_list.specs.RowLaws.{count_every, turn_every, end_every, each_every};

    ghost WIDTH = { 2 };

    const WIDTH: usize = 2;

    ghost row_at = { λ at bs. Some (number_at 2 at bs) };

    ghost rows = { λ bs. Some (every 2 bs) };

    fn read(bytes: &[u8], at: usize) -> Option<u16> {
        holds(bytes, at, u16::WIDTH).then(|| Wide::get(bytes, at))
    }

    fn nth(bytes: &[u8], i: usize) -> Option<u16> {
        (i < bytes.len() / u16::WIDTH).then(|| Wide::get(bytes, u16::WIDTH * i))
    }

    fn are_rows(_units: &[u8]) -> bool {
        true
    }

    ghost some = { Prim.search rules };

    ghost counted = { count_every 2 };

    ghost in_turn = { turn_every 2 };

    ghost past = { end_every 2 };

    ghost each = { each_every 2 };
}

/// The handles of render targets.
impl Row for u64 {
    ghost use Rattle.std.proofs.Common.{rules};
    ghost use Rattle.command_list.specs.RowLaws.{count_every, turn_every, end_every, each_every};

    ghost WIDTH = { 8 };

    const WIDTH: usize = 8;

    ghost row_at = { λ at bs. Some (number_at 8 at bs) };

    ghost rows = { λ bs. Some (every 8 bs) };

    fn read(bytes: &[u8], at: usize) -> Option<u64> {
        holds(bytes, at, u64::WIDTH).then(|| Wide::get(bytes, at))
    }

    fn nth(bytes: &[u8], i: usize) -> Option<u64> {
        (i < bytes.len() / u64::WIDTH).then(|| Wide::get(bytes, u64::WIDTH * i))
    }

    fn are_rows(_handles: &[u8]) -> bool {
        true
    }

    ghost some = { Prim.search rules };

    ghost counted = { count_every 8 };

    ghost in_turn = { turn_every 8 };

    ghost past = { end_every 8 };

    ghost each = { each_every 8 };
}

/// The entries of a resource barrier, each of which begins with a type that is known.
impl Row for Barrier {
    ghost use Rattle.std.proofs.Common.{rules};
    ghost use Rattle.command_list.specs.RowLaws.{count_entries, turn_entries, end_entries, each_entry};

    ghost WIDTH = { entry_width };

    const WIDTH: usize = 17;

    ghost row_at = { entry_at };

    ghost rows = { λ bs. barriers (entry_numbers bs) };

    fn read(bytes: &[u8], at: usize) -> Option<Barrier> {
        if holds(bytes, at, Barrier::WIDTH) {
            entry(bytes, at)
        } else {
            None
        }
    }

    fn nth(bytes: &[u8], i: usize) -> Option<Barrier> {
        if i < bytes.len() / Barrier::WIDTH {
            entry(bytes, Barrier::WIDTH * i)
        } else {
            None
        }
    }

    // Only the byte of each entry's type is looked at. A chain over the entries takes half as long
    // again.
    fn are_rows(bytes: &[u8]) -> bool {
        let end = bytes.len() / Barrier::WIDTH * Barrier::WIDTH;
        let mut at = 0;
        while at < end {
            if bytes[at] != 0 && bytes[at] != 2 {
                return false;
            }
            at += Barrier::WIDTH;
        }
        true
    }

    ghost some = { Prim.search rules };

    ghost counted = { count_entries };

    ghost in_turn = { turn_entries };

    ghost past = { end_entries };

    ghost each = { each_entry };
}
