// Operand writers: each writes its numbers at the start of the bytes that it is handed.
ghost use Rattle.std.specs.Prelude.{◌≡◌, ℕ, ◌-◌, ◌*◌, ◌<◌, ◌≤◌, List, [], ◌∷◌, ◌++◌};
ghost use Rattle.std.specs.Prelude.{length, take, drop, slice_index_or, Some};
ghost use Rattle.std.specs.List.{flat_map, slice_get};
ghost use Rattle.std.specs.Option.{unwrap_or};
ghost use Rattle.command_list.specs.Numbers.{Field, field, total, widths, values, numbers};
ghost use Rattle.command_list.specs.Commands.{entry};
ghost use Rattle.list_writer.specs.Writing.{Laid};

use command_list::command::Barrier;
use command_list::record::Rows;
use command_list::row::Row;

/// A row of operands.
pub trait Operands: Copy {
    ghost laid: { Self → List Field };

    /// Writes them at the start of `out`, and says how many bytes they took.
    fn lay(self, out: &mut [u8]) -> usize
        requires { total (laid self) ≤ length out.old }
        ensures { Laid (laid self) out.old out.new result };

    /// The same, where it is known how many bytes they take.
    fn lay_sized(self, size: usize, out: &mut [u8]) -> usize
        requires size { size ≡ total (laid self) }
        requires room { total (laid self) ≤ length out.old }
        ensures { Laid (laid self) out.old out.new result }
    {
        let _ = size;
        self.lay(out)
    }
}

impl Operands for () {
    ghost laid = { λ _. [] };

    fn lay(self, _out: &mut [u8]) -> usize {
        0
    }
}

impl Operands for u8 {
    ghost laid = { λ b. field 1 b ∷ [] };

    fn lay(self, out: &mut [u8]) -> usize {
        out[0] = self;
        1
    }
}

impl Operands for u16 {
    ghost laid = { λ s. field 2 s ∷ [] };

    fn lay(self, out: &mut [u8]) -> usize {
        out[0..2].copy_from_slice(&self.to_be_bytes());
        2
    }
}

impl Operands for u32 {
    ghost laid = { λ w. field 4 w ∷ [] };

    fn lay(self, out: &mut [u8]) -> usize {
        out[0..4].copy_from_slice(&self.to_be_bytes());
        4
    }
}

impl Operands for u64 {
    ghost laid = { λ l. field 8 l ∷ [] };

    fn lay(self, out: &mut [u8]) -> usize {
        out[0..8].copy_from_slice(&self.to_be_bytes());
        8
    }
}

impl Operands for Barrier {
    ghost laid = { entry };

    fn lay(self, out: &mut [u8]) -> usize {
        let states = (self.before, self.after);
        let resource = (self.resource, (self.subresource, states));
        (u8::from(self.kind), resource).lay(out)
    }
}

/// One row behind another.
impl<A: Operands, B: Operands> Operands for (A, B) {
    ghost laid = { λ p. A.laid p.0 ++ B.laid p.1 };

    fn lay(self, out: &mut [u8]) -> usize {
        let (a, b) = self;
        let n = a.lay(out);
        n + b.lay(&mut out[n..])
    }

    fn lay_sized(self, size: usize, out: &mut [u8]) -> usize {
        let (a, b) = self;
        let n = a.lay(out);
        n + b.lay_sized(size - n, &mut out[n..])
    }
}

/// What a list of operands is made of.
pub trait Entry: Operands + Row {
    // Every entry has the width of a row.
    ghost even: { (x : Self) → total (Self.laid x) ≡ Self.WIDTH };

    // Entries that were read have the numbers of the bytes that they were read from.
    ghost as_read: { (bs : List ℕ) (xs : List Self) → Self.rows bs ≡ Some xs
        → values (flat_map Self.laid xs) ≡ numbers (widths (flat_map Self.laid xs)) 0 bs };
}

impl Entry for u16 {
    ghost use Rattle.list_writer.specs.EntryLaws.{unit_even, units_read};

    ghost even = { unit_even };

    ghost as_read = { units_read };
}

impl Entry for u64 {
    ghost use Rattle.list_writer.specs.EntryLaws.{handle_even, handles_read};

    ghost even = { handle_even };

    ghost as_read = { handles_read };
}

impl Entry for Barrier {
    ghost use Rattle.list_writer.specs.EntryLaws.{entry_even, entries_read};

    ghost even = { entry_even };

    ghost as_read = { entries_read };
}

/// A list among the operands: as it is given, or as it was read.
pub trait Listing<T: Entry>: Operands {
    ghost items: { Self → List T };

    /// How many items it has.
    fn count(&self) -> usize
        ensures { result ≡ length (items self.now) };

    /// How many items it has, if it has any. No item is looked at.
    fn count_if_any(&self) -> usize
        ensures { 0 < length (items self.now) → result ≡ length (items self.now) };

    /// The last item; none of an empty list.
    fn last(&self) -> Option<T>
        ensures { result ≡ slice_get (items self.now) (length (items self.now) - 1) };

    // Its row is made of the entries' rows.
    ghost joined: { (s : Self) → Self.laid s ≡ flat_map T.laid (items s) };
}

/// Entries as a caller has them.
impl<T: Entry> Operands for &[T] {
    ghost laid = { λ s. flat_map T.laid s.now };

    fn lay(self, out: &mut [u8]) -> usize {
        let mut at = 0;
        for x in self {
            at += (*x).lay(&mut out[at..]);
        }
        at
    }
}

impl<T: Entry> Listing<T> for &[T] {
    ghost use Rattle.std.specs.Prelude.{refl};

    ghost items = { λ s. s.now };

    fn count(&self) -> usize {
        self.len()
    }

    fn count_if_any(&self) -> usize {
        self.len()
    }

    fn last(&self) -> Option<T> {
        <[T]>::last(self).copied()
    }

    ghost joined = { λ s. refl };
}

// Copies the first `n` bytes.
fn lay_front(bytes: &[u8], n: usize, out: &mut [u8])
    requires within { n ≤ length bytes.now }
    requires room { n ≤ length out.old }
    ensures front { out.new ≡ take n bytes.now ++ drop n out.old }
    ensures ranged { (i : ℕ) → slice_index_or bytes.now i 0 < 256 }
{
    out[0..n].copy_from_slice(&bytes[0..n]);
}

/// Rows of a file are written as the bytes that they were read from; none of them where one is no
/// row.
impl<T: Entry> Operands for Rows<'_, T> {
    ghost laid = { λ s. flat_map T.laid (unwrap_or (T.rows s.bytes.now) []) };

    fn lay(self, out: &mut [u8]) -> usize {
        let n = T::WIDTH * self.count();
        lay_front(self.bytes, n, out);
        n
    }

    // Where there is a byte to write, each row is one, so none is looked at.
    fn lay_sized(self, size: usize, out: &mut [u8]) -> usize {
        lay_front(self.bytes, size, out);
        size
    }
}

impl<T: Entry> Listing<T> for Rows<'_, T> {
    ghost use Rattle.std.specs.Prelude.{refl};

    ghost items = { λ s. unwrap_or (T.rows s.bytes.now) [] };

    fn count(&self) -> usize {
        if self.known() { self.len() } else { 0 }
    }

    fn count_if_any(&self) -> usize {
        self.len()
    }

    fn last(&self) -> Option<T> {
        match self.count() {
            0 => None,
            n => self.get(n - 1),
        }
    }

    ghost joined = { λ s. refl };
}
