ghost use Rattle.std.specs.Prelude.{◌≡◌, ◌+◌, ◌*◌, ◌/◌, ◌<◌, ◌≤◌, ℕ, List, length, is_some};
ghost use Rattle.std.specs.Prelude.{if◌then◌else◌, Option, Some, None, nat_lt};
ghost use Rattle.std.specs.List.{slice_get};

use crate::command::{Barrier, Call};
use crate::row::Row;
use std::marker::PhantomData;

/// A list among the operands: rows of one width, which stay parts of the file's own bytes.
#[derive(Clone, Copy)]
pub struct Rows<'a, T> {
    /// The rows, one behind the other.
    pub bytes: &'a [u8],
    of: PhantomData<T>,
}

/// The UTF-16 units of a label.
pub type Units<'a> = Rows<'a, u16>;

/// The handles of render targets.
pub type Handles<'a> = Rows<'a, u64>;

/// The entries of a resource barrier.
pub type Entries<'a> = Rows<'a, Barrier>;

/// A command that was read.
pub type Record<'a> = Call<Units<'a>, Handles<'a>, Entries<'a>>;

impl<'a, T: Row> Rows<'a, T> {
    /// The rows of any bytes. Bytes at the end that are no whole row count for nothing.
    pub fn over(bytes: &'a [u8]) -> Rows<'a, T>
        ensures { result.bytes.now ≡ bytes.now }
    {
        Rows {
            bytes,
            of: PhantomData,
        }
    }

    /// How many rows there are.
    pub fn len(&self) -> usize
        ensures count { result ≡ length self.now.bytes.now / T.WIDTH }
        ensures listed { (xs : List T) → T.rows self.now.bytes.now ≡ Some xs → result ≡ length xs }
    {
        self.bytes.len() / T::WIDTH
    }

    /// A row; none past the last one, or where its bytes are no row.
    pub fn get(&self, i: usize) -> Option<T>
        ensures row { result
            ≡ (if nat_lt i (length self.now.bytes.now / T.WIDTH)
            then T.row_at (T.WIDTH * i) self.now.bytes.now else None) }
        ensures listed { (xs : List T) → T.rows self.now.bytes.now ≡ Some xs
            → result ≡ slice_get xs i }
    {
        T::nth(self.bytes, i)
    }

    /// Whether the bytes of each row are one: units and handles always are, entries where their
    /// type is known.
    pub fn known(&self) -> bool
        ensures { result ≡ is_some (T.rows self.now.bytes.now) }
    {
        T::are_rows(self.bytes)
    }
}
