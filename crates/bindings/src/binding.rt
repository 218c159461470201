//! A buffer binding: a part of a buffer, from an offset on.
ghost use Rattle.std.specs.Prelude.{◌≡◌, ◌^◌, ◌<◌, ◌≤◌, MatchResult};
ghost use Rattle.command_list.specs.Seen.{IsFault};
ghost use Rattle.bindings.specs.Bindings.{address_of, size_of, Reachable, Sized};

use command_list::fault::{Fault, Number};

/// A buffer of the device.
#[derive(Clone, Copy)]
pub struct Buffer {
    /// The GPU virtual address of its first byte.
    pub address: u64,
    /// In bytes.
    pub size: u64,
}

/// A part of a buffer, `BufferBinding` in the Rust, which has `None` for a size of 0.
#[derive(Clone, Copy)]
pub struct BufferBinding {
    pub buffer: Buffer,
    /// Where the part begins, in bytes from the buffer's first.
    pub offset: u64,
    /// In bytes; 0 stands for the rest of the buffer.
    pub size: u64,
}

/// Where a binding begins, and how many bytes it has: what a vertex buffer view says.
#[derive(Clone, Copy)]
pub struct Resolved {
    pub address: u64,
    pub size: u32,
}

impl BufferBinding {
    /// The GPU virtual address that the binding begins at. Refused with 5 where it is no number of
    /// 64 bits.
    pub fn resolve_address(&self) -> Result<u64, Fault>
        ensures { MatchResult result
            (λ a. (a ≡ address_of self.now) × Reachable self.now)
            (λ f. IsFault f 5 0 × (Reachable self.now → ⊥)) }
    {
        self.buffer
            .address
            .checked_add(self.offset)
            .ok_or(Number::Extent.at(0))
    }

    /// The bytes that the binding has. Refused with 5 where they are no number of 32 bits, or the
    /// offset is behind the buffer's end.
    pub fn resolve_size(&self) -> Result<u32, Fault>
        ensures { MatchResult result
            (λ n. (n ≡ size_of self.now) × Sized self.now)
            (λ f. IsFault f 5 0 × (Sized self.now → ⊥)) }
    {
        let rest = self
            .buffer
            .size
            .checked_sub(self.offset)
            .ok_or(Number::Extent.at(0))?;
        let size = if self.size == 0 { rest } else { self.size };
        u32::try_from(size).map_err(|_| Number::Extent.at(0))
    }

    /// Both at once.
    pub fn resolve(&self) -> Result<Resolved, Fault>
        ensures { MatchResult result
            (λ p. (p.address ≡ address_of self.now) × (p.size ≡ size_of self.now)
            × Reachable self.now × Sized self.now)
            (λ f. IsFault f 5 0 × (Reachable self.now → Sized self.now → ⊥)) }
    {
        let address = self.resolve_address()?;
        let size = self.resolve_size()?;
        Ok(Resolved { address, size })
    }
}
