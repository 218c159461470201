//! Scissor rectangles: a corner with a width and a height, turned into four ends.
ghost use Rattle.std.specs.Prelude.{◌≡◌, ◌+◌, ◌^◌, ◌<◌, ◌≤◌, MatchResult};
ghost use Rattle.command_list.specs.Seen.{IsFault};
ghost use Rattle.bindings.specs.Rects.{ends_of, Ends};

use command_list::fault::{Fault, Number};

/// A rectangle as a host gives it, `Rect<u32>` in the Rust: its upper left corner, its width and
/// its height, in texels.
#[derive(Clone, Copy)]
pub struct Rect {
    pub x: u32,
    pub y: u32,
    pub w: u32,
    pub h: u32,
}

/// The ends of a rectangle, as `D3D12_RECT` has them. Direct3D reads each as a signed number.
#[derive(Clone, Copy)]
pub struct Bounds {
    pub left: u32,
    pub top: u32,
    pub right: u32,
    pub bottom: u32,
}

// Past the last end.
const END: u32 = 0x8000_0000;

// One end, which has to be a signed number.
fn end(start: u32, width: u32) -> Result<u32, Fault>
    ensures { MatchResult result
        (λ n. (n ≡ start + width) × (n < 2 ^ 31))
        (λ f. IsFault f 5 0 × (2 ^ 31 ≤ start + width)) }
{
    start
        .checked_add(width)
        .filter(|end| *end < END)
        .ok_or(Number::Extent.at(0))
}

impl Rect {
    /// The four ends. Refused with 5: a right or lower end that is no signed number of 32 bits.
    pub fn bounds(&self) -> Result<Bounds, Fault>
        ensures { MatchResult result
            (λ b. (b ≡ ends_of self.now) × Ends self.now)
            (λ f. IsFault f 5 0 × (Ends self.now → ⊥)) }
    {
        let right = end(self.x, self.w)?;
        let bottom = end(self.y, self.h)?;
        Ok(Bounds {
            left: self.x,
            top: self.y,
            right,
            bottom,
        })
    }
}
