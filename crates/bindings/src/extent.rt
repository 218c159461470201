//! Widths and heights of targets, and the viewport over a whole one.
ghost use Rattle.std.specs.Prelude.{◌≡◌, ◌≤◌, MatchResult, slice_index};
ghost use Rattle.command_list.specs.Seen.{IsFault};
ghost use Rattle.bindings.specs.Extents.{InExtent, IsSingle, viewport};

use command_list::fault::{Fault, Number};

// The greatest width or height, D3D12_REQ_TEXTURE2D_U_OR_V_DIMENSION.
const MOST: u32 = 16384;

/// A target's width and height, each from 1 to 16384, the most that Direct3D 12 allows a texture
/// (`D3D12_REQ_TEXTURE2D_U_OR_V_DIMENSION`).
#[derive(Clone, Copy)]
pub struct Extent {
    width: u32,
    height: u32,
    ghost wide: { InExtent width },
    ghost high: { InExtent height },
}

// The pattern of the single float for a whole number.
fn single_bits(number: u32) -> u32
    requires { number ≤ 16384 }
    ensures { IsSingle number result }
{
    (number as f32).to_bits()
}

impl Extent {
    /// Refused with 1: a width or a height that is not from 1 to 16384.
    pub fn new(width: u32, height: u32) -> Result<Extent, Fault>
        ensures { MatchResult result
            (λ e. (e.width ≡ width) × (e.height ≡ height) × InExtent width × InExtent height)
            (λ f. IsFault f 1 0 × (InExtent width → InExtent height → ⊥)) }
    {
        if !(1..=MOST).contains(&width) || !(1..=MOST).contains(&height) {
            return Err(Number::Range.at(0));
        }
        Ok(Extent { width, height })
    }

    /// In texels.
    pub fn width(&self) -> u32
        ensures { (result ≡ self.now.width) × InExtent result }
    {
        self.width
    }

    /// In texels.
    pub fn height(&self) -> u32
        ensures { (result ≡ self.now.height) × InExtent result }
    {
        self.height
    }

    /// The viewport over the whole target, in the order of `D3D12_VIEWPORT`: left, top, width,
    /// height, least and greatest depth, each by the 32 bits of its single float.
    pub fn viewport(&self) -> [u32; 6]
        ensures value { result ≡ viewport self.now.width self.now.height }
        ensures exact { IsSingle self.now.width (slice_index result 2)
            × IsSingle self.now.height (slice_index result 3) }
    {
        let zero = single_bits(0);
        [
            zero,
            zero,
            single_bits(self.width),
            single_bits(self.height),
            zero,
            single_bits(1),
        ]
    }
}
