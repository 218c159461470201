// What a draw replaced in the root slots.
ghost use Rattle.std.specs.Prelude.{◌≡◌, true};
ghost use Rattle.passes.specs.Account.{slot_below};

use crate::element::RootElement;

/// What a draw's special constants replaced: the element that stood at their slot, if the layout
/// has one, and which root slots were dirty. [`restore`](crate::state::PassState::restore) puts it
/// back when the draw is refused.
#[derive(Clone, Copy)]
pub struct Replaced {
    pub(crate) element: Option<(u32, RootElement)>,
    pub(crate) dirty: u64,
    ghost within: { slot_below element ≡ true },
}
