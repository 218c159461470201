//! What the encoder's calls make of their operands: addresses and sizes of bindings, the four ends
//! of scissor rectangles, the viewport over a whole target, and special constants.
#![tactic(auto)]

pub mod binding;
pub mod constants;
pub mod extent;
pub mod rect;
