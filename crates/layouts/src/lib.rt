//! Pipeline layouts: what a pipeline expects at its root slots.
//!
//! A [`layout::PipelineLayout`] is made once, from its parts, and each one that exists keeps the
//! rules that [`laws::every_layout_is_whole`] states. So calls that use a layout need not ask
//! again.
#![tactic(auto)]

mod checks;
pub mod info;
pub mod laws;
pub mod layout;
pub mod mask;
pub mod pipeline;
