//! The encoder: WebGPU's calls on a command encoder, and the commands of a Direct3D 12 command
//! list that each comes to, as `wgpu-hal` records them. Each call is taken whole, or refused with
//! a number and a place, and then changes nothing. An encoder is in one of four phases
//! ([`phase`]), each a type with its own calls.
#![tactic(auto)]

pub mod attachment;
pub mod compute;
mod draw;
mod flush;
pub mod laws;
pub mod list;
mod opening;
pub mod phase;
mod pipeline;
pub mod render;
pub mod state;
