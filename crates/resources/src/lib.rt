//! Transitions of resources: usages and the Direct3D states that they come to, the barrier that a
//! change of usage makes, and the host's scratch array that holds the barriers of one call.
//!
//! [`batch::transition`] is the whole call: it checks all changes, puts their barriers into the
//! scratch and records them as one ResourceBarrier. A host keeps one [`scratch::Scratch`] for all
//! its calls; nothing here allocates.
#![tactic(auto)]

pub mod barrier;
pub mod batch;
pub mod conv;
pub mod scratch;
pub mod uses;
