//! Whole runs of an encoder: calls as values, made one after the other of an encoder in whichever phase it is, and what
//! is promised of every run.
#![tactic(auto)]

pub mod call;
pub mod drive;
pub mod laws;
pub mod phase;
