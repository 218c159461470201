//! A recorder that keeps no commands, but the state that they leave the device in. Tests and the
//! program look there for what a list does.
#![tactic(auto)]

pub mod board;
pub mod state;
mod steps;
