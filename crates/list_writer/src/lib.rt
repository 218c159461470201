//! Writes list files: each command as its record, behind the last one, in bytes of the caller.
//!
//! What is written reads back as the same commands, which the contracts say. Nothing is allocated,
//! and a command that is refused leaves the bytes as they stand. [`writer::Recordable`] is the way
//! in, also for recorders of other kinds.
#![tactic(auto)]

mod operands;
pub mod writer;
