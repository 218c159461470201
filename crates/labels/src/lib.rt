//! Labels: UTF-8 bytes turned into the UTF-16 units of an event, closed by a 0. UTF-8 and UTF-16
//! are those of the Unicode standard, chapter 3, section 3.9.
#![tactic(auto)]

pub mod label;
pub mod laws;
