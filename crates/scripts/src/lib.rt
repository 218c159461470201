//! Scripts of calls: what a line says, the names that it defines, and what is printed.
//! docs/SCRIPT.md says what a script is.
#![tactic(auto)]

mod definitions;
mod fronts;
pub mod line;
pub mod names;
pub mod not_done;
mod outside;
#[cfg(test)]
mod printing_tests;
#[cfg(test)]
mod reading_tests;
pub mod shown;
mod within;
mod words;
