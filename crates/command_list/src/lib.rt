//! The list file: the bytes of a file of Direct3D 12 calls, and what they say.
//!
//! A list file is a version byte and records, one for each call that an ID3D12GraphicsCommandList
//! takes. This crate has the calls as data ([`command`], [`record`]), the reader ([`reader`]), and
//! the one type in which every crate of the repository reports a refusal ([`fault`]).
//! `docs/LIST_FORMAT.md` describes the format, and `docs/REFUSALS.md` the refusals.
#![tactic(auto)]

pub mod code;
pub mod command;
pub mod fault;
mod fields;
pub mod reader;
pub mod record;
pub mod row;
