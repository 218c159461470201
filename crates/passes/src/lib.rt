//! The state of a render or compute pass: what its accepted calls have bound, and which slots are
//! dirty.
//!
//! [`state::PassState`] is wgpu-hal's type of that name. Set calls change it and record nothing; a
//! draw flushes the dirty slots into the list (the `encoder` crate does that) and then calls
//! [`mark`](state::PassState::mark). The contracts read it as an `Account` (specs/Account), over
//! functions of a slot's number.
#![tactic(auto)]

pub mod element;
pub mod laws;
pub mod replaced;
pub mod roots;
pub mod state;
pub mod vertices;
