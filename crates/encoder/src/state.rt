//! What an encoder keeps beside its recorder.

/// What an encoder keeps for its list beside the recorder, in every phase.
#[derive(Clone, Copy)]
pub struct ListState {
    /// The descriptor handle that is bound where a pass leaves an attachment out.
    pub null_target: u64,
}
