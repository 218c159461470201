// What is asked of an encoder in any phase: its list, the state of its pass, and what it answered.
use list_bytes::ListBytes;
use passes::state::PassState;
use runs::call::Answer;
use runs::phase::Phase;
use scripts::not_done::NotDone;

/// A recorder whose list can be read.
pub(crate) trait Readable {
    /// The list, as far as it is written.
    fn written(&self) -> &[u8];
}

impl Readable for ListBytes<'_> {
    fn written(&self) -> &[u8] {
        self.list()
    }
}

/// The list that an encoder has.
pub(crate) fn written<R: Readable>(phase: &Phase<R>) -> &[u8] {
    match phase {
        Phase::Idle(idle) => idle.recorder().written(),
        Phase::Recording(list) => list.recorder().written(),
        Phase::Render(pass) => pass.recorder().written(),
        Phase::Compute(pass) => pass.recorder().written(),
    }
}

/// The state of the pass that an encoder is in.
pub(crate) fn pass_record<R>(phase: &Phase<R>) -> Option<PassState> {
    match phase {
        Phase::Idle(_) | Phase::Recording(_) => None,
        Phase::Render(pass) => Some(*pass.pass()),
        Phase::Compute(pass) => Some(*pass.pass()),
    }
}

/// What an answer says of a line: a call that was refused or not offered is not done.
pub(crate) fn outcome(answer: Answer) -> Result<(), NotDone> {
    match answer {
        Answer::Taken => Ok(()),
        Answer::Refused(fault) => Err(NotDone::Refused(fault)),
        Answer::NotOffered => Err(NotDone::NotOffered),
    }
}
