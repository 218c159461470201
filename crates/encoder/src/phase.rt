//! The phases of an encoder. Each has its own calls, and a call that begins or ends a list or a
//! pass makes the next phase of the one before it. `wgpu-hal` has one `CommandEncoder` for all of
//! them.
ghost use Rattle.std.specs.Prelude.{◌≡◌, true};
ghost use Rattle.command_list.specs.declared.command.Half.TheVariants.{Graphics, Compute};
ghost use Rattle.encoder.specs.Scenes.{same_half};

use crate::state::ListState;
use command_list::fault::Fault;
use passes::state::PassState;

/// No list is being recorded. The recorder has what was recorded last.
pub struct Idle<R> {
    pub(crate) recorder: R,
    pub(crate) own: ListState,
}

/// A list is being recorded, outside of passes.
pub struct Recording<R> {
    pub(crate) recorder: R,
    pub(crate) own: ListState,
}

/// A list is being recorded, in a render pass.
pub struct RenderPass<R> {
    pub(crate) recorder: R,
    pub(crate) own: ListState,
    pub(crate) pass: PassState,
    ghost renders: { same_half pass.kind Graphics ≡ true },
}

/// A list is being recorded, in a compute pass.
pub struct ComputePass<R> {
    pub(crate) recorder: R,
    pub(crate) own: ListState,
    pub(crate) pass: PassState,
    ghost computes: { same_half pass.kind Compute ≡ true },
}

/// A refused call that would have ended its phase: the phase is handed back as it was.
pub struct Refusal<P> {
    /// The phase as it was before the call.
    pub phase: P,
    /// Why the call was refused, and where.
    pub fault: Fault,
}

impl<R> Idle<R> {
    /// The recorder, to be read.
    pub fn recorder(&self) -> &R
        ensures { result.now ≡ self.now.recorder }
    {
        &self.recorder
    }
}

impl<R> Recording<R> {
    /// The recorder, to be read.
    pub fn recorder(&self) -> &R
        ensures { result.now ≡ self.now.recorder }
    {
        &self.recorder
    }
}

impl<R> RenderPass<R> {
    /// The recorder, to be read.
    pub fn recorder(&self) -> &R
        ensures { result.now ≡ self.now.recorder }
    {
        &self.recorder
    }

    /// The state of the pass, to be read: what its accepted calls have set.
    pub fn pass(&self) -> &PassState
        ensures { result.now ≡ self.now.pass }
    {
        &self.pass
    }
}

impl<R> ComputePass<R> {
    /// The recorder, to be read.
    pub fn recorder(&self) -> &R
        ensures { result.now ≡ self.now.recorder }
    {
        &self.recorder
    }

    /// The state of the pass, to be read: what its accepted calls have set.
    pub fn pass(&self) -> &PassState
        ensures { result.now ≡ self.now.pass }
    {
        &self.pass
    }
}
