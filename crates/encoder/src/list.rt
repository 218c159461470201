//! The calls outside of passes: a list is begun, its passes are opened, and it is ended.
ghost use Rattle.std.specs.Prelude.{◌≡◌, length, MatchResult, option_map};
ghost use Rattle.resources.specs.Batches.{Kept};
ghost use Rattle.resources.specs.Listed.{changes_of};
ghost use Rattle.resources.specs.Usages.{buffer, texture};
ghost use Rattle.encoder.specs.Opening.{render_pass, compute_pass, transition as transition_call};
ghost use Rattle.encoder.specs.Scenes.{begin_encoding, end_encoding, discard_encoding};
ghost use Rattle.encoder.specs.Scenes.{opening, quiet, taken, refused, Does};
ghost use Rattle.encoder.specs.Handled.{answered};
ghost use Rattle.command_list.specs.Refusals.{why_of};
ghost use Rattle.encoder.specs.Phases.{idle_scene, list_scene, render_scene, compute_scene, fresh};

use crate::attachment::ColorAttachment;
use crate::opening::{open_compute, open_render};
use crate::phase::{ComputePass, Idle, Recording, Refusal, RenderPass};
use crate::state::ListState;
use command_list::command::Half;
use command_list::fault::Fault;
use device::recorder::Recorder;
use passes::state::PassState;
use resources::barrier::{BufferBarrier, TextureBarrier};
use resources::batch::transition;
use resources::scratch::Scratch;
use resources::uses::{BufferUses, TextureUses};

impl<R: Recorder> Idle<R> {
    /// An encoder over a recorder. `null_target` is the descriptor handle that a render pass
    /// binds in place of an attachment that is left out (`null_rtv_handle` of `wgpu-hal`).
    pub fn new(recorder: R, null_target: u64) -> Idle<R>
        ensures recorder { result.recorder ≡ recorder }
        ensures scene { idle_scene R.meaning result ≡ fresh null_target (R.meaning recorder) }
    {
        Idle {
            recorder,
            own: ListState { null_target },
        }
    }

    /// Begins a list: the recorder starts anew (`ID3D12GraphicsCommandList::Reset`). Never
    /// refused.
    pub fn begin_encoding(self) -> Recording<R>
        ensures { Does (idle_scene R.meaning self)
            begin_encoding
            taken
            (list_scene R.meaning result) }
    {
        let Idle { mut recorder, own } = self;
        recorder.start_anew();
        Recording { recorder, own }
    }

    /// The recorder, with what was recorded last.
    pub fn into_recorder(self) -> R
        ensures { result ≡ self.recorder }
    {
        let Idle { recorder, own: _ } = self;
        recorder
    }
}

impl<R: Recorder> Recording<R> {
    /// Changes the usages of buffers, by one `ResourceBarrier` that has the barriers of all
    /// changes in their order; nothing is recorded where no change makes a barrier. The barriers
    /// are made in `scratch`, from its fill on.
    ///
    /// Refusals: 1 for a usage of 512 or more, and 3 for a resource that is 0, each at the index
    /// of its change; 9 where the scratch has more than 2048 entries or no room for the barriers;
    /// 10 where the record does not fit the space.
    pub fn transition_buffers(
        &mut self,
        scratch: &mut Scratch,
        barriers: &[BufferBarrier],
    ) -> Result<(), Fault>
        ensures lent { scratch.new.entries.ghost_name ≡ scratch.old.entries.ghost_name }
        ensures kept { Kept scratch.old.mark.fill scratch.new.mark.fill
            scratch.old.entries.now scratch.new.entries.now }
        ensures does { Does (list_scene R.meaning self.old)
            (quiet (transition_call (changes_of (λ u. buffer u.bits) barriers.now)
            (length scratch.old.entries.now) scratch.old.mark.fill))
            (answered result)
            (list_scene R.meaning self.new) }
    {
        transition::<BufferUses, R>(&mut self.recorder, scratch, barriers)
    }

    /// Changes the usages of textures, by one `ResourceBarrier` that has the barriers of all
    /// changes in their order; nothing is recorded where no change makes a barrier. The barriers
    /// are made in `scratch`, from its fill on.
    ///
    /// Refusals: 1 for a usage of 1024 or more, and 3 for a resource that is 0, each at the index
    /// of its change; 9 where the scratch has more than 2048 entries or no room for the barriers;
    /// 10 where the record does not fit the space.
    pub fn transition_textures(
        &mut self,
        scratch: &mut Scratch,
        barriers: &[TextureBarrier],
    ) -> Result<(), Fault>
        ensures lent { scratch.new.entries.ghost_name ≡ scratch.old.entries.ghost_name }
        ensures kept { Kept scratch.old.mark.fill scratch.new.mark.fill
            scratch.old.entries.now scratch.new.entries.now }
        ensures does { Does (list_scene R.meaning self.old)
            (quiet (transition_call (changes_of (λ u. texture u.bits) barriers.now)
            (length scratch.old.entries.now) scratch.old.mark.fill))
            (answered result)
            (list_scene R.meaning self.new) }
    {
        transition::<TextureUses, R>(&mut self.recorder, scratch, barriers)
    }

    /// Ends the list (`ID3D12GraphicsCommandList::Close`). The recorder has it whole. Never
    /// refused.
    pub fn end_encoding(self) -> Idle<R>
        ensures { Does (list_scene R.meaning self)
            end_encoding
            taken
            (idle_scene R.meaning result) }
    {
        let Recording { recorder, own } = self;
        Idle { recorder, own }
    }

    /// Gives up the list. What stands in the recorder is of no use. Never refused.
    pub fn discard_encoding(self) -> Idle<R>
        ensures { Does (list_scene R.meaning self)
            discard_encoding
            taken
            (idle_scene R.meaning result) }
    {
        let Recording {
            recorder: unfinished,
            own,
        } = self;
        Idle {
            recorder: unfinished,
            own,
        }
    }

    /// Opens a render pass: `BeginEvent` with the label, if there is one, `SetDescriptorHeaps`,
    /// `OMSetRenderTargets`, a `ClearRenderTargetView` for each attachment with
    /// [`ColorAttachment::LOAD_CLEAR`], and `RSSetViewports` and `RSSetScissorRects` over the
    /// whole extent. The label is UTF-8, width and height count texels, and the null target
    /// stands in for an attachment that is left out.
    ///
    /// Refusals: 1 at place 8 for more than 8 attachments; 1 for a width or height of 0 or above
    /// 16384; 1 for a label of more than 256 bytes, 2 for one that is not UTF-8; 3 at the index
    /// of the first attachment whose target, or the null target in its place, is 0; 10 where the
    /// records do not fit the space. The list is handed back.
    pub fn begin_render_pass(
        self,
        label: Option<&[u8]>,
        width: u32,
        height: u32,
        attachments: &[Option<ColorAttachment>],
    ) -> Result<RenderPass<R>, Refusal<Recording<R>>>
        ensures { let bytes = option_map (λ b. b.now) label.entry in
            let call = opening (render_pass bytes width height attachments.now) in
            MatchResult result
            (λ p. Does (list_scene R.meaning self) call taken (render_scene R.meaning p))
            (λ e. Does (list_scene R.meaning self) call (refused (why_of e.fault))
            (list_scene R.meaning e.phase)) }
    {
        let Recording { mut recorder, own } = self;
        match open_render(
            &mut recorder,
            own.null_target,
            label,
            width,
            height,
            attachments,
        ) {
            Ok(()) => Ok(RenderPass {
                recorder,
                own,
                pass: PassState::new(Half::Graphics, label.is_some()),
            }),
            Err(fault) => Err(Refusal {
                phase: Recording { recorder, own },
                fault,
            }),
        }
    }

    /// Opens a compute pass: `BeginEvent` with the label, if there is one, and
    /// `SetDescriptorHeaps`.
    ///
    /// Refusals: 1 for a label of more than 256 bytes, 2 for one that is not UTF-8; 10 where the
    /// records do not fit the space. The list is handed back.
    pub fn begin_compute_pass(
        self,
        label: Option<&[u8]>,
    ) -> Result<ComputePass<R>, Refusal<Recording<R>>>
        ensures { let call = opening (compute_pass (option_map (λ b. b.now) label.entry)) in
            MatchResult result
            (λ p. Does (list_scene R.meaning self) call taken (compute_scene R.meaning p))
            (λ e. Does (list_scene R.meaning self) call (refused (why_of e.fault))
            (list_scene R.meaning e.phase)) }
    {
        let Recording { mut recorder, own } = self;
        match open_compute(&mut recorder, label) {
            Ok(()) => Ok(ComputePass {
                recorder,
                own,
                pass: PassState::new(Half::Compute, label.is_some()),
            }),
            Err(fault) => Err(Refusal {
                phase: Recording { recorder, own },
                fault,
            }),
        }
    }
}
