//! The calls of a compute pass.
ghost use Rattle.std.specs.Prelude.{◌≡◌, length, MatchResult, slice_index};
ghost use Rattle.command_list.specs.declared.command.Half.TheVariants.{Compute};
ghost use Rattle.resources.specs.Batches.{Kept};
ghost use Rattle.resources.specs.Listed.{changes_of};
ghost use Rattle.resources.specs.Usages.{buffer, texture};
ghost use Rattle.encoder.specs.Opening.{transition as transition_call};
ghost use Rattle.passes.specs.Calls.{set_bind_group, set_immediates, set_compute_pipeline, dispatch, dispatch_indirect};
ghost use Rattle.encoder.specs.Scenes.{discard_encoding, ending, quiet, set, drawing, taken, refused, Does};
ghost use Rattle.encoder.specs.Handled.{answered};
ghost use Rattle.command_list.specs.Refusals.{why_of};
ghost use Rattle.encoder.specs.Phases.{idle_scene, list_scene, compute_scene};

use crate::draw::{INDIRECT_BYTES, record_draw};
use crate::opening::record_ending;
use crate::phase::{ComputePass, Idle, Recording, Refusal};
use crate::pipeline::record_compute_pipeline;
use bindings::constants::SpecialConstants;
use command_list::command::{Fixed, Half};
use command_list::fault::{Fault, Number};
use device::recorder::Recorder;
use layouts::layout::PipelineLayout;
use layouts::pipeline::ComputePipeline;
use passes::state::BindGroup;
use resources::barrier::{BufferBarrier, TextureBarrier};
use resources::batch::transition;
use resources::scratch::Scratch;
use resources::uses::{BufferUses, TextureUses};

// The bytes of the record of a dispatch.
const DISPATCH_BYTES: usize = 15;

impl<R: Recorder> ComputePass<R> {
    /// Sets a bind group of the pass: its descriptor table, and the addresses of its uniform
    /// buffers with their dynamic offsets in bytes. Nothing is recorded before the next dispatch,
    /// which writes the dirty root slots by `SetComputeRootDescriptorTable` and
    /// `SetComputeRootConstantBufferView`.
    ///
    /// Refusals: 1 for an index of 8 or more; 3 where the layout has no such group, or where the
    /// group has a table and the one given is 0; 4 where there are not as many buffers as
    /// offsets, or not as many as the layout says; 5 at the index of the first address that comes
    /// to 2^64 or more; 6 where the layout has the root signature of the current one and is not
    /// equal to it.
    pub fn set_bind_group(
        &mut self,
        layout: &PipelineLayout,
        index: u32,
        group: BindGroup<'_>,
        dynamic_offsets: &[u32],
    ) -> Result<(), Fault>
        ensures { Does (compute_scene R.meaning self.old)
            (set (set_bind_group layout.now index group.entry.table
            group.entry.dynamic_buffers.now dynamic_offsets.now))
            (answered result)
            (compute_scene R.meaning self.new) }
    {
        self.pass
            .set_bind_group(layout, index, group, dynamic_offsets)
    }

    /// Writes words of the root constants that the shaders read as immediates, from an offset in
    /// bytes on. Nothing is recorded before the next dispatch, which writes them by
    /// `SetComputeRoot32BitConstant`.
    ///
    /// Refusals: 1 where the offset is no multiple of 4 or the words end past 32; 3 where the
    /// layout has no immediates; 6 where the layout has the root signature of the current one and
    /// is not equal to it.
    pub fn set_immediates(
        &mut self,
        layout: &PipelineLayout,
        offset_bytes: u32,
        words: &[u32],
    ) -> Result<(), Fault>
        ensures { Does (compute_scene R.meaning self.old)
            (set (set_immediates layout.now offset_bytes words.now))
            (answered result)
            (compute_scene R.meaning self.new) }
    {
        self.pass.set_immediates(layout, offset_bytes, words)
    }

    /// Sets the pipeline: `SetComputeRootSignature`, where another root signature was set last in
    /// this pass or the current layout's is another, and then `SetPipelineState`.
    ///
    /// Refusals: 3 where the pipeline is 0; 6 where its layout has the root signature of the
    /// current one and is not equal to it; 10 where the records do not fit the space.
    pub fn set_compute_pipeline(&mut self, pipeline: &ComputePipeline) -> Result<(), Fault>
        ensures { Does (compute_scene R.meaning self.old)
            (set (set_compute_pipeline pipeline.now))
            (answered result)
            (compute_scene R.meaning self.new) }
    {
        record_compute_pipeline(&mut self.recorder, &mut self.pass, pipeline)
    }

    /// Dispatches so many groups of threads along x, y and z: the dirty root slots are written,
    /// and then `Dispatch` is recorded.
    ///
    /// Refusals: 7 where no pipeline was set in this pass, or its root signature is not the
    /// current layout's; 8 at the lowest root slot of the layout that holds nothing, or something
    /// of another kind than its owner; 10 where the records do not fit the space.
    pub fn dispatch_workgroups(&mut self, count: [u32; 3]) -> Result<(), Fault>
        ensures { Does (compute_scene R.meaning self.old)
            (drawing (dispatch
            (slice_index count 0) (slice_index count 1) (slice_index count 2)))
            (answered result)
            (compute_scene R.meaning self.new) }
    {
        let [x, y, z] = count;
        let constants = SpecialConstants::from_dispatch(x, y, z);
        record_draw(
            &mut self.recorder,
            &mut self.pass,
            Some(constants),
            Fixed::Dispatch { x, y, z },
            DISPATCH_BYTES,
        )
    }

    /// Dispatches with the counts that stand in a buffer, `offset` bytes from its start: the
    /// dirty root slots are written, and then `ExecuteIndirect` is recorded with a count of 1.
    /// Where the layout has a command signature of its own, that writes the special constants.
    ///
    /// Refusals: 3 where the buffer is 0; 7, 8 and 10 as for
    /// [`dispatch_workgroups`](ComputePass::dispatch_workgroups).
    pub fn dispatch_workgroups_indirect(&mut self, buffer: u32, offset: u64) -> Result<(), Fault>
        ensures { Does (compute_scene R.meaning self.old)
            (drawing (dispatch_indirect buffer offset))
            (answered result)
            (compute_scene R.meaning self.new) }
    {
        if buffer == 0 {
            return Err(Number::Absent.at(0));
        }
        let command = Fixed::ExecuteIndirect {
            half: Half::Compute,
            special: self.pass.own_slot(),
            count: 1,
            buffer,
            offset,
        };
        record_draw(
            &mut self.recorder,
            &mut self.pass,
            None,
            command,
            INDIRECT_BYTES,
        )
    }

    /// Changes the usages of buffers, by one `ResourceBarrier` that has the barriers of all
    /// changes in their order; nothing is recorded where no change makes a barrier. The barriers
    /// are made in `scratch`, from its fill on.
    ///
    /// Refusals: 1 for a usage of 512 or more, and 3 for a resource that is 0, each at the index
    /// of its change; 9 where the scratch has more than 2048 entries or no room for the barriers;
    /// 10 where the record does not fit the space.
    pub fn transition_buffers(
        &mut self,
        scratch: &mut Scratch,
        barriers: &[BufferBarrier],
    ) -> Result<(), Fault>
        ensures lent { scratch.new.entries.ghost_name ≡ scratch.old.entries.ghost_name }
        ensures kept { Kept scratch.old.mark.fill scratch.new.mark.fill
            scratch.old.entries.now scratch.new.entries.now }
        ensures does { Does (compute_scene R.meaning self.old)
            (quiet (transition_call (changes_of (λ u. buffer u.bits) barriers.now)
            (length scratch.old.entries.now) scratch.old.mark.fill))
            (answered result)
            (compute_scene R.meaning self.new) }
    {
        transition::<BufferUses, R>(&mut self.recorder, scratch, barriers)
    }

    /// Changes the usages of textures, by one `ResourceBarrier` that has the barriers of all
    /// changes in their order; nothing is recorded where no change makes a barrier. The barriers
    /// are made in `scratch`, from its fill on.
    ///
    /// Refusals: 1 for a usage of 1024 or more, and 3 for a resource that is 0, each at the index
    /// of its change; 9 where the scratch has more than 2048 entries or no room for the barriers;
    /// 10 where the record does not fit the space.
    pub fn transition_textures(
        &mut self,
        scratch: &mut Scratch,
        barriers: &[TextureBarrier],
    ) -> Result<(), Fault>
        ensures lent { scratch.new.entries.ghost_name ≡ scratch.old.entries.ghost_name }
        ensures kept { Kept scratch.old.mark.fill scratch.new.mark.fill
            scratch.old.entries.now scratch.new.entries.now }
        ensures does { Does (compute_scene R.meaning self.old)
            (quiet (transition_call (changes_of (λ u. texture u.bits) barriers.now)
            (length scratch.old.entries.now) scratch.old.mark.fill))
            (answered result)
            (compute_scene R.meaning self.new) }
    {
        transition::<TextureUses, R>(&mut self.recorder, scratch, barriers)
    }

    /// Ends the pass: `SetDescriptorHeaps` with no heaps, and `EndEvent` where the opening had a
    /// label.
    ///
    /// Refused with 10 where the records do not fit the space; the pass is handed back.
    pub fn end_compute_pass(self) -> Result<Recording<R>, Refusal<ComputePass<R>>>
        ensures { MatchResult result
            (λ p. Does (compute_scene R.meaning self) (ending Compute) taken
            (list_scene R.meaning p))
            (λ e. Does (compute_scene R.meaning self) (ending Compute) (refused (why_of e.fault))
            (compute_scene R.meaning e.phase)) }
    {
        let ComputePass {
            mut recorder,
            own,
            pass,
        } = self;
        match record_ending(&mut recorder, pass.has_label) {
            Ok(()) => Ok(Recording { recorder, own }),
            Err(fault) => Err(Refusal {
                phase: ComputePass {
                    recorder,
                    own,
                    pass,
                },
                fault,
            }),
        }
    }

    /// Gives up the pass and its list. What stands in the recorder is of no use. Never refused.
    pub fn discard_encoding(self) -> Idle<R>
        ensures { Does (compute_scene R.meaning self)
            discard_encoding
            taken
            (idle_scene R.meaning result) }
    {
        let ComputePass {
            recorder,
            own,
            pass: _,
        } = self;
        Idle { recorder, own }
    }
}
