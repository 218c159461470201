//! The calls of a render pass.
ghost use Rattle.std.specs.Prelude.{MatchResult, slice_index};
ghost use Rattle.command_list.specs.declared.command.Half.TheVariants.{Graphics};
ghost use Rattle.passes.specs.Calls.{set_bind_group, set_immediates, set_render_pipeline};
ghost use Rattle.passes.specs.Calls.{set_vertex_buffer, draw, draw_indirect};
ghost use Rattle.encoder.specs.Opening.{set_viewport, set_scissor_rect};
ghost use Rattle.encoder.specs.Scenes.{discard_encoding, ending, quiet, set, drawing, taken, refused, Does};
ghost use Rattle.encoder.specs.Handled.{answered};
ghost use Rattle.command_list.specs.Refusals.{why_of};
ghost use Rattle.encoder.specs.Phases.{idle_scene, list_scene, render_scene};

use crate::draw::{INDIRECT_BYTES, record_draw};
use crate::opening::record_ending;
use crate::phase::{Idle, Recording, Refusal, RenderPass};
use crate::pipeline::record_render_pipeline;
use bindings::binding::BufferBinding;
use bindings::constants::SpecialConstants;
use bindings::rect::Rect;
use command_list::command::{Fixed, Half};
use command_list::fault::{Fault, Number};
use device::recorder::Recorder;
use layouts::layout::PipelineLayout;
use layouts::pipeline::RenderPipeline;
use passes::state::BindGroup;

// The bytes of the record of a draw.
const DRAW_BYTES: usize = 19;

impl<R: Recorder> RenderPass<R> {
    /// Sets a bind group of the pass: its descriptor table, and the addresses of its uniform
    /// buffers with their dynamic offsets in bytes. Nothing is recorded before the next draw,
    /// which writes the dirty root slots by `SetGraphicsRootDescriptorTable` and
    /// `SetGraphicsRootConstantBufferView`.
    ///
    /// Refusals: 1 for an index of 8 or more; 3 where the layout has no such group, or where the
    /// group has a table and the one given is 0; 4 where there are not as many buffers as
    /// offsets, or not as many as the layout says; 5 at the index of the first address that comes
    /// to 2^64 or more; 6 where the layout has the root signature of the current one and is not
    /// equal to it.
    pub fn set_bind_group(
        &mut self,
        layout: &PipelineLayout,
        index: u32,
        group: BindGroup<'_>,
        dynamic_offsets: &[u32],
    ) -> Result<(), Fault>
        ensures { Does (render_scene R.meaning self.old)
            (set (set_bind_group layout.now index group.entry.table
            group.entry.dynamic_buffers.now dynamic_offsets.now))
            (answered result)
            (render_scene R.meaning self.new) }
    {
        self.pass
            .set_bind_group(layout, index, group, dynamic_offsets)
    }

    /// Writes words of the root constants that the shaders read as immediates, from an offset in
    /// bytes on. Nothing is recorded before the next draw, which writes them by
    /// `SetGraphicsRoot32BitConstant`.
    ///
    /// Refusals: 1 where the offset is no multiple of 4 or the words end past 32; 3 where the
    /// layout has no immediates; 6 where the layout has the root signature of the current one and
    /// is not equal to it.
    pub fn set_immediates(
        &mut self,
        layout: &PipelineLayout,
        offset_bytes: u32,
        words: &[u32],
    ) -> Result<(), Fault>
        ensures { Does (render_scene R.meaning self.old)
            (set (set_immediates layout.now offset_bytes words.now))
            (answered result)
            (render_scene R.meaning self.new) }
    {
        self.pass.set_immediates(layout, offset_bytes, words)
    }

    /// Sets the pipeline: `SetGraphicsRootSignature`, where another root signature was set last
    /// in this pass or the current layout's is another, and then `SetPipelineState` and
    /// `IASetPrimitiveTopology`. A vertex slot to which the pipeline gives another stride is
    /// dirty.
    ///
    /// Refusals: 3 where the pipeline is 0; 6 where its layout has the root signature of the
    /// current one and is not equal to it; 10 where the records do not fit the space.
    pub fn set_render_pipeline(&mut self, pipeline: &RenderPipeline) -> Result<(), Fault>
        ensures { Does (render_scene R.meaning self.old)
            (set (set_render_pipeline pipeline.now))
            (answered result)
            (render_scene R.meaning self.new) }
    {
        record_render_pipeline(&mut self.recorder, &mut self.pass, pipeline)
    }

    /// Binds a part of a buffer to a vertex slot. Nothing is recorded before the next draw, which
    /// writes the dirty slots by `IASetVertexBuffers`.
    ///
    /// Refusals: 1 for a slot of 16 or more; 5 where the offset lies past the buffer's end, the
    /// address comes to 2^64 or more, or the size to 2^32 or more.
    pub fn set_vertex_buffer(&mut self, index: u32, binding: BufferBinding) -> Result<(), Fault>
        ensures { Does (render_scene R.meaning self.old)
            (set (set_vertex_buffer index binding))
            (answered result)
            (render_scene R.meaning self.new) }
    {
        self.pass.set_vertex_buffer(index, binding)
    }

    /// Sets the viewport by `RSSetViewports`: x, y, width, height, least and greatest depth, each
    /// the bits of an `f32`.
    ///
    /// Refused with 10 where the record does not fit the space.
    pub fn set_viewport(&mut self, viewport: [u32; 6]) -> Result<(), Fault>
        ensures { Does (render_scene R.meaning self.old)
            (quiet (set_viewport
            (slice_index viewport 0) (slice_index viewport 1) (slice_index viewport 2)
            (slice_index viewport 3) (slice_index viewport 4) (slice_index viewport 5)))
            (answered result)
            (render_scene R.meaning self.new) }
    {
        self.recorder.rs_set_viewports(viewport)
    }

    /// Sets the scissor rectangle by `RSSetScissorRects`, which takes its right and lower ends.
    ///
    /// Refusals: 5 where an end comes to 2^31 or more; 10 where the record does not fit the
    /// space.
    pub fn set_scissor_rect(&mut self, rect: Rect) -> Result<(), Fault>
        ensures { Does (render_scene R.meaning self.old)
            (quiet (set_scissor_rect rect.x rect.y rect.w rect.h))
            (answered result)
            (render_scene R.meaning self.new) }
    {
        let ends = rect.bounds()?;
        self.recorder
            .rs_set_scissor_rects(ends.left, ends.top, ends.right, ends.bottom)
    }

    /// Draws: the dirty vertex slots and root slots are written, and then `DrawInstanced` is
    /// recorded.
    ///
    /// Refusals: 7 where no pipeline was set in this pass, or its root signature is not the
    /// current layout's; 8 at the lowest root slot of the layout that holds nothing, or something
    /// of another kind than its owner; 10 where the records do not fit the space.
    pub fn draw(
        &mut self,
        first_vertex: u32,
        vertex_count: u32,
        first_instance: u32,
        instance_count: u32,
    ) -> Result<(), Fault>
        ensures { Does (render_scene R.meaning self.old)
            (drawing (draw first_vertex vertex_count first_instance instance_count))
            (answered result)
            (render_scene R.meaning self.new) }
    {
        let constants = SpecialConstants::from_draw(first_vertex, first_instance);
        let command = Fixed::DrawInstanced {
            vertices: vertex_count,
            instances: instance_count,
            first_vertex,
            first_instance,
        };
        record_draw(
            &mut self.recorder,
            &mut self.pass,
            Some(constants),
            command,
            DRAW_BYTES,
        )
    }

    /// Draws with arguments that stand in a buffer, `offset` bytes from its start, `draw_count`
    /// times: the dirty slots are written, and then `ExecuteIndirect` is recorded. Where the
    /// layout has a command signature of its own, that writes the special constants.
    ///
    /// Refusals: 3 where the buffer is 0; 7, 8 and 10 as for [`draw`](RenderPass::draw).
    pub fn draw_indirect(&mut self, buffer: u32, offset: u64, draw_count: u32) -> Result<(), Fault>
        ensures { Does (render_scene R.meaning self.old)
            (drawing (draw_indirect buffer offset draw_count))
            (answered result)
            (render_scene R.meaning self.new) }
    {
        if buffer == 0 {
            return Err(Number::Absent.at(0));
        }
        let command = Fixed::ExecuteIndirect {
            half: Half::Graphics,
            special: self.pass.own_slot(),
            count: draw_count,
            buffer,
            offset,
        };
        record_draw(
            &mut self.recorder,
            &mut self.pass,
            None,
            command,
            INDIRECT_BYTES,
        )
    }

    /// Ends the pass: `SetDescriptorHeaps` with no heaps, and `EndEvent` where the opening had a
    /// label.
    ///
    /// Refused with 10 where the records do not fit the space; the pass is handed back.
    pub fn end_render_pass(self) -> Result<Recording<R>, Refusal<RenderPass<R>>>
        ensures { MatchResult result
            (λ p. Does (render_scene R.meaning self) (ending Graphics) taken
            (list_scene R.meaning p))
            (λ e. Does (render_scene R.meaning self) (ending Graphics) (refused (why_of e.fault))
            (render_scene R.meaning e.phase)) }
    {
        let RenderPass {
            mut recorder,
            own,
            pass,
        } = self;
        match record_ending(&mut recorder, pass.has_label) {
            Ok(()) => Ok(Recording { recorder, own }),
            Err(fault) => Err(Refusal {
                phase: RenderPass {
                    recorder,
                    own,
                    pass,
                },
                fault,
            }),
        }
    }

    /// Gives up the pass and its list. What stands in the recorder is of no use. Never refused.
    pub fn discard_encoding(self) -> Idle<R>
        ensures { Does (render_scene R.meaning self)
            discard_encoding
            taken
            (idle_scene R.meaning result) }
    {
        let RenderPass {
            recorder,
            own,
            pass: _,
        } = self;
        Idle { recorder, own }
    }
}
