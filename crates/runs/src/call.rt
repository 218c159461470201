//! A call of an encoder as a value, with its operands, and what it is answered.
ghost use Rattle.std.specs.Prelude.{◌≡◌};
ghost use Rattle.runs.specs.Leaving.{leaves};

use bindings::binding::BufferBinding;
use bindings::rect::Rect;
use command_list::fault::Fault;
use encoder::attachment::ColorAttachment;
use layouts::layout::PipelineLayout;
use layouts::pipeline::{ComputePipeline, RenderPipeline};
use passes::state::BindGroup;
use resources::barrier::{BufferBarrier, TextureBarrier};

/// A call of an encoder. The cases have the names and operands of the phases' methods; which phase offers which call is
/// in docs/CALLS.md. (`command_list::command::Call` is another thing: a command with its lists.)
#[derive(Clone, Copy)]
pub enum Call<'a> {
    BeginEncoding,
    EndEncoding,
    DiscardEncoding,
    TransitionBuffers(&'a [BufferBarrier]),
    TransitionTextures(&'a [TextureBarrier]),
    BeginRenderPass {
        label: Option<&'a [u8]>,
        width: u32,
        height: u32,
        attachments: &'a [Option<ColorAttachment>],
    },
    EndRenderPass,
    BeginComputePass {
        label: Option<&'a [u8]>,
    },
    EndComputePass,
    SetBindGroup {
        layout: &'a PipelineLayout,
        index: u32,
        group: BindGroup<'a>,
        dynamic_offsets: &'a [u32],
    },
    SetImmediates {
        layout: &'a PipelineLayout,
        offset_bytes: u32,
        words: &'a [u32],
    },
    SetRenderPipeline(&'a RenderPipeline),
    SetComputePipeline(&'a ComputePipeline),
    SetVertexBuffer {
        index: u32,
        binding: BufferBinding,
    },
    SetViewport([u32; 6]),
    SetScissorRect(Rect),
    Draw {
        first_vertex: u32,
        vertex_count: u32,
        first_instance: u32,
        instance_count: u32,
    },
    DrawIndirect {
        buffer: u32,
        offset: u64,
        draw_count: u32,
    },
    DispatchWorkgroups([u32; 3]),
    DispatchWorkgroupsIndirect {
        buffer: u32,
        offset: u64,
    },
}

impl Call<'_> {
    // Whether the call leaves its phase where it is taken: it begins or ends a list or a pass.
    pub(crate) fn leaves_phase(&self) -> bool
        ensures { result ≡ leaves self.now }
    {
        matches!(
            self,
            Call::BeginEncoding
                | Call::EndEncoding
                | Call::DiscardEncoding
                | Call::BeginRenderPass { .. }
                | Call::EndRenderPass
                | Call::BeginComputePass { .. }
                | Call::EndComputePass
        )
    }
}

/// What a call was answered.
#[derive(Clone, Copy)]
pub enum Answer {
    /// It was taken, and all its commands were recorded.
    Taken,
    /// It was refused, and left everything as it was.
    Refused(Fault),
    /// The encoder's phase has no such call. Nothing was asked or changed.
    NotOffered,
}
