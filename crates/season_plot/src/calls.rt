// The plot as calls of an encoder.
ghost use Rattle.std.specs.Prelude.{◌≡◌, ℕ, map};
ghost use Rattle.runs.specs.Offering.{call_of};
ghost use Rattle.season_plot.specs.Plot.{vertices_at, line_from, plot_calls};

use crate::{LABEL, UPLOAD};
use bindings::binding::{Buffer, BufferBinding};
use encoder::attachment::ColorAttachment;
use layouts::pipeline::RenderPipeline;
use passes::state::BindGroup;
use resources::barrier::BufferBarrier;
use runs::call::Call;

const UPLOADS: [BufferBarrier; 1] = [UPLOAD];

// The plot's target, which is cleared to white.
const TARGETS: [Option<ColorAttachment>; 1] = [Some(ColorAttachment {
    target: 1,
    ops: 2,
    clear_value: [0x3F80_0000; 4],
})];

const UNIFORMS: [u64; 1] = [65536];

const OFFSETS: [u32; 1] = [256];

// The bytes of the axes: 3 vertices of 16 bytes.
const AXES: u64 = 48;

// The bytes of a gauge's samples: 512 vertices of 16 bytes.
const SAMPLES: u64 = 8192;

// The vertices of a line, at vertex slot 0.
fn vertices(address: u64, size: u64) -> Call<'static>
    ensures { (len fill : ℕ) → call_of len fill result ≡ vertices_at address size }
{
    Call::SetVertexBuffer {
        index: 0,
        binding: BufferBinding {
            buffer: Buffer { address, size },
            offset: 0,
            size: 0,
        },
    }
}

// A line through so many samples, from a first one on.
fn line(first_vertex: u32, vertex_count: u32) -> Call<'static>
    ensures { (len fill : ℕ) → call_of len fill result ≡ line_from first_vertex vertex_count }
{
    Call::Draw {
        first_vertex,
        vertex_count,
        first_instance: 0,
        instance_count: 1,
    }
}

/// How many calls the plot has.
pub const CALLS: usize = 14;

/// The plot's calls, over its pipeline: the upload, then a pass under a label with the axes, a
/// curve from sample 7, the flood's markers, which the device draws as buffer 8 says, and another
/// gauge's curve, from sample 7 too. The axes and each curve have a vertex buffer of their own.
///
/// With one free entry in the scratch and 360 bytes of space every call is taken, as
/// `plot_is_recorded` says.
pub fn calls(pipeline: &RenderPipeline) -> [Call<'_>; CALLS]
    ensures { (len fill : ℕ) → map (call_of len fill) result ≡ plot_calls len fill pipeline.now }
{
    [
        Call::BeginEncoding,
        Call::TransitionBuffers(&UPLOADS),
        Call::BeginRenderPass {
            label: Some(&LABEL),
            width: 640,
            height: 480,
            attachments: &TARGETS,
        },
        Call::SetRenderPipeline(pipeline),
        Call::SetBindGroup {
            layout: &pipeline.layout,
            index: 0,
            group: BindGroup {
                table: 4096,
                dynamic_buffers: &UNIFORMS,
            },
            dynamic_offsets: &OFFSETS,
        },
        vertices(524288, AXES),
        line(0, 3),
        vertices(1048576, SAMPLES),
        line(7, 360),
        Call::DrawIndirect {
            buffer: 8,
            offset: 0,
            draw_count: 4,
        },
        vertices(2097152, SAMPLES),
        line(7, 360),
        Call::EndRenderPass,
        Call::EndEncoding,
    ]
}
