//! The season plot that the program and its tests carry: one small frame with its axes, a curve,
//! the flood's markers and the next curve.
//!
//! The plot stands here twice: as calls of an encoder (`calls`) and as the commands that these come
//! to (`commands`). `plot_is_recorded` carries the statement that the calls record the commands.
//! A gauge has 512 samples of 16 bytes each, and a curve draws 360 of them, from sample 7 on.
//!
//! The markers are an indirect draw with a command signature of the layout's own, which writes the
//! special constants. The curve behind it needs them written again, and its first sample shows
//! whether they were.
#![tactic(auto)]

ghost use Rattle.std.specs.Prelude.{◌≡◌, Some, MatchResult};
ghost use Rattle.labels.specs.Kept.{units_of};
ghost use Rattle.runs.specs.Worked.{IsPlotted};
ghost use Rattle.season_plot.specs.Plot.{plot_label, plot_upload, plot_pipeline, PlotIsRecorded, DrawsHaveVertices};

pub mod calls;
pub mod commands;

use command_list::command::Barrier;
use command_list::fault::Fault;
use labels::label::Label;
use layouts::info::{BindGroupInfo, PipelineLayoutSpecialConstants};
use layouts::layout::PipelineLayout;
use layouts::pipeline::RenderPipeline;
use resources::barrier::{BufferBarrier, StateTransition};
use resources::batch::barrier;
use resources::uses::BufferUses;

// A line strip.
const LINE_STRIP: u32 = 3;

// The label: a small e with an acute accent.
const LABEL: [u8; 2] = [0xC3, 0xA9];

// The samples' buffer was copied to, and is read as vertices.
const UPLOAD: BufferBarrier = BufferBarrier {
    resource: 7,
    usage: StateTransition {
        from: BufferUses {
            bits: BufferUses::COPY_DST,
        },
        to: BufferUses {
            bits: BufferUses::VERTEX,
        },
    },
};

/// The layout of the worked plots and of the season plot: three slots, of which group 0 owns the
/// first two, a table and a uniform, and the special constants the third. `own` says whether
/// indirect calls take a command signature of the layout's own, as in the season plot.
pub fn layout(own: bool) -> Result<PipelineLayout, Fault>
    ensures { MatchResult result (IsPlotted own) (λ _. ⊥) }
{
    let group = BindGroupInfo {
        base_root_index: 0,
        table: true,
        uniforms: 1,
    };
    PipelineLayout::new(
        5,
        3,
        Some(PipelineLayoutSpecialConstants {
            root_index: 2,
            own_signature: own,
        }),
        None,
        [Some(group), None, None, None, None, None, None, None],
    )
}

/// The plot's pipeline, over its layout. It draws line strips whose vertices have 16 bytes.
pub fn pipeline(layout: PipelineLayout) -> RenderPipeline
    ensures { result ≡ plot_pipeline layout }
{
    let mut vertex_strides = [None; 16];
    vertex_strides[0] = Some(16);
    RenderPipeline {
        handle: 9,
        layout,
        topology: LINE_STRIP,
        vertex_strides,
    }
}

/// The label of the plot's pass. It is never refused.
pub fn label() -> Result<Label, Fault>
    ensures { MatchResult result (λ l. units_of l ≡ plot_label) (λ _. ⊥) }
{
    Label::new(&LABEL)
}

/// The barrier that the upload makes: the samples' buffer was copied to, and is read as vertices.
pub fn upload() -> Option<Barrier>
    ensures { result ≡ Some plot_upload }
{
    barrier(&UPLOAD)
}

/// Does nothing, and carries two statements. The plot's calls, over 360 bytes of space, record the
/// plot's commands. Each direct draw among these finds its vertices in the vertex buffer set last.
pub fn plot_is_recorded()
    ensures recorded { PlotIsRecorded }
    ensures vertices { DrawsHaveVertices }
{}
