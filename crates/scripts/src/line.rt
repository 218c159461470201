//! What a line of a script says.
ghost use Rattle.std.specs.Prelude.{◌≡◌};
ghost use Rattle.scripts.specs.Words.{ReadsAs};
ghost use Rattle.scripts.specs.Calls.{seen_call, call_said, alone as alone_said};
ghost use Rattle.scripts.specs.Lines.{said, seen_line, line_said, other_line, ReadsLine, ReadsText};

use crate::definitions::{
    compute_pipeline, layout, list_bytes, null_target, render_pipeline, scratch,
};
use crate::not_done::NotDone;
use crate::outside::{
    begin_compute_pass, begin_render_pass, transition_buffers, transition_textures,
};
use crate::within::{
    dispatch, dispatch_indirect, draw, draw_indirect, set_bind_group, set_compute_pipeline,
    set_immediates, set_render_pipeline, set_scissor_rect, set_vertex_buffer, set_viewport,
};
use bindings::binding::BufferBinding;
use bindings::rect::Rect;
use encoder::attachment::ColorAttachment;
use layouts::info::{
    BindGroupInfo, ImmediatesInfo, MAX_BIND_GROUPS, PipelineLayoutSpecialConstants,
};
use resources::barrier::{BufferBarrier, TextureBarrier};
use std::alloc::Global;

/// The parts of a layout, as `PipelineLayout::new` takes them.
#[derive(Drop)]
pub struct LayoutParts {
    pub signature: u32,
    pub total: u32,
    pub special: Option<PipelineLayoutSpecialConstants>,
    pub immediates: Option<ImmediatesInfo>,
    pub groups: [Option<BindGroupInfo>; MAX_BIND_GROUPS],
}

/// A pipeline that draws, with its layout by name.
#[derive(Drop)]
pub struct RenderParts {
    pub handle: u32,
    pub layout: String,
    pub topology: u32,
    pub strides: [Option<u32>; 16],
}

/// A pipeline that is dispatched, with its layout by name.
#[derive(Drop)]
pub struct ComputeParts {
    pub handle: u32,
    pub layout: String,
}

/// A call of the encoder, with its operands. Layouts and pipelines go by their names.
#[derive(Drop)]
pub enum OwnedCall {
    BeginEncoding,
    EndEncoding,
    DiscardEncoding,
    TransitionBuffers(Vec<BufferBarrier>),
    TransitionTextures(Vec<TextureBarrier>),
    BeginRenderPass {
        label: Option<Vec<u8>>,
        width: u32,
        height: u32,
        targets: Vec<Option<ColorAttachment>>,
    },
    EndRenderPass,
    BeginComputePass {
        label: Option<Vec<u8>>,
    },
    EndComputePass,
    SetBindGroup {
        layout: String,
        index: u32,
        table: u64,
        bases: Vec<u64>,
        offsets: Vec<u32>,
    },
    SetImmediates {
        layout: String,
        offset_bytes: u32,
        words: Vec<u32>,
    },
    SetRenderPipeline(String),
    SetComputePipeline(String),
    SetVertexBuffer {
        slot: u32,
        binding: BufferBinding,
    },
    SetViewport([u32; 6]),
    SetScissorRect(Rect),
    Draw {
        first_vertex: u32,
        vertex_count: u32,
        first_instance: u32,
        instance_count: u32,
    },
    DrawIndirect {
        buffer: u32,
        offset: u64,
        count: u32,
    },
    DispatchWorkgroups([u32; 3]),
    DispatchWorkgroupsIndirect {
        buffer: u32,
        offset: u64,
    },
}

/// What a line says: nothing, a definition, what the next encoding is made with, or a call.
#[derive(Drop)]
pub enum Line {
    Nothing,
    Layout { name: String, parts: LayoutParts },
    RenderPipeline { name: String, parts: RenderParts },
    ComputePipeline { name: String, parts: ComputeParts },
    NullTarget(u64),
    ListBytes(usize),
    Scratch { length: usize, fill: usize },
    Call(OwnedCall),
}

// A call with no operands.
fn alone(operands: &[&str], call: OwnedCall) -> Result<OwnedCall, NotDone>
    ensures { ReadsAs seen_call (alone_said (seen_call call) operands.now) result }
{
    if operands.is_empty() {
        Ok(call)
    } else {
        Err(NotDone::BadLine)
    }
}

fn read_call(alloc: Global, verb: &str, operands: &[&str]) -> Result<OwnedCall, NotDone>
    ensures { ReadsAs seen_call (call_said verb.entry operands.now) result }
{
    match verb {
        "begin_encoding" => alone(operands, OwnedCall::BeginEncoding),
        "end_encoding" => alone(operands, OwnedCall::EndEncoding),
        "discard_encoding" => alone(operands, OwnedCall::DiscardEncoding),
        "transition_buffers" => transition_buffers(alloc, operands),
        "transition_textures" => transition_textures(alloc, operands),
        "begin_render_pass" => begin_render_pass(alloc, operands),
        "end_render_pass" => alone(operands, OwnedCall::EndRenderPass),
        "begin_compute_pass" => begin_compute_pass(alloc, operands),
        "end_compute_pass" => alone(operands, OwnedCall::EndComputePass),
        "set_bind_group" => set_bind_group(alloc, operands),
        "set_immediates" => set_immediates(alloc, operands),
        "set_render_pipeline" => set_render_pipeline(alloc, operands),
        "set_compute_pipeline" => set_compute_pipeline(alloc, operands),
        "set_vertex_buffer" => set_vertex_buffer(operands),
        "set_viewport" => set_viewport(operands),
        "set_scissor_rect" => set_scissor_rect(operands),
        "draw" => draw(operands),
        "draw_indirect" => draw_indirect(operands),
        "dispatch_workgroups" => dispatch(operands),
        "dispatch_workgroups_indirect" => dispatch_indirect(operands),
        _ => Err(NotDone::BadLine),
    }
}

// A line that is no layout.
fn read_other(alloc: Global, verb: &str, operands: &[&str]) -> Result<Line, NotDone>
    ensures { ReadsAs seen_line (other_line verb.entry operands.now) result }
{
    match verb {
        "render_pipeline" => render_pipeline(alloc, operands),
        "compute_pipeline" => compute_pipeline(alloc, operands),
        "null_target" => null_target(operands),
        "list_bytes" => list_bytes(operands),
        "scratch" => scratch(operands),
        _ => Ok(Line::Call(read_call(alloc, verb, operands)?)),
    }
}

fn read_words(alloc: Global, words: &[&str]) -> Result<Line, NotDone>
    ensures { ReadsLine (line_said words.now) result }
{
    let [verb, operands @ ..] = words else {
        return Err(NotDone::BadLine);
    };
    match *verb {
        "layout" => layout(alloc, operands),
        _ => read_other(alloc, verb, operands),
    }
}

/// A line without its comment, which begins at the first `#`, and the blanks round it.
pub fn bare(text: &str) -> &str
    ensures { result.now ≡ said text.now }
{
    text.split_once('#')
        .map_or(text, |(before, _)| before)
        .trim()
}

/// What a line says: nothing exactly where it is bare of words. docs/SCRIPT.md has all lines.
///
/// Refused with 1: a layout with a group at an index of 8 or more.
#[tactic(auto, unfolding(crate::specs::Lines::ReadsText))]
pub fn read(alloc: Global, text: &str) -> Result<Line, NotDone>
    ensures { ReadsText (said text.now) result }
{
    let bare = bare(text);
    if bare.is_empty() {
        return Ok(Line::Nothing);
    }
    let words: Vec<&str> = bare.split_whitespace().collect(alloc)?;
    read_words(alloc, words.as_slice())
}
