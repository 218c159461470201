// The calls of a script, as the encoder takes them.
use layouts::layout::PipelineLayout;
use layouts::pipeline::{ComputePipeline, RenderPipeline};
use passes::state::BindGroup;
use runs::call::Call;
use scripts::line::OwnedCall;
use scripts::names::Names;
use scripts::not_done::NotDone;

/// What a call names, kept here so that the call can borrow it.
#[derive(Drop)]
pub(crate) struct Found {
    layout: Option<PipelineLayout>,
    render_pipeline: Option<RenderPipeline>,
    compute_pipeline: Option<ComputePipeline>,
}

impl Found {
    /// Nothing yet.
    pub(crate) fn new() -> Found {
        Found {
            layout: None,
            render_pipeline: None,
            compute_pipeline: None,
        }
    }
}

/// The call that a line says, with what it names looked up. A name that is not defined is refused.
pub(crate) fn meant<'a>(
    names: &Names,
    call: &'a OwnedCall,
    found: &'a mut Found,
) -> Result<Call<'a>, NotDone> {
    Ok(match call {
        OwnedCall::BeginEncoding => Call::BeginEncoding,
        OwnedCall::EndEncoding => Call::EndEncoding,
        OwnedCall::DiscardEncoding => Call::DiscardEncoding,
        OwnedCall::TransitionBuffers(barriers) => Call::TransitionBuffers(barriers.as_slice()),
        OwnedCall::TransitionTextures(barriers) => Call::TransitionTextures(barriers.as_slice()),
        OwnedCall::BeginRenderPass {
            label,
            width,
            height,
            targets,
        } => Call::BeginRenderPass {
            label: label.as_ref().map(|bytes| bytes.as_slice()),
            width: *width,
            height: *height,
            attachments: targets.as_slice(),
        },
        OwnedCall::EndRenderPass => Call::EndRenderPass,
        OwnedCall::BeginComputePass { label } => Call::BeginComputePass {
            label: label.as_ref().map(|bytes| bytes.as_slice()),
        },
        OwnedCall::EndComputePass => Call::EndComputePass,
        OwnedCall::SetBindGroup {
            layout,
            index,
            table,
            bases,
            offsets,
        } => Call::SetBindGroup {
            layout: found.layout.insert(names.layout(layout.as_str())?),
            index: *index,
            group: BindGroup {
                table: *table,
                dynamic_buffers: bases.as_slice(),
            },
            dynamic_offsets: offsets.as_slice(),
        },
        OwnedCall::SetImmediates {
            layout,
            offset_bytes,
            words,
        } => Call::SetImmediates {
            layout: found.layout.insert(names.layout(layout.as_str())?),
            offset_bytes: *offset_bytes,
            words: words.as_slice(),
        },
        OwnedCall::SetRenderPipeline(name) => {
            let pipeline = names.render_pipeline(name.as_str())?;
            Call::SetRenderPipeline(found.render_pipeline.insert(pipeline))
        }
        OwnedCall::SetComputePipeline(name) => {
            let pipeline = names.compute_pipeline(name.as_str())?;
            Call::SetComputePipeline(found.compute_pipeline.insert(pipeline))
        }
        OwnedCall::SetVertexBuffer { slot, binding } => Call::SetVertexBuffer {
            index: *slot,
            binding: *binding,
        },
        OwnedCall::SetViewport(viewport) => Call::SetViewport(*viewport),
        OwnedCall::SetScissorRect(rect) => Call::SetScissorRect(*rect),
        OwnedCall::Draw {
            first_vertex,
            vertex_count,
            first_instance,
            instance_count,
        } => Call::Draw {
            first_vertex: *first_vertex,
            vertex_count: *vertex_count,
            first_instance: *first_instance,
            instance_count: *instance_count,
        },
        OwnedCall::DrawIndirect {
            buffer,
            offset,
            count,
        } => Call::DrawIndirect {
            buffer: *buffer,
            offset: *offset,
            draw_count: *count,
        },
        OwnedCall::DispatchWorkgroups(count) => Call::DispatchWorkgroups(*count),
        OwnedCall::DispatchWorkgroupsIndirect { buffer, offset } => {
            Call::DispatchWorkgroupsIndirect {
                buffer: *buffer,
                offset: *offset,
            }
        }
    })
}
