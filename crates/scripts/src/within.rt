// Calls within a pass: what is set, and what is drawn or dispatched.
ghost use Rattle.scripts.specs.Words.{ReadsAs};
ghost use Rattle.scripts.specs.Calls.{seen_call, bind_group, immediates, vertex_buffer, viewport};
ghost use Rattle.scripts.specs.Calls.{scissor_rect, drawn, drawn_indirect, dispatched};
ghost use Rattle.scripts.specs.Calls.{dispatched_indirect, named};
ghost use Rattle.scripts.specs.Calls.{set_render_pipeline as render, set_compute_pipeline as compute};

use crate::fronts::{Front, all};
use crate::line::OwnedCall;
use crate::not_done::NotDone;
use crate::words::{number, wide};
use bindings::binding::{Buffer, BufferBinding};
use bindings::rect::Rect;
use std::alloc::Global;

// A uniform of a bind group: its base address and its offset.
#[derive(Clone, Copy)]
struct DynamicBuffer {
    base: u64,
    offset: u32,
}

impl Front for DynamicBuffer {
    ghost use Rattle.scripts.specs.Calls.{dynamic_buffer};

    ghost said = { dynamic_buffer };

    fn front(words: &[&str]) -> Result<(DynamicBuffer, usize), NotDone> {
        let [base, offset, ..] = words else {
            return Err(NotDone::BadLine);
        };
        let buffer = DynamicBuffer {
            base: wide(base)?,
            offset: number(offset)?,
        };
        Ok((buffer, 2))
    }
}

// A word of immediates.
impl Front for u32 {
    ghost use Rattle.scripts.specs.Calls.{word};

    ghost said = { word };

    fn front(words: &[&str]) -> Result<(u32, usize), NotDone> {
        let [word, ..] = words else {
            return Err(NotDone::BadLine);
        };
        Ok((number(word)?, 1))
    }
}

pub(crate) fn set_bind_group(alloc: Global, operands: &[&str]) -> Result<OwnedCall, NotDone>
    ensures { ReadsAs seen_call (bind_group operands.now) result }
{
    let [layout, index, table, words @ ..] = operands else {
        return Err(NotDone::BadLine);
    };
    let dynamic: Vec<DynamicBuffer> = all(alloc, words)?;
    Ok(OwnedCall::SetBindGroup {
        layout: String::from_str(alloc, layout)?,
        index: number(index)?,
        table: wide(table)?,
        bases: dynamic.iter().map(|buffer| buffer.base).collect(alloc)?,
        offsets: dynamic.iter().map(|buffer| buffer.offset).collect(alloc)?,
    })
}

pub(crate) fn set_immediates(alloc: Global, operands: &[&str]) -> Result<OwnedCall, NotDone>
    ensures { ReadsAs seen_call (immediates operands.now) result }
{
    let [layout, offset_bytes, words @ ..] = operands else {
        return Err(NotDone::BadLine);
    };
    Ok(OwnedCall::SetImmediates {
        layout: String::from_str(alloc, layout)?,
        offset_bytes: number(offset_bytes)?,
        words: all(alloc, words)?,
    })
}

pub(crate) fn set_render_pipeline(alloc: Global, operands: &[&str]) -> Result<OwnedCall, NotDone>
    ensures { ReadsAs seen_call (named (λ n. render n) operands.now) result }
{
    let [name] = operands else {
        return Err(NotDone::BadLine);
    };
    Ok(OwnedCall::SetRenderPipeline(String::from_str(alloc, name)?))
}

pub(crate) fn set_compute_pipeline(alloc: Global, operands: &[&str]) -> Result<OwnedCall, NotDone>
    ensures { ReadsAs seen_call (named (λ n. compute n) operands.now) result }
{
    let [name] = operands else {
        return Err(NotDone::BadLine);
    };
    Ok(OwnedCall::SetComputePipeline(String::from_str(alloc, name)?))
}

pub(crate) fn set_vertex_buffer(operands: &[&str]) -> Result<OwnedCall, NotDone>
    ensures { ReadsAs seen_call (vertex_buffer operands.now) result }
{
    let [slot, address, size, offset, part] = operands else {
        return Err(NotDone::BadLine);
    };
    let slot = number(slot)?;
    let buffer = Buffer {
        address: wide(address)?,
        size: wide(size)?,
    };
    Ok(OwnedCall::SetVertexBuffer {
        slot,
        binding: BufferBinding {
            buffer,
            offset: wide(offset)?,
            size: wide(part)?,
        },
    })
}

pub(crate) fn set_viewport(operands: &[&str]) -> Result<OwnedCall, NotDone>
    ensures { ReadsAs seen_call (viewport operands.now) result }
{
    let [x, y, width, height, least, greatest] = operands else {
        return Err(NotDone::BadLine);
    };
    Ok(OwnedCall::SetViewport([
        number(x)?,
        number(y)?,
        number(width)?,
        number(height)?,
        number(least)?,
        number(greatest)?,
    ]))
}

pub(crate) fn set_scissor_rect(operands: &[&str]) -> Result<OwnedCall, NotDone>
    ensures { ReadsAs seen_call (scissor_rect operands.now) result }
{
    let [x, y, width, height] = operands else {
        return Err(NotDone::BadLine);
    };
    Ok(OwnedCall::SetScissorRect(Rect {
        x: number(x)?,
        y: number(y)?,
        w: number(width)?,
        h: number(height)?,
    }))
}

pub(crate) fn draw(operands: &[&str]) -> Result<OwnedCall, NotDone>
    ensures { ReadsAs seen_call (drawn operands.now) result }
{
    let [first_vertex, vertex_count, first_instance, instance_count] = operands else {
        return Err(NotDone::BadLine);
    };
    Ok(OwnedCall::Draw {
        first_vertex: number(first_vertex)?,
        vertex_count: number(vertex_count)?,
        first_instance: number(first_instance)?,
        instance_count: number(instance_count)?,
    })
}

pub(crate) fn draw_indirect(operands: &[&str]) -> Result<OwnedCall, NotDone>
    ensures { ReadsAs seen_call (drawn_indirect operands.now) result }
{
    let [buffer, offset, count] = operands else {
        return Err(NotDone::BadLine);
    };
    Ok(OwnedCall::DrawIndirect {
        buffer: number(buffer)?,
        offset: wide(offset)?,
        count: number(count)?,
    })
}

pub(crate) fn dispatch(operands: &[&str]) -> Result<OwnedCall, NotDone>
    ensures { ReadsAs seen_call (dispatched operands.now) result }
{
    let [x, y, z] = operands else {
        return Err(NotDone::BadLine);
    };
    Ok(OwnedCall::DispatchWorkgroups([number(x)?, number(y)?, number(z)?]))
}

pub(crate) fn dispatch_indirect(operands: &[&str]) -> Result<OwnedCall, NotDone>
    ensures { ReadsAs seen_call (dispatched_indirect operands.now) result }
{
    let [buffer, offset] = operands else {
        return Err(NotDone::BadLine);
    };
    Ok(OwnedCall::DispatchWorkgroupsIndirect {
        buffer: number(buffer)?,
        offset: wide(offset)?,
    })
}
