// Calls outside passes: those that open one, and changes of usage.
ghost use Rattle.std.specs.Prelude.{option_map};
ghost use Rattle.scripts.specs.Words.{Reads, ReadsAs};
ghost use Rattle.scripts.specs.Fronts.{all as all_said};
ghost use Rattle.scripts.specs.Calls.{transition_buffers as buffers, transition_textures as textures};
ghost use Rattle.scripts.specs.Calls.{seen_call, buffer_change, texture_change, attachment};
ghost use Rattle.scripts.specs.Calls.{render_pass, compute_pass, target as target_said};

use crate::fronts::{Front, all};
use crate::line::OwnedCall;
use crate::not_done::NotDone;
use crate::words::{label, number, wide};
use encoder::attachment::ColorAttachment;
use resources::barrier::{BufferBarrier, ResourceBarrier, StateTransition, TextureBarrier};
use resources::uses::{BufferUses, TextureUses};
use std::alloc::Global;

// A buffer with its usages before and after.
impl Front for BufferBarrier {
    ghost said = { buffer_change };

    fn front(words: &[&str]) -> Result<(BufferBarrier, usize), NotDone> {
        let [resource, from, to, ..] = words else {
            return Err(NotDone::BadLine);
        };
        let (resource, from, to) = (number(resource)?, number(from)?, number(to)?);
        let usage = StateTransition {
            from: BufferUses { bits: from },
            to: BufferUses { bits: to },
        };
        Ok((ResourceBarrier { resource, usage }, 3))
    }
}

// A texture with its usages before and after.
impl Front for TextureBarrier {
    ghost said = { texture_change };

    fn front(words: &[&str]) -> Result<(TextureBarrier, usize), NotDone> {
        let [resource, from, to, ..] = words else {
            return Err(NotDone::BadLine);
        };
        let (resource, from, to) = (number(resource)?, number(from)?, number(to)?);
        let usage = StateTransition {
            from: TextureUses { bits: from },
            to: TextureUses { bits: to },
        };
        Ok((ResourceBarrier { resource, usage }, 3))
    }
}

pub(crate) fn transition_buffers(alloc: Global, operands: &[&str]) -> Result<OwnedCall, NotDone>
    ensures { ReadsAs seen_call (option_map (λ cs. buffers cs) (all_said buffer_change operands.now))
        result }
{
    Ok(OwnedCall::TransitionBuffers(all(alloc, operands)?))
}

pub(crate) fn transition_textures(alloc: Global, operands: &[&str]) -> Result<OwnedCall, NotDone>
    ensures { ReadsAs seen_call
        (option_map (λ cs. textures cs) (all_said texture_change operands.now)) result }
{
    Ok(OwnedCall::TransitionTextures(all(alloc, operands)?))
}

// The word for a target, and what it says.
fn target(words: &[&str]) -> Result<(Option<ColorAttachment>, usize), NotDone>
    ensures { Reads (target_said words.now) result }
{
    let [_, handle, ops, red, green, blue, alpha, ..] = words else {
        return Err(NotDone::BadLine);
    };
    let target = ColorAttachment {
        target: wide(handle)?,
        ops: number(ops)?,
        clear_value: [number(red)?, number(green)?, number(blue)?, number(alpha)?],
    };
    Ok((Some(target), 7))
}

// An attachment: the word for none, or a target.
impl Front for Option<ColorAttachment> {
    ghost said = { attachment };

    fn front(words: &[&str]) -> Result<(Option<ColorAttachment>, usize), NotDone> {
        let [kind, ..] = words else {
            return Err(NotDone::BadLine);
        };
        match *kind {
            "none" => Ok((None, 1)),
            "target" => target(words),
            _ => Err(NotDone::BadLine),
        }
    }
}

pub(crate) fn begin_render_pass(alloc: Global, operands: &[&str]) -> Result<OwnedCall, NotDone>
    ensures { ReadsAs seen_call (render_pass operands.now) result }
{
    let [word, width, height, words @ ..] = operands else {
        return Err(NotDone::BadLine);
    };
    Ok(OwnedCall::BeginRenderPass {
        label: label(alloc, word)?,
        width: number(width)?,
        height: number(height)?,
        targets: all(alloc, words)?,
    })
}

pub(crate) fn begin_compute_pass(alloc: Global, operands: &[&str]) -> Result<OwnedCall, NotDone>
    ensures { ReadsAs seen_call (compute_pass operands.now) result }
{
    let [word] = operands else {
        return Err(NotDone::BadLine);
    };
    let label = label(alloc, word)?;
    Ok(OwnedCall::BeginComputePass { label })
}
