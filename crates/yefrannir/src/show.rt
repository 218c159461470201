// What a record looks like in print.
use command_list::command::{Barrier, BarrierType, Fixed, Half};
use command_list::record::{Entries, Handles, Record, Units};
use std::fmt;

/// The operands of a record, to be printed behind its name.
#[derive(Clone, Copy)]
pub struct Operands<'a>(pub Record<'a>);

impl fmt::Display for Operands<'_> {
    fn fmt<W: fmt::Write>(&self, f: &mut fmt::Formatter<W>) -> fmt::Result {
        match self.0 {
            Record::BeginEvent(units) => units_to(units, f),
            Record::OMSetRenderTargets(handles) => handles_to(handles, f),
            Record::ResourceBarrier(entries) => entries_to(entries, f),
            Record::Fixed(fixed) => fixed_to(fixed, f),
        }
    }
}

fn units_to<W: fmt::Write>(units: Units, f: &mut fmt::Formatter<W>) -> fmt::Result {
    write!(f, " units")?;
    for unit in (0..units.len()).filter_map(|i| units.get(i)) {
        write!(f, " {unit:04X}")?;
    }
    Ok(())
}

fn handles_to<W: fmt::Write>(handles: Handles, f: &mut fmt::Formatter<W>) -> fmt::Result {
    let n = handles.len();
    write!(f, " count {n}")?;
    for handle in (0..n).filter_map(|i| handles.get(i)) {
        write!(f, ", target {handle}")?;
    }
    Ok(())
}

fn entries_to<W: fmt::Write>(entries: Entries, f: &mut fmt::Formatter<W>) -> fmt::Result {
    for entry in (0..entries.len()).filter_map(|i| entries.get(i)) {
        barrier_to(entry, f)?;
    }
    Ok(())
}

fn barrier_to<W: fmt::Write>(barrier: Barrier, f: &mut fmt::Formatter<W>) -> fmt::Result {
    let Barrier {
        kind,
        resource,
        subresource,
        before,
        after,
    } = barrier;
    match kind {
        BarrierType::Uav => write!(f, " [UAV resource {resource}]"),
        BarrierType::Transition => write!(
            f,
            " [transition resource {resource}, subresource {subresource:X}, {before:#X} to {after:#X}]"
        ),
    }
}

fn fixed_to<W: fmt::Write>(fixed: Fixed, f: &mut fmt::Formatter<W>) -> fmt::Result {
    match fixed {
        Fixed::EndEvent => Ok(()),
        Fixed::SetDescriptorHeaps(on) => {
            let word = if on { "on" } else { "off" };
            write!(f, " {word}")
        }
        Fixed::SetRootSignature { signature, .. } => write!(f, " signature {signature}"),
        Fixed::SetPipelineState(pipeline) => write!(f, " pipeline {pipeline}"),
        Fixed::IASetPrimitiveTopology(topology) => write!(f, " topology {topology}"),
        Fixed::IASetVertexBuffers {
            slot,
            address,
            size,
            stride,
        } => write!(
            f,
            " slot {slot}, address {address}, size {size}, stride {stride}"
        ),
        Fixed::SetRoot32BitConstant {
            slot,
            word,
            value,
            ..
        } => write!(f, " slot {slot}, word {word}, value {value}"),
        Fixed::SetRootDescriptorTable { slot, address, .. } => {
            write!(f, " slot {slot}, table {address}")
        }
        Fixed::SetRootConstantBufferView { slot, address, .. } => {
            write!(f, " slot {slot}, view {address}")
        }
        Fixed::ClearRenderTargetView { target, colour } => {
            write!(f, " target {target}, colour")?;
            patterns_to(&colour, f)
        }
        Fixed::RSSetViewports(viewport) => patterns_to(&viewport, f),
        Fixed::RSSetScissorRects {
            left,
            top,
            right,
            bottom,
        } => write!(f, " left {left}, top {top}, right {right}, bottom {bottom}"),
        Fixed::DrawInstanced {
            vertices,
            instances,
            first_vertex,
            first_instance,
        } => write!(
            f,
            " vertices {vertices}, instances {instances}, first vertex {first_vertex}, first instance {first_instance}"
        ),
        Fixed::Dispatch { x, y, z } => write!(f, " {x} x {y} x {z}"),
        Fixed::ExecuteIndirect {
            half,
            special,
            count,
            buffer,
            offset,
        } => {
            let kind = match half {
                Half::Graphics => "draw",
                Half::Compute => "dispatch",
            };
            write!(
                f,
                " {kind}, count {count}, buffer {buffer}, offset {offset}"
            )?;
            match special {
                Some(slot) => write!(f, ", special slot {slot}"),
                None => write!(f, ", shared signature"),
            }
        }
    }
}

// Float patterns.
fn patterns_to<W: fmt::Write>(patterns: &[u32], f: &mut fmt::Formatter<W>) -> fmt::Result {
    for pattern in patterns {
        write!(f, " {pattern:08X}")?;
    }
    Ok(())
}
