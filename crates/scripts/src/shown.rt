//! What is printed: a record of a list, and the record of a pass.
ghost use Rattle.std.specs.Prelude.{◌≡◌, Some};
ghost use Rattle.std.specs.Fmt.{DisplaysOnOk};
ghost use Rattle.command_list.specs.Commands.{fields, entry, BeginEvent, OMSetRenderTargets};
ghost use Rattle.command_list.specs.Commands.{ResourceBarrier};
ghost use Rattle.command_list.specs.Seen.{fixed_command, every, entries_of};
ghost use Rattle.scripts.specs.Shown.{operands, by_slot, shown_element, shown_view};
ghost use Rattle.scripts.specs.Shown.{count_at, words_at, word_list};

use command_list::command::{Barrier, Fixed, Half};
use command_list::record::{Entries, Handles, Record, Units};
use list_writer::writer::Recordable;
use passes::element::RootElement;
use passes::roots::{MAX_IMMEDIATES, RootState};
use passes::state::PassState;
use passes::vertices::VertexBufferView;
use std::fmt;

/// A record: its code and its operands, in the order of docs/LIST_FORMAT.md, decimal.
#[derive(Clone, Copy)]
pub struct ShownRecord<'a>(pub Record<'a>);

impl fmt::Display for ShownRecord<'_> {
    ghost use Rattle.std.specs.Prelude.{Some};
    ghost use Rattle.command_list.specs.Seen.{command_of};
    ghost use Rattle.scripts.specs.Shown.{shown_command};

    ghost output = { λ shown. Some (shown_command (command_of shown.0)) };

    fn fmt<W: fmt::Write>(&self, f: &mut fmt::Formatter<W>) -> fmt::Result {
        let ShownRecord(record) = *self;
        let code = u8::from(record.code());
        write!(f, "{code}")?;
        match record {
            Record::BeginEvent(units) => units_to(units, f),
            Record::OMSetRenderTargets(handles) => handles_to(handles, f),
            Record::ResourceBarrier(entries) => entries_to(entries, f),
            Record::Fixed(fixed) => fixed_to(fixed, f),
        }
    }
}

// The units of a label.
fn units_to<W: fmt::Write>(units: Units, f: &mut fmt::Formatter<W>) -> fmt::Result
    ensures { DisplaysOnOk W.write_str_gives f.old result
        (Some (operands (fields (BeginEvent (every 2 units.entry.bytes.now))))) f.new }
{
    for i in 0..units.len() {
        if let Some(unit) = units.get(i) {
            write!(f, " {unit}")?;
        }
    }
    Ok(())
}

// How many handles there are, and the handles.
fn handles_to<W: fmt::Write>(handles: Handles, f: &mut fmt::Formatter<W>) -> fmt::Result
    ensures { DisplaysOnOk W.write_str_gives f.old result
        (Some (operands (fields (OMSetRenderTargets (every 8 handles.entry.bytes.now))))) f.new }
{
    let count = handles.len();
    write!(f, " {count}")?;
    for i in 0..count {
        if let Some(handle) = handles.get(i) {
            write!(f, " {handle}")?;
        }
    }
    Ok(())
}

// Entries, none if the type of one is not known.
fn entries_to<W: fmt::Write>(entries: Entries, f: &mut fmt::Formatter<W>) -> fmt::Result
    ensures { DisplaysOnOk W.write_str_gives f.old result
        (Some (operands (fields (ResourceBarrier (entries_of entries.entry.bytes.now))))) f.new }
{
    if !entries.known() {
        return Ok(());
    }
    for i in 0..entries.len() {
        if let Some(entry) = entries.get(i) {
            barrier_to(entry, f)?;
        }
    }
    Ok(())
}

fn barrier_to<W: fmt::Write>(barrier: Barrier, f: &mut fmt::Formatter<W>) -> fmt::Result
    ensures { DisplaysOnOk W.write_str_gives f.old result (Some (operands (entry barrier))) f.new }
{
    let Barrier {
        kind,
        resource,
        subresource,
        before,
        after,
    } = barrier;
    let kind = u8::from(kind);
    write!(f, " {kind} {resource} {subresource} {before} {after}")
}

// An arm for each command: a table, which is longer than other functions.
fn fixed_to<W: fmt::Write>(fixed: Fixed, f: &mut fmt::Formatter<W>) -> fmt::Result
    ensures { DisplaysOnOk W.write_str_gives f.old result
        (Some (operands (fields (fixed_command fixed)))) f.new }
{
    match fixed {
        Fixed::EndEvent => Ok(()),
        Fixed::SetDescriptorHeaps(on) => {
            let on = u8::from(on);
            write!(f, " {on}")
        }
        Fixed::SetRootSignature { signature, .. } => write!(f, " {signature}"),
        Fixed::SetPipelineState(pipeline) => write!(f, " {pipeline}"),
        Fixed::IASetPrimitiveTopology(topology) => write!(f, " {topology}"),
        Fixed::IASetVertexBuffers {
            slot,
            address,
            size,
            stride,
        } => write!(f, " {slot} {address} {size} {stride}"),
        Fixed::SetRoot32BitConstant {
            slot,
            word,
            value,
            ..
        } => write!(f, " {slot} {word} {value}"),
        Fixed::SetRootDescriptorTable { slot, address, .. }
        | Fixed::SetRootConstantBufferView { slot, address, .. } => {
            write!(f, " {slot} {address}")
        }
        Fixed::ClearRenderTargetView { target, colour } => {
            let [red, green, blue, alpha] = colour;
            write!(f, " {target} {red} {green} {blue} {alpha}")
        }
        Fixed::RSSetViewports(viewport) => {
            let [x, y, width, height, least, greatest] = viewport;
            write!(f, " {x} {y} {width} {height} {least} {greatest}")
        }
        Fixed::RSSetScissorRects {
            left,
            top,
            right,
            bottom,
        } => write!(f, " {left} {top} {right} {bottom}"),
        Fixed::DrawInstanced {
            vertices,
            instances,
            first_vertex,
            first_instance,
        } => write!(f, " {vertices} {instances} {first_vertex} {first_instance}"),
        Fixed::Dispatch { x, y, z } => write!(f, " {x} {y} {z}"),
        Fixed::ExecuteIndirect {
            half,
            special,
            count,
            buffer,
            offset,
        } => {
            let kind = match half {
                Half::Graphics => 0,
                Half::Compute => 2,
            };
            let special = special.unwrap_or(255);
            write!(f, " {kind} {special} {count} {buffer} {offset}")
        }
    }
}

/// The record of a pass: the current signature, or 0, the dirty slots, each root slot that has an
/// element, and each vertex view that is not all zeros.
#[derive(Clone, Copy)]
pub struct ShownPass<'a>(pub &'a PassState);

impl fmt::Display for ShownPass<'_> {
    ghost use Rattle.std.specs.Prelude.{Some};
    ghost use Rattle.scripts.specs.Shown.{shown_pass};

    ghost output = { λ shown. Some (shown_pass shown.0.now) };

    fn fmt<W: fmt::Write>(&self, f: &mut fmt::Formatter<W>) -> fmt::Result {
        let ShownPass(
            PassState {
                roots,
                vertices,
                ..
            },
        ) = *self;
        let signature = roots.layout.map_or(0, |layout| layout.signature());
        let slots = roots.dirty_root_elements;
        let views = vertices.dirty_vertex_buffers;
        write!(f, "pass {signature} 0x{slots:x} 0x{views:x}")?;
        elements_to(roots, f)?;
        views_to(&vertices.vertex_buffers, f)
    }
}

// What the root slots have, from the lowest up.
fn elements_to<W: fmt::Write>(roots: &RootState, f: &mut fmt::Formatter<W>) -> fmt::Result
    ensures { DisplaysOnOk W.write_str_gives f.old result
        (Some (by_slot (shown_element roots.now) roots.now.root_elements)) f.new }
{
    let elements: &[RootElement] = &roots.root_elements;
    for (slot, element) in elements.iter().enumerate() {
        element_to(roots, slot, *element, f)?;
    }
    Ok(())
}

// What a root slot has, if it has something.
fn element_to<W: fmt::Write>(
    roots: &RootState,
    slot: usize,
    element: RootElement,
    f: &mut fmt::Formatter<W>,
) -> fmt::Result
    ensures { DisplaysOnOk W.write_str_gives f.old result
        (Some (shown_element roots.now slot element)) f.new }
{
    match element {
        RootElement::Empty => Ok(()),
        RootElement::Immediates => {
            write!(f, " {slot}:immediates:")?;
            words_to(words_at(roots, slot), f)
        }
        RootElement::SpecialConstants(constants) => {
            let x = constants.first_vertex_or_x;
            let y = constants.first_instance_or_y;
            let z = constants.unused_or_z;
            write!(f, " {slot}:special:{x},{y},{z}")
        }
        RootElement::DescriptorTable(address) => write!(f, " {slot}:table:{address}"),
        RootElement::DynamicUniformBuffer(address) => write!(f, " {slot}:uniform:{address}"),
    }
}

// How many words of immediates the current layout has at a slot.
fn count_at(roots: &RootState, slot: usize) -> usize
    ensures { result ≡ count_at slot roots.now.layout }
{
    roots
        .layout
        .and_then(|layout| layout.immediates())
        .filter(|info| info.root_index as usize == slot)
        .map_or(0, |info| info.size as usize)
}

// The words of immediates that the current layout has at a slot.
fn words_at(roots: &RootState, slot: usize) -> &[u32]
    ensures { result.now ≡ words_at roots.now slot }
{
    let count = count_at(roots, slot).min(MAX_IMMEDIATES);
    &roots.immediates[..count]
}

// Words with commas between them.
fn words_to<W: fmt::Write>(words: &[u32], f: &mut fmt::Formatter<W>) -> fmt::Result
    ensures { DisplaysOnOk W.write_str_gives f.old result (Some (word_list words.now)) f.new }
{
    if let [first, rest @ ..] = words {
        write!(f, "{first}")?;
        for word in rest {
            write!(f, ",{word}")?;
        }
    }
    Ok(())
}

// The views of the vertex slots, from the lowest up.
fn views_to<W: fmt::Write>(views: &[VertexBufferView], f: &mut fmt::Formatter<W>) -> fmt::Result
    ensures { DisplaysOnOk W.write_str_gives f.old result
        (Some (by_slot shown_view views.now)) f.new }
{
    for (slot, view) in views.iter().enumerate() {
        view_to(slot, *view, f)?;
    }
    Ok(())
}

// The view of a vertex slot, if it is not all zeros.
fn view_to<W: fmt::Write>(
    slot: usize,
    view: VertexBufferView,
    f: &mut fmt::Formatter<W>,
) -> fmt::Result
    ensures { DisplaysOnOk W.write_str_gives f.old result (Some (shown_view slot view)) f.new }
{
    let VertexBufferView {
        address,
        size,
        stride,
    } = view;
    if (address, size, stride) == (0, 0, 0) {
        return Ok(());
    }
    write!(f, " v{slot}:{address}:{size}:{stride}")
}
