ghost use Rattle.std.specs.Prelude.{◌≡◌, ℕ, ◌+◌, ◌<◌, true, length};
ghost use Rattle.command_list.specs.Numbers.{total};
ghost use Rattle.command_list.specs.Commands.{Command, BeginEvent, OMSetRenderTargets};
ghost use Rattle.command_list.specs.Commands.{ResourceBarrier, kind_byte, in_range};
ghost use Rattle.command_list.specs.Commands.{size as command_size, code_of, fields};
ghost use Rattle.command_list.specs.Seen.{fixed_command, call_command};
ghost use Rattle.list_writer.specs.Writing.{Appended, Begun, IsFixed, Measured, Written};

use crate::operands::{Listing, Operands};
use command_list::code::Code;
use command_list::command::{Barrier, Call, Fixed, Half};
use command_list::fault::{FULL, Fault};
use command_list::reader::MOST_BYTES;
use command_list::row::Row;

// The most units of a label, since two bytes tell the length of a record.
const MOST_UNITS: usize = 65534 / u16::WIDTH;

// The most render targets.
const MOST_TARGETS: usize = 8;

// The most entries of a resource barrier, for the same reason.
const MOST_ENTRIES: usize = 65534 / Barrier::WIDTH;

/// Begins a list with its version byte, and says where it ends. No bytes, or more than a list may
/// have, are refused with 10 at 0.
pub fn begin(bytes: &mut [u8]) -> Result<usize, Fault>
    ensures { Begun bytes.old result bytes.new }
{
    if bytes.is_empty() || bytes.len() > MOST_BYTES {
        return Err(FULL);
    }
    bytes[0] = 1;
    Ok(1)
}

// Writes the record of a code and its operands behind the first `end` bytes. The size is known
// before, so that the record is refused before anything is written.
fn append_row<O: Operands>(
    bytes: &mut [u8],
    end: usize,
    size: usize,
    code: Code,
    operands: O,
) -> Result<usize, Fault>
    requires size { size ≡ 3 + total (O.laid operands) }
    requires short { total (O.laid operands) < 65535 }
    ensures { Appended bytes.old end code (O.laid operands) result bytes.new }
{
    let room = bytes.len().min(MOST_BYTES);
    if room < end || room - end < size {
        return Err(FULL);
    }
    let row = ((size - 2) as u16, (u8::from(code), operands));
    let _ = row.lay_sized(size, &mut bytes[end..]);
    Ok(end + size)
}

// The byte of an indirect call's kind.
fn kind_byte(half: Half) -> u8
    ensures { result ≡ kind_byte half }
{
    match half {
        Half::Graphics => 0,
        Half::Compute => 2,
    }
}

// Whether root slots, words and vertex slots are in range.
#[inline(always)]
fn in_range(fixed: Fixed) -> bool
    ensures { result ≡ in_range (fixed_command fixed) }
{
    match fixed {
        Fixed::IASetVertexBuffers { slot, .. } => slot < 16,
        Fixed::SetRoot32BitConstant { slot, word, .. } => slot < 64 && word < 64,
        Fixed::SetRootDescriptorTable { slot, .. } => slot < 64,
        Fixed::SetRootConstantBufferView { slot, .. } => slot < 64,
        Fixed::ExecuteIndirect {
            special: Some(slot),
            ..
        } => slot < 64,
        _ => true,
    }
}

// How long the record of a command of a fixed width is.
fn record_size(fixed: Fixed) -> usize
    ensures { result ≡ command_size (fixed_command fixed) }
{
    match fixed {
        Fixed::EndEvent => 3,
        Fixed::SetDescriptorHeaps(_) => 4,
        Fixed::SetRootSignature { .. } => 7,
        Fixed::SetPipelineState(_) => 7,
        Fixed::IASetPrimitiveTopology(_) => 7,
        Fixed::IASetVertexBuffers { .. } => 20,
        Fixed::SetRoot32BitConstant { .. } => 9,
        Fixed::SetRootDescriptorTable { .. } => 12,
        Fixed::SetRootConstantBufferView { .. } => 12,
        Fixed::ClearRenderTargetView { .. } => 27,
        Fixed::RSSetViewports(_) => 27,
        Fixed::RSSetScissorRects { .. } => 19,
        Fixed::DrawInstanced { .. } => 19,
        Fixed::Dispatch { .. } => 15,
        Fixed::ExecuteIndirect { .. } => 21,
    }
}

// Writes the record of a command of a fixed width, whose slots and words are in range. Inlined
// where the command is known, one arm is left, with its code and size as constants.
#[inline(always)]
fn append_in_range(bytes: &mut [u8], end: usize, fixed: Fixed) -> Result<usize, Fault>
    ensures { Appended bytes.old end (code_of (fixed_command fixed)) (fields (fixed_command fixed))
        result bytes.new }
{
    match fixed {
        Fixed::EndEvent => append_row(bytes, end, 3, Code::EndEvent, ()),
        Fixed::SetDescriptorHeaps(on) => {
            append_row(bytes, end, 4, Code::SetDescriptorHeaps, u8::from(on))
        }
        Fixed::SetRootSignature { signature, .. } => {
            append_row(bytes, end, 7, fixed.code(), signature)
        }
        Fixed::SetPipelineState(pipeline) => {
            append_row(bytes, end, 7, Code::SetPipelineState, pipeline)
        }
        Fixed::IASetPrimitiveTopology(topology) => {
            append_row(bytes, end, 7, Code::IASetPrimitiveTopology, topology)
        }
        Fixed::IASetVertexBuffers {
            slot,
            address,
            size,
            stride,
        } => {
            let row = (slot, (address, (size, stride)));
            append_row(bytes, end, 20, Code::IASetVertexBuffers, row)
        }
        Fixed::SetRoot32BitConstant {
            slot,
            word,
            value,
            ..
        } => append_row(bytes, end, 9, fixed.code(), (slot, (word, value))),
        Fixed::SetRootDescriptorTable { slot, address, .. } => {
            append_row(bytes, end, 12, fixed.code(), (slot, address))
        }
        Fixed::SetRootConstantBufferView { slot, address, .. } => {
            append_row(bytes, end, 12, fixed.code(), (slot, address))
        }
        Fixed::ClearRenderTargetView { target, colour } => {
            let [r, g, b, a] = colour;
            let row = (target, (r, (g, (b, a))));
            append_row(bytes, end, 27, Code::ClearRenderTargetView, row)
        }
        Fixed::RSSetViewports(viewport) => {
            let [x, y, width, height, near, far] = viewport;
            let row = (x, (y, (width, (height, (near, far)))));
            append_row(bytes, end, 27, Code::RSSetViewports, row)
        }
        Fixed::RSSetScissorRects {
            left,
            top,
            right,
            bottom,
        } => {
            let row = (left, (top, (right, bottom)));
            append_row(bytes, end, 19, Code::RSSetScissorRects, row)
        }
        Fixed::DrawInstanced {
            vertices,
            instances,
            first_vertex,
            first_instance,
        } => {
            let row = (vertices, (instances, (first_vertex, first_instance)));
            append_row(bytes, end, 19, Code::DrawInstanced, row)
        }
        Fixed::Dispatch { x, y, z } => append_row(bytes, end, 15, Code::Dispatch, (x, (y, z))),
        Fixed::ExecuteIndirect {
            half,
            special,
            count,
            buffer,
            offset,
        } => {
            let call = (kind_byte(half), special.unwrap_or(255));
            let row = (call, (count, (buffer, offset)));
            append_row(bytes, end, 21, Code::ExecuteIndirect, row)
        }
    }
}

// How long the record of a label is, which has to end with a unit of 0.
fn label_size<U: Listing<u16>>(units: &U) -> Result<usize, Fault>
    ensures { Measured (BeginEvent (U.items units.now)) result }
{
    let n = units.count();
    if n > MOST_UNITS || units.last() != Some(0) {
        return Err(FULL);
    }
    Ok(3 + 2 * n)
}

// How long the record of targets is, of which there are at most eight.
fn targets_size<H: Listing<u64>>(handles: &H) -> Result<usize, Fault>
    ensures { Measured (OMSetRenderTargets (H.items handles.now)) result }
{
    let n = handles.count();
    if n > MOST_TARGETS {
        return Err(FULL);
    }
    Ok(4 + 8 * n)
}

// How long the record of barriers is, of which there is one at least.
fn barriers_size<E: Listing<Barrier>>(entries: &E) -> Result<usize, Fault>
    ensures { Measured (ResourceBarrier (E.items entries.now)) result }
{
    let n = entries.count_if_any();
    if n > MOST_ENTRIES || entries.count() == 0 {
        return Err(FULL);
    }
    Ok(3 + Barrier::WIDTH * n)
}

/// What can be recorded: a command, as it is given or as it was read.
pub trait Recordable: Copy {
    ghost says: { Self → Command };

    /// The code of its record.
    fn code(&self) -> Code
        ensures { result ≡ code_of (says self.now) };

    /// The command itself, if its operands have a fixed width.
    fn fixed(&self) -> Option<Fixed>
        ensures { IsFixed result (says self.now) };

    /// How long its record is, in bytes. A command that has no readable record is refused with 10
    /// at 0: a slot, word or count is out of its range, a label does not end with 0, or a list is
    /// too long for a record.
    fn size(&self) -> Result<usize, Fault>
        ensures { Measured (says self.now) result };

    /// Writes its record behind the first `end` bytes, and says where it ends. Refused with 10 at 0
    /// where it has no readable record, or where the bytes, of which a list has 65536 at most, do
    /// not take it.
    fn append_to(self, bytes: &mut [u8], end: usize) -> Result<usize, Fault>
        ensures { Written (says self) bytes.old end result bytes.new };
}

impl Recordable for Fixed {
    ghost says = { fixed_command };

    fn code(&self) -> Code {
        Fixed::code(*self)
    }

    fn fixed(&self) -> Option<Fixed> {
        Some(*self)
    }

    fn size(&self) -> Result<usize, Fault> {
        in_range(*self).then(|| record_size(*self)).ok_or(FULL)
    }

    #[inline(always)]
    fn append_to(self, bytes: &mut [u8], end: usize) -> Result<usize, Fault> {
        if !in_range(self) {
            return Err(FULL);
        }
        append_in_range(bytes, end, self)
    }
}

impl<U: Listing<u16>, H: Listing<u64>, E: Listing<Barrier>> Recordable for Call<U, H, E> {
    ghost says = { call_command U.items H.items E.items };

    fn code(&self) -> Code {
        match self {
            Call::BeginEvent(_) => Code::BeginEvent,
            Call::OMSetRenderTargets(_) => Code::OMSetRenderTargets,
            Call::ResourceBarrier(_) => Code::ResourceBarrier,
            Call::Fixed(fixed) => Fixed::code(*fixed),
        }
    }

    fn fixed(&self) -> Option<Fixed> {
        match self {
            Call::Fixed(fixed) => Some(*fixed),
            _ => None,
        }
    }

    fn size(&self) -> Result<usize, Fault> {
        match self {
            Call::BeginEvent(units) => label_size(units),
            Call::OMSetRenderTargets(handles) => targets_size(handles),
            Call::ResourceBarrier(entries) => barriers_size(entries),
            Call::Fixed(fixed) => fixed.size(),
        }
    }

    fn append_to(self, bytes: &mut [u8], end: usize) -> Result<usize, Fault> {
        match self {
            Call::BeginEvent(units) => {
                let size = label_size(&units)?;
                append_row(bytes, end, size, Code::BeginEvent, units)
            }
            Call::OMSetRenderTargets(handles) => {
                let size = targets_size(&handles)?;
                let row = (handles.count() as u8, handles);
                append_row(bytes, end, size, Code::OMSetRenderTargets, row)
            }
            Call::ResourceBarrier(entries) => {
                let size = barriers_size(&entries)?;
                append_row(bytes, end, size, Code::ResourceBarrier, entries)
            }
            Call::Fixed(fixed) => fixed.append_to(bytes, end),
        }
    }
}
