// Operand readers: what the operand bytes of each code say. Each is handed the place of the record,
// where it refuses.
ghost use Rattle.std.specs.Prelude.{◌≡◌, ℕ, ◌+◌, ◌*◌, ◌/◌, ◌<◌, ◌≤◌, true, false, List, length};
ghost use Rattle.std.specs.Prelude.{take, drop, Option, Some, None, MatchResult, ◌≢◌, ◌⊎◌};
ghost use Rattle.std.specs.List.{slice_get};
ghost use Rattle.command_list.specs.declared.code.Code.TheVariants as code;
ghost use Rattle.command_list.specs.Numbers.{number_at};
ghost use Rattle.command_list.specs.Commands.{of_half, is_special};
ghost use Rattle.command_list.specs.Decoding.{flag_of, kind_of, special_of};
ghost use Rattle.command_list.specs.Seen.{IsFault};
ghost use Rattle.command_list.specs.Read.{Reads};

use crate::code::Code;
use crate::command::{Barrier, Fixed, Half};
use crate::fault::{Fault, Number};
use crate::record::{Entries, Handles, Record, Units};
use crate::row::Row;

// So many bytes from a place on.
fn part<const N: usize>(bytes: &[u8], at: usize) -> [u8; N]
    requires { at + N ≤ length bytes.now }
    ensures { result ≡ take N (drop at bytes.now) }
{
    let mut part = [0; N];
    part.copy_from_slice(&bytes[at..at + N]);
    part
}

/// A number of the file, its highest byte first.
pub trait Wide: Sized {
    ghost value: { Self → ℕ };

    ghost wide: { ℕ };

    /// The number that begins at a place.
    fn get(bytes: &[u8], at: usize) -> Self
        requires { at + wide ≤ length bytes.now }
        ensures { value result ≡ number_at wide at bytes.now };
}

impl Wide for u8 {
    ghost value = { λ n. n };

    ghost wide = { 1 };

    fn get(bytes: &[u8], at: usize) -> u8 {
        bytes[at]
    }
}

impl Wide for u16 {
    ghost value = { λ n. n };

    ghost wide = { 2 };

    fn get(bytes: &[u8], at: usize) -> u16 {
        u16::from_be_bytes(part(bytes, at))
    }
}

impl Wide for u32 {
    ghost value = { λ n. n };

    ghost wide = { 4 };

    fn get(bytes: &[u8], at: usize) -> u32 {
        u32::from_be_bytes(part(bytes, at))
    }
}

impl Wide for u64 {
    ghost value = { λ n. n };

    ghost wide = { 8 };

    fn get(bytes: &[u8], at: usize) -> u64 {
        u64::from_be_bytes(part(bytes, at))
    }
}

// The operands of a record at a place take this many bytes.
fn width(operands: &[u8], place: usize, n: usize) -> Result<(), Fault>
    ensures { MatchResult result
        (λ _. length operands.now ≡ n)
        (λ f. IsFault f 24 place × (length operands.now ≢ n)) }
{
    if operands.len() == n {
        Ok(())
    } else {
        Err(Number::Length.at(place))
    }
}

// An operand of a record at a place is in its range.
fn require(ok: bool, place: usize) -> Result<(), Fault>
    ensures { MatchResult result (λ _. ok ≡ true) (λ f. IsFault f 25 place × (ok ≡ false)) }
{
    if ok {
        Ok(())
    } else {
        Err(Number::Operand.at(place))
    }
}

// A flag is 0 or 1.
fn flag(byte: u8, place: usize) -> Result<bool, Fault>
    ensures { MatchResult result
        (λ on. flag_of byte ≡ Some on)
        (λ f. IsFault f 25 place × (flag_of byte ≡ None)) }
{
    match byte {
        0 => Ok(false),
        1 => Ok(true),
        _ => Err(Number::Operand.at(place)),
    }
}

// The kind of an indirect call: a draw (0) or a dispatch (2).
fn indirect_half(byte: u8, place: usize) -> Result<Half, Fault>
    ensures { MatchResult result
        (λ h. kind_of byte ≡ Some h)
        (λ f. IsFault f 25 place × (kind_of byte ≡ None)) }
{
    match byte {
        0 => Ok(Half::Graphics),
        2 => Ok(Half::Compute),
        _ => Err(Number::Operand.at(place)),
    }
}

// The special slot of an indirect call: below 64, or 255 for the shared command signature.
fn special_slot(byte: u8, place: usize) -> Result<Option<u8>, Fault>
    ensures { MatchResult result
        (λ s. (special_of byte ≡ s) × (is_special s ≡ true))
        (λ f. IsFault f 25 place × (is_special (special_of byte) ≡ false)) }
{
    if byte == 255 {
        return Ok(None);
    }
    require(byte < 64, place)?;
    Ok(Some(byte))
}

// Operands that are one number of four bytes.
fn word(operands: &[u8], place: usize) -> Result<u32, Fault>
    ensures { MatchResult result
        (λ n. (length operands.now ≡ 4) × (n ≡ number_at 4 0 operands.now))
        (λ f. IsFault f 24 place × (length operands.now ≢ 4)) }
{
    width(operands, place, 4)?;
    Ok(Wide::get(operands, 0))
}

// Operands that are a root slot and an address.
fn slot_address(operands: &[u8], place: usize) -> Result<(u8, u64), Fault>
    ensures { MatchResult result
        (λ p. (length operands.now ≡ 9) × (p.0 ≡ number_at 1 0 operands.now)
        × (p.0 < 64) × (p.1 ≡ number_at 8 1 operands.now))
        (λ f. (IsFault f 24 place × (length operands.now ≢ 9))
        ⊎ (IsFault f 25 place × (length operands.now ≡ 9) × (64 ≤ number_at 1 0 operands.now))) }
{
    width(operands, place, 9)?;
    let slot = Wide::get(operands, 0);
    require(slot < 64, place)?;
    Ok((slot, Wide::get(operands, 1)))
}

fn read_end_event(operands: &[u8], place: usize) -> Result<Record, Fault>
    ensures { Reads code.EndEvent operands.now place result }
{
    width(operands, place, 0)?;
    Ok(Record::Fixed(Fixed::EndEvent))
}

fn read_descriptor_heaps(operands: &[u8], place: usize) -> Result<Record, Fault>
    ensures { Reads code.SetDescriptorHeaps operands.now place result }
{
    width(operands, place, 1)?;
    let on = flag(Wide::get(operands, 0), place)?;
    Ok(Record::Fixed(Fixed::SetDescriptorHeaps(on)))
}

fn read_root_signature(half: Half, operands: &[u8], place: usize) -> Result<Record, Fault>
    ensures { Reads
        (of_half half code.SetGraphicsRootSignature code.SetComputeRootSignature)
        operands.now place result }
{
    let signature = word(operands, place)?;
    Ok(Record::Fixed(Fixed::SetRootSignature { half, signature }))
}

fn read_pipeline_state(operands: &[u8], place: usize) -> Result<Record, Fault>
    ensures { Reads code.SetPipelineState operands.now place result }
{
    Ok(Record::Fixed(Fixed::SetPipelineState(word(operands, place)?)))
}

fn read_topology(operands: &[u8], place: usize) -> Result<Record, Fault>
    ensures { Reads code.IASetPrimitiveTopology operands.now place result }
{
    Ok(Record::Fixed(Fixed::IASetPrimitiveTopology(word(operands, place)?)))
}

fn read_vertex_buffers(operands: &[u8], place: usize) -> Result<Record, Fault>
    ensures { Reads code.IASetVertexBuffers operands.now place result }
{
    width(operands, place, 17)?;
    let slot = Wide::get(operands, 0);
    require(slot < 16, place)?;
    Ok(Record::Fixed(Fixed::IASetVertexBuffers {
        slot,
        address: Wide::get(operands, 1),
        size: Wide::get(operands, 9),
        stride: Wide::get(operands, 13),
    }))
}

fn read_constant(half: Half, operands: &[u8], place: usize) -> Result<Record, Fault>
    ensures { Reads
        (of_half half code.SetGraphicsRoot32BitConstant code.SetComputeRoot32BitConstant)
        operands.now place result }
{
    width(operands, place, 6)?;
    let slot = Wide::get(operands, 0);
    let word = Wide::get(operands, 1);
    require(slot < 64 && word < 64, place)?;
    Ok(Record::Fixed(Fixed::SetRoot32BitConstant {
        half,
        slot,
        word,
        value: Wide::get(operands, 2),
    }))
}

fn read_table(half: Half, operands: &[u8], place: usize) -> Result<Record, Fault>
    ensures { Reads
        (of_half half code.SetGraphicsRootDescriptorTable code.SetComputeRootDescriptorTable)
        operands.now place result }
{
    let (slot, address) = slot_address(operands, place)?;
    Ok(Record::Fixed(Fixed::SetRootDescriptorTable {
        half,
        slot,
        address,
    }))
}

fn read_view(half: Half, operands: &[u8], place: usize) -> Result<Record, Fault>
    ensures { Reads
        (of_half half code.SetGraphicsRootConstantBufferView code.SetComputeRootConstantBufferView)
        operands.now place result }
{
    let (slot, address) = slot_address(operands, place)?;
    Ok(Record::Fixed(Fixed::SetRootConstantBufferView {
        half,
        slot,
        address,
    }))
}

fn read_clear(operands: &[u8], place: usize) -> Result<Record, Fault>
    ensures { Reads code.ClearRenderTargetView operands.now place result }
{
    width(operands, place, 24)?;
    let colour = [
        Wide::get(operands, 8),
        Wide::get(operands, 12),
        Wide::get(operands, 16),
        Wide::get(operands, 20),
    ];
    Ok(Record::Fixed(Fixed::ClearRenderTargetView {
        target: Wide::get(operands, 0),
        colour,
    }))
}

fn read_viewport(operands: &[u8], place: usize) -> Result<Record, Fault>
    ensures { Reads code.RSSetViewports operands.now place result }
{
    width(operands, place, 24)?;
    Ok(Record::Fixed(Fixed::RSSetViewports([
        Wide::get(operands, 0),
        Wide::get(operands, 4),
        Wide::get(operands, 8),
        Wide::get(operands, 12),
        Wide::get(operands, 16),
        Wide::get(operands, 20),
    ])))
}

fn read_scissor(operands: &[u8], place: usize) -> Result<Record, Fault>
    ensures { Reads code.RSSetScissorRects operands.now place result }
{
    width(operands, place, 16)?;
    Ok(Record::Fixed(Fixed::RSSetScissorRects {
        left: Wide::get(operands, 0),
        top: Wide::get(operands, 4),
        right: Wide::get(operands, 8),
        bottom: Wide::get(operands, 12),
    }))
}

fn read_draw(operands: &[u8], place: usize) -> Result<Record, Fault>
    ensures { Reads code.DrawInstanced operands.now place result }
{
    width(operands, place, 16)?;
    Ok(Record::Fixed(Fixed::DrawInstanced {
        vertices: Wide::get(operands, 0),
        instances: Wide::get(operands, 4),
        first_vertex: Wide::get(operands, 8),
        first_instance: Wide::get(operands, 12),
    }))
}

fn read_dispatch(operands: &[u8], place: usize) -> Result<Record, Fault>
    ensures { Reads code.Dispatch operands.now place result }
{
    width(operands, place, 12)?;
    Ok(Record::Fixed(Fixed::Dispatch {
        x: Wide::get(operands, 0),
        y: Wide::get(operands, 4),
        z: Wide::get(operands, 8),
    }))
}

fn read_indirect(operands: &[u8], place: usize) -> Result<Record, Fault>
    ensures { Reads code.ExecuteIndirect operands.now place result }
{
    width(operands, place, 18)?;
    let half = indirect_half(Wide::get(operands, 0), place)?;
    let special = special_slot(Wide::get(operands, 1), place)?;
    Ok(Record::Fixed(Fixed::ExecuteIndirect {
        half,
        special,
        count: Wide::get(operands, 2),
        buffer: Wide::get(operands, 6),
        offset: Wide::get(operands, 10),
    }))
}

fn read_event(operands: &[u8], place: usize) -> Result<Record, Fault>
    ensures { Reads code.BeginEvent operands.now place result }
{
    let n = operands.len();
    if n == 0 || n % 2 != 0 {
        return Err(Number::Length.at(place));
    }
    require(u16::get(operands, n - 2) == 0, place)?;
    Ok(Record::BeginEvent(Units::over(operands)))
}

fn read_targets(operands: &[u8], place: usize) -> Result<Record, Fault>
    ensures { Reads code.OMSetRenderTargets operands.now place result }
{
    match operands {
        [count, handles @ ..] => {
            width(operands, place, 1 + 8 * *count as usize)?;
            require(*count <= 8, place)?;
            Ok(Record::OMSetRenderTargets(Handles::over(handles)))
        }
        [] => Err(Number::Length.at(place)),
    }
}

fn read_barriers(operands: &[u8], place: usize) -> Result<Record, Fault>
    ensures { Reads code.ResourceBarrier operands.now place result }
{
    let n = operands.len();
    if n == 0 || n % Barrier::WIDTH != 0 {
        return Err(Number::Length.at(place));
    }
    let entries = Entries::over(operands);
    require(entries.known(), place)?;
    Ok(Record::ResourceBarrier(entries))
}

/// The record that a code and its operands make; refused with 24 or 25 at the record's place.
pub fn read_operands(op: Code, operands: &[u8], place: usize) -> Result<Record, Fault>
    ensures { Reads op operands.now place result }
{
    match op {
        Code::BeginEvent => read_event(operands, place),
        Code::EndEvent => read_end_event(operands, place),
        Code::SetDescriptorHeaps => read_descriptor_heaps(operands, place),
        Code::SetGraphicsRootSignature => read_root_signature(Half::Graphics, operands, place),
        Code::SetComputeRootSignature => read_root_signature(Half::Compute, operands, place),
        Code::SetPipelineState => read_pipeline_state(operands, place),
        Code::IASetPrimitiveTopology => read_topology(operands, place),
        Code::IASetVertexBuffers => read_vertex_buffers(operands, place),
        Code::SetGraphicsRoot32BitConstant => read_constant(Half::Graphics, operands, place),
        Code::SetComputeRoot32BitConstant => read_constant(Half::Compute, operands, place),
        Code::SetGraphicsRootDescriptorTable => read_table(Half::Graphics, operands, place),
        Code::SetComputeRootDescriptorTable => read_table(Half::Compute, operands, place),
        Code::SetGraphicsRootConstantBufferView => read_view(Half::Graphics, operands, place),
        Code::SetComputeRootConstantBufferView => read_view(Half::Compute, operands, place),
        Code::OMSetRenderTargets => read_targets(operands, place),
        Code::ClearRenderTargetView => read_clear(operands, place),
        Code::RSSetViewports => read_viewport(operands, place),
        Code::RSSetScissorRects => read_scissor(operands, place),
        Code::ResourceBarrier => read_barriers(operands, place),
        Code::DrawInstanced => read_draw(operands, place),
        Code::Dispatch => read_dispatch(operands, place),
        Code::ExecuteIndirect => read_indirect(operands, place),
    }
}
