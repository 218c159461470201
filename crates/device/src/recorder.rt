// The trait of what commands are recorded into.
ghost use Rattle.std.specs.Prelude.{◌≡◌, ◌<◌, ◌≤◌, MatchResult, slice_index};
ghost use Rattle.command_list.specs.declared.command.Half.TheVariants.{Graphics, Compute};
ghost use Rattle.command_list.specs.Commands.{BeginEvent, EndEvent, SetDescriptorHeaps};
ghost use Rattle.command_list.specs.Commands.{SetRootSignature, SetPipelineState};
ghost use Rattle.command_list.specs.Commands.{IASetPrimitiveTopology, IASetVertexBuffers};
ghost use Rattle.command_list.specs.Commands.{SetRoot32BitConstant, SetRootDescriptorTable};
ghost use Rattle.command_list.specs.Commands.{SetRootConstantBufferView, OMSetRenderTargets};
ghost use Rattle.command_list.specs.Commands.{ClearRenderTargetView, RSSetViewports};
ghost use Rattle.command_list.specs.Commands.{RSSetScissorRects, ResourceBarrier, DrawInstanced};
ghost use Rattle.command_list.specs.Commands.{Dispatch, ExecuteIndirect};
ghost use Rattle.command_list.specs.Seen.{IsFault, command_of, fixed_command, given_command};
ghost use Rattle.device.specs.Meaning.{Meaning, Asked, Anew};

use command_list::command::{Barrier, Command, Fixed, Half};
use command_list::fault::{FULL, Fault};
use command_list::record::Record;
use list_writer::writer::Recordable;

/// `size`, where so many bytes are left; otherwise refused with 10 at place 0.
pub fn fitting(size: usize, space: usize) -> Result<usize, Fault>
    ensures { MatchResult result
        (λ n. (n ≡ size) × (size ≤ space))
        (λ f. IsFault f 10 0 × (space < size)) }
{
    if space < size { Err(FULL) } else { Ok(size) }
}

// The four calls that Direct3D has once for graphics and once for compute.
fn root_signature(half: Half, signature: u32) -> Fixed
    ensures { fixed_command result ≡ SetRootSignature half signature }
{
    Fixed::SetRootSignature { half, signature }
}

fn root_constant(half: Half, slot: u8, word: u8, value: u32) -> Fixed
    ensures { fixed_command result ≡ SetRoot32BitConstant half slot word value }
{
    Fixed::SetRoot32BitConstant {
        half,
        slot,
        word,
        value,
    }
}

fn root_table(half: Half, slot: u8, address: u64) -> Fixed
    ensures { fixed_command result ≡ SetRootDescriptorTable half slot address }
{
    Fixed::SetRootDescriptorTable {
        half,
        slot,
        address,
    }
}

fn root_view(half: Half, slot: u8, address: u64) -> Fixed
    ensures { fixed_command result ≡ SetRootConstantBufferView half slot address }
{
    Fixed::SetRootConstantBufferView {
        half,
        slot,
        address,
    }
}

/// Something that commands are recorded into, one behind the other, and that has so many bytes for
/// their records. Each call is refused with 10 at place 0 where the command has no record that a
/// list file can hold (an operand is out of range, a label has no 0 at its end, the record is too
/// long) or where its record does not fit; the recorder is then as it was.
///
/// An implementor writes `space`, `start_anew` and `record`, and the three functions that hand it a
/// command of one type each. The other functions have the names of Direct3D's calls, one for each
/// code of the list file, and end in these.
pub trait Recorder {
    ghost meaning: { Self → Meaning };

    /// How many bytes are left for records.
    fn space(&self) -> usize
        ensures { result ≡ (meaning self.now).space };

    /// Drops all commands: nothing is set on the device, and all the space is free again.
    fn start_anew(&mut self)
        ensures { Anew (meaning self.old) (meaning self.new) };

    /// Records a command, given by a caller or read from a list file.
    fn record<C: Recordable>(&mut self, command: C) -> Result<(), Fault>
    where
        Self: Sized,
        ensures { Asked (meaning self.old) (C.says command) result (meaning self.new) };

    /// [`Recorder::record`] of a command of a fixed width. It, `record_given` and `replay` are there
    /// for recorders behind a `dyn` too.
    fn record_fixed(&mut self, fixed: Fixed) -> Result<(), Fault>
        ensures { Asked (meaning self.old) (fixed_command fixed) result (meaning self.new) };

    /// [`Recorder::record`] of a command as a caller gives it.
    fn record_given(&mut self, command: Command) -> Result<(), Fault>
        ensures { Asked (meaning self.old) (given_command command.entry) result (meaning self.new) };

    /// [`Recorder::record`] of a command that was read.
    fn replay(&mut self, record: Record) -> Result<(), Fault>
        ensures { Asked (meaning self.old) (command_of «record».entry) result (meaning self.new) };

    /// PIX `BeginEvent` (code 1): `label` in UTF-16 units, of which the last is 0.
    fn begin_event(&mut self, label: &[u16]) -> Result<(), Fault>
        ensures { Asked (meaning self.old) (BeginEvent label.now) result (meaning self.new) }
    {
        self.record_given(Command::BeginEvent(label))
    }

    /// `EndEvent` (code 2).
    fn end_event(&mut self) -> Result<(), Fault>
        ensures { Asked (meaning self.old) (EndEvent) result (meaning self.new) }
    {
        self.record_fixed(Fixed::EndEvent)
    }

    /// `SetDescriptorHeaps` (code 3): the program's heaps, or none.
    fn set_descriptor_heaps(&mut self, on: bool) -> Result<(), Fault>
        ensures { Asked (meaning self.old) (SetDescriptorHeaps on) result (meaning self.new) }
    {
        self.record_fixed(Fixed::SetDescriptorHeaps(on))
    }

    /// `SetGraphicsRootSignature` (code 4).
    fn set_graphics_root_signature(&mut self, signature: u32) -> Result<(), Fault>
        ensures { Asked (meaning self.old)
            (SetRootSignature Graphics signature)
            result (meaning self.new) }
    {
        self.record_fixed(root_signature(Half::Graphics, signature))
    }

    /// `SetComputeRootSignature` (code 5).
    fn set_compute_root_signature(&mut self, signature: u32) -> Result<(), Fault>
        ensures { Asked (meaning self.old)
            (SetRootSignature Compute signature)
            result (meaning self.new) }
    {
        self.record_fixed(root_signature(Half::Compute, signature))
    }

    /// `SetPipelineState` (code 6).
    fn set_pipeline_state(&mut self, pipeline: u32) -> Result<(), Fault>
        ensures { Asked (meaning self.old) (SetPipelineState pipeline) result (meaning self.new) }
    {
        self.record_fixed(Fixed::SetPipelineState(pipeline))
    }

    /// `IASetPrimitiveTopology` (code 7): a `D3D12_PRIMITIVE_TOPOLOGY` by its number.
    fn ia_set_primitive_topology(&mut self, topology: u32) -> Result<(), Fault>
        ensures { Asked (meaning self.old)
            (IASetPrimitiveTopology topology)
            result (meaning self.new) }
    {
        self.record_fixed(Fixed::IASetPrimitiveTopology(topology))
    }

    /// `IASetVertexBuffers` (code 8) of one view: `size` and `stride` in bytes, `slot` below 16.
    fn ia_set_vertex_buffers(
        &mut self,
        slot: u8,
        address: u64,
        size: u32,
        stride: u32,
    ) -> Result<(), Fault>
        ensures { Asked (meaning self.old)
            (IASetVertexBuffers slot address size stride)
            result (meaning self.new) }
    {
        self.record_fixed(Fixed::IASetVertexBuffers {
            slot,
            address,
            size,
            stride,
        })
    }

    /// `SetGraphicsRoot32BitConstant` (code 10): `slot` and `word` below 64.
    fn set_graphics_root_32bit_constant(
        &mut self,
        slot: u8,
        word: u8,
        value: u32,
    ) -> Result<(), Fault>
        ensures { Asked (meaning self.old)
            (SetRoot32BitConstant Graphics slot word value)
            result (meaning self.new) }
    {
        self.record_fixed(root_constant(Half::Graphics, slot, word, value))
    }

    /// `SetComputeRoot32BitConstant` (code 11): `slot` and `word` below 64.
    fn set_compute_root_32bit_constant(
        &mut self,
        slot: u8,
        word: u8,
        value: u32,
    ) -> Result<(), Fault>
        ensures { Asked (meaning self.old)
            (SetRoot32BitConstant Compute slot word value)
            result (meaning self.new) }
    {
        self.record_fixed(root_constant(Half::Compute, slot, word, value))
    }

    /// `SetGraphicsRootDescriptorTable` (code 12): `slot` below 64.
    fn set_graphics_root_descriptor_table(&mut self, slot: u8, address: u64) -> Result<(), Fault>
        ensures { Asked (meaning self.old)
            (SetRootDescriptorTable Graphics slot address)
            result (meaning self.new) }
    {
        self.record_fixed(root_table(Half::Graphics, slot, address))
    }

    /// `SetComputeRootDescriptorTable` (code 13): `slot` below 64.
    fn set_compute_root_descriptor_table(&mut self, slot: u8, address: u64) -> Result<(), Fault>
        ensures { Asked (meaning self.old)
            (SetRootDescriptorTable Compute slot address)
            result (meaning self.new) }
    {
        self.record_fixed(root_table(Half::Compute, slot, address))
    }

    /// `SetGraphicsRootConstantBufferView` (code 14): `slot` below 64.
    fn set_graphics_root_constant_buffer_view(
        &mut self,
        slot: u8,
        address: u64,
    ) -> Result<(), Fault>
        ensures { Asked (meaning self.old)
            (SetRootConstantBufferView Graphics slot address)
            result (meaning self.new) }
    {
        self.record_fixed(root_view(Half::Graphics, slot, address))
    }

    /// `SetComputeRootConstantBufferView` (code 15): `slot` below 64.
    fn set_compute_root_constant_buffer_view(&mut self, slot: u8, address: u64) -> Result<(), Fault>
        ensures { Asked (meaning self.old)
            (SetRootConstantBufferView Compute slot address)
            result (meaning self.new) }
    {
        self.record_fixed(root_view(Half::Compute, slot, address))
    }

    /// `OMSetRenderTargets` (code 16): at most eight handles.
    fn om_set_render_targets(&mut self, targets: &[u64]) -> Result<(), Fault>
        ensures { Asked (meaning self.old)
            (OMSetRenderTargets targets.now)
            result (meaning self.new) }
    {
        self.record_given(Command::OMSetRenderTargets(targets))
    }

    /// `ClearRenderTargetView` (code 17): `colour` by the bits of four floats.
    fn clear_render_target_view(&mut self, target: u64, colour: [u32; 4]) -> Result<(), Fault>
        ensures { Asked (meaning self.old)
            (ClearRenderTargetView target
            (slice_index colour 0) (slice_index colour 1) (slice_index colour 2)
            (slice_index colour 3))
            result (meaning self.new) }
    {
        self.record_fixed(Fixed::ClearRenderTargetView { target, colour })
    }

    /// `RSSetViewports` (code 20) of one viewport, by the bits of six floats: x, y, width, height,
    /// least and greatest depth.
    fn rs_set_viewports(&mut self, viewport: [u32; 6]) -> Result<(), Fault>
        ensures { Asked (meaning self.old)
            (RSSetViewports
            (slice_index viewport 0) (slice_index viewport 1) (slice_index viewport 2)
            (slice_index viewport 3) (slice_index viewport 4) (slice_index viewport 5))
            result (meaning self.new) }
    {
        self.record_fixed(Fixed::RSSetViewports(viewport))
    }

    /// `RSSetScissorRects` (code 21) of one rectangle: each side by the bits of an `i32`.
    fn rs_set_scissor_rects(
        &mut self,
        left: u32,
        top: u32,
        right: u32,
        bottom: u32,
    ) -> Result<(), Fault>
        ensures { Asked (meaning self.old)
            (RSSetScissorRects left top right bottom)
            result (meaning self.new) }
    {
        self.record_fixed(Fixed::RSSetScissorRects {
            left,
            top,
            right,
            bottom,
        })
    }

    /// `ResourceBarrier` (code 22): 1 to 3854 barriers.
    fn resource_barrier(&mut self, barriers: &[Barrier]) -> Result<(), Fault>
        ensures { Asked (meaning self.old)
            (ResourceBarrier barriers.now)
            result (meaning self.new) }
    {
        self.record_given(Command::ResourceBarrier(barriers))
    }

    /// `DrawInstanced` (code 28).
    fn draw_instanced(
        &mut self,
        vertices: u32,
        instances: u32,
        first_vertex: u32,
        first_instance: u32,
    ) -> Result<(), Fault>
        ensures { Asked (meaning self.old)
            (DrawInstanced vertices instances first_vertex first_instance)
            result (meaning self.new) }
    {
        self.record_fixed(Fixed::DrawInstanced {
            vertices,
            instances,
            first_vertex,
            first_instance,
        })
    }

    /// `Dispatch` (code 30): so many groups in each direction.
    fn dispatch(&mut self, x: u32, y: u32, z: u32) -> Result<(), Fault>
        ensures { Asked (meaning self.old) (Dispatch x y z) result (meaning self.new) }
    {
        self.record_fixed(Fixed::Dispatch { x, y, z })
    }

    /// `ExecuteIndirect` (code 31): `count` draws or dispatches, by `half`, whose operands stand in
    /// `buffer` from `offset` on. `special`, below 64, is the root slot that a command signature
    /// with root constants writes; without one the shared command signature is used.
    fn execute_indirect(
        &mut self,
        half: Half,
        special: Option<u8>,
        count: u32,
        buffer: u32,
        offset: u64,
    ) -> Result<(), Fault>
        ensures { Asked (meaning self.old)
            (ExecuteIndirect half special count buffer offset)
            result (meaning self.new) }
    {
        self.record_fixed(Fixed::ExecuteIndirect {
            half,
            special,
            count,
            buffer,
            offset,
        })
    }
}
