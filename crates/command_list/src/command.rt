ghost use Rattle.std.specs.Prelude.{◌≡◌};
ghost use Rattle.command_list.specs.Commands.{code_of, of_half, type_byte};
ghost use Rattle.command_list.specs.Seen.{Types, fixed_command};

use crate::code::Code;
use crate::fault::Number;
use std::fmt;

/// The two halves of a command list's state: calls of Direct3D come in pairs, one for each half.
#[derive(Clone, Copy, PartialEq, Eq)]
pub enum Half {
    Graphics,
    Compute,
}

/// The type of a resource barrier, by Direct3D's number (D3D12_RESOURCE_BARRIER_TYPE). Aliasing (1)
/// is not used.
#[derive(Clone, Copy, PartialEq, Eq)]
pub enum BarrierType {
    /// The resource goes from one state to another.
    Transition = 0,
    /// All accesses to the resource as an unordered access view end before the next ones begin.
    Uav = 2,
}

/// An entry of a resource barrier (D3D12_RESOURCE_BARRIER).
#[derive(Clone, Copy)]
pub struct Barrier {
    pub kind: BarrierType,
    /// The host's number of the resource.
    pub resource: u32,
    /// The index of a subresource, or 0xffffffff for all of them.
    pub subresource: u32,
    /// The state before, in bits of D3D12_RESOURCE_STATES.
    pub before: u32,
    /// The state after.
    pub after: u32,
}

/// A command whose operands have a fixed width. Floats stand as their bit patterns, so that a list
/// is written byte for byte as it was given.
#[derive(Clone, Copy, PartialEq, Eq)]
pub enum Fixed {
    EndEvent,
    SetDescriptorHeaps(bool),
    SetRootSignature {
        half: Half,
        signature: u32,
    },
    SetPipelineState(u32),
    IASetPrimitiveTopology(u32),
    /// One view of a vertex buffer; sizes and strides are in bytes.
    IASetVertexBuffers {
        slot: u8,
        address: u64,
        size: u32,
        stride: u32,
    },
    /// One 32-bit constant of a root slot; `word` counts constants from the first of the slot.
    SetRoot32BitConstant {
        half: Half,
        slot: u8,
        word: u8,
        value: u32,
    },
    SetRootDescriptorTable {
        half: Half,
        slot: u8,
        address: u64,
    },
    SetRootConstantBufferView {
        half: Half,
        slot: u8,
        address: u64,
    },
    /// Red, green, blue and alpha as float patterns.
    ClearRenderTargetView {
        target: u64,
        colour: [u32; 4],
    },
    /// x, y, width, height, least and greatest depth as float patterns.
    RSSetViewports([u32; 6]),
    RSSetScissorRects {
        left: u32,
        top: u32,
        right: u32,
        bottom: u32,
    },
    DrawInstanced {
        vertices: u32,
        instances: u32,
        first_vertex: u32,
        first_instance: u32,
    },
    Dispatch {
        x: u32,
        y: u32,
        z: u32,
    },
    /// Indirect draws (graphics) or dispatches (compute): at most `count` of them, whose arguments
    /// begin `offset` bytes into the buffer. `special` is the root slot that the command signature
    /// writes before each; none stands for the shared command signature, which writes no root slot.
    ExecuteIndirect {
        half: Half,
        special: Option<u8>,
        count: u32,
        buffer: u32,
        offset: u64,
    },
}

/// A command: of a fixed width, or with a list of units, handles or entries among its operands.
#[derive(Clone, Copy)]
pub enum Call<U, H, E> {
    /// A label in UTF-16, ended by a unit that is 0.
    BeginEvent(U),
    /// The handles of at most eight render targets.
    OMSetRenderTargets(H),
    /// One entry at least.
    ResourceBarrier(E),
    Fixed(Fixed),
}

/// A command that is given to be written: its lists are slices.
pub type Command<'a> = Call<&'a [u16], &'a [u64], &'a [Barrier]>;

/// The half in a word, for messages.
impl fmt::Display for Half {
    ghost use Rattle.std.specs.Prelude.{Some};
    ghost use Rattle.command_list.specs.Shown.{half_name};

    ghost output = { λ half. Some (half_name half) };

    fn fmt<W: fmt::Write>(&self, f: &mut fmt::Formatter<W>) -> fmt::Result {
        f.write_str(match self {
            Half::Graphics => "graphics",
            Half::Compute => "compute",
        })
    }
}

/// The type that a byte names; a byte that names none is refused with 25.
impl TryFrom<u8> for BarrierType {
    type Error = Number;

    ghost try_from_gives = { Types };

    fn try_from(byte: u8) -> Result<BarrierType, Number> {
        match byte {
            0 => Ok(BarrierType::Transition),
            2 => Ok(BarrierType::Uav),
            _ => Err(Number::Operand),
        }
    }
}

/// The byte of a type.
impl From<BarrierType> for u8 {
    ghost from_gives = { λ kind byte. byte ≡ type_byte kind };

    fn from(kind: BarrierType) -> u8 {
        kind as u8
    }
}

impl Half {
    // One of two, by the half.
    fn choose(self, graphics: Code, compute: Code) -> Code
        ensures { result ≡ of_half self graphics compute }
    {
        match self {
            Half::Graphics => graphics,
            Half::Compute => compute,
        }
    }
}

impl Fixed {
    /// The code of the command's record.
    pub fn code(self) -> Code
        ensures { result ≡ code_of (fixed_command self) }
    {
        match self {
            Fixed::EndEvent => Code::EndEvent,
            Fixed::SetDescriptorHeaps(_) => Code::SetDescriptorHeaps,
            Fixed::SetRootSignature { half, .. } => half.choose(
                Code::SetGraphicsRootSignature,
                Code::SetComputeRootSignature,
            ),
            Fixed::SetPipelineState(_) => Code::SetPipelineState,
            Fixed::IASetPrimitiveTopology(_) => Code::IASetPrimitiveTopology,
            Fixed::IASetVertexBuffers { .. } => Code::IASetVertexBuffers,
            Fixed::SetRoot32BitConstant { half, .. } => half.choose(
                Code::SetGraphicsRoot32BitConstant,
                Code::SetComputeRoot32BitConstant,
            ),
            Fixed::SetRootDescriptorTable { half, .. } => half.choose(
                Code::SetGraphicsRootDescriptorTable,
                Code::SetComputeRootDescriptorTable,
            ),
            Fixed::SetRootConstantBufferView { half, .. } => half.choose(
                Code::SetGraphicsRootConstantBufferView,
                Code::SetComputeRootConstantBufferView,
            ),
            Fixed::ClearRenderTargetView { .. } => Code::ClearRenderTargetView,
            Fixed::RSSetViewports(_) => Code::RSSetViewports,
            Fixed::RSSetScissorRects { .. } => Code::RSSetScissorRects,
            Fixed::DrawInstanced { .. } => Code::DrawInstanced,
            Fixed::Dispatch { .. } => Code::Dispatch,
            Fixed::ExecuteIndirect { .. } => Code::ExecuteIndirect,
        }
    }
}
