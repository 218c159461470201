ghost use Rattle.std.specs.Prelude.{◌≡◌};
ghost use Rattle.command_list.specs.Commands.{byte_of};
ghost use Rattle.command_list.specs.Seen.{Names};

use crate::fault::Number;

/// The code of a record, named after the method of ID3D12GraphicsCommandList that the record stands
/// for. Each code is the byte that it has in a file.
#[derive(Clone, Copy, PartialEq, Eq, Debug)]
pub enum Code {
    BeginEvent = 1,
    EndEvent = 2,
    SetDescriptorHeaps = 3,
    SetGraphicsRootSignature = 4,
    SetComputeRootSignature = 5,
    SetPipelineState = 6,
    IASetPrimitiveTopology = 7,
    IASetVertexBuffers = 8,
    SetGraphicsRoot32BitConstant = 10,
    SetComputeRoot32BitConstant = 11,
    SetGraphicsRootDescriptorTable = 12,
    SetComputeRootDescriptorTable = 13,
    SetGraphicsRootConstantBufferView = 14,
    SetComputeRootConstantBufferView = 15,
    OMSetRenderTargets = 16,
    ClearRenderTargetView = 17,
    RSSetViewports = 20,
    RSSetScissorRects = 21,
    ResourceBarrier = 22,
    DrawInstanced = 28,
    Dispatch = 30,
    ExecuteIndirect = 31,
}

/// The code that a byte names; a byte that names none is refused with 23.
impl TryFrom<u8> for Code {
    type Error = Number;

    ghost try_from_gives = { Names };

    fn try_from(byte: u8) -> Result<Code, Number> {
        match byte {
            1 => Ok(Code::BeginEvent),
            2 => Ok(Code::EndEvent),
            3 => Ok(Code::SetDescriptorHeaps),
            4 => Ok(Code::SetGraphicsRootSignature),
            5 => Ok(Code::SetComputeRootSignature),
            6 => Ok(Code::SetPipelineState),
            7 => Ok(Code::IASetPrimitiveTopology),
            8 => Ok(Code::IASetVertexBuffers),
            10 => Ok(Code::SetGraphicsRoot32BitConstant),
            11 => Ok(Code::SetComputeRoot32BitConstant),
            12 => Ok(Code::SetGraphicsRootDescriptorTable),
            13 => Ok(Code::SetComputeRootDescriptorTable),
            14 => Ok(Code::SetGraphicsRootConstantBufferView),
            15 => Ok(Code::SetComputeRootConstantBufferView),
            16 => Ok(Code::OMSetRenderTargets),
            17 => Ok(Code::ClearRenderTargetView),
            20 => Ok(Code::RSSetViewports),
            21 => Ok(Code::RSSetScissorRects),
            22 => Ok(Code::ResourceBarrier),
            28 => Ok(Code::DrawInstanced),
            30 => Ok(Code::Dispatch),
            31 => Ok(Code::ExecuteIndirect),
            _ => Err(Number::Unknown),
        }
    }
}

/// The byte of a code.
impl From<Code> for u8 {
    ghost from_gives = { λ code byte. byte ≡ byte_of code };

    fn from(code: Code) -> u8 {
        code as u8
    }
}
