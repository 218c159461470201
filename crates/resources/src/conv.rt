// Usages as Direct3D states.
ghost use Rattle.std.specs.Prelude.{◌≡◌, if◌then◌else◌, bit_and, bit_or, nat_eq, fold};
ghost use Rattle.command_list.specs.Bits.{bit};
ghost use Rattle.resources.specs.States.{common, all_shader_resource};
ghost use Rattle.resources.specs.Usages.{Stated, buffer, texture};

use crate::uses::{BufferUses, TextureUses};

// Values of D3D12_RESOURCE_STATES, by Microsoft's names.
const COMMON: u32 = 0x0;

const VERTEX_AND_CONSTANT_BUFFER: u32 = 0x1;

const INDEX_BUFFER: u32 = 0x2;

const RENDER_TARGET: u32 = 0x4;

const UNORDERED_ACCESS: u32 = 0x8;

const DEPTH_WRITE: u32 = 0x10;

const DEPTH_READ: u32 = 0x20;

const ALL_SHADER_RESOURCE: u32 = 0xC0;

const INDIRECT_ARGUMENT: u32 = 0x200;

const COPY_DEST: u32 = 0x400;

const COPY_SOURCE: u32 = 0x800;

// What a flag brings to a usage that has it.
fn brings(bits: u32, flag: u32, state: u32) -> u32
    ensures { result ≡ (if nat_eq (bit_and bits flag) 0 then 0 else state) }
{
    if bits & flag == 0 { COMMON } else { state }
}

// What all flags of a usage bring, given each flag beside what it brings.
fn brought(bits: u32, flags: &[(u32, u32)]) -> u32
    ensures { result ≡
        fold (λ s p. bit_or s (if nat_eq (bit_and bits p.0) 0 then 0 else p.1)) 0 flags.now }
{
    flags.iter().fold(
        COMMON,
        |all, &(flag, state)| all | brings(bits, flag, state),
    )
}

// Read-only storage is a shader resource, unless the usage writes storage too.
fn reads_storage(bits: u32) -> u32
    ensures { result ≡ (if bit bits 6 then common else all_shader_resource) }
{
    if bits & BufferUses::STORAGE_READ_WRITE != 0 {
        COMMON
    } else {
        ALL_SHADER_RESOURCE
    }
}

/// The Direct3D state of a buffer's usage: the bitwise or of what its flags bring. wgpu-hal's
/// function of the same name. Bits that are no known flag bring nothing.
pub fn map_buffer_usage_to_state(usage: BufferUses) -> u32
    ensures { Stated (buffer usage.bits) result }
{
    let flags = [
        (BufferUses::COPY_SRC, COPY_SOURCE),
        (BufferUses::COPY_DST, COPY_DEST),
        (BufferUses::INDEX, INDEX_BUFFER),
        (BufferUses::VERTEX, VERTEX_AND_CONSTANT_BUFFER),
        (BufferUses::UNIFORM, VERTEX_AND_CONSTANT_BUFFER),
        (BufferUses::STORAGE_READ_ONLY, reads_storage(usage.bits)),
        (BufferUses::STORAGE_READ_WRITE, UNORDERED_ACCESS),
        (BufferUses::INDIRECT, INDIRECT_ARGUMENT),
        (BufferUses::ACCELERATION_STRUCTURE_QUERY, UNORDERED_ACCESS),
    ];
    brought(usage.bits, &flags)
}

/// The Direct3D state of a texture's usage: the bitwise or of what its flags bring. wgpu-hal's
/// function of the same name. Bits that are no known flag bring nothing.
pub fn map_texture_usage_to_state(usage: TextureUses) -> u32
    ensures { Stated (texture usage.bits) result }
{
    let flags = [
        (TextureUses::UNINITIALIZED, COMMON),
        (TextureUses::COPY_SRC, COPY_SOURCE),
        (TextureUses::COPY_DST, COPY_DEST),
        (TextureUses::RESOURCE, ALL_SHADER_RESOURCE),
        (TextureUses::COLOR_TARGET, RENDER_TARGET),
        (TextureUses::DEPTH_STENCIL_READ, DEPTH_READ),
        (TextureUses::DEPTH_STENCIL_WRITE, DEPTH_WRITE),
        (TextureUses::STORAGE_READ_ONLY, UNORDERED_ACCESS),
        (TextureUses::STORAGE_WRITE_ONLY, UNORDERED_ACCESS),
        (TextureUses::STORAGE_READ_WRITE, UNORDERED_ACCESS),
    ];
    brought(usage.bits, &flags)
}
