// Single facts: the state of a usage, the record of a label, the owners of a layout's slots.
use crate::failure::{Failure, refusal};
use command_list::command::Command;
use command_list::fault::{Fault, Number};
use labels::label::Label;
use layouts::layout::PipelineLayout;
use list_writer::writer::Recordable;
use resources::barrier::Uses;
use resources::uses::{BufferUses, TextureUses};

/// A flag with its name.
pub(crate) type Flag = (u32, &'static str);

/// The usages of a buffer, under wgpu's names.
pub(crate) const BUFFER_FLAGS: [Flag; 9] = [
    (BufferUses::COPY_SRC, "COPY_SRC"),
    (BufferUses::COPY_DST, "COPY_DST"),
    (BufferUses::INDEX, "INDEX"),
    (BufferUses::VERTEX, "VERTEX"),
    (BufferUses::UNIFORM, "UNIFORM"),
    (BufferUses::STORAGE_READ_ONLY, "STORAGE_READ_ONLY"),
    (BufferUses::STORAGE_READ_WRITE, "STORAGE_READ_WRITE"),
    (BufferUses::INDIRECT, "INDIRECT"),
    (
        BufferUses::ACCELERATION_STRUCTURE_QUERY,
        "ACCELERATION_STRUCTURE_QUERY",
    ),
];

/// The usages of a texture, under wgpu's names.
pub(crate) const TEXTURE_FLAGS: [Flag; 10] = [
    (TextureUses::UNINITIALIZED, "UNINITIALIZED"),
    (TextureUses::COPY_SRC, "COPY_SRC"),
    (TextureUses::COPY_DST, "COPY_DST"),
    (TextureUses::RESOURCE, "RESOURCE"),
    (TextureUses::COLOR_TARGET, "COLOR_TARGET"),
    (TextureUses::DEPTH_STENCIL_READ, "DEPTH_STENCIL_READ"),
    (TextureUses::DEPTH_STENCIL_WRITE, "DEPTH_STENCIL_WRITE"),
    (TextureUses::STORAGE_READ_ONLY, "STORAGE_READ_ONLY"),
    (TextureUses::STORAGE_WRITE_ONLY, "STORAGE_WRITE_ONLY"),
    (TextureUses::STORAGE_READ_WRITE, "STORAGE_READ_WRITE"),
];

// All values of Microsoft's `D3D12_RESOURCE_STATES` with their names; usages map to some of them.
const STATES: [Flag; 12] = [
    (0x1, "VERTEX_AND_CONSTANT_BUFFER"),
    (0x2, "INDEX_BUFFER"),
    (0x4, "RENDER_TARGET"),
    (0x8, "UNORDERED_ACCESS"),
    (0x10, "DEPTH_WRITE"),
    (0x20, "DEPTH_READ"),
    (0x40, "NON_PIXEL_SHADER_RESOURCE"),
    (0x80, "PIXEL_SHADER_RESOURCE"),
    (0x100, "STREAM_OUT"),
    (0x200, "INDIRECT_ARGUMENT"),
    (0x400, "COPY_DEST"),
    (0x800, "COPY_SOURCE"),
];

// The names of a number's flags, lowest first, or what it is with none.
fn print_names(rt: &impl Print, number: u32, flags: &[Flag], none: &str) -> Result<(), Failure> {
    if number == 0 {
        print!(rt; " {none}")?;
    }
    for (_, name) in flags.iter().filter(|(flag, _)| number & *flag != 0) {
        print!(rt; " {name}")?;
    }
    println!(rt; "")?;
    Ok(())
}

/// A usage with the names of its flags, and the state that it maps to. Refused with 1 where a flag
/// is not known. `bits` are the bits of `usage`.
pub(crate) fn print_usage<U: Uses + Drop>(
    rt: &(impl Print + AllocGlobal),
    usage: U,
    bits: u32,
    flags: &[Flag],
) -> Result<(), Failure> {
    if !usage.is_known() {
        return Err(refusal(rt.alloc(), "the usage", Number::Range.at(0)));
    }
    print!(rt; "usage {bits}:")?;
    print_names(rt, bits, flags, "no flag")?;
    let state = usage.state();
    print!(rt; "state {state:#x}:")?;
    print_names(rt, state, &STATES, "COMMON")
}

// A label's record at the start of some bytes; how many bytes it takes.
fn label_record(label: &str, bytes: &mut [u8]) -> Result<usize, Fault> {
    let label = Label::new(label.as_bytes())?;
    Command::BeginEvent(label.units()).append_to(bytes, 0)
}

/// The record of an event with a label, byte by byte. Refused with 1 or 2, as labels are.
pub(crate) fn print_label(rt: &(impl Print + AllocGlobal), label: &str) -> Result<(), Failure> {
    let mut bytes = [0u8; 1024];
    let size = label_record(label, &mut bytes).map_err(|fault| refusal(
        rt.alloc(),
        "the label",
        fault,
    ))?;
    for (i, byte) in bytes.iter().take(size).enumerate() {
        if i > 0 {
            print!(rt; " ")?;
        }
        print!(rt; "{byte:02X}")?;
    }
    println!(rt; "")?;
    Ok(())
}

/// A layout's root signature, and who owns each of its slots.
pub(crate) fn print_layout(rt: &impl Print, layout: &PipelineLayout) -> Result<(), Failure> {
    let signature = layout.signature();
    print!(rt; "layout of signature {signature}")?;
    for slot in 0..layout.total() {
        match layout.owner(slot) {
            Some(owner) => print!(rt; ", slot {slot} {owner}")?,
            None => print!(rt; ", slot {slot} nothing")?,
        }
    }
    println!(rt; "")?;
    Ok(())
}
