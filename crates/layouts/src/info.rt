//! The parts of a layout.
use std::fmt;

/// How many bind groups a layout can have, as `wgpu_hal::MAX_BIND_GROUPS` says.
pub const MAX_BIND_GROUPS: usize = 8;

/// A bind group's root slots, `BindGroupInfo` in the Rust: from its base on the table's, if it has
/// one, and then one for each uniform. A group with neither owns no slot, whatever its base.
#[derive(Clone, Copy, PartialEq, Eq)]
pub struct BindGroupInfo {
    /// The first slot.
    pub base_root_index: u32,
    /// Whether the first slot is a descriptor table's.
    pub table: bool,
    /// How many uniforms there are, each a root constant buffer view.
    pub uniforms: u32,
}

/// The slot of the immediates, and how many they are.
#[derive(Clone, Copy, PartialEq, Eq)]
pub struct ImmediatesInfo {
    pub root_index: u32,
    /// In words of 32 bits, from 1 to 32.
    pub size: u32,
}

/// The slot of the special constants, which tell a shader the first vertex and the first instance
/// of a draw, or the counts of a dispatch.
#[derive(Clone, Copy, PartialEq, Eq)]
pub struct PipelineLayoutSpecialConstants {
    pub root_index: u32,
    /// Whether indirect calls take a command signature of the layout's own, which writes the
    /// special constants: `indirect_cmd_signatures` in the Rust.
    pub own_signature: bool,
}

/// What a root slot is for.
#[derive(Clone, Copy, PartialEq, Eq)]
pub enum Owner {
    /// The descriptor table of a bind group.
    Table,
    /// A uniform of a bind group.
    Uniform,
    Immediates,
    Special,
}

// The name of what a slot is for.
impl fmt::Display for Owner {
    ghost use Rattle.std.specs.Prelude.{Some};
    ghost use Rattle.layouts.specs.Names.{name_of};

    ghost output = { λ o. Some (name_of o) };

    fn fmt<W: fmt::Write>(&self, f: &mut fmt::Formatter<W>) -> fmt::Result {
        f.write_str(match self {
            Owner::Table => "table",
            Owner::Uniform => "uniform",
            Owner::Immediates => "immediates",
            Owner::Special => "special constants",
        })
    }
}
