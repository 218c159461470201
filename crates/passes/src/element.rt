// What a pass holds for a root slot.
ghost use Rattle.std.specs.Prelude.{◌≡◌};
ghost use Rattle.passes.specs.Account.{is_constants, fits_owner};

use bindings::constants::SpecialConstants;
use layouts::info::Owner;

/// What a pass holds for a root slot, to be written by the next draw if the slot is dirty.
/// wgpu-hal's type of the same name, without its sampler heap and storage buffers.
#[derive(Clone, Copy)]
pub enum RootElement {
    /// Nothing is known of the slot, and nothing is written.
    Empty,
    /// The pass's immediates, as many words as the current layout uses.
    Immediates,
    /// The special constants of a draw or dispatch.
    SpecialConstants(SpecialConstants),
    /// A group's descriptor table, by its GPU address.
    DescriptorTable(u64),
    /// A uniform buffer with a dynamic offset, by the GPU address that base and offset come to.
    DynamicUniformBuffer(u64),
}

impl RootElement {
    /// Whether the element is special constants of the same three words.
    pub fn is_constants(&self, constants: SpecialConstants) -> bool
        ensures { result ≡ is_constants constants self.now }
    {
        match self {
            RootElement::SpecialConstants(old) => constants.words() == old.words(),
            _ => false,
        }
    }

    /// Whether the element is of its owner's kind. At the special slot, and where there is no
    /// owner, any is.
    pub fn fits(&self, owner: Option<Owner>) -> bool
        ensures { result ≡ fits_owner owner self.now }
    {
        match owner {
            None | Some(Owner::Special) => true,
            Some(Owner::Table) => matches!(self, RootElement::DescriptorTable(_)),
            Some(Owner::Uniform) => matches!(self, RootElement::DynamicUniformBuffer(_)),
            Some(Owner::Immediates) => matches!(self, RootElement::Immediates),
        }
    }
}
