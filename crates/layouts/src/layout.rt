//! The layout of a pipeline's root slots.
ghost use Rattle.std.specs.Prelude.{◌≡◌, ℕ, ◌≤◌, true, None, IfOk, Decides};
ghost use Rattle.command_list.specs.Bits.{bit};
ghost use Rattle.command_list.specs.Refusals.{fault_of};
ghost use Rattle.layouts.specs.Owners.{sound, owner_of, owned, is_table, is_uniform, verdict};

use crate::checks::RootParts;
use crate::info::{
    BindGroupInfo, ImmediatesInfo, MAX_BIND_GROUPS, Owner, PipelineLayoutSpecialConstants,
};
use crate::mask::has;
use command_list::fault::{Fault, Number};

/// What a pipeline expects at its root slots: `PipelineLayout`, with `PipelineLayoutShared`, in the
/// Rust. Each slot below the total has one owner, and no other slot has any.
#[derive(Clone, Copy)]
pub struct PipelineLayout {
    signature: u32,
    total_root_elements: u32,
    special_constants: Option<PipelineLayoutSpecialConstants>,
    immediates_info: Option<ImmediatesInfo>,
    bind_group_infos: [Option<BindGroupInfo>; MAX_BIND_GROUPS],
    tables: u64,
    uniforms: u64,
    ghost ok: { sound signature total_root_elements
        special_constants immediates_info bind_group_infos ≡ true },
    ghost table_slots: { (k : ℕ) → bit tables k
        ≡ owned is_table (owner_of special_constants immediates_info bind_group_infos k) },
    ghost uniform_slots: { (k : ℕ) → bit uniforms k
        ≡ owned is_uniform (owner_of special_constants immediates_info bind_group_infos k) },
}

impl PipelineLayout {
    ghost use Rattle.layouts.specs.Layouts.{HasParts, owner_in, group_in};

    /// A layout of these parts. The group at index `i` stands at place `i` of `groups`.
    ///
    /// Refused, at place 0 and in this order: a signature of 0 with 1; more than 64 slots, an owned
    /// slot that is not below the total, or immediates that are not 1 to 32 words with 11; a slot
    /// below the total that has no owner, or two, with 12.
    pub fn new(
        signature: u32,
        total: u32,
        special: Option<PipelineLayoutSpecialConstants>,
        immediates: Option<ImmediatesInfo>,
        groups: [Option<BindGroupInfo>; MAX_BIND_GROUPS],
    ) -> Result<PipelineLayout, Fault>
        ensures answer { fault_of result ≡ verdict signature total special immediates groups }
        ensures parts { IfOk result (HasParts signature total special immediates groups) }
    {
        if signature == 0 {
            return Err(Number::Range.at(0));
        }
        let parts = RootParts {
            special,
            immediates,
            groups,
        };
        if !parts.fits(total) {
            return Err(Number::Slots.at(0));
        }
        if !parts.once(total) {
            return Err(Number::Owners.at(0));
        }
        let (tables, uniforms) = parts.masks();
        Ok(PipelineLayout {
            signature,
            total_root_elements: total,
            special_constants: special,
            immediates_info: immediates,
            bind_group_infos: groups,
            tables,
            uniforms,
        })
    }

    /// Who owns a slot, if one does.
    pub fn owner(&self, slot: u32) -> Option<Owner>
        ensures { result ≡ owner_in self.now slot }
    {
        if self.special_constants.is_some_and(|c| c.root_index == slot) {
            return Some(Owner::Special);
        }
        if self.immediates_info.is_some_and(|i| i.root_index == slot) {
            return Some(Owner::Immediates);
        }
        if has(self.tables, slot) {
            return Some(Owner::Table);
        }
        if has(self.uniforms, slot) {
            return Some(Owner::Uniform);
        }
        None
    }

    /// The root signature's handle, which is not 0.
    pub fn signature(&self) -> u32
        ensures { result ≡ self.now.signature }
    {
        self.signature
    }

    /// How many root slots there are, 64 at most.
    pub fn total(&self) -> u32
        ensures { result ≡ self.now.total_root_elements }
    {
        self.total_root_elements
    }

    /// The slot of the special constants, if there is one.
    pub fn special(&self) -> Option<PipelineLayoutSpecialConstants>
        ensures { result ≡ self.now.special_constants }
    {
        self.special_constants
    }

    /// The slot of the immediates, if there is one.
    pub fn immediates(&self) -> Option<ImmediatesInfo>
        ensures { result ≡ self.now.immediates_info }
    {
        self.immediates_info
    }

    /// The group at an index, if the layout has one there. There is none from index 8 on.
    pub fn group(&self, index: u32) -> Option<BindGroupInfo>
        ensures there { result ≡ group_in self.now index }
        ensures past { 8 ≤ index → result ≡ None }
    {
        self.bind_group_infos.get(index as usize).copied().flatten()
    }

    /// The slots that tables own, as a mask.
    pub fn tables(&self) -> u64
        ensures { result ≡ self.now.tables }
    {
        self.tables
    }

    /// The slots that uniforms own, as a mask.
    pub fn uniforms(&self) -> u64
        ensures { result ≡ self.now.uniforms }
    {
        self.uniforms
    }
}

// Two layouts are equal when their parts are: the masks follow from these.
impl PartialEq for PipelineLayout {
    ghost use Rattle.layouts.specs.Equal.{same_layout};
    ghost use Rattle.layouts.specs.EqualLaws.{layout_per};

    ghost eq = { same_layout };

    ghost laws = { layout_per };

    fn eq(&self, other: &PipelineLayout) -> bool
        ensures test { result ≡ same_layout self.now other.now }
        ensures equal { Decides result (self.now ≡ other.now) }
    {
        (self.signature, self.total_root_elements) == (other.signature, other.total_root_elements)
            && self.special_constants == other.special_constants
            && self.immediates_info == other.immediates_info
            && self.bind_group_infos == other.bind_group_infos
    }
}
