// What is bound at the root slots.
ghost use Rattle.std.specs.Prelude.{◌≡◌, ℕ, ◌+◌, ◌<◌, ◌≤◌, length, map, Some, None};
ghost use Rattle.layouts.specs.Owners.{first_uniform};
ghost use Rattle.passes.specs.declared.element.RootElement.TheVariants.{DynamicUniformBuffer};
ghost use Rattle.passes.specs.Account.{nothing_bound, filled, filled_from, renewed, switched};
ghost use Rattle.passes.specs.Account.{is_current, group_elements, constants_at, current_special};
ghost use Rattle.passes.specs.Account.{own_slot, emptied, untouched, unfit};
ghost use Rattle.passes.specs.Calls.{addresses, too_far, supplied, asks_layout, prepared_by, wiped_slot};
ghost use Rattle.passes.specs.Flush.{firsts, words_used};
ghost use Rattle.passes.specs.State.{bound_of, restored};
ghost use Rattle.command_list.specs.Refusals.{fault_at, fault_of};

use crate::element::RootElement;
use crate::replaced::Replaced;
use bindings::constants::SpecialConstants;
use command_list::fault::{Fault, Number};
use layouts::info::{BindGroupInfo, ImmediatesInfo};
use layouts::layout::PipelineLayout;
use layouts::mask::low;

/// The number of root slots. wgpu-hal's constant of the same name.
pub const MAX_ROOT_ELEMENTS: usize = 64;

/// The number of words of immediates. wgpu-hal's constant of the same name.
pub const MAX_IMMEDIATES: usize = 32;

/// The root slots of a pass, and which of them are dirty: touched since the last mark.
#[derive(Clone, Copy)]
pub struct RootState {
    /// The current layout, whose slots draws use. None before the first call that brings one.
    pub layout: Option<PipelineLayout>,
    /// An element for each slot.
    pub root_elements: [RootElement; MAX_ROOT_ELEMENTS],
    /// The words of immediates. They stay when another layout becomes current.
    pub immediates: [u32; MAX_IMMEDIATES],
    /// The dirty slots, slot k by the bit of value 2^k.
    pub dirty_root_elements: u64,
}

impl RootState {
    pub(crate) fn new() -> RootState
        ensures { bound_of result ≡ nothing_bound }
    {
        RootState {
            layout: None,
            root_elements: [RootElement::Empty; MAX_ROOT_ELEMENTS],
            immediates: [0; MAX_IMMEDIATES],
            dirty_root_elements: 0,
        }
    }

    // An element for a slot, which is touched.
    pub(crate) fn fill(&mut self, slot: u32, element: RootElement)
        requires { slot < 64 }
        ensures { bound_of self.new ≡ filled slot element (bound_of self.old) }
    {
        self.root_elements[slot as usize] = element;
        self.dirty_root_elements |= 1 << slot;
    }

    // Makes a layout current: its special element is three zeros, its slots are touched, and no
    // others are.
    pub(crate) fn reset_signature(&mut self, layout: &PipelineLayout)
        ensures { bound_of self.new ≡ renewed layout.now (bound_of self.old) }
    {
        if let Some(special) = layout.special() {
            self.root_elements[special.root_index as usize] = RootElement::SpecialConstants(
                SpecialConstants::from_dispatch(0, 0, 0),
            );
        }
        self.layout = Some(*layout);
        self.dirty_root_elements = low(u64::from(layout.total()));
    }

    // Makes a layout current if it has another signature than the current one.
    pub(crate) fn switch_to(&mut self, layout: &PipelineLayout)
        ensures { bound_of self.new ≡ switched layout.now (bound_of self.old) }
    {
        if !self.is_current(layout.signature()) {
            self.reset_signature(layout);
        }
    }

    // Whether the current layout has the signature.
    pub(crate) fn is_current(&self, signature: u32) -> bool
        ensures { result ≡ is_current signature self.now.layout }
    {
        self.layout
            .as_ref()
            .is_some_and(|layout| signature == layout.signature())
    }

    // Refuses a layout, 6, that has the current one's signature and is not equal to it.
    pub(crate) fn check_layout(&self, layout: &PipelineLayout) -> Result<(), Fault>
        ensures { fault_of result ≡ asks_layout layout.now self.now.layout }
    {
        let agrees = self.layout.as_ref().is_none_or(|current| {
            layout.signature() != current.signature() || *layout == *current
        });
        if agrees {
            Ok(())
        } else {
            Err(Number::Layout.at(0))
        }
    }

    // Uniforms for the slots from one of them on.
    fn fill_uniforms(&mut self, first: u32, bases: &[u64], offsets: &[u32])
        requires same { length bases.now ≡ length offsets.now }
        requires near { too_far 0 (addresses bases.now offsets.now) ≡ None }
        requires within { (k : ℕ) → first ≤ k → k < first + length bases.now → k < 64 }
        ensures { bound_of self.new ≡
            filled_from first (map DynamicUniformBuffer (addresses bases.now offsets.now))
            (bound_of self.old) }
    {
        let mut slot = first;
        for (base, offset) in bases.iter().zip(offsets.iter()) {
            self.fill(
                slot,
                RootElement::DynamicUniformBuffer(*base + u64::from(*offset)),
            );
            slot += 1;
        }
    }

    // A group's table, if it has one, and its uniforms.
    pub(crate) fn fill_group(
        &mut self,
        info: BindGroupInfo,
        table: u64,
        bases: &[u64],
        offsets: &[u32],
    )
        requires same { length bases.now ≡ length offsets.now }
        requires near { too_far 0 (addresses bases.now offsets.now) ≡ None }
        requires within { (k : ℕ) → info.base_root_index ≤ k →
            k < first_uniform info + length bases.now → k < 64 }
        ensures { bound_of self.new ≡
            filled_from info.base_root_index
            (group_elements info.table table (addresses bases.now offsets.now))
            (bound_of self.old) }
    {
        let first = info.base_root_index;
        if info.table {
            self.fill(first, RootElement::DescriptorTable(table));
            self.fill_uniforms(first + 1, bases, offsets);
        } else {
            self.fill_uniforms(first, bases, offsets);
        }
    }

    // Words of immediates, from one of them on, and the slot that they are written to.
    pub(crate) fn supply(&mut self, info: ImmediatesInfo, at: usize, words: &[u32])
        requires slot { info.root_index < 64 }
        requires within { at + length words.now ≤ 32 }
        ensures { bound_of self.new ≡ supplied (Some info) at words.now (bound_of self.old) }
    {
        self.immediates[at..at + words.len()].copy_from_slice(words);
        self.fill(info.root_index, RootElement::Immediates);
    }

    // Puts the special constants of the next draw, and touches their slot only if they differ from
    // those there. Hands back what they replaced, so that a refused draw leaves no trace.
    fn set_constants(&mut self, constants: SpecialConstants) -> Replaced
        ensures set { bound_of self.new ≡
            constants_at (current_special self.old.layout) constants (bound_of self.old) }
        ensures was { restored result (bound_of self.new) ≡ bound_of self.old }
    {
        let dirty = self.dirty_root_elements;
        let Some(slot) = self.special_slot() else {
            return Replaced {
                element: None,
                dirty,
            };
        };
        let old = self.root_elements[slot as usize];
        if !old.is_constants(constants) {
            self.fill(slot, RootElement::SpecialConstants(constants));
        }
        Replaced {
            element: Some((slot, old)),
            dirty,
        }
    }

    // The special slot of the current layout.
    fn special_slot(&self) -> Option<u32>
        ensures { result ≡ current_special self.now.layout }
    {
        Some(self.layout.as_ref()?.special()?.root_index)
    }

    // The special slot of the current layout, if that has its own command signature.
    pub(crate) fn own_slot(&self) -> Option<u8>
        ensures { result ≡ own_slot self.now.layout }
    {
        let special = self.layout.as_ref()?.special()?;
        special.own_signature.then_some(special.root_index as u8)
    }

    // Nothing is touched any more.
    fn settle(&mut self)
        ensures { bound_of self.new ≡ untouched (bound_of self.old) }
    {
        self.dirty_root_elements = 0;
    }

    // Nothing is known of a slot any more.
    fn forget(&mut self, slot: Option<u8>)
        requires { (i : ℕ) → slot ≡ Some i → i < 64 }
        ensures { bound_of self.new ≡ emptied slot (bound_of self.old) }
    {
        if let Some(slot) = slot {
            self.root_elements[slot as usize] = RootElement::Empty;
        }
    }

    // Refuses a layout, 8, some slot of which, beside the special one, has no element of its
    // owner's kind: with the lowest such slot.
    pub(crate) fn check_elements(&self, layout: &PipelineLayout) -> Result<(), Fault>
        ensures { fault_of result ≡
            fault_at 8
            (unfit layout.now (bound_of self.now).elements 0 layout.now.total_root_elements) }
    {
        for slot in 0..layout.total() {
            if !self.root_elements[slot as usize].fits(layout.owner(slot)) {
                return Err(Number::Unfit.at(slot as usize));
            }
        }
        Ok(())
    }

    // Puts the special constants that a draw wants: its own, or an indirect call's zeros.
    pub(crate) fn prepare(&mut self, own: Option<SpecialConstants>) -> Replaced
        ensures set { bound_of self.new ≡ prepared_by own (bound_of self.old) }
        ensures was { restored result (bound_of self.new) ≡ bound_of self.old }
    {
        if own.is_none() && self.own_slot().is_some() {
            return Replaced {
                element: None,
                dirty: self.dirty_root_elements,
            };
        }
        self.set_constants(own.unwrap_or(SpecialConstants::from_dispatch(0, 0, 0)))
    }

    // Puts back what a draw's constants replaced.
    pub(crate) fn restore(&mut self, was: Replaced)
        ensures { bound_of self.new ≡ restored was (bound_of self.old) }
    {
        if let Some((slot, element)) = was.element {
            self.root_elements[slot as usize] = element;
        }
        self.dirty_root_elements = was.dirty;
    }

    // A mark: no slot is dirty, and nothing is known of a slot that an indirect call wiped.
    pub(crate) fn mark(&mut self, own: Option<SpecialConstants>)
        ensures { bound_of self.new ≡
            untouched (emptied (wiped_slot own self.old.layout) (bound_of self.old)) }
    {
        if own.is_none() {
            self.forget(self.own_slot());
        }
        self.settle();
    }

    // How many words of immediates the current layout uses.
    fn words_used(&self) -> u32
        ensures value { result ≡ words_used self.now.layout }
        ensures few { result ≤ 32 }
    {
        self.layout
            .as_ref()
            .and_then(|layout| layout.immediates())
            .map_or(0, |info| info.size)
    }

    /// The words of immediates that the current layout uses, from the first on; none without a
    /// layout.
    pub fn used_immediates(&self) -> &[u32]
        ensures words { result.now ≡
            firsts (bound_of self.now).immediates 0 (words_used self.now.layout) }
        ensures few { length result.now ≤ 32 }
    {
        &self.immediates[..self.words_used() as usize]
    }
}
