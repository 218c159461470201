// The parts that own a layout's slots, what a new layout asks of them, and the masks of its slots.
ghost use Rattle.std.specs.Prelude.{◌≡◌, ◌≤◌, length};
ghost use Rattle.layouts.specs.Owners.{first_uniform, behind, of_group, of_groups, owners};
ghost use Rattle.layouts.specs.Owners.{group_within, groups_within, fits as fitting};
ghost use Rattle.layouts.specs.Owners.{once_below, is_table, is_uniform};
ghost use Rattle.layouts.specs.Masks.{Masks, Gathered};

use crate::info::{BindGroupInfo, ImmediatesInfo, MAX_BIND_GROUPS, PipelineLayoutSpecialConstants};
use crate::mask::span;

// The slot behind the group's table slot, where its uniforms begin.
fn first_uniform(info: BindGroupInfo) -> u64
    ensures { result ≡ first_uniform info }
{
    u64::from(info.base_root_index) + u64::from(info.table)
}

// The slot behind the group's last.
fn behind_last(info: BindGroupInfo) -> u64
    ensures { result ≡ behind info }
{
    first_uniform(info) + u64::from(info.uniforms)
}

// Whether the slots of a group are below the total.
fn group_within(total: u32, info: Option<BindGroupInfo>) -> bool
    ensures { result ≡ group_within total info }
{
    info.is_none_or(|g| {
        let end = behind_last(g);
        end <= u64::from(g.base_root_index) || end <= u64::from(total)
    })
}

// How many owners the slot has in a group.
fn count_group(info: Option<BindGroupInfo>, slot: u32) -> u32
    ensures value { result ≡ length (of_group slot info) }
    ensures few { result ≤ 2 }
{
    info.map_or(0, |g| {
        let slot = u64::from(slot);
        let middle = first_uniform(g);
        u32::from((u64::from(g.base_root_index)..middle).contains(&slot))
            + u32::from((middle..behind_last(g)).contains(&slot))
    })
}

// What owns the slots of a layout.
#[derive(Clone, Copy)]
pub(crate) struct RootParts {
    pub(crate) special: Option<PipelineLayoutSpecialConstants>,
    pub(crate) immediates: Option<ImmediatesInfo>,
    pub(crate) groups: [Option<BindGroupInfo>; MAX_BIND_GROUPS],
}

impl RootParts {
    // Whether there are at most 64 slots, each owned one below the total, and immediates fit.
    pub(crate) fn fits(&self, total: u32) -> bool
        ensures { result ≡ fitting total self.now.special self.now.immediates self.now.groups }
    {
        total <= 64
            && self.special.is_none_or(|c| c.root_index < total)
            && self
                .immediates
                .is_none_or(|i| i.root_index < total && (1..=32).contains(&i.size))
            && self.groups_within(total)
    }

    fn groups_within(&self, total: u32) -> bool
        ensures { result ≡ groups_within total self.now.groups }
    {
        self.groups.iter().all(|info| group_within(total, *info))
    }

    fn count_groups(&self, slot: u32) -> u32
        ensures value { result ≡ length (of_groups slot self.now.groups) }
        ensures few { result ≤ 16 }
    {
        self.groups
            .iter()
            .map(|info| count_group(*info, slot))
            .sum()
    }

    // How many owners the slot has.
    fn count(&self, slot: u32) -> u32
        ensures { result
            ≡ length (owners self.now.special self.now.immediates self.now.groups slot) }
    {
        u32::from(self.special.is_some_and(|c| c.root_index == slot))
            + u32::from(self.immediates.is_some_and(|i| i.root_index == slot))
            + self.count_groups(slot)
    }

    // Whether each slot below the total has one owner.
    pub(crate) fn once(&self, total: u32) -> bool
        ensures { result
            ≡ once_below (owners self.now.special self.now.immediates self.now.groups) total }
    {
        (0..total).all(|slot| self.count(slot) == 1)
    }

    // The slots of all groups that a kind of owner has, as a mask, from those of each group.
    fn mask<F: Fn(BindGroupInfo) -> u64>(&self, slots: F) -> u64
        requires { F.IsAlwaysCallable slots }
        ensures { Gathered (λ g m. F.post slots g m) self.now.groups result }
    {
        let mut mask = 0;
        for info in &self.groups {
            if let Some(g) = info {
                mask |= slots(*g);
            }
        }
        mask
    }

    // The table slots and the uniform slots of all groups, as masks.
    pub(crate) fn masks(&self) -> (u64, u64)
        ensures tables { Masks is_table (λ k. of_groups k self.now.groups) result.0 }
        ensures uniforms { Masks is_uniform (λ k. of_groups k self.now.groups) result.1 }
    {
        let tables = self.mask(|g| span(u64::from(g.base_root_index), first_uniform(g)));
        let uniforms = self.mask(|g| span(first_uniform(g), behind_last(g)));
        (tables, uniforms)
    }
}
