// Layouts at the edges of what is asked of them.

use layouts::info::{
    BindGroupInfo, ImmediatesInfo, MAX_BIND_GROUPS, Owner, PipelineLayoutSpecialConstants,
};
use layouts::layout::PipelineLayout;
use std::test::Fail;

type Groups = [Option<BindGroupInfo>; MAX_BIND_GROUPS];

const NO_GROUP: Groups = [None; MAX_BIND_GROUPS];

fn group(base_root_index: u32, table: bool, uniforms: u32) -> Option<BindGroupInfo> {
    Some(BindGroupInfo {
        base_root_index,
        table,
        uniforms,
    })
}

// Groups of which one alone is there, at index 0.
fn alone(base_root_index: u32, table: bool, uniforms: u32) -> Groups {
    let mut groups = NO_GROUP;
    groups[0] = group(base_root_index, table, uniforms);
    groups
}

fn special(root_index: u32) -> Option<PipelineLayoutSpecialConstants> {
    Some(PipelineLayoutSpecialConstants {
        root_index,
        own_signature: true,
    })
}

fn immediates(root_index: u32, size: u32) -> Option<ImmediatesInfo> {
    Some(ImmediatesInfo { root_index, size })
}

// Whether a layout is made, or the number of its refusal, which is what hosts see.
fn made(
    signature: u32,
    total: u32,
    special: Option<PipelineLayoutSpecialConstants>,
    immediates: Option<ImmediatesInfo>,
    groups: Groups,
) -> Result<(), u8> {
    match PipelineLayout::new(signature, total, special, immediates, groups) {
        Ok(_) => Ok(()),
        Err(fault) => Err(u8::from(fault.number)),
    }
}

#[test]
fn totals(rt: HostRuntime) {
    assert_eq!(rt; made(5, 0, None, None, NO_GROUP), Ok(()));
    assert_eq!(rt; made(5, 64, None, None, alone(0, true, 63)), Ok(()));
    assert_eq!(rt; made(5, 65, None, None, alone(0, true, 64)), Err(11));
    assert_eq!(rt; made(0, 0, None, None, NO_GROUP), Err(1));
    assert_eq!(rt; made(0, 65, None, None, NO_GROUP), Err(1));
}

// The same of groups alone.
fn grouped(total: u32, groups: Groups) -> Result<(), u8> {
    made(5, total, None, None, groups)
}

#[test]
fn groups(rt: HostRuntime) {
    let mut last = NO_GROUP;
    last[7] = group(0, true, 0);
    assert_eq!(rt; grouped(1, last), Ok(()));
    assert_eq!(rt; grouped(0, last), Err(11));
    assert_eq!(rt; grouped(0, alone(4_000_000_000, false, 0)), Ok(()));
    assert_eq!(rt;
        grouped(1, alone(4_294_967_295, true, 4_294_967_295)),
        Err(11)
    );
    assert_eq!(rt; grouped(2, alone(0, true, 0)), Err(12));
    let mut twice = alone(0, true, 0);
    twice[1] = group(0, false, 1);
    assert_eq!(rt; grouped(1, twice), Err(12));
}

#[test]
fn single_slots(rt: HostRuntime) {
    assert_eq!(rt; made(5, 2, special(0), immediates(1, 32), NO_GROUP), Ok(()));
    assert_eq!(rt;
        made(5, 2, special(2), immediates(1, 32), NO_GROUP),
        Err(11)
    );
    assert_eq!(rt; made(5, 1, None, immediates(0, 0), NO_GROUP), Err(11));
    assert_eq!(rt; made(5, 1, None, immediates(0, 33), NO_GROUP), Err(11));
    assert_eq!(rt; made(5, 1, special(0), immediates(0, 1), NO_GROUP), Err(12));
}

#[test]
fn owners(rt: HostRuntime) -> Result<(), Fail> {
    let mut groups = alone(4, false, 1);
    groups[3] = group(1, true, 2);
    let layout = PipelineLayout::new(5, 6, special(5), immediates(0, 4), groups)?;
    let wanted = [
        Owner::Immediates,
        Owner::Table,
        Owner::Uniform,
        Owner::Uniform,
        Owner::Uniform,
        Owner::Special,
    ];
    for (slot, owner) in (0u32..6).zip(wanted.iter()) {
        assert!(rt; layout.owner(slot) == Some(*owner));
    }
    assert!(rt; layout.owner(6).is_none() && layout.owner(4_294_967_295).is_none());
    assert_eq!(rt; (layout.tables(), layout.uniforms()), (2, 28));
    assert!(rt; layout == layout);
    assert!(rt;
        layout.group(3).is_some() && layout.group(1).is_none() && layout.group(8).is_none()
    );
    Ok(())
}
