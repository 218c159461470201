// Every usage against the Rust's answers, the barrier rule, and the scratch.
use crate::table::{BUFFER_STATES, TEXTURE_STATES};
use board::board::Board;
use command_list::code::Code;
use command_list::command::{Barrier, BarrierType};
use command_list::fault::{Fault, Number};
use device::recorder::Recorder;
use resources::barrier::{BufferBarrier, ResourceBarrier, StateTransition, Uses};
use resources::batch::{barrier, transition};
use resources::conv::{map_buffer_usage_to_state, map_texture_usage_to_state};
use resources::scratch::{Mark, Scratch};
use resources::uses::{BufferUses, TextureUses};
use std::test::Fail;

// A change from one usage to another.
fn change<U>(resource: u32, from: U, to: U) -> ResourceBarrier<U> {
    ResourceBarrier {
        resource,
        usage: StateTransition { from, to },
    }
}

fn buffer(resource: u32, from: u32, to: u32) -> BufferBarrier {
    change(resource, BufferUses { bits: from }, BufferUses { bits: to })
}

// Whether each usage comes to the state that stands for it in the table.
fn states_are<S: Fn(u32) -> u32>(wanted: &[u32], state: S) -> bool
    requires { S.IsAlwaysCallable state }
{
    (0..)
        .zip(wanted)
        .all(|(bits, wanted)| state(bits) == *wanted)
}

#[test]
fn all_buffer_usages(rt: HostRuntime) {
    assert!(rt;
        states_are(
            &BUFFER_STATES,
            |bits| map_buffer_usage_to_state(BufferUses { bits })
        )
    );
}

#[test]
fn all_texture_usages(rt: HostRuntime) {
    assert!(rt;
        states_are(
            &TEXTURE_STATES,
            |bits| map_texture_usage_to_state(TextureUses { bits })
        )
    );
}

// Whether, of the usages below an end, these and no others make a barrier where they stay.
fn ordered_are<U: Uses + Copy, M: Fn(u32) -> U>(end: u32, ordered: &[u32], usage: M) -> bool
    requires { M.IsAlwaysCallable usage }
{
    (0..end).all(|bits| {
        let usage = usage(bits);
        barrier(&change(1, usage, usage)).is_some() == ordered.contains(&bits)
    })
}

// A usage that stays makes a barrier only where the Rust made one.
#[test]
fn usages_that_stay(rt: HostRuntime) {
    assert!(rt; ordered_are(512, &[64, 256], |bits| BufferUses { bits }));
    assert!(rt; ordered_are(1024, &[512], |bits| TextureUses { bits }));
}

#[test]
fn a_transition_and_an_order(rt: HostRuntime) -> Result<(), Fail> {
    let Some(upload) = barrier(&buffer(7, 2, 8)) else {
        return Err(Fail::new("no barrier"));
    };
    assert!(rt; upload.kind == BarrierType::Transition && upload.subresource == 0xFFFF_FFFF);
    assert_eq!(rt; (upload.before, upload.after), (0x400, 0x1));
    let Some(ordered) = barrier(&buffer(7, 64, 64)) else {
        return Err(Fail::new("no barrier"));
    };
    assert!(rt; ordered.kind == BarrierType::Uav && ordered.resource == 7);
    assert_eq!(rt;
        (ordered.subresource, ordered.before, ordered.after),
        (0, 0, 0)
    );
    assert!(rt; barrier(&buffer(7, 65, 65)).is_none());
    Ok(())
}

const FREE: Barrier = Barrier {
    kind: BarrierType::Uav,
    resource: 99,
    subresource: 0,
    before: 0,
    after: 0,
};

// What a call answers on a scratch of so many entries. It fails where the fill or the host's entry did not stay.
fn answered(
    entries: &mut [Barrier],
    fill: usize,
    list: &[BufferBarrier],
    board: &mut Board,
) -> Result<Result<(), Fault>, Fail> {
    let mut scratch = Scratch {
        entries,
        mark: Mark { fill },
    };
    let answer = transition(board, &mut scratch, list);
    let kept = scratch.mark.fill == fill;
    let host = scratch
        .entries
        .first()
        .is_none_or(|entry| entry.resource == 99);
    if !kept || !host {
        return Err(Fail::new("the scratch is not as it was"));
    }
    Ok(answer)
}

#[test]
fn a_scratch_is_left_as_it_was(rt: HostRuntime) -> Result<(), Fail> {
    let two = [buffer(1, 2, 8), buffer(2, 64, 64)];
    let mut board = Board::new(1000);
    let mut entries = [FREE; 3];
    assert_eq!(rt; answered(&mut entries, 1, &two, &mut board)?, Ok(()));
    assert_eq!(rt; board.count(Code::ResourceBarrier), 1);
    assert_eq!(rt; board.space(), 963);
    assert_eq!(rt;
        answered(&mut entries, 2, &two, &mut board)?,
        Err(Number::Scratch.at(0))
    );
    let mut small = Board::new(36);
    assert_eq!(rt;
        answered(&mut entries, 1, &two, &mut small)?,
        Err(Number::Full.at(0))
    );
    assert_eq!(rt; small.space(), 36);
    assert_eq!(rt;
        answered(&mut entries, 3, &[buffer(1, 65, 65)], &mut small)?,
        Ok(())
    );
    Ok(())
}

#[test]
fn usages_are_asked_before_resources(rt: HostRuntime) -> Result<(), Fail> {
    let mut board = Board::new(1000);
    let mut entries = [FREE; 3];
    let list = [buffer(0, 2, 8), buffer(1, 2, 512)];
    assert_eq!(rt;
        answered(&mut entries, 1, &list, &mut board)?,
        Err(Number::Range.at(1))
    );
    let list = [buffer(1, 2, 8), buffer(0, 2, 511)];
    assert_eq!(rt;
        answered(&mut entries, 1, &list, &mut board)?,
        Err(Number::Absent.at(1))
    );
    assert_eq!(rt; answered(&mut entries, 1, &[], &mut board)?, Ok(()));
    Ok(())
}

#[test]
fn a_scratch_of_at_most_2048(rt: HostRuntime) -> Result<(), Fail> {
    let mut board = Board::new(1000);
    let mut entries = [FREE; 2049];
    assert_eq!(rt;
        answered(&mut entries, 0, &[], &mut board)?,
        Err(Number::Scratch.at(0))
    );
    let mut entries = [FREE; 2048];
    assert_eq!(rt;
        answered(&mut entries, 2047, &[buffer(1, 2, 8)], &mut board)?,
        Ok(())
    );
    Ok(())
}
