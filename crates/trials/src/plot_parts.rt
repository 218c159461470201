// The plot's layout, label and upload, by what they show.
use command_list::command::BarrierType;
use layouts::info::Owner;
use std::test::Fail;

#[test]
fn the_layout_has_three_slots(rt: HostRuntime) -> Result<(), Fail> {
    let layout = season_plot::layout(true)?;
    assert_eq!(rt; layout.signature(), 5);
    assert_eq!(rt; layout.total(), 3);
    assert!(rt; layout.owner(0) == Some(Owner::Table));
    assert!(rt; layout.owner(1) == Some(Owner::Uniform));
    assert!(rt; layout.owner(2) == Some(Owner::Special));
    assert!(rt; layout.owner(3) == None);
    Ok(())
}

#[test]
fn the_label_is_a_letter_and_a_zero(rt: HostRuntime) -> Result<(), Fail> {
    let label = season_plot::label()?;
    assert!(rt; label.units() == [0xE9, 0].as_slice());
    Ok(())
}

#[test]
fn the_upload_is_one_transition(rt: HostRuntime) -> Result<(), Fail> {
    let Some(barrier) = season_plot::upload() else {
        return Err(Fail::new("no barrier"));
    };
    assert!(rt; barrier.kind == BarrierType::Transition);
    assert_eq!(rt; barrier.resource, 7);
    assert_eq!(rt; barrier.subresource, 0xFFFF_FFFF);
    assert_eq!(rt; barrier.before, 0x400);
    assert_eq!(rt; barrier.after, 0x1);
    Ok(())
}
