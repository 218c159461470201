// The same calls at every recorder.
use board::board::Board;
use command_list::code::Code;
use command_list::command::{Command, Fixed, Half};
use command_list::fault::Fault;
use command_list::record::{Record, Rows};
use device::ration::Ration;
use device::recorder::Recorder;
use device::together::set_pipeline;
use list_bytes::ListBytes;
use list_play::{board_of, play};
use std::test::Fail;

// A pair of commands, and another one: which of them were taken.
fn pairs_taken<R: Recorder>(recorder: &mut R) -> (bool, bool) {
    let first = set_pipeline(recorder, 5, 9).is_ok();
    let second = set_pipeline(recorder, 5, 10).is_ok();
    (first, second)
}

// The same at a ration over a recorder, which is given back.
fn rationed<R: Recorder>(below: R, most: usize) -> (R, (bool, bool)) {
    let mut ration = Ration::new(below, most);
    let taken = pairs_taken(&mut ration);
    (ration.into_below(), taken)
}

// The same at a ration over a ration over a recorder.
fn rationed_twice<R: Recorder>(below: R, most: usize) -> (R, (bool, bool)) {
    let (ration, taken) = rationed(Ration::new(below, 1000), most);
    (ration.into_below(), taken)
}

#[test]
fn a_pair_is_taken_whole_on_a_board(rt: HostRuntime) {
    let mut board = Board::new(27);
    assert!(rt; pairs_taken(&mut board) == (true, false));
    assert_eq!(rt; board.space(), 13);
    assert_eq!(rt; board.signature(Half::Graphics), 5);
    assert_eq!(rt; board.pipeline(), 9);
    assert_eq!(rt; board.count(Code::SetPipelineState), 1);
    let mut small = Board::new(13);
    assert!(rt; pairs_taken(&mut small) == (false, false));
    assert_eq!(rt; small.count(Code::SetGraphicsRootSignature), 0);
}

#[test]
fn a_pair_is_taken_whole_into_list_bytes(rt: HostRuntime) -> Result<(), Fail> {
    let mut bytes = [0u8; 28];
    let mut list = ListBytes::new(&mut bytes)?;
    assert!(rt; pairs_taken(&mut list) == (true, false));
    assert!(rt; list.list() == [1, 0, 5, 4, 0, 0, 0, 5, 0, 5, 6, 0, 0, 0, 9].as_slice());
    Ok(())
}

#[test]
fn a_ration_is_kept_over_each_recorder(rt: HostRuntime) -> Result<(), Fail> {
    let (board, taken) = rationed(Board::new(100), 14);
    assert!(rt; taken == (true, false));
    assert_eq!(rt; board.space(), 86);
    let mut bytes = [0u8; 100];
    let (list, taken) = rationed(ListBytes::new(&mut bytes)?, 27);
    assert!(rt; taken == (true, false));
    assert_eq!(rt; list.list().len(), 15);
    let (board, taken) = rationed_twice(Board::new(100), 27);
    assert!(rt; taken == (true, false));
    assert_eq!(rt; board.pipeline(), 9);
    let (board, taken) = rationed_twice(board, 28);
    assert!(rt; taken == (true, true));
    assert_eq!(rt; board.pipeline(), 10);
    Ok(())
}

const LIST: [u8; 15] = [1, 0, 5, 4, 0, 0, 0, 5, 0, 5, 6, 0, 0, 0, 9];

// Four commands at a recorder behind a `dyn`, and the space that is left.
fn space_left(recorder: &mut dyn Recorder) -> Result<usize, Fault> {
    recorder.set_pipeline_state(9)?;
    recorder.record_fixed(Fixed::EndEvent)?;
    recorder.record_given(Command::BeginEvent(&[0]))?;
    recorder.replay(Record::OMSetRenderTargets(Rows::over(&[])))?;
    Ok(recorder.space())
}

#[test]
fn a_recorder_behind_a_dyn(rt: HostRuntime) -> Result<(), Fail> {
    let mut board = Board::new(100);
    assert_eq!(rt; space_left(&mut board)?, 81);
    assert_eq!(rt; board.pipeline(), 9);
    let mut ration = Ration::new(Board::new(100), 19);
    assert_eq!(rt; space_left(&mut ration)?, 0);
    let mut bytes = [0u8; 20];
    let mut list = ListBytes::new(&mut bytes)?;
    assert_eq!(rt; space_left(&mut list)?, 0);
    let records = [0, 5, 6, 0, 0, 0, 9, 0, 1, 2, 0, 3, 1, 0, 0, 0, 2, 16, 0];
    assert!(rt; list.list().get(1..) == Some(records.as_slice()));
    Ok(())
}

#[test]
fn a_list_is_played_whole_or_not_at_all(rt: HostRuntime) -> Result<(), Fail> {
    let mut board = Board::new(13);
    assert!(rt; play(&mut board, &LIST).is_err());
    assert_eq!(rt; board.space(), 13);
    let mut board = Board::new(14);
    assert!(rt; play(&mut board, &LIST).is_ok());
    assert_eq!(rt; board.space(), 0);
    let mut bytes = [0u8; 15];
    let mut list = ListBytes::new(&mut bytes)?;
    assert!(rt; play(&mut list, &LIST).is_ok());
    assert!(rt; list.list() == LIST.as_slice());
    assert_eq!(rt; board_of(&LIST)?.pipeline(), 9);
    Ok(())
}
