//! Plays list files: the commands of a file are recorded on a recorder of any kind.
#![tactic(auto)]

ghost use Rattle.std.specs.Prelude.{◌≡◌, ◌+◌, ◌≤◌, true, List, length, IfOk, MatchResult};
ghost use Rattle.command_list.specs.Commands.{Command};
ghost use Rattle.command_list.specs.Files.{accepted, is_accepted, file as file_said};
ghost use Rattle.board.specs.Boards.{device_of, boarded};
ghost use Rattle.device.specs.Meaning.{Recorded};
ghost use Rattle.list_bytes.specs.Listed.{listed};
ghost use Rattle.list_file.specs.Passing.{Stops};
ghost use Rattle.list_play.specs.Playing.{Filled, Played};

use board::board::Board;
use command_list::fault::{FULL, Fault};
use command_list::reader::Reader;
use device::recorder::Recorder;
use list_file::check;

// Plays an accepted file whose records fit.
fn play_all<R: Recorder>(recorder: &mut R, file: &[u8]) -> Result<(), Fault>
    requires takes { is_accepted (file_said file.now) ≡ true }
    requires fits { length file.now ≤ (R.meaning recorder.old).space + 1 }
    ensures { MatchResult result
        (λ _. (cs : List Command) × (file_said file.now ≡ accepted cs)
        × Recorded (R.meaning recorder.old) cs (R.meaning recorder.new))
        (λ _. ⊥) }
{
    let mut reader = Reader::open(file)?;
    while let Some(record) = reader.next()? {
        recorder.record(record)?;
    }
    Ok(())
}

/// Records the commands of a list file, and says how many there are. A file that breaks a rule is
/// refused with the number and place of `list_file::check`; one whose records do not fit, with 10
/// at place 0. Where it is refused, nothing is recorded.
pub fn play<R: Recorder>(recorder: &mut R, file: &[u8]) -> Result<usize, Fault>
    ensures { Played (R.meaning recorder.old) file.now result (R.meaning recorder.new) }
{
    let count = check(file)?;
    if recorder.space() < file.len() - 1 {
        return Err(FULL);
    }
    play_all(recorder, file)?;
    Ok(count)
}

/// The board of a list file: a new one, with as many bytes for records as the file is long, on
/// which the file was played. Refused as `list_file::check` refuses the file.
pub fn board_of(file: &[u8]) -> Result<Board, Fault>
    ensures state { MatchResult result
        (λ b. (is_accepted (file_said file.now) ≡ true)
        × (device_of b.state ≡ (listed file.now (length file.now)).device))
        (λ f. Stops (file_said file.now) f) }
    ensures played { IfOk result (λ b. Filled file.now (boarded b.state b.rest b.most)) }
{
    let mut board = Board::new(file.len());
    let _ = play(&mut board, file)?;
    Ok(board)
}
