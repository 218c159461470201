//! Whole list files: checked, rewritten, measured and written in one call.
//!
//! Each call looks at all of its input before it writes the first byte, so that a refusal leaves
//! the output as it stands.
#![tactic(auto)]

ghost use Rattle.std.specs.Prelude.{◌≡◌, ◌≤◌, true, map, length, MatchResult};
ghost use Rattle.command_list.specs.Files.{most_bytes, is_accepted, encoded, file as file_said};
ghost use Rattle.command_list.specs.Seen.{given_command};
ghost use Rattle.list_file.specs.Passing.{Checked, Rewritten, ListSize, ListWritten};
ghost use Rattle.list_file.specs.Passing.{Listed, all_readable, RecordsKnown};

use command_list::command::Command;
use command_list::fault::{FULL, Fault};
use command_list::reader::{MOST_BYTES, Reader};
use list_writer::writer::{Recordable, begin};

/// How many records a list file has, or its first refusal: 21 to 25, as the reader gives them.
pub fn check(file: &[u8]) -> Result<usize, Fault>
    ensures { Checked file.now result }
{
    let mut reader = Reader::open(file)?;
    let mut count = 0;
    while let Some(_) = reader.next()? {
        count += 1;
    }
    Ok(count)
}

// Writes the commands of a file without faults again, into as many bytes.
fn rewrite_all(file: &[u8], out: &mut [u8]) -> Result<(), Fault>
    requires takes { is_accepted (file_said file.now) ≡ true }
    requires fits { length out.old ≡ length file.now }
    ensures { MatchResult result (λ _. out.new ≡ file.now) (λ _. ⊥) }
{
    let mut reader = Reader::open(file)?;
    let mut end = begin(out)?;
    while let Some(record) = reader.next()? {
        end = record.append_to(out, end)?;
    }
    Ok(())
}

/// Writes the commands of a list file again at the start of `out`, and says how many bytes they
/// take: they come out as the file's own bytes. Refused as the file is, or with 10 at 0 where `out`
/// is too short; `out` is left as it stands.
pub fn rewrite(file: &[u8], out: &mut [u8]) -> Result<usize, Fault>
    ensures { Rewritten file.now out.old result out.new }
{
    let _ = check(file)?;
    let size = file.len();
    if out.len() < size {
        return Err(FULL);
    }
    rewrite_all(file, &mut out[0..size])?;
    Ok(size)
}

/// How many bytes the list of some commands takes. Refused with 10 at 0 where that is more than a
/// list may have, or where a command has no readable record.
pub fn list_size(commands: &[Command]) -> Result<usize, Fault>
    ensures { ListSize (map given_command commands.now) result }
{
    let mut total = 1;
    for command in commands {
        total += command.size()?;
        if total > MOST_BYTES {
            return Err(FULL);
        }
    }
    Ok(total)
}

// Writes the list of some commands, which fits.
fn write_all(commands: &[Command], bytes: &mut [u8]) -> Result<usize, Fault>
    requires readable { all_readable (map given_command commands.now) ≡ true }
    requires fits { length (encoded (map given_command commands.now)) ≤ length bytes.old }
    requires short { length bytes.old ≤ most_bytes }
    ensures { MatchResult result
        (λ n. Listed (map given_command commands.now) bytes.old n bytes.new) (λ _. ⊥) }
{
    let mut end = begin(bytes)?;
    for command in commands {
        end = command.append_to(bytes, end)?;
    }
    Ok(end)
}

/// Writes the list of some commands at the start of the bytes, and says how many it takes. Refused
/// with 10 at 0 where [`list_size`] refuses it, where the bytes are too few, or where they are more
/// than a list may have; the bytes are left as they stand.
pub fn write(commands: &[Command], bytes: &mut [u8]) -> Result<usize, Fault>
    ensures { ListWritten (map given_command commands.now) bytes.old result bytes.new }
{
    let size = list_size(commands)?;
    if bytes.len() < size || bytes.len() > MOST_BYTES {
        return Err(FULL);
    }
    write_all(commands, bytes)
}

/// Which commands have a readable record: exactly those whose slots, words and counts are in range
/// and whose record is short enough; and each has one only.
pub fn records_are_known()
    ensures { RecordsKnown }
{}
