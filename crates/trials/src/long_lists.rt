// Lists as long as a list may be.
use command_list::command::Command;
use command_list::fault::{FULL, Fault};
use command_list::reader::MOST_BYTES;
use list_file::{check as records, rewrite};
use list_writer::writer::{Recordable, begin};
use std::test::Fail;

// The plot's commands one after the other, as many as fit; how many, and where the list ends.
// The program has such a loop too: shared, it would need a contract, which no caller could use.
fn fill(bytes: &mut [u8]) -> Result<(usize, usize), Fault> {
    let label = season_plot::label()?;
    let upload = season_plot::upload();
    let commands = season_plot::commands::commands(upload.as_slice(), label.units());
    let mut end = begin(bytes)?;
    for (count, command) in commands.iter().cycle().take(MOST_BYTES).enumerate() {
        let Ok(next) = command.append_to(bytes, end) else {
            return Ok((count, end));
        };
        end = next;
    }
    Ok((MOST_BYTES, end))
}

#[test]
fn a_list_of_64_kib_reads_back(rt: HostRuntime) -> Result<(), Fail> {
    let mut bytes = [0u8; 65536];
    let (count, end) = fill(&mut bytes)?;
    assert!(rt; end <= 65536 && end > 65000);
    let Some(list) = bytes.get(0..end) else {
        return Err(Fail::new("too long"));
    };
    assert_eq!(rt; records(list), Ok(count));
    let mut again = [0u8; 65536];
    assert_eq!(rt; rewrite(list, &mut again), Ok(end));
    assert!(rt; again.get(0..end) == Some(list));
    Ok(())
}

#[test]
fn longer_bytes_are_refused(rt: HostRuntime) {
    let mut bytes = [0u8; 65537];
    assert_eq!(rt; begin(&mut bytes), Err(FULL));
    bytes[0] = 1;
    let fault = records(&bytes).map_err(|fault| (u8::from(fault.number), fault.place));
    assert_eq!(rt; fault, Err((21, 0)));
}

#[test]
fn the_last_byte_is_used(rt: HostRuntime) -> Result<(), Fail> {
    let label = season_plot::label()?;
    let event = Command::BeginEvent(label.units());
    let mut bytes = [0u8; 8];
    let end = begin(&mut bytes)?;
    assert_eq!(rt; event.append_to(&mut bytes, end), Ok(8));
    assert_eq!(rt; bytes, [1, 0, 5, 1, 0, 0xE9, 0, 0]);
    let mut less = [9u8; 7];
    assert_eq!(rt; begin(&mut less), Ok(1));
    assert_eq!(rt; event.append_to(&mut less, 1), Err(FULL));
    assert_eq!(rt; less, [1, 9, 9, 9, 9, 9, 9]);
    Ok(())
}
