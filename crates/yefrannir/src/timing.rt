// How long writing, reading and rewriting a list takes.
use crate::failure::{Failure, refusal};
use crate::named::Named;
use crate::plot::{plot_layout, plot_list};
use command_list::fault::Fault;
use command_list::reader::MOST_BYTES;
use list_file::{check, rewrite};
use list_writer::writer::{Recordable, begin};
use season_plot::calls::CALLS;
use std::rt::Clock;
use std::time::Instant;

// The plot's records, one after the other, as many as a list takes, and how long that list is. The
// writer alone writes them: through a recorder it takes half as long again.
fn fill(bytes: &mut [u8]) -> Result<usize, Fault> {
    let label = season_plot::label()?;
    let upload = season_plot::upload();
    let commands = season_plot::commands::commands(upload.as_slice(), label.units());
    let mut end = begin(bytes)?;
    for command in commands.iter().cycle().take(MOST_BYTES) {
        let Ok(next) = command.append_to(bytes, end) else {
            break;
        };
        end = next;
    }
    Ok(end)
}

fn told(rt: &impl Print, what: &str, bytes: usize, nanos: u128) -> Result<(), Failure> {
    println!(rt; "{what}: {bytes} bytes in {nanos} ns")?;
    Ok(())
}

/// Reads a list once and rewrites it once, with the time of each.
pub(crate) fn time_list(
    rt: &(impl Print + Clock + AllocGlobal),
    file: Named,
) -> Result<(), Failure> {
    let Named { name, list } = file;
    let refusal = |fault| file.refusal(rt.alloc(), fault);
    let start = Instant::now(rt)?;
    let count = check(list).map_err(refusal)?;
    let read = start.elapsed(rt)?;
    let mut out = [0u8; MOST_BYTES];
    let start = Instant::now(rt)?;
    let _ = rewrite(list, &mut out).map_err(refusal)?;
    let rewritten = start.elapsed(rt)?;
    println!(rt; "{name}: {count} records")?;
    told(rt, "read", list.len(), read.as_nanos())?;
    told(rt, "read and rewritten", list.len(), rewritten.as_nanos())
}

// How often the plot is encoded.
const TIMES: usize = 1000;

// Takes the plot's calls through an encoder again and again, with the time of all.
fn time_plot(rt: &(impl Print + Clock + AllocGlobal)) -> Result<(), Failure> {
    let pipeline = season_plot::pipeline(plot_layout(rt)?);
    let mut bytes = [0u8; MOST_BYTES];
    let start = Instant::now(rt)?;
    for _ in 0..TIMES {
        let _ = plot_list(rt.alloc(), &mut bytes, &pipeline)?;
    }
    let nanos = start.elapsed(rt)?.as_nanos();
    println!(rt; "the plot encoded: {CALLS} calls, {TIMES} times, in {nanos} ns")?;
    Ok(())
}

/// The same of a list of 64 KiB of mixed records, which is written first, and of an encoder that
/// makes the plot.
pub(crate) fn time_sample(rt: &(impl Print + Clock + AllocGlobal)) -> Result<(), Failure> {
    let name = "a list of 64 KiB";
    let mut bytes = [0u8; MOST_BYTES];
    let start = Instant::now(rt)?;
    let end = fill(&mut bytes).map_err(|fault| refusal(rt.alloc(), name, fault))?;
    let written = start.elapsed(rt)?;
    told(rt, "written", end, written.as_nanos())?;
    let Some(list) = bytes.get(0..end) else {
        return Ok(());
    };
    time_list(rt, Named { name, list })?;
    time_plot(rt)
}
