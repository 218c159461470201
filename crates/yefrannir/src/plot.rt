// The embedded plot, end to end: its calls make an encoder's list, which is read back and played.
use crate::facts::print_layout;
use crate::failure::{Failure, refusal};
use crate::named::Named;
use crate::print_list;
use crate::script::FREE;
use crate::shown::same;
use board::board::Board;
use board::state::RootSlot;
use command_list::command::{Barrier, Fixed, Half};
use command_list::fault::Fault;
use device::ration::Ration;
use layouts::layout::PipelineLayout;
use layouts::pipeline::RenderPipeline;
use list_encode::encode_list;
use list_file::{check, records_are_known, rewrite, write};
use list_play::board_of;
use resources::scratch::{Mark, Scratch};
use runs::call::Answer;
use runs::drive::encode;
use season_plot::calls::{CALLS, calls};
use season_plot::commands::commands;
use season_plot::plot_is_recorded;
use std::alloc::Global;

// The bytes that the plot's records may take.
const ALLOWANCE: usize = 1000;

const NAME: &str = "the plot";

// A scratch of one entry, which is all that the plot's upload needs.
const ENTRIES: [Barrier; 1] = [FREE];

// Every call of the plot has to be taken.
fn all_taken(alloc: Global, answers: &[Answer]) -> Result<(), Failure> {
    for answer in answers {
        match answer {
            Answer::Taken => {}
            Answer::Refused(fault) => return Err(refusal(alloc, NAME, *fault)),
            Answer::NotOffered => return Err(Failure::NotOffered),
        }
    }
    Ok(())
}

/// The plot as a list in these bytes, made by an encoder that takes every call.
pub(crate) fn plot_list<'a>(
    alloc: Global,
    bytes: &'a mut [u8],
    pipeline: &RenderPipeline,
) -> Result<&'a [u8], Failure> {
    let mut entries = ENTRIES;
    let mut scratch = Scratch {
        entries: &mut entries,
        mark: Mark { fill: 0 },
    };
    let mut answers = [Answer::NotOffered; CALLS];
    let list = match encode_list(bytes, 0, &mut scratch, &calls(pipeline), &mut answers) {
        Ok(list) => list,
        Err(unfit) => return Err(refusal(alloc, NAME, unfit.fault)),
    };
    all_taken(alloc, &answers)?;
    Ok(list)
}

// A board that was given the plot, under an allowance.
fn plot_board(alloc: Global, pipeline: &RenderPipeline) -> Result<Board, Failure> {
    let mut entries = ENTRIES;
    let mut scratch = Scratch {
        entries: &mut entries,
        mark: Mark { fill: 0 },
    };
    let mut answers = [Answer::NotOffered; CALLS];
    let ration = Ration::new(Board::new(ALLOWANCE), ALLOWANCE);
    let ration = encode(ration, 0, &mut scratch, &calls(pipeline), &mut answers);
    all_taken(alloc, &answers)?;
    Ok(ration.into_below())
}

// Whether the plot's commands, written in one call, and its list, rewritten, have the list's bytes.
fn bytes_agree(list: &[u8]) -> Result<bool, Fault> {
    let label = season_plot::label()?;
    let upload = season_plot::upload();
    let commands = commands(upload.as_slice(), label.units());
    let mut written = [0u8; 1024];
    let end = write(&commands, &mut written)?;
    let mut again = [0u8; 1024];
    let size = rewrite(list, &mut again)?;
    Ok(written.get(0..end) == Some(list) && again.get(0..size) == Some(list))
}

// The first sample of the latest curve: in the board's special constants, and in its draw.
fn first_samples(board: &Board, layout: &PipelineLayout) -> Option<(u32, u32)> {
    let slot = layout.special()?.root_index;
    let RootSlot::Words(words) = board.slot(Half::Graphics, slot as u8) else {
        return None;
    };
    let Fixed::DrawInstanced { first_vertex, .. } = board.latest()? else {
        return None;
    };
    Some((words[0]?, first_vertex))
}

// Plays the plot's list on a board, which has to agree with a board that an encoder recorded the
// plot on, and with the plot's layout.
fn play_plot(
    rt: &(impl Print + AllocGlobal),
    plot: Named,
    pipeline: &RenderPipeline,
) -> Result<(), Failure> {
    let refusal = |fault| plot.refusal(rt.alloc(), fault);
    let board = board_of(plot.list).map_err(refusal)?;
    if !same(&board, &plot_board(rt.alloc(), pipeline)?) {
        return Err(Failure::OtherState);
    }
    println!(rt; "played on a board, its state and the list's agree")?;
    if board.signature(Half::Graphics) != pipeline.layout.signature() {
        return Err(Failure::OtherSignature);
    }
    println!(rt; "the board's root signature is the layout's")?;
    match first_samples(&board, &pipeline.layout) {
        Some((held, drawn)) if held == drawn => {
            println!(rt; "the next curve begins at sample {drawn}: the board and the draw agree")?;
            Ok(())
        }
        _ => Err(Failure::OtherSample),
    }
}

// The plot's list: printed, rewritten, and played.
fn show_plot(
    rt: &(impl Print + AllocGlobal),
    plot: Named,
    pipeline: &RenderPipeline,
) -> Result<(), Failure> {
    let Named { list, .. } = plot;
    let refusal = |fault| plot.refusal(rt.alloc(), fault);
    print_list(rt, plot)?;
    let count = check(list).map_err(refusal)?;
    if !bytes_agree(list).map_err(refusal)? {
        return Err(Failure::OtherBytes);
    }
    let end = list.len();
    println!(rt; "{count} records in {end} bytes; rewritten, the bytes are equal")?;
    play_plot(rt, plot, pipeline)
}

/// The plot's layout, which is never refused.
pub(crate) fn plot_layout(rt: &impl AllocGlobal) -> Result<PipelineLayout, Failure> {
    season_plot::layout(true).map_err(|fault| refusal(rt.alloc(), "the plot's layout", fault))
}

/// Takes the embedded plot through the encoder, and prints its layout, its list and what the list
/// was held against. Fails where two of these differ.
pub(crate) fn run_plot(rt: &(impl Print + AllocGlobal)) -> Result<(), Failure> {
    records_are_known();
    plot_is_recorded();
    let layout = plot_layout(rt)?;
    print_layout(rt, &layout)?;
    let pipeline = season_plot::pipeline(layout);
    let mut bytes = [0u8; ALLOWANCE];
    let list = plot_list(rt.alloc(), &mut bytes, &pipeline)?;
    show_plot(rt, Named { name: NAME, list }, &pipeline)
}
