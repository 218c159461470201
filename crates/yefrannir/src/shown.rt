// What a board shows, in print.
use crate::failure::Failure;
use crate::named::Named;
use crate::print_record;
use board::board::Board;
use board::state::{RootSlot, View};
use command_list::code::Code;
use command_list::command::{Fixed, Half};
use command_list::record::Record;
use device::recorder::Recorder;
use std::fmt;

const HALVES: [Half; 2] = [Half::Graphics, Half::Compute];

// What a root slot holds, in a few words.
#[derive(Clone, Copy)]
struct Held(RootSlot);

impl fmt::Display for Held {
    fn fmt<W: fmt::Write>(&self, f: &mut fmt::Formatter<W>) -> fmt::Result {
        match self.0 {
            RootSlot::Unset => write!(f, "unset"),
            RootSlot::Table(address) => write!(f, "table {address}"),
            RootSlot::Buffer(address) => write!(f, "view {address}"),
            RootSlot::Words(words) => {
                write!(f, "words")?;
                for (w, word) in words.iter().enumerate() {
                    if let Some(value) = word {
                        write!(f, " [{w}] {value}")?;
                    }
                }
                Ok(())
            }
        }
    }
}

// The half that a draw or a dispatch works with; none for other records.
fn drawn_half(record: Record) -> Option<Half> {
    match record {
        Record::Fixed(Fixed::DrawInstanced { .. }) => Some(Half::Graphics),
        Record::Fixed(Fixed::Dispatch { .. }) => Some(Half::Compute),
        Record::Fixed(Fixed::ExecuteIndirect { half, .. }) => Some(half),
        _ => None,
    }
}

// What a draw or a dispatch finds on the device.
fn print_found(rt: &impl Print, board: &Board, half: Half) -> Result<(), Failure> {
    let pipeline = board.pipeline();
    let signature = board.signature(half);
    println!(rt; "       pipeline {pipeline}")?;
    println!(rt; "       {half} root signature {signature}")?;
    for i in 0..64 {
        let slot = board.slot(half, i);
        if slot != RootSlot::Unset {
            let held = Held(slot);
            println!(rt; "       root slot {i}: {held}")?;
        }
    }
    for i in (0..16).filter(|&i| board.vertex_writes(i) > 0) {
        let View {
            address,
            size,
            stride,
        } = board.vertex(i);
        println!(rt; "       vertex slot {i}: address {address}, size {size}, stride {stride}")?;
    }
    Ok(())
}

// How many commands of each code there were, and how often each slot was written.
fn print_counts(rt: &impl Print, board: &Board) -> Result<(), Failure> {
    println!(rt; "counts")?;
    for code in (0..32u8).filter_map(|byte| Code::try_from(byte).ok()) {
        let count = board.count(code);
        if count > 0 {
            println!(rt; "{count:>6} {code:?}")?;
        }
    }
    println!(rt; "writes")?;
    for half in HALVES {
        for i in 0..64 {
            let writes = board.slot_writes(half, i);
            if writes > 0 {
                println!(rt; "{writes:>6} {half} root slot {i}")?;
            }
        }
    }
    for i in 0..16 {
        let writes = board.vertex_writes(i);
        if writes > 0 {
            println!(rt; "{writes:>6} vertex slot {i}")?;
        }
    }
    Ok(())
}

/// Plays a list on a board, up to the first record that is refused: each draw with what it finds,
/// and, of a list that is taken whole, the counts.
pub(crate) fn print_play(rt: &(impl Print + AllocGlobal), file: Named) -> Result<(), Failure> {
    let mut board = Board::new(file.list.len());
    file.each_record(rt.alloc(), |at, record| {
        if let Some(half) = drawn_half(record) {
            print_record(rt, at, record)?;
            print_found(rt, &board, half)?;
        }
        board
            .record(record)
            .map_err(|fault| file.refusal(rt.alloc(), fault))
    })?;
    print_counts(rt, &board)
}

// Whether a half is the same on two boards.
fn same_half(a: &Board, b: &Board, half: Half) -> bool {
    a.signature(half) == b.signature(half)
        && (0..64).all(|i| {
            a.slot(half, i) == b.slot(half, i) && a.slot_writes(half, i) == b.slot_writes(half, i)
        })
}

/// Whether two boards show the same.
pub(crate) fn same(a: &Board, b: &Board) -> bool {
    HALVES.iter().all(|half| same_half(a, b, *half))
        && (0..16).all(|i| a.vertex(i) == b.vertex(i) && a.vertex_writes(i) == b.vertex_writes(i))
        && (0..32u8)
            .filter_map(|byte| Code::try_from(byte).ok())
            .all(|code| a.count(code) == b.count(code))
        && a.pipeline() == b.pipeline()
        && a.latest() == b.latest()
}
