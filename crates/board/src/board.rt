// The recorder, and what can be asked of it.
ghost use Rattle.std.specs.Prelude.{◌≡◌, ℕ, ◌+◌, ◌^◌, ◌<◌, if◌then◌else◌, nat_lt, MatchResult};
ghost use Rattle.command_list.specs.Commands.{byte_of, size};
ghost use Rattle.device.specs.Devices.{start, unset};
ghost use Rattle.device.specs.Meaning.{Asked};
ghost use Rattle.board.specs.Boards.{boarded, device_of, halves_of, slot_of, view_of, no_view, latest_of, Spares};

use crate::state::{RootSlot, State, View};
use command_list::code::Code;
use command_list::command::{Command, Fixed, Half};
use command_list::fault::Fault;
use command_list::record::Record;
use device::recorder::{Recorder, fitting};
use list_writer::writer::Recordable;

/// The device's state after the recorded commands, and the bytes that are left for records. The
/// records themselves are not kept: only their sizes count.
#[derive(Drop)]
pub struct Board {
    state: State,
    rest: usize,
    most: usize,
    ghost small: { most < 2 ^ 64 },
    ghost spare: { Spares (device_of state) rest most },
}

impl Board {
    /// A board with nothing set and `most` bytes for records.
    pub fn new(most: usize) -> Board
        ensures { (device_of result.state ≡ start) × (result.rest ≡ most) × (result.most ≡ most) }
    {
        Board {
            state: State::new(),
            rest: most,
            most,
        }
    }

    /// The root signature of a half; 0 where none is set.
    pub fn signature(&self, half: Half) -> u32
        ensures { result ≡ ((device_of self.now.state).halves half).signature }
    {
        self.state.half(half).signature
    }

    /// The pipeline state; 0 where none is set.
    pub fn pipeline(&self) -> u32
        ensures { result ≡ (device_of self.now.state).pipeline }
    {
        self.state.pipeline
    }

    /// The last draw or dispatch, direct or indirect.
    pub fn latest(&self) -> Option<Fixed>
        ensures { latest_of result ≡ (device_of self.now.state).latest }
    {
        self.state.latest
    }

    /// What root slot `i` holds. There are 64; behind them every slot is unset.
    pub fn slot(&self, half: Half, i: u8) -> RootSlot
        ensures { slot_of result
            ≡ (if nat_lt i 64 then ((device_of self.now.state).halves half).slots i else unset) }
    {
        let slots = &self.state.half(half).slots;
        slots
            .get(i as usize)
            .map_or(RootSlot::Unset, |slot| slot.held)
    }

    /// How often root slot `i` was written; 0 where there is no such slot.
    pub fn slot_writes(&self, half: Half, i: u8) -> u64
        ensures { result
            ≡ (if nat_lt i 64 then ((device_of self.now.state).halves half).writes i else 0) }
    {
        let slots = &self.state.half(half).slots;
        slots.get(i as usize).map_or(0, |slot| slot.writes)
    }

    /// The view at vertex slot `i`, of 16; all zeros where none was set or there is no such slot.
    pub fn vertex(&self, i: u8) -> View
        ensures { view_of result
            ≡ (if nat_lt i 16 then (device_of self.now.state).vertices i else view_of no_view) }
    {
        let vertices = &self.state.vertices;
        vertices
            .get(i as usize)
            .map_or(View::default(), |slot| slot.held)
    }

    /// How often vertex slot `i` was written; 0 where there is no such slot.
    pub fn vertex_writes(&self, i: u8) -> u64
        ensures { result ≡ (if nat_lt i 16 then (device_of self.now.state).vertex_writes i else 0) }
    {
        let vertices = &self.state.vertices;
        vertices.get(i as usize).map_or(0, |slot| slot.writes)
    }

    /// How many commands of a code were recorded.
    pub fn count(&self, code: Code) -> u64
        ensures { result ≡ (device_of self.now.state).counts (byte_of code) }
    {
        self.state.counts[u8::from(code) as usize]
    }
}

impl Recorder for Board {
    ghost meaning = { λ s. boarded s.state s.rest s.most };

    fn space(&self) -> usize {
        let Board { rest, .. } = self;
        *rest
    }

    fn start_anew(&mut self) {
        self.state = State::new();
        self.rest = self.most;
    }

    fn record<C: Recordable>(&mut self, command: C) -> Result<(), Fault>
        ensures asked { Asked (boarded self.old.state self.old.rest self.old.most)
            (C.says command) result (boarded self.new.state self.new.rest self.new.most) }
        ensures spent { MatchResult result
            (λ _. self.new.rest + size (C.says command) ≡ self.old.rest)
            (λ _. self.new.rest ≡ self.old.rest) }
    {
        let bytes = fitting(command.size()?, self.rest)?;
        self.state.step(command);
        self.rest -= bytes;
        Ok(())
    }

    fn record_fixed(&mut self, fixed: Fixed) -> Result<(), Fault> {
        self.record(fixed)
    }

    fn record_given(&mut self, command: Command) -> Result<(), Fault> {
        self.record(command)
    }

    fn replay(&mut self, record: Record) -> Result<(), Fault> {
        self.record(record)
    }
}
