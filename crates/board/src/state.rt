// The device's state as plain data, and what changes it.
ghost use Rattle.std.specs.Prelude.{◌≡◌, ℕ, ◌+◌, ◌^◌, ◌<◌, true, length, get_or, Some, None};
ghost use Rattle.command_list.specs.Commands.{is_special};
ghost use Rattle.device.specs.Devices.{start, unset, words_of, signed, written, worded, wiped};
ghost use Rattle.board.specs.Boards.{slot_of, roots_of, half_of, device_of};
ghost use Rattle.std.specs.Borrow.{sem};
ghost use Rattle.board.specs.Lending.{LendsHalf};

use command_list::command::{Fixed, Half};

/// What a root slot holds.
#[derive(Clone, Copy, PartialEq, Default)]
pub enum RootSlot {
    #[default]
    Unset,
    /// A descriptor table, by its address.
    Table(u64),
    /// A constant buffer view, by its address.
    Buffer(u64),
    /// Root constants, of which some may not be set.
    Words([Option<u32>; 64]),
}

/// A vertex buffer view (`D3D12_VERTEX_BUFFER_VIEW`): size and stride in bytes.
#[derive(Clone, Copy, PartialEq, Default)]
pub struct View {
    pub address: u64,
    pub size: u32,
    pub stride: u32,
}

/// What a slot holds, and how often it was written.
#[derive(Clone, Copy, Default)]
pub struct Slot<T> {
    pub held: T,
    pub writes: u64,
}

/// The root signature (0: none) and root slots of graphics or of compute.
#[derive(Clone, Copy)]
pub struct RootHalf {
    pub signature: u32,
    pub slots: [Slot<RootSlot>; 64],
}

/// The device's state.
#[derive(Clone, Copy)]
pub struct State {
    pub graphics: RootHalf,
    pub compute: RootHalf,
    pub vertices: [Slot<View>; 16],
    pub pipeline: u32,
    /// The last draw or dispatch.
    pub latest: Option<Fixed>,
    /// How many commands of each code were recorded.
    pub counts: [u64; 32],
}

impl RootSlot {
    // The words of a slot; those of another kind of slot are unset.
    fn words(self) -> [Option<u32>; 64]
        ensures same { (λ w. get_or result w None) ≡ words_of (slot_of self) }
        ensures long { length result ≡ 64 }
    {
        match self {
            RootSlot::Words(words) => words,
            _ => [None; 64],
        }
    }
}

impl<T: Copy> Slot<T> {
    // Replaces what the slot holds, which is a write.
    pub(crate) fn put(&mut self, held: T)
        requires { self.old.writes + 1 < 2 ^ 64 }
        ensures { self.new ≡ record { held = held; writes = self.old.writes + 1 } }
    {
        self.held = held;
        self.writes += 1;
    }
}

impl RootHalf {
    // Nothing set, nothing written.
    fn new() -> RootHalf
        ensures { roots_of result ≡ record { signature = 0; slots = λ i. unset; writes = λ i. 0 } }
    {
        RootHalf {
            signature: 0,
            slots: [Slot::default(); 64],
        }
    }

    // Sets the root signature; a new one unsets all slots.
    pub(crate) fn sign(&mut self, signature: u32)
        ensures { roots_of self.new ≡ signed signature (roots_of self.old) }
    {
        if self.signature != signature {
            self.signature = signature;
            for slot in &mut self.slots {
                slot.held = RootSlot::Unset;
            }
        }
    }

    // Replaces a slot and counts the write.
    pub(crate) fn put_slot(&mut self, i: usize, slot: RootSlot)
        requires within { i < 64 }
        requires room { (roots_of self.old).writes i + 1 < 2 ^ 64 }
        ensures { roots_of self.new ≡ written i (slot_of slot) (roots_of self.old) }
    {
        self.slots[i].put(slot);
    }

    // Sets one word of a slot and counts the write.
    pub(crate) fn put_word(&mut self, i: usize, w: usize, value: u32)
        requires slot { i < 64 }
        requires word { w < 64 }
        requires room { (roots_of self.old).writes i + 1 < 2 ^ 64 }
        ensures { roots_of self.new ≡ worded i w value (roots_of self.old) }
    {
        let mut words = self.slots[i].held.words();
        words[w] = Some(value);
        self.put_slot(i, RootSlot::Words(words));
    }

    // Unsets the special slot of a command signature, which counts as no write.
    pub(crate) fn wipe(&mut self, special: Option<u8>)
        requires { is_special special ≡ true }
        ensures { roots_of self.new ≡ wiped special (roots_of self.old) }
    {
        if let Some(i) = special {
            self.slots[i as usize].held = RootSlot::Unset;
        }
    }
}

impl State {
    // Nothing set, nothing counted.
    pub(crate) fn new() -> State
        ensures { device_of result ≡ start }
    {
        State {
            graphics: RootHalf::new(),
            compute: RootHalf::new(),
            vertices: [Slot::default(); 16],
            pipeline: 0,
            latest: None,
            counts: [0; 32],
        }
    }

    // A half, to be read.
    pub(crate) fn half(&self, half: Half) -> &RootHalf
        ensures { result.now ≡ half_of self.now half }
    {
        match half {
            Half::Graphics => &self.graphics,
            Half::Compute => &self.compute,
        }
    }

    // A half, to be changed.
    pub(crate) fn half_mut(&mut self, half: Half) -> &mut RootHalf
        ensures* writes_back { sem 𝓛 (LendsHalf self.entry half result) }
        ensures value { result.now ≡ half_of self.old half }
    {
        match half {
            Half::Graphics => &mut self.graphics,
            Half::Compute => &mut self.compute,
        }
    }
}
