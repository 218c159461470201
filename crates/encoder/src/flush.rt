//! Writes of the dirty slots of a pass.
ghost use Rattle.std.specs.Prelude.{◌≡◌, ℕ, ◌*◌, ◌+◌, ◌<◌, ◌≤◌, true, List, [], ◌∷◌, length};
ghost use Rattle.command_list.specs.Commands.{Command, size, readable};
ghost use Rattle.device.specs.Meaning.{sizes};
ghost use Rattle.command_list.specs.Bits.{bit};
ghost use Rattle.device.specs.Writes.{gathered, word_commands};
ghost use Rattle.passes.specs.Flush.{vertex_commands, root_commands, flushed};
ghost use Rattle.passes.specs.State.{bound_of, views_of, account};
ghost use Rattle.encoder.specs.Putting.{Put, constant_count};

use command_list::command::{Fixed, Half};
use command_list::fault::Fault;
use device::recorder::Recorder;
use list_writer::writer::Recordable;
use passes::element::RootElement;
use passes::roots::RootState;
use passes::state::PassState;
use passes::vertices::VertexState;

// The bytes of a word's record, and of a table's or view's.
const WORD_BYTES: usize = 9;

const ADDRESS_BYTES: usize = 12;

const VERTEX_BYTES: usize = 20;

// A command whose space is known. Inlined, for the writer's sake.
#[inline(always)]
pub(crate) fn put<R: Recorder, C: Recordable>(recorder: &mut R, command: C) -> Result<(), Fault>
    requires ranged { readable (C.says command) ≡ true }
    requires fits { size (C.says command) ≤ (R.meaning recorder.old).space }
    ensures { Put (R.meaning recorder.old) (C.says command ∷ []) result (R.meaning recorder.new) }
{
    recorder.record(command)
}

// Words of a root slot, ascending.
fn put_words<R: Recorder>(
    recorder: &mut R,
    half: Half,
    slot: u8,
    words: &[u32],
) -> Result<(), Fault>
    requires within { slot < 64 }
    requires few { length words.now ≤ 64 }
    requires fits { sizes (word_commands half slot 0 words.now) ≤ (R.meaning recorder.old).space }
    ensures { Put (R.meaning recorder.old) (word_commands half slot 0 words.now)
        result (R.meaning recorder.new) }
{
    for w in 0..words.len() {
        put(
            recorder,
            Fixed::SetRoot32BitConstant {
                half,
                slot,
                word: w as u8,
                value: words[w],
            },
        )?;
    }
    Ok(())
}

// A table of slots, each with the commands that write it.
trait Table {
    ghost commands: { Self → ℕ → List Command };

    // How many slots there are.
    ghost places: { ℕ };

    // The bytes of a slot's records.
    fn size(&self, slot: u32) -> usize
        requires { slot < places }
        ensures value { result ≡ sizes (commands self.now slot) }
        ensures small { result ≤ 288 };

    fn write<R: Recorder>(&self, recorder: &mut R, slot: u32) -> Result<(), Fault>
        requires within { slot < places }
        requires fits { sizes (commands self.now slot) ≤ (R.meaning recorder.old).space }
        ensures { Put (R.meaning recorder.old) (commands self.now slot)
            result (R.meaning recorder.new) };
}

impl Table for VertexState {
    ghost commands = { λ v i. vertex_commands (views_of v) i };

    ghost places = { 16 };

    fn size(&self, _slot: u32) -> usize {
        VERTEX_BYTES
    }

    fn write<R: Recorder>(&self, recorder: &mut R, slot: u32) -> Result<(), Fault> {
        let view = self.vertex_buffers[slot as usize];
        put(
            recorder,
            Fixed::IASetVertexBuffers {
                slot: slot as u8,
                address: view.address,
                size: view.size,
                stride: view.stride,
            },
        )
    }
}

// The root slots of a half.
#[derive(Clone, Copy)]
pub(crate) struct RootTable<'a> {
    half: Half,
    roots: &'a RootState,
}

impl Table for RootTable<'_> {
    ghost commands = { λ t k. root_commands t.half (bound_of t.roots.now) k };

    ghost places = { 64 };

    fn size(&self, slot: u32) -> usize {
        match self.roots.root_elements[slot as usize] {
            RootElement::Empty => 0,
            RootElement::Immediates => WORD_BYTES * self.roots.used_immediates().len(),
            RootElement::SpecialConstants(_) => WORD_BYTES * constant_words(self.half),
            RootElement::DescriptorTable(_) | RootElement::DynamicUniformBuffer(_) => ADDRESS_BYTES,
        }
    }

    fn write<R: Recorder>(&self, recorder: &mut R, slot: u32) -> Result<(), Fault> {
        let half = self.half;
        let element = self.roots.root_elements[slot as usize];
        let slot = slot as u8;
        match element {
            RootElement::Empty => Ok(()),
            RootElement::Immediates => {
                put_words(recorder, half, slot, self.roots.used_immediates())
            }
            RootElement::SpecialConstants(constants) => put_words(
                recorder,
                half,
                slot,
                &constants.words()[..constant_words(half)],
            ),
            RootElement::DescriptorTable(address) => put(
                recorder,
                Fixed::SetRootDescriptorTable {
                    half,
                    slot,
                    address,
                },
            ),
            RootElement::DynamicUniformBuffer(address) => put(
                recorder,
                Fixed::SetRootConstantBufferView {
                    half,
                    slot,
                    address,
                },
            ),
        }
    }
}

// How many words of special constants a half's passes use.
fn constant_words(half: Half) -> usize
    ensures { result ≡ constant_count half }
{
    match half {
        Half::Graphics => 2,
        Half::Compute => 3,
    }
}

// The bytes that a flush takes.
fn flush_size<T: Table>(table: &T, dirty: u64) -> usize
    requires { (k : ℕ) → bit dirty k ≡ true → k < T.Table.places }
    ensures value { result ≡ sizes (gathered (bit dirty) (T.Table.commands table.now) 0 64) }
    ensures small { result ≤ 64 * 288 }
{
    let mut size = 0;
    let mut rest = dirty;
    while rest != 0 {
        let slot = rest.trailing_zeros();
        size += table.size(slot);
        rest ^= 1 << slot;
    }
    size
}

// The dirty slots are written, lowest first.
fn flush<R: Recorder, T: Table>(recorder: &mut R, table: &T, dirty: u64) -> Result<(), Fault>
    requires within { (k : ℕ) → bit dirty k ≡ true → k < T.Table.places }
    requires fits { sizes (gathered (bit dirty) (T.Table.commands table.now) 0 64)
        ≤ (R.meaning recorder.old).space }
    ensures { Put (R.meaning recorder.old) (gathered (bit dirty) (T.Table.commands table.now) 0 64)
        result (R.meaning recorder.new) }
{
    let mut rest = dirty;
    while rest != 0 {
        let slot = rest.trailing_zeros();
        table.write(recorder, slot)?;
        rest ^= 1 << slot;
    }
    Ok(())
}

// The bytes that the dirty slots of a pass take.
pub(crate) fn pass_size(pass: &PassState) -> usize
    ensures value { let p = pass.now in
        result ≡ sizes (flushed p.kind (bound_of p.roots) (views_of p.vertices)) }
    ensures small { result ≤ 128 * 288 }
{
    let vertices = flush_size(
        &pass.vertices,
        u64::from(pass.vertices.dirty_vertex_buffers),
    );
    let table = RootTable {
        half: pass.kind,
        roots: &pass.roots,
    };
    vertices + flush_size(&table, pass.roots.dirty_root_elements)
}

// The dirty slots of a pass are written: vertex slots, then root slots.
pub(crate) fn flush_pass<R: Recorder>(recorder: &mut R, pass: &PassState) -> Result<(), Fault>
    requires { let p = pass.now in
        sizes (flushed p.kind (bound_of p.roots) (views_of p.vertices))
        ≤ (R.meaning recorder.old).space }
    ensures { let p = pass.now in
        Put (R.meaning recorder.old) (flushed p.kind (bound_of p.roots) (views_of p.vertices))
        result (R.meaning recorder.new) }
{
    flush(
        recorder,
        &pass.vertices,
        u64::from(pass.vertices.dirty_vertex_buffers),
    )?;
    let table = RootTable {
        half: pass.kind,
        roots: &pass.roots,
    };
    flush(recorder, &table, pass.roots.dirty_root_elements)
}
