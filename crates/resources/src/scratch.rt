// The host's array of barrier entries.
ghost use Rattle.std.specs.Prelude.{◌≡◌, ◌+◌, ◌-◌, ◌<◌, ◌≤◌, [], length, take, drop, MatchResult, slice_set};
ghost use Rattle.command_list.specs.Seen.{IsFault};

use command_list::command::Barrier;
use command_list::fault::{Fault, Number};

/// How many entries of a scratch are in use, from the first on.
#[derive(Clone, Copy)]
pub struct Mark {
    /// The number of entries that the host keeps.
    pub fill: usize,
}

/// Room for the barriers of one call: an array of entries that the host lends. Entries below the
/// fill are the host's own and no call alters or records them; those from the fill on are free
/// between calls. It has at most 2048 entries (a longer one is refused, 9). Takes the place of
/// wgpu-hal's `Temp::barriers`.
#[derive(Drop)]
pub struct Scratch<'a> {
    /// The entries.
    pub entries: &'a mut [Barrier],
    /// Its fill.
    pub mark: Mark,
}

// A guard over a scratch that a call fills: when it is dropped, the fill is back where it was.
pub(crate) struct Restore<'a> {
    entries: &'a mut [Barrier],
    mark: &'a mut Mark,
    was: usize,
}

impl Drop for Restore<'_> {
    fn drop(self)
        ensures entries { self.exit.0.now ≡ self.entry.entries.now }
        ensures fill { self.exit.1.0.now.fill ≡ self.entry.was }
    {
        self.mark.fill = self.was;
        let Restore {
            entries: _,
            mark: _,
            was: _,
        } = self;
    }
}

impl<'a> Restore<'a> {
    pub(crate) fn new(entries: &'a mut [Barrier], mark: &'a mut Mark) -> Restore<'a>
        ensures same_entries { result.entries.ghost_name ≡ entries.entry.ghost_name }
        ensures same_mark { result.mark.ghost_name ≡ mark.entry.ghost_name }
        ensures entries { result.entries.now ≡ entries.old }
        ensures mark { result.mark.now ≡ mark.old }
        ensures was { result.was ≡ mark.old.fill }
    {
        let was = mark.fill;
        Restore { entries, mark, was }
    }

    // Puts one entry at the fill, or refuses it, 9, where none is free.
    pub(crate) fn push(&mut self, barrier: Barrier) -> Result<(), Fault>
        ensures same_entries { self.new.entries.ghost_name ≡ self.old.entries.ghost_name }
        ensures same_mark { self.new.mark.ghost_name ≡ self.old.mark.ghost_name }
        ensures was { self.new.was ≡ self.old.was }
        ensures put { MatchResult result
            (λ _.
            (self.old.mark.now.fill < length self.old.entries.now)
            × (self.new.entries.now ≡ slice_set self.old.entries.now self.old.mark.now.fill barrier)
            × (self.new.mark.now.fill ≡ self.old.mark.now.fill + 1))
            (λ f.
            IsFault f 9 0
            × (self.new.entries.now ≡ self.old.entries.now)
            × (self.new.mark.now ≡ self.old.mark.now)
            × (length self.old.entries.now ≤ self.old.mark.now.fill)) }
    {
        if self.mark.fill >= self.entries.len() {
            return Err(Number::Scratch.at(0));
        }
        self.entries[self.mark.fill] = barrier;
        self.mark.fill += 1;
        Ok(())
    }

    // The entries that the call has put.
    pub(crate) fn made(&self) -> &[Barrier]
        ensures within { self.now.was ≤ self.now.mark.now.fill →
            self.now.mark.now.fill ≤ length self.now.entries.now →
            result.now ≡
            take (self.now.mark.now.fill - self.now.was) (drop self.now.was self.now.entries.now) }
        ensures past { length self.now.entries.now < self.now.mark.now.fill → result.now ≡ [] }
    {
        self.entries.get(self.was..self.mark.fill).unwrap_or(&[])
    }
}
