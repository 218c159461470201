//! Lines that define: layouts, pipelines, and the scratch that calls are given.
ghost use Rattle.std.specs.Prelude.{◌≡◌, ◌+◌, ◌<◌, ◌≤◌, length, Some, None, IfOk, MatchResult};
ghost use Rattle.std.specs.Prelude.{slice_set, option_map};
ghost use Rattle.scripts.specs.declared.not_done.NotDone.TheVariants.{BadLine};
ghost use Rattle.scripts.specs.Words.{Reads, ReadsAs};
ghost use Rattle.scripts.specs.Definitions.{special_part, is_table as table_said, group_part};
ghost use Rattle.scripts.specs.Definitions.{immediates_part, place as place_said};
ghost use Rattle.scripts.specs.Definitions.{layout_parts, place_all as all_placed};
ghost use Rattle.scripts.specs.Definitions.{strides as strides_said};
ghost use Rattle.scripts.specs.Lines.{ReadsLine, seen_line, layout_line, render_line, compute_line};
ghost use Rattle.scripts.specs.Lines.{scratch_line, number_alone, null_target as target_line};
ghost use Rattle.scripts.specs.Lines.{list_bytes as bytes_line};

use crate::fronts::{Front, all};
use crate::line::{ComputeParts, LayoutParts, Line, RenderParts};
use crate::not_done::NotDone;
use crate::words::{count, number, wide};
use command_list::fault::Number;
use layouts::info::{
    BindGroupInfo, ImmediatesInfo, MAX_BIND_GROUPS, PipelineLayoutSpecialConstants,
};
use std::alloc::Global;

// A part of a layout.
#[derive(Clone, Copy)]
enum Part {
    Special(PipelineLayoutSpecialConstants),
    Immediates(ImmediatesInfo),
    Group(usize, BindGroupInfo),
}

impl Front for Part {
    ghost use Rattle.scripts.specs.Definitions.{part};

    ghost said = { part };

    fn front(words: &[&str]) -> Result<(Part, usize), NotDone> {
        let [kind, words @ ..] = words else {
            return Err(NotDone::BadLine);
        };
        match *kind {
            "special" => special(words),
            "immediates" => immediates(words),
            "group" => group(words),
            _ => Err(NotDone::BadLine),
        }
    }
}

// The slot of the special constants, and perhaps the word for a command signature of the layout's
// own.
fn special(words: &[&str]) -> Result<(Part, usize), NotDone>
    ensures { Reads (special_part words.now) result }
{
    let [slot, words @ ..] = words else {
        return Err(NotDone::BadLine);
    };
    let root_index = number(slot)?;
    let own_signature = matches!(words, ["own", ..]);
    let special = PipelineLayoutSpecialConstants {
        root_index,
        own_signature,
    };
    Ok((Part::Special(special), if own_signature { 3 } else { 2 }))
}

// The slot of the immediates, and how many words they are.
fn immediates(words: &[&str]) -> Result<(Part, usize), NotDone>
    ensures { Reads (immediates_part words.now) result }
{
    let [slot, size, ..] = words else {
        return Err(NotDone::BadLine);
    };
    let info = ImmediatesInfo {
        root_index: number(slot)?,
        size: number(size)?,
    };
    Ok((Part::Immediates(info), 3))
}

// Whether a group has a table.
fn is_table(word: &str) -> Result<bool, NotDone>
    ensures { Reads (table_said word.entry) result }
{
    match word {
        "table" => Ok(true),
        "plain" => Ok(false),
        _ => Err(NotDone::BadLine),
    }
}

// A bind group with its index.
fn group(words: &[&str]) -> Result<(Part, usize), NotDone>
    ensures reads { Reads (group_part words.now) result }
    ensures within { IfOk result (λ p. (0 < p.1) × (p.1 ≤ length words.now + 1)) }
{
    let [index, base, kind, uniforms, ..] = words else {
        return Err(NotDone::BadLine);
    };
    let info = BindGroupInfo {
        base_root_index: number(base)?,
        table: is_table(kind)?,
        uniforms: number(uniforms)?,
    };
    let index = number(index)?;
    Ok((Part::Group(index as usize, info), 5))
}

impl LayoutParts {
    // Puts a part in. Whether layouts have a place for it; a bad line where a group comes twice.
    fn place(&mut self, part: Part) -> Result<bool, NotDone>
        ensures { MatchResult result
            (λ b. place_said self.old part ≡ Some (self.new, b))
            (λ e. (e ≡ BadLine) × (place_said self.old part ≡ None)) }
    {
        match part {
            Part::Special(special) => {
                self.special = Some(special);
                Ok(true)
            }
            Part::Immediates(immediates) => {
                self.immediates = Some(immediates);
                Ok(true)
            }
            Part::Group(index, info) => match self.groups.get(index) {
                None => Ok(false),
                Some(Some(_)) => Err(NotDone::BadLine),
                Some(None) => {
                    self.groups[index] = Some(info);
                    Ok(true)
                }
            },
        }
    }

    // Puts all parts in, in their order. Whether layouts have a place for each.
    fn place_all(&mut self, all: &[Part]) -> Result<bool, NotDone>
        ensures { MatchResult result
            (λ b. all_placed self.old all.now ≡ Some (self.new, b))
            (λ e. (e ≡ BadLine) × (all_placed self.old all.now ≡ None)) }
    {
        let mut in_range = true;
        for part in all {
            in_range &= self.place(*part)?;
        }
        Ok(in_range)
    }

    // The signature, the total and the parts, and whether layouts have a place for each part.
    fn read(alloc: Global, words: &[&str]) -> Result<(LayoutParts, bool), NotDone>
        ensures { Reads (layout_parts words.now) result }
    {
        let [signature, total, words @ ..] = words else {
            return Err(NotDone::BadLine);
        };
        let mut parts = LayoutParts {
            signature: number(signature)?,
            total: number(total)?,
            special: None,
            immediates: None,
            groups: [None; MAX_BIND_GROUPS],
        };
        let all: Vec<Part> = all(alloc, words)?;
        let in_range = parts.place_all(all.as_slice())?;
        Ok((parts, in_range))
    }
}

// A layout by its parts. A group at an index that no layout has is refused once the whole line is
// read.
pub(crate) fn layout(alloc: Global, operands: &[&str]) -> Result<Line, NotDone>
    ensures { ReadsLine (layout_line operands.now) result }
{
    let [name, words @ ..] = operands else {
        return Err(NotDone::BadLine);
    };
    let (parts, in_range) = LayoutParts::read(alloc, words)?;
    if !in_range {
        return Err(NotDone::Refused(Number::Range.at(0)));
    }
    let name = String::from_str(alloc, name)?;
    Ok(Line::Layout { name, parts })
}

// How many vertex slots a pipeline has.
const SLOTS: usize = 16;

// The stride of a vertex slot.
#[derive(Clone, Copy)]
struct Stride {
    slot: usize,
    bytes: u32,
}

impl Front for Stride {
    ghost use Rattle.scripts.specs.Definitions.{stride};

    ghost said = { stride };

    fn front(words: &[&str]) -> Result<(Stride, usize), NotDone> {
        let [kind, slot, bytes, ..] = words else {
            return Err(NotDone::BadLine);
        };
        if *kind != "stride" {
            return Err(NotDone::BadLine);
        }
        let (slot, bytes) = (count(slot)?, number(bytes)?);
        if slot < SLOTS {
            Ok((Stride { slot, bytes }, 3))
        } else {
            Err(NotDone::BadLine)
        }
    }
}

impl Stride {
    // Puts it in at its slot, if pipelines have that slot.
    fn put(&self, strides: &mut [Option<u32>; SLOTS])
        ensures { strides.new ≡ slice_set strides.old self.now.slot (Some self.now.bytes) }
    {
        if self.slot < SLOTS {
            strides[self.slot] = Some(self.bytes);
        }
    }
}

// The strides of vertex slots.
#[tactic(auto, using(crate::proofs::Folds::all_put, crate::proofs::Folds::put_more))]
fn strides(alloc: Global, words: &[&str]) -> Result<[Option<u32>; SLOTS], NotDone>
    ensures { Reads (strides_said words.now) result }
{
    let all: Vec<Stride> = all(alloc, words)?;
    let mut strides = [None; SLOTS];
    for stride in &all {
        stride.put(&mut strides);
    }
    Ok(strides)
}

pub(crate) fn render_pipeline(alloc: Global, operands: &[&str]) -> Result<Line, NotDone>
    ensures { ReadsAs seen_line (render_line operands.now) result }
{
    let [name, handle, layout, topology, words @ ..] = operands else {
        return Err(NotDone::BadLine);
    };
    let parts = RenderParts {
        handle: number(handle)?,
        layout: String::from_str(alloc, layout)?,
        topology: number(topology)?,
        strides: strides(alloc, words)?,
    };
    let name = String::from_str(alloc, name)?;
    Ok(Line::RenderPipeline { name, parts })
}

pub(crate) fn compute_pipeline(alloc: Global, operands: &[&str]) -> Result<Line, NotDone>
    ensures { ReadsAs seen_line (compute_line operands.now) result }
{
    let [name, handle, layout] = operands else {
        return Err(NotDone::BadLine);
    };
    let parts = ComputeParts {
        handle: number(handle)?,
        layout: String::from_str(alloc, layout)?,
    };
    let name = String::from_str(alloc, name)?;
    Ok(Line::ComputePipeline { name, parts })
}

// A number of 64 bits, and no other word.
fn only(operands: &[&str]) -> Result<u64, NotDone>
    ensures { Reads (number_alone operands.now) result }
{
    let [word] = operands else {
        return Err(NotDone::BadLine);
    };
    wide(word)
}

pub(crate) fn null_target(operands: &[&str]) -> Result<Line, NotDone>
    ensures { ReadsAs seen_line (option_map (λ n. target_line n) (number_alone operands.now)) result }
{
    Ok(Line::NullTarget(only(operands)?))
}

pub(crate) fn list_bytes(operands: &[&str]) -> Result<Line, NotDone>
    ensures { ReadsAs seen_line (option_map (λ n. bytes_line n) (number_alone operands.now)) result }
{
    let bytes = only(operands)?;
    Ok(Line::ListBytes(bytes as usize))
}

pub(crate) fn scratch(operands: &[&str]) -> Result<Line, NotDone>
    ensures { ReadsAs seen_line (scratch_line operands.now) result }
{
    let [length, fill] = operands else {
        return Err(NotDone::BadLine);
    };
    Ok(Line::Scratch {
        length: count(length)?,
        fill: count(fill)?,
    })
}
