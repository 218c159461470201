// A run of a script: its calls are offered to an encoder over list bytes, and each line is printed
// with what became of it.
ghost use Rattle.std.specs.Prelude.{◌≤◌, length, IfOk};

use crate::failure::{Failure, refusal};
use crate::meant::{Found, meant};
use crate::named::Named;
use crate::phases::{Readable, outcome, pass_record, written};
use command_list::command::{Barrier, BarrierType, Half};
use command_list::fault::Fault;
use command_list::reader::MOST_BYTES;
use device::recorder::Recorder;
use encoder::phase::Idle;
use list_bytes::ListBytes;
use passes::state::PassState;
use resources::scratch::{Mark, Scratch};
use runs::phase::{Phase, step};
use scripts::line::{Line, OwnedCall, bare, read};
use scripts::names::Names;
use scripts::not_done::NotDone;
use scripts::shown::{ShownPass, ShownRecord};
use std::alloc::Global;

// How many entries a scratch has at the start, which are the most that calls take.
const MOST_ENTRIES: usize = 2048;

/// An entry of a scratch that no barrier was put in.
pub(crate) const FREE: Barrier = Barrier {
    kind: BarrierType::Uav,
    resource: 0,
    subresource: 0,
    before: 0,
    after: 0,
};

// The line that begins a list.
const BEGINS: &str = "begin_encoding";

/// What the lines so far have set, and what was printed of them.
#[derive(Drop)]
pub(crate) struct Session {
    alloc: Global,
    names: Names,
    null_target: u64,
    space: usize,
    entries: Vec<Barrier>,
    fill: usize,
    with_pass: bool,
    told: String,
}

impl Session {
    /// A session before its first line, whose lists have so many bytes.
    pub(crate) fn new(alloc: Global, space: usize, with_pass: bool) -> Result<Session, Failure> {
        Ok(Session {
            alloc,
            names: Names::new(alloc),
            null_target: 0,
            space,
            entries: vec![in alloc; FREE; MOST_ENTRIES]?,
            fill: 0,
            with_pass,
            told: String::new(alloc),
        })
    }

    /// What was printed of the lines.
    pub(crate) fn told(&self) -> &str {
        self.told.as_str()
    }

    // A line that is no call.
    fn define(&mut self, line: Line) -> Result<(), NotDone> {
        match line {
            Line::Nothing | Line::Call(_) => Ok(()),
            Line::Layout { name, parts } => self.names.define_layout(name, &parts),
            Line::RenderPipeline { name, parts } => self.names.define_render_pipeline(name, &parts),
            Line::ComputePipeline { name, parts } => {
                self.names.define_compute_pipeline(name, &parts)
            }
            Line::NullTarget(target) => {
                self.null_target = target;
                Ok(())
            }
            Line::ListBytes(space) => {
                self.space = space;
                Ok(())
            }
            Line::Scratch { length, fill } => {
                // Of too many entries no call takes any, so one too many will do.
                self.entries = vec![in self.alloc; FREE; length.min(MOST_ENTRIES + 1)]?;
                self.fill = fill;
                Ok(())
            }
        }
    }

    // A call, offered to the encoder.
    fn make<R: Recorder>(&mut self, phase: &mut Phase<R>, call: &OwnedCall) -> Result<(), NotDone> {
        let mut found = Found::new();
        let call = meant(&self.names, call, &mut found)?;
        let mut scratch = Scratch {
            entries: self.entries.as_mut_slice(),
            mark: Mark { fill: self.fill },
        };
        outcome(step(phase, &mut scratch, call))
    }

    // Tells the records that a list has behind those that it had before.
    fn tell_records(&mut self, list: &[u8], before: usize) -> Result<(), Failure> {
        if list.len() <= before {
            return Ok(());
        }
        let told = &mut self.told;
        let name = "the list";
        Named { name, list }.each_record(self.alloc, |at, record| {
            if at >= before {
                let shown = ShownRecord(record);
                writeln!(told, "  {shown}")?;
            }
            Ok(())
        })
    }

    // Tells the state of a pass.
    fn tell_pass(&mut self, pass: &PassState) -> Result<(), Failure> {
        let shown = ShownPass(pass);
        writeln!(self.told, "  {shown}")?;
        Ok(())
    }

    // Tells what became of a line: its records, or why it was not done, and the state of the pass.
    // A pass that the line gave up is shown as it was left.
    fn tell<R: Readable>(
        &mut self,
        phase: &Phase<R>,
        before: usize,
        left: Option<PassState>,
        done: Result<(), NotDone>,
    ) -> Result<(), Failure> {
        match done {
            Ok(()) => self.tell_records(written(phase), before)?,
            Err(NotDone::Memory(error)) => return Err(Failure::Memory(error)),
            Err(error) => writeln!(self.told, "  {error}")?,
        }
        if !self.with_pass {
            return Ok(());
        }
        let pass = match phase {
            Phase::Idle(_) => left,
            _ => pass_record(phase),
        };
        self.tell_pass(&pass.unwrap_or(PassState::new(Half::Graphics, false)))
    }

    // Does a line, and tells what became of it.
    fn do_line<R: Recorder + Readable>(
        &mut self,
        phase: &mut Phase<R>,
        line: &str,
        refused: Option<Fault>,
    ) -> Result<(), Failure> {
        let before = written(phase).len();
        let left = pass_record(phase);
        let done = match (refused, read(self.alloc, line)) {
            (Some(fault), _) => Err(NotDone::Refused(fault)),
            (None, Ok(Line::Call(call))) => self.make(phase, &call),
            (None, Ok(line)) => self.define(line),
            (None, Err(error)) => Err(error),
        };
        writeln!(self.told, "> {line}")?;
        self.tell(phase, before, left, done)
    }

    // Does a line and those behind it, up to where the next list begins. Where the list cannot be
    // begun, the line that begins it is refused. How many lines behind the first were done.
    fn do_lines<R: Recorder + Readable>(
        &mut self,
        phase: &mut Phase<R>,
        refused: Option<Fault>,
        first: &str,
        lines: &[&str],
    ) -> Result<usize, Failure>
        ensures { IfOk result (λ n. n ≤ length lines.now) }
    {
        self.do_line(phase, first, refused.filter(|_| first == BEGINS))?;
        for done in 0..lines.len() {
            if matches!(phase, Phase::Idle(_)) && lines[done] == BEGINS {
                return Ok(done);
            }
            self.do_line(phase, lines[done], None)?;
        }
        Ok(lines.len())
    }

    // Does a line and those behind it over a new encoder, up to where the next list begins. Returns
    // the recorder, and how many lines behind the first were done.
    fn do_list<R: Recorder + Readable>(
        &mut self,
        recorder: R,
        refused: Option<Fault>,
        first: &str,
        lines: &[&str],
    ) -> (R, Result<usize, Failure>)
        ensures { IfOk result.1 (λ n. n ≤ length lines.now) }
    {
        let mut phase = Phase::Idle(Idle::new(recorder, self.null_target));
        let done = self.do_lines(&mut phase, refused, first, lines);
        (phase.into_recorder(), done)
    }

    // Does the lines of a list that cannot be begun: an encoder over a list of no command stays
    // idle behind them, so that it offers none of their calls.
    fn do_none(
        &mut self,
        fault: Fault,
        first: &str,
        lines: &[&str],
    ) -> Result<(usize, usize), Failure>
        ensures { IfOk result (λ r. r.1 ≤ length lines.now) }
    {
        let mut none = [0];
        match ListBytes::new(&mut none) {
            Ok(recorder) => {
                let (_, done) = self.do_list(recorder, Some(fault), first, lines);
                Ok((0, done?))
            }
            Err(fault) => Err(refusal(self.alloc, "the list", fault)),
        }
    }

    // Does one list in these bytes. Returns its length, and how many lines behind the first were
    // done.
    fn do_bytes(
        &mut self,
        bytes: &mut [u8],
        first: &str,
        lines: &[&str],
    ) -> Result<(usize, usize), Failure>
        ensures { IfOk result (λ r. r.1 ≤ length lines.now) }
    {
        match ListBytes::new(bytes) {
            Ok(recorder) => {
                let (list, done) = self.do_list(recorder, None, first, lines);
                let (end, _) = list.finish();
                Ok((end, done?))
            }
            Err(fault) => self.do_none(fault, first, lines),
        }
    }

    /// Does the lines of a script, and returns the last list.
    pub(crate) fn run(&mut self, script: &str) -> Result<Vec<u8>, Failure> {
        let lines: Vec<&str> = script
            .lines()
            .map(bare)
            .filter(|line| !line.is_empty())
            .collect(self.alloc)?;
        let mut list = Vec::new(self.alloc);
        let mut done = 0;
        while done < lines.len() {
            // Of too many bytes no list takes any, so one too many will do.
            list = vec![in self.alloc; 0; self.space.min(MOST_BYTES + 1)]?;
            let (end, behind) = self.do_bytes(
                list.as_mut_slice(),
                lines[done],
                &lines[done + 1..],
            )?;
            list.truncate(end);
            done += 1 + behind;
        }
        Ok(list)
    }
}
