//! The program: it takes the embedded season plot through the encoder and shows its list, shows and
//! plays list files, runs scripts of calls, and answers single questions: `HELP` has its arguments.
//!
//! What it cannot do gives one line on standard error and status 1. What it prints is compared with
//! expected output; no contract here says it.
#![tactic(auto)]

mod facts;
mod failure;
mod meant;
mod named;
mod options;
mod phases;
mod plot;
mod script;
mod show;
mod shown;
mod timing;

use command_list::record::Record;
use facts::{BUFFER_FLAGS, TEXTURE_FLAGS, print_label, print_layout, print_usage};
use failure::Failure;
use list_writer::writer::Recordable;
use named::Named;
use options::{Options, read_options};
use plot::{plot_layout, run_plot};
use resources::uses::{BufferUses, TextureUses};
use script::Session;
use show::Operands;
use shown::print_play;
use std::process::ExitCode;
use std::rt::Files;
use std::{env, fs};
use timing::{time_list, time_sample};

const HELP: &str = "yefrannir shows Direct3D 12 command lists

  yefrannir                     take the embedded plot through the encoder, read its list back,
                                print it, rewrite it, and play it on a board: what the next curve
                                finds there is what its draw says
  yefrannir show FILE           print the records of a list file
  yefrannir play FILE           play a list file on a board: what each draw finds on the device,
                                and how often each command was made and each slot written
  yefrannir run SCRIPT          run a script of calls (docs/SCRIPT.md): each line with its commands or
                                why it is not done; options of run:
      --pass                    after each line the record of the pass
      --list FILE               write the last list to a file
      --space BYTES             how many bytes a list has at the start, 65536 if it is not said
  yefrannir state buffer N      the state of a buffer whose usage is N, with its names; flags
  yefrannir state texture N     double from 1, docs/RESOURCES.md lists them
  yefrannir layout              who owns each root slot of the embedded plot's layout
  yefrannir label TEXT          the record of an event with this label
  yefrannir show [FILE] --time  how long it takes to read and to rewrite a list file; with no
                                FILE, a list of 64 KiB, and how long it takes to write it, and
                                how long the encoder takes for the plot
  yefrannir help                this text

A line of a list has the record's byte offset, its code, its name and its operands.
A list that is refused is told with a number and a place: docs/REFUSALS.md has them all.";

// A record on a line.
fn print_record(rt: &impl Print, at: usize, record: Record) -> Result<(), Failure> {
    let code = record.code();
    let byte = u8::from(code);
    let operands = Operands(record);
    println!(rt; "{at:>6} {byte:>3} {code:?}{operands}")?;
    Ok(())
}

// The records of a file, up to the first that is refused.
fn print_list(rt: &(impl Print + AllocGlobal), file: Named) -> Result<(), Failure> {
    file.each_record(rt.alloc(), |at, record| print_record(rt, at, record))
}

// The bytes of a file.
fn read_file(rt: &(impl Files + AllocGlobal), path: &str) -> Result<Vec<u8>, Failure> {
    match fs::read(rt, path) {
        Ok(bytes) => Ok(bytes),
        Err(error) => {
            let path = String::from_str(rt.alloc(), path)?;
            Err(Failure::Unread(path, error))
        }
    }
}

// Reads a list file, and shows it under its path.
fn with_file<F: FnOnce(Named) -> Result<(), Failure>>(
    rt: &(impl Files + AllocGlobal),
    path: &str,
    show: F,
) -> Result<(), Failure>
    requires { F.IsAlwaysCallable show }
{
    let bytes = read_file(rt, path)?;
    let list = bytes.as_slice();
    show(Named { name: path, list })
}

// Writes a file.
fn write_file(rt: &(impl Files + AllocGlobal), path: &str, bytes: &[u8]) -> Result<(), Failure> {
    match fs::write(rt, path, bytes) {
        Ok(()) => Ok(()),
        Err(error) => {
            let path = String::from_str(rt.alloc(), path)?;
            Err(Failure::Unwritten(path, error))
        }
    }
}

// Runs a script. What was told of its lines is printed even if it ends early.
fn run_script(rt: &(impl Files + Print + AllocGlobal), options: &Options) -> Result<(), Failure> {
    let path = options.script.as_str();
    let bytes = read_file(rt, path)?;
    let Ok(script) = str::from_utf8(bytes.as_slice()) else {
        return Err(Failure::NoText(String::from_str(rt.alloc(), path)?));
    };
    let mut session = Session::new(rt.alloc(), options.space, options.with_pass)?;
    let list = session.run(script);
    let told = session.told();
    print!(rt; "{told}")?;
    let list = list?;
    match &options.list {
        Some(path) => write_file(rt, path.as_str(), list.as_slice()),
        None => Ok(()),
    }
}

// What the arguments ask for.
#[derive(Drop)]
enum Asked {
    Plot,
    Help,
    Show(String),
    Play(String),
    Run(Options),
    Buffer(BufferUses),
    Texture(TextureUses),
    Label(String),
    Layout,
    TimeFile(String),
    TimeSample,
}

// A kind of resource, and a usage of it.
fn asked_state(kind: &str, usage: &str) -> Result<Asked, Failure> {
    let Ok(bits) = usage.parse::<u32>() else {
        return Err(Failure::NoNumber);
    };
    match kind {
        "buffer" => Ok(Asked::Buffer(BufferUses { bits })),
        "texture" => Ok(Asked::Texture(TextureUses { bits })),
        _ => Err(Failure::NoResource),
    }
}

// `show` and what follows it.
fn asked_show(path: String, flag: Option<String>) -> Result<Asked, Failure> {
    match flag {
        None if path.as_str() == "--time" => Ok(Asked::TimeSample),
        None => Ok(Asked::Show(path)),
        Some(flag) if flag.as_str() == "--time" => Ok(Asked::TimeFile(path)),
        Some(_) => Err(Failure::BadArguments),
    }
}

// A verb and what follows it.
fn read_words(verb: &str, first: Option<String>, second: Option<String>) -> Result<Asked, Failure> {
    match (verb, first, second) {
        ("show", Some(path), flag) => asked_show(path, flag),
        ("show", None, _) => Err(Failure::NothingToShow),
        ("play", Some(path), None) => Ok(Asked::Play(path)),
        ("play", None, _) => Err(Failure::NothingToPlay),
        ("state", Some(kind), Some(usage)) => asked_state(kind.as_str(), usage.as_str()),
        ("state", _, _) => Err(Failure::NoResource),
        ("label", Some(text), None) => Ok(Asked::Label(text)),
        ("label", None, _) => Err(Failure::NoLabel),
        ("layout", None, _) => Ok(Asked::Layout),
        ("help" | "--help" | "-h", None, _) => Ok(Asked::Help),
        _ => Err(Failure::BadArguments),
    }
}

fn read_args(rt: &HostRuntime) -> Result<Asked, Failure> {
    let mut args = env::args(rt)?.skip(1);
    let Some(verb) = args.next() else {
        return Ok(Asked::Plot);
    };
    if verb.as_str() == "run" {
        return Ok(Asked::Run(read_options(args.collect(rt.alloc())?)?));
    }
    let first = args.next();
    let second = args.next();
    if args.next().is_some() {
        return Err(Failure::BadArguments);
    }
    read_words(verb.as_str(), first, second)
}

fn run(rt: &HostRuntime) -> Result<(), Failure> {
    match read_args(rt)? {
        Asked::Plot => run_plot(rt),
        Asked::Help => {
            println!(rt; "{HELP}")?;
            Ok(())
        }
        Asked::Show(path) => with_file(rt, path.as_str(), |file| print_list(rt, file)),
        Asked::Play(path) => with_file(rt, path.as_str(), |file| print_play(rt, file)),
        Asked::Run(options) => run_script(rt, &options),
        Asked::Buffer(usage) => print_usage(rt, usage, usage.bits, &BUFFER_FLAGS),
        Asked::Texture(usage) => print_usage(rt, usage, usage.bits, &TEXTURE_FLAGS),
        Asked::Label(text) => print_label(rt, text.as_str()),
        Asked::Layout => print_layout(rt, &plot_layout(rt)?),
        Asked::TimeFile(path) => with_file(rt, path.as_str(), |file| time_list(rt, file)),
        Asked::TimeSample => time_sample(rt),
    }
}

fn main(rt: HostRuntime) -> ExitCode {
    match run(&rt) {
        Ok(()) => ExitCode::SUCCESS,
        Err(failure) => {
            let _ = eprintln!(rt; "yefrannir: {failure}");
            ExitCode::FAILURE
        }
    }
}
