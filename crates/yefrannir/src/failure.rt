// Why the program ends with status 1, told in one line.
use command_list::fault::Fault;
use std::alloc::{AllocError, Global};
use std::{fmt, io};

/// Why the program ends with status 1.
#[derive(Debug, Drop)]
pub(crate) enum Failure {
    BadArguments,
    NothingToShow,
    NothingToPlay,
    NothingToRun,
    NoListFile,
    NoSpace,
    NoResource,
    NoNumber,
    NoLabel,
    NotOffered,
    OtherBytes,
    OtherState,
    OtherSignature,
    OtherSample,
    /// What is refused, and why.
    Refused(String, Fault),
    /// A file that cannot be read, and why.
    Unread(String, io::Error),
    /// A script that is not UTF-8.
    NoText(String),
    /// A file that cannot be written, and why.
    Unwritten(String, io::Error),
    Memory(AllocError),
    Io(io::Error),
}

impl fmt::Display for Failure {
    fn fmt<W: fmt::Write>(&self, f: &mut fmt::Formatter<W>) -> fmt::Result {
        match self {
            Failure::BadArguments => {
                f.write_str("bad arguments: 'yefrannir help' says what there is")
            }
            Failure::NothingToShow => f.write_str("show what? give a list file, or --time"),
            Failure::NothingToPlay => f.write_str("play what? give a list file"),
            Failure::NothingToRun => f.write_str("run what? give a script"),
            Failure::NoListFile => f.write_str("write the list where? give a file behind --list"),
            Failure::NoSpace => {
                f.write_str("how many bytes has a list? give a whole number behind --space")
            }
            Failure::NoResource => {
                f.write_str("the state of what? give 'buffer' or 'texture' and a usage")
            }
            Failure::NoNumber => f.write_str("a usage is a whole number"),
            Failure::NoLabel => f.write_str("which label? give a text"),
            Failure::NotOffered => f.write_str("a call of the plot is not offered"),
            Failure::OtherBytes => f.write_str("the rewritten plot has other bytes"),
            Failure::OtherState => f.write_str("the board's state and the list's differ"),
            Failure::OtherSignature => {
                f.write_str("the board's root signature is not the layout's")
            }
            Failure::OtherSample => {
                f.write_str("the next curve's first sample on the board is not the draw's")
            }
            Failure::Refused(what, fault) => write!(f, "{what} is refused: {fault}"),
            Failure::Unread(path, error) => write!(f, "cannot read {path}: {error}"),
            Failure::NoText(path) => write!(f, "{path} is no UTF-8 text"),
            Failure::Unwritten(path, error) => write!(f, "cannot write {path}: {error}"),
            Failure::Memory(error) => write!(f, "{error}"),
            Failure::Io(error) => write!(f, "{error}"),
        }
    }
}

impl From<AllocError> for Failure {
    fn from(error: AllocError) -> Failure {
        Failure::Memory(error)
    }
}

impl From<io::Error> for Failure {
    fn from(error: io::Error) -> Failure {
        Failure::Io(error)
    }
}

/// A refusal, with what is refused.
pub(crate) fn refusal(alloc: Global, what: &str, fault: Fault) -> Failure {
    match String::from_str(alloc, what) {
        Ok(what) => Failure::Refused(what, fault),
        Err(error) => Failure::Memory(error),
    }
}
