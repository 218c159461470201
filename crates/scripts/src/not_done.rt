//! Why a line of a script is not done.
ghost use Rattle.std.specs.Prelude.{◌≡◌, alloc_error};
ghost use Rattle.scripts.specs.declared.not_done.NotDone.TheVariants.{Refused, Memory};

use command_list::fault::Fault;
use hex::FromHexError;
use std::alloc::{AllocError, AllocFailed};
use std::error::Error;
use std::fmt;

/// Why a line is not done, and what is printed below it.
#[derive(Debug, Drop)]
pub enum NotDone {
    /// The line cannot be read.
    BadLine,
    /// A name that no line before defined.
    Unknown(String),
    /// A call that the encoder does not offer where it stands.
    NotOffered,
    /// A call or a layout that is refused.
    Refused(Fault),
    /// No memory is left.
    Memory(AllocError),
}

// What is printed below the line.
impl fmt::Display for NotDone {
    ghost use Rattle.std.specs.Prelude.{Some};
    ghost use Rattle.scripts.specs.Telling.{printed};

    ghost output = { λ error. Some (printed error) };

    fn fmt<W: fmt::Write>(&self, f: &mut fmt::Formatter<W>) -> fmt::Result {
        match self {
            NotDone::BadLine => f.write_str("bad line"),
            NotDone::Unknown(name) => write!(f, "unknown {name}"),
            NotDone::NotOffered => f.write_str("not offered"),
            NotDone::Refused(Fault { number, place }) => {
                let number = u8::from(*number);
                write!(f, "refused {number} {place}")
            }
            NotDone::Memory(_) => f.write_str("memory allocation failed"),
        }
    }
}

impl Error for NotDone {}

impl From<Fault> for NotDone {
    ghost from_gives = { λ fault r. r ≡ Refused fault };

    fn from(fault: Fault) -> NotDone {
        NotDone::Refused(fault)
    }
}

impl From<AllocError> for NotDone {
    ghost from_gives = { λ error r. r ≡ Memory error };

    fn from(error: AllocError) -> NotDone {
        NotDone::Memory(error)
    }
}

impl<T: Drop> From<AllocFailed<T>> for NotDone {
    ghost from_gives = { λ _ r. r ≡ Memory alloc_error };

    fn from(failed: AllocFailed<T>) -> NotDone {
        NotDone::Memory(AllocError::from(failed))
    }
}

// Bytes in hex: what is no hex makes a bad line.
impl From<FromHexError> for NotDone {
    ghost use Rattle.scripts.specs.Telling.{no_hex};

    ghost from_gives = { λ error r. r ≡ no_hex error };

    fn from(error: FromHexError) -> NotDone {
        match error {
            FromHexError::OutOfMemory => NotDone::Memory(AllocError),
            _ => NotDone::BadLine,
        }
    }
}
