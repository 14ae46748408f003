//! Why a command line gives no command, as the error of a program.

use clap::error::ErrorKind;
use std::alloc::AllocError;
use std::error::Error;
use std::fmt;

/// Why a command line gives no command.
#[derive(Clone, Copy, Debug, PartialEq, Eq, Hash)]
pub enum WordsFault {
    /// The words mean no command.
    Faulty,
    /// Want of memory.
    NoMemory,
}

impl fmt::Display for WordsFault {
    fn fmt<W: fmt::Write>(&self, f: &mut fmt::Formatter<W>) -> fmt::Result {
        match self {
            WordsFault::Faulty => f.write_str("words"),
            WordsFault::NoMemory => f.write_str("no memory"),
        }
    }
}

impl Error for WordsFault {}

impl From<AllocError> for WordsFault {
    ghost use Rattle.std.specs.Prelude.{◌≡◌};
    ghost use Rattle.command_words.specs.declared.fault.WordsFault.TheVariants.{NoMemory};

    ghost from_gives = { λ _ fault. fault ≡ NoMemory };

    fn from(_error: AllocError) -> WordsFault {
        WordsFault::NoMemory
    }
}

impl From<clap::Error> for WordsFault {
    ghost use Rattle.std.specs.Prelude.{◌≡◌};
    ghost use Rattle.clap.specs.Words.{kind_of};
    ghost use Rattle.clap.specs.declared.error.kind.ErrorKind.TheVariants.{OutOfMemory};
    ghost use Rattle.command_words.specs.declared.fault.WordsFault.TheVariants.{Faulty};

    ghost from_gives = { λ error fault. fault ≡ Faulty → ¬ (kind_of error ≡ OutOfMemory) };

    fn from(error: clap::Error) -> WordsFault {
        match error.kind() {
            ErrorKind::OutOfMemory => WordsFault::NoMemory,
            _ => WordsFault::Faulty,
        }
    }
}
