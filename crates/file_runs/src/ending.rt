// How a run ends.
ghost use Rattle.std.specs.Prelude.{◌≡◌};

use command_words::WordsFault;
use pool_model::NoMemory;
use word_layout::ShapeFault;

/// How a run ended, and the numbers of its line on the error sink. Files and lines are numbered from 1.
#[derive(Clone, Copy, Debug, PartialEq, Eq, Hash)]
pub enum Ending {
    /// All was read, played and written.
    Done,
    /// The words are no command line.
    Words,
    /// The numbers of the pool have this fault.
    Shape(ShapeFault),
    /// This file couldn't be opened or read.
    Read { file: u64 },
    /// This file has more bytes than may be read.
    Long { file: u64 },
    /// This line of this file is of no form.
    Line { file: u64, line: u64 },
    /// What is printed couldn't be written.
    Write,
    /// Want of memory.
    Memory,
}

impl Ending {
    ghost use Rattle.file_runs.specs.Ending.{status_of};

    /// The status with which the program ends.
    pub fn status(&self) -> u8
        ensures { result ≡ status_of self.now }
    {
        match self {
            Ending::Done => 0,
            Ending::Words => 2,
            Ending::Shape(_) => 3,
            Ending::Read { .. } => 4,
            Ending::Long { .. } => 5,
            Ending::Line { .. } => 6,
            Ending::Write => 7,
            Ending::Memory => 8,
        }
    }
}

impl From<WordsFault> for Ending {
    ghost use Rattle.std.specs.Prelude.{◌≡◌};
    ghost use Rattle.file_runs.specs.Ending.{for_words};

    ghost from_gives = { λ fault ending. ending ≡ for_words fault };

    fn from(fault: WordsFault) -> Ending {
        match fault {
            WordsFault::Faulty => Ending::Words,
            WordsFault::NoMemory => Ending::Memory,
        }
    }
}

impl From<NoMemory> for Ending {
    ghost use Rattle.std.specs.Prelude.{◌≡◌};
    ghost use Rattle.file_runs.specs.declared.ending.Ending.TheVariants.{Memory};

    ghost from_gives = { λ _ ending. ending ≡ Memory };

    fn from(_error: NoMemory) -> Ending {
        Ending::Memory
    }
}
