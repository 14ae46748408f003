// Why a schedule wasn't replayed.

use pool_model::NoMemory;
use std::error::Error;
use std::fmt;
use word_layout::ShapeFault;

/// Why a schedule wasn't replayed.
#[derive(Clone, Copy, Debug, PartialEq, Eq, Hash)]
pub enum ReplayFault {
    /// Its numbers are those of no pool.
    Shape(ShapeFault),
    /// Want of memory.
    NoMemory,
}

impl fmt::Display for ReplayFault {
    fn fmt<W: fmt::Write>(&self, f: &mut fmt::Formatter<W>) -> fmt::Result {
        match self {
            ReplayFault::Shape(fault) => write!(f, "shape {}", fault.number()),
            ReplayFault::NoMemory => f.write_str("no memory"),
        }
    }
}

impl Error for ReplayFault {}

impl From<ShapeFault> for ReplayFault {
    ghost use Rattle.std.specs.Prelude.{◌≡◌};
    ghost use Rattle.schedule_replay.specs.declared.fault.ReplayFault.TheVariants.{Shape};

    ghost from_gives = { λ given fault. fault ≡ Shape given };

    fn from(fault: ShapeFault) -> ReplayFault {
        ReplayFault::Shape(fault)
    }
}

impl From<NoMemory> for ReplayFault {
    ghost use Rattle.std.specs.Prelude.{◌≡◌};
    ghost use Rattle.schedule_replay.specs.declared.fault.ReplayFault.TheVariants.{NoMemory};

    ghost from_gives = { λ _ fault. fault ≡ NoMemory };

    fn from(_want: NoMemory) -> ReplayFault {
        ReplayFault::NoMemory
    }
}
