// How a run ended, and what its pool was closed with.
ghost use Rattle.std.specs.Prelude.{◌≡◌};

use block_pool::Settled;
use file_runs::Ending;
use pool_io::Failed;

/// How a run ended, as its caller is told.
#[derive(Drop)]
pub struct Ended {
    /// The status with which the program ends.
    pub status: u8,
    /// What the run's pool was closed with; None where the run ended before its playing, so with a status other than 0
    /// and 7.
    pub settled: Option<Settled>,
}

/// How a run's work ended, and what its pool was closed with.
#[derive(Drop)]
pub(crate) struct Worked {
    pub(crate) ending: Ending,
    pub(crate) settled: Option<Settled>,
}

impl Worked {
    ghost use Rattle.std.specs.Prelude.{Some};
    ghost use Rattle.file_runs.specs.Ending.{ending_after};
    ghost use Rattle.pool_cli.specs.Ending.{ending_of, settled_of};

    /// How work ended that played, and then wrote what it prints.
    pub(crate) fn printed(settled: Settled, written: Result<(), Failed>) -> Worked
        ensures ending { result.ending ≡ ending_after written }
        ensures settled { result.settled ≡ Some settled }
    {
        let ending = match written {
            Ok(()) => Ending::Done,
            Err(_) => Ending::Write,
        };
        Worked {
            ending,
            settled: Some(settled),
        }
    }

    /// How work ended that played, or ended early.
    pub(crate) fn after(work: Result<Worked, Ending>) -> Worked
        ensures ending { result.ending ≡ ending_of work }
        ensures settled { result.settled ≡ settled_of work }
    {
        match work {
            Ok(worked) => worked,
            Err(ending) => Worked {
                ending,
                settled: None,
            },
        }
    }
}
