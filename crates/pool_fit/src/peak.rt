// How many blocks a script holds at most.
ghost use Rattle.std.specs.Prelude.{◌≡◌, IsTrue};
ghost use Rattle.trace_player.specs.Tally.{is_place, no_refusals, peak_of};
ghost use Rattle.pool_fit.specs.Peaks.{is_leave};

use crate::tide::Tide;
use mtrace_reader::{Script, Step};

fn is_place(step: &Step) -> bool
    ensures { result ≡ is_place step.now }
{
    match step {
        Step::Place { .. } => true,
        Step::Leave { .. } => false,
    }
}

fn is_leave(step: &Step) -> bool
    ensures { result ≡ is_leave step.now }
{
    match step {
        Step::Place { .. } => false,
        Step::Leave { .. } => true,
    }
}

/// The most blocks that a script holds at once, where none is refused.
pub fn peak_without_refusals(script: &Script) -> u64
    ensures { result ≡ peak_of (no_refusals script.now) script.now.steps }
{
    let mut tide = Tide::new();
    for step in script.steps.as_slice() {
        tide.follow(is_place(step), is_leave(step));
    }
    tide.peak
}
