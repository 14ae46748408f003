// What the machine answers to a schedule.
ghost use Rattle.std.specs.Prelude.{◌≡◌, ◌≤◌, ◌^◌, IfOk, IfErr, map};
ghost use Rattle.std.specs.List.{range_with_len};
ghost use Rattle.interleaving_core.specs.Kept.{kept};
ghost use Rattle.schedule_replay.specs.Reading.{events_in};
ghost use Rattle.schedule_replay.specs.Replays.{FaultOf, IsReplay, state_number};

use crate::fault::ReplayFault;
use crate::made::make_lines;
use crate::notes::Note;
use crate::schedule::Schedule;
use interleaving_core::CoreRun;
use pool_model::NoMemory;
use std::alloc::Global;
use word_layout::{Shape, Tagged, WordName};

/// What the machine answered to a schedule, and what stands at its end.
#[derive(Debug, Drop)]
pub struct Replayed {
    /// The answers that aren't mere steps of transfers, in their order.
    pub notes: Vec<Note>,
    /// The number of the state.
    pub tag: u64,
    /// The heads of the batches in the shared stack, from the bottom.
    pub stack: Vec<u32>,
    /// How many blocks each process keeps.
    pub kept: Vec<u32>,
}

/// The number of the present state.
fn state_number(run: &CoreRun) -> u64
    ensures { result ≡ state_number run.now }
{
    Tagged::tag(run.word(run.shape().place(WordName::State)))
}

/// How many blocks each process keeps.
fn kept_numbers(alloc: Global, run: &CoreRun) -> Result<Vec<u32>, NoMemory>
    ensures { IfOk result (λ numbers. numbers.items ≡ map (kept run.now) (range_with_len 0 run.now.sizes.processes)) }
{
    let mut numbers = Vec::new(alloc);
    for process in 0..run.shape().processes() {
        numbers.push(run.kept(process))?;
    }
    Ok(numbers)
}

/// Makes the events of a schedule, one after the other, and answers what the machine answered. `Shape` comes exactly where the
/// numbers of the schedule's shape are those of no pool. Takes memory for the machine and the notes alone.
pub fn replay(alloc: Global, schedule: &Schedule) -> Result<Replayed, ReplayFault>
    requires { events_in schedule.now.lines ≤ 2 ^ 24 }
    ensures replayed { IfOk result (IsReplay schedule.now) }
    ensures fault { IfErr result (FaultOf schedule.now) }
{
    let [processes, batches, words, quantum] = schedule.shape;
    let shape = Shape::with_quantum(processes, batches, words, quantum)?;
    let mut run = CoreRun::open(alloc, &shape)?;
    let notes = make_lines(alloc, &mut run, schedule.lines.as_slice())?;
    Ok(Replayed {
        notes,
        tag: state_number(&run),
        stack: run.stack(alloc)?,
        kept: kept_numbers(alloc, &run)?,
    })
}
