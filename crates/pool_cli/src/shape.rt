// The numbers of the pool that a command asks for.
ghost use Rattle.std.specs.Prelude.{◌≡◌, ◌-◌, ◌^◌, min, IfOk, IfErr};
ghost use Rattle.pool_cli.specs.Asked.{batches_of, processes_of, quantum_of, words_of};
ghost use Rattle.pool_cli.specs.Shapes.{IsShapeOf, IsRefused};

use crate::Ending;
use command_words::Command;
use word_layout::Shape;

/// How many batches the pool of a drill has.
const DRILL_BATCHES: u32 = 1024;

/// How many data words a block of a store's pool has: the numbers of a record.
const RECORD_WORDS: u32 = 4;

/// The numbers of a pool, which may have faults.
#[derive(Drop)]
struct Numbers {
    processes: usize,
    batches: u32,
    words: u32,
    quantum: u32,
}

/// The numbers that a command asks for: a process for each file, or as many as it says.
fn numbers_of(command: &Command) -> Numbers
    ensures processes { result.processes ≡ processes_of command.now }
    ensures batches { result.batches ≡ batches_of command.now }
    ensures words { result.words ≡ words_of command.now }
    ensures quantum { result.quantum ≡ quantum_of command.now }
{
    match command {
        Command::Play(play) => Numbers {
            processes: play.files.len(),
            batches: play.batches,
            words: 0,
            quantum: play.quantum,
        },
        Command::Drill(drill) => Numbers {
            processes: drill.processes as usize,
            batches: DRILL_BATCHES,
            words: 0,
            quantum: drill.quantum,
        },
        Command::Store(store) => Numbers {
            processes: store.files.len(),
            batches: store.batches,
            words: RECORD_WORDS,
            quantum: store.quantum,
        },
    }
}

/// A number of processes, as far as they can be counted.
fn counted(processes: usize) -> u32
    ensures { result ≡ min processes (2 ^ 32 - 1) }
{
    processes.min(u32::MAX as usize) as u32
}

/// The numbers of the pool that a command asks for.
pub(crate) fn shape_of(command: &Command) -> Result<Shape, Ending>
    ensures ok { IfOk result (IsShapeOf command.now) }
    ensures refused { IfErr result (IsRefused command.now) }
{
    let asked = numbers_of(command);
    let processes = counted(asked.processes);
    match Shape::with_quantum(processes, asked.batches, asked.words, asked.quantum) {
        Ok(shape) => Ok(shape),
        Err(fault) => Err(Ending::Shape(fault)),
    }
}
