// Gates for the processes of a run.
ghost use Rattle.std.specs.Prelude.{◌≡◌, IfOk, length};

use pass_players::OpenGate;
use pool_model::NoMemory;
use std::alloc::Global;

/// How many processes a pool may have, and so how many gates a run is given.
pub const MOST_PROCESSES: usize = 32;

/// A gate for each process that a run may have, which holds nobody back. Its only error is want of memory.
pub fn open_gates(alloc: Global) -> Result<Vec<OpenGate>, NoMemory>
    ensures { IfOk result (λ gates. length gates.items ≡ MOST_PROCESSES) }
{
    let mut gates = Vec::with_capacity(alloc, MOST_PROCESSES)?;
    for _process in 0..MOST_PROCESSES {
        gates.push(OpenGate::new())?;
    }
    Ok(gates)
}
