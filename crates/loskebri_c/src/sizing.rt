// How large a pool has to be, and what it takes.
ghost use Rattle.std.specs.Prelude.{◌≡◌, ◌⊎◌, ◌*◌};
ghost use Rattle.word_layout.specs.Sizes.{Sizes};
ghost use Rattle.loskebri_c.specs.Sizing.{EnoughAnswered, IsShapeOf, MemoryAnswered, TellsFault};

use crate::exports::{LoskebriNumber, no_number, number};
use crate::status::{DONE, MANY_BLOCKS, MANY_PROCESSES, shape_status};
use pool_sizing::{enough_batches, memory, opening_memory};
use word_layout::Shape;

/// What a pool takes, in bytes.
#[repr(C)]
#[derive(Drop)]
pub struct LoskebriMemory {
    /// [`DONE`], or the first fault of the shape with 0 for both numbers.
    pub status: u32,
    /// What it takes while it is open.
    pub bytes: u64,
    /// What it takes at the peak of its opening.
    pub peak: u64,
}

/// With how many batches a pool refuses nobody while at most `live` blocks are held together. Any numbers may be given.
#[unsafe(no_mangle)]
pub extern "C" fn loskebri_enough_batches(processes: u32, quantum: u32, live: u32) -> LoskebriNumber
    ensures { EnoughAnswered processes quantum live result.status result.number }
{
    match enough_batches(processes, quantum, live) {
        Some(batches) => number(u64::from(batches)),
        None => no_number(fault_of_none(processes, quantum)),
    }
}

/// The status where no batches are enough: the first fault of the fewest, or that there are too many blocks.
fn fault_of_none(processes: u32, quantum: u32) -> u32
    ensures { TellsFault processes (2 * processes) 0 quantum result
        ⊎ ((result ≡ 11) × ((pool : Sizes) × IsShapeOf processes (2 * processes) 0 quantum pool)) }
{
    let Ok(batches) = u32::try_from(2 * u64::from(processes)) else {
        return MANY_PROCESSES;
    };
    match Shape::with_quantum(processes, batches, 0, quantum) {
        Ok(_) => MANY_BLOCKS,
        Err(fault) => shape_status(&fault),
    }
}

/// What a pool of these numbers takes. Any may be given.
#[unsafe(no_mangle)]
pub extern "C" fn loskebri_memory(
    batches: u32,
    words: u32,
    quantum: u32,
    processes: u32,
) -> LoskebriMemory
    ensures { MemoryAnswered batches words quantum processes result.status result.bytes result.peak }
{
    match Shape::with_quantum(processes, batches, words, quantum) {
        Ok(shape) => LoskebriMemory {
            status: DONE,
            bytes: memory(&shape),
            peak: opening_memory(&shape),
        },
        Err(fault) => LoskebriMemory {
            status: shape_status(&fault),
            bytes: 0,
            peak: 0,
        },
    }
}
