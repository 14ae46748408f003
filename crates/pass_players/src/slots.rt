// The slots of a player.
ghost use Rattle.std.specs.Prelude.{◌≡◌, None, IfOk, replicate};

use pool_model::NoMemory;
use std::alloc::Global;

/// So many empty slots. Its only error is want of memory.
pub fn empty_slots<T: Drop>(alloc: Global, count: usize) -> Result<Vec<Option<T>>, NoMemory>
    ensures { IfOk result (λ slots. slots.items ≡ replicate count None) }
{
    let mut slots = Vec::with_capacity(alloc, count)?;
    for _place in 0..count {
        slots.push(None)?;
    }
    Ok(slots)
}
