// Handles are opened.
ghost use Rattle.std.specs.Prelude.{◌≡◌, Some, IfOk, length, map};
ghost use Rattle.loskebri_c.specs.Filling.{IsFilled, OpenAnswered, opening_status};

use crate::handle::LoskebriPass;
use crate::status::{DONE, MANY_PROCESSES, NO_MEMORY, shape_status};
use pool_member::{Member, OpenFault, open};
use pool_model::NoMemory;
use std::alloc::Global;
use std::mem;

/// Opens these handles for the processes of a new pool, one each, in the order of their numbers: as many processes as there
/// are handles. A handle that was open is closed first, where the pool is opened.
#[unsafe(no_mangle)]
pub extern "C" fn loskebri_open(
    alloc: Global,
    batches: u32,
    words: u32,
    quantum: u32,
    passes: &mut [LoskebriPass],
) -> u32
    ensures { OpenAnswered batches words quantum passes.old passes.new result }
{
    let Ok(processes) = u32::try_from(passes.len()) else {
        return MANY_PROCESSES;
    };
    match open(alloc, processes, batches, words, quantum) {
        Ok(members) => fill(alloc, members, passes),
        Err(fault) => open_status(&fault),
    }
}

/// Puts the members on the heap, and opens the handles with them.
fn fill(alloc: Global, members: Vec<Member>, passes: &mut [LoskebriPass]) -> u32
    requires { length members.items ≡ length passes.old }
    ensures { IsFilled members.items passes.old passes.new result }
{
    match boxed(alloc, members) {
        Ok(boxes) => {
            open_with(boxes, passes);
            DONE
        }
        Err(NoMemory) => NO_MEMORY,
    }
}

/// Opens the handles with these members, in their order.
fn open_with(boxes: Vec<Box<Member>>, passes: &mut [LoskebriPass])
    requires { length boxes.items ≡ length passes.old }
    ensures { map (λ pass. pass.member) passes.new ≡ map (λ boxed. Some boxed.value) boxes.items }
{
    let mut boxes = boxes.into_iter();
    for pass in passes.iter_mut() {
        if let Some(member) = boxes.next() {
            mem::replace(pass, LoskebriPass::of(member)).close();
        }
    }
}

/// The members on the heap, in their order.
fn boxed(alloc: Global, members: Vec<Member>) -> Result<Vec<Box<Member>>, NoMemory>
    ensures { IfOk result (λ boxes. map (λ boxed. boxed.value) boxes.items ≡ members.items) }
{
    let mut boxes = Vec::with_capacity(alloc, members.len())?;
    for member in members {
        boxes.push(Box::new(alloc, member)?)?;
    }
    Ok(boxes)
}

/// The status of a fault.
fn open_status(fault: &OpenFault) -> u32
    ensures { result ≡ opening_status fault.now }
{
    match fault {
        OpenFault::Shape(fault) => shape_status(fault),
        OpenFault::NoMemory => NO_MEMORY,
    }
}
