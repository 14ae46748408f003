// A pool is opened, and its passes become members.
ghost use Rattle.std.specs.Prelude.{IfErr, IfOk};
ghost use Rattle.pool_member.specs.Opening.{AreOpenedMembers, IsOpenFault, HasShape};

use crate::Member;
use block_pool::Pool;
use pool_model::NoMemory;
use std::alloc::Global;
use std::sync::Arc;
use word_layout::{Shape, ShapeFault};

/// Why no pool was opened.
#[derive(Drop)]
pub enum OpenFault {
    /// The numbers are the shape of no pool.
    Shape(ShapeFault),
    /// There was no memory.
    NoMemory,
}

/// A new pool of this shape, by its members: one for each process, in the order of their numbers, who hold nothing. All memory
/// is taken here.
///
/// `Shape` is the first fault of the numbers, exactly where they have one; `NoMemory` comes for want of memory only. Then
/// nothing is left.
pub fn open(
    alloc: Global,
    processes: u32,
    batches: u32,
    words: u32,
    quantum: u32,
) -> Result<Vec<Member>, OpenFault>
    ensures shape { IfOk result (λ members. HasShape processes batches words quantum members.items) }
    ensures fault { IfErr result (IsOpenFault processes batches words quantum) }
{
    let shape = match Shape::with_quantum(processes, batches, words, quantum) {
        Ok(shape) => shape,
        Err(fault) => return Err(OpenFault::Shape(fault)),
    };
    match open_shape(alloc, &shape) {
        Ok(members) => Ok(members),
        Err(NoMemory) => Err(OpenFault::NoMemory),
    }
}

/// The members of a new pool of this shape.
fn open_shape(alloc: Global, shape: &Shape) -> Result<Vec<Member>, NoMemory>
    ensures { IfOk result (λ members. AreOpenedMembers shape.now members.items) }
{
    let (pool, passes) = Pool::open(alloc, shape)?;
    let pool = Arc::new(alloc, pool)?;
    let mut members = Vec::with_capacity(alloc, passes.len())?;
    for pass in passes {
        let member = Member::of(alloc, Arc::try_clone(&pool)?, pass)?;
        members.push(member)?;
    }
    Ok(members)
}
