// The numbers of a pool.
ghost use Rattle.std.specs.Prelude.{◌≡◌, Option, Some, None};
ghost use Rattle.block_pool.specs.Passing.{Passed};
ghost use Rattle.loskebri_c.specs.Described.{Describes, DescribesNone};

use crate::handle::LoskebriPass;
use crate::status::{CLOSED, DONE};
use pool_member::Member;

/// The numbers of a pass and its pool.
#[repr(C)]
#[derive(Drop)]
pub struct LoskebriShape {
    /// [`DONE`], or [`CLOSED`] with all else 0.
    pub status: u32,
    /// The number of the pass's process.
    pub process: u32,
    /// How many processes share the pool.
    pub processes: u32,
    /// How many batches the blocks form.
    pub batches: u32,
    /// How many blocks a batch has.
    pub batch_length: u32,
    /// How many blocks the pool has. Their numbers are the ones below it.
    pub blocks: u32,
    /// How many data words a block has.
    pub words: u32,
    /// How many steps of a transfer a call makes at most.
    pub quantum: u32,
    /// How many blocks may be unheld at most at the moment that a refused allocate looks back on.
    pub slack: u32,
    /// A refusal had a moment with no more unheld blocks among its pass's last calls, fewer than these.
    pub window: u32,
    /// How many transfers a pass may begin in all.
    pub most_age: u64,
}

/// The numbers of a member's pass and pool.
fn described(member: &Member) -> LoskebriShape
    ensures { Describes result member.now }
{
    let shape = member.shape();
    LoskebriShape {
        status: DONE,
        process: member.number(),
        processes: shape.processes(),
        batches: shape.batches(),
        batch_length: shape.length(),
        blocks: shape.blocks(),
        words: shape.words(),
        quantum: shape.quantum(),
        slack: shape.slack(),
        window: shape.window(),
        most_age: shape.most_age(),
    }
}

/// The numbers of no pass.
fn undescribed() -> LoskebriShape
    ensures { DescribesNone result }
{
    LoskebriShape {
        status: CLOSED,
        process: 0,
        processes: 0,
        batches: 0,
        batch_length: 0,
        blocks: 0,
        words: 0,
        quantum: 0,
        slack: 0,
        window: 0,
        most_age: 0,
    }
}

/// The numbers of the pass and its pool.
#[unsafe(no_mangle)]
pub extern "C" fn loskebri_shape(pass: &mut LoskebriPass) -> LoskebriShape
    ensures closed { pass.old.member ≡ None → DescribesNone result }
    ensures open { (old : Passed) → pass.old.member ≡ Some old → Describes result old }
    ensures same { pass.new.member ≡ pass.old.member }
{
    if pass.is_closed() {
        return undescribed();
    }
    described(pass.member())
}
