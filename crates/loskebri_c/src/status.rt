// How the calls of C are answered. The header has the same numbers.
ghost use Rattle.std.specs.Prelude.{◌≡◌};
ghost use Rattle.loskebri_c.specs.Filling.{shape_status};

use word_layout::ShapeFault;

/// The call did what it says.
pub const DONE: u32 = 0;

/// The pass's own pool has no block: the pass holds what it held.
pub const DRY: u32 = 1;

/// The pass doesn't hold this block. Nothing changed.
pub const NOT_HELD: u32 = 2;

/// A block has no data word of this index. Nothing changed.
pub const NO_WORD: u32 = 3;

/// A transfer is due, and the pass has begun as many as it may. Nothing changed.
pub const SPENT: u32 = 4;

/// The handle is closed. Nothing changed.
pub const CLOSED: u32 = 5;

/// There was no memory. No handle was opened.
pub const NO_MEMORY: u32 = 6;

/// There is no process, or no handle. No handle was opened.
pub const NO_PROCESS: u32 = 7;

/// There are more than 32 processes. No handle was opened.
pub const MANY_PROCESSES: u32 = 8;

/// There are fewer than two batches for each process. No handle was opened.
pub const FEW_BATCHES: u32 = 9;

/// The quantum is none of 1, 2, 4, 8 and 16. No handle was opened.
pub const BAD_QUANTUM: u32 = 10;

/// There are more than 2^22 blocks. No handle was opened.
pub const MANY_BLOCKS: u32 = 11;

/// A block has more than 8 data words. No handle was opened.
pub const WIDE_BLOCK: u32 = 12;

/// The status of a shape's fault.
pub fn shape_status(fault: &ShapeFault) -> u32
    ensures { result ≡ shape_status fault.now }
{
    match fault {
        ShapeFault::NoProcess => NO_PROCESS,
        ShapeFault::ManyProcesses => MANY_PROCESSES,
        ShapeFault::FewBatches => FEW_BATCHES,
        ShapeFault::BadQuantum => BAD_QUANTUM,
        ShapeFault::ManyBlocks => MANY_BLOCKS,
        ShapeFault::WideBlock => WIDE_BLOCK,
    }
}
