// The whole table of some traces.
ghost use Rattle.std.specs.Prelude.{◌≡◌, ℕ, ◌^◌, ◌<◌, length, map, All, IfOk};
ghost use Rattle.pool_fit.specs.Choices.{left_out, proposed_sizes, rounded_sizes};
ghost use Rattle.pool_fit.specs.Fits.{IsFit, sizes_for};
ghost use Rattle.pool_fit.specs.SizeRows.{AreSizeRows, HasFewOperations, moves_of_all};

use crate::choice::{Choice, choose};
use crate::classes::{SizeClass, size_classes};
use crate::moves::{MoveList, trace_moves};
use crate::sizes::{SizeRow, size_row};
use mtrace_reader::Trace;
use pool_model::NoMemory;
use std::alloc::Global;
use word_layout::Shape;

/// How many sizes are proposed at most.
const MOST_PROPOSED: usize = 8;

/// How many powers of two a size can be: those below 2^32.
const SIZE_BITS: u32 = 32;

/// What some traces ask for, and the pools that have enough for it.
#[derive(Debug, Drop)]
pub struct Table {
    /// The allocations by their size, from those of at most one byte to those of at most 2^64.
    pub classes: Vec<SizeClass>,
    /// What blocks of each size are asked for.
    pub sizes: Vec<SizeRow>,
    /// The cheapest pool of those that leave out no more allocations than the last size does.
    pub choice: Option<Choice>,
}

/// What the operations of each trace take and give.
fn moves_of_traces(alloc: Global, traces: &[Trace]) -> Result<Vec<MoveList>, NoMemory>
    ensures { IfOk result (λ moves. moves.items ≡ moves_of_all traces.now) }
{
    let mut moves = Vec::new(alloc);
    for trace in traces {
        moves.push(trace_moves(alloc, trace)?)?;
    }
    Ok(moves)
}

/// 2 to this power.
fn power(exponent: u32) -> u32
    requires { exponent < SIZE_BITS }
    ensures { result ≡ 2 ^ exponent }
{
    1 << exponent
}

/// The sizes below 2^32 that allocations of these classes round up to.
fn rounded(alloc: Global, classes: &[SizeClass]) -> Result<Vec<u32>, NoMemory>
    ensures { IfOk result (λ sizes. sizes.items ≡ rounded_sizes classes.now) }
{
    let mut sizes = Vec::new(alloc);
    for class in classes {
        if class.count > 0 && class.exponent < SIZE_BITS {
            sizes.push(power(class.exponent))?;
        }
    }
    Ok(sizes)
}

/// The eight greatest of the sizes that allocations round up to, or all.
fn propose(alloc: Global, classes: &[SizeClass]) -> Result<Vec<u32>, NoMemory>
    ensures { IfOk result (λ sizes. sizes.items ≡ proposed_sizes classes.now) }
{
    let sizes = rounded(alloc, classes)?;
    let first = sizes.len().saturating_sub(MOST_PROPOSED);
    Ok(Vec::from_slice(alloc, &sizes[first..])?)
}

/// What blocks of each size are asked for.
fn size_rows(
    alloc: Global,
    traces: &[Trace],
    moves: &[MoveList],
    smallest: &[Shape],
    sizes: &[u32],
) -> Result<Vec<SizeRow>, NoMemory>
    requires few { All HasFewOperations traces.now }
    requires lists { length moves.now < 2 ^ 32 }
    requires moved { moves.now ≡ moves_of_all traces.now }
    ensures { IfOk result (λ rows. AreSizeRows traces.now smallest.now sizes.now rows.items) }
{
    let mut rows = Vec::new(alloc);
    for size in sizes {
        rows.push(size_row(alloc, traces, moves, smallest, *size)?)?;
    }
    Ok(rows)
}

/// What blocks of the sizes are asked for that are asked for themselves, or proposed where none are.
fn rows_for(
    alloc: Global,
    traces: &[Trace],
    moves: &[MoveList],
    smallest: &[Shape],
    asked: &[u32],
    classes: &[SizeClass],
) -> Result<Vec<SizeRow>, NoMemory>
    requires few { All HasFewOperations traces.now }
    requires lists { length moves.now < 2 ^ 32 }
    requires moved { moves.now ≡ moves_of_all traces.now }
    ensures { IfOk result (λ rows. AreSizeRows traces.now smallest.now (sizes_for asked.now classes.now) rows.items) }
{
    if asked.is_empty() {
        let proposed = propose(alloc, classes)?;
        size_rows(alloc, traces, moves, smallest, &proposed)
    } else {
        size_rows(alloc, traces, moves, smallest, asked)
    }
}

/// How many allocations the last size leaves out.
fn left_out(sizes: &[SizeRow]) -> u128
    ensures { result ≡ left_out sizes.now }
{
    match sizes.last() {
        Some(last) => last.big,
        None => 0,
    }
}

/// What some traces ask for, and what pools of the smallest ones' processes and quanta need for it: of the sizes that are asked
/// for, or, where none are, of up to eight that are proposed. Its only error is want of memory.
pub fn fit(
    alloc: Global,
    traces: &[Trace],
    smallest: &[Shape],
    asked: &[u32],
) -> Result<Table, NoMemory>
    requires few { All HasFewOperations traces.now }
    requires traces { length traces.now < 2 ^ 32 }
    ensures { IfOk result (IsFit traces.now smallest.now asked.now) }
{
    let moves = moves_of_traces(alloc, traces)?;
    let classes = size_classes(alloc, &moves)?;
    let sizes = rows_for(alloc, traces, &moves, smallest, asked, &classes)?;
    let choice = choose(alloc, &sizes, left_out(&sizes))?;
    Ok(Table {
        classes,
        sizes,
        choice,
    })
}
