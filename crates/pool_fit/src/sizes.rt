// What blocks of one size are asked for.
ghost use Rattle.std.specs.Prelude.{◌≡◌, ℕ, ◌+◌, ◌*◌, ◌^◌, ◌<◌, ◌≤◌, length, map, sum_by, All, IfOk};
ghost use Rattle.mtrace_reader.specs.declared.trace.Trace.{Trace};
ghost use Rattle.trace_player.specs.Plain.{peaks_without_refusals};
ghost use Rattle.pool_fit.specs.Moves.{waste_of};
ghost use Rattle.pool_fit.specs.SizeRows.{AreQuantumRows, HasFewOperations, IsSizeRow, moves_of_all, scripts_of};

use crate::classes::waste;
use crate::moves::MoveList;
use crate::peak::peak_without_refusals;
use crate::rows::{QuantumRow, quantum_row};
use mtrace_reader::{Script, Trace, script};
use pool_model::NoMemory;
use std::alloc::Global;
use word_layout::Shape;

/// What blocks of one size are asked for, and the pools that have enough of them.
#[derive(Debug, Drop)]
pub struct SizeRow {
    /// How many bytes a block holds.
    pub size: u32,
    /// How many allocations take a block.
    pub news: u128,
    /// How many allocations are larger than a block, and take none.
    pub big: u128,
    /// The sum, over the traces, of the most blocks that each holds at once.
    pub peak: u128,
    /// How many bytes of their blocks the allocations don't use, over all of them.
    pub waste: u128,
    /// What a pool of each quantum needs.
    pub quanta: Vec<QuantumRow>,
}

/// The scripts of some traces, where a block has `size` bytes.
fn scripts(alloc: Global, traces: &[Trace], size: u32) -> Result<Vec<Script>, NoMemory>
    requires { All HasFewOperations traces.now }
    ensures { IfOk result (λ scripts. scripts.items ≡ scripts_of traces.now size) }
{
    let mut scripts = Vec::new(alloc);
    for trace in traces {
        scripts.push(script(alloc, trace, u64::from(size))?)?;
    }
    Ok(scripts)
}

/// How many blocks scripts ask for together.
fn news_of(scripts: &[Script]) -> u128
    ensures { result ≡ sum_by (λ script. script.news) scripts.now }
{
    let mut sum = 0;
    for script in scripts {
        let news = script.news;
        sum += u128::from(news);
    }
    sum
}

/// How many allocations of the scripts are larger than a block.
fn big_of(scripts: &[Script]) -> u128
    ensures { result ≡ sum_by (λ script. script.big) scripts.now }
{
    let mut sum = 0;
    for script in scripts {
        let big = script.big;
        sum += u128::from(big);
    }
    sum
}

/// The sum of the most blocks that each script holds where none is refused.
fn peaks_of(scripts: &[Script]) -> u128
    ensures { result ≡ peaks_without_refusals scripts.now }
{
    let mut sum = 0;
    for script in scripts {
        sum += u128::from(peak_without_refusals(script));
    }
    sum
}

/// How many bytes rounding up to `size` wastes in all traces.
fn waste_of_all(moves: &[MoveList], size: u32) -> u128
    requires { length moves.now < 2 ^ 32 }
    ensures { result ≡ sum_by (waste_of size) moves.now }
{
    let mut sum = 0;
    for list in moves {
        sum += waste(list.as_slice(), size);
    }
    sum
}

/// What pools of the smallest ones' processes and quanta need, each of blocks of `size` bytes, of which at most `live` are
/// held together.
fn quantum_rows(
    alloc: Global,
    smallest: &[Shape],
    size: u32,
    live: u128,
) -> Result<Vec<QuantumRow>, NoMemory>
    ensures { IfOk result (λ rows. AreQuantumRows smallest.now size live rows.items) }
{
    let mut rows = Vec::new(alloc);
    for shape in smallest {
        rows.push(quantum_row(shape, size, live))?;
    }
    Ok(rows)
}

/// What blocks of `size` bytes are asked for by traces that make these moves, and what pools of the smallest ones' processes and
/// quanta need for them. Its only error is want of memory.
pub fn size_row(
    alloc: Global,
    traces: &[Trace],
    moves: &[MoveList],
    smallest: &[Shape],
    size: u32,
) -> Result<SizeRow, NoMemory>
    requires few { All HasFewOperations traces.now }
    requires lists { length moves.now < 2 ^ 32 }
    requires moved { moves.now ≡ moves_of_all traces.now }
    ensures { IfOk result (IsSizeRow traces.now smallest.now size) }
{
    let scripts = scripts(alloc, traces, size)?;
    let peak = peaks_of(&scripts);
    Ok(SizeRow {
        size,
        news: news_of(&scripts),
        big: big_of(&scripts),
        peak,
        waste: waste_of_all(moves, size),
        quanta: quantum_rows(alloc, smallest, size, peak)?,
    })
}
