// Allocations by their size, in powers of two.
ghost use Rattle.std.specs.Prelude.{◌≡◌, ℕ, ◌+◌, ◌*◌, ◌^◌, ◌<◌, ◌≤◌, length, map, IfOk};
ghost use Rattle.std.specs.List.{range_with_len};
ghost use Rattle.pool_fit.specs.Classes.{class_between, class_of};
ghost use Rattle.pool_fit.specs.Moves.{gives, takes, unused, waste_of};
ghost use Rattle.pool_fit.specs.Tides.{IsTideOf};

use crate::moves::{Move, MoveList};
use crate::tide::Tide;
use pool_model::NoMemory;
use std::alloc::Global;

/// Whether the move takes between so many bytes and so many.
fn takes(step: &Move, least: u128, most: u128) -> bool
    ensures { result ≡ takes least most step.now }
{
    match step {
        Move::Take { bytes } => least <= u128::from(*bytes) && u128::from(*bytes) <= most,
        Move::Give { .. } => false,
    }
}

/// Whether the move gives between so many bytes and so many.
fn gives(step: &Move, least: u128, most: u128) -> bool
    ensures { result ≡ gives least most step.now }
{
    match step {
        Move::Take { .. } => false,
        Move::Give { bytes } => least <= u128::from(*bytes) && u128::from(*bytes) <= most,
    }
}

/// How many allocations of between so many bytes and so many there were, and how many of these were live at most.
pub(crate) fn tide_between(moves: &[Move], least: u128, most: u128) -> Tide
    ensures { IsTideOf (takes least most) (gives least most) moves.now result }
{
    let mut tide = Tide::new();
    for step in moves {
        tide.follow(takes(step, least, most), gives(step, least, most));
    }
    tide
}

/// How many bytes of a block of `size` bytes the move doesn't use that it takes.
fn unused(step: &Move, size: u32) -> u64
    ensures unused { result ≡ unused size step.now }
    ensures few { result < 2 ^ 32 }
{
    match step {
        Move::Take { bytes } => u64::from(size).saturating_sub(*bytes),
        Move::Give { .. } => 0,
    }
}

/// How many bytes rounding up to `size` wastes, over all allocations that fit.
pub(crate) fn waste(moves: &[Move], size: u32) -> u128
    ensures waste { result ≡ waste_of size moves.now }
    ensures few { result < 2 ^ 96 }
{
    let mut waste = 0;
    for step in moves {
        waste += u128::from(unused(step, size));
    }
    waste
}

/// The allocations of all traces that round up to one power of two.
#[derive(Clone, Copy, Debug, PartialEq, Eq, Hash)]
pub struct SizeClass {
    /// They have at most 2 to this power bytes, and more than half as many.
    pub exponent: u32,
    /// How many there are.
    pub count: u128,
    /// The sum, over the traces, of how many are live at once at most.
    pub peak: u128,
}

/// The allocations of between so many bytes and so many.
fn size_class(moves: &[MoveList], exponent: u32, least: u128, most: u128) -> SizeClass
    ensures { result ≡ class_between moves.now exponent least most }
{
    let mut class = SizeClass {
        exponent,
        count: 0,
        peak: 0,
    };
    for list in moves {
        let tide = tide_between(list.as_slice(), least, most);
        class.count += u128::from(tide.came);
        class.peak += u128::from(tide.peak);
    }
    class
}

/// The allocations of some traces by their size: those of at most one byte, and of each power of two up to 2^64. Its only error
/// is want of memory.
pub fn size_classes(alloc: Global, moves: &[MoveList]) -> Result<Vec<SizeClass>, NoMemory>
    ensures { IfOk result (λ classes. classes.items ≡ map (class_of moves.now) (range_with_len 0 65)) }
{
    let mut classes = Vec::new(alloc);
    let mut least = 0;
    let mut most = 1;
    for exponent in 0..65 {
        classes.push(size_class(moves, exponent, least, most))?;
        least = most + 1;
        most *= 2;
    }
    Ok(classes)
}
