// The cheapest of the pools that a table offers.
ghost use Rattle.std.specs.Prelude.{◌≡◌, ◌++◌, ◌≤◌, IfOk, OnOk};
ghost use Rattle.pool_fit.specs.Choices.{IsCheaper, IsCheapest, offers_of, offers_of_size};

use crate::sizes::SizeRow;
use pool_model::NoMemory;
use std::alloc::Global;

/// A pool with just enough batches, of blocks of one size.
#[derive(Clone, Copy, Debug, PartialEq, Eq, Hash)]
pub struct Choice {
    /// How many bytes a block holds.
    pub size: u32,
    /// How many steps of a transfer a call makes at most.
    pub quantum: u32,
    /// How many batches the pool has.
    pub batches: u32,
    /// How many bytes it takes, with the memory that its blocks stand for.
    pub bytes: u64,
}

/// Adds the pools of one size.
fn push_offers(offers: &mut Vec<Choice>, row: &SizeRow) -> Result<(), NoMemory>
    ensures { OnOk result (offers.new.items ≡ offers.old.items ++ offers_of_size row.now) }
{
    for one in &row.quanta {
        if let Some(pool) = one.pool {
            offers.push(Choice {
                size: row.size,
                quantum: one.quantum,
                batches: pool.batches,
                bytes: pool.bytes,
            })?;
        }
    }
    Ok(())
}

/// The pools of all sizes that leave out at most so many allocations.
fn offers(alloc: Global, sizes: &[SizeRow], most: u128) -> Result<Vec<Choice>, NoMemory>
    ensures { IfOk result (λ offers. offers.items ≡ offers_of most sizes.now) }
{
    let mut offers = Vec::new(alloc);
    for row in sizes {
        if row.big <= most {
            push_offers(&mut offers, row)?;
        }
    }
    Ok(offers)
}

/// The first of the offers that take the fewest bytes.
fn cheapest(offers: &[Choice]) -> Option<Choice>
    ensures { IsCheapest offers.now result }
{
    let mut best: Option<Choice> = None;
    for offer in offers {
        best = Some(cheaper(best, *offer));
    }
    best
}

/// The one that takes fewer bytes, the first where they take as many.
fn cheaper(best: Option<Choice>, other: Choice) -> Choice
    ensures { IsCheaper best other result }
{
    match best {
        Some(best) => {
            if best.bytes <= other.bytes {
                best
            } else {
                other
            }
        }
        None => other,
    }
}

/// The cheapest pool of those that leave out at most so many allocations; `None` where there is no such pool. Its only error is
/// want of memory.
pub fn choose(alloc: Global, sizes: &[SizeRow], most: u128) -> Result<Option<Choice>, NoMemory>
    ensures { IfOk result (IsCheapest (offers_of most sizes.now)) }
{
    let offers = offers(alloc, sizes, most)?;
    Ok(cheapest(&offers))
}
