// The first words of a block, one after the other.
ghost use Rattle.std.specs.Prelude.{◌≡◌, ◌+◌, ◌≤◌, ◌<◌, ◌^◌, ℕ, List, length, Contains};
ghost use Rattle.block_pool.specs.Passing.{IsOf};
ghost use Rattle.object_store.specs.Calls.{written};
ghost use Rattle.object_store.specs.Objects.{IsPadded, KnowsWords};

use block_pool::{Block, Pass, Pool};
use step_counter::{Ledger, Steps};

/// Stores the first words of a block that the pass holds, so many.
pub(crate) fn write_words<L: Ledger>(
    pool: &Pool,
    pass: &mut Pass,
    block: &Block,
    count: u32,
    words: &[u64; 8],
    steps: &mut Steps<L>,
)
    requires pass { IsOf pool.now pass.old }
    requires held { Contains pass.old.held block.now }
    requires few { count ≤ 8 }
    requires words { count ≤ pass.old.sizes.words }
    requires room { steps.old + count < 2 ^ 64 }
    ensures pass { pass.new ≡ record pass.old {
      moves = pass.old.moves + count;
      known = written block.now words.now count pass.old.known;
    } }
    ensures steps { steps.new ≡ steps.old + count }
{
    for index in 0..count {
        pool.write(pass, block, index, words[index as usize], steps);
    }
}

/// Loads the first words of a block that the pass holds, so many. Those behind them are 0.
pub(crate) fn read_words<L: Ledger>(
    pool: &Pool,
    pass: &mut Pass,
    block: &Block,
    count: u32,
    steps: &mut Steps<L>,
) -> [u64; 8]
    requires pass { IsOf pool.now pass.old }
    requires held { Contains pass.old.held block.now }
    requires few { count ≤ 8 }
    requires words { count ≤ pass.old.sizes.words }
    requires room { steps.old + count < 2 ^ 64 }
    ensures pass { pass.new ≡ record pass.old { moves = pass.old.moves + count } }
    ensures steps { steps.new ≡ steps.old + count }
    ensures known { (words : List ℕ) → IsPadded count words → KnowsWords pass.old.known block.now count words → result ≡ words }
{
    let mut words = [0; 8];
    for index in 0..count {
        words[index as usize] = pool.read(pass, block, index, steps);
    }
    words
}
