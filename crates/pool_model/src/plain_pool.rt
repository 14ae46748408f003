// A pool for one thread.
ghost use Rattle.std.specs.Prelude.{◌≡◌, ℕ, ◌+◌, ◌<◌, ◌↔◌, List, [], ◌∷◌, ◌++◌, IsNone, IfSome, IfNone, IfOk};
ghost use Rattle.pool_model.specs.declared.entry.Entry.{Entry};
ghost use Rattle.pool_model.specs.declared.entry.Entry.TheVariants.{Back};
ghost use Rattle.pool_model.specs.Plain.{Gives, IsFull, IsHeld, IsLeftBy, Takes, answer_of};

use crate::NoMemory;
use std::alloc::Global;
use std::marker::Model;

/// A pool of blocks for one thread: a counter of the blocks given out so far, and a list of those that came
/// back, the latest last.
///
/// Contracts see these two with the number of blocks. A block is held where it was given out and isn't in
/// the list.
#[derive(Debug, Drop)]
pub struct PlainPool {
    blocks: u32,
    given: u32,
    returned: Vec<u32>,
}

impl Model for PlainPool {
    ghost use Rattle.pool_model.specs.Plain.{Plain};

    ghost Value = { Plain };

    ghost use Rattle.pool_model.specs.Kept.{IsKept};
    ghost use Rattle.std.specs.Prelude.{vec_capacity};

    ghost view = { λ pool. record { blocks = pool.blocks; given = pool.given; returned = pool.returned.items } };

    ghost invariant = { λ pool. IsKept pool.blocks pool.given pool.returned.items (vec_capacity pool.returned) };
}

impl PlainPool {
    /// A pool of the blocks 0 to `blocks - 1`, none of them held. The only error is want of memory: all
    /// that the pool ever uses is taken here.
    pub fn open(alloc: Global, blocks: u32) -> Result<PlainPool, NoMemory>
        ensures { IfOk result (λ pool. pool ≡ record { blocks = blocks; given = 0; returned = [] }) }
    {
        Ok(PlainPool {
            blocks,
            given: 0,
            returned: Vec::with_capacity(alloc, blocks as usize)?,
        })
    }

    /// Gives process `by` a block that nobody holds: the last that came back, else the next number. None
    /// exactly where all blocks are held, and then nothing changes. Takes no memory.
    pub fn get(&mut self, by: u32) -> Option<u32>
        ensures returned { (rest : List ℕ) (block : ℕ) → self.old.returned ≡ rest ++ block ∷ []
            → (result ≡ Some block) × (self.new ≡ record self.old { returned = rest }) }
        ensures next { self.old.returned ≡ [] → self.old.given < self.old.blocks
            → (result ≡ Some self.old.given) × (self.new ≡ record self.old { given = self.old.given + 1 }) }
        ensures full { IsNone result ↔ IsFull self.old }
        ensures none { IfNone result (self.new ≡ self.old) }
        ensures some { IfSome result (Gives self.old self.new) }
        ensures history { (past : List Entry) → IsLeftBy past self.old → IsLeftBy (past ++ answer_of by result ∷ []) self.new }
    {
        let _ = by;
        if let Some(block) = self.returned.pop() {
            return Some(block);
        }
        if self.given == self.blocks {
            return None;
        }
        let block = self.given;
        self.given += 1;
        Some(block)
    }

    /// Takes a held block back from process `by`: it is the next to be given. Takes no memory.
    pub fn back(&mut self, by: u32, block: u32)
        requires { IsHeld self.old block }
        ensures returned { self.new ≡ record self.old { returned = self.old.returned ++ block ∷ [] } }
        ensures freed { Takes self.old self.new block }
        ensures history { (past : List Entry) → IsLeftBy past self.old → IsLeftBy (past ++ Back by block ∷ []) self.new }
    {
        let _ = by;
        self.returned.push(block).unwrap();
    }
}

#[cfg(test)]
mod tests {
    use super::*;
    use std::test::Fail;

    #[test]
    fn plain_pool(rt: HostRuntime) -> Result<(), Fail> {
        let mut pool = PlainPool::open(rt.alloc(), 2)?;
        assert_eq!(rt; pool.get(0), Some(0));
        assert_eq!(rt; pool.get(0), Some(1));
        assert_eq!(rt; pool.get(0), None);
        pool.back(0, 0);
        assert_eq!(rt; pool.get(0), Some(0));
        Ok(())
    }

    #[test]
    fn pool_of_no_blocks(rt: HostRuntime) -> Result<(), Fail> {
        let mut pool = PlainPool::open(rt.alloc(), 0)?;
        assert_eq!(rt; pool.get(0), None);
        assert_eq!(rt; pool.get(1), None);
        Ok(())
    }
}
