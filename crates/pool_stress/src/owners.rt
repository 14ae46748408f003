// Who has each block, as the processes say it.
use pool_model::NoMemory;
use std::alloc::Global;
use std::sync::atomic::{AtomicU64, Ordering};

/// The number of the get that is misheard.
const MISHEARD: u64 = 3;

/// An answer that the owners mishear on purpose, once, to show that a wrong answer is seen.
#[derive(Clone, Copy, Debug, PartialEq, Eq)]
pub(crate) enum Lie {
    /// A block is got twice.
    Twice,
    /// The block that is got is none of the pool.
    Foreign,
    /// A block is got, and nobody has it.
    Lost,
    /// A call takes more steps than any may.
    Long,
}

impl Lie {
    /// The lie of this name.
    pub(crate) fn named(name: &str) -> Option<Lie> {
        match name {
            "twice" => Some(Lie::Twice),
            "foreign" => Some(Lie::Foreign),
            "lost" => Some(Lie::Lost),
            "long" => Some(Lie::Long),
            _ => None,
        }
    }
}

/// Who has each block, and what was seen that mustn't be.
#[derive(Drop)]
pub(crate) struct Owners {
    /// For each block the number of the process that has it, and one; 0 where nobody has it.
    of: Vec<AtomicU64>,
    /// What is misheard.
    lie: Option<Lie>,
    /// How many blocks were got.
    got: AtomicU64,
    /// How many blocks went to an owner, or left one, that weren't of the pool or of whom they were said to be.
    wrong: AtomicU64,
    /// How many calls took more steps than they may.
    long: AtomicU64,
    /// How many allocates and searches were refused.
    refused: AtomicU64,
    /// How many searches there were.
    searched: AtomicU64,
}

impl Owners {
    /// So many blocks that nobody has.
    pub(crate) fn of_none(
        alloc: Global,
        blocks: u32,
        lie: Option<Lie>,
    ) -> Result<Owners, NoMemory> {
        let mut of = Vec::with_capacity(alloc, blocks as usize)?;
        for _block in 0..blocks {
            of.push(AtomicU64::new(0))?;
        }
        Ok(Owners {
            of,
            lie,
            got: AtomicU64::new(0),
            wrong: AtomicU64::new(0),
            long: AtomicU64::new(0),
            refused: AtomicU64::new(0),
            searched: AtomicU64::new(0),
        })
    }

    /// A process got a block.
    pub(crate) fn get(&self, block: u32, owner: u64) {
        match self.misheard() {
            None => self.hand(block, 0, owner),
            Some(Lie::Twice) => {
                self.hand(block, 0, owner);
                self.hand(block, 0, owner);
            }
            Some(Lie::Foreign) => self.hand(u32::MAX, 0, owner),
            Some(Lie::Lost) => {}
            Some(Lie::Long) => {
                self.hand(block, 0, owner);
                self.time(u64::MAX, 0);
            }
        }
    }

    /// What is misheard of the get that is heard of now.
    fn misheard(&self) -> Option<Lie> {
        let before = self.got.fetch_add(1, Ordering::SeqCst);
        if before.wrapping_add(1) == MISHEARD {
            self.lie
        } else {
            None
        }
    }

    /// A process gives a block back.
    pub(crate) fn give(&self, block: u32, owner: u64) {
        self.hand(block, owner, 0);
    }

    /// The block goes from one owner to another.
    fn hand(&self, block: u32, from: u64, to: u64) {
        let right = match self.of.get(block as usize) {
            Some(owner) => owner
                .compare_exchange(from, to, Ordering::SeqCst, Ordering::SeqCst)
                .is_ok(),
            None => false,
        };
        if !right {
            self.err();
        }
    }

    /// Something went wrong.
    pub(crate) fn err(&self) {
        self.wrong.fetch_add(1, Ordering::SeqCst);
    }

    /// A call took so many steps, of which it may make so many at most.
    pub(crate) fn time(&self, steps: u64, most: u64) {
        if steps > most {
            self.long.fetch_add(1, Ordering::SeqCst);
        }
    }

    /// An allocate or a search was refused.
    pub(crate) fn refuse(&self) {
        self.refused.fetch_add(1, Ordering::SeqCst);
    }

    /// A search begins.
    pub(crate) fn search(&self) {
        self.searched.fetch_add(1, Ordering::SeqCst);
    }

    /// How many blocks have no owner.
    pub(crate) fn ownerless(&self) -> u64 {
        let mut ownerless = 0u64;
        for owner in self.of.iter() {
            if owner.load(Ordering::SeqCst) == 0 {
                ownerless = ownerless.saturating_add(1);
            }
        }
        ownerless
    }

    /// How many blocks have an owner.
    pub(crate) fn owned(&self) -> u64 {
        (self.of.len() as u64).saturating_sub(self.ownerless())
    }

    /// How many moves of blocks were wrong.
    pub(crate) fn wrong(&self) -> u64 {
        self.wrong.load(Ordering::SeqCst)
    }

    /// How many calls were long.
    pub(crate) fn long(&self) -> u64 {
        self.long.load(Ordering::SeqCst)
    }

    /// How many allocates and searches were refused.
    pub(crate) fn refused(&self) -> u64 {
        self.refused.load(Ordering::SeqCst)
    }

    /// How many searches there were.
    pub(crate) fn searched(&self) -> u64 {
        self.searched.load(Ordering::SeqCst)
    }
}
