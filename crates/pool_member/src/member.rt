// A member of a pool and its calls.
ghost use Rattle.std.specs.Prelude.{◌≡◌, ◌<◌, ◌↔◌, Contains, IfErr, IfOk, IsTrue, length};
ghost use Rattle.std.specs.Arc.{arc_value};
ghost use Rattle.word_layout.specs.Packing.{most_age};
ghost use Rattle.transfer_schedule.specs.Numbers.{after_choice, is_idle};
ghost use Rattle.block_pool.specs.Passing.{HasAge, IsOf};
ghost use Rattle.pool_member.specs.Calling.{AnswersAllocate, AnswersFree, AnswersSearch, AnswersSought, AnswersYoung, getting_of};
ghost use Rattle.pool_member.specs.Calling.{HasWord, IsFaulty, LacksWord, ReadsWord, WritesWord};

use block_marks::Marks;
use block_pool::{Answer, Pass, Pool};
use pool_model::NoMemory;
use std::alloc::Global;
use std::marker::Model;
use std::sync::Arc;
use step_counter::{Quiet, Steps};
use word_layout::Shape;

/// A pass, its pool, and a mark for each block that it holds. Clauses see the pass.
#[derive(Drop)]
pub struct Member {
    pool: Arc<Pool, Global>,
    marks: Marks,
    /// It comes last, so that the words behind it keep members of different threads in other cache lines.
    pass: Pass,
}

impl Model for Member {
    ghost use Rattle.std.specs.Arc.{arc_value};
    ghost use Rattle.block_pool.specs.Passing.{Passed};
    ghost use Rattle.pool_member.specs.Fitting.{FitsPool};

    ghost Value = { Passed };

    ghost view = { λ member. member.pass };

    ghost invariant = { λ member. FitsPool (arc_value member.pool) member.pass member.marks };
}

/// How an allocate is answered.
#[derive(Drop)]
pub enum Getting {
    /// This block, which nobody held. The pass holds it now.
    Got(u32),
    /// The pass's own pool has no block.
    Dry,
    /// A transfer is due, and the pass has begun as many as it may. No call was made.
    Spent,
}

impl Getting {
    /// The answer of a call that was made.
    #[inline(always)]
    fn of(answer: &Answer) -> Getting
        ensures { result ≡ getting_of answer.now }
    {
        match answer {
            Answer::Got(block) => Getting::Got(block.number()),
            Answer::Dry => Getting::Dry,
        }
    }
}

/// How a free is answered.
#[derive(Drop)]
pub enum Freeing {
    /// The block went back.
    Freed,
    /// The pass doesn't hold this block. No call was made.
    NotHeld,
    /// A transfer is due, and the pass has begun as many as it may. No call was made, and it holds the block still.
    Spent,
}

/// Why a data word is neither read nor written.
#[derive(Drop)]
pub enum WordFault {
    /// The pass doesn't hold this block.
    NotHeld,
    /// A block has no data word of this index.
    NoWord,
}

impl Member {
    /// The member of a pass that holds nothing. `Err` for want of memory only.
    pub(crate) fn of(alloc: Global, pool: Arc<Pool, Global>, pass: Pass) -> Result<Member, NoMemory>
        requires pool { IsOf (arc_value pool) pass }
        requires bare { length pass.held ≡ 0 }
        ensures { IfOk result (λ member. member ≡ pass) }
    {
        let marks = Marks::new(alloc, pool.shape().blocks())?;
        Ok(Member { pool, marks, pass })
    }

    /// The numbers of the pool.
    pub fn shape(&self) -> &Shape
        ensures { result.now ≡ self.now.sizes }
    {
        self.pool.shape()
    }

    /// The number of the pass's process.
    pub fn number(&self) -> u32
        ensures { result ≡ self.now.number }
    {
        self.pass.number()
    }

    /// How many transfers the pass has begun.
    pub fn age(&self) -> u64
        ensures { result ≡ self.now.age }
    {
        self.pass.age()
    }

    /// How many blocks the pass holds.
    pub fn holding(&self) -> u32
        ensures { result ≡ length self.now.held }
    {
        self.pass.holding()
    }

    /// Whether an allocate or a free of the pass would begin with no transfer now: none is pending, and none is due.
    #[inline]
    pub fn is_quiet(&self) -> bool
        ensures { result ≡ is_idle (after_choice self.now.plan).pending }
    {
        self.pass.is_quiet()
    }

    /// Whether an allocate, or a free of a held block, would be made now: no transfer is due, or the pass has begun fewer than it may.
    #[inline]
    pub fn has_age(&self) -> bool
        ensures { IsTrue result ↔ HasAge self.now }
    {
        self.pass.has_age()
    }

    /// Whether the pass holds this block. Any number may be asked.
    pub fn holds(&self, block: u32) -> bool
        ensures { IsTrue result ↔ Contains self.now.held block }
    {
        self.marks.has(block)
    }

    /// Gets a block that nobody holds. It takes no memory and waits for nobody.
    ///
    /// `Spent` comes exactly where a transfer is due and the pass has begun as many as it may, and then nothing changes. Else the pool
    /// makes one call of the pass, with one entry more in the one legal history: `Got` a block of the pool that the pass didn't hold,
    /// and holds it besides the others, or `Dry` exactly where the pass's own pool had none.
    #[inline(always)]
    pub fn allocate(&mut self) -> Getting
        ensures { AnswersAllocate result self.old self.new }
    {
        if !self.pass.has_age() {
            return Getting::Spent;
        }
        Getting::of(&self.allocate_young())
    }

    /// Lets a block go. Any number may be given. It takes no memory and waits for nobody.
    ///
    /// `NotHeld` comes exactly where the pass doesn't hold the block, and `Spent` where it does, a transfer is due, and it
    /// has begun as many as it may; then nothing changes. Else the pool has the block back, and the pass holds all others.
    #[inline(always)]
    pub fn free(&mut self, block: u32) -> Freeing
        ensures { AnswersFree block result self.old self.new }
    {
        if !self.holds(block) {
            return Freeing::NotHeld;
        }
        if !self.pass.has_age() {
            return Freeing::Spent;
        }
        let _quantum = self.pool.shape().quantum();
        let token = self.pass.block(block);
        self.pool
            .free(&mut self.pass, token, &mut Steps::new(Quiet::new()));
        self.marks.clear(block);
        Freeing::Freed
    }

    /// Gets a block that nobody holds, with more steps and a sharper refusal than [`Member::allocate`]. It takes no memory and
    /// waits for nobody.
    ///
    /// `Spent` comes exactly where the pass has begun as many transfers as it may, whatever is due, and then nothing changes. Else
    /// the pool makes one search of the pass, in at most `32p + 31` steps for `p` processes: the transfers that are pending and due
    /// run to their ends, and then it is `Got` a block, as by an allocate, or `Dry` exactly where the pass's own pool had none.
    /// Such a refusal had its moment within the call.
    pub fn search(&mut self) -> Getting
        ensures { AnswersSearch result self.old self.new }
    {
        if self.pass.age() >= self.pool.shape().most_age() {
            return Getting::Spent;
        }
        Getting::of(&self.search_young())
    }

    /// Gets a block, or is refused, of a pass that isn't spent.
    #[inline(always)]
    fn allocate_young(&mut self) -> Answer
        requires { HasAge self.old }
        ensures { AnswersYoung result self.old self.new }
    {
        let _quantum = self.pool.shape().quantum();
        let answer = self
            .pool
            .allocate(&mut self.pass, &mut Steps::new(Quiet::new()));
        match &answer {
            Answer::Got(block) => self.marks.set(block.number()),
            Answer::Dry => {}
        }
        answer
    }

    /// Searches, of a pass that may begin a transfer.
    fn search_young(&mut self) -> Answer
        requires { self.old.age < most_age self.old.sizes }
        ensures { AnswersSought result self.old self.new }
    {
        let _processes = self.pool.shape().processes();
        let answer = self
            .pool
            .search(&mut self.pass, &mut Steps::new(Quiet::new()));
        match &answer {
            Answer::Got(found) => self.marks.set(found.number()),
            Answer::Dry => {}
        }
        answer
    }

    /// Finds out whether the pass has this data word.
    fn find(&self, block: u32, index: u32) -> Result<(), WordFault>
        ensures found { IfOk result (λ _. HasWord self.now block index) }
        ensures fault { IfErr result (λ fault. LacksWord fault self.now block index) }
    {
        if !self.holds(block) {
            return Err(WordFault::NotHeld);
        }
        if index >= self.pool.shape().words() {
            return Err(WordFault::NoWord);
        }
        Ok(())
    }

    /// Loads data word `index` of a block: what was written to it last since the block was got, and some number where nothing
    /// was. Any numbers may be given. It is one step, at any age.
    ///
    /// `NotHeld` comes exactly where the pass doesn't hold the block, `NoWord` where it does and the block has no such word;
    /// then nothing changes.
    pub fn read(&mut self, block: u32, index: u32) -> Result<u64, WordFault>
        ensures read { IfOk result (λ value. ReadsWord block index value self.old self.new) }
        ensures fault { IfErr result (IsFaulty block index self.old self.new) }
    {
        self.find(block, index)?;
        let token = self.pass.block(block);
        Ok(self.pool.read(&mut self.pass, &token, index, &mut Steps::new(Quiet::new())))
    }

    /// Stores data word `index` of a block. Any numbers may be given. It is one step, at any age.
    ///
    /// `NotHeld` comes exactly where the pass doesn't hold the block, `NoWord` where it does and the block has no such word;
    /// then nothing changes.
    pub fn write(&mut self, block: u32, index: u32, value: u64) -> Result<(), WordFault>
        ensures written { IfOk result (λ _. WritesWord block index value self.old self.new) }
        ensures fault { IfErr result (IsFaulty block index self.old self.new) }
    {
        self.find(block, index)?;
        let token = self.pass.block(block);
        self.pool.write(
            &mut self.pass,
            &token,
            index,
            value,
            &mut Steps::new(Quiet::new()),
        );
        Ok(())
    }
}
