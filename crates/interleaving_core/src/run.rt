// Runs of the machine.
ghost use Rattle.std.specs.Prelude.{◌≡◌, ◌*◌, ◌<◌, ◌≤◌, ◌^◌, List, [], ◌∷◌, ◌++◌, IfOk, slice_index};
ghost use Rattle.word_layout.specs.Sizes.{blocks};
ghost use Rattle.word_layout.specs.Names.{table_words};
ghost use Rattle.pool_model.specs.declared.entry.Entry.{Entry};
ghost use Rattle.transfer_machine.specs.Words.{stack};
ghost use Rattle.pool_machine.specs.Conditions.{IsYoungFor};
ghost use Rattle.pool_machine.specs.declared.call.CallStage.TheVariants.{Between};
ghost use Rattle.interleaving_core.specs.Invariant.{MeetsInvariant};
ghost use Rattle.interleaving_core.specs.Kept.{kept};
ghost use Rattle.interleaving_core.specs.Moves.{view_at, holder_of};
ghost use Rattle.interleaving_core.specs.Runs.{IsRun, Turn, Moves, Events, is_made, after_turn, turn_answer, entries_of};

use crate::content::stack_of;
use crate::kept::kept_by;
use crate::turn::{
    call_process, held_by, may_go, may_go_alone, move_process, no_holders, note, opening_views,
};
use pool_machine::{Event, Happened, ProcessView};
use pool_model::NoMemory;
use std::alloc::Global;
use std::marker::Model;
use transfer_machine::opening_words;
use word_layout::{Shape, Wish};

/// The words of a table, the views of all its processes and who holds each block, at the end of a run from the
/// opening. It stores no history of the run.
#[derive(Debug, Drop)]
pub struct CoreRun {
    shape: Shape,
    words: Vec<u64>,
    views: Vec<ProcessView>,
    holders: Vec<Option<u32>>,
}

impl Model for CoreRun {
    ghost use Rattle.std.specs.Prelude.{List};
    ghost use Rattle.pool_model.specs.declared.entry.Entry.{Entry};
    ghost use Rattle.interleaving_core.specs.Moves.{CoreState};
    ghost use Rattle.interleaving_core.specs.Runs.{IsRun, Turn};

    ghost Value = { CoreState };

    ghost view = { λ run. record { sizes = run.shape; words = run.words.items; views = run.views.items; holders = run.holders.items } };

    ghost invariant = { λ run. (past : List Turn) × (history : List Entry) × IsRun run.shape past history (record { sizes = run.shape; words = run.words.items; views = run.views.items; holders = run.holders.items }) };
}

impl CoreRun {
    /// The opening. The only error is want of memory.
    pub fn open(alloc: Global, shape: &Shape) -> Result<CoreRun, NoMemory>
        ensures run { IfOk result (IsRun shape.now [] []) }
        ensures invariant { IfOk result (λ run. MeetsInvariant run.sizes run.words (view_at run) []) }
    {
        prove!(shape.processes() >= 1);
        let words = opening_words(alloc, shape)?;
        let views = opening_views(alloc, shape)?;
        let holders = no_holders(alloc, shape)?;
        Ok(CoreRun {
            shape: *shape,
            words,
            views,
            holders,
        })
    }

    /// One step of a transfer of process `by`, outside any call. Where the process is at rest, it first begins
    /// one with this wish; else the wish isn't looked at. Ignored exactly where no such process is in the shape,
    /// where it has begun a call, or where it is at rest and can't begin that: its age is the last one, or a take has two
    /// spares or more, or the head of a give isn't the newest spare's; then nothing changes. It takes no memory.
    pub fn move_one(&mut self, by: u32, wish: Wish) -> Happened
        ensures answer { result ≡ turn_answer (Moves by wish) self.old }
        ensures state { self.new ≡ after_turn (Moves by wish) self.old }
        ensures run { (past : List Turn) (history : List Entry) → IsRun self.old.sizes past history self.old → IsRun self.new.sizes (past ++ Moves by wish ∷ []) (history ++ entries_of result) self.new }
        ensures invariant { (past : List Turn) (history : List Entry) → IsRun self.old.sizes past history self.old → MeetsInvariant self.new.sizes self.new.words (view_at self.new) (history ++ entries_of result) }
    {
        if !self.can_move(by, wish) {
            return Happened::Ignored;
        }
        let happened = move_process(&mut self.words, &mut self.views, &self.shape, by, wish);
        note(&mut self.holders, happened);
        happened
    }

    /// One step of a call of a process. Where the process is between two calls, it first begins the event's call;
    /// else that isn't looked at. Ended is answered by the last step of an allocate or a free, Loaded and Stored by
    /// the one step of a read or a write. Ignored exactly where no such process is in the shape, where it has begun
    /// a transfer outside any call, or where it is between two calls and the call names a block that it doesn't
    /// hold or an index that its blocks don't have; then nothing changes. It takes no memory. An event that begins
    /// an allocate or a free with which a transfer is due, or a search whatever is due, needs a process whose age
    /// isn't the last one; no other is asked for its age.
    pub fn event(&mut self, event: &Event) -> Happened
        requires { event.now.by < self.old.sizes.processes → (view_at self.old event.now.by).calls.stage ≡ Between → IsYoungFor self.old.sizes event.now.call (view_at self.old event.now.by) }
        ensures answer { result ≡ turn_answer (Events event.now.by event.now.call) self.old }
        ensures state { self.new ≡ after_turn (Events event.now.by event.now.call) self.old }
        ensures run { (past : List Turn) (history : List Entry) → IsRun self.old.sizes past history self.old → IsRun self.new.sizes (past ++ Events event.now.by event.now.call ∷ []) (history ++ entries_of result) self.new }
        ensures invariant { (past : List Turn) (history : List Entry) → IsRun self.old.sizes past history self.old → MeetsInvariant self.new.sizes self.new.words (view_at self.new) (history ++ entries_of result) }
    {
        if !self.can_go(event) {
            return Happened::Ignored;
        }
        let holds = held_by(&self.holders, event);
        let happened = call_process(&mut self.words, &mut self.views, &self.shape, event, holds);
        note(&mut self.holders, happened);
        happened
    }

    /// Whether process `by` is in the shape, and goes on with its transfer or may begin one with this wish.
    fn can_move(&self, by: u32, wish: Wish) -> bool
        ensures { result ≡ is_made (Moves by wish) self.now }
    {
        by < self.shape.processes() && may_go_alone(&self.views[by as usize], &self.shape, wish)
    }

    /// Whether the process of an event is in the shape, and goes on with its call or may begin this one.
    fn can_go(&self, event: &Event) -> bool
        ensures { result ≡ is_made (Events event.now.by event.now.call) self.now }
    {
        if event.by >= self.shape.processes() {
            return false;
        }
        let holds = held_by(&self.holders, event);
        may_go(&self.views[event.by as usize], &self.shape, event, holds)
    }

    /// The shape of the table.
    pub fn shape(&self) -> Shape
        ensures { result ≡ self.now.sizes }
    {
        self.shape
    }

    /// The heads of the batches in the shared stack, from the bottom. The only error is want of memory.
    pub fn stack(&self, alloc: Global) -> Result<Vec<u32>, NoMemory>
        ensures { IfOk result (λ heads. heads.items ≡ stack self.now.sizes self.now.words) }
    {
        stack_of(alloc, &self.words, &self.shape)
    }

    /// The word at a place of the table.
    pub fn word(&self, place: u32) -> u64
        requires { place < table_words self.now.sizes }
        ensures { result ≡ slice_index self.now.words place }
    {
        self.words[place as usize]
    }

    /// What a process knows.
    pub fn view(&self, process: u32) -> &ProcessView
        requires { process < self.now.sizes.processes }
        ensures { result.now ≡ view_at self.now process }
    {
        &self.views[process as usize]
    }

    /// How many blocks a process keeps: those of its current list and its spares, the batch of a give that isn't
    /// applied, and the batch that an applied take was answered. They are at most five batches, wherever the process
    /// stands, and with those of the other processes, the held ones and those of the stack they are all blocks.
    pub fn kept(&self, process: u32) -> u32
        requires { process < self.now.sizes.processes }
        ensures value { result ≡ kept self.now process }
        ensures few { result ≤ 5 * self.now.sizes.length }
    {
        kept_by(&self.words, self.view(process), &self.shape, process)
    }

    /// Which process holds a block, if any.
    pub fn holder(&self, block: u32) -> Option<u32>
        requires { block < blocks self.now.sizes }
        ensures { result ≡ holder_of self.now block }
    {
        self.holders[block as usize]
    }
}
