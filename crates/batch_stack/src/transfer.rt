// One process's transfers, step by step.
ghost use Rattle.std.specs.Prelude.{◌≡◌, ◌≢◌, ◌<◌, MatchResult};
ghost use Rattle.word_layout.specs.Sizes.{blocks};
ghost use Rattle.word_layout.specs.declared.announced.Wish.TheVariants.{Take, Give};
ghost use Rattle.transfer_machine.specs.Machine.{CanAct, action_of};
ghost use Rattle.transfer_machine.specs.declared.stage.NextStep.TheVariants.{Rest};
ghost use Rattle.pool_table.specs.Steps.{MayStep, OneStep};
ghost use Rattle.pool_table.specs.Transfers.{Agrees};
ghost use Rattle.batch_stack.specs.declared.progress.Progress.TheVariants.{Going};
ghost use Rattle.batch_stack.specs.Alone.{EndsAtRest, spares_in, spares_about, spares_after};
ghost use Rattle.batch_stack.specs.Ended.{EndTells};
ghost use Rattle.batch_stack.specs.Running.{Running, MadeStep, ComesNearer, GoesOn, IsInTry, opened, step_about, wishing};

use crate::progress::{Progress, progress_at};
use announce::{load_of_announcement, store_of_announcement};
use pool_machine::Call;
use pool_model::NoMemory;
use pool_table::{PoolSeat, PoolTable, about_of, act};
use std::alloc::Global;
use std::marker::Model;
use step_counter::{Ledger, Steps};
use transfer_machine::{Action, NextStep, TransferView, TryStep};
use versioned_records::RecordCursor;
use word_layout::{Shape, Wish};

#[cfg(test)]
mod tests;

/// The transfers of one process, one after the other.
///
/// Clauses see the shape's numbers and the machine's part of a transfer.
#[derive(Drop)]
pub struct Transfer {
    shape: Shape,
    view: TransferView,
}

impl Model for Transfer {
    ghost use Rattle.batch_stack.specs.Running.{Running};

    ghost Value = { Running };

    ghost view = { λ transfer. record { sizes = transfer.shape; part = transfer.view } };
}

impl Transfer {
    /// The transfers of this process of the shape; none is begun. All that its steps use has its room here.
    pub fn open(alloc: Global, shape: &Shape, process: u32) -> Result<Transfer, NoMemory>
        requires process { process < shape.now.processes }
        ensures { MatchResult result (λ transfer. transfer ≡ opened shape.now process) (λ _. ⊥) }
    {
        prove!(shape.processes() <= 32);
        // The view has its room in itself.
        let _ = alloc;
        Ok(Transfer {
            shape: *shape,
            view: TransferView::open(process),
        })
    }

    /// Begins a take.
    pub fn begin_take(&mut self)
        requires rest { self.old.part.next ≡ Rest }
        ensures { self.new ≡ wishing Take self.old }
    {
        self.view.begin(Wish::Take);
    }

    /// Begins a give of the batch with this head.
    pub fn begin_give(&mut self, head: u32)
        requires rest { self.old.part.next ≡ Rest }
        requires head { head < blocks self.old.sizes }
        ensures { self.new ≡ wishing (Give head) self.old }
    {
        self.view.begin(Wish::Give(head));
    }

    /// Makes the next step of the transfer, in this call or alone, and answers how far it is: one atomic step of one
    /// word, one tick, and one move of the seat. The first step begins the call, or the transfer alone.
    ///
    /// The condition is that the seat's process makes this transfer, and its next step is one of it.
    pub fn step<L: Ledger>(
        &mut self,
        table: &PoolTable,
        seat: &mut PoolSeat,
        call: Option<Call>,
        steps: &mut Steps<L>,
    ) -> Progress
        requires may { MayStep self.old.sizes (step_about call self.old) table.now seat.old steps.old }
        requires agrees { Agrees (step_about call self.old) seat.old.view self.old.part }
        ensures sizes { self.new.sizes ≡ self.old.sizes }
        ensures one { OneStep seat.old seat.new steps.old steps.new }
        ensures step { MadeStep self.old.sizes (step_about call self.old) seat.old.view self.old.part seat.new.view self.new.part result }
        ensures nearer { ComesNearer self.old.sizes self.old.part self.new.part result }
        ensures on { result ≡ Going → GoesOn self.old.sizes (step_about call self.old) seat.new.view self.new.part }
        ensures ends { EndTells (step_about call self.old) seat.old.view seat.new.view result }
        ensures spares { spares_in seat.new.view ≡ spares_after result (spares_about (step_about call self.old) seat.old.view) }
        ensures rests { result ≢ Going → EndsAtRest self.old.sizes (step_about call self.old) seat.new.view self.new.part }
    {
        let about = about_of(call, self.view.wish);
        let next = self.view.next;
        let action = next_action(&self.view, &self.shape);
        let word = act(&about, action, &self.shape, table, seat, steps);
        self.view.meet(&self.shape, word);
        progress_at(next, self.view.answer)
    }
}

/// What a transfer does next. What announces, and what loads or stores a record word or loads an announcement, is
/// said by the crate of records or of announcements.
fn next_action(view: &TransferView, shape: &Shape) -> Action
    requires { CanAct shape.now view.now }
    ensures { result ≡ action_of shape.now view.now }
{
    match view.next {
        NextStep::Announce => store_of_announcement(view.number, view.age + 1, view.wish),
        NextStep::Try { step, .. } => try_action(view, step, shape),
        NextStep::Rest | NextStep::LoadFinalState | NextStep::LoadReply => view.action(shape),
    }
}

/// The same in a try.
fn try_action(view: &TransferView, step: TryStep, shape: &Shape) -> Action
    requires act { CanAct shape.now view.now }
    requires step { IsInTry view.now step }
    ensures { result ≡ action_of shape.now view.now }
{
    let loaded = &view.loaded;
    match step {
        TryStep::LoadRecordWord { index } => {
            let (tag, row) = (loaded.tag(), loaded.row());
            RecordCursor { tag, row, index }.load()
        }
        TryStep::LoadAnnouncement { process } => load_of_announcement(process),
        TryStep::StoreRecordWord { index } => {
            let (tag, row) = (loaded.tag() + 1, view.next_record);
            let value = view.draft.value(shape.processes(), index);
            RecordCursor { tag, row, index }.store(value)
        }
        TryStep::LoadState
        | TryStep::LoadCoveredSlot { .. }
        | TryStep::ExchangeSlot { .. }
        | TryStep::LoadPoppedSlot { .. }
        | TryStep::ExchangeState => view.action(shape),
    }
}
