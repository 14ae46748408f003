// What one process knows.
ghost use Rattle.std.specs.Prelude.{◌≡◌, ◌≢◌, ◌<◌, ◌≤◌};
ghost use Rattle.word_layout.specs.Packing.{FitsWish};
ghost use Rattle.transfer_schedule.specs.declared.pending.Pending.TheVariants.{Idle};
ghost use Rattle.transfer_machine.specs.declared.stage.NextStep.TheVariants.{Rest};
ghost use Rattle.transfer_machine.specs.Machine.{CanAct, CanMeet};
ghost use Rattle.pool_machine.specs.Phases.{phase_of, waiting_of};
ghost use Rattle.pool_machine.specs.Pools.{opening_pool, opening_view, pool_begun, view_begun, pool_met_at, view_met, pool_ended};
ghost use Rattle.pool_machine.specs.Pools.{MayBegin, CanCount, CanMeetPool, CanEnd};

use crate::call::{CallStage, CallView, Way};
use crate::heads::Heads;
use crate::phase::Phase;
use transfer_machine::{NextStep, Stage, TransferView};
use transfer_schedule::{Pending, Plan};
use word_layout::{Reply, Shape, Tagged, Wish};

/// What a process keeps for its private pool.
#[derive(Debug, Drop)]
pub struct PoolView {
    /// The numbers of the pool.
    pub plan: Plan,
    /// The first block of the current list plus 1, or 0 for an empty list.
    pub head: u32,
    /// The heads of the spares, the newest last.
    pub heads: Heads,
    /// The head of a begun give plus 1 until it is announced, else 0.
    pub giving: u32,
}

/// What a process knows: its part of the transfers, its private pool, and its calls.
#[derive(Debug, Drop)]
pub struct ProcessView {
    /// Its part of the transfers.
    pub transfer: TransferView,
    /// Its private pool.
    pub pool: PoolView,
    /// Its calls.
    pub calls: CallView,
}

impl PoolView {
    /// The pool of a process at the opening: a full current list and one spare.
    #[tactic(auto, unfolding(word_layout::specs::Sizes::blocks))]
    pub fn open(shape: &Shape, process: u32) -> PoolView
        requires { process < shape.now.processes }
        ensures { result ≡ opening_pool shape.now process }
    {
        let length = shape.length();
        PoolView {
            plan: Plan::of(length, shape.transfer_bound(), shape.quantum()),
            head: 2 * process * length + 1,
            heads: Heads::of((2 * process + 1) * length),
            giving: 0,
        }
    }

    /// Begins a transfer. The batch of a give leaves the spares.
    fn begin(&mut self, wish: Wish)
        requires idle { self.old.plan.pending ≡ Idle }
        requires may { MayBegin wish self.old }
        requires fits { FitsWish wish }
        ensures { self.new ≡ pool_begun wish self.old }
    {
        match wish {
            Wish::Take => self.plan.begin(Pending::Taking),
            Wish::Give(head) => {
                self.plan.begin(Pending::Giving);
                self.heads.pop();
                self.giving = head + 1;
            }
        }
    }

    /// Counts a step of the pending transfer, which met this word.
    fn meet(&mut self, next: NextStep, word: u64)
        requires busy { next ≢ Rest }
        requires count { CanCount self.old }
        requires meet { CanMeetPool word self.old next }
        ensures { self.new ≡ pool_met_at word self.old next }
    {
        self.plan.ran(1);
        match next {
            NextStep::Announce => self.giving = 0,
            NextStep::LoadReply => self.end(Reply::read(Tagged::value(word)).1),
            _ => {}
        }
    }

    /// Ends the pending transfer. The batch of a take becomes the newest spare.
    pub fn end(&mut self, reply: Reply)
        requires pending { self.old.plan.pending ≢ Idle }
        requires can { CanEnd reply self.old }
        ensures { self.new ≡ pool_ended reply self.old }
    {
        match reply {
            Reply::Nothing => self.plan.came(false),
            Reply::Took(head) => {
                self.plan.came(true);
                self.heads.push(head);
            }
            Reply::Gave => self.plan.came(true),
        }
    }
}

impl ProcessView {
    /// What a process knows at the opening.
    pub fn open(shape: &Shape, process: u32) -> ProcessView
        requires { process < shape.now.processes }
        ensures { result ≡ opening_view shape.now process }
    {
        prove!(shape.processes() <= 32);
        ProcessView {
            transfer: TransferView::open(process),
            pool: PoolView::open(shape, process),
            calls: CallView::open(),
        }
    }

    /// What the process is at. A transfer that is pending between two calls or at the own step of one waits;
    /// one that was begun outside any call is moving.
    pub fn phase(&self) -> Phase
        ensures { result ≡ phase_of self.now }
    {
        match self.calls.stage {
            CallStage::Between => {
                if self.transfer.next == NextStep::Rest || self.calls.way == Way::Calls {
                    Phase::Between
                } else {
                    Phase::Moving(self.transfer.stage())
                }
            }
            CallStage::Choosing => Phase::Between,
            CallStage::Moving => Phase::Moving(self.transfer.stage()),
            CallStage::Own => Phase::Own,
        }
    }

    /// Where the pending transfer stands while the process is between two calls or at the own step of one.
    pub fn waiting(&self) -> Option<Stage>
        ensures { result ≡ waiting_of self.now }
    {
        if self.transfer.next == NextStep::Rest {
            return None;
        }
        match self.phase() {
            Phase::Moving(_) => None,
            Phase::Between | Phase::Own => Some(self.transfer.stage()),
        }
    }

    /// Begins a transfer: a take with at most one spare, or a give of the newest spare, which leaves the
    /// spares at once. Its first step is the announcement.
    pub(crate) fn begin(&mut self, wish: Wish)
        requires rest { self.old.transfer.next ≡ Rest }
        requires idle { self.old.pool.plan.pending ≡ Idle }
        requires fits { FitsWish wish }
        requires may { MayBegin wish self.old.pool }
        ensures { self.new ≡ view_begun wish self.old }
    {
        self.pool.begin(wish);
        self.transfer.begin(wish);
    }

    /// Counts a step of the pending transfer, which met this word.
    pub fn meet(&mut self, shape: &Shape, word: u64)
        requires busy { self.old.transfer.next ≢ Rest }
        requires act { CanAct shape.now self.old.transfer }
        requires meet { CanMeet shape.now self.old.transfer word }
        requires count { CanCount self.old.pool }
        requires end { CanMeetPool word self.old.pool self.old.transfer.next }
        ensures { self.new ≡ view_met shape.now self.old word }
    {
        self.pool.meet(self.transfer.next, word);
        self.transfer.meet(shape, word);
    }
}
