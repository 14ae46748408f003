// The plan of one process.
ghost use Rattle.std.specs.Prelude.{◌≡◌, ◌≢◌, ◌↔◌, ◌+◌, ◌-◌, ◌*◌, ◌<◌, ◌≤◌, IsTrue};
ghost use Rattle.transfer_schedule.specs.Numbers.{opening, due, after_begin, after_choice, after_steps, after_end, after_took_one};
ghost use Rattle.transfer_schedule.specs.Numbers.{source_of, after_gave_one, after_shelved, target_of, stock, kept, withheld};
ghost use Rattle.transfer_schedule.specs.Beginning.{MayBegin, may_begin, few_spares, many_spares};
ghost use Rattle.transfer_schedule.specs.Table.{InTable};
ghost use Rattle.transfer_schedule.specs.Calls.{Fits, ready_for, after_call, own_answer, FitAll, after_calls, EndWithin, EndsEmpty};
ghost use Rattle.transfer_schedule.specs.Calls.{EachMoment, RefusesOnlyDry};

use crate::call::{OwnStep, PlannedAnswer, PlannedCall};
use crate::own_step::{Source, Target};
use crate::pending::Pending;
use std::marker::Model;

/// The numbers of one process's private pool. Contracts see the record of its numbers.
///
/// The sizes stay: the blocks of a batch, the most steps of a transfer, and the most steps of a transfer in
/// one call. The other numbers are changed by the calls below, in the order in which a pool uses them.
#[derive(Clone, Copy, Debug, PartialEq, Eq, Hash)]
pub struct Plan {
    length: u32,
    bound: u32,
    quantum: u32,
    current: u32,
    spares: u32,
    pending: Pending,
    done: u32,
    dry: bool,
}

impl Model for Plan {
    ghost use Rattle.transfer_schedule.specs.Numbers.{Numbers, IsPlan};

    ghost Value = { Numbers };

    ghost view = { λ p. record {
      length = p.length;
      bound = p.bound;
      quantum = p.quantum;
      current = p.current;
      spares = p.spares;
      pending = p.pending;
      done = p.done;
      dry = p.dry;
    } };

    ghost invariant = { λ p. IsPlan (record {
      length = p.length;
      bound = p.bound;
      quantum = p.quantum;
      current = p.current;
      spares = p.spares;
      pending = p.pending;
      done = p.done;
      dry = p.dry;
    }) };

    ghost inverse = { λ x. record {
      length = x.length;
      bound = x.bound;
      quantum = x.quantum;
      current = x.current;
      spares = x.spares;
      pending = x.pending;
      done = x.done;
      dry = x.dry;
    } };
}

impl Plan {
    /// With at most so many spares a take is due.
    const FEW_SPARES: u32 = 1;

    /// With so many spares a give is due.
    const MANY_SPARES: u32 = 3;

    /// The plan of a pool at its opening: a full current list and one spare, with nothing pending.
    ///
    /// A batch has `length` blocks. A transfer takes at most `bound` steps, of which a call makes at most
    /// `quantum`, so that it ends within `length` calls.
    pub fn of(length: u32, bound: u32, quantum: u32) -> Plan
        requires long { 2 ≤ length }
        requires some { 1 ≤ bound }
        requires soon { bound ≤ quantum * length }
        ensures { result ≡ opening length bound quantum }
    {
        Plan {
            length,
            bound,
            quantum,
            current: length,
            spares: 1,
            pending: Pending::Idle,
            done: 0,
            dry: false,
        }
    }

    /// The plan of a pool for so many processes, 1 to 32, at eight transfer steps a call.
    pub fn open(processes: u32) -> Plan
        requires some { 1 ≤ processes }
        requires few { processes ≤ 32 }
        ensures { result ≡ opening (2 * processes + 2) (16 * processes + 15) 8 }
    {
        Plan::of(2 * processes + 2, 16 * processes + 15, 8)
    }

    /// How many blocks the current list has, 0 to the length of a batch.
    pub fn current(&self) -> u32
        ensures blocks { result ≡ self.now.current }
        ensures within { result ≤ self.now.length }
    {
        self.current
    }

    /// How many spare batches there are.
    pub fn spares(&self) -> u32
        ensures { result ≡ self.now.spares }
    {
        self.spares
    }

    /// What is pending.
    pub fn pending(&self) -> Pending
        ensures { result ≡ self.now.pending }
    {
        self.pending
    }

    /// How many steps of the pending transfer were made; 0 where none is pending.
    pub fn done(&self) -> u32
        ensures steps { result ≡ self.now.done }
        ensures within { result ≤ self.now.bound }
        ensures idle { self.now.pending ≡ Pending.Idle → result ≡ 0 }
    {
        self.done
    }

    /// Whether the last ended take found nothing.
    pub fn dry(&self) -> bool
        ensures { result ≡ self.now.dry }
    {
        self.dry
    }

    /// What is due as a call begins: where nothing is pending, a take with at most one spare, and a give of
    /// the newest one with three.
    pub fn due(&self) -> Pending
        ensures { result ≡ due self.now }
    {
        if self.pending != Pending::Idle {
            Pending::Idle
        } else if self.spares <= Plan::FEW_SPARES {
            Pending::Taking
        } else if self.spares == Plan::MANY_SPARES {
            Pending::Giving
        } else {
            Pending::Idle
        }
    }

    /// Whether a transfer may begin, also outside any call: a take with at most one spare, a give with one at
    /// least.
    pub fn may_begin(&self, wish: Pending) -> bool
        ensures value { result ≡ may_begin wish self.now.spares }
        ensures may { IsTrue result ↔ MayBegin wish self.now.spares }
    {
        match wish {
            Pending::Idle => false,
            Pending::Taking => self.spares <= Plan::FEW_SPARES,
            Pending::Giving => self.spares >= 1,
        }
    }

    /// Begins a transfer outside the rule of [`Plan::before_call`]. The batch of a give leaves the spares.
    pub fn begin(&mut self, wish: Pending)
        requires idle { self.old.pending ≡ Pending.Idle }
        requires may { MayBegin wish self.old.spares }
        ensures { self.new ≡ after_begin wish self.old }
    {
        if wish == Pending::Giving {
            self.spares -= 1;
        }
        self.pending = wish;
        self.done = 0;
    }

    /// Begins the transfer that is due as a call begins, and answers what is pending then.
    ///
    /// Where nothing is pending, few spares begin a take and many begin a give of the newest one.
    pub fn before_call(&mut self) -> Pending
        ensures numbers { self.new ≡ after_choice self.old }
        ensures pending { result ≡ self.new.pending }

        // What is begun, where nothing was pending.
        ensures take { self.old.pending ≡ Pending.Idle
            → ((result ≡ Pending.Taking) ↔ (self.old.spares ≤ few_spares)) }
        ensures give { self.old.pending ≡ Pending.Idle
            → ((result ≡ Pending.Giving) ↔ (self.old.spares ≡ many_spares)) }
    {
        let wish = self.due();
        if wish != Pending::Idle {
            self.begin(wish);
        }
        self.pending
    }

    /// Counts steps of the pending transfer, made in one call.
    pub fn ran(&mut self, steps: u32)
        requires pending { self.old.pending ≢ Pending.Idle }
        requires few { steps ≤ self.old.quantum }
        requires within { self.old.done + steps ≤ self.old.bound }
        ensures { self.new ≡ after_steps steps self.old }
    {
        self.done += steps;
    }

    /// Ends the pending transfer. `found` says whether a batch was moved, which a give always does.
    #[tactic(auto, unfolding(crate::specs::Numbers::one_more))]
    pub fn came(&mut self, found: bool)
        requires pending { self.old.pending ≢ Pending.Idle }
        requires give { self.old.pending ≡ Pending.Giving → IsTrue found }
        ensures { self.new ≡ after_end found self.old }
    {
        if self.pending == Pending::Taking {
            if found {
                // A plan that is used as the schedule says has at most three.
                self.spares = self.spares.saturating_add(1);
            }
            self.dry = !found;
        }
        self.pending = Pending::Idle;
        self.done = 0;
    }

    /// Takes one block for an `allocate`, and answers where it comes from.
    ///
    /// The newest spare becomes the current list where that list is empty. Nothing changes where there is no
    /// spare either.
    pub fn took_one(&mut self) -> Source
        ensures numbers { self.new ≡ after_took_one self.old }
        ensures source { result ≡ source_of self.old }
        ensures nothing { (result ≡ Source.Nothing) ↔ ((self.old.current ≡ 0) × (self.old.spares ≡ 0)) }
    {
        if self.current > 0 {
            self.current -= 1;
            Source::Current
        } else if self.spares > 0 {
            self.spares -= 1;
            self.current = self.length - 1;
            Source::Spare
        } else {
            Source::Nothing
        }
    }

    /// Gives one block back for a `free`, and answers where it goes.
    ///
    /// A full current list becomes the newest spare, and the block begins a fresh list.
    #[tactic(auto, unfolding(crate::specs::Numbers::one_more))]
    pub fn gave_one(&mut self) -> Target
        ensures numbers { self.new ≡ after_gave_one self.old }
        ensures target { result ≡ target_of self.old }
    {
        if self.current < self.length {
            self.current += 1;
            Target::Current
        } else {
            self.spares = self.spares.saturating_add(1);
            self.current = 1;
            Target::Fresh
        }
    }

    /// Shelves the current list for a retire: where that list is full, it becomes the newest spare, and the
    /// current list is empty then.
    #[tactic(auto, unfolding(crate::specs::Numbers::one_more))]
    pub fn shelve(&mut self)
        requires idle { self.old.pending ≡ Pending.Idle }
        requires full { self.old.current ≡ self.old.length }
        ensures { self.new ≡ after_shelved self.old }
    {
        // A plan that is used as the schedule says has no spare then.
        self.spares = self.spares.saturating_add(1);
        self.current = 0;
    }

    /// Makes one whole call: its beginning, its transfer steps, and its own step, which it answers.
    pub fn make_call(&mut self, call: PlannedCall) -> PlannedAnswer
        requires { Fits call self.old }
        ensures numbers { self.new ≡ after_call self.old call }
        ensures answer { result ≡ own_answer call.own (ready_for call self.old) }
    {
        if self.before_call() != Pending::Idle {
            self.ran(call.steps);
            if let Some(found) = call.end {
                self.came(found);
            }
        }
        match call.own {
            OwnStep::Allocate => PlannedAnswer::Took(self.took_one()),
            OwnStep::Free => PlannedAnswer::Gave(self.gave_one()),
        }
    }

    /// The plan of a pool that has made these calls since its opening.
    ///
    /// The clauses are the laws of the schedule. Of any `length` calls in a row one leaves nothing pending. At
    /// every moment the spares are those of the table and few batches are kept. Fewer blocks than a batch less
    /// one are left with nothing pending only by a call whose take found nothing. An `allocate` finds no block
    /// only where the last ended take found nothing.
    pub fn after(length: u32, bound: u32, quantum: u32, calls: &[PlannedCall]) -> Plan
        requires long { 2 ≤ length }
        requires some { 1 ≤ bound }
        requires soon { bound ≤ quantum * length }
        requires fit { FitAll calls.now (opening length bound quantum) }
        ensures numbers { result ≡ after_calls calls.now (opening length bound quantum) }
        ensures transfers_end { EndWithin length calls.now (opening length bound quantum) }
        ensures table { EachMoment InTable result }
        ensures rests { EachMoment (λ y. y.pending ≡ Pending.Idle → kept y ≤ 4 * length) result }
        ensures withholds { EachMoment (λ y. withheld y ≤ 5 * length) result }
        ensures short { result.pending ≡ Pending.Idle → stock result < length - 1
            → EndsEmpty calls.now (opening length bound quantum) }
        ensures nothing { RefusesOnlyDry result }
    {
        let mut plan = Plan::of(length, bound, quantum);
        for call in calls {
            plan.make_call(*call);
        }
        plan
    }
}
