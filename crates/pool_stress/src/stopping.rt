// A count of steps that stops its thread at one of them.
ghost use Rattle.std.specs.Prelude.{◌≡◌};

use pool_model::NoMemory;
use std::alloc::Global;
use std::sync::atomic::{AtomicBool, AtomicU64, Ordering};
use std::thread;
use step_counter::Ledger;
use word_layout::Shape;

/// How often a thread that waits looks at most whether it may go on: minutes.
const MOST_LOOKS: u64 = 1_000_000_000;

/// Waits until this holds. Whether it does.
fn wait_for(fact: &AtomicBool) -> bool {
    for _look in 0..MOST_LOOKS {
        if fact.load(Ordering::SeqCst) {
            return true;
        }
        thread::yield_now();
    }
    false
}

/// A call of a pass that gets a block or gives one back.
#[derive(Clone, Copy)]
pub(crate) enum Call {
    Allocate,
    Search,
    Free,
}

impl Call {
    /// How many steps it makes at most in a pool of this shape.
    pub(crate) fn most_steps(self, shape: &Shape) -> u64 {
        match self {
            Call::Allocate | Call::Free => u64::from(shape.quantum()) + 1,
            Call::Search => 2 * u64::from(shape.transfer_bound()) + 1,
        }
    }

    /// How it is called in what is printed.
    pub(crate) fn name(self) -> &'static str {
        match self {
            Call::Allocate => "an allocate",
            Call::Search => "a search",
            Call::Free => "a free",
        }
    }
}

/// Which call a process makes, for others to see.
#[derive(Drop)]
struct Calling {
    searches: AtomicBool,
    frees: AtomicBool,
}

impl Calling {
    /// An allocate.
    fn new() -> Calling {
        Calling {
            searches: AtomicBool::new(false),
            frees: AtomicBool::new(false),
        }
    }

    /// It is this call now.
    fn store(&self, call: Call) {
        self.searches
            .store(matches!(call, Call::Search), Ordering::SeqCst);
        self.frees
            .store(matches!(call, Call::Free), Ordering::SeqCst);
    }

    /// Which one it is.
    fn load(&self) -> Call {
        if self.frees.load(Ordering::SeqCst) {
            Call::Free
        } else if self.searches.load(Ordering::SeqCst) {
            Call::Search
        } else {
            Call::Allocate
        }
    }
}

/// Where in its call a process stopped.
#[derive(Clone, Copy)]
pub(crate) struct Halt {
    /// After which step of the call.
    pub(crate) step: u64,
    /// How many steps the call made.
    pub(crate) steps: u64,
    /// Which call it was.
    pub(crate) call: Call,
}

/// At which of its steps a process stops, and for how long: until the others are done.
#[derive(Drop)]
pub(crate) struct Stop {
    /// The step after which it stops, counted over all its calls from 1.
    at: u64,
    /// How many steps it has made.
    made: AtomicU64,
    /// Its present call. The block of a free has no owner any more.
    present: Calling,
    /// Whether it has stopped before the others were done.
    stopped: AtomicBool,
    /// Whether it has stopped so, or made all its calls.
    halted: AtomicBool,
    /// Which step of its call it stopped after.
    step: AtomicU64,
    /// How many steps that call made.
    steps: AtomicU64,
    /// Which call that was.
    met: Calling,
    /// Whether the others are done.
    done: AtomicBool,
    /// Whether it went on before the others were done, or these waited in vain for it to stop.
    late: AtomicBool,
}

impl Stop {
    /// A process that is to stop at this step.
    fn new(at: u64) -> Stop {
        Stop {
            at,
            made: AtomicU64::new(0),
            present: Calling::new(),
            stopped: AtomicBool::new(false),
            halted: AtomicBool::new(false),
            step: AtomicU64::new(0),
            steps: AtomicU64::new(0),
            met: Calling::new(),
            done: AtomicBool::new(false),
            late: AtomicBool::new(false),
        }
    }

    /// So many processes, of which the first is to stop at this step, and each further one a step later.
    pub(crate) fn several(alloc: Global, count: u32, at: u64) -> Result<Vec<Stop>, NoMemory> {
        let mut stops = Vec::with_capacity(alloc, count as usize)?;
        for place in 0..count {
            stops.push(Stop::new(at.wrapping_add(u64::from(place))))?;
        }
        Ok(stops)
    }

    /// The process begins this call. How many steps it has made so far.
    pub(crate) fn begin(&self, call: Call) -> u64 {
        self.present.store(call);
        self.made.load(Ordering::SeqCst)
    }

    /// The process has ended the call that it began after so many steps. How many it made in that call.
    pub(crate) fn end(&self, before: u64) -> u64 {
        let taken = self.made.load(Ordering::SeqCst).saturating_sub(before);
        let step = self.at.saturating_sub(before);
        if 0 < step && step <= taken {
            self.step.store(step, Ordering::SeqCst);
            self.steps.store(taken, Ordering::SeqCst);
            self.met.store(self.present.load());
        }
        self.present.store(Call::Allocate);
        taken
    }

    /// Whether its present call is a free.
    pub(crate) fn frees(&self) -> bool {
        matches!(self.present.load(), Call::Free)
    }

    /// The process has made all its calls.
    pub(crate) fn leave(&self) {
        self.halted.store(true, Ordering::SeqCst);
    }

    /// Waits until the process has stopped, or has made all its calls.
    pub(crate) fn await_halt(&self) {
        if !wait_for(&self.halted) {
            self.late.store(true, Ordering::SeqCst);
        }
    }

    /// The others are done.
    pub(crate) fn release(&self) {
        self.done.store(true, Ordering::SeqCst);
    }

    /// Where in its call the process stopped, once that has ended; `None` where it didn't stop before the others were done.
    pub(crate) fn halt(&self) -> Option<Halt> {
        if !self.stopped.load(Ordering::SeqCst) {
            return None;
        }
        Some(Halt {
            step: self.step.load(Ordering::SeqCst),
            steps: self.steps.load(Ordering::SeqCst),
            call: self.met.load(),
        })
    }

    /// Whether it went on before the others were done, or these waited in vain for it to stop.
    pub(crate) fn was_late(&self) -> bool {
        self.late.load(Ordering::SeqCst)
    }

    /// Counts a step, and stops at the one until the others are done.
    fn step(&self) {
        let before = self.made.fetch_add(1, Ordering::SeqCst);
        if before.wrapping_add(1) == self.at && !self.done.load(Ordering::SeqCst) {
            self.stopped.store(true, Ordering::SeqCst);
            self.halted.store(true, Ordering::SeqCst);
            if !wait_for(&self.done) {
                self.late.store(true, Ordering::SeqCst);
            }
        }
    }
}

/// A ledger of one call of a process that stops.
#[derive(Drop)]
pub(crate) struct Stopping<'a> {
    number: u64,
    stop: &'a Stop,
}

impl<'a> Stopping<'a> {
    /// A ledger that stands at 0.
    pub(crate) fn new(stop: &'a Stop) -> Stopping<'a>
        ensures { result.number ≡ 0 }
    {
        Stopping { number: 0, stop }
    }
}

impl<'a> Ledger for Stopping<'a> {
    ghost count = { λ ledger. ledger.number };

    fn tick(&mut self) {
        self.number += 1;
        self.stop.step();
    }
}
