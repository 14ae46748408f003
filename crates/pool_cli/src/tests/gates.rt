// Gates of tests: some count together, and some let two processes meet.
ghost use Rattle.std.specs.Prelude.{◌≡◌, IfOk, length};

use crate::MOST_PROCESSES;
use block_pool::Pass;
use pass_players::{Gate, Told};
use std::alloc::{AllocError, Global};
use std::hint;
use std::sync::atomic::{AtomicBool, AtomicU64, Ordering};

// A gate that counts the calls that it and others are told of.
#[derive(Drop)]
pub(super) struct Counter<'a> {
    count: &'a AtomicU64,
    told: Told,
}

impl Gate for Counter<'_> {
    ghost told = { λ gate. gate.told };

    fn tell(&mut self, pass: &Pass) {
        self.count.fetch_add(1, Ordering::SeqCst);
        self.told.note(pass);
    }
}

// A gate for each process, which count together.
pub(super) fn counters(alloc: Global, count: &AtomicU64) -> Result<Vec<Counter<'_>>, AllocError>
    ensures { IfOk result (λ gates. length gates.items ≡ MOST_PROCESSES) }
{
    let mut gates = Vec::with_capacity(alloc, MOST_PROCESSES)?;
    for _process in 0..MOST_PROCESSES {
        let told = Told::new();
        gates.push(Counter { count, told })?;
    }
    Ok(gates)
}

// Where each of two processes waits before its first call until the other is before its own.
#[derive(Drop)]
pub(super) struct Meeting {
    first: AtomicBool,
    second: AtomicBool,
    missed: AtomicBool,
}

// How often a process looks for the other one at most.
const MOST_LOOKS: u32 = 100_000_000;

impl Meeting {
    // Nobody waits so far.
    pub(super) fn new() -> Meeting {
        Meeting {
            first: AtomicBool::new(false),
            second: AtomicBool::new(false),
            missed: AtomicBool::new(false),
        }
    }

    // Whether the processes met.
    pub(super) fn was_held(&self) -> bool {
        self.first.load(Ordering::SeqCst) && !self.missed.load(Ordering::SeqCst)
    }

    // Waits, as the first process or as the other one.
    fn wait(&self, is_first: bool) {
        let (own, other) = if is_first {
            (&self.first, &self.second)
        } else {
            (&self.second, &self.first)
        };
        own.store(true, Ordering::SeqCst);
        for _look in 0..MOST_LOOKS {
            if other.load(Ordering::SeqCst) {
                return;
            }
            hint::spin_loop();
        }
        self.missed.store(true, Ordering::SeqCst);
    }
}

// A gate that lets its process wait there before its first call.
#[derive(Drop)]
pub(super) struct Waiting<'a> {
    meeting: &'a Meeting,
    is_open: bool,
    told: Told,
}

impl Gate for Waiting<'_> {
    ghost told = { λ gate. gate.told };

    fn tell(&mut self, pass: &Pass) {
        if !self.is_open {
            self.is_open = true;
            self.meeting.wait(pass.number() == 0);
        }
        self.told.note(pass);
    }
}

// Such a gate for each process.
pub(super) fn waiting_gates(
    alloc: Global,
    meeting: &Meeting,
) -> Result<Vec<Waiting<'_>>, AllocError>
    ensures { IfOk result (λ gates. length gates.items ≡ MOST_PROCESSES) }
{
    let mut gates = Vec::with_capacity(alloc, MOST_PROCESSES)?;
    for _process in 0..MOST_PROCESSES {
        gates.push(Waiting {
            meeting,
            is_open: false,
            told: Told::new(),
        })?;
    }
    Ok(gates)
}
