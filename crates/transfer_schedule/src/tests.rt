// Plans of the default shape, through a few hundred calls each.
ghost use Rattle.std.specs.Prelude.{◌≡◌, ◌+◌, ◌*◌, ◌≤◌};

use crate::{OwnStep, Pending, Plan, PlannedAnswer, PlannedCall, Source, Target};
use std::process::Abort;

/// The most transfer steps of a call.
const QUANTUM: u32 = 8;

/// No call of a run is refused.
const NEVER: u32 = u32::MAX;

/// Calls of one kind, and which of their blocks don't come from the current list or go to it.
#[derive(Clone, Copy)]
struct Run {
    own: OwnStep,
    calls: u32,
    /// The steps of each transfer, and whether a take finds a batch.
    steps: u32,
    found: bool,
    /// The first such call, counted from 0, and how many calls there are from one to the next.
    first: u32,
    every: u32,
    /// The first call that is refused.
    refused: u32,
    ghost repeats: { 1 ≤ every },
}

impl Run {
    fn answer(&self, call: u32) -> PlannedAnswer {
        let other = call >= self.first && (call - self.first) % self.every == 0;
        match (self.own, other) {
            (OwnStep::Allocate, _) if call >= self.refused => PlannedAnswer::Took(Source::Nothing),
            (OwnStep::Allocate, true) => PlannedAnswer::Took(Source::Spare),
            (OwnStep::Allocate, false) => PlannedAnswer::Took(Source::Current),
            (OwnStep::Free, true) => PlannedAnswer::Gave(Target::Fresh),
            (OwnStep::Free, false) => PlannedAnswer::Gave(Target::Current),
        }
    }
}

/// Whether the spares are those that the table of the private pool allows.
fn is_in_table(plan: &Plan) -> bool {
    let calls = plan.done().div_ceil(QUANTUM);
    match plan.pending() {
        Pending::Idle => plan.spares() <= 3,
        Pending::Taking => plan.spares() <= 1 || plan.spares() == 2 && plan.current() <= calls,
        Pending::Giving => plan.spares() <= 2 || plan.spares() == 3 && plan.current() <= calls,
    }
}

fn move_on(rt: &impl Abort, case: &str, plan: &mut Plan, run: &Run)
    requires quantum { plan.old.quantum ≡ 8 }
    requires bound { run.now.steps ≤ plan.old.bound }
    ensures quantum { plan.new.quantum ≡ 8 }
    ensures bound { plan.new.bound ≡ plan.old.bound }
{
    if plan.before_call() != Pending::Idle {
        plan.ran(run.steps.saturating_sub(plan.done()).min(QUANTUM));
        assert!(rt; is_in_table(plan), "{case}");
        if plan.done() == run.steps {
            plan.came(run.found || plan.pending() == Pending::Giving);
        }
    }
}

/// Makes the calls of one run, and compares each answer.
fn make_run(rt: &impl Abort, case: &str, plan: &mut Plan, run: &Run)
    requires quantum { plan.old.quantum ≡ 8 }
    requires bound { run.now.steps ≤ plan.old.bound }
    ensures quantum { plan.new.quantum ≡ 8 }
    ensures bound { plan.new.bound ≡ plan.old.bound }
{
    for call in 0..run.calls {
        move_on(rt, case, plan, run);
        let answer = match run.own {
            OwnStep::Allocate => PlannedAnswer::Took(plan.took_one()),
            OwnStep::Free => PlannedAnswer::Gave(plan.gave_one()),
        };
        assert!(rt;
            answer == run.answer(call) && is_in_table(plan),
            "{case}: call {call}"
        );
    }
}

/// Makes the runs one after another, from the opening, so many times.
fn play(rt: &impl Abort, case: &str, processes: u32, times: u32, runs: &[Run])
    requires some { 1 ≤ processes }
    requires few { processes ≤ 32 }
{
    let mut plan = Plan::open(processes);
    for _ in 0..times {
        for run in runs {
            assert!(rt; run.steps <= 16 * processes + 15, "{case}");
            make_run(rt, case, &mut plan, run);
        }
    }
}

fn allocates(calls: u32, steps: u32, found: bool, every: u32, refused: u32) -> Run
    requires { 1 ≤ every }
{
    Run {
        own: OwnStep::Allocate,
        calls,
        steps,
        found,
        first: every,
        every,
        refused,
    }
}

fn frees(calls: u32, steps: u32, first: u32, every: u32) -> Run
    requires { 1 ≤ every }
{
    Run {
        own: OwnStep::Free,
        calls,
        steps,
        found: true,
        first,
        every,
        refused: NEVER,
    }
}

// A current list of a batch's length lasts for so many calls; the opening one is full, with one spare beside.
#[test]
fn answers_follow_the_table_of_spares(rt: HostRuntime) {
    play(
        &rt,
        "a take for each batch",
        1,
        1,
        &[allocates(400, 15, true, 4, NEVER)],
    );
    play(
        &rt,
        "takes of the most steps",
        32,
        1,
        &[allocates(330, 527, true, 66, NEVER)],
    );
    play(
        &rt,
        "an empty stack",
        1,
        1,
        &[allocates(100, 14, false, 4, 8)],
    );
    play(
        &rt,
        "an empty stack of two",
        2,
        1,
        &[allocates(100, 19, false, 6, 12)],
    );
    play(&rt, "a give for each batch", 1, 1, &[frees(400, 14, 0, 4)]);
    play(
        &rt,
        "gives of the most steps",
        32,
        1,
        &[frees(330, 527, 0, 66)],
    );
    let there = allocates(10, 15, true, 4, NEVER);
    let back = frees(10, 14, 2, 4);
    play(&rt, "there and back", 1, 20, &[there, back]);
}

#[test]
fn whole_calls_run(rt: HostRuntime) {
    let mut plan = Plan::open(1);
    let steps = PlannedCall {
        steps: 8,
        end: None,
        own: OwnStep::Allocate,
    };
    assert_eq!(rt; plan.make_call(steps), PlannedAnswer::Took(Source::Current));
    assert_eq!(rt; plan.current(), 3);
    let plan = Plan::after(4, 31, 8, &[]);
    assert_eq!(rt; plan, Plan::open(1));
}

#[test]
fn a_full_list_is_shelved(rt: HostRuntime) {
    let mut plan = Plan::open(1);
    plan.shelve();
    assert_eq!(rt;
        (plan.current(), plan.spares(), plan.pending()),
        (0, 2, Pending::Idle)
    );
    assert_eq!(rt; plan.took_one(), Source::Spare);
    assert_eq!(rt; (plan.current(), plan.spares()), (3, 1));
}

#[test]
fn what_may_begin_at_the_opening(rt: HostRuntime) {
    let plan = Plan::open(1);
    assert_eq!(rt; plan.due(), Pending::Taking);
    let cases = [
        (Pending::Idle, false),
        (Pending::Taking, true),
        (Pending::Giving, true),
    ];
    for (wish, may) in cases {
        assert_eq!(rt; plan.may_begin(wish), may);
    }
}
