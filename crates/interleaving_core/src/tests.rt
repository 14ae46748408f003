// By subject; the helpers here serve several.
mod calls;
mod ignored;
mod moves;
mod random_events;
mod searches;
mod steps;

use crate::{Call, CoreRun, Event, Happened};
use std::process::Abort;

/// The word at a place.
fn word(rt: &impl Abort, run: &CoreRun, place: u32) -> u64 {
    assert!(rt; place < run.shape().table_words());
    run.word(place)
}

/// Which process holds a block, if any.
fn holder(rt: &impl Abort, run: &CoreRun, block: u32) -> Option<u32> {
    assert!(rt; block < run.shape().blocks());
    run.holder(block)
}

/// One step of a call of a process.
fn event(rt: &impl Abort, run: &mut CoreRun, by: u32, call: Call) -> Happened {
    assert!(rt;
        by >= run.shape().processes() || run.view(by).transfer.age < run.shape().most_age()
    );
    run.event(&Event { by, call })
}

/// All steps of a call of a process: what happened in the last, and how many they are.
fn whole_call(rt: &impl Abort, run: &mut CoreRun, by: u32, call: Call) -> (Happened, u32) {
    for steps in 1..=17 {
        let happened = event(rt, run, by, call);
        if !matches!(happened, Happened::Step(_)) {
            return (happened, steps);
        }
    }
    panic!(rt; "{by} {call:?} doesn't end")
}

/// The numbers of a generator of its own.
fn next_number(seed: &mut u32) -> u32 {
    *seed = seed.wrapping_mul(1664525).wrapping_add(1013904223);
    *seed >> 16
}
