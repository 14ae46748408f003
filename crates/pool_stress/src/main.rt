//! Puts a pool under stress: `pool_stress PROCESSES BATCHES QUANTUM CALLS SEED STOPPING STOP [LIE]`.
//!
//! Each process, on a thread of its own, allocates, searches and frees at random. Each block that it gets is looked up in a table of
//! owners, and the steps of each call are counted. The threads of the first STOPPING processes stop, that of process 0 after
//! STOP of its steps and that of each further one a step later, until the others have made their calls and have all blocks
//! that they can get. In the end all blocks are allocated.
//!
//! It prints how often something was seen that mustn't be, and ends with 1 where that is so; with 2 for faulty words, and
//! with 8 for want of memory. How many calls were refused, how many searched and where the threads stopped stands on standard error, since
//! it depends on the schedule.
//!
//! With a LIE one answer is misheard, which must be seen: `twice`, a block is got twice; `foreign`, it is none of the pool;
//! `lost`, nobody has it; `long`, its call took a step too many.
#![tactic(auto)]

mod owners;
mod places;
mod settings;
mod stopping;
mod stress;
mod turns;

use crate::settings::Settings;
use crate::stopping::{Halt, Stop};
use crate::stress::{Report, stress};
use pool_io::words;
use pool_model::NoMemory;
use std::process::ExitCode;
use std::{env, io};

/// The status where something was seen that mustn't be.
const FAULT: u8 = 1;

/// The status of faulty words.
const FAULTY_WORDS: u8 = 2;

/// The status for want of memory.
const NO_MEMORY: u8 = 8;

/// Prints what was seen, and where processes stopped.
fn tell(rt: &(impl Print + Eprint), report: &Report, stops: &[Stop]) -> io::Result<()> {
    println!(rt;
        "wrong {} long {} lost {} miscounted {} late {}",
        report.wrong, report.long, report.lost, report.miscounted, report.late
    )?;
    eprintln!(rt; "refused {} searched {}", report.refused, report.searched)?;
    for stop in stops.iter() {
        if let Some(halt) = stop.halt() {
            tell_halt(rt, &halt)?;
        }
    }
    Ok(())
}

/// Prints where a process stopped.
fn tell_halt(rt: &impl Eprint, halt: &Halt) -> io::Result<()> {
    eprintln!(rt;
        "stopped after step {} of {} of {}",
        halt.step,
        halt.steps,
        halt.call.name()
    )
}

fn main(rt: HostRuntime) -> io::Result<ExitCode> {
    let Ok(words) = words(rt.alloc(), env::args(&rt)) else {
        return Ok(ExitCode::from(FAULTY_WORDS));
    };
    let Some(settings) = Settings::of_words(words.as_slice()) else {
        return Ok(ExitCode::from(FAULTY_WORDS));
    };
    let Ok(stops) = Stop::several(rt.alloc(), settings.stopping, settings.stop) else {
        return Ok(ExitCode::from(NO_MEMORY));
    };
    let Ok(report) = stress(&rt, rt.alloc(), &settings, &stops) else {
        return Ok(ExitCode::from(NO_MEMORY));
    };
    tell(&rt, &report, &stops)?;
    Ok(if report.is_clean() {
        ExitCode::SUCCESS
    } else {
        ExitCode::from(FAULT)
    })
}
