//! `pooltrace` once more, run on a word that isn't UTF-8: `main` then ends as for faulty words.
#![tactic(auto)]

use pool_cli::{open_gates, run};
use pool_io::{RealFiles, StdSink, words};
use std::env;
use std::process::ExitCode;

/// The status where the system doesn't give the program its words, or memory is wanting before it has them.
const NO_WORDS: u8 = 9;

fn main(rt: HostRuntime) -> ExitCode {
    let Ok(mut gates) = open_gates(rt.alloc()) else {
        return ExitCode::from(NO_WORDS);
    };
    let Ok(words) = words(rt.alloc(), env::args(&rt)) else {
        return ExitCode::from(NO_WORDS);
    };
    let mut files = RealFiles::new(&rt);
    let mut out = StdSink::out(rt.stdout());
    let mut err = StdSink::err(rt.stderr());
    let ended = run(
        &rt,
        rt.alloc(),
        words.as_slice(),
        &mut files,
        &mut out,
        &mut err,
        &mut gates,
    );
    ExitCode::from(ended.status)
}
