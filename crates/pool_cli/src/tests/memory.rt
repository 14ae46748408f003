// Runs with ample memory, and runs in which each allocation fails (`checks/allocations`): no want of memory hides what a run is to answer,
// and none comes after a call of the pool.
use super::{answer, report};
use std::alloc::{AllocError, Global};
use std::test::Fail;

#[test]
fn three_store_scripts(rt: HostRuntime) -> Result<(), Fail> {
    let script = b"put 1 2 3 4 5\nget 1\ndel 1\nput 2 6 7 8 9\n";
    let text =
        "1: ok\n1: 1 2 3 4 5\n1: ok\n1: ok\n2: ok\n2: 1 2 3 4 5\n2: ok\n2: ok\n3: ok\n3: 1 2 3 4 5\n3: ok\n3: ok\n";
    let (outcome, _) = answer(
        &rt,
        rt.alloc(),
        "pooltrace store f f f",
        &[("f", script.as_slice())],
    )?;
    assert!(rt; outcome.status != 8 || outcome.told == 0);
    assert_eq!(rt; outcome.parts(), (0, text, ""));
    assert_eq!(rt; outcome.told, 9);
    Ok(())
}

#[test]
fn a_drill_of_three_processes(rt: HostRuntime) -> Result<(), Fail> {
    let text = report(
        rt.alloc(),
        &[
            "48 42 5 0 0 0 0 9 6 0",
            "46 42 6 0 0 0 0 7 4 0",
            "48 44 4 0 0 0 0 8 4 0",
        ],
        "142 128 15 0 0 0 0 24 14 0",
    )?;
    let line = "pooltrace drill --seed 1 --processes 3 --calls 100";
    let (outcome, _) = answer(&rt, rt.alloc(), line, &[])?;
    assert!(rt; outcome.status != 8 || outcome.told == 0);
    assert_eq!(rt; outcome.parts(), (0, text.as_str(), ""));
    assert_eq!(rt; outcome.told, 270);
    Ok(())
}

// A run on so many files of the same bytes, what is printed of each after its number, and what of all, and how many calls get or free a
// block.
struct Ample {
    command: &'static str,
    files: u64,
    bytes: &'static [u8],
    lines: &'static [&'static str],
    all: &'static str,
    calls: u64,
}

const ONE_NEW: &[u8] = b"+ 0x10 0x8\n< 0x10\n> 0x20 0x10\n";

const ONE_KEY: &[u8] = b"put 7 1 2 3 4\nget 7\n";

static AMPLE_RUNS: [Ample; 8] = [
    Ample {
        command: "play",
        files: 1,
        bytes: ONE_NEW,
        lines: &["news 2 frees 1 big 0 failed 0 stray 0 twice 0 refused 0 peak 1 left 1 cut 0"],
        all: "all: news 2 frees 1 big 0 failed 0 stray 0 twice 0 refused 0 peak 1 left 1 cut 0\n",
        calls: 3,
    },
    Ample {
        command: "play",
        files: 32,
        bytes: ONE_NEW,
        lines: &["news 2 frees 1 big 0 failed 0 stray 0 twice 0 refused 0 peak 1 left 1 cut 0"],
        all: "all: news 64 frees 32 big 0 failed 0 stray 0 twice 0 refused 0 peak 32 left 32 cut 0\n",
        calls: 96,
    },
    Ample {
        command: "play",
        files: 1,
        bytes: b"",
        lines: &["news 0 frees 0 big 0 failed 0 stray 0 twice 0 refused 0 peak 0 left 0 cut 0"],
        all: "all: news 0 frees 0 big 0 failed 0 stray 0 twice 0 refused 0 peak 0 left 0 cut 0\n",
        calls: 0,
    },
    Ample {
        command: "play",
        files: 32,
        bytes: b"",
        lines: &["news 0 frees 0 big 0 failed 0 stray 0 twice 0 refused 0 peak 0 left 0 cut 0"],
        all: "all: news 0 frees 0 big 0 failed 0 stray 0 twice 0 refused 0 peak 0 left 0 cut 0\n",
        calls: 0,
    },
    Ample {
        command: "store",
        files: 1,
        bytes: ONE_KEY,
        lines: &["ok", "7 1 2 3 4"],
        all: "",
        calls: 1,
    },
    Ample {
        command: "store",
        files: 32,
        bytes: ONE_KEY,
        lines: &["ok", "7 1 2 3 4"],
        all: "",
        calls: 32,
    },
    Ample {
        command: "store",
        files: 1,
        bytes: b"",
        lines: &[],
        all: "",
        calls: 0,
    },
    Ample {
        command: "store",
        files: 32,
        bytes: b"",
        lines: &[],
        all: "",
        calls: 0,
    },
];

// The words of a run at this quantum. 200 batches have more blocks than 32 processes may withhold and hold.
fn words_at(alloc: Global, run: &Ample, quantum: u32) -> Result<String, AllocError> {
    let command = run.command;
    let mut line = format!(in alloc; "pooltrace {command} --batches 200 --quantum {quantum}")?;
    for _file in 0..run.files {
        line.push_str(" f")?;
    }
    Ok(line)
}

// What it is to print.
fn printed(alloc: Global, run: &Ample) -> Result<String, AllocError> {
    let mut text = String::new(alloc);
    for number in 1..=run.files {
        for line in run.lines {
            text.push_str(format!(in alloc; "{number}: {line}\n")?.as_str())?;
        }
    }
    text.push_str(run.all)?;
    Ok(text)
}

#[test]
fn one_file_and_32_at_each_quantum(rt: HostRuntime) -> Result<(), Fail> {
    let alloc = rt.alloc();
    for run in AMPLE_RUNS.iter() {
        let text = printed(alloc, run)?;
        for quantum in [1, 2, 4, 8, 16] {
            let line = words_at(alloc, run, quantum)?;
            let (outcome, opens) = answer(&rt, alloc, line.as_str(), &[("f", run.bytes)])?;
            assert_eq!(rt; outcome.parts(), (0, text.as_str(), ""), "{line}");
            assert_eq!(rt; (outcome.told, opens), (run.calls, run.files), "{line}");
        }
    }
    Ok(())
}
