// Runs of the program's top call.
ghost use Rattle.std.specs.Prelude.{◌≡◌, ◌^◌, ◌<◌, ◌≤◌, IfOk, length};

use crate::{MOST_PROCESSES, open_gates, run};
use pass_players::Gate;
use pool_io::{MemoryFiles, MemorySink};
use pool_model::NoMemory;
use std::alloc::{AllocError, Global};
use std::str;
use std::sync::atomic::{AtomicU64, Ordering};
use std::test::Fail;
use std::thread::Threads;

mod gates;
mod memory;

use gates::{Meeting, counters, waiting_gates};

const AMPLE: usize = 4096;

const NEVER: u64 = u64::MAX;

const EMPTY_TRACE: &[u8] = b"= End\n";

const RESIZE: &[u8] = b"+ 0x10 0x8\n< 0x10\n> 0x20 0x10\n";

const GET: &[u8] = b"get 1\n";

const FIRST_TRACE: &[u8] =
    b"= Start\n@ ./a.out:[0x401136] + 0x4052a0 0x20\n@ ./a.out:[0x401146] - 0x4052a0\n= End\n";

const FIRST_REPORT: &str =
    "1: news 1 frees 1 big 0 failed 0 stray 0 twice 0 refused 0 peak 1 left 0 cut 0\nall: news 1 frees 1 big 0 failed 0 stray 0 twice 0 refused 0 peak 1 left 0 cut 0\n";

const ZEROS: &str = "0 0 0 0 0 0 0 0 0 0";

const FIRST_ZEROS: &str =
    "1: news 0 frees 0 big 0 failed 0 stray 0 twice 0 refused 0 peak 0 left 0 cut 0\n";

const COLUMNS: [&str; 10] = [
    "news", "frees", "big", "failed", "stray", "twice", "refused", "peak", "left", "cut",
];

// What a run answered, and its sinks after it.
#[derive(Debug, Drop)]
struct Outcome {
    status: u8,
    settled: bool,
    told: u64,
    out: MemorySink,
    err: MemorySink,
}

impl Outcome {
    // The status, and what the output and the error sink took.
    fn parts(&self) -> (u8, &str, &str) {
        (self.status, text_of(&self.out), text_of(&self.err))
    }
}

// What a sink took.
fn text_of(sink: &MemorySink) -> &str {
    str::from_utf8(sink.bytes.as_slice()).unwrap_or("no text")
}

// A file with this name and these bytes.
fn file_of(alloc: Global, name: &str, bytes: &[u8]) -> Result<(String, Vec<u8>), AllocError> {
    Ok((String::from_str(alloc, name)?, bytes.to_vec(alloc)?))
}

// Files with these names and bytes.
fn owned(alloc: Global, files: &[(&str, &[u8])]) -> Result<Vec<(String, Vec<u8>)>, AllocError> {
    let mut owned = Vec::new(alloc);
    for (name, bytes) in files {
        owned.push(file_of(alloc, name, bytes)?)?;
    }
    Ok(owned)
}

// Files of which one call fails.
fn failing_files(
    alloc: Global,
    files: &[(&str, &[u8])],
    most: usize,
    failing: u64,
) -> Result<MemoryFiles, AllocError>
    ensures { IfOk result (λ files. files.opens ≡ 0) }
{
    let failing = vec![in alloc; failing]?;
    Ok(MemoryFiles::new(owned(alloc, files)?, failing, most))
}

// Files of which none fails and each is read at once.
fn files_of(alloc: Global, files: &[(&str, &[u8])]) -> Result<MemoryFiles, AllocError>
    ensures { IfOk result (λ files. files.opens ≡ 0) }
{
    failing_files(alloc, files, usize::MAX, NEVER)
}

// A sink of which one write fails.
fn failing_sink(
    alloc: Global,
    room: usize,
    most: usize,
    failing: u64,
) -> Result<MemorySink, NoMemory> {
    MemorySink::new(alloc, room, vec![in alloc; failing]?, most)
}

// The words of a line, which are parted by single spaces.
fn words_of(alloc: Global, line: &str) -> Result<Vec<String>, AllocError> {
    let mut words = Vec::new(alloc);
    for word in line.split(' ') {
        words.push(String::from_str(alloc, word)?)?;
    }
    Ok(words)
}

// Runs the words of a line with these sinks.
fn run_with<R: Threads + Sync, G: Gate + Send>(
    rt: &R,
    alloc: Global,
    line: &str,
    files: &mut MemoryFiles,
    mut out: MemorySink,
    mut err: MemorySink,
    gates: &mut Vec<G>,
) -> Result<Outcome, Fail>
    requires opens { files.old.opens < 2 ^ 63 }
    requires gates { MOST_PROCESSES ≤ length gates.old.items }
{
    let words = words_of(alloc, line)?;
    let ended = run(
        rt,
        alloc,
        words.as_slice(),
        files,
        &mut out,
        &mut err,
        gates,
    );
    Ok(Outcome {
        status: ended.status,
        settled: ended.settled.is_some(),
        told: 0,
        out,
        err,
    })
}

// Runs the words of a line with sinks that take all.
fn run_line<R: Threads + Sync>(
    rt: &R,
    alloc: Global,
    line: &str,
    files: &mut MemoryFiles,
) -> Result<Outcome, Fail>
    requires { files.old.opens < 2 ^ 63 }
{
    let out = failing_sink(alloc, AMPLE, AMPLE, NEVER)?;
    let err = failing_sink(alloc, AMPLE, AMPLE, NEVER)?;
    let count = AtomicU64::new(0);
    let mut gates = counters(alloc, &count)?;
    let outcome = run_with(rt, alloc, line, files, out, err, &mut gates)?;
    let told = count.load(Ordering::SeqCst);
    Ok(Outcome { told, ..outcome })
}

// The line of a report with these numbers, which are parted by spaces.
fn report_line(alloc: Global, label: &str, numbers: &str) -> Result<String, AllocError> {
    let mut line = format!(in alloc; "{label}:")?;
    for (column, number) in COLUMNS.iter().zip(numbers.split(' ')) {
        line.push_str(format!(in alloc; " {column} {number}")?.as_str())?;
    }
    line.push_str("\n")?;
    Ok(line)
}

// The report of files with these numbers, and with these sums.
fn report(alloc: Global, files: &[&str], sums: &str) -> Result<String, AllocError> {
    let mut text = String::new(alloc);
    for (index, numbers) in files.iter().enumerate() {
        let label = format!(in alloc; "{}", index as u64 + 1)?;
        text.push_str(report_line(alloc, label.as_str(), numbers)?.as_str())?;
    }
    text.push_str(report_line(alloc, "all", sums)?.as_str())?;
    Ok(text)
}

// A trace of so many allocations at 0x10, 0x20 and so on, and of these lines.
fn trace_of(alloc: Global, allocations: u64, lines: &[u8]) -> Result<Vec<u8>, AllocError> {
    let mut trace = Vec::new(alloc);
    for number in 1..=allocations {
        let line = format!(in alloc; "+ 0x{number:x}0 0x8\n")?;
        trace.extend_from_slice(line.as_bytes())?;
    }
    trace.extend_from_slice(lines)?;
    Ok(trace)
}

// The answer of a run on these words with files of which none fails, and how many were opened.
fn answer<R: Threads + Sync>(
    rt: &R,
    alloc: Global,
    line: &str,
    files: &[(&str, &[u8])],
) -> Result<(Outcome, u64), Fail> {
    let mut files = files_of(alloc, files)?;
    let outcome = run_line(rt, alloc, line, &mut files)?;
    Ok((outcome, files.opens))
}

#[test]
fn first_report(rt: HostRuntime) -> Result<(), Fail> {
    let (outcome, _) = answer(&rt, rt.alloc(), "pooltrace play f", &[("f", FIRST_TRACE)])?;
    // Want of memory comes before the first call of the pool: `checks/allocations` lets each allocation fail.
    assert!(rt; outcome.status != 8 || outcome.told == 0);
    assert_eq!(rt; outcome.parts(), (0, FIRST_REPORT, ""));
    assert_eq!(rt; outcome.told, 2);
    Ok(())
}

// A run on a file of so many allocations and of these lines, and the numbers of its line in the report.
struct Reported {
    name: &'static str,
    line: &'static str,
    allocations: u64,
    lines: &'static [u8],
    numbers: &'static str,
}

static REPORTED: [Reported; 13] = [
    Reported {
        name: "empty file",
        line: "pooltrace play f",
        allocations: 0,
        lines: b"",
        numbers: ZEROS,
    },
    Reported {
        name: "last piece that is skipped",
        line: "pooltrace play f",
        allocations: 1,
        lines: b"= En",
        numbers: "1 0 0 0 0 0 0 1 1 0",
    },
    Reported {
        name: "last piece that is cut",
        line: "pooltrace play f",
        allocations: 1,
        lines: b"En",
        numbers: "1 0 0 0 0 0 0 1 1 1",
    },
    Reported {
        name: "killed program",
        line: "pooltrace play f",
        allocations: 0,
        lines: b"= Start\n@ a.out:[0x401136] + 0x10 0x8\n@ a.out:[0x40",
        numbers: "1 0 0 0 0 0 0 1 1 1",
    },
    Reported {
        name: "resize",
        line: "pooltrace play f",
        allocations: 0,
        lines: RESIZE,
        numbers: "2 1 0 0 0 0 0 1 1 0",
    },
    Reported {
        name: "failures",
        line: "pooltrace play f",
        allocations: 0,
        lines: b"+ (nil) 0x40\n! 0x10 0x80\n",
        numbers: "0 0 0 2 0 0 0 0 0 0",
    },
    Reported {
        name: "boundary of the size",
        line: "pooltrace play f",
        allocations: 0,
        lines: b"+ 0x10 0\n+ 0x20 0x40\n+ 0x30 0x41\n- 0x30\n",
        numbers: "2 0 1 0 0 0 0 2 2 0",
    },
    Reported {
        name: "stray and twice",
        line: "pooltrace play f",
        allocations: 0,
        lines: b"- 0x99\n+ 0x10 0x8\n+ 0x10 0x8\n",
        numbers: "1 0 0 0 1 1 0 1 1 0",
    },
    Reported {
        name: "a caller's text of signs",
        line: "pooltrace play f",
        allocations: 0,
        lines: b"@ + - 0x10\n+ 0x10 0x8\n",
        numbers: "1 0 0 0 1 0 0 1 1 0",
    },
    Reported {
        name: "a caller's text that is no UTF-8",
        line: "pooltrace play f",
        allocations: 0,
        lines: b"@\xff + 0x10 0x8\n",
        numbers: "1 0 0 0 0 0 0 1 1 0",
    },
    Reported {
        name: "one refused of forty-one",
        line: "pooltrace play --batches 10 f",
        allocations: 41,
        lines: b"",
        numbers: "41 0 0 0 0 0 1 40 40 0",
    },
    Reported {
        name: "refused and released",
        line: "pooltrace play --batches 2 f",
        allocations: 9,
        lines: b"- 0x90\n- 0x10\n+ 0xa0 0x8\n",
        numbers: "10 1 0 0 0 0 1 8 8 0",
    },
    Reported {
        name: "one refused of sixty-three",
        line: "pooltrace play --batches 2 --quantum 1 f",
        allocations: 63,
        lines: b"",
        numbers: "63 0 0 0 0 0 1 62 62 0",
    },
];

#[test]
fn reports_of_one_file(rt: HostRuntime) -> Result<(), Fail> {
    let alloc = rt.alloc();
    for case in REPORTED.iter() {
        let trace = trace_of(alloc, case.allocations, case.lines)?;
        let (outcome, _) = answer(&rt, rt.alloc(), case.line, &[("f", trace.as_slice())])?;
        let text = report(alloc, &[case.numbers], case.numbers)?;
        assert_eq!(rt; outcome.parts(), (0, text.as_str(), ""), "{}", case.name);
    }
    Ok(())
}

#[test]
fn report_of_two_files(rt: HostRuntime) -> Result<(), Fail> {
    let text = report(
        rt.alloc(),
        &["2 1 0 0 0 0 0 1 1 0", "2 1 0 0 0 0 0 1 1 0"],
        "4 2 0 0 0 0 0 2 2 0",
    )?;
    for line in ["pooltrace play f g", "pooltrace play f f"] {
        let (outcome, opens) = answer(&rt, rt.alloc(), line, &[("f", RESIZE), ("g", RESIZE)])?;
        assert_eq!(rt; outcome.parts(), (0, text.as_str(), ""), "{line}");
        assert_eq!(rt; opens, 2, "{line}");
    }
    Ok(())
}

// Words, and how many writes the output and the error sink then get.
static WRITES: [(&str, u64, u64); 4] = [
    ("pooltrace play f", 2, 0),
    ("pooltrace play f f f", 4, 0),
    ("pooltrace play g", 0, 1),
    ("pooltrace", 0, 1),
];

#[test]
fn each_line_is_one_write(rt: HostRuntime) -> Result<(), Fail> {
    for (line, outs, errs) in WRITES.iter() {
        let (outcome, _) = answer(
            &rt,
            rt.alloc(),
            line,
            &[("f", FIRST_TRACE), ("g", b"bad\n")],
        )?;
        assert_eq!(rt;
            (outcome.out.calls, outcome.err.calls),
            (*outs, *errs),
            "{line}"
        );
    }
    Ok(())
}

// Words that open no file, the status, and the line on the error sink.
static REFUSED: [(&str, u8, &str); 15] = [
    ("pooltrace", 2, "pooltrace: words\n"),
    ("pooltrace plays f", 2, "pooltrace: words\n"),
    ("pooltrace play", 2, "pooltrace: words\n"),
    ("pooltrace play --batches x f", 2, "pooltrace: words\n"),
    (
        "pooltrace play --size 1 --size 2 f",
        2,
        "pooltrace: words\n",
    ),
    (
        "pooltrace play f f f f f f f f f f f f f f f f f f f f f f f f f f f f f f f f f",
        3,
        "pooltrace: shape 2\n",
    ),
    ("pooltrace play --batches 0 f", 3, "pooltrace: shape 3\n"),
    ("pooltrace play --batches 1 f", 3, "pooltrace: shape 3\n"),
    (
        "pooltrace play --quantum 3 --batches 1 f",
        3,
        "pooltrace: shape 3\n",
    ),
    ("pooltrace play --quantum 3 f", 3, "pooltrace: shape 6\n"),
    ("pooltrace store", 2, "pooltrace: words\n"),
    ("pooltrace store --batches 1 f", 3, "pooltrace: shape 3\n"),
    ("pooltrace drill f", 2, "pooltrace: words\n"),
    ("pooltrace drill --calls 131073", 2, "pooltrace: words\n"),
    ("pooltrace drill --processes 0", 3, "pooltrace: shape 1\n"),
];

#[test]
fn faulty_words_and_refused_shapes_open_no_file(rt: HostRuntime) -> Result<(), Fail> {
    for (line, status, err) in REFUSED.iter() {
        let (outcome, opens) = answer(&rt, rt.alloc(), line, &[("f", FIRST_TRACE)])?;
        assert_eq!(rt; outcome.parts(), (*status, "", *err), "{line}");
        assert_eq!(rt; (opens, outcome.settled), (0, false), "{line}");
    }
    Ok(())
}

#[test]
fn small_drills(rt: HostRuntime) -> Result<(), Fail> {
    let alloc = rt.alloc();
    let zeros = report(alloc, &[ZEROS], ZEROS)?;
    for (calls, text) in [("2", FIRST_REPORT), ("0", zeros.as_str())] {
        let line = format!(in alloc; "pooltrace drill --seed 1 --processes 1 --calls {calls}")?;
        let (outcome, opens) = answer(&rt, alloc, line.as_str(), &[])?;
        assert_eq!(rt; outcome.parts(), (0, text, ""), "{line}");
        assert_eq!(rt; (opens, outcome.settled), (0, true), "{line}");
    }
    Ok(())
}

#[test]
fn large_drill(rt: HostRuntime) -> Result<(), Fail> {
    let line = "pooltrace drill --seed 1 --processes 4 --calls 100000";
    let text = report(
        rt.alloc(),
        &[
            "45125 45014 4935 0 0 0 0 243 111 0",
            "45132 45129 4870 0 0 0 0 235 3 0",
            "45156 45017 4922 0 0 0 0 242 139 0",
            "45214 45042 4883 0 0 0 0 241 172 0",
        ],
        "180627 180202 19610 0 0 0 0 961 425 0",
    )?;
    let (outcome, _) = answer(&rt, rt.alloc(), line, &[])?;
    assert_eq!(rt; outcome.parts(), (0, text.as_str(), ""));
    Ok(())
}

// Words of a store, the bytes of its file, and what is printed.
static STORED: [(&str, &[u8], &str); 5] = [
    (
        "pooltrace store f",
        b"put 7 1 2 3 4\nget 7\nset 7 2 99\nget 7\nput 7 0 0 0 0\ndel 7\nget 7\n",
        "1: ok\n1: 7 1 2 3 4\n1: ok\n1: 7 1 2 99 4\n1: there\n1: ok\n1: none\n",
    ),
    (
        "pooltrace store --batches 2 f",
        b"put 1 0 0 0 0\nput 2 0 0 0 0\nput 3 0 0 0 0\nput 4 0 0 0 0\nput 5 0 0 0 0\nput 6 0 0 0 0\nput 7 0 0 0 0\nput 8 0 0 0 0\nput 9 0 0 0 0\nget 9\n",
        "1: ok\n1: ok\n1: ok\n1: ok\n1: ok\n1: ok\n1: ok\n1: ok\n1: full\n1: none\n",
    ),
    (
        "pooltrace store f",
        b"get 00000000000000000007\n",
        "1: none\n",
    ),
    ("pooltrace store f", b"", ""),
    (
        "pooltrace store f f",
        b"put 18446744073709551615 1 2 3 4\nget 18446744073709551615",
        "1: ok\n1: 18446744073709551615 1 2 3 4\n2: ok\n2: 18446744073709551615 1 2 3 4\n",
    ),
];

#[test]
fn replies_of_stores(rt: HostRuntime) -> Result<(), Fail> {
    for (line, script, replies) in STORED.iter() {
        let (outcome, _) = answer(&rt, rt.alloc(), line, &[("f", script)])?;
        assert_eq!(rt; outcome.parts(), (0, *replies, ""), "{line}: {script:?}");
    }
    Ok(())
}

// Runs the words of a line on two files of the same bytes, whose processes meet before their first calls. Whether they
// met, and the status.
fn meet<R: Threads + Sync>(
    rt: &R,
    alloc: Global,
    line: &str,
    bytes: &[u8],
) -> Result<(bool, u8), Fail> {
    let mut files = files_of(alloc, &[("f", bytes), ("g", bytes)])?;
    let out = failing_sink(alloc, AMPLE, AMPLE, NEVER)?;
    let err = failing_sink(alloc, AMPLE, AMPLE, NEVER)?;
    let meeting = Meeting::new();
    let mut gates = waiting_gates(alloc, &meeting)?;
    let outcome = run_with(rt, alloc, line, &mut files, out, err, &mut gates)?;
    Ok((meeting.was_held(), outcome.status))
}

#[test]
fn two_players_meet_before_their_first_calls(rt: HostRuntime) -> Result<(), Fail> {
    let cases: [(&str, &[u8]); 2] = [
        ("pooltrace play f g", RESIZE),
        ("pooltrace store f g", b"put 1 0 0 0 0\n"),
    ];
    for (line, bytes) in &cases {
        let met = meet(&rt, rt.alloc(), line, bytes)?;
        assert_eq!(rt; met, (true, 0), "{line}");
    }
    Ok(())
}

// Words of one file, its bytes, and the number of the first bad line.
static BAD_LINES: [(&str, &[u8], u64); 13] = [
    ("pooltrace play f", b"= Start\n+ 0x 0x8\n", 2),
    ("pooltrace play f", b"a + 0x10 0x8\n", 1),
    ("pooltrace play f", b"+ 0X10 0x8\n", 1),
    ("pooltrace play f", b"+ 0x10 8\n", 1),
    ("pooltrace play f", b"+ 0x11111111111111111 0x8\n", 1),
    ("pooltrace play f", b"@ - 0x10 0x8\n", 1),
    ("pooltrace play f", b"\xff\n", 1),
    ("pooltrace play f", b"+ 0x10 0x8\r\n", 1),
    ("pooltrace store f", b"set 7 4 1\n", 1),
    ("pooltrace store f", b"get 000000000000000000007\n", 1),
    ("pooltrace store f", b"get 18446744073709551616\n", 1),
    ("pooltrace store f", b"get 7\n= Start\n", 2),
    ("pooltrace store f", b"get 7\nget", 2),
];

#[test]
fn bad_lines(rt: HostRuntime) -> Result<(), Fail> {
    for (words, bytes, line) in BAD_LINES.iter() {
        let (outcome, _) = answer(&rt, rt.alloc(), words, &[("f", bytes)])?;
        let err = format!(in rt.alloc(); "pooltrace: file 1 line {line}\n")?;
        assert_eq!(rt;
            outcome.parts(),
            (6, "", err.as_str()),
            "{words}: {bytes:?}"
        );
    }
    Ok(())
}

// Words, the call of the files that fails, the status, the line on the error sink, and how many calls there were.
static FAILING_CALLS: [(&str, u64, u8, &str, u64); 21] = [
    ("pooltrace play e", 0, 4, "pooltrace: file 1 read\n", 1),
    ("pooltrace play e", 1, 4, "pooltrace: file 1 read\n", 2),
    ("pooltrace play e", 2, 4, "pooltrace: file 1 read\n", 3),
    ("pooltrace play e", 3, 4, "pooltrace: file 1 read\n", 4),
    ("pooltrace play e", 4, 4, "pooltrace: file 1 read\n", 5),
    ("pooltrace play e", 5, 4, "pooltrace: file 1 read\n", 6),
    ("pooltrace play e", 6, 4, "pooltrace: file 1 read\n", 7),
    ("pooltrace play e", 7, 4, "pooltrace: file 1 read\n", 8),
    ("pooltrace play e", 8, 0, "", 8),
    ("pooltrace play e e2", 8, 4, "pooltrace: file 2 read\n", 9),
    ("pooltrace play f", 3, 4, "pooltrace: file 1 read\n", 4),
    ("pooltrace store s", 0, 4, "pooltrace: file 1 read\n", 1),
    ("pooltrace store s", 1, 4, "pooltrace: file 1 read\n", 2),
    ("pooltrace store s", 2, 4, "pooltrace: file 1 read\n", 3),
    ("pooltrace store s", 3, 4, "pooltrace: file 1 read\n", 4),
    ("pooltrace store s", 4, 4, "pooltrace: file 1 read\n", 5),
    ("pooltrace store s", 5, 4, "pooltrace: file 1 read\n", 6),
    ("pooltrace store s", 6, 4, "pooltrace: file 1 read\n", 7),
    ("pooltrace store s", 7, 4, "pooltrace: file 1 read\n", 8),
    ("pooltrace store s", 8, 0, "", 8),
    (
        "pooltrace play unknown",
        NEVER,
        4,
        "pooltrace: file 1 read\n",
        1,
    ),
];

// The answer of a run on files of which each read gives one byte and this call fails, and how many calls there were.
fn answer_failing<R: Threads + Sync>(
    rt: &R,
    alloc: Global,
    line: &str,
    failing: u64,
) -> Result<(Outcome, u64), Fail> {
    let named = [
        ("e", EMPTY_TRACE),
        ("e2", EMPTY_TRACE),
        ("f", FIRST_TRACE),
        ("s", GET),
    ];
    let mut files = failing_files(alloc, &named, 1, failing)?;
    let outcome = run_line(rt, alloc, line, &mut files)?;
    Ok((outcome, files.calls))
}

#[test]
fn one_failing_call_of_the_files(rt: HostRuntime) -> Result<(), Fail> {
    let alloc = rt.alloc();
    let zeros = report(alloc, &[ZEROS], ZEROS)?;
    for (line, failing, status, err, calls) in FAILING_CALLS.iter() {
        let (outcome, made) = answer_failing(&rt, alloc, line, *failing)?;
        let out = match (*status, *line) {
            (0, "pooltrace store s") => "1: none\n",
            (0, _) => zeros.as_str(),
            _ => "",
        };
        assert_eq!(rt; outcome.parts(), (*status, out, *err), "{line}: {failing}");
        assert_eq!(rt; made, *calls, "{line}: {failing}");
    }
    Ok(())
}

// How a sink takes bytes: its room, how many a write takes at most, and which write fails; and what it then has.
type Writing = (usize, usize, u64, &'static str);

// Words, and how the output takes the report's bytes.
static FAILING_WRITES: [(&str, Writing); 9] = [
    ("pooltrace play e", (AMPLE, AMPLE, 0, "")),
    ("pooltrace play e", (AMPLE, AMPLE, 1, FIRST_ZEROS)),
    ("pooltrace play e", (AMPLE, 1, 5, "1: ne")),
    ("pooltrace play e", (0, 1, NEVER, "")),
    (
        "pooltrace drill --processes 1 --calls 0",
        (AMPLE, AMPLE, 1, FIRST_ZEROS),
    ),
    (
        "pooltrace drill --processes 1 --calls 0",
        (AMPLE, 1, 5, "1: ne"),
    ),
    ("pooltrace drill --processes 1 --calls 0", (0, 1, NEVER, "")),
    ("pooltrace store s", (AMPLE, AMPLE, 0, "")),
    ("pooltrace store s", (AMPLE, 1, 5, "1: no")),
];

#[test]
fn one_failing_write(rt: HostRuntime) -> Result<(), Fail> {
    let alloc = rt.alloc();
    for (line, (room, most, failing, out)) in FAILING_WRITES.iter() {
        let mut files = files_of(alloc, &[("e", EMPTY_TRACE), ("s", GET)])?;
        let sink = failing_sink(alloc, *room, *most, *failing)?;
        let err = failing_sink(alloc, AMPLE, AMPLE, NEVER)?;
        let mut gates = open_gates(alloc)?;
        let outcome = run_with(&rt, alloc, line, &mut files, sink, err, &mut gates)?;
        assert_eq!(rt;
            outcome.parts(),
            (7, *out, "pooltrace: write\n"),
            "{line}: {room} {most} {failing}"
        );
    }
    Ok(())
}

static FAILING_ERRORS: [Writing; 4] = [
    (AMPLE, AMPLE, 0, ""),
    (AMPLE, 1, 5, "poolt"),
    (0, 1, NEVER, ""),
    (4, AMPLE, NEVER, "pool"),
];

#[test]
fn a_failing_error_sink_changes_no_status(rt: HostRuntime) -> Result<(), Fail> {
    let alloc = rt.alloc();
    for (room, most, failing, err) in FAILING_ERRORS.iter() {
        let mut files = failing_files(alloc, &[("e", EMPTY_TRACE)], 1, 3)?;
        let out = failing_sink(alloc, AMPLE, AMPLE, NEVER)?;
        let sink = failing_sink(alloc, *room, *most, *failing)?;
        let outcome = run_with(
            &rt,
            alloc,
            "pooltrace play e",
            &mut files,
            out,
            sink,
            &mut open_gates(alloc)?,
        )?;
        assert_eq!(rt; outcome.parts(), (4, "", *err), "{room} {most} {failing}");
    }
    Ok(())
}

// Words, how many bytes 10 the file has, the status, and the line on the error sink.
static LARGE: [(&str, usize, u8, &str); 4] = [
    ("pooltrace play f", 1 << 24, 0, ""),
    (
        "pooltrace play f",
        (1 << 24) + 1,
        5,
        "pooltrace: file 1 long\n",
    ),
    ("pooltrace play f f f f", 1 << 24, 0, ""),
    (
        "pooltrace play f f f f f",
        1 << 24,
        5,
        "pooltrace: file 5 long\n",
    ),
];

#[test]
fn large_files(rt: HostRuntime) -> Result<(), Fail> {
    let alloc = rt.alloc();
    for (line, bytes, status, err) in LARGE.iter() {
        let lines = vec![in alloc; b'\n'; *bytes]?;
        let (outcome, opens) = answer(&rt, rt.alloc(), line, &[("f", lines.as_slice())])?;
        let zeros = [ZEROS; 5];
        let text = report(alloc, &zeros[..opens.min(5) as usize], ZEROS)?;
        let out = if *status == 0 { text.as_str() } else { "" };
        assert_eq!(rt; outcome.parts(), (*status, out, *err), "{line}: {bytes}");
    }
    Ok(())
}
