//! Small traces with what a plain count by hand says of them.

ghost use Rattle.std.specs.Prelude.{IfOk};
ghost use Rattle.pool_fit.specs.SizeRows.{HasFewOperations};

use crate::{Choice, fit};
use line_text::Listed;
use mtrace_reader::{Operation, Trace};
use std::alloc::Global;
use std::process::Abort;
use std::test::Fail;
use word_layout::Shape;

/// A line of a trace: its sign, its address and its size.
type Line = (char, u64, u64);

/// A trace, and what blocks of 64 bytes are asked for by it: blocks, larger allocations, the most blocks at once, and wasted bytes.
struct Case {
    name: &'static str,
    lines: &'static [Line],
    asked: (u128, u128, u128, u128),
}

static CASES: [Case; 13] = [
    Case {
        name: "empty",
        lines: &[],
        asked: (0, 0, 0, 0),
    },
    Case {
        name: "one",
        lines: &[('+', 0x10, 64)],
        asked: (1, 0, 1, 0),
    },
    Case {
        name: "one byte too large",
        lines: &[('+', 0x10, 65)],
        asked: (0, 1, 0, 0),
    },
    Case {
        name: "nothing",
        lines: &[('+', 0x10, 0)],
        asked: (1, 0, 1, 64),
    },
    Case {
        name: "one after the other",
        lines: &[('+', 1, 60), ('-', 1, 0), ('+', 1, 50), ('-', 1, 0)],
        asked: (2, 0, 1, 18),
    },
    Case {
        name: "two at once, none at the end",
        lines: &[('+', 1, 64), ('+', 2, 64), ('-', 1, 0), ('-', 2, 0)],
        asked: (2, 0, 2, 0),
    },
    Case {
        name: "the peak in the middle",
        lines: &[
            ('+', 1, 1),
            ('+', 2, 2),
            ('+', 3, 3),
            ('-', 2, 0),
            ('-', 1, 0),
            ('+', 4, 4),
        ],
        asked: (4, 0, 3, 246),
    },
    Case {
        name: "a large one between",
        lines: &[('+', 1, 64), ('+', 2, 4096), ('-', 2, 0), ('+', 3, 32)],
        asked: (2, 1, 2, 32),
    },
    Case {
        name: "stray",
        lines: &[('-', 9, 0), ('+', 1, 64), ('-', 9, 0)],
        asked: (1, 0, 1, 0),
    },
    Case {
        name: "twice",
        lines: &[('+', 1, 64), ('+', 1, 8), ('-', 1, 0), ('+', 1, 64)],
        asked: (2, 0, 1, 0),
    },
    Case {
        name: "twice, once large",
        lines: &[('+', 1, 100), ('+', 1, 8), ('-', 1, 0)],
        asked: (0, 1, 0, 0),
    },
    Case {
        name: "failed",
        lines: &[('+', 0, 8), ('!', 1, 8), ('+', 1, 8)],
        asked: (1, 0, 1, 56),
    },
    Case {
        name: "resized",
        lines: &[
            ('+', 1, 16),
            ('-', 1, 0),
            ('+', 2, 40),
            ('-', 2, 0),
            ('+', 3, 80),
        ],
        asked: (2, 1, 1, 72),
    },
];

/// The operation of a line.
fn operation((sign, address, size): Line) -> Operation {
    match sign {
        '+' => Operation::New { address, size },
        '-' => Operation::Release { address },
        _ => Operation::Failed,
    }
}

/// The trace of these lines.
fn trace_of(rt: &impl Abort, alloc: Global, lines: &[Line]) -> Result<Trace, Fail>
    ensures { IfOk result HasFewOperations }
{
    let mut operations = Vec::new(alloc);
    for line in lines {
        operations.push(operation(*line))?;
    }
    assert!(rt; operations.len() < 1 << 20);
    Ok(Trace {
        operations: Listed::new(operations),
        cut: false,
        bytes: 0,
    })
}

#[test]
fn blocks_of_64_bytes(rt: HostRuntime) -> Result<(), Fail> {
    let smallest = [Shape::with_quantum(1, 2, 0, 8)?];
    for case in CASES.iter() {
        let traces = [trace_of(&rt, rt.alloc(), case.lines)?];
        let table = fit(rt.alloc(), &traces, &smallest, &[64])?;
        let row = &table.sizes[0];
        assert_eq!(rt;
            (row.news, row.big, row.peak, row.waste),
            case.asked,
            "{}",
            case.name
        );
    }
    Ok(())
}

// A batch of one process and quantum 8 has 4 blocks, and 5 batches may be withheld: 6 have 24 blocks, more than 20 and 2.
// 64 words of the table, 40 of them for 24 blocks and 6 slots less than 10 batches' 40 and 10, so 44; a word of marks; 24 blocks.
#[test]
fn cheapest_of_two_quanta(rt: HostRuntime) -> Result<(), Fail> {
    let smallest = [
        Shape::with_quantum(1, 2, 0, 1)?,
        Shape::with_quantum(1, 2, 0, 8)?,
    ];
    let lines = [('+', 1, 64), ('+', 2, 3)];
    let traces = [trace_of(&rt, rt.alloc(), &lines)?];
    let table = fit(rt.alloc(), &traces, &smallest, &[])?;
    let choice = Choice {
        size: 64,
        quantum: 8,
        batches: 6,
        bytes: 8 * 44 + 8 + 24 * 64,
    };
    assert_eq!(rt; table.choice, Some(choice));
    let mut exponents = Vec::new(rt.alloc());
    for class in &table.classes {
        if class.count > 0 {
            exponents.push((class.exponent, class.count, class.peak))?;
        }
    }
    assert_eq!(rt; exponents.as_slice(), [(2, 1, 1), (6, 1, 1)].as_slice());
    Ok(())
}

// Of two traces, each of which holds one block at most, but not at once, two are needed.
#[test]
fn peaks_of_two_traces_add(rt: HostRuntime) -> Result<(), Fail> {
    let smallest = [Shape::with_quantum(2, 4, 0, 8)?];
    let lines = [('+', 1, 64), ('-', 1, 0)];
    let traces = [
        trace_of(&rt, rt.alloc(), &lines)?,
        trace_of(&rt, rt.alloc(), &lines)?,
    ];
    let table = fit(rt.alloc(), &traces, &smallest, &[64])?;
    assert_eq!(rt; (table.sizes[0].news, table.sizes[0].peak), (2, 2));
    Ok(())
}
