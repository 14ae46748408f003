// Schedules that are read, replayed and written.
ghost use Rattle.std.specs.Prelude.{◌≤◌, ◌^◌, IfOk};
ghost use Rattle.schedule_replay.specs.Reading.{events_in};

use crate::replaying::replay;
use crate::source::read_schedule;
use crate::text::write_replay;
use crate::{ReplayFault, ScheduleFault};
use pool_io::{Files, MemoryFiles, MemorySink};
use std::process::Abort;
use std::test::Fail;
use word_layout::ShapeFault;

/// A schedule and the text of its replay.
struct Case {
    name: &'static str,
    schedule: &'static [u8],
    text: &'static [u8],
}

static CASES: [Case; 11] = [
    Case {
        name: "one allocate",
        schedule: b"shape 1 10 0 8\n9 0 allocate\n",
        text: b"2: 0 got 0\ntag 1\nstack 8 12 16 20 24 28 32 36\nkept 0 7\n",
    },
    Case {
        name: "two allocates and a free of what isn't held",
        schedule: b"shape 1 10 0 8\n17 0 allocate\n1 0 free 5\n",
        text: b"2: 0 got 0\n2: 0 got 1\n3: 0 ignored\ntag 2\nstack 8 12 16 20 24 28 32\nkept 0 10\n",
    },
    Case {
        name: "no events, and a stack of no batch",
        schedule: b"shape 1 2 0 8",
        text: b"tag 1\nstack\nkept 0 8\n",
    },
    Case {
        name: "data words",
        schedule: b"\n shape  1 10 2 8\n9 0 allocate\n1 0 write 0 1 18446744073709551615\n\n1 0 read 0 1\n1 0 read 0 0\n\
            1 0 read 0 2\n1 0 write 1 0 0\n",
        text: b"3: 0 got 0\n4: 0 stored\n6: 0 loaded 18446744073709551615\n7: 0 loaded 0\n8: 0 ignored\n9: 0 ignored\n\
            tag 1\nstack 8 12 16 20 24 28 32 36\nkept 0 7\n",
    },
    Case {
        name: "a free goes on with the transfer",
        schedule: b"shape 1 10 0 8\n9 0 allocate\n8 0 free 0\n",
        text: b"2: 0 got 0\n3: 0 back 0\ntag 2\nstack 8 12 16 20 24 28 32\nkept 0 12\n",
    },
    Case {
        name: "in mid-call the line's call isn't looked at",
        schedule: b"shape 1 10 0 8\n8 0 allocate\n1 0 free 39\n",
        text: b"3: 0 got 0\ntag 1\nstack 8 12 16 20 24 28 32 36\nkept 0 7\n",
    },
    Case {
        name: "no such process, and blocks out of range",
        schedule: b"shape 1 10 0 8\n2 1 allocate\n1 4294967295 search\n1 0 free 4294967295\n1 0 read 40 0\n",
        text: b"2: 1 ignored\n2: 1 ignored\n3: 4294967295 ignored\n4: 0 ignored\n5: 0 ignored\n\
            tag 1\nstack 8 12 16 20 24 28 32 36\nkept 0 8\n",
    },
    Case {
        name: "a search runs its transfer to the end",
        schedule: b"shape 1 10 0 8\n16 0 search\n",
        text: b"2: 0 got 0\ntag 2\nstack 8 12 16 20 24 28 32\nkept 0 11\n",
    },
    Case {
        name: "a take that another process makes",
        schedule: b"shape 2 6 0 8\n1 0 allocate\n18 1 allocate\n3 1 allocate\n",
        text: b"3: 1 got 12\n3: 1 got 13\ntag 2\nstack\nkept 0 18\nkept 1 16\n",
    },
    Case {
        name: "a process that stops, and another that goes on until it is refused",
        schedule: b"shape 2 6 0 8\n1 0 allocate\n116 1 allocate\n",
        text: b"3: 1 got 12\n3: 1 got 13\n3: 1 got 14\n3: 1 got 15\n3: 1 got 16\n3: 1 got 17\n3: 1 got 24\n\
            3: 1 got 25\n3: 1 got 26\n3: 1 got 27\n3: 1 got 28\n3: 1 got 29\n3: 1 got 18\n3: 1 got 19\n3: 1 got 20\n\
            3: 1 got 21\n3: 1 got 22\n3: 1 got 23\n3: 1 dry\ntag 6\nstack\nkept 0 18\nkept 1 0\n",
    },
    Case {
        name: "a stale helper, whose exchange of the state fails",
        schedule: b"shape 2 6 0 8\n5 1 allocate\n21 0 allocate\n16 1 allocate\n",
        text: b"3: 0 got 0\n3: 0 got 1\n4: 1 got 12\n4: 1 got 13\ntag 2\nstack\nkept 0 16\nkept 1 16\n",
    },
];

/// Reads a schedule, by pieces of so many bytes.
fn read(
    rt: &impl AllocGlobal,
    text: &[u8],
    most: usize,
) -> Result<Result<crate::Schedule, ScheduleFault>, Fail>
    ensures { IfOk result (λ read. IfOk read (λ schedule. events_in schedule.lines ≤ 2 ^ 24)) }
{
    let alloc = rt.alloc();
    let mut files = MemoryFiles::of_one(alloc, "f", text, Vec::new(alloc), most)?;
    let source = files.open("f")?;
    Ok(read_schedule(alloc, &mut files, source))
}

#[test]
fn replays_of_small_schedules(rt: HostRuntime) -> Result<(), Fail> {
    let alloc = rt.alloc();
    for case in CASES.iter() {
        let schedule = read(&rt, case.schedule, 7)??;
        let replayed = replay(alloc, &schedule)?;
        let mut out = MemorySink::new(alloc, 1 << 10, Vec::new(alloc), 5)?;
        write_replay(&mut out, &replayed)?;
        let same = out.bytes.as_slice() == case.text;
        assert!(rt; same, "{}: {replayed:?}", case.name);
    }
    Ok(())
}

/// Schedules, and the number of their first bad line.
static BAD_LINES: [(&[u8], u64); 34] = [
    (b"", 1),
    (b"\n\n   \n", 1),
    (b"1 0 allocate\n", 1),
    (b"\n1 0 allocate\nshape 1 10 0 8\n", 2),
    (b"shape 1 10 0 8\nshape 1 10 0 8\n", 2),
    (b"shape 1 10 0\n", 1),
    (b"shape 1 10 0 8 8\n", 1),
    (b"shape 1 10 0 4294967296\n", 1),
    (b"shape 4294967296 10 0 8\n", 1),
    (b"shape 1 1 0 8\n?", 2),
    (b"Shape 1 10 0 8\n", 1),
    (b"shape 1 10 0 8\r\n", 1),
    (b"shape 1 10 0 8\n0 0 allocate\n", 2),
    (b"shape 1 10 0 8\n65537 0 allocate\n", 2),
    (b"shape 1 10 0 8\n1 4294967296 allocate\n", 2),
    (b"shape 1 10 0 8\n1 0 free 4294967296\n", 2),
    (b"shape 1 10 0 8\n1 0 read 4294967296 0\n", 2),
    (b"shape 1 10 0 8\n1 0 read 0 4294967296\n", 2),
    (b"shape 1 10 0 8\n1 0 write 4294967296 0 0\n", 2),
    (b"shape 1 10 0 8\n1 0 write 0 4294967296 0\n", 2),
    (b"shape 1 10 0 8\n1 0 write 0 0 18446744073709551616\n", 2),
    (b"shape 1 10 0 8\n1 0 write 0 0\n", 2),
    (b"shape 1 10 0 8\n1 0 allocate 1\n", 2),
    (b"shape 1 10 0 8\n1 0 free\n", 2),
    (b"shape 1 10 0 8\n1 0 read 1\n", 2),
    (b"shape 1 10 0 8\n1 0 search 1\n", 2),
    (b"shape 1 10 0 8\n1 0 retire\n", 2),
    (b"shape 1 10 0 8\n1 0 enlist\n", 2),
    (b"shape 1 10 0 8\n1 0 Allocate\n", 2),
    (b"shape 1 10 0 8\n+1 0 allocate\n", 2),
    (b"shape 1 10 0 8\n1 0x0 allocate\n", 2),
    (b"shape 1 10 0 8\n000000000000000000001 0 allocate\n", 2),
    (b"shape 1 10 0 8\n1 0\n", 2),
    (b"shape 1 10 0 8\n1 0 allocate\n1 0 alloc", 3),
];

#[test]
fn bad_lines(rt: HostRuntime) -> Result<(), Fail> {
    for (text, line) in BAD_LINES.iter() {
        for most in [1, 7, 1 << 20] {
            let fault = read(&rt, text, most)?.err();
            let same = fault == Some(ScheduleFault::BadLine(*line));
            assert!(rt; same, "{text:?}: {fault:?}");
        }
    }
    Ok(())
}

/// 256 lines of 65536 events are as many as there may be; one event more makes its line a bad one.
#[test]
fn as_many_events_as_there_may_be(rt: HostRuntime) -> Result<(), Fail> {
    let alloc = rt.alloc();
    let mut text = Vec::from_slice(alloc, b"shape 1 10 0 8\n")?;
    for _ in 0..256 {
        text.extend_from_slice(b"65536 1 search\n")?;
    }
    assert!(rt; read(&rt, &text, 1 << 20)?.is_ok());
    text.extend_from_slice(b"1 0 allocate\n")?;
    let fault = read(&rt, &text, 1 << 20)?.err();
    assert_eq!(rt; fault, Some(ScheduleFault::BadLine(258)));
    Ok(())
}

/// Shapes that are refused, and why.
static REFUSED: [(&[u8], ShapeFault); 6] = [
    (b"shape 0 10 0 8", ShapeFault::NoProcess),
    (b"shape 33 100 0 8", ShapeFault::ManyProcesses),
    (b"shape 1 1 0 8", ShapeFault::FewBatches),
    (b"shape 1 10 0 3", ShapeFault::BadQuantum),
    (b"shape 1 4294967295 0 8", ShapeFault::ManyBlocks),
    (b"shape 1 10 9 8", ShapeFault::WideBlock),
];

#[test]
fn refused_shapes(rt: HostRuntime) -> Result<(), Fail> {
    let alloc = rt.alloc();
    for (text, fault) in REFUSED.iter() {
        let schedule = read(&rt, text, 7)??;
        let answered = replay(alloc, &schedule).err();
        assert_eq!(rt; answered, Some(ReplayFault::Shape(*fault)), "{text:?}");
    }
    Ok(())
}
