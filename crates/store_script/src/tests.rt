// Scripts that are read, answered and written as replies.
use crate::ScriptFault;
use crate::answered::Answered;
use crate::command::Command;
use crate::command::Command::{Del, Get, Put, Set};
use crate::quad::Quad;
use crate::replies::answers;
use crate::source::read_script;
use crate::text::write_replies;
use pool_io::{Files, MemoryFiles, MemorySink};
use std::process::Abort;
use std::test::Fail;

/// The commands of a script and how many slots they have, or its fault.
type Read<'a> = Result<(&'a [Command], u32), ScriptFault>;

/// How many bytes a read gives at most.
const PIECES: [usize; 3] = [1, 7, 1 << 20];

/// More bytes than any file here has.
const ROOM: u64 = 1 << 24;

/// Compares what a file reads as, of which at most `room` bytes may be read.
fn check_within(
    rt: &(impl Abort + AllocGlobal),
    text: &[u8],
    room: u64,
    expected: Read<'_>,
) -> Result<(), Fail> {
    let alloc = rt.alloc();
    for most in PIECES {
        let mut files = MemoryFiles::of_one(alloc, "f", text, Vec::new(alloc), most)?;
        let source = files.open("f")?;
        let script = read_script(alloc, &mut files, source, room);
        let read = match &script {
            Ok(script) => Ok((script.commands.as_slice(), script.slots)),
            Err(fault) => Err(*fault),
        };
        assert!(rt; read == expected, "{text:?} by pieces of {most}");
    }
    Ok(())
}

/// Compares what a file reads as, all of whose bytes may be read.
fn check(rt: &(impl Abort + AllocGlobal), text: &[u8], expected: Read<'_>) -> Result<(), Fail> {
    check_within(rt, text, ROOM, expected)
}

/// The numbers 1 to 4.
const FOUR: Quad = Quad {
    a: 1,
    b: 2,
    c: 3,
    d: 4,
};

const NOUGHTS: Quad = Quad {
    a: 0,
    b: 0,
    c: 0,
    d: 0,
};

/// Texts, their commands, and how many keys these name.
static TEXTS: [(&[u8], &[Command], u32); 7] = [
    (b"", &[], 0),
    (b"\n   \n\n", &[], 0),
    (b"get 00000000000000000007\n", &[Get { key: 7, slot: 0 }], 1),
    (
        b"get 18446744073709551615\n",
        &[Get {
            key: u64::MAX,
            slot: 0,
        }],
        1,
    ),
    (
        b" put  7 1 2 3 4 \nset 7 3 5",
        &[
            Put {
                key: 7,
                slot: 0,
                value: FOUR,
            },
            Set {
                key: 7,
                slot: 0,
                index: 3,
                value: 5,
            },
        ],
        1,
    ),
    (
        b"get 9\nget 5\ndel 9\n\nput 9 0 0 0 0\nget 0\n",
        &[
            Get { key: 9, slot: 0 },
            Get { key: 5, slot: 1 },
            Del { key: 9, slot: 0 },
            Put {
                key: 9,
                slot: 0,
                value: NOUGHTS,
            },
            Get { key: 0, slot: 2 },
        ],
        3,
    ),
    (b"del 1\n    ", &[Del { key: 1, slot: 0 }], 1),
];

#[test]
fn commands_and_their_slots(rt: HostRuntime) -> Result<(), Fail> {
    for (text, commands, slots) in TEXTS.iter() {
        check(&rt, text, Ok((commands, *slots)))?;
    }
    Ok(())
}

/// Texts, and the number of their first bad line.
static BAD_LINES: [(&[u8], u64); 14] = [
    (b"set 7 4 1\n", 1),
    (b"get 000000000000000000007\n", 1),
    (b"get 18446744073709551616\n", 1),
    (b"get 99999999999999999999\n", 1),
    (b"get\n", 1),
    (b"get 7 7\n", 1),
    (b"get +7\n", 1),
    (b"get 0x7\n", 1),
    (b"Get 7\n", 1),
    (b"del 7\r\n", 1),
    (b"put 7 1 2 3\n", 1),
    (b"put 7 1 2 3 4 5\n", 1),
    (b"get 1\n\nput\nget\n", 3),
    (b"get 1\nge", 2),
];

#[test]
fn bad_lines(rt: HostRuntime) -> Result<(), Fail> {
    for (text, line) in BAD_LINES.iter() {
        check(&rt, text, Err(ScriptFault::BadLine(*line)))?;
    }
    Ok(())
}

#[test]
fn as_many_bytes_as_there_is_room_for(rt: HostRuntime) -> Result<(), Fail> {
    let get = [Get { key: 1, slot: 0 }];
    check_within(&rt, b"get 1\n", 6, Ok((&get, 1)))?;
    check_within(&rt, b"get 1\n", 5, Err(ScriptFault::TooLong))?;
    check_within(&rt, b"?\n?\n?\n", 5, Err(ScriptFault::TooLong))
}

#[test]
fn each_read_failing_in_turn(rt: HostRuntime) -> Result<(), Fail> {
    let alloc = rt.alloc();
    let text = b"get 1\n";
    // The open is call 0, the reads are the calls 1 to 7: one for each byte, and the one that tells the end.
    for failing in 1..8 {
        let failing_calls = vec![in alloc; failing]?;
        let mut files = MemoryFiles::of_one(alloc, "f", text, failing_calls, 1)?;
        let source = files.open("f")?;
        let read = read_script(alloc, &mut files, source, ROOM);
        let fails = matches!(&read, Err(ScriptFault::ReadFault));
        assert!(rt; fails, "call {failing}");
    }
    Ok(())
}

/// A script, which of its puts of absent keys are refused, and the replies.
struct Case {
    name: &'static str,
    text: &'static [u8],
    refused: &'static [bool],
    replies: &'static [u8],
}

static CASES: [Case; 4] = [
    Case {
        name: "store replies",
        text: b"put 7 1 2 3 4\nget 7\nset 7 2 99\nget 7\nput 7 0 0 0 0\ndel 7\nget 7\n",
        refused: &[false],
        replies: b"1: ok\n1: 7 1 2 3 4\n1: ok\n1: 7 1 2 99 4\n1: there\n1: ok\n1: none\n",
    },
    Case {
        name: "full store",
        text: b"put 1 0 0 0 0\nput 2 0 0 0 0\nput 3 0 0 0 0\nput 4 0 0 0 0\nput 5 0 0 0 0\n\
            put 6 0 0 0 0\nput 7 0 0 0 0\nput 8 0 0 0 0\nput 9 0 0 0 0\nget 9\n",
        refused: &[false, false, false, false, false, false, false, false, true],
        replies: b"1: ok\n1: ok\n1: ok\n1: ok\n1: ok\n1: ok\n1: ok\n1: ok\n1: full\n1: none\n",
    },
    Case {
        name: "absent keys",
        text: b"set 1 0 1\ndel 1\nput 1 1 2 3 4\ndel 1\nput 1 5 6 7 8\nget 1\n",
        refused: &[true, false],
        replies: b"1: none\n1: none\n1: full\n1: none\n1: ok\n1: 1 5 6 7 8\n",
    },
    Case {
        name: "the greatest numbers",
        text: b"put 18446744073709551615 0 18446744073709551615 0 1\nget 18446744073709551615\n",
        refused: &[],
        replies: b"1: ok\n1: 18446744073709551615 0 18446744073709551615 0 1\n",
    },
];

#[test]
fn replies_to_small_scripts(rt: HostRuntime) -> Result<(), Fail> {
    let alloc = rt.alloc();
    for case in CASES.iter() {
        let mut files = MemoryFiles::of_one(alloc, "f", case.text, Vec::new(alloc), 7)?;
        let source = files.open("f")?;
        let script = read_script(alloc, &mut files, source, ROOM)?;
        let answered = answers(alloc, &script, case.refused)?;
        let mut out = MemorySink::new(alloc, 1 << 10, Vec::new(alloc), 5)?;
        write_replies(&mut out, 1, &answered)?;
        let same = out.bytes.as_slice() == case.replies;
        assert!(rt; same, "{}: {answered:?}", case.name);
    }
    Ok(())
}

#[test]
fn replies_of_several_pages(rt: HostRuntime) -> Result<(), Fail> {
    let alloc = rt.alloc();
    let answered = vec![in alloc; Answered::Absent; 1000]?;
    let mut out = MemorySink::new(alloc, 1 << 14, Vec::new(alloc), 1 << 14)?;
    write_replies(&mut out, 12, &answered)?;
    let mut expected = Vec::new(alloc);
    for _ in 0..1000 {
        expected.extend_from_slice(b"12: none\n")?;
    }
    let same = out.bytes.as_slice() == expected.as_slice();
    assert!(rt; same && out.calls == 3, "{} writes", out.calls);
    Ok(())
}
