// The trace of a source, read to its end or to one byte past a limit.
ghost use Rattle.std.specs.Prelude.{◌≤◌, ◌^◌, length, min, IfOk, IfSome};
ghost use Rattle.line_text.specs.Leaving.{LeavesFiles};
ghost use Rattle.mtrace_reader.specs.Reading.{AnswersFor};
ghost use Rattle.mtrace_reader.specs.Taken.{ReadsFor};

use crate::reading::LineReader;
use crate::{Trace, TraceFault};
use line_text::read_source;
use pool_io::Files;
use std::alloc::Global;

/// Reads the trace that a source has left, of at most 2^24 bytes and at most `room` bytes.
///
/// `ReadFault` comes where a read of the source failed, `TooLong` where one byte more than the limit was taken,
/// `BadLine` where the source was read to its end and a line is of no form, `NoMemory` where memory ran out.
/// Opens nothing, and reads nothing past the byte after the limit, nor after a read that gave nothing or failed.
pub fn read_trace<F: Files>(
    alloc: Global,
    files: &mut F,
    source: F::Source,
    room: u64,
) -> Result<Trace, TraceFault>
    ensures answer { IfSome (F.left files.old source) (λ left. AnswersFor (min room (2 ^ 24)) left result) }
    ensures limit { IfOk result (λ trace. trace.bytes ≤ min room (2 ^ 24)) }
    ensures few { IfOk result (λ trace. length trace.operations ≤ trace.bytes) }
    ensures reads { ReadsFor (min room (2 ^ 24)) (F.reads files.old) (F.reads files.new) result }
    ensures leaves { LeavesFiles F.Files files.old files.new result }
{
    let mut reader = LineReader::new(alloc);
    let bytes = read_source(alloc, files, source, room, &mut reader)?;
    reader.finish(bytes)
}

#[cfg(test)]
mod tests {
    use super::*;
    use crate::Operation;
    use crate::Operation::{Failed, New, Release};
    use pool_io::MemoryFiles;
    use std::process::Abort;
    use std::test::Fail;

    /// The operations of a trace and whether it is cut, or its fault.
    type Read<'a> = Result<(&'a [Operation], bool), TraceFault>;

    /// How many bytes a read gives at most.
    const PIECES: [usize; 3] = [1, 7, 1 << 20];

    /// Compares what a file reads as, whose call number `failing` fails.
    fn check_piecewise(
        rt: &(impl Abort + AllocGlobal),
        text: &[u8],
        room: u64,
        failing: u64,
        expected: Read<'_>,
    ) -> Result<(), Fail> {
        let alloc = rt.alloc();
        for most in PIECES {
            let failing = vec![in alloc; failing]?;
            let mut files = MemoryFiles::of_one(alloc, "f", text, failing, most)?;
            let source = files.open("f")?;
            let trace = read_trace(alloc, &mut files, source, room);
            let read = match &trace {
                Ok(trace) => Ok((trace.operations.as_slice(), trace.cut)),
                Err(fault) => Err(*fault),
            };
            let shown = &text[..text.len().min(100)];
            assert!(rt; read == expected, "{shown:?} by pieces of {most}");
        }
        Ok(())
    }

    /// Compares what a file reads as, all of whose calls go well.
    fn check(
        rt: &(impl Abort + AllocGlobal),
        text: &[u8],
        room: u64,
        expected: Read<'_>,
    ) -> Result<(), Fail> {
        check_piecewise(rt, text, room, u64::MAX, expected)
    }

    /// The most bytes that a trace may have.
    const MOST_BYTES: u64 = 1 << 24;

    const BLOCK: Operation = New {
        address: 16,
        size: 8,
    };

    const RELEASE: Operation = Release { address: 16 };

    const MOVED: Operation = New {
        address: 32,
        size: 16,
    };

    const NOTHING: Operation = New {
        address: 0,
        size: 0,
    };

    const NOWHERE: Operation = New {
        address: 0,
        size: 8,
    };

    const LAST: Operation = New {
        address: u64::MAX,
        size: 0xabcdef,
    };

    /// Texts, their operations, and whether they are cut.
    static TEXTS: [(&[u8], &[Operation], bool); 12] = [
        (b"", &[], false),
        (b"\n  \n= Start\n=\n = x + 0x10 0x8\n", &[], false),
        (
            b"@ ./a.out:[0x401136] + 0x10 0x8\n@ ./a.out:[0x401146] - 0x10\n",
            &[BLOCK, RELEASE],
            false,
        ),
        (
            b"+ 0x10 0x8\n< 0x10\n> 0x20 0x10\n",
            &[BLOCK, RELEASE, MOVED],
            false,
        ),
        (b"+ (nil) 0\n! 0x10 0x80\n", &[NOTHING, Failed], false),
        (b"@ + - 0x10\n", &[RELEASE], false),
        (b" @\xff  + 0x0000000000000010   0x8 \n", &[BLOCK], false),
        (b"+ 0xFfFfffffffffffff 0xABCDEF\n", &[LAST], false),
        (b"= Start\n+ 0x10 0x8\n@ a.out:[0x40", &[BLOCK], true),
        (b"+ 0x10 0x8\n- 0x10", &[BLOCK, RELEASE], false),
        (b"+ 0x10 0x8\n= En", &[BLOCK], false),
        (b"> (nil) 0x8\n", &[NOWHERE], false),
    ];

    #[test]
    fn lines_and_the_last_piece(rt: HostRuntime) -> Result<(), Fail> {
        for (text, operations, cut) in TEXTS.iter() {
            check(&rt, text, MOST_BYTES, Ok((operations, *cut)))?;
        }
        Ok(())
    }

    /// Texts, and the number of their first bad line.
    static BAD_LINES: [(&[u8], u64); 12] = [
        (b"a + 0x10 0x8\n", 1),
        (b"+ 0X10 0x8\n", 1),
        (b"+ 0x10 8\n", 1),
        (b"+ 0x11111111111111111 0x8\n", 1),
        (b"@ - 0x10 0x8\n", 1),
        (b"= Start\n+ 0x 0x8\n", 2),
        (b"+ 0x10 0x8\r\n", 1),
        (b"\xff\n", 1),
        (b"\n- 0x10\n+\n- 0x10\n", 3),
        (b"- 0\n", 1),
        (b"+\t0x10 0x8\n", 1),
        (b"+\n\n-\n", 1),
    ];

    #[test]
    fn bad_lines(rt: HostRuntime) -> Result<(), Fail> {
        for (text, line) in BAD_LINES.iter() {
            check(&rt, text, MOST_BYTES, Err(TraceFault::BadLine(*line)))?;
        }
        Ok(())
    }

    #[test]
    fn as_many_bytes_as_there_is_room_for(rt: HostRuntime) -> Result<(), Fail> {
        check(&rt, b"= End\n", 6, Ok((&[], false)))?;
        check(&rt, b"= End\n", 5, Err(TraceFault::TooLong))?;
        check(&rt, b"+\n+\n+\n", 5, Err(TraceFault::TooLong))
    }

    #[test]
    fn a_failing_read_goes_before_what_the_lines_say(rt: HostRuntime) -> Result<(), Fail> {
        check_piecewise(&rt, b"+ 0x10 0x8\n", 100, 1, Err(TraceFault::ReadFault))?;
        check_piecewise(&rt, b"+\n", 100, 2, Err(TraceFault::ReadFault))?;
        check_piecewise(&rt, b"+\n", 0, 2, Err(TraceFault::TooLong))
    }

    #[test]
    fn lines_across_the_ends_of_buffers(rt: HostRuntime) -> Result<(), Fail> {
        let alloc = rt.alloc();
        let mut text = Vec::new(alloc);
        let mut operations = Vec::new(alloc);
        for _ in 0..20_000 {
            text.extend_from_slice(b"+ 0x10 0x8\n- 0x10\n")?;
            operations.push(BLOCK)?;
            operations.push(RELEASE)?;
        }
        check(&rt, &text, MOST_BYTES, Ok((&operations, false)))?;
        let mut long = Vec::from_slice(alloc, b"@")?;
        long.resize(200_000, b'x')?;
        long.extend_from_slice(b" - 0x10\n- 0x10")?;
        check(&rt, &long, MOST_BYTES, Ok((&[RELEASE, RELEASE], false)))
    }
}
