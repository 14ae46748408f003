// The schedule of a source, read to its end or to one byte past the limit.
ghost use Rattle.std.specs.Prelude.{◌≤◌, ◌^◌, IfOk, IfSome};
ghost use Rattle.line_text.specs.Leaving.{LeavesFiles};
ghost use Rattle.schedule_replay.specs.Reading.{AnswersFor, ReadsFor, events_in};

use crate::ScheduleFault;
use crate::reading::read_lines;
use crate::schedule::Schedule;
use line_text::read_source;
use pool_io::Files;
use std::alloc::Global;

/// The most bytes that a schedule may have.
const MOST_BYTES: u64 = 1 << 24;

/// Reads the schedule that a source has left, of at most 2^24 bytes.
///
/// `ReadFault` comes where a read of the source failed, `TooLong` where one byte more than the limit was taken, `BadLine` where
/// the source was read to its end and a line isn't of the language, `NoMemory` where memory ran out. Opens nothing, and reads
/// nothing past the byte after the limit, nor after a read that gave nothing or failed.
pub fn read_schedule<F: Files>(
    alloc: Global,
    files: &mut F,
    source: F::Source,
) -> Result<Schedule, ScheduleFault>
    ensures answer { IfSome (F.left files.old source) (λ left. AnswersFor (2 ^ 24) left result) }
    ensures few { IfOk result (λ schedule. events_in schedule.lines ≤ 2 ^ 24) }
    ensures reads { ReadsFor (2 ^ 24) (F.reads files.old) (F.reads files.new) result }
    ensures leaves { LeavesFiles F.Files files.old files.new result }
{
    let mut bytes = Vec::new(alloc);
    read_source(alloc, files, source, MOST_BYTES, &mut bytes)?;
    read_lines(alloc, &bytes)
}
