// The script of a source, read to its end or to one byte past a limit.
ghost use Rattle.std.specs.Prelude.{◌≤◌, ◌^◌, length, min, IfOk, IfSome};
ghost use Rattle.line_text.specs.Leaving.{LeavesFiles};
ghost use Rattle.store_script.specs.Reading.{AnswersFor};
ghost use Rattle.store_script.specs.Script.{IsWellFormed};
ghost use Rattle.store_script.specs.Taken.{ReadsFor};

use crate::ScriptFault;
use crate::command::StoreScript;
use crate::reading::read_lines;
use line_text::read_source;
use pool_io::Files;
use std::alloc::Global;

/// Reads the store script that a source has left, of at most 2^24 bytes and at most `room` bytes.
///
/// `ReadFault` comes where a read of the source failed, `TooLong` where one byte more than the limit was taken,
/// `BadLine` where the source was read to its end and a line isn't of the script language, `NoMemory` where memory ran out.
/// Opens nothing, and reads nothing past the byte after the limit, nor after a read that gave nothing or failed.
pub fn read_script<F: Files>(
    alloc: Global,
    files: &mut F,
    source: F::Source,
    room: u64,
) -> Result<StoreScript, ScriptFault>
    ensures answer { IfSome (F.left files.old source) (λ left. AnswersFor (min room (2 ^ 24)) left result) }
    ensures limit { IfOk result (λ script. script.bytes ≤ min room (2 ^ 24)) }
    ensures few { IfOk result (λ script. length script.commands ≤ script.bytes) }
    ensures well_formed { IfOk result IsWellFormed }
    ensures reads { ReadsFor (min room (2 ^ 24)) (F.reads files.old) (F.reads files.new) result }
    ensures leaves { LeavesFiles F.Files files.old files.new result }
{
    let mut bytes = Vec::new(alloc);
    read_source(alloc, files, source, room, &mut bytes)?;
    read_lines(alloc, &bytes)
}
