// The top call.
ghost use Rattle.std.specs.Prelude.{◌≡◌, ◌⊎◌, ◌^◌, ◌<◌, ◌≤◌, ℕ, List, length, map, string_bytes};
ghost use Rattle.command_words.specs.Meant.{meant};
ghost use Rattle.pool_cli.specs.Ending.{ending_of, settled_of};
ghost use Rattle.pool_io.specs.Told.{GrowsBy};
ghost use Rattle.pool_cli.specs.Causes.{CauseOf, Ends, IsAmple, IsSure, IsTold, IsUnhindered};
ghost use Rattle.pool_cli.specs.Gates.{gates_of};
ghost use Rattle.file_runs.specs.Outside.{outside};

use crate::commands::play_command;
use crate::ending::Worked;
use crate::{Ended, Ending, MOST_PROCESSES};
use command_words::read_words;
use file_runs::tell;
use pass_players::Gate;
use pool_io::{Files, Sink};
use std::alloc::Global;
use std::thread::Threads;

/// Does all that the program does: reads the words, plays what they ask for over a pool, each process on a
/// thread where one can be had, and writes the report, or the replies of a store, to `out`. Where it ends otherwise, its line
/// is written to `err`; a fault of `err` changes no status. Gate `k` is told of each call of process `k` that gets or frees a
/// block, before it; where the run ends before its playing, no gate is told of anything.
///
/// Each status comes exactly as the causes say: 0 after the whole text, 2 for faulty words, 3 for a shape
/// that is refused, 4 to 6 for a file, 7 where `out` failed. Want of memory, 8, comes before the playing.
pub fn run<R: Threads + Sync, F: Files, K: Sink, G: Gate + Send>(
    rt: &R,
    alloc: Global,
    words: &[String],
    files: &mut F,
    out: &mut K,
    err: &mut K,
    gates: &mut Vec<G>,
) -> Ended
    requires opens { F.opens files.old < 2 ^ 63 }
    requires gates { MOST_PROCESSES ≤ length gates.old.items }
    ensures ends { Ends (meant (map string_bytes words.now))
        (outside F.Files files.old K.Sink out.old)
        (outside F.Files files.new K.Sink out.new)
        (gates_of G.told gates.old.items gates.new.items)
        result.settled
        (IsTold K.Sink err.old err.new)
        result.status }
    ensures unhindered { IsUnhindered (meant (map string_bytes words.now))
        (outside F.Files files.old K.Sink out.old)
        (outside F.Files files.new K.Sink out.new)
        → (result.status ≡ 0) ⊎ (result.status ≡ 8) }
    ensures sure { IsSure (meant (map string_bytes words.now)) (outside F.Files files.old K.Sink out.old)
        → (result.status ≡ 0) ⊎ (result.status ≡ 8) }
    ensures enough { (text : List ℕ) → IsAmple (meant (map string_bytes words.now)) (F.told files.old) text
        → result.status ≡ 0
        → GrowsBy (K.written out.old) (K.written out.new) text }
{
    let worked = Worked::after(work(rt, alloc, words, files, out, gates));
    let _ = tell(err, "pooltrace", worked.ending);
    Ended {
        status: worked.ending.status(),
        settled: worked.settled,
    }
}

/// Does what the words ask for, and answers what ended it early.
fn work<R: Threads + Sync, F: Files, K: Sink, G: Gate + Send>(
    rt: &R,
    alloc: Global,
    words: &[String],
    files: &mut F,
    out: &mut K,
    gates: &mut Vec<G>,
) -> Result<Worked, Ending>
    requires opens { F.opens files.old < 2 ^ 63 }
    requires gates { MOST_PROCESSES ≤ length gates.old.items }
    ensures { CauseOf (meant (map string_bytes words.now))
        (outside F.Files files.old K.Sink out.old)
        (outside F.Files files.new K.Sink out.new)
        (gates_of G.told gates.old.items gates.new.items)
        (settled_of result)
        (ending_of result) }
{
    let command = read_words(alloc, words)?;
    play_command(rt, alloc, &command, files, out, gates)
}
