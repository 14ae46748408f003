// Scripts that are played over a pool of their own, and what is printed of them.
ghost use Rattle.std.specs.Prelude.{◌≡◌, ◌≤◌, IfOk, IfErr, OnErr, length};
ghost use Rattle.pool_cli.specs.Gates.{gates_of};
ghost use Rattle.pool_cli.specs.Playing.{ArePlayable, Fit, IsTextOf};
ghost use Rattle.pool_cli.specs.Printed.{HasPrinted};
ghost use Rattle.file_runs.specs.declared.ending.Ending.TheVariants.{Memory};

use crate::Ending;
use crate::ending::Worked;
use crate::replies::write_all_replies;
use crate::report::write_report;
use crate::scripts::Scripts;
use pass_players::Gate;
use pool_io::Sink;
use pool_runs::{play_traces, prepare_traces};
use std::alloc::Global;
use std::mem;
use std::thread::Threads;
use store_runs::{play_stores, prepare_stores};
use word_layout::Shape;

/// Plays scripts over a pool of this shape, and writes the report, or the replies of stores to all files. Gate `k` is told of each
/// call of process `k` before it. Ends early for want of memory alone, before the first call of the pool.
pub(crate) fn print<R: Threads + Sync, K: Sink, G: Gate + Send>(
    rt: &R,
    alloc: Global,
    shape: &Shape,
    scripts: &Scripts,
    out: &mut K,
    gates: &mut Vec<G>,
) -> Result<Worked, Ending>
    requires fit { Fit shape.now scripts.now }
    requires playable { ArePlayable scripts.now }
    requires gates { shape.now.processes ≤ length gates.old.items }
    ensures printed { IfOk result (HasPrinted K.Sink out.old out.new
        (IsTextOf (gates_of G.told gates.old.items gates.new.items) shape.now scripts.now)) }
    ensures early { IfErr result (λ ending. ending ≡ Memory) }
    ensures unwritten { OnErr result (out.new ≡ out.old) }
    ensures untold { OnErr result (gates.new ≡ gates.old) }
{
    match scripts {
        Scripts::Traces(scripts) => {
            let prepared = prepare_traces(alloc, shape, scripts.as_slice(), gates.as_slice())?;
            let taken = mem::replace(gates, Vec::new(alloc));
            let played = play_traces(rt, prepared, scripts.as_slice(), taken);
            *gates = played.gates;
            let written = write_report(out, &played.outcomes);
            Ok(Worked::printed(played.settled, written))
        }
        Scripts::Stores(scripts) => {
            let prepared = prepare_stores(alloc, shape, scripts.as_slice(), gates.as_slice())?;
            let taken = mem::replace(gates, Vec::new(alloc));
            let played = play_stores(rt, prepared, scripts.as_slice(), taken);
            *gates = played.gates;
            let written = write_all_replies(out, &played.outcomes);
            Ok(Worked::printed(played.settled, written))
        }
    }
}
