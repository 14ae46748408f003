// The commands.
ghost use Rattle.std.specs.Prelude.{◌≡◌, ◌^◌, ◌<◌, ◌≤◌, Some, Option, length};
ghost use Rattle.command_words.specs.declared.command.Command.{Command};
ghost use Rattle.command_words.specs.Meant.{HasFewCalls};
ghost use Rattle.pool_cli.specs.Ending.{ending_of, settled_of};
ghost use Rattle.pool_cli.specs.Causes.{CauseOf};
ghost use Rattle.pool_cli.specs.Gates.{gates_of};
ghost use Rattle.file_runs.specs.Outside.{outside};

use crate::ending::Worked;
use crate::printing::print;
use crate::scripts::scripts_of;
use crate::shape::shape_of;
use crate::{Ending, MOST_PROCESSES};
use command_words::Command;
use pass_players::Gate;
use pool_io::{Files, Sink};
use std::alloc::Global;
use std::thread::Threads;

/// Plays what a command asks for and writes what it prints, and answers what ended it early.
pub(crate) fn play_command<R: Threads + Sync, F: Files, K: Sink, G: Gate + Send>(
    rt: &R,
    alloc: Global,
    command: &Command,
    files: &mut F,
    out: &mut K,
    gates: &mut Vec<G>,
) -> Result<Worked, Ending>
    requires opens { F.opens files.old < 2 ^ 63 }
    requires few { HasFewCalls command.now }
    requires gates { MOST_PROCESSES ≤ length gates.old.items }
    ensures { (meaning : Option Command) → meaning ≡ Some command.now → CauseOf meaning
        (outside F.Files files.old K.Sink out.old)
        (outside F.Files files.new K.Sink out.new)
        (gates_of G.told gates.old.items gates.new.items)
        (settled_of result)
        (ending_of result) }
{
    let shape = shape_of(command)?;
    let scripts = scripts_of(alloc, command, files)?;
    print(rt, alloc, &shape, &scripts, out, gates)
}
