// The scripts that a command plays.
ghost use Rattle.std.specs.Prelude.{◌≡◌, ◌+◌, ◌^◌, ◌<◌, length, IfOk, IfErr, OnOk};
ghost use Rattle.command_words.specs.Meant.{HasFewCalls};
ghost use Rattle.pool_cli.specs.Asked.{bad_line_of, files_of};
ghost use Rattle.pool_cli.specs.Playing.{ArePlayable, AreScriptsOf};
ghost use Rattle.file_runs.specs.Reading.{StopsReading};

use crate::Ending;
use crate::languages::{Stores, Traces};
use command_words::Command;
use file_runs::read_files;
use mtrace_reader::Script;
use pool_io::Files;
use pool_runs::drill_scripts;
use std::alloc::Global;
use store_script::StoreScript;

/// The scripts of a run, one for each process.
#[derive(Drop)]
pub(crate) enum Scripts {
    /// Those of traces.
    Traces(Vec<Script>),
    /// Those of stores.
    Stores(Vec<StoreScript>),
}

/// The scripts that a command plays: those that its files say, or those that are made for it. Ends at the first file
/// that can't be read.
pub(crate) fn scripts_of<F: Files>(
    alloc: Global,
    command: &Command,
    files: &mut F,
) -> Result<Scripts, Ending>
    requires opens { F.opens files.old + length (files_of command.now) < 2 ^ 64 }
    requires few { HasFewCalls command.now }
    ensures read { IfOk result (AreScriptsOf (F.told files.old) command.now) }
    ensures playable { IfOk result ArePlayable }
    ensures opened { OnOk result (F.opens files.new ≡ F.opens files.old + length (files_of command.now)) }
    ensures stopped { IfErr result (StopsReading F.Files files.old files.new (bad_line_of command.now) (files_of command.now)) }
{
    match command {
        Command::Play(play) => {
            let traces = Traces {
                size: u64::from(play.size),
            };
            let scripts = read_files(alloc, files, play.files.as_slice(), &traces)?;
            Ok(Scripts::Traces(scripts))
        }
        Command::Drill(drill) => {
            let scripts = drill_scripts(alloc, drill.seed, drill.calls, drill.processes)?;
            Ok(Scripts::Traces(scripts))
        }
        Command::Store(store) => {
            let scripts = read_files(alloc, files, store.files.as_slice(), &Stores)?;
            Ok(Scripts::Stores(scripts))
        }
    }
}
