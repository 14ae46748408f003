// The languages of the files that commands name.

use file_runs::{Language, ReadFile};
use line_text::TextFault;
use mtrace_reader::{Script, read_trace, script};
use pool_io::Files;
use std::alloc::Global;
use store_script::{StoreScript, read_script};

/// Traces, each made a script where a block has so many bytes.
#[derive(Clone, Copy, Debug)]
pub(crate) struct Traces {
    pub(crate) size: u64,
}

impl Language for Traces {
    ghost use Rattle.mtrace_reader.specs.Reading.{bad_line};
    ghost use Rattle.pool_runs.specs.Playable.{IsPlayable};
    ghost use Rattle.pool_cli.specs.Asked.{IsScriptOf};

    type Said = Script;

    ghost bad = { λ _. bad_line };

    ghost says = { λ traces bytes script. IsScriptOf traces.size bytes script };

    ghost usable = { λ _ script. IsPlayable script };

    fn read<F: Files>(
        &self,
        alloc: Global,
        files: &mut F,
        source: F::Source,
        room: u64,
    ) -> Result<ReadFile<Script>, TextFault> {
        let trace = read_trace(alloc, files, source, room)?;
        let Ok(script) = script(alloc, &trace, self.size) else {
            return Err(TextFault::NoMemory);
        };
        Ok(ReadFile {
            said: script,
            bytes: trace.bytes,
        })
    }
}

/// Store scripts.
#[derive(Clone, Copy, Debug)]
pub(crate) struct Stores;

impl Language for Stores {
    ghost use Rattle.store_script.specs.Reading.{IsReading, bad_line};
    ghost use Rattle.store_runs.specs.Playable.{IsPlayable};

    type Said = StoreScript;

    ghost bad = { λ _. bad_line };

    ghost says = { λ _ bytes script. IsReading bytes script };

    ghost usable = { λ _ script. IsPlayable script };

    fn read<F: Files>(
        &self,
        alloc: Global,
        files: &mut F,
        source: F::Source,
        room: u64,
    ) -> Result<ReadFile<StoreScript>, TextFault> {
        let script = read_script(alloc, files, source, room)?;
        let bytes = script.bytes;
        Ok(ReadFile {
            said: script,
            bytes,
        })
    }
}
