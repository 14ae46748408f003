// The script of bytes that were read, line by line.
ghost use Rattle.std.specs.Prelude.{◌≡◌, ◌+◌, ◌<◌, ◌≤◌, ◌^◌, [], false, length, IfErr, OnOk};
ghost use Rattle.std.specs.BTreeMap.{btree_map_len};
ghost use Rattle.line_text.specs.Meanings.{is_bad};
ghost use Rattle.store_script.specs.Line.{meaning_of};
ghost use Rattle.store_script.specs.Reading.{AnswersTo};
ghost use Rattle.store_script.specs.ScriptWriter.{IsAt, Keeps, ReadsLine, StopsAt};

use crate::ScriptFault;
use crate::command::{Command, CommandList, StoreScript};
use crate::line::{Request, read_line};
use crate::slots::SlotTable;
use line_text::{Meaning, split_line};
use pool_model::NoMemory;
use std::alloc::Global;

/// A script that is being written.
#[derive(Drop)]
struct ScriptWriter {
    slots: SlotTable,
    commands: Vec<Command>,
}

impl ScriptWriter {
    /// A script without commands. Takes no memory.
    fn new(alloc: Global) -> ScriptWriter
        ensures begun { IsAt result [] }
        ensures empty { btree_map_len result.slots.slots ≡ 0 }
    {
        ScriptWriter {
            slots: SlotTable::new(alloc),
            commands: Vec::new(alloc),
        }
    }

    /// Keeps a request as a command with the slot of its key.
    fn keep(&mut self, request: Request) -> Result<(), NoMemory>
        requires { btree_map_len self.old.slots.slots < 2 ^ 32 }
        ensures kept { OnOk result (Keeps self.old self.new request) }
        ensures one_more { OnOk result (btree_map_len self.new.slots.slots ≤ btree_map_len self.old.slots.slots + 1) }
    {
        let slot = self.slots.slot(request.key())?;
        self.commands.push(request.with_slot(slot))?;
        Ok(())
    }

    /// Reads the next line, which has this number. A line that isn't of the script language is the fault.
    fn read(&mut self, line: &[u8], number: u64) -> Result<(), ScriptFault>
        requires { btree_map_len self.old.slots.slots < 2 ^ 32 }
        ensures read { OnOk result (ReadsLine self.old self.new (meaning_of line.now)) }
        ensures one_more { OnOk result (btree_map_len self.new.slots.slots ≤ btree_map_len self.old.slots.slots + 1) }
        ensures good { OnOk result (is_bad (meaning_of line.now) ≡ false) }
        ensures fault { IfErr result (λ fault. StopsAt number (meaning_of line.now) fault) }
    {
        match read_line(line) {
            Meaning::Skipped => Ok(()),
            Meaning::Says(request) => Ok(self.keep(request)?),
            Meaning::Bad => Err(ScriptFault::BadLine(number)),
        }
    }

    /// The script, of so many bytes.
    fn finish(self, bytes: u64) -> StoreScript
        requires { btree_map_len self.slots.slots < 2 ^ 32 }
        ensures commands { result.commands ≡ self.commands.items }
        ensures slots { result.slots ≡ btree_map_len self.slots.slots }
        ensures bytes { result.bytes ≡ bytes }
    {
        StoreScript {
            slots: self.slots.len(),
            commands: CommandList::new(self.commands),
            bytes,
        }
    }
}

/// The script that bytes say, or their first line that isn't of the script language.
pub(crate) fn read_lines(alloc: Global, bytes: &[u8]) -> Result<StoreScript, ScriptFault>
    requires { length bytes.now ≤ 2 ^ 24 }
    ensures { AnswersTo bytes.now result }
{
    let mut writer = ScriptWriter::new(alloc);
    let mut number = 1;
    let mut rest = bytes;
    while let Some((line, after)) = split_line(rest) {
        writer.read(line, number)?;
        number += 1;
        rest = after;
    }
    writer.read(rest, number)?;
    Ok(writer.finish(bytes.len() as u64))
}
