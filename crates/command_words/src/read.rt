// The whole command line.
ghost use Rattle.std.specs.Prelude.{IfOk, map, string_bytes};
ghost use Rattle.command_words.specs.Meant.{HasFewCalls, command_meant, meant};
ghost use Rattle.command_words.specs.Reads.{Reads};

use crate::asked::read_asked;
use crate::{Command, WordsFault};
use std::alloc::Global;

/// Reads the words of a command line, the program's own name first, which isn't looked at.
///
/// `Faulty` exactly where the words mean no command; `NoMemory` for want of memory.
pub fn read_words(alloc: Global, words: &[String]) -> Result<Command, WordsFault>
    ensures read { Reads (meant (map string_bytes words.now)) result }
    ensures few { IfOk result HasFewCalls }
{
    let Some(name) = words.get(1) else {
        return Err(WordsFault::Faulty);
    };
    read_command(alloc, name.as_str(), &words[1..])
}

/// Reads the words of the command of this name, which is the first of them.
fn read_command(alloc: Global, name: &str, words: &[String]) -> Result<Command, WordsFault>
    ensures { Reads (command_meant name.now (map string_bytes words.now)) result }
{
    match name {
        "play" => read_asked(alloc, words).map(Command::Play),
        "drill" => read_asked(alloc, words).map(Command::Drill),
        "store" => read_asked(alloc, words).map(Command::Store),
        _ => Err(WordsFault::Faulty),
    }
}
