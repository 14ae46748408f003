// The words of one command, whichever it is.
ghost use Rattle.std.specs.Prelude.{◌≡◌, List, Option, IfOk, map, string_bytes};
ghost use Rattle.clap.specs.Words.{App, Row, app_of, found_of, rows_of};
ghost use Rattle.command_words.specs.Options.{IsReadable, asked_of};
ghost use Rattle.command_words.specs.Reads.{Reads};

use crate::WordsFault;
use crate::options::read_matches;
use clap::ArgMatches;
use std::alloc::{AllocError, Global};

/// What a command can be asked for.
pub(crate) trait Asked: Sized {
    /// The command.
    ghost app: { App };

    /// What its matches ask for.
    ghost asked: { List Row → Option Self };

    /// The command as `clap` reads it.
    fn command<'a>(alloc: Global) -> Result<clap::Command<'a>, AllocError>
        ensures { IfOk result (λ command. app_of command ≡ app) };

    /// What the matches of the command ask for.
    fn of_matches(alloc: Global, matches: &ArgMatches<'_>) -> Result<Self, WordsFault>
        ensures { Reads (asked (rows_of (found_of matches.now))) result };

    ghost readable: { IsReadable app };
}

/// Reads a command and the words after it.
pub(crate) fn read_asked<A: Asked>(alloc: Global, words: &[String]) -> Result<A, WordsFault>
    ensures { Reads (asked_of A.app A.asked (map string_bytes words.now)) result }
{
    let matches = read_matches(A::command(alloc)?, words)?;
    A::of_matches(alloc, &matches)
}
