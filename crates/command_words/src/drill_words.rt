// The words of `drill`.
ghost use Rattle.std.specs.Prelude.{◌≡◌, ◌≤◌, IfOk, map, string_bytes};
ghost use Rattle.clap.specs.Words.{found_of, rows_of};
ghost use Rattle.command_words.specs.Drill.{drill_in, drill_meant};
ghost use Rattle.command_words.specs.Reads.{Reads};

use crate::asked::{Asked, read_asked};
use crate::options::{command_with_options, long_number_of_option, number_of_option};
use crate::{Drill, MOST_CALLS, WordsFault};
use clap::ArgMatches;
use std::alloc::{AllocError, Global};

/// Reads `drill` and the words after it.
///
/// `Faulty` exactly where they ask for nothing; `NoMemory` for want of memory.
pub fn read_drill(alloc: Global, words: &[String]) -> Result<Drill, WordsFault>
    ensures read { Reads (drill_meant (map string_bytes words.now)) result }
    ensures few { IfOk result (λ drill. drill.calls ≤ MOST_CALLS) }
{
    read_asked(alloc, words)
}

impl Asked for Drill {
    ghost use Rattle.command_words.specs.Drill.{drill_app, drill_in};
    ghost use Rattle.command_words.specs.Readable.{drill_is_readable};

    ghost app = { drill_app };

    ghost asked = { drill_in };

    ghost readable = { drill_is_readable };

    #[tactic(auto, unfolding(crate::specs::Drill::drill_app))]
    fn command<'a>(alloc: Global) -> Result<clap::Command<'a>, AllocError> {
        let options = [
            ("seed", "1"),
            ("processes", "4"),
            ("calls", "1000"),
            ("quantum", "8"),
        ];
        command_with_options(alloc, "drill", &options)
    }

    fn of_matches(_alloc: Global, matches: &ArgMatches<'_>) -> Result<Drill, WordsFault> {
        drill_of(matches).ok_or(WordsFault::Faulty)
    }
}

/// What the matches of `drill` ask for.
fn drill_of(matches: &ArgMatches<'_>) -> Option<Drill>
    ensures { result ≡ drill_in (rows_of (found_of matches.now)) }
{
    let seed = long_number_of_option(matches, "seed")?;
    let processes = number_of_option(matches, "processes")?;
    let calls = number_of_option(matches, "calls")?;
    let quantum = number_of_option(matches, "quantum")?;
    if calls > MOST_CALLS {
        return None;
    }
    Some(Drill {
        seed,
        processes,
        calls,
        quantum,
    })
}
