// The words of `play`.
ghost use Rattle.std.specs.Prelude.{◌≡◌, Some, codes};
ghost use Rattle.clap.specs.Words.{all_of, found_of, rows_of};
ghost use Rattle.command_words.specs.Play.{play_in};

use crate::asked::Asked;
use crate::options::{command_with_files, files_of, number_of_option};
use crate::{FileNames, Play, WordsFault};
use clap::ArgMatches;
use std::alloc::{AllocError, Global};

impl Asked for Play {
    ghost use Rattle.command_words.specs.Play.{play_app, play_in};
    ghost use Rattle.command_words.specs.Readable.{play_is_readable};

    ghost app = { play_app };

    ghost asked = { play_in };

    ghost readable = { play_is_readable };

    #[tactic(auto, unfolding(crate::specs::Play::play_app))]
    fn command<'a>(alloc: Global) -> Result<clap::Command<'a>, AllocError> {
        command_with_files(
            alloc,
            "play",
            &[("batches", "1024"), ("size", "64"), ("quantum", "8")],
        )
    }

    fn of_matches(alloc: Global, matches: &ArgMatches<'_>) -> Result<Play, WordsFault> {
        let files = files_of(alloc, matches)?;
        play_of(matches, files).ok_or(WordsFault::Faulty)
    }
}

/// What the matches of `play` ask for, which have these files.
fn play_of(matches: &ArgMatches<'_>, files: FileNames) -> Option<Play>
    requires { all_of (codes "files") (rows_of (found_of matches.now)) ≡ Some files }
    ensures { result ≡ play_in (rows_of (found_of matches.now)) }
{
    Some(Play {
        batches: number_of_option(matches, "batches")?,
        size: number_of_option(matches, "size")?,
        quantum: number_of_option(matches, "quantum")?,
        files,
    })
}
