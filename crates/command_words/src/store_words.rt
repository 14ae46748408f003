// The words of `store`.
ghost use Rattle.std.specs.Prelude.{◌≡◌, Some, codes};
ghost use Rattle.clap.specs.Words.{all_of, found_of, rows_of};
ghost use Rattle.command_words.specs.Store.{store_in};

use crate::asked::Asked;
use crate::options::{command_with_files, files_of, number_of_option};
use crate::{FileNames, Store, WordsFault};
use clap::ArgMatches;
use std::alloc::{AllocError, Global};

impl Asked for Store {
    ghost use Rattle.command_words.specs.Store.{store_app, store_in};
    ghost use Rattle.command_words.specs.Readable.{store_is_readable};

    ghost app = { store_app };

    ghost asked = { store_in };

    ghost readable = { store_is_readable };

    #[tactic(auto, unfolding(crate::specs::Store::store_app))]
    fn command<'a>(alloc: Global) -> Result<clap::Command<'a>, AllocError> {
        command_with_files(alloc, "store", &[("batches", "1024"), ("quantum", "8")])
    }

    fn of_matches(alloc: Global, matches: &ArgMatches<'_>) -> Result<Store, WordsFault> {
        let files = files_of(alloc, matches)?;
        store_of(matches, files).ok_or(WordsFault::Faulty)
    }
}

/// What the matches of `store` ask for, which have these files.
fn store_of(matches: &ArgMatches<'_>, files: FileNames) -> Option<Store>
    requires { all_of (codes "files") (rows_of (found_of matches.now)) ≡ Some files }
    ensures { result ≡ store_in (rows_of (found_of matches.now)) }
{
    Some(Store {
        batches: number_of_option(matches, "batches")?,
        quantum: number_of_option(matches, "quantum")?,
        files,
    })
}
