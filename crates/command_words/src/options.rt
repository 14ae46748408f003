// The options of a command, its files, and the matches of its words.
ghost use Rattle.std.specs.Prelude.{◌≡◌, [], false, IfOk, IfErr, codes, map, string_bytes};
ghost use Rattle.clap.specs.Words.{all_of, app_of, found_of, rows_of, rule_of};
ghost use Rattle.command_words.specs.Options.{IsMatchedBy, IsReadable, IsRefused, command_of, files_rule, number_at, option_rule};
ghost use Rattle.command_words.specs.Options.{with_files, with_options};
ghost use Rattle.command_words.specs.Reads.{Reads};
ghost use Rattle.command_words.specs.declared.fault.WordsFault.TheVariants.{Faulty};

use crate::number::read_number;
use crate::{FileNames, WordsFault};
use clap::{Arg, ArgAction, ArgMatches};
use std::alloc::{AllocError, Global};

/// A command without options and files, and without the flag that asks for help.
fn bare_command<'a>(alloc: Global, name: &'a str) -> clap::Command<'a>
    ensures { app_of result ≡ command_of name.entry.now [] }
{
    clap::Command::new(alloc, name).disable_help_flag(true)
}

/// A command with these options, each a name and its default, and without files.
pub(crate) fn command_with_options<'a>(
    alloc: Global,
    name: &'a str,
    options: &[(&'a str, &'a str)],
) -> Result<clap::Command<'a>, AllocError>
    ensures { IfOk result (λ command. app_of command ≡ with_options name.entry.now options.now) }
{
    let mut command = bare_command(alloc, name);
    for &(option_name, default) in options {
        command = command.arg(option(alloc, option_name, default))?;
    }
    Ok(command)
}

/// A command with these options, each a name and its default, and with files.
pub(crate) fn command_with_files<'a>(
    alloc: Global,
    name: &'a str,
    options: &[(&'a str, &'a str)],
) -> Result<clap::Command<'a>, AllocError>
    ensures { IfOk result (λ command. app_of command ≡ with_files (with_options name.entry.now options.now)) }
{
    command_with_options(alloc, name, options)?.arg(files_arg(alloc))
}

/// What words match of a command, whose name is the first of them. Its errors are a fault that `clap` finds in them,
/// and want of memory.
pub(crate) fn read_matches<'a>(
    command: clap::Command<'a>,
    words: &'a [String],
) -> Result<ArgMatches<'a>, WordsFault>
    requires { IsReadable (app_of command) }
    ensures ok { IfOk result (λ matches.
        IsMatchedBy (app_of command.entry) (map string_bytes words.now) (rows_of (found_of matches))) }
    ensures faulty { IfErr result (λ fault. fault ≡ Faulty → IsRefused (app_of command.entry) (map string_bytes words.now)) }
{
    Ok(command.try_get_matches_from(words)?)
}

/// An option `--name V` with its default.
fn option<'a>(alloc: Global, name: &'a str, default: &'a str) -> Arg<'a>
    ensures rule { rule_of result ≡ option_rule name.entry.now default.entry.now }
    ensures local { result.global ≡ false }
{
    Arg::new(alloc, name)
        .long(name)
        .action(ArgAction::Set)
        .default_value(default)
}

/// The words of a command that are no options: file names, one at least.
fn files_arg<'a>(alloc: Global) -> Arg<'a>
    ensures rule { rule_of result ≡ files_rule }
    ensures local { result.global ≡ false }
{
    Arg::new(alloc, "files")
        .action(ArgAction::Append)
        .required(true)
}

/// The number of an option, given or default. None where its value is no number below 2^64.
pub(crate) fn long_number_of_option(matches: &ArgMatches<'_>, name: &str) -> Option<u64>
    ensures { result ≡ number_at 64 name.now (rows_of (found_of matches.now)) }
{
    read_number(matches.get_str(name)?)
}

/// The number of an option, given or default. None where its value is no number below 2^32.
pub(crate) fn number_of_option(matches: &ArgMatches<'_>, name: &str) -> Option<u32>
    ensures { result ≡ number_at 32 name.now (rows_of (found_of matches.now)) }
{
    u32::try_from(long_number_of_option(matches, name)?).ok()
}

/// The file names that the matches have.
pub(crate) fn files_of(alloc: Global, matches: &ArgMatches<'_>) -> Result<FileNames, WordsFault>
    ensures { Reads (all_of (codes "files") (rows_of (found_of matches.now))) result }
{
    let names = matches.get_raw("files").ok_or(WordsFault::Faulty)?;
    Ok(file_names(alloc, names)?)
}

/// Owned copies of the names.
fn file_names(alloc: Global, names: &[&str]) -> Result<FileNames, AllocError>
    ensures { IfOk result (λ files. files ≡ map (λ name. name.now) names.now) }
{
    let mut owned = Vec::with_capacity(alloc, names.len())?;
    for name in names {
        owned.push(String::from_str(alloc, name)?)?;
    }
    Ok(FileNames::new(owned))
}
