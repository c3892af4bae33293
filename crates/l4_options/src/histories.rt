//! The command line of `l4 history`.
ghost use Rattle.std.specs.Prelude.{◌≡◌, IfOk, codes, map, None};
ghost use Rattle.std.specs.String.{string_bytes};
ghost use Rattle.l4_options.specs.Commands.{history_command, option_words, Asks, HasNoScript};
ghost use Rattle.l4_options.specs.Inside.Lines.{IsCommand, IsRule, found_in};

use crate::commands::SCRIPT_FILE;
use crate::requests::{OptionFault, Options};
use crate::testing::copied;
use crate::values::{
    answers_option, file_argument, frames_option, is_on, is_strict, script_of, size_option,
    strict_option, text_of, texts_of,
};
use clap::{Arg, ArgAction, ArgMatches, Command};
use l4_help::commands::HISTORY;
use std::alloc::{AllocError, Global};

/// The option `--from`, with this help.
pub(crate) fn from_option<'a>(alloc: Global, help: &'a str) -> Arg<'a>
    ensures { IsRule (option_words (codes "from")) result }
{
    Arg::new(alloc, "from")
        .long("from")
        .value_name("SEGMENTS")
        .help(help)
        .num_args(1..)
        .action(ArgAction::Set)
}

/// The command `history`.
pub(crate) fn of_history<'a>(alloc: Global) -> Result<Command<'a>, AllocError>
    ensures { IfOk result (IsCommand history_command) }
{
    Command::new(alloc, "history")
        .about("Prints the steps of a script in the form that l4_steps reads")
        .after_help(HISTORY)
        .arg(file_argument(alloc, SCRIPT_FILE))?
        .arg(frames_option(alloc))?
        .arg(size_option(alloc))?
        .arg(strict_option(alloc))?
        .arg(answers_option(alloc))?
        .arg(from_option(
            alloc,
            "Print the history in these files instead of a script's",
        ))
}

/// The argument of a script that the matches have, as it is written on a command line.
fn script_argument(matches: &ArgMatches<'_>) -> Option<&'static str>
    ensures { result ≡ None → HasNoScript (found_in matches.now) }
{
    if text_of(matches, "file").is_some() {
        return Some("FILE");
    }
    if text_of(matches, "frames").is_some() {
        return Some("--frames");
    }
    if text_of(matches, "page-size").is_some() {
        return Some("--page-size");
    }
    if is_strict(matches) {
        return Some("--strict");
    }
    None
}

/// The names of files of segments, if the matches have no argument of a script.
pub(crate) fn segment_files(
    alloc: Global,
    matches: &ArgMatches<'_>,
    names: &[&str],
) -> Result<Vec<String>, OptionFault>
    ensures { IfOk result (λ files. (map string_bytes files.items ≡ map (λ s. s.now) names.now) × HasNoScript (found_in matches.now)) }
{
    if let Some(argument) = script_argument(matches) {
        return Err(OptionFault::Exclude(argument, "--from"));
    }
    match copied(alloc, names) {
        Some(files) => Ok(files),
        None => Err(OptionFault::Memory),
    }
}

/// What the matches of `history` ask for.
pub(crate) fn history_options(
    alloc: Global,
    matches: &ArgMatches<'_>,
) -> Result<Options, OptionFault>
    ensures { IfOk result (Asks (codes "history") (found_in matches.now)) }
{
    if let Some(names) = texts_of(matches, "from") {
        return match segment_files(alloc, matches, names) {
            Ok(files) => Ok(Options::Segments {
                files,
                answers: is_on(matches, "answers"),
            }),
            Err(fault) => Err(fault),
        };
    }
    match script_of(alloc, matches) {
        Ok(script) => Ok(Options::History {
            script,
            strict: is_strict(matches),
            answers: is_on(matches, "answers"),
        }),
        Err(fault) => Err(fault),
    }
}
