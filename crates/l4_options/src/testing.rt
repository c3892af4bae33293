//! The command line of `l4 test`.
ghost use Rattle.std.specs.Prelude.{◌≡◌, IfOk, IfSome, codes, map};
ghost use Rattle.std.specs.String.{string_bytes};
ghost use Rattle.l4_options.specs.Commands.{switch, test_command, Asks};
ghost use Rattle.l4_options.specs.Inside.Lines.{IsCommand, IsRule, found_in};

use crate::requests::{OptionFault, Options};
use crate::values::{is_on, texts_of, words_argument};
use clap::{Arg, ArgAction, ArgMatches, Command};
use l4_help::commands::TEST;
use std::alloc::{AllocError, Global};

/// The option `--tap`.
fn tap_option<'a>(alloc: Global) -> Arg<'a>
    ensures { IsRule (switch (codes "tap")) result }
{
    Arg::new(alloc, "tap")
        .long("tap")
        .help("Print the results in TAP, the Test Anything Protocol")
        .action(ArgAction::SetTrue)
}

/// The option `--write`.
fn write_option<'a>(alloc: Global) -> Arg<'a>
    ensures { IsRule (switch (codes "write")) result }
{
    Arg::new(alloc, "write")
        .long("write")
        .help("Write a copy of each script, FILE.new, that expects the actual answers")
        .action(ArgAction::SetTrue)
}

/// The option `--lenient`.
fn lenient_option<'a>(alloc: Global) -> Arg<'a>
    ensures { IsRule (switch (codes "lenient")) result }
{
    Arg::new(alloc, "lenient")
        .long("lenient")
        .help("Pass files that expect nothing, and refusals that are not expected")
        .action(ArgAction::SetTrue)
}

/// The command `test`.
pub(crate) fn of_files<'a>(alloc: Global) -> Result<Command<'a>, AllocError>
    ensures { IfOk result (IsCommand test_command) }
{
    Command::new(alloc, "test")
        .about("Runs scripts and compares the answers with those that they expect")
        .after_help(TEST)
        .arg(words_argument(
            alloc,
            "files",
            "FILE",
            "The scripts with the answers that they expect",
        ))?
        .arg(tap_option(alloc))?
        .arg(write_option(alloc))?
        .arg(lenient_option(alloc))
}

/// A copy of these names. None if there is not enough memory.
pub(crate) fn copied(alloc: Global, names: &[&str]) -> Option<Vec<String>>
    ensures { IfSome result (λ copy. map string_bytes copy.items ≡ map (λ s. s.now) names.now) }
{
    let mut copy = Vec::new(alloc);
    for name in names {
        let text = match String::from_str(alloc, name) {
            Ok(text) => text,
            Err(_) => return None,
        };
        match copy.push(text) {
            Ok(()) => {}
            Err(_) => return None,
        }
    }
    Some(copy)
}

/// What the matches of `test` ask for.
pub(crate) fn test_options(alloc: Global, matches: &ArgMatches<'_>) -> Result<Options, OptionFault>
    ensures { IfOk result (Asks (codes "test") (found_in matches.now)) }
{
    let Some(names) = texts_of(matches, "files") else {
        return Err(OptionFault::Memory);
    };
    let Some(files) = copied(alloc, names) else {
        return Err(OptionFault::Memory);
    };
    let tap = is_on(matches, "tap");
    let write = is_on(matches, "write");
    if tap && write {
        return Err(OptionFault::Exclude("--tap", "--write"));
    }
    let lenient = is_on(matches, "lenient");
    if lenient && write {
        return Err(OptionFault::Exclude("--lenient", "--write"));
    }
    Ok(Options::Test {
        files,
        tap,
        write,
        lenient,
    })
}
