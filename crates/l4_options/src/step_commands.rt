//! Reads the command line of `l4_steps`.
ghost use Rattle.std.specs.Prelude.{◌≡◌, IfOk, map};
ghost use Rattle.clap.specs.Simple.{app_of};
ghost use Rattle.clap.specs.Values.{kind_of};
ghost use Rattle.l4_options.specs.Commands.{l4_steps_program, AreStepsAsked, AreStepsIn, IsStepsText};
ghost use Rattle.l4_options.specs.Inside.Lines.{IsTextKind, found_in};
ghost use Rattle.l4_options.specs.Ranges.{AreStepsInRange};

use crate::requests::{OptionFault, StepOptions};
use crate::values::{file_argument, frames_option, help_text, script_of, size_option};
use clap::{ArgMatches, Command, Error};
use l4_help::steps::{ABOUT, LANGUAGE};
use std::alloc::{AllocError, Global};
use std::convert::AsStr;

/// The options that are known.
fn known<'a>(alloc: Global) -> Result<Command<'a>, AllocError>
    ensures { IfOk result (λ c. app_of c ≡ l4_steps_program) }
{
    Command::new(alloc, "l4_steps")
        .about(ABOUT)
        .version("0.1.0")
        .after_help(LANGUAGE)
        .arg(file_argument(alloc, "The step list [default: standard input]"))?
        .arg(frames_option(alloc))?
        .arg(size_option(alloc))
}

/// What the matches ask for.
fn step_request(alloc: Global, matches: &ArgMatches<'_>) -> Result<StepOptions, OptionFault>
    ensures { IfOk result (AreStepsIn (found_in matches.now)) }
{
    match script_of(alloc, matches) {
        Ok(list) => Ok(StepOptions::Run(list)),
        Err(fault) => Err(fault),
    }
}

/// What a parse that gave no matches means.
fn without_matches(alloc: Global, error: &Error) -> Result<StepOptions, OptionFault>
    ensures { IfOk result (λ o. IsStepsText o × IsTextKind (kind_of error.now)) }
{
    match help_text(alloc, error) {
        Ok(text) => Ok(StepOptions::Show(text)),
        Err(fault) => Err(fault),
    }
}

/// What the words of the command line ask for.
fn requested<'a, S: AsStr>(alloc: Global, words: &'a [S]) -> Result<StepOptions, OptionFault>
    ensures { IfOk result (AreStepsAsked (map S.text words.entry.now)) }
{
    let Ok(command) = known(alloc) else {
        return Err(OptionFault::Memory);
    };
    let matches = match command.try_get_matches_from(words) {
        Ok(matches) => matches,
        Err(error) => return without_matches(alloc, &error),
    };
    step_request(alloc, &matches)
}

/// Reads the words of the command line, the program's name first: `l4_steps [FILE] [--frames N] [--page-size BYTES]`, `--help` or `--version`.
/// N is 256 and BYTES 4096 where they are left out.
pub fn step_options<'a, S: AsStr>(alloc: Global, words: &'a [S]) -> Result<StepOptions, OptionFault>
    ensures asked { IfOk result (AreStepsAsked (map S.text words.entry.now)) }
    ensures range { IfOk result AreStepsInRange }
{
    requested(alloc, words)
}
