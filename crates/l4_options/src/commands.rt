//! Reads the command line of `l4`.
ghost use Rattle.std.specs.Prelude.{◌≡◌, IfOk, IfSome, Some, codes, map};
ghost use Rattle.clap.specs.Simple.{app_of};
ghost use Rattle.clap.specs.Values.{kind_of};
ghost use Rattle.l4_options.specs.Commands.{needed_word, run_command, judge_command, why_command, region_command, check_command, decode_command, l4_program, Asks, IsAsked, IsText};
ghost use Rattle.l4_options.specs.Inside.Lines.{IsRule, IsCommand, IsTextKind, bare_program, found_in, with_commands};
ghost use Rattle.l4_options.specs.Inside.Words.{spelled_anew};
ghost use Rattle.l4_options.specs.Ranges.{IsInRange};

use crate::encoding::{encode_options, of_tokens};
use crate::histories::{from_option, history_options, of_history, segment_files};
use crate::ordering::{of_orders, orders_options};
use crate::requests::{JudgeOptions, OptionFault, Options};
use crate::testing::{of_files, test_options};
use crate::values::{
    against_option, all_option, explain_option, file_argument, follow_option, frames_option,
    help_text, history_option, is_on, is_strict, is_word, moves_option, name_of, number_of,
    number_option, partial_option, reading_of, reading_option, region_of, script_of, size_of,
    size_option, strict_option, texts_of, without_hyphens, words_argument, words_of,
};
use clap::error::ErrorKind;
use clap::{Arg, ArgAction, ArgMatches, Command, Error};
use l4_help::commands::{ABOUT, CHECK, DECODE, JUDGE, PLAN, SCRIPT, WHY};
use std::alloc::{AllocError, Global};
use std::convert::AsStr;

/// What the help says of the file of a script.
pub(crate) const SCRIPT_FILE: &str = "The script [default: standard input]";

/// A word that has to be there.
fn needed_word<'a>(alloc: Global, id: &'a str, name: &'a str, help: &'a str) -> Arg<'a>
    ensures { IsRule (needed_word id.now) result }
{
    Arg::new(alloc, id)
        .value_name(name)
        .help(help)
        .required(true)
        .action(ArgAction::Set)
}

/// A command that takes a region and the size of its pages.
fn of_region<'a>(
    alloc: Global,
    name: &'a str,
    about: &'a str,
    more: &'a str,
) -> Result<Command<'a>, AllocError>
    ensures { IfOk result (IsCommand (region_command name.now)) }
{
    Command::new(alloc, name)
        .about(about)
        .after_help(more)
        .arg(needed_word(alloc, "source", "SOURCE", "The first page of the region"))?
        .arg(needed_word(alloc, "target", "TARGET", "The page to which it moves"))?
        .arg(needed_word(alloc, "count", "COUNT", "The number of pages in the region"))?
        .arg(needed_word(
            alloc,
            "rights",
            "RIGHTS",
            "The rights, such as rwx or r_x; write _ for each missing right",
        ))?
        .arg(size_option(alloc))
}

/// The command `check`.
fn of_plan<'a>(alloc: Global) -> Result<Command<'a>, AllocError>
    ensures { IfOk result (IsCommand check_command) }
{
    of_region(
        alloc,
        "check",
        "Checks that a plan is exact and that no list is shorter",
        CHECK,
    )?
    .arg(file_argument(alloc, "The plan [default: standard input]"))
}

/// The command `why`.
fn of_page<'a>(alloc: Global) -> Result<Command<'a>, AllocError>
    ensures { IfOk result (IsCommand why_command) }
{
    Command::new(alloc, "why")
        .about("Prints how a page got into the space of a thread")
        .after_help(WHY)
        .arg(needed_word(alloc, "thread", "THREAD", "The number of the thread"))?
        .arg(needed_word(alloc, "page", "PAGE", "The number of the page in its space"))?
        .arg(file_argument(alloc, SCRIPT_FILE))?
        .arg(frames_option(alloc))?
        .arg(size_option(alloc))?
        .arg(strict_option(alloc))?
        .arg(from_option(
            alloc,
            "Use the history in these files instead of a script's",
        ))
}

/// The command `judge`.
fn of_list<'a>(alloc: Global) -> Result<Command<'a>, AllocError>
    ensures { IfOk result (IsCommand judge_command) }
{
    Command::new(alloc, "judge")
        .about("Compares another kernel's answers to steps with those of this kernel")
        .after_help(JUDGE)
        .arg(file_argument(
            alloc,
            "The step list with answers [default: standard input]",
        ))?
        .arg(frames_option(alloc))?
        .arg(size_option(alloc))?
        .arg(against_option(alloc))?
        .arg(partial_option(alloc))?
        .arg(all_option(alloc))?
        .arg(follow_option(alloc))
}

/// The command `run`.
fn of_script<'a>(alloc: Global) -> Result<Command<'a>, AllocError>
    ensures { IfOk result (IsCommand run_command) }
{
    Command::new(alloc, "run")
        .about("Runs a script of kernel calls and prints the answers")
        .after_help(SCRIPT)
        .arg(file_argument(alloc, SCRIPT_FILE))?
        .arg(frames_option(alloc))?
        .arg(size_option(alloc))?
        .arg(strict_option(alloc))?
        .arg(explain_option(alloc))?
        .arg(number_option(alloc))?
        .arg(moves_option(alloc))?
        .arg(history_option(alloc))
}

/// The command `decode`.
fn of_words<'a>(alloc: Global) -> Result<Command<'a>, AllocError>
    ensures { IfOk result (IsCommand decode_command) }
{
    Command::new(alloc, "decode")
        .about("Explains the words of a message")
        .after_help(DECODE)
        .arg(words_argument(
            alloc,
            "words",
            "WORD",
            "At most 64 words, decimal or hexadecimal with a 0x prefix",
        ))?
        .arg(reading_option(alloc))?
        .arg(size_option(alloc))
}

/// The program without its commands.
fn bare_program<'a>(alloc: Global) -> Command<'a>
    ensures { app_of result ≡ bare_program }
{
    Command::new(alloc, "l4")
        .about(ABOUT)
        .version("0.1.0")
        .after_help(SCRIPT)
        .subcommand_required(true)
}

/// The program with the commands that read a script or a step list.
fn with_scripts<'a>(alloc: Global) -> Result<Command<'a>, AllocError>
    ensures { IfOk result (λ c. app_of c ≡ with_commands 4) }
{
    bare_program(alloc)
        .subcommand(of_script(alloc)?)?
        .subcommand(of_history(alloc)?)?
        .subcommand(of_list(alloc)?)?
        .subcommand(of_page(alloc)?)
}

/// The program with these commands and those about regions and the words of messages.
fn with_words<'a>(alloc: Global) -> Result<Command<'a>, AllocError>
    ensures { IfOk result (λ c. app_of c ≡ with_commands 8) }
{
    with_scripts(alloc)?
        .subcommand(of_region(
            alloc,
            "plan",
            "Prints the shortest list of map items that delegates a region",
            PLAN,
        )?)?
        .subcommand(of_plan(alloc)?)?
        .subcommand(of_words(alloc)?)?
        .subcommand(of_tokens(alloc)?)
}

/// The commands and options that are known.
fn known<'a>(alloc: Global) -> Result<Command<'a>, AllocError>
    ensures { IfOk result (λ c. app_of c ≡ l4_program) }
{
    with_words(alloc)?
        .subcommand(of_files(alloc)?)?
        .subcommand(of_orders(alloc)?)
}

/// The rights among the words of a plan or a check that were taken for an option, as the word and as it can be written.
fn taken_for_option<'a, S: AsStr>(words: &'a [S]) -> Option<(&'a str, &'static str)>
    ensures { IfSome result (λ r. spelled_anew r.0.now ≡ Some r.1.now) }
{
    if words.len() < 2 {
        return None;
    }
    let command = words[1].as_str();
    if command != "plan" && command != "check" {
        return None;
    }
    for word in words {
        if let Some(instead) = without_hyphens(word.as_str()) {
            return Some((word.as_str(), instead));
        }
    }
    None
}

/// What a parse that gave no matches of these words means.
fn without_matches<'a, S: AsStr>(
    alloc: Global,
    error: &Error,
    words: &'a [S],
) -> Result<Options, OptionFault>
    ensures { IfOk result (λ o. IsText o × IsTextKind (kind_of error.now)) }
{
    if error.kind() == ErrorKind::UnknownArgument {
        if let Some((word, instead)) = taken_for_option(words) {
            return match String::from_str(alloc, word) {
                Ok(word) => Err(OptionFault::Hyphens { word, instead }),
                Err(_) => Err(OptionFault::Memory),
            };
        }
    }
    match help_text(alloc, error) {
        Ok(text) => Ok(Options::Show(text)),
        Err(fault) => Err(fault),
    }
}

/// What the matches of `run` ask for.
fn run_options(alloc: Global, matches: &ArgMatches<'_>) -> Result<Options, OptionFault>
    ensures { IfOk result (Asks (codes "run") (found_in matches.now)) }
{
    let script = script_of(alloc, matches)?;
    let history_to = name_of(alloc, matches, "history-to")?;
    let number = is_on(matches, "number");
    let moves = is_on(matches, "moves");
    if number && history_to.is_some() {
        return Err(OptionFault::Exclude("--number", "--history-to"));
    }
    if moves && history_to.is_some() {
        return Err(OptionFault::Exclude("--moves", "--history-to"));
    }
    Ok(Options::Run {
        script,
        strict: is_strict(matches),
        explain: is_on(matches, "explain"),
        number,
        moves,
        history_to,
    })
}

/// What the matches of `judge` ask for.
fn judge_options(alloc: Global, matches: &ArgMatches<'_>) -> Result<Options, OptionFault>
    ensures { IfOk result (Asks (codes "judge") (found_in matches.now)) }
{
    let list = script_of(alloc, matches)?;
    match name_of(alloc, matches, "against") {
        Ok(against) => Ok(Options::Judge(JudgeOptions {
            list,
            against,
            partial: is_on(matches, "partial"),
            all: is_on(matches, "all"),
            follow: is_on(matches, "follow"),
        })),
        Err(fault) => Err(fault),
    }
}

/// What the matches of `why` ask for.
fn why_options(alloc: Global, matches: &ArgMatches<'_>) -> Result<Options, OptionFault>
    ensures { IfOk result (Asks (codes "why") (found_in matches.now)) }
{
    let thread = number_of(alloc, matches, "thread", "<THREAD>")?;
    let page = number_of(alloc, matches, "page", "<PAGE>")?;
    if let Some(names) = texts_of(matches, "from") {
        return match segment_files(alloc, matches, names) {
            Ok(files) => Ok(Options::WhySegments {
                files,
                thread,
                page,
            }),
            Err(fault) => Err(fault),
        };
    }
    match script_of(alloc, matches) {
        Ok(script) => Ok(Options::Why {
            script,
            strict: is_strict(matches),
            thread,
            page,
        }),
        Err(fault) => Err(fault),
    }
}

/// What the matches of `decode` ask for.
fn decode_options(alloc: Global, matches: &ArgMatches<'_>) -> Result<Options, OptionFault>
    ensures { IfOk result (Asks (codes "decode") (found_in matches.now)) }
{
    match words_of(alloc, matches) {
        Ok(words) => Ok(Options::Decode {
            reading: reading_of(alloc, matches, words.len())?,
            size: size_of(alloc, matches)?,
            words,
        }),
        Err(fault) => Err(fault),
    }
}

/// What the matches of `plan` ask for.
fn plan_options(alloc: Global, matches: &ArgMatches<'_>) -> Result<Options, OptionFault>
    ensures { IfOk result (Asks (codes "plan") (found_in matches.now)) }
{
    match region_of(alloc, matches) {
        Ok(region) => Ok(Options::Plan {
            region,
            size: size_of(alloc, matches)?,
        }),
        Err(fault) => Err(fault),
    }
}

/// What the matches of `check` ask for.
fn check_options(alloc: Global, matches: &ArgMatches<'_>) -> Result<Options, OptionFault>
    ensures { IfOk result (Asks (codes "check") (found_in matches.now)) }
{
    match region_of(alloc, matches) {
        Ok(region) => Ok(Options::Check {
            region,
            size: size_of(alloc, matches)?,
            file: name_of(alloc, matches, "file")?,
        }),
        Err(fault) => Err(fault),
    }
}

/// What the matches of the command of this name ask for.
fn command_options(
    alloc: Global,
    name: &str,
    matches: &ArgMatches<'_>,
) -> Result<Options, OptionFault>
    ensures { IfOk result (Asks name.now (found_in matches.now)) }
{
    if is_word(name, "run") {
        return run_options(alloc, matches);
    }
    if is_word(name, "history") {
        return history_options(alloc, matches);
    }
    if is_word(name, "judge") {
        return judge_options(alloc, matches);
    }
    if is_word(name, "why") {
        return why_options(alloc, matches);
    }
    if is_word(name, "plan") {
        return plan_options(alloc, matches);
    }
    if is_word(name, "check") {
        return check_options(alloc, matches);
    }
    if is_word(name, "decode") {
        return decode_options(alloc, matches);
    }
    if is_word(name, "encode") {
        return encode_options(alloc, matches);
    }
    if is_word(name, "test") {
        return test_options(alloc, matches);
    }
    if is_word(name, "orders") {
        return orders_options(alloc, matches);
    }
    Err(OptionFault::Memory)
}

/// What the words of the command line ask for.
fn requested<'a, S: AsStr>(alloc: Global, words: &'a [S]) -> Result<Options, OptionFault>
    ensures { IfOk result (IsAsked (map S.text words.entry.now)) }
{
    let Ok(command) = known(alloc) else {
        return Err(OptionFault::Memory);
    };
    let matches = match command.try_get_matches_from(words) {
        Ok(matches) => matches,
        Err(error) => return without_matches(alloc, &error, words),
    };
    match matches.subcommand() {
        Some((name, found)) => command_options(alloc, name, found),
        None => Err(OptionFault::Memory),
    }
}

/// Reads the words of the command line, the program's name first:
/// `l4 run [FILE] [--frames N] [--strict] [--explain] [--number] [--moves] [--history-to SEGMENTS]`, `l4 history [FILE] [--frames N] [--strict] [--answers]`, `l4 history --from SEGMENTS.. [--answers]`,
/// `l4 judge [FILE] [--frames N] [--against LIST] [--partial] [--all] [--follow]`, `l4 why THREAD PAGE [FILE] [--frames N] [--strict]`, `l4 why THREAD PAGE --from SEGMENTS..`, `l4 plan SOURCE TARGET COUNT RIGHTS`, `l4 check SOURCE TARGET COUNT RIGHTS [FILE]`, `l4 decode [--as READING] WORD..`, `l4 encode [--as KIND] TOKEN..`, `l4 test FILE.. [--tap] [--write] [--lenient]`, `l4 orders [FILE] [--frames N] [--most N] [--witness K] [--outcomes] [--dot]`, each with
/// `--page-size BYTES` where that is wanted, `--help`, `help` or `--version`. N is 256 and BYTES 4096 where they are left out; READING is
/// message, fpage, window or id.
///
/// Returns `Memory` if an allocation fails. Every other fault names the word that is not understood, and the argument too if the word stands
/// for a number or for rights.
pub fn options<'a, S: AsStr>(alloc: Global, words: &'a [S]) -> Result<Options, OptionFault>
    ensures asked { IfOk result (IsAsked (map S.text words.entry.now)) }
    ensures range { IfOk result IsInRange }
{
    requested(alloc, words)
}
