//! The command line of `l4 orders`.
ghost use Rattle.std.specs.Prelude.{◌≡◌, IfOk, codes};
ghost use Rattle.l4_options.specs.Spelled.{IsCountAt, IsChosenAt};
ghost use Rattle.l4_options.specs.Commands.{option, switch, orders_command, Asks};
ghost use Rattle.l4_options.specs.Inside.Lines.{IsCommand, IsRule, found_in};

use crate::requests::{OptionFault, Options, OrdersOptions};
use crate::values::{
    decimal_of, file_argument, frames_option, is_on, script_of, size_option, text_of,
};
use clap::{Arg, ArgAction, ArgMatches, Command};
use l4_help::commands::ORDERS;
use std::alloc::{AllocError, Global};

/// The number of states that are visited if `--most` is left out.
const DEFAULT_MOST: u32 = 1_000_000;

/// The option `--most`.
fn most_option<'a>(alloc: Global) -> Arg<'a>
    ensures { IsRule (option (codes "most")) result }
{
    Arg::new(alloc, "most")
        .long("most")
        .value_name("N")
        .help("The number of states to visit at most [default: 1000000]")
        .action(ArgAction::Set)
}

/// The option `--witness`.
fn witness_option<'a>(alloc: Global) -> Arg<'a>
    ensures { IsRule (option (codes "witness")) result }
{
    Arg::new(alloc, "witness")
        .long("witness")
        .value_name("K")
        .help("Print a script that produces outcome K, instead of the outcomes")
        .action(ArgAction::Set)
}

/// The option `--outcomes`.
fn outcomes_option<'a>(alloc: Global) -> Arg<'a>
    ensures { IsRule (switch (codes "outcomes")) result }
{
    Arg::new(alloc, "outcomes")
        .long("outcomes")
        .help("Print the outcomes without their orders")
        .action(ArgAction::SetTrue)
}

/// The option `--dot`.
fn dot_option<'a>(alloc: Global) -> Arg<'a>
    ensures { IsRule (switch (codes "dot")) result }
{
    Arg::new(alloc, "dot")
        .long("dot")
        .help("Print the graph of the states in the DOT language, instead of the outcomes")
        .action(ArgAction::SetTrue)
}

/// The option `--explain`.
fn explain_option<'a>(alloc: Global) -> Arg<'a>
    ensures { IsRule (switch (codes "explain")) result }
{
    Arg::new(alloc, "explain")
        .long("explain")
        .help("Print the lines of each order, and not only their numbers")
        .action(ArgAction::SetTrue)
}

/// The option `--lenient`.
fn lenient_option<'a>(alloc: Global) -> Arg<'a>
    ensures { IsRule (switch (codes "lenient")) result }
{
    Arg::new(alloc, "lenient")
        .long("lenient")
        .help("Search also if a line before 'unordered' is refused")
        .action(ArgAction::SetTrue)
}

/// The command `orders`.
pub(crate) fn of_orders<'a>(alloc: Global) -> Result<Command<'a>, AllocError>
    ensures { IfOk result (IsCommand orders_command) }
{
    Command::new(alloc, "orders")
        .about("Prints every outcome that some order of the threads' calls can have")
        .after_help(ORDERS)
        .arg(file_argument(alloc, "The litmus test [default: standard input]"))?
        .arg(frames_option(alloc))?
        .arg(size_option(alloc))?
        .arg(most_option(alloc))?
        .arg(witness_option(alloc))?
        .arg(outcomes_option(alloc))?
        .arg(dot_option(alloc))?
        .arg(explain_option(alloc))?
        .arg(lenient_option(alloc))
}

/// The number of states to visit at most.
fn most_of(alloc: Global, matches: &ArgMatches<'_>) -> Result<u32, OptionFault>
    ensures { IfOk result (IsCountAt (found_in matches.now) (codes "most")) }
{
    match text_of(matches, "most") {
        Some(word) => decimal_of(alloc, word, "--most <N>"),
        None => Ok(DEFAULT_MOST),
    }
}

/// The outcome whose script is printed, if one is chosen.
fn witness_of(alloc: Global, matches: &ArgMatches<'_>) -> Result<Option<u32>, OptionFault>
    ensures { IfOk result (IsChosenAt (found_in matches.now) (codes "witness")) }
{
    let Some(word) = text_of(matches, "witness") else {
        return Ok(None);
    };
    match decimal_of(alloc, word, "--witness <K>") {
        Ok(number) => Ok(Some(number)),
        Err(fault) => Err(fault),
    }
}

/// What the matches of `orders` ask for.
pub(crate) fn orders_options(
    alloc: Global,
    matches: &ArgMatches<'_>,
) -> Result<Options, OptionFault>
    ensures { IfOk result (Asks (codes "orders") (found_in matches.now)) }
{
    let most = most_of(alloc, matches)?;
    let witness = witness_of(alloc, matches)?;
    let brief = is_on(matches, "outcomes");
    let dot = is_on(matches, "dot");
    if dot && witness.is_some() {
        return Err(OptionFault::Exclude("--dot", "--witness"));
    }
    if dot && brief {
        return Err(OptionFault::Exclude("--dot", "--outcomes"));
    }
    match script_of(alloc, matches) {
        Ok(test) => Ok(Options::Orders(OrdersOptions {
            test,
            most,
            witness,
            brief,
            dot,
            explain: is_on(matches, "explain"),
            lenient: is_on(matches, "lenient"),
            has_frames: text_of(matches, "frames").is_some(),
            has_size: text_of(matches, "page-size").is_some(),
        })),
        Err(fault) => Err(fault),
    }
}
