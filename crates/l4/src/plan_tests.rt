//! `l4 test` over litmus tests.
ghost use Rattle.std.specs.Prelude.{◌≡◌, MatchResult};
ghost use Rattle.l4_text.specs.Tokens.{tokens_of};
ghost use Rattle.l4_orders.specs.Rules.{breaks_any};
ghost use Rattle.l4.specs.Files.{is_rule, has_rule};
ghost use Rattle.l4_litmus.specs.Statuses.{fault_status, ruled_status};
ghost use Rattle.l4_options.specs.Ranges.{IsFrameCount};

use crate::tap::Escaped;
use crate::tested::{Place, Written, print_empty, print_reason, print_untested, printed};
use l4_litmus::{TestFault, not_searched, read_test, report_fault, ruled_status};
use l4_options::ScriptOptions;
use l4_orders::{Explored, Plan, PlanLine, all_orders, rules_text, summary_text};
use l4_programs::{NOT_UNDERSTOOD, stopped};
use l4_text::{RunFault, next_token};
use std::alloc::{AllocError, Global};
use std::str;

/// The number of states that are visited at most.
const MOST: u64 = 1_000_000;

/// The first tokens of rules.
const NEVER: &[u8] = b"never";

const ALWAYS: &[u8] = b"always";

/// Why a plan without a rule does not pass.
const NO_RULE: &str = "the litmus test has no rule, so it tests nothing";

/// Prints on standard error that a litmus test has no copy with actual answers.
pub(crate) fn report_not_copied(rt: &impl Eprint, file: &str) -> u8
    ensures { result ≡ 2 }
{
    let _ = eprintln!(rt; "error: {file}: a litmus test has no expectations, and so no copy");
    NOT_UNDERSTOOD
}

/// Returns the summary of a search without its newline, and the text of the rules that are broken.
fn texts(
    alloc: Global,
    plan: &Plan,
    explored: &Explored,
) -> Result<(Vec<u8>, Vec<u8>), AllocError> {
    let summary = summary_text(alloc, explored)?;
    let rules = rules_text(alloc, plan, false, explored.found.as_slice())?;
    Ok((summary, rules))
}

/// Prints the text of the rules that are broken, as comments in TAP.
fn print_rules<R: Print>(rt: &R, tap: bool, rules: &str) -> Written {
    if !tap {
        return rt.print(rules);
    }
    let mut rest = rules;
    for _ in 0..rules.len() {
        let Some((line, later)) = rest.split_once("\n") else {
            return Ok(());
        };
        println!(rt; "# {line}")?;
        rest = later;
    }
    Ok(())
}

/// Prints the result of a search.
fn print_result<R: Print>(
    rt: &R,
    place: &Place<'_>,
    passed: bool,
    summary: &str,
    rules: &str,
) -> Written {
    let file = place.file;
    if place.tap {
        let number = place.number;
        let mark = if passed { "ok" } else { "not ok" };
        println!(rt; "{mark} {number} - {}: {summary}", Escaped(file))?;
    } else {
        let end = if passed { "passed" } else { "failed" };
        println!(rt; "{file}: {summary}, {end}")?;
    }
    print_rules(rt, place.tap, rules)
}

/// Returns the exit status of a search whose result was written: 3 if the write failed.
fn report_searched(rt: &impl Eprint, plan: &Plan, explored: &Explored, written: Written) -> u8
    ensures { MatchResult written
        (λ _. result
        ≡ ruled_status (breaks_any plan.now explored.now.found.items) explored.now.ended)
        (λ _. result ≡ 3) }
{
    printed(rt, written, ruled_status(plan, explored))
}

/// Prints the result of a search, and returns the exit status.
fn tell_searched<R: AllocGlobal + Print + Eprint>(
    rt: &R,
    place: &Place<'_>,
    plan: &Plan,
    explored: &Explored,
) -> u8 {
    let Ok((summary, rules)) = texts(rt.alloc(), plan, explored) else {
        return stopped(rt, RunFault::Memory, None, None);
    };
    let summary = str::from_utf8(summary.as_slice()).unwrap_or("").trim_end();
    let rules = str::from_utf8(rules.as_slice()).unwrap_or("");
    let passed = ruled_status(plan, explored) == 0;
    let written = print_result(rt, place, passed, summary, rules);
    report_searched(rt, plan, explored, written)
}

/// Prints in TAP why a file is not searched as a litmus test.
fn print_fault<R: AllocGlobal + Print>(rt: &R, place: &Place<'_>, fault: &TestFault) -> Written {
    if let TestFault::Stopped(_) = fault {
        return print_untested(rt, place);
    }
    match format!(in rt.alloc(); "{fault}") {
        Ok(reason) => print_reason(rt, place, reason.as_str()),
        Err(_) => print_untested(rt, place),
    }
}

/// Reports why a file is not searched, after that was printed in TAP. Returns the exit status: 3 if that write failed.
fn report_no_test(rt: &impl Eprint, file: &str, fault: &TestFault, written: Written) -> u8
    ensures { MatchResult written (λ _. result ≡ fault_status fault.now) (λ _. result ≡ 3) }
{
    let status = report_fault(rt, Some(file), fault);
    printed(rt, written, status)
}

/// Returns whether a line states a rule.
fn is_rule(line: &PlanLine) -> bool
    ensures { result ≡ is_rule (tokens_of line.now.bytes.items) }
{
    match next_token(line.bytes.as_slice()) {
        Some((token, _)) => token == NEVER || token == ALWAYS,
        None => false,
    }
}

/// Returns whether a plan has a rule.
fn has_rule(plan: &Plan) -> bool
    ensures { result ≡ has_rule plan.now }
{
    plan.queries.iter().any(|line| is_rule(line))
}

/// Searches all orders of the litmus test in this text, and prints the result. Returns the exit status. A test without a rule, or with a
/// refused line before `unordered`, passes only if the test is lenient.
pub(crate) fn test_plan<R: AllocGlobal + Print + Eprint>(
    rt: &R,
    place: &Place<'_>,
    script: &ScriptOptions,
    lenient: bool,
    text: &[u8],
) -> u8
    requires { IsFrameCount script.now.frames }
{
    let plan = match read_test(rt.alloc(), script, lenient, text) {
        Ok(plan) => plan,
        Err(fault) => {
            let written = print_fault(rt, place, &fault);
            return report_no_test(rt, place.file, &fault, written);
        }
    };
    if !lenient && !has_rule(&plan) {
        let written = print_empty(rt, place, NO_RULE);
        return printed(rt, written, NOT_UNDERSTOOD);
    }
    match all_orders(rt.alloc(), script.frames, script.size, &plan, MOST) {
        Ok(explored) => tell_searched(rt, place, &plan, &explored),
        Err(failure) => {
            let status = not_searched(rt, failure);
            let written = print_untested(rt, place);
            printed(rt, written, status)
        }
    }
}
