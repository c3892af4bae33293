//! The outcomes that break the rules of a litmus test.
ghost use Rattle.std.specs.Prelude.{◌≡◌, ◌++◌, IfOk, OnOk};
ghost use Rattle.std.specs.List.{filter, flat_map, list_any};
ghost use Rattle.l4_text.specs.Tokens.{tokens_of};
ghost use Rattle.l4_orders.specs.Telling.{line_text};
ghost use Rattle.l4_rules.specs.Rules.{is_broken};
ghost use Rattle.l4_orders.specs.Rules.{breaks, breaks_any, head_text, first_text, rules_text, broken_rules};

use crate::numbers::put_number;
use crate::plans::{Plan, PlanLine};
use crate::telling::{put_line, put_order};
use l4_merges::Found;
use l4_names::Names;
use l4_rules::is_broken;
use std::alloc::{AllocError, Global};

/// Returns whether an outcome that was found breaks the rule in a line of the test.
fn breaks(plan: &Plan, line: &PlanLine, one: &Found) -> bool
    ensures { result ≡ breaks plan.now line.now one.now }
{
    is_broken(&plan.names, line.bytes.as_slice(), one.outcome.as_slice())
}

/// Returns whether one of these outcomes breaks the rule in a line of the test.
fn is_broken_by(plan: &Plan, line: &PlanLine, found: &[Found]) -> bool
    ensures { result ≡ list_any (λ one. breaks plan.now line.now one) found.now }
{
    found.iter().any(|one| breaks(plan, line, one))
}

/// Returns whether one of these outcomes breaks a rule of the test.
pub fn breaks_any(plan: &Plan, found: &[Found]) -> bool
    ensures { result ≡ breaks_any plan.now found.now }
{
    plan.queries
        .iter()
        .any(|line| is_broken_by(plan, line, found))
}

/// Appends that the outcome with this number breaks the rule in a line.
fn put_broken(
    alloc: Global,
    line: &PlanLine,
    number: u64,
    out: &mut Vec<u8>,
) -> Result<(), AllocError>
    ensures { OnOk result (out.new.items ≡ out.old.items ++ head_text line.now number) }
{
    out.extend_from_slice(b"broken ")?;
    put_number(alloc, line.number, out)?;
    out.extend_from_slice(b" ")?;
    put_number(alloc, number, out)?;
    out.extend_from_slice(b"\n")
}

/// Appends which outcome is the first that breaks the rule in a line, if there is one.
fn put_first(
    alloc: Global,
    plan: &Plan,
    explain: bool,
    line: &PlanLine,
    found: &[Found],
    out: &mut Vec<u8>,
) -> Result<(), AllocError>
    ensures { OnOk result (out.new.items
        ≡ out.old.items ++ first_text plan.now explain line.now 1 found.now) }
{
    let mut number = 1u64;
    for one in found {
        if breaks(plan, line, one) {
            put_broken(alloc, line, number, out)?;
            return put_order(alloc, plan, explain, one.order.as_slice(), out);
        }
        let Some(next) = number.checked_add(1) else {
            return Err(AllocError);
        };
        number = next;
    }
    Ok(())
}

/// Appends which of the rules in these lines are broken.
fn put_all(
    alloc: Global,
    plan: &Plan,
    explain: bool,
    lines: &[PlanLine],
    found: &[Found],
    out: &mut Vec<u8>,
) -> Result<(), AllocError>
    ensures { OnOk result (out.new.items
        ≡ out.old.items ++ flat_map (λ line. first_text plan.now explain line 1 found.now) lines.now) }
{
    for line in lines {
        put_first(alloc, plan, explain, line, found, out)?;
    }
    Ok(())
}

/// Returns the text of the rules that these outcomes break: for each of them the first outcome that breaks it, with an order that produces the
/// outcome, and with the lines of the order if `explain`. It is empty if no rule is broken.
pub fn rules_text(
    alloc: Global,
    plan: &Plan,
    explain: bool,
    found: &[Found],
) -> Result<Vec<u8>, AllocError>
    ensures { IfOk result (λ text. text.items ≡ rules_text plan.now explain found.now) }
{
    let mut out = Vec::new(alloc);
    let lines = plan.queries.as_slice();
    put_all(alloc, plan, explain, lines, found, &mut out)?;
    Ok(out)
}

/// Appends the lines with a rule that the outcome breaks.
fn put_broken_rules(
    names: &Names,
    lines: &[PlanLine],
    outcome: &[u8],
    out: &mut Vec<u8>,
) -> Result<(), AllocError>
    ensures { OnOk result (out.new.items
        ≡ out.old.items
        ++ flat_map line_text
        (filter (λ line. is_broken names.now (tokens_of line.bytes.items) outcome.now) lines.now)) }
{
    for line in lines {
        if is_broken(names, line.bytes.as_slice(), outcome) {
            put_line(line, out)?;
        }
    }
    Ok(())
}

/// Returns the lines of the rules that an outcome breaks.
pub fn broken_rules(alloc: Global, plan: &Plan, outcome: &[u8]) -> Result<Vec<u8>, AllocError>
    ensures { IfOk result (λ text. text.items ≡ broken_rules plan.now outcome.now) }
{
    let mut out = Vec::new(alloc);
    put_broken_rules(&plan.names, plan.queries.as_slice(), outcome, &mut out)?;
    Ok(out)
}
