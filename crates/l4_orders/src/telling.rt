//! Outcomes and witnesses as text.
ghost use Rattle.std.specs.Prelude.{◌≡◌, ◌++◌, true, IfOk, OnOk};
ghost use Rattle.std.specs.List.{flat_map};
ghost use Rattle.l4_orders.specs.Telling.{lines_of_order, line_numbers, number_text, order_text, outcome_text, outcomes_text, counted_text, orders_counted, reason_text, ended_text, summary_text, orders_text, line_text, witness_text};

use crate::numbers::put_number;
use crate::plans::{Plan, PlanLine, advance};
use l4_merges::{Explored, Found, GaveUp};
use l4_naturals::Natural;
use std::alloc::{AllocError, Global};

/// How outcomes are printed.
#[derive(Clone, Copy, Debug, PartialEq, Eq)]
pub struct OrderStyle {
    /// Whether the orders are left out.
    pub brief: bool,
    /// Whether an order has its lines, and not only their numbers.
    pub explain: bool,
}

/// Appends the number of a line and what it says, in a line of its own.
fn put_explained(alloc: Global, line: &PlanLine, out: &mut Vec<u8>) -> Result<(), AllocError>
    ensures { OnOk result (out.new.items ≡ out.old.items ++ number_text true line.now) }
{
    out.extend_from_slice(b"\n  ")?;
    put_number(alloc, line.number, out)?;
    out.extend_from_slice(b": ")?;
    out.extend_from_slice(line.bytes.as_slice())
}

/// Appends a space and the number of a line, or with `explain` what it says too.
fn put_line_number(
    alloc: Global,
    explain: bool,
    line: &PlanLine,
    out: &mut Vec<u8>,
) -> Result<(), AllocError>
    ensures { OnOk result (out.new.items ≡ out.old.items ++ number_text explain line.now) }
{
    if explain {
        return put_explained(alloc, line, out);
    }
    out.extend_from_slice(b" ")?;
    put_number(alloc, line.number, out)
}

/// Appends the numbers of the lines of an order.
fn put_numbers(
    alloc: Global,
    plan: &Plan,
    explain: bool,
    order: &[usize],
    out: &mut Vec<u8>,
) -> Result<(), AllocError>
    ensures { OnOk result (out.new.items
        ≡ out.old.items ++ flat_map (number_text explain) (lines_of_order plan.now order.now)) }
{
    let mut gone = plan.none_gone(alloc)?;
    for place in order {
        if let Some(line) = plan.line_at(gone.as_slice(), *place) {
            put_line_number(alloc, explain, line, out)?;
        }
        advance(&mut gone, *place)?;
    }
    Ok(())
}

/// Returns the numbers of the lines of an order.
pub fn line_numbers(alloc: Global, plan: &Plan, order: &[usize]) -> Result<Vec<u64>, AllocError>
    ensures { IfOk result (λ numbers. numbers.items ≡ line_numbers plan.now order.now) }
{
    let mut numbers = Vec::new(alloc);
    let mut gone = plan.none_gone(alloc)?;
    for place in order {
        if let Some(line) = plan.line_at(gone.as_slice(), *place) {
            numbers.extend_from_slice(&[line.number])?;
        }
        advance(&mut gone, *place)?;
    }
    Ok(numbers)
}

/// Appends the numbers of the lines of an order in a line.
pub(crate) fn put_order(
    alloc: Global,
    plan: &Plan,
    explain: bool,
    order: &[usize],
    out: &mut Vec<u8>,
) -> Result<(), AllocError>
    ensures { OnOk result (out.new.items ≡ out.old.items ++ order_text plan.now explain order.now) }
{
    out.extend_from_slice(b"order")?;
    put_numbers(alloc, plan, explain, order, out)?;
    out.extend_from_slice(b"\n")
}

/// Appends an outcome, and unless the style is brief an order that produces it.
fn put_outcome(
    alloc: Global,
    plan: &Plan,
    style: OrderStyle,
    number: u64,
    one: &Found,
    out: &mut Vec<u8>,
) -> Result<(), AllocError>
    ensures { OnOk result (out.new.items
        ≡ out.old.items ++ outcome_text plan.now style number one.now) }
{
    out.extend_from_slice(b"outcome ")?;
    put_number(alloc, number, out)?;
    out.extend_from_slice(b"\n")?;
    out.extend_from_slice(one.outcome.as_slice())?;
    if style.brief {
        return Ok(());
    }
    put_order(alloc, plan, style.explain, one.order.as_slice(), out)
}

/// Appends outcomes, of which the first has the number 1.
fn put_outcomes(
    alloc: Global,
    plan: &Plan,
    style: OrderStyle,
    found: &[Found],
    out: &mut Vec<u8>,
) -> Result<(), AllocError>
    ensures { OnOk result (out.new.items
        ≡ out.old.items ++ outcomes_text plan.now style 1 found.now) }
{
    let mut number = 1u64;
    for one in found {
        put_outcome(alloc, plan, style, number, one, out)?;
        let Some(next) = number.checked_add(1) else {
            return Err(AllocError);
        };
        number = next;
    }
    Ok(())
}

/// Appends a number of things with this name.
fn put_count(alloc: Global, number: u64, name: &[u8], out: &mut Vec<u8>) -> Result<(), AllocError>
    ensures { OnOk result (out.new.items ≡ out.old.items ++ counted_text number name.now) }
{
    put_number(alloc, number, out)?;
    out.extend_from_slice(name)?;
    if number == 1 {
        return Ok(());
    }
    out.extend_from_slice(b"s")
}

/// Appends the number of orders, whatever its size.
fn put_orders(orders: &Natural, out: &mut Vec<u8>) -> Result<(), AllocError>
    ensures { OnOk result (out.new.items ≡ out.old.items ++ orders_counted orders.now) }
{
    orders.put_decimal(out)?;
    out.extend_from_slice(b" order")?;
    if orders.is_one() {
        return Ok(());
    }
    out.extend_from_slice(b"s")
}

/// Returns why a search ended early, as the end of the summary.
fn reason(why: GaveUp) -> &'static [u8]
    ensures { result.now ≡ reason_text why }
{
    match why {
        GaveUp::Bound => b", incomplete: most\n",
        GaveUp::Memory => b", incomplete: memory\n",
        GaveUp::Full => b", incomplete: history\n",
    }
}

/// Appends how a search ended.
fn put_ended(alloc: Global, explored: &Explored, out: &mut Vec<u8>) -> Result<(), AllocError>
    ensures { OnOk result (out.new.items
        ≡ out.old.items
        ++ ended_text explored.now.ended explored.now.orders explored.now.states) }
{
    out.extend_from_slice(b", ")?;
    match explored.ended {
        Ok(()) => {
            put_orders(&explored.orders, out)?;
            out.extend_from_slice(b", ")?;
            put_count(alloc, explored.states, b" state", out)?;
            out.extend_from_slice(b"\n")
        }
        Err(why) => {
            put_count(alloc, explored.states, b" state", out)?;
            out.extend_from_slice(reason(why))
        }
    }
}

/// Appends the last line: the numbers of outcomes, orders and states, or why the search ended early.
fn put_summary(alloc: Global, explored: &Explored, out: &mut Vec<u8>) -> Result<(), AllocError>
    ensures { OnOk result (out.new.items ≡ out.old.items ++ summary_text explored.now) }
{
    put_count(alloc, explored.found.len() as u64, b" outcome", out)?;
    put_ended(alloc, explored, out)
}

/// Returns the text of the summary.
pub fn summary_text(alloc: Global, explored: &Explored) -> Result<Vec<u8>, AllocError>
    ensures { IfOk result (λ text. text.items ≡ summary_text explored.now) }
{
    let mut out = Vec::new(alloc);
    put_summary(alloc, explored, &mut out)?;
    Ok(out)
}

/// Returns the text of the outcomes, each with an order that produces it unless the style is brief, and of the summary.
pub fn orders_text(
    alloc: Global,
    plan: &Plan,
    explored: &Explored,
    style: OrderStyle,
) -> Result<Vec<u8>, AllocError>
    ensures { IfOk result (λ text. text.items ≡ orders_text plan.now explored.now style) }
{
    let mut out = Vec::new(alloc);
    put_outcomes(alloc, plan, style, explored.found.as_slice(), &mut out)?;
    put_summary(alloc, explored, &mut out)?;
    Ok(out)
}

/// Appends a line of a script.
pub(crate) fn put_line(line: &PlanLine, out: &mut Vec<u8>) -> Result<(), AllocError>
    ensures { OnOk result (out.new.items ≡ out.old.items ++ line_text line.now) }
{
    out.extend_from_slice(line.bytes.as_slice())?;
    out.extend_from_slice(b"\n")
}

/// Appends lines of a script.
fn put_lines(lines: &[PlanLine], out: &mut Vec<u8>) -> Result<(), AllocError>
    ensures { OnOk result (out.new.items ≡ out.old.items ++ flat_map line_text lines.now) }
{
    for line in lines {
        put_line(line, out)?;
    }
    Ok(())
}

/// Appends the lines of an order.
fn put_turns(
    alloc: Global,
    plan: &Plan,
    order: &[usize],
    out: &mut Vec<u8>,
) -> Result<(), AllocError>
    ensures { OnOk result (out.new.items
        ≡ out.old.items ++ flat_map line_text (lines_of_order plan.now order.now)) }
{
    let mut gone = plan.none_gone(alloc)?;
    for place in order {
        if let Some(line) = plan.line_at(gone.as_slice(), *place) {
            put_line(line, out)?;
        }
        advance(&mut gone, *place)?;
    }
    Ok(())
}

/// Returns the script of an order: the lines before `unordered`, the lines of the order, and the queries.
pub fn witness_text(alloc: Global, plan: &Plan, order: &[usize]) -> Result<Vec<u8>, AllocError>
    ensures { IfOk result (λ text. text.items ≡ witness_text plan.now order.now) }
{
    let mut out = Vec::new(alloc);
    put_lines(plan.first.as_slice(), &mut out)?;
    put_turns(alloc, plan, order, &mut out)?;
    put_lines(plan.queries.as_slice(), &mut out)?;
    Ok(out)
}
