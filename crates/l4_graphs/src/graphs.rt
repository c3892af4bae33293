//! The graph of the states as text.
ghost use Rattle.std.specs.Prelude.{◌≡◌, ◌==◌, ◌++◌, ◌-◌, IfOk, OnOk, decimal, slice_get};
ghost use Rattle.std.specs.List.{flat_map, position};
ghost use Rattle.std.specs.Option.{option_copied};
ghost use Rattle.l4_graphs.specs.Drawing.{line_in, line_of, call_text, comment_text, edge_text, end_text, node_text, nodes_text, states_text, graph_text};

use l4_merges::{Edge, Explored, Seen};
use l4_orders::{Block, Plan, PlanLine, put_number, rules_text, summary_text};
use std::alloc::{AllocError, Global};

/// Appends the number of the state at a place among this many.
fn put_state(alloc: Global, count: usize, place: usize, out: &mut Vec<u8>) -> Result<(), AllocError>
    ensures { OnOk result (out.new.items ≡ out.old.items ++ decimal (count - place)) }
{
    put_number(alloc, count.saturating_sub(place) as u64, out)
}

/// Returns the place of the line with this number.
fn place_of(lines: &[PlanLine], number: u64) -> Option<usize>
    ensures { result ≡ position (λ line. line.number == number) lines.now }
{
    lines.iter().position(|line| line.number == number)
}

/// Returns the line of a block at a place.
fn line_at(block: &Block, place: usize) -> Option<&PlanLine>
    ensures { option_copied result ≡ slice_get block.now.lines.items place }
{
    block.lines.get(place)
}

/// Returns the line of a block that has this number.
fn line_in(block: &Block, number: u64) -> Option<&PlanLine>
    ensures { option_copied result ≡ line_in block.now number }
{
    let Some(place) = place_of(block.lines.as_slice(), number) else {
        return None;
    };
    line_at(block, place)
}

/// Returns the line that is executed in a turn.
fn line_of<'a>(plan: &'a Plan, edge: &Edge) -> Option<&'a PlanLine>
    ensures { option_copied result ≡ line_of plan.now edge.now }
{
    let block = plan.blocks.get(edge.thread)?;
    line_in(block, edge.name)
}

/// Appends the number of the line that is executed in a turn, and what it says.
fn put_call(alloc: Global, plan: &Plan, edge: &Edge, out: &mut Vec<u8>) -> Result<(), AllocError>
    ensures { OnOk result (out.new.items ≡ out.old.items ++ call_text plan.now edge.now) }
{
    put_number(alloc, edge.name, out)?;
    let Some(line) = line_of(plan, edge) else {
        return Ok(());
    };
    out.extend_from_slice(b": ")?;
    out.extend_from_slice(line.bytes.as_slice())
}

/// Appends a turn in the state at a place.
fn put_edge(
    alloc: Global,
    plan: &Plan,
    count: usize,
    place: usize,
    edge: &Edge,
    out: &mut Vec<u8>,
) -> Result<(), AllocError>
    ensures { OnOk result (out.new.items ≡ out.old.items ++ edge_text plan.now count place edge.now) }
{
    put_state(alloc, count, place, out)?;
    out.extend_from_slice(b" -> ")?;
    put_state(alloc, count, edge.to, out)?;
    out.extend_from_slice(b" [label=\"")?;
    put_call(alloc, plan, edge, out)?;
    out.extend_from_slice(b"\"];\n")
}

/// Appends the turns in the state at a place.
fn put_edges(
    alloc: Global,
    plan: &Plan,
    count: usize,
    place: usize,
    edges: &[Edge],
    out: &mut Vec<u8>,
) -> Result<(), AllocError>
    ensures { OnOk result (out.new.items
        ≡ out.old.items ++ flat_map (edge_text plan.now count place) edges.now) }
{
    for edge in edges {
        put_edge(alloc, plan, count, place, edge, out)?;
    }
    Ok(())
}

/// Appends the outcome of the state at a place, which ends an order. The number of an outcome is its place plus 1.
fn put_end(
    alloc: Global,
    count: usize,
    place: usize,
    end: usize,
    out: &mut Vec<u8>,
) -> Result<(), AllocError>
    ensures { OnOk result (out.new.items ≡ out.old.items ++ end_text count place end) }
{
    let Some(number) = (end as u64).checked_add(1) else {
        return Err(AllocError);
    };
    put_state(alloc, count, place, out)?;
    out.extend_from_slice(b" [label=\"")?;
    put_state(alloc, count, place, out)?;
    out.extend_from_slice(b": outcome ")?;
    put_number(alloc, number, out)?;
    out.extend_from_slice(b"\", peripheries=2];\n")
}

/// Appends the state at a place: its turns, or its outcome.
fn put_node(
    alloc: Global,
    plan: &Plan,
    count: usize,
    place: usize,
    one: &Seen,
    out: &mut Vec<u8>,
) -> Result<(), AllocError>
    ensures { OnOk result (out.new.items ≡ out.old.items ++ node_text plan.now count place one.now) }
{
    put_edges(alloc, plan, count, place, one.edges.as_slice(), out)?;
    match one.end {
        Some(end) => put_end(alloc, count, place, end, out),
        None => Ok(()),
    }
}

/// Appends all states, from the last to the first.
fn put_nodes(alloc: Global, plan: &Plan, seen: &[Seen], out: &mut Vec<u8>) -> Result<(), AllocError>
    ensures { OnOk result (out.new.items ≡ out.old.items ++ nodes_text plan.now seen.now) }
{
    let count = seen.len();
    for done in 0..count {
        let place = count - done - 1;
        put_node(alloc, plan, count, place, &seen[place], out)?;
    }
    Ok(())
}

/// Appends the states of a search, with an arrow to the one at this place.
fn put_states(
    alloc: Global,
    plan: &Plan,
    start: usize,
    seen: &[Seen],
    out: &mut Vec<u8>,
) -> Result<(), AllocError>
    ensures { OnOk result (out.new.items ≡ out.old.items ++ states_text plan.now start seen.now) }
{
    out.extend_from_slice(b"start [shape=point];\nstart -> ")?;
    put_state(alloc, seen.len(), start, out)?;
    out.extend_from_slice(b";\n")?;
    put_nodes(alloc, plan, seen, out)
}

/// Appends the rules that are broken, as a comment.
fn put_comment(rules: &[u8], out: &mut Vec<u8>) -> Result<(), AllocError>
    ensures { OnOk result (out.new.items ≡ out.old.items ++ comment_text rules.now) }
{
    if rules.is_empty() {
        return Ok(());
    }
    out.extend_from_slice(b"/*\n")?;
    out.extend_from_slice(rules)?;
    out.extend_from_slice(b"*/\n")
}

/// Returns the graph of the states in the DOT language, with the summary and the rules that are broken as comments. If not every order was
/// followed, it has no states.
pub fn graph_text(alloc: Global, plan: &Plan, explored: &Explored) -> Result<Vec<u8>, AllocError>
    ensures { IfOk result (λ text. text.items ≡ graph_text plan.now explored.now) }
{
    let mut out = Vec::new(alloc);
    out.extend_from_slice(b"digraph states {\n// ")?;
    let summary = summary_text(alloc, explored)?;
    out.extend_from_slice(summary.as_slice())?;
    let rules = rules_text(alloc, plan, false, explored.found.as_slice())?;
    put_comment(rules.as_slice(), &mut out)?;
    if explored.ended.is_ok() {
        put_states(
            alloc,
            plan,
            explored.start,
            explored.seen.as_slice(),
            &mut out,
        )?;
    }
    out.extend_from_slice(b"}\n")?;
    Ok(out)
}
