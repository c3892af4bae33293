//! What the rules of a litmus test can name, and the replies for which rules ask.
ghost use Rattle.std.specs.Prelude.{◌≡◌, ◌++◌, IfErr, IfOk, OnOk};
ghost use Rattle.std.specs.List.{flat_map, list_any};
ghost use Rattle.l4_text.specs.Tokens.{tokens_of};
ghost use Rattle.l4_text.specs.declared.faults.RunFault.TheVariants.{Memory};
ghost use Rattle.l4_orders.specs.declared.parts.PlanFault.TheVariants.{Stopped};
ghost use Rattle.l4_orders.specs.Reading.{line_in, lines_in};
ghost use Rattle.l4_orders.specs.Inside.Parts.{ChecksRules, Completes};
ghost use Rattle.l4_orders.specs.Possible.{is_answered, is_stuck_at, is_stuck_in, is_told, is_left, can_have, are_asked, is_possible, first_impossible, threads_of, is_asked, reply_line, ask, ask_all, is_over_threads, all_queries};

use crate::numbers::put_number;
use crate::parts::{LineFault, PlanFault, add};
use crate::plans::{Block, Plan, PlanLine};
use l4_fpage::PageSize;
use l4_names::Names;
use l4_rules::{
    can_answer, is_allowance, is_reply_of, is_stuck, over_threads, query_of, rule_answer,
};
use l4_text::RunFault;
use std::alloc::{AllocError, Global};

/// Returns whether a line queries the reply of this thread.
fn is_asked(size: PageSize, names: &Names, thread: u32, line: &PlanLine) -> bool
    ensures { result ≡ is_asked size names.now thread (line_in line.now) }
{
    match query_of(size, names, line.bytes.as_slice()) {
        Some(query) => is_reply_of(thread, query),
        None => false,
    }
}

/// Returns whether one of these lines queries the reply of this thread.
fn asks_for(size: PageSize, names: &Names, thread: u32, lines: &[PlanLine]) -> bool
    ensures { result
        ≡ list_any (λ line. is_asked size names.now thread (line_in line)) lines.now }
{
    lines.iter().any(|line| is_asked(size, names, thread, line))
}

/// Returns whether the query in a line can have the answer.
fn is_answered(size: PageSize, names: &Names, answer: &[u8], line: &PlanLine) -> bool
    ensures { result ≡ is_answered size names.now (tokens_of answer.now) line.now }
{
    match query_of(size, names, line.bytes.as_slice()) {
        Some(query) => can_answer(names, query, answer),
        None => false,
    }
}

/// Returns whether the answer says that a thread is stuck before one of these lines.
fn is_stuck_at(names: &Names, answer: &[u8], thread: u32, lines: &[PlanLine]) -> bool
    ensures { result ≡ is_stuck_at names.now (tokens_of answer.now) thread lines.now }
{
    lines
        .iter()
        .any(|line| is_stuck(names, thread, line.number, answer))
}

/// Returns whether the answer says that a thread is stuck before one of its lines.
fn is_stuck_in(names: &Names, answer: &[u8], block: &Block) -> bool
    ensures { result ≡ is_stuck_in names.now (tokens_of answer.now) block.now }
{
    if block.cancels {
        return false;
    }
    is_stuck_at(names, answer, block.thread, block.lines.as_slice())
}

/// Returns whether a query of the test can have the answer.
fn is_told(size: PageSize, plan: &Plan, answer: &[u8]) -> bool
    ensures { result ≡ is_told size plan.now (tokens_of answer.now) }
{
    plan.queries
        .iter()
        .any(|line| is_answered(size, &plan.names, answer, line))
}

/// Returns whether the answer says that a thread of the test is stuck before one of its lines.
fn is_left(plan: &Plan, answer: &[u8]) -> bool
    ensures { result ≡ is_left plan.now (tokens_of answer.now) }
{
    plan.blocks
        .iter()
        .any(|block| is_stuck_in(&plan.names, answer, block))
}

/// Returns whether an outcome of the test can have the answer.
fn can_have(size: PageSize, plan: &Plan, answer: &[u8]) -> bool
    ensures { result ≡ can_have size plan.now (tokens_of answer.now) }
{
    is_told(size, plan, answer) || is_left(plan, answer)
}

/// Returns whether queries ask for the replies of all of these threads.
fn are_asked(size: PageSize, plan: &Plan, threads: &[u32]) -> bool
    ensures { result ≡ are_asked size plan.now threads.now }
{
    threads.iter().all(|thread| asks_for(size, &plan.names, *thread, plan.queries.as_slice()))
}

/// Returns whether the rule in a line names an answer that an outcome of the test can have, or lets only these threads wait.
fn is_possible(size: PageSize, plan: &Plan, threads: &[u32], line: &[u8]) -> bool
    ensures { result ≡ is_possible size plan.now threads.now (tokens_of line.now) }
{
    match over_threads(line) {
        Some((_, rest)) => is_allowance(&plan.names, threads, rest)
            && are_asked(size, plan, threads),
        None => match rule_answer(line) {
            Some(answer) => can_have(size, plan, answer),
            None => true,
        },
    }
}

/// Returns the number of the first of these lines whose rule names an answer that no outcome can have.
fn first_impossible(size: PageSize, plan: &Plan, threads: &[u32], lines: &[PlanLine]) -> Option<u64>
    ensures { result ≡ first_impossible size plan.now threads.now lines.now }
{
    for line in lines {
        if !is_possible(size, plan, threads, line.bytes.as_slice()) {
            return Some(line.number);
        }
    }
    None
}

/// Adds the threads that have lines in these blocks.
fn add_threads(threads: &mut Vec<u32>, blocks: &[Block]) -> Result<(), AllocError>
    ensures { OnOk result (threads.new.items ≡ threads_of threads.old.items blocks.now) }
{
    for block in blocks {
        if !block.cancels {
            threads.extend_from_slice(&[block.thread])?;
        }
    }
    Ok(())
}

/// Returns the text of a query for the reply of a thread.
fn reply_text(alloc: Global, thread: u32) -> Result<Vec<u8>, AllocError>
    ensures { IfOk result (λ text. text.items ≡ (reply_line thread).bytes) }
{
    let mut text = Vec::new(alloc);
    text.extend_from_slice(b"reply ")?;
    put_number(alloc, u64::from(thread), &mut text)?;
    Ok(text)
}

/// Queries the reply of a thread, unless it is queried already.
fn ask(
    alloc: Global,
    size: PageSize,
    names: &Names,
    thread: u32,
    queries: &mut Vec<PlanLine>,
) -> Result<(), PlanFault>
    ensures ok { OnOk result (lines_in queries.new.items
        ≡ ask size names.now (lines_in queries.old.items) thread) }
    ensures err { IfErr result (λ e. e ≡ Stopped Memory) }
{
    if asks_for(size, names, thread, queries.as_slice()) {
        return Ok(());
    }
    let Ok(bytes) = reply_text(alloc, thread) else {
        return Err(PlanFault::Stopped(RunFault::Memory));
    };
    let line = PlanLine { number: 0, bytes };
    if is_asked(size, names, thread, &line) {
        return add(queries, line);
    }
    Ok(())
}

/// Queries the replies of these threads.
fn ask_all(
    alloc: Global,
    size: PageSize,
    names: &Names,
    threads: &[u32],
    queries: &mut Vec<PlanLine>,
) -> Result<(), PlanFault>
    ensures ok { OnOk result (lines_in queries.new.items
        ≡ ask_all size names.now (lines_in queries.old.items) threads.now) }
    ensures err { IfErr result (λ e. e ≡ Stopped Memory) }
{
    for thread in threads {
        match ask(alloc, size, names, *thread, queries) {
            Ok(()) => {}
            Err(fault) => return Err(fault),
        }
    }
    Ok(())
}

/// Returns whether the rule in one of these lines is about all threads.
fn has_over_threads(lines: &[PlanLine]) -> bool
    ensures { result ≡ list_any (λ line. is_over_threads (line_in line)) lines.now }
{
    lines
        .iter()
        .any(|line| over_threads(line.bytes.as_slice()).is_some())
}

/// Queries the replies of these threads, if a rule is about all threads.
fn ask_for_rules(
    alloc: Global,
    size: PageSize,
    threads: &[u32],
    plan: &mut Plan,
) -> Result<(), PlanFault>
    ensures ok { OnOk result (lines_in plan.new.queries.items
        ≡ all_queries size plan.old.names (lines_in plan.old.queries.items) threads.now) }
    ensures err { IfErr result (λ e. e ≡ Stopped Memory) }
    ensures same { (plan.new.first ≡ plan.old.first) × ((plan.new.blocks ≡ plan.old.blocks) × (plan.new.names ≡ plan.old.names)) }
{
    if has_over_threads(plan.queries.as_slice()) {
        return ask_all(alloc, size, &plan.names, threads, &mut plan.queries);
    }
    Ok(())
}

/// Checks that an outcome can have each line that a rule names. These are the threads that rules over all threads can let wait.
fn check_rules(size: PageSize, threads: &[u32], plan: Plan) -> Result<Plan, PlanFault>
    ensures { ChecksRules size threads.now plan result }
{
    match first_impossible(size, &plan, threads, plan.queries.as_slice()) {
        Some(number) => Err(PlanFault::Malformed(number, LineFault::NoAnswer)),
        None => Ok(plan),
    }
}

/// Queries the replies for which rules ask, and checks that an outcome can have each line that a rule names. The threads are those that
/// lines create.
pub(crate) fn complete(
    alloc: Global,
    size: PageSize,
    created: Vec<u32>,
    plan: Plan,
) -> Result<Plan, PlanFault>
    ensures { Completes size created.items plan result }
{
    let mut threads = created;
    let mut plan = plan;
    match add_threads(&mut threads, plan.blocks.as_slice()) {
        Ok(()) => {}
        Err(_) => return Err(PlanFault::Stopped(RunFault::Memory)),
    }
    match ask_for_rules(alloc, size, threads.as_slice(), &mut plan) {
        Ok(()) => {}
        Err(fault) => return Err(fault),
    }
    check_rules(size, threads.as_slice(), plan)
}
