//! The outcomes of all orders of plans.
ghost use Rattle.std.specs.Prelude.{◌≡◌, ◌++◌, ◌⊎◌, OnOk, codes};
ghost use Rattle.std.specs.List.{flat_map};
ghost use Rattle.l4_outcomes.specs.Faults.{refused_by};
ghost use Rattle.l4_page.specs.Given.{InBytes};
ghost use Rattle.l4_page.specs.Outcomes.{texts_of, lengths_of, no_counts, TellsFound, TellsRefusal, TellsOutcomes};

use crate::given::{NO_SUCH_SIZE, size_of};
use crate::telling::{NO_MEMORY, place};
use l4_fpage::PageSize;
use l4_merges::Found;
use l4_orders::{Plan, broken_rules, witness_text};
use l4_outcomes::{SearchCounts, SearchResult, Searched, counts_of, search, without_line};
use l4_refusals::text_of;
use std::alloc::{AllocError, Global};

/// A machine, and the number of states that a search visits at most.
#[repr(C)]
#[derive(Clone, Copy)]
pub struct SearchGiven {
    pub frames: u32,
    pub page_bytes: u32,
    pub most: u64,
}

/// The result of a search. `length` is the length of the text, and as much of it was written as there is room for. After a refusal the text
/// says what the refusal means. Otherwise it has for each outcome its answers, the script of an order that produces it, and the rules that it
/// breaks, and the length of each of these texts was written.
#[repr(C)]
#[derive(Clone, Copy)]
pub struct OutcomesTold {
    pub result: SearchResult,
    pub counts: SearchCounts,
    pub length: u64,
}

/// Returns the counts without a search.
fn no_counts() -> SearchCounts
    ensures { result ≡ no_counts }
{
    SearchCounts {
        ended: 0,
        outcomes: 0,
        orders: 0,
        states: 0,
    }
}

/// Appends the answers of an outcome, the script of an order that produces it, the rules that it breaks, and the lengths of these texts.
fn put_outcome(
    alloc: Global,
    plan: &Plan,
    one: &Found,
    texts: &mut Vec<u8>,
    lengths: &mut Vec<u64>,
) -> Result<(), AllocError>
    ensures texts { OnOk result (texts.new.items ≡ texts.old.items ++ texts_of plan.now one.now) }
    ensures lengths { OnOk result (lengths.new.items
        ≡ lengths.old.items ++ lengths_of plan.now one.now) }
{
    let witness = witness_text(alloc, plan, one.order.as_slice())?;
    let broken = broken_rules(alloc, plan, one.outcome.as_slice())?;
    texts.extend_from_slice(one.outcome.as_slice())?;
    texts.extend_from_slice(witness.as_slice())?;
    texts.extend_from_slice(broken.as_slice())?;
    lengths.extend_from_slice(&[
        one.outcome.len() as u64,
        witness.len() as u64,
        broken.len() as u64,
    ])
}

/// Appends the texts of outcomes, and their lengths.
fn put_outcomes(
    alloc: Global,
    plan: &Plan,
    found: &[Found],
    texts: &mut Vec<u8>,
    lengths: &mut Vec<u64>,
) -> Result<(), AllocError>
    ensures texts { OnOk result (texts.new.items
        ≡ texts.old.items ++ flat_map (texts_of plan.now) found.now) }
    ensures lengths { OnOk result (lengths.new.items
        ≡ lengths.old.items ++ flat_map (lengths_of plan.now) found.now) }
{
    for one in found {
        put_outcome(alloc, plan, one, texts, lengths)?;
    }
    Ok(())
}

/// Returns the result of a refused search, and writes what the refusal means.
pub(crate) fn unsearched(refused: SearchResult, out: &mut [u8]) -> OutcomesTold
    ensures { TellsRefusal refused out.old out.new result }
{
    let line = text_of(refused.refusal).line;
    place(line, out);
    OutcomesTold {
        result: refused,
        counts: no_counts(),
        length: line.len() as u64,
    }
}

/// Writes what a search found.
fn found(alloc: Global, search: &Searched, out: &mut [u8], lengths: &mut [u64]) -> OutcomesTold
    ensures { TellsFound search.now out.old out.new lengths.old lengths.new result
        ⊎ (TellsRefusal (refused_by (codes "NoMemory")) out.old out.new result
        × (lengths.new ≡ lengths.old)) }
{
    let mut texts = Vec::new(alloc);
    let mut sizes = Vec::new(alloc);
    let outcomes = search.explored.found.as_slice();
    if put_outcomes(alloc, &search.plan, outcomes, &mut texts, &mut sizes).is_err() {
        return unsearched(without_line(NO_MEMORY), out);
    }
    place(texts.as_slice(), out);
    place(sizes.as_slice(), lengths);
    OutcomesTold {
        result: without_line(0),
        counts: counts_of(&search.explored),
        length: texts.len() as u64,
    }
}

/// Searches the orders of a plan, and writes what the search found.
fn searched(
    alloc: Global,
    script: &[u8],
    given: &SearchGiven,
    size: PageSize,
    out: &mut [u8],
    lengths: &mut [u64],
) -> OutcomesTold
    ensures { TellsOutcomes given.now.frames size given.now.most script.now out.old out.new lengths.old
        lengths.new result }
{
    match search(alloc, given.frames, size, script, given.most) {
        Ok(search) => found(alloc, &search, out, lengths),
        Err(refused) => unsearched(refused, out),
    }
}

/// Searches all orders of a plan. Writes for each outcome its answers, the script of an order that produces it, the rules that it breaks, and
/// the lengths of these texts. After a refusal, writes what it means. The refusals are B4, K6, those of the text (S1 to S5, O1 to O8),
/// NoMemory and L1, in this order.
#[unsafe(no_mangle)]
pub extern "C" fn page_orders(
    alloc: Global,
    script: &[u8],
    given: &SearchGiven,
    out: &mut [u8],
    lengths: &mut [u64],
) -> OutcomesTold
    ensures { InBytes given.now.page_bytes
        (λ size. TellsOutcomes given.now.frames size given.now.most script.now out.old out.new lengths.old
        lengths.new result)
        (TellsRefusal (refused_by (codes "B4")) out.old out.new result
        × (lengths.new ≡ lengths.old)) }
{
    match size_of(given.page_bytes) {
        Some(size) => searched(alloc, script, given, size, out, lengths),
        None => unsearched(without_line(NO_SUCH_SIZE), out),
    }
}
