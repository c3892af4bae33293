//! The texts of searches.
ghost use Rattle.std.specs.Prelude.{◌≡◌, ◌⊎◌, IfOk, codes};
ghost use Rattle.l4_outcomes.specs.Faults.{refused_by};
ghost use Rattle.l4_page.specs.Given.{InBytes};
ghost use Rattle.l4_page.specs.Outcomes.{TellsRefusal};
ghost use Rattle.l4_page.specs.Printed.{search_text, TellsText, TellsSearchText};

use crate::given::{NO_SUCH_SIZE, size_of};
use crate::outcomes::{OutcomesTold, SearchGiven, unsearched};
use crate::telling::{NO_MEMORY, place};
use l4_fpage::PageSize;
use l4_graphs::graph_text;
use l4_orders::{OrderStyle, orders_text, rules_text};
use l4_outcomes::{Searched, counts_of, search, without_line};
use std::alloc::{AllocError, Global};

/// The number of the text that has the outcomes without their orders.
const BRIEF: u32 = 1;

/// The number of the text that has the graph of the states.
const GRAPH: u32 = 2;

/// Returns the text of a search with this number.
fn search_text(alloc: Global, search: &Searched, kind: u32) -> Result<Vec<u8>, AllocError>
    ensures { IfOk result (λ text. text.items ≡ search_text kind search.now) }
{
    if kind == GRAPH {
        return graph_text(alloc, &search.plan, &search.explored);
    }
    let style = OrderStyle {
        brief: kind == BRIEF,
        explain: false,
    };
    let mut text = orders_text(alloc, &search.plan, &search.explored, style)?;
    let found = search.explored.found.as_slice();
    let broken = rules_text(alloc, &search.plan, false, found)?;
    text.extend_from_slice(broken.as_slice())?;
    Ok(text)
}

/// Writes the text of a search with this number.
fn print(alloc: Global, search: &Searched, kind: u32, out: &mut [u8]) -> OutcomesTold
    ensures { TellsText kind search.now out.old out.new result
        ⊎ TellsRefusal (refused_by (codes "NoMemory")) out.old out.new result }
{
    match search_text(alloc, search, kind) {
        Ok(text) => {
            place(text.as_slice(), out);
            OutcomesTold {
                result: without_line(0),
                counts: counts_of(&search.explored),
                length: text.len() as u64,
            }
        }
        Err(_) => unsearched(without_line(NO_MEMORY), out),
    }
}

/// Searches the orders of a plan, and writes the text with this number.
fn printed(
    alloc: Global,
    script: &[u8],
    given: &SearchGiven,
    size: PageSize,
    kind: u32,
    out: &mut [u8],
) -> OutcomesTold
    ensures { TellsSearchText given.now.frames size given.now.most kind script.now out.old out.new
        result }
{
    match search(alloc, given.frames, size, script, given.most) {
        Ok(search) => print(alloc, &search, kind, out),
        Err(refused) => unsearched(refused, out),
    }
}

/// Searches all orders of a plan. Writes what `l4 orders` writes: with `--outcomes` if `kind` is 1, with `--dot` if it is 2. After a refusal,
/// writes what it means. The refusals are those of `page_orders`.
#[unsafe(no_mangle)]
pub extern "C" fn page_orders_text(
    alloc: Global,
    script: &[u8],
    given: &SearchGiven,
    kind: u32,
    out: &mut [u8],
) -> OutcomesTold
    ensures { InBytes given.now.page_bytes
        (λ size. TellsSearchText given.now.frames size given.now.most kind script.now out.old out.new
        result) (TellsRefusal (refused_by (codes "B4")) out.old out.new result) }
{
    match size_of(given.page_bytes) {
        Some(size) => printed(alloc, script, given, size, kind, out),
        None => unsearched(without_line(NO_SUCH_SIZE), out),
    }
}
