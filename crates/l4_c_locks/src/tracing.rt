//! Finds and checks the provenance of pages of a locked kernel.
ghost use Rattle.std.specs.Prelude.{◌≡◌};
ghost use Rattle.l4_c_queries.specs.Traced.{TellsProvenance, TellsJudgement};

use l4_c_queries::{Verdict, judge_links, trace, verdict_of};
use l4_c_values::{ChainResult, EMPTY, Link, LockHandle, no_chain};
use l4_ipc::Place;
use std::alloc::Global;

/// Writes the provenance of a page of a space as links, and returns the number of links. The refusals are B1, L8 if entries were handed
/// out, and then NoMemory or L6.
#[unsafe(no_mangle)]
pub extern "C" fn l4_lock_provenance(
    alloc: Global,
    handle: &mut LockHandle,
    space: u64,
    page: u32,
    out: &mut [Link],
) -> ChainResult
    ensures kept { handle.new.value ≡ handle.old.value }
    ensures told { TellsProvenance handle.old.value space page out.old result out.new }
{
    let Some(lock) = handle.take(alloc) else {
        return no_chain(EMPTY, 0);
    };
    let told = trace(alloc, &lock, Place { space, page }, out);
    handle.put(lock);
    told
}

/// Checks that links from any source are the provenance of a page of a space. The refusals are B1, B3, NoMemory if the links
/// cannot be stored, L8 if entries were handed out, NoMemory, L6 and L7.
#[unsafe(no_mangle)]
pub extern "C" fn l4_lock_check_provenance(
    alloc: Global,
    handle: &mut LockHandle,
    space: u64,
    page: u32,
    links: &[Link],
) -> Verdict
    ensures kept { handle.new.value ≡ handle.old.value }
    ensures told { TellsJudgement handle.old.value space page links.now result }
{
    let Some(lock) = handle.take(alloc) else {
        return verdict_of(EMPTY, 0);
    };
    let judged = judge_links(alloc, &lock, Place { space, page }, links);
    handle.put(lock);
    judged
}
