//! Finds and checks the provenance of pages of a locked kernel.
ghost use Rattle.std.specs.Prelude.{◌≡◌, map, IfSome};
ghost use Rattle.l4_c_values.specs.Linked.{link_result, link_given};
ghost use Rattle.l4_c_queries.specs.Placed.{placed};
ghost use Rattle.l4_c_queries.specs.Traced.{verdict_of, TracesPage, are_plain, ProvesLinks, JudgesLinks};

use l4_c_values::{
    ChainResult, Link, NO_MEMORY, NO_SUCH_CALL, OTHER_CHAIN, chain_told, fault_detail,
    fault_number, link_given, link_told, no_chain,
};
use l4_ipc::Place;
use l4_record::ChainLink;
use l4_seated_lock::SeatedLock;
use std::alloc::Global;

/// The result of a check: 0 if the claim is proved, or the reason why it does not hold.
#[repr(C)]
#[derive(Clone, Copy)]
pub struct Verdict {
    pub refusal: u32,
    pub detail: u32,
}

/// Returns a result with this refusal, or with 0 if the claim is proved.
pub fn verdict_of(refusal: u32, detail: u32) -> Verdict
    ensures { result ≡ verdict_of refusal detail }
{
    Verdict { refusal, detail }
}

/// Writes as many links as fit into the array.
fn write_links(links: &[ChainLink], out: &mut [Link])
    ensures { out.new ≡ placed (map link_result links.now) out.old }
{
    for at in 0..links.len() {
        if at >= out.len() {
            return;
        }
        out[at] = link_told(&links[at]);
    }
}

/// Writes the provenance of a page as links, and returns the number of links.
pub fn trace(alloc: Global, lock: &SeatedLock, place: Place, out: &mut [Link]) -> ChainResult
    ensures { TracesPage lock.now place out.old result out.new }
{
    match lock.provenance(alloc, place) {
        Ok(Some(links)) => {
            write_links(links.as_slice(), out);
            chain_told(links.len())
        }
        Ok(None) => no_chain(0, 0),
        Err(fault) => no_chain(fault_number(fault), fault_detail(fault)),
    }
}

/// Returns whether the reserved member of each link is 0.
fn are_plain(links: &[Link]) -> bool
    ensures { result ≡ are_plain links.now }
{
    for at in 0..links.len() {
        if links[at].reserved != 0 {
            return false;
        }
    }
    true
}

/// Converts the links that C passed, or returns None if an allocation fails.
fn links_of(alloc: Global, given: &[Link]) -> Option<Vec<ChainLink>>
    ensures { IfSome result (λ links. links.items ≡ map link_given given.now) }
{
    let mut links = Vec::new(alloc);
    for link in given {
        if links.push(link_given(link)).is_err() {
            return None;
        }
    }
    Some(links)
}

/// Checks that links from any source are the provenance of a page.
fn prove_links(alloc: Global, lock: &SeatedLock, place: Place, given: &[Link]) -> Verdict
    ensures { ProvesLinks lock.now place given.now result }
{
    let Some(links) = links_of(alloc, given) else {
        return verdict_of(NO_MEMORY, 0);
    };
    match lock.check_provenance(alloc, place, links.as_slice()) {
        Ok(true) => verdict_of(0, 0),
        Ok(false) => verdict_of(OTHER_CHAIN, 0),
        Err(fault) => verdict_of(fault_number(fault), fault_detail(fault)),
    }
}

/// Does the same for links whose reserved members are 0, and refuses others (B3).
pub fn judge_links(alloc: Global, lock: &SeatedLock, place: Place, given: &[Link]) -> Verdict
    ensures { JudgesLinks lock.now place given.now result }
{
    if !are_plain(given) {
        return verdict_of(NO_SUCH_CALL, 0);
    }
    prove_links(alloc, lock, place, given)
}
