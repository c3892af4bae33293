//! Links of a page's provenance, as C passes and gets them.
ghost use Rattle.std.specs.Prelude.{◌≡◌};
ghost use Rattle.l4_c_values.specs.Linked.{link_result, link_given, fault_code, fault_carries, chain_result};

use crate::calls::rights;
use crate::numbers::{BAD_FRAMES, HANDED_OUT, NO_MEMORY, OTHER_ANSWER};
use crate::results::place_told;
use l4_ipc::Place;
use l4_record::{ChainLink, ReplayFault};
use l4_seated_lock::TraceFault;

/// A transfer that moved a page.
#[repr(C)]
#[derive(Clone, Copy)]
pub struct Link {
    pub entry: u64,
    pub source_space: u64,
    pub target_space: u64,
    pub source_page: u32,
    pub target_page: u32,
    pub grant: u32,
    pub source_rights: u32,
    pub item_rights: u32,
    pub reserved: u32,
}

/// Whether a page is present, and how many transfers brought it there.
#[repr(C)]
#[derive(Clone, Copy)]
pub struct ChainResult {
    pub refusal: u32,
    pub detail: u32,
    pub there: u32,
    pub count: u64,
}

/// Returns a link as C gets it.
pub fn link_told(link: &ChainLink) -> Link
    ensures { result ≡ link_result link.now }
{
    Link {
        entry: link.entry as u64,
        source_space: link.source.space,
        target_space: link.target.space,
        source_page: link.source.page,
        target_page: link.target.page,
        grant: u32::from(link.grant),
        source_rights: u32::from(link.source_rights.bits()),
        item_rights: u32::from(link.item_rights.bits()),
        reserved: 0,
    }
}

/// Returns the link that C passed.
pub fn link_given(link: &Link) -> ChainLink
    ensures { result ≡ link_given link.now }
{
    ChainLink {
        entry: link.entry as usize,
        source: Place {
            space: link.source_space,
            page: link.source_page,
        },
        target: Place {
            space: link.target_space,
            page: link.target_page,
        },
        grant: link.grant != 0,
        source_rights: rights(link.source_rights),
        item_rights: rights(link.item_rights),
    }
}

/// Returns the number of the refusal for a history that cannot be replayed.
pub fn fault_number(fault: TraceFault) -> u32
    ensures { result ≡ fault_code fault }
{
    match fault {
        TraceFault::HandedOut => HANDED_OUT,
        TraceFault::Replay(ReplayFault::BadFrames) => BAD_FRAMES,
        TraceFault::Replay(ReplayFault::NoMemory) => NO_MEMORY,
        TraceFault::Replay(ReplayFault::OtherAnswer(_)) => OTHER_ANSWER,
    }
}

/// Returns the entry that such a fault names, or 0.
pub fn fault_detail(fault: TraceFault) -> u32
    ensures { result ≡ fault_carries fault }
{
    match fault {
        TraceFault::Replay(ReplayFault::OtherAnswer(entry)) => place_told(entry),
        _ => 0,
    }
}

/// Returns the result for a page that is present, with this many links.
pub fn chain_told(count: usize) -> ChainResult
    ensures { result ≡ chain_result 0 0 1 count }
{
    ChainResult {
        refusal: 0,
        detail: 0,
        there: 1,
        count: count as u64,
    }
}

/// Returns the result without a page, for this refusal (0 for none).
pub fn no_chain(refusal: u32, detail: u32) -> ChainResult
    ensures { result ≡ chain_result refusal detail 0 0 }
{
    ChainResult {
        refusal,
        detail,
        there: 0,
        count: 0,
    }
}
