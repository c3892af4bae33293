//! Converts regions as C passes them, and page sizes between bytes and `PageSize`.
ghost use Rattle.std.specs.Prelude.{◌≡◌, MatchOption};
ghost use Rattle.l4_fpage.specs.Pages.{page_bytes};
ghost use Rattle.l4_c_values.specs.InBytes.{IsNoSize};
ghost use Rattle.l4_c_values.specs.Regions.{region_of, entry_of};

use crate::calls::rights;
use l4_ipc::PageSize;
use l4_msg::Region;
use l4_pager::Entry;

/// A region as C passes it: `count` pages from the page `source` on, which go to the pages from `target` on with these rights.
#[repr(C)]
#[derive(Clone, Copy)]
pub struct RegionGiven {
    pub source: u32,
    pub target: u32,
    pub count: u32,
    pub rights: u32,
}

/// Returns the region that C passed.
pub fn region_of(given: &RegionGiven) -> Region
    ensures { result ≡ region_of given.now }
{
    Region {
        source: given.source,
        target: given.target,
        count: given.count,
        rights: rights(given.rights),
    }
}

/// Returns the region that C passed, as an entry of a pager's table.
pub fn entry_of(given: &RegionGiven) -> Entry
    ensures { result ≡ entry_of given.now }
{
    Entry {
        first: given.target,
        source: given.source,
        count: given.count,
        rights: rights(given.rights),
    }
}

/// Returns the page size of this number of bytes, or None if no page has that size.
pub fn size_of(bytes: u32) -> Option<PageSize>
    ensures { MatchOption result (IsNoSize bytes) (λ size. bytes ≡ page_bytes size) }
{
    match bytes {
        4096 => Some(PageSize::Kib4),
        1024 => Some(PageSize::Kib1),
        _ => None,
    }
}

/// Returns the number of bytes of a page of this size.
pub fn bytes_of(size: PageSize) -> u32
    ensures { result ≡ page_bytes size }
{
    match size {
        PageSize::Kib4 => 4096,
        PageSize::Kib1 => 1024,
    }
}
