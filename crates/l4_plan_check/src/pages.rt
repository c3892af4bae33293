ghost use Rattle.std.specs.Prelude.{◌≡◌, ℕ, ◌+◌, ◌-◌, ◌*◌, ◌^◌, ◌<◌, ◌≤◌, ◌↔◌, IsTrue, MatchOption, length, slice_index};
ghost use Rattle.l4_msg.specs.Regions.{ShareBlock};
ghost use Rattle.l4_plan_check.specs.Claims.{IsInside, IsFirstOutside, HasPair, IsFirstPair};
ghost use Rattle.l4_plan_check.specs.Inside.Pages.{AreInside, InLargest, RisesTo};
ghost use Rattle.l4_plan_check.specs.Inside.Pages.{HasNoPageFault, IsPageFault};

use crate::faults::Fault;
use l4_fpage::Block;
use l4_msg::Region;

/// Returns whether the page is one of the region's source pages.
fn is_inside(region: &Region, page: u32) -> bool
    requires { InLargest region.now }
    ensures { IsTrue result ↔ IsInside region.now page }
{
    page >= region.source && page < region.source + region.count
}

/// Returns the place of the first page outside the region.
fn first_outside(region: &Region, pages: &[u32]) -> Option<usize>
    requires { InLargest region.now }
    ensures { MatchOption result (AreInside region.now pages.now)
        (IsFirstOutside region.now pages.now) }
{
    for (i, page) in pages.iter().enumerate() {
        if !is_inside(region, *page) {
            return Some(i);
        }
    }
    None
}

/// Returns whether one allowed block holds both pages.
fn share_block(region: &Region, a: u32, b: u32) -> bool
    requires space { InLargest region.now }
    requires a { IsInside region.now a }
    requires b { IsInside region.now b }
    ensures { IsTrue result ↔ ShareBlock region.now a b }
{
    let block = Block::join(a, b);
    let size = 1u32 << block.log;
    if block.first < region.source {
        return false;
    }
    if block.first + size > region.source + region.count {
        return false;
    }
    (region.target + (block.first - region.source)) % size == 0
}

/// Returns the number of rising pages, from the first one on.
fn rising(pages: &[u32]) -> usize
    ensures { RisesTo pages.now result }
{
    for i in 1..pages.len() {
        if pages[i] <= pages[i - 1] {
            return i;
        }
    }
    pages.len()
}

/// Returns whether one allowed block holds this page and an earlier one.
fn has_pair(region: &Region, pages: &[u32], i: usize) -> bool
    requires space { InLargest region.now }
    requires inside { AreInside region.now pages.now }
    requires place { i < length pages.now }
    ensures { IsTrue result ↔ HasPair region.now pages.now i }
{
    for j in 0..i {
        if share_block(region, pages[j], pages[i]) {
            return true;
        }
    }
    false
}

/// Returns the result of `has_pair` if the pages up to this one rise: a block that has this page and an earlier page also has the page
/// before it.
fn has_neighbour(region: &Region, pages: &[u32], i: usize) -> bool
    requires space { InLargest region.now }
    requires inside { AreInside region.now pages.now }
    requires place { i < length pages.now }
    requires rises { RisesTo pages.now (i + 1) }
    ensures { IsTrue result ↔ HasPair region.now pages.now i }
{
    if i == 0 {
        return false;
    }
    share_block(region, pages[i - 1], pages[i])
}

/// Returns whether one allowed block has this page and an earlier one, if the first `rising` pages rise.
fn is_paired(region: &Region, pages: &[u32], i: usize, rising: usize) -> bool
    requires space { InLargest region.now }
    requires inside { AreInside region.now pages.now }
    requires place { i < length pages.now }
    requires rises { RisesTo pages.now rising }
    ensures { IsTrue result ↔ HasPair region.now pages.now i }
{
    if i < rising {
        return has_neighbour(region, pages, i);
    }
    has_pair(region, pages, i)
}

/// Returns the first page that shares an allowed block with an earlier one.
fn first_pair(region: &Region, pages: &[u32]) -> Option<usize>
    requires space { InLargest region.now }
    requires inside { AreInside region.now pages.now }
    ensures { MatchOption result
        ((i : ℕ) → i < length pages.now → HasPair region.now pages.now i → ⊥)
        (IsFirstPair region.now pages.now) }
{
    let rising = rising(pages);
    for i in 0..pages.len() {
        if is_paired(region, pages, i, rising) {
            return Some(i);
        }
    }
    None
}

/// Returns the fault of the pages: the first page outside the region, else the first that shares an allowed block
/// with an earlier one.
///
pub fn page_fault(region: &Region, pages: &[u32]) -> Option<Fault>
    requires { InLargest region.now }
    ensures { MatchOption result (HasNoPageFault region.now pages.now)
        (IsPageFault region.now pages.now) }
{
    if let Some(i) = first_outside(region, pages) {
        return Some(Fault::Page(i));
    }
    if let Some(i) = first_pair(region, pages) {
        return Some(Fault::Pair(i));
    }
    None
}
