ghost use Rattle.std.specs.Prelude.{◌≡◌, ℕ, ◌+◌, ◌<◌, ◌≤◌, ◌↔◌, IsTrue, OnOk, IfErr, length};
ghost use Rattle.l4_msg.specs.Regions.{max_plan_items, IsSound, IsRival, IsCertificate, NeedsAtLeast, NeedsMoreThan};
ghost use Rattle.l4_plan_check.specs.Faults.{Holds, IsFirstFault, LongHolds, IsFirstLongFault};
ghost use Rattle.l4_plan_check.specs.declared.faults.Fault.{Fault as AFault};

use crate::faults::{Fault, Proved};
use crate::items::{first_bad, first_gap};
use crate::pages::page_fault;
use l4_fpage::PageSize;
use l4_msg::{Item, MAX_PLAN_ITEMS, Region, TOO_MANY};

/// Returns whether the region has a page, all its pages are in the space, and it has rights.
fn is_sound(region: &Region, size: PageSize) -> bool
    ensures { IsTrue result ↔ IsSound size region.now }
{
    let pages = size.space_pages();
    region.count > 0
        && region.count <= pages
        && region.source <= pages - region.count
        && region.target <= pages - region.count
        && !region.rights.is_empty()
}

/// Checks that these items move exactly the region, for pages of this size, and that these pages, one per item, prove
/// that no such list of map items is shorter.
///
/// Returns the first fault in the order of [`Fault`]; [`Proved`] means that there is none. It needs no memory. It
/// takes time in the number of items and pages if both rise, as in a plan, and else in its square.
pub fn check(
    region: &Region,
    size: PageSize,
    items: &[Item],
    pages: &[u32],
) -> Result<Proved, Fault>
    ensures first { IfErr result (IsFirstFault size region.now items.now pages.now) }

    // The result is Proved only if no fault applies, and then the claim is true.
    ensures none { OnOk result
        ((fault : AFault) → Holds size region.now items.now pages.now fault → ⊥) }
    ensures exact { OnOk result (IsRival size region.now items.now) }
    ensures certificate { OnOk result (IsCertificate region.now pages.now) }
    ensures one_each { OnOk result (length pages.now ≡ length items.now) }
    ensures few { OnOk result (length items.now ≤ max_plan_items) }
    ensures shortest { OnOk result (NeedsAtLeast size region.now (length items.now)) }
{
    if !is_sound(region, size) {
        return Err(Fault::Region);
    }
    if let Some(i) = first_bad(region, size, items) {
        return Err(Fault::Item(i));
    }
    if let Some(page) = first_gap(region, size, items) {
        return Err(Fault::Gap(page));
    }
    if items.len() > MAX_PLAN_ITEMS || pages.len() != items.len() {
        return Err(Fault::Count);
    }
    if let Some(fault) = page_fault(region, pages) {
        return Err(fault);
    }
    Ok(Proved)
}

/// Checks that these are 1,985 pages which prove that every list of map items that moves exactly the region has more
/// than 1,984 items.
///
/// Returns the first fault in the order of [`Fault`], out of C6, C5, C3 and C4; [`Proved`] means that there is none.
/// It needs no memory. It takes time in the number of pages if they rise, and else in its square.
pub fn check_too_long(region: &Region, size: PageSize, pages: &[u32]) -> Result<Proved, Fault>
    ensures first { IfErr result (IsFirstLongFault size region.now pages.now) }

    // The result is Proved only if no fault applies, and then the claim is true.
    ensures none { OnOk result ((fault : AFault) → LongHolds size region.now pages.now fault → ⊥) }
    ensures certificate { OnOk result (IsCertificate region.now pages.now) }
    ensures many { OnOk result (length pages.now ≡ max_plan_items + 1) }
    ensures too_long { OnOk result (NeedsMoreThan size region.now max_plan_items) }
{
    if !is_sound(region, size) {
        return Err(Fault::Region);
    }
    if pages.len() != TOO_MANY {
        return Err(Fault::Count);
    }
    match page_fault(region, pages) {
        Some(fault) => Err(fault),
        None => Ok(Proved),
    }
}
