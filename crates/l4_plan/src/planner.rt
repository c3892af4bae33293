ghost use Rattle.std.specs.Prelude.{◌≡◌, ◌<◌, ◌↔◌, IfOk, IfErr, IsOk};
ghost use Rattle.l4_msg.specs.Regions.{IsEmpty, InSpace, IsOutOfSpace, HasNoRights, IsSound, HasShortRival};
ghost use Rattle.l4_plan.specs.Refusals.{IfTooLong, IsOfRegion};
ghost use Rattle.l4_plan.specs.Shortest.{IsShortest, IsTooLong};

use crate::pages::Pages;
use crate::plans::{Plan, PlanRefusal};
use crate::splitting::pass;
use l4_fpage::PageSize;
use l4_msg::{MAX_PLAN_ITEMS, Region, TOO_MANY};

/// Returns the shortest list of map items that moves exactly this region, for pages of this size, with the pages that
/// prove that no list is shorter. It needs no memory, and takes time in the logarithm of the region's size.
///
/// Errors: those of [`PlanRefusal`], in the order of its variants.
pub fn plan(region: &Region, size: PageSize) -> Result<Plan, PlanRefusal>
    ensures empty { (result ≡ Err PlanRefusal.Empty) ↔ IsEmpty region.now }
    ensures out_of_space { (result ≡ Err PlanRefusal.OutOfSpace)
        ↔ (0 < region.now.count × IsOutOfSpace size region.now) }
    ensures no_rights { (result ≡ Err PlanRefusal.NoRights)
        ↔ (0 < region.now.count × InSpace size region.now × HasNoRights region.now) }

    // The items move exactly the region, and their pages are a certificate with one page for each item. So no list of map items is shorter.
    ensures shortest { IfOk result (IsShortest size region.now) }

    // The plan is refused as too long only if every list of map items is too long. The pages in the refusal prove it.
    ensures too_long { IfErr result (λ e. IfTooLong e (IsTooLong size region.now)) }
    ensures others { IfErr result IsOfRegion }
    ensures possible { IsOk result ↔ (IsSound size region.now × HasShortRival size region.now) }
{
    if region.count == 0 {
        return Err(PlanRefusal::Empty);
    }
    let pages = size.space_pages();
    if region.count > pages
        || region.source > pages - region.count
        || region.target > pages - region.count
    {
        return Err(PlanRefusal::OutOfSpace);
    }
    if region.rights.is_empty() {
        return Err(PlanRefusal::NoRights);
    }
    let items = pass(region, TOO_MANY as u32).blocks;
    if items > MAX_PLAN_ITEMS as u32 {
        return Err(PlanRefusal::TooLong(Pages {
            region: *region,
            page: region.source,
            left: items,
        }));
    }
    Ok(Plan::of(region, size, items))
}
