//! Plans and checks.
ghost use Rattle.std.specs.Prelude.{◌≡◌, codes};
ghost use Rattle.l4_page.specs.Given.{region_of, InBytes};
ghost use Rattle.l4_page.specs.Told.{TellsNothing};
ghost use Rattle.l4_page.specs.Plans.{TellsPlan, TellsCheck};

use crate::given::{NO_SUCH_SIZE, RegionGiven, region_of, size_of};
use crate::telling::{NO_MEMORY, Told, refused, tell};
use l4_fpage::PageSize;
use l4_plan_lines::{check_lines, plan_lines};
use std::alloc::Global;

/// Plans a region, and writes the plan.
fn planned(alloc: Global, given: &RegionGiven, size: PageSize, out: &mut [u8]) -> Told
    ensures { TellsPlan size (region_of given.now) out.old out.new result }
{
    let mut text = Vec::new(alloc);
    match plan_lines(&region_of(given), size, &mut text) {
        Ok(found) => tell(text.as_slice(), found, 0, out),
        Err(_) => refused(NO_MEMORY),
    }
}

/// Writes what `l4 plan` writes for a region.
#[unsafe(no_mangle)]
pub extern "C" fn page_plan(
    alloc: Global,
    given: &RegionGiven,
    page_bytes: u32,
    out: &mut [u8],
) -> Told
    ensures { InBytes page_bytes
        (λ size. TellsPlan size (region_of given.now) out.old out.new result)
        (TellsNothing (codes "B4") out.old out.new result) }
{
    match size_of(page_bytes) {
        Some(size) => planned(alloc, given, size, out),
        None => refused(NO_SUCH_SIZE),
    }
}

/// Checks a claim about a region, and writes the verdict.
fn judged(alloc: Global, given: &RegionGiven, size: PageSize, claim: &[u8], out: &mut [u8]) -> Told
    ensures { TellsCheck size (region_of given.now) claim.now out.old out.new result }
{
    let mut rest = claim;
    let mut text = Vec::new(alloc);
    match check_lines(&region_of(given), size, &mut rest, &mut text) {
        Ok(proved) => tell(text.as_slice(), proved, 0, out),
        Err(_) => refused(NO_MEMORY),
    }
}

/// Writes what `l4 check` writes for a region and a claim.
#[unsafe(no_mangle)]
pub extern "C" fn page_check(
    alloc: Global,
    given: &RegionGiven,
    page_bytes: u32,
    claim: &[u8],
    out: &mut [u8],
) -> Told
    ensures { InBytes page_bytes
        (λ size. TellsCheck size (region_of given.now) claim.now out.old out.new result)
        (TellsNothing (codes "B4") out.old out.new result) }
{
    match size_of(page_bytes) {
        Some(size) => judged(alloc, given, size, claim, out),
        None => refused(NO_SUCH_SIZE),
    }
}
