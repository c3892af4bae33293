ghost use Rattle.std.specs.Prelude.{◌≡◌, ℕ, ◌+◌, ◌-◌, ◌*◌, ◌%◌, ◌^◌, ◌<◌, ◌≤◌, map};
ghost use Rattle.l4_msg.specs.Regions.{InSpace};
ghost use Rattle.l4_plan.specs.Largest.{IsLargest};
ghost use Rattle.l4_msg.specs.Sizes.{max_items};
ghost use Rattle.l4_plan.specs.Inside.Listings.{InLargestSpace, GoesOn};
ghost use Rattle.l4_plan.specs.Inside.Split.{reached, starts_from, item_at};

use arrayvec::ArrayVec;
use l4_fpage::{Block, Fpage, PageSize};
use l4_msg::{Item, MAX_ITEMS, Region};

/// Returns the log of the largest power of two, up to 2^32, that divides both pages.
#[tactic(auto, using(l4_fpage::proofs::Powers::trailing_aligned, l4_fpage::proofs::Powers::aligned_trailing))]
fn alignment(source: u32, target: u32) -> u32
    ensures divides_source { (k : ℕ) → k ≤ result → source % 2 ^ k ≡ 0 }
    ensures divides_target { (k : ℕ) → k ≤ result → target % 2 ^ k ≡ 0 }
    ensures greatest { (k : ℕ) → k ≤ 32 → source % 2 ^ k ≡ 0 → target % 2 ^ k ≡ 0 → k ≤ result }
{
    source.trailing_zeros().min(target.trailing_zeros())
}

/// Returns the log of the size, in pages, of the largest allowed block that begins at this page.
pub(crate) fn largest_allowed(region: &Region, page: u32) -> u8
    requires space { InLargestSpace region.now }
    requires from { region.now.source ≤ page }
    requires below { page < region.now.source + region.now.count }
    ensures { IsLargest region.now page result }
{
    let target = region.target + (page - region.source);
    let left = region.source + region.count - page;
    alignment(page, target).min(left.ilog2()) as u8
}

/// Returns how many largest allowed blocks of this size begin at this page, one directly after another. If no larger block can begin
/// anywhere, because source and target are never aligned to more, this is the number of all blocks of this size up to the region's end;
/// otherwise it is 1.
fn run_of(region: &Region, page: u32, log: u8) -> u32
    requires space { InLargestSpace region.now }
    requires first { IsLargest region.now page log }
    ensures some { 0 < result }
    ensures same { (i : ℕ) → i < result → IsLargest region.now (page + i * 2 ^ log) log }
{
    let target = region.target + (page - region.source);
    let (here, there) = (page.trailing_zeros(), target.trailing_zeros());
    if here == there || u32::from(log) < here.min(there) {
        return 1;
    }
    (region.source + region.count - page) >> log
}

/// The page after some largest allowed blocks, and the number of these blocks.
#[derive(Clone, Copy)]
pub(crate) struct Passed {
    pub(crate) page: u32,
    pub(crate) blocks: u32,
}

/// Counts the largest allowed blocks that begin one directly after another at the region's first page: at most `most`, or all if there are
/// fewer. It takes time in the logarithm of the region's size.
pub(crate) fn pass(region: &Region, most: u32) -> Passed
    requires { InLargestSpace region.now }
    ensures few { result.blocks ≤ most }
    ensures page { result.page ≡ reached region.now region.now.source result.blocks }
    ensures within { (i : ℕ) → i < result.blocks → reached region.now region.now.source i
        < region.now.source + region.now.count }
    ensures to { result.page ≤ region.now.source + region.now.count }
    ensures all { result.blocks < most → result.page ≡ region.now.source + region.now.count }
{
    let end = region.source + region.count;
    let mut page = region.source;
    let mut blocks = 0;
    while page < end && blocks < most {
        let log = largest_allowed(region, page);
        let run = run_of(region, page, log).min(most - blocks);
        page += run << log;
        blocks += run;
    }
    Passed { page, blocks }
}

/// Returns the map items that move this number of largest allowed blocks, one directly after another from this page on. Each item has the
/// region's rights, and its send base is the first byte of the target block.
pub(crate) fn items_from(
    region: &Region,
    size: PageSize,
    first: u32,
    blocks: u32,
) -> ArrayVec<Item, MAX_ITEMS>
    requires space { InSpace size region.now }
    requires goes { GoesOn region.now first blocks }
    requires few { blocks ≤ max_items }
    ensures { result.items ≡ map (item_at size region.now) (starts_from region.now first blocks) }
{
    let mut items = ArrayVec::new();
    let mut page = first;
    for done in 0..blocks {
        let log = largest_allowed(region, page);
        let base = size.address_of(region.target + (page - region.source));
        let fpage = Fpage::of_block(Block { first: page, log }, size, region.rights);
        items.push(Item::Map { base, fpage });
        page += 1 << log;
    }
    items
}

/// Returns the pages at which this number of largest allowed blocks begin, one directly after another from this page on.
pub(crate) fn starts_of(region: &Region, first: u32, blocks: u32) -> ArrayVec<u32, MAX_ITEMS>
    requires goes { GoesOn region.now first blocks }
    requires few { blocks ≤ max_items }
    ensures { result.items ≡ starts_from region.now first blocks }
{
    let mut pages = ArrayVec::new();
    let mut page = first;
    for done in 0..blocks {
        pages.push(page);
        page += 1 << largest_allowed(region, page);
    }
    pages
}
