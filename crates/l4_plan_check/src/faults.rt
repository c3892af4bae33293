/// The claim holds: no fault was found.
#[derive(Clone, Copy, PartialEq, Eq, Debug)]
pub struct Proved;

/// The reason why a claim about a region is not proved: the first that applies, in this order (this profile's own).
#[derive(Clone, Copy, PartialEq, Eq, Debug)]
pub enum Fault {
    /// C6: the region has no pages, a page beyond the end of a space, or no rights.
    Region,
    /// C1: the item at this position, from 0, is a grant item, has other rights than the region, or moves a page (in
    /// a complete window) that is not in the region or not to its target. It is the first such item.
    Item(usize),
    /// C2: no item moves this source page. It is the least such page.
    Gap(u32),
    /// C5: there are more than 1,984 items, or not one page per item; or a claim of 'too long' does not have 1,985
    /// pages.
    Count,
    /// C3: the page at this position, from 0, is not a source page of the region. It is the first such page.
    Page(usize),
    /// C4: one allowed block contains the page at this position, from 0, and an earlier one. It is the first such
    /// page.
    Pair(usize),
}
