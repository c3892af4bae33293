//! Pages that have descendants.

ghost use Rattle.std.specs.Prelude.{◌≡◌, ◌≤◌, ◌<◌, ◌+◌, ◌-◌, ◌*◌, ◌⊎◌, ℕ, List, length, true, false, None, Some, IfSome, MatchOption};
ghost use Rattle.l4_links.specs.Inside.Nodes.{IsForest};
ghost use Rattle.l4_spaces.specs.Tables.{row_block};
ghost use Rattle.l4_links.specs.Inside.Parents.{IsParent, IsParentKey, NoParents, NoParentsInBlock, IsFirstParent, NoParentPage, IsParentPage};

use crate::walks::is_leaf;
use l4_nodes::{Slots, node_of};
use l4_spaces::{BLOCK, Row, Spaces};

/// Returns the key, if something descends from it.
#[inline]
fn parent_key(nodes: &Slots, key: Option<usize>) -> Option<usize>
    requires forest { (keys : List ℕ) × IsForest nodes.now.slots keys }
    ensures { MatchOption result ((here : ℕ) → key ≡ Some here → ¬ (IsParent nodes.now.slots here))
        (λ here. (key ≡ Some here) × IsParent nodes.now.slots here) }
{
    let key = key?;
    let Some(_) = node_of(nodes, key) else {
        return None;
    };
    if is_leaf(nodes, key) {
        return None;
    }
    Some(key)
}

/// Returns the first entry of a table from this one on and before the end whose key has descendants, and the key.
fn parent_among(nodes: &Slots, row: &Row, from: usize, end: usize) -> Option<(usize, usize)>
    requires forest { (keys : List ℕ) × IsForest nodes.now.slots keys }
    requires within { end ≤ length row.now }
    ensures { MatchOption result (NoParents nodes.now.slots row.now from end)
        (λ found. IsFirstParent nodes.now.slots row.now from end found.0 found.1) }
{
    for low in from..end {
        if let Some(key) = parent_key(nodes, row.at(low)) {
            return Some((low, key));
        }
    }
    None
}

/// Does what `parent_among` does, for the entries of one block.
#[inline]
fn parent_in_block(
    nodes: &Slots,
    row: &Row,
    from: usize,
    end: usize,
    block: usize,
) -> Option<(usize, usize)>
    requires forest { (keys : List ℕ) × IsForest nodes.now.slots keys }
    requires within { end ≤ length row.now }
    requires begun { block * row_block ≤ end }
    ensures none { MatchOption result (NoParentsInBlock nodes.now.slots row.now from end block)
        (λ found. NoParentsInBlock nodes.now.slots row.now from found.0 block) }
    ensures some { IfSome result (λ found. IsParentKey nodes.now.slots row.now found.0 found.1 × (from ≤ found.0)
        × (found.0 < end) × (found.0 < block * row_block + row_block)) }
{
    if !row.is_used(block) {
        return None;
    }
    let start = block * BLOCK;
    let places = (end - start).min(BLOCK);
    parent_among(nodes, row, from.max(start), start + places)
}

/// Does what `parent_among` does, for all entries. A block that is not used is skipped.
#[inline(never)]
fn parent_in(nodes: &Slots, row: &Row, from: usize, end: usize) -> Option<(usize, usize)>
    requires forest { (keys : List ℕ) × IsForest nodes.now.slots keys }
    requires within { end ≤ length row.now }
    ensures { MatchOption result (NoParents nodes.now.slots row.now from end)
        (λ found. IsFirstParent nodes.now.slots row.now from end found.0 found.1) }
{
    for block in from / BLOCK..end / BLOCK + 1 {
        if let Some(found) = parent_in_block(nodes, row, from, end, block) {
            return Some(found);
        }
    }
    None
}

/// Returns the first page of the space from `page` on and before `end` whose key has descendants, and the key.
#[inline(never)]
fn seek_parent(
    nodes: &Slots,
    pages: &Spaces,
    space: u64,
    page: u32,
    end: u32,
) -> Option<(u32, usize)>
    requires forest { (keys : List ℕ) × IsForest nodes.now.slots keys }
    ensures { MatchOption result (NoParentPage nodes.now.slots pages.now space page end)
        (λ found. IsParentPage nodes.now.slots pages.now space page end found.0 found.1) }
{
    let mut next = page;
    loop {
        let Some((start, row)) = pages.next_table(space, next, end) else {
            return None;
        };
        let from = next.saturating_sub(start) as usize;
        let last = row.len().min((end - start) as usize);
        if let Some((low, key)) = parent_in(nodes, row, from, last) {
            return Some((start + low as u32, key));
        }
        next = start + row.len() as u32;
    }
}

/// Does what `seek_parent` does. Such a page often follows another one directly, and is then found without a walk.
#[inline(always)]
pub(crate) fn next_parent(
    nodes: &Slots,
    pages: &Spaces,
    space: u64,
    page: u32,
    end: u32,
) -> Option<(u32, usize)>
    requires forest { (keys : List ℕ) × IsForest nodes.now.slots keys }
    ensures { MatchOption result (NoParentPage nodes.now.slots pages.now space page end)
        (λ found. IsParentPage nodes.now.slots pages.now space page end found.0 found.1) }
{
    if page >= end {
        return None;
    }
    if let Some(key) = parent_key(nodes, pages.get(space, page)) {
        return Some((page, key));
    }
    seek_parent(nodes, pages, space, page + 1, end)
}
