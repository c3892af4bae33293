//! The used moves of a message, one after another by item and page.

ghost use Rattle.std.specs.Prelude.{◌≡◌, ◌≢◌, ◌<◌, ◌≤◌, ◌+◌, ◌⊎◌, length, IsTrue, IfSome, MatchOption, OnSome, slice_get, ℕ, Some, None};
ghost use Rattle.l4_fpage.specs.Pages.{most_pages, InBlock};
ghost use Rattle.l4_links.specs.Entries.{IsKeyOf};
ghost use Rattle.l4_msg.specs.declared.items.ItemMove.{ItemMove as AnItemMove};
ghost use Rattle.l4_mapdb.specs.Inside.Messages.{IsMoved, turn_of, turn_in, turns_left, IsNextMove, IsNextOfItem};

use crate::ItemMove;
use l4_links::{Links, Place, end_of};

/// The effect of one item of a message on one page.
#[derive(Clone, Copy)]
pub(crate) struct UsedMove {
    /// The item's number.
    pub item: usize,
    /// The page of the sender.
    pub page: u32,
    /// The key of its node.
    pub source: usize,
    /// The page of the receiver.
    pub target: Place,
    pub grant: bool,
}

/// Returns the used move of this item from a page that the item names, and that was found with its key.
fn move_of(
    links: &Links,
    from: u64,
    to: u64,
    items: &[ItemMove],
    item: usize,
    found: (u32, usize),
) -> Option<UsedMove>
    requires there { item < length items.now }
    requires named { (by : AnItemMove) → slice_get items.now item ≡ Some by
        → InBlock by.mv.source.first by.mv.source.log found.0 }
    requires at { IsKeyOf links.now.entries (record { space = from; page = found.0 }) found.1 }
    ensures { MatchOption result
        ((move : UsedMove) → IsMoved links.now.entries from to items.now move → move.item ≡ item → move.page ≢ found.0)
        (λ m. IsMoved links.now.entries from to items.now m × (m.item ≡ item) × (m.page ≡ found.0)) }
{
    let (page, key) = found;
    let by = &items[item];
    let Some(standing) = links.standing(key) else {
        return None;
    };
    if standing.rights.intersection(by.rights).is_empty() {
        return None;
    }
    Some(UsedMove {
        item,
        page,
        source: key,
        target: Place {
            space: to,
            page: page - by.mv.source.first + by.mv.target.first,
        },
        grant: by.grant,
    })
}

/// Returns the used move of the item of this number out of the page.
pub(crate) fn move_out(
    links: &Links,
    from: u64,
    to: u64,
    items: &[ItemMove],
    item: usize,
    page: u32,
) -> Option<UsedMove>
    requires { item < length items.now }
    ensures { MatchOption result
        ((move : UsedMove) → IsMoved links.now.entries from to items.now move → move.item ≡ item → move.page ≢ page)
        (λ m. IsMoved links.now.entries from to items.now m × (m.item ≡ item) × (m.page ≡ page)) }
{
    if !items[item].mv.source.contains(page) {
        return None;
    }
    let Some(key) = links.find(Place { space: from, page }) else {
        return None;
    };
    move_of(links, from, to, items, item, (page, key))
}

/// Returns the greater of two pages.
pub(crate) fn later_page(a: u32, b: u32) -> u32
    ensures first { a ≤ result }
    ensures second { b ≤ result }
    ensures one { (result ≡ a) ⊎ (result ≡ b) }
{
    if a < b {
        return b;
    }
    a
}

/// Returns the first used move of the item from this page on.
fn next_of_item(
    links: &Links,
    from: u64,
    to: u64,
    items: &[ItemMove],
    item: usize,
    page: u32,
) -> Option<UsedMove>
    requires { item < length items.now }
    ensures { MatchOption result
        ((move : UsedMove) → IsMoved links.now.entries from to items.now move → move.item ≡ item → move.page < page)
        (IsNextOfItem links.now.entries from to items.now item page) }
{
    let by = &items[item];
    let end = end_of(by.mv.source);
    let mut start = later_page(page, by.mv.source.first);
    loop {
        let Some(found) = links.next_key_in(from, start, end) else {
            return None;
        };
        if let Some(used) = move_of(links, from, to, items, item, found) {
            return Some(used);
        }
        start = found.0 + 1;
    }
}

/// A walk over the used moves of a message, in the order of items and of their pages. It continues at this page of this item.
#[derive(Drop)]
pub(crate) struct UsedMoves {
    item: usize,
    page: u32,
}

impl UsedMoves {
    /// Creates the walk, at the first page of the first item.
    pub(crate) fn new() -> UsedMoves
        ensures { result ≡ record { item = 0; page = 0 } }
    {
        UsedMoves { item: 0, page: 0 }
    }

    /// Returns the next used move of the walk, and passes it.
    #[inline(always)]
    pub(crate) fn next(
        &mut self,
        links: &Links,
        from: u64,
        to: u64,
        items: &[ItemMove],
    ) -> Option<UsedMove>
        requires { self.old.page ≤ most_pages }
        ensures gives { MatchOption result
            ((move : UsedMove) → IsMoved links.now.entries from to items.now move → turn_of move < turn_in self.old)
            (IsNextMove links.now.entries from to items.now (turn_in self.old)) }
        ensures passes { IfSome result
            (λ m. self.new ≡ record { item = m.item; page = m.page + 1 }) }
        ensures fits { IfSome result (λ m. m.page < most_pages) }
        ensures falls { OnSome result
            (turns_left items.now self.new < turns_left items.now self.old) }
    {
        let mut start = self.page;
        for number in self.item..items.len() {
            if let Some(used) = next_of_item(links, from, to, items, number, start) {
                self.item = number;
                self.page = used.page + 1;
                return Some(used);
            }
            start = 0;
        }
        None
    }
}
