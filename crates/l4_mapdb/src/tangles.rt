//! Tests whether the effect of a message would depend on the order of its items.

ghost use Rattle.std.specs.Prelude.{◌≡◌, ◌≢◌, ◌↔◌, ◌<◌, ◌≤◌, ◌⊎◌, ℕ, length, IsTrue, MatchOption, true, false};
ghost use Rattle.l4_links.specs.Entries.{entry_at, AreApart};
ghost use Rattle.l4_mapdb.specs.Delivering.{IsClean};
ghost use Rattle.l4_mapdb.specs.Inside.Messages.{IsMoved, AreMarked};
ghost use Rattle.l4_mapdb.specs.Inside.Tangles.{Clashes, ClashesWith, HasTangle, AboveSource};
ghost use Rattle.l4_mapdb.specs.declared.sources.UsedMove.{UsedMove as AUsedMove};

use crate::ItemMove;
use crate::sources::{UsedMove, UsedMoves, later_page, move_out};
use l4_links::{Links, Place, end_of};

/// Returns the used move of the item of this number into the place.
fn move_into(
    links: &Links,
    from: u64,
    to: u64,
    items: &[ItemMove],
    item: usize,
    place: Place,
) -> Option<UsedMove>
    requires { item < length items.now }
    ensures { MatchOption result
        ((move : AUsedMove) → IsMoved links.now.entries from to items.now move → move.item ≡ item → move.target ≢ place)
        (λ m. IsMoved links.now.entries from to items.now m × (m.item ≡ item) × (m.target ≡ place)) }
{
    let by = &items[item];
    if place.space != to || !by.mv.target.contains(place.page) {
        return None;
    }
    let page = place.page - by.mv.target.first + by.mv.source.first;
    move_out(links, from, to, items, item, page)
}

/// Returns whether each item fills pages after those that the items before it fill. From the first item that grants on, each item must also
/// move pages after those that all items before it move.
pub(crate) fn are_apart(items: &[ItemMove]) -> bool
    ensures { result ≡ true → AreApart items.now (length items.now) }
{
    let mut source = 0;
    let mut target = 0;
    let mut grants = false;
    for item in 0..items.len() {
        let by = &items[item];
        grants = grants | by.grant;
        if by.mv.target.first < target {
            return false;
        }
        if grants && by.mv.source.first < source {
            return false;
        }
        source = later_page(source, end_of(by.mv.source));
        target = end_of(by.mv.target);
    }
    true
}

/// Returns whether the item `other`, if it is another one, fills what the used move fills, or moves what it grants.
fn clashes_with(
    links: &Links,
    from: u64,
    to: u64,
    items: &[ItemMove],
    used: &UsedMove,
    other: usize,
) -> bool
    requires { other < length items.now }
    ensures { IsTrue result
        ↔ ClashesWith (IsMoved links.now.entries from to items.now) used.now other }
{
    if other == used.item {
        return false;
    }
    if let Some(_) = move_into(links, from, to, items, other, used.target) {
        return true;
    }
    if !used.grant {
        return false;
    }
    if let Some(_) = move_out(links, from, to, items, other, used.page) {
        return true;
    }
    false
}

/// Returns whether another item fills what the used move fills, or moves what it grants. Tests nothing if the items are known to be apart.
fn clashes(
    links: &Links,
    from: u64,
    to: u64,
    items: &[ItemMove],
    used: &UsedMove,
    apart: bool,
) -> bool
    requires used { IsMoved links.now.entries from to items.now used.now }
    requires apart { apart ≡ true → AreApart items.now (length items.now) }
    ensures { IsTrue result ↔ Clashes (IsMoved links.now.entries from to items.now) used.now }
{
    if apart {
        return false;
    }
    for other in 0..items.len() {
        if clashes_with(links, from, to, items, used, other) {
            return true;
        }
    }
    false
}

/// Returns whether the node at the place is a source, or above one.
fn is_above_source(links: &mut Links, place: Place) -> bool
    ensures same { (key : ℕ) → entry_at links.new.entries key ≡ entry_at links.old.entries key }
    ensures answer { IsTrue result ↔ AboveSource links.old.entries place }
    ensures spaces { links.new.spaces ≡ links.old.spaces }
{
    let Some(key) = links.find(place) else {
        return false;
    };
    let Some(standing) = links.standing(key) else {
        return false;
    };
    if standing.source {
        return true;
    }
    links.has_source_below(key)
}

/// Marks the source of each used move.
fn mark_sources(links: &mut Links, from: u64, to: u64, items: &[ItemMove])
    requires { IsClean links.old }
    ensures marked { AreMarked (IsMoved links.old.entries from to items.now) links.old.entries
        links.new.entries }
    ensures spaces { links.new.spaces ≡ links.old.spaces }
{
    links.law_places();
    let mut moves = UsedMoves::new();
    while let Some(used) = moves.next(links, from, to, items) {
        links.set_source(used.source, true);
    }
}

/// Marks the sources of all used moves, and returns whether the used moves conflict. Each node is visited once.
pub(crate) fn has_tangle(links: &mut Links, from: u64, to: u64, items: &[ItemMove]) -> bool
    requires { IsClean links.old }
    ensures marked { AreMarked (IsMoved links.old.entries from to items.now) links.old.entries
        links.new.entries }
    ensures answer { IsTrue result
        ↔ HasTangle (IsMoved links.old.entries from to items.now) links.old.entries }
    ensures spaces { links.new.spaces ≡ links.old.spaces }
{
    links.law_places();
    mark_sources(links, from, to, items);
    let apart = are_apart(items);
    let mut moves = UsedMoves::new();
    while let Some(used) = moves.next(links, from, to, items) {
        if clashes(links, from, to, items, &used, apart) {
            return true;
        }
        if is_above_source(links, used.target) {
            return true;
        }
    }
    false
}
