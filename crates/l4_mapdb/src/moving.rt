//! Executes the used moves of a message: mapped pages get children, and granted pages get other places.

ghost use Rattle.std.specs.Prelude.{MatchOption, ◌≡◌, ◌+◌, ◌^◌, ◌⊎◌, ◌<◌, ◌≤◌, ℕ, List, length, slice_get, Some, true, false};
ghost use Rattle.l4_nodes.specs.declared.Place.{Place as ALinkPlace};
ghost use Rattle.l4_links.specs.Entries.{Linked, IsAt, IsKeyOf};
ghost use Rattle.l4_mapdb.specs.Inside.Placing.{IsStart, Placed, IsDone, MovesPage, IsSourceAt, MovesNone, HasBlank};

use crate::ItemMove;
use l4_fpage::Rights;
use l4_links::{Links, Place, end_of};

/// Returns whether a message moves the page of the key: its node is marked and was not granted, and shares a right with the item.
fn is_moved(links: &Links, key: usize, rights: Rights) -> bool
    ensures yes { result ≡ true → (place : ALinkPlace) → IsAt links.now.entries place key
        → IsSourceAt links.now.entries place rights key }
    ensures no { result ≡ false → (place : ALinkPlace) → IsKeyOf links.now.entries place key
        → MovesNone place rights links.now.entries }
{
    let Some(standing) = links.standing(key) else {
        return false;
    };
    if !standing.source || standing.granted.is_some() {
        return false;
    }
    !standing.rights.intersection(rights).is_empty()
}

/// Moves the page of the key, if the message moves it: a granted node goes to the target, and a mapped one gets a child there.
fn move_key(links: &mut Links, key: usize, target: Place, rights: Rights, grants: bool)
    requires blank { (source : ALinkPlace) × IsKeyOf links.old.entries source key
        × HasBlank source target rights links.old.entries }
    ensures moves { (source : ALinkPlace) → IsKeyOf links.old.entries source key
        → MovesPage grants source target rights links.old.entries links.new.entries ⊎ (MovesNone source rights links.old.entries × (links.new ≡ links.old)) }
    ensures spaces { links.new.spaces ≡ links.old.spaces }
{
    if !is_moved(links, key, rights) {
        return;
    }
    let Some(blank) = links.find(target) else {
        return;
    };
    if grants {
        return links.take_over(key, blank, rights);
    }
    links.stand_under(key, blank, rights);
}

/// Carries out the used moves of the item of this number, if it is of this kind.
fn move_item(links: &mut Links, from: u64, to: u64, items: &[ItemMove], grants: bool, item: usize)
    requires within { item < length items.now }
    requires ready { (start : Linked) × IsStart start from to items.now
        × Placed start from to items.now (IsDone start from to items.now grants item 0) links.old }
    ensures moves { (start : Linked) → IsStart start from to items.now → Placed start from to items.now (IsDone start from to items.now grants item 0) links.old
        → Placed start from to items.now (IsDone start from to items.now grants (item + 1) 0) links.new }
    ensures spaces { links.new.spaces ≡ links.old.spaces }
{
    let by = &items[item];
    if by.grant != grants {
        return;
    }
    let end = end_of(by.mv.source);
    let mut begin = by.mv.source.first;
    loop {
        links.law_places();
        let Some((page, key)) = links.next_key_in(from, begin, end) else {
            return;
        };
        let target = Place {
            space: to,
            page: page - by.mv.source.first + by.mv.target.first,
        };
        move_key(links, key, target, by.rights, grants);
        begin = page + 1;
    }
}

/// Carries out the used moves of all items of this kind.
fn move_kind(links: &mut Links, from: u64, to: u64, items: &[ItemMove], grants: bool)
    requires ready { (start : Linked) × IsStart start from to items.now
        × Placed start from to items.now (IsDone start from to items.now grants 0 0) links.old }
    ensures moves { (start : Linked) → IsStart start from to items.now → Placed start from to items.now (IsDone start from to items.now grants 0 0) links.old
        → Placed start from to items.now (IsDone start from to items.now grants (length items.now) 0) links.new }
    ensures spaces { links.new.spaces ≡ links.old.spaces }
{
    for item in 0..items.len() {
        move_item(links, from, to, items, grants, item);
    }
}

/// Carries out the used moves of all items: first those of map items, then those of grant items.
pub(crate) fn move_all(links: &mut Links, from: u64, to: u64, items: &[ItemMove])
    requires ready { (start : Linked) × IsStart start from to items.now
        × Placed start from to items.now (IsDone start from to items.now false 0 0) links.old }
    ensures moves { (start : Linked) → IsStart start from to items.now → Placed start from to items.now (IsDone start from to items.now false 0 0) links.old
        → Placed start from to items.now (IsDone start from to items.now true (length items.now) 0) links.new }
    ensures spaces { links.new.spaces ≡ links.old.spaces }
{
    move_kind(links, from, to, items, false);
    move_kind(links, from, to, items, true);
}
