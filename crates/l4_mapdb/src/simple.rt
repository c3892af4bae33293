//! The short path for a message from one space to another whose items are apart. It is taken if each target of a map is absent or a leaf with
//! a parent, and each granted page goes to an absent target and loses no right. Nothing is marked, and nothing is cut.

ghost use Rattle.std.specs.Prelude.{◌≡◌, ℕ, IsTrue, true, false};
ghost use Rattle.std.specs.FinSet as set;
ghost use Rattle.l4_links.specs.Entries.{entry_at};
ghost use Rattle.l4_mapdb.specs.Delivering.{IsClean, IsDelivered};

use crate::ItemMove;
use crate::tangles::are_apart;
use l4_links::Links;

/// Delivers a message from one space to another, if its items are apart, maps go to places that are free or have leaves with parents, and
/// grants go to free places and take no right from a page. Returns whether it was delivered. If not, nothing has changed. Returns false, too,
/// if an allocation fails.
pub(crate) fn deliver_simple(links: &mut Links, from: u64, to: u64, items: &[ItemMove]) -> bool
    requires clean { IsClean links.old }
    requires there { IsTrue (set.contains links.old.spaces to) }
    ensures done { result ≡ true → IsDelivered from to items.now links.old links.new }
    ensures left { result ≡ false
        → (key : ℕ) → entry_at links.new.entries key ≡ entry_at links.old.entries key }
    ensures spaces { links.new.spaces ≡ links.old.spaces }
{
    if from == to {
        return false;
    }
    if !are_apart(items) {
        return false;
    }
    links.law_places();
    links.law_trees();
    let done = links.move_items(from, to, items);
    links.law_places();
    done
}
