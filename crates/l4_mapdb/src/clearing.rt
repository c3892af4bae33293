//! Removes the mappings at the targets of a message, with everything that descends from them.

ghost use Rattle.std.specs.Prelude.{◌≡◌, ◌≤◌, ℕ};
ghost use Rattle.l4_links.specs.Entries.{entry_at, IsAt, HaveRights, Clears};
ghost use Rattle.l4_mapdb.specs.declared.sources.UsedMove.{UsedMove as AUsedMove};
ghost use Rattle.l4_mapdb.specs.Inside.Messages.{IsMoved, IsWanted, IsClearedAt, Goes};

use crate::ItemMove;
use crate::sources::UsedMoves;
use l4_links::{Links, Place};

/// Clears the node at the place, if it has a key.
fn clear_page(links: &mut Links, place: Place)
    requires { HaveRights links.old.entries }
    ensures clears { (key : ℕ) → IsAt links.old.entries place key
        → Clears key links.old.entries links.new.entries }
    ensures spaces { links.new.spaces ≡ links.old.spaces }
{
    let Some(key) = links.find(place) else {
        return;
    };
    links.clear(key);
}

/// Clears the target of each used move. All targets are wanted, and no source goes.
pub(crate) fn clear_targets(links: &mut Links, from: u64, to: u64, items: &[ItemMove])
    requires rights { HaveRights links.old.entries }
    requires wanted { (move : AUsedMove) → IsMoved links.old.entries from to items.now move
        → IsWanted links.old.entries move.target }
    requires stay { (move : AUsedMove) → IsMoved links.old.entries from to items.now move
        → ¬ (Goes (IsMoved links.old.entries from to items.now) links.old.entries move.source) }
    ensures clears { (key : ℕ)
        → IsClearedAt (Goes (IsMoved links.old.entries from to items.now) links.old.entries key)
        (entry_at links.old.entries key) (entry_at links.new.entries key) }
    ensures spaces { links.new.spaces ≡ links.old.spaces }
{
    links.law_places();
    links.law_trees();
    let mut moves = UsedMoves::new();
    while let Some(used) = moves.next(links, from, to, items) {
        clear_page(links, used.target);
    }
}
