//! Makes room for what a message moves: allocates a key for each target before anything is removed.

ghost use Rattle.std.specs.Prelude.{◌≡◌, ℕ, IsTrue, OnOk, OnErr};
ghost use Rattle.std.specs.FinSet as set;
ghost use Rattle.l4_spaces.specs.Tables.{IsPage};
ghost use Rattle.l4_links.specs.Entries.{entry_at, IsAt};
ghost use Rattle.l4_mapdb.specs.declared.sources.UsedMove.{UsedMove as AUsedMove};
ghost use Rattle.l4_mapdb.specs.Inside.Messages.{IsMoved, IsWanted, IsFilled, Wants};

use crate::ItemMove;
use crate::sources::UsedMoves;
use l4_links::{Links, NoMemory, Place};

/// Gives the page a key if it has none, and marks it as wanted.
fn want_page(links: &mut Links, place: Place) -> Result<(), NoMemory>
    requires there { IsTrue (set.contains links.old.spaces place.space) }
    requires fits { IsPage place.page }
    ensures wants { (key : ℕ)
        → Wants (λ p. p ≡ place) (entry_at links.old.entries key) (entry_at links.new.entries key) }
    ensures ok { OnOk result (IsWanted links.new.entries place) }
    ensures err { OnErr result ((key : ℕ) → ¬ (IsAt links.old.entries place key)) }
    ensures spaces { links.new.spaces ≡ links.old.spaces }
{
    if let Some(key) = links.find(place) {
        links.set_wanted(key, true);
        return Ok(());
    }
    match links.add_blank(place) {
        Ok(key) => {
            links.set_wanted(key, true);
            Ok(())
        }
        Err(refused) => Err(refused),
    }
}

/// Gives the target of each used move a key if it has none, and marks it as wanted.
pub(crate) fn make_room(
    links: &mut Links,
    from: u64,
    to: u64,
    items: &[ItemMove],
) -> Result<(), NoMemory>
    requires there { IsTrue (set.contains links.old.spaces to) }
    ensures wants { (key : ℕ) → Wants (IsFilled (IsMoved links.old.entries from to items.now))
        (entry_at links.old.entries key) (entry_at links.new.entries key) }
    ensures ok { OnOk result
        ((move : AUsedMove) → IsMoved links.old.entries from to items.now move
        → IsWanted links.new.entries move.target) }
    ensures err { OnErr result
        ((move : AUsedMove) × IsMoved links.old.entries from to items.now move
        × ((key : ℕ) → ¬ (IsAt links.old.entries move.target key))) }
    ensures spaces { links.new.spaces ≡ links.old.spaces }
{
    links.law_places();
    let mut moves = UsedMoves::new();
    while let Some(used) = moves.next(links, from, to, items) {
        match want_page(links, used.target) {
            Ok(()) => {}
            Err(refused) => return Err(refused),
        }
    }
    Ok(())
}
