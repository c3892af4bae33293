//! Delivers a message, or refuses it.

ghost use Rattle.std.specs.Prelude.{◌≡◌, ℕ, List, IsTrue, IsOk, OnOk, OnErr, IfErr, false};
ghost use Rattle.std.specs.FinSet as set;
ghost use Rattle.l4_links.specs.Entries.{Linked, entry_at};
ghost use Rattle.l4_mapdb.specs.Mappings.{IsForest};
ghost use Rattle.l4_mapdb.specs.Transfer.{IsUsed, IsEntangled, TargetsPresent, Delivers};
ghost use Rattle.l4_mapdb.specs.Causes.{HasCause};
ghost use Rattle.l4_mapdb.specs.View.{mappings_of};
ghost use Rattle.l4_mapdb.specs.Delivering.{IsClean, RootsKnown, IsDelivered};
ghost use Rattle.l4_mapdb.specs.Inside.Placing.{IsStart, Placed, IsDone};

use crate::clearing::clear_targets;
use crate::moving::move_all;
use crate::room::make_room;
use crate::simple::deliver_simple;
use crate::tangles::has_tangle;
use crate::unmarking::unmark;
use crate::{Cause, ItemMove};
use l4_links::Links;

/// Executes the used moves of a message whose targets are prepared, cuts the rights of what descends from granted pages, and removes all
/// marks and what has no rights left.
fn carry_out(links: &mut Links, from: u64, to: u64, items: &[ItemMove])
    requires ready { (start : Linked) × IsStart start from to items.now
        × Placed start from to items.now (IsDone start from to items.now false 0 0) links.old }
    ensures delivers { (start : Linked) → IsStart start from to items.now → Placed start from to items.now (IsDone start from to items.now false 0 0) links.old
        → Delivers from to items.now (mappings_of start) (mappings_of links.new) }
    ensures clean { IsClean links.new }
    ensures roots { (start : Linked) → IsStart start from to items.now → Placed start from to items.now (IsDone start from to items.now false 0 0) links.old
        → (roots : List ℕ) → RootsKnown start.entries roots → RootsKnown links.new.entries roots }
    ensures spaces { links.new.spaces ≡ links.old.spaces }
{
    move_all(links, from, to, items);
    links.law_places();
    links.law_trees();
    unmark(links, from, to, items);
    links.bury();
    links.law_places();
    links.law_trees();
}

/// Delivers any message: tests it, makes room for each target, removes the mappings at the targets with everything that descends from
/// them, and then executes its used moves.
fn deliver_any(links: &mut Links, from: u64, to: u64, items: &[ItemMove]) -> Result<(), Cause>
    requires clean { IsClean links.old }
    requires there { IsTrue (set.contains links.old.spaces to) }
    ensures ok { OnOk result (IsDelivered from to items.now links.old links.new) }
    ensures err { OnErr result
        ((key : ℕ) → entry_at links.new.entries key ≡ entry_at links.old.entries key) }
    ensures cause { IfErr result
        (HasCause (IsUsed (mappings_of links.old) from to items.now) (mappings_of links.old)) }
    ensures succeeds { TargetsPresent (IsUsed (mappings_of links.old) from to items.now)
        (mappings_of links.old)
        → ¬ (IsEntangled (IsUsed (mappings_of links.old) from to items.now) (mappings_of links.old))
        → IsOk result }
    ensures spaces { links.new.spaces ≡ links.old.spaces }
{
    links.law_places();
    links.law_trees();
    if has_tangle(links, from, to, items) {
        unmark(links, from, to, items);
        return Err(Cause::Entangled);
    }
    let Ok(()) = make_room(links, from, to, items) else {
        unmark(links, from, to, items);
        return Err(Cause::NoMemory);
    };
    links.law_places();
    links.law_trees();
    clear_targets(links, from, to, items);
    carry_out(links, from, to, items);
    Ok(())
}

/// Delivers a message. Tries the short path first.
pub fn deliver(links: &mut Links, from: u64, to: u64, items: &[ItemMove]) -> Result<(), Cause>
    requires clean { IsClean links.old }
    requires there { IsTrue (set.contains links.old.spaces to) }
    requires forest { IsForest (mappings_of links.old) }
    ensures ok { OnOk result (IsDelivered from to items.now links.old links.new) }
    ensures err { OnErr result
        ((key : ℕ) → entry_at links.new.entries key ≡ entry_at links.old.entries key) }
    ensures cause { IfErr result
        (HasCause (IsUsed (mappings_of links.old) from to items.now) (mappings_of links.old)) }
    ensures succeeds { TargetsPresent (IsUsed (mappings_of links.old) from to items.now)
        (mappings_of links.old)
        → ¬ (IsEntangled (IsUsed (mappings_of links.old) from to items.now) (mappings_of links.old))
        → IsOk result }
    ensures spaces { links.new.spaces ≡ links.old.spaces }
{
    links.law_places();
    if deliver_simple(links, from, to, items) {
        return Ok(());
    }
    links.law_places();
    deliver_any(links, from, to, items)
}
