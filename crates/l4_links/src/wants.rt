//! Tests whether the pages of items can move, and counts the slots that they need. Allocates the tables of their places; writes nothing else.

ghost use Rattle.std.specs.Prelude.{◌≡◌, ◌≤◌, ◌<◌, ◌+◌, ◌-◌, ◌/◌, ℕ, List, Option, length, IfSome, Some, false, true};
ghost use Rattle.l4_spaces.specs.Tables.{Tables, IsPage, space_pages, space_tables, table_pages};
ghost use Rattle.l4_spaces.specs.Rows.{entry, is_made, AreWhole};
ghost use Rattle.l4_nodes.specs.Slots.{node_at};
ghost use Rattle.l4_links.specs.Entries.{AreApart, ArePlain};
ghost use Rattle.l4_links.specs.Inside.Nodes.{IsForest};
ghost use Rattle.l4_links.specs.Inside.Keeping.{entries_of};
ghost use Rattle.l4_links.specs.Inside.Bringing.{MakesTables, CanBring};
ghost use Rattle.l4_links.specs.Inside.Growing.{IsSpareNode, IsChildOf, WantsOne, WantsRow, WantsPages, AreGrowing};

use crate::blocks::{Pages, Run, pages_of, place_for, run_at};
use crate::children::sharing;
use crate::walks::is_leaf;
use l4_fpage::Rights;
use l4_msg::ItemMove;
use l4_nodes::{Node, Slots, node_of};
use l4_spaces::Row;
use l4_spaces::tables::{TABLE_PAGES, is_ready, key_in, make_all, next_page};

/// Returns whether the node under the key would change if a child of this parent took its place. Returns None if none can: the node must have
/// a parent and no descendants.
#[inline(always)]
fn changes_at(
    nodes: &Slots,
    key: usize,
    parent: usize,
    above: &Node,
    rights: Rights,
) -> Option<bool>
    requires forest { (ks : List ℕ) × IsForest nodes.now.slots ks }
    requires stands { node_at nodes.now.slots parent ≡ Some above.now }
    ensures { IfSome result (λ changes. IsSpareNode key nodes.now.slots
        × (changes ≡ false → IsChildOf parent key rights nodes.now.slots)) }
{
    let node = node_of(nodes, key)?;
    let own = node.parent.key()?;
    if !is_leaf(nodes, key) {
        return None;
    }
    if own != parent {
        return Some(true);
    }
    Some(node.rights != above.rights.intersection(rights))
}

/// What the move of pages takes.
#[derive(Clone, Copy)]
pub(crate) struct Wants {
    /// How many slots there must be room for.
    pub slots: usize,
    /// Whether anything changes. Nothing does if each page already has its child.
    pub changes: bool,
}

/// Returns what it takes to move the page with the key `key` to the place with the key `taken`. A child needs a slot if the place has no key.
/// Returns None if the page cannot move, or if a grant would take a right from it. A page that has no key or shares no right does not move.
#[inline(always)]
fn wants_at(nodes: &Slots, key: Option<usize>, taken: Option<usize>, of: &Pages) -> Option<Wants>
    requires forest { (ks : List ℕ) × IsForest nodes.now.slots ks }
    ensures { IfSome result (λ wants. WantsOne of.now key taken nodes.now.slots wants.slots wants.changes) }
{
    let nothing = Wants {
        slots: 0,
        changes: false,
    };
    let Some(key) = key else {
        return Some(nothing);
    };
    let Some(node) = sharing(nodes, key, of.rights) else {
        return Some(nothing);
    };
    if of.grant {
        if let Some(_) = taken {
            return None;
        }
        if !of.rights.contains(node.rights) {
            return None;
        }
        return Some(Wants {
            slots: 0,
            changes: true,
        });
    }
    let Some(taken) = taken else {
        return Some(Wants {
            slots: 1,
            changes: true,
        });
    };
    let changes = changes_at(nodes, taken, key, &node, of.rights)?;
    Some(Wants { slots: 0, changes })
}

/// Returns what the move of the run's pages takes, or None if one of them cannot move.
#[inline(never)]
fn wants_run(nodes: &Slots, source: &Row, target: &Row, run: &Run, of: &Pages) -> Option<Wants>
    requires forest { (ks : List ℕ) × IsForest nodes.now.slots ks }
    requires source { length source.now ≡ table_pages }
    requires target { length target.now ≡ table_pages }
    requires from { run.now.from + run.now.entries ≤ table_pages }
    requires to { run.now.to + run.now.entries ≤ table_pages }
    ensures { IfSome result (λ wants.
        WantsRow of.now run.now.from run.now.to run.now.entries source.now target.now wants.slots wants.changes nodes.now.slots) }
{
    let of = *of;
    let from = run.from;
    let to = run.to;
    let mut slots = 0;
    let mut changes = false;
    for step in 0..run.entries {
        let one = wants_at(nodes, source.at(from + step), target.at(to + step), &of)?;
        slots += one.slots;
        changes |= one.changes;
    }
    Some(Wants { slots, changes })
}

/// Allocates the table of the page if it has none. Returns whether it has one then.
#[inline]
fn make_ready(targets: &mut Vec<Row>, page: u32) -> bool
    requires whole { AreWhole targets.old.items }
    requires full { length targets.old.items ≤ space_tables }
    requires fits { IsPage page }
    ensures made { result ≡ true → is_made targets.new.items (page / table_pages) ≡ true }
    ensures makes { MakesTables targets.old.items targets.new.items }
{
    if is_ready(targets, page) {
        return true;
    }
    let alloc = *targets.allocator();
    make_all(targets, alloc, &[page]).is_ok()
}

/// Returns the page after the run that begins with this page, and what the move of the run takes. Allocates the table of the run's places.
/// Returns None if a page cannot move, or if an allocation fails.
fn wants_from(
    nodes: &Slots,
    sources: &Vec<Row>,
    targets: &mut Vec<Row>,
    of: &Pages,
    page: u32,
    key: usize,
) -> Option<(u32, Wants)>
    requires forest { (ks : List ℕ) × IsForest nodes.now.slots ks }
    requires sources { AreWhole sources.now.items }
    requires whole { AreWhole targets.old.items }
    requires full { length targets.old.items ≤ space_tables }
    requires from { of.now.source.page ≤ page }
    requires before { page < of.now.end }
    requires fits { of.now.end - of.now.source.page + of.now.target.page ≤ space_pages }
    requires shows { entry sources.now.items page ≡ Some key }
    ensures wants { IfSome result (λ found. (page < found.0) × (found.0 ≤ of.now.end)
        × WantsPages of.now page found.0 sources.now.items targets.new.items found.1.slots found.1.changes nodes.now.slots) }
    ensures makes { MakesTables targets.old.items targets.new.items }
{
    let Some(_) = sharing(nodes, key, of.rights) else {
        let nothing = Wants {
            slots: 0,
            changes: false,
        };
        return Some((page + 1, nothing));
    };
    let place = place_for(of, page);
    if !make_ready(targets, place.page) {
        return None;
    }
    let run = run_at(of, page);
    let after = page + run.entries as u32;
    let source = &sources[(page / TABLE_PAGES) as usize];
    let target = &targets[(place.page / TABLE_PAGES) as usize];
    if !of.grant && target.is_free(run.to, run.to + run.entries) {
        let all = Wants {
            slots: run.entries,
            changes: true,
        };
        return Some((after, all));
    }
    let wants = wants_run(nodes, source, target, &run, of)?;
    Some((after, wants))
}

/// Returns what the move of the only page takes. Allocates the table of its place if something changes. Returns None if the page cannot move,
/// or if the allocation fails.
fn wants_page(
    nodes: &Slots,
    sources: &Vec<Row>,
    targets: &mut Vec<Row>,
    of: &Pages,
) -> Option<Wants>
    requires forest { (ks : List ℕ) × IsForest nodes.now.slots ks }
    requires whole { AreWhole targets.old.items }
    requires full { length targets.old.items ≤ space_tables }
    requires one { of.now.end ≡ of.now.source.page + 1 }
    requires fits { of.now.end - of.now.source.page + of.now.target.page ≤ space_pages }
    ensures wants { IfSome result (λ wants. WantsPages of.now of.now.source.page of.now.end sources.now.items targets.new.items
        wants.slots wants.changes nodes.now.slots) }
    ensures makes { MakesTables targets.old.items targets.new.items }
{
    let page = of.source.page;
    let place = place_for(of, page);
    let key = key_in(sources, page);
    let taken = key_in(targets, place.page);
    let wants = wants_at(nodes, key, taken, of)?;
    if !wants.changes {
        return Some(wants);
    }
    if !make_ready(targets, place.page) {
        return None;
    }
    Some(wants)
}

/// Returns what the move of the item's pages takes. Allocates the tables of their places. Returns None if a page cannot move, or if an
/// allocation fails.
fn wants_item(
    nodes: &Slots,
    sources: &Vec<Row>,
    targets: &mut Vec<Row>,
    of: &Pages,
) -> Option<Wants>
    requires forest { (ks : List ℕ) × IsForest nodes.now.slots ks }
    requires sources { AreWhole sources.now.items }
    requires long { length sources.now.items ≤ space_tables }
    requires whole { AreWhole targets.old.items }
    requires full { length targets.old.items ≤ space_tables }
    requires rising { of.now.source.page ≤ of.now.end }
    requires fits { of.now.end - of.now.source.page + of.now.target.page ≤ space_pages }
    ensures wants { IfSome result (λ wants. WantsPages of.now of.now.source.page of.now.end sources.now.items targets.new.items
        wants.slots wants.changes nodes.now.slots) }
    ensures makes { MakesTables targets.old.items targets.new.items }
{
    if of.end - of.source.page == 1 {
        return wants_page(nodes, sources, targets, of);
    }
    let of = *of;
    let mut page = of.source.page;
    let mut slots = 0;
    let mut changes = false;
    loop {
        let Some((next, key)) = next_page(sources, page, of.end) else {
            return Some(Wants { slots, changes });
        };
        let (after, more) = wants_from(nodes, sources, targets, &of, next, key)?;
        slots += more.slots;
        changes |= more.changes;
        page = after;
    }
}

/// Returns what the move of all items takes. Allocates the tables of their places. Returns None if a page cannot move, or if an allocation
/// fails.
pub(crate) fn wants_all(
    nodes: &Slots,
    sources: &Vec<Row>,
    targets: &mut Vec<Row>,
    from: u64,
    to: u64,
    items: &[ItemMove],
) -> Option<Wants>
    requires apart { AreApart items.now (length items.now) }
    requires growing { (pages : Tables) × (first head : Option ℕ) × (stamp : ℕ) × (all : Tables)
        × AreGrowing from to pages sources.now.items targets.old.items nodes.now.slots first head stamp all }
    requires plain { ArePlain (entries_of nodes.now.slots) }
    ensures wants { IfSome result (λ wants.
        CanBring from to items.now (length items.now) (entries_of nodes.now.slots) targets.new.items wants.slots wants.changes) }
    ensures makes { MakesTables targets.old.items targets.new.items }
{
    let mut slots = 0;
    let mut changes = false;
    for item in 0..items.len() {
        let of = pages_of(from, to, &items[item]);
        let more = wants_item(nodes, sources, targets, &of)?;
        slots += more.slots;
        changes |= more.changes;
    }
    Some(Wants { slots, changes })
}
