//! Moves many pages: gives each a child at its place, or the place itself. Pages of one table whose places are in one table form a run.

ghost use Rattle.std.specs.Prelude.{◌≡◌, ◌≢◌, ◌≤◌, ◌<◌, ◌+◌, ◌-◌, ℕ, Option, length, MatchOption, Some, None, true, false, slice_index_or};
ghost use Rattle.l4_fpage.specs.Rights.{common, no_rights};
ghost use Rattle.l4_spaces.specs.Tables.{Tables, IsPage, space_pages};
ghost use Rattle.l4_spaces.specs.Rows.{entry};
ghost use Rattle.l4_nodes.specs.declared.nodes.Node.{Node as ANode};
ghost use Rattle.l4_nodes.specs.Slots.{node_at, HasRoomFor};
ghost use Rattle.l4_links.specs.Entries.{MovesItems, AreApart, ArePlain};
ghost use Rattle.l4_links.specs.Inside.Nodes.{AreKeys};
ghost use Rattle.l4_links.specs.Inside.Keeping.{entries_of, IsLive};
ghost use Rattle.l4_links.specs.Inside.Growing.{SharesNone, Lacks, Enters, Renews, IsSpareNode, IsBareNode, CanEnter, CanRun, BringsRow, AreGrowing, StayGrowing, CanBringFrom, BringsPages};

use crate::blocks::{Pages, Run, pages_of, place_for, run_at};
use crate::lists::{add_under, link_under, unlink};
use crate::wants::{Wants, wants_all};
use l4_fpage::Rights;
use l4_msg::ItemMove;
use l4_nodes::{Node, Place, Slots, node_of, set_place, set_rights};
use l4_spaces::Row;
use l4_spaces::tables::{TABLE_PAGES, is_ready, key_in, next_page};

/// Returns the node under the key, if it shares a right with these.
#[inline(always)]
pub(crate) fn sharing(nodes: &Slots, key: usize, rights: Rights) -> Option<Node>
    ensures { MatchOption result (SharesNone key rights nodes.now.slots) (λ n. (node_at nodes.now.slots key ≡ Some n)
        × (common n.rights rights ≢ no_rights)) }
{
    let node = node_of(nodes, key)?;
    if node.rights.intersection(rights).is_empty() {
        return None;
    }
    Some(node)
}

/// Puts a child of the node under the key `parent` in place of the leaf under the other key, which has a parent. If the leaf is its child
/// already, it only gets the rights `left`, which are those of `rights` that the parent has.
#[inline(never)]
fn renew(nodes: &mut Slots, parent: usize, key: usize, left: Rights, rights: Rights)
    requires live { (first : Option ℕ) × (stamp : ℕ) × IsLive nodes.old.slots first stamp }
    requires few { AreKeys nodes.old.slots }
    requires shares { (above : ANode) × (node_at nodes.old.slots parent ≡ Some above)
        × (left ≡ common above.rights rights) × (left ≢ no_rights) }
    requires spare { IsSpareNode key nodes.old.slots }
    requires bare { IsBareNode key nodes.old.slots }
    requires apart { parent ≢ key }
    ensures renews { Renews parent key rights nodes.old.slots nodes.new.slots }
    ensures room { (more : ℕ) → HasRoomFor nodes.old more → HasRoomFor nodes.new more }
{
    let Some(node) = node_of(nodes, key) else {
        unreachable!()
    };
    let Some(own) = node.parent.key() else {
        unreachable!()
    };
    if own == parent {
        return set_rights(nodes, key, left, node.doomed);
    }
    unlink(nodes, key);
    let Some(above) = node_of(nodes, parent) else {
        unreachable!()
    };
    link_under(nodes, parent, key, above, rights);
}

/// Moves the page that the first of the two entries names to the place of the second one: the page itself if the item grants, and otherwise a
/// child. Changes nothing if the first entry names no page, or if no right is shared.
#[inline(always)]
fn bring_at(
    nodes: &mut Slots,
    source: &mut Row,
    target: &mut Row,
    at: (usize, usize),
    place: Place,
    of: &Pages,
)
    requires fits { IsPage place.page }
    requires from { at.0 < length source.old }
    requires to { at.1 < length target.old }
    requires can { CanEnter of.now (slice_index_or source.old at.0 None) (slice_index_or target.old at.1 None) nodes.old }
    ensures enters { Enters of.now (slice_index_or source.old at.0 None) place at.0 at.1 nodes.old.slots nodes.new.slots
        source.old source.new target.old target.new }
    ensures lacked { (more : ℕ) → HasRoomFor nodes.old (more + 1) → HasRoomFor nodes.new more }
    ensures room { ¬ (Lacks of.now (slice_index_or source.old at.0 None) (slice_index_or target.old at.1 None) nodes.old.slots)
        → (more : ℕ) → HasRoomFor nodes.old more → HasRoomFor nodes.new more }
{
    let link = source.link(at.0);
    let Some(key) = link.key() else {
        return;
    };
    let Some(above) = sharing(nodes, key, of.rights) else {
        return;
    };
    if of.grant {
        set_place(nodes, key, place);
        source.clear(at.0);
        return target.put(at.1, link);
    }
    if let Some(taken) = target.at(at.1) {
        let left = above.rights.intersection(of.rights);
        return renew(nodes, key, taken, left, of.rights);
    }
    let child = add_under(nodes, key, place, &above, of.rights);
    target.put(at.1, child);
}

/// Moves the pages of the run, which begins with this page.
#[inline(never)]
fn bring_run(
    nodes: &mut Slots,
    source: &mut Row,
    target: &mut Row,
    run: &Run,
    of: &Pages,
    page: u32,
)
    requires fits { of.now.end - of.now.source.page + of.now.target.page ≤ space_pages }
    requires can { CanRun of.now page run.now.from run.now.to run.now.entries source.old target.old nodes.old }
    ensures { BringsRow of.now page run.now.from run.now.to run.now.entries run.now.entries source.old source.new target.old target.new
        nodes.old nodes.new }
{
    let of = *of;
    let from = run.from;
    let to = run.to;
    for step in 0..run.entries {
        let here = place_for(&of, page + step as u32);
        bring_at(nodes, source, target, (from + step, to + step), here, &of);
    }
}

/// Moves a page with this key, and those after it in one run. Returns the page after them.
fn bring_from(
    nodes: &mut Slots,
    sources: &mut Vec<Row>,
    targets: &mut Vec<Row>,
    of: &Pages,
    page: u32,
    key: usize,
) -> u32
    requires before { page < of.now.end }
    requires fits { of.now.end - of.now.source.page + of.now.target.page ≤ space_pages }
    requires shows { entry sources.old.items page ≡ Some key }
    requires can { CanBringFrom of.now page sources.old.items targets.old.items nodes.old }
    ensures next { (page < result) × (result ≤ of.now.end) }
    ensures brings { BringsPages of.now page result sources.old.items sources.new.items targets.old.items targets.new.items nodes.old nodes.new }
{
    let Some(_) = sharing(nodes, key, of.rights) else {
        return page + 1;
    };
    let place = place_for(of, page);
    let run = run_at(of, page);
    let source = &mut sources[(page / TABLE_PAGES) as usize];
    let target = &mut targets[(place.page / TABLE_PAGES) as usize];
    bring_run(nodes, source, target, &run, of, page);
    page + run.entries as u32
}

/// Moves the only page.
#[inline]
fn bring_page(nodes: &mut Slots, sources: &mut Vec<Row>, targets: &mut Vec<Row>, of: &Pages)
    requires one { of.now.end ≡ of.now.source.page + 1 }
    requires fits { of.now.end - of.now.source.page + of.now.target.page ≤ space_pages }
    requires can { CanBringFrom of.now of.now.source.page sources.old.items targets.old.items nodes.old }
    ensures { BringsPages of.now of.now.source.page of.now.end sources.old.items sources.new.items targets.old.items targets.new.items
        nodes.old nodes.new }
{
    let page = of.source.page;
    let place = place_for(of, page);
    let Some(_) = key_in(sources, page) else {
        return;
    };
    if !is_ready(targets, place.page) {
        return;
    }
    let source = &mut sources[(page / TABLE_PAGES) as usize];
    let target = &mut targets[(place.page / TABLE_PAGES) as usize];
    let at = (
        (page % TABLE_PAGES) as usize,
        (place.page % TABLE_PAGES) as usize,
    );
    bring_at(nodes, source, target, at, place, of);
}

/// Moves all pages of the item.
fn bring_item(nodes: &mut Slots, sources: &mut Vec<Row>, targets: &mut Vec<Row>, of: &Pages)
    requires rising { of.now.source.page ≤ of.now.end }
    requires fits { of.now.end - of.now.source.page + of.now.target.page ≤ space_pages }
    requires can { CanBringFrom of.now of.now.source.page sources.old.items targets.old.items nodes.old }
    ensures { BringsPages of.now of.now.source.page of.now.end sources.old.items sources.new.items targets.old.items targets.new.items
        nodes.old nodes.new }
{
    if of.end - of.source.page == 1 {
        return bring_page(nodes, sources, targets, of);
    }
    let of = *of;
    let mut page = of.source.page;
    loop {
        let Some((next, key)) = next_page(sources, page, of.end) else {
            return;
        };
        page = bring_from(nodes, sources, targets, &of, next, key);
    }
}

/// Moves the pages of all items if each page can move and no allocation fails. Returns whether it did. If not, no slot has changed.
pub(crate) fn bring_all(
    nodes: &mut Slots,
    sources: &mut Vec<Row>,
    targets: &mut Vec<Row>,
    from: u64,
    to: u64,
    items: &[ItemMove],
) -> bool
    requires differ { from ≢ to }
    requires apart { AreApart items.now (length items.now) }
    requires growing { (pages : Tables) × (first head : Option ℕ) × (stamp : ℕ) × (all : Tables)
        × AreGrowing from to pages sources.old.items targets.old.items nodes.old.slots first head stamp all }
    requires plain { ArePlain (entries_of nodes.old.slots) }
    ensures growing { (pages : Tables) → StayGrowing from to pages sources.old.items sources.new.items targets.old.items targets.new.items
        nodes.old.slots nodes.new.slots }
    ensures moves { result ≡ true → MovesItems from to items.now (entries_of nodes.old.slots) (entries_of nodes.new.slots) }
    ensures left { result ≡ false → nodes.new.slots ≡ nodes.old.slots }
{
    let Some(Wants { slots, changes }) = wants_all(nodes, sources, targets, from, to, items) else {
        return false;
    };
    if !changes {
        return true;
    }
    let Ok(()) = nodes.make_room(slots) else {
        return false;
    };
    for item in 0..items.len() {
        let of = pages_of(from, to, &items[item]);
        bring_item(nodes, sources, targets, &of);
    }
    true
}
