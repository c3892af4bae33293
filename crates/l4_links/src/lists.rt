//! The list of all nodes in depth-first order: inserts a node, removes one, cuts off a run.

ghost use Rattle.std.specs.Prelude.{◌≡◌, ◌≢◌, ◌<◌, ◌+◌, ◌^◌, ◌++◌, ◌∷◌, [], ℕ, List, Option, Some, None, false};
ghost use Rattle.l4_fpage.specs.Rights.{common};
ghost use Rattle.l4_spaces.specs.Tables.{IsPage};
ghost use Rattle.l4_spaces.specs.Keys.{IsKey};
ghost use Rattle.l4_links.specs.Inside.Trees.{Sprouts, Rises};
ghost use Rattle.l4_links.specs.Inside.Orders.{TakesOut, first_of};
ghost use Rattle.l4_nodes.specs.Slots.{node_at, slot_at, spots, HasRoomFor};
ghost use Rattle.l4_links.specs.Inside.Nodes.{limbs, links, values, AreKeys, IsOrder, IsForest, Parts, TakesSlot, CutsOff, ClosesGap, Comes, child, AddsUnder, Prunes, Clears};
ghost use Rattle.l4_links.specs.Inside.Keeping.{IsIndexed};

use crate::burial::first_without;
use crate::walks::deeper;
use l4_fpage::Rights;
use l4_nodes::{
    Node, Place, Slots, empty, is_wanted, node_of, place_of, set_next, set_prev, write,
};
use l4_spaces::{Link, Spaces};

/// Takes the node out of its list. Its slot stays, as a blank.
pub(crate) fn unlink(nodes: &mut Slots, key: usize)
    requires order { (ks : List ℕ) × IsOrder nodes.old.slots ks }
    requires there { node_at nodes.old.slots key ≢ None }
    ensures takes { TakesOut (links nodes.old.slots) (links nodes.new.slots) key }
    ensures parts { Parts key nodes.old.slots nodes.new.slots }
    ensures order { (xs ys : List ℕ) → IsOrder nodes.old.slots (xs ++ key ∷ ys) → IsOrder nodes.new.slots (xs ++ ys) }
    ensures room { (more : ℕ) → HasRoomFor nodes.old more → HasRoomFor nodes.new more }
{
    let Some(node) = node_of(nodes, key) else {
        unreachable!()
    };
    empty(nodes, key);
    set_next(nodes, node.prev, node.next);
    set_prev(nodes, node.next, node.prev);
}

/// Removes the node from its slot, and leaves the links to it as they are. A wanted page stays as a blank; any other slot is removed with
/// the name of its page.
#[inline]
fn cut_off(nodes: &mut Slots, pages: &mut Spaces, key: usize)
    requires there { node_at nodes.old.slots key ≢ None }
    ensures out { CutsOff key nodes.old.slots nodes.new.slots }
    ensures indexed { IsIndexed nodes.old.slots pages.old → IsIndexed nodes.new.slots pages.new }
    ensures spaces { pages.new.spaces ≡ pages.old.spaces }
{
    if is_wanted(nodes, key) {
        return empty(nodes, key);
    }
    remove(nodes, pages, key);
}

/// Links the node with the one after the removed run, if any node was removed between them.
fn close_gap(nodes: &mut Slots, top: usize, next: Link, gone: usize)
    requires key { IsKey top }
    ensures whole { gone ≡ 0 → nodes.new.slots ≡ nodes.old.slots }
    ensures closed { gone ≢ 0 → ClosesGap top next nodes.old.slots nodes.new.slots }
{
    if gone == 0 {
        return;
    }
    let at = Link::to(top);
    set_next(nodes, at, next);
    set_prev(nodes, next, at);
}

/// Returns the child of the node under the key `parent`: it has that node's frame and those of these rights that the node has, and comes
/// directly after it.
#[inline]
fn child_of(parent: usize, above: &Node, rights: Rights, slots: usize) -> Node
    requires key { IsKey parent }
    requires depth { above.now.depth < slots }
    ensures { result ≡ child parent above.now rights }
{
    let under = Link::to(parent);
    let none = Link::none();
    Node {
        frame: above.frame,
        rights: above.rights.intersection(rights),
        source: false,
        granted: None,
        depth: above.depth + 1,
        seen: 0,
        mark: 0,
        end: none,
        parent: under,
        prev: under,
        next: above.next,
        doomed: none,
    }
}

/// Puts a node straight after its parent, into the blank that the key is of.
pub(crate) fn link_under(nodes: &mut Slots, parent: usize, key: usize, above: Node, rights: Rights)
    requires forest { (ks : List ℕ) × IsForest nodes.old.slots ks }
    requires few { AreKeys nodes.old.slots }
    requires there { node_at nodes.old.slots parent ≡ Some above }
    requires room { slot_at nodes.old.slots key ≢ None }
    requires blank { node_at nodes.old.slots key ≡ None }
    ensures sprouts { Sprouts (limbs nodes.old.slots) (limbs nodes.new.slots) parent key }
    ensures comes { Comes (record {
      frame = above.frame;
      rights = common above.rights rights;
      source = false;
      granted = None;
    }) key nodes.old.slots nodes.new.slots }
    ensures forest { (xs ys : List ℕ) → IsForest nodes.old.slots (xs ++ parent ∷ ys) → IsForest nodes.new.slots (xs ++ parent ∷ key ∷ ys) }
    ensures room { (more : ℕ) → HasRoomFor nodes.old more → HasRoomFor nodes.new more }
{
    let node = child_of(parent, &above, rights, nodes.capacity());
    let at = Link::to(key);
    write(nodes, key, node);
    set_prev(nodes, above.next, at);
    set_next(nodes, Link::to(parent), at);
}

/// Puts a node for a page directly after its parent, into a new slot, for which there must be room. Returns the link to it.
#[inline(always)]
pub(crate) fn add_under(
    nodes: &mut Slots,
    parent: usize,
    place: Place,
    above: &Node,
    rights: Rights,
) -> Link
    requires forest { (ks : List ℕ) × IsForest nodes.old.slots ks }
    requires few { AreKeys nodes.old.slots }
    requires there { node_at nodes.old.slots parent ≡ Some above.now }
    requires fits { IsPage place.page }
    requires room { HasRoomFor nodes.old 1 }
    ensures room { (more : ℕ) → HasRoomFor nodes.old (more + 1) → HasRoomFor nodes.new more }
    ensures link { result ≡ Some nodes.old.vacant_key }
    ensures few { IsKey nodes.old.vacant_key }
    ensures adds { AddsUnder parent place above.now rights nodes.old.slots nodes.new.slots nodes.old.vacant_key }
{
    let node = child_of(parent, above, rights, nodes.capacity());
    let key = nodes.insert_node(place, node);
    let at = Link::to(key);
    set_prev(nodes, above.next, at);
    set_next(nodes, Link::to(parent), at);
    at
}

/// Puts a root before all other nodes, into the blank of the key. Returns the key with which the list begins then.
pub(crate) fn link_root(
    nodes: &mut Slots,
    first: Link,
    key: usize,
    frame: u32,
    rights: Rights,
) -> Link
    requires few { AreKeys nodes.old.slots }
    requires room { slot_at nodes.old.slots key ≢ None }
    requires blank { node_at nodes.old.slots key ≡ None }
    ensures rises { Rises (limbs nodes.old.slots) (limbs nodes.new.slots) key }
    ensures comes { Comes (record { frame = frame; rights = rights; source = false; granted = None }) key nodes.old.slots nodes.new.slots }
    ensures forest { (ks : List ℕ) → IsForest nodes.old.slots ks → first_of ks None ≡ first → IsForest nodes.new.slots (key ∷ ks) }
    ensures first { result ≡ Some key }
{
    let at = Link::to(key);
    let none = Link::none();
    let node = Node {
        frame,
        rights,
        source: false,
        granted: None,
        depth: 0,
        seen: 0,
        mark: 0,
        end: none,
        parent: none,
        prev: none,
        next: first,
        doomed: none,
    };
    write(nodes, key, node);
    set_prev(nodes, first, at);
    at
}

/// Cuts off all that descends from the node: the run of deeper nodes after it, in one pass that mends the list at its end.
pub(crate) fn cut_run(nodes: &mut Slots, pages: &mut Spaces, top: usize)
    requires forest { (ks : List ℕ) × IsForest nodes.old.slots ks }
    requires few { AreKeys nodes.old.slots }
    requires there { node_at nodes.old.slots top ≢ None }
    ensures prunes { Prunes top nodes.old.slots nodes.new.slots }
    ensures indexed { IsIndexed nodes.old.slots pages.old → IsIndexed nodes.new.slots pages.new }
    ensures spaces { pages.new.spaces ≡ pages.old.spaces }
{
    let Some(head) = node_of(nodes, top) else {
        unreachable!()
    };
    let depth = head.depth;
    let mut at = head.next;
    for gone in 0..nodes.capacity() {
        let Some((key, node)) = deeper(nodes, at, depth) else {
            return close_gap(nodes, top, at, gone);
        };
        at = node.next;
        cut_off(nodes, pages, key);
    }
}

/// Cuts off everything that descends from the node, and leaves a blank in the node's slot. Returns the key with which the list then begins.
pub(crate) fn clear(nodes: &mut Slots, pages: &mut Spaces, first: Link, top: usize) -> Link
    requires forest { (ks : List ℕ) × IsForest nodes.old.slots ks }
    requires few { AreKeys nodes.old.slots }
    requires there { node_at nodes.old.slots top ≢ None }
    ensures clears { Clears top first result nodes.old.slots nodes.new.slots }
    ensures indexed { IsIndexed nodes.old.slots pages.old → IsIndexed nodes.new.slots pages.new }
    ensures spaces { pages.new.spaces ≡ pages.old.spaces }
{
    cut_run(nodes, pages, top);
    let Some(node) = node_of(nodes, top) else {
        unreachable!()
    };
    unlink(nodes, top);
    first_without(&node, first)
}

/// Takes the slot under the key away, if there is one, and its page's name.
#[inline]
pub(crate) fn remove(nodes: &mut Slots, pages: &mut Spaces, key: usize)
    ensures gone { slot_at nodes.new.slots key ≡ None }
    ensures others { (other : ℕ) → other ≢ key → slot_at nodes.new.slots other ≡ slot_at nodes.old.slots other }
    ensures indexed { IsIndexed nodes.old.slots pages.old → IsIndexed nodes.new.slots pages.new }
    ensures spaces { pages.new.spaces ≡ pages.old.spaces }
{
    let Some(place) = place_of(nodes, key) else {
        return;
    };
    nodes.remove(key);
    pages.clear(place.space, place.page);
}
