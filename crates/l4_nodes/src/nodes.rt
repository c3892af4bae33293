//! The slots of the slab: the content of each, and the writes to a single one.

#![tactic(auto, using(crate::proofs::Joining::joins))]

ghost use Rattle.std.specs.Prelude.{◌≡◌, ◌+◌, ◌<◌, ℕ, Some, None};
ghost use Rattle.std.specs.Option.{option_map};
ghost use Rattle.l4_spaces.specs.Tables.{IsPage};
ghost use Rattle.l4_spaces.specs.Keys.{IsKey};
ghost use Rattle.l4_nodes.specs.Slots.{node_at, slot_at, spots, wanted_in, HasRoomFor, Writes, SetsWanted, SetsPlace, Gives, SetsNext, SetsPrev, SetsRights, Closes, Sees, SetsSource, SetsPlain, unnoted};
ghost use Rattle.l4_nodes.specs.declared.nodes.Slot.{Slot as ASlot};
ghost use Rattle.l4_nodes.specs.declared.nodes.Node.{Node as ANode};

use crate::Place;
use crate::slots::{Note, Slots, clear_note, note_at, put_note};
use l4_fpage::Rights;
use l4_spaces::Link;

/// The content of a page's slot. It is stored as a `Packed`, with a `Note` beside it.
#[derive(Clone, Copy)]
pub struct Slot {
    pub place: Place,
    /// Whether a message fills the page.
    pub wanted: bool,
    /// None in a blank, which keeps its key and its place but is in no tree.
    pub node: Option<Node>,
}

/// A node in the list of trees.
#[derive(Clone, Copy)]
pub struct Node {
    pub frame: u32,
    pub rights: Rights,
    /// Whether a message moves the page.
    pub source: bool,
    /// The rights of the item that has granted the page here, while a message is delivered.
    pub granted: Option<Rights>,
    /// The number of ancestors.
    pub depth: usize,
    /// The stamp of the last walk that has visited the node.
    pub seen: u32,
    /// The same stamp if that walk has visited all descendants of the node, and otherwise 0.
    pub mark: u32,
    /// The key at which that walk left the run of the node's descendants.
    pub end: Link,
    /// The key of the parent.
    pub parent: Link,
    /// The key of the node before this one.
    pub prev: Link,
    /// The key of the node after this one.
    pub next: Link,
    /// The key after this one on the stack of nodes without rights.
    pub doomed: Link,
}

/// Returns the node under the key, or None.
#[inline]
pub fn node_of(nodes: &Slots, key: usize) -> Option<Node>
    ensures { result ≡ node_at nodes.now.slots key }
{
    let Some(slot) = nodes.get(key) else {
        return None;
    };
    slot.node
}

/// Returns the page of the key, or None.
pub fn place_of(nodes: &Slots, key: usize) -> Option<Place>
    ensures { result ≡ option_map (λ (s : ASlot). s.place) (slot_at nodes.now.slots key) }
{
    let Some(slot) = nodes.get(key) else {
        return None;
    };
    Some(slot.place)
}

/// Returns whether a message fills the page of the key.
pub fn is_wanted(nodes: &Slots, key: usize) -> bool
    ensures { result ≡ wanted_in (spots nodes.now.slots key) }
{
    let Some(slot) = nodes.get(key) else {
        return false;
    };
    slot.wanted
}

/// Writes this node into the slot under the key, without any record of a walk. Changes nothing if there is no slot.
pub fn write(nodes: &mut Slots, key: usize, node: Node)
    requires { IsKey node.depth }
    ensures writes { Writes key (Some (unnoted node)) nodes.old.slots nodes.new.slots }
    ensures room { (more : ℕ) → HasRoomFor nodes.old more → HasRoomFor nodes.new more }
{
    let Some(slot) = nodes.packed.get_mut(key) else {
        return;
    };
    slot.put(node);
    clear_note(&mut nodes.notes, key);
}

/// Makes the slot under the key a blank. Changes nothing if there is no slot.
pub fn empty(nodes: &mut Slots, key: usize)
    ensures writes { Writes key None nodes.old.slots nodes.new.slots }
    ensures room { (more : ℕ) → HasRoomFor nodes.old more → HasRoomFor nodes.new more }
{
    let Some(slot) = nodes.packed.get_mut(key) else {
        return;
    };
    slot.empty();
}

/// Records whether a message fills the page of the key. Changes nothing if there is no slot.
pub fn set_wanted(nodes: &mut Slots, key: usize, wanted: bool)
    ensures { SetsWanted key wanted nodes.old.slots nodes.new.slots }
{
    let Some(slot) = nodes.packed.get_mut(key) else {
        return;
    };
    slot.set_wanted(wanted);
}

/// Gives the slot under the key this page. Changes nothing if there is no slot.
pub fn set_place(nodes: &mut Slots, key: usize, place: Place)
    requires { IsPage place.page }
    ensures sets { SetsPlace key place nodes.old.slots nodes.new.slots }
    ensures room { (more : ℕ) → HasRoomFor nodes.old more → HasRoomFor nodes.new more }
{
    let Some(slot) = nodes.packed.get_mut(key) else {
        return;
    };
    slot.set_place(place);
}

/// Gives the slot under the key this page, and records that an item with these rights grants it. Changes nothing if there is no slot.
pub fn give(nodes: &mut Slots, key: usize, place: Place, rights: Rights)
    requires { IsPage place.page }
    ensures { Gives key place rights nodes.old.slots nodes.new.slots }
{
    let Some(slot) = nodes.packed.get_mut(key) else {
        return;
    };
    slot.give(place, rights);
}

/// Sets the next key of the node that the link names.
pub fn set_next(nodes: &mut Slots, at: Link, next: Link)
    ensures sets { SetsNext at next nodes.old.slots nodes.new.slots }
    ensures room { (more : ℕ) → HasRoomFor nodes.old more → HasRoomFor nodes.new more }
{
    let Some(key) = at.key() else {
        return;
    };
    let Some(slot) = nodes.packed.get_mut(key) else {
        return;
    };
    slot.set_next(next);
}

/// Sets the previous key of the node that the link names.
pub fn set_prev(nodes: &mut Slots, at: Link, prev: Link)
    ensures sets { SetsPrev at prev nodes.old.slots nodes.new.slots }
    ensures room { (more : ℕ) → HasRoomFor nodes.old more → HasRoomFor nodes.new more }
{
    let Some(key) = at.key() else {
        return;
    };
    let Some(slot) = nodes.packed.get_mut(key) else {
        return;
    };
    slot.set_prev(prev);
}

/// Sets the rights of the node, and the key after it on the stack of nodes without rights.
pub fn set_rights(nodes: &mut Slots, key: usize, rights: Rights, doomed: Link)
    ensures sets { SetsRights key rights doomed nodes.old.slots nodes.new.slots }
    ensures room { (more : ℕ) → HasRoomFor nodes.old more → HasRoomFor nodes.new more }
{
    let Some(slot) = nodes.packed.get_mut(key) else {
        return;
    };
    slot.set_rights(rights, doomed);
}

/// Records that the walk has visited the node and all its descendants, and where it left their run.
pub fn close(nodes: &mut Slots, key: usize, stamp: u32, end: Link)
    ensures { Closes key stamp end nodes.old.slots nodes.new.slots }
{
    let Some(slot) = nodes.packed.get_mut(key) else {
        return;
    };
    slot.set_closed(true);
    put_note(&mut nodes.notes, key, Note { stamp, end });
}

/// Records that the walk has visited the node.
pub fn see(nodes: &mut Slots, key: usize, stamp: u32)
    ensures { Sees key stamp nodes.old.slots nodes.new.slots }
{
    let Some(slot) = nodes.packed.get_mut(key) else {
        return;
    };
    slot.set_closed(false);
    let end = note_at(&nodes.notes, key).end;
    put_note(&mut nodes.notes, key, Note { stamp, end });
}

/// Marks the node as a source, or removes that mark.
pub fn set_source(nodes: &mut Slots, key: usize, source: bool)
    ensures { SetsSource key source nodes.old.slots nodes.new.slots }
{
    let Some(slot) = nodes.packed.get_mut(key) else {
        return;
    };
    slot.set_source(source);
}

/// Removes the marks of a source and of a grant from the node.
pub fn set_plain(nodes: &mut Slots, key: usize)
    ensures { SetsPlain key nodes.old.slots nodes.new.slots }
{
    let Some(slot) = nodes.packed.get_mut(key) else {
        return;
    };
    slot.set_plain();
}
