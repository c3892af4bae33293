//! The stack of nodes without rights, and their removal. They leave the list in the order of that stack. Between two removals, the list is
//! complete but the trees need not be: a child may be left of a parent that was removed. After the last one the trees are complete again,
//! because what descends from a node without rights has none either.

ghost use Rattle.std.specs.Prelude.{◌≡◌, ◌≢◌, ℕ, List, Some, None};
ghost use Rattle.l4_links.specs.Inside.Nodes.{AreKeys, Caps, IsForest};
ghost use Rattle.l4_links.specs.Inside.Keeping.{IsIndexed, IsWithin};
ghost use Rattle.l4_links.specs.Inside.Stacks.{HasStack, Buries};

use crate::lists::{remove, unlink};
use l4_fpage::Rights;
use l4_nodes::{Node, Slots, node_of, set_rights};
use l4_spaces::{Link, Spaces};

/// Reduces the rights of the node to these rights. A node that loses its last right is put on the stack that begins with the key `doomed`.
/// Returns the key with which the stack begins then.
pub(crate) fn cap_at(nodes: &mut Slots, key: usize, cap: Rights, doomed: Link) -> Link
    requires few { AreKeys nodes.old.slots }
    requires stack { HasStack nodes.old.slots doomed }
    ensures caps { Caps key cap nodes.old.slots nodes.new.slots }
    ensures stack { HasStack nodes.new.slots result }
{
    let Some(node) = node_of(nodes, key) else {
        return doomed;
    };
    if node.rights.is_empty() {
        return doomed;
    }
    let rights = node.rights.intersection(cap);
    if rights.is_empty() {
        set_rights(nodes, key, rights, doomed);
        return Link::to(key);
    }
    set_rights(nodes, key, rights, node.doomed);
    doomed
}

/// Returns the key with which a list begins once the node has left it, if it began with `first`.
pub(crate) fn first_without(node: &Node, first: Link) -> Link
    ensures begins { node.now.prev ≡ None → result ≡ node.now.next }
    ensures stays { node.now.prev ≢ None → result ≡ first }
{
    let Some(_) = node.prev.key() else {
        return node.next;
    };
    first
}

/// Removes the nodes of the stack, which begins with the key `doomed`, from the list, and their slots with the names of their pages.
/// Returns the key with which the list begins then.
pub(crate) fn bury(nodes: &mut Slots, pages: &mut Spaces, first: Link, doomed: Link) -> Link
    requires forest { (ks : List ℕ) × IsForest nodes.old.slots ks }
    requires within { IsWithin nodes.old.slots }
    requires stack { HasStack nodes.old.slots doomed }
    ensures buries { Buries first result nodes.old.slots nodes.new.slots }
    ensures indexed { IsIndexed nodes.old.slots pages.old → IsIndexed nodes.new.slots pages.new }
    ensures spaces { pages.new.spaces ≡ pages.old.spaces }
{
    let mut begin = first;
    let mut at = doomed;
    for _ in 0..nodes.capacity() {
        let Some(key) = at.key() else {
            return begin;
        };
        let Some(node) = node_of(nodes, key) else {
            unreachable!()
        };
        at = node.doomed;
        begin = first_without(&node, begin);
        unlink(nodes, key);
        remove(nodes, pages, key);
    }
    begin
}
