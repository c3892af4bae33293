//! Walks over the run of a node's descendants, their stamps, and the list of their keys. A node whose run was visited by a walk of the same
//! stamp is skipped with all its descendants.

ghost use Rattle.std.specs.Prelude.{◌≡◌, ◌≢◌, ◌≤◌, ◌<◌, ℕ, List, Option, Some, None, true, false, IfOk, IfSome, ◌⊎◌};
ghost use Rattle.l4_links.specs.Leads.{Leads};
ghost use Rattle.l4_links.specs.Inside.Trees.{parent_at};
ghost use Rattle.l4_links.specs.Inside.Stacks.{HasStack};
ghost use Rattle.l4_nodes.specs.Slots.{node_at};
ghost use Rattle.l4_links.specs.Inside.Nodes.{limbs, AreKeys, IsForest, HasLow, HasMarks, CapsBelow, HasSeen, IsSame, Meets, NoneMet, IsMarked, IsStamped, AreUnmarked, Stops};
ghost use Rattle.l4_links.specs.ListOf.{IsListOf};
ghost use Rattle.l4_links.specs.Inside.Keeping.{IsFresh, BeginsWalk, sources_walk};

use crate::NoMemory;
use crate::burial::cap_at;
use l4_fpage::Rights;
use l4_nodes::{Node, Slots, close, node_of, see};
use l4_spaces::Link;
use std::alloc::Global;

/// Returns the link at which the walk continues: after the run of a node if it has visited that run, and otherwise at the next node.
fn onward(node: &Node, stamp: u32) -> Link
    ensures over { node.now.mark ≡ stamp → 1 ≤ stamp → result ≡ node.now.end }
    ensures on { node.now.mark ≢ stamp → result ≡ node.now.next }
    ensures none { stamp ≡ 0 → result ≡ node.now.next }
{
    if stamp != 0 && node.mark == stamp {
        return node.end;
    }
    node.next
}

/// Returns the key at the link and its node if that node is deeper than this: the next one of a run. Returns None where the run ends.
#[inline(always)]
pub(crate) fn deeper(nodes: &Slots, at: Link, depth: usize) -> Option<(usize, Node)>
    requires { (key : ℕ) → at ≡ Some key → node_at nodes.now.slots key ≢ None }
    ensures ends { result ≡ None → Stops (limbs nodes.now.slots) depth at }
    ensures goes { IfSome result (λ found. (at ≡ Some found.0)
        × (node_at nodes.now.slots found.0 ≡ Some found.1) × (depth < found.1.depth)) }
{
    let key = at.key()?;
    let Some(node) = node_of(nodes, key) else {
        unreachable!()
    };
    if node.depth <= depth {
        return None;
    }
    Some((key, node))
}

/// Reduces the rights of everything that descends from the node to these rights. A run that a walk of this stamp has visited is skipped.
/// Nodes that lose their last right are put on the stack that begins with the key `doomed`. Returns the key with which it then begins.
pub(crate) fn cap_below(
    nodes: &mut Slots,
    top: usize,
    cap: Rights,
    stamp: u32,
    doomed: Link,
) -> Link
    requires few { AreKeys nodes.old.slots }
    requires marks { HasMarks (HasLow cap nodes.old.slots) stamp nodes.old.slots }
    requires stamped { IsStamped stamp nodes.old.slots }
    requires there { node_at nodes.old.slots top ≢ None }
    requires stack { HasStack nodes.old.slots doomed }
    ensures caps { CapsBelow top cap nodes.old.slots nodes.new.slots }
    ensures marks { HasMarks (HasLow cap nodes.new.slots) stamp nodes.new.slots }
    ensures stamped { IsStamped stamp nodes.new.slots }
    ensures stack { HasStack nodes.new.slots result }
{
    let Some(head) = node_of(nodes, top) else {
        unreachable!()
    };
    let depth = head.depth;
    let mut at = head.next;
    let mut doomed = doomed;
    for _ in 0..nodes.capacity() {
        let Some((key, node)) = deeper(nodes, at, depth) else {
            close(nodes, top, stamp, at);
            return doomed;
        };
        doomed = cap_at(nodes, key, cap, doomed);
        at = onward(&node, stamp);
    }
    doomed
}

/// Returns whether a source descends from the node. Nodes that walks of this stamp have visited are not visited again.
pub(crate) fn has_source(nodes: &mut Slots, top: usize, stamp: u32) -> bool
    requires seen { HasSeen stamp nodes.old.slots }
    requires stamped { IsStamped stamp nodes.old.slots }
    requires there { node_at nodes.old.slots top ≢ None }
    ensures same { IsSame nodes.old.slots nodes.new.slots }
    ensures stamped { IsStamped stamp nodes.new.slots }
    ensures yes { result ≡ true → Meets top nodes.old.slots }
    ensures no { result ≡ false → NoneMet top nodes.old.slots × HasSeen stamp nodes.new.slots }
{
    let Some(head) = node_of(nodes, top) else {
        unreachable!()
    };
    if stamp != 0 && head.seen == stamp {
        return false;
    }
    let depth = head.depth;
    let mut at = head.next;
    for _ in 0..nodes.capacity() {
        let Some((key, node)) = deeper(nodes, at, depth) else {
            close(nodes, top, stamp, at);
            return false;
        };
        if node.source {
            return true;
        }
        see(nodes, key, stamp);
        at = onward(&node, stamp);
    }
    false
}

/// Returns whether nothing descends from the node. Its descendants would begin with the node after it, which would be deeper, so no walk is
/// needed. Returns false if there is no node.
#[inline]
pub(crate) fn is_leaf(nodes: &Slots, key: usize) -> bool
    requires forest { (keys : List ℕ) × IsForest nodes.now.slots keys }
    ensures yes { result ≡ true → (node_at nodes.now.slots key ≢ None)
        × ((low : ℕ) → ¬ (Leads (parent_at (limbs nodes.now.slots)) low key)) }
    ensures no { result ≡ false → node_at nodes.now.slots key ≢ None → (low : ℕ) × Leads (parent_at (limbs nodes.now.slots)) low key }
{
    let Some(node) = node_of(nodes, key) else {
        return false;
    };
    if let Some(_) = deeper(nodes, node.next, node.depth) {
        return false;
    }
    true
}

/// Returns the keys of everything that descends from the node: the run of deeper nodes after it.
pub(crate) fn keys_below(alloc: Global, nodes: &Slots, top: usize) -> Result<Vec<usize>, NoMemory>
    requires forest { (ks : List ℕ) × IsForest nodes.now.slots ks }
    requires there { node_at nodes.now.slots top ≢ None }
    ensures { IfOk result (λ keys. IsListOf (λ (key : ℕ). Leads (parent_at (limbs nodes.now.slots)) key top) keys.items) }
{
    let Some(head) = node_of(nodes, top) else {
        unreachable!()
    };
    let depth = head.depth;
    let mut at = head.next;
    let mut keys = Vec::new(alloc);
    for _ in 0..nodes.capacity() {
        let Some((key, node)) = deeper(nodes, at, depth) else {
            return Ok(keys);
        };
        keys.push(key)?;
        at = node.next;
    }
    Ok(keys)
}

/// The number of a walk for sources. A walk that caps rights has the number of their bits, which is less.
pub(crate) const SOURCES_WALK: u8 = 8;

/// Returns a stamp that no node has. After the last stamp it returns 0, with which nothing is marked.
pub(crate) fn fresh(stamp: u32) -> u32
    ensures { IsFresh stamp result }
{
    if stamp == 0 || stamp == u32::MAX {
        return 0;
    }
    stamp + 1
}

/// Returns the stamp for a walk: the last one if that walk had the same purpose, or a fresh one. After the last stamp, removes the stamps
/// from all nodes and begins again.
pub(crate) fn stamp_for(nodes: &mut Slots, stamp: u32, last: u8, walk: u8) -> u32
    ensures same { IsSame nodes.old.slots nodes.new.slots }
    ensures begins { BeginsWalk last walk stamp result nodes.old.slots nodes.new.slots }
{
    if stamp == 0 {
        nodes.clear_notes();
        return 1;
    }
    if last == walk {
        return stamp;
    }
    fresh(stamp)
}
