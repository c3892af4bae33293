//! Pages, and which page was mapped from which. The nodes of all pages are in a slab, linked in one list in depth-first order, and page
//! tables name the key of each page. A new child is inserted directly after its parent. What descends from a node is the run of deeper
//! nodes directly after it, so each operation visits only the nodes that it touches. Contracts name neither the list nor the tables. They
//! name parents, descendants, and the page of each key.
#![tactic(auto)]

ghost use Rattle.std.specs.Prelude.{◌≡◌, ◌≢◌, ◌⊎◌, ◌↔◌, ◌≤◌, ◌+◌, ◌-◌, [], ℕ, length, true, false, IsTrue, IsOk, OnOk, OnErr, IfOk, IfSome, MatchOption, Some, None, Ok};
ghost use Rattle.std.specs.FinSet as set;
ghost use Rattle.l4_fpage.specs.Rights.{common, no_rights};
ghost use Rattle.std.specs.Option.{option_map};
ghost use Rattle.l4_spaces.specs.Tables.{IsPage};
ghost use Rattle.l4_nodes.specs.Slots.{HasRoomFor};
ghost use Rattle.l4_links.specs.Inside.Keeping.{standing_of};

mod blocks;
mod burial;
mod children;
mod lists;
mod parents;
mod walks;
mod wants;

pub use blocks::end_of;
use blocks::pages_of;
use burial::cap_at;
use children::{bring_all, sharing};
use l4_fpage::Rights;
use l4_msg::ItemMove;
pub use l4_nodes::Place;
use l4_nodes::{
    Node, Slots, give, node_of, place_of, set_plain, set_rights, set_source, set_wanted,
};
pub use l4_spaces::NoMemory;
use l4_spaces::{Link, Spaces};
use lists::remove;
use std::alloc::Global;
use std::marker::Model;
use walks::{SOURCES_WALK, fresh, stamp_for};

/// A node of the trees of mappings.
#[derive(Clone, Copy, Debug, PartialEq, Eq)]
pub struct Standing {
    /// The number of the frame that is mapped.
    pub frame: u32,
    /// The rights to the page.
    pub rights: Rights,
    /// Whether the node is marked as one that a message moves.
    pub source: bool,
    /// The rights of the item that granted the page here, while a message is delivered.
    pub granted: Option<Rights>,
    /// The key of the parent: the page that it was mapped from. None for the root of a tree.
    pub parent: Option<usize>,
}

/// A page and its node.
#[derive(Clone, Copy, Debug, PartialEq, Eq)]
pub struct Entry {
    /// The page.
    pub place: Place,
    /// Whether a message fills the page. If its node is then cut off, the page stays as a blank.
    pub wanted: bool,
    /// The node, or None in a blank: a page with a key but without a node.
    pub stands: Option<Standing>,
}

/// The nodes of all pages, and the spaces that exist.
#[derive(Drop)]
pub struct Links {
    nodes: Slots,
    /// The key of each page.
    pages: Spaces,
    /// The key of the first node of the list.
    first: Link,
    /// The marks of this stamp are right. The stamp 0 is of no mark: the stamps have run out, and begin again with the next walk.
    stamp: u32,
    /// The purpose of the walks of this stamp: the bits of the remaining rights, or `SOURCES_WALK`.
    walk: u8,
    /// The key that the stack of nodes without rights begins with.
    doomed: Link,
}

impl Model for Links {
    ghost use Rattle.l4_links.specs.Entries.{Linked, linked_code};

    ghost Value = { Linked };

    ghost coded = { linked_code };

    ghost use Rattle.l4_links.specs.Inside.Keeping.{seen, IsKept};

    ghost view = { seen };

    ghost invariant = { IsKept };
}

impl Links {
    ghost use Rattle.l4_spaces.specs.Listed.{NoSpaceFrom, IsNextSpace};
    ghost use Rattle.l4_links.specs.ListOf.{IsListOf};
    ghost use Rattle.l4_links.specs.Entries.{entry_at, standing_at, parent_of, IsStanding, IsBlank, IsAt, IsSource, HaveRights, HavePlaces, AreTrees, NoKeyFrom, IsNextKey, NoKeyIn, IsNextKeyIn, IsKeyOf, NoParentIn, IsNextParentIn, Descends, AddsBlank, Stands, Sprouts, Clears, CutsBelow, Buries, CapsBelow, CapsTree, SetsSource, SetsPlain, SetsWanted, TakesOver, MovesItems, AreApart, ArePlain};
    ghost use Rattle.l4_links.specs.declared.Standing.{Standing as AStanding};
    ghost use Rattle.l4_links.specs.declared.Entry.{Entry as AnEntry};

    /// Creates a value without pages and spaces. Memory for the nodes of this many pages is allocated at once, except for the tables that
    /// name them.
    /// Returns `NoMemory` if an allocation fails.
    pub fn new(alloc: Global, pages: usize) -> Result<Links, NoMemory>
        ensures entries { IfOk result (λ links. links.entries ≡ []) }
        ensures spaces { IfOk result (λ links. links.spaces ≡ set.empty) }
    {
        let nodes = nodes_for(alloc, pages)?;
        Ok(Links {
            nodes,
            pages: Spaces::new(alloc),
            first: Link::none(),
            stamp: 1,
            walk: SOURCES_WALK,
            doomed: Link::none(),
        })
    }

    /// Adds an empty space. Changes nothing if the space exists.
    /// Returns `NoMemory` if an allocation fails; then nothing has changed.
    pub fn add_space(&mut self, space: u64) -> Result<(), NoMemory>
        ensures ok { OnOk result (self.new ≡ record self.old { spaces = set.insert self.old.spaces space }) }
        ensures err { OnErr result (self.new ≡ self.old) }
        ensures succeeds { IsTrue (set.contains self.old.spaces space) → IsOk result }
        ensures there { IsTrue (set.contains self.old.spaces space) → self.new ≡ self.old }
    {
        self.pages.add(space)
    }

    /// Removes a space in which no page has a key. Changes nothing if there is no such space.
    pub fn end_space(&mut self, space: u64)
        requires empty { NoKeyFrom self.old.entries space 0 }
        ensures { self.new ≡ record self.old { spaces = set.remove self.old.spaces space } }
    {
        self.pages.remove(space);
    }

    /// Returns the least number of a space that is not below `from`, or None.
    pub fn next_space(&self, from: u64) -> Option<u64>
        ensures { MatchOption result (NoSpaceFrom self.now.spaces from) (IsNextSpace self.now.spaces from) }
    {
        self.pages.next_space(from)
    }

    /// Returns the key of the page, or None if it has none.
    pub fn find(&self, place: Place) -> Option<usize>
        ensures { (key : ℕ) → (result ≡ Some key) ↔ IsAt self.now.entries place key }
    {
        self.pages.get(place.space, place.page)
    }

    /// Returns the least page of the space that has a key and is not below `page`, or None.
    pub fn next_key(&self, space: u64, page: u32) -> Option<u32>
        ensures { MatchOption result (NoKeyFrom self.now.entries space page) (IsNextKey self.now.entries space page) }
    {
        self.pages.next_present(space, page)
    }

    /// Returns the least page of the space that has a key and is not below `page`, with its key, if it is below `end`. Does not look at
    /// pages from `end` on.
    #[inline]
    pub fn next_key_in(&self, space: u64, page: u32, end: u32) -> Option<(u32, usize)>
        ensures { MatchOption result (NoKeyIn self.now.entries space page end)
            (λ found. IsNextKeyIn self.now.entries space page end found.0 × IsKeyOf self.now.entries (record { space = space; page = found.0 }) found.1) }
    {
        self.pages.next_node(space, page, end)
    }

    /// Returns the least page of the space that is not below `page` and has descendants, with its key, if it is below `end`. Does not look
    /// at pages from `end` on.
    #[inline(always)]
    pub fn next_parent_in(&self, space: u64, page: u32, end: u32) -> Option<(u32, usize)>
        ensures { MatchOption result (NoParentIn self.now.entries space page end)
            (λ found. IsNextParentIn self.now.entries space page end found.0 found.1) }
    {
        parents::next_parent(&self.nodes, &self.pages, space, page, end)
    }

    /// Returns a number that is above all keys.
    pub fn bound(&self) -> usize
        ensures { length self.now.entries ≤ result }
    {
        self.nodes.capacity()
    }

    /// Ghost function: gives a proof the invariant of pages: each lies in a space that exists, and has one key. It compiles to nothing.
    pub fn law_places(&self)
        ensures { HavePlaces self.now }
    {
        let _ = &self.nodes;
    }

    /// Ghost function: gives a proof the invariant that the nodes form trees. It compiles to nothing.
    pub fn law_trees(&self)
        ensures { AreTrees self.now.entries }
    {
        let _ = &self.nodes;
    }

    /// Returns the page of the key with its node, or None if the key is not in use.
    pub fn at(&self, key: usize) -> Option<Entry>
        ensures { result ≡ entry_at self.now.entries key }
    {
        let slot = self.nodes.get(key)?;
        Some(Entry {
            place: slot.place,
            wanted: slot.wanted,
            stands: standing_of(slot.node),
        })
    }

    /// Returns the node under the key, or None if there is no node.
    pub fn standing(&self, key: usize) -> Option<Standing>
        ensures { result ≡ standing_at self.now.entries key }
    {
        standing_of(node_of(&self.nodes, key))
    }

    /// Adds a blank for a page that has no key, and returns its key.
    /// Returns `NoMemory` if an allocation fails, or if there would be room for 2^32 - 1 keys or more; then nothing has changed.
    pub fn add_blank(&mut self, place: Place) -> Result<usize, NoMemory>
        requires there { IsTrue (set.contains self.old.spaces place.space) }
        requires fits { IsPage place.page }
        requires free { (key : ℕ) → ¬ (IsAt self.old.entries place key) }
        ensures ok { IfOk result (AddsBlank place self.old.entries self.new.entries) }
        ensures blank { IfOk result (IsBlank self.new.entries) }
        ensures spaces { self.new.spaces ≡ self.old.spaces }
        ensures err { OnErr result (self.new ≡ self.old) }
    {
        self.nodes.make_room(1)?;
        self.pages.prepare(place.space, &[place.page])?;
        let key = self.nodes.insert_blank(place);
        self.pages.set(place.space, place.page, key);
        Ok(key)
    }

    /// Removes the blank under the key.
    pub fn take_blank(&mut self, key: usize)
        requires blank { IsBlank self.old.entries key }
        ensures gone { entry_at self.new.entries key ≡ None }
        ensures others { (other : ℕ) → other ≢ key → entry_at self.new.entries other ≡ entry_at self.old.entries other }
        ensures spaces { self.new.spaces ≡ self.old.spaces }
    {
        remove(&mut self.nodes, &mut self.pages, key);
    }

    /// Puts the root of a tree into the blank, with at least one right.
    pub fn stand_root(&mut self, key: usize, frame: u32, rights: Rights)
        requires blank { IsBlank self.old.entries key }
        requires some { rights ≢ no_rights }
        ensures stands { Stands key (record { frame = frame; rights = rights; source = false; granted = None; parent = None })
            self.old.entries self.new.entries }
        ensures spaces { self.new.spaces ≡ self.old.spaces }
    {
        self.first = lists::link_root(&mut self.nodes, self.first, key, frame, rights);
        self.stamp = fresh(self.stamp);
    }

    /// Puts a child of the parent into the blank, with the parent's frame and those of these rights that the parent has: at least one.
    pub fn stand_under(&mut self, parent: usize, key: usize, rights: Rights)
        requires there { IsStanding self.old.entries parent }
        requires blank { IsBlank self.old.entries key }
        requires some { (above : AStanding) → standing_at self.old.entries parent ≡ Some above → common above.rights rights ≢ no_rights }
        ensures sprouts { Sprouts parent key rights self.old.entries self.new.entries }
        ensures spaces { self.new.spaces ≡ self.old.spaces }
    {
        let Some(above) = node_of(&self.nodes, parent) else {
            unreachable!()
        };
        lists::link_under(&mut self.nodes, parent, key, above, rights);
        self.stamp = fresh(self.stamp);
    }

    /// Moves the pages of all items from one space to another, where the items are apart. Only pages that share a right with their item move.
    /// If the item grants, the page itself goes to its place and keeps its key. If it maps, a child comes there, with the page's frame and
    /// those of the item's rights that the page has. What was at that place is gone. Returns whether this was done. Returns false and changes
    /// nothing if something descends from what is at one of these places, if the root of a tree is there, if a page would be granted to a
    /// place that has a key or would lose a right, or if an allocation fails.
    pub fn move_items(&mut self, from: u64, to: u64, items: &[ItemMove]) -> bool
        requires differ { from ≢ to }
        requires there { IsTrue (set.contains self.old.spaces to) }
        requires apart { AreApart items.now (length items.now) }
        requires plain { ArePlain self.old.entries }
        ensures moves { result ≡ true → MovesItems from to items.now self.old.entries self.new.entries }
        ensures left { result ≡ false → self.new ≡ self.old }
        ensures spaces { self.new.spaces ≡ self.old.spaces }
    {
        if self.move_alone(from, to, items) {
            return true;
        }
        let mut targets = self.pages.take_tables(to);
        let mut sources = self.pages.take_tables(from);
        let done = bring_all(&mut self.nodes, &mut sources, &mut targets, from, to, items);
        self.pages.put_tables(from, sources);
        self.pages.put_tables(to, targets);
        self.stamp = fresh(self.stamp);
        done
    }

    /// Moves the items if the source space does not exist, or if they map a single page that has no key, shares no right, or goes to a place
    /// without a key. Returns whether this was done. It is not if an allocation fails. For one page, taking the tables aside would cost more
    /// than the move.
    fn move_alone(&mut self, from: u64, to: u64, items: &[ItemMove]) -> bool
        requires there { IsTrue (set.contains self.old.spaces to) }
        ensures moves { result ≡ true → MovesItems from to items.now self.old.entries self.new.entries }
        ensures left { result ≡ false → (self.new ≡ self.old) × IsTrue (set.contains self.old.spaces from) }
        ensures spaces { self.new.spaces ≡ self.old.spaces }
    {
        if !self.pages.has(from) {
            return true;
        }
        if items.len() != 1 {
            return false;
        }
        let of = pages_of(from, to, &items[0]);
        if of.grant {
            return false;
        }
        if of.end - of.source.page != 1 {
            return false;
        }
        let Some(key) = self.pages.get(from, of.source.page) else {
            return true;
        };
        let Some(above) = sharing(&self.nodes, key, of.rights) else {
            return true;
        };
        let Ok(child) = self.nodes.make_key() else {
            return false;
        };
        let Ok(claimed) = self.pages.claim(to, of.target.page, child) else {
            return false;
        };
        if !claimed {
            return false;
        }
        lists::add_under(&mut self.nodes, key, of.target, &above, of.rights);
        self.stamp = fresh(self.stamp);
        true
    }

    /// Cuts off everything that descends from the key, and leaves a blank under the key. Each node that is cut off is removed with its
    /// page, but a wanted page stays as a blank.
    pub fn clear(&mut self, key: usize)
        requires some { HaveRights self.old.entries }
        ensures clears { Clears key self.old.entries self.new.entries }
        ensures spaces { self.new.spaces ≡ self.old.spaces }
    {
        let Some(_) = node_of(&self.nodes, key) else {
            return;
        };
        self.first = lists::clear(&mut self.nodes, &mut self.pages, self.first, key);
        self.stamp = fresh(self.stamp);
    }

    /// Cuts off everything that descends from the key, in one pass, and keeps the node under the key. Each node that is cut off is removed
    /// with its page, but a wanted page stays as a blank.
    pub fn cut_below(&mut self, key: usize)
        requires some { HaveRights self.old.entries }
        ensures cuts { CutsBelow key self.old.entries self.new.entries }
        ensures spaces { self.new.spaces ≡ self.old.spaces }
    {
        let Some(_) = node_of(&self.nodes, key) else {
            return;
        };
        lists::cut_run(&mut self.nodes, &mut self.pages, key);
        self.stamp = fresh(self.stamp);
    }

    /// Moves the node under the key to the blank's page, and removes the blank. The node keeps its rights, its parent and its children. It
    /// records that an item with these rights granted it.
    pub fn take_over(&mut self, key: usize, blank: usize, rights: Rights)
        requires there { IsStanding self.old.entries key }
        requires blank { IsBlank self.old.entries blank }
        ensures takes { TakesOver key blank rights self.old.entries self.new.entries }
        ensures spaces { self.new.spaces ≡ self.old.spaces }
    {
        let Some(from) = place_of(&self.nodes, key) else {
            unreachable!()
        };
        let Some(to) = place_of(&self.nodes, blank) else {
            unreachable!()
        };
        self.pages.set(to.space, to.page, key);
        self.pages.clear(from.space, from.page);
        self.nodes.remove(blank);
        give(&mut self.nodes, key, to, rights);
    }

    /// Reduces the rights of everything that descends from the key to these rights. Visits nothing if the node under the key has no other
    /// rights, because its descendants have none then. Successive calls with the same rights visit no run twice.
    pub fn cap_below(&mut self, top: usize, cap: Rights)
        ensures caps { CapsBelow top cap self.old.entries self.new.entries }
        ensures spaces { self.new.spaces ≡ self.old.spaces }
    {
        self.cap_run(top, cap, false);
    }

    /// Reduces the rights of the node under the key, and of everything that descends from it, to these rights.
    pub fn cap_tree(&mut self, top: usize, cap: Rights)
        ensures caps { CapsTree top cap self.old.entries self.new.entries }
        ensures spaces { self.new.spaces ≡ self.old.spaces }
    {
        self.cap_run(top, cap, true);
    }

    /// Reduces the rights of everything that descends from the key to these rights, and with `with_top` also those of its node.
    fn cap_run(&mut self, top: usize, cap: Rights, with_top: bool)
        ensures below { with_top ≡ false → CapsBelow top cap self.old.entries self.new.entries }
        ensures tree { with_top ≡ true → CapsTree top cap self.old.entries self.new.entries }
        ensures spaces { self.new.spaces ≡ self.old.spaces }
    {
        let Some(node) = node_of(&self.nodes, top) else {
            return;
        };
        if cap.contains(node.rights) {
            return;
        }
        let walk = cap.bits();
        let stamp = stamp_for(&mut self.nodes, self.stamp, self.walk, walk);
        self.stamp = stamp;
        self.walk = walk;
        let doomed = walks::cap_below(&mut self.nodes, top, cap, stamp, self.doomed);
        if !with_top {
            self.doomed = doomed;
            return;
        }
        self.doomed = cap_at(&mut self.nodes, top, cap, doomed);
    }

    /// Removes all nodes without rights, with their pages.
    pub fn bury(&mut self)
        ensures buries { Buries self.old.entries self.new.entries }
        ensures spaces { self.new.spaces ≡ self.old.spaces }
    {
        self.first = burial::bury(&mut self.nodes, &mut self.pages, self.first, self.doomed);
        self.doomed = Link::none();
        self.stamp = fresh(self.stamp);
    }

    /// Returns whether a source descends from the key. Successive calls visit no node twice.
    pub fn has_source_below(&mut self, top: usize) -> bool
        ensures same { (key : ℕ) → entry_at self.new.entries key ≡ entry_at self.old.entries key }
        ensures yes { result ≡ true → (low : ℕ) × Descends self.old.entries low top × IsSource self.old.entries low }
        ensures no { result ≡ false → (low : ℕ) → Descends self.old.entries low top → ¬ (IsSource self.old.entries low) }
        ensures spaces { self.new.spaces ≡ self.old.spaces }
    {
        let Some(_) = node_of(&self.nodes, top) else {
            return false;
        };
        let stamp = stamp_for(&mut self.nodes, self.stamp, self.walk, SOURCES_WALK);
        self.stamp = stamp;
        self.walk = SOURCES_WALK;
        if walks::has_source(&mut self.nodes, top, stamp) {
            self.stamp = fresh(stamp);
            return true;
        }
        false
    }

    /// Returns whether the node under the key has no descendants, which its successor in the list shows at once. Returns false if there is
    /// no node.
    pub fn is_leaf(&self, key: usize) -> bool
        ensures yes { result ≡ true → IsStanding self.now.entries key × ((low : ℕ) → ¬ (Descends self.now.entries low key)) }
        ensures no { result ≡ false → IsStanding self.now.entries key → (low : ℕ) × Descends self.now.entries low key }
    {
        walks::is_leaf(&self.nodes, key)
    }

    /// Returns the keys of everything that descends from the key, each once.
    /// Returns `NoMemory` if an allocation fails.
    pub fn descendants(&self, alloc: Global, key: usize) -> Result<Vec<usize>, NoMemory>
        ensures { IfOk result (λ keys. IsListOf (λ (low : ℕ). Descends self.now.entries low key) keys.items) }
    {
        let Some(_) = node_of(&self.nodes, key) else {
            return Ok(Vec::new(alloc));
        };
        let keys = walks::keys_below(alloc, &self.nodes, key)?;
        Ok(keys)
    }

    /// Marks the node under the key as a source, or removes that mark.
    pub fn set_source(&mut self, key: usize, source: bool)
        ensures sets { SetsSource key source self.old.entries self.new.entries }
        ensures spaces { self.new.spaces ≡ self.old.spaces }
    {
        set_source(&mut self.nodes, key, source);
        if !source {
            return;
        }
        self.stamp = fresh(self.stamp);
    }

    /// Removes the marks of a source and of a grant from the node under the key.
    pub fn set_plain(&mut self, key: usize)
        ensures sets { SetsPlain key self.old.entries self.new.entries }
        ensures spaces { self.new.spaces ≡ self.old.spaces }
    {
        set_plain(&mut self.nodes, key);
    }

    /// Records whether a message fills the page of the key.
    pub fn set_wanted(&mut self, key: usize, wanted: bool)
        ensures sets { SetsWanted key wanted self.old.entries self.new.entries }
        ensures spaces { self.new.spaces ≡ self.old.spaces }
    {
        set_wanted(&mut self.nodes, key, wanted);
    }

    /// Returns a copy with the same keys, pages and spaces, in memory of its own. A change of one is not visible in the other.
    /// Returns `NoMemory` if an allocation fails.
    pub fn copy(&self) -> Result<Links, NoMemory>
        ensures { IfOk result (λ copy. copy ≡ self.now) }
    {
        Ok(Links {
            nodes: self.nodes.copy()?,
            pages: self.pages.copy()?,
            first: self.first,
            stamp: self.stamp,
            walk: self.walk,
            doomed: self.doomed,
        })
    }
}

/// Returns a value without slots that has room for this many: none of them needs an allocation.
/// Returns `NoMemory` if an allocation fails.
fn nodes_for(alloc: Global, pages: usize) -> Result<Slots, NoMemory>
    ensures none { IfOk result (λ nodes. nodes.slots ≡ []) }
    ensures room { IfOk result (λ nodes. HasRoomFor nodes pages) }
{
    let mut nodes = Slots::new(alloc);
    nodes.make_room(pages)?;
    Ok(nodes)
}

/// Returns the node under a key, as contracts see it.
fn standing_of(node: Option<Node>) -> Option<Standing>
    ensures { result ≡ option_map standing_of node }
{
    let node = node?;
    Some(Standing {
        frame: node.frame,
        rights: node.rights,
        source: node.source,
        granted: node.granted,
        parent: node.parent.key(),
    })
}
