//! The mapping database: the frame, the rights and the parent of each present page of each space. It starts with the
//! pages of sigma0, applies messages, revokes rights, and ends spaces. Each call touches only the nodes and pages
//! that it concerns.
#![tactic(auto)]

ghost use Rattle.std.specs.Prelude.{◌≡◌, ◌↔◌, ◌≢◌, ◌≤◌, ◌∷◌, [], IsTrue, IsOk, OnOk, OnErr, IfOk, IfErr, MatchOption, Some, None};
ghost use Rattle.std.specs.FinSet as set;
ghost use Rattle.l4_fpage.specs.Pages.{max_frames};

mod booting;
mod copying;
mod ending;
mod listing;
mod reading;
mod revoking;
mod taking;

pub use l4_fpage::MAX_FRAMES;
use l4_fpage::{Block, Rights};
use l4_links::Links;
use l4_mapdb::deliver;
pub use l4_mapdb::{Cause, ItemMove, Mapping, Place};
pub use l4_spaces::NoMemory;
use std::alloc::Global;
use std::marker::Model;

/// The mappings of all spaces, and the set of spaces.
#[derive(Drop)]
pub struct Forest {
    links: Links,
    /// The key of each frame's root, also once what stood under it is gone.
    roots: Vec<u32>,
}

impl Model for Forest {
    ghost use Rattle.l4_mapdb.specs.Mappings.{Mappings, mappings_code};

    ghost Value = { Mappings };

    ghost coded = { mappings_code };

    ghost use Rattle.l4_forest.specs.Inside.Kept.{seen, IsKept};

    ghost view = { seen };

    ghost invariant = { IsKept };
}

impl Forest {
    ghost use Rattle.l4_forest.specs.Listed.{NoSpaceFrom, IsNextSpace};
    ghost use Rattle.l4_mapdb.specs.Mappings.{Mappings, shown, IsForest, IsRoot};
    ghost use Rattle.l4_forest.specs.Descendants.{AreDescendants};
    ghost use Rattle.l4_forest.specs.Boot.{IsFirst};
    ghost use Rattle.l4_forest.specs.Places.{NonePresentFrom, IsNextPresent};
    ghost use Rattle.l4_mapdb.specs.Transfer.{IsUsed, IsEntangled, TargetsPresent, Delivers};
    ghost use Rattle.l4_mapdb.specs.Causes.{HasCause};
    ghost use Rattle.l4_forest.specs.Losing.{Revokes, RevokesBlock, EndsSpace};

    /// Returns the initial mappings: in space 0, each frame below `frames` is mapped at the page of its number with
    /// all rights. There is no other space. `frames` is from 1 to 4,096. Returns `NoMemory` if an allocation failed.
    pub fn new(alloc: Global, frames: u32) -> Result<Forest, NoMemory>
        requires some { 1 ≤ frames }
        requires fit { frames ≤ max_frames }
        ensures { IfOk result (IsFirst frames) }
    {
        let mut links = Links::new(alloc, frames as usize)?;
        links.add_space(0)?;
        let mut roots = Vec::with_capacity(alloc, frames as usize)?;
        booting::own_places(&mut links, &mut roots, frames)?;
        Ok(Forest { links, roots })
    }

    /// Adds an empty space. Changes nothing if the space exists. Returns `NoMemory` if an allocation failed.
    pub fn new_space(&mut self, space: u64) -> Result<(), NoMemory>
        ensures ok { OnOk result
            (self.new ≡ record self.old { spaces = set.insert self.old.spaces space }) }
        ensures err { OnErr result (self.new ≡ self.old) }
        ensures succeeds { IsTrue (set.contains self.old.spaces space) → IsOk result }
        ensures there { IsTrue (set.contains self.old.spaces space) → self.new ≡ self.old }
    {
        self.links.add_space(space)
    }

    /// Returns the least number of a space that is at least `from`, or `None`.
    pub fn next_space(&self, from: u64) -> Option<u64>
        ensures { MatchOption result (NoSpaceFrom self.now from) (IsNextSpace self.now from) }
    {
        self.links.next_space(from)
    }

    /// Returns the mapping at a page of a space, or `None` if the page is not present.
    #[inline]
    pub fn at(&self, space: u64, page: u32) -> Option<Mapping>
        ensures shown { result ≡ shown self.now (record { space = space; page = page }) }
        ensures forest { IsForest self.now }
    {
        reading::shown_at(&self.links, Place { space, page })
    }

    /// Ghost function: gives a proof the invariant that the mappings are trees, one for each frame that is mapped. It
    /// compiles to nothing.
    pub fn law_forest(&self)
        ensures { IsForest self.now }
    {
        let _ = &self.links;
    }

    /// Returns the least present page of a space that is at least `page`, or `None`.
    pub fn next_present(&self, space: u64, page: u32) -> Option<u32>
        ensures { MatchOption result (NonePresentFrom self.now space page)
            (IsNextPresent self.now space page) }
    {
        self.links.law_places();
        self.links.next_key(space, page)
    }

    /// Returns the places that descend from a place, each once: none if the place is not present. The number of steps
    /// depends only on the number of these places. Returns `NoMemory` if an allocation failed.
    pub fn descendants(&self, alloc: Global, from: Place) -> Result<Vec<Place>, NoMemory>
        ensures { IfOk result (λ places. AreDescendants self.now from places.items) }
    {
        self.links.law_places();
        self.links.law_trees();
        let page = l4_links::Place {
            space: from.space,
            page: from.page,
        };
        let Some(key) = self.links.find(page) else {
            return Ok(Vec::new(alloc));
        };
        let keys = self.links.descendants(alloc, key)?;
        let places = listing::places_under(alloc, &self.links, keys.as_slice())?;
        Ok(places)
    }

    /// Applies the map and grant items of a message from one space to another, or within one space. Both spaces
    /// exist. A move is used if its source page is present and shares a right with the item; all is read before
    /// anything changes.
    ///
    /// - Each present target of a used move is removed, with everything that descends from it.
    /// - A mapped page has the source's frame, the common rights, and the source as parent.
    /// - A granted page takes its source's place, with the common rights: it has the source's parent and children.
    ///   Everything that descends from it loses the rights that the grant dropped (L4 X.2 manual, IPC: map item,
    ///   grant item).
    ///
    /// Errors: `Entangled` if the used moves conflict; else `NoMemory` if an allocation failed, which can happen only
    /// if a used target is not present. After either error, every mapping is as before.
    pub fn map_all(&mut self, from: u64, to: u64, moves: &[ItemMove]) -> Result<(), Cause>
        requires from_there { IsTrue (set.contains self.old.spaces from) }
        requires to_there { IsTrue (set.contains self.old.spaces to) }
        ensures ok { OnOk result (Delivers from to moves.now self.old self.new) }
        ensures free { OnOk result (¬ (IsEntangled (IsUsed self.old from to moves.now) self.old)) }
        ensures err { OnErr result (self.new ≡ self.old) }

        // Only a used target that is not present needs memory.
        ensures cause { IfErr result (HasCause (IsUsed self.old from to moves.now) self.old) }
        ensures succeeds { TargetsPresent (IsUsed self.old from to moves.now) self.old
            → ¬ (IsEntangled (IsUsed self.old from to moves.now) self.old) → IsOk result }
    {
        self.links.law_places();
        self.links.law_trees();
        match deliver(&mut self.links, from, to, moves) {
            Ok(()) => {}
            Err(cause) => {
                self.links.law_places();
                return Err(cause);
            }
        }
        self.links.law_places();
        self.links.law_trees();
        Ok(())
    }

    /// Takes rights from everything that descends from a page, and with `with_self` from the page itself. A place
    /// without rights is removed. Changes nothing if the page is not present.
    pub fn revoke(&mut self, from: Place, rights: Rights, with_self: bool)
        ensures revokes { Revokes from rights with_self self.old self.new }
        ensures absent { shown self.old from ≡ None → self.new ≡ self.old }
    {
        self.links.law_places();
        self.links.law_trees();
        let page = l4_links::Place {
            space: from.space,
            page: from.page,
        };
        let Some(key) = self.links.find(page) else {
            return;
        };
        revoking::revoke_key(&mut self.links, key, rights, with_self);
    }

    /// Takes rights from everything that descends from the pages of a block, and with `with_self` from these pages
    /// themselves. A place without rights is removed. Changes nothing if no page of the block is present.
    pub fn revoke_block(&mut self, space: u64, block: Block, rights: Rights, with_self: bool)
        ensures { RevokesBlock space block.first block.log rights with_self self.old self.new }
    {
        self.links.law_places();
        self.links.law_trees();
        let end = block.first + (1 << block.log);
        revoking::revoke_pages(&mut self.links, space, block.first, end, rights, with_self);
    }

    /// Removes a space: its places, and everything that descends from them, are removed. Changes nothing if the space
    /// does not exist.
    pub fn end_space(&mut self, space: u64)
        ensures ends { EndsSpace space self.old self.new }
        ensures absent { ¬ (IsTrue (set.contains self.old.spaces space)) → self.new ≡ self.old }
    {
        self.links.law_places();
        self.links.law_trees();
        ending::clear(&mut self.links, space);
        self.links.end_space(space);
        self.links.law_places();
        self.links.law_trees();
    }

    /// Returns the place without a parent where the frame is mapped, or `None`.
    ///
    pub fn root(&self, frame: u32) -> Option<Place>
        ensures { MatchOption result ((place : Place) → ¬ (IsRoot self.now frame place))
            (IsRoot self.now frame) }
    {
        self.links.law_places();
        self.links.law_trees();
        let Some(key) = reading::kept_key(&self.roots, frame) else {
            return None;
        };
        reading::root_under(&self.links, frame, key)
    }
}
