//! Removes rights from the descendants of pages.

ghost use Rattle.std.specs.Prelude.{◌≡◌, ◌≢◌, ◌≤◌, ℕ, None, false};
ghost use Rattle.l4_fpage.specs.Rights.{without, all_rights};
ghost use Rattle.l4_links.specs.Entries.{entry_at, HavePlaces, AreTrees};
ghost use Rattle.l4_mapdb.specs.Delivering.{IsClean};
ghost use Rattle.l4_forest.specs.Inside.Cuts.{IsOver, IsCovered, CapsKeys, CutsKeys};

use crate::taking::{take_key, take_pages};
use l4_fpage::Rights;
use l4_links::Links;

/// Reduces the rights of everything that descends from the key to these rights, and with `with_self` also those of its node.
fn cap_key(links: &mut Links, top: usize, cap: Rights, with_self: bool)
    ensures caps { CapsKeys (IsOver links.old.entries with_self top) cap links.old.entries
        links.new.entries }
    ensures spaces { links.new.spaces ≡ links.old.spaces }
{
    links.law_trees();
    if with_self {
        links.cap_tree(top, cap);
        return;
    }
    links.cap_below(top, cap);
}

/// Reduces the rights of everything that descends from these pages to these rights. The walk skips pages without descendants.
fn cap_below_pages(links: &mut Links, space: u64, first: u32, end: u32, cap: Rights)
    requires { first ≤ end }
    ensures caps { CapsKeys (IsCovered links.old.entries space first end false) cap
        links.old.entries links.new.entries }
    ensures spaces { links.new.spaces ≡ links.old.spaces }
{
    links.law_places();
    let mut next = first;
    loop {
        let Some((page, key)) = links.next_parent_in(space, next, end) else {
            return;
        };
        cap_key(links, key, cap, false);
        next = page + 1;
    }
}

/// Reduces the rights of everything that descends from these pages to these rights, and with `with_self` also those of the pages.
fn cap_pages(links: &mut Links, space: u64, first: u32, end: u32, cap: Rights, with_self: bool)
    requires { first ≤ end }
    ensures caps { CapsKeys (IsCovered links.old.entries space first end with_self) cap
        links.old.entries links.new.entries }
    ensures spaces { links.new.spaces ≡ links.old.spaces }
{
    if !with_self {
        cap_below_pages(links, space, first, end, cap);
        return;
    }
    links.law_places();
    let mut next = first;
    loop {
        let Some((page, key)) = links.next_key_in(space, next, end) else {
            return;
        };
        cap_key(links, key, cap, with_self);
        next = page + 1;
    }
}

/// Removes the rights from everything that descends from the key, and with `with_self` also from its node. If these are all rights, what is
/// removed is cut off at once.
pub(crate) fn revoke_key(links: &mut Links, top: usize, rights: Rights, with_self: bool)
    requires clean { IsClean links.old }
    requires there { entry_at links.old.entries top ≢ None }
    ensures cuts { CutsKeys (IsOver links.old.entries with_self top) rights links.old.entries
        links.new.entries }
    ensures spaces { links.new.spaces ≡ links.old.spaces }
    ensures places { HavePlaces links.new }
    ensures trees { AreTrees links.new.entries }
{
    let cap = Rights::all().difference(rights);
    if cap.is_empty() {
        take_key(links, top, with_self);
        links.law_places();
        links.law_trees();
        return;
    }
    cap_key(links, top, cap, with_self);
    links.bury();
    links.law_places();
    links.law_trees();
}

/// Removes the rights from everything that descends from these pages, and with `with_self` also from the pages. If these are all rights,
/// what is removed is cut off at once.
pub(crate) fn revoke_pages(
    links: &mut Links,
    space: u64,
    first: u32,
    end: u32,
    rights: Rights,
    with_self: bool,
)
    requires clean { IsClean links.old }
    requires rising { first ≤ end }
    ensures cuts { CutsKeys (IsCovered links.old.entries space first end with_self) rights
        links.old.entries links.new.entries }
    ensures spaces { links.new.spaces ≡ links.old.spaces }
    ensures places { HavePlaces links.new }
    ensures trees { AreTrees links.new.entries }
{
    let cap = Rights::all().difference(rights);
    if cap.is_empty() {
        take_pages(links, space, first, end, with_self);
        links.law_places();
        links.law_trees();
        return;
    }
    cap_pages(links, space, first, end, cap, with_self);
    links.bury();
    links.law_places();
    links.law_trees();
}
