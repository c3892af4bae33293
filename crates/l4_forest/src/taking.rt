//! Removes pages at once, with everything that descends from them.

ghost use Rattle.std.specs.Prelude.{◌≡◌, ◌≢◌, ◌≤◌, None, false};
ghost use Rattle.l4_links.specs.Entries.{entry_at, HaveRights};
ghost use Rattle.l4_mapdb.specs.Delivering.{IsClean};
ghost use Rattle.l4_forest.specs.Inside.Cuts.{IsOver, IsCovered, TakesKeys};

use l4_links::Links;

/// Ghost function: gives a proof that each node has a right, if there are no marks and no blanks. It compiles to nothing.
fn law_rights(links: &Links)
    requires { IsClean links.now }
    ensures { HaveRights links.now.entries }
{
    let _ = links;
}

/// Removes everything that descends from the key, and with `with_self` also its node.
pub(crate) fn take_key(links: &mut Links, top: usize, with_self: bool)
    requires clean { IsClean links.old }
    requires there { entry_at links.old.entries top ≢ None }
    ensures takes { TakesKeys (IsOver links.old.entries with_self top) links.old.entries
        links.new.entries }
    ensures spaces { links.new.spaces ≡ links.old.spaces }
{
    links.law_trees();
    law_rights(links);
    if with_self {
        links.clear(top);
        links.take_blank(top);
        return;
    }
    links.cut_below(top);
}

/// Takes away all that descends from these pages, each of which stays. A page that nothing descends from is passed over in the walk.
fn cut_pages(links: &mut Links, space: u64, first: u32, end: u32)
    requires clean { IsClean links.old }
    requires rising { first ≤ end }
    ensures takes { TakesKeys (IsCovered links.old.entries space first end false) links.old.entries
        links.new.entries }
    ensures spaces { links.new.spaces ≡ links.old.spaces }
{
    links.law_places();
    let mut next = first;
    loop {
        let Some((page, key)) = links.next_parent_in(space, next, end) else {
            return;
        };
        take_key(links, key, false);
        next = page + 1;
    }
}

/// Removes everything that descends from these pages, and with `with_self` also the pages. A page may have been removed together with an
/// earlier one.
pub(crate) fn take_pages(links: &mut Links, space: u64, first: u32, end: u32, with_self: bool)
    requires clean { IsClean links.old }
    requires rising { first ≤ end }
    ensures takes { TakesKeys (IsCovered links.old.entries space first end with_self)
        links.old.entries links.new.entries }
    ensures spaces { links.new.spaces ≡ links.old.spaces }
{
    if !with_self {
        cut_pages(links, space, first, end);
        return;
    }
    links.law_places();
    let mut next = first;
    loop {
        let Some((page, key)) = links.next_key_in(space, next, end) else {
            return;
        };
        take_key(links, key, with_self);
        next = page + 1;
    }
}
