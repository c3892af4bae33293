//! The end of a space.

ghost use Rattle.std.specs.Prelude.{◌≡◌, true};
ghost use Rattle.l4_spaces.specs.Tables.{space_pages};
ghost use Rattle.l4_links.specs.Entries.{NoKeyFrom};
ghost use Rattle.l4_mapdb.specs.Delivering.{IsClean};
ghost use Rattle.l4_forest.specs.Inside.Cuts.{IsCovered, TakesKeys};

use crate::taking::take_pages;
use l4_fpage::MOST_PAGES;
use l4_links::Links;

/// Takes all pages of the space away, with all that descends from them.
pub(crate) fn clear(links: &mut Links, space: u64)
    requires { IsClean links.old }
    ensures takes { TakesKeys (IsCovered links.old.entries space 0 space_pages true)
        links.old.entries links.new.entries }
    ensures empty { NoKeyFrom links.new.entries space 0 }
    ensures spaces { links.new.spaces ≡ links.old.spaces }
{
    links.law_places();
    take_pages(links, space, 0, MOST_PAGES, true);
}
