//! Reads the mappings of places.

ghost use Rattle.std.specs.Prelude.{◌≡◌, option_and_then, MatchOption};
ghost use Rattle.l4_mapdb.specs.Mappings.{shown};
ghost use Rattle.l4_mapdb.specs.View.{place_at, mappings_of};
ghost use Rattle.l4_forest.specs.Inside.Kept.{IsRootKey, NoRootKey, kept_at};

use crate::{Mapping, Place};
use l4_links::{Entry, Links};

/// Returns the place of the key.
pub(crate) fn place_of(links: &Links, key: Option<usize>) -> Option<Place>
    ensures { result ≡ option_and_then (place_at links.now.entries) key }
{
    let Some(key) = key else {
        return None;
    };
    let Some(Entry { place, .. }) = links.at(key) else {
        return None;
    };
    Some(Place {
        space: place.space,
        page: place.page,
    })
}

/// Returns the mapping of the place.
pub(crate) fn shown_at(links: &Links, place: Place) -> Option<Mapping>
    ensures { result ≡ shown (mappings_of links.now) place }
{
    links.law_places();
    let page = l4_links::Place {
        space: place.space,
        page: place.page,
    };
    let Some(key) = links.find(page) else {
        return None;
    };
    let Some(standing) = links.standing(key) else {
        return None;
    };
    Some(Mapping {
        frame: standing.frame,
        rights: standing.rights,
        parent: place_of(links, standing.parent),
    })
}

/// Returns the stored key of the frame's root.
pub(crate) fn kept_key(roots: &[u32], frame: u32) -> Option<usize>
    ensures { result ≡ kept_at roots.now frame }
{
    let index = frame as usize;
    if index >= roots.len() {
        return None;
    }
    Some(roots[index] as usize)
}

/// Returns the place of the key, if its node has the frame and no parent.
pub(crate) fn root_under(links: &Links, frame: u32, key: usize) -> Option<Place>
    ensures { MatchOption result (NoRootKey links.now.entries frame key)
        (IsRootKey links.now.entries frame key) }
{
    let Some(Entry { place, stands, .. }) = links.at(key) else {
        return None;
    };
    let Some(standing) = stands else {
        return None;
    };
    if standing.frame != frame || standing.parent.is_some() {
        return None;
    }
    Some(Place {
        space: place.space,
        page: place.page,
    })
}
