//! Lists the places of keys.

ghost use Rattle.std.specs.Prelude.{◌≡◌, map, IfOk};
ghost use Rattle.l4_forest.specs.Inside.Listed.{place_under};

use crate::reading::place_of;
use crate::{NoMemory, Place};
use l4_links::Links;
use std::alloc::Global;

/// Returns the place of a key that is in use, and page 0 of space 0 for any other key.
fn place_under(links: &Links, key: usize) -> Place
    ensures { result ≡ place_under links.now.entries key }
{
    match place_of(links, Some(key)) {
        Some(place) => place,
        None => Place { space: 0, page: 0 },
    }
}

/// Returns the places of the keys, in their order.
pub(crate) fn places_under(
    alloc: Global,
    links: &Links,
    keys: &[usize],
) -> Result<Vec<Place>, NoMemory>
    ensures { IfOk result (λ places. places.items ≡ map (place_under links.now.entries) keys.now) }
{
    let mut places = Vec::with_capacity(alloc, keys.len())?;
    for key in keys {
        places.push(place_under(links, *key))?;
    }
    Ok(places)
}
