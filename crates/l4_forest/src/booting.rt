//! The initial mappings.

ghost use Rattle.std.specs.Prelude.{◌≡◌, ◌<◌, ◌≤◌, ◌^◌, [], OnOk, IfOk, IsOk, IsTrue};
ghost use Rattle.std.specs.FinSet as set;
ghost use Rattle.l4_spaces.specs.Tables.{space_pages};
ghost use Rattle.l4_links.specs.Entries.{HavePlaces};
ghost use Rattle.l4_forest.specs.Inside.Kept.{OwnsFirst};

use crate::NoMemory;
use l4_fpage::Rights;
use l4_links::{Links, Place};

/// Returns the key in four bytes, or `NoMemory` if it does not fit.
fn short_key(key: usize) -> Result<u32, NoMemory>
    ensures kept { IfOk result (λ short. short ≡ key) }
    ensures succeeds { key < 2 ^ 32 → IsOk result }
{
    if key > u32::MAX as usize {
        return Err(NoMemory);
    }
    Ok(key as u32)
}

/// Maps each frame at the page of its number in space 0, and stores the key of each.
pub(crate) fn own_places(
    links: &mut Links,
    roots: &mut Vec<u32>,
    frames: u32,
) -> Result<(), NoMemory>
    requires empty { links.old.entries ≡ [] }
    requires no_roots { roots.old.items ≡ [] }
    requires there { IsTrue (set.contains links.old.spaces 0) }
    requires fit { frames ≤ space_pages }
    ensures owns { OnOk result (OwnsFirst frames links.new.entries roots.new.items) }
    ensures places { OnOk result (HavePlaces links.new) }
    ensures spaces { links.new.spaces ≡ links.old.spaces }
{
    for frame in 0..frames {
        let page = Place {
            space: 0,
            page: frame,
        };
        let key = links.add_blank(page)?;
        links.stand_root(key, frame, Rights::all());
        roots.push(short_key(key)?)?;
    }
    links.law_places();
    Ok(())
}
