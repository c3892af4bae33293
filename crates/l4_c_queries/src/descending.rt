//! The pages that descend from a page, and numbers of things.
ghost use Rattle.std.specs.Prelude.{◌≡◌, map};
ghost use Rattle.l4_c_queries.specs.Placed.{placed};
ghost use Rattle.l4_c_queries.specs.Descended.{place_result, ListsDescendants};

use l4_c_values::NO_MEMORY;
use l4_ipc::{Kernel, Place};

/// A page of a space.
#[repr(C)]
#[derive(Clone, Copy)]
pub struct PlaceResult {
    pub space: u64,
    pub page: u32,
    pub reserved: u32,
}

/// A number of pages or of entries.
#[repr(C)]
#[derive(Clone, Copy)]
pub struct CountResult {
    pub refusal: u32,
    pub count: u64,
}

/// Returns a result with this refusal, or with 0 and this number.
pub fn counted(refusal: u32, count: u64) -> CountResult
    ensures { result ≡ record { refusal = refusal; count = count } }
{
    CountResult { refusal, count }
}

/// Returns the result for a page.
fn place_told(place: &Place) -> PlaceResult
    ensures { result ≡ place_result place.now }
{
    PlaceResult {
        space: place.space,
        page: place.page,
        reserved: 0,
    }
}

/// Writes the pages to the array, up to its length, and leaves the elements after them as they are.
fn write_places(places: &[Place], out: &mut [PlaceResult])
    ensures { out.new ≡ placed (map place_result places.now) out.old }
{
    for at in 0..places.len() {
        if at >= out.len() {
            return;
        }
        out[at] = place_told(&places[at]);
    }
}

/// Writes the pages that descend from a page to the array, up to its length, and returns how many there are. Returns NoMemory if an
/// allocation fails, and then writes nothing.
pub fn list_descendants(
    kernel: &Kernel,
    space: u64,
    page: u32,
    out: &mut [PlaceResult],
) -> CountResult
    ensures { ListsDescendants kernel.now space page out.old result out.new }
{
    match kernel.descendants(space, page) {
        Ok(places) => {
            write_places(places.as_slice(), out);
            counted(0, places.len() as u64)
        }
        Err(_) => counted(NO_MEMORY, 0),
    }
}
