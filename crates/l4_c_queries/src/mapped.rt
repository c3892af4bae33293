//! The present pages of a space, with their mappings.
ghost use Rattle.std.specs.Prelude.{◌≡◌, [], ◌∷◌};
ghost use Rattle.l4_forest.specs.Places.{IsNextPresent};
ghost use Rattle.l4_c_queries.specs.Mapped.{mapped_result, mapped_results, ListsMappings};
ghost use Rattle.l4_c_queries.specs.Placed.{placed_behind};
ghost use Rattle.l4_c_queries.specs.Inside.Mapped.{WritesMappings};

use crate::descending::{CountResult, counted};
use l4_ipc::{Kernel, Mapping};

/// A present page of a space, with its mapping.
#[repr(C)]
#[derive(Clone, Copy)]
pub struct MappedResult {
    pub page: u32,
    pub frame: u32,
    pub rights: u32,
    pub has_parent: u32,
    pub parent_space: u64,
    pub parent_page: u32,
    pub reserved: u32,
}

/// Returns the result for a page with this mapping.
fn mapped_told(page: u32, mapping: &Mapping) -> MappedResult
    ensures { result ≡ mapped_result page mapping.now }
{
    let (has_parent, parent_page, parent_space) = match mapping.parent {
        Some(place) => (1, place.page, place.space),
        None => (0, 0, 0),
    };
    MappedResult {
        page,
        frame: mapping.frame,
        rights: u32::from(mapping.rights.bits()),
        has_parent,
        parent_space,
        parent_page,
        reserved: 0,
    }
}

/// Writes a page of a space, if it is present, to the element of the array at this index, if there is one.
fn write_mapping(kernel: &Kernel, space: u64, page: u32, at: usize, out: &mut [MappedResult])
    ensures { out.new ≡ placed_behind at
        (mapped_results kernel.now.mappings space (page ∷ [])) out.old }
{
    let Some(mapping) = kernel.mapping(space, page) else {
        return;
    };
    if at < out.len() {
        out[at] = mapped_told(page, &mapping);
    }
}

/// Writes the present pages of a space from `first` on to the array, up to its length. Returns how many there are.
fn write_mappings(kernel: &Kernel, space: u64, first: u32, out: &mut [MappedResult]) -> usize
    ensures { WritesMappings kernel.now space first out.old result out.new }
{
    kernel.law_pages();
    let end = kernel.page_size().space_pages();
    let mut from = first;
    let mut count = 0usize;
    loop {
        let Some(page) = kernel.next_page(space, from) else {
            return count;
        };
        if page >= end {
            return count;
        }
        write_mapping(kernel, space, page, count, out);
        count += 1;
        from = page + 1;
    }
}

/// Writes the present pages of a space from `first` on to the array, in rising order and up to its length, and returns how many there are.
pub fn list_mappings(
    kernel: &Kernel,
    space: u64,
    first: u32,
    out: &mut [MappedResult],
) -> CountResult
    ensures { ListsMappings kernel.now space first out.old result out.new }
{
    let count = write_mappings(kernel, space, first, out);
    counted(0, count as u64)
}
