//! The pages that descend from a page.
ghost use Rattle.std.specs.Prelude.{◌≡◌};
ghost use Rattle.l4_c_queries.specs.Descended.{TellsDescendants};

use l4_c_queries::{CountResult, PlaceResult, counted, list_descendants};
use l4_c_values::{EMPTY, KernelHandle};
use std::alloc::Global;

/// Writes the pages that descend from a page of a space to the array, up to its length, and returns how many there are. The refusals are B1
/// and NoMemory, in this order. Nothing is written after a refusal.
#[unsafe(no_mangle)]
pub extern "C" fn l4_descendants(
    alloc: Global,
    handle: &mut KernelHandle,
    space: u64,
    page: u32,
    out: &mut [PlaceResult],
) -> CountResult
    ensures kept { handle.new.value ≡ handle.old.value }
    ensures told { TellsDescendants handle.old.value space page out.old result out.new }
{
    let Some(kernel) = handle.take(alloc) else {
        return counted(EMPTY, 0);
    };
    let told = list_descendants(&kernel, space, page, out);
    handle.put(kernel);
    told
}
