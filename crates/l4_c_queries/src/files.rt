//! The file of a segment.
ghost use Rattle.std.specs.Prelude.{◌≡◌};
ghost use Rattle.l4_c_queries.specs.Placed.{placed};
ghost use Rattle.l4_c_queries.specs.Files.{WritesFile};

use crate::descending::{CountResult, counted};
use l4_c_values::NO_MEMORY;
use l4_seated_lock::HandedSegment;
use l4_segments::write_segment;
use std::alloc::Global;

/// Writes the bytes to the array, up to its length, and leaves the elements after them as they are.
pub fn write_bytes(bytes: &[u8], out: &mut [u8])
    ensures { out.new ≡ placed bytes.now out.old }
{
    for at in 0..bytes.len() {
        if at >= out.len() {
            return;
        }
        out[at] = bytes[at];
    }
}

/// Writes the file of a segment to the array, up to its length, and returns how many bytes the file has. Returns NoMemory if an allocation
/// fails, and then writes nothing.
pub fn write_file(alloc: Global, handed: &HandedSegment, out: &mut [u8]) -> CountResult
    ensures { WritesFile handed.now out.old result out.new }
{
    match write_segment(alloc, handed.frames, handed.size, &handed.segment) {
        Ok(file) => {
            write_bytes(file.as_slice(), out);
            counted(0, file.len() as u64)
        }
        Err(_) => counted(NO_MEMORY, 0),
    }
}
