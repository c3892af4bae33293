//! Writes checkpoints.
ghost use Rattle.std.specs.Prelude.{◌≡◌};
ghost use Rattle.l4_c_checkpoints.specs.Checkpoints.{Writes, WritesCheckpoint};

use l4_c_queries::{CountResult, counted, write_bytes};
use l4_c_values::{BAD_FRAMES, EMPTY, KernelHandle, NO_MEMORY, TOO_LONG};
use l4_checkpoints::write_checkpoint;
use l4_ipc::{Kernel, MAX_FRAMES};
use l4_record::MAX_HANDED_OUT;
use std::alloc::Global;

/// Writes the checkpoint of a kernel to the array, up to its length, and returns how many bytes it has. The refusals are K6, B7 and NoMemory,
/// in this order.
fn write(alloc: Global, kernel: &Kernel, frames: u32, entries: usize, out: &mut [u8]) -> CountResult
    ensures { Writes frames entries kernel.now out.old result out.new }
{
    if frames == 0 || frames > MAX_FRAMES {
        return counted(BAD_FRAMES, 0);
    }
    if entries > MAX_HANDED_OUT {
        return counted(TOO_LONG, 0);
    }
    match write_checkpoint(alloc, frames, entries, kernel) {
        Ok(bytes) => {
            write_bytes(bytes.as_slice(), out);
            counted(0, bytes.len() as u64)
        }
        Err(_) => counted(NO_MEMORY, 0),
    }
}

/// Writes the checkpoint of a kernel to the array, up to its length, and returns how many bytes it has. `frames` is the number of frames with
/// which the kernel was booted, and `entries` the number of entries in its history since boot. The refusals are B1, K6, B7 and NoMemory, in
/// this order. Nothing is written after a refusal.
#[unsafe(no_mangle)]
pub extern "C" fn l4_checkpoint_write(
    alloc: Global,
    handle: &mut KernelHandle,
    frames: u32,
    entries: usize,
    out: &mut [u8],
) -> CountResult
    ensures kept { handle.new.value ≡ handle.old.value }
    ensures told { WritesCheckpoint handle.old.value frames entries out.old result out.new }
{
    let Some(kernel) = handle.take(alloc) else {
        return counted(EMPTY, 0);
    };
    let told = write(alloc, &kernel, frames, entries, out);
    handle.put(kernel);
    told
}
