//! Copies of kernels.
ghost use Rattle.std.specs.Prelude.{◌≡◌, Some};
ghost use Rattle.l4_c_queries.specs.Copied.{Copies};

use l4_c_values::{HELD, KernelHandle, NO_MEMORY};
use l4_ipc::Kernel;
use std::alloc::Global;

/// Fills an empty handle with a copy of the kernel. Refuses a handle that is not empty (B2), or returns NoMemory.
pub fn fill(alloc: Global, copy: &mut KernelHandle, kernel: &Kernel) -> u32
    ensures { Copies (Some kernel.now) copy.old.value result copy.new.value }
{
    if let Some(held) = copy.take(alloc) {
        copy.put(held);
        return HELD;
    }
    let copied = match kernel.copy() {
        Ok(copied) => copied,
        Err(_) => return NO_MEMORY,
    };
    match Box::new(alloc, copied) {
        Ok(copied) => {
            copy.put(copied);
            0
        }
        Err(_) => NO_MEMORY,
    }
}
