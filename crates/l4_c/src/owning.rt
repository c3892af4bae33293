//! Boots, copies and frees kernels.
ghost use Rattle.std.specs.Prelude.{◌≡◌, None, Some, codes};
ghost use Rattle.l4_fpage.specs.declared.sizes.PageSize.TheVariants.{Kib4};
ghost use Rattle.l4_refusals.specs.Texts.{spelled};
ghost use Rattle.l4_c.specs.Exports.{Boots};
ghost use Rattle.l4_c_queries.specs.Copied.{Copies};
ghost use Rattle.l4_c_values.specs.InBytes.{InBytes};

use l4_c_queries::fill;
use l4_c_values::{EMPTY, HELD, KernelHandle, NO_MEMORY, NO_SUCH_SIZE, kernel_number, size_of};
use l4_ipc::{Kernel, PageSize};
use std::alloc::Global;

/// Boots a kernel with pages of this size. Refuses a handle that is not empty (B2) and a wrong number of frames (K6), or returns NoMemory.
fn boot(alloc: Global, handle: &mut KernelHandle, size: PageSize, frames: u32) -> u32
    ensures { Boots handle.old.value size frames result handle.new.value }
{
    if let Some(kernel) = handle.take(alloc) {
        handle.put(kernel);
        return HELD;
    }
    let kernel = match Kernel::boot(alloc, frames, size) {
        Ok(kernel) => kernel,
        Err(refused) => return kernel_number(refused),
    };
    match Box::new(alloc, kernel) {
        Ok(kernel) => {
            handle.put(kernel);
            0
        }
        Err(_) => NO_MEMORY,
    }
}

/// Boots a kernel with 1 to 4,096 frames and with pages of 4,096 bytes. The refusals are B2, K6 and NoMemory, in this order.
#[unsafe(no_mangle)]
pub extern "C" fn l4_boot(alloc: Global, handle: &mut KernelHandle, frames: u32) -> u32
    ensures { Boots handle.old.value Kib4 frames result handle.new.value }
{
    boot(alloc, handle, PageSize::Kib4, frames)
}

/// Boots a kernel with pages of `page_bytes` bytes. Refuses a number of bytes that no page has (B4) before every other refusal.
#[unsafe(no_mangle)]
pub extern "C" fn l4_boot_sized(
    alloc: Global,
    handle: &mut KernelHandle,
    frames: u32,
    page_bytes: u32,
) -> u32
    ensures { InBytes page_bytes
        (λ size. Boots handle.old.value size frames result handle.new.value)
        ((result ≡ spelled (codes "B4")) × (handle.new.value ≡ handle.old.value)) }
{
    match size_of(page_bytes) {
        Some(size) => boot(alloc, handle, size, frames),
        None => NO_SUCH_SIZE,
    }
}

/// Copies a kernel into a second, empty handle. Refuses an empty first handle (B1) and a second one that is not empty (B2), or returns
/// NoMemory.
#[unsafe(no_mangle)]
pub extern "C" fn l4_copy(alloc: Global, handle: &mut KernelHandle, copy: &mut KernelHandle) -> u32
    ensures kept { handle.new.value ≡ handle.old.value }
    ensures copied { Copies handle.old.value copy.old.value result copy.new.value }
{
    let Some(original) = handle.take(alloc) else {
        return EMPTY;
    };
    let number = fill(alloc, copy, &original);
    handle.put(original);
    number
}

/// Frees a kernel, and leaves the handle empty.
#[unsafe(no_mangle)]
pub extern "C" fn l4_free(alloc: Global, handle: &mut KernelHandle)
    ensures { handle.new.value ≡ None }
{
    let _kernel = handle.take(alloc);
}
