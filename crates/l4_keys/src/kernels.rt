//! The words of a kernel.
ghost use Rattle.std.specs.Prelude.{◌≡◌, ◌++◌, List, ℕ, OnOk};
ghost use Rattle.l4_keys.specs.Listings.{Lists};
ghost use Rattle.l4_keys.specs.Keys.{has_thread, AreOfThread, has_page, AreOfPage, has_space, AreOfSpace, IsQueue, AreOfKernel};

use crate::parts::{high, low, put, put_counted, put_mapping, put_thread, size_word};
use l4_ipc::Kernel;
use std::alloc::AllocError;

/// Appends each thread, in rising order of their numbers.
fn put_threads(kernel: &Kernel, out: &mut Vec<u32>) -> Result<(), AllocError>
    ensures { OnOk result
        ((words : List ℕ) × Lists (has_thread kernel.now.threads) (AreOfThread kernel.now.threads) words
        × (out.new.items ≡ out.old.items ++ words)) }
{
    let mut from = 0u32;
    while let Some(number) = kernel.next_thread(from) {
        let Some(thread) = kernel.thread(number) else {
            return Err(AllocError);
        };
        put(out, &[1, number])?;
        put_thread(thread, out)?;
        let Some(next) = number.checked_add(1) else {
            return Err(AllocError);
        };
        from = next;
    }
    put(out, &[0])
}

/// Appends each present page of a space, in rising order.
fn put_pages(kernel: &Kernel, space: u64, out: &mut Vec<u32>) -> Result<(), AllocError>
    ensures { OnOk result
        ((words : List ℕ) × Lists (has_page kernel.now.mappings space) (AreOfPage kernel.now.mappings space) words
        × (out.new.items ≡ out.old.items ++ words)) }
{
    let mut from = 0u32;
    while let Some(page) = kernel.next_page(space, from) {
        let Some(mapping) = kernel.mapping(space, page) else {
            return Err(AllocError);
        };
        put(out, &[1, page])?;
        put_mapping(mapping, out)?;
        let Some(next) = page.checked_add(1) else {
            return Err(AllocError);
        };
        from = next;
    }
    put(out, &[0])
}

/// Appends each space, in rising order of their numbers.
fn put_spaces(kernel: &Kernel, out: &mut Vec<u32>) -> Result<(), AllocError>
    ensures { OnOk result
        ((words : List ℕ) × Lists (has_space kernel.now.mappings) (AreOfSpace kernel.now.mappings) words
        × (out.new.items ≡ out.old.items ++ words)) }
{
    let mut from = 0u64;
    while let Some(space) = kernel.next_space(from) {
        put(out, &[1, low(space), high(space)])?;
        put_pages(kernel, space, out)?;
        let Some(next) = space.checked_add(1) else {
            return Err(AllocError);
        };
        from = next;
    }
    put(out, &[0])
}

/// Appends the words of a kernel with this queue of senders and this number of the next new space.
fn put_state(
    kernel: &Kernel,
    queue: &[u32],
    next: u64,
    out: &mut Vec<u32>,
) -> Result<(), AllocError>
    requires queue { IsQueue kernel.now.threads queue.now }
    requires next { next ≡ kernel.now.threads.next_space }
    ensures { OnOk result
        ((words : List ℕ) × AreOfKernel kernel.now words
        × (out.new.items ≡ out.old.items ++ words)) }
{
    kernel.law_forest();
    put(out, &[size_word(kernel.page_size()), low(next), high(next)])?;
    put_counted(out, queue)?;
    put_threads(kernel, out)?;
    put_spaces(kernel, out)
}

/// Appends the words of a kernel: the size of its pages, the number of the next new space, the queue of senders, each thread, and each space
/// with its pages. Returns `AllocError` if an allocation fails; the words are then unspecified.
pub fn put_kernel(kernel: &Kernel, out: &mut Vec<u32>) -> Result<(), AllocError>
    ensures { OnOk result
        ((words : List ℕ) × AreOfKernel kernel.now words
        × (out.new.items ≡ out.old.items ++ words)) }
{
    let threads = kernel.threads();
    put_state(kernel, threads.queue(), threads.new_space(), out)
}
