//! Searches the orders of plans.
ghost use Rattle.std.specs.Prelude.{◌≡◌, None, codes};
ghost use Rattle.l4_fpage.specs.declared.sizes.PageSize.TheVariants.{Kib4};
ghost use Rattle.l4_c_values.specs.InBytes.{InBytes};
ghost use Rattle.l4_outcomes.specs.Faults.{refused_by};
ghost use Rattle.l4_c_orders.specs.Searching.{Searches};

use crate::handles::OrdersHandle;
use l4_c_values::{HELD, NO_MEMORY, NO_SUCH_SIZE, size_of};
use l4_fpage::PageSize;
use l4_outcomes::{SearchResult, search, without_line};
use std::alloc::Global;

/// Fills an empty handle with the search of a plan.
fn fill(
    alloc: Global,
    handle: &mut OrdersHandle,
    frames: u32,
    size: PageSize,
    text: &[u8],
    most: u64,
) -> SearchResult
    ensures { Searches frames size most text.now handle.old.value result handle.new.value }
{
    if let Some(held) = handle.take(alloc) {
        handle.put(held);
        return without_line(HELD);
    }
    let found = match search(alloc, frames, size, text, most) {
        Ok(found) => found,
        Err(refused) => return refused,
    };
    match Box::new(alloc, found) {
        Ok(found) => {
            handle.put(found);
            without_line(0)
        }
        Err(_) => without_line(NO_MEMORY),
    }
}

/// Searches all orders of a plan on a new kernel with this number of frames and with pages of 4,096 bytes, and visits at most `most` states.
/// The refusals are B2, K6, those of the text (S1 to S5, O1 to O8), NoMemory and L1, in this order.
#[unsafe(no_mangle)]
pub extern "C" fn l4_orders_search(
    alloc: Global,
    handle: &mut OrdersHandle,
    frames: u32,
    plan: &[u8],
    most: u64,
) -> SearchResult
    ensures { Searches frames Kib4 most plan.now handle.old.value result handle.new.value }
{
    fill(alloc, handle, frames, PageSize::Kib4, plan, most)
}

/// Searches all orders of a plan for pages of `page_bytes` bytes. Refuses a number of bytes that no page has (B4) before every other refusal.
#[unsafe(no_mangle)]
pub extern "C" fn l4_orders_search_sized(
    alloc: Global,
    handle: &mut OrdersHandle,
    frames: u32,
    plan: &[u8],
    most: u64,
    page_bytes: u32,
) -> SearchResult
    ensures { InBytes page_bytes
        (λ size. Searches frames size most plan.now handle.old.value result handle.new.value)
        ((result ≡ refused_by (codes "B4")) × (handle.new.value ≡ handle.old.value)) }
{
    match size_of(page_bytes) {
        Some(size) => fill(alloc, handle, frames, size, plan, most),
        None => without_line(NO_SUCH_SIZE),
    }
}

/// Frees a search, and leaves the handle empty.
#[unsafe(no_mangle)]
pub extern "C" fn l4_orders_free(alloc: Global, handle: &mut OrdersHandle)
    ensures { handle.new.value ≡ None }
{
    let _search = handle.take(alloc);
}
