//! sigma0's tables of owners.
ghost use Rattle.std.specs.Prelude.{◌≡◌, None, Some, codes};
ghost use Rattle.l4_fpage.specs.declared.sizes.PageSize.TheVariants.{Kib4};
ghost use Rattle.l4_refusals.specs.Texts.{spelled};
ghost use Rattle.l4_c_values.specs.InBytes.{InBytes};
ghost use Rattle.l4_c.specs.Served.{MakesOwners, TellsSigma0sAnswer};

use l4_c_values::{
    BAD_FRAMES, EMPTY, HELD, MessageResult, NO_MEMORY, NO_SUCH_SIZE, Sigma0Handle, message_told,
    no_message, size_of, unread,
};
use l4_ipc::{Message, PageSize};
use l4_sigma0::{MAX_FRAMES, Sigma0};
use std::alloc::Global;

/// Makes a table of frames of this size, none of which has an owner.
fn make(alloc: Global, handle: &mut Sigma0Handle, size: PageSize, frames: u32) -> u32
    ensures { MakesOwners handle.old.value size frames result handle.new.value }
{
    if let Some(table) = handle.take(alloc) {
        handle.put(table);
        return HELD;
    }
    if frames == 0 || frames > MAX_FRAMES as u32 {
        return BAD_FRAMES;
    }
    match Box::new(alloc, Sigma0::new(frames, size)) {
        Ok(table) => {
            handle.put(table);
            0
        }
        Err(_) => NO_MEMORY,
    }
}

/// Makes a table of frames of 4,096 bytes, none of which has an owner. The refusals are B2, K6 and NoMemory, in this order.
#[unsafe(no_mangle)]
pub extern "C" fn l4_sigma0_new(alloc: Global, handle: &mut Sigma0Handle, frames: u32) -> u32
    ensures { MakesOwners handle.old.value Kib4 frames result handle.new.value }
{
    make(alloc, handle, PageSize::Kib4, frames)
}

/// Makes a table of frames of `page_bytes` bytes, none of which has an owner. Refuses a number of bytes that no page has (B4) before every
/// other refusal.
#[unsafe(no_mangle)]
pub extern "C" fn l4_sigma0_new_sized(
    alloc: Global,
    handle: &mut Sigma0Handle,
    frames: u32,
    page_bytes: u32,
) -> u32
    ensures { InBytes page_bytes
        (λ size. MakesOwners handle.old.value size frames result handle.new.value)
        ((result ≡ spelled (codes "B4")) × (handle.new.value ≡ handle.old.value)) }
{
    match size_of(page_bytes) {
        Some(size) => make(alloc, handle, size, frames),
        None => NO_SUCH_SIZE,
    }
}

/// Frees a table, and leaves the handle empty.
#[unsafe(no_mangle)]
pub extern "C" fn l4_sigma0_free(alloc: Global, handle: &mut Sigma0Handle)
    ensures { handle.new.value ≡ None }
{
    let _table = handle.take(alloc);
}

/// Returns the table's answer to the words of a message from a space, or the refusal of words that are not a message.
fn answer(table: &mut Sigma0, space: u64, words: &[u32]) -> MessageResult
    ensures { TellsSigma0sAnswer (Some table.old) space words.now result (Some table.new) }
{
    match Message::read(words) {
        Ok(message) => message_told(&table.answer(space, &message)),
        Err(fault) => unread(fault),
    }
}

/// Returns sigma0's answer to a message from a space. The refusals are B1, and then those of the message.
#[unsafe(no_mangle)]
pub extern "C" fn l4_sigma0_answer(
    alloc: Global,
    handle: &mut Sigma0Handle,
    space: u64,
    words: &[u32],
) -> MessageResult
    ensures { TellsSigma0sAnswer handle.old.value space words.now result handle.new.value }
{
    let Some(mut table) = handle.take(alloc) else {
        return no_message(EMPTY, 0);
    };
    let told = answer(&mut table, space, words);
    handle.put(table);
    told
}
