//! Queries and copies the kernel of a locked kernel.
ghost use Rattle.std.specs.Prelude.{◌≡◌, None};
ghost use Rattle.l4_c_queries.specs.Asked.{TellsSpace, TellsSize, TellsMapping, TellsPage, TellsReply};
ghost use Rattle.l4_c_queries.specs.Copied.{Copies, kernel_of};
ghost use Rattle.l4_c_queries.specs.Descended.{TellsDescendants};
ghost use Rattle.l4_c_queries.specs.Listed.{TellsNextThread, TellsNextSpace};
ghost use Rattle.l4_c_queries.specs.Mapped.{TellsMappings};
ghost use Rattle.l4_c_queries.specs.States.{TellsState};

use l4_c_queries::{
    CountResult, MappedResult, PlaceResult, StateResult, ThreadResult, counted, fill,
    list_descendants, list_mappings, mapping_of, next_page, next_space, next_thread, no_mapping,
    no_size, no_state, page_size_of, reply_of, space_of, space_told, state_of, thread_told,
};
use l4_c_values::{
    EMPTY, KernelHandle, LockHandle, MappingResult, PageResult, ReplyResult, SizeResult,
    SpaceResult, no_page, no_reply,
};
use std::alloc::Global;

/// Returns the space of a thread. Refuses an empty handle (B1).
#[unsafe(no_mangle)]
pub extern "C" fn l4_lock_space_of(
    alloc: Global,
    handle: &mut LockHandle,
    thread: u32,
) -> SpaceResult
    ensures kept { handle.new.value ≡ handle.old.value }
    ensures told { TellsSpace (kernel_of handle.old.value) thread result }
{
    let Some(lock) = handle.take(alloc) else {
        return space_told(EMPTY, None);
    };
    let told = space_of(lock.kernel(), thread);
    handle.put(lock);
    told
}

/// Returns what a thread is doing, if it exists. Refuses an empty handle (B1).
#[unsafe(no_mangle)]
pub extern "C" fn l4_lock_state_of(
    alloc: Global,
    handle: &mut LockHandle,
    thread: u32,
) -> StateResult
    ensures kept { handle.new.value ≡ handle.old.value }
    ensures told { TellsState (kernel_of handle.old.value) thread result }
{
    let Some(lock) = handle.take(alloc) else {
        return no_state(EMPTY);
    };
    let told = state_of(lock.kernel(), thread);
    handle.put(lock);
    told
}

/// Returns the reply of the thread's last call, if that has ended. Refuses an empty handle (B1).
#[unsafe(no_mangle)]
pub extern "C" fn l4_lock_reply_of(
    alloc: Global,
    handle: &mut LockHandle,
    thread: u32,
) -> ReplyResult
    ensures kept { handle.new.value ≡ handle.old.value }
    ensures told { TellsReply (kernel_of handle.old.value) thread result }
{
    let Some(lock) = handle.take(alloc) else {
        return no_reply(EMPTY);
    };
    let told = reply_of(lock.kernel(), thread);
    handle.put(lock);
    told
}

/// Returns the lowest thread number that is not below `thread`. Refuses an empty handle (B1).
#[unsafe(no_mangle)]
pub extern "C" fn l4_lock_next_thread(
    alloc: Global,
    handle: &mut LockHandle,
    thread: u32,
) -> ThreadResult
    ensures kept { handle.new.value ≡ handle.old.value }
    ensures told { TellsNextThread (kernel_of handle.old.value) thread result }
{
    let Some(lock) = handle.take(alloc) else {
        return thread_told(EMPTY, None);
    };
    let told = next_thread(lock.kernel(), thread);
    handle.put(lock);
    told
}

/// Returns the lowest space number that is not below `space`. Refuses an empty handle (B1).
#[unsafe(no_mangle)]
pub extern "C" fn l4_lock_next_space(
    alloc: Global,
    handle: &mut LockHandle,
    space: u64,
) -> SpaceResult
    ensures kept { handle.new.value ≡ handle.old.value }
    ensures told { TellsNextSpace (kernel_of handle.old.value) space result }
{
    let Some(lock) = handle.take(alloc) else {
        return space_told(EMPTY, None);
    };
    let told = next_space(lock.kernel(), space);
    handle.put(lock);
    told
}

/// Returns the size of the kernel's pages in bytes. Refuses an empty handle (B1).
#[unsafe(no_mangle)]
pub extern "C" fn l4_lock_page_size_of(alloc: Global, handle: &mut LockHandle) -> SizeResult
    ensures kept { handle.new.value ≡ handle.old.value }
    ensures told { TellsSize (kernel_of handle.old.value) result }
{
    let Some(lock) = handle.take(alloc) else {
        return no_size();
    };
    let told = page_size_of(lock.kernel());
    handle.put(lock);
    told
}

/// Returns the mapping of a page of a space. Refuses an empty handle (B1).
#[unsafe(no_mangle)]
pub extern "C" fn l4_lock_mapping_of(
    alloc: Global,
    handle: &mut LockHandle,
    space: u64,
    page: u32,
) -> MappingResult
    ensures kept { handle.new.value ≡ handle.old.value }
    ensures told { TellsMapping (kernel_of handle.old.value) space page result }
{
    let Some(lock) = handle.take(alloc) else {
        return no_mapping(EMPTY);
    };
    let told = mapping_of(lock.kernel(), space, page);
    handle.put(lock);
    told
}

/// Returns the lowest present page of a space that is not below `page`. Refuses an empty handle (B1).
#[unsafe(no_mangle)]
pub extern "C" fn l4_lock_next_page(
    alloc: Global,
    handle: &mut LockHandle,
    space: u64,
    page: u32,
) -> PageResult
    ensures kept { handle.new.value ≡ handle.old.value }
    ensures told { TellsPage (kernel_of handle.old.value) space page result }
{
    let Some(lock) = handle.take(alloc) else {
        return no_page(EMPTY);
    };
    let told = next_page(lock.kernel(), space, page);
    handle.put(lock);
    told
}

/// Writes the present pages of a space from `page` on, with their mappings, to the array, in rising order and up to its length, and returns
/// how many there are. Refuses an empty handle (B1), and then writes nothing.
#[unsafe(no_mangle)]
pub extern "C" fn l4_lock_mappings(
    alloc: Global,
    handle: &mut LockHandle,
    space: u64,
    page: u32,
    out: &mut [MappedResult],
) -> CountResult
    ensures kept { handle.new.value ≡ handle.old.value }
    ensures told { TellsMappings (kernel_of handle.old.value) space page out.old result out.new }
{
    let Some(lock) = handle.take(alloc) else {
        return counted(EMPTY, 0);
    };
    let told = list_mappings(lock.kernel(), space, page, out);
    handle.put(lock);
    told
}

/// Writes the pages that descend from a page of a space to the array, up to its length, and returns how many there are. The refusals are B1
/// and NoMemory, in this order. Nothing is written after a refusal.
#[unsafe(no_mangle)]
pub extern "C" fn l4_lock_descendants(
    alloc: Global,
    handle: &mut LockHandle,
    space: u64,
    page: u32,
    out: &mut [PlaceResult],
) -> CountResult
    ensures kept { handle.new.value ≡ handle.old.value }
    ensures told { TellsDescendants (kernel_of handle.old.value) space page out.old result out.new }
{
    let Some(lock) = handle.take(alloc) else {
        return counted(EMPTY, 0);
    };
    let told = list_descendants(lock.kernel(), space, page, out);
    handle.put(lock);
    told
}

/// Copies the kernel of a locked kernel into an empty handle. Refuses an empty first handle (B1) and a second one that is not empty (B2), or
/// returns NoMemory.
#[unsafe(no_mangle)]
pub extern "C" fn l4_lock_copy(
    alloc: Global,
    handle: &mut LockHandle,
    copy: &mut KernelHandle,
) -> u32
    ensures kept { handle.new.value ≡ handle.old.value }
    ensures copied { Copies (kernel_of handle.old.value) copy.old.value result copy.new.value }
{
    let Some(lock) = handle.take(alloc) else {
        return EMPTY;
    };
    let number = fill(alloc, copy, lock.kernel());
    handle.put(lock);
    number
}
