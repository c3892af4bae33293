//! Queries a kernel, and lists its threads and spaces, one at a time.
ghost use Rattle.std.specs.Prelude.{◌≡◌, None};
ghost use Rattle.l4_c_queries.specs.Asked.{TellsSpace, TellsSize, TellsMapping, TellsPage, TellsReply};
ghost use Rattle.l4_c_queries.specs.Listed.{TellsNextThread, TellsNextSpace};
ghost use Rattle.l4_c_queries.specs.Mapped.{TellsMappings};
ghost use Rattle.l4_c_queries.specs.States.{TellsState};

use l4_c_queries::{
    CountResult, MappedResult, StateResult, ThreadResult, counted, list_mappings, mapping_of,
    next_page, next_space, next_thread, no_mapping, no_size, no_state, page_size_of, reply_of,
    space_of, space_told, state_of, thread_told,
};
use l4_c_values::{
    EMPTY, KernelHandle, MappingResult, PageResult, ReplyResult, SizeResult, SpaceResult, no_page,
    no_reply,
};
use std::alloc::Global;

/// Returns the space of a thread. Refuses an empty handle (B1).
#[unsafe(no_mangle)]
pub extern "C" fn l4_space_of(alloc: Global, handle: &mut KernelHandle, thread: u32) -> SpaceResult
    ensures kept { handle.new.value ≡ handle.old.value }
    ensures told { TellsSpace handle.old.value thread result }
{
    let Some(kernel) = handle.take(alloc) else {
        return space_told(EMPTY, None);
    };
    let told = space_of(&kernel, thread);
    handle.put(kernel);
    told
}

/// Returns the size of the kernel's pages in bytes. Refuses an empty handle (B1).
#[unsafe(no_mangle)]
pub extern "C" fn l4_page_size_of(alloc: Global, handle: &mut KernelHandle) -> SizeResult
    ensures kept { handle.new.value ≡ handle.old.value }
    ensures told { TellsSize handle.old.value result }
{
    let Some(kernel) = handle.take(alloc) else {
        return no_size();
    };
    let told = page_size_of(&kernel);
    handle.put(kernel);
    told
}

/// Returns the mapping of a page of a space. Refuses an empty handle (B1).
#[unsafe(no_mangle)]
pub extern "C" fn l4_mapping_of(
    alloc: Global,
    handle: &mut KernelHandle,
    space: u64,
    page: u32,
) -> MappingResult
    ensures kept { handle.new.value ≡ handle.old.value }
    ensures told { TellsMapping handle.old.value space page result }
{
    let Some(kernel) = handle.take(alloc) else {
        return no_mapping(EMPTY);
    };
    let told = mapping_of(&kernel, space, page);
    handle.put(kernel);
    told
}

/// Returns the lowest present page of a space that is not below `page`. Refuses an empty handle (B1).
#[unsafe(no_mangle)]
pub extern "C" fn l4_next_page(
    alloc: Global,
    handle: &mut KernelHandle,
    space: u64,
    page: u32,
) -> PageResult
    ensures kept { handle.new.value ≡ handle.old.value }
    ensures told { TellsPage handle.old.value space page result }
{
    let Some(kernel) = handle.take(alloc) else {
        return no_page(EMPTY);
    };
    let told = next_page(&kernel, space, page);
    handle.put(kernel);
    told
}

/// Writes the present pages of a space from `page` on, with their mappings, to the array, in rising order and up to its length, and returns
/// how many there are. Refuses an empty handle (B1), and then writes nothing.
#[unsafe(no_mangle)]
pub extern "C" fn l4_mappings(
    alloc: Global,
    handle: &mut KernelHandle,
    space: u64,
    page: u32,
    out: &mut [MappedResult],
) -> CountResult
    ensures kept { handle.new.value ≡ handle.old.value }
    ensures told { TellsMappings handle.old.value space page out.old result out.new }
{
    let Some(kernel) = handle.take(alloc) else {
        return counted(EMPTY, 0);
    };
    let told = list_mappings(&kernel, space, page, out);
    handle.put(kernel);
    told
}

/// Returns the reply of the thread's last call, if that has ended. Refuses an empty handle (B1).
#[unsafe(no_mangle)]
pub extern "C" fn l4_reply_of(alloc: Global, handle: &mut KernelHandle, thread: u32) -> ReplyResult
    ensures kept { handle.new.value ≡ handle.old.value }
    ensures told { TellsReply handle.old.value thread result }
{
    let Some(kernel) = handle.take(alloc) else {
        return no_reply(EMPTY);
    };
    let told = reply_of(&kernel, thread);
    handle.put(kernel);
    told
}

/// Returns the lowest thread number that is not below `thread`. Refuses an empty handle (B1).
#[unsafe(no_mangle)]
pub extern "C" fn l4_next_thread(
    alloc: Global,
    handle: &mut KernelHandle,
    thread: u32,
) -> ThreadResult
    ensures kept { handle.new.value ≡ handle.old.value }
    ensures told { TellsNextThread handle.old.value thread result }
{
    let Some(kernel) = handle.take(alloc) else {
        return thread_told(EMPTY, None);
    };
    let told = next_thread(&kernel, thread);
    handle.put(kernel);
    told
}

/// Returns the lowest space number that is not below `space`. Refuses an empty handle (B1).
#[unsafe(no_mangle)]
pub extern "C" fn l4_next_space(alloc: Global, handle: &mut KernelHandle, space: u64) -> SpaceResult
    ensures kept { handle.new.value ≡ handle.old.value }
    ensures told { TellsNextSpace handle.old.value space result }
{
    let Some(kernel) = handle.take(alloc) else {
        return space_told(EMPTY, None);
    };
    let told = next_space(&kernel, space);
    handle.put(kernel);
    told
}

/// Returns what a thread is doing, if it exists. Refuses an empty handle (B1).
#[unsafe(no_mangle)]
pub extern "C" fn l4_state_of(alloc: Global, handle: &mut KernelHandle, thread: u32) -> StateResult
    ensures kept { handle.new.value ≡ handle.old.value }
    ensures told { TellsState handle.old.value thread result }
{
    let Some(kernel) = handle.take(alloc) else {
        return no_state(EMPTY);
    };
    let told = state_of(&kernel, thread);
    handle.put(kernel);
    told
}
