//! What a kernel is asked: its threads, spaces, mappings and replies.
ghost use Rattle.std.specs.Prelude.{◌≡◌, None, Some, MatchOption};
ghost use Rattle.l4_threads.specs.Threads.{space_of};
ghost use Rattle.l4_mapdb.specs.Mappings.{shown};
ghost use Rattle.l4_forest.specs.Places.{NonePresentFrom, IsNextPresent};
ghost use Rattle.l4_c_queries.specs.Asked.{TellsSpace, TellsSize, TellsMapping, TellsPage, TellsReply, space_result, no_mapping_result, mapping_result};
ghost use Rattle.l4_c_queries.specs.Listed.{TellsNextThread, TellsNextSpace, thread_result};

use l4_c_values::{
    EMPTY, MappingResult, PageResult, ReplyResult, SizeResult, SpaceResult, bytes_of, no_page,
    no_reply, page_told, reply_told,
};
use l4_ipc::{Kernel, Mapping};

/// The number of a thread; `there` is 0 if there is none.
#[repr(C)]
#[derive(Clone, Copy)]
pub struct ThreadResult {
    pub refusal: u32,
    pub there: u32,
    pub thread: u32,
}

/// Returns the result for a space that may have been found, with this refusal (0 for none).
pub fn space_told(refusal: u32, found: Option<u64>) -> SpaceResult
    ensures { result ≡ space_result refusal found }
{
    match found {
        Some(space) => SpaceResult {
            refusal,
            there: 1,
            space,
        },
        None => SpaceResult {
            refusal,
            there: 0,
            space: 0,
        },
    }
}

/// Returns the space of a thread.
pub fn space_of(kernel: &Kernel, thread: u32) -> SpaceResult
    ensures { TellsSpace (Some kernel.now) thread result }
{
    let found = kernel.space_of(thread);
    space_told(0, found)
}

/// Returns the result without a size, for an empty handle.
pub fn no_size() -> SizeResult
    ensures { TellsSize None result }
{
    SizeResult {
        refusal: EMPTY,
        page_bytes: 0,
    }
}

/// Returns the size of the kernel's pages in bytes.
pub fn page_size_of(kernel: &Kernel) -> SizeResult
    ensures { TellsSize (Some kernel.now) result }
{
    SizeResult {
        refusal: 0,
        page_bytes: bytes_of(kernel.page_size()),
    }
}

/// Returns the result for a mapping.
fn mapping_there(mapping: &Mapping) -> MappingResult
    ensures { result ≡ mapping_result (Some mapping.now) }
{
    let (has_parent, parent_page, parent_space) = match mapping.parent {
        Some(place) => (1, place.page, place.space),
        None => (0, 0, 0),
    };
    MappingResult {
        refusal: 0,
        there: 1,
        frame: mapping.frame,
        rights: u32::from(mapping.rights.bits()),
        has_parent,
        parent_page,
        parent_space,
        reserved: [0; 2],
    }
}

/// Returns a result with this refusal and no mapping.
pub fn no_mapping(refusal: u32) -> MappingResult
    ensures { result ≡ no_mapping_result refusal }
{
    MappingResult {
        refusal,
        there: 0,
        frame: 0,
        rights: 0,
        has_parent: 0,
        parent_page: 0,
        parent_space: 0,
        reserved: [0; 2],
    }
}

/// Returns the mapping of a page of a space.
pub fn mapping_of(kernel: &Kernel, space: u64, page: u32) -> MappingResult
    ensures { TellsMapping (Some kernel.now) space page result }
{
    match kernel.mapping(space, page) {
        Some(mapping) => mapping_there(&mapping),
        None => no_mapping(0),
    }
}

/// Returns the lowest present page of a space that is not below `page`.
pub fn next_page(kernel: &Kernel, space: u64, page: u32) -> PageResult
    ensures { TellsPage (Some kernel.now) space page result }
{
    match kernel.next_page(space, page) {
        Some(page) => page_told(page),
        None => no_page(0),
    }
}

/// Returns the reply of the thread's last call, if that has ended.
pub fn reply_of(kernel: &Kernel, thread: u32) -> ReplyResult
    ensures { TellsReply (Some kernel.now) thread result }
{
    match kernel.reply(thread) {
        Some(reply) => reply_told(reply),
        None => no_reply(0),
    }
}

/// Returns the result for a thread that may have been found, with this refusal (0 for none).
pub fn thread_told(refusal: u32, found: Option<u32>) -> ThreadResult
    ensures { result ≡ thread_result refusal found }
{
    match found {
        Some(thread) => ThreadResult {
            refusal,
            there: 1,
            thread,
        },
        None => ThreadResult {
            refusal,
            there: 0,
            thread: 0,
        },
    }
}

/// Returns the lowest thread number that is not below `thread`.
pub fn next_thread(kernel: &Kernel, thread: u32) -> ThreadResult
    ensures { TellsNextThread (Some kernel.now) thread result }
{
    let found = kernel.next_thread(thread);
    thread_told(0, found)
}

/// Returns the lowest space number that is not below `space`.
pub fn next_space(kernel: &Kernel, space: u64) -> SpaceResult
    ensures { TellsNextSpace (Some kernel.now) space result }
{
    let found = kernel.next_space(space);
    space_told(0, found)
}
