//! Segments of the history of a locked kernel, for C.
ghost use Rattle.std.specs.Prelude.{◌≡◌, None};
ghost use Rattle.l4_c_locks.specs.Segmented.{HandsOutTo, HandsOutSegment, TellsFirst, TellsSegmentLength, TellsSegmentEntry};
ghost use Rattle.l4_c_queries.specs.Files.{TellsFile};

use l4_c_queries::{CountResult, counted, segment_entry, write_file};
use l4_c_values::{
    EMPTY, EntryResult, HELD, LockHandle, NO_MEMORY, SegmentHandle, TOO_LONG, no_entry,
};
use l4_record::{History, Segment};
use l4_seated_lock::{HandedSegment, SeatedLock};
use std::alloc::Global;

/// Hands out the entries that the locked kernel keeps, into an empty handle.
fn hand_out(alloc: Global, lock: &mut SeatedLock, handle: &mut SegmentHandle) -> u32
    ensures { HandsOutTo lock.old handle.old.value result lock.new handle.new.value }
{
    if let Some(held) = handle.take(alloc) {
        handle.put(held);
        return HELD;
    }
    let (frames, size) = (lock.frames(), lock.kernel().page_size());
    let segment = Segment {
        first: 0,
        history: History::new(alloc),
    };
    let empty = HandedSegment {
        frames,
        size,
        segment,
    };
    let Ok(mut room) = Box::new(alloc, empty) else {
        return NO_MEMORY;
    };
    let Some(segment) = lock.hand_out() else {
        return TOO_LONG;
    };
    *room = HandedSegment {
        frames,
        size,
        segment,
    };
    handle.put(room);
    0
}

/// Hands out the entries that the locked kernel keeps, into an empty handle. The refusals are B1, B2, NoMemory and B7, in this order.
#[unsafe(no_mangle)]
pub extern "C" fn l4_lock_hand_out(
    alloc: Global,
    handle: &mut LockHandle,
    segment: &mut SegmentHandle,
) -> u32
    ensures { HandsOutSegment handle.old.value segment.old.value result handle.new.value
        segment.new.value }
{
    let Some(mut lock) = handle.take(alloc) else {
        return EMPTY;
    };
    let handed = hand_out(alloc, &mut lock, segment);
    handle.put(lock);
    handed
}

/// Frees a segment, and leaves the handle empty.
#[unsafe(no_mangle)]
pub extern "C" fn l4_segment_free(alloc: Global, handle: &mut SegmentHandle)
    ensures { handle.new.value ≡ None }
{
    let _segment = handle.take(alloc);
}

/// Returns the number of the segment's first entry since boot. Refuses an empty handle (B1).
#[unsafe(no_mangle)]
pub extern "C" fn l4_segment_first(alloc: Global, handle: &mut SegmentHandle) -> CountResult
    ensures kept { handle.new.value ≡ handle.old.value }
    ensures told { TellsFirst handle.old.value result }
{
    let Some(handed) = handle.take(alloc) else {
        return counted(EMPTY, 0);
    };
    let count = handed.segment.first as u64;
    handle.put(handed);
    counted(0, count)
}

/// Returns the number of entries of the segment. Refuses an empty handle (B1).
#[unsafe(no_mangle)]
pub extern "C" fn l4_segment_length(alloc: Global, handle: &mut SegmentHandle) -> CountResult
    ensures kept { handle.new.value ≡ handle.old.value }
    ensures told { TellsSegmentLength handle.old.value result }
{
    let Some(handed) = handle.take(alloc) else {
        return counted(EMPTY, 0);
    };
    let count = handed.segment.history.len() as u64;
    handle.put(handed);
    counted(0, count)
}

/// Returns the segment's entry with this number since boot. Refuses an empty handle (B1).
#[unsafe(no_mangle)]
pub extern "C" fn l4_segment_entry(
    alloc: Global,
    handle: &mut SegmentHandle,
    number: usize,
) -> EntryResult
    ensures kept { handle.new.value ≡ handle.old.value }
    ensures told { TellsSegmentEntry handle.old.value number result }
{
    let Some(handed) = handle.take(alloc) else {
        return no_entry(EMPTY);
    };
    let told = segment_entry(&handed.segment, number);
    handle.put(handed);
    told
}

/// Writes the file of the segment to the array, up to its length, and returns how many bytes the file has. The refusals are B1 and NoMemory,
/// in this order. Nothing is written after a refusal.
#[unsafe(no_mangle)]
pub extern "C" fn l4_segment_bytes(
    alloc: Global,
    handle: &mut SegmentHandle,
    out: &mut [u8],
) -> CountResult
    ensures kept { handle.new.value ≡ handle.old.value }
    ensures told { TellsFile handle.old.value out.old result out.new }
{
    let Some(handed) = handle.take(alloc) else {
        return counted(EMPTY, 0);
    };
    let told = write_file(alloc, &handed, out);
    handle.put(handed);
    told
}
