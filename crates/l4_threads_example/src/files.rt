//! The files of segments.

use l4_ipc::PageSize;
use l4_segments::{FaultKind, SavedSegment, Segment, join, read_segment, write_segment};
use std::alloc::{AllocError, Global};

/// Writes the file of a segment and reads it. Returns `None` if it is refused.
fn read_back(
    alloc: Global,
    frames: u32,
    size: PageSize,
    segment: &Segment,
) -> Result<Option<SavedSegment>, AllocError> {
    let file = write_segment(alloc, frames, size, segment)?;
    match read_segment(alloc, file.as_slice()) {
        Ok(saved) => Ok(Some(saved)),
        Err(fault) => match fault.kind {
            FaultKind::NoMemory => Err(AllocError),
            _ => Ok(None),
        },
    }
}

/// Returns whether each segment is read back from its file, and the segments that were read fit.
pub fn are_read_back(
    alloc: Global,
    frames: u32,
    size: PageSize,
    segments: &[Segment],
) -> Result<bool, AllocError> {
    let mut read = Vec::new(alloc);
    for segment in segments {
        let Some(saved) = read_back(alloc, frames, size, segment)? else {
            return Ok(false);
        };
        if saved.len() != segment.history.len() {
            return Ok(false);
        }
        read.push(saved)?;
    }
    Ok(join(frames, size, 0, read.as_slice()).is_ok())
}
