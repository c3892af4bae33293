//! Segments of a history that a locked kernel handed out.

use l4_ipc::PageSize;
use l4_record::Segment;

/// A segment, with the number of frames at boot and the page size of the kernel that it is of.
#[derive(Drop)]
pub struct HandedSegment {
    pub frames: u32,
    pub size: PageSize,
    pub segment: Segment,
}
