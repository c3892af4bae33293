//! Writes segments one after another.
ghost use Rattle.std.specs.Prelude.{◌≡◌, None, true};
ghost use Rattle.l4_segments.specs.Writing.{HasWritten};
ghost use Rattle.l4_segments.specs.Inside.Writing.{PutsSegment};

use crate::files::write_segment;
use l4_fpage::PageSize;
use l4_record::{Segment, SegmentSink};
use l4_text::write_out;
use std::alloc::Global;
use std::io::Write;

/// Why a segment was not written.
#[derive(Clone, Copy)]
pub enum KeepFault {
    /// An allocation failed.
    Memory,
    /// A write failed.
    Write,
}

/// Keeps the segments of a kernel by writing their files, one after another. After a fault, it writes nothing more.
#[derive(Drop)]
pub struct SegmentWriter<W> {
    alloc: Global,
    frames: u32,
    size: PageSize,
    writer: W,
    fault: Option<KeepFault>,
}

impl<W: Write> SegmentWriter<W> {
    /// Creates a writer of segments of a kernel with these frames and with pages of this size.
    pub fn new(alloc: Global, frames: u32, size: PageSize, writer: W) -> SegmentWriter<W>
        ensures kernel { (result.frames ≡ frames) × (result.size ≡ size) }
        ensures writer { (result.writer ≡ writer) × (result.fault ≡ None) }
    {
        SegmentWriter {
            alloc,
            frames,
            size,
            writer,
            fault: None,
        }
    }

    /// Returns why a segment was not written, if one was not.
    pub fn fault(&self) -> Option<KeepFault>
        ensures { result ≡ self.now.fault }
    {
        self.fault
    }

    /// Writes the file of a segment.
    fn put(&mut self, segment: &Segment) -> Option<KeepFault>
        ensures { PutsSegment W.contents self.old self.new segment.now result }
    {
        let Ok(file) = write_segment(self.alloc, self.frames, self.size, segment) else {
            return Some(KeepFault::Memory);
        };
        match write_out(&mut self.writer, file.as_slice()) {
            Ok(()) => None,
            Err(_) => Some(KeepFault::Write),
        }
    }
}

impl<W: Write> SegmentSink for SegmentWriter<W> {
    ghost has_kept = { HasWritten W.contents };

    ghost takes = { λ sink. true };

    fn takes_segments(&self) -> bool {
        true
    }

    fn keep(&mut self, segment: Segment) -> bool {
        if self.fault.is_some() {
            return false;
        }
        self.fault = self.put(&segment);
        self.fault.is_none()
    }
}
