//! A history that was handed out, and the receivers of such histories.
ghost use Rattle.std.specs.Prelude.{◌≡◌, ◌∷◌, [], true, false, Bool, List};
ghost use Rattle.l4_record.specs.declared.segments.Segment.{Segment as ASegment};
ghost use Rattle.l4_record.specs.Segments.{KeepsAll};

use crate::history::History;

/// A part of the history of a recorded kernel, which was handed out. The segments of a kernel in their order, followed by the entries that
/// it keeps, are its history since boot.
#[derive(Drop)]
pub struct Segment {
    /// The number of the first entry since boot, from 0.
    pub first: usize,
    /// The entries.
    pub history: History,
}

/// Receives the segments of a history, each as it is handed out.
pub trait SegmentSink {
    /// That it has kept these segments since it was the first one.
    ghost has_kept: { Self → Self → List ASegment → Type 0 };

    /// Whether it takes segments.
    ghost takes: { Self → Bool };

    /// Returns whether it takes segments. If it takes none, none is handed out.
    fn takes_segments(&self) -> bool
        ensures { result ≡ takes self.now };
    /// Keeps a segment. Returns whether it could. If it could not, it has still kept the segments before it.
    fn keep(&mut self, segment: Segment) -> bool
        ensures kept { result ≡ true → KeepsAll has_kept self.old self.new (segment ∷ []) }
        ensures not { result ≡ false → KeepsAll has_kept self.old self.new [] }
        ensures takes { takes self.new ≡ takes self.old };
}

/// Takes no segments, so the whole history stays with the kernel.
#[derive(Clone, Copy)]
pub struct NoSegments;

impl SegmentSink for NoSegments {
    ghost has_kept = { λ first now segments. segments ≡ [] };

    ghost takes = { λ sink. false };

    fn takes_segments(&self) -> bool {
        false
    }

    fn keep(&mut self, segment: Segment) -> bool {
        false
    }
}
