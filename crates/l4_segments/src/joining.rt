//! Segments that follow each other.
ghost use Rattle.std.specs.Prelude.{◌≡◌, ◌↔◌, IsTrue, IfOk, IfErr};
ghost use Rattle.l4_segments.specs.Joining.{Fit, FitsNext, Misfits, joined, all_entries};

use crate::saved::SavedSegment;
use l4_fpage::PageSize;
use std::marker::Model;

/// What does not fit in a segment.
#[derive(Clone, Copy, Debug, PartialEq, Eq)]
pub enum MisfitKind {
    /// The kernel had another number of frames.
    Frames,
    /// The pages of the kernel had another size.
    Pages,
    /// The first entry has another number than the expected one.
    Number,
}

/// The first place in a list of segments at which one does not fit those before it.
#[derive(Clone, Copy, Debug, PartialEq, Eq)]
pub struct Misfit {
    /// The index of the segment.
    pub place: usize,
    /// What does not fit.
    pub kind: MisfitKind,
    /// The number that the first entry of the segment should have.
    pub expected: usize,
}

/// Segments that follow each other, as one history. Contracts see the frames and the page size, the number of the first entry, and all
/// entries.
#[derive(Drop)]
pub struct Joined<'a> {
    frames: u32,
    size: PageSize,
    first: usize,
    segments: &'a [SavedSegment],
}

impl<'a> Model for Joined<'a> {
    ghost use Rattle.l4_segments.specs.Joining.{JoinedEntries, joined, Fit};

    ghost Value = { JoinedEntries };

    ghost view = { λ j. joined j.frames j.size j.first j.segments.now };

    ghost invariant = { λ j. Fit j.frames j.size j.first j.segments.now };
}

impl<'a> Joined<'a> {
    /// Returns the number of frames at boot.
    pub fn frames(&self) -> u32
        ensures { result ≡ self.now.frames }
    {
        self.frames
    }

    /// Returns the page size.
    pub fn size(&self) -> PageSize
        ensures { result ≡ self.now.size }
    {
        self.size
    }

    /// Returns the number of the first entry.
    pub fn first(&self) -> usize
        ensures { result ≡ self.now.first }
    {
        self.first
    }

    /// Returns the segments, whose entries are all entries in their order. Each begins where the one before it ended.
    pub fn segments(&self) -> &[SavedSegment]
        ensures entries { all_entries result.now ≡ self.now.entries }
        ensures fit { Fit self.now.frames self.now.size self.now.first result.now }
    {
        self.segments
    }
}

/// Returns whether two sizes are the same.
fn is_size(size: PageSize, other: PageSize) -> bool
    ensures { IsTrue result ↔ (size ≡ other) }
{
    size == other
}

/// Returns what does not fit in the next segment of a kernel with these frames and with pages of this size, whose first entry should have
/// this number.
fn misfit_of(
    segment: &SavedSegment,
    frames: u32,
    size: PageSize,
    expected: usize,
) -> Option<MisfitKind>
    ensures { FitsNext frames size expected segment.now result }
{
    let heading = segment.heading();
    if heading.frames != frames {
        return Some(MisfitKind::Frames);
    }
    if !is_size(heading.size, size) {
        return Some(MisfitKind::Pages);
    }
    if heading.first != expected {
        return Some(MisfitKind::Number);
    }
    None
}

/// Joins segments of a kernel with these frames and with pages of this size. The first entry has this number.
///
/// Returns the first segment that does not fit those before it.
pub fn join(
    frames: u32,
    size: PageSize,
    first: usize,
    segments: &[SavedSegment],
) -> Result<Joined<'_>, Misfit>
    ensures ok { IfOk result
        (λ j. (j ≡ joined frames size first segments.now) × Fit frames size first segments.now) }
    ensures err { IfErr result (Misfits frames size first segments.now) }
{
    let mut expected = first;
    for place in 0..segments.len() {
        let segment = &segments[place];
        if let Some(kind) = misfit_of(segment, frames, size, expected) {
            return Err(Misfit {
                place,
                kind,
                expected,
            });
        }
        segment.law_segment();
        expected += segment.len();
    }
    Ok(Joined {
        frames,
        size,
        first,
        segments,
    })
}
