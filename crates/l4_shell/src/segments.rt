//! Hands out the history of a script between its lines.
ghost use Rattle.std.specs.Prelude.{◌≡◌, IsTrue, false, true};
ghost use Rattle.l4_shell.specs.Inside.Scripts.{HandsOn, PassesOn, LosesSegment, EndsSegments, has_lost};

use l4_record::{SeatedKernel, SegmentSink};
use l4_text::RunFault;

/// The least number of kept entries that are handed out after a line. A line appends fewer than 40,000, so the history never fills up.
const SEGMENT_ENTRIES: usize = 100_000;

/// Hands out the entries that are kept. Returns whether the sink kept them.
fn hand_out<K: SegmentSink>(kernel: &mut SeatedKernel, segments: &mut K) -> bool
    ensures kept { IsTrue result
        → HandsOn K.has_kept segments.old segments.new kernel.old kernel.new }
    ensures lost { result ≡ false
        → LosesSegment K.has_kept segments.old segments.new kernel.old kernel.new }
    ensures takes { K.takes segments.new ≡ K.takes segments.old }
{
    let Some(segment) = kernel.hand_out() else {
        return false;
    };
    segments.keep(segment)
}

/// Hands out the entries that are kept if they are enough for a segment, and if the sink takes segments. Returns false if the sink could not
/// keep them.
#[inline(always)]
pub(crate) fn hand_out_between_lines<K: SegmentSink>(
    kernel: &mut SeatedKernel,
    segments: &mut K,
) -> bool
    ensures kept { IsTrue result
        → PassesOn (K.takes segments.old) K.has_kept segments.old segments.new kernel.old
        kernel.new }
    ensures lost { result ≡ false
        → (K.takes segments.old ≡ true)
        × LosesSegment K.has_kept segments.old segments.new kernel.old kernel.new }
    ensures takes { K.takes segments.new ≡ K.takes segments.old }
{
    if !segments.takes_segments() {
        return true;
    }
    if kernel.history().len() < SEGMENT_ENTRIES {
        return true;
    }
    hand_out(kernel, segments)
}

/// Returns whether a segment could not be kept.
fn has_lost(answered: &Result<u64, RunFault>) -> bool
    ensures { result ≡ has_lost answered.now }
{
    match answered {
        Ok(_) => false,
        Err(RunFault::Write) => true,
        Err(_) => false,
    }
}

/// Hands out the entries that are kept at the end of a script, if the sink takes segments and has kept all of them so far. Returns how the
/// script ended.
pub(crate) fn hand_out_rest<K: SegmentSink>(
    answered: Result<u64, RunFault>,
    kernel: &mut SeatedKernel,
    segments: &mut K,
) -> Result<u64, RunFault>
    ensures { EndsSegments (K.takes segments.old) K.has_kept segments.old segments.new kernel.old
        kernel.new answered result }
{
    if has_lost(&answered) {
        return answered;
    }
    if !segments.takes_segments() {
        return answered;
    }
    if hand_out(kernel, segments) {
        return answered;
    }
    Err(RunFault::Write)
}
