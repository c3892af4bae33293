//! Searches the orders of litmus tests.
ghost use Rattle.std.specs.Prelude.{◌≡◌, MatchResult, true, false};
ghost use Rattle.l4_outcomes.specs.Searching.{HasFrames, HasNoFrames, IsSearched, IsUnsearched};

use crate::faults::{SearchResult, failure_told, fault_told, without_line};
use crate::searched::Searched;
use l4_fpage::PageSize;
use l4_orders::{all_orders, read_plan};
use l4_refusals::number_of;
use std::alloc::Global;

/// Returns whether a machine can have this number of frames.
fn has_frames(frames: u32) -> bool
    ensures yes { result ≡ true → HasFrames frames }
    ensures no { result ≡ false → HasNoFrames frames }
{
    frames >= 1 && frames <= 4096
}

/// Reads a litmus test, and searches all its orders on a new kernel with this number of frames of this size. It visits at most `most`
/// states.
///
/// The refusals are K6, those of the text (S1 to S5, O1 to O8), NoMemory and L1, in this order. NoMemory may come before those of the text.
pub fn search(
    alloc: Global,
    frames: u32,
    size: PageSize,
    text: &[u8],
    most: u64,
) -> Result<Searched, SearchResult>
    ensures { MatchResult result (IsSearched frames size most text.now)
        (IsUnsearched frames size text.now) }
{
    if !has_frames(frames) {
        return Err(without_line(number_of(b"K6")));
    }
    let mut rest = text;
    let plan = match read_plan(alloc, size, &mut rest) {
        Ok(plan) => plan,
        Err(fault) => return Err(fault_told(fault)),
    };
    match all_orders(alloc, frames, size, &plan, most) {
        Ok(explored) => Ok(Searched { plan, explored }),
        Err(failure) => Err(failure_told(failure)),
    }
}
