//! Finds the step that removed a page.
ghost use Rattle.std.specs.Prelude.{◌≡◌, ◌↔◌, IsTrue, length, IfOk, IfErr, MatchResult};
ghost use Rattle.l4_ipc.specs.Machine.{Machine};
ghost use Rattle.l4_mapdb.specs.Mappings.{IsPresent};
ghost use Rattle.l4_provenance.specs.Removals.{IsRemoval};
ghost use Rattle.l4_provenance.specs.Inside.Watching.{Watched, first_removal, next_removal};
ghost use Rattle.l4_record.specs.Replays.{IsBootWith, IsNotReplayed, StopsIn};

use crate::histories::Replayable;
use crate::replaying::repeat_entry;
use l4_ipc::{Kernel, PageSize, Place, Refused};
use l4_record::ReplayFault;
use std::alloc::Global;

/// Whether a page is present at the end of a history, and which step removed it.
#[derive(Clone, Copy, PartialEq, Eq, Debug)]
pub enum Removal {
    /// The page is present.
    Present,
    /// The page was never present.
    Never,
    /// The step of the entry with this number removed the page. It is not present since.
    By(usize),
}

/// Returns whether a page is present.
fn is_present(kernel: &Kernel, place: Place) -> bool
    ensures { IsTrue result ↔ IsPresent kernel.now.mappings place }
{
    kernel.mapping(place.space, place.page).is_some()
}

/// Returns what is known before the first entry, by whether the page is present.
fn first_removal(present: bool) -> Removal
    ensures { result ≡ first_removal present }
{
    if present {
        Removal::Present
    } else {
        Removal::Never
    }
}

/// Returns what is known after the entry with this number, by whether the page is present after it.
fn next_removal(number: usize, present: bool, last: Removal) -> Removal
    ensures { result ≡ next_removal number present last }
{
    if present {
        return Removal::Present;
    }
    match last {
        Removal::Present => Removal::By(number),
        Removal::Never => Removal::Never,
        Removal::By(earlier) => Removal::By(earlier),
    }
}

/// Replays a history, and watches the page.
fn watch<H: Replayable>(
    kernel: &mut Kernel,
    history: &H,
    place: Place,
) -> Result<Removal, ReplayFault>
    ensures ok { IfOk result (Watched kernel.old (H.entries history.now)
        (length (H.entries history.now)) kernel.new place) }
    ensures err { IfErr result (StopsIn kernel.old (H.entries history.now) kernel.new) }
{
    let mut removal = first_removal(is_present(kernel, place));
    kernel.law_forest();
    for number in 0..history.len() {
        let Some(entry) = history.get(number) else {
            unreachable!()
        };
        if let Err(fault) = repeat_entry(kernel, number, &entry) {
            return Err(fault);
        }
        kernel.law_forest();
        removal = next_removal(number, is_present(kernel, place), removal);
    }
    Ok(removal)
}

/// Returns which step removed a page, in the history of a kernel with this number of frames of this size: the last one before which the page
/// was present and after which it was not. Returns `Never` if the page was never present, and `Present` if it is at the end.
///
/// The history is replayed once on a second kernel. Errors: those of `provenance`.
pub fn last_removal<H: Replayable>(
    alloc: Global,
    frames: u32,
    size: PageSize,
    history: &H,
    place: Place,
) -> Result<Removal, ReplayFault>
    ensures { MatchResult result
        (λ found. (boot : Machine) × IsBootWith frames size boot
        × IsRemoval boot (H.entries history.now) place found)
        (IsNotReplayed frames size (H.entries history.now)) }
{
    let mut kernel = match Kernel::boot(alloc, frames, size) {
        Ok(kernel) => kernel,
        Err(Refused::BadFrames) => return Err(ReplayFault::BadFrames),
        Err(_) => return Err(ReplayFault::NoMemory),
    };
    watch(&mut kernel, history, place)
}
