//! Writes how a page got to its place in the history in segments.
ghost use Rattle.std.specs.Prelude.{◌≡◌, ◌≤◌, ℕ, List, None, false, IfOk, IfErr, OnOk};
ghost use Rattle.l4_fpage.specs.Pages.{max_frames};
ghost use Rattle.l4_ipc.specs.Machine.{Machine};
ghost use Rattle.l4_record.specs.History.{Follows};
ghost use Rattle.l4_saved.specs.Inside.Telling.{StopsTold};
ghost use Rattle.l4_saved.specs.Inside.Paging.{page_fault};
ghost use Rattle.l4_saved.specs.Pages.{IsLegalSaved, IsRefused, TellsSegmentsPage};

use crate::entries::SavedEntries;
use crate::following::{HistoryFault, continue_with};
use l4_history::{Presence, ThreadPage, why_page};
use l4_ipc::Kernel;
use l4_provenance::Replayable;
use l4_segments::Joined;
use l4_text::RunFault;
use std::alloc::Global;
use std::io::Write;

/// Executes all entries, up to the first that does not continue a legal history.
fn follow(kernel: &mut Kernel, entries: &SavedEntries<'_>) -> Result<(), HistoryFault>
    ensures ok { IfOk result
        (λ _. Follows kernel.old None entries.now.joined.now.entries kernel.new) }
    ensures err { IfErr result
        (λ fault. (text : List ℕ)
        × StopsTold false kernel.old None entries.now.joined.now.first
        entries.now.joined.now.entries fault text) }
{
    let first = entries.joined.first();
    let mut last = None;
    for number in 0..entries.count() {
        let Some(entry) = entries.get(number) else {
            unreachable!()
        };
        if let Err(fault) = continue_with(kernel, last, first + number, &entry) {
            return Err(fault);
        }
        last = Some(entry.seat);
    }
    Ok(())
}

/// Executes all entries on a new kernel, to see whether they are a legal history.
fn check_legal(alloc: Global, entries: &SavedEntries<'_>) -> Result<(), HistoryFault>
    ensures ok { OnOk result (IsLegalSaved entries.now.joined.now) }
    ensures err { IfErr result (IsRefused entries.now.joined.now) }
{
    let joined = entries.joined;
    let Ok(mut kernel) = Kernel::boot(alloc, joined.frames(), joined.size()) else {
        return Err(HistoryFault::Memory);
    };
    follow(&mut kernel, entries)
}

/// Returns the fault of a page about which not all was written.
fn page_fault(fault: RunFault) -> HistoryFault
    ensures { result ≡ page_fault fault }
{
    match fault {
        RunFault::Memory => HistoryFault::Memory,
        RunFault::Read | RunFault::Write => HistoryFault::Write,
    }
}

/// Writes how a page of a thread's space got there in the history in segments, as `why` of `l4_history` does for a script. Returns whether
/// the page is present at the end.
///
/// The history is executed on a separate kernel first. Returns `NotNext` or `OtherAnswer` if the entries are not a legal history from boot
/// on, and the number of the first entry that does not continue one; nothing was written. Returns `Memory` if an allocation failed; nothing
/// was written. Returns `Write` if a write failed; a prefix of the text was then written, or nothing.
pub fn segments_why<W: Write>(
    alloc: Global,
    joined: &Joined<'_>,
    asked: ThreadPage,
    writer: &mut W,
) -> Result<Presence, HistoryFault>
    ensures { TellsSegmentsPage asked joined.now
        (W.contents writer.old) (W.contents writer.new) result }
{
    let entries = SavedEntries { joined };
    if let Err(fault) = check_legal(alloc, &entries) {
        return Err(fault);
    }
    match why_page(
        alloc,
        joined.frames(),
        joined.size(),
        &entries,
        asked,
        writer,
    ) {
        Ok(found) => Ok(found),
        Err(fault) => Err(page_fault(fault)),
    }
}
