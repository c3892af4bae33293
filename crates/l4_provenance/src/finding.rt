//! The provenance of a page.
ghost use Rattle.std.specs.Prelude.{◌≡◌, ◌≤◌, length, MatchOption, MatchResult};
ghost use Rattle.l4_ipc.specs.Machine.{Machine};
ghost use Rattle.l4_record.specs.Chains.{IsProvenance, IsAbsent};
ghost use Rattle.l4_record.specs.Replays.{IsBootWith, IsNotReplayed};
ghost use Rattle.l4_provenance.specs.Inside.Arrivals.{Arrived};

use crate::histories::Replayable;
use crate::replaying::{Arrival, last_arrival};
use l4_ipc::{Kernel, PageSize, Place, Refused};
use l4_record::{ChainLink, ReplayFault};
use std::alloc::Global;

/// Executes this number of entries from the start of a history on a new kernel. Returns how the place got the mapping that it then has.
fn arrival<H: Replayable>(
    alloc: Global,
    frames: u32,
    size: PageSize,
    history: &H,
    count: usize,
    place: Place,
) -> Result<Arrival, ReplayFault>
    requires { count ≤ length (H.entries history.now) }
    ensures { MatchResult result
        (λ a. (boot : Machine) × IsBootWith frames size boot
        × ((now : Machine) × Arrived boot (H.entries history.now) count place now a))
        (IsNotReplayed frames size (H.entries history.now)) }
{
    let mut kernel = match Kernel::boot(alloc, frames, size) {
        Ok(kernel) => kernel,
        Err(Refused::BadFrames) => return Err(ReplayFault::BadFrames),
        Err(_) => return Err(ReplayFault::NoMemory),
    };
    last_arrival(&mut kernel, history, count, place)
}

/// Returns the provenance of a page in the history of a kernel with this number of frames of this size: the transfers
/// that brought it there, one after another, from a page that sigma0 had at boot. Returns `None` if the page is not
/// present at the end.
///
/// The history is replayed once on a second kernel, and once more up to each link. Errors: `BadFrames` if the number
/// of frames is not from 1 to 4,096; `NoMemory` if memory runs out, also in a step of the replay where it did not run
/// out in the history; `OtherAnswer` if a step gets any other answer than the history says.
pub fn provenance<H: Replayable>(
    alloc: Global,
    frames: u32,
    size: PageSize,
    history: &H,
    place: Place,
) -> Result<Option<Vec<ChainLink>>, ReplayFault>
    ensures { MatchResult result
        (λ found. (boot : Machine) × IsBootWith frames size boot
        × MatchOption found (IsAbsent boot (H.entries history.now) place)
        (λ links. IsProvenance boot (H.entries history.now) place links.items))
        (IsNotReplayed frames size (H.entries history.now)) }
{
    let mut links = Vec::new(alloc);
    let mut count = history.len();
    let mut reached = place;
    loop {
        let came = match arrival(alloc, frames, size, history, count, reached) {
            Ok(came) => came,
            Err(fault) => return Err(fault),
        };
        match came {
            Arrival::Absent => return Ok(None),
            Arrival::AtBoot => {
                links.reverse();
                return Ok(Some(links));
            }
            Arrival::By(link) => {
                count = link.entry;
                reached = link.source;
                if let Err(_) = links.push(link) {
                    return Err(ReplayFault::NoMemory);
                }
            }
        }
    }
}
