//! The check of a provenance.
ghost use Rattle.std.specs.Prelude.{◌≡◌, ◌↔◌, ℕ, List, IsTrue, IfOk, IfErr, MatchResult};
ghost use Rattle.l4_ipc.specs.Machine.{Machine};
ghost use Rattle.l4_ipc.specs.Runs.{Run};
ghost use Rattle.l4_record.specs.History.{steps_of, answers_of};
ghost use Rattle.l4_record.specs.Chains.{IsProvenance, origin_of};
ghost use Rattle.l4_record.specs.Replays.{IsBootWith, IsReplayed, IsNotReplayed, StopsIn};
ghost use Rattle.l4_record.specs.Inside.Walking.{IsWalked};
ghost use Rattle.l4_provenance_check.specs.Inside.Following.{Walked};

use crate::passing::{is_at, pass, replay_from};
use l4_ipc::{Kernel, PageSize, Place, Refused};
use l4_record::{ChainLink, History, ReplayFault};
use std::alloc::Global;

/// Returns the place at which the chain begins.
fn origin(links: &[ChainLink], place: Place) -> Place
    ensures { result ≡ origin_of links.now place }
{
    match links {
        [] => place,
        [link, ..] => link.source,
    }
}

/// Replays the whole history on the kernel. Returns whether the links lead over it to the place, and the place is
/// present then.
fn leads(
    kernel: &mut Kernel,
    history: &History,
    place: Place,
    links: &[ChainLink],
) -> Result<bool, ReplayFault>
    ensures yes { IfOk result
        (λ yes. IsTrue yes → Walked kernel.old history.now.entries place links.now) }
    ensures only { IfOk result
        (λ yes. IsWalked kernel.old history.now.entries place links.now → IsTrue yes) }
    ensures run { IfOk result
        (λ _. Run kernel.old (steps_of history.now.entries) (answers_of history.now.entries)
        kernel.new) }
    ensures err { IfErr result (StopsIn kernel.old history.now.entries kernel.new) }
{
    let mut number = 0usize;
    let mut reached = origin(links, place);
    let mut left = links;
    kernel.law_forest();
    for entry in history.entries_from(0) {
        match pass(kernel, number, &entry, reached, left) {
            Ok(Some((next, rest))) => {
                reached = next;
                left = rest;
            }
            Ok(None) => {
                kernel.law_forest();
                if let Err(fault) = replay_from(kernel, history, number + 1) {
                    return Err(fault);
                }
                return Ok(false);
            }
            Err(fault) => return Err(fault),
        }
        kernel.law_forest();
        number += 1;
    }
    let there = kernel.mapping(place.space, place.page).is_some();
    if !there {
        return Ok(false);
    }
    if !left.is_empty() {
        return Ok(false);
    }
    Ok(is_at(reached, place))
}

/// Returns whether the list of links is the provenance of a page in the history of a kernel with this number of
/// frames of this size: the transfers that brought it there, one after another, from a page that sigma0 had at boot.
/// A page that is not present at the end has no provenance.
///
/// The whole history is replayed on a second kernel, also if the links are wrong. Errors: `BadFrames` if the number
/// of frames is not from 1 to 4,096; `NoMemory` if memory runs out, also in a step of the replay where it did not run
/// out in the history; `OtherAnswer` if a step gets any other answer than the history says.
pub fn check_provenance(
    alloc: Global,
    frames: u32,
    size: PageSize,
    history: &History,
    place: Place,
    links: &[ChainLink],
) -> Result<bool, ReplayFault>
    ensures { MatchResult result
        (λ yes. (boot : Machine) × IsBootWith frames size boot × IsReplayed boot history.now.entries
        × (IsTrue yes ↔ IsProvenance boot history.now.entries place links.now))
        (IsNotReplayed frames size history.now.entries) }
{
    let mut kernel = match Kernel::boot(alloc, frames, size) {
        Ok(kernel) => kernel,
        Err(Refused::BadFrames) => return Err(ReplayFault::BadFrames),
        Err(_) => return Err(ReplayFault::NoMemory),
    };
    leads(&mut kernel, history, place, links)
}
