//! Replays a history on a second kernel, and finds what was moved to a place.
ghost use Rattle.std.specs.Prelude.{◌≡◌, ◌≤◌, ◌↔◌, Ok, Err, IsTrue, length, IfOk, IfErr};
ghost use Rattle.l4_record.specs.Replays.{RanOut, FailsAt, StopsIn};
ghost use Rattle.l4_ipc.specs.Steps.{Steps};
ghost use Rattle.l4_ipc.specs.Runs.{Run};
ghost use Rattle.l4_record.specs.History.{steps_of, answers_of};
ghost use Rattle.l4_provenance.specs.Inside.Arrivals.{Brought, newer, Arrived};

use crate::histories::Replayable;
use crate::writing::link_to;
use l4_ipc::{Kernel, Lower, Outcome, Place, Refused};
use l4_record::{ChainLink, Entry, ReplayFault};

/// How a place got its mapping.
#[derive(Clone, Copy)]
pub enum Arrival {
    /// It is not present.
    Absent,
    /// Nothing was moved to it since boot.
    AtBoot,
    /// This link moved it there. Nothing was moved there since.
    By(ChainLink),
}

/// Returns whether a step with this refusal ran out of memory.
fn ran_out(refused: Refused) -> bool
    ensures { IsTrue result ↔ RanOut (Err refused) }
{
    let Refused::Lower(lower) = refused else {
        return false;
    };
    match lower {
        Lower::NoMemory => true,
        _ => false,
    }
}

/// Executes the step of the entry with this number again.
///
/// Errors: `NoMemory` if memory runs out in the step, and not in the history's; `OtherAnswer` if the step gets any other answer than the
/// history says. The step has been executed then, with its own answer.
pub fn repeat_entry(kernel: &mut Kernel, number: usize, entry: &Entry) -> Result<(), ReplayFault>
    ensures ok { IfOk result
        (λ _. Steps kernel.old entry.now.step (Ok entry.now.answer) kernel.new) }
    ensures err { IfErr result (FailsAt number kernel.old entry.now kernel.new) }
{
    match kernel.step(&entry.step) {
        Ok(answer) => {
            if answer == entry.answer {
                return Ok(());
            }
            match answer.outcome {
                Outcome::NoMemory => Err(ReplayFault::NoMemory),
                _ => Err(ReplayFault::OtherAnswer(number)),
            }
        }
        Err(refused) => {
            if ran_out(refused) {
                return Err(ReplayFault::NoMemory);
            }
            Err(ReplayFault::OtherAnswer(number))
        }
    }
}

/// Returns the link of the entry to the place, if the entry is a delivered transfer that moves a page there.
fn delivered_link(kernel: &Kernel, number: usize, entry: &Entry, place: Place) -> Option<ChainLink>
    ensures { Brought number kernel.now entry.now place result }
{
    if entry.answer.outcome != Outcome::Done {
        return None;
    }
    link_to(kernel, number, &entry.step, place)
}

/// Returns the newer of two links.
fn newer_of(link: Option<ChainLink>, last: Option<ChainLink>) -> Option<ChainLink>
    ensures { result ≡ newer link last }
{
    match link {
        Some(link) => Some(link),
        None => last,
    }
}

/// Replays this number of entries from the start of the history. Returns how the place got the mapping that it then
/// has.
pub fn last_arrival<H: Replayable>(
    kernel: &mut Kernel,
    history: &H,
    count: usize,
    place: Place,
) -> Result<Arrival, ReplayFault>
    requires { count ≤ length (H.entries history.now) }
    ensures ok { IfOk result (Arrived kernel.old (H.entries history.now) count place kernel.new) }
    ensures err { IfErr result (StopsIn kernel.old (H.entries history.now) kernel.new) }
{
    let mut last = None;
    kernel.law_forest();
    for number in 0..count {
        let Some(entry) = history.get(number) else {
            unreachable!()
        };
        let link = delivered_link(kernel, number, &entry, place);
        if let Err(fault) = repeat_entry(kernel, number, &entry) {
            return Err(fault);
        }
        kernel.law_forest();
        last = newer_of(link, last);
    }
    if kernel.mapping(place.space, place.page).is_none() {
        return Ok(Arrival::Absent);
    }
    match last {
        Some(link) => Ok(Arrival::By(link)),
        None => Ok(Arrival::AtBoot),
    }
}

/// Replays all steps of a history on a kernel.
///
/// Errors: `NoMemory` if memory runs out in a step, and not in the history's; `OtherAnswer` if a step gets any other
/// answer than the history says. After either, the steps before that one have been executed with the history's
/// answers, then that step with its own answer, and no later step.
pub fn replay<H: Replayable>(kernel: &mut Kernel, history: &H) -> Result<(), ReplayFault>
    ensures ok { IfOk result
        (λ _. Run kernel.old (steps_of (H.entries history.now)) (answers_of (H.entries history.now))
        kernel.new) }
    ensures err { IfErr result (StopsIn kernel.old (H.entries history.now) kernel.new) }
{
    kernel.law_forest();
    for number in 0..history.len() {
        let Some(entry) = history.get(number) else {
            unreachable!()
        };
        if let Err(fault) = repeat_entry(kernel, number, &entry) {
            return Err(fault);
        }
        kernel.law_forest();
    }
    Ok(())
}
