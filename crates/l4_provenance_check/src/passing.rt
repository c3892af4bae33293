//! Replays the entries of a history on a second kernel, and follows the chain across each.
ghost use Rattle.std.specs.Prelude.{◌≡◌, ◌≢◌, ◌↔◌, ◌⊎◌, ◌∷◌, ◌≤◌, ℕ, List, length, take, IsTrue, IfOk, IfErr, MatchOption, Result, Ok, Err};
ghost use Rattle.l4_mapdb.specs.declared.Place.{Place as APlace};
ghost use Rattle.l4_ipc.specs.declared.steps.Outcome.TheVariants.{Done};
ghost use Rattle.l4_ipc.specs.Machine.{Machine};
ghost use Rattle.l4_ipc.specs.Provenance.{LeavesAlone};
ghost use Rattle.l4_ipc.specs.Runs.{Run};
ghost use Rattle.l4_record.specs.History.{steps_of, answers_of, HasEvents};
ghost use Rattle.l4_record.specs.declared.links.ChainLink.{ChainLink as AChainLink};
ghost use Rattle.l4_record.specs.Inside.Walking.{entry_event, Does, IsNotDue, BringsTold, Passes};
ghost use Rattle.l4_record.specs.Replays.{RanOut, FailsAt, StopsIn};
ghost use Rattle.l4_provenance_check.specs.Inside.Following.{NonePasses};

use crate::carrying::{is_carried, is_written};
use l4_ipc::{Kernel, Lower, Outcome, Place, Refused};
use l4_record::{ChainLink, Entry, History, ReplayFault};

/// Returns whether the entry delivered a message.
fn is_done(entry: &Entry) -> bool
    ensures { IsTrue result ↔ (entry.now.answer.outcome ≡ Done) }
{
    entry.answer.outcome == Outcome::Done
}

/// Returns whether a step with this refusal ran out of memory.
fn ran_out(refused: Refused) -> bool
    ensures { IsTrue result ↔ RanOut (Err refused) }
{
    let Refused::Lower(lower) = refused else {
        return false;
    };
    match lower {
        Lower::NoMemory => true,
        _ => false,
    }
}

/// Executes the step of an entry. It must get the answer that the history says.
fn redo(kernel: &mut Kernel, number: usize, entry: &Entry) -> Result<(), ReplayFault>
    ensures ok { IfOk result (λ _. Does kernel.old entry.now kernel.new) }
    ensures err { IfErr result (FailsAt number kernel.old entry.now kernel.new) }
{
    match kernel.step(&entry.step) {
        Ok(answer) => {
            if answer == entry.answer {
                return Ok(());
            }
            match answer.outcome {
                Outcome::NoMemory => Err(ReplayFault::NoMemory),
                _ => Err(ReplayFault::OtherAnswer(number)),
            }
        }
        Err(refused) => {
            if ran_out(refused) {
                return Err(ReplayFault::NoMemory);
            }
            Err(ReplayFault::OtherAnswer(number))
        }
    }
}

/// Executes the entry. Returns whether it leaves the place unchanged.
fn leaves_alone(
    kernel: &mut Kernel,
    number: usize,
    entry: &Entry,
    place: Place,
) -> Result<bool, ReplayFault>
    ensures ok { IfOk result
        (λ yes. Does kernel.old entry.now kernel.new
        × (IsTrue yes ↔ LeavesAlone (entry_event kernel.old entry.now kernel.new) place)) }
    ensures err { IfErr result (FailsAt number kernel.old entry.now kernel.new) }
{
    let before = kernel.mapping(place.space, place.page).is_some();
    let done = is_done(entry);
    let written = is_written(kernel, &entry.step, place);
    if let Err(fault) = redo(kernel, number, entry) {
        return Err(fault);
    }
    let after = kernel.mapping(place.space, place.page).is_some();
    if !before {
        return Ok(false);
    }
    if !after {
        return Ok(false);
    }
    if !done {
        return Ok(true);
    }
    Ok(!written)
}

/// Executes the entry. Returns whether it is the transfer of the link.
fn brings(
    kernel: &mut Kernel,
    number: usize,
    entry: &Entry,
    link: &ChainLink,
) -> Result<bool, ReplayFault>
    ensures ok { IfOk result
        (λ yes. Does kernel.old entry.now kernel.new
        × (IsTrue yes ↔ BringsTold kernel.old entry.now kernel.new link.now)) }
    ensures err { IfErr result (FailsAt number kernel.old entry.now kernel.new) }
{
    let done = is_done(entry);
    let carried = is_carried(kernel, &entry.step, link);
    if let Err(fault) = redo(kernel, number, entry) {
        return Err(fault);
    }
    if !done {
        return Ok(false);
    }
    Ok(carried)
}

/// Returns the first link and the others, if the first is the one of the entry with this number.
fn due(left: &[ChainLink], number: usize) -> Option<(&ChainLink, &[ChainLink])>
    ensures { MatchOption result (IsNotDue number left.now)
        (λ d. (left.now ≡ d.0.now ∷ d.1.now) × (d.0.now.entry ≡ number)) }
{
    match left {
        [] => None,
        [link, rest @ ..] => {
            if link.entry == number {
                Some((link, rest))
            } else {
                None
            }
        }
    }
}

/// Returns whether two places are the same.
pub fn is_at(a: Place, b: Place) -> bool
    ensures { IsTrue result ↔ (a ≡ b) }
{
    if a.space != b.space {
        return false;
    }
    a.page == b.page
}

/// Replays the entry with this number, and follows the chain across it. Returns the next place and the links that are
/// left, or `None` if the chain does not lead across it.
pub fn pass<'a>(
    kernel: &mut Kernel,
    number: usize,
    entry: &Entry,
    place: Place,
    left: &'a [ChainLink],
) -> Result<Option<(Place, &'a [ChainLink])>, ReplayFault>
    ensures ok { IfOk result
        (λ next. Does kernel.old entry.now kernel.new
        × MatchOption next (NonePasses number kernel.old entry.now place left.now)
        (λ w. Passes number kernel.old entry.now kernel.new place left.now w.0 w.1.now)) }
    ensures err { IfErr result (FailsAt number kernel.old entry.now kernel.new) }
{
    let Some((link, rest)) = due(left, number) else {
        return match leaves_alone(kernel, number, entry, place) {
            Ok(true) => Ok(Some((place, left))),
            Ok(false) => Ok(None),
            Err(fault) => Err(fault),
        };
    };
    match brings(kernel, number, entry, link) {
        Ok(true) => {}
        Ok(false) => return Ok(None),
        Err(fault) => return Err(fault),
    }
    if !is_at(link.source, place) {
        return Ok(None);
    }
    Ok(Some((link.target, rest)))
}

/// Executes the entries from the one with this number to the end. The caller has executed those before it.
pub fn replay_from(kernel: &mut Kernel, history: &History, first: usize) -> Result<(), ReplayFault>
    requires { first ≤ length history.now.entries }
    ensures ok { IfOk result
        (λ _. (boot : Machine) → HasEvents boot (take first history.now.entries) kernel.old
        → Run boot (steps_of history.now.entries) (answers_of history.now.entries) kernel.new) }
    ensures err { IfErr result
        (λ fault. (boot : Machine) → HasEvents boot (take first history.now.entries) kernel.old
        → StopsIn boot history.now.entries kernel.new fault) }
{
    for number in first..history.len() {
        let Some(entry) = history.get(number) else {
            unreachable!()
        };
        if let Err(fault) = redo(kernel, number, &entry) {
            return Err(fault);
        }
        kernel.law_forest();
    }
    Ok(())
}
