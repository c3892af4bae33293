//! Whether an entry continues a legal history.
ghost use Rattle.std.specs.Prelude.{◌≡◌, ◌≢◌, ◌⊎◌, ◌↔◌, Some, IsTrue, IfOk, IfErr, true, false};
ghost use Rattle.l4_ipc.specs.Steps.{IsNext};
ghost use Rattle.l4_record.specs.History.{IsSeated};
ghost use Rattle.l4_saved.specs.Stopping.{IsNeverNext, IsNotNext, IsNotSeated, Fails};
ghost use Rattle.l4_saved.specs.Inside.Telling.{Continues, history_fault};

use l4_ipc::{Kernel, Step};
use l4_provenance::repeat_entry;
use l4_record::{Entry, ReplayFault};

/// Why segments are not the history of a kernel, or why it was not written.
#[derive(Clone, Copy, Debug, PartialEq, Eq)]
pub enum HistoryFault {
    /// An allocation failed.
    Memory,
    /// A write failed.
    Write,
    /// The entry with this number neither starts a call of the thread of its seat, nor cancels a wait with seat 0, nor is the next step of
    /// the kernel.
    NotNext(usize),
    /// The kernel gives the step of the entry with this number another answer than the entry has.
    OtherAnswer(usize),
}

/// Returns whether two steps are the same transfer or expiry.
fn is_same(step: &Step, other: &Step) -> bool
    ensures yes { result ≡ true → step.now ≡ other.now }
    ensures no { result ≡ false → IsNeverNext step.now ⊎ (step.now ≢ other.now) }
{
    match step {
        Step::Start(_, _) => false,
        Step::Transfer(sender, receiver) => match other {
            Step::Transfer(from, to) => *sender == *from && *receiver == *to,
            _ => false,
        },
        Step::Expire(number) => match other {
            Step::Expire(waiter) => *number == *waiter,
            _ => false,
        },
        Step::Cancel(_, _) => false,
    }
}

/// Returns whether this is the next step.
fn is_next(kernel: &Kernel, step: &Step) -> bool
    ensures yes { result ≡ true → IsNext kernel.now step.now }
    ensures no { result ≡ false → IsNotNext kernel.now step.now }
{
    match kernel.enabled() {
        Some(next) => is_same(&next, step),
        None => false,
    }
}

/// Returns whether the seat is this one.
fn has_seat(last: Option<u32>, seat: u32) -> bool
    ensures { IsTrue result ↔ (last ≡ Some seat) }
{
    match last {
        Some(number) => number == seat,
        None => false,
    }
}

/// Returns whether the entry starts a call of the thread of its seat, cancels a wait and has seat 0, or is the next step, with the seat of
/// the entry before it.
fn is_seated(kernel: &Kernel, last: Option<u32>, entry: &Entry) -> bool
    ensures yes { result ≡ true → IsSeated kernel.now last entry.now.seat entry.now.step }
    ensures no { result ≡ false → IsNotSeated kernel.now last entry.now.seat entry.now.step }
{
    match &entry.step {
        Step::Start(number, _) => entry.seat == *number,
        Step::Cancel(_, _) => entry.seat == 0,
        Step::Transfer(_, _) | Step::Expire(_) => {
            has_seat(last, entry.seat) && is_next(kernel, &entry.step)
        }
    }
}

/// Returns the fault of a history whose entry cannot be repeated.
fn history_fault(fault: ReplayFault) -> HistoryFault
    ensures { result ≡ history_fault fault }
{
    match fault {
        ReplayFault::OtherAnswer(number) => HistoryFault::OtherAnswer(number),
        ReplayFault::NoMemory | ReplayFault::BadFrames => HistoryFault::Memory,
    }
}

/// Executes the step of the entry with this number, if the entry continues a legal history after an entry of the seat `last`.
pub(crate) fn continue_with(
    kernel: &mut Kernel,
    last: Option<u32>,
    number: usize,
    entry: &Entry,
) -> Result<(), HistoryFault>
    ensures ok { IfOk result (λ _. Continues kernel.old last entry.now kernel.new) }
    ensures err { IfErr result (Fails number kernel.old last entry.now) }
{
    if !is_seated(kernel, last, entry) {
        return Err(HistoryFault::NotNext(number));
    }
    match repeat_entry(kernel, number, entry) {
        Ok(()) => Ok(()),
        Err(fault) => Err(history_fault(fault)),
    }
}
