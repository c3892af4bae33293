//! Steps of the kernel with their entries.
ghost use Rattle.std.specs.Prelude.{◌≡◌, ◌+◌, ◌≤◌, ◌<◌, Ok, Err, IfOk, IfErr, OnErr, length};
ghost use Rattle.l4_ipc.specs.Steps.{Steps, IsIdle};
ghost use Rattle.l4_ipc.specs.declared.steps.Step.TheVariants.{Start, Cancel};
ghost use Rattle.l4_threads.specs.Sizes.{max_threads};
ghost use Rattle.l4_record.specs.Sizes.{max_steps};
ghost use Rattle.l4_record.specs.Inside.Entering.{Went, Begins, EndsWait};

use crate::appended::{Appended, NextSteps};
use crate::history::History;
use l4_ipc::{Call, CancelCause, Kernel, Refused};

/// Executes the next step until no step is enabled, and overwrites `next` with these steps.
fn follow(kernel: &mut Kernel, history: &mut History, number: u32, next: &mut NextSteps)
    requires { length history.old.entries + max_threads ≤ history.old.room }
    ensures went { Went number kernel.old kernel.new history.old.entries history.new.entries
        next.new.items }
    ensures idle { IsIdle kernel.new }
{
    kernel.law_consistent();
    next.clear();
    while let Some(step) = kernel.next() {
        kernel.law_forest();
        history.push_next(number, step);
        next.push(step);
    }
}

/// Executes the start of a call, and then the next step until no step is enabled. After a refusal, nothing has changed.
pub fn begin(
    kernel: &mut Kernel,
    history: &mut History,
    number: u32,
    call: &Call,
    appended: &mut Appended,
) -> Result<(), Refused>
    requires { length history.old.entries + max_steps + 1 ≤ history.old.room }
    ensures ok { IfOk result
        (λ _. Begins number call.now kernel.old kernel.new history.old.entries history.new.entries
        appended.new) }
    ensures err { IfErr result (λ e. Steps kernel.old (Start number call.now) (Err e) kernel.old) }
    ensures same { OnErr result
        ((kernel.new ≡ kernel.old) × (history.new.entries ≡ history.old.entries)) }
{
    match kernel.start(number, call, &mut appended.start) {
        Ok(()) => {
            kernel.law_forest();
            history.push_start(number, call, &appended.start);
            follow(kernel, history, number, &mut appended.next);
            Ok(())
        }
        Err(refused) => Err(refused),
    }
}

/// Cancels the wait of a thread, and appends this step. After a refusal, nothing has changed.
#[inline(never)]
pub fn end_wait(
    number: u32,
    cause: CancelCause,
    history: &mut History,
    kernel: &mut Kernel,
) -> Result<(), Refused>
    requires { length history.old.entries + 1 ≤ history.old.room }
    ensures ok { IfOk result
        (λ _. EndsWait number cause kernel.old kernel.new history.old.entries history.new.entries) }
    ensures err { IfErr result (λ e. Steps kernel.old (Cancel number cause) (Err e) kernel.old) }
    ensures same { OnErr result
        ((kernel.new ≡ kernel.old) × (history.new.entries ≡ history.old.entries)) }
{
    kernel.law_consistent();
    match kernel.cancel(number, cause) {
        Ok(()) => {
            kernel.law_forest();
            history.push_cancel(number, cause);
            Ok(())
        }
        Err(refused) => Err(refused),
    }
}
