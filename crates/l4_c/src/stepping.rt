//! Executes steps, and enters calls: starts a call, and then executes the steps that follow.

ghost use Rattle.std.specs.Prelude.{◌≡◌, None, Some, ◌≤◌, ◌<◌, length, slice_set};
ghost use Rattle.l4_ipc.specs.declared.steps.Step.TheVariants.{Start, Transfer, Expire, Cancel};
ghost use Rattle.l4_ipc.specs.declared.steps.CancelCause.TheVariants.{Timeout, Canceled};
ghost use Rattle.l4_c.specs.Exports.{Answers, Starts, Names, GoesOn, Follows, Goes, Enters};
ghost use Rattle.l4_ipc.specs.NextSteps.{step_of, answer_of};
ghost use Rattle.l4_c_values.specs.Told.{done_result};

use l4_c_values::{
    CallGiven, EMPTY, EnterResult, KernelHandle, NO_SUCH_CALL, NextResult, StepResult, answered,
    done_told, kernel_detail, kernel_number, no_step, refused, step_told, told, write_call,
};
use l4_ipc::{
    Answer, ArrayVec, Call, CancelCause, IpcCall, Kernel, NextStep, Outcome, Step, ThreadId,
};
use std::alloc::Global;

/// Executes a step of the handle's kernel. Refuses an empty handle (B1).
fn step(alloc: Global, handle: &mut KernelHandle, step: &Step) -> StepResult
    ensures { Answers handle.old.value step.now result handle.new.value }
{
    let Some(mut kernel) = handle.take(alloc) else {
        return refused(EMPTY, 0);
    };
    let given = kernel.step(step);
    handle.put(kernel);
    told(&given)
}

/// Delivers the sender's message to the receiver. The refusals are B1 and K1, in this order.
#[unsafe(no_mangle)]
pub extern "C" fn l4_transfer(
    alloc: Global,
    handle: &mut KernelHandle,
    sender: u32,
    receiver: u32,
) -> StepResult
    ensures { Answers handle.old.value (Transfer sender receiver) result handle.new.value }
{
    step(alloc, handle, &Step::Transfer(sender, receiver))
}

/// Ends the thread's wait that has a timeout of zero. The refusals are B1 and K1, in this order.
#[unsafe(no_mangle)]
pub extern "C" fn l4_expire(alloc: Global, handle: &mut KernelHandle, thread: u32) -> StepResult
    ensures { Answers handle.old.value (Expire thread) result handle.new.value }
{
    step(alloc, handle, &Step::Expire(thread))
}

/// Ends the thread's wait, because its timeout has passed by the caller's clock. The refusals are B1 and K1, in this order.
#[unsafe(no_mangle)]
pub extern "C" fn l4_timeout(alloc: Global, handle: &mut KernelHandle, thread: u32) -> StepResult
    ensures { Answers handle.old.value (Cancel thread Timeout) result handle.new.value }
{
    step(alloc, handle, &Step::Cancel(thread, CancelCause::Timeout))
}

/// Cancels the thread's wait. The refusals are B1 and K1, in this order.
#[unsafe(no_mangle)]
pub extern "C" fn l4_cancel(alloc: Global, handle: &mut KernelHandle, thread: u32) -> StepResult
    ensures { Answers handle.old.value (Cancel thread Canceled) result handle.new.value }
{
    step(alloc, handle, &Step::Cancel(thread, CancelCause::Canceled))
}

/// Starts this call of a thread.
fn start_call(kernel: &mut Kernel, thread: u32, call: &Call) -> StepResult
    ensures { Answers (Some kernel.old) (Start thread call.now) result (Some kernel.new) }
{
    let mut answer = Answer {
        outcome: Outcome::Started,
        ended: ArrayVec::new(),
    };
    match kernel.start(thread, call, &mut answer) {
        Ok(()) => answered(&answer),
        Err(e) => refused(kernel_number(e), kernel_detail(e)),
    }
}

/// Starts a call of a thread. Refuses an unknown kind of call (B3), and then as the kernel does.
#[inline(always)]
pub fn start(kernel: &mut Kernel, thread: u32, given: &CallGiven, words: &[u32]) -> StepResult
    ensures { Starts (Some kernel.old) thread given.now words.now result (Some kernel.new) }
{
    let mut call = Call::Ipc(IpcCall {
        to: ThreadId(0),
        from: ThreadId(0),
        timeouts: 0,
        acceptor: 0,
        words: ArrayVec::new(),
    });
    if !write_call(&mut call, given, words) {
        return refused(NO_SUCH_CALL, 0);
    }
    start_call(kernel, thread, &call)
}

/// Starts a call of a thread. The refusals are B1, B3, and then those of the kernel.
#[unsafe(no_mangle)]
pub extern "C" fn l4_start(
    alloc: Global,
    handle: &mut KernelHandle,
    thread: u32,
    call: &CallGiven,
    words: &[u32],
) -> StepResult
    ensures { Starts handle.old.value thread call.now words.now result handle.new.value }
{
    let Some(mut kernel) = handle.take(alloc) else {
        return refused(EMPTY, 0);
    };
    let started = start(&mut kernel, thread, call, words);
    handle.put(kernel);
    started
}

/// Returns the step that is executed next if no call is started. Refuses an empty handle (B1).
#[unsafe(no_mangle)]
pub extern "C" fn l4_enabled(alloc: Global, handle: &mut KernelHandle) -> NextResult
    ensures kept { handle.new.value ≡ handle.old.value }
    ensures named { Names handle.old.value result }
{
    let Some(kernel) = handle.take(alloc) else {
        return no_step(EMPTY);
    };
    let enabled = kernel.enabled();
    handle.put(kernel);
    match enabled {
        Some(step) => step_told(&step),
        None => no_step(0),
    }
}

/// Executes the step that `l4_enabled` returns. Refuses an empty handle (B1).
#[unsafe(no_mangle)]
pub extern "C" fn l4_next(alloc: Global, handle: &mut KernelHandle) -> NextResult
    ensures { GoesOn handle.old.value result handle.new.value }
{
    let Some(mut kernel) = handle.take(alloc) else {
        return no_step(EMPTY);
    };
    let done = kernel.next();
    handle.put(kernel);
    match done {
        Some(next) => done_told(next),
        None => no_step(0),
    }
}

/// Writes an executed step to the array at this place, if the array is long enough.
fn note(steps: &mut [NextResult], at: u32, next: NextStep)
    ensures there { at < length steps.old → steps.new
        ≡ slice_set steps.old at (done_result (step_of next) (answer_of next)) }
    ensures beyond { length steps.old ≤ at → steps.new ≡ steps.old }
{
    let at = at as usize;
    if at < steps.len() {
        steps[at] = done_told(next);
    }
}

/// Executes the next step until no step is enabled, and returns how many steps it executed.
fn follow(kernel: &mut Kernel, steps: &mut [NextResult]) -> u32
    ensures { Follows kernel.old steps.old result steps.new kernel.new }
{
    kernel.law_consistent();
    let mut count = 0u32;
    while let Some(step) = kernel.next() {
        note(steps, count, step);
        count += 1;
    }
    count
}

/// Starts a call of a thread, and then executes the next step until no step is enabled.
fn enter(
    kernel: &mut Kernel,
    thread: u32,
    given: &CallGiven,
    words: &[u32],
    steps: &mut [NextResult],
) -> EnterResult
    ensures { Goes kernel.old thread given.now words.now steps.old result steps.new kernel.new }
{
    let mut entered = EnterResult {
        start: start(kernel, thread, given, words),
        step_count: 0,
    };
    if entered.start.refusal == 0 {
        entered.step_count = follow(kernel, steps);
    }
    entered
}

/// Starts a call of a thread, and then executes the next step until no step is enabled. The refusals are those of `l4_start`.
#[unsafe(no_mangle)]
pub extern "C" fn l4_enter(
    alloc: Global,
    handle: &mut KernelHandle,
    thread: u32,
    call: &CallGiven,
    words: &[u32],
    steps: &mut [NextResult],
) -> EnterResult
    ensures { Enters handle.old.value thread call.now words.now steps.old result steps.new
        handle.new.value }
{
    let Some(mut kernel) = handle.take(alloc) else {
        return EnterResult {
            start: refused(EMPTY, 0),
            step_count: 0,
        };
    };
    let entered = enter(&mut kernel, thread, call, words, steps);
    handle.put(kernel);
    entered
}
