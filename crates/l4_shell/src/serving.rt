//! Reports a call, and what follows it: the acts of served threads.
ghost use Rattle.std.specs.Prelude.{◌≡◌, ℕ, List};
ghost use Rattle.std.specs.List.{flat_map};
ghost use Rattle.l4_phases.specs.Phases.{ended_if};
ghost use Rattle.l4_ipc.specs.NextSteps.{answer_of, cancel_answer};
ghost use Rattle.l4_answers.specs.Reports.{Report, AddsAll};
ghost use Rattle.l4_shell.specs.Sessions.{session, ended_reports, waiting_reports};
ghost use Rattle.l4_record.specs.Seated.{is_among};
ghost use Rattle.l4_servers.specs.Acting.{IsFirstReady};
ghost use Rattle.l4_ipc.specs.declared.steps.Step.TheVariants.{Cancel};
ghost use Rattle.l4_shell.specs.Inside.Telling.{step_reports, next_reports, ended_later, TellsAppended, TellsActs, GoesOn};

use crate::refusals::call_code;
use crate::session::Session;
use l4_answers::Sink;
use l4_ipc::{Answer, CancelCause, Kernel, NextStep};
use l4_record::Appended;

/// The maximum number of acts of served threads per line.
const MOST_ACTS: u32 = 256;

/// Reports the ends of the calls that ended in a step.
fn tell_ended<S: Sink>(kernel: &Kernel, answer: &Answer, sink: &mut S)
    ensures { AddsAll S.has_told sink.old sink.new
        (ended_reports kernel.now answer.now.ended.items) }
{
    for number in answer.ended.as_slice() {
        sink.ended(*number, kernel.reply(*number));
    }
}

/// Returns whether the thread's call ended in a step.
fn has_ended(answer: &Answer, thread: u32) -> bool
    ensures { result ≡ is_among thread answer.now.ended.items }
{
    answer.ended.as_slice().contains(&thread)
}

/// Reports that a thread's call has not ended.
#[inline(always)]
fn tell_waiting<S: Sink>(thread: u32, ended: bool, sink: &mut S)
    ensures { AddsAll S.has_told sink.old sink.new
        (waiting_reports thread ended) }
{
    if !ended {
        sink.waits(thread);
    }
}

/// Reports how a thread's call ended, if it has.
fn tell_own<S: Sink>(kernel: &Kernel, thread: u32, ended: bool, sink: &mut S)
    ensures { AddsAll S.has_told sink.old sink.new
        (ended_reports kernel.now (ended_if ended thread)) }
{
    if ended {
        sink.ended(thread, kernel.reply(thread));
    }
}

/// Reports a step that was executed next, and the ends of the calls that ended in it.
fn tell_next<S: Sink>(kernel: &Kernel, next: NextStep, sink: &mut S)
    ensures { AddsAll S.has_told sink.old sink.new
        (next_reports kernel.now next) }
{
    match next {
        NextStep::Transfer(sender, receiver, outcome, ends) => {
            sink.transfer(sender, receiver, outcome);
            tell_own(kernel, sender, ends, sink);
            sink.ended(receiver, kernel.reply(receiver));
        }
        NextStep::Expire(waiter) => {
            sink.expire(waiter);
            sink.ended(waiter, kernel.reply(waiter));
        }
    }
}

/// Reports that a wait was canceled, and how the thread's call ended.
pub(crate) fn tell_canceled<S: Sink>(kernel: &Kernel, thread: u32, cause: CancelCause, sink: &mut S)
    ensures { AddsAll S.has_told sink.old sink.new
        (step_reports (Cancel thread cause) (cancel_answer thread) kernel.now) }
{
    sink.cancel(thread, cause);
    sink.ended(thread, kernel.reply(thread));
}

/// Returns whether the thread's call ended in a step that was executed next.
fn has_ended_next(next: NextStep, thread: u32) -> bool
    ensures { result ≡ is_among thread (answer_of next).ended.items }
{
    match next {
        NextStep::Transfer(sender, receiver, _, ends) => {
            (ends && sender == thread) || receiver == thread
        }
        NextStep::Expire(waiter) => waiter == thread,
    }
}

/// Reports steps that were executed next.
fn tell_steps<S: Sink>(kernel: &Kernel, steps: &[NextStep], sink: &mut S)
    ensures { AddsAll S.has_told sink.old sink.new
        (flat_map (next_reports kernel.now) steps.now) }
{
    for next in steps {
        tell_next(kernel, *next, sink);
    }
}

/// Returns whether the thread's call ended in one of these steps.
fn has_ended_later(steps: &[NextStep], thread: u32) -> bool
    ensures { result ≡ is_among thread (ended_later steps.now) }
{
    let mut ended = false;
    for next in steps {
        ended = ended | has_ended_next(*next, thread);
    }
    ended
}

/// Reports what a call appended to the history. Returns whether the thread's call ended in it.
pub(crate) fn tell_appended<S: Sink>(
    kernel: &Kernel,
    appended: &Appended,
    thread: u32,
    sink: &mut S,
) -> bool
    ensures { TellsAppended kernel.now appended.now thread result
        S.has_told sink.old sink.new }
{
    tell_ended(kernel, &appended.start, sink);
    tell_steps(kernel, appended.next.as_slice(), sink);
    has_ended(&appended.start, thread) | has_ended_later(appended.next.as_slice(), thread)
}

impl Session {
    /// Lets served threads act, one after another, until none runs, one is refused, or the line has had its maximum number of acts. The
    /// first one is given. Reports all of it, and returns whether the thread's call ended in one of the acts.
    #[inline(never)]
    fn serve<S: Sink>(&mut self, first: u32, thread: u32, sink: &mut S) -> bool
        requires { IsFirstReady self.old.kernel.machine.threads self.old.servers first }
        ensures { TellsActs (session self.old.kernel self.old.servers) thread result
            (session self.new.kernel self.new.servers)
            S.has_told sink.old sink.new }
    {
        let mut server = first;
        let mut ended = false;
        for _ in 0..MOST_ACTS {
            self.servers
                .act_into(self.kernel.kernel(), server, &mut self.act);
            let entered = self
                .kernel
                .enter_if_seated(server, &self.act, &mut self.appended);
            match entered {
                Ok(()) => {
                    let kernel = self.kernel.kernel();
                    let own = tell_appended(kernel, &self.appended, thread, sink);
                    ended = ended | own;
                }
                Err(refusal) => {
                    sink.refused_act(server, &call_code(refusal));
                    return ended;
                }
            }
            let Some(next) = self.servers.first_ready(self.kernel.kernel()) else {
                return ended;
            };
            server = next;
        }
        ended
    }

    /// Lets the served threads act after a call and its steps, and reports their acts. Finally reports whether the caller waits.
    #[inline(always)]
    pub(crate) fn follow<S: Sink>(&mut self, thread: u32, ended: bool, sink: &mut S)
        ensures { (had : List ℕ) → ended ≡ is_among thread had
            → (told : List Report) × GoesOn (session self.old.kernel self.old.servers) thread had
            told (session self.new.kernel self.new.servers)
            × AddsAll S.has_told sink.old sink.new told }
    {
        let Some(first) = self.servers.first_ready(self.kernel.kernel()) else {
            return tell_waiting(thread, ended, sink);
        };
        let acted = self.serve(first, thread, sink);
        tell_waiting(thread, ended | acted, sink);
    }
}
