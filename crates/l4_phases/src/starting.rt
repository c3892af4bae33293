//! Starts and continues the calls of threads.
ghost use Rattle.std.specs.Prelude.{◌≡◌, IsSome};
ghost use Rattle.l4_threads.specs.Threads.{state_of, end_call};
ghost use Rattle.l4_phases.specs.Phases.{receiving, going_on, partner, CanEnter, enters, ended_by, ended_if};
ghost use Rattle.l4_phases.specs.Turns.{wordless, reply_of, next_of};

use crate::turns::{Ending, Turn};
use l4_threads::{Envelope, Later, Receiving, Source, ThreadId, Threads, Wordless};

/// The tag of an Ipc that failed.
const ERROR_TAG: u32 = 0x8000;

/// Returns what a thread does when its receive phase begins.
fn receiving(threads: &Threads, later: Later, fault: bool) -> Turn
    ensures { next_of result ≡ receiving threads.now later fault }
{
    let from = if later.from.0 == ThreadId::any().0 {
        Source::Anyone
    } else {
        match threads.named(later.from) {
            Some(number) => Source::Thread(number),
            None => return Turn::Ends(Ending::Failed(fault, 5)),
        }
    };
    Turn::Receives(Receiving {
        from,
        window: later.window,
        expires: later.expires,
        fault,
    })
}

/// Returns what a thread does after its send phase, or at once if its call has none.
pub fn going_on(threads: &Threads, later: Option<Later>, fault: bool) -> Turn
    ensures { next_of result ≡ going_on threads.now later fault }
{
    match later {
        Some(later) => receiving(threads, later, fault),
        None => Turn::Ends(Ending::Plain),
    }
}

/// Returns the partner of a send phase, a thread other than the caller. Anythread names no partner.
pub fn partner(threads: &Threads, caller: u32, id: ThreadId) -> Option<u32>
    ensures { result ≡ partner threads.now caller id }
{
    if id.0 == ThreadId::any().0 {
        return None;
    }
    let number = threads.named(id)?;
    if number == caller {
        return None;
    }
    Some(number)
}

/// Ends the thread's Ipc with a reply that has this tag, this ErrorCode and no words.
fn end_bare(threads: &mut Threads, number: u32, tag: u32, error: u32)
    requires { IsSome (state_of threads.old number) }
    ensures { threads.new ≡ end_call threads.old number (wordless tag error) }
{
    let envelope = Envelope {
        tag,
        error,
        from: ThreadId::nil(),
    };
    threads.end_ipc(number, envelope, &[]);
}

/// Ends the thread's call.
pub fn end(threads: &mut Threads, number: u32, ending: Ending)
    requires { IsSome (state_of threads.old number) }
    ensures { threads.new ≡ end_call threads.old number (reply_of ending) }
{
    match ending {
        Ending::Plain => end_bare(threads, number, 0, 0),
        Ending::Failed(false, code) => end_bare(threads, number, ERROR_TAG, code),
        Ending::Failed(true, code) => threads.end_wordless(number, Wordless::FaultFailed(code)),
        Ending::Answered => threads.end_wordless(number, Wordless::Answered),
        Ending::Hit => threads.end_wordless(number, Wordless::Hit),
    }
}

/// Puts the thread into its next state. Returns whether its call ended.
#[inline(always)]
pub fn enter(threads: &mut Threads, number: u32, turn: Turn) -> bool
    requires { CanEnter threads.old number (next_of turn) }
    ensures threads { threads.new ≡ enters threads.old number (next_of turn) }
    ensures ended { ended_if result number ≡ ended_by number (next_of turn) }
{
    match turn {
        Turn::Ends(ending) => {
            end(threads, number, ending);
            true
        }
        Turn::Receives(receiving) => {
            threads.start_receive(number, receiving);
            false
        }
    }
}
