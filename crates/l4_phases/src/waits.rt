//! Ends the waits of threads.
ghost use Rattle.std.specs.Prelude.{◌≡◌, ◌≤◌, length, false, IsTrue, MatchOption};
ghost use Rattle.l4_threads.specs.Threads.{is_running};
ghost use Rattle.l4_phases.specs.Phases.{ended_if};
ghost use Rattle.l4_phases.specs.Turns.{reply_of};
ghost use Rattle.l4_phases.specs.Waits.{wait_reply, EndsWait};

use crate::starting::end;
use crate::turns::Ending;
use arrayvec::ArrayVec;
use l4_threads::{Activity, MAX_THREADS, Threads};

/// Returns a list with this thread if its call ends, and otherwise an empty list.
pub fn list_if(ends: bool, number: u32) -> ArrayVec<u32, MAX_THREADS>
    ensures items { result.items ≡ ended_if ends number }
    ensures few { length result.items ≤ 1 }
{
    let mut list = ArrayVec::new();
    if ends {
        list.push(number);
    }
    list
}

/// Returns how a call ends whose wait ends with this e of the ErrorCode, or `None` if the thread does not wait.
fn wait_ending(state: &Activity, error: u32) -> Option<Ending>
    requires { error ≤ 7 }
    ensures { MatchOption result (IsTrue (is_running state.now))
        (λ ending. (is_running state.now ≡ false) × (reply_of ending ≡ wait_reply error state.now)) }
{
    if let Some(sending) = state.sending() {
        return Some(Ending::Failed(sending.fault, error * 2));
    }
    if let Some(receiving) = state.receiving() {
        return Some(Ending::Failed(receiving.fault, error * 2 + 1));
    }
    None
}

/// Ends the wait of a thread with this e of the ErrorCode: 1 for a timeout, 3 for a cancellation. Returns false if no thread with this
/// number waits. Then nothing changes.
pub fn end_wait(threads: &mut Threads, number: u32, error: u32) -> bool
    requires { error ≤ 7 }
    ensures { EndsWait threads.old number error result threads.new }
{
    let Some(state) = threads.state(number) else {
        return false;
    };
    let Some(ending) = wait_ending(state, error) else {
        return false;
    };
    end(threads, number, ending);
    true
}
