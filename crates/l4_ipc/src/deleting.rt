//! Deletions of threads.
ghost use Rattle.std.specs.Prelude.{◌≡◌, ◌<◌, ◌∷◌, length, IsTrue, MatchOption};
ghost use Rattle.l4_forest.specs.Losing.{EndsSpace};
ghost use Rattle.l4_threads.specs.Sizes.{max_threads};
ghost use Rattle.l4_threads.specs.Threads.{runs};
ghost use Rattle.l4_ipc.specs.Inside.Answering.{StartsControl, written};
ghost use Rattle.l4_ipc.specs.declared.calls.Control.TheVariants.{Delete as Deletion};

use crate::steps::{Answer, Lower, Outcome, Refused};
use arrayvec::ArrayVec;
use l4_forest::Forest;
use l4_threads::{MAX_THREADS, ThreadId, Threads, Wordless};

/// Ends the space of a deleted thread, if it was the last thread there.
fn end_space(forest: &mut Forest, space: Option<u64>)
    ensures { MatchOption space (forest.new ≡ forest.old)
        (λ ended. EndsSpace ended forest.old forest.new) }
{
    if let Some(space) = space {
        forest.end_space(space);
    }
}

/// Returns the caller, followed by the others.
fn caller_first(number: u32, others: ArrayVec<u32, MAX_THREADS>) -> ArrayVec<u32, MAX_THREADS>
    requires { length others.items < max_threads }
    ensures { result.items ≡ number ∷ others.items }
{
    let mut ended = others;
    ended.insert(0, number);
    ended
}

/// Deletes a thread for a running thread, and overwrites the answer that the caller passes with the threads whose calls
/// ended. It is a function of its own because its list has room for all threads, and no other call should clear that room.
#[inline(never)]
pub fn delete(
    threads: &mut Threads,
    forest: &mut Forest,
    number: u32,
    id: ThreadId,
    answer: &mut Answer,
) -> Result<(), Refused>
    requires { IsTrue (runs threads.old number) }
    ensures { StartsControl threads.old forest.old number (Deletion id) (written result answer.new)
        threads.new forest.new }
{
    threads.law_consistent();
    let deleted = match threads.delete(number, id) {
        Ok(deleted) => deleted,
        Err(fault) => return Err(Refused::Lower(Lower::Thread(fault))),
    };
    end_space(forest, deleted.space);
    threads.end_wordless(number, Wordless::Controlled);
    answer.outcome = Outcome::Started;
    answer.ended = caller_first(number, deleted.ended);
    Ok(())
}
