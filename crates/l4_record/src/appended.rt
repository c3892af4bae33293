//! What a call appended to the history.
ghost use Rattle.std.specs.Prelude.{◌≡◌, ◌<◌, ◌++◌, ◌∷◌, [], length};
ghost use Rattle.l4_threads.specs.Sizes.{max_threads};

use arrayvec::ArrayVec;
use l4_ipc::{Answer, MAX_THREADS, NextStep, Outcome};
use std::marker::Model;

/// The next steps that were executed, in order. Clearing the list does not overwrite them; later steps do.
#[derive(Drop)]
pub struct NextSteps {
    cells: [NextStep; MAX_THREADS],
    len: usize,
}

impl Model for NextSteps {
    ghost use Rattle.std.specs.Prelude.{◌≡◌, ◌≤◌, length, take};
    ghost use Rattle.l4_threads.specs.Sizes.{max_threads};
    ghost use Rattle.l4_record.specs.Lists.{StepList, step_list};

    ghost Value = { StepList };

    ghost view = { λ s. step_list (take s.len s.cells) };

    ghost invariant = { λ s. (s.len ≤ max_threads) × (length s.cells ≡ max_threads) };
}

impl NextSteps {
    /// Creates a list without steps.
    pub fn new() -> NextSteps
        ensures { result.items ≡ [] }
    {
        NextSteps {
            cells: [NextStep::Expire(0); MAX_THREADS],
            len: 0,
        }
    }

    /// Removes all steps.
    pub(crate) fn clear(&mut self)
        ensures { self.new.items ≡ [] }
    {
        self.len = 0;
    }

    /// Appends a step.
    pub(crate) fn push(&mut self, next: NextStep)
        requires { length self.old.items < max_threads }
        ensures { self.new.items ≡ self.old.items ++ next ∷ [] }
    {
        self.cells[self.len] = next;
        self.len += 1;
    }

    /// Returns the steps, in order.
    pub fn as_slice(&self) -> &[NextStep]
        ensures { result.now ≡ self.now.items }
    {
        &self.cells[..self.len]
    }
}

/// What a call appended to the history: its start and the next steps. `Recorder::enter` overwrites it.
#[derive(Drop)]
pub struct Appended {
    /// The result of the start, and the threads whose calls ended in it.
    pub start: Answer,
    /// The next steps.
    pub next: NextSteps,
}

impl Appended {
    /// Creates a value that reports nothing yet.
    pub fn new() -> Appended
        ensures { (result.start.ended.items ≡ []) × (result.next.items ≡ []) }
    {
        Appended {
            start: Answer {
                outcome: Outcome::Started,
                ended: ArrayVec::new(),
            },
            next: NextSteps::new(),
        }
    }
}
