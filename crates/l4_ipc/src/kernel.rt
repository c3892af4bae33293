//! The kernel.
ghost use Rattle.std.specs.Prelude.{◌≡◌, ◌<◌, ◌≤◌, ◌⊎◌, ℕ, List, length, false, IsTrue, Ok, Err, IfOk, IfErr, OnErr, MatchOption, MatchResult};
ghost use Rattle.std.specs.List.{All};
ghost use Rattle.std.specs.Option.{option_copied};
ghost use Rattle.l4_mapdb.specs.declared.Place.{Place};

use crate::acting::{cancel, carry_over, expire, start, start_answered, transfer, wait_result};
use crate::calls::Call;
use crate::parts::are_parts;
use crate::steps::{Answer, CancelCause, Lower, NextStep, Outcome, Refused, Step};
use l4_forest::{Forest, MAX_FRAMES, Mapping, NoMemory};
use l4_fpage::PageSize;
use l4_msg::{MAX_WORDS, Message};
use l4_threads::{ROOT_SPACE, Reply, SendPhase, Thread, Threads};
use std::alloc::Global;
use std::marker::Model;

/// The kernel: threads and their states, the queue of senders, and the mappings of every space.
#[derive(Drop)]
pub struct Kernel {
    threads: Threads,
    forest: Forest,
    size: PageSize,
    alloc: Global,
}

impl Model for Kernel {
    ghost use Rattle.l4_threads.specs.contracts.Thread as thread;
    ghost use Rattle.l4_ipc.specs.Machine.{Machine, machine_code};

    ghost Value = { Machine };

    ghost coded = { machine_code thread.the_row.coded };

    ghost use Rattle.l4_ipc.specs.Inside.Kept.{seen, IsKept};

    ghost view = { seen };

    ghost invariant = { IsKept };
}

impl Kernel {
    ghost use Rattle.l4_fpage.specs.Pages.{max_frames};
    ghost use Rattle.l4_threads.specs.Threads.{runs, space_of, thread_at, IsConsistent};
    ghost use Rattle.l4_mapdb.specs.Mappings.{shown, IsForest};
    ghost use Rattle.l4_forest.specs.Descendants.{AreDescendants};
    ghost use Rattle.l4_forest.specs.Places.{NonePresentFrom, IsNextPresent};
    ghost use Rattle.l4_threads.specs.Listed.{NoThreadFrom, IsNextThread};
    ghost use Rattle.l4_forest.specs.Listed.{NoSpaceFrom, IsNextSpace};
    ghost use Rattle.l4_ipc.specs.Machine.{IsBoot, machine};
    ghost use Rattle.l4_ipc.specs.Parts.{AreParts, Sends};
    ghost use Rattle.l4_msg.specs.Messages.{MessageReads};
    ghost use Rattle.l4_msg.specs.Sizes.{max_words};
    ghost use Rattle.l4_msg.specs.declared.messages.Message.{Message as AMessage};
    ghost use Rattle.l4_ipc.specs.SpacePages.{FitIn};
    ghost use Rattle.l4_ipc.specs.Steps.{IsNext, IsIdle, Steps};
    ghost use Rattle.l4_ipc.specs.NextSteps.{step_of, answer_of, canceled_if};
    ghost use Rattle.l4_ipc.specs.Events.{Event, IsTrace, IsOnlyTrace};
    ghost use Rattle.l4_ipc.specs.Provenance.{HaveProvenance, NoneThroughFlushed};
    ghost use Rattle.l4_ipc.specs.Delegation.{DeliversDelegations};
    ghost use Rattle.l4_ipc.specs.Placed.{PlacesDelegations};
    ghost use Rattle.l4_ipc.specs.Reading.{reply_of};
    ghost use Rattle.l4_ipc.specs.declared.steps.Refused.TheVariants.{BadFrames, Lower as IsLower};
    ghost use Rattle.l4_ipc.specs.declared.steps.Lower.TheVariants.{NoMemory as WantOfMemory};
    ghost use Rattle.l4_ipc.specs.declared.steps.Step.TheVariants.{Start, Cancel};

    /// Boots a kernel with 1 to 4,096 page frames, and pages of this size. sigma0 is thread 1 in space 0, where frame
    /// *i* is mapped at page *i* with all rights. Root is thread 2 in space 1, which is empty.
    ///
    /// Errors, in this order: `BadFrames` (K6) for any other number of frames; `Lower(NoMemory)` if an allocation failed.
    pub fn boot(alloc: Global, frames: u32, size: PageSize) -> Result<Kernel, Refused>
        ensures { MatchResult result
            (λ m. IsBoot frames m × (m.size ≡ size))
            (λ e. (((frames ≡ 0) ⊎ (max_frames < frames)) × (e ≡ BadFrames)) ⊎ ((1 ≤ frames) × (frames ≤ max_frames) × (e ≡ IsLower WantOfMemory))) }
    {
        if frames == 0 || frames > MAX_FRAMES {
            return Err(Refused::BadFrames);
        }
        let Ok(mut forest) = Forest::new(alloc, frames) else {
            return Err(Refused::Lower(Lower::NoMemory));
        };
        let Ok(threads) = Threads::boot(alloc) else {
            return Err(Refused::Lower(Lower::NoMemory));
        };
        match forest.new_space(ROOT_SPACE) {
            Ok(()) => Ok(Kernel {
                threads,
                forest,
                size,
                alloc,
            }),
            Err(_) => Err(Refused::Lower(Lower::NoMemory)),
        }
    }

    /// Returns the kernel with these threads and mappings, and with pages of this size, as when a state is read from a file.
    /// `resume_send` then makes its senders send.
    ///
    /// Returns `None` if a thread sends, or its space does not exist, if the number of a space is not below that of the next new one, or if
    /// a present page is beyond the last one of a space.
    pub fn of_parts(
        alloc: Global,
        threads: Threads,
        forest: Forest,
        size: PageSize,
    ) -> Option<Kernel>
        ensures { MatchOption result (¬ (AreParts size threads forest))
            (λ kernel. AreParts size threads forest × (kernel ≡ machine size threads forest)) }
    {
        if !are_parts(&threads, &forest, size) {
            return None;
        }
        Some(Kernel {
            threads,
            forest,
            size,
            alloc,
        })
    }

    /// Makes a running thread send these message registers. It goes to the end of the queue of senders.
    ///
    /// Returns false if the thread does not run, or the words are not a message of at most 64 words. Then nothing changes.
    pub fn resume_send(&mut self, number: u32, words: &[u32], phase: SendPhase) -> bool
        ensures sends { IsTrue result → Sends self.old number words.now phase self.new }
        ensures refused { result ≡ false → self.new ≡ self.old }
        ensures only { IsTrue (runs self.old.threads number) → length words.now ≤ max_words
            → (message : AMessage) → MessageReads words.now message → IsTrue result }
    {
        if words.len() > MAX_WORDS || !self.runs(number) {
            return false;
        }
        let Ok(message) = Message::read(words) else {
            return false;
        };
        self.threads
            .start_message(number, words, message.items.as_slice(), phase);
        true
    }

    /// Copies the kernel: threads with their states and message registers, the queue of senders, and the mappings of
    /// every space. The copy has its own memory, and shares nothing with the original, so you can continue a run in two ways.
    ///
    /// Returns `NoMemory` if an allocation failed. The kernel does not change. A copy takes memory for the greatest
    /// number of pages that were ever present at once.
    pub fn copy(&self) -> Result<Kernel, NoMemory>
        ensures { IfOk result (λ copy. copy ≡ self.now) }
    {
        let forest = self.forest.copy()?;
        let threads = self.threads.clone()?;
        Ok(Kernel {
            threads,
            forest,
            size: self.size,
            alloc: self.alloc,
        })
    }

    /// Executes one step. Returns its outcome and the threads whose calls ended in it. A refused step changes nothing.
    ///
    /// Errors of a Start, in this order: `UnknownThread` (K2), `Busy` (K3), `BadTimeout` (K4), `Lower` (K5) with the
    /// first refusal of the message, of the window, of the fpages of an Unmap, or of a thread control, and last
    /// `Lower(NoMemory)` of a Create in a new space. A Fault of a running thread is never refused. A Transfer or an
    /// Expire that is not enabled is `NotEnabled` (K1), and so is a Cancel of a thread that does not wait.
    pub fn step(&mut self, step: &Step) -> Result<Answer, Refused>
        ensures { Steps self.old step.now result self.new }
    {
        match step {
            Step::Start(number, call) => start_answered(
                &mut self.threads,
                &mut self.forest,
                self.size,
                *number,
                call,
            ),
            Step::Transfer(sender, receiver) => transfer(
                &mut self.threads,
                &mut self.forest,
                self.size,
                *sender,
                *receiver,
            ),
            Step::Expire(number) => {
                let ended = expire(&mut self.threads, *number);
                wait_result(ended, Outcome::Expired, *number)
            }
            Step::Cancel(waiter, cause) => {
                let ended = cancel(&mut self.threads, *waiter, *cause);
                wait_result(ended, Outcome::Canceled, *waiter)
            }
        }
    }

    /// Executes the step that starts this call, and overwrites the answer that you pass. Its errors are those of
    /// `step`. After an error, the content of the answer is unspecified.
    pub fn start(&mut self, number: u32, call: &Call, answer: &mut Answer) -> Result<(), Refused>
        ensures ok { IfOk result
            (λ _. Steps self.old (Start number call.now) (Ok answer.new) self.new) }
        ensures err { IfErr result (λ e. Steps self.old (Start number call.now) (Err e) self.new) }
    {
        start(
            &mut self.threads,
            &mut self.forest,
            self.size,
            number,
            call,
            answer,
        )
    }

    /// Ends the wait of this thread with ErrorCode 2 or 3 (timeout), or 6 or 7 (canceled): the even one if it sends, the odd one if it
    /// receives. A receive phase that would have followed does not begin. The embedder decides when this happens, so it owns the clock.
    ///
    /// Returns `NotEnabled` (K1) if no thread with this number waits. Then nothing changes.
    pub fn cancel(&mut self, number: u32, cause: CancelCause) -> Result<(), Refused>
        ensures { Steps self.old (Cancel number cause) (canceled_if number result) self.new }
    {
        cancel(&mut self.threads, number, cause)
    }

    /// Ghost function: gives a proof the invariant that the queue is a strict order of the senders. It compiles to nothing.
    pub fn law_consistent(&self)
        ensures { IsConsistent self.now.threads }
    {
        self.threads.law_consistent();
    }

    /// Ghost function: gives a proof the invariant that the mappings are a forest. The rights of a child are within
    /// those of its parent, and all places of a frame form one tree. It compiles to nothing.
    pub fn law_forest(&self)
        ensures { IsForest self.now.mappings }
    {
        self.forest.law_forest();
    }

    /// Ghost function: gives a proof the invariant that each present page is below the number of pages in a space. It compiles to nothing.
    pub fn law_pages(&self)
        ensures { FitIn self.now.size self.now.mappings }
    {
        let _ = &self.size;
    }

    /// Executes steps one after another, and returns their answers and refusals in order. Room for all of them is
    /// allocated first; if that fails, it returns `NoMemory` and executes nothing.
    ///
    /// For delegations: each delivered message of a plan moves exactly its part of the region. The parts are
    /// disjoint, and together they are the region. No fewer items or messages move it.
    pub fn run(&mut self, steps: &[Step]) -> Result<Vec<Result<Answer, Refused>>, NoMemory>
        ensures err { OnErr result (self.new ≡ self.old) }
        ensures traced { IfOk result
            (λ answers. (events : List Event)
            × IsOnlyTrace self.old steps.now answers.items events self.new) }
        ensures provenance { IfOk result (λ answers. (frames : ℕ) (events : List Event) → IsBoot frames self.old → IsTrace self.old steps.now answers.items events self.new
            → HaveProvenance self.old.mappings events self.new.mappings) }
        ensures flushed { IfOk result (λ answers. (events : List Event) → IsTrace self.old steps.now answers.items events self.new
            → NoneThroughFlushed events self.new.mappings) }
        ensures delegations { IfOk result
            (λ answers. (events : List Event)
            → IsTrace self.old steps.now answers.items events self.new
            → All DeliversDelegations events) }
        ensures placed { IfOk result (λ answers. (events : List Event) → IsTrace self.old steps.now answers.items events self.new
            → All PlacesDelegations events) }
    {
        let mut answers = Vec::with_capacity(self.alloc, steps.len())?;
        self.law_forest();
        for step in steps {
            let answer = self.step(step);
            self.law_forest();
            let _ = answers.push(answer);
        }
        Ok(answers)
    }

    /// Returns the next step: the enabled Transfer whose sender is first in the queue; if there is none, the enabled
    /// Expire of the thread with the least number. Returns `None` if no Transfer and no Expire is enabled.
    pub fn enabled(&self) -> Option<Step>
        ensures { MatchOption result (IsIdle self.now) (IsNext self.now) }
    {
        if let Some((sender, receiver)) = self.threads.next_transfer() {
            return Some(Step::Transfer(sender, receiver));
        }
        let number = self.threads.next_expiry()?;
        Some(Step::Expire(number))
    }

    /// Executes the next step, which `enabled` names, and returns it with its answer, without a list of threads.
    /// Returns `None` if no step is enabled. The kernel remembers this, so that after the next call it tests only the
    /// thread that then waits.
    pub fn next(&mut self) -> Option<NextStep>
        ensures { MatchOption result (IsIdle self.old × (self.new ≡ self.old))
            (λ done. IsNext self.old (step_of done) × Steps self.old (step_of done) (Ok (answer_of done)) self.new) }
    {
        let enabled = self.threads.next_transfer();
        if let Some((from, to)) = enabled {
            let (outcome, ends) = carry_over(
                &mut self.threads,
                &mut self.forest,
                self.size,
                from,
                to,
            );
            return Some(NextStep::Transfer(from, to, outcome, ends));
        }
        let Some(number) = self.threads.next_expiry() else {
            self.threads.settle();
            return None;
        };
        let Ok(()) = expire(&mut self.threads, number) else {
            unreachable!()
        };
        Some(NextStep::Expire(number))
    }

    /// Returns the reply of the last ended call of a running thread.
    pub fn reply(&self, number: u32) -> Option<&Reply>
        ensures { option_copied result ≡ reply_of self.now.threads number }
    {
        self.threads.state(number)?.last_reply()
    }

    /// Returns whether there is a thread with this number that is running, that is, not waiting.
    pub fn runs(&self, number: u32) -> bool
        ensures { result ≡ runs self.now.threads number }
    {
        match self.threads.state(number) {
            Some(state) => state.is_running(),
            None => false,
        }
    }

    /// Returns the number of a thread's space.
    pub fn space_of(&self, number: u32) -> Option<u64>
        ensures { result ≡ space_of self.now.threads number }
    {
        self.threads.space_of(number)
    }

    /// Returns the thread with this number: its id, space, pager and state.
    pub fn thread(&self, number: u32) -> Option<&Thread>
        ensures { option_copied result ≡ thread_at self.now.threads number }
    {
        self.threads.thread(number)
    }

    /// Returns the least number of a thread that is at least `from`, or `None`.
    pub fn next_thread(&self, from: u32) -> Option<u32>
        ensures { MatchOption result (NoThreadFrom self.now.threads from)
            (IsNextThread self.now.threads from) }
    {
        self.threads.next_thread(from)
    }

    /// Returns the least number of a space that is at least `from`, or `None`.
    pub fn next_space(&self, from: u64) -> Option<u64>
        ensures { MatchOption result (NoSpaceFrom self.now.mappings from)
            (IsNextSpace self.now.mappings from) }
    {
        self.forest.next_space(from)
    }

    /// Returns the threads with their states, and the queue of senders.
    pub fn threads(&self) -> &Threads
        ensures { result.now ≡ self.now.threads }
    {
        &self.threads
    }

    /// Returns the size of pages and frames, which was chosen at boot.
    pub fn page_size(&self) -> PageSize
        ensures { result ≡ self.now.size }
    {
        self.size
    }

    /// Returns the mapping at a page of a space, or `None` if the page is not present.
    #[inline]
    pub fn mapping(&self, space: u64, page: u32) -> Option<Mapping>
        ensures { result ≡ shown self.now.mappings (record { space = space; page = page }) }
    {
        self.forest.at(space, page)
    }

    /// Returns the places that descend from a page of a space, each once: none if the page is not present. The number
    /// of steps depends only on the number of these places. Returns `NoMemory` if an allocation failed.
    pub fn descendants(&self, space: u64, page: u32) -> Result<Vec<l4_forest::Place>, NoMemory>
        ensures { IfOk result
            (λ places. AreDescendants self.now.mappings (record { space = space; page = page })
            places.items) }
    {
        self.forest
            .descendants(self.alloc, l4_forest::Place { space, page })
    }

    /// Returns the least present page of a space that is at least `page`, or `None`.
    pub fn next_page(&self, space: u64, page: u32) -> Option<u32>
        ensures { MatchOption result (NonePresentFrom self.now.mappings space page)
            (IsNextPresent self.now.mappings space page) }
    {
        self.forest.next_present(space, page)
    }
}
