//! The threads with their numbers, in the order of their creation. A thread is found among the numbers alone.
ghost use Rattle.std.specs.Prelude.{IsTrue, ◌≡◌, ◌≢◌, ◌==◌, ◌++◌, ◌∷◌, ◌<◌, ◌≤◌, [], length, filter, not, MatchOption, IfOk, IfSome, Some, None};
ghost use Rattle.std.specs.Option.{option_copied};
ghost use Rattle.l4_threads.specs.Inside.Entries.{sends_in};
ghost use Rattle.l4_threads.specs.Queue.{is_in, IsOnce};
ghost use Rattle.l4_threads.specs.Inside.Numbers.{IsFirst, IsNowhere, hint_count};
ghost use Rattle.l4_threads.specs.Sizes.{max_threads};

use crate::entries::{free_all, hand_over};
use crate::{Envelope, MAX_THREADS, Receiving, Reply, SendPhase, Thread, ThreadId, Wordless};
use arrayvec::ArrayVec;
use l4_msg::Item;
use std::alloc::{AllocError, Global};
use std::marker::Model;

/// The number of hints.
const HINTS: usize = 256;

/// The threads, a second list of their numbers, and for the remainder of each number the index where its thread may be.
#[derive(Drop)]
pub struct Roster {
    /// In memory of its own, with room for all threads from the start: a thread is too large to be moved about.
    entries: Vec<(u32, Thread)>,
    numbers: ArrayVec<u32, MAX_THREADS>,
    hints: [u8; HINTS],
}

impl Model for Roster {
    ghost use Rattle.std.specs.Coded.{coded×, coded_ℕ, coded_list};
    ghost use Rattle.l4_threads.specs.contracts.Thread as thread;
    ghost use Rattle.l4_threads.specs.Inside.Entries.{Entries};
    ghost use Rattle.l4_threads.specs.Inside.Numbers.{IsRoster};
    ghost use Rattle.std.specs.Prelude.{vec_capacity};

    ghost Value = { Entries };

    ghost coded = { coded_list (coded× coded_ℕ thread.the_row.coded) };

    ghost view = { λ r. r.entries.items };

    ghost invariant = { λ r. IsRoster r.numbers.items r.hints r.entries.items (vec_capacity r.entries) };
}

impl Clone for Roster {
    ghost use Rattle.std.specs.Prelude.{◌≡◌};

    ghost is_clone = { λ roster copy. copy ≡ roster };

    fn clone(&self) -> Result<Self, AllocError> {
        let mut entries = Vec::with_capacity(*self.entries.allocator(), MAX_THREADS)?;
        entries.extend_with_clones(self.entries.as_slice())?;
        let numbers = self.numbers.clone()?;
        Ok(Roster {
            entries,
            numbers,
            hints: self.hints,
        })
    }
}

/// Returns the index of the number.
fn place_of(numbers: &[u32], number: u32) -> Option<usize>
    ensures { MatchOption result (IsNowhere numbers.now number) (IsFirst numbers.now number) }
{
    for (i, other) in numbers.iter().enumerate() {
        if *other == number {
            return Some(i);
        }
    }
    None
}

/// Returns the index of the number, by a search. It is rarely needed, because the number is mostly at its hint.
#[cold]
fn place_among(numbers: &[u32], number: u32) -> Option<usize>
    ensures { MatchOption result (IsNowhere numbers.now number) (IsFirst numbers.now number) }
{
    place_of(numbers, number)
}

/// Sets the hint of each number.
fn hint_all(hints: &mut [u8], numbers: &[u32])
    requires counted { length hints.old ≡ hint_count }
    requires few { length numbers.now ≤ max_threads }
    ensures { length hints.new ≡ hint_count }
{
    for place in 0..numbers.len() {
        hints[numbers[place] as usize % HINTS] = place as u8;
    }
}

impl Roster {
    ghost use Rattle.l4_threads.specs.Inside.Entries.{IsAt, found, changed_in, in_state, in_pager, freed_in, without_in};
    ghost use Rattle.l4_threads.specs.declared.State.TheVariants.{Running, Sending as Sends, Receiving as Receives};
    ghost use Rattle.l4_threads.specs.declared.Reply.TheVariants.{Ipc};
    ghost use Rattle.l4_msg.specs.Sizes.{max_words, max_items};
    ghost use Rattle.l4_threads.specs.Threads.{sending_of, message_of};
    ghost use Rattle.l4_threads.specs.Endings.{wordless_reply};
    ghost use Rattle.l4_threads.specs.Inside.Passing.{Passes};

    /// Creates a roster without threads, with room for all.
    pub fn new(alloc: Global) -> Result<Roster, AllocError>
        ensures { IfOk result (λ roster. roster ≡ []) }
    {
        let entries = Vec::with_capacity(alloc, MAX_THREADS)?;
        Ok(Roster {
            entries,
            numbers: ArrayVec::new(),
            hints: [0; HINTS],
        })
    }

    /// Returns the threads with their numbers.
    pub fn as_slice(&self) -> &[(u32, Thread)]
        ensures value { result.now ≡ self.now }
        ensures fits { length result.now ≤ max_threads }
    {
        self.entries.as_slice()
    }

    /// Returns whether there is no room for another thread.
    pub fn is_full(&self) -> bool
        ensures { result ≡ (length self.now == max_threads) }
    {
        self.entries.len() == MAX_THREADS
    }

    /// Adds a thread.
    pub fn push(&mut self, number: u32, thread: Thread)
        requires room { length self.old < max_threads }
        requires free { found self.old number ≡ None }
        ensures { self.new ≡ self.old ++ (number, thread) ∷ [] }
    {
        self.hints[number as usize % HINTS] = self.entries.len() as u8;
        let _ = self.entries.push((number, thread));
        self.numbers.push(number);
    }

    /// Returns the index of the thread with this number, from its hint or by a search.
    #[inline(always)]
    fn place(&self, number: u32) -> Option<usize>
        ensures { MatchOption result (found self.now number ≡ None) (IsAt self.now number) }
    {
        let numbers = self.numbers.as_slice();
        let hint = self.hints[number as usize % HINTS] as usize;
        if hint < numbers.len() && numbers[hint] == number {
            return Some(hint);
        }
        place_among(numbers, number)
    }

    /// Returns the thread with this number.
    pub fn thread(&self, number: u32) -> Option<&Thread>
        ensures { option_copied result ≡ found self.now number }
    {
        let at = self.place(number)?;
        let entries = self.entries.as_slice();
        Some(&entries[at].1)
    }

    /// Ends the call of the thread of this number with this reply, so that it runs. Returns whether it was sending.
    pub fn run(&mut self, number: u32, reply: Reply) -> bool
        requires { found self.old number ≢ None }
        ensures sent { result ≡ sends_in self.old number }
        ensures value { self.new ≡ changed_in self.old number (in_state (Running (Some reply))) }
    {
        let Some(at) = self.place(number) else {
            return false;
        };
        let sent = self.entries[at].1.state.is_sending();
        self.entries[at].1.state.run(reply);
        sent
    }

    /// Ends the call of the thread of this number without words, so that it runs. Returns whether it was sending.
    pub fn end(&mut self, number: u32, ending: Wordless) -> bool
        requires { found self.old number ≢ None }
        ensures sent { result ≡ sends_in self.old number }
        ensures value { self.new
            ≡ changed_in self.old number (in_state (Running (Some (wordless_reply ending)))) }
    {
        let Some(at) = self.place(number) else {
            return false;
        };
        let sent = self.entries[at].1.state.is_sending();
        self.entries[at].1.state.end(ending);
        sent
    }

    /// Ends the Ipc of the thread of this number with these words, so that it runs. Returns whether it was sending.
    pub fn reply(&mut self, number: u32, envelope: Envelope, words: &[u32]) -> bool
        requires there { found self.old number ≢ None }
        requires words { length words.now ≤ max_words }
        ensures sent { result ≡ sends_in self.old number }
        ensures value { self.new
            ≡ changed_in self.old number
            (in_state (Running (Some (Ipc (message_of envelope words.now))))) }
    {
        let Some(at) = self.place(number) else {
            return false;
        };
        let sent = self.entries[at].1.state.is_sending();
        self.entries[at].1.state.answer(envelope, words);
        sent
    }

    /// Ends the Ipc of the receiver with the words of the sender, so that the receiver runs.
    #[inline(always)]
    pub fn pass(&mut self, sender: u32, receiver: u32, envelope: Envelope)
        requires there { found self.old receiver ≢ None }
        requires sends { IsTrue (sends_in self.old sender) }
        requires other { sender ≢ receiver }
        ensures { Passes self.old sender receiver envelope self.new }
    {
        let Some(from) = self.place(sender) else {
            return;
        };
        let Some(at) = self.place(receiver) else {
            return;
        };
        hand_over(self.entries.as_mut_slice(), from, at, envelope);
    }

    /// Makes the thread of this number send.
    #[inline(always)]
    pub fn send(&mut self, number: u32, words: &[u32], items: &[Item], phase: SendPhase)
        requires there { found self.old number ≢ None }
        requires words { length words.now ≤ max_words }
        requires items { length items.now ≤ max_items }
        ensures { self.new
            ≡ changed_in self.old number (in_state (Sends (sending_of words.now items.now phase))) }
    {
        if let Some(at) = self.place(number) {
            self.entries[at].1.state.send(words, items, phase);
        }
    }

    /// Makes the thread of this number receive. Returns whether it was sending.
    pub fn receive(&mut self, number: u32, receiving: Receiving) -> bool
        requires { found self.old number ≢ None }
        ensures sent { result ≡ sends_in self.old number }
        ensures value { self.new ≡ changed_in self.old number (in_state (Receives receiving)) }
    {
        let Some(at) = self.place(number) else {
            return false;
        };
        let sent = self.entries[at].1.state.is_sending();
        self.entries[at].1.state.receive(receiving);
        sent
    }

    /// Gives the thread of this number another pager.
    pub fn set_pager(&mut self, number: u32, pager: ThreadId)
        requires { found self.old number ≢ None }
        ensures { self.new ≡ changed_in self.old number (in_pager pager) }
    {
        if let Some(at) = self.place(number) {
            self.entries[at].1.pager = pager;
        }
    }

    /// Ends each wait for the victim.
    pub fn free(&mut self, victim: u32)
        ensures { self.new ≡ freed_in self.old victim }
    {
        free_all(self.entries.as_mut_slice(), victim);
    }

    /// Removes the thread of this number.
    pub fn remove(&mut self, number: u32)
        ensures { self.new ≡ without_in self.old number }
    {
        self.entries.retain(|entry| entry.0 != number);
        self.numbers.retain(|other| *other != number);
        hint_all(&mut self.hints, self.numbers.as_slice());
    }

    /// Returns whether there is a sending thread with this number.
    fn sends(&self, number: u32) -> bool
        ensures { result ≡ sends_in self.now number }
    {
        match self.thread(number) {
            Some(thread) => thread.state.is_sending(),
            None => false,
        }
    }
}

/// Keeps in the queue only the threads that send.
pub fn keep_senders(queue: &mut ArrayVec<u32, MAX_THREADS>, roster: &Roster)
    ensures { queue.new.items ≡ filter (sends_in roster.now) queue.old.items }
{
    queue.retain(|m| roster.sends(*m));
}

/// Takes the number out of the queue.
fn leave(queue: &mut ArrayVec<u32, MAX_THREADS>, number: u32)
    requires { IsOnce queue.old.items }
    ensures { queue.new.items ≡ filter (λ m. not (m == number)) queue.old.items }
{
    if let Some(at) = place_of(queue.as_slice(), number) {
        queue.remove(at);
    }
}

/// Removes the number from the queue, if that thread was sending. Otherwise it is not in the queue.
#[inline(always)]
pub fn leave_if(queue: &mut ArrayVec<u32, MAX_THREADS>, sent: bool, number: u32)
    requires once { IsOnce queue.old.items }
    requires senders { is_in queue.old.items number ≡ sent }
    ensures { queue.new.items ≡ filter (λ m. not (m == number)) queue.old.items }
{
    if sent {
        leave(queue, number);
    }
}
