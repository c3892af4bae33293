//! The table of threads, and the queue of senders.
ghost use Rattle.std.specs.Prelude.{◌≡◌, ◌≤◌, ◌↔◌, ◌++◌, length, drop, ◌∷◌, [], ℕ, IsTrue, IsSome, IfOk, OnErr, MatchOption, MatchResult, Some, None, Ok, Err, filter, not, ◌==◌};
ghost use Rattle.std.specs.Option.{option_copied};
ghost use Rattle.std.specs.FinSet as set;
ghost use Rattle.std.specs.List.Sorted.{IsStrictlyIncreasing};

use crate::entries::{
    add_transfer, any_expires, any_receives, ended_by, expires_beside, is_inhabited, lesser,
};
use crate::focus::Focus;
use crate::roster::{Roster, keep_senders, leave_if};
use crate::{
    Activity, Deleted, Envelope, MAX_THREADS, Receiving, Reply, SendPhase, Sending, Thread,
    ThreadFault, ThreadId, Wordless,
};
use arrayvec::ArrayVec;
use l4_msg::Item;
use std::alloc::{AllocError, Global};
use std::marker::Model;

/// The number of root's space.
pub const ROOT_SPACE: u64 = 1;

/// The greatest number of a space.
const LAST_SPACE: u64 = u64::MAX - 1;

/// At most 64 threads, and the queue of senders.
#[derive(Drop)]
pub struct Threads {
    threads: Roster,
    queue: ArrayVec<u32, MAX_THREADS>,
    next_space: u64,
    focus: Focus,
}

impl Model for Threads {
    ghost use Rattle.std.specs.Coded.{coded_ℕ};
    ghost use Rattle.l4_threads.specs.contracts.Thread as thread;
    ghost use Rattle.l4_threads.specs.Threads.{Threads as Seen, threads_code};

    ghost Value = { Seen };

    ghost coded = { threads_code thread.the_row.coded };

    ghost use Rattle.l4_threads.specs.Inside.Kept.{seen, IsKept};

    ghost view = { seen };

    ghost invariant = { IsKept };
}

impl Clone for Threads {
    ghost use Rattle.std.specs.Prelude.{◌≡◌};

    ghost is_clone = { λ threads copy. copy ≡ threads };

    /// Returns the same threads with their message registers, and the same queue of senders, in memory of their own, as much as `boot`
    /// allocates. A change of one is not visible in the other.
    ///
    /// Returns `AllocError` if an allocation fails.
    fn clone(&self) -> Result<Self, AllocError> {
        Ok(Threads {
            threads: self.threads.clone()?,
            queue: self.queue.clone()?,
            next_space: self.next_space,
            focus: self.focus,
        })
    }
}

ghost use Rattle.l4_threads.specs.Enabled.{offers_to};

/// Returns whether the one state sends to the thread of the other, which accepts its message.
fn offers(sends: Option<&Activity>, takes: Option<&Activity>, sender: u32, receiver: u32) -> bool
    ensures { result
        ≡ offers_to (option_copied sends.entry) (option_copied takes.entry) sender receiver }
{
    let Some(from) = sends else {
        return false;
    };
    let Some(sending) = from.sending() else {
        return false;
    };
    let Some(to) = takes else {
        return false;
    };
    let Some(receiving) = to.receiving() else {
        return false;
    };
    sending.to == receiver && receiving.from.takes(sender)
}

impl Threads {
    ghost use Rattle.l4_threads.specs.Threads.{thread_at, state_of, space_of, named, number_of, runs, sends, may_receive, with_state, sending_of, message_of, start_send, start_receive, end_call, first_threads, IsConsistent, Before};
    ghost use Rattle.l4_threads.specs.declared.Reply.TheVariants.{Ipc};
    ghost use Rattle.l4_threads.specs.declared.Sending.{Sending as ASending};
    ghost use Rattle.l4_threads.specs.declared.State.TheVariants.{Sending as Sends};
    ghost use Rattle.l4_threads.specs.Endings.{wordless_reply};
    ghost use Rattle.l4_threads.specs.Enabled.{Offers, IsFirstSender, IsNextTransfer, CanExpire, IsNextExpiry};
    ghost use Rattle.l4_threads.specs.Listed.{NoThreadFrom, IsNextThread};
    ghost use Rattle.l4_threads.specs.Inside.Taker.{taker, TakesPart};
    ghost use Rattle.l4_threads.specs.Inside.Transfers.{AreTransfers};
    ghost use Rattle.l4_threads.specs.Control.{is_privileged, space_for, is_full, create_test, CanCreate, created, set_pager_test, with_pager, delete_test, Deletes, IsEndedList, HasEnded, TellsEnd};
    ghost use Rattle.l4_msg.specs.Sizes.{max_words, max_items};
    ghost use Rattle.l4_threads.specs.Inside.Ending.{ends_at};
    ghost use Rattle.l4_threads.specs.Queue.{pairs_of, IsOnce, is_in};

    /// Returns the threads at boot: thread 1, sigma0, in space 0 and without a pager, and thread 2, root, in space 1
    /// with pager sigma0. Both are running, and the next new space is 2. Room for all threads is allocated here, and
    /// none later. Returns an error if that allocation failed.
    pub fn boot(alloc: Global) -> Result<Threads, AllocError>
        ensures { IfOk result (λ threads. threads ≡ first_threads) }
    {
        let mut threads = Roster::new(alloc)?;
        threads.push(
            1,
            Thread {
                id: ThreadId(0x4001),
                space: 0,
                pager: ThreadId(0),
                state: Activity::idle(),
            },
        );
        threads.push(
            2,
            Thread {
                id: ThreadId(0x8001),
                space: ROOT_SPACE,
                pager: ThreadId(0x4001),
                state: Activity::idle(),
            },
        );
        Ok(Threads {
            threads,
            queue: ArrayVec::new(),
            next_space: 2,
            focus: Focus::Nobody,
        })
    }

    /// Returns the number of the next new space.
    pub fn new_space(&self) -> u64
        ensures { result ≡ self.now.next_space }
    {
        self.next_space
    }

    /// Raises the number of the next new space. The numbers below it that no space has are never used.
    pub fn skip_spaces(&mut self, next: u64)
        requires { self.old.next_space ≤ next }
        ensures { self.new ≡ record self.old { next_space = next } }
    {
        self.next_space = next;
    }

    /// Returns the least number of a thread that is at least `from`, or `None`.
    pub fn next_thread(&self, from: u32) -> Option<u32>
        ensures { MatchOption result (NoThreadFrom self.now from) (IsNextThread self.now from) }
    {
        let mut least = None;
        for entry in self.threads.as_slice() {
            if entry.0 >= from {
                least = Some(lesser(least, entry.0));
            }
        }
        least
    }

    /// Returns the thread with this number.
    pub fn thread(&self, number: u32) -> Option<&Thread>
        ensures { option_copied result ≡ thread_at self.now number }
    {
        self.threads.thread(number)
    }

    /// Returns the state of the thread with this number.
    pub fn state(&self, number: u32) -> Option<&Activity>
        ensures { option_copied result ≡ state_of self.now number }
    {
        let thread = self.thread(number)?;
        Some(&thread.state)
    }

    /// Returns the space of the thread with this number.
    pub fn space_of(&self, number: u32) -> Option<u64>
        ensures { result ≡ space_of self.now number }
    {
        let thread = self.thread(number)?;
        Some(thread.space)
    }

    /// Returns the number of the thread that has exactly this id.
    pub fn named(&self, id: ThreadId) -> Option<u32>
        ensures { result ≡ named self.now id }
    {
        let number = id.number();
        let thread = self.thread(number)?;
        if thread.id.0 == id.0 {
            Some(number)
        } else {
            None
        }
    }

    /// Returns the number of the first thread in the queue whose message the receiver accepts.
    pub fn first_sender(&self, receiver: u32) -> Option<u32>
        ensures { MatchOption result ((s : ℕ) → ¬ (Offers self.now s receiver))
            (IsFirstSender self.now receiver) }
    {
        let takes = self.state(receiver);
        for sender in self.queue.as_slice() {
            if offers(self.state(*sender), takes, *sender, receiver) {
                return Some(*sender);
            }
        }
        None
    }

    /// Returns whether the transfer from the sender to the receiver is enabled.
    pub fn can_transfer(&self, sender: u32, receiver: u32) -> bool
        ensures { IsTrue result ↔ IsFirstSender self.now receiver sender }
    {
        self.law_consistent();
        self.first_sender(receiver) == Some(sender)
    }

    /// Returns the number of the thread to which the sender sends, if that thread accepts its message.
    fn taker(&self, sender: u32) -> Option<u32>
        ensures { result ≡ taker self.now sender }
    {
        let sends = self.state(sender);
        let sending = sends?.sending()?;
        let receiver = sending.to;
        if offers(sends, self.state(receiver), sender, receiver) {
            Some(receiver)
        } else {
            None
        }
    }

    /// Returns whether the thread of this number sends.
    fn sends(&self, number: u32) -> bool
        ensures { result ≡ sends self.now number }
    {
        match self.state(number) {
            Some(state) => state.is_sending(),
            None => false,
        }
    }

    /// Returns the enabled transfer in which this thread takes part, if the thread takes part in every enabled transfer.
    #[tactic(auto, using(crate::proofs::ActingLemmas::none_to, crate::proofs::ActingLemmas::none_from, crate::proofs::ActingLemmas::next_to, crate::proofs::ActingLemmas::next_from))]
    #[inline(always)]
    fn transfer_of(&self, number: u32) -> Option<(u32, u32)>
        requires { TakesPart self.now number }
        ensures { MatchOption result ((s r : ℕ) → ¬ (IsFirstSender self.now r s))
            (IsNextTransfer self.now) }
    {
        self.law_consistent();
        if self.sends(number) {
            let receiver = self.taker(number)?;
            return Some((number, receiver));
        }
        let sender = self.first_sender(number)?;
        Some((sender, number))
    }

    /// Returns the enabled transfer whose sender is first in the queue, by a search.
    fn first_transfer(&self) -> Option<(u32, u32)>
        ensures { MatchOption result ((s r : ℕ) → ¬ (IsFirstSender self.now r s))
            (IsNextTransfer self.now) }
    {
        if !any_receives(self.threads.as_slice()) {
            return None;
        }
        for sender in self.queue.as_slice() {
            if let Some(receiver) = self.taker(*sender) {
                return Some((*sender, receiver));
            }
        }
        None
    }

    /// Returns the enabled transfer whose sender is first in the queue: the sender's number and the receiver's.
    #[inline(always)]
    pub fn next_transfer(&self) -> Option<(u32, u32)>
        ensures { MatchOption result ((s r : ℕ) → ¬ (IsFirstSender self.now r s))
            (IsNextTransfer self.now) }
    {
        match self.focus {
            Focus::Nobody => None,
            Focus::One(number) => self.transfer_of(number),
            Focus::Anybody => self.first_transfer(),
        }
    }

    /// Returns whether the thread waits with a zero timeout and takes part in no enabled transfer.
    pub fn can_expire(&self, number: u32) -> bool
        ensures { IsTrue result ↔ CanExpire self.now number }
    {
        let Some(state) = self.state(number) else {
            return false;
        };
        if let Some(sending) = state.sending() {
            let to = sending.to;
            return sending.expires && !self.can_transfer(number, to);
        }
        let Some(receiving) = state.receiving() else {
            return false;
        };
        receiving.expires && self.first_sender(number).is_none()
    }

    /// Returns the enabled transfers: the numbers of the sender and the receiver of each.
    fn transfers(&self) -> ArrayVec<(u32, u32), MAX_THREADS>
        ensures { AreTransfers self.now result.items }
    {
        let mut transfers = ArrayVec::new();
        for sender in self.queue.as_slice() {
            if let Some(receiver) = self.taker(*sender) {
                add_transfer(&mut transfers, *sender, receiver);
            }
        }
        transfers
    }

    /// Returns the least number of a thread that can expire, by a search.
    fn first_expiry(&self) -> Option<u32>
        ensures { MatchOption result ((n : ℕ) → ¬ (CanExpire self.now n)) (IsNextExpiry self.now) }
    {
        if !any_expires(self.threads.as_slice()) {
            return None;
        }
        self.law_consistent();
        let transfers = self.transfers();
        let mut least = None;
        for entry in self.threads.as_slice() {
            if expires_beside(transfers.as_slice(), entry) {
                least = Some(lesser(least, entry.0));
            }
        }
        least
    }

    /// Returns the least number of a thread that can expire.
    #[inline(always)]
    pub fn next_expiry(&self) -> Option<u32>
        ensures { MatchOption result ((n : ℕ) → ¬ (CanExpire self.now n)) (IsNextExpiry self.now) }
    {
        match self.focus {
            Focus::Nobody => None,
            Focus::One(number) => {
                if self.can_expire(number) {
                    Some(number)
                } else {
                    None
                }
            }
            Focus::Anybody => self.first_expiry(),
        }
    }

    /// Remembers that nothing is enabled, so that only the next thread that waits has to be tested. Nothing visible
    /// changes.
    pub fn settle(&mut self)
        requires no_transfer { (s r : ℕ) → ¬ (IsFirstSender self.old r s) }
        requires no_expiry { (n : ℕ) → ¬ (CanExpire self.old n) }
        ensures { self.new ≡ self.old }
    {
        self.focus = Focus::Nobody;
    }

    /// Returns the senders' numbers, in the order in which their sends began.
    pub fn queue(&self) -> &[u32]
        ensures pairs { self.now.before ≡ set.from_list (pairs_of result.now) }
        ensures senders { (n : ℕ) → is_in result.now n ≡ sends self.now n }
        ensures once { IsOnce result.now }
    {
        self.queue.as_slice()
    }

    /// Ghost function: gives a proof the invariant of the threads. It compiles to nothing.
    pub fn law_consistent(&self)
        ensures { IsConsistent self.now }
    {
        let _ = &self.threads;
    }

    /// Makes a running thread send. It goes to the end of the queue.
    pub fn start_send(&mut self, number: u32, sending: Sending)
        requires { IsTrue (runs self.old number) }
        ensures { self.new ≡ start_send self.old number sending }
    {
        let phase = SendPhase {
            to: sending.to,
            expires: sending.expires,
            then: sending.then,
            fault: sending.fault,
        };
        self.start_message(
            number,
            sending.words.as_slice(),
            sending.items.as_slice(),
            phase,
        );
    }

    /// Makes a running thread send these words, which contain these items. It goes to the end of the queue.
    #[inline(always)]
    pub fn start_message(&mut self, number: u32, words: &[u32], items: &[Item], phase: SendPhase)
        requires running { IsTrue (runs self.old number) }
        requires words { length words.now ≤ max_words }
        requires items { length items.now ≤ max_items }
        ensures { self.new ≡ start_send self.old number (sending_of words.now items.now phase) }
    {
        self.threads.send(number, words, items, phase);
        self.queue.push(number);
        self.focus = self.focus.with_waiting(number);
    }

    /// Makes a running or sending thread receive. It leaves the queue.
    #[inline(always)]
    pub fn start_receive(&mut self, number: u32, receiving: Receiving)
        requires { IsTrue (may_receive self.old number) }
        ensures { self.new ≡ start_receive self.old number receiving }
    {
        let sent = self.threads.receive(number, receiving);
        leave_if(&mut self.queue, sent, number);
        self.focus = self.focus.with_waiting(number);
    }

    /// Ends the call of a thread with this reply, in any state. The thread leaves the queue.
    pub fn end_call(&mut self, number: u32, reply: Reply)
        requires { IsSome (state_of self.old number) }
        ensures { self.new ≡ end_call self.old number reply }
    {
        let sent = self.threads.run(number, reply);
        leave_if(&mut self.queue, sent, number);
        self.focus = self.focus.with_running(number);
    }

    /// Ends the call of a thread with this reply, in any state. The thread leaves the queue.
    pub fn end_wordless(&mut self, number: u32, ending: Wordless)
        requires { IsSome (state_of self.old number) }
        ensures { self.new ≡ end_call self.old number (wordless_reply ending) }
    {
        let sent = self.threads.end(number, ending);
        leave_if(&mut self.queue, sent, number);
        self.focus = self.focus.with_running(number);
    }

    /// Ends an Ipc of a thread with this reply, in any state. The thread leaves the queue.
    pub fn end_ipc(&mut self, number: u32, envelope: Envelope, words: &[u32])
        requires there { IsSome (state_of self.old number) }
        requires words { length words.now ≤ max_words }
        ensures { self.new ≡ end_call self.old number (Ipc (message_of envelope words.now)) }
    {
        let sent = self.threads.reply(number, envelope, words);
        leave_if(&mut self.queue, sent, number);
        self.focus = self.focus.with_running(number);
    }

    /// Ends an Ipc of the receiver with the sender's words after their tag. The transfer is enabled, and the sender
    /// stays sending.
    #[inline(always)]
    pub fn pass_message(&mut self, sender: u32, receiver: u32, envelope: Envelope)
        requires { IsFirstSender self.old receiver sender }
        ensures { (sending : ASending) → state_of self.old sender ≡ Some (Sends sending)
            → self.new ≡ end_call self.old receiver (Ipc (message_of envelope (drop 1 sending.words.items))) }
    {
        self.threads.pass(sender, receiver, envelope);
        self.focus = self.focus.with_running(receiver);
    }

    /// Returns whether the caller is in the root space.
    fn is_privileged(&self, caller: u32) -> bool
        ensures { result ≡ is_privileged self.now caller }
    {
        match self.space_of(caller) {
            Some(space) => space == ROOT_SPACE,
            None => false,
        }
    }

    /// Returns the space of a new thread: the one that `space` names, or a new one if it requests that.
    fn space_for(&self, id: ThreadId, space: ThreadId) -> Option<u64>
        ensures { result ≡ space_for self.now id space }
    {
        if space.0 == id.0 {
            Some(self.next_space)
        } else {
            let number = self.named(space)?;
            self.space_of(number)
        }
    }

    /// Returns whether no thread can be created, or, if a new space is requested, none in a new space.
    fn is_full(&self, new_space: bool) -> bool
        ensures { result ≡ is_full self.now new_space }
    {
        self.threads.is_full() || (new_space && self.next_space > LAST_SPACE)
    }

    /// Returns the space that `create` would use: that of the thread that `space` names, or a new one if `space` is
    /// `id` itself (L4 X.2 manual, ThreadControl). Changes nothing.
    ///
    /// Errors, in this order: `NoPrivilege` (the caller is not in root's space), `BadId` (the id is not valid),
    /// `Taken` (its number exists), `Unknown` (`space` is another id and names no thread), `Full` (64 threads exist,
    /// or a new space is requested and the numbers are used up).
    pub fn test_create(
        &self,
        caller: u32,
        id: ThreadId,
        space: ThreadId,
    ) -> Result<u64, ThreadFault>
        ensures value { result ≡ create_test self.now caller id space }
        ensures ready { IfOk result (CanCreate self.now id) }
    {
        self.law_consistent();
        if !self.is_privileged(caller) {
            return Err(ThreadFault::NoPrivilege);
        }
        if id.is_bad() {
            return Err(ThreadFault::BadId);
        }
        if self.thread(id.number()).is_some() {
            return Err(ThreadFault::Taken);
        }
        let Some(own) = self.space_for(id, space) else {
            return Err(ThreadFault::Unknown);
        };
        if self.is_full(space.0 == id.0) {
            return Err(ThreadFault::Full);
        }
        Ok(own)
    }

    /// Puts a new thread into the table, which runs. Where its space is the next new one, that number is used.
    fn add(&mut self, id: ThreadId, space: u64, pager: ThreadId)
        requires { CanCreate self.old id space }
        ensures { self.new ≡ created self.old id space pager }
    {
        self.threads.push(
            id.number(),
            Thread {
                id,
                space,
                pager,
                state: Activity::idle(),
            },
        );
        if space == self.next_space {
            self.next_space += 1;
        }
    }

    /// Creates a thread, which runs at once, and returns its space: that of the thread that `space` names, or a new
    /// one if `space` is `id` itself (L4 X.2 manual, ThreadControl). The pager need not exist.
    ///
    /// Errors: those of `test_create`, in the same order. They change nothing.
    pub fn create(
        &mut self,
        caller: u32,
        id: ThreadId,
        space: ThreadId,
        pager: ThreadId,
    ) -> Result<u64, ThreadFault>
        ensures test { result ≡ create_test self.old caller id space }
        ensures ok { IfOk result (λ own. self.new ≡ created self.old id own pager) }
        ensures err { OnErr result (self.new ≡ self.old) }
    {
        let own = match self.test_create(caller, id, space) {
            Ok(own) => own,
            Err(fault) => return Err(fault),
        };
        self.add(id, own, pager);
        Ok(own)
    }

    /// Changes the pager of the thread that `id` names (L4 X.2 manual, ThreadControl), and returns its number.
    ///
    /// Errors, in this order, which change nothing: `NoPrivilege` (the caller is not in root's space), `Unknown`
    /// (`id` names no thread).
    pub fn set_pager(
        &mut self,
        caller: u32,
        id: ThreadId,
        pager: ThreadId,
    ) -> Result<u32, ThreadFault>
        ensures test { result ≡ set_pager_test self.old caller id }
        ensures ok { IfOk result (λ n. self.new ≡ with_pager self.old n pager) }
        ensures err { OnErr result (self.new ≡ self.old) }
    {
        if !self.is_privileged(caller) {
            return Err(ThreadFault::NoPrivilege);
        }
        let Some(number) = self.named(id) else {
            return Err(ThreadFault::Unknown);
        };
        self.threads.set_pager(number, pager);
        Ok(number)
    }

    /// Returns the number of the thread that would be deleted, or the refusal.
    fn test_delete(&self, caller: u32, id: ThreadId) -> Result<u32, ThreadFault>
        ensures { result ≡ delete_test self.now caller id }
    {
        if !self.is_privileged(caller) {
            return Err(ThreadFault::NoPrivilege);
        }
        let Some(number) = self.named(id) else {
            return Err(ThreadFault::Unknown);
        };
        if number == 1 || (number == 2 || number == caller) {
            return Err(ThreadFault::Kept);
        }
        Ok(number)
    }

    /// Returns the numbers of the threads whose calls end with this one, in rising order.
    fn ended_with(&self, number: u32) -> ArrayVec<u32, MAX_THREADS>
        ensures rising { IsStrictlyIncreasing result.items }
        ensures each { (n : ℕ) → is_in result.items n ≡ ends_at self.now number n }
    {
        ended_by(self.threads.as_slice(), number)
    }

    /// Takes the thread out, and ends each wait for it.
    fn take_away(&mut self, number: u32)
        ensures { Deletes number self.old self.new }
    {
        self.threads.free(number);
        self.threads.remove(number);
        keep_senders(&mut self.queue, &self.threads);
    }

    /// Returns the space, if no thread is in it.
    fn without_thread(&self, space: u64) -> Option<u64>
        ensures { MatchOption result ((n : ℕ) × (space_of self.now n ≡ Some space))
            (λ s. (s ≡ space) × HasEnded self.now space) }
    {
        if is_inhabited(self.threads.as_slice(), space) {
            None
        } else {
            Some(space)
        }
    }

    /// Deletes the thread that `id` names (L4 X.2 manual, ThreadControl). Every other thread that is sending to it
    /// fails with ErrorCode 4, and every one that receives from it by name fails with ErrorCode 5.
    ///
    /// Errors, in this order, which change nothing: `NoPrivilege` (the caller is not in root's space), `Unknown`
    /// (`id` names no thread), `Kept` (it is sigma0, root or the caller).
    ///
    pub fn delete(&mut self, caller: u32, id: ThreadId) -> Result<Deleted, ThreadFault>
        ensures test { MatchResult result (λ d. delete_test self.old caller id ≡ Ok d.number)
            (λ e. delete_test self.old caller id ≡ Err e) }
        ensures ok { IfOk result (λ d. Deletes d.number self.old self.new) }
        ensures ended { IfOk result (λ d. IsEndedList self.old self.new d.ended.items) }
        ensures space { IfOk result (λ d. TellsEnd self.old self.new d.number d.space) }
        ensures err { OnErr result (self.new ≡ self.old) }
    {
        let number = match self.test_delete(caller, id) {
            Ok(number) => number,
            Err(fault) => return Err(fault),
        };
        let Some(space) = self.space_of(number) else {
            return Err(ThreadFault::Unknown);
        };
        let ended = self.ended_with(number);
        self.take_away(number);
        let space = self.without_thread(space);
        Ok(Deleted {
            number,
            ended,
            space,
        })
    }
}
