//! The states of threads, changed in place. A message has room for 64 words and 31 items, and writing a state as one
//! value would clear or copy all of that room. Here only what changes is written.
ghost use Rattle.std.specs.Prelude.{◌≡◌, ◌≤◌, length, drop, Some, None};
ghost use Rattle.std.specs.Option.{option_copied};
ghost use Rattle.l4_msg.specs.Sizes.{max_words, max_items};
ghost use Rattle.l4_threads.specs.Threads.{sending_of, message_of, is_running, is_sending};
ghost use Rattle.l4_threads.specs.Activities.{last_reply, sending_in, receiving_in};
ghost use Rattle.l4_threads.specs.Enabled.{expires};
ghost use Rattle.l4_threads.specs.Endings.{wordless_reply};
ghost use Rattle.l4_threads.specs.Inside.Ending.{frees, freed_reply};
ghost use Rattle.l4_threads.specs.Inside.Entries.{is_receiving};
ghost use Rattle.l4_threads.specs.declared.State.TheVariants.{Running, Sending as Sends, Receiving as Receives};
ghost use Rattle.l4_threads.specs.declared.Reply.TheVariants.{Ipc};
ghost use Rattle.l4_threads.specs.declared.Sending.{Sending as ASending};

use crate::{Envelope, IpcReply, Receiving, Reply, SendPhase, Sending, Source, ThreadId, Wordless};
use arrayvec::ArrayVec;
use l4_fpage::Fpage;
use l4_msg::Item;
use std::alloc::AllocError;
use std::marker::Model;

/// The parts of an activity that say what the thread is doing.
#[derive(Clone, Copy)]
enum Phase {
    /// None: the thread runs, and none of its calls has ended.
    New,
    /// The reply: the thread runs, and its last call ended with it.
    Running,
    /// The send phase.
    Sending,
    /// The receive phase.
    Receiving,
}

/// The state of a thread. Contracts see it as a `State`.
#[derive(Drop)]
pub struct Activity {
    phase: Phase,
    reply: Reply,
    sending: Sending,
    receiving: Receiving,
}

impl Model for Activity {
    ghost use Rattle.l4_threads.specs.declared.State.{State};
    ghost use Rattle.l4_threads.specs.contracts.State as state;
    ghost use Rattle.l4_threads.specs.Inside.Activities.{shown};

    ghost Value = { State };

    ghost coded = { state.the_row.coded };

    ghost view = { shown };
}

impl Clone for Activity {
    ghost use Rattle.std.specs.Prelude.{◌≡◌, ⊤};

    ghost is_clone = { λ activity copy. copy ≡ activity };

    ghost is_infallible = { λ _. ⊤ };

    fn clone(&self) -> Result<Self, AllocError> {
        Ok(Activity {
            phase: self.phase,
            reply: self.reply.clone()?,
            sending: self.sending.clone()?,
            receiving: self.receiving,
        })
    }
}

/// Overwrites the elements of the list with these. If the numbers are equal, none is cleared first, and if both lists are empty, nothing is
/// done.
#[inline]
fn refill<T: Copy + Default + Drop, const N: usize>(list: &mut ArrayVec<T, N>, elements: &[T])
    requires { length elements.now ≤ N }
    ensures { list.new.items ≡ elements.now }
{
    if list.is_empty() && elements.is_empty() {
        return;
    }
    if list.len() == elements.len() {
        return list.as_mut_slice().copy_from_slice(elements);
    }
    list.clear();
    let _ = list.try_extend_from_slice(elements);
}

/// Returns the reply of an Ipc, without content.
fn blank_reply() -> IpcReply {
    IpcReply {
        tag: 0,
        error: 0,
        from: ThreadId(0),
        words: ArrayVec::new(),
    }
}

impl Activity {
    /// Returns the state of a new thread: it is running, and none of its calls has ended.
    pub fn idle() -> Activity
        ensures { result ≡ Running None }
    {
        Activity {
            phase: Phase::New,
            reply: Reply::Ipc(blank_reply()),
            sending: Sending {
                words: ArrayVec::new(),
                items: ArrayVec::new(),
                to: 0,
                expires: false,
                then: None,
                fault: false,
            },
            receiving: Receiving {
                from: Source::Anyone,
                window: Fpage::Nil,
                expires: false,
                fault: false,
            },
        }
    }

    /// Returns the reply of the thread's last ended call, if the thread is running and a call has ended.
    pub fn last_reply(&self) -> Option<&Reply>
        ensures { option_copied result ≡ last_reply self.now }
    {
        match self.phase {
            Phase::Running => Some(&self.reply),
            _ => None,
        }
    }

    /// Returns the send phase of a sending thread.
    pub fn sending(&self) -> Option<&Sending>
        ensures { option_copied result ≡ sending_in self.now }
    {
        match self.phase {
            Phase::Sending => Some(&self.sending),
            _ => None,
        }
    }

    /// Returns the receive phase of a receiving thread.
    pub fn receiving(&self) -> Option<&Receiving>
        ensures { option_copied result ≡ receiving_in self.now }
    {
        match self.phase {
            Phase::Receiving => Some(&self.receiving),
            _ => None,
        }
    }

    /// Returns whether the thread is running, that is, not waiting.
    pub fn is_running(&self) -> bool
        ensures { result ≡ is_running self.now }
    {
        matches!(self.phase, Phase::New | Phase::Running)
    }

    /// Returns whether the thread is sending.
    pub fn is_sending(&self) -> bool
        ensures { result ≡ is_sending self.now }
    {
        matches!(self.phase, Phase::Sending)
    }

    /// Returns whether the thread is receiving.
    pub(crate) fn is_receiving(&self) -> bool
        ensures { result ≡ is_receiving self.now }
    {
        matches!(self.phase, Phase::Receiving)
    }

    /// Returns whether the thread waits with a zero timeout.
    pub(crate) fn expires(&self) -> bool
        ensures { result ≡ expires self.now }
    {
        match self.phase {
            Phase::New => false,
            Phase::Running => false,
            Phase::Sending => self.sending.expires,
            Phase::Receiving => self.receiving.expires,
        }
    }

    /// Returns whether the activity ends with the thread of this number: it sends to it, or receives from it by name.
    pub(crate) fn is_freed_by(&self, number: u32) -> bool
        ensures { result ≡ frees number self.now }
    {
        match self.phase {
            Phase::New => false,
            Phase::Running => false,
            Phase::Sending => self.sending.to == number,
            Phase::Receiving => match self.receiving.from {
                Source::Anyone => false,
                Source::Thread(from) => from == number,
            },
        }
    }

    /// Returns the reply of the call when its partner no longer exists.
    pub(crate) fn reply_without_partner(&self) -> Reply
        ensures { result ≡ freed_reply self.now }
    {
        match self.phase {
            Phase::New => Reply::Gone,
            Phase::Running => Reply::Gone,
            Phase::Sending => Reply::failed(self.sending.fault, 4),
            Phase::Receiving => Reply::failed(self.receiving.fault, 5),
        }
    }

    /// Makes the thread send.
    #[inline(always)]
    pub(crate) fn send(&mut self, words: &[u32], items: &[Item], phase: SendPhase)
        requires words { length words.now ≤ max_words }
        requires items { length items.now ≤ max_items }
        ensures { self.new ≡ Sends (sending_of words.now items.now phase) }
    {
        refill(&mut self.sending.words, words);
        refill(&mut self.sending.items, items);
        self.sending.to = phase.to;
        self.sending.expires = phase.expires;
        self.sending.then = phase.then;
        self.sending.fault = phase.fault;
        self.phase = Phase::Sending;
    }

    /// Makes the thread receive.
    pub(crate) fn receive(&mut self, receiving: Receiving)
        ensures { self.new ≡ Receives receiving }
    {
        self.receiving = receiving;
        self.phase = Phase::Receiving;
    }

    /// Makes the thread run, with this reply of its call.
    pub(crate) fn run(&mut self, reply: Reply)
        ensures { self.new ≡ Running (Some reply) }
    {
        self.reply = reply;
        self.phase = Phase::Running;
    }

    /// Makes the thread run, with this reply of its call. A reply is large, so nothing is written if the last one was the same.
    pub(crate) fn end(&mut self, ending: Wordless)
        ensures { self.new ≡ Running (Some (wordless_reply ending)) }
    {
        self.phase = Phase::Running;
        if !ending.is_same(&self.reply) {
            self.reply = ending.reply();
        }
    }

    /// Makes the thread run, with these words as the reply of its Ipc.
    #[inline(always)]
    pub(crate) fn answer(&mut self, envelope: Envelope, words: &[u32])
        requires { length words.now ≤ max_words }
        ensures { self.new ≡ Running (Some (Ipc (message_of envelope words.now))) }
    {
        self.phase = Phase::Running;
        write_reply(&mut self.reply, envelope, words);
    }

    /// Makes the thread run, with the words after the tag that the other thread sends as the reply of its Ipc.
    #[inline(always)]
    pub(crate) fn take(&mut self, from: &Activity, envelope: Envelope)
        ensures { (sending : ASending) → sending_in from.now ≡ Some sending → self.new
            ≡ Running (Some (Ipc (message_of envelope (drop 1 sending.words.items)))) }
    {
        if let Some(sending) = from.sending() {
            self.answer(envelope, behind_tag(sending.words.as_slice()));
        }
    }
}

/// Returns the words of a message after its tag.
fn behind_tag(words: &[u32]) -> &[u32]
    ensures { result.now ≡ drop 1 words.now }
{
    match words {
        [] => words,
        [_, rest @ ..] => rest,
    }
}

/// Overwrites the reply with that of an Ipc with this message. Reuses the room of an Ipc's reply.
fn write_reply(reply: &mut Reply, envelope: Envelope, words: &[u32])
    requires { length words.now ≤ max_words }
    ensures { reply.new ≡ Ipc (message_of envelope words.now) }
{
    if let Reply::Ipc(ipc) = reply {
        return fill_reply(ipc, envelope, words);
    }
    let mut ipc = blank_reply();
    fill_reply(&mut ipc, envelope, words);
    *reply = Reply::Ipc(ipc);
}

/// Writes the message of an Ipc's reply.
fn fill_reply(reply: &mut IpcReply, envelope: Envelope, words: &[u32])
    requires { length words.now ≤ max_words }
    ensures { reply.new ≡ message_of envelope words.now }
{
    reply.tag = envelope.tag;
    reply.error = envelope.error;
    reply.from = envelope.from;
    refill(&mut reply.words, words);
}
