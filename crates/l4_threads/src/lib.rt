//! Threads, their states and the queue of senders.
#![tactic(auto)]

mod activity;
mod copying;
mod entries;
mod focus;
mod roster;
mod table;

pub use activity::Activity;
use arrayvec::ArrayVec;
use l4_fpage::Fpage;
use l4_msg::{Item, MAX_ITEMS, MAX_WORDS};
pub use table::{ROOT_SPACE, Threads};

/// The greatest number of threads (this profile's own).
pub const MAX_THREADS: usize = 64;

/// The bits of a thread number.
const NUMBER_BITS: u32 = 18;

/// The bits of an id's version.
const VERSION_BITS: u32 = 14;

/// A thread's global id, one word: the thread number in bits 31..14, the version below (L4 X.2 manual, ThreadId).
#[derive(Clone, Copy, Debug, PartialEq, Eq)]
pub struct ThreadId(pub u32);

/// The reply of an Ipc.
#[derive(Clone, Debug, PartialEq, Eq, Drop)]
pub struct IpcReply {
    /// The message tag: the sender's, or 0x8000 if the call failed.
    pub tag: u32,
    /// The ErrorCode if the call failed, else 0.
    pub error: u32,
    /// The sender of the message, or nilthread.
    pub from: ThreadId,
    /// The words of the message after its tag.
    pub words: ArrayVec<u32, MAX_WORDS>,
}

/// The reply of a call.
#[derive(Clone, Debug, PartialEq, Eq, Drop)]
pub enum Reply {
    /// An Ipc ended, with or without an error.
    Ipc(IpcReply),
    /// A page fault at a page that is present with the needed rights.
    Hit,
    /// A page fault that the pager answered.
    Answered,
    /// A page fault that failed with this ErrorCode.
    FaultFailed(u32),
    /// An Unmap ended: the rights that it names are revoked.
    Unmapped,
    /// A thread control ended: a thread was created, changed or deleted.
    Controlled,
    /// The thread was deleted while it waited.
    Gone,
}

/// The end of a call whose reply has no words.
#[derive(Clone, Copy, Debug, PartialEq, Eq)]
pub enum Wordless {
    /// A page fault at a page that is present with the needed rights.
    Hit,
    /// A page fault that the pager answered.
    Answered,
    /// A page fault that failed with this ErrorCode.
    FaultFailed(u32),
    /// An Unmap ended: the rights that it names are revoked.
    Unmapped,
    /// A thread control ended: a thread was created, changed or deleted.
    Controlled,
}

/// The threads whose messages a receive phase accepts.
#[derive(Clone, Copy, Debug, PartialEq, Eq)]
pub enum Source {
    Anyone,
    /// Only the thread with this number.
    Thread(u32),
}

/// The receive phase of a thread that waits in it.
#[derive(Clone, Copy, Debug, PartialEq, Eq)]
pub struct Receiving {
    pub from: Source,
    /// The receive window.
    pub window: Fpage,
    /// Whether the timeout is zero. Otherwise it is never.
    pub expires: bool,
    /// Whether the phase belongs to a page fault.
    pub fault: bool,
}

/// A receive phase that has not begun. Its partner is looked up when it begins.
#[derive(Clone, Copy, Debug, PartialEq, Eq)]
pub struct Later {
    pub from: ThreadId,
    /// The receive window.
    pub window: Fpage,
    /// Whether the timeout is zero. Otherwise it is never.
    pub expires: bool,
}

/// The send phase of a thread that waits in it.
#[derive(Drop)]
pub struct Sending {
    /// The message registers from the tag, unchanged.
    pub words: ArrayVec<u32, MAX_WORDS>,
    /// The items in these words.
    pub items: ArrayVec<Item, MAX_ITEMS>,
    /// The partner's number.
    pub to: u32,
    /// Whether the timeout is zero. Otherwise it is never.
    pub expires: bool,
    /// The receive phase that follows, if any.
    pub then: Option<Later>,
    /// Whether the phase belongs to a page fault.
    pub fault: bool,
}

/// The parameters of a send phase.
#[derive(Clone, Copy, Debug, PartialEq, Eq)]
pub struct SendPhase {
    /// The partner's number.
    pub to: u32,
    /// Whether the timeout is zero. Otherwise it is never.
    pub expires: bool,
    /// The receive phase that follows, if any.
    pub then: Option<Later>,
    /// Whether the phase belongs to a page fault.
    pub fault: bool,
}

/// The reply of an Ipc without the words of its message.
#[derive(Clone, Copy, Debug, PartialEq, Eq)]
pub struct Envelope {
    /// The message tag: the sender's, or 0x8000 if the call failed.
    pub tag: u32,
    /// The ErrorCode if the call failed, else 0.
    pub error: u32,
    /// The sender of the message, or nilthread.
    pub from: ThreadId,
}

/// The state of a thread, as contracts see an `Activity`.
#[derive(Drop)]
pub enum State {
    /// It is not waiting. It has the reply of its last ended call, if a call has ended.
    Running(Option<Reply>),
    Sending(Sending),
    Receiving(Receiving),
}

/// A thread.
#[derive(Drop)]
pub struct Thread {
    pub id: ThreadId,
    pub space: u64,
    pub pager: ThreadId,
    pub state: Activity,
}

/// The reason why a thread is not created, changed or deleted.
#[derive(Clone, Copy, Debug, PartialEq, Eq)]
pub enum ThreadFault {
    /// H1: the caller is not in root's space.
    NoPrivilege,
    /// H2: the id is not a valid thread id.
    BadId,
    /// H3: a thread with this number exists.
    Taken,
    /// H4: there is no thread with this id.
    Unknown,
    /// H5: 64 threads exist, or the space numbers are used up.
    Full,
    /// H6: sigma0, root and the caller itself cannot be deleted.
    Kept,
}

/// The effect of deleting a thread.
#[derive(Drop)]
pub struct Deleted {
    /// The number of the deleted thread.
    pub number: u32,
    /// The numbers of the threads whose calls ended with it, rising: those that waited for it, and the thread itself
    /// if it was waiting.
    pub ended: ArrayVec<u32, MAX_THREADS>,
    /// The thread's space, if it was the last thread in it.
    pub space: Option<u64>,
}

impl ThreadId {
    ghost use Rattle.std.specs.Prelude.{◌≡◌, ◌<◌, ◌^◌, MatchOption};
    ghost use Rattle.l4_threads.specs.Threads.{nilthread, anythread, number_of, version_of};
    ghost use Rattle.l4_threads.specs.Control.{is_bad_id, IsGlobalId};
    ghost use Rattle.l4_threads.specs.Sizes.{numbers, versions};
    ghost use Rattle.l4_threads.specs.declared.ThreadId.{ThreadId as AnId};

    /// Returns the global id of this thread number and version. Returns `None` if no thread can have it: the number
    /// is 0, or at least 2^18; the low six bits of the version are all zero, or it is at least 2^14; or the two make
    /// anythread.
    pub fn global(number: u32, version: u32) -> Option<ThreadId>
        ensures { MatchOption result ((id : AnId) → ¬ (IsGlobalId number version id))
            (IsGlobalId number version) }
    {
        if number >= 1 << NUMBER_BITS || version >= 1 << VERSION_BITS {
            return None;
        }
        let id = ThreadId(number * (1 << VERSION_BITS) + version);
        if id.is_bad() { None } else { Some(id) }
    }

    /// Returns the thread number, below 2^18.
    pub fn number(self) -> u32
        ensures value { result ≡ number_of self }
        ensures small { result < numbers }
    {
        self.0 >> VERSION_BITS
    }

    /// Returns the version, below 2^14.
    pub fn version(self) -> u32
        ensures value { result ≡ version_of self }
        ensures small { result < versions }
    {
        self.0 % (1 << VERSION_BITS)
    }

    /// Returns nilthread, the id that names no thread.
    pub fn nil() -> ThreadId
        ensures { result ≡ nilthread }
    {
        ThreadId(0)
    }

    /// Returns anythread, the id that means any thread.
    pub fn any() -> ThreadId
        ensures { result ≡ anythread }
    {
        ThreadId(0xffff_ffff)
    }

    /// Returns whether no thread can have the id: it is nilthread or anythread, its number is 0, or the low six bits
    /// of its version are all zero.
    pub fn is_bad(self) -> bool
        ensures { result ≡ is_bad_id self }
    {
        self.0 == 0 || (self.0 == 0xffff_ffff || (self.number() == 0 || self.0 % 64 == 0))
    }
}

impl Source {
    ghost use Rattle.std.specs.Prelude.{◌≡◌};
    ghost use Rattle.l4_threads.specs.Enabled.{takes_from};

    /// Returns whether messages of this thread are accepted.
    pub fn takes(self, sender: u32) -> bool
        ensures { result ≡ takes_from self sender }
    {
        match self {
            Source::Anyone => true,
            Source::Thread(number) => number == sender,
        }
    }
}

impl Wordless {
    ghost use Rattle.std.specs.Prelude.{◌≡◌, IsTrue};
    ghost use Rattle.l4_threads.specs.Endings.{wordless_reply};

    /// Returns the reply.
    fn reply(self) -> Reply
        ensures { result ≡ wordless_reply self }
    {
        match self {
            Wordless::Hit => Reply::Hit,
            Wordless::Answered => Reply::Answered,
            Wordless::FaultFailed(code) => Reply::FaultFailed(code),
            Wordless::Unmapped => Reply::Unmapped,
            Wordless::Controlled => Reply::Controlled,
        }
    }

    /// Returns whether this reply is the same.
    fn is_same(self, reply: &Reply) -> bool
        ensures { IsTrue result → reply.now ≡ wordless_reply self }
    {
        match self {
            Wordless::Hit => matches!(reply, Reply::Hit),
            Wordless::Answered => matches!(reply, Reply::Answered),
            Wordless::FaultFailed(code) => match reply {
                Reply::FaultFailed(other) => *other == code,
                _ => false,
            },
            Wordless::Unmapped => matches!(reply, Reply::Unmapped),
            Wordless::Controlled => matches!(reply, Reply::Controlled),
        }
    }
}

impl Reply {
    ghost use Rattle.std.specs.Prelude.{◌≡◌};
    ghost use Rattle.l4_threads.specs.Threads.{failed};

    /// Returns the reply of a call that failed with this ErrorCode.
    pub fn failed(fault: bool, code: u32) -> Reply
        ensures { result ≡ failed fault code }
    {
        if fault {
            Reply::FaultFailed(code)
        } else {
            Reply::Ipc(IpcReply {
                tag: 0x8000,
                error: code,
                from: ThreadId(0),
                words: ArrayVec::new(),
            })
        }
    }
}
