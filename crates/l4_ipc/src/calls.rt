use arrayvec::ArrayVec;
use l4_fpage::Rights;
use l4_msg::MAX_WORDS;
use l4_threads::ThreadId;

/// An Ipc: a send phase unless `to` is nilthread, and then a receive phase unless `from` is nilthread (L4 X.2 manual, Ipc).
#[derive(Clone, Debug, PartialEq, Eq, Drop)]
pub struct IpcCall {
    /// The thread that the message is sent to.
    pub to: ThreadId,
    /// The thread whose message is received, or anythread.
    pub from: ThreadId,
    /// The send timeout in bits 31 to 16 and the receive timeout in bits 15 to 0: 0 is never and 0x0400 is zero.
    pub timeouts: u32,
    /// The receive window, as an acceptor word.
    pub acceptor: u32,
    /// The message registers from MR0, the tag. Registers beyond the message are ignored.
    pub words: ArrayVec<u32, MAX_WORDS>,
}

/// A page fault of the caller (L4 X.2 manual, page fault protocol).
#[derive(Clone, Copy, Debug, PartialEq, Eq)]
pub struct FaultCall {
    /// The fault address, in bytes.
    pub address: u32,
    /// The instruction pointer.
    pub ip: u32,
    /// The access that was tried.
    pub access: Rights,
}

/// An Unmap (L4 X.2 manual, Unmap).
#[derive(Clone, Debug, PartialEq, Eq, Drop)]
pub struct UnmapCall {
    /// Bit 6 is f, which includes the caller's own pages. Bits 5 to 0 are k.
    pub control: u32,
    /// The message registers. MR0 to MRk are fpages with the rights to revoke.
    pub words: ArrayVec<u32, MAX_WORDS>,
}

/// The creation of a thread, which runs at once.
#[derive(Clone, Copy, Debug, PartialEq, Eq)]
pub struct Create {
    /// Its global id.
    pub id: ThreadId,
    /// The thread whose space it shares, or its own id for a new space.
    pub space: ThreadId,
    /// Its pager, which need not exist.
    pub pager: ThreadId,
}

/// A change of a thread's pager.
#[derive(Clone, Copy, Debug, PartialEq, Eq)]
pub struct SetPager {
    /// The thread.
    pub id: ThreadId,
    /// Its new pager.
    pub pager: ThreadId,
}

/// What a thread in root's space can do to threads: a profile of the manual's ThreadControl.
#[derive(Clone, Copy, Debug, PartialEq, Eq)]
pub enum Control {
    /// Creates a thread.
    Create(Create),
    /// Changes a thread's pager.
    SetPager(SetPager),
    /// Deletes a thread.
    Delete(ThreadId),
}

/// A call of a thread.
#[derive(Clone, Debug, PartialEq, Eq, Drop)]
pub enum Call {
    /// Sends, receives, or both.
    Ipc(IpcCall),
    /// Raises a page fault.
    Fault(FaultCall),
    /// Revokes rights.
    Unmap(UnmapCall),
    /// Creates, changes or deletes a thread.
    Control(Control),
}
