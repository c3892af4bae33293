//! The calls that threads usually make.
ghost use Rattle.std.specs.Prelude.{◌≡◌, ◌≤◌, ◌<◌, ◌⊎◌, length, false, [], MatchOption};
ghost use Rattle.std.specs.List.{AllZip};
ghost use Rattle.l4_fpage.specs.declared.fpages.Fpage.TheVariants.{Nil as NilFpage};
ghost use Rattle.l4_msg.specs.Sizes.{max_words};
ghost use Rattle.l4_threads.specs.Threads.{nilthread, anythread};
ghost use Rattle.l4_unmap.specs.Unmap.{fpage_count, with_own};
ghost use Rattle.l4_ipc.specs.Start.{has_bad_timeout};
ghost use Rattle.l4_ipc.specs.Constructors.{timeout_bits, ipc_call, HasGoodTimeouts, IsWordOf, IsUnmapOf};
ghost use Rattle.l4_ipc.specs.declared.calls.Call.TheVariants.{Ipc, Fault as Faults, Control as Controls};
ghost use Rattle.l4_ipc.specs.declared.calls.Control.TheVariants.{Create as Creates, SetPager as SetsPager, Delete as Deletes};

use crate::calls::{Call, Control, Create, FaultCall, IpcCall, SetPager, UnmapCall};
use arrayvec::ArrayVec;
use l4_fpage::{Fpage, Rights};
use l4_msg::MAX_WORDS;
use l4_threads::ThreadId;

/// The half of a timeouts word for a timeout of zero. The half for never is 0.
pub const ZERO_TIMEOUT: u32 = 0x400;

/// Bit f of an Unmap's control word.
const OWN: u32 = 0x40;

/// How long a phase of an Ipc waits for its partner.
#[derive(Clone, Copy, Debug, PartialEq, Eq)]
pub enum Timeout {
    /// Until the partner comes.
    Never,
    /// Not at all: if the partner is not ready, the call can expire, with ErrorCode 2 or 3.
    Zero,
}

impl Timeout {
    /// Returns the timeout as a half of the timeouts word.
    fn bits(self) -> u32
        ensures { result ≡ timeout_bits self }
    {
        match self {
            Timeout::Never => 0,
            Timeout::Zero => ZERO_TIMEOUT,
        }
    }
}

/// Returns the Ipc of these phases, with the send timeout and the receive timeout.
fn make_ipc(
    to: ThreadId,
    from: ThreadId,
    timeouts: (Timeout, Timeout),
    window: Fpage,
    words: ArrayVec<u32, MAX_WORDS>,
) -> IpcCall
    ensures value { result ≡ ipc_call to from timeouts.0 timeouts.1 window words.items }
    ensures timely { has_bad_timeout result ≡ false }
{
    let (send, receive) = timeouts;
    IpcCall {
        to,
        from,
        timeouts: send.bits() * 0x10000 + receive.bits(),
        acceptor: window.word(),
        words,
    }
}

/// Returns the words of some fpages.
fn fpage_words(fpages: &[Fpage]) -> ArrayVec<u32, MAX_WORDS>
    requires { length fpages.now ≤ max_words }
    ensures { AllZip IsWordOf fpages.now result.items }
{
    let mut words = ArrayVec::new();
    for fpage in fpages {
        words.push(fpage.word());
    }
    words
}

/// Returns the control word of an Unmap of some fpages.
fn unmap_control(own: bool, fpages: &[Fpage]) -> u32
    requires some { 1 ≤ length fpages.now }
    requires few { length fpages.now ≤ max_words }
    ensures count { fpage_count result ≡ length fpages.now }
    ensures own { with_own result ≡ own }
{
    let last = (fpages.len() - 1) as u32;
    if own {
        return OWN + last;
    }
    last
}

impl Call {
    /// Returns the call that sends the message in these registers, MR0 first, and receives nothing (L4 X.2 manual, Send).
    pub fn send(to: ThreadId, words: ArrayVec<u32, MAX_WORDS>, timeout: Timeout) -> Call
        ensures value { result
            ≡ Ipc (ipc_call to nilthread timeout Timeout.Never NilFpage words.items) }
        ensures timely { HasGoodTimeouts result }
    {
        let timeouts = (timeout, Timeout::Never);
        Call::Ipc(make_ipc(to, ThreadId::nil(), timeouts, Fpage::Nil, words))
    }

    /// Returns the call that receives a message from this thread, or from any thread if `from` is anythread, and
    /// accepts pages in the window. The window's rights are ignored (L4 X.2 manual, Receive and Wait).
    pub fn receive(from: ThreadId, window: Fpage, timeout: Timeout) -> Call
        ensures value { result ≡ Ipc (ipc_call nilthread from Timeout.Never timeout window []) }
        ensures timely { HasGoodTimeouts result }
    {
        let timeouts = (Timeout::Never, timeout);
        Call::Ipc(make_ipc(ThreadId::nil(), from, timeouts, window, ArrayVec::new()))
    }

    /// Returns the call that sends the message to a thread, and receives that thread's answer, with a send timeout
    /// and a receive timeout (L4 X.2 manual, Call).
    pub fn call(
        to: ThreadId,
        words: ArrayVec<u32, MAX_WORDS>,
        window: Fpage,
        send: Timeout,
        receive: Timeout,
    ) -> Call
        ensures value { result ≡ Ipc (ipc_call to to send receive window words.items) }
        ensures timely { HasGoodTimeouts result }
    {
        Call::Ipc(make_ipc(to, to, (send, receive), window, words))
    }

    /// Returns the call that sends the message to a thread, and then receives from any thread, with a send timeout
    /// and a receive timeout (L4 X.2 manual, ReplyWait).
    pub fn reply_and_wait(
        to: ThreadId,
        words: ArrayVec<u32, MAX_WORDS>,
        window: Fpage,
        send: Timeout,
        receive: Timeout,
    ) -> Call
        ensures value { result ≡ Ipc (ipc_call to anythread send receive window words.items) }
        ensures timely { HasGoodTimeouts result }
    {
        let timeouts = (send, receive);
        Call::Ipc(make_ipc(to, ThreadId::any(), timeouts, window, words))
    }

    /// Returns the call that raises a page fault: the instruction at `ip` tried this access at an address, in bytes
    /// (L4 X.2 manual, page fault protocol).
    pub fn fault(address: u32, ip: u32, access: Rights) -> Call
        ensures { result ≡ Faults (record { address = address; ip = ip; access = access }) }
    {
        Call::Fault(FaultCall {
            address,
            ip,
            access,
        })
    }

    /// Returns the Unmap of 1 to 64 fpages: it takes the rights that they name from everything that was mapped from
    /// the caller's pages in them, and with `own` from these pages too (L4 X.2 manual, Unmap). Returns `None` for no
    /// fpage, or for more than 64.
    pub fn unmap(own: bool, fpages: &[Fpage]) -> Option<Call>
        ensures { MatchOption result ((length fpages.now ≡ 0) ⊎ (max_words < length fpages.now))
            (IsUnmapOf own fpages.now) }
    {
        if fpages.is_empty() || fpages.len() > MAX_WORDS {
            return None;
        }
        Some(Call::Unmap(UnmapCall {
            control: unmap_control(own, fpages),
            words: fpage_words(fpages),
        }))
    }

    /// Returns the call that creates a thread with this id, in the space of the thread `space`, or in a new space if
    /// `space` is the id itself (L4 X.2 manual, ThreadControl).
    pub fn create(id: ThreadId, space: ThreadId, pager: ThreadId) -> Call
        ensures { result ≡ Controls (Creates (record { id = id; space = space; pager = pager })) }
    {
        Call::Control(Control::Create(Create { id, space, pager }))
    }

    /// Returns the call that gives a thread another pager (L4 X.2 manual, ThreadControl).
    pub fn set_pager(id: ThreadId, pager: ThreadId) -> Call
        ensures { result ≡ Controls (SetsPager (record { id = id; pager = pager })) }
    {
        Call::Control(Control::SetPager(SetPager { id, pager }))
    }

    /// Returns the call that deletes a thread (L4 X.2 manual, ThreadControl).
    pub fn delete(id: ThreadId) -> Call
        ensures { result ≡ Controls (Deletes id) }
    {
        Call::Control(Control::Delete(id))
    }
}
