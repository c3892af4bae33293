//! The meaning of a line: a call that a thread enters, or a query.
ghost use Rattle.std.specs.Prelude.{◌≡◌, true};
ghost use Rattle.l4_ipc.specs.declared.calls.Call.TheVariants.{Ipc as Exchanges, Fault as Faults};
ghost use Rattle.l4_pager.specs.Serving.{waiting};
ghost use Rattle.l4_commands.specs.Inside.Exchanges.{is_ipc};
ghost use Rattle.l4_commands.specs.Calls.{script_id, partner_id, space_id, create_call, set_pager_call, delete_call, receive_call, send_call, ipc_call, unmap_call};

use crate::partners::{NewSpace, Partner};
use arrayvec::ArrayVec;
use l4_fpage::Rights;
use l4_ipc::{Call, CancelCause, Control, Create, FaultCall, IpcCall, SetPager, UnmapCall};
use l4_msg::{MAX_WORDS, Region};
use l4_names::Name;
use l4_pager::{Entry, wait};
use l4_threads::ThreadId;
use std::marker::Model;

/// The thread that creates and deletes threads, and sets their pagers.
pub const ROOT: u32 = 2;

/// The message of a plan that is sent.
#[derive(Clone, Copy, Drop)]
pub enum Which {
    /// The only message.
    Only,
    /// The message with this number, from 0.
    Message(u32),
}

/// The buffers of lines' calls: one for faults, and one for all others, which are mostly Ipcs. So the call in a buffer mostly has the kind
/// of the line's call, and is overwritten part by part.
#[derive(Drop)]
pub struct CallPlaces {
    pub ipc: Call,
    pub fault: Call,
}

impl CallPlaces {
    pub fn new() -> CallPlaces
        ensures { result.ipc ≡ waiting }
    {
        CallPlaces {
            ipc: wait(),
            fault: Call::fault(0, 0, Rights::of_bits(0)),
        }
    }
}

/// A call in a buffer that lines reuse.
#[derive(Drop)]
pub struct LentCall<'a> {
    pub call: &'a Call,
}

impl<'a> Model for LentCall<'a> {
    ghost use Rattle.l4_ipc.specs.declared.calls.Call.{Call as ACall};

    ghost Value = { ACall };

    ghost view = { λ c. c.call.now };
}

/// What a line requests. A thread is given by its number, below 2^18.
#[derive(Drop)]
pub enum Request<'a> {
    /// Enters the call of the thread.
    Enter(u32, LentCall<'a>),
    /// Enters root's call that creates the thread with this number.
    CreateThread(u32, LentCall<'a>),
    /// Root deletes the thread.
    EndThread(u32),
    /// The thread sends a message of the region's plan.
    SendPlan(u32, Partner, Which, Region),
    /// Lists the present pages of the thread's space, in a range of this many pages from the first on.
    ListPages(u32, u32, u32),
    /// Prints the parent of a page of the thread's space.
    TellParent(u32, u32),
    /// Adds the region to the thread's table.
    AddRegion(u32, Entry),
    /// The thread receives from any thread, and is served from then on.
    ServeThread(u32),
    /// Gives the name to the thread.
    GiveName(Name, u32),
    /// Prints how the thread's last call ended, or that it has not ended.
    TellReply(u32),
    /// Cancels the thread's wait, for this cause. No thread makes this call.
    CancelWait(u32, CancelCause),
    /// Prints the number of entries of the history.
    TellSteps,
    /// Begins the lines without an order. Prints nothing.
    BeginUnordered,
    /// Begins the lines that are answered at the end of an order. Prints nothing.
    BeginFinally,
    /// States a rule over the outcomes of a plan. Prints nothing.
    StateRule,
}

/// Returns the id of a script's thread: its number, and version 1.
fn id_of(number: u32) -> ThreadId
    ensures { result ≡ script_id number }
{
    ThreadId((number << 14) + 1)
}

/// Returns the id of a partner: nilthread, anythread, or that of a thread.
fn id_of_partner(partner: Partner) -> ThreadId
    ensures { result ≡ partner_id partner }
{
    match partner {
        Partner::Nil => ThreadId(0),
        Partner::Any => ThreadId(0xffff_ffff),
        Partner::Thread(number) => id_of(number),
    }
}

/// Returns the id that names the space of a new thread.
fn id_of_space(number: u32, space: NewSpace) -> ThreadId
    ensures { result ≡ space_id number space }
{
    match space {
        NewSpace::New => id_of(number),
        NewSpace::Of(other) => id_of(other),
    }
}

/// Makes root's call that creates a thread.
pub(crate) fn put_create(
    call: &mut Call,
    number: u32,
    space: NewSpace,
    pager: Partner,
) -> LentCall<'_>
    ensures { result ≡ create_call number space pager }
{
    *call = Call::Control(Control::Create(Create {
        id: id_of(number),
        space: id_of_space(number, space),
        pager: id_of_partner(pager),
    }));
    LentCall { call }
}

/// Makes root's call that changes a thread's pager.
pub(crate) fn put_pager(call: &mut Call, number: u32, pager: Partner) -> LentCall<'_>
    ensures { result ≡ set_pager_call number pager }
{
    *call = Call::Control(Control::SetPager(SetPager {
        id: id_of(number),
        pager: id_of_partner(pager),
    }));
    LentCall { call }
}

/// Root's call that deletes a thread.
pub fn delete_call(number: u32) -> Call
    ensures { result ≡ delete_call number }
{
    Call::Control(Control::Delete(id_of(number)))
}

/// Sets these parts of an Ipc, and keeps its words.
pub(crate) fn set_parts(ipc: &mut IpcCall, to: Partner, from: Partner, timeouts: u32, window: u32)
    ensures { Exchanges ipc.new ≡ ipc_call to «from» timeouts window ipc.old.words.items }
{
    ipc.to = id_of_partner(to);
    ipc.from = id_of_partner(from);
    ipc.timeouts = timeouts;
    ipc.acceptor = window;
}

/// Puts an Ipc into the buffer, unless it has one.
#[inline(always)]
pub(crate) fn make_ipc(call: &mut Call)
    ensures { is_ipc call.new ≡ true }
{
    if let Call::Ipc(_) = call {
        return;
    }
    *call = wait();
}

/// Puts a receive phase alone, with no timeout, into a buffer.
pub(crate) fn make_receive(call: &mut Call, from: Partner, window: u32)
    ensures { call.new ≡ receive_call «from» window }
{
    make_ipc(call);
    if let Call::Ipc(ipc) = call {
        ipc.words.clear();
        set_parts(ipc, Partner::Nil, from, 0, window);
    }
}

/// Puts a page fault into a buffer.
pub(crate) fn make_fault(call: &mut Call, fault: FaultCall)
    ensures { call.new ≡ Faults «fault» }
{
    if let Call::Fault(place) = call {
        *place = fault;
    } else {
        *call = Call::Fault(fault);
    }
}

/// Returns a send phase alone, with no timeout.
pub fn send_call(to: Partner, words: ArrayVec<u32, MAX_WORDS>) -> Call
    ensures { result ≡ send_call to words.items }
{
    Call::Ipc(IpcCall {
        to: id_of_partner(to),
        from: ThreadId(0),
        timeouts: 0,
        acceptor: 0,
        words,
    })
}

/// Puts an Unmap with these parts into a buffer.
pub(crate) fn put_unmap(
    call: &mut Call,
    control: u32,
    words: ArrayVec<u32, MAX_WORDS>,
) -> LentCall<'_>
    ensures { result ≡ unmap_call control words.items }
{
    *call = Call::Unmap(UnmapCall { control, words });
    LentCall { call }
}
