//! Page faults of threads.
ghost use Rattle.std.specs.Prelude.{◌≡◌, IsTrue};
ghost use Rattle.l4_mapdb.specs.Mappings.{rights_at};
ghost use Rattle.l4_threads.specs.Threads.{runs};
ghost use Rattle.l4_phases.specs.Phases.{enters, ended_by, ended_if};
ghost use Rattle.l4_ipc.specs.Start.{has_page, fault_words};
ghost use Rattle.l4_ipc.specs.Inside.Turns.{next_of_fault, next_of_faulting};
ghost use Rattle.l4_ipc.specs.declared.faulting.FaultTurn.TheVariants.{Tells};

use crate::calls::FaultCall;
use l4_forest::Forest;
use l4_fpage::{Fpage, PageSize, Rights};
use l4_msg::{FAULT_LABEL, Tag};
use l4_phases::{Ending, end, partner};
use l4_threads::{Later, SendPhase, ThreadId, Threads};

/// What a thread does when it faults.
#[derive(Clone, Copy)]
pub enum FaultTurn {
    /// Its call ends.
    Ends(Ending),
    /// It reports the fault to its pager, the thread with this number.
    Tells(u32),
}

/// A thread that faults.
#[derive(Clone, Copy)]
pub struct FaultingThread {
    pub number: u32,
    /// The space of the fault.
    pub space: u64,
    /// The pager that the fault is reported to.
    pub pager: ThreadId,
}

/// The number of words of a fault's message after its tag: the address and the instruction pointer.
const UNTYPED: usize = 2;

/// Returns the rights of a page, or none if it is not present.
fn rights_at(forest: &Forest, space: u64, page: u32) -> Rights
    ensures { result ≡ rights_at forest.now (record { space = space; page = page }) }
{
    match forest.at(space, page) {
        Some(mapping) => mapping.rights,
        None => Rights::of_bits(0),
    }
}

/// Returns whether the page of the fault is present with all rights of the access, and with at least one right.
fn has_page(forest: &Forest, size: PageSize, space: u64, call: &FaultCall) -> bool
    ensures { result ≡ has_page size forest.now space call.now }
{
    let rights = rights_at(forest, space, size.page_of(call.address));
    rights.contains(call.access) && !rights.is_empty()
}

/// Returns the words of a fault's message. They are those of `PageFault::message`, which is not built.
fn fault_words(call: &FaultCall) -> [u32; UNTYPED + 1]
    ensures { result ≡ fault_words call.now }
{
    let tag = Tag {
        label: FAULT_LABEL + u16::from(call.access.bits()),
        flags: 0,
        typed: 0,
        untyped: UNTYPED as u8,
    };
    [tag.word(), call.address, call.ip]
}

/// Returns what a thread does when it faults. If the page is present, its call ends as a hit. Otherwise the thread sends to its pager, and
/// then receives from it.
fn fault_turn(
    threads: &Threads,
    forest: &Forest,
    size: PageSize,
    faulting: FaultingThread,
    call: &FaultCall,
) -> FaultTurn
    ensures { next_of_fault faulting.pager call.now result
        ≡ next_of_faulting size threads.now forest.now faulting call.now }
{
    if has_page(forest, size, faulting.space, call) {
        return FaultTurn::Ends(Ending::Hit);
    }
    match partner(threads, faulting.number, faulting.pager) {
        Some(to) => FaultTurn::Tells(to),
        None => FaultTurn::Ends(Ending::Failed(true, 4)),
    }
}

/// Sends the fault of a running thread to its pager.
fn tell(threads: &mut Threads, number: u32, pager: ThreadId, call: &FaultCall, to: u32)
    requires { IsTrue (runs threads.old number) }
    ensures { threads.new ≡ enters threads.old number (next_of_fault pager call.now (Tells to)) }
{
    let words = fault_words(call);
    let phase = SendPhase {
        to,
        expires: false,
        then: Some(Later {
            from: pager,
            window: Fpage::Complete(Rights::all()),
            expires: false,
        }),
        fault: true,
    };
    threads.start_message(number, &words, &[], phase);
}

/// Raises a page fault of a running thread. Returns whether its call ended.
pub fn enter_fault(
    threads: &mut Threads,
    forest: &Forest,
    size: PageSize,
    faulting: FaultingThread,
    call: &FaultCall,
) -> bool
    requires { IsTrue (runs threads.old faulting.number) }
    ensures threads { threads.new ≡ enters threads.old faulting.number
        (next_of_faulting size threads.old forest.now faulting call.now) }
    ensures ended { ended_if result faulting.number ≡ ended_by faulting.number
        (next_of_faulting size threads.old forest.now faulting call.now) }
{
    match fault_turn(threads, forest, size, faulting, call) {
        FaultTurn::Ends(ending) => {
            end(threads, faulting.number, ending);
            true
        }
        FaultTurn::Tells(to) => {
            tell(threads, faulting.number, faulting.pager, call, to);
            false
        }
    }
}
