//! What a thread is doing.
ghost use Rattle.std.specs.Prelude.{◌≡◌, None, Some};
ghost use Rattle.l4_c_values.specs.Told.{filled};
ghost use Rattle.l4_c_queries.specs.States.{flag, id_at, source_id, state_with, state_in, no_state_result, state_result, TellsState};

use l4_ipc::Kernel;
use l4_threads::{Source, Thread};

/// What a thread is doing: its state, space, id and pager, and the partner for which it waits.
#[repr(C)]
#[derive(Clone, Copy)]
pub struct StateResult {
    pub refusal: u32,
    pub state: u32,
    pub space: u64,
    pub id: u32,
    pub pager: u32,
    pub partner: u32,
    pub expires: u32,
    pub fault: u32,
    pub reserved: [u32; 3],
}

/// The thread runs, and has made no call yet.
const NEW: u32 = 1;

/// The thread runs, and its last call has ended.
const RUNNING: u32 = 2;

/// The thread waits in a send phase.
const SENDING: u32 = 3;

/// The thread waits in a receive phase.
const RECEIVING: u32 = 4;

/// Returns a result with this refusal and no thread.
pub fn no_state(refusal: u32) -> StateResult
    ensures { result ≡ no_state_result refusal }
{
    StateResult {
        refusal,
        state: 0,
        space: 0,
        id: 0,
        pager: 0,
        partner: 0,
        expires: 0,
        fault: 0,
        reserved: [0; 3],
    }
}

/// Returns the number of a flag.
fn number_of(is_set: bool) -> u32
    ensures { result ≡ flag is_set }
{
    if is_set { 1 } else { 0 }
}

/// Returns the id of the thread with this number, or nilthread if there is none.
fn id_of(kernel: &Kernel, number: u32) -> u32
    ensures { result ≡ id_at kernel.now.threads number }
{
    match kernel.thread(number) {
        Some(thread) => thread.id.0,
        None => 0,
    }
}

/// Returns the id of the thread whose message a receive phase accepts, or anythread.
fn source_of(kernel: &Kernel, from: Source) -> u32
    ensures { result ≡ source_id kernel.now.threads from }
{
    match from {
        Source::Anyone => 0xffff_ffff,
        Source::Thread(number) => id_of(kernel, number),
    }
}

/// Returns the result for a thread in this state, with the partner for which it waits.
fn told(thread: &Thread, state: u32, partner: u32, expires: bool, fault: bool) -> StateResult
    ensures { result ≡ state_with thread.now state partner expires fault }
{
    StateResult {
        refusal: 0,
        state,
        space: thread.space,
        id: thread.id.0,
        pager: thread.pager.0,
        partner,
        expires: number_of(expires),
        fault: number_of(fault),
        reserved: [0; 3],
    }
}

/// Returns the result for a thread.
fn state_told(kernel: &Kernel, thread: &Thread) -> StateResult
    ensures { result ≡ state_in kernel.now.threads thread.now thread.now.state }
{
    if let Some(sending) = thread.state.sending() {
        let partner = id_of(kernel, sending.to);
        return told(thread, SENDING, partner, sending.expires, sending.fault);
    }
    if let Some(receiving) = thread.state.receiving() {
        let partner = source_of(kernel, receiving.from);
        return told(
            thread,
            RECEIVING,
            partner,
            receiving.expires,
            receiving.fault,
        );
    }
    match thread.state.last_reply() {
        Some(_) => told(thread, RUNNING, 0, false, false),
        None => told(thread, NEW, 0, false, false),
    }
}

/// Returns what the thread with this number is doing, if it exists.
pub fn state_of(kernel: &Kernel, number: u32) -> StateResult
    ensures { TellsState (Some kernel.now) number result }
{
    match kernel.thread(number) {
        Some(thread) => state_told(kernel, thread),
        None => no_state(0),
    }
}
