//! What a line requests.
ghost use Rattle.std.specs.Prelude.{◌≡◌, option_map};
ghost use Rattle.l4_text.specs.Tokens.{tokens_of};
ghost use Rattle.l4_step_lines.specs.Requests.{only_of, registers_of, access_of, ipc_of, fault_of, unmap_of, create_of, set_pager_of, control_of, call_of, start_of, named_of, request_of};

use crate::numbers::numbers;
use arrayvec::ArrayVec;
use l4_fpage::Rights;
use l4_ipc::{
    Call, CancelCause, Control, Create, FaultCall, IpcCall, MAX_WORDS, SetPager, Step, UnmapCall,
};
use l4_text::{next_token, number};
use l4_threads::ThreadId;

/// A step of the kernel, or a query about its state.
#[derive(Drop)]
pub enum Request {
    /// Executes this step.
    Do(Step),
    /// Which step is enabled.
    Enabled,
    /// The reply of a thread.
    Reply(u32),
    /// The space of a thread.
    Space(u32),
    /// The present pages of a space.
    Pages(u64),
}

pub(crate) const START: &[u8] = b"start";

pub(crate) const TRANSFER: &[u8] = b"transfer";

pub(crate) const EXPIRE: &[u8] = b"expire";

pub(crate) const TIMEOUT: &[u8] = b"timeout";

pub(crate) const CANCEL: &[u8] = b"cancel";

pub(crate) const ENABLED: &[u8] = b"enabled";

pub(crate) const REPLY: &[u8] = b"reply";

pub(crate) const SPACE: &[u8] = b"space";

pub(crate) const PAGES: &[u8] = b"pages";

pub(crate) const IPC: &[u8] = b"ipc";

pub(crate) const FAULT: &[u8] = b"fault";

pub(crate) const UNMAP: &[u8] = b"unmap";

pub(crate) const CREATE: &[u8] = b"create";

pub(crate) const SETPAGER: &[u8] = b"setpager";

pub(crate) const DELETE: &[u8] = b"delete";

/// A copy of the words. None if a message cannot have as many.
fn registers(words: &[u32]) -> Option<ArrayVec<u32, MAX_WORDS>>
    ensures { option_map (λ ws. ws.items) result ≡ registers_of words.now }
{
    let mut registers = ArrayVec::new();
    match registers.try_extend_from_slice(words) {
        Ok(()) => Some(registers),
        Err(_) => None,
    }
}

/// `TO FROM TIMEOUTS ACCEPTOR WORD..`
fn ipc(numbers: &[u32]) -> Option<Call>
    ensures { result ≡ ipc_of numbers.now }
{
    let [to, from, timeouts, acceptor, words @ ..] = numbers else {
        return None;
    };
    Some(Call::Ipc(IpcCall {
        to: ThreadId(*to),
        from: ThreadId(*from),
        timeouts: *timeouts,
        acceptor: *acceptor,
        words: registers(words)?,
    }))
}

/// Rights by the sum of r (4), w (2) and x (1).
pub(crate) fn access(number: u32) -> Option<Rights>
    ensures { result ≡ access_of number }
{
    if number < 8 {
        Some(Rights::of_bits(number as u8))
    } else {
        None
    }
}

/// `ADDRESS IP ACCESS`
fn fault(numbers: &[u32]) -> Option<Call>
    ensures { result ≡ fault_of numbers.now }
{
    let [address, ip, sum] = numbers else {
        return None;
    };
    Some(Call::Fault(FaultCall {
        address: *address,
        ip: *ip,
        access: access(*sum)?,
    }))
}

/// `CONTROL WORD..`
fn unmap(numbers: &[u32]) -> Option<Call>
    ensures { result ≡ unmap_of numbers.now }
{
    let [control, words @ ..] = numbers else {
        return None;
    };
    Some(Call::Unmap(UnmapCall {
        control: *control,
        words: registers(words)?,
    }))
}

/// `ID SPACE PAGER`
fn create(numbers: &[u32]) -> Option<Control>
    ensures { result ≡ create_of numbers.now }
{
    let [id, space, pager] = numbers else {
        return None;
    };
    Some(Control::Create(Create {
        id: ThreadId(*id),
        space: ThreadId(*space),
        pager: ThreadId(*pager),
    }))
}

/// `ID PAGER`
fn set_pager(numbers: &[u32]) -> Option<Control>
    ensures { result ≡ set_pager_of numbers.now }
{
    let [id, pager] = numbers else {
        return None;
    };
    Some(Control::SetPager(SetPager {
        id: ThreadId(*id),
        pager: ThreadId(*pager),
    }))
}

/// The only number.
fn only(numbers: &[u32]) -> Option<u32>
    ensures { result ≡ only_of numbers.now }
{
    let [number] = numbers else {
        return None;
    };
    Some(*number)
}

/// A control of this kind.
fn control(kind: &[u8], numbers: &[u32]) -> Option<Control>
    ensures { result ≡ control_of kind.now numbers.now }
{
    if kind == CREATE {
        return create(numbers);
    }
    if kind == SETPAGER {
        return set_pager(numbers);
    }
    if kind == DELETE {
        return Some(Control::Delete(ThreadId(only(numbers)?)));
    }
    None
}

/// A call of this kind.
fn call(kind: &[u8], numbers: &[u32]) -> Option<Call>
    ensures { result ≡ call_of kind.now numbers.now }
{
    if kind == IPC {
        return ipc(numbers);
    }
    if kind == FAULT {
        return fault(numbers);
    }
    if kind == UNMAP {
        return unmap(numbers);
    }
    Some(Call::Control(control(kind, numbers)?))
}

/// `N KIND NUMBER..`
fn start(line: &[u8]) -> Option<Step>
    ensures { result ≡ start_of (tokens_of line.now) }
{
    let (caller, rest) = next_token(line)?;
    let (kind, rest) = next_token(rest)?;
    let caller = number(caller)?;
    let numbers = numbers(rest)?;
    Some(Step::Start(caller, call(kind, numbers.as_slice())?))
}

/// The step or query of this name.
fn named(name: &[u8], numbers: &[u32]) -> Option<Request>
    ensures { result ≡ named_of name.now numbers.now }
{
    if name == TRANSFER {
        let [sender, receiver] = numbers else {
            return None;
        };
        return Some(Request::Do(Step::Transfer(*sender, *receiver)));
    }
    if name == EXPIRE {
        return Some(Request::Do(Step::Expire(only(numbers)?)));
    }
    if name == TIMEOUT {
        return Some(Request::Do(Step::Cancel(only(numbers)?, CancelCause::Timeout)));
    }
    if name == CANCEL {
        return Some(Request::Do(Step::Cancel(only(numbers)?, CancelCause::Canceled)));
    }
    if name == REPLY {
        return Some(Request::Reply(only(numbers)?));
    }
    if name == SPACE {
        return Some(Request::Space(only(numbers)?));
    }
    if name == PAGES {
        return Some(Request::Pages(u64::from(only(numbers)?)));
    }
    if name == ENABLED && numbers.is_empty() {
        return Some(Request::Enabled);
    }
    None
}

/// What a line requests. None if it cannot be read.
pub fn read_request(line: &[u8]) -> Option<Request>
    ensures { result ≡ request_of (tokens_of line.now) }
{
    let (name, rest) = next_token(line)?;
    if name == START {
        return Some(Request::Do(start(rest)?));
    }
    let numbers = numbers(rest)?;
    named(name, numbers.as_slice())
}
