//! Calls as words: a tag, followed by a word for each field. A list comes last, and ends with the words.
ghost use Rattle.std.specs.Prelude.{◌≡◌, ◌+◌, ◌≤◌, ◌<◌, ◌++◌, length};
ghost use Rattle.l4_journal.specs.Codes.{call_tag, call_fields, control_fields, CallFits};
ghost use Rattle.l4_journal.specs.Reading.{ipc_at, fault_at, unmap_at, create_at, set_pager_at, call_of};

use crate::lists::read_list;
use crate::words::{RECORD_WORDS, Record, Words, read_word};
use l4_ipc::{
    Call, Control, Create, FaultCall, IpcCall, MAX_WORDS, Rights, SetPager, ThreadId, UnmapCall,
};

/// The tag of an Ipc.
pub const IPC: u32 = 0;

/// The tag of a page fault.
pub const FAULT: u32 = 1;

/// The tag of an Unmap.
const UNMAP: u32 = 2;

/// The tag of the creation of a thread.
const CREATE: u32 = 3;

/// The tag of a change of a thread's pager.
const SET_PAGER: u32 = 4;

/// The tag of the deletion of a thread.
const DELETE: u32 = 5;

/// The maximum number of words of a call's fields.
pub const FIELD_WORDS: usize = MAX_WORDS + 4;

/// The bits of a set of rights are below this.
const RIGHTS: u32 = 8;

/// Returns the tag of a call.
pub fn call_tag(call: &Call) -> u32
    ensures { result ≡ call_tag call.now }
{
    match call {
        Call::Ipc(_) => IPC,
        Call::Fault(_) => FAULT,
        Call::Unmap(_) => UNMAP,
        Call::Control(Control::Create(_)) => CREATE,
        Call::Control(Control::SetPager(_)) => SET_PAGER,
        Call::Control(Control::Delete(_)) => DELETE,
    }
}

/// Appends the fields of a call. There must be room for `FIELD_WORDS`.
pub fn put_fields(out: &mut Record, call: &Call)
    requires { length out.old.items + FIELD_WORDS ≤ RECORD_WORDS }
    ensures items { out.new.items ≡ out.old.items ++ call_fields call.now }
    ensures fits { CallFits call.now }
{
    match call {
        Call::Ipc(call) => {
            out.push_all(&[call.to.0, call.from.0, call.timeouts, call.acceptor]);
            out.push_all(call.words.as_slice());
        }
        Call::Fault(fault) => {
            out.push_all(&[fault.address, fault.ip, u32::from(fault.access.bits())]);
        }
        Call::Unmap(unmap) => {
            out.push(unmap.control);
            out.push_all(unmap.words.as_slice());
        }
        Call::Control(control) => put_control(out, control),
    }
}

/// Appends the fields of a thread control.
fn put_control(out: &mut Record, control: &Control)
    requires { length out.old.items + FIELD_WORDS ≤ RECORD_WORDS }
    ensures { out.new.items ≡ out.old.items ++ control_fields control.now }
{
    match control {
        Control::Create(create) => {
            out.push_all(&[create.id.0, create.space.0, create.pager.0]);
        }
        Control::SetPager(set) => out.push_all(&[set.id.0, set.pager.0]),
        Control::Delete(id) => out.push(id.0),
    }
}

/// Reads an Ipc from these fields.
fn read_ipc(words: Words<'_>) -> Option<IpcCall>
    ensures { result ≡ ipc_at words.entry }
{
    let (to, rest) = read_word(words)?;
    let (from, rest) = read_word(rest)?;
    let (timeouts, rest) = read_word(rest)?;
    let (acceptor, rest) = read_word(rest)?;
    let words = read_list(rest)?;
    Some(IpcCall {
        to: ThreadId(to),
        from: ThreadId(from),
        timeouts,
        acceptor,
        words,
    })
}

/// Reads a page fault from these fields.
fn read_fault(words: Words<'_>) -> Option<FaultCall>
    ensures { result ≡ fault_at words.entry }
{
    let (address, rest) = read_word(words)?;
    let (ip, rest) = read_word(rest)?;
    let (bits, _) = read_word(rest)?;
    if bits >= RIGHTS {
        return None;
    }
    Some(FaultCall {
        address,
        ip,
        access: Rights::of_bits(bits as u8),
    })
}

/// Reads an Unmap from these fields.
fn read_unmap(words: Words<'_>) -> Option<UnmapCall>
    ensures { result ≡ unmap_at words.entry }
{
    let (control, rest) = read_word(words)?;
    let words = read_list(rest)?;
    Some(UnmapCall { control, words })
}

/// Reads the creation of a thread from these fields.
fn read_create(words: Words<'_>) -> Option<Create>
    ensures { result ≡ create_at words.entry }
{
    let (id, rest) = read_word(words)?;
    let (space, rest) = read_word(rest)?;
    let (pager, _) = read_word(rest)?;
    Some(Create {
        id: ThreadId(id),
        space: ThreadId(space),
        pager: ThreadId(pager),
    })
}

/// Reads a change of a thread's pager from these fields.
fn read_set_pager(words: Words<'_>) -> Option<SetPager>
    ensures { result ≡ set_pager_at words.entry }
{
    let (id, rest) = read_word(words)?;
    let (pager, _) = read_word(rest)?;
    Some(SetPager {
        id: ThreadId(id),
        pager: ThreadId(pager),
    })
}

/// Reads the call with this tag and these fields, which are all of the words. Returns None if the words are not those of such a call.
pub fn read_call(tag: u32, words: Words<'_>) -> Option<Call>
    ensures { result ≡ call_of tag words.entry }
{
    match tag {
        IPC => {
            let call = read_ipc(words)?;
            Some(Call::Ipc(call))
        }
        FAULT => {
            let call = read_fault(words)?;
            Some(Call::Fault(call))
        }
        UNMAP => {
            let call = read_unmap(words)?;
            Some(Call::Unmap(call))
        }
        CREATE => {
            let create = read_create(words)?;
            Some(Call::Control(Control::Create(create)))
        }
        SET_PAGER => {
            let set = read_set_pager(words)?;
            Some(Call::Control(Control::SetPager(set)))
        }
        DELETE => {
            let (id, _) = read_word(words)?;
            Some(Call::Control(Control::Delete(ThreadId(id))))
        }
        _ => None,
    }
}
