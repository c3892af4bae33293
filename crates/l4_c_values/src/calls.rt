//! Calls as C passes them.
ghost use Rattle.std.specs.Prelude.{◌≡◌, ◌≤◌, [], true, false, length, take};
ghost use Rattle.l4_fpage.specs.Rights.{set_of_bits};
ghost use Rattle.l4_c_values.specs.Called.{IsBlank, IsPlain, HasMembers, IsCall, IsNoCall};

use l4_ipc::{
    ArrayVec, Call, Control, Create, FaultCall, IpcCall, MAX_WORDS, Rights, SetPager, ThreadId,
    UnmapCall,
};

/// The kind of a Delete.
pub const DELETE: u32 = 6;

/// A call of a thread. Only the members that its kind uses are read.
#[repr(C)]
#[derive(Clone, Copy)]
pub struct CallGiven {
    pub kind: u32,
    pub to: u32,
    pub from: u32,
    pub timeouts: u32,
    pub acceptor: u32,
    pub address: u32,
    pub ip: u32,
    pub access: u32,
    pub control: u32,
    pub id: u32,
    pub space: u32,
    pub pager: u32,
    pub reserved: [u32; 4],
}

/// Returns the first 64 words, or all if there are fewer.
fn registers(words: &[u32]) -> &[u32]
    ensures first { result.now ≡ take 64 words.now }
    ensures fits { length result.now ≤ 64 }
{
    if words.len() <= MAX_WORDS {
        return words;
    }
    &words[..MAX_WORDS]
}

/// Appends the first 64 words to an empty list.
fn fill(list: &mut ArrayVec<u32, MAX_WORDS>, words: &[u32])
    requires { list.old.items ≡ [] }
    ensures { list.new.items ≡ take 64 words.now }
{
    let _ = list.try_extend_from_slice(registers(words));
}

/// Returns the rights in a word's low three bits.
#[tactic(auto, using(l4_fpage::proofs::Eight::set_of_low))]
pub fn rights(word: u32) -> Rights
    ensures { result ≡ set_of_bits word }
{
    Rights::of_bits((word & 7) as u8)
}

fn write_ipc(call: &mut Call, given: &CallGiven, words: &[u32])
    requires kind { given.now.kind ≡ 1 }
    requires blank { IsBlank call.old }
    ensures { HasMembers given.now words.now call.new }
{
    if let Call::Ipc(ipc) = call {
        ipc.to = ThreadId(given.to);
        ipc.from = ThreadId(given.from);
        ipc.timeouts = given.timeouts;
        ipc.acceptor = given.acceptor;
        fill(&mut ipc.words, words);
    }
}

fn write_unmap(call: &mut Call, given: &CallGiven, words: &[u32])
    requires { given.now.kind ≡ 3 }
    ensures { HasMembers given.now words.now call.new }
{
    *call = Call::Unmap(UnmapCall {
        control: 0,
        words: ArrayVec::new(),
    });
    if let Call::Unmap(unmap) = call {
        unmap.control = given.control;
        fill(&mut unmap.words, words);
    }
}

fn fault(given: &CallGiven, words: &[u32]) -> Call
    requires { given.now.kind ≡ 2 }
    ensures { HasMembers given.now words.now result }
{
    Call::Fault(FaultCall {
        address: given.address,
        ip: given.ip,
        access: rights(given.access),
    })
}

fn create(given: &CallGiven, words: &[u32]) -> Call
    requires { given.now.kind ≡ 4 }
    ensures { HasMembers given.now words.now result }
{
    Call::Control(Control::Create(Create {
        id: ThreadId(given.id),
        space: ThreadId(given.space),
        pager: ThreadId(given.pager),
    }))
}

fn set_pager(given: &CallGiven, words: &[u32]) -> Call
    requires { given.now.kind ≡ 5 }
    ensures { HasMembers given.now words.now result }
{
    Call::Control(Control::SetPager(SetPager {
        id: ThreadId(given.id),
        pager: ThreadId(given.pager),
    }))
}

pub fn delete(given: &CallGiven, words: &[u32]) -> Call
    requires { given.now.kind ≡ 6 }
    ensures { HasMembers given.now words.now result }
{
    Call::Control(Control::Delete(ThreadId(given.id)))
}

/// Returns whether the reserved members are 0.
fn is_plain(given: &CallGiven) -> bool
    ensures yes { result ≡ true → IsPlain given.now }
    ensures no { result ≡ false → ¬ (IsPlain given.now) }
{
    given.reserved.as_slice() == [0; 4].as_slice()
}

/// Overwrites a blank call with the call that C passed, because a call has room for a whole message, which a move would copy. Returns false
/// if its kind is unknown, or a reserved member is not 0.
#[inline(always)]
pub fn write_call(call: &mut Call, given: &CallGiven, words: &[u32]) -> bool
    requires { IsBlank call.old }
    ensures is { result ≡ true → IsCall given.now words.now call.new }
    ensures none { result ≡ false → IsNoCall given.now }
{
    if !is_plain(given) {
        return false;
    }
    match given.kind {
        1 => write_ipc(call, given, words),
        2 => *call = fault(given, words),
        3 => write_unmap(call, given, words),
        4 => *call = create(given, words),
        5 => *call = set_pager(given, words),
        DELETE => *call = delete(given, words),
        _ => return false,
    }
    true
}
