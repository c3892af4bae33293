//! Gates, and the loop that serves a pager through one.
ghost use Rattle.std.specs.Prelude.{◌≡◌, ℕ, ◌+◌, ◌%◌, ◌≤◌, Bool, List, [], ◌∷◌, ◌++◌, length, IfOk, IfErr, MatchOption, MatchResult};
ghost use Rattle.l4_threads.specs.declared.ThreadId.{ThreadId as AnId};
ghost use Rattle.l4_threads.specs.declared.Reply.{Reply as AReply};
ghost use Rattle.l4_msg.specs.declared.messages.Message.{Message as AMessage};
ghost use Rattle.l4_ipc.specs.declared.calls.Call.{Call as ACall};
ghost use Rattle.l4_ipc.specs.declared.calls.Call.TheVariants.{Ipc};
ghost use Rattle.l4_msg.specs.Messages.{CanBeWritten, message_words};
ghost use Rattle.l4_msg.specs.Protocols.{one_item};
ghost use Rattle.l4_msg.specs.Sizes.{base_unit, max_words};
ghost use Rattle.l4_msg.specs.declared.items.Item.TheVariants.{Map};
ghost use Rattle.l4_pager.specs.declared.serving.GateFault.{GateFault as AFault};
ghost use Rattle.l4_pager.specs.Serving.{Brings, Follows, Serves, ComesNext, AreDone, Accepted, is_shut, waiting, sending};

use crate::regions::RegionPager;
use arrayvec::ArrayVec;
use l4_fpage::Fpage;
use l4_ipc::{Call, IpcCall, Reply};
use l4_msg::{MAX_WORDS, Message, map_answer};
use l4_threads::ThreadId;

/// The maximum number of words of a reply: its tag, and the words after it.
const REPLY_WORDS: usize = MAX_WORDS + 1;

/// The timeouts of an answer: zero for the send phase, and never for the receive phase.
const AT_ONCE: u32 = 0x0400_0000;

/// The tag of an answer: label 0, one item, no untyped word.
const ANSWER_TAG: u32 = 0x80;

/// The kind of a map item: the low bits of the first word of the last item of a message.
const MAP_KIND: u32 = 8;

/// The reason why a gate did not enter a call.
#[derive(Clone, Copy, PartialEq, Eq, Debug)]
pub struct GateFault {
    /// The number of the refusal: 1 to 5 for L1 to L5. So 2 means that an allocation failed.
    pub code: u8,
}

/// An interface that enters the calls of one thread into a kernel, and takes their replies. A gate that waits owns
/// what it needs for waiting.
pub trait Gate {
    /// The calls that were entered, with their replies.
    ghost pairs: { Self → List (ACall × AReply) };

    /// The gate accepts a call with this reply, and is in this state afterwards.
    ghost accepts: { Self → ACall → AReply → Self → Type 0 };

    /// The gate refuses a call with this fault, and is in this state afterwards.
    ghost refuses: { Self → ACall → AFault → Self → Type 0 };

    /// Enters a call and takes its reply. After a `GateFault` nothing was entered, because room for the pair is allocated first.
    fn enter(&mut self, call: Call) -> Result<Reply, GateFault>
        ensures { MatchResult result
            (λ reply. (pairs self.new ≡ pairs self.old ++ (call, reply) ∷ [])
            × accepts self.old call reply self.new)
            (λ fault. (pairs self.new ≡ pairs self.old) × refuses self.old call fault self.new) };
}

/// Returns the sender and the message of a reply. Returns `None` if it is not the reply of an Ipc, or if the Ipc
/// failed.
pub fn brought(reply: &Reply) -> Option<(ThreadId, Message)>
    ensures { MatchOption result ((sender : AnId) (m : AMessage) → ¬ Brings reply.now sender m)
        (λ p. Brings reply.now p.0 p.1) }
{
    match reply {
        Reply::Ipc(ipc) => {
            let mut words: ArrayVec<u32, REPLY_WORDS> = ArrayVec::new();
            words.push(ipc.tag);
            let _ = words.try_extend_from_slice(ipc.words.as_slice());
            match Message::read(words.as_slice()) {
                Ok(message) => Some((ipc.from, message)),
                Err(_) => None,
            }
        }
        Reply::Hit => None,
        Reply::Answered => None,
        Reply::FaultFailed(_) => None,
        Reply::Unmapped => None,
        Reply::Controlled => None,
        Reply::Gone => None,
    }
}

/// Returns the call that receives from any thread, with a nil window and without a timeout.
pub fn wait() -> Call
    ensures { result ≡ waiting }
{
    Call::Ipc(IpcCall {
        to: ThreadId::nil(),
        from: ThreadId::any(),
        timeouts: 0,
        acceptor: 0,
        words: ArrayVec::new(),
    })
}

/// Returns the call that sends an answer to a waiting thread, and then receives from any thread.
pub fn answering(sender: ThreadId, answer: &Message) -> Call
    requires { CanBeWritten answer.now }
    ensures { result ≡ sending sender (message_words answer.now) }
{
    Call::Ipc(IpcCall {
        to: sender,
        from: ThreadId::any(),
        timeouts: AT_ONCE,
        acceptor: 0,
        words: answer.write(),
    })
}

/// Makes an Ipc a receive phase from any thread, with a nil window and without a timeout.
fn set_wait(ipc: &mut IpcCall)
    ensures { Ipc ipc.new ≡ waiting }
{
    ipc.to = ThreadId::nil();
    ipc.from = ThreadId::any();
    ipc.timeouts = 0;
    ipc.acceptor = 0;
    ipc.words.clear();
}

/// Overwrites a call with the one that `wait` returns.
pub fn wait_into(call: &mut Call)
    ensures { call.new ≡ waiting }
{
    match call {
        Call::Ipc(ipc) => set_wait(ipc),
        Call::Fault(_) => *call = wait(),
        Call::Unmap(_) => *call = wait(),
        Call::Control(_) => *call = wait(),
    }
}

/// Writes three words to message registers. If they already contain three words, as after an earlier answer, each word is overwritten in
/// place. So no register is cleared first, and no wider load has to wait for the stores.
fn set_words(registers: &mut ArrayVec<u32, MAX_WORDS>, first: u32, second: u32, third: u32)
    ensures { registers.new.items ≡ first ∷ second ∷ third ∷ [] }
{
    if registers.len() == 3 {
        let words = registers.as_mut_slice();
        words[0] = first;
        words[1] = second;
        words[2] = third;
        return;
    }
    registers.clear();
    let _ = registers.try_extend_from_slice(&[first, second, third]);
}

/// Makes an Ipc one that sends an answer of one map item, and then receives from any thread.
fn set_answer(ipc: &mut IpcCall, sender: ThreadId, base: u32, fpage: Fpage)
    requires { base % base_unit ≡ 0 }
    ensures { Ipc ipc.new ≡ sending sender (message_words (one_item (Map base fpage))) }
{
    ipc.to = sender;
    ipc.from = ThreadId::any();
    ipc.timeouts = AT_ONCE;
    ipc.acceptor = 0;
    set_words(&mut ipc.words, ANSWER_TAG, base + MAP_KIND, fpage.word());
}

/// Overwrites a call with the one that `answering` returns for an answer of one map item, given by its send base and
/// fpage. If the call is an Ipc, it is changed in place.
pub fn answer_into(call: &mut Call, sender: ThreadId, base: u32, fpage: Fpage)
    requires { base % base_unit ≡ 0 }
    ensures { call.new ≡ sending sender (message_words (one_item (Map base fpage))) }
{
    match call {
        Call::Ipc(ipc) => set_answer(ipc, sender, base, fpage),
        Call::Fault(_) => *call = answering(sender, &map_answer(base, fpage)),
        Call::Unmap(_) => *call = answering(sender, &map_answer(base, fpage)),
        Call::Control(_) => *call = answering(sender, &map_answer(base, fpage)),
    }
}

/// Returns the call that is entered after a reply, and whether it is an answer.
fn next_call(regions: &RegionPager, reply: &Reply) -> (Call, bool)
    ensures { Follows regions.now reply.now result.0 result.1 }
{
    let Some((sender, message)) = brought(reply) else {
        return (wait(), false);
    };
    (answering(sender, &regions.answer(&message)), true)
}

/// The ErrorCode of a receive phase that was canceled.
const RECEIVE_CANCELED: u32 = 7;

/// Returns whether the receive phase of a call was canceled.
fn is_shut(reply: &Reply) -> bool
    ensures { result ≡ is_shut reply.now }
{
    match reply {
        Reply::Ipc(ipc) => ipc.error == RECEIVE_CANCELED,
        Reply::Hit => false,
        Reply::Answered => false,
        Reply::FaultFailed(_) => false,
        Reply::Unmapped => false,
        Reply::Controlled => false,
        Reply::Gone => false,
    }
}

/// Serves a pager through a gate. It first receives from any thread, with a nil window. In each turn it answers the
/// message of the last reply and receives again, or only receives again if the reply has no message. A reply has a
/// message if it is that of an Ipc that did not fail, and its tag and words are a valid message.
///
/// Returns the number of answers that were entered in `turns` turns, or in fewer if a receive phase of its calls is canceled (ErrorCode 7):
/// this tells the server to end. Stops at the first fault of the gate, and returns it.
pub fn serve<G: Gate>(gate: &mut G, regions: &RegionPager, turns: u32) -> Result<u32, GateFault>
    ensures ok { IfOk result
        (λ answers. (entered : List (ACall × AReply))
        × (G.pairs gate.new ≡ G.pairs gate.old ++ entered) × AreDone turns entered
        × Serves regions.now entered answers × Accepted G.accepts gate.old entered gate.new) }
    ensures err { IfErr result
        (λ fault. (before : G) × (call : ACall) × G.refuses before call fault gate.new
        ×
        ((entered : List (ACall × AReply)) × (answers : ℕ)
        × (G.pairs gate.new ≡ G.pairs gate.old ++ entered) × (length entered ≤ turns)
        × Serves regions.now entered answers × ComesNext regions.now entered call
        × Accepted G.accepts gate.old entered before)) }
{
    let mut reply = match gate.enter(wait()) {
        Ok(reply) => reply,
        Err(fault) => return Err(fault),
    };
    let mut answers = 0u32;
    for _ in 0..turns {
        if is_shut(&reply) {
            return Ok(answers);
        }
        let (call, is_answer) = next_call(regions, &reply);
        match gate.enter(call) {
            Ok(next) => reply = next,
            Err(fault) => return Err(fault),
        }
        answers += u32::from(is_answer);
    }
    Ok(answers)
}
