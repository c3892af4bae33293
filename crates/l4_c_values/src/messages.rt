//! Makes the results that contain a message: answers of pagers and sigma0, and the ends of calls.
ghost use Rattle.std.specs.Prelude.{◌≡◌, ℕ, List, Some};
ghost use Rattle.l4_threads.specs.declared.Reply.TheVariants.{Ipc};
ghost use Rattle.l4_msg.specs.Messages.{CanBeWritten, MessageFails};
ghost use Rattle.l4_answers.specs.Refusals.{message_refusal};
ghost use Rattle.l4_refusals.specs.Texts.{spelled};
ghost use Rattle.l4_c_values.specs.Messages.{no_message_result, message_result, TellsUnread};
ghost use Rattle.l4_c_values.specs.Replied.{plain_result, reply_result};
ghost use Rattle.l4_c_values.specs.Told.{carried};

use crate::numbers::{message_detail, message_number};
use crate::results::{ReplyResult, padded};
use l4_ipc::{IpcReply, MAX_WORDS, Message, Reply};
use l4_msg::MsgFault;

/// The words of an answer message, or the reason why there is none.
#[repr(C)]
#[derive(Clone, Copy)]
pub struct MessageResult {
    pub refusal: u32,
    pub detail: u32,
    pub word_count: u32,
    pub words: [u32; MAX_WORDS],
}

/// Returns a result with this refusal and no message.
pub fn no_message(refusal: u32, detail: u32) -> MessageResult
    ensures { result ≡ no_message_result refusal detail }
{
    MessageResult {
        refusal,
        detail,
        word_count: 0,
        words: [0; MAX_WORDS],
    }
}

/// Returns the refusal of words that are not a message.
pub fn unread(fault: MsgFault) -> MessageResult
    ensures value { result
        ≡ no_message_result (spelled (message_refusal fault).name)
        (carried (message_refusal fault).number) }
    ensures told { (words : List ℕ) → MessageFails words fault → TellsUnread words result }
{
    no_message(message_number(fault), message_detail(fault))
}

/// Returns a result with the words of a message.
pub fn message_told(message: &Message) -> MessageResult
    requires { CanBeWritten message.now }
    ensures { result ≡ message_result message.now }
{
    let words = message.write();
    MessageResult {
        refusal: 0,
        detail: 0,
        word_count: words.len() as u32,
        words: padded(words.as_slice()),
    }
}

/// Returns a reply of this kind with this ErrorCode, and no message.
fn plain(refusal: u32, kind: u32, error: u32) -> ReplyResult
    ensures { result ≡ plain_result refusal kind error }
{
    ReplyResult {
        refusal,
        kind,
        tag: 0,
        error,
        from: 0,
        word_count: 0,
        words: [0; MAX_WORDS],
        reserved: [0; 2],
    }
}

/// Returns the reply of an Ipc.
fn ipc_told(reply: &IpcReply) -> ReplyResult
    ensures { result ≡ reply_result (Some (Ipc reply.now)) }
{
    ReplyResult {
        refusal: 0,
        kind: 1,
        tag: reply.tag,
        error: reply.error,
        from: reply.from.0,
        word_count: reply.words.len() as u32,
        words: padded(reply.words.as_slice()),
        reserved: [0; 2],
    }
}

/// Returns the result for a reply.
pub fn reply_told(reply: &Reply) -> ReplyResult
    ensures { result ≡ reply_result (Some reply.now) }
{
    match reply {
        Reply::Ipc(reply) => ipc_told(reply),
        Reply::Hit => plain(0, 2, 0),
        Reply::Answered => plain(0, 3, 0),
        Reply::FaultFailed(code) => plain(0, 4, *code),
        Reply::Unmapped => plain(0, 5, 0),
        Reply::Controlled => plain(0, 6, 0),
        Reply::Gone => plain(0, 7, 0),
    }
}

/// Returns the result without a reply, for this refusal (0 for none).
pub fn no_reply(refusal: u32) -> ReplyResult
    ensures { result ≡ plain_result refusal 0 0 }
{
    plain(refusal, 0, 0)
}
