//! The lines of replies and steps, as the answers to a script have them.
ghost use Rattle.std.specs.Prelude.{◌≡◌, ◌≤◌, ◌+◌, ◌*◌, ◌∷◌, ◌++◌, length, Some, decimal, codes};
ghost use Rattle.l4_threads.specs.declared.Reply.TheVariants.{FaultFailed};
ghost use Rattle.l4_text.specs.Texts.{word_text, words_text};
ghost use Rattle.l4_answers.specs.Replies.{space, from_text, ipc_head, reply_head, reply_words};
ghost use Rattle.l4_c_values.specs.Lines.{ipc_given, reply_given, reply_line, outcome_text, step_line};

use crate::results::{NextResult, ReplyResult};
use arrayvec::ArrayVec;
use l4_ipc::{IpcReply, MAX_WORDS, Reply, ThreadId};
use l4_text::Text;

/// The maximum number of bytes of a reply's line: a head of 80 bytes, and 64 words.
pub const MAX_LINE: usize = 656;

/// The bytes of a reply's line.
pub type Line = ArrayVec<u8, MAX_LINE>;

/// Returns the reply of an Ipc.
fn ipc_given(given: &ReplyResult) -> IpcReply
    ensures { result ≡ ipc_given given.now }
{
    let count = (given.word_count as usize).min(MAX_WORDS);
    let mut words = ArrayVec::new();
    let _ = words.try_extend_from_slice(&given.words[..count]);
    IpcReply {
        tag: given.tag,
        error: given.error,
        from: ThreadId(given.from),
        words,
    }
}

/// Returns the reply that C passed, or None if its kind is not that of a reply.
fn reply_given(given: &ReplyResult) -> Option<Reply>
    ensures { result ≡ reply_given given.now }
{
    match given.kind {
        1 => Some(Reply::Ipc(ipc_given(given))),
        2 => Some(Reply::Hit),
        3 => Some(Reply::Answered),
        4 => Some(Reply::FaultFailed(given.error)),
        5 => Some(Reply::Unmapped),
        6 => Some(Reply::Controlled),
        7 => Some(Reply::Gone),
        _ => None,
    }
}

/// Returns a thread's number, followed by these bytes.
fn numbered(number: u32, rest: &[u8]) -> Text
    requires { length rest.now ≤ 20 }
    ensures value { result ≡ decimal number ++ rest.now }
    ensures len { length result ≤ 40 }
{
    let mut text = Text::new();
    text.add_number(u64::from(number));
    text.add(rest);
    text
}

/// Appends the number of a thread, or `nil`.
fn add_thread(text: &mut Text, id: ThreadId)
    requires { length text.old ≤ 100 }
    ensures value { text.new ≡ text.old ++ from_text id }
    ensures len { length text.new ≤ length text.old + 20 }
{
    if id.0 == 0 {
        text.add(b"nil");
    } else {
        text.add_number(u64::from(id.number()));
    }
}

/// Returns the line of an Ipc's reply before its words.
fn ipc_head(number: u32, reply: &IpcReply) -> Text
    ensures value { result ≡ ipc_head number reply.now }
    ensures len { length result ≤ 80 }
{
    let mut text = Text::new();
    text.add_number(u64::from(number));
    text.add(b" ipc ");
    text.add_word(reply.tag);
    text.push(b' ');
    text.add_number(u64::from(reply.error));
    text.push(b' ');
    add_thread(&mut text, reply.from);
    text
}

/// Returns the line of a fault that failed.
fn failed_head(number: u32, code: u32) -> Text
    ensures value { result ≡ reply_head number (Some (FaultFailed code)) }
    ensures len { length result ≤ 80 }
{
    let mut text = numbered(number, b" fault failed ");
    text.add_number(u64::from(code));
    text
}

/// Returns the line of a reply before the words of its message.
fn reply_head(number: u32, reply: &Reply) -> Text
    ensures value { result ≡ reply_head number (Some reply.now) }
    ensures len { length result ≤ 80 }
{
    match reply {
        Reply::Ipc(reply) => ipc_head(number, reply),
        Reply::Hit => numbered(number, b" fault hit"),
        Reply::Answered => numbered(number, b" fault answered"),
        Reply::FaultFailed(code) => failed_head(number, *code),
        Reply::Unmapped => numbered(number, b" unmap ok"),
        Reply::Controlled => numbered(number, b" control ok"),
        Reply::Gone => numbered(number, b" gone"),
    }
}

/// Adds a word after a space.
fn add_word(line: &mut Line, word: u32)
    requires { length line.old.items + 9 ≤ 656 }
    ensures value { line.new.items ≡ line.old.items ++ 32 ∷ word_text word }
    ensures len { length line.new.items ≡ length line.old.items + 9 }
{
    let mut text = Text::new();
    text.push(b' ');
    text.add_word(word);
    let _ = line.try_extend_from_slice(text.as_slice());
}

/// Adds words, each after a space.
fn add_words(line: &mut Line, words: &[u32])
    requires { length line.old.items + 9 * length words.now ≤ 656 }
    ensures { line.new.items ≡ line.old.items ++ words_text words.now }
{
    for word in words {
        add_word(line, *word);
    }
}

/// Appends the words of the message that a call received.
fn add_message(line: &mut Line, reply: &Reply)
    requires { length line.old.items ≤ 80 }
    ensures { line.new.items ≡ line.old.items ++ words_text (reply_words (Some reply.now)) }
{
    if let Reply::Ipc(reply) = reply {
        add_words(line, reply.words.as_slice());
    }
}

/// Returns the line of a thread's reply, without its newline. It is empty if the kind names no reply.
pub fn reply_line(number: u32, given: &ReplyResult) -> Line
    ensures { result.items ≡ reply_line number (reply_given given.now) }
{
    let mut line = ArrayVec::new();
    if let Some(reply) = reply_given(given) {
        let _ = line.try_extend_from_slice(reply_head(number, &reply).as_slice());
        add_message(&mut line, &reply);
    }
    line
}

/// Returns the outcome of a transfer, after a space.
fn outcome_text(outcome: u32) -> &'static [u8]
    ensures { (result.now ≡ outcome_text outcome) × (length result.now ≤ 10) }
{
    match outcome {
        2 => b" done",
        3 => b" no-window",
        4 => b" entangled",
        5 => b" no-memory",
        _ => b"",
    }
}

/// Returns the line of a transfer, without its newline.
fn transfer_line(given: &NextResult) -> Text
    ensures { result ≡ codes "transfer " ++ decimal given.now.thread ++ space
        ++ decimal given.now.receiver ++ outcome_text given.now.outcome }
{
    let mut text = Text::new();
    text.add(b"transfer ");
    text.add_number(u64::from(given.thread));
    text.push(b' ');
    text.add_number(u64::from(given.receiver));
    text.add(outcome_text(given.outcome));
    text
}

/// Returns the line of a step, without its newline. It is empty if the kind names no step.
pub fn step_line(given: &NextResult) -> Text
    ensures { result ≡ step_line given.now }
{
    if given.kind == 1 {
        transfer_line(given)
    } else if given.kind == 2 {
        let mut text = Text::new();
        text.add(b"expire ");
        text.add_number(u64::from(given.thread));
        text
    } else if given.kind == 4 {
        let mut text = Text::new();
        text.add(b"timeout ");
        text.add_number(u64::from(given.thread));
        text
    } else if given.kind == 5 {
        let mut text = Text::new();
        text.add(b"cancel ");
        text.add_number(u64::from(given.thread));
        text
    } else {
        Text::new()
    }
}
