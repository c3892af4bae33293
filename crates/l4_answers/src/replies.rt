//! The texts of steps and of replies.
ghost use Rattle.std.specs.Prelude.{◌≡◌, ◌<◌, ◌≤◌, ◌+◌, ◌++◌, length, Some, decimal, codes};
ghost use Rattle.l4_ipc.specs.declared.steps.Outcome.TheVariants.{Done};
ghost use Rattle.l4_threads.specs.declared.Reply.TheVariants.{Ipc, Answered};
ghost use Rattle.std.specs.Option.{option_copied};
ghost use Rattle.l4_answers.specs.Replies.{outcome_word, transfer_text, expire_text, cause_name, cancel_text, waits_text, none_text, from_text, space, ipc_head, reply_head, reply_words, reply_text, newline};
ghost use Rattle.l4_text.specs.Texts.{words_text};
ghost use Rattle.l4_text.specs.Streams.{Tells};
ghost use Rattle.l4_text.specs.Sizes.{answer_bytes, held_bytes};

use l4_ipc::{CancelCause, Outcome};
use l4_text::Output;
use l4_threads::{IpcReply, Reply, ThreadId};
use std::io::Write;

/// Adds what came of a transfer, in a word after a space, and ends the line.
#[inline(always)]
fn add_outcome(out: &mut Output, outcome: Outcome)
    requires { length out.old.0 + 16 ≤ held_bytes }
    ensures { out.new ≡ (out.old.0 ++ (space ++ outcome_word outcome ++ newline), out.old.1) }
{
    match outcome {
        Outcome::Done => out.add_array(*b" done\n"),
        Outcome::NoWindow => out.add_array(*b" no-window\n"),
        Outcome::Entangled => out.add_array(*b" entangled\n"),
        Outcome::NoMemory => out.add_array(*b" no-memory\n"),
        Outcome::Started | Outcome::Expired | Outcome::Canceled => out.add_array(*b" \n"),
    }
}

/// Adds `transfer S R done`, or what else came of it in the last word's place, and ends the line.
#[inline(always)]
fn add_transfer(out: &mut Output, sender: u32, receiver: u32, outcome: Outcome)
    requires { length out.old.0 + 80 ≤ held_bytes }
    ensures { out.new ≡ (out.old.0 ++ transfer_text sender receiver outcome, out.old.1) }
{
    out.add_array(*b"transfer ");
    out.add_number(u64::from(sender));
    out.add_spaced_number(u64::from(receiver));
    add_outcome(out, outcome);
}

/// Writes `transfer S R done`, or with another outcome as the last word.
pub fn put_transfer<W: Write>(
    sender: u32,
    receiver: u32,
    outcome: Outcome,
    out: &mut Output,
    writer: &mut W,
)
    ensures { Tells (W.contents writer.old) (W.contents writer.new) out.old out.new
        (transfer_text sender receiver outcome) }
{
    out.make_room(writer);
    add_transfer(out, sender, receiver, outcome);
}

/// Adds `expire N`, and ends the line.
#[inline(always)]
fn add_expire(out: &mut Output, number: u32)
    requires { length out.old.0 + 40 ≤ held_bytes }
    ensures { out.new ≡ (out.old.0 ++ expire_text number, out.old.1) }
{
    out.add_array(*b"expire ");
    out.add_number(u64::from(number));
    out.push(b'\n');
}

/// Writes `expire N`.
pub fn put_expire<W: Write>(number: u32, out: &mut Output, writer: &mut W)
    ensures { Tells (W.contents writer.old) (W.contents writer.new) out.old out.new
        (expire_text number) }
{
    out.make_room(writer);
    add_expire(out, number);
}

/// Returns the name of the step that cancels a wait for this cause.
fn cause_name(cause: CancelCause) -> &'static [u8]
    ensures value { result.now ≡ cause_name cause }
    ensures short { length result.now ≤ 7 }
{
    match cause {
        CancelCause::Timeout => b"timeout",
        CancelCause::Canceled => b"cancel",
    }
}

/// Adds `timeout N` or `cancel N`, and ends the line.
fn add_cancel(out: &mut Output, number: u32, cause: CancelCause)
    requires { length out.old.0 + 40 ≤ held_bytes }
    ensures { out.new ≡ (out.old.0 ++ cancel_text number cause, out.old.1) }
{
    out.add(cause_name(cause));
    out.push(b' ');
    out.add_number(u64::from(number));
    out.push(b'\n');
}

/// Writes `timeout N` or `cancel N`.
#[inline(never)]
pub fn put_cancel<W: Write>(number: u32, cause: CancelCause, out: &mut Output, writer: &mut W)
    ensures { Tells (W.contents writer.old) (W.contents writer.new) out.old out.new
        (cancel_text number cause) }
{
    out.make_room(writer);
    add_cancel(out, number, cause);
}

/// Adds a thread's number, and these bytes.
#[inline(always)]
fn add_numbered<const COUNT: usize>(out: &mut Output, number: u32, rest: [u8; COUNT])
    requires { length out.old.0 + 20 + COUNT ≤ held_bytes }
    ensures value { out.new ≡ (out.old.0 ++ (decimal number ++ rest.entry), out.old.1) }
    ensures len { length out.new.0 ≤ length out.old.0 + 20 + COUNT }
{
    out.add_number(u64::from(number));
    out.add_array(rest);
}

/// Writes `N waits`.
pub fn put_waits<W: Write>(number: u32, out: &mut Output, writer: &mut W)
    ensures { Tells (W.contents writer.old) (W.contents writer.new) out.old out.new
        (waits_text number) }
{
    out.make_room(writer);
    add_numbered(out, number, *b" waits\n");
}

/// Writes `N none`.
pub fn put_none<W: Write>(number: u32, out: &mut Output, writer: &mut W)
    ensures { Tells (W.contents writer.old) (W.contents writer.new) out.old out.new
        (none_text number) }
{
    out.make_room(writer);
    add_numbered(out, number, *b" none\n");
}

/// Adds a thread's number after a space, or `nil`.
#[inline(always)]
fn add_spaced_thread(out: &mut Output, id: ThreadId)
    requires { length out.old.0 + 21 ≤ held_bytes }
    ensures value { out.new ≡ (out.old.0 ++ space ++ from_text id, out.old.1) }
    ensures len { length out.new.0 ≤ length out.old.0 + 21 }
{
    if id.0 == 0 {
        out.add_array(*b" nil");
    } else {
        out.add_spaced_number(u64::from(id.number()));
    }
}

/// Adds `N ipc TAG ERROR FROM`, for a line that continues with the words.
#[inline(always)]
fn add_ipc_head(out: &mut Output, number: u32, reply: &IpcReply)
    requires { length out.old.0 + 80 ≤ held_bytes }
    ensures value { out.new ≡ (out.old.0 ++ ipc_head number reply.now, out.old.1) }
    ensures len { length out.new.0 ≤ length out.old.0 + 80 }
{
    out.add_number(u64::from(number));
    out.add_array(*b" ipc ");
    out.add_word(reply.tag);
    out.add_spaced_number(u64::from(reply.error));
    add_spaced_thread(out, reply.from);
}

/// Adds `N fault failed CODE`.
fn add_failed_head(out: &mut Output, number: u32, code: u32)
    requires { length out.old.0 + 80 ≤ held_bytes }
    ensures value { out.new
        ≡ (out.old.0 ++ (decimal number ++ codes " fault failed " ++ decimal code), out.old.1) }
    ensures len { length out.new.0 ≤ length out.old.0 + 80 }
{
    add_numbered(out, number, *b" fault failed ");
    out.add_number(u64::from(code));
}

/// Adds how a thread's call ended, for a line that continues with the words of its message.
#[inline(always)]
fn add_reply_head(out: &mut Output, number: u32, reply: Option<&Reply>)
    requires { length out.old.0 + 80 ≤ held_bytes }
    ensures { out.new ≡ (out.old.0 ++ reply_head number (option_copied reply.entry), out.old.1) }
{
    match reply {
        Some(Reply::Ipc(reply)) => add_ipc_head(out, number, reply),
        Some(Reply::Hit) => add_numbered(out, number, *b" fault hit"),
        Some(Reply::Answered) => add_numbered(out, number, *b" fault answered"),
        Some(Reply::FaultFailed(code)) => add_failed_head(out, number, *code),
        Some(Reply::Unmapped) => add_numbered(out, number, *b" unmap ok"),
        Some(Reply::Controlled) => add_numbered(out, number, *b" control ok"),
        Some(Reply::Gone) => add_numbered(out, number, *b" gone"),
        None => add_numbered(out, number, *b" gone"),
    }
}

/// Returns the words of the message in a reply.
pub fn reply_words(reply: Option<&Reply>) -> &[u32]
    ensures { result.now ≡ reply_words (option_copied reply.entry) }
{
    match reply {
        Some(Reply::Ipc(reply)) => reply.words.as_slice(),
        Some(Reply::Hit) => &[],
        Some(Reply::Answered) => &[],
        Some(Reply::FaultFailed(_)) => &[],
        Some(Reply::Unmapped) => &[],
        Some(Reply::Controlled) => &[],
        Some(Reply::Gone) => &[],
        None => &[],
    }
}

/// Adds how an Ipc ended, with the line's end.
#[inline(always)]
fn add_ipc(out: &mut Output, number: u32, reply: &IpcReply)
    requires { length out.old.0 + answer_bytes ≤ held_bytes }
    ensures { out.new ≡ (out.old.0 ++ reply_text number (Some (Ipc reply.now)), out.old.1) }
{
    add_ipc_head(out, number, reply);
    out.add_words(reply.words.as_slice());
    out.push(b'\n');
}

/// Writes how a thread's call ended. Most calls are Ipcs, or faults that were answered.
#[inline(always)]
fn put_last_reply<W: Write>(number: u32, reply: &Reply, out: &mut Output, writer: &mut W)
    ensures { Tells (W.contents writer.old) (W.contents writer.new) out.old out.new
        (reply_text number (Some reply.now)) }
{
    if let Reply::Ipc(ipc) = reply {
        out.make_room(writer);
        return add_ipc(out, number, ipc);
    }
    if let Reply::Answered = reply {
        out.make_room(writer);
        return add_numbered(out, number, *b" fault answered\n");
    }
    put_any_reply(number, Some(reply), out, writer);
}

/// Writes how a thread's call ended. A thread that was deleted has no reply.
pub fn put_reply<W: Write>(number: u32, reply: Option<&Reply>, out: &mut Output, writer: &mut W)
    ensures { Tells (W.contents writer.old) (W.contents writer.new) out.old out.new
        (reply_text number (option_copied reply.entry)) }
{
    match reply {
        Some(reply) => put_last_reply(number, reply, out, writer),
        None => put_any_reply(number, None, out, writer),
    }
}

/// Writes how a thread's call ended, as `put_reply` does, for any reply.
#[inline(never)]
fn put_any_reply<W: Write>(number: u32, reply: Option<&Reply>, out: &mut Output, writer: &mut W)
    ensures { Tells (W.contents writer.old) (W.contents writer.new) out.old out.new
        (reply_text number (option_copied reply.entry)) }
{
    out.make_room(writer);
    add_reply_head(out, number, reply);
    out.put_words(writer, reply_words(reply));
    out.end_line(writer);
}
