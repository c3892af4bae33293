//! The texts of answers.
ghost use Rattle.std.specs.Prelude.{◌≡◌, ◌≤◌, ◌+◌, ◌++◌, length, codes, decimal};
ghost use Rattle.std.specs.Option.{option_copied};
ghost use Rattle.l4_answers.specs.Refusals.{kernel_refusal};
ghost use Rattle.l4_answers.specs.Replies.{space, newline, reply_words as words_of};
ghost use Rattle.l4_text.specs.Texts.{words_text};
ghost use Rattle.l4_step_lines.specs.Answers.{outcome_name, ipc_name, reply_name, refused_line, ended_line, next_name, enabled_line, space_line, page_line};
ghost use Rattle.l4_text.specs.Streams.{Tells};
ghost use Rattle.l4_text.specs.Sizes.{text_bytes};

use l4_answers::{add_code, add_page, add_place, refused_code, reply_words};
use l4_ipc::{Outcome, Refused, Step};
use l4_mapdb::Mapping;
use l4_text::{Output, Text};
use l4_threads::{IpcReply, Reply};
use std::io::Write;

/// What a step did, in a word.
fn outcome_name(outcome: Outcome) -> &'static [u8]
    ensures value { result.now ≡ outcome_name outcome }
    ensures short { length result.now ≤ 16 }
{
    match outcome {
        Outcome::Started => b"started",
        Outcome::Done => b"done",
        Outcome::NoWindow => b"no-window",
        Outcome::Entangled => b"entangled",
        Outcome::NoMemory => b"no-memory",
        Outcome::Expired => b"expired",
        Outcome::Canceled => b"canceled",
    }
}

/// What a step did, after a mark.
pub(crate) fn outcome_text(mark: &[u8], outcome: Outcome) -> Text
    requires { length mark.now ≤ 8 }
    ensures { result ≡ mark.now ++ outcome_name outcome ++ newline }
{
    let mut text = Text::new();
    text.add(mark);
    text.add(outcome_name(outcome));
    text.push(b'\n');
    text
}

/// `refused CODE`, or `refused CODE I`, after a mark.
pub(crate) fn refused_text(mark: &[u8], refused: Refused) -> Text
    requires { length mark.now ≤ 8 }
    ensures { result ≡ refused_line mark.now (kernel_refusal refused) }
{
    let mut text = Text::new();
    text.add(mark);
    text.add(b"refused ");
    add_code(&mut text, &refused_code(refused));
    text.push(b'\n');
    text
}

/// Adds `ipc TAG ERROR FROM`. The words of the message follow it.
fn add_ipc(text: &mut Text, reply: &IpcReply)
    requires { length text.old + 60 ≤ text_bytes }
    ensures value { text.new ≡ text.old ++ ipc_name reply.now }
    ensures len { length text.new ≤ length text.old + 60 }
{
    text.add(b"ipc ");
    text.add_word(reply.tag);
    text.push(b' ');
    text.add_number(u64::from(reply.error));
    text.push(b' ');
    text.add_word(reply.from.0);
}

/// Adds `failed CODE`
fn add_failed(text: &mut Text, code: u32)
    requires { length text.old + 60 ≤ text_bytes }
    ensures value { text.new ≡ text.old ++ (codes "failed " ++ decimal code) }
    ensures len { length text.new ≤ length text.old + 60 }
{
    text.add(b"failed ");
    text.add_number(u64::from(code));
}

/// Adds how a call ended, without the words of its message, or the given word if there is no reply.
fn add_reply(text: &mut Text, reply: Option<&Reply>, word: &[u8])
    requires room { length text.old + 60 ≤ text_bytes }
    requires short { length word.now ≤ 8 }
    ensures value { text.new ≡ text.old ++ reply_name word.now (option_copied reply.entry) }
    ensures len { length text.new ≤ length text.old + 60 }
{
    match reply {
        Some(Reply::Ipc(reply)) => add_ipc(text, reply),
        Some(Reply::Hit) => text.add(b"hit"),
        Some(Reply::Answered) => text.add(b"answered"),
        Some(Reply::FaultFailed(code)) => add_failed(text, *code),
        Some(Reply::Unmapped) => text.add(b"unmapped"),
        Some(Reply::Controlled) => text.add(b"controlled"),
        Some(Reply::Gone) => text.add(b"gone"),
        None => text.add(word),
    }
}

/// How the call of this thread ended, after a mark, without the words of its message and the newline. A deleted thread has no reply.
pub(crate) fn ended_text(mark: &[u8], number: u32, reply: Option<&Reply>) -> Text
    requires { length mark.now ≤ 8 }
    ensures { result ≡ mark.now ++ decimal number ++ space
        ++ reply_name (codes "gone") (option_copied reply.entry) }
{
    let mut text = Text::new();
    text.add(mark);
    text.add_number(u64::from(number));
    text.push(b' ');
    add_reply(&mut text, reply, b"gone");
    text
}

/// The reply of a thread, or `none`, without the words of its message and the newline.
pub(crate) fn reply_text(reply: Option<&Reply>) -> Text
    ensures { result ≡ reply_name (codes "none") (option_copied reply.entry) }
{
    let mut text = Text::new();
    add_reply(&mut text, reply, b"none");
    text
}

/// Writes the words of a reply's message, and the end of the line.
pub(crate) fn put_rest<W: Write>(reply: Option<&Reply>, out: &mut Output, writer: &mut W)
    ensures { Tells (W.contents writer.old) (W.contents writer.new) out.old out.new
        (words_text (words_of (option_copied reply.entry)) ++ newline) }
{
    out.put_words(writer, reply_words(reply));
    out.end_line(writer);
}

/// Writes how the call of this thread ended, after a mark.
pub(crate) fn put_ended<W: Write>(
    mark: &[u8],
    number: u32,
    reply: Option<&Reply>,
    out: &mut Output,
    writer: &mut W,
)
    requires { length mark.now ≤ 8 }
    ensures { Tells (W.contents writer.old) (W.contents writer.new) out.old out.new
        (ended_line mark.now number (option_copied reply.entry)) }
{
    out.put(writer, &ended_text(mark, number, reply));
    put_rest(reply, out, writer);
}

/// Adds `transfer S R`, `expire N` or `none`
fn add_step(text: &mut Text, step: Option<&Step>)
    requires { length text.old + 60 ≤ text_bytes }
    ensures value { text.new ≡ text.old ++ next_name (option_copied step.entry) }
    ensures len { length text.new ≤ length text.old + 60 }
{
    match step {
        Some(Step::Transfer(sender, receiver)) => {
            text.add(b"transfer ");
            text.add_number(u64::from(*sender));
            text.push(b' ');
            text.add_number(u64::from(*receiver));
        }
        Some(Step::Expire(number)) => {
            text.add(b"expire ");
            text.add_number(u64::from(*number));
        }
        Some(Step::Start(_, _)) | Some(Step::Cancel(_, _)) | None => text.add(b"none"),
    }
}

/// `enabled transfer S R`, `enabled expire N` or `enabled none`
pub(crate) fn enabled_text(step: Option<&Step>) -> Text
    ensures { result ≡ enabled_line (option_copied step.entry) }
{
    let mut text = Text::new();
    text.add(b"enabled ");
    add_step(&mut text, step);
    text.push(b'\n');
    text
}

/// ` (enabled transfer S R)`, ` (enabled expire N)` or ` (enabled none)`
pub fn next_text(step: Option<&Step>) -> Text
    ensures { result ≡ codes " (enabled " ++ next_name (option_copied step.entry) ++ codes ")" }
{
    let mut text = Text::new();
    text.add(b" (enabled ");
    add_step(&mut text, step);
    text.add(b")");
    text
}

/// `space K`, or `none`
pub(crate) fn space_text(space: Option<u64>) -> Text
    ensures { result ≡ space_line space }
{
    let mut text = Text::new();
    match space {
        Some(space) => {
            text.add(b"space ");
            text.add_number(space);
        }
        None => text.add(b"none"),
    }
    text.push(b'\n');
    text
}

/// `page P frame F RIGHTS`, and `none` or the space and the page of its parent.
pub(crate) fn page_text(page: u32, mapping: &Mapping) -> Text
    ensures { result ≡ page_line page mapping.now }
{
    let mut text = Text::new();
    add_page(&mut text, page, mapping);
    text.push(b' ');
    add_place(&mut text, mapping.parent);
    text.push(b'\n');
    text
}
