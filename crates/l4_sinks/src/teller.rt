//! A sink that writes answers as text.
ghost use Rattle.std.specs.Prelude.{◌≡◌, ◌≤◌, ◌+◌, ◌++◌, ◌∷◌, [], ◌||◌, ℕ, List, false, Some, None, is_some, if◌then◌else◌, length, option_map};
ghost use Rattle.std.specs.Option.{option_copied};
ghost use Rattle.l4_text.specs.Sizes.{held_bytes};
ghost use Rattle.l4_text.specs.Streams.{Tells};
ghost use Rattle.l4_answers.specs.Reports.{Ended};
ghost use Rattle.l4_decode.specs.Decoded.{IsMessageText};
ghost use Rattle.l4_threads.specs.declared.IpcReply.{IpcReply as AnIpcReply};
ghost use Rattle.l4_sinks.specs.Words.{refusal_says, transfer_says, words_of, received};
ghost use Rattle.l4_sinks.specs.Texts.{mark, sentence_text, said, Means, IsAnswerText};
ghost use Rattle.l4_sinks.specs.Tellers.{HasReported, HasWritten, is_over};

use crate::reasons::{act_reason, refusal_reason, unread_reason};
use crate::sentences::{
    canceled_says, expired_says, gone_says, known_says, named_says, none_says, page_says,
    parent_says, region_says, shown_says, steps_says, transfer_says, waits_says,
};
use arrayvec::ArrayVec;
use l4_answers::{
    Code, Sink, put_cancel, put_expire, put_named, put_none, put_page, put_parent, put_refused_act,
    put_refused_line, put_region, put_reply, put_shown, put_steps, put_transfer, put_waits,
};
use l4_decode::put_message;
use l4_fpage::PageSize;
use l4_ipc::{CancelCause, Outcome};
use l4_mapdb::Mapping;
use l4_names::Names;
use l4_reasons::Reason;
use l4_text::{LineReader, Output, RunFault};
use l4_threads::{IpcReply, Reply};
use std::io::Write;

/// The greatest number of words of a message, with its tag.
const MOST: usize = 65;

/// Writes answers as text. A strict teller takes no answer after the first refused line. An explaining teller writes below each answer what
/// it means, in lines that begin with `# `. Both are one type, so that the code that answers a script is compiled once.
#[derive(Drop)]
pub struct Teller<W> {
    out: Output,
    writer: W,
    explains: Option<PageSize>,
    strict: bool,
    refused: Option<Reason>,
}

/// Adds a sentence in a line that begins with the mark.
#[tactic(auto, unfolding(crate::specs::Texts::sentence_text))]
fn add_sentence(says: &[u8], out: &mut Output)
    requires short { length says.now ≤ 160 }
    requires room { length out.old.0 + 200 ≤ held_bytes }
    ensures { out.new ≡ (out.old.0 ++ sentence_text says.now, out.old.1) }
{
    out.add(b"# ");
    out.add(says);
    out.push(b'\n');
}

/// Writes a sentence in a line that begins with the mark.
#[cold]
#[inline(never)]
fn put_sentence<W: Write>(says: &[u8], out: &mut Output, writer: &mut W)
    requires { length says.now ≤ 160 }
    ensures { Tells (W.contents writer.old) (W.contents writer.new) out.old out.new
        (sentence_text says.now) }
{
    out.make_room(writer);
    add_sentence(says, out);
}

/// Writes a sentence if answers are explained.
#[inline(always)]
fn say<W: Write>(explains: Option<PageSize>, says: &[u8], out: &mut Output, writer: &mut W)
    requires { length says.now ≤ 160 }
    ensures { Tells (W.contents writer.old) (W.contents writer.new) out.old out.new
        (said explains says.now) }
{
    match explains {
        None => {}
        Some(_) => put_sentence(says, out, writer),
    }
}

/// Writes what happened to a transfer if answers are explained.
#[inline(always)]
fn say_transfer<W: Write>(
    explains: Option<PageSize>,
    outcome: Outcome,
    out: &mut Output,
    writer: &mut W,
)
    ensures { Tells (W.contents writer.old) (W.contents writer.new) out.old out.new
        (said explains (transfer_says outcome)) }
{
    match explains {
        None => {}
        Some(_) => put_sentence(transfer_says(outcome), out, writer),
    }
}

/// Adds a reason in a line that begins with the mark.
#[tactic(auto, unfolding(crate::specs::Texts::sentence_text))]
fn add_reason(reason: &Reason, out: &mut Output)
    requires { length out.old.0 + 704 ≤ held_bytes }
    ensures { out.new ≡ (out.old.0 ++ sentence_text reason.now, out.old.1) }
{
    out.add(b"# ");
    out.add(reason.as_slice());
    out.push(b'\n');
}

/// Writes a reason in a line that begins with the mark.
#[cold]
#[inline(never)]
fn put_reason<W: Write>(reason: &Reason, out: &mut Output, writer: &mut W)
    ensures { Tells (W.contents writer.old) (W.contents writer.new) out.old out.new
        (sentence_text reason.now) }
{
    out.make_room(writer);
    add_reason(reason, out);
}

/// Writes a reason if answers are explained.
fn say_reason<W: Write>(
    explains: Option<PageSize>,
    reason: &Reason,
    out: &mut Output,
    writer: &mut W,
)
    ensures { Tells (W.contents writer.old) (W.contents writer.new) out.old out.new
        (said explains reason.now) }
{
    match explains {
        None => {}
        Some(_) => put_reason(reason, out, writer),
    }
}

/// Writes what a code and its number mean if answers are explained.
#[inline(always)]
fn say_act<W: Write>(explains: Option<PageSize>, code: &Code, out: &mut Output, writer: &mut W)
    ensures { Tells (W.contents writer.old) (W.contents writer.new) out.old out.new
        (said explains (refusal_says code.now)) }
{
    match explains {
        None => {}
        Some(_) => put_reason(&act_reason(code), out, writer),
    }
}

/// The reply of an Ipc that received a message from a thread. None if it received none.
fn with_message(reply: &IpcReply) -> Option<&IpcReply>
    ensures { option_map (λ (r : AnIpcReply). r.tag ∷ r.words.items) (option_copied result)
        ≡ words_of reply.now }
{
    if reply.error != 0 {
        return None;
    }
    if reply.from.0 == 0 {
        return None;
    }
    Some(reply)
}

/// The same for any reply.
fn received(reply: &Reply) -> Option<&IpcReply>
    ensures { option_map (λ (r : AnIpcReply). r.tag ∷ r.words.items) (option_copied result)
        ≡ received (Some reply.now) }
{
    match reply {
        Reply::Ipc(reply) => with_message(reply),
        Reply::Hit => None,
        Reply::Answered => None,
        Reply::FaultFailed(_) => None,
        Reply::Unmapped => None,
        Reply::Controlled => None,
        Reply::Gone => None,
    }
}

/// Writes a received message as `l4_decode` explains it.
#[inline(never)]
fn put_received<W: Write>(reply: &IpcReply, size: PageSize, out: &mut Output, writer: &mut W)
    ensures { (text : List ℕ) × IsMessageText mark size (reply.now.tag ∷ reply.now.words.items) text
        × Tells (W.contents writer.old) (W.contents writer.new) out.old out.new text }
{
    let mut words: ArrayVec<u32, MOST> = ArrayVec::new();
    words.push(reply.tag);
    let _ = words.try_extend_from_slice(reply.words.as_slice());
    put_message(words.as_slice(), size, b"# ", out, writer);
}

/// Writes what a reply means.
fn put_known<W: Write>(reply: &Reply, size: PageSize, out: &mut Output, writer: &mut W)
    ensures { (words : List ℕ) × Means size (Some reply.now) words
        × Tells (W.contents writer.old) (W.contents writer.new) out.old out.new words }
{
    match received(reply) {
        None => put_sentence(known_says(reply), out, writer),
        Some(ipc) => put_received(ipc, size, out, writer),
    }
}

/// Writes what a reply means, or that the thread was deleted.
fn put_meaning<W: Write>(reply: Option<&Reply>, size: PageSize, out: &mut Output, writer: &mut W)
    ensures { (words : List ℕ) × Means size (option_copied reply.entry) words
        × Tells (W.contents writer.old) (W.contents writer.new) out.old out.new words }
{
    match reply {
        None => put_sentence(gone_says(), out, writer),
        Some(reply) => put_known(reply, size, out, writer),
    }
}

/// Writes how a call ended, and what that means. It is a function of its own, so that runs without explanations reserve nothing for it.
#[cold]
#[inline(never)]
fn put_explained_reply<W: Write>(
    number: u32,
    reply: Option<&Reply>,
    size: PageSize,
    out: &mut Output,
    writer: &mut W,
)
    ensures { (text : List ℕ) × IsAnswerText (Some size) (Ended number (option_copied reply.entry)) text
        × Tells (W.contents writer.old) (W.contents writer.new) out.old out.new text }
{
    put_reply(number, reply, out, writer);
    put_meaning(reply, size, out, writer);
}

impl<W: Write> Teller<W> {
    /// Returns a teller that writes to this writer. A strict teller takes no answer after the first refused line. A teller with a page size
    /// explains each answer.
    pub fn new(writer: W, strict: bool, explains: Option<PageSize>) -> Teller<W>
        ensures writer { result.writer ≡ writer }
        ensures out { result.out ≡ ([], false) }
        ensures explains { result.explains ≡ explains }
        ensures strict { result.strict ≡ strict }
        ensures refused { result.refused ≡ None }
    {
        Teller {
            out: Output::new(),
            writer,
            explains,
            strict,
            refused: None,
        }
    }

    /// Returns its writer, and why the line was refused that ended a strict run.
    pub fn into_parts(self) -> (W, Option<Reason>)
        ensures writer { result.0 ≡ self.writer }
        ensures refused { result.1 ≡ self.refused }
    {
        let Teller {
            out: _,
            writer,
            explains: _,
            strict: _,
            refused,
        } = self;
        (writer, refused)
    }

    /// Whether it uses the reason of a refusal.
    fn wants_reasons(&self) -> bool
        ensures { result ≡ (self.now.strict || is_some self.now.explains) }
    {
        self.strict || self.explains.is_some()
    }

    /// Takes the reason why a line is refused. Writes it if answers are explained, and keeps it if the run is strict.
    #[cold]
    #[inline(never)]
    fn take_reason(&mut self, reason: Reason)
        ensures told { Tells (W.contents self.old.writer) (W.contents self.new.writer) self.old.out
            self.new.out (said self.old.explains reason) }
        ensures explains { self.new.explains ≡ self.old.explains }
        ensures strict { self.new.strict ≡ self.old.strict }
        ensures refused { self.new.refused
            ≡ (if self.old.strict then Some reason else self.old.refused) }
    {
        say_reason(self.explains, &reason, &mut self.out, &mut self.writer);
        if self.strict {
            self.refused = Some(reason);
        }
    }
}

impl<W: Write> Sink for Teller<W> {
    ghost has_told = { HasReported W.contents };

    ghost is_out = { HasWritten W.contents };

    ghost closed = { is_over };

    #[inline(never)]
    fn refused_line(&mut self, line: u64, code: &Code) {
        put_refused_line(line, code, &mut self.out, &mut self.writer);
        if self.wants_reasons() {
            self.take_reason(refusal_reason(line, code));
        }
    }

    #[inline(never)]
    fn unread_line(&mut self, line: u64, code: &Code, bytes: &[u8], size: PageSize, names: &Names) {
        put_refused_line(line, code, &mut self.out, &mut self.writer);
        if self.wants_reasons() {
            self.take_reason(unread_reason(line, code, bytes, size, names));
        }
    }

    #[cold]
    #[inline(never)]
    fn refused_act(&mut self, thread: u32, code: &Code) {
        put_refused_act(thread, code, &mut self.out, &mut self.writer);
        say_act(self.explains, code, &mut self.out, &mut self.writer);
    }

    #[inline(always)]
    fn transfer(&mut self, sender: u32, receiver: u32, outcome: Outcome) {
        put_transfer(sender, receiver, outcome, &mut self.out, &mut self.writer);
        say_transfer(self.explains, outcome, &mut self.out, &mut self.writer);
    }

    #[cold]
    #[inline(never)]
    fn expire(&mut self, number: u32) {
        put_expire(number, &mut self.out, &mut self.writer);
        say(
            self.explains,
            expired_says(),
            &mut self.out,
            &mut self.writer,
        );
    }

    #[cold]
    #[inline(never)]
    fn cancel(&mut self, number: u32, cause: CancelCause) {
        put_cancel(number, cause, &mut self.out, &mut self.writer);
        say(
            self.explains,
            canceled_says(cause),
            &mut self.out,
            &mut self.writer,
        );
    }

    #[inline(always)]
    fn waits(&mut self, number: u32) {
        put_waits(number, &mut self.out, &mut self.writer);
        say(self.explains, waits_says(), &mut self.out, &mut self.writer);
    }

    fn ended(&mut self, number: u32, reply: Option<&Reply>) {
        match self.explains {
            None => put_reply(number, reply, &mut self.out, &mut self.writer),
            Some(size) => put_explained_reply(number, reply, size, &mut self.out, &mut self.writer),
        }
    }

    #[inline(never)]
    fn none_ended(&mut self, number: u32) {
        put_none(number, &mut self.out, &mut self.writer);
        say(self.explains, none_says(), &mut self.out, &mut self.writer);
    }

    #[inline(always)]
    fn page(&mut self, page: u32, mapping: &Mapping) {
        put_page(page, mapping, &mut self.out, &mut self.writer);
        say(self.explains, page_says(), &mut self.out, &mut self.writer);
    }

    #[inline(never)]
    fn shown(&mut self, count: u32) {
        put_shown(count, &mut self.out, &mut self.writer);
        say(self.explains, shown_says(), &mut self.out, &mut self.writer);
    }

    #[inline(never)]
    fn parent(&mut self, mapping: Option<Mapping>) {
        let says = parent_says(&mapping);
        put_parent(mapping, &mut self.out, &mut self.writer);
        say(self.explains, says, &mut self.out, &mut self.writer);
    }

    #[inline(never)]
    fn region_added(&mut self) {
        put_region(&mut self.out, &mut self.writer);
        say(
            self.explains,
            region_says(),
            &mut self.out,
            &mut self.writer,
        );
    }

    #[inline(never)]
    fn named(&mut self, number: u32) {
        put_named(number, &mut self.out, &mut self.writer);
        say(self.explains, named_says(), &mut self.out, &mut self.writer);
    }

    #[inline(never)]
    fn steps(&mut self, count: u64) {
        put_steps(count, &mut self.out, &mut self.writer);
        say(self.explains, steps_says(), &mut self.out, &mut self.writer);
    }

    #[inline(always)]
    fn before_line(&mut self, lines: &LineReader) {
        self.out.send_before_line(lines, &mut self.writer);
    }

    #[inline(always)]
    fn is_closed(&self) -> bool {
        self.out.has_failed() | self.refused.is_some()
    }

    fn finish(&mut self) -> Result<(), RunFault> {
        match self.out.finish(&mut self.writer) {
            Ok(()) => Ok(()),
            Err(fault) => Err(fault),
        }
    }
}
