//! The lines of a list, executed on a kernel.
ghost use Rattle.std.specs.Prelude.{◌≡◌, ◌≤◌, length, ℕ, List, Result, Ok};
ghost use Rattle.std.specs.Option.{option_copied};
ghost use Rattle.l4_ipc.specs.declared.steps.Answer.{Answer as AnAnswer};
ghost use Rattle.l4_ipc.specs.declared.steps.Refused.{Refused};
ghost use Rattle.l4_ipc.specs.Steps.{Steps};
ghost use Rattle.l4_step_lines.specs.Answers.{ended_lines, answer_lines, reply_line};
ghost use Rattle.l4_step_lines.specs.Lists.{asked_at, place_line, ListsPages, Answers};
ghost use Rattle.l4_step_lines.specs.Inside.Telling.{TellsPages, TellsLine};
ghost use Rattle.l4_text.specs.Grammar.{is_comment, is_silent};
ghost use Rattle.l4_text.specs.declared.lines.Ending.TheVariants.{Whole};
ghost use Rattle.l4_text.specs.Streams.{Tells};

use crate::answers::{
    enabled_text, outcome_text, page_text, put_ended, put_rest, refused_text, reply_text,
    space_text,
};
use crate::requests::{Request, read_request};
use crate::running::Fault;
use crate::stops::unread_reason;
use l4_answers::put_shown;
use l4_ipc::{Answer, Kernel, Step};
use l4_text::{Ending, Output, next_token};
use l4_threads::Reply;
use std::io::Write;

/// Writes how the calls of these threads ended, each after a mark.
fn tell_ended<W: Write>(
    kernel: &Kernel,
    numbers: &[u32],
    mark: &[u8],
    out: &mut Output,
    writer: &mut W,
)
    requires { length mark.now ≤ 8 }
    ensures { Tells (W.contents writer.old) (W.contents writer.new) out.old out.new
        (ended_lines mark.now numbers.now kernel.now) }
{
    for number in numbers {
        put_ended(mark, *number, kernel.reply(*number), out, writer);
    }
}

/// Writes what a step did and how the calls ended that ended in it, each line after a mark of at most eight bytes.
pub fn put_answer<W: Write>(
    kernel: &Kernel,
    answer: &Answer,
    mark: &[u8],
    out: &mut Output,
    writer: &mut W,
)
    requires { length mark.now ≤ 8 }
    ensures { Tells (W.contents writer.old) (W.contents writer.new) out.old out.new
        (answer_lines mark.now (Ok answer.now) kernel.now) }
{
    out.put(writer, &outcome_text(mark, answer.outcome));
    tell_ended(kernel, answer.ended.as_slice(), mark, out, writer);
}

/// Executes a step, and writes what it did and how the calls ended that ended in it, or why it is refused, each line after a mark of at most
/// eight bytes.
fn do_step<W: Write>(
    kernel: &mut Kernel,
    step: &Step,
    mark: &[u8],
    out: &mut Output,
    writer: &mut W,
)
    requires { length mark.now ≤ 8 }
    ensures { (answer : Result AnAnswer Refused) × Steps kernel.old step.now answer kernel.new
        × Tells (W.contents writer.old) (W.contents writer.new) out.old out.new (answer_lines mark.now answer kernel.new) }
{
    match kernel.step(step) {
        Ok(answer) => put_answer(kernel, &answer, mark, out, writer),
        Err(refused) => out.put(writer, &refused_text(mark, refused)),
    }
}

/// Writes the line of a page, if it is present.
fn tell_page<W: Write>(kernel: &Kernel, space: u64, page: u32, out: &mut Output, writer: &mut W)
    ensures { Tells (W.contents writer.old) (W.contents writer.new) out.old out.new
        (place_line kernel.now space page) }
{
    if let Some(mapping) = kernel.mapping(space, page) {
        out.put(writer, &page_text(page, &mapping));
    }
}

/// Lists the present pages of a space. Returns their number.
fn list_pages<W: Write>(kernel: &Kernel, space: u64, out: &mut Output, writer: &mut W) -> u32
    ensures { TellsPages kernel.now space result
        (W.contents writer.old) (W.contents writer.new) out.old out.new }
{
    kernel.law_pages();
    let end = kernel.page_size().space_pages();
    let mut from = 0u32;
    let mut shown = 0u32;
    loop {
        let Some(page) = kernel.next_page(space, from) else {
            return shown;
        };
        if page >= end {
            return shown;
        }
        tell_page(kernel, space, page, out, writer);
        shown += 1;
        from = page + 1;
    }
}

/// Lists the present pages of a space, and then their number.
fn show_pages<W: Write>(kernel: &Kernel, space: u64, out: &mut Output, writer: &mut W)
    ensures { (text : List ℕ) × ListsPages kernel.now space text
        × Tells (W.contents writer.old) (W.contents writer.new) out.old out.new text }
{
    let shown = list_pages(kernel, space, out, writer);
    put_shown(shown, out, writer);
}

/// Writes the reply of a thread.
fn tell_reply<W: Write>(reply: Option<&Reply>, out: &mut Output, writer: &mut W)
    ensures { Tells (W.contents writer.old) (W.contents writer.new) out.old out.new
        (reply_line (option_copied reply.entry)) }
{
    out.put(writer, &reply_text(reply));
    put_rest(reply, out, writer);
}

/// Executes a request, and writes its answer.
pub fn answer<W: Write>(kernel: &mut Kernel, request: Request, out: &mut Output, writer: &mut W)
    ensures { (text : List ℕ) × Answers kernel.old request text kernel.new
        × Tells (W.contents writer.old) (W.contents writer.new) out.old out.new text }
{
    match request {
        Request::Do(step) => do_step(kernel, &step, b"", out, writer),
        Request::Enabled => out.put(writer, &enabled_text(kernel.enabled().as_ref())),
        Request::Reply(thread) => tell_reply(kernel.reply(thread), out, writer),
        Request::Space(thread) => out.put(writer, &space_text(kernel.space_of(thread))),
        Request::Pages(space) => show_pages(kernel, space, out, writer),
    }
}

/// Whether a line's first byte is `#`.
fn is_comment(line: &[u8]) -> bool
    ensures { result ≡ is_comment line.now }
{
    !line.is_empty() && line[0] == b'#'
}

/// Whether a line is a comment, or has no token.
pub fn is_silent(line: &[u8]) -> bool
    ensures { result ≡ is_silent line.now }
{
    is_comment(line) || next_token(line).is_none()
}

/// Answers the line of this number, which ends with a newline and is not too long.
fn answer_whole<W: Write>(
    kernel: &mut Kernel,
    number: u64,
    line: &[u8],
    out: &mut Output,
    writer: &mut W,
) -> Result<(), Fault>
    ensures { TellsLine kernel.old kernel.new (asked_at number Whole line.now)
        (W.contents writer.old) (W.contents writer.new) out.old out.new result }
{
    if is_silent(line) {
        return Ok(());
    }
    let Some(request) = read_request(line) else {
        return Err(Fault::Unread(number, unread_reason(number, line)));
    };
    answer(kernel, request, out, writer);
    Ok(())
}

/// Answers the line of this number. Returns the fault if it ends the list.
pub(crate) fn answer_line<W: Write>(
    kernel: &mut Kernel,
    number: u64,
    ending: Ending,
    line: &[u8],
    out: &mut Output,
    writer: &mut W,
) -> Result<(), Fault>
    ensures { TellsLine kernel.old kernel.new (asked_at number ending line.now)
        (W.contents writer.old) (W.contents writer.new) out.old out.new result }
{
    match ending {
        Ending::Whole => answer_whole(kernel, number, line, out, writer),
        Ending::Long => Err(Fault::Long(number)),
        Ending::Cut => Err(Fault::Cut(number)),
    }
}
