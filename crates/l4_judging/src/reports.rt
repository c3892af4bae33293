//! What is reported of a list.
ghost use Rattle.std.specs.Prelude.{◌≡◌, ◌∷◌, [], ◌++◌, codes, decimal, if◌then◌else◌};
ghost use Rattle.std.specs.Option.{option_copied};
ghost use Rattle.l4_text.specs.Streams.{Tells};
ghost use Rattle.l4_judging.specs.Judging.{has_said, wanted, difference, no_answer, lacks, lack_of, is_short, short_text, wanted_request, other_request, is_wanted, other_text, has_all, missing_text, plural, agreement_text};

use crate::expected::{Expected, has_said, lacks};
use l4_answers::AnswerLines;
use l4_step_lines::next_text;
use l4_text::{Output, Text};
use std::io::Write;

/// The answer to a step that is not enabled.
const NOT_ENABLED: &[u8] = b"refused K1";

/// What takes the place of a request behind the last one.
const LIST_END: &[u8] = b"the end of the list";

/// Writes a byte.
fn put_byte<W: Write>(byte: u8, out: &mut Output, writer: &mut W)
    ensures { Tells (W.contents writer.old) (W.contents writer.new) out.old out.new (byte ∷ []) }
{
    out.make_room(writer);
    out.push(byte);
}

/// Writes any number of bytes.
fn put_bytes<W: Write>(bytes: &[u8], out: &mut Output, writer: &mut W)
    ensures { Tells (W.contents writer.old) (W.contents writer.new) out.old out.new bytes.now }
{
    for byte in bytes {
        put_byte(*byte, out, writer);
    }
}

/// `line N: `
fn line_text(number: u64) -> Text
    ensures { result ≡ codes "line " ++ decimal number ++ codes ": " }
{
    let mut text = Text::new();
    text.add(b"line ");
    text.add_number(number);
    text.add(b": ");
    text
}

/// Writes the expected line of an answer, and after K1 which step is enabled.
fn put_wanted<W: Write>(expected: &Expected, out: &mut Output, writer: &mut W)
    ensures { Tells (W.contents writer.old) (W.contents writer.new) out.old out.new
        (wanted expected.now.due expected.now.next) }
{
    if expected.due.is_empty() {
        return put_bytes(b"no further answer", out, writer);
    }
    let first = expected.due.first();
    put_bytes(first, out, writer);
    if first == NOT_ENABLED {
        out.put(writer, &next_text(expected.next.as_ref()));
    }
}

/// Writes the expected answer, and the one found at the line of this number; below them, the last calls that are reported with it.
fn put_difference<W: Write>(
    expected: &Expected,
    number: u64,
    found: &[u8],
    out: &mut Output,
    writer: &mut W,
)
    ensures { Tells (W.contents writer.old) (W.contents writer.new) out.old out.new
        (difference expected.now number found.now) }
{
    out.put(writer, &line_text(number));
    put_bytes(expected.line.as_slice(), out, writer);
    put_bytes(b": expected ", out, writer);
    put_wanted(expected, out, writer);
    put_bytes(b", found ", out, writer);
    put_bytes(found, out, writer);
    out.end_line(writer);
    put_bytes(expected.calls.as_slice(), out, writer);
}

/// Compares an answer with the expected one, and reports a difference. Returns whether they agree.
pub(crate) fn compare<W: Write>(
    expected: &Expected,
    number: u64,
    said: &[u8],
    out: &mut Output,
    writer: &mut W,
) -> bool
    ensures value { result ≡ has_said expected.now.due said.now }
    ensures told { Tells (W.contents writer.old) (W.contents writer.new) out.old out.new
        (if has_said expected.now.due said.now then [] else difference expected.now number said.now) }
{
    if has_said(&expected.due, said) {
        return true;
    }
    put_difference(expected, number, said, out, writer);
    false
}

/// What takes the place of an answer that is missing.
fn no_answer(answered: bool) -> &'static [u8]
    ensures { result.now ≡ no_answer answered }
{
    if answered {
        return b"no further answer";
    }
    b"no answer"
}

/// Reports an answer whose lines, or some of them, are missing. Returns whether it is one.
fn put_lack<W: Write>(expected: &Expected, partial: bool, out: &mut Output, writer: &mut W) -> bool
    ensures value { result ≡ lacks partial expected.now }
    ensures told { Tells (W.contents writer.old) (W.contents writer.new) out.old out.new
        (lack_of partial expected.now) }
{
    if !lacks(expected, partial) {
        return false;
    }
    put_difference(
        expected,
        expected.last,
        no_answer(expected.answered),
        out,
        writer,
    );
    true
}

/// The same for the step or query above, if there is one.
pub(crate) fn put_short<W: Write>(
    expected: Option<&Expected>,
    partial: bool,
    out: &mut Output,
    writer: &mut W,
) -> bool
    ensures value { result ≡ is_short partial (option_copied expected.entry) }
    ensures told { Tells (W.contents writer.old) (W.contents writer.new) out.old out.new
        (short_text partial (option_copied expected.entry)) }
{
    match expected {
        Some(expected) => put_lack(expected, partial, out, writer),
        None => false,
    }
}

/// Writes the next request of the list, or that it has no further one.
fn put_request<W: Write>(requests: &AnswerLines, out: &mut Output, writer: &mut W)
    ensures { Tells (W.contents writer.old) (W.contents writer.new) out.old out.new
        (wanted_request requests.now) }
{
    if requests.is_empty() {
        return put_bytes(LIST_END, out, writer);
    }
    put_bytes(requests.first(), out, writer);
}

/// Writes the next request of the list, and what was found at the line of this number.
fn put_other<W: Write>(
    requests: &AnswerLines,
    number: u64,
    found: &[u8],
    out: &mut Output,
    writer: &mut W,
)
    ensures { Tells (W.contents writer.old) (W.contents writer.new) out.old out.new
        (other_request requests.now number found.now) }
{
    out.put(writer, &line_text(number));
    put_bytes(b"expected ", out, writer);
    put_request(requests, out, writer);
    put_bytes(b", found ", out, writer);
    put_bytes(found, out, writer);
    out.end_line(writer);
}

/// Compares a request with the next one of the list, if there is a list that has not ended, and reports a difference. Returns whether they
/// agree.
pub(crate) fn compare_request<W: Write>(
    ended: bool,
    requests: Option<&AnswerLines>,
    number: u64,
    found: &[u8],
    out: &mut Output,
    writer: &mut W,
) -> bool
    ensures value { result ≡ is_wanted ended (option_copied requests.entry) found.now }
    ensures told { Tells (W.contents writer.old) (W.contents writer.new) out.old out.new
        (other_text ended (option_copied requests.entry) number found.now) }
{
    let Some(requests) = requests else {
        return true;
    };
    if ended {
        return true;
    }
    if requests.is_next(found) {
        return true;
    }
    put_other(requests, number, found, out, writer);
    false
}

/// Reports the next request of the list, if there is a list that has not ended, as missing at the line of this number. Returns whether there
/// is no such request.
pub(crate) fn compare_end<W: Write>(
    ended: bool,
    requests: Option<&AnswerLines>,
    number: u64,
    out: &mut Output,
    writer: &mut W,
) -> bool
    ensures value { result ≡ has_all ended (option_copied requests.entry) }
    ensures told { Tells (W.contents writer.old) (W.contents writer.new) out.old out.new
        (missing_text ended (option_copied requests.entry) number) }
{
    let Some(requests) = requests else {
        return true;
    };
    if ended {
        return true;
    }
    if requests.is_empty() {
        return true;
    }
    put_other(requests, number, LIST_END, out, writer);
    false
}

/// The ending of a noun that follows this number.
fn plural(number: u64) -> &'static [u8]
    ensures { result.now ≡ plural number }
{
    if number == 1 {
        return b"";
    }
    b"s"
}

/// `agrees: N steps, A answers`
pub(crate) fn agrees_text(steps: u64, answers: u64) -> Text
    ensures { result ≡ agreement_text steps answers }
{
    let mut text = Text::new();
    text.add(b"agrees: ");
    text.add_number(steps);
    text.add(b" step");
    text.add(plural(steps));
    text.add(b", ");
    text.add_number(answers);
    text.add(b" answer");
    text.add(plural(answers));
    text.add(b"\n");
    text
}
