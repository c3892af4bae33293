//! The codes of refusals.
ghost use Rattle.std.specs.Prelude.{◌≡◌, ◌≤◌, ◌+◌, ◌++◌, length};
ghost use Rattle.l4_answers.specs.Refusals.{Refusal, plainly, at_place, message_refusal, thread_refusal, unmap_refusal, kernel_refusal, number_text, refused_text};
ghost use Rattle.l4_answers.specs.Replies.{newline};
ghost use Rattle.l4_answers.specs.Reports.{refused_act_text, region_text, named_text, steps_text};
ghost use Rattle.l4_text.specs.Streams.{Tells};
ghost use Rattle.l4_text.specs.Sizes.{text_bytes, held_bytes};

use l4_ipc::{Lower, Refused};
use l4_msg::MsgFault;
use l4_text::{Output, Text};
use l4_threads::ThreadFault;
use l4_unmap::UnmapFault;
use std::io::Write;
use std::marker::Model;

/// The reason why a line is refused: a code, and the number that some codes have.
#[derive(Drop)]
pub struct Code {
    name: &'static [u8],
    number: Option<u32>,
}

impl Model for Code {
    ghost use Rattle.std.specs.Prelude.{ℕ, List, Option, ◌≤◌, length};
    ghost use Rattle.std.specs.Coded.{coded_ℕ};
    ghost use Rattle.l4_answers.specs.Refusals.{Refusal, refusal_code};

    ghost Value = { Refusal };

    ghost coded = { refusal_code };

    ghost view = { λ a. record { name = a.name.now; number = a.number } };

    ghost invariant = { λ a. length a.name.now ≤ 8 };
}

impl Code {
    /// Creates a code without a number. It has at most eight bytes.
    pub fn plain(name: &'static [u8]) -> Code
        requires { length name.now ≤ 8 }
        ensures { result ≡ plainly name.entry.now }
    {
        Code { name, number: None }
    }

    /// Creates a code with a number. The code has at most eight bytes.
    pub fn numbered(name: &'static [u8], number: u32) -> Code
        requires { length name.now ≤ 8 }
        ensures { result ≡ at_place name.entry.now number }
    {
        Code {
            name,
            number: Some(number),
        }
    }

    /// Returns the code without its number.
    pub fn name(&self) -> &'static [u8]
        ensures { result.now ≡ self.now.name }
    {
        self.name
    }

    /// Returns the number of the code, if it has one.
    pub fn number(&self) -> Option<u32>
        ensures { result ≡ self.now.number }
    {
        self.number
    }
}

fn message_code(fault: MsgFault) -> Code
    ensures { result ≡ message_refusal fault }
{
    match fault {
        MsgFault::TooManyWords => Code::plain(b"M1"),
        MsgFault::OddTyped => Code::plain(b"M2"),
        MsgFault::BadItem(item) => Code::numbered(b"M3", item),
        MsgFault::Unsupported(item) => Code::numbered(b"M4", item),
        MsgFault::Flags => Code::plain(b"M5"),
        MsgFault::BadWindow => Code::plain(b"M6"),
        MsgFault::Short => Code::plain(b"M7"),
    }
}

fn thread_code(fault: ThreadFault) -> Code
    ensures { result ≡ thread_refusal fault }
{
    match fault {
        ThreadFault::NoPrivilege => Code::plain(b"H1"),
        ThreadFault::BadId => Code::plain(b"H2"),
        ThreadFault::Taken => Code::plain(b"H3"),
        ThreadFault::Unknown => Code::plain(b"H4"),
        ThreadFault::Full => Code::plain(b"H5"),
        ThreadFault::Kept => Code::plain(b"H6"),
    }
}

fn unmap_code(fault: UnmapFault) -> Code
    ensures { result ≡ unmap_refusal fault }
{
    match fault {
        UnmapFault::BadFpage(word) => Code::numbered(b"U1", word),
        UnmapFault::TooFew => Code::plain(b"U2"),
    }
}

/// Returns the innermost code of a refusal.
pub fn refused_code(refused: Refused) -> Code
    ensures { result ≡ kernel_refusal refused }
{
    match refused {
        Refused::NotEnabled => Code::plain(b"K1"),
        Refused::UnknownThread => Code::plain(b"K2"),
        Refused::Busy => Code::plain(b"K3"),
        Refused::BadTimeout => Code::plain(b"K4"),
        Refused::Lower(Lower::Message(fault)) => message_code(fault),
        Refused::Lower(Lower::Unmap(fault)) => unmap_code(fault),
        Refused::Lower(Lower::Thread(fault)) => thread_code(fault),
        Refused::Lower(Lower::NoMemory) => Code::plain(b"NoMemory"),
        Refused::BadFrames => Code::plain(b"K6"),
    }
}

/// Adds the number that a code carries, after a space.
fn add_code_number(text: &mut Text, number: Option<u32>)
    requires { length text.old + 21 ≤ text_bytes }
    ensures value { text.new ≡ text.old ++ number_text number }
    ensures len { length text.new ≤ length text.old + 21 }
{
    if let Some(number) = number {
        text.push(b' ');
        text.add_number(u64::from(number));
    }
}

/// Adds a code, and its number if it has one.
pub fn add_code(text: &mut Text, code: &Code)
    requires { length text.old + 29 ≤ text_bytes }
    ensures value { text.new ≡ text.old ++ code.now.name ++ number_text code.now.number }
    ensures len { length text.new ≤ length text.old + 29 }
{
    text.add(code.name);
    add_code_number(text, code.number);
}

/// Adds a code, and the number that it carries, to what is held back, and ends the line.
fn add_code_line(out: &mut Output, code: &Code)
    requires { length out.old.0 + 30 ≤ held_bytes }
    ensures { out.new
        ≡ (out.old.0 ++ code.now.name ++ number_text code.now.number ++ newline, out.old.1) }
{
    out.add(code.name);
    if let Some(number) = code.number {
        out.add_spaced_number(u64::from(number));
    }
    out.push(b'\n');
}

/// Adds `line L refused CODE`, or with its number, and ends the line.
#[inline(always)]
fn add_refused_line(out: &mut Output, line: u64, code: &Code)
    requires { length out.old.0 + 80 ≤ held_bytes }
    ensures { out.new ≡ (out.old.0 ++ refused_text line code.now, out.old.1) }
{
    out.add_array(*b"line ");
    out.add_number(line);
    out.add_array(*b" refused ");
    add_code_line(out, code);
}

/// Writes `line L refused CODE` or `line L refused CODE I`.
pub fn put_refused_line<W: Write>(line: u64, code: &Code, out: &mut Output, writer: &mut W)
    ensures { Tells (W.contents writer.old) (W.contents writer.new) out.old out.new
        (refused_text line code.now) }
{
    out.make_room(writer);
    add_refused_line(out, line, code);
}

/// Adds `N refused CODE`, and ends the line.
#[inline(always)]
fn add_refused_act(out: &mut Output, thread: u32, code: &Code)
    requires { length out.old.0 + 80 ≤ held_bytes }
    ensures { out.new ≡ (out.old.0 ++ refused_act_text thread code.now, out.old.1) }
{
    out.add_number(u64::from(thread));
    out.add_array(*b" refused ");
    add_code_line(out, code);
}

/// Writes `N refused CODE`, for the call of a served thread.
pub fn put_refused_act<W: Write>(thread: u32, code: &Code, out: &mut Output, writer: &mut W)
    ensures { Tells (W.contents writer.old) (W.contents writer.new) out.old out.new
        (refused_act_text thread code.now) }
{
    out.make_room(writer);
    add_refused_act(out, thread, code);
}

/// Writes `region ok`.
pub fn put_region<W: Write>(out: &mut Output, writer: &mut W)
    ensures { Tells (W.contents writer.old) (W.contents writer.new) out.old out.new region_text }
{
    out.make_room(writer);
    out.add_array(*b"region ok\n");
}

/// Adds `named N`, and ends the line.
#[inline(always)]
fn add_named(out: &mut Output, number: u32)
    requires { length out.old.0 + 40 ≤ held_bytes }
    ensures { out.new ≡ (out.old.0 ++ named_text number, out.old.1) }
{
    out.add_array(*b"named ");
    out.add_number(u64::from(number));
    out.push(b'\n');
}

/// Writes `named N`.
pub fn put_named<W: Write>(number: u32, out: &mut Output, writer: &mut W)
    ensures { Tells (W.contents writer.old) (W.contents writer.new) out.old out.new
        (named_text number) }
{
    out.make_room(writer);
    add_named(out, number);
}

/// Adds `steps K`, and ends the line.
#[inline(always)]
fn add_steps(out: &mut Output, count: u64)
    requires { length out.old.0 + 40 ≤ held_bytes }
    ensures { out.new ≡ (out.old.0 ++ steps_text count, out.old.1) }
{
    out.add_array(*b"steps ");
    out.add_number(count);
    out.push(b'\n');
}

/// Writes `steps K`.
pub fn put_steps<W: Write>(count: u64, out: &mut Output, writer: &mut W)
    ensures { Tells (W.contents writer.old) (W.contents writer.new) out.old out.new
        (steps_text count) }
{
    out.make_room(writer);
    add_steps(out, count);
}
