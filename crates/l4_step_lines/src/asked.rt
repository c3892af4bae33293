//! The lines that request steps.
ghost use Rattle.std.specs.Prelude.{◌≡◌, ◌≤◌, ◌+◌, ◌++◌, length, codes, decimal};
ghost use Rattle.l4_answers.specs.Replies.{space, newline};
ghost use Rattle.l4_fpage.specs.Rights.{bits_of};
ghost use Rattle.l4_text.specs.Streams.{Tells};
ghost use Rattle.l4_step_lines.specs.Steps.{hex_text, hex_texts, ipc_words, fault_words, unmap_words, control_words, call_words, pair_line, step_line};

use l4_answers::{put_cancel, put_expire};
use l4_ipc::{Call, Control, FaultCall, IpcCall, Step, UnmapCall};
use l4_text::{Output, Text};
use std::io::Write;

/// Writes a word in hexadecimal, after a space.
fn put_word<W: Write>(word: u32, out: &mut Output, writer: &mut W)
    ensures { Tells (W.contents writer.old) (W.contents writer.new) out.old out.new
        (hex_text word) }
{
    out.make_room(writer);
    out.add(b" 0x");
    out.add_word(word);
}

/// Writes words in hexadecimal, each after a space.
fn put_words<W: Write>(words: &[u32], out: &mut Output, writer: &mut W)
    ensures { Tells (W.contents writer.old) (W.contents writer.new) out.old out.new
        (hex_texts words.now) }
{
    for word in words {
        put_word(*word, out, writer);
    }
}

/// A text.
fn text_of(bytes: &[u8]) -> Text
    requires { length bytes.now ≤ 16 }
    ensures { result ≡ bytes.now }
{
    let mut text = Text::new();
    text.add(bytes);
    text
}

/// Writes ` KIND WORD..`.
fn put_kind<W: Write>(kind: &[u8], words: &[u32], out: &mut Output, writer: &mut W)
    requires { length kind.now ≤ 16 }
    ensures { Tells (W.contents writer.old) (W.contents writer.new) out.old out.new
        (kind.now ++ hex_texts words.now) }
{
    out.put(writer, &text_of(kind));
    put_words(words, out, writer);
}

/// Writes an Ipc.
fn put_ipc<W: Write>(call: &IpcCall, out: &mut Output, writer: &mut W)
    ensures { Tells (W.contents writer.old) (W.contents writer.new) out.old out.new
        (ipc_words call.now) }
{
    let parts = [call.to.0, call.from.0, call.timeouts, call.acceptor];
    put_kind(b" ipc", &parts, out, writer);
    put_words(call.words.as_slice(), out, writer);
}

/// The access of a fault.
fn access_text(call: &FaultCall) -> Text
    ensures { result ≡ space ++ decimal (bits_of call.now.access) }
{
    let mut text = Text::new();
    text.push(b' ');
    text.add_number(u64::from(call.access.bits()));
    text
}

/// Writes a fault.
fn put_fault<W: Write>(call: &FaultCall, out: &mut Output, writer: &mut W)
    ensures { Tells (W.contents writer.old) (W.contents writer.new) out.old out.new
        (fault_words call.now) }
{
    put_kind(b" fault", &[call.address, call.ip], out, writer);
    out.put(writer, &access_text(call));
}

/// Writes an Unmap.
fn put_unmap<W: Write>(call: &UnmapCall, out: &mut Output, writer: &mut W)
    ensures { Tells (W.contents writer.old) (W.contents writer.new) out.old out.new
        (unmap_words call.now) }
{
    put_kind(b" unmap", &[call.control], out, writer);
    put_words(call.words.as_slice(), out, writer);
}

/// Writes a ThreadControl.
fn put_control<W: Write>(control: &Control, out: &mut Output, writer: &mut W)
    ensures { Tells (W.contents writer.old) (W.contents writer.new) out.old out.new
        (control_words control.now) }
{
    match control {
        Control::Create(new) => {
            put_kind(
                b" create",
                &[new.id.0, new.space.0, new.pager.0],
                out,
                writer,
            )
        }
        Control::SetPager(set) => put_kind(b" setpager", &[set.id.0, set.pager.0], out, writer),
        Control::Delete(id) => put_kind(b" delete", &[id.0], out, writer),
    }
}

/// Writes a call.
fn put_call<W: Write>(call: &Call, out: &mut Output, writer: &mut W)
    ensures { Tells (W.contents writer.old) (W.contents writer.new) out.old out.new
        (call_words call.now) }
{
    match call {
        Call::Ipc(ipc) => put_ipc(ipc, out, writer),
        Call::Fault(fault) => put_fault(fault, out, writer),
        Call::Unmap(unmap) => put_unmap(unmap, out, writer),
        Call::Control(control) => put_control(control, out, writer),
    }
}

/// `start N`, the beginning of a line.
fn start_text(number: u32) -> Text
    ensures { result ≡ codes "start " ++ decimal number }
{
    let mut text = Text::new();
    text.add(b"start ");
    text.add_number(u64::from(number));
    text
}

/// `transfer S R`
fn transfer_text(sender: u32, receiver: u32) -> Text
    ensures { result ≡ pair_line sender receiver }
{
    let mut text = Text::new();
    text.add(b"transfer ");
    text.add_number(u64::from(sender));
    text.push(b' ');
    text.add_number(u64::from(receiver));
    text.push(b'\n');
    text
}

/// Writes the line of the start of a call.
fn put_start<W: Write>(number: u32, call: &Call, out: &mut Output, writer: &mut W)
    ensures { Tells (W.contents writer.old) (W.contents writer.new) out.old out.new
        (codes "start " ++ decimal number ++ call_words call.now ++ newline) }
{
    out.put(writer, &start_text(number));
    put_call(call, out, writer);
    out.end_line(writer);
}

/// Writes the line that requests a step.
pub fn put_step<W: Write>(step: &Step, out: &mut Output, writer: &mut W)
    ensures { Tells (W.contents writer.old) (W.contents writer.new) out.old out.new
        (step_line step.now) }
{
    match step {
        Step::Start(number, call) => put_start(*number, call, out, writer),
        Step::Transfer(sender, receiver) => { out.put(writer, &transfer_text(*sender, *receiver)) }
        Step::Expire(number) => put_expire(*number, out, writer),
        Step::Cancel(number, cause) => put_cancel(*number, *cause, out, writer),
    }
}
