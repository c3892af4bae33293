//! Writes refusals, replies and steps as text, and tells the version.

ghost use Rattle.std.specs.Prelude.{◌≡◌, ◌<◌, ◌≤◌, length};
ghost use Rattle.l4_refusals.specs.Texts.{texts, text_in};
ghost use Rattle.l4_c_values.specs.Lines.{reply_given, reply_line, step_line};
ghost use Rattle.l4_c_texts.specs.Written.{written};
ghost use Rattle.l4_c.specs.Versions.{version_number};

use l4_c_texts::write_text;
use l4_c_values::{NextResult, ReplyResult, reply_line, step_line};
use l4_refusals::text_of;

/// Writes the printed code of a refusal, and returns its length.
#[unsafe(no_mangle)]
pub extern "C" fn l4_refusal_code(refusal: u32, out: &mut [u8]) -> usize
    ensures length { result ≡ length (text_in texts refusal).0 }
    ensures written { out.new ≡ written (text_in texts refusal).0 out.old }
    ensures short { result < 160 }
    ensures room { length out.new ≡ length out.old }
{
    write_text(text_of(refusal).code, out)
}

/// Writes a line of text that explains a refusal, and returns its length.
#[unsafe(no_mangle)]
pub extern "C" fn l4_refusal_text(refusal: u32, out: &mut [u8]) -> usize
    ensures length { result ≡ length (text_in texts refusal).1 }
    ensures written { out.new ≡ written (text_in texts refusal).1 out.old }
    ensures short { result < 160 }
    ensures room { length out.new ≡ length out.old }
{
    write_text(text_of(refusal).line, out)
}

/// Writes a thread's reply as a line of text, and returns its length.
#[unsafe(no_mangle)]
pub extern "C" fn l4_reply_text(thread: u32, reply: &ReplyResult, out: &mut [u8]) -> usize
    ensures length { result ≡ length (reply_line thread (reply_given reply.now)) }
    ensures written { out.new ≡ written (reply_line thread (reply_given reply.now)) out.old }
    ensures short { result ≤ 656 }
    ensures room { length out.new ≡ length out.old }
{
    write_text(reply_line(thread, reply).as_slice(), out)
}

/// Writes a step as a line of text, and returns its length.
#[unsafe(no_mangle)]
pub extern "C" fn l4_step_text(step: &NextResult, out: &mut [u8]) -> usize
    ensures length { result ≡ length (step_line step.now) }
    ensures written { out.new ≡ written (step_line step.now) out.old }
    ensures short { result ≤ 160 }
    ensures room { length out.new ≡ length out.old }
{
    write_text(step_line(step).as_slice(), out)
}

/// Returns the version of the library as one number, which is larger for a later version.
#[unsafe(no_mangle)]
pub extern "C" fn l4_version() -> u32
    ensures { result ≡ version_number 0 1 0 }
{
    1_000
}
