ghost use Rattle.std.specs.Prelude.{◌≡◌, ◌+◌, ◌*◌, ◌<◌, ◌≤◌, ℕ, List, Bool, length, IfOk, IfErr};
ghost use Rattle.std.specs.Io.KnownBytes.{Appends};
ghost use Rattle.l4_text.specs.Streams.{Tells, WentOut};
ghost use Rattle.l4_plan_lines.specs.Lines.{ended};
ghost use Rattle.l4_plan_lines.specs.Plans.{IsPlanText, message_text, part_text, plan_text, too_long_text};
ghost use Rattle.l4_msg.specs.Regions.{messages_of};

use crate::lines::{item_text, page_text, tag_text};
use l4_fpage::PageSize;
use l4_msg::Region;
use l4_plan::{Pages, Plan, PlanRefusal, plan};
use l4_text::{Output, RunFault, Text};
use std::io::Write;

/// Writes some bytes.
fn tell<W: Write>(bytes: &[u8], out: &mut Output, writer: &mut W)
    requires { length bytes.now ≤ 100 }
    ensures { Tells (W.contents writer.old) (W.contents writer.new) out.old out.new bytes.now }
{
    let mut text = Text::new();
    text.add(bytes);
    out.put(writer, &text);
}

/// Writes a line and its newline.
fn tell_line<W: Write>(line: &Text, out: &mut Output, writer: &mut W)
    requires { length line.now ≤ 100 }
    ensures { Tells (W.contents writer.old) (W.contents writer.new) out.old out.new
        (ended line.now) }
{
    let mut text = Text::new();
    text.add(line.as_slice());
    text.push(b'\n');
    out.put(writer, &text);
}

/// Writes the lines of a message's words, with a page for each item.
fn tell_message<W: Write>(words: &[u32], pages: &[u32], out: &mut Output, writer: &mut W)
    requires { length words.now ≡ 1 + 2 * length pages.now }
    ensures { Tells (W.contents writer.old) (W.contents writer.new) out.old out.new
        (message_text words.now pages.now) }
{
    tell_line(&tag_text(words[0]), out, writer);
    let mut rest = &words[1..];
    for page in pages {
        tell_line(&item_text(rest[0], rest[1], *page), out, writer);
        rest = &rest[2..];
    }
}

/// Writes the lines of the message with this number of a plan: its tag, and its items with a page each.
fn tell_part<W: Write>(plan: &Plan, number: u32, out: &mut Output, writer: &mut W)
    requires { number < messages_of (length plan.now.items) }
    ensures { Tells (W.contents writer.old) (W.contents writer.new) out.old out.new
        (part_text plan.now number) }
{
    plan.law_kept();
    let Ok(message) = plan.message(number) else {
        return;
    };
    tell_message(
        message.write().as_slice(),
        plan.pages_of(number).as_slice(),
        out,
        writer,
    );
}

/// Writes the lines of a plan, message by message.
fn tell_items<W: Write>(plan: &Plan, out: &mut Output, writer: &mut W)
    ensures { Tells (W.contents writer.old) (W.contents writer.new) out.old out.new
        (plan_text plan.now) }
{
    for number in 0..plan.messages() {
        tell_part(plan, number, out, writer);
    }
}

/// Writes the lines of a plan that is too long, with the pages that prove it.
fn tell_pages<W: Write>(pages: Pages, out: &mut Output, writer: &mut W)
    ensures { Tells (W.contents writer.old) (W.contents writer.new) out.old out.new
        (too_long_text pages) }
{
    tell(b"too-long\n", out, writer);
    for page in pages {
        tell_line(&page_text(page), out, writer);
    }
}

/// Writes the text of the plan of a region, and returns whether there is one.
fn tell_plan<W: Write>(region: &Region, size: PageSize, out: &mut Output, writer: &mut W) -> bool
    ensures { (text : List ℕ) × IsPlanText size region.now result text
        × Tells (W.contents writer.old) (W.contents writer.new) out.old out.new text }
{
    match plan(region, size) {
        Ok(plan) => {
            tell_items(&plan, out, writer);
            true
        }
        Err(PlanRefusal::TooLong(pages)) => {
            tell_pages(pages, out, writer);
            false
        }
        Err(PlanRefusal::Empty) => {
            tell(b"refused N1\n", out, writer);
            false
        }
        Err(PlanRefusal::OutOfSpace) => {
            tell(b"refused N2\n", out, writer);
            false
        }
        Err(PlanRefusal::NoRights) => {
            tell(b"refused N3\n", out, writer);
            false
        }
        Err(PlanRefusal::Several(_)) => false,
        Err(PlanRefusal::NoPart(_)) => false,
    }
}

/// Writes the plan of the region in lines, or the reason why it has none. Returns whether there is a plan. Allocates no
/// memory.
///
/// Returns `Write` if a write fails or writes no byte.
pub fn plan_lines<W: Write>(
    region: &Region,
    size: PageSize,
    writer: &mut W,
) -> Result<bool, RunFault>
    ensures ok { IfOk result (λ is_plan. (text : List ℕ) × IsPlanText size region.now is_plan text
        × Appends (W.contents writer.old) (W.contents writer.new) text) }
    ensures fault { IfErr result (λ e. e ≡ RunFault.Write) }
    ensures err { IfErr result
        (λ _. (is_plan : Bool) × (text : List ℕ) × IsPlanText size region.now is_plan text
        × WentOut (W.contents writer.old) (W.contents writer.new) text) }
{
    let mut out = Output::new();
    let is_plan = tell_plan(region, size, &mut out, writer);
    match out.finish(writer) {
        Ok(()) => Ok(is_plan),
        Err(fault) => Err(fault),
    }
}
