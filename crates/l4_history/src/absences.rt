//! The lines about a page that is not present.
ghost use Rattle.std.specs.Prelude.{◌≡◌, ◌++◌};
ghost use Rattle.l4_text.specs.Streams.{Tells};
ghost use Rattle.l4_history.specs.Absences.{absent_line, removed_by, removed_line, removed_text, absent_text};

use l4_provenance::Replayable;
use l4_record::Entry;
use l4_step_lines::put_step;
use l4_text::{Output, Text};
use std::io::Write;

/// `absent`
fn absent_line() -> Text
    ensures { result ≡ absent_line }
{
    let mut text = Text::new();
    text.add(b"absent");
    text.push(b'\n');
    text
}

/// `removed by entry NUMBER`, with a space behind it
#[tactic(auto, unfolding(crate::specs::Absences::removed_by))]
fn removed_by(number: usize) -> Text
    ensures { result ≡ removed_by number }
{
    let mut text = Text::new();
    text.add(b"removed by entry ");
    text.add_number(number as u64);
    text.push(b' ');
    text
}

/// Writes the step of the entry with this number, which removed a page.
fn put_removed<W: Write>(number: usize, entry: &Option<Entry>, out: &mut Output, writer: &mut W)
    ensures { Tells (W.contents writer.old) (W.contents writer.new) out.old out.new
        (removed_line number entry.now) }
{
    if let Some(entry) = entry {
        out.put(writer, &removed_by(number));
        put_step(&entry.step, out, writer);
    }
}

/// Writes the step that removed a page, if there is one.
fn put_removal<H: Replayable, W: Write>(
    history: &H,
    removed: Option<usize>,
    out: &mut Output,
    writer: &mut W,
)
    ensures { Tells (W.contents writer.old) (W.contents writer.new) out.old out.new
        (removed_text (H.entries history.now) removed) }
{
    if let Some(number) = removed {
        put_removed(number, &history.get(number), out, writer);
    }
}

/// Writes that a page is not present, and the step that removed it, if there is one.
pub(crate) fn put_absent<H: Replayable, W: Write>(
    history: &H,
    removed: Option<usize>,
    out: &mut Output,
    writer: &mut W,
)
    ensures { Tells (W.contents writer.old) (W.contents writer.new) out.old out.new
        (absent_text (H.entries history.now) removed) }
{
    out.put(writer, &absent_line());
    put_removal(history, removed, out, writer);
}
