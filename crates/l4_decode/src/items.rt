//! The texts of the items of a message.
ghost use Rattle.std.specs.Prelude.{◌≡◌, ◌≤◌, ◌+◌, ◌++◌, ◌∷◌, [], length};
ghost use Rattle.l4_decode.specs.Items.{carrying_text, item_text, item_head, item_line};
ghost use Rattle.l4_text.specs.Streams.{Tells};
ghost use Rattle.l4_text.specs.Sizes.{text_bytes};

use crate::fpages::add_fpage;
use crate::spelling::{add_count, add_hex, add_length};
use l4_fpage::PageSize;
use l4_text::{Output, Text};
use std::io::Write;

/// Adds an item that carries pages: its kind, its send base, whether its lowest bit says that another item follows, and its fpage.
#[tactic(auto, unfolding(crate::specs::Items::carrying_text))]
fn add_carrying(text: &mut Text, kind: &[u8], first: u32, second: u32, size: PageSize)
    requires kind { length kind.now ≤ 5 }
    requires room { length text.old + 150 ≤ text_bytes }
    ensures value { text.new ≡ text.old ++ carrying_text kind.now size first second }
    ensures len { length text.new ≤ length text.old + 150 }
{
    text.add(kind);
    text.add(b", send base ");
    add_hex(text, first >> 10 << 10);
    text.add(b", C ");
    add_count(text, first % 2);
    text.add(b", ");
    add_fpage(text, second, size);
}

/// Adds what two words mean as an item.
#[tactic(auto, unfolding(crate::specs::Items::item_text))]
fn add_item(text: &mut Text, first: u32, second: u32, size: PageSize)
    requires { length text.old + 150 ≤ text_bytes }
    ensures value { text.new ≡ text.old ++ item_text size first second }
    ensures len { length text.new ≤ length text.old + 150 }
{
    match first / 2 % 8 {
        4 => add_carrying(text, b"map", first, second, size),
        5 => add_carrying(text, b"grant", first, second, size),
        6 => text.add(b"CtrlXfer item, not supported"),
        7 => text.add(b"unknown item: its kind is 7"),
        _ => text.add(b"string item, not supported"),
    }
}

/// Returns the beginning of an item's line: its number, from 0, and its words.
#[tactic(auto, unfolding(crate::specs::Items::item_head))]
fn item_head(number: usize, first: u32, second: u32) -> Text
    ensures { result ≡ item_head number first second }
{
    let mut text = Text::new();
    text.add(b"item ");
    add_length(&mut text, number);
    text.add(b" ");
    add_hex(&mut text, first);
    text.add(b" ");
    add_hex(&mut text, second);
    text.add(b": ");
    text
}

/// Returns the end of an item's line: its meaning.
fn item_end(first: u32, second: u32, size: PageSize) -> Text
    ensures { result ≡ item_text size first second ++ 10 ∷ [] }
{
    let mut text = Text::new();
    add_item(&mut text, first, second, size);
    text.push(b'\n');
    text
}

/// Writes the line of an item, after a mark.
#[tactic(auto, unfolding(crate::specs::Items::item_line))]
pub(crate) fn tell_item<W: Write>(
    number: usize,
    words: (u32, u32),
    size: PageSize,
    mark: &[u8],
    out: &mut Output,
    writer: &mut W,
)
    requires { length mark.now ≤ 2 }
    ensures { Tells (W.contents writer.old) (W.contents writer.new) out.old out.new
        (mark.now ++ item_line size number words.0 words.1) }
{
    out.put_marked(writer, mark, &item_head(number, words.0, words.1));
    out.put(writer, &item_end(words.0, words.1, size));
}
