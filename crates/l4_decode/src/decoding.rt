//! Writes the meaning of words.
ghost use Rattle.std.specs.Prelude.{◌≡◌, ℕ, ◌≤◌, ◌<◌, ◌+◌, ◌*◌, ◌++◌, ◌∷◌, [], List, length, IfOk, IfErr};
ghost use Rattle.std.specs.Io.KnownBytes.{Appends};
ghost use Rattle.l4_decode.specs.Decoded.{word_line, words_lines, items_lines, each_line, word_text, words_text, IsMessageText, IsDecoded};
ghost use Rattle.l4_decode.specs.Meanings.{Means, whole_text};
ghost use Rattle.l4_text.specs.Streams.{Tells, WentOut};

use crate::controls::control_line;
use crate::fpages::{fpage_line, window_line};
use crate::ids::id_line;
use crate::items::tell_item;
use crate::meanings::{meaning_line, meaning_of};
use crate::spelling::{add_hex, add_length};
use crate::tags::tag_line;
use l4_fpage::PageSize;
use l4_msg::Tag;
use l4_text::{Output, RunFault, Text};
use std::io::Write;

/// The way in which words are read.
#[derive(Clone, Copy, PartialEq, Eq, Debug)]
pub enum Reading {
    /// Together as a message, the tag first.
    Message,
    /// Each alone as a tag, an fpage, a receive window and a thread's id.
    Each,
    /// Each alone as an fpage.
    Fpage,
    /// Each alone as a receive window's.
    Window,
    /// Each alone as a thread's id.
    Id,
    /// Each alone as the control of an Unmap.
    Control,
}

/// Returns the line of a word that is neither a tag nor part of an item, with its index among the words.
#[tactic(auto, unfolding(crate::specs::Decoded::word_line))]
fn word_line(kind: &[u8], place: usize, word: u32) -> Text
    requires { length kind.now ≤ 20 }
    ensures { result ≡ word_line kind.now place word }
{
    let mut text = Text::new();
    text.add(b"word ");
    add_length(&mut text, place);
    text.add(b" ");
    add_hex(&mut text, word);
    text.add(b": ");
    text.add(kind);
    text.add(b", ");
    text.add_number(u64::from(word));
    text.push(b'\n');
    text
}

/// Writes the lines of this many words, from an index among all words on.
#[tactic(auto, unfolding(crate::specs::Decoded::words_lines))]
fn tell_words<W: Write>(
    kind: &[u8],
    words: &[u32],
    places: (usize, usize),
    mark: &[u8],
    out: &mut Output,
    writer: &mut W,
)
    requires kind { length kind.now ≤ 20 }
    requires there { places.0 + places.1 ≤ length words.now }
    requires short { length mark.now ≤ 2 }
    ensures { Tells (W.contents writer.old) (W.contents writer.new) out.old out.new
        (words_lines mark.now kind.now words.now places.0 places.1) }
{
    let (from, count) = places;
    for k in 0..count {
        out.put_marked(writer, mark, &word_line(kind, from + k, words[from + k]));
    }
}

/// Writes the lines of items, two words each: this many of them, from an index among all words on.
#[tactic(auto, unfolding(crate::specs::Decoded::items_lines))]
fn tell_items<W: Write>(
    words: &[u32],
    places: (usize, usize),
    size: PageSize,
    mark: &[u8],
    out: &mut Output,
    writer: &mut W,
)
    requires there { places.0 + 2 * places.1 ≤ length words.now }
    requires short { length mark.now ≤ 2 }
    ensures { Tells (W.contents writer.old) (W.contents writer.new) out.old out.new
        (items_lines mark.now size words.now places.0 places.1) }
{
    let (from, count) = places;
    for k in 0..count {
        let at = from + 2 * k;
        tell_item(k, (words[at], words[at + 1]), size, mark, out, writer);
    }
}

/// Writes the lines of the words of a message, one by one.
#[tactic(auto, unfolding(crate::specs::Decoded::each_line))]
fn tell_each<W: Write>(words: &[u32], size: PageSize, mark: &[u8], out: &mut Output, writer: &mut W)
    requires { length mark.now ≤ 2 }
    ensures { Tells (W.contents writer.old) (W.contents writer.new) out.old out.new
        (each_line mark.now size words.now) }
{
    if words.is_empty() {
        return;
    }
    let tag = Tag::read(words[0]);
    let after = words.len() - 1;
    let untyped = usize::from(tag.untyped).min(after);
    let typed = usize::from(tag.typed).min(after - untyped);
    let half = 1 + untyped + typed / 2 * 2;
    let end = 1 + untyped + typed;
    out.put_marked(writer, mark, &tag_line(words[0]));
    tell_words(b"untyped", words, (1, untyped), mark, out, writer);
    tell_items(words, (1 + untyped, typed / 2), size, mark, out, writer);
    tell_words(b"half an item", words, (half, typed % 2), mark, out, writer);
    let ignored = words.len() - end;
    tell_words(b"ignored", words, (end, ignored), mark, out, writer);
}

/// Writes the meaning of words as a message, each line after a mark of at most two bytes.
pub fn put_message<W: Write>(
    words: &[u32],
    size: PageSize,
    mark: &[u8],
    out: &mut Output,
    writer: &mut W,
)
    requires { length mark.now ≤ 2 }
    ensures { (text : List ℕ) × IsMessageText mark.now size words.now text
        × Tells (W.contents writer.old) (W.contents writer.new) out.old out.new text }
{
    tell_each(words, size, mark, out, writer);
    out.put_marked(writer, mark, &meaning_line(&meaning_of(words), size));
}

/// Writes the meaning of one word.
#[tactic(auto, unfolding(crate::specs::Decoded::word_text))]
fn tell_word<W: Write>(
    word: u32,
    reading: Reading,
    size: PageSize,
    out: &mut Output,
    writer: &mut W,
)
    ensures { Tells (W.contents writer.old) (W.contents writer.new) out.old out.new
        (word_text size reading word) }
{
    match reading {
        Reading::Each => {
            out.put(writer, &tag_line(word));
            out.put(writer, &fpage_line(word, size));
            out.put(writer, &window_line(word, size));
            out.put(writer, &id_line(word));
        }
        Reading::Message => out.put(writer, &tag_line(word)),
        Reading::Fpage => out.put(writer, &fpage_line(word, size)),
        Reading::Window => out.put(writer, &window_line(word, size)),
        Reading::Id => out.put(writer, &id_line(word)),
        Reading::Control => out.put(writer, &control_line(word)),
    }
}

/// Writes the meaning of each word.
#[tactic(auto, unfolding(crate::specs::Decoded::words_text))]
fn tell_alone<W: Write>(
    words: &[u32],
    reading: Reading,
    size: PageSize,
    out: &mut Output,
    writer: &mut W,
)
    ensures { Tells (W.contents writer.old) (W.contents writer.new) out.old out.new
        (words_text size reading words.now) }
{
    for k in 0..words.len() {
        tell_word(words[k], reading, size, out, writer);
    }
}

/// Writes the meaning of words in a reading.
fn tell<W: Write>(words: &[u32], reading: Reading, size: PageSize, out: &mut Output, writer: &mut W)
    ensures { (text : List ℕ) × IsDecoded size reading words.now text
        × Tells (W.contents writer.old) (W.contents writer.new) out.old out.new text }
{
    match reading {
        Reading::Message => put_message(words, size, b"", out, writer),
        Reading::Each | Reading::Fpage | Reading::Window | Reading::Id | Reading::Control =>
            tell_alone(words, reading, size, out, writer),
    }
}

/// Writes the meaning of words, one line per thing. If they are read as a message, the last line says what they mean as a whole. Allocates
/// no memory.
///
/// Returns `Write` if a write fails or takes no byte.
pub fn decode<W: Write>(
    words: &[u32],
    reading: Reading,
    size: PageSize,
    writer: &mut W,
) -> Result<(), RunFault>
    ensures ok { IfOk result (λ _. (text : List ℕ) × IsDecoded size reading words.now text
        × Appends (W.contents writer.old) (W.contents writer.new) text) }
    ensures fault { IfErr result (λ e. e ≡ RunFault.Write) }
    ensures err { IfErr result (λ _. (text : List ℕ) × IsDecoded size reading words.now text
        × WentOut (W.contents writer.old) (W.contents writer.new) text) }
{
    let mut out = Output::new();
    tell(words, reading, size, &mut out, writer);
    match out.finish(writer) {
        Ok(()) => Ok(()),
        Err(fault) => Err(fault),
    }
}
