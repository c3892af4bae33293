//! Writes words.
ghost use Rattle.std.specs.Prelude.{◌≡◌, ◌+◌, ◌==◌, ◌<◌, ◌++◌, length, slice_index, if◌then◌else◌, IfOk, IfErr};
ghost use Rattle.std.specs.Io.KnownBytes.{Appends};
ghost use Rattle.l4_symbols.specs.Texts.{ended_word, line_of};
ghost use Rattle.l4_text.specs.Streams.{Tells, WentOut};

use l4_text::{Output, RunFault, Text};
use std::io::Write;

/// Returns a word in hexadecimal, with the byte that ends it.
#[tactic(auto, unfolding(crate::specs::Texts::ended_word))]
fn ended_word(byte: u8, word: u32) -> Text
    ensures { result ≡ ended_word byte word }
{
    let mut text = Text::new();
    text.add(b"0x");
    text.add_word(word);
    text.push(byte);
    text
}

/// Returns the word at this place of a line, with the byte that ends it.
fn word_at(words: &[u32], place: usize) -> Text
    requires { place < length words.now }
    ensures { result
        ≡ ended_word (if place + 1 == length words.now then 10 else 32)
        (slice_index words.now place) }
{
    if place + 1 == words.len() {
        return ended_word(b'\n', words[place]);
    }
    ended_word(b' ', words[place])
}

/// Tells the line of words.
#[tactic(auto, unfolding(crate::specs::Texts::line_of))]
fn tell_words<W: Write>(words: &[u32], out: &mut Output, writer: &mut W)
    ensures { Tells (W.contents writer.old) (W.contents writer.new) out.old out.new
        (line_of words.now) }
{
    for k in 0..words.len() {
        out.put(writer, &word_at(words, k));
    }
}

/// Writes words as one line, each as `0x` and eight hexadecimal digits. Allocates no memory.
///
/// Returns `Write` if a write fails or takes no byte.
pub fn write_words<W: Write>(words: &[u32], writer: &mut W) -> Result<(), RunFault>
    ensures ok { IfOk result
        (λ _. Appends (W.contents writer.old) (W.contents writer.new) (line_of words.now)) }
    ensures fault { IfErr result (λ e. e ≡ RunFault.Write) }
    ensures err { IfErr result
        (λ _. WentOut (W.contents writer.old) (W.contents writer.new) (line_of words.now)) }
{
    let mut out = Output::new();
    tell_words(words, &mut out, writer);
    match out.finish(writer) {
        Ok(()) => Ok(()),
        Err(fault) => Err(fault),
    }
}
