//! Spells words, labels and lines.
ghost use Rattle.std.specs.Prelude.{◌≡◌, ◌≤◌, ◌<◌, ◌^◌, ◌+◌, ◌++◌, [], ◌∷◌, length, codes, decimal};
ghost use Rattle.l4_decode.specs.Spelling.{hex_text, label_text};
ghost use Rattle.l4_text.specs.Sizes.{text_bytes};

use l4_text::Text;

/// Adds a word: 0x and eight digits.
#[tactic(auto, unfolding(crate::specs::Spelling::hex_text))]
pub(crate) fn add_hex(text: &mut Text, word: u32)
    requires { length text.old + 10 ≤ text_bytes }
    ensures value { text.new ≡ text.old ++ hex_text word }
    ensures len { length text.new ≡ length text.old + 10 }
{
    text.add(b"0x");
    text.add_word(word);
}

/// Adds a label: 0x and four digits.
#[tactic(auto, unfolding(crate::specs::Spelling::label_text))]
pub(crate) fn add_label(text: &mut Text, label: u16)
    requires { length text.old + 6 ≤ text_bytes }
    ensures value { text.new ≡ text.old ++ label_text label }
    ensures len { length text.new ≡ length text.old + 6 }
{
    let mut digits = Text::new();
    digits.add_word(u32::from(label));
    text.add(b"0x");
    text.add(&digits.as_slice()[4..]);
}

/// Adds a number of words or of items, or the place of one.
pub(crate) fn add_length(text: &mut Text, number: usize)
    requires { length text.old + 20 ≤ text_bytes }
    ensures value { text.new ≡ text.old ++ decimal number }
    ensures len { length text.new ≤ length text.old + 20 }
{
    text.add_number(number as u64);
}

/// Adds a number of pages or bytes, or of a page.
pub(crate) fn add_count(text: &mut Text, number: u32)
    requires { length text.old + 20 ≤ text_bytes }
    ensures value { text.new ≡ text.old ++ decimal number }
    ensures len { length text.new ≤ length text.old + 20 }
{
    text.add_number(u64::from(number));
}

/// Begins the line of a word: what it is taken as, with the space after it, and the word.
pub(crate) fn begin_line(name: &[u8], word: u32) -> Text
    requires { length name.now ≤ 8 }
    ensures value { result ≡ name.now ++ hex_text word ++ codes ": " }
    ensures len { length result ≡ length name.now + 12 }
{
    let mut text = Text::new();
    text.add(name);
    add_hex(&mut text, word);
    text.add(b": ");
    text
}
