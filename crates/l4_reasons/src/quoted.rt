//! Tokens in quotes.
ghost use Rattle.std.specs.Prelude.{◌≡◌, ◌≤◌, ◌+◌, ◌*◌, ◌++◌, length};
ghost use Rattle.std.specs.List.{flat_map};
ghost use Rattle.l4_reasons.specs.Quoted.{is_plain, code_text, escaped, quoted};
ghost use Rattle.l4_reasons.specs.Sizes.{reason_bytes, quoted_bytes};

use crate::reasons::Reason;
use l4_text::Text;

/// The most bytes of a token that are quoted.
const MOST_QUOTED: usize = 24;

/// Whether a byte is written as itself between quotes.
fn is_plain(byte: u8) -> bool
    ensures { result ≡ is_plain byte }
{
    byte > b' ' && byte < 0x7f && byte != b'"' && byte != b'\\'
}

/// Adds a byte as its two hexadecimal digits after `\x`.
fn add_code(reason: &mut Reason, byte: u8)
    requires { length reason.old + 4 ≤ reason_bytes }
    ensures value { reason.new ≡ reason.old ++ code_text byte }
    ensures len { length reason.new ≤ length reason.old + 4 }
{
    let mut digits = Text::new();
    digits.add_word(u32::from(byte));
    reason.add(b"\\x");
    reason.add(&digits.as_slice()[6..8]);
}

/// Adds a byte as it is written between quotes.
#[tactic(auto, unfolding(crate::specs::Quoted::escaped))]
fn add_escaped(reason: &mut Reason, byte: u8)
    requires { length reason.old + 4 ≤ reason_bytes }
    ensures value { reason.new ≡ reason.old ++ escaped byte }
    ensures len { length reason.new ≤ length reason.old + 4 }
{
    if byte == b'\t' {
        return reason.add(b"\\t");
    }
    if byte == b'\r' {
        return reason.add(b"\\r");
    }
    if is_plain(byte) {
        return reason.push(byte);
    }
    add_code(reason, byte);
}

/// Adds bytes as they are written between quotes.
fn add_all(reason: &mut Reason, bytes: &[u8])
    requires few { length bytes.now ≤ quoted_bytes }
    requires room { length reason.old + 96 ≤ reason_bytes }
    ensures value { reason.new ≡ reason.old ++ flat_map escaped bytes.now }
    ensures len { length reason.new ≤ length reason.old + 96 }
{
    for byte in bytes {
        add_escaped(reason, *byte);
    }
}

/// Adds a token in quotes: its first bytes, and two dots where it has more.
#[tactic(auto, unfolding(crate::specs::Quoted::quoted))]
pub(crate) fn add_quoted(reason: &mut Reason, token: &[u8])
    requires { length reason.old + 100 ≤ reason_bytes }
    ensures value { reason.new ≡ reason.old ++ quoted token.now }
    ensures len { length reason.new ≤ length reason.old + 100 }
{
    reason.push(b'"');
    if token.len() > MOST_QUOTED {
        add_all(reason, &token[..MOST_QUOTED]);
        return reason.add(b"..\"");
    }
    add_all(reason, token);
    reason.push(b'"');
}
