//! The kinds of tested files: scripts and litmus tests.
ghost use Rattle.std.specs.Prelude.{◌≡◌};
ghost use Rattle.l4_text.specs.Tokens.{tokens_of};
ghost use Rattle.l4.specs.Files.{is_unordered, has_unordered, is_litmus_name, is_litmus};

use l4_answers::{first_line, later_lines};
use l4_text::next_token;

/// The ends of the names of litmus tests.
const LITMUS: &[u8] = b".litmus";

const PLAN: &[u8] = b".plan";

/// The first token of the line that begins the calls that have no order.
const UNORDERED: &[u8] = b"unordered";

/// Returns whether a line begins the calls that have no order.
fn is_unordered(line: &[u8]) -> bool
    ensures { result ≡ is_unordered (tokens_of line.now) }
{
    match next_token(line) {
        Some((token, _)) => token == UNORDERED,
        None => false,
    }
}

/// Returns whether a line of this text begins the calls that have no order.
fn has_unordered(text: &[u8]) -> bool
    ensures { result ≡ has_unordered text.now }
{
    let mut rest = text;
    while !rest.is_empty() {
        if is_unordered(first_line(rest)) {
            return true;
        }
        rest = later_lines(rest);
    }
    false
}

/// Returns whether the name of a file is that of a litmus test.
fn is_litmus_name(name: &[u8]) -> bool
    ensures { result ≡ is_litmus_name name.now }
{
    name.ends_with(LITMUS) || name.ends_with(PLAN)
}

/// Returns whether a file is a litmus test: one of its lines says so, or its name does.
pub(crate) fn is_litmus(file: &str, text: &[u8]) -> bool
    ensures { result ≡ is_litmus file.now text.now }
{
    has_unordered(text) || is_litmus_name(file.as_bytes())
}
