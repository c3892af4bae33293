//! Bytes of a token that an editor may not show, and comments where none are allowed.
ghost use Rattle.std.specs.Prelude.{◌≡◌, ◌≤◌, ◌+◌, ◌++◌, length};
ghost use Rattle.std.specs.List.{position};
ghost use Rattle.l4_reasons.specs.Hints.{is_tab, is_return, is_number_sign, has_mark, mark_hint, tab_hint, return_hint, comment_hint, hints};
ghost use Rattle.l4_reasons.specs.Sizes.{reason_bytes};

use crate::reasons::Reason;

/// The byte order mark of UTF-8.
const MARK: &[u8] = b"\xef\xbb\xbf";

/// Whether a token begins with a byte order mark.
#[tactic(auto, unfolding(crate::specs::Hints::has_mark))]
fn has_mark(token: &[u8]) -> bool
    ensures { result ≡ has_mark token.now }
{
    if token.len() < 3 {
        return false;
    }
    &token[..3] == MARK
}

/// Where the first tab is.
fn first_tab(token: &[u8]) -> Option<usize>
    ensures { result ≡ position is_tab token.now }
{
    token.iter().position(|b| *b == b'\t')
}

/// Where the first carriage return is.
fn first_return(token: &[u8]) -> Option<usize>
    ensures { result ≡ position is_return token.now }
{
    token.iter().position(|b| *b == b'\r')
}

/// Where the first number sign is.
fn first_number_sign(token: &[u8]) -> Option<usize>
    ensures { result ≡ position is_number_sign token.now }
{
    token.iter().position(|b| *b == b'#')
}

/// What is said of a token that begins with a byte order mark.
#[tactic(auto, unfolding(crate::specs::Hints::mark_hint))]
fn mark_hint(token: &[u8]) -> &'static [u8]
    ensures value { result.now ≡ mark_hint token.now }
    ensures short { length result.now ≤ 80 }
{
    if has_mark(token) {
        return b"; the token begins with a byte order mark";
    }
    b""
}

/// What is said of a token that has a tab.
#[tactic(auto, unfolding(crate::specs::Hints::tab_hint))]
fn tab_hint(token: &[u8]) -> &'static [u8]
    ensures value { result.now ≡ tab_hint token.now }
    ensures short { length result.now ≤ 80 }
{
    match first_tab(token) {
        Some(_) => b"; the token has a tab, but only spaces separate tokens",
        None => b"",
    }
}

/// What is said of a token that has a carriage return.
#[tactic(auto, unfolding(crate::specs::Hints::return_hint))]
fn return_hint(token: &[u8]) -> &'static [u8]
    ensures value { result.now ≡ return_hint token.now }
    ensures short { length result.now ≤ 80 }
{
    match first_return(token) {
        Some(_) => b"; the token has a carriage return, but a newline alone ends a line",
        None => b"",
    }
}

/// What is said of a token that has a number sign.
#[tactic(auto, unfolding(crate::specs::Hints::comment_hint))]
fn comment_hint(token: &[u8]) -> &'static [u8]
    ensures value { result.now ≡ comment_hint token.now }
    ensures short { length result.now ≤ 60 }
{
    match first_number_sign(token) {
        Some(_) => b"; a comment is a line whose first character is #",
        None => b"",
    }
}

/// Adds what is said of a token's bytes.
#[tactic(auto, unfolding(crate::specs::Hints::hints))]
pub(crate) fn add_hints(reason: &mut Reason, token: &[u8])
    requires { length reason.old + 300 ≤ reason_bytes }
    ensures { reason.new ≡ reason.old ++ hints token.now }
{
    reason.add(mark_hint(token));
    reason.add(tab_hint(token));
    reason.add(return_hint(token));
    reason.add(comment_hint(token));
}
