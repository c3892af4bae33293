//! The lines that expect answers.
ghost use Rattle.std.specs.Prelude.{◌≡◌, option_map};
ghost use Rattle.l4_text.specs.Grammar.{is_silent};
ghost use Rattle.l4_expectations.specs.Expectations.{is_marked, answer_in, expected_in};

use l4_text::next_token;

/// Whether a line begins with `#=`.
pub fn is_marked(line: &[u8]) -> bool
    ensures { result ≡ is_marked line.now }
{
    let [first, second, ..] = line else {
        return false;
    };
    *first == b'#' && *second == b'='
}

/// The answer after a space.
fn answer_in(bytes: &[u8]) -> Option<&[u8]>
    ensures { option_map (λ a. a.now) result ≡ answer_in bytes.now }
{
    let [space, answer @ ..] = bytes else {
        return None;
    };
    if *space == b' ' && !answer.is_empty() {
        Some(answer)
    } else {
        None
    }
}

/// The answer after `#= `. None for any other line, and if there is no answer.
pub(crate) fn expected_in(line: &[u8]) -> Option<&[u8]>
    ensures { option_map (λ a. a.now) result ≡ expected_in line.now }
{
    if is_marked(line) {
        answer_in(&line[2..])
    } else {
        None
    }
}

/// Whether a line is empty or a comment, and so has no answers.
pub(crate) fn is_silent(line: &[u8]) -> bool
    ensures { result ≡ is_silent line.now }
{
    if !line.is_empty() && line[0] == b'#' {
        return true;
    }
    next_token(line).is_none()
}
