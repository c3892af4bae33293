ghost use Rattle.std.specs.Prelude.{◌≡◌, ◌==◌, ◌∷◌, [], ◌≤◌, length, MatchOption, IfSome};
ghost use Rattle.std.specs.List.{position, position_or_len};
ghost use Rattle.l4_text.specs.Tokens.{tokens_of, is_space};
ghost use Rattle.l4_text.specs.Inside.Reading.{is_no_space};

/// Returns the index of the first byte that is not a space.
fn first_other(line: &[u8]) -> Option<usize>
    ensures { result ≡ position is_no_space line.now }
{
    line.iter().position(|b| *b != b' ')
}

/// Returns the index of the first space.
fn first_space(line: &[u8]) -> Option<usize>
    ensures { result ≡ position is_space line.now }
{
    line.iter().position(|b| *b == b' ')
}

/// Returns the number of spaces at the beginning of a line.
pub(crate) fn spaces(line: &[u8]) -> usize
    ensures value { result ≡ position_or_len is_no_space line.now }
    ensures within { result ≤ length line.now }
{
    first_other(line).unwrap_or(line.len())
}

/// Returns the number of bytes before the first space.
pub(crate) fn token_len(line: &[u8]) -> usize
    ensures value { result ≡ position_or_len is_space line.now }
    ensures within { result ≤ length line.now }
{
    first_space(line).unwrap_or(line.len())
}

/// Returns the first token of a line, and what follows it, or None if the line has no token. One or more spaces separate tokens.
#[inline(always)]
pub fn next_token(line: &[u8]) -> Option<(&[u8], &[u8])>
    ensures { MatchOption result (tokens_of line.now ≡ [])
        (λ p. tokens_of line.now ≡ p.0.now ∷ tokens_of p.1.now) }
{
    if line.is_empty() {
        return None;
    }
    cut_token(line)
}

/// Returns the first token of a line, which may be empty, and what follows it.
#[inline(never)]
fn cut_token(line: &[u8]) -> Option<(&[u8], &[u8])>
    ensures { MatchOption result (tokens_of line.now ≡ [])
        (λ p. tokens_of line.now ≡ p.0.now ∷ tokens_of p.1.now) }
{
    let start = spaces(line);
    let rest = &line[start..];
    let end = token_len(rest);
    if end == 0 {
        return None;
    }
    Some((&rest[..end], &rest[end..]))
}

/// Returns whether a token before this text ends there: the text is empty, or begins with a space.
#[inline(always)]
pub(crate) fn ends_token(text: &[u8]) -> bool
    ensures { result ≡ (position_or_len is_space text.now == 0) }
{
    if text.is_empty() {
        return true;
    }
    text[0] == b' '
}

/// Returns what follows the name in a text that begins with it, if the token ends with the name. Returns None otherwise.
#[inline(always)]
pub fn after_name<const COUNT: usize>(text: &[u8], name: [u8; COUNT]) -> Option<&[u8]>
    requires some { 1 ≤ COUNT }
    requires token { position_or_len is_space name ≡ COUNT }
    ensures { IfSome result (λ rest. tokens_of text.now ≡ name.entry ∷ tokens_of rest.now) }
{
    if text.len() < COUNT {
        return None;
    }
    for at in 0..COUNT {
        if text[at] != name[at] {
            return None;
        }
    }
    let rest = &text[COUNT..];
    if !ends_token(rest) {
        return None;
    }
    Some(rest)
}

/// Returns what follows one space and the name in a line, if the name is its whole first token. Returns None otherwise.
#[inline(always)]
pub fn after_spaced_name<const COUNT: usize>(line: &[u8], name: [u8; COUNT]) -> Option<&[u8]>
    requires some { 1 ≤ COUNT }
    requires token { position_or_len is_space name ≡ COUNT }
    ensures { IfSome result (λ rest. tokens_of line.now ≡ name.entry ∷ tokens_of rest.now) }
{
    if line.is_empty() || line[0] != b' ' {
        return None;
    }
    after_name(&line[1..], name)
}

/// Returns the token of three bytes, if the line consists of one space and that token. Returns None otherwise.
#[inline(always)]
pub fn last_three(line: &[u8]) -> Option<&[u8]>
    ensures { IfSome result (λ token. tokens_of line.now ≡ token.now ∷ []) }
{
    if line.len() != 4 || line[0] != b' ' {
        return None;
    }
    if line[1] == b' ' || line[2] == b' ' || line[3] == b' ' {
        return None;
    }
    Some(&line[1..])
}
