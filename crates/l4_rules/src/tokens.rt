//! Tokens of a rule, in which a thread's name stands for its number.
ghost use Rattle.std.specs.Prelude.{◌≡◌, bytes_eq, decimal};
ghost use Rattle.std.specs.List.{list_all, list_any};
ghost use Rattle.l4_text.specs.Tokens.{tokens_of};
ghost use Rattle.l4_rules.specs.Tokens.{resolved, same_tokens, has_token, is_decimal, is_lower_hex, is_word, is_letter, are_rights};

use l4_names::Names;
use l4_text::{Text, decimal_number, next_token};

/// Returns whether a token is this number in decimal, without leading zeros.
pub(crate) fn is_decimal(token: &[u8], number: u64) -> bool
    ensures { result ≡ bytes_eq (decimal number) token.now }
{
    let mut text = Text::new();
    text.add_number(number);
    text.as_slice() == token
}

/// Returns whether a token of a rule stands for this token of an answer: it is the same, or the name of the thread with this number.
pub(crate) fn is_same(names: &Names, token: &[u8], other: &[u8]) -> bool
    ensures { result ≡ bytes_eq (resolved names.now token.now) other.now }
{
    match names.thread_named(token) {
        Some(number) => is_decimal(other, u64::from(number)),
        None => token == other,
    }
}

/// Returns whether the tokens of a rule stand for those of an answer.
pub(crate) fn has_same_tokens(names: &Names, one: &[u8], other: &[u8]) -> bool
    ensures { result ≡ same_tokens names.now (tokens_of one.now) (tokens_of other.now) }
{
    let mut left = one;
    let mut right = other;
    while let Some((token, later)) = next_token(left) {
        let Some((next, after)) = next_token(right) else {
            return false;
        };
        if !is_same(names, token, next) {
            return false;
        }
        left = later;
        right = after;
    }
    next_token(right).is_none()
}

/// Returns whether one of the tokens of a rule stands for this token.
pub(crate) fn has_token(names: &Names, tokens: &[u8], other: &[u8]) -> bool
    ensures { result ≡ has_token names.now (tokens_of tokens.now) other.now }
{
    let mut rest = tokens;
    while let Some((token, later)) = next_token(rest) {
        if is_same(names, token, other) {
            return true;
        }
        rest = later;
    }
    false
}

/// Returns whether a token is a number as answers print it.
pub(crate) fn is_number(token: &[u8]) -> bool
    ensures { result ≡ is_decimal token.now }
{
    match decimal_number(token) {
        Some(number) => is_decimal(token, u64::from(number)),
        None => false,
    }
}

/// Returns whether a byte is a hexadecimal digit as answers print it.
fn is_lower_hex(byte: u8) -> bool
    ensures { result ≡ is_lower_hex byte }
{
    match byte {
        b'0'..=b'9' => true,
        b'a'..=b'f' => true,
        _ => false,
    }
}

/// Returns whether all bytes are such digits.
fn are_lower_hex(bytes: &[u8]) -> bool
    ensures { result ≡ list_all is_lower_hex bytes.now }
{
    bytes.iter().all(|byte| is_lower_hex(*byte))
}

/// Returns whether a token is a word as answers print it: eight hexadecimal digits.
pub(crate) fn is_word(token: &[u8]) -> bool
    ensures { result ≡ is_word token.now }
{
    token.len() == 8 && are_lower_hex(token)
}

/// Returns whether a byte is this letter, or the hyphen in its place.
fn is_letter(letter: u8, byte: u8) -> bool
    ensures { result ≡ is_letter letter byte }
{
    byte == letter || byte == b'-'
}

/// Returns whether a token is rights as answers print them, such as `r-x`.
pub(crate) fn are_rights(token: &[u8]) -> bool
    ensures { result ≡ are_rights token.now }
{
    match token {
        [read, write, execute] => {
            is_letter(b'r', *read) && is_letter(b'w', *write) && is_letter(b'x', *execute)
        }
        _ => false,
    }
}
