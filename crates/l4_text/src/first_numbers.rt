//! Reads the number that a line's first token spells, in place.
ghost use Rattle.std.specs.Prelude.{◌≡◌, ◌==◌, ◌<◌, ◌^◌, ◌∷◌, [], Some, MatchOption, IfSome};
ghost use Rattle.std.specs.List.{position_or_len};
ghost use Rattle.l4_text.specs.Numbers.{digit_of};
ghost use Rattle.l4_text.specs.Tokens.{tokens_of, is_space, FirstNumber};
ghost use Rattle.l4_text.specs.Inside.Reading.{HasDigits, HasToken, IsPacked};

use crate::numbers::{digit, hexadecimal, number};
use crate::tokens::{ends_token, next_token, token_len};

/// The factor of the count of bytes in a number that is packed with it.
const PLACE: u64 = 0x1_0000_0000;

/// Returns the number in the decimal digits up to a space or the end, and how many they are. Returns None if there are other bytes, or the
/// number may be too large.
fn decimal_digits(text: &[u8]) -> Option<(u32, usize)>
    ensures { IfSome result (λ p. HasDigits 10 digit_of text.now p.1 p.0) }
{
    let mut value = 0u32;
    let mut count = 0usize;
    for byte in text {
        let Some(next) = digit(*byte) else {
            if *byte != b' ' {
                return None;
            }
            return Some((value, count));
        };
        if value > 99_999_999 {
            return None;
        }
        value = value * 10 + u32::from(next);
        count += 1;
    }
    Some((value, count))
}

/// Returns the number of a decimal token at the beginning of a text, and the number of the token's bytes.
fn decimal_first(text: &[u8]) -> Option<(u32, usize)>
    ensures { IfSome result (λ p. HasToken text.now p.0 p.1) }
{
    let (value, count) = decimal_digits(text)?;
    if count == 0 || count > 10 {
        return None;
    }
    Some((value, count))
}

/// Returns the number of a hexadecimal token at the beginning of a text, and the number of the token's bytes.
fn hexadecimal_first(text: &[u8]) -> Option<(u32, usize)>
    ensures { IfSome result (λ p. HasToken text.now p.0 p.1) }
{
    if text.len() < 2 || text[0] != b'0' || text[1] != b'x' {
        return None;
    }
    let digits = &text[2..];
    let count = token_len(digits);
    if count == 0 || count > 8 {
        return None;
    }
    let value = hexadecimal(&digits[..count])?;
    Some((value, count + 2))
}

/// Returns the number of a token at the beginning of a text, and the number of the token's bytes, in the cases that can be read quickly.
fn first_number(text: &[u8]) -> Option<(u32, usize)>
    ensures { IfSome result (λ p. HasToken text.now p.0 p.1) }
{
    if text.len() >= 2 && text[1] == b'x' {
        return hexadecimal_first(text);
    }
    decimal_first(text)
}

/// Returns the result of `next_number`, for any token.
#[cold]
#[inline(never)]
fn any_number(line: &[u8]) -> Option<(Option<u32>, &[u8])>
    ensures { MatchOption result (tokens_of line.now ≡ []) (λ p. FirstNumber line.now p.0 p.1.now) }
{
    match next_token(line) {
        None => None,
        Some((token, after)) => Some((number(token), after)),
    }
}

/// Returns the number of a line's first token and what follows it, if that token is one digit after one space.
#[inline(always)]
fn one_digit(line: &[u8]) -> Option<(u32, &[u8])>
    ensures { IfSome result (λ p. FirstNumber line.now (Some p.0) p.1.now) }
{
    if line.len() < 2 || line[0] != b' ' {
        return None;
    }
    let after = &line[2..];
    if !ends_token(after) {
        return None;
    }
    let value = digit(line[1])?;
    Some((u32::from(value), after))
}

/// Returns the number of a line's first token, plus 2^32 for each byte up to the token's end, if one space precedes it and it can be read
/// quickly. Returns 0 otherwise. So the result fits into one register.
#[inline(always)]
fn longer_number(line: &[u8]) -> u64
    ensures packed { IsPacked line.now result }
    ensures none { result < 2 ^ 32 → result ≡ 0 }
{
    if line.is_empty() || line[0] != b' ' {
        return 0;
    }
    let Some((value, count)) = first_number(&line[1..]) else {
        return 0;
    };
    (count as u64 + 1) * PLACE + u64::from(value)
}

/// Returns the number that a line's first token spells, and what follows the token, in the cases that can be read quickly. None in all
/// other cases: it says nothing about the token.
#[inline(always)]
pub fn quick_number(line: &[u8]) -> Option<(u32, &[u8])>
    ensures { IfSome result (λ p. FirstNumber line.now (Some p.0) p.1.now) }
{
    if let Some((value, after)) = one_digit(line) {
        return Some((value, after));
    }
    let packed = longer_number(line);
    if packed < PLACE {
        return None;
    }
    Some(((packed % PLACE) as u32, &line[(packed / PLACE) as usize..]))
}

/// Returns the number of a line's first token and what follows it, if that token is `0x` and eight digits after one space.
#[inline(always)]
fn whole_word(line: &[u8]) -> Option<(u32, &[u8])>
    ensures { IfSome result (λ p. FirstNumber line.now (Some p.0) p.1.now) }
{
    if line.len() < 11 || line[2] != b'x' || line[1] != b'0' || line[0] != b' ' {
        return None;
    }
    let after = &line[11..];
    if !ends_token(after) {
        return None;
    }
    let value = hexadecimal(&line[3..11])?;
    Some((value, after))
}

/// Returns the number that a line's first token spells, or None in its place if it spells none, and what follows the token. Returns None if
/// there is no token.
#[inline(always)]
pub fn next_number(line: &[u8]) -> Option<(Option<u32>, &[u8])>
    ensures { MatchOption result (tokens_of line.now ≡ []) (λ p. FirstNumber line.now p.0 p.1.now) }
{
    if let Some((value, after)) = whole_word(line) {
        return Some((Some(value), after));
    }
    if line.is_empty() {
        return None;
    }
    match quick_number(line) {
        None => any_number(line),
        Some((value, after)) => Some((Some(value), after)),
    }
}
