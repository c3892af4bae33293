ghost use Rattle.std.specs.Prelude.{◌≡◌, ◌≤◌, ◌^◌, Some, length};
ghost use Rattle.l4_text.specs.Numbers.{digit_of, hex_digit_of, value_from, decimal_of, below, decimal_number_of, word_of, number_of};
ghost use Rattle.l4_text.specs.Inside.Reading.{IsHexDigit};

/// Returns the value of a decimal digit.
pub(crate) fn digit(byte: u8) -> Option<u8>
    ensures { result ≡ digit_of byte }
{
    match byte {
        b'0'..=b'9' => Some(byte - b'0'),
        _ => None,
    }
}

/// The entry in the table for a byte that is no digit: a bit above those of a word, which stays above them when up to seven digits follow
/// it.
const NO_DIGIT: u64 = 0x1_0000_0000;

/// The value of each byte as a hexadecimal digit of either case.
const HEX_DIGITS: [u64; 256] = [
    NO_DIGIT, NO_DIGIT, NO_DIGIT, NO_DIGIT, NO_DIGIT, NO_DIGIT, NO_DIGIT, NO_DIGIT, NO_DIGIT,
    NO_DIGIT, NO_DIGIT, NO_DIGIT, NO_DIGIT, NO_DIGIT, NO_DIGIT, NO_DIGIT, NO_DIGIT, NO_DIGIT,
    NO_DIGIT, NO_DIGIT, NO_DIGIT, NO_DIGIT, NO_DIGIT, NO_DIGIT, NO_DIGIT, NO_DIGIT, NO_DIGIT,
    NO_DIGIT, NO_DIGIT, NO_DIGIT, NO_DIGIT, NO_DIGIT, NO_DIGIT, NO_DIGIT, NO_DIGIT, NO_DIGIT,
    NO_DIGIT, NO_DIGIT, NO_DIGIT, NO_DIGIT, NO_DIGIT, NO_DIGIT, NO_DIGIT, NO_DIGIT, NO_DIGIT,
    NO_DIGIT, NO_DIGIT, NO_DIGIT, 0, 1, 2, 3, 4, 5, 6, 7, 8, 9, NO_DIGIT, NO_DIGIT, NO_DIGIT,
    NO_DIGIT, NO_DIGIT, NO_DIGIT, NO_DIGIT, 10, 11, 12, 13, 14, 15, NO_DIGIT, NO_DIGIT, NO_DIGIT,
    NO_DIGIT, NO_DIGIT, NO_DIGIT, NO_DIGIT, NO_DIGIT, NO_DIGIT, NO_DIGIT, NO_DIGIT, NO_DIGIT,
    NO_DIGIT, NO_DIGIT, NO_DIGIT, NO_DIGIT, NO_DIGIT, NO_DIGIT, NO_DIGIT, NO_DIGIT, NO_DIGIT,
    NO_DIGIT, NO_DIGIT, NO_DIGIT, NO_DIGIT, NO_DIGIT, 10, 11, 12, 13, 14, 15, NO_DIGIT, NO_DIGIT,
    NO_DIGIT, NO_DIGIT, NO_DIGIT, NO_DIGIT, NO_DIGIT, NO_DIGIT, NO_DIGIT, NO_DIGIT, NO_DIGIT,
    NO_DIGIT, NO_DIGIT, NO_DIGIT, NO_DIGIT, NO_DIGIT, NO_DIGIT, NO_DIGIT, NO_DIGIT, NO_DIGIT,
    NO_DIGIT, NO_DIGIT, NO_DIGIT, NO_DIGIT, NO_DIGIT, NO_DIGIT, NO_DIGIT, NO_DIGIT, NO_DIGIT,
    NO_DIGIT, NO_DIGIT, NO_DIGIT, NO_DIGIT, NO_DIGIT, NO_DIGIT, NO_DIGIT, NO_DIGIT, NO_DIGIT,
    NO_DIGIT, NO_DIGIT, NO_DIGIT, NO_DIGIT, NO_DIGIT, NO_DIGIT, NO_DIGIT, NO_DIGIT, NO_DIGIT,
    NO_DIGIT, NO_DIGIT, NO_DIGIT, NO_DIGIT, NO_DIGIT, NO_DIGIT, NO_DIGIT, NO_DIGIT, NO_DIGIT,
    NO_DIGIT, NO_DIGIT, NO_DIGIT, NO_DIGIT, NO_DIGIT, NO_DIGIT, NO_DIGIT, NO_DIGIT, NO_DIGIT,
    NO_DIGIT, NO_DIGIT, NO_DIGIT, NO_DIGIT, NO_DIGIT, NO_DIGIT, NO_DIGIT, NO_DIGIT, NO_DIGIT,
    NO_DIGIT, NO_DIGIT, NO_DIGIT, NO_DIGIT, NO_DIGIT, NO_DIGIT, NO_DIGIT, NO_DIGIT, NO_DIGIT,
    NO_DIGIT, NO_DIGIT, NO_DIGIT, NO_DIGIT, NO_DIGIT, NO_DIGIT, NO_DIGIT, NO_DIGIT, NO_DIGIT,
    NO_DIGIT, NO_DIGIT, NO_DIGIT, NO_DIGIT, NO_DIGIT, NO_DIGIT, NO_DIGIT, NO_DIGIT, NO_DIGIT,
    NO_DIGIT, NO_DIGIT, NO_DIGIT, NO_DIGIT, NO_DIGIT, NO_DIGIT, NO_DIGIT, NO_DIGIT, NO_DIGIT,
    NO_DIGIT, NO_DIGIT, NO_DIGIT, NO_DIGIT, NO_DIGIT, NO_DIGIT, NO_DIGIT, NO_DIGIT, NO_DIGIT,
    NO_DIGIT, NO_DIGIT, NO_DIGIT, NO_DIGIT, NO_DIGIT, NO_DIGIT, NO_DIGIT, NO_DIGIT, NO_DIGIT,
    NO_DIGIT, NO_DIGIT, NO_DIGIT, NO_DIGIT, NO_DIGIT, NO_DIGIT, NO_DIGIT, NO_DIGIT, NO_DIGIT,
    NO_DIGIT, NO_DIGIT, NO_DIGIT, NO_DIGIT, NO_DIGIT, NO_DIGIT, NO_DIGIT, NO_DIGIT, NO_DIGIT,
    NO_DIGIT, NO_DIGIT, NO_DIGIT, NO_DIGIT, NO_DIGIT, NO_DIGIT, NO_DIGIT,
];

/// Returns the number, if it is below 2^32.
fn small(value: u64) -> Option<u32>
    ensures { result ≡ below (2 ^ 32) (Some value) }
{
    if value < 0x1_0000_0000 {
        Some(value as u32)
    } else {
        None
    }
}

/// Returns the value of a hexadecimal digit of either case, or `NO_DIGIT` for any other byte.
#[inline(always)]
fn hex_digit(byte: u8) -> u64
    ensures { IsHexDigit byte result }
{
    HEX_DIGITS[byte as usize]
}

/// Returns the number that at most eight hexadecimal digits of either case spell. Tests once, with their sum, whether each byte was a
/// digit.
#[inline(always)]
pub(crate) fn hexadecimal(digits: &[u8]) -> Option<u32>
    requires { length digits.now ≤ 8 }
    ensures { result ≡ below (2 ^ 32) (value_from 16 hex_digit_of 0 digits.now) }
{
    let mut value = 0u64;
    for byte in digits {
        value = value * 16 + hex_digit(*byte);
    }
    small(value)
}

/// Returns the number that one to ten decimal digits spell, of any size.
#[tactic(auto, unfolding(crate::specs::Numbers::decimal_of))]
fn decimal(text: &[u8]) -> Option<u64>
    ensures { result ≡ decimal_of text.now }
{
    if text.is_empty() || text.len() > 10 {
        return None;
    }
    let mut value = 0u64;
    for byte in text {
        let next = digit(*byte)?;
        value = value * 10 + u64::from(next);
    }
    Some(value)
}

/// Returns the number below 2^32 that the text spells in one to ten decimal digits, or None.
#[tactic(auto, unfolding(crate::specs::Numbers::decimal_number_of))]
pub fn decimal_number(text: &[u8]) -> Option<u32>
    ensures { result ≡ decimal_number_of text.now }
{
    let value = decimal(text)?;
    small(value)
}

/// Returns the word that the text spells in one to eight hexadecimal digits of either case, or None.
#[tactic(auto, unfolding(crate::specs::Numbers::word_of, crate::specs::Numbers::hex_of))]
pub fn word(text: &[u8]) -> Option<u32>
    ensures { result ≡ word_of text.now }
{
    if text.is_empty() || text.len() > 8 {
        return None;
    }
    hexadecimal(text)
}

/// Returns the number below 2^32 that the text spells, or None. It has one to ten decimal digits, or `0x` and one to eight hexadecimal
/// digits of either case.
#[tactic(auto, unfolding(crate::specs::Numbers::number_of, crate::specs::Numbers::word_of, crate::specs::Numbers::decimal_number_of))]
pub fn number(text: &[u8]) -> Option<u32>
    ensures { result ≡ number_of text.now }
{
    if text.len() >= 2 && text[0] == b'0' && text[1] == b'x' {
        return word(&text[2..]);
    }
    decimal_number(text)
}
