//! Decimal digits, the lowest first.
ghost use Rattle.std.specs.Prelude.{◌≡◌, ◌+◌, ◌<◌, ◌++◌, min, get_or, IfOk, OnOk};
ghost use Rattle.l4_naturals.specs.Numerals.{most_u64, value, numeral};
ghost use Rattle.l4_naturals.specs.Inside.Digits.{AreDigits};

use std::alloc::{AllocError, Global};

/// Returns the digit at a place, or 0 if there is none.
fn digit_at(digits: &[u8], place: usize) -> u8
    requires { AreDigits digits.now }
    ensures is { result ≡ get_or digits.now place 0 }
    ensures low { result < 10 }
{
    if place < digits.len() {
        return digits[place];
    }
    0
}

/// Returns the digits of the sum of two numbers.
pub(crate) fn sum_of(alloc: Global, a: &[u8], b: &[u8]) -> Result<Vec<u8>, AllocError>
    requires a { AreDigits a.now }
    requires b { AreDigits b.now }
    ensures digits { IfOk result (λ sum. AreDigits sum.items) }
    ensures value { IfOk result (λ sum. value sum.items ≡ value a.now + value b.now) }
{
    let mut digits = Vec::new(alloc);
    let mut carry = 0u8;
    let places = a.len().max(b.len());
    for place in 0..places {
        let sum = digit_at(a, place) + digit_at(b, place) + carry;
        digits.push(sum % 10)?;
        carry = sum / 10;
    }
    if carry == 0 {
        return Ok(digits);
    }
    digits.push(carry)?;
    Ok(digits)
}

/// Appends a number in decimal.
pub(crate) fn put_digits(digits: &[u8], out: &mut Vec<u8>) -> Result<(), AllocError>
    requires { AreDigits digits.now }
    ensures { OnOk result (out.new.items ≡ out.old.items ++ numeral (value digits.now)) }
{
    let count = digits.len();
    if count == 0 {
        out.push(b'0')?;
        return Ok(());
    }
    for done in 0..count {
        let place = count - done - 1;
        out.push(48 + digit_at(digits, place))?;
    }
    Ok(())
}

/// Returns the number, or 2^64 - 1 if it is greater.
pub(crate) fn bounded(digits: &[u8]) -> u64
    requires { AreDigits digits.now }
    ensures { result ≡ min (value digits.now) most_u64 }
{
    let count = digits.len();
    let mut number = 0u64;
    for done in 0..count {
        let place = count - done - 1;
        number = number
            .saturating_mul(10)
            .saturating_add(u64::from(digit_at(digits, place)));
    }
    number
}
