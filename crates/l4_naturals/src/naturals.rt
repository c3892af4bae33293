//! A natural number.
ghost use Rattle.std.specs.Prelude.{◌≡◌, ◌+◌, ◌++◌, ◌==◌, min, IfOk, OnOk};
ghost use Rattle.l4_naturals.specs.Numerals.{most_u64, numeral};

use crate::digits::{bounded, put_digits, sum_of};
use std::alloc::{AllocError, Global};
use std::marker::Model;

/// A natural number of any size.
#[derive(Drop)]
pub struct Natural {
    digits: Vec<u8>,
}

impl Model for Natural {
    ghost use Rattle.std.specs.Prelude.{ℕ};
    ghost use Rattle.l4_naturals.specs.Numerals.{value};
    ghost use Rattle.l4_naturals.specs.Inside.Digits.{AreDigits};

    ghost Value = { ℕ };

    ghost view = { λ n. value n.digits.items };

    ghost invariant = { λ n. AreDigits n.digits.items };
}

impl Natural {
    /// Returns 0.
    pub fn zero(alloc: Global) -> Natural
        ensures { result ≡ 0 }
    {
        Natural {
            digits: Vec::new(alloc),
        }
    }

    /// Returns 1. Returns `AllocError` if an allocation fails.
    pub fn one(alloc: Global) -> Result<Natural, AllocError>
        ensures { IfOk result (λ n. n ≡ 1) }
    {
        let mut digits = Vec::new(alloc);
        digits.push(1u8)?;
        Ok(Natural { digits })
    }

    /// Returns the sum of this number and another one. Returns `AllocError` if an allocation fails.
    pub fn plus(&self, alloc: Global, other: &Natural) -> Result<Natural, AllocError>
        ensures { IfOk result (λ n. n ≡ self.now + other.now) }
    {
        let digits = sum_of(alloc, self.digits.as_slice(), other.digits.as_slice())?;
        Ok(Natural { digits })
    }

    /// Returns a copy of the number. Returns `AllocError` if an allocation fails.
    pub fn copy(&self, alloc: Global) -> Result<Natural, AllocError>
        ensures { IfOk result (λ n. n ≡ self.now) }
    {
        let digits = Vec::from_slice(alloc, self.digits.as_slice())?;
        Ok(Natural { digits })
    }

    /// Returns whether the number is 1.
    pub fn is_one(&self) -> bool
        ensures { result ≡ (self.now == 1) }
    {
        self.to_u64() == 1
    }

    /// Returns the number, or 2^64 - 1 if it is greater.
    pub fn to_u64(&self) -> u64
        ensures { result ≡ min self.now most_u64 }
    {
        bounded(self.digits.as_slice())
    }

    /// Appends the number in decimal. Returns `AllocError` if an allocation fails; what was appended is then unspecified.
    pub fn put_decimal(&self, out: &mut Vec<u8>) -> Result<(), AllocError>
        ensures { OnOk result (out.new.items ≡ out.old.items ++ numeral self.now) }
    {
        put_digits(self.digits.as_slice(), out)
    }
}
