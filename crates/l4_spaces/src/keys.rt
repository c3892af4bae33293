//! A key or none, in four bytes. Page tables and nodes store keys in this form.

ghost use Rattle.std.specs.Prelude.{◌≡◌, Some, None, is_some};
ghost use Rattle.l4_spaces.specs.Keys.{IsKey};

use std::marker::Model;

/// The number that represents no key. All keys are below it.
pub const NO_KEY: u32 = u32::MAX;

/// A key or none, in four bytes.
#[derive(Clone, Copy)]
pub struct Link {
    number: u32,
}

impl Model for Link {
    ghost use Rattle.std.specs.Prelude.{ℕ, Option, is_some};
    ghost use Rattle.std.specs.Coded.{coded_ℕ, coded_option};

    ghost Value = { Option ℕ };

    ghost coded = { coded_option coded_ℕ };

    ghost use Rattle.l4_spaces.specs.Inside.Keys.{key_shown, shows_as, gives_back};

    ghost view = { key_shown };

    ghost inverse = { shows_as };

    ghost inverse_ok = { λ a h. gives_back a };
}

impl Link {
    /// Returns the link to no key.
    pub fn none() -> Link
        ensures { result ≡ None }
    {
        Link { number: NO_KEY }
    }

    /// Returns the link to this key.
    pub fn to(key: usize) -> Link
        requires { IsKey key }
        ensures { result ≡ Some key }
    {
        Link { number: key as u32 }
    }

    /// Returns whether this is the link to a key.
    #[inline]
    pub fn is_some(self) -> bool
        ensures { result ≡ is_some self }
    {
        self.number != NO_KEY
    }

    /// Returns the key, or None for a link to no key.
    #[inline]
    pub fn key(self) -> Option<usize>
        ensures { result ≡ self }
    {
        if self.number == NO_KEY {
            return None;
        }
        Some(self.number as usize)
    }
}
