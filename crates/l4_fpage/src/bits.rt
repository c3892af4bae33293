ghost use Rattle.std.specs.Prelude.{⊤, ◌≡◌, ◌==◌, ◌%◌, ◌<◌, ◌↔◌, [], ◌∷◌, codes, IsTrue};
ghost use Rattle.l4_fpage.specs.Rights.{all_rights, common, either, without, is_none, Within, set_of_bits, bits_of};

use bitflags::{Flag, Flags, bitflag_items};
use std::marker::Model;

/// The bits of a set of rights: read is 4, write 2, execute 1. Other bits may be set.
#[derive(Clone, Copy, PartialEq, Eq, Debug)]
pub struct RightBits(u8);

bitflag_items! {
    impl RightBits: u8 {
        const R = 4;
        const W = 2;
        const X = 1;
    }
}

impl Flags for RightBits {
    type Bits = u8;

    ghost exact = { ⊤ };

    ghost table = { (codes "R", 4) ∷ (codes "W", 2) ∷ (codes "X", 1) ∷ [] };

    ghost set_of = { λ r. r.0 };

    fn flags<'a>() -> &'a [Flag<RightBits>] {
        RightBits::FLAGS
    }

    fn bits(&self) -> u8 {
        self.0
    }

    fn from_bits_retain(bits: u8) -> RightBits {
        RightBits(bits)
    }
}

/// The rights to a page: a set of read, write and execute (L4 X.2 manual, Fpages).
#[derive(Clone, Copy, PartialEq, Eq, Debug)]
pub struct Rights {
    set: RightBits,
}

impl Model for Rights {
    ghost use Rattle.std.specs.Prelude.{◌<◌};
    ghost use Rattle.l4_fpage.specs.Rights.{RightsSet, rights_code, set_of_bits, bits_of};

    ghost Value = { RightsSet };

    ghost coded = { rights_code };

    ghost view = { λ a. set_of_bits a.set.0 };

    ghost invariant = { λ a. a.set.0 < 8 };

    ghost inverse = { λ s. record { set = record { 0 = bits_of s } } };
}

impl Rights {
    /// The right to read.
    pub const R: Rights = Rights { set: RightBits(4) };

    /// The right to write.
    pub const W: Rights = Rights { set: RightBits(2) };

    /// The right to execute.
    pub const X: Rights = Rights { set: RightBits(1) };

    /// Returns the three rights, each alone: read, write, execute.
    pub fn each() -> [Rights; 3]
        ensures { result ≡ set_of_bits 4 ∷ set_of_bits 2 ∷ set_of_bits 1 ∷ [] }
    {
        [Rights::R, Rights::W, Rights::X]
    }

    /// Returns the rights that the low three bits name: read is 4, write 2, execute 1. The other bits are ignored.
    pub fn of_bits(bits: u8) -> Rights
        ensures { result ≡ set_of_bits bits }
    {
        Rights {
            set: RightBits(bits & 7),
        }
    }

    /// Returns all three rights.
    pub fn all() -> Rights
        ensures { result ≡ all_rights }
    {
        Rights { set: RightBits(7) }
    }

    /// Returns the bits of the set, below 8: read is 4, write 2, execute 1.
    pub fn bits(&self) -> u8
        ensures { result ≡ bits_of self.now }
    {
        self.set.bits()
    }

    /// Returns whether the set is empty.
    pub fn is_empty(&self) -> bool
        ensures { result ≡ is_none self.now }
    {
        self.set.is_empty()
    }

    /// Returns whether this set contains every right of the other one.
    pub fn contains(self, other: Rights) -> bool
        ensures lacks { result ≡ is_none (without other self) }
        ensures within { IsTrue result ↔ Within other self }
    {
        self.set.contains(other.set)
    }

    /// Returns the rights that are in both sets.
    pub fn intersection(self, other: Rights) -> Rights
        ensures { result ≡ common self other }
    {
        Rights {
            set: self.set.intersection(other.set),
        }
    }

    /// Returns the rights that are in either set.
    pub fn union(self, other: Rights) -> Rights
        ensures { result ≡ either self other }
    {
        Rights {
            set: self.set.union(other.set),
        }
    }

    /// Returns the rights of this set that are not in the other one.
    pub fn difference(self, other: Rights) -> Rights
        ensures { result ≡ without self other }
    {
        Rights {
            set: self.set.difference(other.set),
        }
    }
}
