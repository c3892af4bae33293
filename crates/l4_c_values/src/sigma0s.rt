//! Handles of sigma0's tables.
ghost use Rattle.std.specs.Prelude.{◌≡◌, Option, None, Some, MatchOption};
ghost use Rattle.l4_sigma0.specs.Owners.{Owners, owners_code};
ghost use Rattle.std.specs.Coded.{coded_option};

use crate::loose::Loose;
use l4_sigma0::Sigma0;
use std::alloc::Global;
use std::marker::Model;
use std::mem::replace;
use std::ptr::null_mut;

/// A pointer to sigma0's table, or null.
#[repr(C)]
#[derive(Drop)]
pub struct Sigma0Handle {
    hidden: *mut u8,
    pub ghost value: { Option Owners } by { coded_option owners_code },
}

impl Model for Sigma0Handle {
    ghost use Rattle.l4_c_values.specs.Inside.Held.{held};
    ghost use Rattle.l4_sigma0.specs.contracts.owners.Sigma0 as inner;

    ghost also_owns = { λ h. held inner.the_row h.hidden h.value };
}

impl Sigma0Handle {
    /// Returns an empty handle.
    fn empty() -> Sigma0Handle
        ensures { result.value ≡ None }
    {
        Sigma0Handle { hidden: null_mut() }
    }

    fn of(loose: Loose<Sigma0, Global>) -> Sigma0Handle
        ensures { result.value ≡ Some loose.value }
    {
        let Loose { at, alloc: _ } = loose;
        Sigma0Handle {
            hidden: at as *mut u8,
        }
    }

    fn into_loose(self, alloc: Global) -> Option<Loose<Sigma0, Global>>
        ensures { MatchOption result (self.value ≡ None) (λ loose. self.value ≡ Some loose.value) }
    {
        let Sigma0Handle { hidden } = self;
        if hidden.is_null() {
            None
        } else {
            Some(Loose {
                at: hidden as *mut Sigma0,
                alloc,
            })
        }
    }

    /// Moves the table out of the handle, and leaves the handle empty. Returns `None` if the handle is empty.
    pub fn take(&mut self, alloc: Global) -> Option<Box<Sigma0>>
        ensures taken { MatchOption result (self.old.value ≡ None)
            (λ table. self.old.value ≡ Some table.value) }
        ensures empty { self.new.value ≡ None }
    {
        let loose = replace(self, Sigma0Handle::empty()).into_loose(alloc)?;
        Some(loose.into_box())
    }

    /// Puts a table into the handle, which must be empty.
    pub fn put(&mut self, table: Box<Sigma0>)
        requires { self.old.value ≡ None }
        ensures { self.new.value ≡ Some table.value }
    {
        *self = Sigma0Handle::of(Loose::of(table));
    }
}
