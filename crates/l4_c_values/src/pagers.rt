//! Handles of pagers' tables.
ghost use Rattle.std.specs.Prelude.{◌≡◌, Option, None, Some, MatchOption};
ghost use Rattle.l4_pager.specs.Regions.{Regions};
ghost use Rattle.l4_pager.specs.contracts.regions.RegionPager as inner;
ghost use Rattle.std.specs.Coded.{coded_option};

use crate::loose::Loose;
use l4_pager::RegionPager;
use std::alloc::Global;
use std::marker::Model;
use std::mem::replace;
use std::ptr::null_mut;

/// A pointer to a pager's table, or null.
#[repr(C)]
#[derive(Drop)]
pub struct PagerHandle {
    hidden: *mut u8,
    pub ghost value: { Option Regions } by { coded_option inner.the_row.coded },
}

impl Model for PagerHandle {
    ghost use Rattle.l4_c_values.specs.Inside.Held.{held};
    ghost use Rattle.l4_pager.specs.contracts.regions.RegionPager as inner;

    ghost also_owns = { λ h. held inner.the_row h.hidden h.value };
}

impl PagerHandle {
    /// Returns an empty handle.
    fn empty() -> PagerHandle
        ensures { result.value ≡ None }
    {
        PagerHandle { hidden: null_mut() }
    }

    fn of(loose: Loose<RegionPager, Global>) -> PagerHandle
        ensures { result.value ≡ Some loose.value }
    {
        let Loose { at, alloc: _ } = loose;
        PagerHandle {
            hidden: at as *mut u8,
        }
    }

    fn into_loose(self, alloc: Global) -> Option<Loose<RegionPager, Global>>
        ensures { MatchOption result (self.value ≡ None) (λ loose. self.value ≡ Some loose.value) }
    {
        let PagerHandle { hidden } = self;
        if hidden.is_null() {
            None
        } else {
            Some(Loose {
                at: hidden as *mut RegionPager,
                alloc,
            })
        }
    }

    /// Moves the table out of the handle, and leaves the handle empty. Returns `None` if the handle is empty.
    pub fn take(&mut self, alloc: Global) -> Option<Box<RegionPager>>
        ensures taken { MatchOption result (self.old.value ≡ None)
            (λ table. self.old.value ≡ Some table.value) }
        ensures empty { self.new.value ≡ None }
    {
        let loose = replace(self, PagerHandle::empty()).into_loose(alloc)?;
        Some(loose.into_box())
    }

    /// Puts a table into the handle, which must be empty.
    pub fn put(&mut self, table: Box<RegionPager>)
        requires { self.old.value ≡ None }
        ensures { self.new.value ≡ Some table.value }
    {
        *self = PagerHandle::of(Loose::of(table));
    }
}
