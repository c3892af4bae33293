//! Handles of searches.
ghost use Rattle.std.specs.Prelude.{◌≡◌, Option, None, Some, MatchOption};
ghost use Rattle.l4_outcomes.specs.declared.searched.Searched.{Searched as ASearch};
ghost use Rattle.l4_outcomes.specs.contracts.searched.Searched as inner;
ghost use Rattle.std.specs.Coded.{coded_option};

use l4_c_values::Loose;
use l4_outcomes::Searched;
use std::alloc::Global;
use std::marker::Model;
use std::mem::replace;
use std::ptr::null_mut;

/// A pointer to a search, or null.
#[repr(C)]
#[derive(Drop)]
pub struct OrdersHandle {
    hidden: *mut u8,
    pub ghost value: { Option ASearch } by { coded_option inner.the_row.coded },
}

impl Model for OrdersHandle {
    ghost use Rattle.l4_c_values.specs.Inside.Held.{held};
    ghost use Rattle.l4_outcomes.specs.contracts.searched.Searched as inner;

    ghost also_owns = { λ h. held inner.the_row h.hidden h.value };
}

impl OrdersHandle {
    /// Returns an empty handle.
    fn empty() -> OrdersHandle
        ensures { result.value ≡ None }
    {
        OrdersHandle { hidden: null_mut() }
    }

    fn of(loose: Loose<Searched, Global>) -> OrdersHandle
        ensures { result.value ≡ Some loose.value }
    {
        let Loose { at, alloc: _ } = loose;
        OrdersHandle {
            hidden: at as *mut u8,
        }
    }

    fn into_loose(self, alloc: Global) -> Option<Loose<Searched, Global>>
        ensures { MatchOption result (self.value ≡ None) (λ loose. self.value ≡ Some loose.value) }
    {
        let OrdersHandle { hidden } = self;
        if hidden.is_null() {
            None
        } else {
            Some(Loose {
                at: hidden as *mut Searched,
                alloc,
            })
        }
    }

    /// Moves the search out of the handle, and leaves the handle empty. Returns `None` if the handle is empty.
    pub fn take(&mut self, alloc: Global) -> Option<Box<Searched>>
        ensures taken { MatchOption result (self.old.value ≡ None)
            (λ search. self.old.value ≡ Some search.value) }
        ensures empty { self.new.value ≡ None }
    {
        let loose = replace(self, OrdersHandle::empty()).into_loose(alloc)?;
        Some(loose.into_box())
    }

    /// Puts a search into the handle, which must be empty.
    pub fn put(&mut self, search: Box<Searched>)
        requires { self.old.value ≡ None }
        ensures { self.new.value ≡ Some search.value }
    {
        *self = OrdersHandle::of(Loose::of(search));
    }
}
