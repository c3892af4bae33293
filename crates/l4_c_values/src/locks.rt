//! Handles of locked kernels with their seats.
ghost use Rattle.std.specs.Prelude.{◌≡◌, Option, None, Some, MatchOption};
ghost use Rattle.l4_lock.specs.Locked.{Lock};
ghost use Rattle.l4_seated_lock.specs.contracts.seated.SeatedLock as inner;
ghost use Rattle.std.specs.Coded.{coded_option};

use crate::loose::Loose;
use l4_seated_lock::SeatedLock;
use std::alloc::Global;
use std::marker::Model;
use std::mem::replace;
use std::ptr::null_mut;

/// A pointer to a locked kernel with its seats, or null.
#[repr(C)]
#[derive(Drop)]
pub struct LockHandle {
    hidden: *mut u8,
    pub ghost value: { Option Lock } by { coded_option inner.the_row.coded },
}

impl Model for LockHandle {
    ghost use Rattle.l4_c_values.specs.Inside.Held.{held};
    ghost use Rattle.l4_seated_lock.specs.contracts.seated.SeatedLock as inner;

    ghost also_owns = { λ h. held inner.the_row h.hidden h.value };
}

impl LockHandle {
    /// Returns an empty handle.
    fn empty() -> LockHandle
        ensures { result.value ≡ None }
    {
        LockHandle { hidden: null_mut() }
    }

    fn of(loose: Loose<SeatedLock, Global>) -> LockHandle
        ensures { result.value ≡ Some loose.value }
    {
        let Loose { at, alloc: _ } = loose;
        LockHandle {
            hidden: at as *mut u8,
        }
    }

    fn into_loose(self, alloc: Global) -> Option<Loose<SeatedLock, Global>>
        ensures { MatchOption result (self.value ≡ None) (λ loose. self.value ≡ Some loose.value) }
    {
        let LockHandle { hidden } = self;
        if hidden.is_null() {
            None
        } else {
            Some(Loose {
                at: hidden as *mut SeatedLock,
                alloc,
            })
        }
    }

    /// Moves the locked kernel out of the handle, and leaves the handle empty. Returns `None` if the handle is empty.
    pub fn take(&mut self, alloc: Global) -> Option<Box<SeatedLock>>
        ensures taken { MatchOption result (self.old.value ≡ None)
            (λ lock. self.old.value ≡ Some lock.value) }
        ensures empty { self.new.value ≡ None }
    {
        let loose = replace(self, LockHandle::empty()).into_loose(alloc)?;
        Some(loose.into_box())
    }

    /// Puts a locked kernel into the handle, which must be empty.
    pub fn put(&mut self, lock: Box<SeatedLock>)
        requires { self.old.value ≡ None }
        ensures { self.new.value ≡ Some lock.value }
    {
        *self = LockHandle::of(Loose::of(lock));
    }
}
