//! Handles of kernels.
ghost use Rattle.std.specs.Prelude.{◌≡◌, Option, None, Some, MatchOption};
ghost use Rattle.l4_ipc.specs.Machine.{Machine, machine_code};
ghost use Rattle.l4_threads.specs.contracts.Thread as thread;
ghost use Rattle.std.specs.Coded.{coded_option};

use crate::loose::Loose;
use l4_ipc::Kernel;
use std::alloc::Global;
use std::marker::Model;
use std::mem::replace;
use std::ptr::null_mut;

/// A pointer to a kernel, or null.
#[repr(C)]
#[derive(Drop)]
pub struct KernelHandle {
    hidden: *mut u8,
    pub ghost value: { Option Machine } by { coded_option (machine_code thread.the_row.coded) },
}

impl Model for KernelHandle {
    ghost use Rattle.l4_c_values.specs.Inside.Held.{held};
    ghost use Rattle.l4_ipc.specs.contracts.kernel.Kernel as kernel;

    ghost also_owns = { λ h. held kernel.the_row h.hidden h.value };
}

impl KernelHandle {
    /// Returns an empty handle.
    fn empty() -> KernelHandle
        ensures { result.value ≡ None }
    {
        KernelHandle { hidden: null_mut() }
    }

    fn of(loose: Loose<Kernel, Global>) -> KernelHandle
        ensures { result.value ≡ Some loose.value }
    {
        let Loose { at, alloc: _ } = loose;
        KernelHandle {
            hidden: at as *mut u8,
        }
    }

    fn into_loose(self, alloc: Global) -> Option<Loose<Kernel, Global>>
        ensures { MatchOption result (self.value ≡ None) (λ loose. self.value ≡ Some loose.value) }
    {
        let KernelHandle { hidden } = self;
        if hidden.is_null() {
            None
        } else {
            Some(Loose {
                at: hidden as *mut Kernel,
                alloc,
            })
        }
    }

    /// Moves the kernel out of the handle, and leaves the handle empty. Returns `None` if the handle is empty.
    pub fn take(&mut self, alloc: Global) -> Option<Box<Kernel>>
        ensures taken { MatchOption result (self.old.value ≡ None)
            (λ kernel. self.old.value ≡ Some kernel.value) }
        ensures empty { self.new.value ≡ None }
    {
        let loose = replace(self, KernelHandle::empty()).into_loose(alloc)?;
        Some(loose.into_box())
    }

    /// Puts a kernel into the handle, which must be empty.
    pub fn put(&mut self, kernel: Box<Kernel>)
        requires { self.old.value ≡ None }
        ensures { self.new.value ≡ Some kernel.value }
    {
        *self = KernelHandle::of(Loose::of(kernel));
    }
}
