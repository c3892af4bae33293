//! Handles of segments of a history.
ghost use Rattle.std.specs.Prelude.{◌≡◌, Option, None, Some, MatchOption};
ghost use Rattle.l4_seated_lock.specs.declared.handed.HandedSegment.{HandedSegment as ASegment};
ghost use Rattle.l4_seated_lock.specs.contracts.handed.HandedSegment as inner;
ghost use Rattle.std.specs.Coded.{coded_option};

use crate::loose::Loose;
use l4_seated_lock::HandedSegment;
use std::alloc::Global;
use std::marker::Model;
use std::mem::replace;
use std::ptr::null_mut;

/// A pointer to a segment of a history, or null.
#[repr(C)]
#[derive(Drop)]
pub struct SegmentHandle {
    hidden: *mut u8,
    pub ghost value: { Option ASegment } by { coded_option inner.the_row.coded },
}

impl Model for SegmentHandle {
    ghost use Rattle.l4_c_values.specs.Inside.Held.{held};
    ghost use Rattle.l4_seated_lock.specs.contracts.handed.HandedSegment as inner;

    ghost also_owns = { λ h. held inner.the_row h.hidden h.value };
}

impl SegmentHandle {
    /// Returns an empty handle.
    fn empty() -> SegmentHandle
        ensures { result.value ≡ None }
    {
        SegmentHandle { hidden: null_mut() }
    }

    fn of(loose: Loose<HandedSegment, Global>) -> SegmentHandle
        ensures { result.value ≡ Some loose.value }
    {
        let Loose { at, alloc: _ } = loose;
        SegmentHandle {
            hidden: at as *mut u8,
        }
    }

    fn into_loose(self, alloc: Global) -> Option<Loose<HandedSegment, Global>>
        ensures { MatchOption result (self.value ≡ None) (λ loose. self.value ≡ Some loose.value) }
    {
        let SegmentHandle { hidden } = self;
        if hidden.is_null() {
            None
        } else {
            Some(Loose {
                at: hidden as *mut HandedSegment,
                alloc,
            })
        }
    }

    /// Moves the segment out of the handle, and leaves the handle empty. Returns `None` if the handle is empty.
    pub fn take(&mut self, alloc: Global) -> Option<Box<HandedSegment>>
        ensures taken { MatchOption result (self.old.value ≡ None)
            (λ segment. self.old.value ≡ Some segment.value) }
        ensures empty { self.new.value ≡ None }
    {
        let loose = replace(self, SegmentHandle::empty()).into_loose(alloc)?;
        Some(loose.into_box())
    }

    /// Puts a segment into the handle, which must be empty.
    pub fn put(&mut self, segment: Box<HandedSegment>)
        requires { self.old.value ≡ None }
        ensures { self.new.value ≡ Some segment.value }
    {
        *self = SegmentHandle::of(Loose::of(segment));
    }
}
