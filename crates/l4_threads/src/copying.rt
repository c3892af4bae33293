//! Copies of a thread and of what it sends. They need no memory.

use crate::{Sending, Thread};
use std::alloc::AllocError;

impl Clone for Sending {
    ghost use Rattle.std.specs.Prelude.{◌≡◌, ⊤};

    ghost is_clone = { λ sending copy. copy ≡ sending };

    ghost is_infallible = { λ _. ⊤ };

    fn clone(&self) -> Result<Self, AllocError> {
        Ok(Sending {
            words: self.words.clone()?,
            items: self.items.clone()?,
            to: self.to,
            expires: self.expires,
            then: self.then,
            fault: self.fault,
        })
    }
}

impl Clone for Thread {
    ghost use Rattle.std.specs.Prelude.{◌≡◌, ⊤};

    ghost is_clone = { λ thread copy. copy ≡ thread };

    ghost is_infallible = { λ _. ⊤ };

    fn clone(&self) -> Result<Self, AllocError> {
        Ok(Thread {
            id: self.id,
            space: self.space,
            pager: self.pager,
            state: self.state.clone()?,
        })
    }
}
