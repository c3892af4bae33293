//! Which threads may take part in a transfer, or expire. The thread that has just begun to wait is remembered, so that no other has to be
//! examined.
ghost use Rattle.std.specs.Prelude.{◌≡◌};
ghost use Rattle.l4_threads.specs.Inside.Focused.{with_waiting, with_running};

/// The threads that may take part in a transfer, or expire.
#[derive(Clone, Copy)]
pub enum Focus {
    /// None may.
    Nobody,
    /// In each transfer the thread of this number takes part, and no other expires.
    One(u32),
    /// Any may.
    Anybody,
}

impl Focus {
    /// Returns the focus after the thread of this number has begun to wait.
    pub fn with_waiting(self, number: u32) -> Focus
        ensures { result ≡ with_waiting self number }
    {
        match self {
            Focus::Nobody => Focus::One(number),
            Focus::One(other) => {
                if other == number {
                    Focus::One(other)
                } else {
                    Focus::Anybody
                }
            }
            Focus::Anybody => Focus::Anybody,
        }
    }

    /// Returns the focus after the thread of this number has begun to run.
    pub fn with_running(self, number: u32) -> Focus
        ensures { result ≡ with_running self number }
    {
        match self {
            Focus::Nobody => Focus::Nobody,
            Focus::One(other) => {
                if other == number {
                    Focus::Nobody
                } else {
                    Focus::One(other)
                }
            }
            Focus::Anybody => Focus::Anybody,
        }
    }
}
