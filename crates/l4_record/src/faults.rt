//! The reasons why a history cannot be replayed.

/// The reason why a history cannot be replayed on a second kernel.
#[derive(Clone, Copy, Debug, PartialEq, Eq)]
pub enum ReplayFault {
    /// The number of frames is not from 1 to 4,096.
    BadFrames,
    /// An allocation failed.
    NoMemory,
    /// The step of the entry with this number, from 0, got another answer than the history says. This happens to a
    /// transfer that ran out of memory when it was recorded, and finds memory now.
    OtherAnswer(usize),
}
