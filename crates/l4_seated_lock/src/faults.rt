//! Why the provenance of a page is not found.

use l4_record::ReplayFault;

/// The reason why a locked kernel does not find the provenance of a page, or does not check one.
#[derive(Clone, Copy, Debug, PartialEq, Eq)]
pub enum TraceFault {
    /// L8: entries were handed out, so the lock cannot replay the history from boot.
    HandedOut,
    /// The history cannot be replayed.
    Replay(ReplayFault),
}
