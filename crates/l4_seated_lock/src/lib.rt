//! A locked kernel together with all the seats that it gave, by their numbers, for callers that hold all of them.
#![tactic(auto)]

mod closing;
mod faults;
mod handed;
mod places;
mod seated;

pub use faults::TraceFault;
pub use handed::HandedSegment;
pub use l4_lock::{Entered, History, LockRefusal, Mismatch, Seat, Segment};
pub use l4_record::{ChainLink, ReplayFault};
pub use seated::SeatedLock;
