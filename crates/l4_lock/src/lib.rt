//! The locked kernel: a recorded kernel, and the seats that enter calls into it.
#![tactic(auto)]

mod accounts;
mod closing;
mod entries;
mod locked;
mod past;
mod receipts;
mod refusals;
mod seats;
mod shared;
mod steps;
mod timed;

pub use closing::{Mismatch, Unclosed};
pub use entries::Receipt;
pub use l4_record::{
    Board, Entries, Entry, History, MAX_ENTRIES, MAX_HANDED_OUT, MAX_STEPS, Segment, Watch,
};
pub use locked::Locked;
pub use receipts::{Receipts, ReceiptsFrom};
pub use refusals::{Entered, LockRefusal};
pub use seats::Seat;
pub use shared::{KernelLock, LockGate};
