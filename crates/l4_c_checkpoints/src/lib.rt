//! Checkpoints of kernels, for C. `include/l4.h` declares these functions, and states ranges and refusals.
#![tactic(auto)]

mod reading;
mod writing;

pub use reading::{CheckpointResult, l4_checkpoint_read};
pub use writing::l4_checkpoint_write;
