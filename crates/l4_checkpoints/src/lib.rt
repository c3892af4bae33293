//! Checkpoints: the state of a kernel as a file, which is read back exactly or refused.
#![tactic(auto)]

mod building;
mod faults;
mod files;
mod headings;
mod laws;
mod pages;
mod reading;
mod states;
mod threads;

pub use faults::{CheckpointFault, CheckpointFaultKind};
pub use files::write_checkpoint;
pub use laws::checkpoints_determine_kernels;
pub use reading::{Checkpoint, read_checkpoint};
