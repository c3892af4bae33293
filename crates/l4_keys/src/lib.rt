//! The words by which a state of a kernel, of its servers and of names is recognized: two states with the same words are equal.
#![tactic(auto)]

mod kernels;
mod laws;
mod names;
mod parts;
mod servers;

pub use kernels::put_kernel;
pub use laws::{words_determine_kernels, words_determine_names, words_determine_servers};
pub use names::put_names;
pub use parts::{put_counted, put_counts};
pub use servers::put_servers;
