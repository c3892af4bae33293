//! The names of a script's threads.
#![tactic(auto)]

mod names;

pub use names::{MAX_NAME, MAX_NAMES, Name, NamedThread, Names, is_name};
