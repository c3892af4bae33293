//! Finds every outcome of a system whose threads may take turns in any order, each with an order that produces it.
#![tactic(auto)]

mod exploring;
mod found;
mod graph;
mod machine;
mod table;
mod watching;

pub use exploring::{Explored, GaveUp, explore};
pub use found::Found;
pub use graph::{Edge, Seen};
pub use machine::{Failure, Machine};
pub use watching::{Unwatched, Watch};
