//! Served threads: which threads they are, the table that each one answers from, and the next call of each.
#![tactic(auto)]

mod served;
mod servers;

pub use servers::{RegionRefusal, Servers};
