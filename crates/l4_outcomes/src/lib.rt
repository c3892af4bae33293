//! What the search of a litmus test's orders found, and why there is no search: in the form in which other languages get it.
#![tactic(auto)]

mod counts;
mod faults;
mod searched;
mod searching;

pub use counts::{SearchCounts, counts_of};
pub use faults::{SearchResult, without_line};
pub use searched::Searched;
pub use searching::search;
