//! Natural numbers of any size.
#![tactic(auto)]

mod digits;
mod naturals;

pub use naturals::Natural;
