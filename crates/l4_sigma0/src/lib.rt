//! sigma0, the first pager. It owns all frames at first, and gives each of them to one space (L4 X.2 manual, sigma0
//! protocol).
#![tactic(auto)]

mod owners;

pub use owners::{MAX_FRAMES, Sigma0};
