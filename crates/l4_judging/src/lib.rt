//! Another kernel's answers to steps and queries, compared with this kernel's.
#![tactic(auto)]

mod calls;
mod ending;
mod expected;
mod judging;
mod reports;
mod requests;
mod watching;

pub use judging::{JudgeFault, Wanted, judge};
pub use requests::read_requests;
pub use watching::{Difference, Judgement, Unjudged, execute_step, judge_step};
