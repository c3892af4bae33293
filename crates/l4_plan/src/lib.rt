//! The shortest list of map items that moves a region, in the fewest messages.
#![tactic(auto)]

mod pages;
mod planner;
mod plans;
mod splitting;

pub use l4_msg::{MAX_PLAN_ITEMS, MAX_PLAN_MESSAGES, TOO_MANY};
pub use pages::Pages;
pub use planner::plan;
pub use plans::{Plan, PlanRefusal};
