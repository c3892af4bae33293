//! Litmus tests for the program `l4`: reads them, searches all their orders, prints what it finds, and returns the exit status.
#![tactic(auto)]

mod faults;
mod first_line;
mod ordered;
mod progress;
mod reading;
mod rules;
mod statuses;

pub use faults::{TestFault, not_searched, report_fault};
pub use first_line::{WRONG_OPTIONS, options_line, options_of};
pub use ordered::print_orders;
pub use reading::read_test;
pub use statuses::ruled_status;
