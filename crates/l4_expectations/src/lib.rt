//! Scripts that state the answers that they expect: what `l4 test` does.
#![tactic(auto)]

mod copying;
mod due;
mod marks;
mod outcomes;
mod refusals;
mod testing;

pub use copying::{Copied, copy_script};
pub use marks::is_marked;
pub use outcomes::{Difference, Failure, Fault, Passed, UnexpectedRefusal};
pub use testing::{answered, test_script};
