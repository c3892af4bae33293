//! Checks a list of links that is claimed to be the provenance of a page.
#![tactic(auto)]

mod carrying;
mod checks;
mod passing;

pub use checks::check_provenance;
pub use l4_record::{ChainLink, ReplayFault};
