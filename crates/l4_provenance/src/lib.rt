//! Finds how a page got to where it is.
#![tactic(auto)]

mod finding;
mod histories;
mod moves;
mod removing;
mod replaying;
mod writing;

pub use finding::provenance;
pub use histories::Replayable;
pub use l4_record::{ChainLink, ReplayFault};
pub use moves::{MovedPage, next_move};
pub use removing::{Removal, last_removal};
pub use replaying::{repeat_entry, replay};
