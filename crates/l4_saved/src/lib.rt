//! The history in files of segments: as a step list, and how a page got to its place.
#![tactic(auto)]

mod entries;
mod following;
mod pages;
mod telling;

pub use following::HistoryFault;
pub use pages::segments_why;
pub use telling::segments_history;
