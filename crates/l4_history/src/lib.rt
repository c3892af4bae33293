//! Answers to scripts with annotations, the history of a script as a step list, and how a page of a
//! history got to its place.
#![tactic(auto)]

mod absences;
mod annotating;
mod asking;
mod lines;
mod moves;
mod telling;

pub use annotating::{Annotations, annotated_script};
pub use asking::{Presence, Question, ThreadPage, WhyResult, why, why_page};
pub use telling::{answered_history, history};
