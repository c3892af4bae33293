//! What a thread does next: its call ends, or a phase of its call begins (L4 X.2 manual, Ipc).
#![tactic(auto)]

mod starting;
mod turns;
mod waits;

pub use starting::{end, enter, going_on, partner};
pub use turns::{Ending, Next, Sent, Turn};
pub use waits::{end_wait, list_if};
