//! The sink that writes a script's answers as text, up to the first refused line or each with its explanation.
#![tactic(auto)]

mod reasons;
mod scripts;
mod sentences;
mod silent;
mod stops;
mod teller;

pub use reasons::LineRefusal;
pub use scripts::{Ended, Outputs, Style, answer_script, first_refusal, record_script};
pub use stops::{Expected, Stop, stop_of};
pub use teller::Teller;
