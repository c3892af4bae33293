//! Plans and checks of plans as lines of text: the output of `l4 plan`, and the input and the output of `l4 check`.
#![tactic(auto)]

mod answers;
mod checking;
mod claims;
mod found;
mod laws;
mod lines;
mod planning;
mod reading;

pub use answers::Answer;
pub use checking::{answer_lines, check_lines};
pub use found::{LineFault, WrongLine};
pub use l4_text::RunFault;
pub use laws::{answer_is_unique, plan_text_is_unique};
pub use planning::plan_lines;
