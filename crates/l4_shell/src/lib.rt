//! Scripts of kernel calls: what `l4 run` does.
#![tactic(auto)]

mod answering;
mod by_lines;
mod delegations;
mod laws;
mod line_by_line;
mod recording;
mod refusals;
mod running;
mod segments;
mod serving;
mod session;

pub use by_lines::ScriptRun;
pub use l4_text::RunFault;
pub use laws::{a_line_leads_to_one_state, the_history_never_fills_up, the_size_of_pages_stays};
pub use recording::record;
pub use running::run;
