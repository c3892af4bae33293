//! Lists of kernel steps in any order, with their answers.
#![tactic(auto)]

mod answers;
mod asked;
mod laws;
mod numbers;
mod requests;
mod running;
mod session;
mod stops;

pub use answers::next_text;
pub use asked::put_step;
pub use laws::the_line_of_a_step_reads_back;
pub use requests::{Request, read_request};
pub use running::{Fault, run};
pub use session::{answer, is_silent, put_answer};
pub use stops::unread_reason;
