//! Lines of bytes from a reader, tokens, numbers, texts of bounded length, and bytes to a writer.
#![tactic(auto)]

mod failing;
mod faults;
mod first_numbers;
mod kept;
mod lines;
mod numbers;
mod output;
mod sources;
mod texts;
mod tokens;

pub use failing::{Drip, Sip};
pub use faults::RunFault;
pub use first_numbers::{next_number, quick_number};
pub use lines::{Ending, LineReader};
pub use numbers::{decimal_number, number, word};
pub use output::{Output, write_out};
pub use sources::ScriptReader;
pub use texts::Text;
pub use tokens::{after_name, after_spaced_name, last_three, next_token};
