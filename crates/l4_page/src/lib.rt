//! The commands of the program `l4` for a page in a browser. Each export takes bytes, and writes a text.
#![tactic(auto)]

mod causing;
mod given;
mod outcomes;
mod planning;
mod printing;
mod running;
mod stepping;
mod telling;
mod testing;
mod tracing;
mod words;

pub use causing::page_causes;
pub use outcomes::{OutcomesTold, SearchGiven, page_orders};
pub use planning::{page_check, page_plan};
pub use printing::page_orders_text;
pub use running::{page_annotate, page_explain, page_history, page_run};
pub use stepping::page_steps;
pub use telling::Told;
pub use testing::{TestTold, page_test};
pub use tracing::page_why;
pub use words::page_decode;
