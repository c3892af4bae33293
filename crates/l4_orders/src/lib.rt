//! Every order in which the threads of a script can execute their lines, and the outcomes: what `l4 orders` does.
#![tactic(auto)]

mod codes;
mod executing;
mod lacking;
mod laws;
mod numbers;
mod orders;
mod parts;
mod plans;
mod possible;
mod reading;
mod refused;
mod replaying;
mod rules;
mod states;
mod stuck;
mod telling;

pub use codes::line_code;
pub use l4_merges::{Edge, Explored, Found, GaveUp, Seen, Unwatched, Watch};
pub use laws::outcome_is_unique;
pub use numbers::put_number;
pub use orders::{all_orders, watched_orders};
pub use parts::{LineFault, PlanFault};
pub use plans::{Block, Plan, PlanLine};
pub use reading::read_plan;
pub use rules::{breaks_any, broken_rules, rules_text};
pub use telling::{OrderStyle, line_numbers, orders_text, summary_text, witness_text};
