//! The outcomes of all orders of a plan, for C. `include/l4.h` declares these functions, and states ranges and refusals.
#![tactic(auto)]

mod handles;
mod outcomes;
mod searching;

pub use handles::OrdersHandle;
pub use outcomes::{
    CountResult, FoundResult, l4_orders_answers, l4_orders_broken, l4_orders_found,
    l4_orders_lines, l4_orders_number, l4_orders_witness,
};
pub use searching::{l4_orders_free, l4_orders_search, l4_orders_search_sized};
