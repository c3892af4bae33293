//! Litmus tests whose orders were searched.

use l4_orders::{Explored, Plan};

/// A litmus test, and what the search of its orders found.
#[derive(Drop)]
pub struct Searched {
    pub plan: Plan,
    pub explored: Explored,
}
