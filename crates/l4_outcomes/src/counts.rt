//! How searches ended, in numbers.
ghost use Rattle.std.specs.Prelude.{◌≡◌};
ghost use Rattle.l4_outcomes.specs.Counts.{end_number, counted_orders, counts_of};

use l4_orders::{Explored, GaveUp};

/// How a search ended, and the numbers of outcomes that it found, of all orders, and of states that it visited.
#[repr(C)]
#[derive(Clone, Copy)]
pub struct SearchCounts {
    /// 1 if every order was followed. The search ended early with 2 if it had visited as many states as it may, 3 if memory ran out, and 4 if
    /// the history of an order was full.
    pub ended: u32,
    pub outcomes: u64,
    /// 0 if the search ended early, and 2^64 - 1 if there are more orders.
    pub orders: u64,
    pub states: u64,
}

/// Returns how a search ended, as a number.
fn end_number(explored: &Explored) -> u32
    ensures { result ≡ end_number explored.now.ended }
{
    match explored.ended {
        Ok(()) => 1,
        Err(GaveUp::Bound) => 2,
        Err(GaveUp::Memory) => 3,
        Err(GaveUp::Full) => 4,
    }
}

/// Returns the number of orders, at most 2^64 - 1, or 0 if the search ended early.
fn counted_orders(explored: &Explored) -> u64
    ensures { result ≡ counted_orders explored.now.ended explored.now.orders }
{
    match explored.ended {
        Ok(()) => explored.orders.to_u64(),
        Err(_) => 0,
    }
}

/// Returns how a search ended, and what it counted.
pub fn counts_of(explored: &Explored) -> SearchCounts
    ensures { result ≡ counts_of explored.now }
{
    SearchCounts {
        ended: end_number(explored),
        outcomes: explored.found.len() as u64,
        orders: counted_orders(explored),
        states: explored.states,
    }
}
