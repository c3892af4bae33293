//! The exit statuses of searches.
ghost use Rattle.std.specs.Prelude.{◌≡◌};
ghost use Rattle.l4_orders.specs.Rules.{breaks_any};
ghost use Rattle.l4_litmus.specs.Statuses.{orders_status, ruled_status};

use l4_orders::{Explored, GaveUp, Plan, breaks_any};
use l4_programs::NO_MEMORY;

/// The exit status if not every order was followed.
const INCOMPLETE: u8 = 1;

/// The exit status if an outcome breaks a rule of the test.
const BROKEN: u8 = 1;

/// Returns the exit status of a search.
fn search_status(explored: &Explored) -> u8
    ensures { result ≡ orders_status explored.now.ended }
{
    match explored.ended {
        Ok(()) => 0,
        Err(GaveUp::Bound) | Err(GaveUp::Full) => INCOMPLETE,
        Err(GaveUp::Memory) => NO_MEMORY,
    }
}

/// Returns the exit status of a search, by whether an outcome breaks a rule of the test.
pub fn ruled_status(plan: &Plan, explored: &Explored) -> u8
    ensures { result
        ≡ ruled_status (breaks_any plan.now explored.now.found.items) explored.now.ended }
{
    if breaks_any(plan, explored.found.as_slice()) {
        return BROKEN;
    }
    search_status(explored)
}
