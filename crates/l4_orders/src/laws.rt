//! The law of outcomes.
ghost use Rattle.l4_orders.specs.Orders.{OneOutcome};

/// Ghost function: gives a proof that an order of a plan that was read from a file has one outcome. It compiles to nothing.
pub fn outcome_is_unique()
    ensures { OneOutcome }
{}
