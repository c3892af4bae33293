//! An outcome with an order that produces it.

/// An outcome, and an order that produces it: the threads' places, one turn after another.
#[derive(Drop)]
pub struct Found {
    pub outcome: Vec<u8>,
    pub order: Vec<usize>,
}
