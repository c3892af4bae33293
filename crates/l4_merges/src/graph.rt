//! The graph of the states that a search visits.

use l4_naturals::Natural;

/// A turn in a state: the thread that takes it, the name of the turn, and the place of the state that it leads to.
#[derive(Clone, Copy, Drop)]
pub struct Edge {
    pub thread: usize,
    pub name: u64,
    pub to: usize,
}

/// A state from which everything was searched: its key, the number of orders from it, and the turns that its threads can take. If no thread can
/// take one, `end` is the place of the state's outcome among those that were found.
#[derive(Drop)]
pub struct Seen {
    pub key: Vec<u32>,
    pub orders: Natural,
    pub edges: Vec<Edge>,
    pub end: Option<usize>,
}
