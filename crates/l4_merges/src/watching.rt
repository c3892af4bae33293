//! Reports on a search while it runs.

/// Gets a report each time that everything was searched from one more state.
pub trait Watch {
    /// Takes a report: everything was searched from this many states, and this many outcomes were found.
    fn report(&mut self, states: usize, outcomes: usize);
}

/// Ignores all reports.
#[derive(Drop)]
pub struct Unwatched;

impl Watch for Unwatched {
    fn report(&mut self, _states: usize, _outcomes: usize) {}
}
