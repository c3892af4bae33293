//! The progress of a search, on standard error.

use l4_orders::Watch;
use std::time::{Clock, Instant};

/// Prints each second how far a search is. Prints nothing if standard error is not a terminal, or the clock cannot be read.
#[derive(Drop)]
pub(crate) struct Progress<'a, R> {
    rt: &'a R,
    last: Option<Instant>,
}

impl<'a, R: Clock + Eprint> Progress<'a, R> {
    /// Starts with the first second. `terminal` says whether standard error is a terminal.
    pub(crate) fn new(rt: &'a R, terminal: bool) -> Progress<'a, R> {
        Progress {
            rt,
            last: if terminal {
                Instant::now(rt).ok()
            } else {
                None
            },
        }
    }
}

impl<'a, R: Clock + Eprint> Watch for Progress<'a, R> {
    fn report(&mut self, states: usize, outcomes: usize) {
        let Some(last) = self.last else {
            return;
        };
        match last.elapsed(self.rt) {
            Ok(passed) => {
                if passed.as_secs() == 0 {
                    return;
                }
            }
            Err(_) => return,
        }
        let _ = eprintln!(self.rt; "searched: {states} states, found: {outcomes} outcomes");
        self.last = Instant::now(self.rt).ok();
    }
}
