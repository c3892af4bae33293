//! The numbers of the spaces, in rising order.

ghost use Rattle.std.specs.Prelude.{◌≡◌, MatchOption};
ghost use Rattle.l4_spaces.specs.Inside.Leasts.{least_with};

use crate::Spaces;

/// Returns the least of the numbers so far that are not below `from`, and of this one.
fn least_with(from: u64, least: Option<u64>, number: u64) -> Option<u64>
    ensures { result ≡ least_with from least number }
{
    if number < from {
        return least;
    }
    match least {
        Some(other) => {
            if other < number {
                Some(other)
            } else {
                Some(number)
            }
        }
        None => Some(number),
    }
}

impl Spaces {
    ghost use Rattle.l4_spaces.specs.Listed.{NoSpaceFrom, IsNextSpace};

    /// Returns the least number of a space that is not below `from`, or None. Visits all spaces.
    #[tactic(auto, using(crate::proofs::NextSpace::leasts))]
    pub fn next_space(&self, from: u64) -> Option<u64>
        ensures { MatchOption result (NoSpaceFrom self.now.spaces from)
            (IsNextSpace self.now.spaces from) }
    {
        let mut least = None;
        for entry in &self.spaces {
            least = least_with(from, least, entry.0);
        }
        least
    }
}
