ghost use Rattle.std.specs.Prelude.{◌≡◌, Some, MatchOption};
ghost use Rattle.l4_text.specs.Tokens.{tokens_of};
ghost use Rattle.l4_text.specs.Grammar.{numbers_of};
ghost use Rattle.l4_step_lines.specs.Inside.Numbers.{HaveNoFew};

use arrayvec::ArrayVec;
use l4_ipc::MAX_WORDS;
use l4_text::{next_number, next_token};

/// The most numbers that follow the words of a line: the two threads, timeouts and window of an Ipc, and its message registers.
pub(crate) const MOST_NUMBERS: usize = 4 + MAX_WORDS;

/// The numbers to the end of a line, at most as many as an Ipc has.
pub(crate) fn numbers(line: &[u8]) -> Option<ArrayVec<u32, MOST_NUMBERS>>
    ensures { MatchOption result (HaveNoFew (tokens_of line.now))
        (λ ns. numbers_of (tokens_of line.now) ≡ Some ns.items) }
{
    let mut numbers = ArrayVec::new();
    let mut rest = line;
    for count in 0..MOST_NUMBERS {
        match next_number(rest) {
            None => {
                return Some(numbers);
            }
            Some((value, after)) => {
                numbers.push(value?);
                rest = after;
            }
        }
    }
    match next_token(rest) {
        None => Some(numbers),
        Some(_) => None,
    }
}
