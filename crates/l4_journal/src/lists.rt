//! Lists as words. A list either ends the words, or follows its length.
ghost use Rattle.std.specs.Prelude.{◌≡◌};
ghost use Rattle.l4_journal.specs.Words.{Gives};
ghost use Rattle.l4_journal.specs.Reading.{list_at, counted_at};

use crate::words::{Words, read_word, read_words};
use arrayvec::ArrayVec;

/// Reads a list of all remaining words. Returns None if there are more than its type has room for.
#[tactic(auto, unfolding(crate::specs::Reading::list_at))]
pub(crate) fn read_list<const LIMIT: usize>(words: Words<'_>) -> Option<ArrayVec<u32, LIMIT>>
    ensures { Gives (λ x. x.items) result (list_at LIMIT words.entry) }
{
    if words.as_slice().len() > LIMIT {
        return None;
    }
    let mut list = ArrayVec::new();
    let _ = list.try_extend_from_slice(words.as_slice());
    Some(list)
}

/// Reads a list that follows its length. Returns the list and the words after it, or None if the list is longer than its type has room for.
#[tactic(auto, unfolding(crate::specs::Reading::counted_at))]
pub(crate) fn read_counted<const LIMIT: usize>(
    words: Words<'_>,
) -> Option<(ArrayVec<u32, LIMIT>, Words<'_>)>
    ensures { Gives (λ x. (x.0.items, x.1)) result (counted_at LIMIT words.entry) }
{
    let (count, rest) = read_word(words)?;
    let (front, rest) = read_words(rest, count as usize)?;
    let list = read_list(Words::of(front))?;
    Some((list, rest))
}
