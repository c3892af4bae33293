//! Answers of steps as words.
ghost use Rattle.std.specs.Prelude.{◌≡◌, ◌+◌, ◌≤◌, ◌++◌, length};
ghost use Rattle.l4_journal.specs.Codes.{outcome_code, answer_code, AnswerFits};
ghost use Rattle.l4_journal.specs.Reading.{outcome_of, outcome_at, answer_at};

use crate::lists::read_counted;
use crate::words::{RECORD_WORDS, Record, Words, read_word};
use l4_ipc::{Answer, MAX_THREADS, Outcome};

/// The maximum number of words of an answer.
pub const ANSWER_WORDS: usize = MAX_THREADS + 2;

/// Returns the word of an outcome.
#[inline(always)]
pub fn outcome_word(outcome: Outcome) -> u32
    ensures { result ≡ outcome_code outcome }
{
    match outcome {
        Outcome::Started => 0,
        Outcome::Done => 1,
        Outcome::NoWindow => 2,
        Outcome::Entangled => 3,
        Outcome::NoMemory => 4,
        Outcome::Expired => 5,
        Outcome::Canceled => 6,
    }
}

/// Appends the words of an answer. There must be room for `ANSWER_WORDS`.
pub fn put_answer(out: &mut Record, answer: &Answer)
    requires { length out.old.items + ANSWER_WORDS ≤ RECORD_WORDS }
    ensures items { out.new.items ≡ out.old.items ++ answer_code answer.now }
    ensures fits { AnswerFits answer.now }
    ensures short { length (answer_code answer.now) ≤ ANSWER_WORDS }
{
    out.push(outcome_word(answer.outcome));
    out.push(answer.ended.len() as u32);
    out.push_all(answer.ended.as_slice());
}

/// Returns the outcome of this word.
fn outcome_of(word: u32) -> Option<Outcome>
    ensures { result ≡ outcome_of word }
{
    match word {
        0 => Some(Outcome::Started),
        1 => Some(Outcome::Done),
        2 => Some(Outcome::NoWindow),
        3 => Some(Outcome::Entangled),
        4 => Some(Outcome::NoMemory),
        5 => Some(Outcome::Expired),
        6 => Some(Outcome::Canceled),
        _ => None,
    }
}

/// Reads an outcome. Returns it with the words after it, or None if the first word is not that of an outcome.
pub fn read_outcome(words: Words<'_>) -> Option<(Outcome, Words<'_>)>
    ensures { result ≡ outcome_at words.entry }
{
    let (word, rest) = read_word(words)?;
    let outcome = outcome_of(word)?;
    Some((outcome, rest))
}

/// Reads an answer. Returns it with the words after it, or None if the words are not those of an answer.
pub fn read_answer(words: Words<'_>) -> Option<(Answer, Words<'_>)>
    ensures { result ≡ answer_at words.entry }
{
    let (outcome, rest) = read_outcome(words)?;
    let (ended, rest) = read_counted(rest)?;
    Some((Answer { outcome, ended }, rest))
}
