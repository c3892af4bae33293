//! Entries as words: a tag, the seat, and a word for each field.
ghost use Rattle.std.specs.Prelude.{◌≡◌, Some};
ghost use Rattle.l4_ipc.specs.declared.steps.Step.TheVariants.{Start};
ghost use Rattle.l4_record.specs.Inside.Words.{start_at, transfer_at, expire_at, answered_at, cancel_at, cause_word, cause_of, entry_of, entry_at};

use crate::entries::Entry;
use arrayvec::ArrayVec;
use l4_ipc::{Answer, Call, CancelCause, NextStep, Outcome, Step};
use l4_journal::{
    FromWords, Record, Words, call_tag, put_answer, put_fields, read_answer, read_call,
    read_outcome, read_word,
};

/// The tag of a Transfer. A smaller tag is that of a call whose start ended no call.
pub const TRANSFER: u32 = 6;

/// The tag of an Expire.
pub const EXPIRE: u32 = 7;

/// The tag of the start of a call with its answer.
const ANSWERED: u32 = 8;

/// The tag of a Cancel.
pub const CANCEL: u32 = 9;

/// The seat of an entry that no thread's call appended. No thread has this number.
pub const NO_SEAT: u32 = 0;

/// Returns the word of the cause of a Cancel.
pub fn cause_word(cause: CancelCause) -> u32
    ensures { result ≡ cause_word cause }
{
    match cause {
        CancelCause::Timeout => 1,
        CancelCause::Canceled => 3,
    }
}

/// Returns the cause of this word.
fn cause_of(word: u32) -> Option<CancelCause>
    ensures { result ≡ cause_of word }
{
    match word {
        1 => Some(CancelCause::Timeout),
        3 => Some(CancelCause::Canceled),
        _ => None,
    }
}

/// Overwrites the record with the entry of the start of a call.
pub fn write_start(out: &mut Record, number: u32, call: &Call, answer: &Answer)
    ensures { entry_at out.new.items
        ≡ Some (record { seat = number; step = Start number call.now; answer = answer.now }) }
{
    out.clear();
    out.push(ANSWERED);
    out.push(number);
    put_answer(out, answer);
    out.push(call_tag(call));
    put_fields(out, call);
}

/// Reads the entry of the start of a call with this tag and these fields, in which no call ended.
fn read_start(tag: u32, seat: u32, words: Words<'_>) -> Option<Entry>
    ensures { result ≡ start_at tag seat words.entry }
{
    let call = read_call(tag, words)?;
    let answer = Answer {
        outcome: Outcome::Started,
        ended: ArrayVec::new(),
    };
    let step = Step::Start(seat, call);
    Some(Entry { seat, step, answer })
}

/// Reads the entry of a Transfer from these fields.
fn read_transfer(seat: u32, words: Words<'_>) -> Option<Entry>
    ensures { result ≡ transfer_at seat words.entry }
{
    let (sender, rest) = read_word(words)?;
    let (receiver, rest) = read_word(rest)?;
    let (outcome, rest) = read_outcome(rest)?;
    let (ends, _) = read_word(rest)?;
    let next = NextStep::Transfer(sender, receiver, outcome, ends == 1);
    let step = next.step();
    let answer = next.answer();
    Some(Entry { seat, step, answer })
}

/// Reads the entry of an Expire from this field.
fn read_expire(seat: u32, words: Words<'_>) -> Option<Entry>
    ensures { result ≡ expire_at seat words.entry }
{
    let (waiter, _) = read_word(words)?;
    let next = NextStep::Expire(waiter);
    let step = next.step();
    let answer = next.answer();
    Some(Entry { seat, step, answer })
}

/// Reads the entry of a Cancel from these fields.
fn read_cancel(seat: u32, words: Words<'_>) -> Option<Entry>
    ensures { result ≡ cancel_at seat words.entry }
{
    let (waiter, rest) = read_word(words)?;
    let (word, _) = read_word(rest)?;
    let cause = cause_of(word)?;
    let mut ended = ArrayVec::new();
    ended.push(waiter);
    let answer = Answer {
        outcome: Outcome::Canceled,
        ended,
    };
    let step = Step::Cancel(waiter, cause);
    Some(Entry { seat, step, answer })
}

/// Reads the entry of the start of a call with this answer, tag and fields.
fn read_answered(seat: u32, words: Words<'_>) -> Option<Entry>
    ensures { result ≡ answered_at seat words.entry }
{
    let (answer, rest) = read_answer(words)?;
    let (tag, rest) = read_word(rest)?;
    let call = read_call(tag, rest)?;
    let step = Step::Start(seat, call);
    Some(Entry { seat, step, answer })
}

/// Reads the entry of this tag, seat and fields.
#[tactic(auto, unfolding(crate::specs::Inside::Words::entry_of))]
fn read_entry(tag: u32, seat: u32, words: Words<'_>) -> Option<Entry>
    ensures { result ≡ entry_of tag seat words.entry }
{
    match tag {
        TRANSFER => read_transfer(seat, words),
        EXPIRE => read_expire(seat, words),
        ANSWERED => read_answered(seat, words),
        CANCEL => read_cancel(seat, words),
        _ => read_start(tag, seat, words),
    }
}

impl FromWords for Entry {
    ghost item_at = { entry_at };

    #[tactic(auto, unfolding(crate::specs::Inside::Words::entry_at))]
    fn from_words(words: Words<'_>) -> Option<Entry> {
        let (tag, rest) = read_word(words)?;
        let (seat, rest) = read_word(rest)?;
        read_entry(tag, seat, rest)
    }
}
