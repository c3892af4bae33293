//! Entries of any kind as words.
ghost use Rattle.std.specs.Prelude.{◌≡◌, ◌++◌};
ghost use Rattle.l4_segments.specs.Entries.{entry_code, step_code, entry_at, step_of, started_at, moved_at, expired_at, cause_kind, canceled_at, EntryFits, StepFits};

use l4_ipc::{CancelCause, Step};
use l4_journal::{
    Record, Words, call_tag, put_answer, put_fields, read_answer, read_call, read_word,
};
use l4_record::Entry;

/// The kind of the start of a call.
const START: u32 = 0;

/// The kind of a transfer.
const TRANSFER: u32 = 1;

/// The kind of an expiry.
const EXPIRE: u32 = 2;

/// The kind of a wait whose timeout passed by a clock outside the kernel.
const TIMEOUT: u32 = 3;

/// The kind of a wait that was canceled.
const CANCEL: u32 = 4;

/// Returns the kind of a Cancel with this cause.
fn cause_kind(cause: CancelCause) -> u32
    ensures { result ≡ cause_kind cause }
{
    match cause {
        CancelCause::Timeout => TIMEOUT,
        CancelCause::Canceled => CANCEL,
    }
}

/// Overwrites the record with the words of an entry.
pub fn put_entry(out: &mut Record, entry: &Entry)
    ensures items { out.new.items ≡ entry_code entry.now }
    ensures fits { EntryFits entry.now }
{
    out.clear();
    out.push(entry.seat);
    put_answer(out, &entry.answer);
    match &entry.step {
        Step::Start(number, call) => {
            out.push(START);
            out.push(*number);
            out.push(call_tag(call));
            put_fields(out, call);
        }
        Step::Transfer(sender, receiver) => {
            out.push(TRANSFER);
            out.push(*sender);
            out.push(*receiver);
        }
        Step::Expire(number) => {
            out.push(EXPIRE);
            out.push(*number);
        }
        Step::Cancel(number, cause) => {
            out.push(cause_kind(*cause));
            out.push(*number);
        }
    }
}

/// Reads the start of a call after its kind.
fn read_start(words: Words<'_>) -> Option<Step>
    ensures { result ≡ started_at words.entry }
{
    let (number, rest) = read_word(words)?;
    let (tag, rest) = read_word(rest)?;
    let call = read_call(tag, rest)?;
    Some(Step::Start(number, call))
}

/// Reads a transfer after its kind.
fn read_transfer(words: Words<'_>) -> Option<Step>
    ensures { result ≡ moved_at words.entry }
{
    let (sender, rest) = read_word(words)?;
    let (receiver, _) = read_word(rest)?;
    Some(Step::Transfer(sender, receiver))
}

/// Reads an expiry after its kind.
fn read_expire(words: Words<'_>) -> Option<Step>
    ensures { result ≡ expired_at words.entry }
{
    let (number, _) = read_word(words)?;
    Some(Step::Expire(number))
}

/// Reads a Cancel with this cause after its kind.
fn read_cancel(cause: CancelCause, words: Words<'_>) -> Option<Step>
    ensures { result ≡ canceled_at cause words.entry }
{
    let (number, _) = read_word(words)?;
    Some(Step::Cancel(number, cause))
}

/// Reads a step of this kind.
#[tactic(auto, unfolding(crate::specs::Entries::step_of))]
fn read_step(kind: u32, words: Words<'_>) -> Option<Step>
    ensures { result ≡ step_of kind words.entry }
{
    match kind {
        START => read_start(words),
        TRANSFER => read_transfer(words),
        EXPIRE => read_expire(words),
        TIMEOUT => read_cancel(CancelCause::Timeout, words),
        CANCEL => read_cancel(CancelCause::Canceled, words),
        _ => None,
    }
}

/// Reads an entry. Returns `None` if the words are not those of an entry.
#[tactic(auto, unfolding(crate::specs::Entries::entry_at))]
pub fn read_entry(words: Words<'_>) -> Option<Entry>
    ensures { result ≡ entry_at words.entry }
{
    let (seat, rest) = read_word(words)?;
    let (answer, rest) = read_answer(rest)?;
    let (kind, rest) = read_word(rest)?;
    let step = read_step(kind, rest)?;
    Some(Entry { seat, step, answer })
}
