//! Calls that wait and receipts of calls that have ended, receipts as words, and copies of what they hold.
ghost use Rattle.std.specs.Prelude.{◌≡◌, Some};
ghost use Rattle.l4_lock.specs.Inside.Words.{receipt_at};

use l4_ipc::{Call, Reply};
use l4_journal::{
    FromWords, Record, Words, call_tag, put_fields, put_place, put_reply, read_call, read_place,
    read_reply, read_word,
};

/// A seat's evidence of one call that has ended. Its places are indices of entries in the history, from 0.
#[derive(Clone, Debug, PartialEq, Eq, Drop)]
pub struct Receipt {
    /// The call.
    pub call: Call,
    /// The place of the entry that started it.
    pub start: usize,
    /// The place of the entry that ended it.
    pub end: usize,
    /// Its reply.
    pub reply: Reply,
}

/// A call that was entered and has not ended, as the thread that waits for it knows it.
#[derive(Drop)]
pub(crate) struct Awaited {
    /// The call.
    pub call: Call,
    /// The place of the entry that started it.
    pub start: usize,
}

/// The end of a call whose reply has not been taken yet.
#[derive(Drop)]
pub struct Ended {
    /// The place of the entry that ended it.
    pub entry: usize,
    /// Its reply.
    pub reply: Reply,
}

/// A call that has not been taken yet.
#[derive(Drop)]
pub struct Pending {
    /// The call.
    pub call: Call,
    /// The place of the entry that started it.
    pub start: usize,
    /// The end of the call, if it has ended.
    pub ended: Option<Ended>,
}

/// Returns a copy of the call.
pub fn copy_call(call: &Call) -> Call
    ensures { result ≡ call.now }
{
    let Ok(copy) = call.clone() else {
        unreachable!()
    };
    copy
}

/// Returns a copy of the reply.
pub fn copy_reply(reply: &Reply) -> Reply
    ensures { result ≡ reply.now }
{
    let Ok(copy) = reply.clone() else {
        unreachable!()
    };
    copy
}

/// Overwrites the record with the receipt of these parts.
pub fn write_receipt(out: &mut Record, call: &Call, start: usize, end: usize, reply: &Reply)
    ensures { receipt_at out.new.items
        ≡ Some (record { call = call.now; start = start; end = end; reply = reply.now }) }
{
    out.clear();
    put_reply(out, reply);
    put_place(out, start);
    put_place(out, end);
    out.push(call_tag(call));
    put_fields(out, call);
}

impl FromWords for Receipt {
    ghost item_at = { receipt_at };

    #[tactic(auto, unfolding(crate::specs::Inside::Words::receipt_at))]
    fn from_words(words: Words<'_>) -> Option<Receipt> {
        let (reply, rest) = read_reply(words)?;
        let (start, rest) = read_place(rest)?;
        let (end, rest) = read_place(rest)?;
        let (tag, rest) = read_word(rest)?;
        let call = read_call(tag, rest)?;
        Some(Receipt {
            call,
            start,
            end,
            reply,
        })
    }
}
