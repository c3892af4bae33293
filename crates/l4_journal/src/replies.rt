//! Replies as words: a tag, followed by a word for each field. A list follows its length.
ghost use Rattle.std.specs.Prelude.{◌≡◌, ◌+◌, ◌≤◌, ◌++◌, length};
ghost use Rattle.l4_journal.specs.Codes.{reply_code, ReplyFits};
ghost use Rattle.l4_journal.specs.Reading.{received_at, reply_at};

use crate::lists::read_counted;
use crate::words::{RECORD_WORDS, Record, Words, read_word};
use l4_ipc::{IpcReply, MAX_WORDS, Reply, ThreadId};

/// The maximum number of words of a reply.
pub const REPLY_WORDS: usize = MAX_WORDS + 5;

/// Appends the words of a reply. There must be room for `REPLY_WORDS`.
pub fn put_reply(out: &mut Record, reply: &Reply)
    requires { length out.old.items + REPLY_WORDS ≤ RECORD_WORDS }
    ensures items { out.new.items ≡ out.old.items ++ reply_code reply.now }
    ensures fits { ReplyFits reply.now }
    ensures short { length (reply_code reply.now) ≤ REPLY_WORDS }
{
    match reply {
        Reply::Ipc(reply) => {
            let count = reply.words.len() as u32;
            out.push_all(&[0, reply.tag, reply.error, reply.from.0, count]);
            out.push_all(reply.words.as_slice());
        }
        Reply::Hit => out.push(1),
        Reply::Answered => out.push(2),
        Reply::FaultFailed(error) => out.push_all(&[3, *error]),
        Reply::Unmapped => out.push(4),
        Reply::Controlled => out.push(5),
        Reply::Gone => out.push(6),
    }
}

/// Reads an Ipc's reply after its tag. Returns it with the words after it.
fn read_received(words: Words<'_>) -> Option<(Reply, Words<'_>)>
    ensures { result ≡ received_at words.entry }
{
    let (tag, rest) = read_word(words)?;
    let (error, rest) = read_word(rest)?;
    let (from, rest) = read_word(rest)?;
    let (words, rest) = read_counted(rest)?;
    let reply = IpcReply {
        tag,
        error,
        from: ThreadId(from),
        words,
    };
    Some((Reply::Ipc(reply), rest))
}

/// Reads a reply. Returns it with the words after it, or None if the words are not those of a reply.
#[tactic(auto, unfolding(crate::specs::Reading::reply_at))]
pub fn read_reply(words: Words<'_>) -> Option<(Reply, Words<'_>)>
    ensures { result ≡ reply_at words.entry }
{
    let (tag, rest) = read_word(words)?;
    match tag {
        0 => read_received(rest),
        1 => Some((Reply::Hit, rest)),
        2 => Some((Reply::Answered, rest)),
        3 => {
            let (error, rest) = read_word(rest)?;
            Some((Reply::FaultFailed(error), rest))
        }
        4 => Some((Reply::Unmapped, rest)),
        5 => Some((Reply::Controlled, rest)),
        6 => Some((Reply::Gone, rest)),
        _ => None,
    }
}
