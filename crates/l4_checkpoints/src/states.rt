//! Reads what threads do from words.

use arrayvec::ArrayVec;
use l4_fpage::Fpage;
use l4_ipc::ThreadId;
use l4_journal::{Words, read_word, read_words};
use l4_msg::{MAX_WORDS, Message, copied};
use l4_threads::{IpcReply, Later, Receiving, Reply, Sending, Source, State};

/// The words of an item.
const ITEM_WORDS: usize = 3;

/// Reads a number of two words, the lower one first.
pub(crate) fn read_wide(words: Words<'_>) -> Option<(u64, Words<'_>)> {
    let (lower, rest) = read_word(words)?;
    let (upper, rest) = read_word(rest)?;
    Some((lower as u64 + 0x1_0000_0000 * upper as u64, rest))
}

/// Reads words after their number.
pub(crate) fn read_counted(words: Words<'_>) -> Option<(&[u32], Words<'_>)> {
    let (count, rest) = read_word(words)?;
    read_words(rest, count as usize)
}

/// Reads message registers after their number.
fn read_registers(words: Words<'_>) -> Option<(ArrayVec<u32, MAX_WORDS>, Words<'_>)> {
    let (registers, rest) = read_counted(words)?;
    if registers.len() > MAX_WORDS {
        return None;
    }
    Some((copied(registers), rest))
}

/// Reads 0 or 1.
fn read_bit(words: Words<'_>) -> Option<(bool, Words<'_>)> {
    let (word, rest) = read_word(words)?;
    match word {
        0 => Some((false, rest)),
        1 => Some((true, rest)),
        _ => None,
    }
}

/// Reads the id of a thread.
pub(crate) fn read_id(words: Words<'_>) -> Option<(ThreadId, Words<'_>)> {
    let (id, rest) = read_word(words)?;
    Some((ThreadId(id), rest))
}

/// Reads an fpage.
fn read_fpage(words: Words<'_>) -> Option<(Fpage, Words<'_>)> {
    let (word, rest) = read_word(words)?;
    match Fpage::read(word) {
        Ok(fpage) => Some((fpage, rest)),
        Err(_) => None,
    }
}

/// Reads the reply of an Ipc.
fn read_received(words: Words<'_>) -> Option<(Reply, Words<'_>)> {
    let (tag, rest) = read_word(words)?;
    let (error, rest) = read_word(rest)?;
    let (from, rest) = read_id(rest)?;
    let (words, rest) = read_registers(rest)?;
    let reply = IpcReply {
        tag,
        error,
        from,
        words,
    };
    Some((Reply::Ipc(reply), rest))
}

/// Reads a reply of this kind.
fn read_reply(kind: u32, words: Words<'_>) -> Option<(Reply, Words<'_>)> {
    match kind {
        1 => read_received(words),
        2 => Some((Reply::Hit, words)),
        3 => Some((Reply::Answered, words)),
        4 => {
            let (code, rest) = read_word(words)?;
            Some((Reply::FaultFailed(code), rest))
        }
        5 => Some((Reply::Unmapped, words)),
        6 => Some((Reply::Controlled, words)),
        7 => Some((Reply::Gone, words)),
        _ => None,
    }
}

/// Reads whom a thread receives from.
fn read_source(words: Words<'_>) -> Option<(Source, Words<'_>)> {
    let (kind, rest) = read_word(words)?;
    match kind {
        0 => Some((Source::Anyone, rest)),
        1 => {
            let (number, rest) = read_word(rest)?;
            Some((Source::Thread(number), rest))
        }
        _ => None,
    }
}

/// Reads a receive phase.
fn read_receiving(words: Words<'_>) -> Option<(Receiving, Words<'_>)> {
    let (expires, rest) = read_bit(words)?;
    let (fault, rest) = read_bit(rest)?;
    let (window, rest) = read_fpage(rest)?;
    let (from, rest) = read_source(rest)?;
    let receiving = Receiving {
        from,
        window,
        expires,
        fault,
    };
    Some((receiving, rest))
}

/// Reads the receive phase that follows a send phase, if there is one.
fn read_then(words: Words<'_>) -> Option<(Option<Later>, Words<'_>)> {
    let (some, rest) = read_bit(words)?;
    if !some {
        return Some((None, rest));
    }
    let (from, rest) = read_id(rest)?;
    let (expires, rest) = read_bit(rest)?;
    let (window, rest) = read_fpage(rest)?;
    let later = Later {
        from,
        window,
        expires,
    };
    Some((Some(later), rest))
}

/// Reads a send phase. Its items are those in its words; what the words say of the items is compared when the kernel has been built.
fn read_sending(words: Words<'_>) -> Option<(Sending, Words<'_>)> {
    let (to, rest) = read_word(words)?;
    let (expires, rest) = read_bit(rest)?;
    let (fault, rest) = read_bit(rest)?;
    let (then, rest) = read_then(rest)?;
    let (words, rest) = read_registers(rest)?;
    let Ok(message) = Message::read(words.as_slice()) else {
        return None;
    };
    let items = message.items;
    let (count, rest) = read_word(rest)?;
    let (_, rest) = read_words(rest, ITEM_WORDS * count as usize)?;
    let sending = Sending {
        words,
        items,
        to,
        expires,
        then,
        fault,
    };
    Some((sending, rest))
}

/// Reads what a thread does. Returns it with the words after it.
pub(crate) fn read_state(words: Words<'_>) -> Option<(State, Words<'_>)> {
    let (kind, rest) = read_word(words)?;
    match kind {
        0 => Some((State::Running(None), rest)),
        8 => {
            let (receiving, rest) = read_receiving(rest)?;
            Some((State::Receiving(receiving), rest))
        }
        9 => {
            let (sending, rest) = read_sending(rest)?;
            Some((State::Sending(sending), rest))
        }
        _ => {
            let (reply, rest) = read_reply(kind, rest)?;
            Some((State::Running(Some(reply)), rest))
        }
    }
}
