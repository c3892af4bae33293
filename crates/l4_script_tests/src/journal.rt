ghost use Rattle.std.specs.Prelude.{◌≡◌, ◌<◌, length, Some, true};

use arrayvec::ArrayVec;
use l4_ipc::{
    Answer, Call, Control, Create, FaultCall, IpcCall, IpcReply, MAX_WORDS, Outcome, Reply, Rights,
    SetPager, ThreadId, UnmapCall,
};
use l4_journal::{
    FromWords, Journal, Record, Words, call_tag, put_answer, put_fields, put_place, put_reply,
    read_answer, read_call, read_place, read_reply, read_word, read_words,
};
use std::process::Abort;
use std::test::Fail;

/// Words that differ from each other.
fn some_words() -> ArrayVec<u32, MAX_WORDS> {
    let mut words = ArrayVec::new();
    let _ = words.try_extend_from_slice(&[4, 0xffff_ffff, 0, 7, 0x2_0008]);
    words
}

/// Returns whether this value was read, and no word is left.
fn is_all<T: PartialEq + Drop>(read: Option<(T, Words<'_>)>, value: &T) -> bool {
    match read {
        Some((again, rest)) => &again == value && read_word(rest).is_none(),
        None => false,
    }
}

/// Returns whether these are the words of the call behind its tag, and it is read again from them.
fn check_call(rt: &impl Abort, call: &Call, tag: u32, fields: &[u32]) {
    let mut out = Record::new();
    put_fields(&mut out, call);
    assert!(rt; call_tag(call) == tag);
    assert!(rt; out.as_slice() == fields);
    assert!(rt; read_call(tag, Words::of(out.as_slice())).as_ref() == Some(call));
}

fn check_reply(rt: &impl Abort, reply: &Reply, words: &[u32]) {
    let mut out = Record::new();
    put_reply(&mut out, reply);
    assert!(rt; out.as_slice() == words);
    assert!(rt; is_all(read_reply(Words::of(out.as_slice())), reply));
}

/// An answer with these threads has the outcome's number, how many threads there are, and their numbers.
fn check_outcome(rt: &impl Abort, outcome: Outcome, number: u32) {
    let answer = Answer {
        outcome,
        ended: some_words(),
    };
    let mut out = Record::new();
    put_answer(&mut out, &answer);
    let words = [number, 5, 4, 0xffff_ffff, 0, 7, 0x2_0008];
    assert!(rt; out.as_slice() == &words[..]);
    assert!(rt; is_all(read_answer(Words::of(out.as_slice())), &answer));
}

#[test]
fn calls_are_read_back(rt: HostRuntime) {
    let ipc = IpcCall {
        to: ThreadId(1),
        from: ThreadId(2),
        timeouts: 3,
        acceptor: 4,
        words: some_words(),
    };
    let fields = [1, 2, 3, 4, 4, 0xffff_ffff, 0, 7, 0x2_0008];
    check_call(&rt, &Call::Ipc(ipc), 0, &fields);
    let fault = FaultCall {
        address: 1,
        ip: 2,
        access: Rights::W,
    };
    check_call(&rt, &Call::Fault(fault), 1, &[1, 2, 2]);
    let unmap = UnmapCall {
        control: 0x41,
        words: some_words(),
    };
    let fields = [0x41, 4, 0xffff_ffff, 0, 7, 0x2_0008];
    check_call(&rt, &Call::Unmap(unmap), 2, &fields);
}

#[test]
fn controls_are_read_back(rt: HostRuntime) {
    let create = Create {
        id: ThreadId(1),
        space: ThreadId(2),
        pager: ThreadId(3),
    };
    let set = SetPager {
        id: ThreadId(1),
        pager: ThreadId(2),
    };
    check_call(&rt, &Call::Control(Control::Create(create)), 3, &[1, 2, 3]);
    check_call(&rt, &Call::Control(Control::SetPager(set)), 4, &[1, 2]);
    check_call(&rt, &Call::Control(Control::Delete(ThreadId(1))), 5, &[1]);
}

#[test]
fn answers_are_read_back(rt: HostRuntime) {
    check_outcome(&rt, Outcome::Started, 0);
    check_outcome(&rt, Outcome::Done, 1);
    check_outcome(&rt, Outcome::NoWindow, 2);
    check_outcome(&rt, Outcome::Entangled, 3);
    check_outcome(&rt, Outcome::NoMemory, 4);
    check_outcome(&rt, Outcome::Expired, 5);
    check_outcome(&rt, Outcome::Canceled, 6);
}

#[test]
fn replies_are_read_back(rt: HostRuntime) {
    let ipc = IpcReply {
        tag: 1,
        error: 2,
        from: ThreadId(3),
        words: some_words(),
    };
    let words = [0, 1, 2, 3, 5, 4, 0xffff_ffff, 0, 7, 0x2_0008];
    check_reply(&rt, &Reply::Ipc(ipc), &words);
    check_reply(&rt, &Reply::Hit, &[1]);
    check_reply(&rt, &Reply::Answered, &[2]);
    check_reply(&rt, &Reply::FaultFailed(9), &[3, 9]);
    check_reply(&rt, &Reply::Unmapped, &[4]);
    check_reply(&rt, &Reply::Controlled, &[5]);
    check_reply(&rt, &Reply::Gone, &[6]);
}

/// Returns whether a place is written as these two words, and read again from them.
fn is_read_back(place: usize, lower: u32, upper: u32) -> bool {
    let mut out = Record::new();
    put_place(&mut out, place);
    out.as_slice() == &[lower, upper][..] && is_all(read_place(Words::of(out.as_slice())), &place)
}

#[test]
fn places_are_read_back(rt: HostRuntime) {
    assert!(rt; is_read_back(5, 5, 0));
    assert!(rt; is_read_back(0xffff_ffff, 0xffff_ffff, 0));
    assert!(rt; is_read_back(0x1_0000_0007, 7, 1));
    assert!(rt; is_read_back(usize::MAX, 0xffff_ffff, 0xffff_ffff));
}

/// Words that no value has, a list that is longer than its type has room for, and words that are missing.
#[test]
fn other_words_are_refused(rt: HostRuntime) {
    assert!(rt; read_call(6, Words::of(&[1, 2, 3, 4])).is_none());
    assert!(rt; read_call(0, Words::of(&[1, 2, 3])).is_none());
    assert!(rt; read_call(0, Words::of(&[0; 68])).is_some());
    assert!(rt; read_call(0, Words::of(&[0; 69])).is_none());
    assert!(rt; read_call(1, Words::of(&[1, 2, 8])).is_none());
    assert!(rt; read_answer(Words::of(&[7, 0])).is_none());
    assert!(rt; read_answer(Words::of(&[0, 2, 7])).is_none());
    assert!(rt; read_reply(Words::of(&[7])).is_none());
    assert!(rt; read_place(Words::of(&[7])).is_none());
}

/// What any words are read as: only how they are stored is asked for.
#[derive(Drop)]
struct Anything {
    is_read: bool,
}

impl FromWords for Anything {
    ghost item_at = { λ _. Some (record { is_read = true }) };

    fn from_words(_words: Words<'_>) -> Option<Anything> {
        Some(Anything { is_read: true })
    }
}

/// Returns whether these are the words.
fn are_words(found: Option<Words<'_>>, words: &[u32]) -> bool {
    match found {
        Some(found) => found.as_slice() == words,
        None => false,
    }
}

/// More items than a list has room for that grew a few times.
const MANY: u32 = 3000;

/// Returns an item of a few words and of those after them; of one word alone; and of none.
#[test]
fn items_are_stored_in_order(rt: HostRuntime) -> Result<(), Fail> {
    let mut journal: Journal<Anything> = Journal::new(rt.alloc());
    assert!(rt; journal.is_empty());
    for i in 0..MANY {
        journal.reserve(3)?;
        journal.push(&[7, i], &[0xffff_ffff, 9]);
        journal.push(&[i], &[]);
        journal.push(&[], &[]);
    }
    assert!(rt; journal.len() == 3 * MANY as usize);
    for i in 0..MANY {
        let place = 3 * i as usize;
        assert!(rt; are_words(journal.words(place), &[7, i, 0xffff_ffff, 9]));
        assert!(rt; are_words(journal.words(place + 1), &[i]));
        assert!(rt; are_words(journal.words(place + 2), &[]));
    }
    assert!(rt; journal.words(3 * MANY as usize).is_none());
    Ok(())
}

#[test]
fn a_refused_growth_leaves_what_is_stored(rt: HostRuntime) -> Result<(), Fail> {
    let mut journal: Journal<Anything> = Journal::new(rt.alloc());
    journal.reserve(2)?;
    journal.push(&[7], &[]);
    assert!(rt; journal.reserve(usize::MAX).is_err());
    assert!(rt; are_words(journal.words(0), &[7]));
    journal.push(&[8], &[]);
    assert!(rt; journal.len() == 2);
    assert!(rt; are_words(journal.words(1), &[8]));
    Ok(())
}

/// Returns the words 0xffff_ffff and 9.
fn two_words() -> Record
    ensures { length result.items ≡ 2 }
{
    let mut out = Record::new();
    out.push(0xffff_ffff);
    out.push(9);
    out
}

/// Words are lent without a copy, if there are enough.
#[test]
fn several_words_are_read(rt: HostRuntime) {
    let words = two_words();
    assert!(rt; read_words(Words::of(words.as_slice()), 3).is_none());
    let read = match read_words(Words::of(words.as_slice()), 1) {
        Some((front, rest)) => front == &[0xffff_ffff][..] && rest.as_slice() == &[9][..],
        None => false,
    };
    assert!(rt; read);
}
