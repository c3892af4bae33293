ghost use Rattle.std.specs.Prelude.{◌≡◌};

use crate::{Entry, Gate, GateFault, PagerRefusal, RegionPager, serve};
use arrayvec::ArrayVec;
use l4_fpage::{Fpage, PageSize, Rights};
use l4_ipc::{Call, IpcCall, IpcReply, Reply};
use l4_msg::{MAX_WORDS, Message, PageFault, map_answer};
use l4_threads::ThreadId;
use std::alloc::Global;
use std::test::Fail;

/// Threads 5 and 6.
const FIFTH: ThreadId = ThreadId(5 * 16384 + 1);

const SIXTH: ThreadId = ThreadId(6 * 16384 + 1);

/// Pages 4 to 7 from pages 100 to 103, read and execute.
const REGION: (u32, u32, u32, u8) = (4, 100, 4, 5);

/// Returns an entry.
fn entry(first: u32, source: u32, count: u32, rights: u8) -> Entry {
    Entry {
        first,
        source,
        count,
        rights: Rights::of_bits(rights),
    }
}

/// Returns a read fault at an address.
fn read_fault(address: u32) -> PageFault {
    PageFault {
        address,
        ip: 0x40_0100,
        access: Rights::of_bits(4),
    }
}

/// Returns the table of one region.
fn one_region() -> RegionPager {
    let mut regions = RegionPager::new(PageSize::Kib4);
    let _ = regions.add(entry(REGION.0, REGION.1, REGION.2, REGION.3));
    regions
}

#[test]
fn entries_and_refusals(rt: HostRuntime) {
    let mut regions = one_region();
    for (refused, why) in [
        (entry(4, 100, 0, 5), PagerRefusal::BadRegion),
        (entry(0xf_ffff, 0, 2, 5), PagerRefusal::BadRegion),
        (entry(8, 0xf_ffff, 2, 5), PagerRefusal::BadRegion),
        (entry(0xffff_ffff, 0, 1, 5), PagerRefusal::BadRegion),
        (entry(4, 100, 1, 0), PagerRefusal::BadRegion),
        (entry(0, 0, 5, 4), PagerRefusal::Overlap),
        (entry(7, 0, 1, 4), PagerRefusal::Overlap),
    ] {
        assert_eq!(rt; regions.add(refused), Err(why));
    }
    assert_eq!(rt; regions.add(entry(8, 100, 1, 4)), Ok(()));
    assert_eq!(rt; regions.find(5, Rights::of_bits(4)), Ok(101));
    assert_eq!(rt;
        regions.find(5, Rights::of_bits(2)),
        Err(PagerRefusal::NoRegion)
    );
    assert_eq!(rt;
        regions.find(9, Rights::of_bits(4)),
        Err(PagerRefusal::NoRegion)
    );
}

#[test]
fn a_table_of_64(rt: HostRuntime) {
    let mut regions = RegionPager::new(PageSize::Kib4);
    for page in 0..64u32 {
        assert_eq!(rt; regions.add(entry(page, 0, 1, 7)), Ok(()));
    }
    assert_eq!(rt; regions.add(entry(64, 0, 1, 7)), Err(PagerRefusal::Full));
    assert_eq!(rt; regions.add(entry(63, 0, 1, 7)), Err(PagerRefusal::Overlap));
}

#[test]
fn answers(rt: HostRuntime) {
    let regions = one_region();
    let page = Fpage::read(0x6_50c5).unwrap_or(Fpage::Nil);
    assert_eq!(rt;
        regions.answer(&read_fault(0x5678).message()),
        map_answer(0x5000, page)
    );
    assert_eq!(rt;
        regions.answer(&read_fault(0x8000).message()),
        map_answer(0, Fpage::Nil)
    );
    if let Ok(request) = Message::read(&[0xffa0_0002, 0x50c0, 0]) {
        assert_eq!(rt; regions.answer(&request), map_answer(0, Fpage::Nil));
    }
}

#[test]
fn answers_by_small_pages(rt: HostRuntime) {
    let mut regions = RegionPager::new(PageSize::Kib1);
    assert_eq!(rt; regions.add(entry(20, 100, 4, 5)), Ok(()));
    assert_eq!(rt; regions.add(entry(0x10_0000, 0, 1, 5)), Ok(()));
    assert_eq!(rt;
        regions.add(entry(0x40_0000, 0, 1, 5)),
        Err(PagerRefusal::BadRegion)
    );
    let answer = regions.answer(&read_fault(0x5678).message());
    assert_eq!(rt;
        answer.write().as_slice(),
        [0x80, 0x5408, 0x1_94a5].as_slice()
    );
}

/// Returns the fpage of a word.
fn fpage(word: u32) -> Fpage {
    Fpage::read(word).unwrap_or(Fpage::Nil)
}

#[test]
fn answers_the_same_whatever_place_is_guessed(rt: HostRuntime) {
    let mut regions = one_region();
    assert_eq!(rt; regions.add(entry(8, 200, 1, 7)), Ok(()));
    for guess in [0, 1, 2, 64, usize::MAX] {
        assert_eq!(rt;
            [
                regions.answer_fault_near(&read_fault(0x5678), guess),
                regions.answer_fault_near(&read_fault(0x8abc), guess),
                regions.answer_fault_near(&read_fault(0x9000), guess)
            ],
            [
                (0x5000, fpage(0x6_50c5), 0),
                (0x8000, fpage(0xc_80c7), 1),
                (0, Fpage::Nil, guess)
            ],
            "guess {guess}"
        );
    }
    assert_eq!(rt;
        [
            regions.answer_fault(&read_fault(0x5678)),
            regions.answer_fault(&read_fault(0x8abc)),
            regions.answer_fault(&read_fault(0x9000))
        ],
        [
            (0x5000, fpage(0x6_50c5)),
            (0x8000, fpage(0xc_80c7)),
            (0, Fpage::Nil)
        ]
    );
}

/// Returns a copy of the words.
fn copied_words(words: &ArrayVec<u32, MAX_WORDS>) -> ArrayVec<u32, MAX_WORDS>
    ensures { result ≡ words.now }
{
    let mut copy = ArrayVec::new();
    let _ = copy.try_extend_from_slice(words.as_slice());
    copy
}

/// Returns a copy of the reply.
fn copied(reply: &Reply) -> Reply
    ensures { result ≡ reply.now }
{
    match reply {
        Reply::Ipc(ipc) => Reply::Ipc(IpcReply {
            tag: ipc.tag,
            error: ipc.error,
            from: ipc.from,
            words: copied_words(&ipc.words),
        }),
        Reply::Hit => Reply::Hit,
        Reply::Answered => Reply::Answered,
        Reply::FaultFailed(code) => Reply::FaultFailed(*code),
        Reply::Unmapped => Reply::Unmapped,
        Reply::Controlled => Reply::Controlled,
        Reply::Gone => Reply::Gone,
    }
}

/// A gate that returns the replies of a list, in order, and refuses every call after the last one.
#[derive(Drop)]
struct Replies {
    replies: Vec<Reply>,
    done: Vec<(Call, Reply)>,
}

impl Gate for Replies {
    ghost use Rattle.std.specs.Prelude.{◌≡◌, ◌⊎◌};

    ghost pairs = { λ g. g.done.items };

    ghost accepts = { λ before call reply after. after.replies.items ≡ before.replies.items };

    ghost refuses = { λ before call fault after. (fault.code ≡ 1) ⊎ (fault.code ≡ 2) };

    fn enter(&mut self, call: Call) -> Result<Reply, GateFault> {
        let Some(reply) = self.replies.get(self.done.len()) else {
            return Err(GateFault { code: 1 });
        };
        let (kept, given) = (copied(reply), copied(reply));
        match self.done.push((call, kept)) {
            Ok(()) => Ok(given),
            Err(_) => Err(GateFault { code: 2 }),
        }
    }
}

/// Returns message registers with these words.
fn registers(words: &[u32]) -> ArrayVec<u32, MAX_WORDS> {
    let mut registers = ArrayVec::new();
    let _ = registers.try_extend_from_slice(words);
    registers
}

/// Returns the reply of an Ipc.
fn reply(tag: u32, error: u32, from: ThreadId, words: &[u32]) -> Reply {
    Reply::Ipc(IpcReply {
        tag,
        error,
        from,
        words: registers(words),
    })
}

/// Returns a call that sends these words to a thread, or to none if that is nilthread, and receives from any thread.
fn call(to: ThreadId, timeouts: u32, words: &[u32]) -> Call {
    Call::Ipc(IpcCall {
        to,
        from: ThreadId(0xffff_ffff),
        timeouts,
        acceptor: 0,
        words: registers(words),
    })
}

#[test]
fn serves_by_the_table(rt: HostRuntime) -> Result<(), Fail> {
    let regions = one_region();
    let mut gate = Replies {
        replies: Vec::new(rt.alloc()),
        done: Vec::new(rt.alloc()),
    };
    gate.replies.push(reply(0x8000, 3, ThreadId(0), &[]))?;
    gate.replies
        .push(reply(0xffe4_0002, 0, FIFTH, &[0x5678, 0x40_0100]))?;
    gate.replies.push(reply(0x1_0000, 0, SIXTH, &[]))?;
    gate.replies.push(reply(0x2_0000, 0, FIFTH, &[]))?;
    assert_eq!(rt; serve(&mut gate, &regions, 3), Ok(2));
    assert_eq!(rt; gate.done.len(), 4);
    for (k, expected) in [
        call(ThreadId(0), 0, &[]),
        call(ThreadId(0), 0, &[]),
        call(FIFTH, 0x0400_0000, &[0x80, 0x5008, 0x6_50c5]),
        call(SIXTH, 0x0400_0000, &[0x80, 8, 0]),
    ]
    .iter()
    .enumerate()
    {
        if let Some(entered) = gate.done.get(k) {
            assert_eq!(rt; entered.0, *expected);
        }
    }
    assert_eq!(rt; serve(&mut gate, &regions, 0), Err(GateFault { code: 1 }));
    Ok(())
}
