use arrayvec::ArrayVec;
use l4_fpage::Fpage;
use l4_threads::{Activity, Receiving, Reply, Sending, Source, ThreadFault, ThreadId, Threads};
use std::test::Fail;

const SIGMA0: ThreadId = ThreadId(0x4001);

const ROOT: ThreadId = ThreadId(0x8001);

const THIRD: ThreadId = ThreadId(0xc001);

fn message(to: u32, expires: bool) -> Sending {
    Sending {
        words: ArrayVec::new(),
        items: ArrayVec::new(),
        to,
        expires,
        then: None,
        fault: false,
    }
}

fn wait(from: Source, expires: bool) -> Receiving {
    Receiving {
        from,
        window: Fpage::Nil,
        expires,
        fault: false,
    }
}

/// Creates the thread of this id in a space of its own.
fn grow(threads: &mut Threads, id: ThreadId) -> Result<u64, ThreadFault> {
    threads.create(2, id, id, ROOT)
}

/// Lets a running thread send.
fn send(threads: &mut Threads, number: u32, sending: Sending) -> Result<(), &'static str> {
    let Some(activity) = threads.state(number) else {
        return Err("there is no such thread");
    };
    if !activity.is_running() {
        return Err("the thread does not run");
    }
    threads.start_send(number, sending);
    Ok(())
}

/// Lets a running thread receive.
fn receive(threads: &mut Threads, number: u32, receiving: Receiving) -> Result<(), &'static str> {
    let Some(activity) = threads.state(number) else {
        return Err("there is no such thread");
    };
    if !activity.is_running() {
        return Err("the thread does not run");
    }
    threads.start_receive(number, receiving);
    Ok(())
}

/// Returns whether the thread waits for its message to be taken.
fn sends(threads: &Threads, number: u32) -> bool {
    match threads.state(number) {
        Some(activity) => activity.is_sending(),
        None => false,
    }
}

/// Ends a thread's call.
fn end(threads: &mut Threads, number: u32) -> Result<(), &'static str> {
    if threads.state(number).is_none() {
        return Err("there is no such thread");
    }
    threads.end_call(number, Reply::Hit);
    Ok(())
}

/// Returns the pager of the thread with this number.
fn pager_of(threads: &Threads, number: u32) -> Option<ThreadId> {
    let thread = threads.thread(number)?;
    Some(thread.pager)
}

#[test]
fn the_start(rt: HostRuntime) -> Result<(), Fail> {
    let threads = Threads::boot(rt.alloc())?;
    assert_eq!(rt;
        [threads.space_of(1), threads.space_of(2)],
        [Some(0), Some(1)]
    );
    assert_eq!(rt;
        [pager_of(&threads, 1), pager_of(&threads, 2)],
        [Some(ThreadId::nil()), Some(SIGMA0)]
    );
    assert_eq!(rt;
        [
            threads.named(ROOT),
            threads.named(ThreadId(0x8002)),
            threads.named(ThreadId::any())
        ],
        [Some(2), None, None]
    );
    assert!(rt; threads.thread(3).is_none());
    assert_eq!(rt; threads.queue().len(), 0);
    threads.law_consistent();
    Ok(())
}

#[test]
fn ids_of_numbers_and_versions(rt: HostRuntime) {
    for (number, version, id) in [
        (3, 1, Some(ThreadId(0xc001))),
        (0x3ffff, 1, Some(ThreadId(0xffff_c001))),
        (0, 1, None),
        (3, 0x40, None),
        (3, 0x4001, None),
        (0x40000, 1, None),
        (0x3ffff, 0x3fff, None),
    ] {
        assert_eq!(rt; ThreadId::global(number, version), id);
    }
    let id = ThreadId(0xc041);
    assert_eq!(rt; (id.number(), id.version()), (3, 65));
}

#[test]
fn a_new_thread(rt: HostRuntime) -> Result<(), Fail> {
    let mut threads = Threads::boot(rt.alloc())?;
    assert_eq!(rt;
        [
            threads.test_create(1, THIRD, THIRD),
            threads.test_create(2, ThreadId::any(), THIRD),
            threads.test_create(2, ROOT, ROOT),
            threads.test_create(2, THIRD, ThreadId(0xc041)),
            threads.test_create(2, THIRD, ROOT),
            threads.create(1, THIRD, ROOT, ROOT)
        ],
        [
            Err(ThreadFault::NoPrivilege),
            Err(ThreadFault::BadId),
            Err(ThreadFault::Taken),
            Err(ThreadFault::Unknown),
            Ok(1),
            Err(ThreadFault::NoPrivilege)
        ]
    );
    assert!(rt; threads.thread(3).is_none());
    assert_eq!(rt;
        [
            grow(&mut threads, THIRD),
            grow(&mut threads, ThreadId(0x10001))
        ],
        [Ok(2), Ok(3)]
    );
    assert_eq!(rt; threads.space_of(3), Some(2));
    Ok(())
}

/// Lets thread 3 receive from anybody, 1 send to 2, and 2 to 3.
fn start_calls(threads: &mut Threads) -> Result<(), Fail> {
    grow(threads, THIRD)?;
    receive(threads, 3, wait(Source::Anyone, true))?;
    send(threads, 1, message(2, false))?;
    send(threads, 2, message(3, false))?;
    Ok(())
}

#[test]
fn a_transfer_and_an_expiry(rt: HostRuntime) -> Result<(), Fail> {
    let mut threads = Threads::boot(rt.alloc())?;
    start_calls(&mut threads)?;
    assert_eq!(rt; threads.queue(), [1, 2].as_slice());
    assert_eq!(rt;
        [sends(&threads, 1), sends(&threads, 2), sends(&threads, 3)],
        [true, true, false]
    );
    assert_eq!(rt;
        [threads.first_sender(3), threads.first_sender(2)],
        [Some(2), None]
    );
    assert!(rt; threads.can_transfer(2, 3));
    assert_eq!(rt;
        (threads.next_transfer(), threads.next_expiry()),
        (Some((2, 3)), None)
    );
    end(&mut threads, 2)?;
    assert!(rt; threads.can_expire(3));
    assert_eq!(rt;
        (threads.next_transfer(), threads.next_expiry()),
        (None, Some(3))
    );
    Ok(())
}

#[test]
fn another_pager(rt: HostRuntime) -> Result<(), Fail> {
    let mut threads = Threads::boot(rt.alloc())?;
    assert_eq!(rt;
        [
            threads.set_pager(1, ROOT, ROOT),
            threads.set_pager(2, THIRD, ROOT),
            threads.set_pager(2, SIGMA0, ROOT)
        ],
        [
            Err(ThreadFault::NoPrivilege),
            Err(ThreadFault::Unknown),
            Ok(1)
        ]
    );
    assert_eq!(rt; pager_of(&threads, 1), Some(ROOT));
    Ok(())
}

/// Creates threads 4 and 3, of which 4 sends to 3, and lets 3 receive from anybody and 1 from 3.
fn start_more_calls(threads: &mut Threads) -> Result<(), Fail> {
    grow(threads, ThreadId(0x10001))?;
    grow(threads, THIRD)?;
    send(threads, 4, message(3, false))?;
    receive(threads, 1, wait(Source::Thread(3), false))?;
    receive(threads, 3, wait(Source::Anyone, false))?;
    Ok(())
}

#[test]
fn a_deletion(rt: HostRuntime) -> Result<(), Fail> {
    let mut threads = Threads::boot(rt.alloc())?;
    start_more_calls(&mut threads)?;
    let Err(ThreadFault::Kept) = threads.delete(2, SIGMA0) else {
        return Err("sigma0 is kept".into());
    };
    let Ok(deleted) = threads.delete(2, THIRD) else {
        return Err("refused".into());
    };
    assert_eq!(rt; (deleted.number, deleted.space), (3, Some(3)));
    assert_eq!(rt; deleted.ended.as_slice(), [1, 3, 4].as_slice());
    assert_eq!(rt; threads.queue().len(), 0);
    assert!(rt; threads.thread(3).is_none());
    Ok(())
}

#[test]
fn ids(rt: HostRuntime) {
    assert_eq!(rt; THIRD.number(), 3);
    assert!(rt; !THIRD.is_bad());
    assert!(rt; ThreadId(0x3fff).is_bad());
    assert!(rt; ThreadId(0xc040).is_bad());
    assert!(rt; matches!(Reply::failed(true, 4), Reply::FaultFailed(4)));
    assert!(rt; Activity::idle().is_running());
    assert!(rt; !Activity::idle().is_sending());
    assert!(rt; Source::Thread(3).takes(3));
    assert!(rt; !Source::Thread(3).takes(2));
}
