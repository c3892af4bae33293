use l4_fpage::{Fpage, PageSize, Rights};
use l4_ipc::{Answer, ArrayVec, Call, Kernel, MAX_WORDS, Outcome, ThreadId, Timeout};
use l4_pager::{Entry, PagerRefusal, wait};
use l4_servers::{RegionRefusal, Servers};
use std::alloc::Global;
use std::test::Fail;

/// Pages 4 to 7 from pages 100 to 103.
fn region() -> Entry {
    Entry {
        first: 4,
        source: 100,
        count: 4,
        rights: Rights::all(),
    }
}

#[test]
fn adds_regions(rt: HostRuntime) -> Result<(), Fail> {
    let mut servers = Servers::new(rt.alloc(), 256, PageSize::Kib4);
    assert!(rt; servers.add_region(4, region()).is_ok());
    assert_eq!(rt;
        servers.add_region(4, region()),
        Err(RegionRefusal::Pager(PagerRefusal::Overlap))
    );
    assert!(rt; servers.add_region(5, region()).is_ok());
    servers.forget(4);
    assert!(rt; servers.add_region(4, region()).is_ok());
    Ok(())
}

#[test]
fn serves_threads(rt: HostRuntime) -> Result<(), Fail> {
    let mut servers = Servers::new(rt.alloc(), 256, PageSize::Kib4);
    assert!(rt; servers.serve(4) == Ok(true));
    assert!(rt; servers.serve(4) == Ok(false));
    servers.take_back(4);
    assert!(rt; servers.serve(4) == Ok(true));
    Ok(())
}

/// Returns a kernel in which sigma0, root and a third thread have called, and wait for nobody.
fn three_threads(alloc: Global) -> Option<Kernel> {
    let third = ThreadId(3 * 0x4000 + 1);
    let create = Call::create(third, third, ThreadId::nil());
    let unmap = Call::unmap(false, &[Fpage::Nil])?;
    let mut kernel = Kernel::boot(alloc, 256, PageSize::Kib4).ok()?;
    let mut answer = Answer {
        outcome: Outcome::Started,
        ended: ArrayVec::new(),
    };
    for (number, call) in [(2, &create), (1, &unmap), (3, &unmap)] {
        let Ok(()) = kernel.start(number, call, &mut answer) else {
            return None;
        };
    }
    Some(kernel)
}

/// Threads are served by rising number, each once, until it is taken back or forgotten.
#[test]
fn serves_by_rising_number(rt: HostRuntime) {
    let kernel = three_threads(rt.alloc()).expect(&rt, "a kernel");
    let mut servers = Servers::new(rt.alloc(), 256, PageSize::Kib4);
    assert_eq!(rt; servers.first_ready(&kernel), None);
    assert_eq!(rt;
        [
            servers.serve(3),
            servers.serve(1),
            servers.serve(2),
            servers.serve(3),
            servers.serve(1)
        ],
        [Ok(true), Ok(true), Ok(true), Ok(false), Ok(false)]
    );
    let first = servers.first_ready(&kernel);
    servers.take_back(1);
    let second = servers.first_ready(&kernel);
    servers.forget(2);
    let third = servers.first_ready(&kernel);
    servers.take_back(3);
    let last = servers.first_ready(&kernel);
    assert_eq!(rt;
        [first, second, third, last],
        [Some(1), Some(2), Some(3), None]
    );
}

/// A served thread whose call brought no message receives from anybody.
#[test]
fn receives_after_no_message(rt: HostRuntime) {
    let kernel = three_threads(rt.alloc()).expect(&rt, "a kernel");
    let mut servers = Servers::new(rt.alloc(), 256, PageSize::Kib4);
    let mut call = Call::delete(ThreadId::nil());
    servers.act_into(&kernel, 3, &mut call);
    assert!(rt; call == wait());
}

/// The id of the third thread in this version.
fn third(version: u16) -> ThreadId {
    ThreadId(3 * 0x4000 + u32::from(version))
}

/// Enters a call, and does the steps that come next.
fn enter(kernel: &mut Kernel, number: u32, call: &Call) -> Option<()> {
    let mut answer = Answer {
        outcome: Outcome::Started,
        ended: ArrayVec::new(),
    };
    let Ok(()) = kernel.start(number, call, &mut answer) else {
        return None;
    };
    for _ in 0..2 {
        let _ = kernel.next();
    }
    Some(())
}

/// Asks sigma0 for the frame of a page, and receives its answer.
fn request(page: u16) -> Call {
    let mut words: ArrayVec<u32, MAX_WORDS> = ArrayVec::new();
    let _ = words.try_extend_from_slice(&[0xffa0_0002, u32::from(page) * 4096 + 0xc0, 0]);
    Call::call(
        ThreadId(0x4001),
        words,
        Fpage::Complete(Rights::all()),
        Timeout::Never,
        Timeout::Never,
    )
}

/// A kernel in which sigma0 has a request for page 5, whose sender was deleted since, and another thread has its number.
fn asked_by_a_gone_thread(alloc: Global) -> Option<Kernel> {
    let mut kernel = Kernel::boot(alloc, 256, PageSize::Kib4).ok()?;
    enter(&mut kernel, 1, &wait())?;
    enter(
        &mut kernel,
        2,
        &Call::create(third(1), third(1), ThreadId::nil()),
    )?;
    enter(&mut kernel, 3, &request(5))?;
    enter(&mut kernel, 2, &Call::delete(third(1)))?;
    enter(
        &mut kernel,
        2,
        &Call::create(third(2), third(2), ThreadId::nil()),
    )?;
    Some(kernel)
}

/// The third thread asks for a page, and sigma0 answers.
fn ask(kernel: &mut Kernel, servers: &mut Servers, page: u16) -> Option<()> {
    enter(kernel, 3, &request(page))?;
    let mut call = wait();
    servers.act_into(kernel, 1, &mut call);
    enter(kernel, 1, &call)
}

/// A sender whose number was given out again is gone: what its request gets belongs to no space.
#[test]
fn new_thread_of_a_number_is_not_the_sender(rt: HostRuntime) {
    let mut kernel = asked_by_a_gone_thread(rt.alloc()).expect(&rt, "a kernel");
    let mut servers = Servers::new(rt.alloc(), 256, PageSize::Kib4);
    let mut call = Call::delete(ThreadId::nil());
    servers.act_into(&kernel, 1, &mut call);
    enter(&mut kernel, 1, &wait()).expect(&rt, "sigma0 waits");
    ask(&mut kernel, &mut servers, 5).expect(&rt, "an answer");
    ask(&mut kernel, &mut servers, 6).expect(&rt, "an answer");
    let space = kernel.space_of(3).expect(&rt, "the third thread");
    assert_eq!(rt;
        [
            kernel.mapping(space, 5).is_some(),
            kernel.mapping(space, 6).is_some()
        ],
        [false, true]
    );
}
