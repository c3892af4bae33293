ghost use Rattle.std.specs.Prelude.{◌≤◌, length};
ghost use Rattle.l4_msg.specs.Sizes.{max_words};

use l4_fpage::{Fpage, PageSize, Rights};
use l4_ipc::{
    Answer, ArrayVec, Call, Control, Create, FaultCall, IpcCall, Kernel, NextStep, Outcome,
    Refused, SetPager, Step, Timeout, UnmapCall,
};
use l4_mapdb::{Mapping, Place};
use l4_msg::copied;
use l4_threads::{Reply, ThreadId};
use std::alloc::Global;
use std::process::Abort;
use std::test::Fail;

const NOBODY: ThreadId = ThreadId(0);

const ANYBODY: ThreadId = ThreadId(0xffff_ffff);

const SIGMA0: ThreadId = ThreadId(0x4001);

const ROOT: ThreadId = ThreadId(0x8001);

const THIRD: ThreadId = ThreadId(3 * 16384 + 1);

const FOURTH: ThreadId = ThreadId(4 * 16384 + 1);

/// The window of all pages.
const COMPLETE: u32 = 0x10;

/// The message that maps page 16 with all rights, to page 32 in a window of all pages.
const MAPS: [u32; 3] = [0x80, 0x2_0008, 0x1_00c7];

/// Returns an Ipc.
fn ipc(
    number: u32,
    to: ThreadId,
    from: ThreadId,
    timeouts: u32,
    acceptor: u32,
    words: &[u32],
) -> Step
    requires { length words.now ≤ max_words }
{
    let call = IpcCall {
        to,
        from,
        timeouts,
        acceptor,
        words: copied(words),
    };
    Step::Start(number, Call::Ipc(call))
}

/// Returns a send phase without an end.
fn send(number: u32, to: ThreadId, words: &[u32]) -> Step
    requires { length words.now ≤ max_words }
{
    ipc(number, to, NOBODY, 0, 0, words)
}

/// Returns a receive phase without an end.
fn receive(number: u32, from: ThreadId, acceptor: u32) -> Step {
    ipc(number, NOBODY, from, 0, acceptor, &[])
}

/// Returns an Unmap.
fn unmap(number: u32, control: u32, words: &[u32]) -> Step
    requires { length words.now ≤ max_words }
{
    let call = UnmapCall {
        control,
        words: copied(words),
    };
    Step::Start(number, Call::Unmap(call))
}

/// Returns a page fault at this address with the instruction pointer 0x1234.
fn fault(number: u32, address: u32, access: u8) -> Step {
    let call = FaultCall {
        address,
        ip: 0x1234,
        access: Rights::of_bits(access),
    };
    Step::Start(number, Call::Fault(call))
}

/// Returns a control of threads.
fn control(number: u32, control: Control) -> Step {
    Step::Start(number, Call::Control(control))
}

/// Returns a new thread without a pager.
fn create(number: u32, id: ThreadId, space: ThreadId) -> Step {
    control(
        number,
        Control::Create(Create {
            id,
            space,
            pager: NOBODY,
        }),
    )
}

/// Another pager for a thread.
fn set_pager(number: u32, id: ThreadId, pager: ThreadId) -> Step {
    control(number, Control::SetPager(SetPager { id, pager }))
}

/// Returns the end of a thread.
fn delete(number: u32, id: ThreadId) -> Step {
    control(number, Control::Delete(id))
}

/// Does these steps, up to the first that is refused.
fn step_all(kernel: &mut Kernel, steps: &[Step]) -> Result<(), Refused> {
    for step in steps {
        kernel.step(step)?;
    }
    Ok(())
}

/// Returns whether the step is done with this outcome, and ends the calls of these threads.
fn ends(kernel: &mut Kernel, step: &Step, outcome: Outcome, ended: &[u32]) -> bool {
    match kernel.step(step) {
        Ok(answer) => answer.outcome == outcome && answer.ended.as_slice() == ended,
        Err(_) => false,
    }
}

/// Returns whether the step starts, and ends the calls of these threads.
fn starts(kernel: &mut Kernel, step: &Step, ended: &[u32]) -> bool {
    ends(kernel, step, Outcome::Started, ended)
}

/// Returns whether the step is refused with this refusal.
fn is_refused(kernel: &mut Kernel, step: &Step, want: Refused) -> bool {
    kernel.step(step).err() == Some(want)
}

/// Returns whether this transfer is the step that comes next.
fn transfers_next(kernel: &Kernel, from: u32, to: u32) -> bool {
    matches!(kernel.enabled(), Some(Step::Transfer(a, b)) if a == from && b == to)
}

/// Returns whether the thread's reply is that of a control.
fn is_controlled(kernel: &Kernel, number: u32) -> bool {
    matches!(kernel.reply(number), Some(Reply::Controlled))
}

/// Returns whether the thread's fault was a hit.
fn is_hit(kernel: &Kernel, number: u32) -> bool {
    matches!(kernel.reply(number), Some(Reply::Hit))
}

/// Returns a kernel in which root created thread 3, and that thread waits for a message from any thread.
fn waiting(alloc: Global, acceptor: u32) -> Result<Kernel, Refused> {
    let mut kernel = Kernel::boot(alloc, 256, PageSize::Kib4)?;
    step_all(
        &mut kernel,
        &[create(2, THIRD, THIRD), receive(3, ANYBODY, acceptor)],
    )?;
    Ok(kernel)
}

/// Returns the tag, the error, the sender and the words of the reply of an Ipc.
fn replied(
    kernel: &Kernel,
    number: u32,
    tag: u32,
    error: u32,
    from: ThreadId,
    words: &[u32],
) -> bool {
    match kernel.reply(number) {
        Some(Reply::Ipc(reply)) => reply.tag == tag
            && reply.error == error
            && reply.from == from
            && reply.words.as_slice() == words,
        _ => false,
    }
}

/// Returns whether the thread's Ipc failed with this ErrorCode.
fn ipc_failed(kernel: &Kernel, number: u32, error: u32) -> bool {
    replied(kernel, number, 0x8000, error, NOBODY, &[])
}

/// Returns the complete window.
fn complete() -> Fpage {
    Fpage::Complete(Rights::of_bits(0))
}

#[test]
fn usual_send(rt: HostRuntime) {
    let sends = Call::send(THIRD, copied(&MAPS), Timeout::Zero);
    assert_eq!(rt;
        Step::Start(2, sends),
        ipc(2, THIRD, NOBODY, 0x400_0000, 0, &MAPS)
    );
}

#[test]
fn usual_receive(rt: HostRuntime) {
    let receives = Call::receive(ANYBODY, complete(), Timeout::Zero);
    assert_eq!(rt;
        Step::Start(3, receives),
        ipc(3, NOBODY, ANYBODY, 0x400, COMPLETE, &[])
    );
}

#[test]
fn usual_call(rt: HostRuntime) {
    let words = copied(&MAPS);
    let calls = Call::call(THIRD, words, complete(), Timeout::Never, Timeout::Zero);
    assert_eq!(rt;
        Step::Start(2, calls),
        ipc(2, THIRD, THIRD, 0x400, COMPLETE, &MAPS)
    );
}

#[test]
fn usual_reply_and_wait(rt: HostRuntime) {
    let words = copied(&MAPS);
    let replies = Call::reply_and_wait(THIRD, words, complete(), Timeout::Zero, Timeout::Never);
    assert_eq!(rt;
        Step::Start(2, replies),
        ipc(2, THIRD, ANYBODY, 0x400_0000, COMPLETE, &MAPS)
    );
}

#[test]
fn other_usual_calls(rt: HostRuntime) {
    assert_eq!(rt;
        Step::Start(3, Call::fault(0x8000, 0x1234, Rights::W)),
        fault(3, 0x8000, 2)
    );
    assert_eq!(rt;
        Call::unmap(false, &[Fpage::Complete(Rights::R), Fpage::Nil]).map(|call| Step::Start(
            3, call
        )),
        Some(unmap(3, 1, &[0x14, 0]))
    );
    assert_eq!(rt;
        Call::unmap(true, &[Fpage::Nil]).map(|call| Step::Start(3, call)),
        Some(unmap(3, 0x40, &[0]))
    );
    assert_eq!(rt; Call::unmap(true, &[]), None);
    assert_eq!(rt; Call::unmap(true, &[Fpage::Nil; 65]), None);
    assert_eq!(rt;
        Step::Start(2, Call::create(THIRD, ROOT, NOBODY)),
        create(2, THIRD, ROOT)
    );
    assert_eq!(rt;
        Step::Start(2, Call::set_pager(THIRD, ROOT)),
        set_pager(2, THIRD, ROOT)
    );
    assert_eq!(rt; Step::Start(2, Call::delete(THIRD)), delete(2, THIRD));
}

/// What a page shows that was mapped from a page of a space.
fn mapped(frame: u32, rights: u8, space: u64, page: u32) -> Option<Mapping> {
    Some(Mapping {
        frame,
        rights: Rights::of_bits(rights),
        parent: Some(Place { space, page }),
    })
}

/// Judges a kernel in which nothing was done.
fn check_start(rt: &impl Abort, kernel: &Kernel) {
    assert_eq!(rt; kernel.space_of(1), Some(0));
    assert_eq!(rt; kernel.space_of(2), Some(1));
    assert_eq!(rt; kernel.space_of(3), None);
    assert_eq!(rt; kernel.next_page(0, 4095), Some(4095));
    assert_eq!(rt; kernel.next_page(0, 4096), None);
    assert_eq!(rt; kernel.next_page(1, 0), None);
    assert!(rt; kernel.enabled().is_none());
    assert!(rt; kernel.reply(2).is_none());
}

#[test]
fn the_start(rt: HostRuntime) -> Result<(), Fail> {
    let kernel = Kernel::boot(rt.alloc(), 4096, PageSize::Kib4)?;
    check_start(&rt, &kernel);
    Ok(())
}

#[test]
fn frames_out_of_range(rt: HostRuntime) {
    for frames in [0, 4097] {
        assert_eq!(rt;
            Kernel::boot(rt.alloc(), frames, PageSize::Kib4).err(),
            Some(Refused::BadFrames)
        );
    }
}

/// What came of a step that was not refused.
fn outcome(answer: &Result<Answer, Refused>) -> Option<Outcome> {
    match answer {
        Ok(done) => Some(done.outcome),
        Err(_) => None,
    }
}

/// Returns whether each step was done: it started a call, or, as the last, was a transfer.
fn all_done(answers: &[Result<Answer, Refused>]) -> bool {
    for (place, answer) in answers.iter().enumerate() {
        let want = if place + 1 < answers.len() {
            Outcome::Started
        } else {
            Outcome::Done
        };
        if outcome(answer) != Some(want) {
            return false;
        }
    }
    true
}

/// Thread 3 gets page 16 of sigma0.
fn first_path() -> [Step; 4] {
    [
        create(2, THIRD, THIRD),
        receive(3, ANYBODY, COMPLETE),
        send(1, THIRD, &MAPS),
        Step::Transfer(1, 3),
    ]
}

/// Judges a kernel in which that was done.
fn check_first_path(rt: &impl Abort, kernel: &Kernel) {
    assert_eq!(rt; kernel.space_of(3), Some(2));
    assert_eq!(rt; kernel.mapping(2, 32), mapped(16, 7, 0, 16));
    assert_eq!(rt; kernel.mapping(2, 33), None);
    assert_eq!(rt; kernel.next_page(2, 0), Some(32));
    assert_eq!(rt; kernel.next_page(2, 33), None);
    assert!(rt; replied(kernel, 3, 0x80, 0, SIGMA0, &[0x2_0008, 0x1_00c7]));
    assert!(rt; replied(kernel, 1, 0, 0, NOBODY, &[]));
    assert!(rt; is_controlled(kernel, 2));
}

#[test]
fn maps_a_page_of_sigma0(rt: HostRuntime) -> Result<(), Fail> {
    let mut kernel = Kernel::boot(rt.alloc(), 256, PageSize::Kib4)?;
    let answers = kernel.run(&first_path())?;
    assert_eq!(rt; answers.len(), 4);
    assert!(rt; all_done(answers.as_slice()));
    check_first_path(&rt, &kernel);
    Ok(())
}

/// Does the same, takes the right to write from the second of the four small pages, which is at 0x20400, and faults where it was.
fn do_small_pages(kernel: &mut Kernel) -> Result<(), Refused> {
    step_all(kernel, &first_path())?;
    step_all(kernel, &[unmap(1, 0, &[0x1_04a2]), fault(3, 0x2_07ff, 5)])
}

/// Judges the small pages.
fn check_small_pages(rt: &impl Abort, kernel: &Kernel) {
    for (page, rights) in [(0, 7), (1, 5), (2, 7), (3, 7)] {
        assert_eq!(rt;
            kernel.mapping(2, 128 + page),
            mapped(64 + page, rights, 0, 64 + page)
        );
    }
    assert_eq!(rt; kernel.next_page(2, 0), Some(128));
    assert_eq!(rt; kernel.next_page(2, 132), None);
    assert!(rt; is_hit(kernel, 3));
    assert!(rt; kernel.page_size() == PageSize::Kib1);
    kernel.law_pages();
}

#[test]
fn maps_small_pages_of_sigma0(rt: HostRuntime) -> Result<(), Fail> {
    let mut kernel = Kernel::boot(rt.alloc(), 256, PageSize::Kib1)?;
    do_small_pages(&mut kernel)?;
    check_small_pages(&rt, &kernel);
    Ok(())
}

/// Returns a receive, a send to it and their transfer, again and again.
fn many_messages(alloc: Global, rounds: u32) -> Result<Vec<Step>, Fail> {
    let mut steps = Vec::new(alloc);
    for round in 0..rounds {
        steps.push(receive(2, ANYBODY, 0))?;
        steps.push(send(1, ROOT, &[1, round]))?;
        steps.push(Step::Transfer(1, 2))?;
    }
    Ok(steps)
}

/// Judges the answers to them.
fn check_many(rt: &impl Abort, answers: &[Result<Answer, Refused>]) {
    assert_eq!(rt; answers.len(), 100_002);
    for (place, answer) in answers.iter().enumerate() {
        let want = if place % 3 == 2 {
            Outcome::Done
        } else {
            Outcome::Started
        };
        assert_eq!(rt; outcome(answer), Some(want), "of step {place}");
    }
}

#[test]
fn a_hundred_thousand_steps(rt: HostRuntime) -> Result<(), Fail> {
    let steps = many_messages(rt.alloc(), 33_334)?;
    let mut kernel = Kernel::boot(rt.alloc(), 1, PageSize::Kib4)?;
    let answers = kernel.run(steps.as_slice())?;
    check_many(&rt, answers.as_slice());
    assert!(rt; replied(&kernel, 2, 1, 0, SIGMA0, &[33_333]));
    Ok(())
}

/// Returns whether this comes next and is told so: as a step that is done with this outcome and ends the calls of these threads, and
/// without a list.
fn comes_next(
    kernel: &mut Kernel,
    step: &Step,
    told: NextStep,
    outcome: Outcome,
    ended: &[u32],
) -> bool {
    match kernel.next() {
        Some(next) => {
            let answer = next.answer();
            next == told
                && next.step() == *step
                && answer.outcome == outcome
                && answer.ended.as_slice() == ended
        }
        None => false,
    }
}

/// Returns whether thread 2's message to thread 3 comes next, and ends both calls.
fn comes_to_third(kernel: &mut Kernel) -> bool {
    let told = NextStep::Transfer(2, 3, Outcome::Done, true);
    comes_next(kernel, &Step::Transfer(2, 3), told, Outcome::Done, &[2, 3])
}

/// Returns whether the end of sigma0's wait comes next.
fn expires_for_sigma0(kernel: &mut Kernel) -> bool {
    let told = NextStep::Expire(1);
    comes_next(kernel, &Step::Expire(1), told, Outcome::Expired, &[1])
}

/// Returns whether this is what comes next.
fn is_next(kernel: &Kernel, want: Option<Step>) -> bool {
    kernel.enabled() == want
}

#[test]
fn steps_that_come_next(rt: HostRuntime) -> Result<(), Fail> {
    let mut kernel = waiting(rt.alloc(), COMPLETE)?;
    assert!(rt; kernel.next().is_none());
    let expiring = ipc(1, NOBODY, ANYBODY, 0x0400, 0, &[]);
    step_all(&mut kernel, &[send(2, THIRD, &[0x1, 7]), expiring]).expect(&rt, "two calls");
    assert!(rt; is_refused(&mut kernel, &Step::Expire(2), Refused::NotEnabled));
    assert!(rt; is_next(&kernel, Some(Step::Transfer(2, 3))));
    assert!(rt; comes_to_third(&mut kernel));
    assert!(rt; is_next(&kernel, Some(Step::Expire(1))));
    assert!(rt; expires_for_sigma0(&mut kernel));
    assert!(rt; is_next(&kernel, None));
    assert!(rt; kernel.next().is_none());
    Ok(())
}

/// Returns whether the call starts, and this is written in the place of another answer: the calls of these threads ended.
fn writes(kernel: &mut Kernel, start: &Step, answer: &mut Answer, ended: &[u32]) -> bool {
    match start {
        Step::Start(number, call) => {
            kernel.start(*number, call, answer).is_ok()
                && answer.outcome == Outcome::Started
                && answer.ended.as_slice() == ended
        }
        _ => false,
    }
}

/// Starts calls over one answer.
fn check_starts(rt: &impl Abort, kernel: &mut Kernel, answer: &mut Answer) {
    assert!(rt; writes(kernel, &send(2, THIRD, &[0x1, 7]), answer, &[]));
    assert!(rt; !writes(kernel, &unmap(2, 0, &[0x1_00c7]), answer, &[]));
    assert!(rt; comes_to_third(kernel));
    assert!(rt; writes(kernel, &unmap(3, 0, &[0x1_00c7]), answer, &[3]));
    assert!(rt; writes(kernel, &create(2, FOURTH, THIRD), answer, &[2]));
    assert!(rt; writes(kernel, &receive(3, FOURTH, COMPLETE), answer, &[]));
    assert!(rt; writes(kernel, &delete(2, FOURTH), answer, &[2, 3]));
    assert!(rt; ipc_failed(kernel, 3, 5));
}

#[test]
fn calls_that_start_in_a_lent_place(rt: HostRuntime) -> Result<(), Fail> {
    let mut kernel = waiting(rt.alloc(), COMPLETE)?;
    let mut answer = Answer {
        outcome: Outcome::Expired,
        ended: ArrayVec::new(),
    };
    check_starts(&rt, &mut kernel, &mut answer);
    Ok(())
}

/// Returns whether what sigma0 sent was delivered in the one kernel, and in the other the one thread of its space was deleted that waited
/// for it.
fn went_both_ways(kernel: &Kernel, copy: &Kernel) -> bool {
    kernel.mapping(2, 32) == mapped(16, 7, 0, 16)
        && replied(kernel, 3, 0x80, 0, SIGMA0, &[0x2_0008, 0x1_00c7])
        && kernel.next_thread(3) == Some(3)
        && kernel.next_space(2) == Some(2)
        && ipc_failed(copy, 1, 4)
        && copy.next_thread(3).is_none()
        && copy.next_space(2).is_none()
        && copy.next_page(2, 0).is_none()
}

/// Does the transfer in the one kernel, and deletes thread 3 in the other.
fn go_both_ways(rt: &impl Abort, kernel: &mut Kernel, copy: &mut Kernel) {
    assert!(rt; transfers_next(copy, 1, 3));
    assert!(rt; ends(kernel, &Step::Transfer(1, 3), Outcome::Done, &[1, 3]));
    assert!(rt; starts(copy, &delete(2, THIRD), &[2, 1, 3]));
    assert!(rt; went_both_ways(kernel, copy));
}

/// Copies the first kernel once more, and deletes thread 3 in it: its new copy stays as it was.
fn copy_again(rt: &impl Abort, kernel: &mut Kernel, copy: &Kernel) -> Result<(), Fail> {
    let again = kernel.copy()?;
    assert!(rt; starts(kernel, &delete(2, THIRD), &[2]));
    assert!(rt; went_both_ways(&again, copy));
    Ok(())
}

#[test]
fn a_run_taken_both_ways(rt: HostRuntime) -> Result<(), Fail> {
    let mut kernel = waiting(rt.alloc(), COMPLETE)?;
    assert!(rt; starts(&mut kernel, &send(1, THIRD, &MAPS), &[]));
    let mut copy = kernel.copy()?;
    go_both_ways(&rt, &mut kernel, &mut copy);
    copy_again(&rt, &mut kernel, &copy)?;
    Ok(())
}
