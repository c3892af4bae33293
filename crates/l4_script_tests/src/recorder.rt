//! Calls of several threads over a recorder.

use l4_ipc::{
    ArrayVec, Call, Fpage, IpcReply, MAX_WORDS, NextStep, Outcome, PageSize, Refused, Reply,
    Rights, ThreadId, Timeout,
};
use l4_record::{Appended, RecordRefusal, Recorder};
use std::alloc::Global;
use std::process::Abort;

const FRAMES: u32 = 16;

/// The number of root, which may make and end threads.
const ROOT: u32 = 2;

const ROOT_ID: ThreadId = ThreadId(0x8001);

/// A thread that root makes.
const THIRD: u32 = 3;

const THIRD_ID: ThreadId = ThreadId(3 * 0x4000 + 1);

/// A number that names no thread.
const NOBODY: u32 = 4;

/// A message of one word, with a label: its tag, then the word.
const MESSAGE: [u32; 2] = [0x0005_0001, 0x2a];

/// Makes the third thread in a space of its own.
fn create() -> Call {
    Call::create(THIRD_ID, THIRD_ID, ThreadId::nil())
}

/// Sends the message to the third thread. It waits for as long as it takes.
fn send() -> Call {
    let mut words: ArrayVec<u32, MAX_WORDS> = ArrayVec::new();
    let _ = words.try_extend_from_slice(&MESSAGE);
    Call::send(THIRD_ID, words, Timeout::Never)
}

/// Receives a message from any thread with a complete window. It waits for as long as it takes.
fn receive() -> Call {
    Call::receive(
        ThreadId::any(),
        Fpage::Complete(Rights::all()),
        Timeout::Never,
    )
}

/// Returns whether this is the message, as root sent it.
fn is_message(reply: Option<&Reply>) -> bool {
    match reply {
        Some(
            Reply::Ipc(
                IpcReply {
                    tag,
                    error,
                    from,
                    words,
                },
            ),
        ) => {
            *tag == MESSAGE[0]
                && *error == 0
                && *from == ROOT_ID
                && words.as_slice() == &MESSAGE[1..]
        }
        _ => false,
    }
}

/// Returns a recorder, and a place for what is appended.
fn recorder(rt: &impl Abort, alloc: Global) -> (Recorder, Appended) {
    let (recorder, _, _) = Recorder::new(alloc, FRAMES, PageSize::Kib4, 0).expect(rt, "a recorder");
    (recorder, Appended::new())
}

/// Root makes the third thread, which waits for a message.
fn make_third(rt: &impl Abort, recorder: &mut Recorder, appended: &mut Appended) {
    assert!(rt; recorder.enter(ROOT, &create(), appended).is_ok());
    assert!(rt; recorder.enter(THIRD, &receive(), appended).is_ok());
}

/// A thread that was left waiting gets a message, and enters another call: nobody but the kernel keeps its reply.
fn check_message(rt: &impl Abort, recorder: &mut Recorder, appended: &mut Appended) {
    make_third(rt, recorder, appended);
    assert!(rt; recorder.kernel().reply(THIRD).is_none());
    assert!(rt; recorder.enter(ROOT, &send(), appended).is_ok());
    assert!(rt; is_message(recorder.kernel().reply(THIRD)));
    assert!(rt; recorder.enter(THIRD, &receive(), appended).is_ok());
    assert_eq!(rt; recorder.history().len(), 5);
}

#[test]
fn message(rt: HostRuntime) {
    let (mut recorder, mut appended) = recorder(&rt, rt.alloc());
    check_message(&rt, &mut recorder, &mut appended);
}

/// Hands out a segment, and judges the numbers of its entries.
fn check_segment(rt: &impl Abort, recorder: &mut Recorder, first: usize, entries: usize) {
    let segment = recorder.hand_out().expect(rt, "a segment");
    assert_eq!(rt; segment.first, first);
    assert_eq!(rt; segment.history.len(), entries);
    assert!(rt; recorder.history().is_empty());
}

/// The history is handed out in segments. The numbers of entries continue, and the kernel is as it was.
fn check_segments(rt: &impl Abort, recorder: &mut Recorder, appended: &mut Appended) {
    make_third(rt, recorder, appended);
    check_segment(rt, recorder, 0, 2);
    assert!(rt; recorder.enter(ROOT, &send(), appended).is_ok());
    assert!(rt; is_message(recorder.kernel().reply(THIRD)));
    assert_eq!(rt; recorder.history().len(), 2);
    check_segment(rt, recorder, 2, 2);
    check_segment(rt, recorder, 4, 0);
    assert_eq!(rt; recorder.count(), 4);
    assert_eq!(rt; recorder.kept_from(), 4);
}

#[test]
fn segments(rt: HostRuntime) {
    let (mut recorder, mut appended) = recorder(&rt, rt.alloc());
    check_segments(&rt, &mut recorder, &mut appended);
}

/// What a call appended is told: whose calls ended in its start, and the steps that came next.
fn check_appended(rt: &impl Abort, recorder: &mut Recorder, told: &mut Appended) {
    assert!(rt; recorder.enter(ROOT, &create(), told).is_ok());
    assert!(rt;
        told.start.ended.as_slice() == [ROOT].as_slice() && told.next.as_slice().is_empty()
    );
    assert!(rt; recorder.enter(THIRD, &receive(), told).is_ok());
    assert!(rt; told.start.ended.is_empty() && told.next.as_slice().is_empty());
    assert!(rt; recorder.enter(ROOT, &send(), told).is_ok());
    assert!(rt; told.start.ended.is_empty());
    let transfer = NextStep::Transfer(ROOT, THIRD, Outcome::Done, true);
    assert!(rt; told.next.as_slice() == [transfer].as_slice());
    assert!(rt; recorder.enter(THIRD, &receive(), told).is_ok());
    assert!(rt; recorder.enter(ROOT, &Call::delete(THIRD_ID), told).is_ok());
    assert!(rt; told.start.ended.as_slice() == [ROOT, THIRD].as_slice());
}

#[test]
fn appended(rt: HostRuntime) {
    let (mut recorder, mut told) = recorder(&rt, rt.alloc());
    check_appended(&rt, &mut recorder, &mut told);
}

/// A call of a number that names no thread is refused, and one of a thread that waits.
fn check_refused(rt: &impl Abort, recorder: &mut Recorder, appended: &mut Appended) {
    make_third(rt, recorder, appended);
    let unknown = Err(RecordRefusal::Kernel(Refused::UnknownThread));
    assert_eq!(rt; recorder.enter(NOBODY, &receive(), appended), unknown);
    let busy = Err(RecordRefusal::Kernel(Refused::Busy));
    assert_eq!(rt; recorder.enter(THIRD, &receive(), appended), busy);
    assert_eq!(rt; recorder.history().len(), 2);
}

#[test]
fn refused(rt: HostRuntime) {
    let (mut recorder, mut appended) = recorder(&rt, rt.alloc());
    check_refused(&rt, &mut recorder, &mut appended);
}

/// No recorder has no frames.
#[test]
fn no_frames(rt: HostRuntime) {
    let refusal = match Recorder::new(rt.alloc(), 0, PageSize::Kib4, 0) {
        Ok(_) => None,
        Err(refusal) => Some(refusal),
    };
    assert_eq!(rt; refusal, Some(RecordRefusal::Kernel(Refused::BadFrames)));
}
