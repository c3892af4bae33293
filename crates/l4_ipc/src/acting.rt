//! Executes the steps on the parts of the kernel.
ghost use Rattle.std.specs.Prelude.{◌≡◌, ◌≤◌, [], length, true, false, IsTrue, IsSome, MatchOption, Ok, Err, OnOk, OnErr};
ghost use Rattle.l4_mapdb.specs.Mappings.{Mappings};
ghost use Rattle.l4_threads.specs.Threads.{state_of, runs, end_call};
ghost use Rattle.l4_threads.specs.Enabled.{IsFirstSender};
ghost use Rattle.l4_threads.specs.declared.Reply.TheVariants.{Controlled};
ghost use Rattle.l4_ipc.specs.Machine.{machine};
ghost use Rattle.l4_ipc.specs.SpacePages.{FitIn};
ghost use Rattle.l4_fpage.specs.declared.sizes.PageSize.{PageSize as APageSize};
ghost use Rattle.l4_threads.specs.Control.{asks_new};
ghost use Rattle.l4_ipc.specs.Inside.Sound.{HaveSpaces};
ghost use Rattle.l4_msg.specs.Messages.{HasGoodTag, tag_of};
ghost use Rattle.l4_msg.specs.Sizes.{max_words, max_items};
ghost use Rattle.l4_msg.specs.Tags.{TagReads};
ghost use Rattle.l4_ipc.specs.Start.{has_send, has_bad_timeout, IsSent};
ghost use Rattle.l4_ipc.specs.Inside.Turns.{sent_of};
ghost use Rattle.l4_ipc.specs.Inside.Answering.{StartsCall, StartsControl, ExpiresCall, CancelsCall, answered_if, written};
ghost use Rattle.l4_ipc.specs.NextSteps.{answer_of, own_answer, wait_answer, wait_result, canceled_if, expired_if};
ghost use Rattle.l4_ipc.specs.Steps.{cause_error, with_space, Steps};
ghost use Rattle.l4_ipc.specs.declared.steps.Step.TheVariants.{Start, Transfer as Transfers};
ghost use Rattle.l4_ipc.specs.declared.steps.NextStep.TheVariants.{Transfer as Transferred};
ghost use Rattle.l4_ipc.specs.declared.steps.Outcome.TheVariants.{Started};
ghost use Rattle.l4_ipc.specs.declared.calls.Call.{Call};
ghost use Rattle.l4_ipc.specs.declared.calls.Call.TheVariants.{Ipc, Fault as Faults, Unmap as Unmaps, Control as Controls};
ghost use Rattle.l4_ipc.specs.declared.calls.Control.TheVariants.{Create as Creates, SetPager as SetsPager};

use crate::calls::{Call, Control, Create, FaultCall, IpcCall, SetPager, UnmapCall};
use crate::deleting::delete;
use crate::delivering::{
    deliver, end_receiver, is_done, meet, receiver_ending, sender_turn, tag_of,
};
use crate::faulting::{FaultingThread, enter_fault};
use crate::steps::{Answer, CancelCause, Lower, Outcome, Refused};
use arrayvec::ArrayVec;
use l4_forest::{Forest, NoMemory};
use l4_fpage::PageSize;
use l4_msg::{Item, Message, Tag};
use l4_phases::{Ending, end, end_wait, enter, going_on, list_if, partner};
use l4_threads::{Envelope, SendPhase, Threads, Wordless};
use l4_unmap::unmap;

/// The number of typed words of a message with one item.
const ITEM_WORDS: u8 = 2;

/// Overwrites the answer: a call was started, in which either this thread's call ended or none did.
fn write_started(answer: &mut Answer, number: u32, ends: bool)
    ensures { answer.new ≡ own_answer ends number }
{
    answer.outcome = Outcome::Started;
    answer.ended.clear();
    if ends {
        answer.ended.push(number);
    }
}

/// Overwrites the answer of a call that was started, or returns the refusal.
#[inline(always)]
fn tell(entered: Result<bool, Refused>, number: u32, answer: &mut Answer) -> Result<(), Refused>
    ensures { written result answer.new ≡ answered_if number entered }
{
    match entered {
        Ok(ends) => {
            write_started(answer, number, ends);
            Ok(())
        }
        Err(e) => Err(e),
    }
}

/// Starts an Ipc of a running thread that has no send phase, so that no message is read. Returns whether the call has ended.
fn start_receive(threads: &mut Threads, number: u32, call: &IpcCall) -> Result<bool, Refused>
    requires running { IsTrue (runs threads.old number) }
    requires receives { has_send call.now ≡ false }
    ensures { StartsCall threads.old number (Ipc call.now) result threads.new }
{
    if call.has_bad_timeout() {
        return Err(Refused::BadTimeout);
    }
    let window = match call.window() {
        Ok(window) => window,
        Err(fault) => return Err(Refused::Lower(Lower::Message(fault))),
    };
    let turn = going_on(threads, call.later(window), false);
    Ok(enter(threads, number, turn))
}

/// Starts the send phase of a running thread's Ipc, with the registers of its message and the items in them. Returns whether the call has
/// ended.
#[inline(always)]
fn start_message(
    threads: &mut Threads,
    number: u32,
    call: &IpcCall,
    words: &[u32],
    items: &[Item],
) -> Result<bool, Refused>
    requires running { IsTrue (runs threads.old number) }
    requires timely { has_bad_timeout call.now ≡ false }
    requires sends { has_send call.now ≡ true }
    requires sent { IsSent true call.now.words.items (sent_of words.now items.now) }
    requires words { length words.now ≤ max_words }
    requires items { length items.now ≤ max_items }
    ensures { StartsCall threads.old number (Ipc call.now) result threads.new }
{
    let window = match call.window() {
        Ok(window) => window,
        Err(fault) => return Err(Refused::Lower(Lower::Message(fault))),
    };
    let Some(to) = partner(threads, number, call.to) else {
        end(threads, number, Ending::Failed(false, 4));
        return Ok(true);
    };
    let phase = SendPhase {
        to,
        expires: call.sends_at_once(),
        then: call.later(window),
        fault: false,
    };
    threads.start_message(number, words, items, phase);
    Ok(false)
}

/// Starts the send phase of a running thread's Ipc whose message has items. It is a function of its own because its list has room for all
/// items of a message, and no message with one item should clear that room.
#[inline(never)]
fn start_listed(
    threads: &mut Threads,
    number: u32,
    call: &IpcCall,
    tag: &Tag,
) -> Result<bool, Refused>
    requires running { IsTrue (runs threads.old number) }
    requires timely { has_bad_timeout call.now ≡ false }
    requires sends { has_send call.now ≡ true }
    requires good { HasGoodTag call.now.words.items }
    requires tag { TagReads (tag_of call.now.words.items) tag.now }
    ensures { StartsCall threads.old number (Ipc call.now) result threads.new }
{
    let items = match Message::read_typed(call.words.as_slice(), tag) {
        Ok(items) => items,
        Err(fault) => return Err(Refused::Lower(Lower::Message(fault))),
    };
    start_message(
        threads,
        number,
        call,
        call.counted_words(tag),
        items.as_slice(),
    )
}

/// Starts the send phase of a running thread's Ipc whose message has items. It makes no list for a message with one item.
fn start_items(
    threads: &mut Threads,
    number: u32,
    call: &IpcCall,
    tag: &Tag,
) -> Result<bool, Refused>
    requires running { IsTrue (runs threads.old number) }
    requires timely { has_bad_timeout call.now ≡ false }
    requires sends { has_send call.now ≡ true }
    requires good { HasGoodTag call.now.words.items }
    requires tag { TagReads (tag_of call.now.words.items) tag.now }
    ensures { StartsCall threads.old number (Ipc call.now) result threads.new }
{
    if tag.typed != ITEM_WORDS {
        return start_listed(threads, number, call, tag);
    }
    let item = match Message::read_only_item(call.words.as_slice(), tag) {
        Ok(item) => item,
        Err(fault) => return Err(Refused::Lower(Lower::Message(fault))),
    };
    start_message(threads, number, call, call.counted_words(tag), &[item])
}

/// Starts an Ipc of a running thread. Returns whether the call has ended.
#[inline(always)]
fn start_ipc(threads: &mut Threads, number: u32, call: &IpcCall) -> Result<bool, Refused>
    requires { IsTrue (runs threads.old number) }
    ensures { StartsCall threads.old number (Ipc call.now) result threads.new }
{
    if !call.has_send() {
        return start_receive(threads, number, call);
    }
    if call.has_bad_timeout() {
        return Err(Refused::BadTimeout);
    }
    let tag = match Message::read_tag(call.words.as_slice()) {
        Ok(tag) => tag,
        Err(fault) => return Err(Refused::Lower(Lower::Message(fault))),
    };
    if tag.typed == 0 {
        return start_message(threads, number, call, call.counted_words(&tag), &[]);
    }
    start_items(threads, number, call, &tag)
}

/// Starts a page fault of a running thread.
fn start_fault(
    threads: &mut Threads,
    forest: &Forest,
    size: PageSize,
    number: u32,
    call: &FaultCall,
) -> Result<bool, Refused>
    requires { IsTrue (runs threads.old number) }
    ensures { Steps (machine size threads.old forest.now) (Start number (Faults call.now))
        (answered_if number result) (machine size threads.new forest.now) }
{
    let Some(thread) = threads.thread(number) else {
        return Err(Refused::UnknownThread);
    };
    let faulting = FaultingThread {
        number,
        space: thread.space,
        pager: thread.pager,
    };
    let ends = enter_fault(threads, forest, size, faulting, call);
    Ok(ends)
}

/// Revokes rights for a running thread.
fn start_unmap(
    threads: &mut Threads,
    forest: &mut Forest,
    size: PageSize,
    number: u32,
    call: &UnmapCall,
) -> Result<bool, Refused>
    requires { IsTrue (runs threads.old number) }
    ensures { Steps (machine size threads.old forest.old) (Start number (Unmaps call.now))
        (answered_if number result) (machine size threads.new forest.new) }
{
    let Some(space) = threads.space_of(number) else {
        return Err(Refused::UnknownThread);
    };
    if let Err(fault) = unmap(forest, space, size, call.control, call.words.as_slice()) {
        return Err(Refused::Lower(Lower::Unmap(fault)));
    }
    threads.end_wordless(number, Wordless::Unmapped);
    Ok(true)
}

/// Ends the thread's call to ThreadControl.
fn controlled(threads: &mut Threads, number: u32)
    requires { IsSome (state_of threads.old number) }
    ensures { threads.new ≡ end_call threads.old number Controlled }
{
    threads.end_wordless(number, Wordless::Controlled);
}

/// Creates the space of a new thread, unless the thread shares the space of another one.
fn begin_space(forest: &mut Forest, call: &Create, space: u64) -> Result<(), NoMemory>
    ensures ok { OnOk result
        (forest.new ≡ with_space forest.old (asks_new call.now.id call.now.space) space) }
    ensures err { OnErr result (forest.new ≡ forest.old) }
    ensures asked { OnErr result (IsTrue (asks_new call.now.id call.now.space)) }
{
    if call.space.0 == call.id.0 {
        forest.new_space(space)
    } else {
        Ok(())
    }
}

/// Creates a thread for a running thread.
fn create(
    threads: &mut Threads,
    forest: &mut Forest,
    number: u32,
    call: &Create,
) -> Result<bool, Refused>
    requires { IsTrue (runs threads.old number) }
    ensures { StartsControl threads.old forest.old number (Creates call.now)
        (answered_if number result) threads.new forest.new }
{
    let space = match threads.test_create(number, call.id, call.space) {
        Ok(space) => space,
        Err(fault) => return Err(Refused::Lower(Lower::Thread(fault))),
    };
    if begin_space(forest, call, space).is_err() {
        return Err(Refused::Lower(Lower::NoMemory));
    }
    let _ = threads.create(number, call.id, call.space, call.pager);
    controlled(threads, number);
    Ok(true)
}

/// Changes the pager of a thread for a running thread.
fn set_pager(threads: &mut Threads, number: u32, call: &SetPager) -> Result<bool, Refused>
    requires { IsTrue (runs threads.old number) }
    ensures { StartsCall threads.old number (Controls (SetsPager call.now)) result threads.new }
{
    if let Err(fault) = threads.set_pager(number, call.id, call.pager) {
        return Err(Refused::Lower(Lower::Thread(fault)));
    }
    controlled(threads, number);
    Ok(true)
}

/// Starts a thread control of a running thread.
fn start_control(
    threads: &mut Threads,
    forest: &mut Forest,
    number: u32,
    control: &Control,
    answer: &mut Answer,
) -> Result<(), Refused>
    requires { IsTrue (runs threads.old number) }
    ensures { StartsControl threads.old forest.old number control.now (written result answer.new)
        threads.new forest.new }
{
    match control {
        Control::Create(call) => tell(create(threads, forest, number, call), number, answer),
        Control::SetPager(call) => tell(set_pager(threads, number, call), number, answer),
        Control::Delete(id) => delete(threads, forest, number, *id, answer),
    }
}

/// Returns the reason why a thread cannot start a call, if there is one.
fn not_running(threads: &Threads, number: u32) -> Option<Refused>
    ensures { MatchOption result (IsTrue (runs threads.now number))
        (λ e. (call : Call) (size : APageSize) (s : Mappings) → Steps (machine size threads.now s) (Start number call) (Err e) (machine size threads.now s)) }
{
    let Some(state) = threads.state(number) else {
        return Some(Refused::UnknownThread);
    };
    if state.is_running() {
        return None;
    }
    Some(Refused::Busy)
}

/// Starts a call, and overwrites the answer that the caller passes.
#[inline(always)]
pub fn start(
    threads: &mut Threads,
    forest: &mut Forest,
    size: PageSize,
    number: u32,
    call: &Call,
    answer: &mut Answer,
) -> Result<(), Refused>
    ensures { Steps (machine size threads.old forest.old) (Start number call.now)
        (written result answer.new) (machine size threads.new forest.new) }
{
    if let Some(e) = not_running(threads, number) {
        return Err(e);
    }
    match call {
        Call::Ipc(call) => tell(start_ipc(threads, number, call), number, answer),
        Call::Unmap(call) => tell(
            start_unmap(threads, forest, size, number, call),
            number,
            answer,
        ),
        Call::Fault(call) => tell(
            start_fault(threads, forest, size, number, call),
            number,
            answer,
        ),
        Call::Control(control) => start_control(threads, forest, number, control, answer),
    }
}

/// Starts a call, and returns its answer.
pub fn start_answered(
    threads: &mut Threads,
    forest: &mut Forest,
    size: PageSize,
    number: u32,
    call: &Call,
) -> Result<Answer, Refused>
    ensures { Steps (machine size threads.old forest.old) (Start number call.now) result
        (machine size threads.new forest.new) }
{
    let mut answer = Answer {
        outcome: Outcome::Started,
        ended: ArrayVec::new(),
    };
    match start(threads, forest, size, number, call, &mut answer) {
        Ok(()) => Ok(answer),
        Err(e) => Err(e),
    }
}

/// Executes an enabled transfer. Returns its outcome, and whether the sender's call ended.
#[inline(always)]
pub fn carry_over(
    threads: &mut Threads,
    forest: &mut Forest,
    size: PageSize,
    sender: u32,
    receiver: u32,
) -> (Outcome, bool)
    requires spaces { HaveSpaces forest.old.spaces threads.old }
    requires enabled { IsFirstSender threads.old receiver sender }
    ensures step { Steps (machine size threads.old forest.old) (Transfers sender receiver)
        (Ok (answer_of (Transferred sender receiver result.0 result.1)))
        (machine size threads.new forest.new) }
    ensures fits { FitIn size forest.old → FitIn size forest.new }
{
    let Some(meeting) = meet(threads, sender, receiver) else {
        unreachable!()
    };
    let items = meeting.sends.items.as_slice();
    let outcome = deliver(
        forest,
        meeting.from.space,
        meeting.to.space,
        size,
        items,
        &meeting.takes.window,
    );
    let done = is_done(outcome);
    let envelope = Envelope {
        tag: tag_of(meeting.sends.words.as_slice()),
        error: 0,
        from: meeting.from.id,
    };
    let ending = receiver_ending(done, meeting.takes);
    let turn = sender_turn(done, threads, meeting.sends);
    end_receiver(threads, sender, receiver, ending, envelope);
    let ends = enter(threads, sender, turn);
    (outcome, ends)
}

/// Returns the answer of a transfer.
pub fn transfer_answer(sender: u32, receiver: u32, outcome: Outcome, ends: bool) -> Answer
    ensures { result ≡ answer_of (Transferred sender receiver outcome ends) }
{
    let mut ended = list_if(ends, sender);
    ended.push(receiver);
    Answer { outcome, ended }
}

/// Executes a transfer, or refuses it if it is not enabled.
pub fn transfer(
    threads: &mut Threads,
    forest: &mut Forest,
    size: PageSize,
    sender: u32,
    receiver: u32,
) -> Result<Answer, Refused>
    requires { HaveSpaces forest.old.spaces threads.old }
    ensures step { Steps (machine size threads.old forest.old) (Transfers sender receiver) result
        (machine size threads.new forest.new) }
    ensures fits { FitIn size forest.old → FitIn size forest.new }
{
    if !threads.can_transfer(sender, receiver) {
        return Err(Refused::NotEnabled);
    }
    let (outcome, ends) = carry_over(threads, forest, size, sender, receiver);
    Ok(transfer_answer(sender, receiver, outcome, ends))
}

/// Returns the answer of a step that ends the wait of one thread.
pub fn wait_answer(outcome: Outcome, number: u32) -> Answer
    ensures { result ≡ wait_answer outcome number }
{
    Answer {
        outcome,
        ended: list_if(true, number),
    }
}

/// Returns the result of a step that ends the wait of one thread: its answer, or its refusal.
pub fn wait_result(
    ended: Result<(), Refused>,
    outcome: Outcome,
    number: u32,
) -> Result<Answer, Refused>
    ensures { result ≡ wait_result outcome number ended }
{
    match ended {
        Ok(()) => Ok(wait_answer(outcome, number)),
        Err(e) => Err(e),
    }
}

/// Returns e of the ErrorCode of a wait that is canceled.
fn cause_error(cause: CancelCause) -> u32
    ensures value { result ≡ cause_error cause }
    ensures small { result ≤ 3 }
{
    match cause {
        CancelCause::Timeout => 1,
        CancelCause::Canceled => 3,
    }
}

/// Cancels the wait of a thread, or refuses it if the thread does not wait.
pub fn cancel(threads: &mut Threads, number: u32, cause: CancelCause) -> Result<(), Refused>
    ensures { CancelsCall threads.old number cause (canceled_if number result) threads.new }
{
    if end_wait(threads, number, cause_error(cause)) {
        return Ok(());
    }
    Err(Refused::NotEnabled)
}

/// Expires a zero timeout, or refuses it if it is not enabled.
pub fn expire(threads: &mut Threads, number: u32) -> Result<(), Refused>
    ensures { ExpiresCall threads.old number (expired_if number result) threads.new }
{
    if !threads.can_expire(number) {
        return Err(Refused::NotEnabled);
    }
    cancel(threads, number, CancelCause::Timeout)
}
