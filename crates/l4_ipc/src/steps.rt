ghost use Rattle.std.specs.Prelude.{◌≡◌};
ghost use Rattle.l4_ipc.specs.NextSteps.{step_of, answer_of};

use crate::acting::{transfer_answer, wait_answer};
use crate::calls::Call;
use arrayvec::ArrayVec;
use l4_msg::MsgFault;
use l4_threads::{MAX_THREADS, ThreadFault};
use l4_unmap::UnmapFault;

/// The reason why a wait is canceled (L4 X.2 manual, IPC: ErrorCode).
#[derive(Clone, Copy, Debug, PartialEq, Eq)]
pub enum CancelCause {
    /// The timeout of the wait has passed, by a clock outside the kernel.
    Timeout,
    /// The wait is canceled, as by ExchangeRegisters.
    Canceled,
}

/// One atomic step of the kernel. It names threads by their numbers.
#[derive(Clone, Debug, PartialEq, Eq, Drop)]
pub enum Step {
    /// The thread starts a call.
    Start(u32, Call),
    /// The first thread's message is delivered to the second.
    Transfer(u32, u32),
    /// The thread's zero timeout expires.
    Expire(u32),
    /// The environment ends the thread's wait, for this reason.
    Cancel(u32, CancelCause),
}

/// The outcome of a step.
#[derive(Clone, Copy, Debug, PartialEq, Eq)]
pub enum Outcome {
    /// A call was started.
    Started,
    /// The message was delivered, with its pages.
    Done,
    /// The message has items, and the receiver's window is nil. Both calls failed.
    NoWindow,
    /// The message's items conflict. Both calls failed, and no page moved.
    Entangled,
    /// An allocation failed. Both calls failed, and no page moved.
    NoMemory,
    /// A zero timeout expired.
    Expired,
    /// A wait was canceled.
    Canceled,
}

/// The answer to a step: its outcome, and the threads whose calls ended in it.
#[derive(Clone, Debug, PartialEq, Eq, Drop)]
pub struct Answer {
    /// What the step did.
    pub outcome: Outcome,
    /// The numbers of the threads whose calls ended. For a Transfer, the sender comes before the receiver. For a
    /// Delete, the caller comes first, and then the others by rising number.
    pub ended: ArrayVec<u32, MAX_THREADS>,
}

/// A next step that was executed, a Transfer or an Expire, without a list of threads.
#[derive(Clone, Copy, Debug, PartialEq, Eq)]
pub enum NextStep {
    /// A transfer from the first thread to the second, with its outcome. The call of the second thread ended; if the
    /// flag is true, so did the call of the first one.
    Transfer(u32, u32, Outcome, bool),
    /// The thread's zero timeout expired.
    Expire(u32),
}

impl NextStep {
    /// Returns the step.
    pub fn step(self) -> Step
        ensures { result ≡ step_of self }
    {
        match self {
            NextStep::Transfer(sender, receiver, _, _) => Step::Transfer(sender, receiver),
            NextStep::Expire(number) => Step::Expire(number),
        }
    }

    /// Returns its outcome, and the threads whose calls ended in it.
    pub fn answer(self) -> Answer
        ensures { result ≡ answer_of self }
    {
        match self {
            NextStep::Transfer(sender, receiver, outcome, ends) => {
                transfer_answer(sender, receiver, outcome, ends)
            }
            NextStep::Expire(number) => wait_answer(Outcome::Expired, number),
        }
    }
}

/// A refusal from a layer below the kernel's steps.
#[derive(Clone, Copy, Debug, PartialEq, Eq)]
pub enum Lower {
    /// M1 to M7: the message or the window is refused.
    Message(MsgFault),
    /// U1, U2: the words of an Unmap are refused.
    Unmap(UnmapFault),
    /// H1 to H6: the thread control is refused.
    Thread(ThreadFault),
    /// An allocation failed, at boot or in a Create in a new space.
    NoMemory,
}

/// The reason why a step is refused. A refused step changes nothing.
#[derive(Clone, Copy, Debug, PartialEq, Eq)]
pub enum Refused {
    /// K1: the Transfer, Expire or Cancel is not enabled.
    NotEnabled,
    /// K2: there is no thread with this number to start a call.
    UnknownThread,
    /// K3: the thread is waiting, so it cannot start a call.
    Busy,
    /// K4: the timeout of one of the call's phases is neither never nor zero.
    BadTimeout,
    /// K5: a refusal from a lower layer.
    Lower(Lower),
    /// K6: fewer than 1 or more than 4,096 frames at boot.
    BadFrames,
}
