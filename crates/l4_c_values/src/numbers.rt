//! The numbers of outcomes and refusals.
ghost use Rattle.std.specs.Prelude.{◌≡◌};
ghost use Rattle.l4_answers.specs.Refusals.{message_refusal, kernel_refusal};
ghost use Rattle.l4_refusals.specs.Texts.{spelled};
ghost use Rattle.l4_c_values.specs.Told.{carried, outcome_number};

use l4_answers::refused_code;
use l4_ipc::{Lower, Outcome, Refused};
use l4_msg::MsgFault;
use l4_refusals::number_of;

/// B1: the handle is empty: it was never created, or it was freed.
pub const EMPTY: u32 = 0x4231;

/// B2: the handle is not empty: free it before you use it again.
pub const HELD: u32 = 0x4232;

/// B3: the kind of call is unknown, or a reserved member is not 0.
pub const NO_SUCH_CALL: u32 = 0x4233;

/// B4: the page size must be 4,096 or 1,024 bytes.
pub const NO_SUCH_SIZE: u32 = 0x4234;

/// B5: the line is not a step or query of a step list.
pub const NO_SUCH_STEP: u32 = 0x4235;

/// B7: a number of entries exceeds 2^63.
pub const TOO_LONG: u32 = 0x4237;

/// K6: the number of frames must be from 1 to 4,096.
pub const BAD_FRAMES: u32 = 0x4b36;

/// L6: a transfer that ran out of memory in the history succeeded when the history was replayed.
pub const OTHER_ANSWER: u32 = 0x4c36;

/// L7: the given links do not match the way the page got there.
pub const OTHER_CHAIN: u32 = 0x4c37;

/// L8: the entry or receipt was handed out, or the history cannot be replayed because entries were handed out.
pub const HANDED_OUT: u32 = 0x4c38;

/// X2: the seat of this number was never given out, or was returned twice.
pub const NO_SUCH_SEAT: u32 = 0x5832;

/// NoMemory: there was not enough memory.
pub const NO_MEMORY: u32 = 0x4e6f;

/// Returns the number of an outcome.
pub fn outcome_number(outcome: Outcome) -> u32
    ensures { result ≡ outcome_number outcome }
{
    match outcome {
        Outcome::Started => 1,
        Outcome::Done => 2,
        Outcome::NoWindow => 3,
        Outcome::Entangled => 4,
        Outcome::NoMemory => 5,
        Outcome::Expired => 6,
        Outcome::Canceled => 7,
    }
}

/// Returns the number of the kernel's refusal.
pub fn kernel_number(refused: Refused) -> u32
    ensures { result ≡ spelled (kernel_refusal refused).name }
{
    number_of(refused_code(refused).name())
}

/// Returns the number that the kernel's refusal carries, or 0.
pub fn kernel_detail(refused: Refused) -> u32
    ensures { result ≡ carried (kernel_refusal refused).number }
{
    match refused_code(refused).number() {
        Some(number) => number,
        None => 0,
    }
}

/// Returns the number of the refusal of a message or window.
pub fn message_number(fault: MsgFault) -> u32
    ensures { result ≡ spelled (message_refusal fault).name }
{
    kernel_number(Refused::Lower(Lower::Message(fault)))
}

/// Returns the item that the refusal of a message names, or 0.
pub fn message_detail(fault: MsgFault) -> u32
    ensures { result ≡ carried (message_refusal fault).number }
{
    kernel_detail(Refused::Lower(Lower::Message(fault)))
}
