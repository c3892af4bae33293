//! The values that C passes to calls and gets from them, in whose types the C library returns its results, and the handles that C holds for a
//! kernel, a locked kernel, a segment of a history and the tables. A handle is one pointer, which is null before the object is created and
//! after it is freed.
#![tactic(auto)]

mod calls;
mod kernels;
mod lines;
mod links;
mod locks;
mod loose;
mod messages;
mod numbers;
mod pagers;
mod protocols;
mod recorded;
mod regions;
mod results;
mod segments;
mod sigma0s;

pub use calls::{CallGiven, DELETE, delete, rights, write_call};
pub use kernels::KernelHandle;
pub use lines::{Line, MAX_LINE, reply_line, step_line};
pub use links::{
    ChainResult, Link, chain_told, fault_detail, fault_number, link_given, link_told, no_chain,
};
pub use locks::LockHandle;
pub use loose::Loose;
pub use messages::{MessageResult, message_told, no_message, no_reply, reply_told, unread};
pub use numbers::{
    BAD_FRAMES, EMPTY, HANDED_OUT, HELD, NO_MEMORY, NO_SUCH_CALL, NO_SUCH_SEAT, NO_SUCH_SIZE,
    NO_SUCH_STEP, OTHER_ANSWER, OTHER_CHAIN, TOO_LONG, kernel_detail, kernel_number,
    message_detail, message_number,
};
pub use pagers::PagerHandle;
pub use protocols::{FaultResult, RequestResult, fault_told, no_fault, no_request, request_told};
pub use recorded::{
    EntryResult, ReceiptResult, SeatResult, SeatedResult, entered_told, entry_told, lock_detail,
    lock_number, mismatch_told, no_entry, no_receipt, no_seat, receipt_told, seat_told, unseated,
};
pub use regions::{RegionGiven, bytes_of, entry_of, region_of, size_of};
pub use results::{
    EnterResult, MappingResult, NextResult, PageResult, ReplyResult, SizeResult, SpaceResult,
    StepResult, answered, done_told, no_page, no_step, padded, page_told, place_told, refused,
    step_told, told,
};
pub use segments::SegmentHandle;
pub use sigma0s::Sigma0Handle;
