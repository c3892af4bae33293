//! The kernel's steps: starts of calls, transfers of messages and expiries of waits, each one atomic event.
#![tactic(auto)]

mod acting;
mod calls;
mod constructors;
mod deleting;
mod delivering;
mod faulting;
mod kernel;
mod laws;
mod parts;
mod reading;
mod steps;

pub use arrayvec::ArrayVec;
pub use calls::{Call, Control, Create, FaultCall, IpcCall, SetPager, UnmapCall};
pub use constructors::Timeout;
pub use kernel::Kernel;
pub use l4_forest::{MAX_FRAMES, Mapping, NoMemory, Place};
pub use l4_fpage::{BadFpage, Block, Extent, Fpage, MOST_PAGES, PageSize, Rights};
pub use l4_msg::{
    Acceptor, Item, ItemFault, MAX_ITEMS, MAX_UNTYPED, MAX_WORDS, Message, MsgFault, Tag,
};
pub use l4_phases::{Next, Sent};
pub use l4_threads::{IpcReply, MAX_THREADS, Reply, ThreadFault, ThreadId};
pub use l4_unmap::UnmapFault;
pub use laws::{an_answer_leads_to_one_state, the_size_of_pages_stays};
pub use steps::{Answer, CancelCause, Lower, NextStep, Outcome, Refused, Step};
