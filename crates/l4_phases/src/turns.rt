use arrayvec::ArrayVec;
use l4_msg::{Item, MAX_ITEMS, MAX_WORDS};
use l4_threads::{Receiving, Reply, Sending};

/// The end of a call whose reply has no words.
#[derive(Clone, Copy)]
pub enum Ending {
    /// An Ipc without a received message.
    Plain,
    /// A call that failed with this ErrorCode, a page fault or an Ipc.
    Failed(bool, u32),
    /// A page fault that the pager answered.
    Answered,
    /// A page fault at a page that is present with the needed rights.
    Hit,
}

/// What a thread does next if it does not send. The type is small, so that it is cheap to pass by value.
#[derive(Clone, Copy)]
pub enum Turn {
    /// Its call ends.
    Ends(Ending),
    /// It is receiving.
    Receives(Receiving),
}

/// What a thread does next.
#[derive(Drop)]
pub enum Next {
    /// Its call ends with this reply.
    Ends(Reply),
    /// It is sending.
    Sends(Sending),
    /// It is receiving.
    Receives(Receiving),
}

/// What a send phase sends.
#[derive(Drop)]
pub struct Sent {
    /// The message registers from the tag on.
    pub words: ArrayVec<u32, MAX_WORDS>,
    /// The items among them.
    pub items: ArrayVec<Item, MAX_ITEMS>,
}
