//! The words of messages: tags, map and grant items, receive windows, and the pages that an item
//! moves (L4 X.2 manual, IPC: message registers, tags, typed items, acceptor).
#![tactic(auto)]

mod acceptors;
mod items;
mod messages;
mod moves;
mod protocols;
mod regions;
mod tags;
mod words;

pub use acceptors::Acceptor;
pub use items::{Item, ItemFault, ItemMove, Move};
pub use messages::{MAX_UNTYPED, MAX_WORDS, Message, MsgFault, copied};
pub use moves::item_moves;
pub use protocols::{FAULT_LABEL, FrameRequest, PageFault, REQUEST_LABEL, map_answer};
pub use regions::Region;
pub use tags::Tag;
pub use words::{MAX_ITEMS, MAX_PLAN_ITEMS, MAX_PLAN_MESSAGES, TOO_MANY};
