//! The page fault's message and sigma0's request (L4 X.2 manual, page fault protocol and sigma0 protocol).
ghost use Rattle.std.specs.Prelude.{◌≡◌, ℕ, ◌%◌, MatchOption};

use crate::acceptors::Acceptor;
use crate::items::Item;
use crate::messages::Message;
use arrayvec::ArrayVec;
use l4_fpage::{Fpage, Rights};

/// The label of a fault without access: -2 in twelve bits, then four zero bits, of which the access takes the low three (this
/// profile's own).
pub const FAULT_LABEL: u16 = 0xffe0;

/// The label of a request: -6 in twelve bits, then four zero bits (this profile's own).
pub const REQUEST_LABEL: u16 = 0xffa0;

/// A page fault, as the kernel reports it to a pager (L4 X.2 manual, page fault protocol).
#[derive(Clone, Copy, PartialEq, Eq, Debug)]
pub struct PageFault {
    /// The fault address, in bytes.
    pub address: u32,
    /// The instruction pointer.
    pub ip: u32,
    /// The access that was tried.
    pub access: Rights,
}

/// A request to sigma0 for the frames of an fpage's pages (L4 X.2 manual, sigma0 protocol).
#[derive(Clone, Copy, PartialEq, Eq, Debug)]
pub struct FrameRequest {
    /// The fpage. Its rights are ignored.
    pub fpage: Fpage,
    /// The memory attributes; 0 requests the machine's default attributes.
    pub attributes: u32,
}

ghost use Rattle.l4_msg.specs.declared.items.Item.TheVariants.{Map};
ghost use Rattle.l4_msg.specs.Messages.{CanBeWritten};
ghost use Rattle.l4_msg.specs.Protocols.{one_item};
ghost use Rattle.l4_msg.specs.Sizes.{base_unit};

/// Returns the answer of a pager or of sigma0: a message of one map item, with label 0 and no untyped words. The send
/// base is in bytes. With a nil fpage, the message maps nothing.
pub fn map_answer(base: u32, fpage: Fpage) -> Message
    ensures is { result ≡ one_item (Map base fpage) }
    ensures writable { base % base_unit ≡ 0 → CanBeWritten result }
{
    let mut items = ArrayVec::new();
    items.push(Item::Map { base, fpage });
    Message {
        label: 0,
        untyped: ArrayVec::new(),
        items,
    }
}

impl PageFault {
    ghost use Rattle.std.specs.Prelude.{Some};
    ghost use Rattle.l4_msg.specs.Protocols.{FaultReads, fault_message};
    ghost use Rattle.l4_msg.specs.declared.protocols.PageFault.{PageFault as AFault};

    /// Reads the page fault that a message reports. Returns `None` unless the label is 0xffe0 to 0xffe7 and there are
    /// two untyped words and no item.
    pub fn read(message: &Message) -> Option<PageFault>
        ensures reads { MatchOption result ((fault : AFault) → ¬ FaultReads message.now fault)
            (FaultReads message.now) }
        ensures only { (fault : AFault) → FaultReads message.now fault → result ≡ Some fault }
    {
        if message.label < FAULT_LABEL || message.label > FAULT_LABEL + 7 {
            return None;
        }
        if message.untyped.len() != 2 || message.items.len() != 0 {
            return None;
        }
        Some(PageFault {
            address: message.untyped[0],
            ip: message.untyped[1],
            access: Rights::of_bits((message.label - FAULT_LABEL) as u8),
        })
    }

    /// Returns the message that reports the fault. The kernel sends its words to the pager.
    pub fn message(&self) -> Message
        ensures is { result ≡ fault_message self.now }
        ensures reads { FaultReads result self.now }
        ensures writable { CanBeWritten result }
    {
        let mut untyped = ArrayVec::new();
        untyped.push(self.address);
        untyped.push(self.ip);
        Message {
            label: FAULT_LABEL + u16::from(self.access.bits()),
            untyped,
            items: ArrayVec::new(),
        }
    }
}

impl FrameRequest {
    ghost use Rattle.std.specs.Prelude.{Some};
    ghost use Rattle.l4_fpage.specs.Fpages.{rights_of};
    ghost use Rattle.l4_fpage.specs.Rights.{no_rights};
    ghost use Rattle.l4_msg.specs.Protocols.{RequestReads};
    ghost use Rattle.l4_msg.specs.declared.protocols.FrameRequest.{FrameRequest as ARequest};

    /// Reads the request in a message, with its fpage without rights. Returns `None` unless the label is 0xffa0,
    /// there are two untyped words and no item, and the first word is a valid fpage.
    pub fn read(message: &Message) -> Option<FrameRequest>
        ensures reads { MatchOption result
            ((request : ARequest) → ¬ RequestReads message.now request) (RequestReads message.now) }
        ensures only { (request : ARequest) → RequestReads message.now request → result
            ≡ Some request }
    {
        if message.label != REQUEST_LABEL {
            return None;
        }
        if message.untyped.len() != 2 || message.items.len() != 0 {
            return None;
        }
        let attributes = message.untyped[1];
        match Acceptor::read(message.untyped[0]) {
            Ok(fpage) => Some(FrameRequest { fpage, attributes }),
            Err(_) => None,
        }
    }

    /// Returns the message of the request. Its fpage has no rights.
    pub fn message(&self) -> Message
        requires { rights_of self.now.fpage ≡ no_rights }
        ensures reads { RequestReads result self.now }
        ensures writable { CanBeWritten result }
    {
        let mut untyped = ArrayVec::new();
        untyped.push(self.fpage.word());
        untyped.push(self.attributes);
        Message {
            label: REQUEST_LABEL,
            untyped,
            items: ArrayVec::new(),
        }
    }
}
