//! Messages of two untyped words and no item, such as page faults and requests. They are read from a reply without building a list.
ghost use Rattle.std.specs.Prelude.{◌≡◌, ◌∷◌, MatchOption};
ghost use Rattle.l4_msg.specs.Messages.{MessageReads};
ghost use Rattle.l4_threads.specs.declared.ThreadId.{ThreadId as AnId};
ghost use Rattle.l4_pager.specs.Briefs.{brief_message};
ghost use Rattle.l4_pager.specs.Serving.{Brings};
ghost use Rattle.l4_pager.specs.declared.briefs.BriefMessage.{BriefMessage as ABrief};

use l4_fpage::Rights;
use l4_ipc::Reply;
use l4_msg::{Acceptor, FAULT_LABEL, FrameRequest, PageFault, REQUEST_LABEL, Tag};
use l4_threads::{IpcReply, ThreadId};

/// A message of two untyped words and no item.
#[derive(Clone, Copy, PartialEq, Eq, Debug)]
pub struct BriefMessage {
    /// The label.
    pub label: u16,
    /// The first untyped word.
    pub first: u32,
    /// The second untyped word.
    pub second: u32,
}

/// Returns the message of an Ipc's reply, if it has two untyped words and no item.
fn brief_of(ipc: &IpcReply) -> Option<BriefMessage>
    ensures { MatchOption result
        ((brief : ABrief) → ¬ MessageReads (ipc.now.tag ∷ ipc.now.words.items)
        (brief_message brief))
        (λ brief. MessageReads (ipc.now.tag ∷ ipc.now.words.items) (brief_message brief)) }
{
    let tag = Tag::read(ipc.tag);
    if tag.untyped != 2 || tag.typed != 0 || tag.flags != 0 {
        return None;
    }
    if ipc.words.len() < 2 {
        return None;
    }
    Some(BriefMessage {
        label: tag.label,
        first: ipc.words[0],
        second: ipc.words[1],
    })
}

/// Returns the sender and the message of a reply, if the message has two untyped words and no item.
pub fn brought_brief(reply: &Reply) -> Option<(ThreadId, BriefMessage)>
    ensures { MatchOption result
        ((sender : AnId) (brief : ABrief) → ¬ Brings reply.now sender (brief_message brief))
        (λ p. Brings reply.now p.0 (brief_message p.1)) }
{
    match reply {
        Reply::Ipc(ipc) => match brief_of(ipc) {
            Some(brief) => Some((ipc.from, brief)),
            None => None,
        },
        Reply::Hit => None,
        Reply::Answered => None,
        Reply::FaultFailed(_) => None,
        Reply::Unmapped => None,
        Reply::Controlled => None,
        Reply::Gone => None,
    }
}

impl BriefMessage {
    ghost use Rattle.l4_msg.specs.Protocols.{FaultReads, RequestReads};
    ghost use Rattle.l4_msg.specs.declared.protocols.PageFault.{PageFault as AFault};
    ghost use Rattle.l4_msg.specs.declared.protocols.FrameRequest.{FrameRequest as ARequest};

    /// Returns the page fault that the message reports, or `None`.
    pub fn fault(&self) -> Option<PageFault>
        ensures { MatchOption result
            ((fault : AFault) → ¬ FaultReads (brief_message self.now) fault)
            (FaultReads (brief_message self.now)) }
    {
        if self.label < FAULT_LABEL || self.label > FAULT_LABEL + 7 {
            return None;
        }
        Some(PageFault {
            address: self.first,
            ip: self.second,
            access: Rights::of_bits((self.label - FAULT_LABEL) as u8),
        })
    }

    /// Returns the request in the message, with its fpage without rights, or `None`.
    pub fn request(&self) -> Option<FrameRequest>
        ensures { MatchOption result
            ((request : ARequest) → ¬ RequestReads (brief_message self.now) request)
            (RequestReads (brief_message self.now)) }
    {
        if self.label != REQUEST_LABEL {
            return None;
        }
        match Acceptor::read(self.first) {
            Ok(fpage) => Some(FrameRequest {
                fpage,
                attributes: self.second,
            }),
            Err(_) => None,
        }
    }
}
