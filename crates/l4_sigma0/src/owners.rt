//! The owners of frames.
ghost use Rattle.std.specs.Prelude.{◌≡◌, ℕ, ◌+◌, ◌%◌, ◌^◌, ◌<◌, ◌≤◌, ◌↔◌, MatchOption, IsTrue, length};

use l4_fpage::{Block, Fpage, PageSize, Rights};
use l4_msg::{FrameRequest, Message, PageFault, map_answer};
use std::marker::Model;

/// The greatest number of frames in a machine (this profile's own).
pub const MAX_FRAMES: usize = l4_fpage::MAX_FRAMES as usize;

/// sigma0's table: the space that owns each frame. Once a space has been given a frame, it owns that frame
/// for good (L4 X.2 manual, sigma0 protocol; the rule is this profile's own).
#[derive(Drop)]
pub struct Sigma0 {
    size: PageSize,
    frames: u32,
    owners: [Option<u64>; MAX_FRAMES],
}

impl Model for Sigma0 {
    ghost use Rattle.std.specs.Prelude.{◌≤◌};
    ghost use Rattle.l4_fpage.specs.Pages.{max_frames};
    ghost use Rattle.l4_sigma0.specs.Owners.{Owners, owners_code};
    ghost use Rattle.l4_sigma0.specs.Inside.Tables.{map_of};

    ghost Value = { Owners };

    ghost coded = { owners_code };

    ghost view = { λ s. record { size = s.size; frames = s.frames; owner = map_of s.owners } };

    ghost invariant = { λ s. s.frames ≤ max_frames };
}

ghost use Rattle.l4_sigma0.specs.Owners.{NamesPages};

/// Returns the frames that a request names. Returns None if it has attributes, or if its fpage names no whole page.
fn frames_of(request: &FrameRequest, size: PageSize) -> Option<Block>
    ensures { MatchOption result
        ((first log : ℕ) → request.now.attributes ≡ 0
        → ¬ NamesPages size request.now.fpage first log)
        (λ block. (request.now.attributes ≡ 0)
        × NamesPages size request.now.fpage block.first block.log) }
{
    if request.attributes != 0 {
        return None;
    }
    request.fpage.pages(size)
}

ghost use Rattle.l4_sigma0.specs.Inside.Tables.{AreFree, IsFilled, NoneFrom, IsNextIn};

/// Returns whether each of these frames has no owner or is owned by the space.
fn are_free(owners: &[Option<u64>], space: u64, first: usize, end: usize) -> bool
    requires { end ≤ length owners.now }
    ensures { IsTrue result ↔ AreFree owners.now space first end }
{
    for frame in first..end {
        if let Some(owner) = owners[frame] {
            if owner != space {
                return false;
            }
        }
    }
    true
}

/// Returns the first of these frames that has an owner and is at least `from`, and its owner.
fn next_owned(owners: &[Option<u64>], from: usize) -> Option<(usize, u64)>
    ensures { MatchOption result (NoneFrom owners.now from)
        (λ next. IsNextIn owners.now from next.0 next.1) }
{
    for frame in from..owners.len() {
        if let Some(owner) = owners[frame] {
            return Some((frame, owner));
        }
    }
    None
}

/// Makes the space the owner of these frames.
fn fill(owners: &mut [Option<u64>], space: u64, first: usize, end: usize)
    requires within { end ≤ length owners.old }
    requires order { first ≤ end }
    ensures { IsFilled owners.old space first end owners.new }
{
    for frame in first..end {
        owners[frame] = Some(space);
    }
}

impl Sigma0 {
    ghost use Rattle.std.specs.FinMap as fin;
    ghost use Rattle.l4_msg.specs.Messages.{CanBeWritten};
    ghost use Rattle.l4_fpage.specs.Pages.{max_frames};
    ghost use Rattle.l4_msg.specs.Sizes.{base_unit};
    ghost use Rattle.l4_msg.specs.Protocols.{FaultReads, one_item};
    ghost use Rattle.l4_msg.specs.declared.items.Item.TheVariants.{Map};
    ghost use Rattle.l4_msg.specs.declared.messages.Message.{Message as AMessage};
    ghost use Rattle.l4_sigma0.specs.Owners.{Answers, AsksFor, Wants};
    ghost use Rattle.l4_sigma0.specs.Listed.{NoneOwnedFrom, IsNextOwned};

    /// Returns the table of the frames 0 to `frames` - 1 of this size, without owners. `frames` is at most
    /// `MAX_FRAMES`.
    pub fn new(frames: u32, size: PageSize) -> Sigma0
        requires { frames ≤ max_frames }
        ensures { result ≡ record { size = size; frames = frames; owner = fin.empty } }
    {
        Sigma0 {
            size,
            frames,
            owners: [None; MAX_FRAMES],
        }
    }

    /// Returns a copy of the table.
    pub fn copy(&self) -> Sigma0
        ensures { result ≡ self.now }
    {
        Sigma0 {
            size: self.size,
            frames: self.frames,
            owners: self.owners,
        }
    }

    /// Returns the least frame that has an owner and is at least `from`, and its owner, or `None`.
    pub fn next_owned(&self, from: u32) -> Option<(u32, u64)>
        ensures { MatchOption result (NoneOwnedFrom self.now from)
            (λ next. IsNextOwned self.now from next.0 next.1) }
    {
        let Some((frame, owner)) = next_owned(&self.owners, from as usize) else {
            return None;
        };
        Some((frame as u32, owner))
    }

    /// Returns the number of frames.
    pub fn frames(&self) -> u32
        ensures { result ≡ self.now.frames }
    {
        self.frames
    }

    /// Returns the size of pages and frames.
    pub fn page_size(&self) -> PageSize
        ensures { result ≡ self.now.size }
    {
        self.size
    }

    /// Gives these frames to a space, if all of them exist, and each has no owner or is owned by the space. Otherwise gives none. Returns
    /// the send base and the fpage of the answer's map item.
    fn give(&mut self, from_space: u64, block: Block) -> (u32, Fpage)
        ensures answers { (m : AMessage) → Wants self.old.size m block.first block.log
            → ((first log : ℕ) → Wants self.old.size m first log → (block.first ≡ first)
            × (block.log ≡ log))
            → Answers self.old from_space m (one_item (Map result.0 result.1)) self.new }
        ensures whole { result.0 % base_unit ≡ 0 }
    {
        let end = block.first + (1 << block.log);
        if end > self.frames {
            return (0, Fpage::Nil);
        }
        if !are_free(&self.owners, from_space, block.first as usize, end as usize) {
            return (0, Fpage::Nil);
        }
        fill(
            &mut self.owners,
            from_space,
            block.first as usize,
            end as usize,
        );
        (
            self.size.address_of(block.first),
            Fpage::of_block(block, self.size, Rights::all()),
        )
    }

    /// Returns the answer to a page fault from a space: the send base, in bytes, and the fpage of its map item.
    /// `answer` states the rule.
    pub fn answer_fault(&mut self, from_space: u64, fault: &PageFault) -> (u32, Fpage)
        ensures answers { (m : AMessage) → FaultReads m fault.now
            → Answers self.old from_space m (one_item (Map result.0 result.1)) self.new }
        ensures whole { result.0 % base_unit ≡ 0 }
    {
        let page = self.size.page_of(fault.address);
        self.give(
            from_space,
            Block {
                first: page,
                log: 0,
            },
        )
    }

    /// Returns the answer to a request from a space: the send base, in bytes, and the fpage of its map item. `answer`
    /// states the rule. The rights of the request's fpage are ignored.
    pub fn answer_request(&mut self, from_space: u64, request: &FrameRequest) -> (u32, Fpage)
        ensures answers { (m : AMessage) → AsksFor m request.now
            → Answers self.old from_space m (one_item (Map result.0 result.1)) self.new }
        ensures whole { result.0 % base_unit ≡ 0 }
    {
        let Some(block) = frames_of(request, self.size) else {
            return (0, Fpage::Nil);
        };
        self.give(from_space, block)
    }

    /// Returns the answer to a message from a space. A request without attributes is for the frames of its fpage's
    /// pages, and a page fault is for the frame of its page. The frame of a page has the page's number.
    ///
    /// If all these frames exist, and each is free or owned by the space, they become the space's, even if the answer
    /// is not delivered. The answer is one map item for them with all rights, whose send base is that of the fpage.
    /// Any other message is answered with a nil map item, and changes nothing. A sender that no longer exists counts
    /// as space 2^64 - 1.
    ///
    pub fn answer(&mut self, from_space: u64, message: &Message) -> Message
        ensures answers { Answers self.old from_space message.now result self.new }
        ensures writable { CanBeWritten result }
    {
        if let Some(fault) = PageFault::read(message) {
            let (base, fpage) = self.answer_fault(from_space, &fault);
            return map_answer(base, fpage);
        }
        if let Some(request) = FrameRequest::read(message) {
            let (base, fpage) = self.answer_request(from_space, &request);
            return map_answer(base, fpage);
        }
        map_answer(0, Fpage::Nil)
    }
}
