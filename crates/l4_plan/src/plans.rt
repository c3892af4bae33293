ghost use Rattle.std.specs.Prelude.{◌≡◌, ℕ, ◌<◌, ◌≤◌, ◌↔◌, IfOk, IfErr, IsOk, length};
ghost use Rattle.l4_fpage.specs.declared.sizes.PageSize.{PageSize as APageSize};
ghost use Rattle.l4_msg.specs.Messages.{CanBeWritten};
ghost use Rattle.l4_msg.specs.Regions.{AreWholeInParts, IsPlan, NeedsMessages, messages_of, part_of_list, part_of_region, max_plan_items, max_plan_messages};
ghost use Rattle.l4_msg.specs.declared.regions.Region.{Region as ARegion};
ghost use Rattle.l4_plan.specs.Inside.Listings.{IsAll};
ghost use Rattle.l4_plan.specs.Plan.{Sends};
ghost use Rattle.l4_plan.specs.Shortest.{IsShortest};

use crate::pages::Pages;
use crate::splitting::{items_from, pass, starts_of};
use arrayvec::ArrayVec;
use l4_fpage::PageSize;
use l4_msg::{MAX_ITEMS, MAX_PLAN_MESSAGES, Message, Region};
use std::marker::Model;

/// A plan: 1 to 1,984 map items that together move exactly a region, in rising order of source. With each item comes
/// its first source page. No allowed block contains two of these pages, so no list of map items that moves the region
/// is shorter (this profile's own).
///
/// A plan needs no memory. It stores the region, the page size and the number of items, and computes each item on
/// request.
#[derive(Debug, Drop)]
pub struct Plan {
    pub(crate) region: Region,
    pub(crate) size: PageSize,
    pub(crate) items: u32,
}

/// The reason why a region has no plan, or why a plan has no such message. The first four are tested in this order
/// (this profile's own).
#[derive(Debug, Drop)]
pub enum PlanRefusal {
    /// N1: the region has no pages.
    Empty,
    /// N2: a source or target page is beyond the end of a space, which has 2^20 pages of 4 KiB or 2^22 pages of 1
    /// KiB.
    OutOfSpace,
    /// N3: the region has no rights.
    NoRights,
    /// N4: every list of map items that moves exactly the region has more than 1,984 items. These 1,985 source pages
    /// prove it, because no allowed block contains two of them. They are the first pages of the first 1,985 items
    /// that a plan of any length would have.
    TooLong(Pages),
    /// N5: the plan has this number of messages, more than one.
    Several(u32),
    /// N6: the plan has this number of messages, and none with the requested number.
    NoPart(u32),
}

impl Model for Plan {
    ghost use Rattle.l4_plan.specs.Plan.{Listing};
    ghost use Rattle.l4_plan.specs.Inside.Listings.{IsAll, listing};

    ghost Value = { Listing };

    ghost view = { λ plan. listing plan.size plan.region plan.items };

    ghost invariant = { λ plan. IsAll plan.size plan.region plan.items };
}

impl Plan {
    /// Returns the plan of the region, which has this number of items.
    pub(crate) fn of(region: &Region, size: PageSize, items: u32) -> Plan
        requires { IsAll size region.now items }
        ensures { IsShortest size region.now result }
    {
        Plan {
            region: *region,
            size,
            items,
        }
    }

    /// Ghost function: gives a proof the invariant of a plan. It compiles to nothing.
    pub fn law_kept(&self)
        ensures { (size : APageSize) × (r : ARegion) × IsShortest size r self.now }
    {
        let _ = &self.items;
    }

    /// Returns the number of items, 1 to 1,984.
    pub fn len(&self) -> usize
        ensures value { result ≡ length self.now.items }
        ensures some { 0 < result }
        ensures few { result ≤ max_plan_items }
    {
        self.items as usize
    }

    /// Returns the first source page of each item, in the order of the items.
    pub fn pages(&self) -> Pages
        ensures value { result ≡ self.now.pages }
        ensures one_each { length result ≡ length self.now.items }
    {
        Pages {
            region: self.region,
            page: self.region.source,
            left: self.items,
        }
    }

    /// Returns the number of messages that send the items, 1 to 64. All but the last have 31 items.
    pub fn messages(&self) -> u32
        ensures value { result ≡ messages_of (length self.now.items) }
        ensures some { 0 < result }
        ensures few { result ≤ max_plan_messages }

        // No fewer messages move the region.
        ensures fewest { (size : APageSize) (r : ARegion) → IsShortest size r self.now
            → NeedsMessages size r result }

        // Each page of the region is in exactly one part. The messages move the parts exactly (clause `moves` of `message`).
        ensures whole { (size : APageSize) (r : ARegion) → IsShortest size r self.now
            → AreWholeInParts r self.now.pages result }
    {
        self.items.div_ceil(MAX_ITEMS as u32)
    }

    /// Returns the message with this number, from 0. It sends the next 31 items, or those that are left, with label 0
    /// and no untyped words. Returns `NoPart` if there is no such message.
    pub fn message(&self, number: u32) -> Result<Message, PlanRefusal>
        ensures sends { IfOk result (Sends (part_of_list self.now.items number)) }

        // It moves exactly the part of the region with this number, and no list of map items that moves that part is shorter.
        ensures moves { IfOk result
            (λ m. (size : APageSize) (r : ARegion) → IsShortest size r self.now
            → IsPlan size (part_of_region r self.now.pages number) m.items.items
            (part_of_list self.now.pages number)) }

        // Its words fit into the message registers, and its send bases are multiples of 1 KiB.
        ensures writable { IfOk result CanBeWritten }
        ensures there { IsOk result ↔ (number < messages_of (length self.now.items)) }
        ensures none { IfErr result
            (λ e. e ≡ PlanRefusal.NoPart (messages_of (length self.now.items))) }
    {
        let messages = self.messages();
        if number >= messages {
            return Err(PlanRefusal::NoPart(messages));
        }
        Ok(self.part(number))
    }

    /// Returns the first source page of each item of the message with this number, from 0. The list is empty if there
    /// is no such message.
    pub fn pages_of(&self, number: u32) -> ArrayVec<u32, MAX_ITEMS>
        ensures { result.items ≡ part_of_list self.now.pages number }
    {
        let all = self.items;
        if number >= MAX_PLAN_MESSAGES as u32 {
            return ArrayVec::new();
        }
        let before = number * MAX_ITEMS as u32;
        if before >= all {
            return ArrayVec::new();
        }
        let first = pass(&self.region, before).page;
        starts_of(&self.region, first, (all - before).min(MAX_ITEMS as u32))
    }

    /// Returns the message that sends all items. Returns `Several` if the plan needs more than one message.
    ///
    pub fn only(&self) -> Result<Message, PlanRefusal>
        ensures sends { IfOk result (Sends self.now.items) }
        ensures writable { IfOk result CanBeWritten }
        ensures one { IsOk result ↔ (messages_of (length self.now.items) ≡ 1) }
        ensures several { IfErr result
            (λ e. e ≡ PlanRefusal.Several (messages_of (length self.now.items))) }
    {
        let messages = self.messages();
        if messages > 1 {
            return Err(PlanRefusal::Several(messages));
        }
        Ok(self.part(0))
    }

    /// Returns the message with this number, from 0, which exists.
    fn part(&self, number: u32) -> Message
        requires { number < messages_of (length self.now.items) }
        ensures sends { Sends (part_of_list self.now.items number) result }
        ensures writable { CanBeWritten result }
    {
        let all = self.items;
        let before = number * MAX_ITEMS as u32;
        let first = pass(&self.region, before).page;
        let blocks = (all - before).min(MAX_ITEMS as u32);
        Message {
            label: 0,
            untyped: ArrayVec::new(),
            items: items_from(&self.region, self.size, first, blocks),
        }
    }
}
