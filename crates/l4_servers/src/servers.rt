//! The servers, and the call that a server makes next.
ghost use Rattle.std.specs.Prelude.{◌≡◌, ◌%◌, not, IfOk, OnErr, MatchOption, MatchResult};
ghost use Rattle.l4_msg.specs.Messages.{CanBeWritten};

use crate::served::ServedThreads;
use l4_fpage::{Fpage, PageSize};
use l4_ipc::{Call, Kernel, NoMemory, Reply};
use l4_msg::Message;
use l4_pager::{
    BriefMessage, Entry, PagerRefusal, RegionPager, answer_into, answering, brought, brought_brief,
    wait_into,
};
use l4_sigma0::Sigma0;
use l4_threads::ThreadId;
use std::alloc::Global;
use std::collections::BTreeMap;
use std::marker::Model;

/// The number of sigma0's thread.
const SIGMA0: u32 = 1;

// sigma0's table has room for the frames of every kernel.
const _: () = prove!(l4_sigma0::MAX_FRAMES == l4_ipc::MAX_FRAMES as usize);

/// The space number that sigma0 uses for a sender that no longer exists.
const GONE_SPACE: u64 = u64::MAX;

/// The reason why a region is not added to a thread's table.
#[derive(Clone, Copy, PartialEq, Eq, Debug)]
pub enum RegionRefusal {
    /// The table refuses it.
    Pager(PagerRefusal),
    /// The allocation of the thread's table failed.
    NoMemory,
}

/// sigma0's table of owners, the region tables of threads, and the set of served threads. Threads are named by their
/// numbers.
#[derive(Drop)]
pub struct Servers {
    owners: Sigma0,
    tables: BTreeMap<u32, RegionPager>,
    served: ServedThreads,
    /// The position of the region that answered the last fault, in the table of some thread. It is a guess for the next fault.
    guess: usize,
}

impl Model for Servers {
    ghost use Rattle.std.specs.FinMap as fin;
    ghost use Rattle.l4_pager.specs.contracts.regions.Entry as entry;
    ghost use Rattle.l4_servers.specs.Servers.{Servers as TheServers, servers, servers_code};

    ghost Value = { TheServers };

    ghost coded = { servers_code entry.the_row.coded };

    ghost view = { λ s. servers s.owners (fin.from_entries s.tables.entries) s.served };
}

/// Returns the space of a message's sender. If another thread has the sender's number by now, the sender no longer exists.
fn space_of_sender(kernel: &Kernel, sender: ThreadId) -> u64
    ensures { result ≡ space_of_sender kernel.now.threads sender }
{
    let Some(thread) = kernel.thread(sender.number()) else {
        return GONE_SPACE;
    };
    if thread.id.0 == sender.0 {
        thread.space
    } else {
        GONE_SPACE
    }
}

ghost use Rattle.l4_servers.specs.Acting.{space_of_sender};

impl Servers {
    ghost use Rattle.l4_fpage.specs.Pages.{max_frames};
    ghost use Rattle.l4_pager.specs.Regions.{Answers as AnswersByRegion};
    ghost use Rattle.l4_servers.specs.Servers.{no_servers, regions_of, is_served, with_region, with_served, no_longer_served, without, RegionFails};
    ghost use Rattle.l4_pager.specs.Regions.{CanAdd};
    ghost use Rattle.std.specs.Prelude.{◌≤◌, false};
    ghost use Rattle.std.specs.FinSet as set;
    ghost use Rattle.l4_servers.specs.Listed.{NoTableFrom, IsNextTable};
    ghost use Rattle.l4_servers.specs.Acting.{NoneReady, IsFirstReady, Answers, Follows};
    ghost use Rattle.l4_ipc.specs.Reading.{reply_of};
    ghost use Rattle.l4_servers.specs.Servers.{servers};
    ghost use Rattle.l4_sigma0.specs.Owners.{Answers as GrantsFrames};
    ghost use Rattle.l4_msg.specs.Protocols.{one_item};
    ghost use Rattle.l4_msg.specs.Sizes.{base_unit};
    ghost use Rattle.l4_msg.specs.declared.items.Item.TheVariants.{Map};
    ghost use Rattle.l4_pager.specs.Briefs.{brief_message};

    /// Returns empty servers: no frame has an owner, no thread has a table, and no thread is served. `frames` is at
    /// most 4,096.
    pub fn new(alloc: Global, frames: u32, size: PageSize) -> Servers
        requires { frames ≤ max_frames }
        ensures { result ≡ no_servers size frames }
    {
        Servers {
            owners: Sigma0::new(frames, size),
            tables: BTreeMap::new(alloc),
            served: ServedThreads::new(alloc),
            guess: 0,
        }
    }

    /// Returns the numbers of the served threads, in rising order.
    pub fn served(&self) -> &[u32]
        ensures { set.from_list result.now ≡ self.now.served }
    {
        self.served.as_slice()
    }

    /// Returns the least number of a thread that has a table and is at least `from`, and its table, or `None`.
    pub fn next_table(&self, from: u32) -> Option<(u32, &RegionPager)>
        ensures { MatchOption result (NoTableFrom self.now from)
            (λ next. IsNextTable self.now from next.0 next.1.now) }
    {
        let mut tables = self.tables.range(from..);
        let Some((thread, table)) = tables.next() else {
            return None;
        };
        Some((*thread, table))
    }

    /// Returns sigma0's table of owners.
    pub fn owners(&self) -> &Sigma0
        ensures { result.now ≡ self.now.owners }
    {
        &self.owners
    }

    /// Returns a copy of the tables and of the served threads in memory of its own, or `NoMemory` if an allocation failed.
    pub fn copy(&self, alloc: Global) -> Result<Servers, NoMemory>
        ensures { IfOk result (λ copy. copy ≡ self.now) }
    {
        let Ok(tables) = self.tables.clone() else {
            return Err(NoMemory);
        };
        let Ok(served) = self.served.copy(alloc) else {
            return Err(NoMemory);
        };
        Ok(Servers {
            owners: self.owners.copy(),
            tables,
            served,
            guess: self.guess,
        })
    }

    /// Adds a region to a thread's table. A refused region changes nothing. Errors: those of the table, in its order,
    /// and then `NoMemory`, which is possible for a thread's first region only.
    pub fn add_region(&mut self, thread: u32, entry: Entry) -> Result<(), RegionRefusal>
        ensures { MatchResult result
            (λ _. CanAdd (regions_of self.old thread) entry × (self.new ≡ with_region self.old thread entry))
            (λ refusal. RegionFails self.old thread entry refusal × (self.new ≡ self.old)) }
    {
        if let Some(table) = self.tables.get_mut(&thread) {
            let Err(refusal) = table.add(entry) else {
                return Ok(());
            };
            return Err(RegionRefusal::Pager(refusal));
        }
        let mut table = RegionPager::new(self.owners.page_size());
        if let Err(refusal) = table.add(entry) {
            return Err(RegionRefusal::Pager(refusal));
        }
        let Ok(_) = self.tables.insert(thread, table) else {
            return Err(RegionRefusal::NoMemory);
        };
        Ok(())
    }

    /// Makes a thread served. Returns whether it was not served before. Returns `NoMemory` if an allocation failed,
    /// which is possible only if it was not served; then nothing changes.
    pub fn serve(&mut self, thread: u32) -> Result<bool, NoMemory>
        ensures { MatchResult result
            (λ begins. (begins ≡ not (is_served self.old thread)) × (self.new ≡ with_served self.old thread) × (begins ≡ false → self.new ≡ self.old))
            (λ _. (is_served self.old thread ≡ false) × (self.new ≡ self.old)) }
    {
        let Ok(begins) = self.served.insert(thread) else {
            return Err(NoMemory);
        };
        Ok(begins)
    }

    /// Makes a thread no longer served. Its table stays. Changes nothing if it is not served.
    pub fn take_back(&mut self, thread: u32)
        ensures { self.new ≡ no_longer_served self.old thread }
    {
        self.served.remove(thread);
    }

    /// Makes a thread no longer served, and drops its table.
    pub fn forget(&mut self, thread: u32)
        ensures { self.new ≡ without self.old thread }
    {
        self.tables.remove(&thread);
        self.take_back(thread);
    }

    /// Returns the served thread that acts next: the running one with the least number, or `None`.
    pub fn first_ready(&self, kernel: &Kernel) -> Option<u32>
        ensures { MatchOption result (NoneReady kernel.now.threads self.now)
            (IsFirstReady kernel.now.threads self.now) }
    {
        for thread in self.served.as_slice() {
            if kernel.reply(*thread).is_some() {
                return Some(*thread);
            }
        }
        None
    }

    /// Returns the answer to a message from the regions of a thread.
    fn region_answer(&self, thread: u32, message: &Message) -> Message
        ensures answers { AnswersByRegion (regions_of self.now thread) message.now result }
        ensures writable { CanBeWritten result }
    {
        match self.tables.get(&thread) {
            Some(table) => table.answer(message),
            None => RegionPager::new(self.owners.page_size()).answer(message),
        }
    }

    /// Returns a thread's answer to a sender's message.
    fn answer(
        &mut self,
        kernel: &Kernel,
        thread: u32,
        sender: ThreadId,
        message: &Message,
    ) -> Message
        ensures answers { Answers kernel.now.threads self.old thread sender message.now result
            self.new }
        ensures writable { CanBeWritten result }
    {
        if thread == SIGMA0 {
            return self.owners.answer(space_of_sender(kernel, sender), message);
        }
        self.region_answer(thread, message)
    }

    /// Returns the answer to a brief message from the regions of a thread: the send base and the fpage of its map item.
    fn brief_region_answer(&mut self, thread: u32, brief: &BriefMessage) -> (u32, Fpage)
        ensures answers { AnswersByRegion (regions_of self.old thread) (brief_message brief.now)
            (one_item (Map result.0 result.1)) }
        ensures others { self.new ≡ self.old }
        ensures whole { result.0 % base_unit ≡ 0 }
    {
        let Some(fault) = brief.fault() else {
            return (0, Fpage::Nil);
        };
        let Some(table) = self.tables.get(&thread) else {
            return (0, Fpage::Nil);
        };
        let (base, fpage, place) = table.answer_fault_near(&fault, self.guess);
        self.guess = place;
        (base, fpage)
    }

    /// Returns sigma0's answer to a brief message from a space: the send base and the fpage of its map item.
    fn brief_frame_answer(&mut self, from_space: u64, brief: &BriefMessage) -> (u32, Fpage)
        ensures answers { GrantsFrames self.old.owners from_space (brief_message brief.now)
            (one_item (Map result.0 result.1)) self.new.owners }
        ensures others { self.new ≡ servers self.new.owners self.old.tables self.old.served }
        ensures whole { result.0 % base_unit ≡ 0 }
    {
        if let Some(fault) = brief.fault() {
            return self.owners.answer_fault(from_space, &fault);
        }
        if let Some(request) = brief.request() {
            return self.owners.answer_request(from_space, &request);
        }
        (0, Fpage::Nil)
    }

    /// Returns a thread's answer to a sender's brief message: the send base and the fpage of its map item.
    fn brief_answer(
        &mut self,
        kernel: &Kernel,
        thread: u32,
        sender: ThreadId,
        brief: &BriefMessage,
    ) -> (u32, Fpage)
        ensures answers { Answers kernel.now.threads self.old thread sender
            (brief_message brief.now) (one_item (Map result.0 result.1)) self.new }
        ensures whole { result.0 % base_unit ≡ 0 }
    {
        if thread == SIGMA0 {
            return self.brief_frame_answer(space_of_sender(kernel, sender), brief);
        }
        self.brief_region_answer(thread, brief)
    }

    /// Overwrites a call with the one that a thread makes after any reply. It is separate from `next_call_into`, because a message has room
    /// for 63 words and 31 items, and a brief message should not clear that room.
    #[inline(never)]
    fn long_call_into(&mut self, kernel: &Kernel, thread: u32, reply: &Reply, call: &mut Call)
        ensures { Follows kernel.now.threads self.old thread reply.now call.new self.new }
    {
        let Some((sender, message)) = brought(reply) else {
            return wait_into(call);
        };
        *call = answering(sender, &self.answer(kernel, thread, sender, &message));
    }

    /// Overwrites a call with the one that a thread makes after a reply.
    fn next_call_into(&mut self, kernel: &Kernel, thread: u32, reply: &Reply, call: &mut Call)
        ensures { Follows kernel.now.threads self.old thread reply.now call.new self.new }
    {
        let Some((sender, brief)) = brought_brief(reply) else {
            return self.long_call_into(kernel, thread, reply, call);
        };
        let (base, fpage) = self.brief_answer(kernel, thread, sender, &brief);
        answer_into(call, sender, base, fpage);
    }

    /// Overwrites a call with what a served thread enters after its last reply. It answers the message of the reply
    /// and receives again, or only receives again if the reply has no message. sigma0 answers from its table of
    /// owners, and sets the owner now; every other thread answers from its regions. Changes nothing if the thread has
    /// no reply. If the call is an Ipc, it is changed in place, which is fastest.
    ///
    pub fn act_into(&mut self, kernel: &Kernel, thread: u32, call: &mut Call)
        ensures { MatchOption (reply_of kernel.now.threads thread) ((self.new ≡ self.old) × (call.new ≡ call.old))
            (λ reply. Follows kernel.now.threads self.old thread reply call.new self.new) }
    {
        if let Some(reply) = kernel.reply(thread) {
            self.next_call_into(kernel, thread, reply, call);
        }
    }
}
