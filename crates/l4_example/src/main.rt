//! Embeds the kernel: sigma0 maps pages to one thread, which delegates a range of them to another thread and revokes it. It then answers a
//! third thread's page fault.
#![tactic(auto)]

use l4_ipc::{
    Block, Call, Fpage, Kernel, Message, PageSize, Refused, Rights, Step, ThreadId, Timeout,
};
use l4_msg::Region;
use l4_pager::{Entry, RegionPager, answering, brought, wait};
use l4_plan::plan;
use l4_plan_check::{Proved, check};
use std::io;
use std::process::ExitCode;

/// The page frames of the machine.
const FRAMES: u32 = 64;

/// The size of its pages and frames.
const SIZE: PageSize = PageSize::Kib4;

/// The number of root, which may create threads.
const ROOT: u32 = 2;

/// The address at which a thread reads, in its page 9.
const FAULT_ADDRESS: u32 = 0x9abc;

const FAULT_IP: u32 = 0x40_0100;

/// A thread of the example.
#[derive(Clone, Copy)]
struct Party {
    number: u32,
    id: ThreadId,
}

const SIGMA0: Party = Party {
    number: 1,
    id: ThreadId(0x4001),
};

/// Why the example ended early.
#[derive(Debug, Drop)]
enum Stop {
    Refused(Refused),
    NoId,
    NoPlan,
    NotProved,
    NoRegion,
    NoMessage,
    NothingEnabled,
    Output(io::Error),
}

/// Does one step.
fn step(kernel: &mut Kernel, step: &Step) -> Result<(), Stop> {
    match kernel.step(step) {
        Ok(_) => Ok(()),
        Err(refused) => Err(Stop::Refused(refused)),
    }
}

/// Does the step that comes next.
fn go_on(kernel: &mut Kernel) -> Result<(), Stop> {
    match kernel.next() {
        Some(_) => Ok(()),
        None => Err(Stop::NothingEnabled),
    }
}

/// Makes the thread of this number, in a space of its own.
fn create(kernel: &mut Kernel, number: u32, pager: &Party) -> Result<Party, Stop> {
    let id = ThreadId::global(number, 1).ok_or(Stop::NoId)?;
    step(kernel, &Step::Start(ROOT, Call::create(id, id, pager.id)))?;
    Ok(Party { number, id })
}

/// Delegates a region of a thread's pages to another thread, by the shortest message.
fn delegate(kernel: &mut Kernel, from: &Party, to: &Party, region: &Region) -> Result<(), Stop> {
    let Ok(plan) = plan(region, SIZE) else {
        return Err(Stop::NoPlan);
    };
    let Ok(message) = plan.only() else {
        return Err(Stop::NoPlan);
    };
    let pages = plan.pages_of(0);
    let Ok(Proved) = check(region, SIZE, message.items.as_slice(), pages.as_slice()) else {
        return Err(Stop::NotProved);
    };
    let window = Fpage::Complete(Rights::all());
    let receive = Call::receive(from.id, window, Timeout::Never);
    step(kernel, &Step::Start(to.number, receive))?;
    let send = Call::send(to.id, message.write(), Timeout::Never);
    step(kernel, &Step::Start(from.number, send))?;
    go_on(kernel)
}

/// Makes a thread read an absent page, and its pager receive the fault's message.
fn fault(kernel: &mut Kernel, thread: &Party, pager: &Party) -> Result<(ThreadId, Message), Stop> {
    step(kernel, &Step::Start(pager.number, wait()))?;
    let read = Call::fault(FAULT_ADDRESS, FAULT_IP, Rights::R);
    step(kernel, &Step::Start(thread.number, read))?;
    go_on(kernel)?;
    let told = kernel.reply(pager.number).ok_or(Stop::NoMessage)?;
    brought(told).ok_or(Stop::NoMessage)
}

/// Makes a thread read an absent page, and its pager map the page from its regions.
fn serve(
    kernel: &mut Kernel,
    thread: &Party,
    pager: &Party,
    regions: &RegionPager,
) -> Result<(), Stop> {
    let (sender, message) = fault(kernel, thread, pager)?;
    let answer = answering(sender, &regions.answer(&message));
    step(kernel, &Step::Start(pager.number, answer))?;
    go_on(kernel)
}

/// Prints the mappings of a thread's space.
fn show(rt: &impl Print, kernel: &Kernel, party: &Party) -> io::Result<()> {
    println!(rt; "thread {}", party.number)?;
    let Some(space) = kernel.space_of(party.number) else {
        return Ok(());
    };
    for page in 0..FRAMES {
        if let Some(mapping) = kernel.mapping(space, page) {
            let rights = mapping.rights.bits();
            println!(rt; "  page {page} frame {} rights {rights}", mapping.frame)?;
        }
    }
    Ok(())
}

/// Returns a pager's table of one region: pages 8 to 11 are its own pages 16 to 19, to be read.
fn table() -> Result<RegionPager, Stop> {
    let mut regions = RegionPager::new(SIZE);
    let region = Entry {
        first: 8,
        source: 16,
        count: 4,
        rights: Rights::R,
    };
    match regions.add(region) {
        Ok(()) => Ok(regions),
        Err(_) => Err(Stop::NoRegion),
    }
}

/// Returns the fpage of a block of pages, with all rights.
fn fpage_of(first: u32, log: u8) -> Result<Fpage, Stop> {
    let block = Block::new(first, log).ok_or(Stop::NoPlan)?;
    if block.lies_in(SIZE) {
        Ok(Fpage::of_block(block, SIZE, Rights::all()))
    } else {
        Err(Stop::NoPlan)
    }
}

/// Delegates pages, revokes them and answers a fault, and prints the mappings of the spaces after each.
fn tell<R: AllocGlobal + Print>(rt: &R) -> Result<(), Stop> {
    let mut kernel = Kernel::boot(rt.alloc(), FRAMES, SIZE).map_err(Stop::Refused)?;
    let first = create(&mut kernel, 3, &SIGMA0)?;
    let second = create(&mut kernel, 4, &SIGMA0)?;
    let pages = Region {
        source: 16,
        target: 16,
        count: 8,
        rights: Rights::R.union(Rights::W),
    };
    delegate(&mut kernel, &SIGMA0, &first, &pages)?;
    let range = Region {
        source: 17,
        target: 33,
        count: 6,
        rights: Rights::R,
    };
    delegate(&mut kernel, &first, &second, &range)?;
    show(rt, &kernel, &first).map_err(Stop::Output)?;
    show(rt, &kernel, &second).map_err(Stop::Output)?;
    let eight = fpage_of(16, 3)?;
    let unmap = Call::unmap(false, &[eight]).ok_or(Stop::NoPlan)?;
    step(&mut kernel, &Step::Start(first.number, unmap))?;
    show(rt, &kernel, &first).map_err(Stop::Output)?;
    show(rt, &kernel, &second).map_err(Stop::Output)?;
    let third = create(&mut kernel, 5, &first)?;
    serve(&mut kernel, &third, &first, &table()?)?;
    show(rt, &kernel, &third).map_err(Stop::Output)
}

fn main(rt: HostRuntime) -> ExitCode {
    match tell(&rt) {
        Ok(()) => ExitCode::from(0),
        Err(_) => ExitCode::from(1),
    }
}
