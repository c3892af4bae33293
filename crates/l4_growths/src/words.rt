//! Plans, checks and the answers of pagers, which take no memory.

use crate::{end_memory, stop};
use l4_ipc::{PageSize, Rights};
use l4_msg::{Message, PageFault, Region, TOO_MANY};
use l4_pager::{Entry, RegionPager};
use l4_plan::{PlanRefusal, plan};
use l4_plan_check::{check, check_too_long};
use l4_plan_lines::{check_lines, plan_lines};
use l4_sigma0::Sigma0;
use std::io;

const FRAMES: u32 = 8;

const SIZE: PageSize = PageSize::Kib4;

/// Twelve pages, which two items move.
const REGION: Region = Region {
    source: 4,
    target: 12,
    count: 12,
    rights: Rights::R,
};

/// Each of its pages needs an item of its own.
const LONG: Region = Region {
    source: 0,
    target: 1,
    count: 1985,
    rights: Rights::R,
};

/// The lines of the region's plan.
const LINES: &[u8] =
    b"tag 00000100\nitem 0000c009 000040e4 page 4\nitem 00010008 000080f4 page 8\n";

/// The request for the frame of page 3.
const REQUEST: [u32; 3] = [0xffa0_0002, 0x30c0, 0];

/// Plans a region, and checks the plan.
fn tell_plan(rt: &impl Print) -> io::Result<()> {
    let Ok(plan) = plan(&REGION, SIZE) else {
        return Err(stop());
    };
    let Ok(message) = plan.only() else {
        return Err(stop());
    };
    let items = message.items.as_slice();
    let pages = plan.pages_of(0);
    println!(rt; "done plan {items:?} {:?}", pages.as_slice())?;
    let proved = check(&REGION, SIZE, items, pages.as_slice());
    println!(rt; "{proved:?}\n.")
}

/// Shows that a region has no plan.
fn tell_too_long(rt: &impl Print) -> io::Result<()> {
    let Err(PlanRefusal::TooLong(pages)) = plan(&LONG, SIZE) else {
        return Err(stop());
    };
    let mut list = [0; TOO_MANY];
    for (i, page) in pages.enumerate() {
        if i < TOO_MANY {
            list[i] = page;
        }
    }
    let proved = check_too_long(&LONG, SIZE, list.as_slice());
    println!(rt; "done too_long {:?} {proved:?}\n.", list.last())
}

/// Writes the plan of a region, and checks its lines.
fn tell_lines(rt: &impl Print) -> io::Result<()> {
    println!(rt; "done plan_lines")?;
    let planned = plan_lines(&REGION, SIZE, &mut io::writer(rt));
    println!(rt; "{planned:?}\n.\ndone check_lines")?;
    let mut lines = LINES;
    let checked = check_lines(&REGION, SIZE, &mut lines, &mut io::writer(rt));
    println!(rt; "{checked:?} left {}\n.", lines.len())
}

/// Pages 16 and 17, for which pages 4 and 5 are given.
fn entry() -> Entry {
    Entry {
        first: 16,
        source: 4,
        count: 2,
        rights: Rights::R,
    }
}

/// Adds a region to a table twice, the second time in vain, and answers a fault of a page, and of one that no region holds.
fn tell_pager(rt: &impl Print) -> io::Result<()> {
    let mut regions = RegionPager::new(SIZE);
    let added = regions.add(entry());
    let again = regions.add(entry());
    println!(rt; "done add {added:?} {again:?}")?;
    println!(rt; "find {:?}", regions.find(17, Rights::R))?;
    for address in [0x1_1678, 0x1_2000] {
        let fault = PageFault {
            address,
            ip: 0,
            access: Rights::R,
        };
        println!(rt; "{:?}", regions.answer(&fault.message()))?;
    }
    println!(rt; ".")
}

/// Asks sigma0 for a frame twice, the second time from another space.
fn tell_sigma0(rt: &impl Print) -> io::Result<()> {
    let mut sigma0 = Sigma0::new(FRAMES, SIZE);
    let request = Message::read(&REQUEST);
    println!(rt; "done sigma0 {request:?}")?;
    if let Ok(message) = request {
        for space in [2, 3] {
            println!(rt; "{:?}", sigma0.answer(space, &message))?;
        }
    }
    println!(rt; ".")
}

pub fn tell<R: Input + Print>(rt: &R) -> io::Result<()> {
    end_memory(rt)?;
    tell_plan(rt)?;
    tell_too_long(rt)?;
    tell_lines(rt)?;
    tell_pager(rt)?;
    tell_sigma0(rt)
}
