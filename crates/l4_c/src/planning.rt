//! Plans regions.
ghost use Rattle.std.specs.Prelude.{◌≡◌, ◌≤◌, [], length, codes};
ghost use Rattle.l4_fpage.specs.declared.sizes.PageSize.TheVariants.{Kib4};
ghost use Rattle.l4_refusals.specs.Texts.{spelled};
ghost use Rattle.l4_c_values.specs.InBytes.{InBytes};
ghost use Rattle.l4_c.specs.Planned.{plan_result, part_result, PartIsTold, TellsPlan, TellsPart, TellsPages};
ghost use Rattle.l4_c_queries.specs.Placed.{placed};
ghost use Rattle.l4_c_values.specs.Regions.{region_of};

use l4_c_values::{NO_SUCH_SIZE, RegionGiven, padded, region_of, size_of};
use l4_ipc::{MAX_WORDS, PageSize};
use l4_msg::MAX_ITEMS;
use l4_plan::{Pages, Plan, PlanRefusal, plan};

/// The size of a plan: the number of its items, and the number of messages that send them.
#[repr(C)]
#[derive(Clone, Copy)]
pub struct PlanResult {
    pub refusal: u32,
    pub items: u32,
    pub messages: u32,
}

/// One message of a plan: its words, one page for each item, and the number of messages of the whole plan.
#[repr(C)]
#[derive(Clone, Copy)]
pub struct PartResult {
    pub refusal: u32,
    pub messages: u32,
    pub word_count: u32,
    pub page_count: u32,
    pub words: [u32; MAX_WORDS],
    pub pages: [u32; MAX_ITEMS],
}

/// Returns a result with this refusal and these numbers. They are 0 if the region has no plan.
fn plan_result(refusal: u32, items: u32, messages: u32) -> PlanResult
    ensures { result ≡ plan_result refusal items messages }
{
    PlanResult {
        refusal,
        items,
        messages,
    }
}

/// Returns the size of the shortest plan of a region for pages of this size, or the refusal.
fn planned(given: &RegionGiven, size: PageSize) -> PlanResult
    ensures { TellsPlan size (region_of given.now) result }
{
    match plan(&region_of(given), size) {
        Ok(plan) => plan_result(0, plan.len() as u32, plan.messages()),
        Err(PlanRefusal::Empty) => plan_result(0x4e31, 0, 0),
        Err(PlanRefusal::OutOfSpace) => plan_result(0x4e32, 0, 0),
        Err(PlanRefusal::NoRights) => plan_result(0x4e33, 0, 0),
        Err(PlanRefusal::TooLong(_)) => plan_result(0x4e34, 0, 0),
        Err(PlanRefusal::Several(_)) => plan_result(0x4e35, 0, 0),
        Err(PlanRefusal::NoPart(_)) => plan_result(0x4e36, 0, 0),
    }
}

/// Returns the size of the shortest plan of a region for pages of 4,096 bytes. The refusals are N1, N2, N3 and N4, in this order.
#[unsafe(no_mangle)]
pub extern "C" fn l4_plan_region(given: &RegionGiven) -> PlanResult
    ensures { TellsPlan Kib4 (region_of given.now) result }
{
    planned(given, PageSize::Kib4)
}

/// Returns the size of the shortest plan of a region for pages of `page_bytes` bytes. Refuses a number of bytes that no page has (B4)
/// before every other refusal.
#[unsafe(no_mangle)]
pub extern "C" fn l4_plan_region_sized(given: &RegionGiven, page_bytes: u32) -> PlanResult
    ensures { InBytes page_bytes (λ size. TellsPlan size (region_of given.now) result)
        (result ≡ plan_result (spelled (codes "B4")) 0 0) }
{
    match size_of(page_bytes) {
        Some(size) => planned(given, size),
        None => plan_result(NO_SUCH_SIZE, 0, 0),
    }
}

/// Returns a result with this refusal and no message. `messages` is the number of messages of the plan, or 0 if the region has no plan.
fn no_part(refusal: u32, messages: u32) -> PartResult
    ensures { result ≡ part_result refusal messages [] [] }
{
    PartResult {
        refusal,
        messages,
        word_count: 0,
        page_count: 0,
        words: [0; MAX_WORDS],
        pages: [0; MAX_ITEMS],
    }
}

/// Returns the message of a plan with this number, from 0, or N6 if the plan has no such message.
fn part_told(plan: &Plan, number: u32) -> PartResult
    ensures { PartIsTold plan.now number result }
{
    let messages = plan.messages();
    let Ok(message) = plan.message(number) else {
        return no_part(0x4e36, messages);
    };
    let words = message.write();
    let pages = plan.pages_of(number);
    PartResult {
        refusal: 0,
        messages,
        word_count: words.len() as u32,
        page_count: pages.len() as u32,
        words: padded(words.as_slice()),
        pages: padded(pages.as_slice()),
    }
}

/// Returns the message with this number, from 0, of the shortest plan of a region for pages of this size.
fn part(given: &RegionGiven, size: PageSize, number: u32) -> PartResult
    ensures { TellsPart size (region_of given.now) number result }
{
    match plan(&region_of(given), size) {
        Ok(plan) => part_told(&plan, number),
        Err(PlanRefusal::Empty) => no_part(0x4e31, 0),
        Err(PlanRefusal::OutOfSpace) => no_part(0x4e32, 0),
        Err(PlanRefusal::NoRights) => no_part(0x4e33, 0),
        Err(PlanRefusal::TooLong(_)) => no_part(0x4e34, 0),
        Err(PlanRefusal::Several(_)) => no_part(0x4e35, 0),
        Err(PlanRefusal::NoPart(_)) => no_part(0x4e36, 0),
    }
}

/// Returns the message with this number, from 0, of the shortest plan of a region for pages of 4,096 bytes. The refusals are N1, N2, N3, N4
/// and N6, in this order.
#[unsafe(no_mangle)]
pub extern "C" fn l4_plan_message(given: &RegionGiven, number: u32) -> PartResult
    ensures { TellsPart Kib4 (region_of given.now) number result }
{
    part(given, PageSize::Kib4, number)
}

/// Returns the message with this number, from 0, of the shortest plan of a region for pages of `page_bytes` bytes. Refuses a number of
/// bytes that no page has (B4) before every other refusal.
#[unsafe(no_mangle)]
pub extern "C" fn l4_plan_message_sized(
    given: &RegionGiven,
    number: u32,
    page_bytes: u32,
) -> PartResult
    ensures { InBytes page_bytes (λ size. TellsPart size (region_of given.now) number result)
        (result ≡ part_result (spelled (codes "B4")) 0 [] []) }
{
    match size_of(page_bytes) {
        Some(size) => part(given, size, number),
        None => no_part(NO_SUCH_SIZE, 0),
    }
}

/// Writes as many pages as fit into the array, and returns how many pages there are.
fn write_pages(pages: Pages, out: &mut [u32]) -> u32
    requires { length pages ≤ 1985 }
    ensures count { result ≡ length pages }
    ensures written { out.new ≡ placed pages out.old }
{
    let count = pages.len() as u32;
    let room = out.len();
    let mut at = 0;
    for page in pages {
        if at >= room {
            return count;
        }
        out[at] = page;
        at += 1;
    }
    count
}

/// Writes the first source page of each item of the shortest plan, for pages of this size, and returns how many there are. If every plan is
/// too long, writes the 1,985 pages that prove it. Returns 0 if the region is refused for another reason.
fn pages(given: &RegionGiven, size: PageSize, out: &mut [u32]) -> u32
    ensures told { TellsPages size (region_of given.now) out.old out.new result }
    ensures room { length out.new ≡ length out.old }
{
    match plan(&region_of(given), size) {
        Ok(plan) => write_pages(plan.pages(), out),
        Err(PlanRefusal::TooLong(pages)) => write_pages(pages, out),
        Err(_) => 0,
    }
}

/// Writes the first source page of each item of the shortest plan, for pages of 4,096 bytes, and returns how many there are. If every plan
/// is too long, writes the 1,985 pages that prove it. Returns 0 if the region is refused for another reason.
#[unsafe(no_mangle)]
pub extern "C" fn l4_plan_pages(given: &RegionGiven, out: &mut [u32]) -> u32
    ensures told { TellsPages Kib4 (region_of given.now) out.old out.new result }
    ensures room { length out.new ≡ length out.old }
{
    pages(given, PageSize::Kib4, out)
}

/// Does the same as `l4_plan_pages` for pages of `page_bytes` bytes. Returns 0 if no page has that many bytes.
#[unsafe(no_mangle)]
pub extern "C" fn l4_plan_pages_sized(given: &RegionGiven, out: &mut [u32], page_bytes: u32) -> u32
    ensures told { InBytes page_bytes
        (λ size. TellsPages size (region_of given.now) out.old out.new result)
        ((result ≡ 0) × (out.new ≡ out.old)) }
    ensures room { length out.new ≡ length out.old }
{
    match size_of(page_bytes) {
        Some(size) => pages(given, size, out),
        None => 0,
    }
}
