//! Checks plans.
ghost use Rattle.std.specs.Prelude.{◌≡◌, ◌%◌, ◌≤◌, length, IfOk, IfErr, codes};
ghost use Rattle.l4_fpage.specs.declared.sizes.PageSize.TheVariants.{Kib4};
ghost use Rattle.l4_msg.specs.Words.{ItemsRead, FirstFails};
ghost use Rattle.l4_refusals.specs.Texts.{spelled};
ghost use Rattle.l4_c_values.specs.InBytes.{InBytes};
ghost use Rattle.l4_c_values.specs.Regions.{region_of};
ghost use Rattle.l4_c_queries.specs.Traced.{verdict_of};
ghost use Rattle.l4_c.specs.Checked.{ItemsFail, max_plan_words, fault_verdict, TellsCheck, TellsLongCheck};

use arrayvec::ArrayVec;
use l4_c_queries::{Verdict, verdict_of};
use l4_c_values::{
    NO_SUCH_SIZE, RegionGiven, message_detail, message_number, place_told, region_of, size_of,
};
use l4_fpage::Fpage;
use l4_ipc::PageSize;
use l4_msg::{Item, ItemFault, MAX_PLAN_ITEMS, MsgFault};
use l4_plan_check::{Fault, Proved, check, check_too_long};

/// Returns the result for a fault of a plan.
fn fault_told(fault: Fault) -> Verdict
    ensures { result ≡ fault_verdict fault }
{
    match fault {
        Fault::Region => verdict_of(0x4336, 0),
        Fault::Item(i) => verdict_of(0x4331, place_told(i)),
        Fault::Gap(page) => verdict_of(0x4332, page),
        Fault::Count => verdict_of(0x4335, 0),
        Fault::Page(i) => verdict_of(0x4333, place_told(i)),
        Fault::Pair(i) => verdict_of(0x4334, place_told(i)),
    }
}

/// Reads items from their words, two for each. Otherwise returns the position, from 0, and the fault of the first item that cannot be read.
fn items_of(words: &[u32]) -> Result<ArrayVec<Item, MAX_PLAN_ITEMS>, (u32, ItemFault)>
    requires even { length words.now % 2 ≡ 0 }
    requires few { length words.now ≤ max_plan_words }
    ensures ok { IfOk result (λ items. ItemsRead words.now items.items) }
    ensures err { IfErr result (λ e. FirstFails words.now e.0 e.1) }
{
    let mut items = ArrayVec::new();
    for i in 0..words.len() / 2 {
        // The proof of the loop needs the type `Fpage` to be mentioned here.
        let _fpage = Fpage::Nil;
        match Item::read(words[2 * i], words[2 * i + 1]) {
            Ok(item) => items.push(item),
            Err(fault) => return Err((i as u32, fault)),
        }
    }
    Ok(items)
}

/// Reads the items of a plan from their words, or returns the reason why the words are not the items of a plan.
fn plan_items(words: &[u32]) -> Result<ArrayVec<Item, MAX_PLAN_ITEMS>, MsgFault>
    ensures ok { IfOk result (λ items. ItemsRead words.now items.items) }
    ensures err { IfErr result (ItemsFail words.now) }
{
    if words.len() > 2 * MAX_PLAN_ITEMS {
        return Err(MsgFault::TooManyWords);
    }
    if words.len() % 2 != 0 {
        return Err(MsgFault::OddTyped);
    }
    match items_of(words) {
        Ok(items) => Ok(items),
        Err((i, ItemFault::Bad)) => Err(MsgFault::BadItem(i)),
        Err((i, ItemFault::Unsupported)) => Err(MsgFault::Unsupported(i)),
    }
}

/// Checks a plan of a region for pages of this size. The words are two for each item, message after message without the tags.
fn judged(given: &RegionGiven, size: PageSize, words: &[u32], pages: &[u32]) -> Verdict
    ensures { TellsCheck size (region_of given.now) words.now pages.now result }
{
    let items = match plan_items(words) {
        Ok(items) => items,
        Err(fault) => return verdict_of(message_number(fault), message_detail(fault)),
    };
    match check(&region_of(given), size, items.as_slice(), pages) {
        Ok(Proved) => verdict_of(0, 0),
        Err(fault) => fault_told(fault),
    }
}

/// Checks a plan of a region for pages of 4,096 bytes. The refusals are those of the words (M1, M2, M4 or M3), and then C6, C1, C2, C5, C3
/// and C4.
#[unsafe(no_mangle)]
pub extern "C" fn l4_check_plan(given: &RegionGiven, words: &[u32], pages: &[u32]) -> Verdict
    ensures { TellsCheck Kib4 (region_of given.now) words.now pages.now result }
{
    judged(given, PageSize::Kib4, words, pages)
}

/// Checks a plan of a region for pages of `page_bytes` bytes. Refuses a number of bytes that no page has (B4) before every other refusal.
#[unsafe(no_mangle)]
pub extern "C" fn l4_check_plan_sized(
    given: &RegionGiven,
    words: &[u32],
    pages: &[u32],
    page_bytes: u32,
) -> Verdict
    ensures { InBytes page_bytes
        (λ size. TellsCheck size (region_of given.now) words.now pages.now result)
        (result ≡ verdict_of (spelled (codes "B4")) 0) }
{
    match size_of(page_bytes) {
        Some(size) => judged(given, size, words, pages),
        None => verdict_of(NO_SUCH_SIZE, 0),
    }
}

/// Checks that the pages prove every plan of the region to be too long, for pages of this size.
fn judged_too_long(given: &RegionGiven, size: PageSize, pages: &[u32]) -> Verdict
    ensures { TellsLongCheck size (region_of given.now) pages.now result }
{
    match check_too_long(&region_of(given), size, pages) {
        Ok(Proved) => verdict_of(0, 0),
        Err(fault) => fault_told(fault),
    }
}

/// Checks that the pages prove every plan of the region to have more than 1,984 items, for pages of 4,096 bytes. The refusals are C6, C5,
/// C3 and C4.
#[unsafe(no_mangle)]
pub extern "C" fn l4_check_too_long(given: &RegionGiven, pages: &[u32]) -> Verdict
    ensures { TellsLongCheck Kib4 (region_of given.now) pages.now result }
{
    judged_too_long(given, PageSize::Kib4, pages)
}

/// Checks that the pages prove every plan of the region to have more than 1,984 items, for pages of `page_bytes` bytes. Refuses a number of
/// bytes that no page has (B4) before every other refusal.
#[unsafe(no_mangle)]
pub extern "C" fn l4_check_too_long_sized(
    given: &RegionGiven,
    pages: &[u32],
    page_bytes: u32,
) -> Verdict
    ensures { InBytes page_bytes
        (λ size. TellsLongCheck size (region_of given.now) pages.now result)
        (result ≡ verdict_of (spelled (codes "B4")) 0) }
{
    match size_of(page_bytes) {
        Some(size) => judged_too_long(given, size, pages),
        None => verdict_of(NO_SUCH_SIZE, 0),
    }
}
