//! Tables of pagers, and the page faults and requests for frames that messages hold.

ghost use Rattle.std.specs.Prelude.{◌≡◌, None, Some, codes};
ghost use Rattle.l4_fpage.specs.declared.sizes.PageSize.TheVariants.{Kib4};
ghost use Rattle.l4_refusals.specs.Texts.{spelled};
ghost use Rattle.l4_c_values.specs.InBytes.{InBytes};
ghost use Rattle.l4_c.specs.Served.{entry_refusal, MakesTable, Adds, FindsSource, TellsTablesAnswer};
ghost use Rattle.l4_c.specs.Read.{TellsFault, TellsRequest};

use l4_c_values::{
    EMPTY, FaultResult, HELD, MessageResult, NO_MEMORY, NO_SUCH_SIZE, PageResult, PagerHandle,
    RegionGiven, RequestResult, entry_of, fault_told, message_detail, message_number, message_told,
    no_fault, no_message, no_page, no_request, page_told, request_told, rights, size_of, unread,
};
use l4_ipc::{Message, PageSize};
use l4_pager::{PagerRefusal, RegionPager};
use std::alloc::Global;

/// Returns the number of a refusal of a pager's table.
fn entry_number(refusal: PagerRefusal) -> u32
    ensures { result ≡ entry_refusal refusal }
{
    match refusal {
        PagerRefusal::Overlap => 0x5031,
        PagerRefusal::NoRegion => 0x5032,
        PagerRefusal::Full => 0x5033,
        PagerRefusal::BadRegion => 0x5034,
    }
}

/// Makes a table without regions for pages of this size.
fn make(alloc: Global, handle: &mut PagerHandle, size: PageSize) -> u32
    ensures { MakesTable handle.old.value size result handle.new.value }
{
    if let Some(table) = handle.take(alloc) {
        handle.put(table);
        return HELD;
    }
    match Box::new(alloc, RegionPager::new(size)) {
        Ok(table) => {
            handle.put(table);
            0
        }
        Err(_) => NO_MEMORY,
    }
}

/// Makes a table without regions for pages of 4,096 bytes. The refusals are B2 and NoMemory, in this order.
#[unsafe(no_mangle)]
pub extern "C" fn l4_pager_new(alloc: Global, handle: &mut PagerHandle) -> u32
    ensures { MakesTable handle.old.value Kib4 result handle.new.value }
{
    make(alloc, handle, PageSize::Kib4)
}

/// Makes a table without regions for pages of `page_bytes` bytes. Refuses a number of bytes that no page has (B4) before every other
/// refusal.
#[unsafe(no_mangle)]
pub extern "C" fn l4_pager_new_sized(
    alloc: Global,
    handle: &mut PagerHandle,
    page_bytes: u32,
) -> u32
    ensures { InBytes page_bytes (λ size. MakesTable handle.old.value size result handle.new.value)
        ((result ≡ spelled (codes "B4")) × (handle.new.value ≡ handle.old.value)) }
{
    match size_of(page_bytes) {
        Some(size) => make(alloc, handle, size),
        None => NO_SUCH_SIZE,
    }
}

/// Frees a table, and leaves the handle empty.
#[unsafe(no_mangle)]
pub extern "C" fn l4_pager_free(alloc: Global, handle: &mut PagerHandle)
    ensures { handle.new.value ≡ None }
{
    let _table = handle.take(alloc);
}

/// Adds a region at the end of a table. The refusals are B1, P4, P1 and P3, in this order.
#[unsafe(no_mangle)]
pub extern "C" fn l4_pager_add(alloc: Global, handle: &mut PagerHandle, region: &RegionGiven) -> u32
    ensures { Adds handle.old.value region.now result handle.new.value }
{
    let Some(mut table) = handle.take(alloc) else {
        return EMPTY;
    };
    let added = table.add(entry_of(region));
    handle.put(table);
    match added {
        Ok(()) => 0,
        Err(refusal) => entry_number(refusal),
    }
}

/// Returns the source page of a target page whose region has the rights that the access needs. The refusals are B1 and P2.
#[unsafe(no_mangle)]
pub extern "C" fn l4_pager_find(
    alloc: Global,
    handle: &mut PagerHandle,
    page: u32,
    access: u32,
) -> PageResult
    ensures kept { handle.new.value ≡ handle.old.value }
    ensures told { FindsSource handle.old.value page access result }
{
    let Some(table) = handle.take(alloc) else {
        return no_page(EMPTY);
    };
    let found = table.find(page, rights(access));
    handle.put(table);
    match found {
        Ok(source) => page_told(source),
        Err(refusal) => no_page(entry_number(refusal)),
    }
}

/// Returns the table's answer to the words of a message, or the refusal of words that are not a message.
fn answer(table: &RegionPager, words: &[u32]) -> MessageResult
    ensures { TellsTablesAnswer (Some table.now) words.now result }
{
    match Message::read(words) {
        Ok(message) => message_told(&table.answer(&message)),
        Err(fault) => unread(fault),
    }
}

/// Returns the pager's answer to a message. The refusals are B1, and then those of the message.
#[unsafe(no_mangle)]
pub extern "C" fn l4_pager_answer(
    alloc: Global,
    handle: &mut PagerHandle,
    words: &[u32],
) -> MessageResult
    ensures kept { handle.new.value ≡ handle.old.value }
    ensures told { TellsTablesAnswer handle.old.value words.now result }
{
    let Some(table) = handle.take(alloc) else {
        return no_message(EMPTY, 0);
    };
    let told = answer(&table, words);
    handle.put(table);
    told
}

/// Reads the words of a message as a page fault. The refusals are those of the message.
#[unsafe(no_mangle)]
pub extern "C" fn l4_read_fault(words: &[u32]) -> FaultResult
    ensures { TellsFault words.now result }
{
    match Message::read(words) {
        Ok(message) => fault_told(&message),
        Err(fault) => no_fault(message_number(fault), message_detail(fault)),
    }
}

/// Reads the words of a message as a request for frames. The refusals are those of the message.
#[unsafe(no_mangle)]
pub extern "C" fn l4_read_request(words: &[u32]) -> RequestResult
    ensures { TellsRequest words.now result }
{
    match Message::read(words) {
        Ok(message) => request_told(&message),
        Err(fault) => no_request(message_number(fault), message_detail(fault)),
    }
}
