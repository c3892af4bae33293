//! The words of the parts of a state.
ghost use Rattle.std.specs.Prelude.{◌≡◌, ◌++◌, OnOk};
ghost use Rattle.l4_keys.specs.Words.{counted, counts_words, size_word, item_words, items_words, reply_words, source_words, receiving_words, then_words, sending_words, thread_words, parent_words, mapping_words, entry_words, table_words};

use l4_fpage::PageSize;
use l4_mapdb::{Mapping, Place};
use l4_msg::Item;
use l4_pager::{Entry, RegionPager};
use l4_threads::{Later, Receiving, Reply, Sending, Source, State, Thread};
use std::alloc::AllocError;

/// Returns the low word of a number.
pub(crate) fn low(number: u64) -> u32
    ensures { result ≡ number % 2 ^ 32 }
{
    (number % (1 << 32)) as u32
}

/// Returns the high word of a number.
pub(crate) fn high(number: u64) -> u32
    ensures { result ≡ number / 2 ^ 32 }
{
    (number >> 32) as u32
}

ghost use Rattle.std.specs.Prelude.{◌%◌, ◌/◌, ◌^◌};

/// Appends words.
pub(crate) fn put(out: &mut Vec<u32>, words: &[u32]) -> Result<(), AllocError>
    ensures { OnOk result (out.new.items ≡ out.old.items ++ words.now) }
{
    out.extend_from_slice(words)
}

/// Appends the number of words, and the words.
pub fn put_counted(out: &mut Vec<u32>, words: &[u32]) -> Result<(), AllocError>
    ensures { OnOk result (out.new.items ≡ out.old.items ++ counted words.now) }
{
    let Ok(count) = u32::try_from(words.len()) else {
        return Err(AllocError);
    };
    put(out, &[count])?;
    put(out, words)
}

/// Appends the number of counts, and the two words of each.
pub fn put_counts(out: &mut Vec<u32>, counts: &[usize]) -> Result<(), AllocError>
    ensures { OnOk result (out.new.items ≡ out.old.items ++ counts_words counts.now) }
{
    let Ok(number) = u32::try_from(counts.len()) else {
        return Err(AllocError);
    };
    put(out, &[number])?;
    for count in counts {
        let count = *count as u64;
        put(out, &[low(count), high(count)])?;
    }
    Ok(())
}

/// Returns the word of a size of pages.
pub(crate) fn size_word(size: PageSize) -> u32
    ensures { result ≡ size_word size }
{
    match size {
        PageSize::Kib4 => 0,
        PageSize::Kib1 => 1,
    }
}

/// Appends an entry of a table.
fn put_entry(entry: &Entry, out: &mut Vec<u32>) -> Result<(), AllocError>
    ensures { OnOk result (out.new.items ≡ out.old.items ++ entry_words entry.now) }
{
    let rights = u32::from(entry.rights.bits());
    put(out, &[entry.first, entry.source, entry.count, rights])
}

/// Appends a table: the size of its pages, the number of its entries, and the entries.
pub(crate) fn put_table(table: &RegionPager, out: &mut Vec<u32>) -> Result<(), AllocError>
    ensures { OnOk result (out.new.items ≡ out.old.items ++ table_words table.now) }
{
    let entries = table.entries();
    let Ok(count) = u32::try_from(entries.len()) else {
        return Err(AllocError);
    };
    put(out, &[size_word(table.page_size()), count])?;
    for entry in entries {
        put_entry(entry, out)?;
    }
    Ok(())
}

/// Appends the parent of a page, if it has one.
fn put_parent(parent: Option<Place>, out: &mut Vec<u32>) -> Result<(), AllocError>
    ensures { OnOk result (out.new.items ≡ out.old.items ++ parent_words parent) }
{
    match parent {
        None => put(out, &[0]),
        Some(place) => put(out, &[1, place.page, low(place.space), high(place.space)]),
    }
}

/// Appends the mapping of a page.
pub(crate) fn put_mapping(mapping: Mapping, out: &mut Vec<u32>) -> Result<(), AllocError>
    ensures { OnOk result (out.new.items ≡ out.old.items ++ mapping_words mapping) }
{
    put(out, &[mapping.frame, u32::from(mapping.rights.bits())])?;
    put_parent(mapping.parent, out)
}

/// Appends an item.
fn put_item(item: &Item, out: &mut Vec<u32>) -> Result<(), AllocError>
    ensures { OnOk result (out.new.items ≡ out.old.items ++ item_words item.now) }
{
    match item {
        Item::Map { base, fpage } => put(out, &[1, *base, fpage.word()]),
        Item::Grant { base, fpage } => put(out, &[2, *base, fpage.word()]),
    }
}

/// Appends the number of items, and the items.
fn put_items(items: &[Item], out: &mut Vec<u32>) -> Result<(), AllocError>
    ensures { OnOk result (out.new.items ≡ out.old.items ++ items_words items.now) }
{
    let Ok(count) = u32::try_from(items.len()) else {
        return Err(AllocError);
    };
    put(out, &[count])?;
    for item in items {
        put_item(item, out)?;
    }
    Ok(())
}

/// Appends a reply.
fn put_reply(reply: &Reply, out: &mut Vec<u32>) -> Result<(), AllocError>
    ensures { OnOk result (out.new.items ≡ out.old.items ++ reply_words reply.now) }
{
    match reply {
        Reply::Ipc(reply) => {
            put(out, &[1, reply.tag, reply.error, reply.from.0])?;
            put_counted(out, reply.words.as_slice())
        }
        Reply::Hit => put(out, &[2]),
        Reply::Answered => put(out, &[3]),
        Reply::FaultFailed(code) => put(out, &[4, *code]),
        Reply::Unmapped => put(out, &[5]),
        Reply::Controlled => put(out, &[6]),
        Reply::Gone => put(out, &[7]),
    }
}

/// Appends whom a thread receives from.
fn put_source(source: Source, out: &mut Vec<u32>) -> Result<(), AllocError>
    ensures { OnOk result (out.new.items ≡ out.old.items ++ source_words source) }
{
    match source {
        Source::Anyone => put(out, &[0]),
        Source::Thread(number) => put(out, &[1, number]),
    }
}

/// Appends a receive phase.
fn put_receiving(receiving: &Receiving, out: &mut Vec<u32>) -> Result<(), AllocError>
    ensures { OnOk result (out.new.items ≡ out.old.items ++ receiving_words receiving.now) }
{
    let (expires, fault) = (u32::from(receiving.expires), u32::from(receiving.fault));
    put(out, &[8, expires, fault, receiving.window.word()])?;
    put_source(receiving.from, out)
}

/// Appends the receive phase that follows a send phase, if there is one.
fn put_then(then: Option<Later>, out: &mut Vec<u32>) -> Result<(), AllocError>
    ensures { OnOk result (out.new.items ≡ out.old.items ++ then_words then) }
{
    match then {
        None => put(out, &[0]),
        Some(later) => {
            let expires = u32::from(later.expires);
            put(out, &[1, later.from.0, expires, later.window.word()])
        }
    }
}

/// Appends a send phase.
fn put_sending(sending: &Sending, out: &mut Vec<u32>) -> Result<(), AllocError>
    ensures { OnOk result (out.new.items ≡ out.old.items ++ sending_words sending.now) }
{
    let (expires, fault) = (u32::from(sending.expires), u32::from(sending.fault));
    put(out, &[9, sending.to, expires, fault])?;
    put_then(sending.then, out)?;
    put_counted(out, sending.words.as_slice())?;
    put_items(sending.items.as_slice(), out)
}

/// Appends a thread.
pub(crate) fn put_thread(thread: &Thread, out: &mut Vec<u32>) -> Result<(), AllocError>
    ensures { OnOk result (out.new.items ≡ out.old.items ++ thread_words thread.now) }
{
    let space = thread.space;
    put(out, &[thread.id.0, thread.pager.0, low(space), high(space)])?;
    if let Some(reply) = thread.state.last_reply() {
        return put_reply(reply, out);
    }
    if let Some(sending) = thread.state.sending() {
        return put_sending(sending, out);
    }
    if let Some(receiving) = thread.state.receiving() {
        return put_receiving(receiving, out);
    }
    put(out, &[0])
}
