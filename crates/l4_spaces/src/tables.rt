//! The tables of one space. Each is absent, or has an entry for each of its pages. The list of tables, the root, is as long as a table was
//! needed; tables beyond its end are absent.

#![tactic(auto, using(crate::proofs::Walk::walks))]

ghost use Rattle.std.specs.Prelude.{◌≡◌, ◌≢◌, ◌<◌, ◌≤◌, ◌/◌, ◌%◌, ◌+◌, ◌*◌, ◌⊎◌, ℕ, length, [], ◌∷◌, All, Some, None, OnOk, OnErr, IsOk, IfOk, IsTrue, is_some, IfSome, MatchOption, slice_index_or, true, false};
ghost use Rattle.l4_spaces.specs.Tables.{table_pages, space_tables, row_block, IsPage, NoKeys};
ghost use Rattle.l4_spaces.specs.Rows.{entry, is_made, IsReady, AreWhole, AreMade, NoKeysInBlock, NoneIn, IsFirstIn, IsTableFrom, row};

use crate::keys::Link;
use crate::row::{BLOCK, Row};
use std::alloc::{AllocError, Global};

/// The number of pages of a table.
pub const TABLE_PAGES: u32 = 2048;

/// The number of tables of a space.
pub(crate) const SPACE_TABLES: usize = 2048;

/// The number of pages of a space.
pub(crate) const SPACE_PAGES: u32 = SPACE_TABLES as u32 * TABLE_PAGES;

/// Returns the key of the page.
pub fn key_in(tables: &Vec<Row>, page: u32) -> Option<usize>
    ensures { result ≡ entry tables.now.items page }
{
    let high = (page / TABLE_PAGES) as usize;
    if high >= tables.len() {
        return None;
    }
    tables[high].key((page % TABLE_PAGES) as usize)
}

/// Sets the entry of a page whose table is there.
pub fn put(tables: &mut Vec<Row>, page: u32, link: Link)
    requires ready { IsReady tables.old.items page }
    ensures here { entry tables.new.items page ≡ link }
    ensures others { (other : ℕ) → other ≢ page → entry tables.new.items other
        ≡ entry tables.old.items other }
    ensures long { (high : ℕ) → length (row tables.new.items high)
        ≡ length (row tables.old.items high) }
    ensures full { length tables.new.items ≡ length tables.old.items }
{
    let high = (page / TABLE_PAGES) as usize;
    let low = (page % TABLE_PAGES) as usize;
    tables[high].put(low, link);
}

/// Removes the key of the page.
pub fn clear(tables: &mut Vec<Row>, page: u32)
    ensures here { entry tables.new.items page ≡ None }
    ensures others { (other : ℕ) → other ≢ page → entry tables.new.items other
        ≡ entry tables.old.items other }
    ensures long { (high : ℕ) → length (row tables.new.items high)
        ≡ length (row tables.old.items high) }
    ensures full { length tables.new.items ≡ length tables.old.items }
{
    let high = (page / TABLE_PAGES) as usize;
    if high < tables.len() {
        tables[high].clear((page % TABLE_PAGES) as usize);
    }
}

/// Creates the table with this number.
fn make(tables: &mut Vec<Row>, alloc: Global, high: usize) -> Result<(), AllocError>
    requires absent { row tables.old.items high ≡ [] }
    requires within { high < length tables.old.items }
    ensures same { (other : ℕ) → entry tables.new.items other ≡ entry tables.old.items other }
    ensures made { OnOk result (length (row tables.new.items high) ≡ table_pages) }
    ensures others { (other : ℕ) → other ≢ high → row tables.new.items other
        ≡ row tables.old.items other }
    ensures full { length tables.new.items ≡ length tables.old.items }
    ensures err { OnErr result (tables.new ≡ tables.old) }
{
    let table = Row::whole(alloc, TABLE_PAGES as usize)?;
    tables[high] = table;
    Ok(())
}

/// Removes the table with this number.
fn unmake(tables: &mut Vec<Row>, alloc: Global, high: usize)
    requires within { high < length tables.old.items }
    ensures gone { row tables.new.items high ≡ [] }
    ensures others { (other : ℕ) → other ≢ high → row tables.new.items other
        ≡ row tables.old.items other }
    ensures full { length tables.new.items ≡ length tables.old.items }
{
    tables[high] = Row::absent(alloc);
}

/// Makes the root just long enough for the table with this number. The tables that come with that are absent.
#[cold]
#[inline(never)]
fn grow_root(tables: &mut Vec<Row>, alloc: Global, high: usize) -> Result<(), AllocError>
    requires within { high < space_tables }
    requires full { length tables.old.items ≤ space_tables }
    ensures rows { (other : ℕ) → row tables.new.items other ≡ row tables.old.items other }
    ensures long { OnOk result (high < length tables.new.items) }
    ensures least { (length tables.new.items ≡ length tables.old.items)
        ⊎ (length tables.new.items ≡ high + 1) }
    ensures full { length tables.new.items ≤ space_tables }
{
    let from = tables.len();
    if high < from {
        return Ok(());
    }
    tables.reserve(high + 1 - from)?;
    for _ in from..high + 1 {
        let _ = tables.push(Row::absent(alloc));
    }
    Ok(())
}

/// Returns whether the page's table exists.
pub fn is_ready(tables: &Vec<Row>, page: u32) -> bool
    ensures { result ≡ is_made tables.now.items (page / table_pages) }
{
    let high = (page / TABLE_PAGES) as usize;
    high < tables.len() && tables[high].len() > 0
}

/// Returns the index of the first of these pages whose table does not exist.
fn first_absent(tables: &Vec<Row>, pages: &[u32]) -> Option<usize>
    ensures ready { MatchOption result (AreMade tables.now.items pages.now (length pages.now))
        (λ at. AreMade tables.now.items pages.now at) }
    ensures absent { IfSome result
        (λ at. (at < length pages.now)
        × (is_made tables.now.items (slice_index_or pages.now at 0 / table_pages) ≡ false)) }
{
    for at in 0..pages.len() {
        if !is_ready(tables, pages[at]) {
            return Some(at);
        }
    }
    None
}

/// Creates the tables of all these pages. If an allocation fails, the tables that were created are removed again, but a longer root stays.
#[cold]
#[inline(never)]
fn make_more(tables: &mut Vec<Row>, alloc: Global, pages: &[u32]) -> Result<(), AllocError>
    requires whole { AreWhole tables.old.items }
    requires full { length tables.old.items ≤ space_tables }
    requires fit { All IsPage pages.now }
    ensures same { (other : ℕ) → entry tables.new.items other ≡ entry tables.old.items other }
    ensures ok { OnOk result (AreMade tables.new.items pages.now (length pages.now)) }
    ensures kept { (high : ℕ) → is_made tables.old.items high ≡ true → is_made tables.new.items high
        ≡ true }
    ensures err { OnErr result
        ((high : ℕ) → is_made tables.new.items high ≡ is_made tables.old.items high) }
    ensures whole { AreWhole tables.new.items }
    ensures full { length tables.new.items ≤ space_tables }
    ensures succeeds { AreMade tables.old.items pages.now (length pages.now) → IsOk result }
{
    let Some(at) = first_absent(tables, pages) else {
        return Ok(());
    };
    let high = (pages[at] / TABLE_PAGES) as usize;
    grow_root(tables, alloc, high)?;
    make(tables, alloc, high)?;
    if let Err(refused) = make_more(tables, alloc, &pages[at + 1..]) {
        unmake(tables, alloc, high);
        return Err(refused);
    }
    Ok(())
}

/// Creates the tables of all these pages. If all of them exist, one test finds this.
#[inline]
pub fn make_all(tables: &mut Vec<Row>, alloc: Global, pages: &[u32]) -> Result<(), AllocError>
    requires whole { AreWhole tables.old.items }
    requires full { length tables.old.items ≤ space_tables }
    requires fit { All IsPage pages.now }
    ensures same { (other : ℕ) → entry tables.new.items other ≡ entry tables.old.items other }
    ensures ok { OnOk result (AreMade tables.new.items pages.now (length pages.now)) }
    ensures kept { (high : ℕ) → is_made tables.old.items high ≡ true → is_made tables.new.items high
        ≡ true }
    ensures err { OnErr result
        ((high : ℕ) → is_made tables.new.items high ≡ is_made tables.old.items high) }
    ensures whole { AreWhole tables.new.items }
    ensures full { length tables.new.items ≤ space_tables }
    ensures succeeds { AreMade tables.old.items pages.now (length pages.now) → IsOk result }
{
    let Some(_) = first_absent(tables, pages) else {
        return Ok(());
    };
    make_more(tables, alloc, pages)
}

/// Sets the entry of a page without a key, and creates its table if it has none. Returns whether the page had no key.
///
/// An allocation can fail only if the table did not exist; a root that became longer then stays so.
#[inline]
pub(crate) fn claim(
    tables: &mut Vec<Row>,
    alloc: Global,
    page: u32,
    link: Link,
) -> Result<bool, AllocError>
    requires whole { AreWhole tables.old.items }
    requires full { length tables.old.items ≤ space_tables }
    requires fits { IsPage page }
    ensures claimed { IfOk result
        (λ done. done ≡ true → (entry tables.old.items page ≡ None)
        × (entry tables.new.items page ≡ link)) }
    ensures present { IfOk result
        (λ done. done ≡ false → IsTrue (is_some (entry tables.old.items page))
        × (tables.new.items ≡ tables.old.items)) }
    ensures err { OnErr result
        ((entry tables.old.items page ≡ None) × (entry tables.new.items page ≡ None)) }
    ensures others { (other : ℕ) → other ≢ page → entry tables.new.items other
        ≡ entry tables.old.items other }
    ensures kept { (high : ℕ) → is_made tables.old.items high ≡ true → is_made tables.new.items high
        ≡ true }
    ensures refused { OnErr result
        ((high : ℕ) → is_made tables.new.items high ≡ is_made tables.old.items high) }
    ensures whole { AreWhole tables.new.items }
    ensures full { length tables.new.items ≤ space_tables }
    ensures succeeds { AreMade tables.old.items (page ∷ []) 1 → IsOk result }
{
    let high = (page / TABLE_PAGES) as usize;
    let low = (page % TABLE_PAGES) as usize;
    if high < tables.len() {
        let row = &mut tables[high];
        if low < row.len() {
            if row.at(low).is_some() {
                return Ok(false);
            }
            row.put(low, link);
            return Ok(true);
        }
    }
    claim_more(tables, alloc, page, link)
}

/// Sets the entry of a page without a key, and makes its table before. Where memory is refused, a root that grew stays.
#[cold]
#[inline(never)]
fn claim_more(
    tables: &mut Vec<Row>,
    alloc: Global,
    page: u32,
    link: Link,
) -> Result<bool, AllocError>
    requires whole { AreWhole tables.old.items }
    requires full { length tables.old.items ≤ space_tables }
    requires fits { IsPage page }
    requires absent { entry tables.old.items page ≡ None }
    ensures done { IfOk result (λ done. done ≡ true) }
    ensures ok { OnOk result (entry tables.new.items page ≡ link) }
    ensures err { OnErr result (entry tables.new.items page ≡ None) }
    ensures others { (other : ℕ) → other ≢ page → entry tables.new.items other
        ≡ entry tables.old.items other }
    ensures kept { (high : ℕ) → is_made tables.old.items high ≡ true → is_made tables.new.items high
        ≡ true }
    ensures refused { OnErr result
        ((high : ℕ) → is_made tables.new.items high ≡ is_made tables.old.items high) }
    ensures whole { AreWhole tables.new.items }
    ensures full { length tables.new.items ≤ space_tables }
    ensures succeeds { AreMade tables.old.items (page ∷ []) 1 → IsOk result }
{
    make_more(tables, alloc, &[page])?;
    put(tables, page, link);
    Ok(true)
}

/// Returns the first entry from this one on and below the end that has a key, with the key.
fn next_among(row: &Row, from: usize, end: usize) -> Option<(usize, usize)>
    requires within { end ≤ length row.now }
    ensures none { MatchOption result (NoKeys row.now from end)
        (λ found. NoKeys row.now from found.0) }
    ensures some { IfSome result
        (λ found. (from ≤ found.0) × (found.0 < end)
        × (slice_index_or row.now found.0 None ≡ Some found.1)) }
{
    for low in from..end {
        if let Some(key) = row.at(low) {
            return Some((low, key));
        }
    }
    None
}

/// Does what `next_among` does, for the entries of one block.
#[inline]
fn next_in_block(row: &Row, from: usize, end: usize, block: usize) -> Option<(usize, usize)>
    requires within { end ≤ length row.now }
    requires begun { block * row_block ≤ end }
    ensures none { MatchOption result (NoKeysInBlock row.now from end block)
        (λ found. NoKeysInBlock row.now from found.0 block) }
    ensures some { IfSome result
        (λ found. (from ≤ found.0) × (found.0 < end) × (found.0 < block * row_block + row_block)
        × (slice_index_or row.now found.0 None ≡ Some found.1)) }
{
    if !row.is_used(block) {
        return None;
    }
    let start = block * BLOCK;
    let places = (end - start).min(BLOCK);
    next_among(row, from.max(start), start + places)
}

/// Does what `next_among` does, for all entries. A block that is not used is skipped.
fn next_in_row(row: &Row, from: usize, end: usize) -> Option<(usize, usize)>
    requires within { end ≤ length row.now }
    ensures none { MatchOption result (NoKeys row.now from end)
        (λ found. NoKeys row.now from found.0) }
    ensures some { IfSome result
        (λ found. (from ≤ found.0) × (found.0 < end)
        × (slice_index_or row.now found.0 None ≡ Some found.1)) }
{
    for block in from / BLOCK..end / BLOCK + 1 {
        if let Some(found) = next_in_block(row, from, end, block) {
            return Some(found);
        }
    }
    None
}

/// Returns the entry at which a walk from `page` on begins, in the table with this number.
fn first_low(page: u32, high: usize) -> usize
    ensures here { high ≡ page / table_pages → result ≡ page % table_pages }
    ensures later { high ≢ page / table_pages → result ≡ 0 }
{
    if high == (page / TABLE_PAGES) as usize {
        return (page % TABLE_PAGES) as usize;
    }
    0
}

/// Returns the entry at which a walk to `end` leaves a table of this many entries, whose first page is `start`.
fn last_low(places: usize, start: u32, end: u32) -> usize
    requires before { start < end }
    ensures within { result ≤ places }
    ensures before { start + result ≤ end }
    ensures last { (result ≡ places) ⊎ (start + result ≡ end) }
{
    let left = (end - start) as usize;
    if left < places {
        return left;
    }
    places
}

/// Returns the number of the first existing table with pages from `page` on and below `end`.
pub(crate) fn next_table(tables: &Vec<Row>, page: u32, end: u32) -> Option<usize>
    requires whole { AreWhole tables.now.items }
    requires full { length tables.now.items ≤ space_tables }
    ensures { MatchOption result (NoneIn tables.now.items page end)
        (IsTableFrom tables.now.items page end) }
{
    let first = (page / TABLE_PAGES) as usize;
    for high in first..tables.len() {
        if high as u32 * TABLE_PAGES >= end {
            return None;
        }
        if tables[high].len() > 0 {
            return Some(high);
        }
    }
    None
}

/// Returns the first page with a key from `page` on and below `end`, with the key.
#[inline]
pub fn next_page(tables: &Vec<Row>, page: u32, end: u32) -> Option<(u32, usize)>
    requires whole { AreWhole tables.now.items }
    requires full { length tables.now.items ≤ space_tables }
    ensures { MatchOption result (NoneIn tables.now.items page end)
        (λ found. IsFirstIn tables.now.items page end found.0 found.1) }
{
    if page >= end {
        return None;
    }
    if let Some(key) = key_in(tables, page) {
        return Some((page, key));
    }
    let Some((next, key)) = seek(tables, page, end) else {
        return None;
    };
    Some((next, key))
}

/// Returns the first page with a key from `page` on and below `end`, with the key. Skips absent tables, and does not look at entries from
/// `end` on.
#[inline(never)]
fn seek(tables: &Vec<Row>, page: u32, end: u32) -> Option<(u32, usize)>
    requires whole { AreWhole tables.now.items }
    requires full { length tables.now.items ≤ space_tables }
    ensures { MatchOption result (NoneIn tables.now.items page end)
        (λ found. IsFirstIn tables.now.items page end found.0 found.1) }
{
    let first = (page / TABLE_PAGES) as usize;
    for high in first..tables.len() {
        let start = high as u32 * TABLE_PAGES;
        if start >= end {
            return None;
        }
        let from = first_low(page, high);
        let last = last_low(tables[high].len(), start, end);
        if let Some((low, key)) = next_in_row(&tables[high], from, last) {
            return Some((start + low as u32, key));
        }
    }
    None
}
