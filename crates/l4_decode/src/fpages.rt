//! The texts of fpages and of receive windows.
ghost use Rattle.std.specs.Prelude.{◌≡◌, ◌≤◌, ◌<◌, ◌+◌, ◌^◌, ◌++◌, ◌∷◌, [], length};
ghost use Rattle.l4_fpage.specs.Pages.{most_pages};
ghost use Rattle.l4_fpage.specs.Fpages.{size_field};
ghost use Rattle.l4_decode.specs.Fpages.{pages_text, bytes_text, extent_text, place_text, granted_text, taken_text, no_fpage_text, fpage_text, fpage_line, window_text, window_line};
ghost use Rattle.l4_text.specs.Sizes.{text_bytes};

use crate::refusals::add_refusal;
use crate::spelling::{add_count, add_hex, begin_line};
use l4_answers::add_rights;
use l4_fpage::{Fpage, PageSize};
use l4_msg::Acceptor;
use l4_text::Text;

/// Adds a run of pages, by its first, its last and their number.
#[tactic(auto, unfolding(crate::specs::Fpages::pages_text))]
fn add_pages(text: &mut Text, first: u32, count: u32)
    requires some { 1 ≤ count }
    requires fits { first + count ≤ 2 ^ 32 }
    requires room { length text.old + 80 ≤ text_bytes }
    ensures value { text.new ≡ text.old ++ pages_text first count }
    ensures len { length text.new ≤ length text.old + 80 }
{
    if count == 1 {
        text.add(b"page ");
        add_count(text, first);
        return;
    }
    text.add(b"pages ");
    add_count(text, first);
    text.add(b" to ");
    text.add_number(u64::from(first) + u64::from(count) - 1);
    text.add(b" (");
    add_count(text, count);
    text.add(b")");
}

/// 2^log.
fn power(log: u8) -> u32
    requires { log ≤ 31 }
    ensures { result ≡ 2 ^ log }
{
    1 << log
}

/// Adds bytes that are less than a page.
#[tactic(auto, unfolding(crate::specs::Fpages::bytes_text))]
fn add_bytes(text: &mut Text, base: u32, log: u8)
    requires small { log ≤ 31 }
    requires room { length text.old + 80 ≤ text_bytes }
    ensures value { text.new ≡ text.old ++ bytes_text base log }
    ensures len { length text.new ≤ length text.old + 80 }
{
    add_count(text, power(log));
    text.add(b" bytes at ");
    add_hex(text, base);
    text.add(b", less than a page");
}

/// Adds 2^log bytes from `base` on, by pages of this size.
#[tactic(auto, unfolding(crate::specs::Fpages::extent_text))]
fn add_extent(text: &mut Text, base: u32, log: u8, size: PageSize)
    requires small { log ≤ 31 }
    requires room { length text.old + 80 ≤ text_bytes }
    ensures value { text.new ≡ text.old ++ extent_text size base log }
    ensures len { length text.new ≤ length text.old + 80 }
{
    let page_log = size.log();
    if log < page_log {
        return add_bytes(text, base, log);
    }
    add_pages(text, size.page_of(base), 1 << (log - page_log));
}

/// Adds where an fpage is, without its rights.
#[tactic(auto, unfolding(crate::specs::Fpages::place_text, crate::specs::Fpages::complete_text))]
pub(crate) fn add_place(text: &mut Text, fpage: &Fpage, size: PageSize)
    requires { length text.old + 92 ≤ text_bytes }
    ensures value { text.new ≡ text.old ++ place_text size fpage.now }
    ensures len { length text.new ≤ length text.old + 92 }
{
    match fpage {
        Fpage::Nil => text.add(b"nil"),
        Fpage::Complete(_) => {
            text.add(b"complete, ");
            add_pages(text, 0, size.space_pages());
        }
        Fpage::Sized(extent) => add_extent(text, extent.base, extent.log, size),
    }
}

/// Adds where a receive window is.
#[tactic(auto, unfolding(crate::specs::Fpages::place_text, crate::specs::Fpages::taken_text))]
fn add_taken(text: &mut Text, window: &Fpage, size: PageSize)
    requires { length text.old + 92 ≤ text_bytes }
    ensures value { text.new ≡ text.old ++ taken_text size window.now }
    ensures len { length text.new ≤ length text.old + 92 }
{
    match window {
        Fpage::Nil => text.add(b"nil, accepts no items"),
        Fpage::Complete(_) | Fpage::Sized(_) => add_place(text, window, size),
    }
}

/// Adds the rights of an fpage, none of a nil one.
#[tactic(auto, unfolding(crate::specs::Fpages::granted_text))]
fn add_granted(text: &mut Text, fpage: &Fpage)
    requires { length text.old + 5 ≤ text_bytes }
    ensures value { text.new ≡ text.old ++ granted_text fpage.now }
    ensures len { length text.new ≤ length text.old + 5 }
{
    match fpage {
        Fpage::Nil => {}
        Fpage::Complete(rights) => {
            text.add(b", ");
            add_rights(text, *rights);
        }
        Fpage::Sized(extent) => {
            text.add(b", ");
            add_rights(text, extent.rights);
        }
    }
}

/// Adds that a word with this size field is no fpage.
#[tactic(auto, unfolding(crate::specs::Fpages::no_fpage_text))]
fn add_no_fpage(text: &mut Text, word: u32)
    requires { length text.old + 60 ≤ text_bytes }
    ensures value { text.new ≡ text.old ++ no_fpage_text (size_field word) }
    ensures len { length text.new ≤ length text.old + 60 }
{
    text.add(b"not an fpage: its size field is ");
    add_count(text, word / 16 % 64);
}

/// Adds what a word means as an fpage.
pub(crate) fn add_fpage(text: &mut Text, word: u32, size: PageSize)
    requires { length text.old + 97 ≤ text_bytes }
    ensures value { text.new ≡ text.old ++ fpage_text size word }
    ensures len { length text.new ≤ length text.old + 97 }
{
    match Fpage::read(word) {
        Ok(fpage) => {
            add_place(text, &fpage, size);
            add_granted(text, &fpage);
        }
        Err(_) => add_no_fpage(text, word),
    }
}

/// Adds what a word means as an acceptor's.
fn add_window(text: &mut Text, word: u32, size: PageSize)
    requires { length text.old + 119 ≤ text_bytes }
    ensures value { text.new ≡ text.old ++ window_text size word }
    ensures len { length text.new ≤ length text.old + 119 }
{
    match Acceptor::read(word) {
        Ok(window) => add_taken(text, &window, size),
        Err(fault) => add_refusal(text, fault),
    }
}

/// Returns the line of a word as an fpage.
#[tactic(auto, unfolding(crate::specs::Fpages::fpage_line, crate::specs::Spelling::meaning_line))]
pub(crate) fn fpage_line(word: u32, size: PageSize) -> Text
    ensures { result ≡ fpage_line size word }
{
    let mut text = begin_line(b"fpage ", word);
    add_fpage(&mut text, word, size);
    text.push(b'\n');
    text
}

/// Returns the line of a word as a receive window's.
#[tactic(auto, unfolding(crate::specs::Fpages::window_line, crate::specs::Spelling::meaning_line))]
pub(crate) fn window_line(word: u32, size: PageSize) -> Text
    ensures { result ≡ window_line size word }
{
    let mut text = begin_line(b"window ", word);
    add_window(&mut text, word, size);
    text.push(b'\n');
    text
}
