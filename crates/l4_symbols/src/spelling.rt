//! Reads the parts of symbolic tokens.
ghost use Rattle.std.specs.Prelude.{◌≡◌, ◌==◌, ◌≤◌, IfOk, option_map};
ghost use Rattle.std.specs.List.{position};
ghost use Rattle.l4_symbols.specs.Spelling.{cut_at, number_in, right_in, rights_in, counted_in, pages_in, is_grant_in, item_in, label_in, fpage_in, run_in, window_in, timeout_in, timeouts_in, is_flush_in, fpage_count_of, control_in, id_number_in, id_in};

use crate::reasons::Reason;
use l4_fpage::Rights;
use l4_ipc::Timeout;
use l4_text::number;

const TAG: &[u8] = b"tag";

const MAP: &[u8] = b"map";

const GRANT: &[u8] = b"grant";

const ALL: &[u8] = b"all";

const NONE: &[u8] = b"none";

const NEVER: &[u8] = b"never";

const ZERO: &[u8] = b"zero";

const UNMAP: &[u8] = b"unmap";

const FLUSH: &[u8] = b"flush";

/// The most fpages of an Unmap.
const MOST_FPAGES: u32 = 64;

/// The pages in a token: the first one, and their number.
#[derive(Clone, Copy)]
pub(crate) struct Pages {
    pub(crate) first: u32,
    pub(crate) count: u32,
}

/// What the parts of an item's token spell. The send base is a page.
#[derive(Clone, Copy)]
pub(crate) struct ItemParts {
    pub(crate) grant: bool,
    pub(crate) pages: Pages,
    pub(crate) base: u32,
    pub(crate) rights: Rights,
}

/// What the parts of an fpage's token spell.
#[derive(Clone, Copy)]
pub(crate) struct FpageParts {
    pub(crate) pages: Pages,
    pub(crate) rights: Rights,
}

/// What a window's token spells: all pages, no page, or some pages.
#[derive(Clone, Copy)]
pub(crate) enum WindowParts {
    All,
    Nothing,
    Run(Pages),
}

/// Returns the place of the first of these bytes in a text.
fn first_of(text: &[u8], byte: u8) -> Option<usize>
    ensures { result ≡ position (λ b. b == byte) text.now }
{
    text.iter().position(|b| *b == byte)
}

/// Returns the parts of a text before and after the first occurrence of a byte. Returns `None` if the text has no such byte.
#[tactic(auto, unfolding(crate::specs::Spelling::cut_at))]
fn cut_at(text: &[u8], byte: u8) -> Option<(&[u8], &[u8])>
    ensures { option_map (λ p. (p.0.now, p.1.now)) result ≡ cut_at byte text.now }
{
    match first_of(text, byte) {
        Some(place) => Some((&text[..place], &text[place + 1..])),
        None => None,
    }
}

/// Reads a number.
#[tactic(auto, unfolding(crate::specs::Spelling::number_in))]
fn number_in(text: &[u8]) -> Result<u32, Reason>
    ensures { result ≡ number_in text.now }
{
    number(text).ok_or(Reason::Number)
}

/// Returns whether a byte gives a right or leaves it out.
fn right(letter: u8, byte: u8) -> Result<bool, Reason>
    ensures { result ≡ right_in letter byte }
{
    if byte == letter {
        return Ok(true);
    }
    if byte == b'-' {
        return Ok(false);
    }
    Err(Reason::Rights)
}

/// Returns the rights with these of read, write and execute.
fn rights_with(read: bool, write: bool, execute: bool) -> Rights
    ensures { result ≡ record { r = read; w = write; x = execute } }
{
    Rights::of_bits(4 * u8::from(read) + 2 * u8::from(write) + u8::from(execute))
}

/// Reads r, w and x in this order, each of them or a hyphen.
#[tactic(auto, unfolding(crate::specs::Spelling::rights_in))]
fn rights_in(text: &[u8]) -> Result<Rights, Reason>
    ensures { result ≡ rights_in text.now }
{
    if text.len() != 3 {
        return Err(Reason::Rights);
    }
    let read = right(b'r', text[0])?;
    let write = right(b'w', text[1])?;
    let execute = right(b'x', text[2])?;
    Ok(rights_with(read, write, execute))
}

/// Reads FIRST and COUNT.
#[tactic(auto, unfolding(crate::specs::Spelling::counted_in))]
fn counted_in(first: &[u8], count: &[u8]) -> Result<Pages, Reason>
    ensures { result ≡ counted_in (first.now, count.now) }
{
    let first = number_in(first)?;
    let count = number_in(count)?;
    Ok(Pages { first, count })
}

/// Reads `FIRST` or `FIRST+COUNT`.
#[tactic(auto, unfolding(crate::specs::Spelling::pages_in))]
fn pages_in(text: &[u8]) -> Result<Pages, Reason>
    ensures { result ≡ pages_in text.now }
{
    let Some((first, count)) = cut_at(text, b'+') else {
        let first = number_in(text)?;
        return Ok(Pages { first, count: 1 });
    };
    counted_in(first, count)
}

/// Returns whether the name of an item's kind is that of a grant item.
fn is_grant_in(name: &[u8]) -> Result<bool, Reason>
    ensures { result ≡ is_grant_in name.now }
{
    if name == MAP {
        return Ok(false);
    }
    if name == GRANT {
        return Ok(true);
    }
    Err(Reason::Unknown)
}

/// Reads `map:PAGES>BASE:RIGHTS` or `grant:PAGES>BASE:RIGHTS`.
#[tactic(auto, unfolding(crate::specs::Spelling::item_in))]
pub(crate) fn item_in(token: &[u8]) -> Result<ItemParts, Reason>
    ensures { result ≡ item_in token.now }
{
    let (name, rest) = cut_at(token, b':').ok_or(Reason::Unknown)?;
    let grant = is_grant_in(name)?;
    let (pages, rest) = cut_at(rest, b'>').ok_or(Reason::NoBase)?;
    let (base, rights) = cut_at(rest, b':').ok_or(Reason::NoRights)?;
    let pages = pages_in(pages)?;
    let base = number_in(base)?;
    let rights = rights_in(rights)?;
    Ok(ItemParts {
        grant,
        pages,
        base,
        rights,
    })
}

/// Reads `tag:LABEL`.
#[tactic(auto, unfolding(crate::specs::Spelling::label_in))]
pub(crate) fn label_in(token: &[u8]) -> Result<u16, Reason>
    ensures { result ≡ label_in token.now }
{
    let Some((name, label)) = cut_at(token, b':') else {
        return Err(Reason::NoTag);
    };
    if name != TAG {
        return Err(Reason::NoTag);
    }
    match number(label) {
        Some(label) if label < 0x10000 => Ok(label as u16),
        _ => Err(Reason::Label),
    }
}

/// Reads `PAGES:RIGHTS`.
#[tactic(auto, unfolding(crate::specs::Spelling::fpage_in))]
pub(crate) fn fpage_in(token: &[u8]) -> Result<FpageParts, Reason>
    ensures { result ≡ fpage_in token.now }
{
    let (pages, rights) = cut_at(token, b':').ok_or(Reason::Fpage)?;
    let pages = pages_in(pages)?;
    let rights = rights_in(rights)?;
    Ok(FpageParts { pages, rights })
}

/// Reads `FIRST+COUNT` as a window.
#[tactic(auto, unfolding(crate::specs::Spelling::run_in))]
fn run_in(token: &[u8]) -> Result<WindowParts, Reason>
    ensures { result ≡ run_in token.now }
{
    let (first, count) = cut_at(token, b'+').ok_or(Reason::Window)?;
    let pages = counted_in(first, count)?;
    Ok(WindowParts::Run(pages))
}

/// Reads `all`, `none` or `FIRST+COUNT`.
#[tactic(auto, unfolding(crate::specs::Spelling::window_in))]
pub(crate) fn window_in(token: &[u8]) -> Result<WindowParts, Reason>
    ensures { result ≡ window_in token.now }
{
    if token == ALL {
        return Ok(WindowParts::All);
    }
    if token == NONE {
        return Ok(WindowParts::Nothing);
    }
    run_in(token)
}

/// Reads `never` or `zero`.
#[tactic(auto, unfolding(crate::specs::Spelling::timeout_in))]
fn timeout_in(text: &[u8]) -> Result<Timeout, Reason>
    ensures { result ≡ timeout_in text.now }
{
    if text == NEVER {
        return Ok(Timeout::Never);
    }
    if text == ZERO {
        return Ok(Timeout::Zero);
    }
    Err(Reason::Timeouts)
}

/// Reads one timeout for both phases, or `SEND,RECEIVE`.
#[tactic(auto, unfolding(crate::specs::Spelling::timeouts_in))]
pub(crate) fn timeouts_in(token: &[u8]) -> Result<(Timeout, Timeout), Reason>
    ensures { result ≡ timeouts_in token.now }
{
    let Some((send, receive)) = cut_at(token, b',') else {
        let both = timeout_in(token)?;
        return Ok((both, both));
    };
    let send = timeout_in(send)?;
    let receive = timeout_in(receive)?;
    Ok((send, receive))
}

/// Returns whether the name of a control word is that of a flush.
fn is_flush_in(name: &[u8]) -> Result<bool, Reason>
    ensures { result ≡ is_flush_in name.now }
{
    if name == UNMAP {
        return Ok(false);
    }
    if name == FLUSH {
        return Ok(true);
    }
    Err(Reason::Control)
}

/// Returns a number of fpages, if there can be as many.
fn fpage_count(number: Option<u32>) -> Result<u32, Reason>
    ensures value { result ≡ fpage_count_of number }
    ensures few { IfOk result (λ count. count ≤ 64) }
{
    match number {
        Some(count) if count > 0 && count <= MOST_FPAGES => Ok(count),
        _ => Err(Reason::FpageCount),
    }
}

/// Reads `unmap:COUNT` or `flush:COUNT`. Returns whether it is a flush, with the number of fpages.
#[tactic(auto, unfolding(crate::specs::Spelling::control_in))]
pub(crate) fn control_in(token: &[u8]) -> Result<(bool, u32), Reason>
    ensures value { result ≡ control_in token.now }
    ensures few { IfOk result (λ control. control.1 ≤ 64) }
{
    let (name, count) = cut_at(token, b':').ok_or(Reason::Control)?;
    let flush = is_flush_in(name)?;
    let count = fpage_count(number(count))?;
    Ok((flush, count))
}

/// Reads the number of a thread or a version.
#[tactic(auto, unfolding(crate::specs::Spelling::id_number_in))]
fn id_number_in(text: &[u8]) -> Result<u32, Reason>
    ensures { result ≡ id_number_in text.now }
{
    number(text).ok_or(Reason::Id)
}

/// Reads `THREAD`, whose version is 1, or `THREAD,VERSION`.
#[tactic(auto, unfolding(crate::specs::Spelling::id_in))]
pub(crate) fn id_in(token: &[u8]) -> Result<(u32, u32), Reason>
    ensures { result ≡ id_in token.now }
{
    let Some((thread, version)) = cut_at(token, b',') else {
        let number = id_number_in(token)?;
        return Ok((number, 1));
    };
    let number = id_number_in(thread)?;
    let version = id_number_in(version)?;
    Ok((number, version))
}
