//! Words in symbolic tokens: receive windows, fpages, timeouts, the control of Unmap, and ids of threads.
ghost use Rattle.std.specs.Prelude.{◌≡◌, ℕ, ◌+◌, ◌*◌, ◌≤◌, IfOk, IfErr};
ghost use Rattle.std.specs.Result.{result_map_both};
ghost use Rattle.l4_fpage.specs.Fpages.{fpage_word};
ghost use Rattle.l4_ipc.specs.Constructors.{timeout_bits};
ghost use Rattle.l4_symbols.specs.Computed.{fpage_word_in, window_word_of, window_word_in, word_in};
ghost use Rattle.l4_symbols.specs.Words.{FpageWord, FpageRefused, IsWindowOf, NamesWord, WindowFails, WindowWord, WindowRefused, WordRefused, control_word, id_with, id_word, timeouts_word, word_of_control};

use crate::pages::fpage_of;
use crate::reasons::Reason;
use crate::spelling::{WindowParts, control_in, fpage_in, id_in, timeouts_in, window_in};
use l4_fpage::{Fpage, PageSize, Rights};
use l4_ipc::Timeout;

/// What a token names by itself.
#[derive(Clone, Copy)]
pub enum WordKind {
    /// An fpage with its rights.
    Fpage,
    /// A receive window.
    Window,
    /// A send timeout and a receive timeout.
    Timeouts,
    /// The control of an Unmap.
    Control,
    /// The id of a thread.
    Id,
}

/// The number of values of a thread number, of a version, and of the part of a version that is 0 in a local id.
const NUMBERS: u32 = 1 << 18;

const VERSIONS: u32 = 1 << 14;

const LOCAL_MARKS: u32 = 1 << 6;

/// The word of anythread.
const ANY_THREAD: u32 = 0xffff_ffff;

const NIL: &[u8] = b"nil";

const ANY: &[u8] = b"any";

/// Reads the fpage in a token, `FIRST+COUNT:RIGHTS`, in pages of this size, and returns its word. COUNT is a power of two, and FIRST a
/// multiple of it. `+COUNT` may be omitted for one page. RIGHTS are r, w and x in this order, with a hyphen for each missing right.
///
/// Returns the first reason why the token does not name an fpage.
fn fpage_word(token: &[u8], size: PageSize) -> Result<u32, Reason>
    ensures ok { IfOk result (FpageWord size token.now) }
    ensures err { IfErr result (FpageRefused size token.now) }
    ensures value { result ≡ fpage_word_in size token.now }
    ensures only { (word : ℕ) → FpageWord size token.now word → result ≡ Ok word }
{
    let parts = match fpage_in(token) {
        Ok(parts) => parts,
        Err(reason) => return Err(reason),
    };
    match fpage_of(&parts.pages, size, parts.rights) {
        Ok(fpage) => Ok(fpage.word()),
        Err(reason) => Err(reason),
    }
}

/// Returns the window that a token spells.
fn window_of(parts: WindowParts, size: PageSize) -> Result<Fpage, Reason>
    ensures ok { IfOk result (IsWindowOf size parts) }
    ensures err { IfErr result (WindowFails size parts) }
    ensures value { result_map_both fpage_word (λ reason. reason) result
        ≡ window_word_of size parts }
{
    match parts {
        WindowParts::All => Ok(Fpage::Complete(Rights::of_bits(0))),
        WindowParts::Nothing => Ok(Fpage::Nil),
        WindowParts::Run(pages) => fpage_of(&pages, size, Rights::of_bits(0)),
    }
}

/// Reads the receive window in a token, `all`, `none` or `FIRST+COUNT`, in pages of this size, and returns its acceptor word. COUNT is a power
/// of two, and FIRST a multiple of it.
///
/// Returns the first reason why the token does not name a window.
fn window_word(token: &[u8], size: PageSize) -> Result<u32, Reason>
    ensures ok { IfOk result (WindowWord size token.now) }
    ensures err { IfErr result (WindowRefused size token.now) }
    ensures value { result ≡ window_word_in size token.now }
    ensures only { (word : ℕ) → WindowWord size token.now word → result ≡ Ok word }
{
    let parts = match window_in(token) {
        Ok(parts) => parts,
        Err(reason) => return Err(reason),
    };
    match window_of(parts, size) {
        Ok(window) => Ok(window.word()),
        Err(reason) => Err(reason),
    }
}

/// Returns a timeout as a half of the timeouts word.
fn bits_of(timeout: Timeout) -> u32
    ensures { result ≡ timeout_bits timeout }
{
    match timeout {
        Timeout::Never => 0,
        Timeout::Zero => 0x400,
    }
}

/// Reads the timeouts in a token, and returns the timeouts word: `never` or `zero` for both phases, or `SEND,RECEIVE`, each of them `never`
/// or `zero`.
///
/// Returns `Timeouts` for any other token.
fn timeouts_word(token: &[u8]) -> Result<u32, Reason>
    ensures { result ≡ timeouts_word token.now }
{
    let (send, receive) = timeouts_in(token)?;
    Ok(bits_of(send) * 0x10000 + bits_of(receive))
}

/// Reads the control of an Unmap in a token, `unmap:COUNT` or `flush:COUNT`, and returns the control word for this number of fpages. With
/// `flush`, the caller's own pages lose the rights too.
///
/// Returns `Control` if the token has not this form, and `FpageCount` if COUNT is not from 1 to 64.
#[tactic(auto, unfolding(crate::specs::Words::control_word))]
fn control_word(token: &[u8]) -> Result<u32, Reason>
    ensures { result ≡ control_word token.now }
{
    let (flush, count) = control_in(token)?;
    Ok(count.saturating_sub(1) + if flush { 64 } else { 0 })
}

/// Returns the word of the id with this number and this version, if a thread can have it.
fn id_with(number: u32, version: u32) -> Result<u32, Reason>
    ensures { result ≡ id_with (number, version) }
{
    if number == 0 || number >= NUMBERS || version >= VERSIONS || version % LOCAL_MARKS == 0 {
        return Err(Reason::BadId);
    }
    let word = number * VERSIONS + version;
    if word == ANY_THREAD {
        return Err(Reason::BadId);
    }
    Ok(word)
}

/// Reads the id of a thread in a token, and returns its word: `nil`, `any`, `THREAD`, whose version is 1, or `THREAD,VERSION`.
///
/// Returns `Id` if the token has not this form, and `BadId` if no thread can have the id.
#[tactic(auto, unfolding(crate::specs::Words::id_word))]
fn id_word(token: &[u8]) -> Result<u32, Reason>
    ensures { result ≡ id_word token.now }
{
    if token == NIL {
        return Ok(0);
    }
    if token == ANY {
        return Ok(ANY_THREAD);
    }
    let (number, version) = id_in(token)?;
    id_with(number, version)
}

/// Reads the word of this kind in a token, in pages of this size.
///
/// Returns the first reason why the token does not name such a word: `Timeouts` if it is no timeouts; `Window`, `Fpage`, `Control` or `Id` if it
/// has not the form of one; otherwise what is wrong with its numbers, its pages or its rights.
pub fn word_of(kind: WordKind, token: &[u8], size: PageSize) -> Result<u32, Reason>
    ensures ok { IfOk result (NamesWord kind size token.now) }
    ensures err { IfErr result (WordRefused kind size token.now) }
    ensures value { result ≡ word_in kind size token.now }
    ensures only { (word : ℕ) → NamesWord kind size token.now word → result ≡ Ok word }
{
    match kind {
        WordKind::Fpage => fpage_word(token, size),
        WordKind::Window => window_word(token, size),
        WordKind::Timeouts => timeouts_word(token),
        WordKind::Control => control_word(token),
        WordKind::Id => id_word(token),
    }
}
