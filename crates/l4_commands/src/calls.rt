//! Reads the calls of `recv`, `send`, `ipc` and `fault` lines directly into a buffer.
ghost use Rattle.std.specs.Prelude.{◌≡◌, codes, option_map};
ghost use Rattle.l4_fpage.specs.declared.sizes.PageSize.{PageSize as APageSize};
ghost use Rattle.l4_ipc.specs.declared.calls.Call.TheVariants.{Fault as Faults};
ghost use Rattle.l4_text.specs.Tokens.{tokens_of};
ghost use Rattle.l4_commands.specs.declared.requests.Request.TheVariants.{Enter};
ghost use Rattle.l4_commands.specs.Calls.{receive_call, send_call, ipc_call};
ghost use Rattle.l4_commands.specs.Commands.{asked};

use crate::partners::{Partner, next_partner, next_thread, next_word};
use crate::regions::last_rights;
use crate::requests::{make_fault, make_ipc, make_receive, set_parts};
use crate::symbols::{next_symbol, read_words};
use arrayvec::ArrayVec;
use l4_fpage::PageSize;
use l4_ipc::{Call, FaultCall};
use l4_msg::MAX_WORDS;
use l4_names::Names;
use l4_symbols::WordKind;
use l4_text::next_token;

/// `N FROM WINDOW`
#[inline(always)]
fn receive_parts(line: &[u8], size: PageSize, names: &Names) -> Option<(u32, Partner, u32)>
    ensures { option_map (λ p. Enter p.0 (receive_call p.1 p.2)) result
        ≡ asked size names.now (codes "recv") (tokens_of line.now) }
{
    let (number, rest) = next_thread(line, names)?;
    let (from, rest) = next_partner(rest, names)?;
    let (window, rest) = next_symbol(WordKind::Window, rest, size)?;
    match next_token(rest) {
        None => Some((number, from, window)),
        Some(_) => None,
    }
}

/// Writes the call of a `recv` line into the buffer, and returns its thread. Returns None if the tokens cannot be read; the content of the
/// buffer is then unspecified.
#[inline(always)]
pub fn read_receive(line: &[u8], size: PageSize, names: &Names, call: &mut Call) -> Option<u32>
    ensures { option_map (λ n. Enter n call.new) result
        ≡ asked size names.now (codes "recv") (tokens_of line.now) }
{
    let (number, from, window) = receive_parts(line, size, names)?;
    make_receive(call, from, window);
    Some(number)
}

/// `N TO WORD..`
#[inline(always)]
fn send_parts(
    line: &[u8],
    size: PageSize,
    names: &Names,
    words: &mut ArrayVec<u32, MAX_WORDS>,
) -> Option<(u32, Partner)>
    ensures { option_map (λ p. Enter p.0 (send_call p.1 words.new.items)) result
        ≡ asked size names.now (codes "send") (tokens_of line.now) }
{
    let (number, rest) = next_thread(line, names)?;
    let (to, rest) = next_partner(rest, names)?;
    read_words(rest, size, words)?;
    Some((number, to))
}

/// Writes the call of a `send` line, with its words, into the buffer, as `read_receive` does.
#[inline(always)]
pub fn read_send(line: &[u8], size: PageSize, names: &Names, call: &mut Call) -> Option<u32>
    ensures { option_map (λ n. Enter n call.new) result
        ≡ asked size names.now (codes "send") (tokens_of line.now) }
{
    make_ipc(call);
    if let Call::Ipc(exchange) = call {
        let (number, to) = send_parts(line, size, names, &mut exchange.words)?;
        set_parts(exchange, to, Partner::Nil, 0, 0);
        return Some(number);
    }
    None
}

/// `N TO FROM TIMEOUTS WINDOW WORD..`
#[inline(always)]
fn ipc_parts(
    line: &[u8],
    size: PageSize,
    names: &Names,
    words: &mut ArrayVec<u32, MAX_WORDS>,
) -> Option<(u32, Partner, Partner, u32, u32)>
    ensures { option_map (λ p. Enter p.0 (ipc_call p.1 p.2 p.3 p.4 words.new.items)) result
        ≡ asked size names.now (codes "ipc") (tokens_of line.now) }
{
    let (number, rest) = next_thread(line, names)?;
    let (to, rest) = next_partner(rest, names)?;
    let (from, rest) = next_partner(rest, names)?;
    let (timeouts, rest) = next_symbol(WordKind::Timeouts, rest, size)?;
    let (window, rest) = next_symbol(WordKind::Window, rest, size)?;
    read_words(rest, size, words)?;
    Some((number, to, from, timeouts, window))
}

/// Writes the call of an `ipc` line, with its words, into the buffer, as `read_receive` does.
#[inline(always)]
pub fn read_ipc(line: &[u8], size: PageSize, names: &Names, call: &mut Call) -> Option<u32>
    ensures { option_map (λ n. Enter n call.new) result
        ≡ asked size names.now (codes "ipc") (tokens_of line.now) }
{
    make_ipc(call);
    if let Call::Ipc(exchange) = call {
        let (number, to, from, timeouts, window) = ipc_parts(
            line,
            size,
            names,
            &mut exchange.words,
        )?;
        set_parts(exchange, to, from, timeouts, window);
        return Some(number);
    }
    None
}

/// `N ADDRESS IP RIGHTS`
#[inline(always)]
fn fault_parts(line: &[u8], names: &Names) -> Option<(u32, FaultCall)>
    ensures { (size : APageSize) → option_map (λ p. Enter p.0 (Faults p.1)) result
        ≡ asked size names.now (codes "fault") (tokens_of line.now) }
{
    let (number, rest) = next_thread(line, names)?;
    let (address, rest) = next_word(rest)?;
    let (ip, rest) = next_word(rest)?;
    let access = last_rights(rest)?;
    let call = FaultCall {
        address,
        ip,
        access,
    };
    Some((number, call))
}

/// Writes the call of a `fault` line into the buffer, as `read_receive` does.
#[inline(always)]
pub fn read_fault(line: &[u8], names: &Names, call: &mut Call) -> Option<u32>
    ensures { (size : APageSize) → option_map (λ n. Enter n call.new) result
        ≡ asked size names.now (codes "fault") (tokens_of line.now) }
{
    let (number, fault) = fault_parts(line, names)?;
    make_fault(call, fault);
    Some(number)
}
