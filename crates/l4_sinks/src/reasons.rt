//! Why lines and calls are refused.
ghost use Rattle.std.specs.Prelude.{◌≡◌, ◌≤◌, ◌+◌, ◌++◌, length};
ghost use Rattle.l4_reasons.specs.Sizes.{reason_bytes};
ghost use Rattle.l4_text.specs.Tokens.{tokens_of};
ghost use Rattle.l4_sinks.specs.Stops.{stop_of, place_in};
ghost use Rattle.l4_sinks.specs.Texts.{is_lack};
ghost use Rattle.l4_sinks.specs.Words.{number_says, refusal_says, line_refusal_says, wrong_says, stop_says, stopped_says, unread_says};

use crate::sentences::{code_says, expected_says, number_name};
use crate::stops::{Expected, Stop, stop_of};
use l4_answers::Code;
use l4_fpage::PageSize;
use l4_names::Names;
use l4_reasons::{Reason, line_reason, missing_reason, symbol_reason, token_reason};

/// Why a line is refused.
#[derive(Drop)]
pub struct LineRefusal {
    /// The line, and why it is refused, as text.
    pub reason: Reason,
    /// Whether it is refused because memory ran out.
    pub lacks_memory: bool,
}

/// The code of a refusal for lack of memory.
const NO_MEMORY: &[u8] = b"NoMemory";

/// Returns whether a line is refused because memory ran out.
pub(crate) fn is_lack(code: &Code) -> bool
    ensures { result ≡ is_lack code.now }
{
    code.name() == NO_MEMORY
}

/// Adds the meaning of the number that a code carries.
#[tactic(auto, unfolding(crate::specs::Words::number_says))]
fn add_number_says(code: &Code, reason: &mut Reason)
    requires { length reason.old + 200 ≤ reason_bytes }
    ensures { reason.new ≡ reason.old ++ number_says code.now.name code.now.number }
{
    let Some(number) = code.number() else {
        return;
    };
    reason.add(b" (");
    reason.add(number_name(code.name()));
    reason.add_number(u64::from(number));
    reason.add(b")");
}

/// Adds what a code and its number mean.
#[tactic(auto, unfolding(crate::specs::Words::refusal_says))]
fn add_refusal(code: &Code, reason: &mut Reason)
    requires { length reason.old + 400 ≤ reason_bytes }
    ensures { reason.new ≡ reason.old ++ refusal_says code.now }
{
    reason.add(code_says(code.name()));
    add_number_says(code, reason);
}

/// Why a call is refused.
pub(crate) fn act_reason(code: &Code) -> Reason
    ensures { result ≡ refusal_says code.now }
{
    let mut reason = Reason::new();
    add_refusal(code, &mut reason);
    reason
}

/// Why a line is refused.
#[tactic(auto, unfolding(crate::specs::Words::line_refusal_says))]
pub(crate) fn refusal_reason(line: u64, code: &Code) -> Reason
    ensures { result ≡ line_refusal_says line code.now }
{
    let mut reason = line_reason(line);
    add_refusal(code, &mut reason);
    reason
}

/// What is wrong with a token of a line.
fn wrong_reason(line: u64, number: u64, token: &[u8], expected: Expected) -> Reason
    ensures { result ≡ wrong_says line number token.now expected }
{
    match expected {
        Expected::Because(reason) => symbol_reason(line, number, token, reason.text()),
        _ => token_reason(line, number, token, expected_says(expected)),
    }
}

/// Which token of a line is wrong.
fn stop_reason(line: u64, stop: Stop<'_>) -> Reason
    ensures { result
        ≡ stop_says line (place_in stop.entry).number (place_in stop.entry).token
        stop.entry.expected }
{
    match stop.token {
        None => missing_reason(line, stop.number, expected_says(stop.expected)),
        Some(token) => wrong_reason(line, stop.number, token, stop.expected),
    }
}

/// Where a line stops being a command, or else why it is refused.
fn stopped_reason(line: u64, code: &Code, bytes: &[u8], size: PageSize, names: &Names) -> Reason
    ensures { result ≡ stopped_says line code.now (stop_of size names.now (tokens_of bytes.now)) }
{
    match stop_of(bytes, size, names) {
        None => refusal_reason(line, code),
        Some(stop) => stop_reason(line, stop),
    }
}

/// Why a line cannot be read, where pages have this size and threads these names. No bytes are passed if it is cut or too long.
pub(crate) fn unread_reason(
    line: u64,
    code: &Code,
    bytes: &[u8],
    size: PageSize,
    names: &Names,
) -> Reason
    ensures { result ≡ unread_says size names.now line code.now bytes.now }
{
    if bytes.is_empty() {
        return refusal_reason(line, code);
    }
    stopped_reason(line, code, bytes, size, names)
}
