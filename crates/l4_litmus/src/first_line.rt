//! The options in the first line of a file.
ghost use Rattle.std.specs.Prelude.{◌≡◌, ◌==◌, codes, if◌then◌else◌, IfOk, IfSome};
ghost use Rattle.std.specs.List.{starts_with};
ghost use Rattle.l4_options.specs.Ranges.{IsFrameCount};

use l4_answers::later_lines;
use l4_options::{OptionFault, Options, ScriptOptions, options};
use l4_text::{Ending, LineReader, RunFault, next_token};
use std::alloc::Global;
use std::str;

/// The words of `l4 run` with both of its options, each with a value.
const MOST_WORDS: usize = 6;

/// The first token of a first line with options.
const MARK: &[u8] = b"#!";

/// What a first line begins with that names a program.
const PROGRAM: &[u8] = b"#!/";

/// Why a line has wrong options.
pub const WRONG_OPTIONS: &str = "after '#!', only --frames N and --page-size BYTES are allowed";

/// Returns the options that `l4 run` reads from these words. None if they are not understood, name a file, or have other options.
fn options_in(alloc: Global, words: &[&str]) -> Result<Option<ScriptOptions>, RunFault>
    ensures { IfOk result (λ o. IfSome o (λ script. IsFrameCount script.frames)) }
{
    match options(alloc, words) {
        Ok(
            Options::Run {
                script,
                strict: false,
                explain: false,
                number: false,
                moves: false,
                history_to: None,
            },
        ) => {
            if script.file.is_some() {
                return Ok(None);
            }
            Ok(Some(script))
        }
        Err(OptionFault::Memory) => Err(RunFault::Memory),
        _ => Ok(None),
    }
}

/// Returns the options in the words behind `#!`. None if they are wrong.
fn options_behind(alloc: Global, line: &[u8]) -> Result<Option<ScriptOptions>, RunFault>
    ensures { IfOk result (λ o. IfSome o (λ script. IsFrameCount script.frames)) }
{
    let mut words = ["l4", "run", "", "", "", ""];
    let mut rest = line;
    for count in 2..MOST_WORDS {
        let Some((token, after)) = next_token(rest) else {
            return options_in(alloc, &words[..count]);
        };
        let Ok(word) = str::from_utf8(token) else {
            return Ok(None);
        };
        words[count] = word;
        rest = after;
    }
    if next_token(rest).is_some() {
        return Ok(None);
    }
    options_in(alloc, &words)
}

/// Returns the number of the line with the options of a script with this text: the second one if the first names a program.
pub fn options_line(text: &[u8]) -> u64
    ensures { result ≡ (if starts_with ◌==◌ text.now (codes "#!/") then 2 else 1) }
{
    if text.starts_with(PROGRAM) { 2 } else { 1 }
}

/// Returns the options of a script with this text: those in its first line, or in its second one if the first names a program. None if they
/// are wrong.
pub fn options_of(alloc: Global, text: &[u8]) -> Result<Option<ScriptOptions>, RunFault>
    ensures { IfOk result (λ o. IfSome o (λ script. IsFrameCount script.frames)) }
{
    let mut reader = if text.starts_with(PROGRAM) {
        later_lines(text)
    } else {
        text
    };
    let mut lines = LineReader::new();
    let Ok(Some(Ending::Whole)) = lines.next(&mut reader) else {
        return options_behind(alloc, b"");
    };
    if !lines.line().starts_with(MARK) {
        return options_behind(alloc, b"");
    }
    match next_token(lines.line()) {
        Some((MARK, rest)) => options_behind(alloc, rest),
        _ => Ok(None),
    }
}
