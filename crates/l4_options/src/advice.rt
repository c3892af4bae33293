//! The tips in messages about the command line.
use std::alloc::{AllocError, Global};

/// The beginning of a tip to write `--` before an unknown option. It would not help: no argument of the programs takes such a word.
const ADVICE: &str = "\n  tip: to pass '";

/// Returns a message without that tip.
pub(crate) fn without_advice(alloc: Global, text: &str) -> Result<String, AllocError> {
    let Some((before, advice)) = text.split_once(ADVICE) else {
        return String::from_str(alloc, text);
    };
    let Some((_, after)) = advice.split_once("\n") else {
        return String::from_str(alloc, before);
    };
    let mut kept = String::from_str(alloc, before.trim_end())?;
    kept.push_str("\n")?;
    kept.push_str(after)?;
    Ok(kept)
}
