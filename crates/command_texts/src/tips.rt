//! Tips of `clap` that do not help here.

use std::alloc::{AllocError, Global};

/// How the tip begins that a word may be a value after `--`. No command takes words after `--`.
const TIP: &str = "\n\n  tip: to pass '";

/// How the usage begins, which comes after a tip.
const USAGE: &str = "\n\nUsage: ";

/// What is before such a tip, and what is after the beginning of the usage, if there is one.
fn around_tip(text: &str) -> Option<(&str, &str)> {
    let (front, after) = text.split_once(TIP)?;
    let (_, usage) = after.rsplit_once(USAGE)?;
    Some((front, usage))
}

/// A text of `clap` without the tip that a word may be a value after `--`. `AllocError` if memory runs out.
pub(crate) fn without_tip(alloc: Global, text: &str) -> Result<String, AllocError> {
    match around_tip(text) {
        Some((front, usage)) => format!(in alloc; "{front}{USAGE}{usage}"),
        None => format!(in alloc; "{text}"),
    }
}
