//! The texts.

ghost use Rattle.std.specs.Prelude.{◌≡◌, IfOk};
ghost use Rattle.command_texts.specs.Texts.{EndsLine, IsHelpOn, version_text};

use crate::commands::program;
use crate::ended::{begun, ended};
use crate::purposes::purpose;
use crate::tips::without_tip;
use clap::Error;
use clap::error::ErrorKind;
use command_words::Topic;
use std::alloc::{AllocError, Global};

/// The version of the program.
pub const VERSION: &str = "1.0.0";

/// What `clap` has to say of words, if anything: why it refuses them, or the help or the version that they ask for. The
/// first word is the name of the program.
fn told<'a>(alloc: Global, words: &'a [&'a str]) -> Result<Option<Error>, AllocError> {
    match program(alloc, VERSION)?.try_get_matches_from(words) {
        Ok(_) => Ok(None),
        Err(error) => match error.kind() {
            ErrorKind::OutOfMemory => Err(AllocError),
            _ => Ok(Some(error)),
        },
    }
}

/// The text of what `clap` says, or the line of usage.
fn text_of(alloc: Global, told: Option<Error>) -> Result<Vec<u8>, AllocError>
    ensures { IfOk result (λ text. EndsLine text.items) }
{
    match told {
        Some(error) => {
            let text = format!(in alloc; "{error}")?;
            ended(without_tip(alloc, text.as_str())?.as_bytes(), alloc)
        }
        None => ended(b"usage: cssmin COMMAND", alloc),
    }
}

/// Whether an error is no refusal, but help or the version.
fn is_refusal(error: &Error) -> bool {
    match error.kind() {
        ErrorKind::DisplayHelp => false,
        ErrorKind::DisplayVersion => false,
        _ => true,
    }
}

/// How the program, or a command of it, is used, as bytes: a line that says what it does, and more lines, in `clap`'s words.
/// Tests look at the first line and at the length of what comes after it. `AllocError` if memory runs out.
pub fn help_text(alloc: Global, about: Topic) -> Result<Vec<u8>, AllocError>
    ensures { IfOk result (λ text. IsHelpOn about text.items) }
{
    let words: &[&str] = match about {
        Topic::Program => &["cssmin", "--help"],
        Topic::Min => &["cssmin", "min", "--help"],
        Topic::Cmp => &["cssmin", "cmp", "--help"],
        Topic::Why => &["cssmin", "why", "--help"],
        Topic::Same => &["cssmin", "same", "--help"],
        Topic::Style => &["cssmin", "style", "--help"],
        Topic::Diff => &["cssmin", "diff", "--help"],
        Topic::Blockers => &["cssmin", "blockers", "--help"],
        Topic::Listing => &["cssmin", "list", "--help"],
        Topic::Lint => &["cssmin", "lint", "--help"],
        Topic::Inspect => &["cssmin", "inspect", "--help"],
        Topic::Dead => &["cssmin", "dead", "--help"],
        Topic::Check => &["cssmin", "check", "--help"],
        Topic::Trial => &["cssmin", "trial", "--help"],
    };
    let text = text_of(alloc, told(alloc, words)?)?;
    begun(alloc, purpose(about), text.as_slice())
}

/// The name of the program and its version, as a line of bytes. `AllocError` where memory runs out.
pub fn version_text(alloc: Global) -> Result<Vec<u8>, AllocError>
    ensures { IfOk result (λ text. text.items ≡ version_text) }
{
    let mut text = b"cssmin ".to_vec(alloc)?;
    text.extend_from_slice(VERSION.as_bytes())?;
    text.push(b'\n')?;
    Ok(text)
}

/// Why words are refused, as bytes: `clap`'s text without the tip to write a word after `--`, or a line with the form of
/// all words if it has none. The words are those after the program's name. The text ends with the end of a line. Tests compare some of these texts. `AllocError` if
/// memory runs out.
pub fn refusal_text(alloc: Global, words: &Vec<String>) -> Result<Vec<u8>, AllocError>
    ensures { IfOk result (λ text. EndsLine text.items) }
{
    let mut all: Vec<&str> = Vec::new(alloc);
    all.push("cssmin")?;
    for word in words {
        all.push(word.as_str())?;
    }
    let told = match told(alloc, all.as_slice())? {
        Some(error) => {
            if is_refusal(&error) {
                Some(error)
            } else {
                None
            }
        }
        None => None,
    };
    text_of(alloc, told)
}
