//! An example from its text.

ghost use Rattle.std.specs.Prelude.{◌≡◌, ◌<◌, ◌^◌};
ghost use Rattle.doc_text.specs.Lines.{line_ends};
ghost use Rattle.doc_text.specs.Reading.{IsBody, IsRead};

use crate::cuts::cut;
use crate::heads::read_head;
use crate::state::State;
use css_model::{Example, Pseudo, RunDocument};
use std::alloc::{AllocError, Global};
use std::fmt;
use thiserror::Error;

/// How many line ends a text has at most.
const MAX_LINE_ENDS: usize = 4096;

/// Why a text is not that of an example.
#[derive(Clone, Copy, Debug, PartialEq, Eq, Error)]
pub enum DocError {
    /// The first line, from 1, that no such text has; or the last line, where more is needed.
    BadLine(u32),
    /// There are more than 4,096 line ends.
    TooManyLines,
    /// There is not enough memory.
    NoMemory,
}

impl fmt::Display for DocError {
    ghost use Rattle.std.specs.Prelude.{Some};
    ghost use Rattle.doc_text.specs.Messages.{doc_error};

    ghost output = { λ error. Some (doc_error error) };

    fn fmt<W: fmt::Write>(&self, f: &mut fmt::Formatter<W>) -> fmt::Result {
        match self {
            DocError::BadLine(n) => write!(f, "line {n} is not of a document's text"),
            DocError::TooManyLines => {
                f.write_str("there are more lines than a document's text may have")
            }
            DocError::NoMemory => f.write_str("out of memory"),
        }
    }
}

impl From<AllocError> for DocError {
    ghost use Rattle.doc_text.specs.declared.read.DocError.TheVariants.{NoMemory};

    ghost from_gives = { λ _ e. e ≡ NoMemory };

    fn from(_: AllocError) -> DocError {
        DocError::NoMemory
    }
}

/// The example of a text, given as bytes.
///
/// - `TooManyLines`, before all others, exactly where the text has more than 4,096 line ends.
/// - `Ok` exactly where the text is the one that `print_doc` gives for an example that keeps the rules (`KeepsRules`).
///   It is that example.
/// - `BadLine` otherwise, with the number of a line, from 1.
/// - `NoMemory` where memory is short.
///
/// `BadLine` names the first line with which no such text begins. It names the last line where more is needed: a line
/// end, a line for the root, or a marked line. It is 1 for the empty text.
pub fn read_doc(alloc: Global, text: &[u8]) -> Result<Example, DocError>
    ensures { IsRead result text.now }
{
    if line_ends(text) > MAX_LINE_ENDS {
        return Err(DocError::TooManyLines);
    }
    let (head, body) = match cut(text, b'\n') {
        Some(parts) => parts,
        None => return Err(DocError::BadLine(1)),
    };
    match read_head(head) {
        Some((root_is_child, pseudo)) => read_body(alloc, root_is_child, pseudo, body),
        None => Err(DocError::BadLine(1)),
    }
}

/// How many line ends there are.
fn line_ends(text: &[u8]) -> usize
    ensures { result ≡ line_ends text.now }
{
    text.iter().filter(|byte| **byte == b'\n').count()
}

/// The example of the lines after the first one.
fn read_body(
    alloc: Global,
    root_is_child: bool,
    pseudo: Option<Pseudo>,
    body: &[u8],
) -> Result<Example, DocError>
    requires { line_ends body.now < 2 ^ 13 }
    ensures { IsBody result root_is_child pseudo body.now }
{
    let mut state = State::new(alloc);
    let mut rest = body;
    'lines: while let Some((line, more)) = cut(rest, b'\n') {
        if !state.read(alloc, line)? {
            return Err(DocError::BadLine(state.lines.len() as u32 + 2));
        }
        rest = more;
    }
    if !rest.is_empty() {
        return Err(DocError::BadLine(state.lines.len() as u32 + 2));
    }
    let State { lines, marked } = state;
    match marked {
        Some(marked) => Ok(Example {
            doc: RunDocument {
                root_is_child,
                lines,
            },
            marked,
            pseudo,
        }),
        None => Err(DocError::BadLine(lines.len() as u32 + 1)),
    }
}
