//! The lines that explain a move.

ghost use Rattle.std.specs.Prelude.{◌≡◌, ◌++◌, codes, decimal, IfOk};
ghost use Rattle.report_text.specs.Explanation.{explanation_text};

use crate::lines::push_number;
use std::alloc::{AllocError, Global};

/// What is found of a move, as a word.
#[derive(Clone, Copy, Debug, PartialEq, Eq, Hash)]
pub enum Word {
    /// Nothing hinders it.
    Free,
    /// The kept item of this number, from 0, hinders it.
    Kept(u32),
    /// Two pairs hinder it, whose selectors meet.
    Blocked,
    /// Two selectors were not compared, for the reason of this number.
    Outside(u32),
    /// The budget was spent for two selectors.
    Spent,
}

/// What is found of a move.
#[derive(Debug, Drop)]
pub struct Explanation {
    /// The word for it.
    pub word: Word,
    /// The text of the moved pair, where two pairs hinder the move.
    pub moved: Vec<u8>,
    /// The text of the other one.
    pub other: Vec<u8>,
    /// The text of a document with an element that both selectors match.
    pub document: Vec<u8>,
}

/// A word with a number in a line.
fn numbered(alloc: Global, word: &[u8], number: u64) -> Result<Vec<u8>, AllocError>
    ensures { IfOk result (λ line. line.items ≡ word.now ++ decimal number ++ codes "\n") }
{
    let mut line = word.to_vec(alloc)?;
    push_number(&mut line, number)?;
    line.extend_from_slice(b"\n")?;
    Ok(line)
}

/// Two pairs and a document, after their word.
fn blocked(
    alloc: Global,
    moved: &[u8],
    other: &[u8],
    document: &[u8],
) -> Result<Vec<u8>, AllocError>
    ensures { IfOk result (λ text. text.items ≡ codes "blocked\n" ++ moved.now ++ codes "\n" ++ other.now ++ codes "\n" ++ document.now) }
{
    let mut text = b"blocked\n".to_vec(alloc)?;
    text.extend_from_slice(moved)?;
    text.extend_from_slice(b"\n")?;
    text.extend_from_slice(other)?;
    text.extend_from_slice(b"\n")?;
    text.extend_from_slice(document)?;
    Ok(text)
}

/// The lines of an explanation, as bytes: its word, with the number of a kept item from 1, or of a reason. After
/// `blocked` come the moved pair, the other one and the document. They are read for this word alone. `AllocError` where
/// memory runs out.
pub fn explained(alloc: Global, x: &Explanation) -> Result<Vec<u8>, AllocError>
    ensures { IfOk result (λ text. text.items ≡ explanation_text x.now) }
{
    match x.word {
        Word::Free => b"free\n".to_vec(alloc),
        Word::Kept(item) => numbered(alloc, b"kept ", u64::from(item) + 1),
        Word::Blocked => blocked(alloc, &x.moved, &x.other, &x.document),
        Word::Outside(reason) => numbered(alloc, b"outside ", u64::from(reason)),
        Word::Spent => b"spent\n".to_vec(alloc),
    }
}
