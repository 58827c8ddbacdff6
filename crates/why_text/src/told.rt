//! The lines of what is found of a move.

ghost use Rattle.std.specs.Prelude.{◌≡◌, ◌≤◌, [], IfOk, length};
ghost use Rattle.css_model.specs.Sheets.Limits.{max_bytes};
ghost use Rattle.css_model.specs.Sheets.Sound.{IsSound};
ghost use Rattle.report_text.specs.Explanation.{lines_of};
ghost use Rattle.why_text.specs.PairTexts.{IsPlace};
ghost use Rattle.why_text.specs.WhyTexts.{HasPairs, IsBlockedText, IsToldText};

use crate::explaining::Explained;
use crate::pair::print_pair;
use css_model::{Example, Sheet};
use doc_text::print_doc;
use report_text::{Explanation, Word, explained};
use sheet_order::PairPlace;
use std::alloc::{AllocError, Global};

/// The line of a word alone.
fn print_word(alloc: Global, word: Word) -> Result<Vec<u8>, AllocError>
    ensures { IfOk result (λ text. text.items ≡ lines_of word [] [] []) }
{
    explained(
        alloc,
        &Explanation {
            word,
            moved: Vec::new(alloc),
            other: Vec::new(alloc),
            document: Vec::new(alloc),
        },
    )
}

/// The lines of two pairs and a document.
fn print_blocked(
    alloc: Global,
    source: &[u8],
    sheet: &Sheet,
    moved: PairPlace,
    other: PairPlace,
    example: &Example,
) -> Result<Vec<u8>, AllocError>
    requires length { length source.now ≤ max_bytes }
    requires sound { IsSound source.now sheet.now.items }
    requires moved { IsPlace sheet.now.items moved }
    requires other { IsPlace sheet.now.items other }
    ensures { IfOk result (λ text. IsBlockedText source.now sheet.now.items moved other example.now text.items) }
{
    let explanation = Explanation {
        word: Word::Blocked,
        moved: print_pair(alloc, source, sheet, moved)?,
        other: print_pair(alloc, source, sheet, other)?,
        document: print_doc(alloc, example)?,
    };
    explained(alloc, &explanation)
}

/// The lines of what is found of a move.
pub(crate) fn print_told(
    alloc: Global,
    source: &[u8],
    sheet: &Sheet,
    told: &Explained,
) -> Result<Vec<u8>, AllocError>
    requires length { length source.now ≤ max_bytes }
    requires sound { IsSound source.now sheet.now.items }
    requires pairs { HasPairs sheet.now.items told.now }
    ensures { IfOk result (λ text. IsToldText source.now sheet.now.items told.now text.items) }
{
    match told {
        Explained::Free => print_word(alloc, Word::Free),
        Explained::KeptItem(item) => print_word(alloc, Word::Kept(*item)),
        Explained::Blocked {
            moved,
            other,
            example,
        } => print_blocked(alloc, source, sheet, *moved, *other, example),
        Explained::Outside(reason) => print_word(alloc, Word::Outside(*reason)),
        Explained::Spent => print_word(alloc, Word::Spent),
    }
}
