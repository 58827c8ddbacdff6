//! A source with its tokens, and the tokens of its pieces.

ghost use Rattle.std.specs.Prelude.{◌≡◌, ◌≤◌, length, nat_lt, nat_le, take, drop, Ok, IfOk};
ghost use Rattle.std.specs.List.{prefix_len};
ghost use Rattle.css_model.specs.Sheets.Limits.{max_bytes};
ghost use Rattle.css_model.specs.Sheets.Sheet.{sheet_of};
ghost use Rattle.css_model.specs.Sheets.Spelling as spelling;
ghost use Rattle.media_groups.specs.Sorted.{AreAscending};
ghost use Rattle.sheet_read.specs.Placed.{ArePlaced};

use css_model::{Lexeme, Piece, Sheet};
use css_tokens::tokens_restart;
use sheet_read::{SheetError, lexemes_of};
use std::alloc::{AllocError, Global};

/// The tokens from the first one on that begins at this place or after it.
fn from_place(xs: &[Lexeme], at: u32) -> &[Lexeme]
    requires { AreAscending 0 xs.now }
    ensures { result.now ≡ drop (prefix_len (λ x. nat_lt x.span.start at) xs.now) xs.now }
{
    let n = xs.partition_point(
        |x: &Lexeme| -> bool
            ensures { result ≡ nat_lt x.now.span.start at }
        { x.span.start < at },
    );
    &xs[n..]
}

/// The first tokens that end at this place or before it.
fn up_to(xs: &[Lexeme], at: u32) -> &[Lexeme]
    requires { AreAscending 0 xs.now }
    ensures { result.now ≡ take (prefix_len (λ x. nat_le x.span.«end» at) xs.now) xs.now }
{
    let n = xs.partition_point(
        |x: &Lexeme| -> bool
            ensures { result ≡ nat_le x.now.span.«end» at }
        { x.span.end <= at },
    );
    &xs[..n]
}

/// A source, with its tokens that are no white space.
#[derive(Drop)]
pub struct Reading<'a> {
    /// Its bytes.
    pub source: &'a [u8],
    lexemes: Vec<Lexeme>,
    ghost short: { length source.now ≤ max_bytes },
    ghost tokens: { lexemes.items ≡ spelling.lexemes_of source.now },
}

impl<'a> Reading<'a> {
    /// All of its tokens.
    pub(crate) fn tokens(&self) -> &[Lexeme]
        ensures { result.now ≡ spelling.lexemes_of self.now.source.now }
    {
        self.lexemes.as_slice()
    }

    /// The tokens of a piece.
    pub(crate) fn tokens_in(&self, piece: Piece) -> &[Lexeme]
        ensures tokens { result.now ≡ spelling.tokens_in self.now.source.now piece }
        ensures placed { ArePlaced self.now.source.now result.now }
        ensures ascending { AreAscending 0 result.now }
    {
        tokens_restart();
        up_to(from_place(self.tokens(), piece.start), piece.end)
    }
}

/// The source of a sheet, with these tokens of it, which are all that are no white space.
pub fn reading_with<'a>(sheet: &Sheet, source: &'a [u8], lexemes: Vec<Lexeme>) -> Reading<'a>
    requires read { sheet_of source.now ≡ Ok sheet.now.items }
    requires tokens { lexemes.items ≡ spelling.lexemes_of source.now }
    ensures { result.source.now ≡ source.now }
{
    Reading { source, lexemes }
}

/// The source of a sheet, with its tokens. `AllocError` where memory runs out.
pub fn reading_of<'a>(
    alloc: Global,
    sheet: &Sheet,
    source: &'a [u8],
) -> Result<Reading<'a>, AllocError>
    requires { sheet_of source.now ≡ Ok sheet.now.items }
    ensures { IfOk result (λ r. r.source.now ≡ source.now) }
{
    match lexemes_of(alloc, source) {
        Ok(lexemes) => Ok(reading_with(sheet, source, lexemes)),
        Err(SheetError::NoMemory) => Err(AllocError),
        Err(SheetError::Fault(_)) => unreachable!(),
    }
}
