//! The text of a value, as it is printed.

ghost use Rattle.std.specs.Prelude.{◌≡◌, ◌++◌, ◌∷◌, map, IfOk};
ghost use Rattle.css_model.specs.Text.Kept as text;
ghost use Rattle.css_model.specs.Text.Source.{text_at};
ghost use Rattle.sheet_read.specs.Placed.{IsPlaced, ArePlaced};

use crate::signs::piece_of;
use css_model::{Bytes, Lexeme};
use std::alloc::{AllocError, Global};
use verbatim_text::{behind_value, between};

/// What is printed after a token of a value, before these others.
fn behind(source: &[u8], x: &Lexeme, others: &[Lexeme]) -> &'static [u8]
    requires { IsPlaced source.now x.now }
    ensures { text_at source.now x.now.span ++ result.now ++ text.value_text (map (text.solid source.now) others.now)
        ≡ text.value_text (map (text.solid source.now) (x.now ∷ others.now)) }
{
    let bytes = x.span.text(source);
    match others {
        [] => behind_value(x.kind, bytes, x.gap),
        _ => between(x.kind, bytes, x.gap),
    }
}

/// How many bytes a value has in its source, about as many as its text.
fn bytes_in_source(value: &[Lexeme]) -> usize {
    let piece = piece_of(value);
    piece.end.saturating_sub(piece.start) as usize
}

/// The text of a value.
pub(crate) fn value_text(
    alloc: Global,
    source: &[u8],
    value: &[Lexeme],
) -> Result<Bytes, AllocError>
    requires { ArePlaced source.now value.now }
    ensures { IfOk result (λ b. b ≡ text.value_text (map (text.solid source.now) value.now)) }
{
    let mut bytes = Vec::with_capacity(alloc, bytes_in_source(value))?;
    let mut rest = value;
    while let [x, others @ ..] = rest {
        bytes.extend_from_slice(x.span.text(source))?;
        bytes.extend_from_slice(behind(source, x, others))?;
        rest = others;
    }
    Ok(Bytes::new(bytes))
}
