//! What a lexeme is, and lexemes cut at a sign.

ghost use Rattle.std.specs.Prelude.{◌≡◌, ◌∷◌, ◌<◌, [], length, IfSome};
ghost use Rattle.std.specs.List.{position_from, before_first, after_first, slice_split, list_any};
ghost use Rattle.std.specs.Option.{option_map_or};
ghost use Rattle.css_model.specs.Sheets.Items as items;
ghost use Rattle.css_model.specs.Text.Kept as kept;
ghost use Rattle.css_model.specs.Text.Lexemes as lexemes;

use css_model::{Gap, Lexeme, Piece, TokenKind};

/// Whether this is this sign.
pub(crate) fn is_sign_of(sign: u8, kind: TokenKind) -> bool
    ensures { result ≡ lexemes.is_sign_of sign kind }
{
    match kind {
        TokenKind::Sign(c) => c == sign,
        _ => false,
    }
}

/// Whether this is an ident.
pub(crate) fn is_ident(kind: TokenKind) -> bool
    ensures { result ≡ lexemes.is_ident kind }
{
    matches!(kind, TokenKind::Ident)
}

/// Whether this is this code point by itself.
pub(crate) fn is_delim_of(code: u32, kind: TokenKind) -> bool
    ensures { result ≡ lexemes.is_delim_of code kind }
{
    match kind {
        TokenKind::Delim(c) => c == code,
        _ => false,
    }
}

/// Whether this gap is white space.
pub(crate) fn is_white_gap(gap: Gap) -> bool
    ensures { result ≡ kept.is_white_gap gap }
{
    match gap {
        Gap::White => true,
        Gap::Nothing | Gap::Comments => false,
    }
}

/// Whether this is this sign, with so many brackets open before it.
pub(crate) fn is_sign_at(sign: u8, level: u32, x: &Lexeme) -> bool
    ensures { result ≡ lexemes.is_sign_at sign level x.now }
{
    is_sign_of(sign, x.kind) && x.level == level
}

/// Whether this sign is among these.
pub(crate) fn has_sign_at(sign: u8, level: u32, xs: &[Lexeme]) -> bool
    ensures { result ≡ list_any (lexemes.is_sign_at sign level) xs.now }
{
    xs.iter().any(|x| is_sign_at(sign, level, x))
}

/// The place of the first of this sign.
fn place(sign: u8, level: u32, xs: &[Lexeme]) -> Option<usize>
    ensures place { result ≡ position_from (lexemes.is_sign_at sign level) 0 xs.now }
    ensures within { IfSome result (λ at. at < length xs.now) }
{
    xs.iter().position(|x| is_sign_at(sign, level, x))
}

/// What comes before the first of this sign, and what comes after it.
pub(crate) fn cut(sign: u8, level: u32, xs: &[Lexeme]) -> (&[Lexeme], Option<&[Lexeme]>)
    ensures first { result.0.now ≡ before_first (lexemes.is_sign_at sign level) xs.now }
    ensures rest { option_map_or (λ rest. rest.now) result.1 [] ≡ after_first (lexemes.is_sign_at sign level) xs.now }
    ensures parts { slice_split (lexemes.is_sign_at sign level) xs.now
        ≡ result.0.now ∷ option_map_or (λ rest. slice_split (lexemes.is_sign_at sign level) rest.now) result.1 [] }
{
    match place(sign, level, xs) {
        Some(at) => (&xs[..at], Some(&xs[at + 1..])),
        None => (xs, None),
    }
}

/// What comes before the block of an item.
pub(crate) fn prelude(item: &[Lexeme]) -> &[Lexeme]
    ensures { result.now ≡ before_first items.opens_block item.now }
{
    cut(b'{', 0, item).0
}

/// What is inside the block of an item.
pub(crate) fn block(item: &[Lexeme]) -> &[Lexeme]
    ensures { result.now ≡ items.block item.now }
{
    match cut(b'{', 0, item).1 {
        Some(rest) => cut(b'}', 1, rest).0,
        None => &[],
    }
}

/// The piece from the first to the last of these.
pub(crate) fn piece_of(xs: &[Lexeme]) -> Piece
    ensures { result ≡ lexemes.piece_of xs.now }
{
    match (xs.first(), xs.last()) {
        (Some(first), Some(last)) => Piece {
            start: first.span.start,
            end: last.span.end,
        },
        _ => Piece { start: 0, end: 0 },
    }
}
