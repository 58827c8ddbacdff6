//! The parts of a rule with a block, by its tokens (CSS Syntax 3, sections 5.4.2, 5.4.3 and 5.4.8).

ghost use Rattle.std.specs.Prelude.{◌≡◌, ◌≤◌, length};
ghost use Rattle.std.specs.Str.{IsAscii};
ghost use Rattle.std.specs.List.{before_first, list_any, position_or_len};
ghost use Rattle.css_model.specs.Sheets.Items as items;
ghost use Rattle.css_model.specs.Sheets.Sheet as sheet;
ghost use Rattle.css_model.specs.Text.Lexemes as lexemes;
ghost use Rattle.media_groups.specs.Opened as spec;
ghost use Rattle.sheet_read.specs.Placed.{ArePlaced};

use crate::signs::is_sign_of;
use css_model::{Lexeme, Piece, TokenKind};
use css_tokens::is_named;

fn opens_block(x: &Lexeme) -> bool
    ensures { result ≡ items.opens_block x.now }
{
    is_sign_of(b'{', x.kind) && x.level == 0
}

fn closes_block(x: &Lexeme) -> bool
    ensures { result ≡ items.closes_block x.now }
{
    is_sign_of(b'}', x.kind) && x.level == 1
}

/// Whether this is `<!--` or `-->`, inside no bracket.
fn is_comment_sign(x: &Lexeme) -> bool
    ensures { result ≡ spec.is_comment_sign x.now }
{
    match x.kind {
        TokenKind::CommentOpen | TokenKind::CommentClose => x.level == 0,
        _ => false,
    }
}

/// Whether `<!--` or `-->` is among these, inside no bracket.
pub(crate) fn has_comment_sign(xs: &[Lexeme]) -> bool
    ensures { result ≡ list_any spec.is_comment_sign xs.now }
{
    xs.iter().any(|x| is_comment_sign(x))
}

fn has_block(item: &[Lexeme]) -> bool
    ensures { result ≡ list_any items.opens_block item.now }
{
    item.iter().any(|x| opens_block(x))
}

fn is_at_keyword(kind: TokenKind) -> bool
    ensures { result ≡ items.is_at_keyword kind }
{
    match kind {
        TokenKind::AtKeyword => true,
        _ => false,
    }
}

/// Whether this is an at-rule whose name is this word of ASCII.
pub(crate) fn is_at_rule_named(word: &[u8], source: &[u8], item: &[Lexeme]) -> bool
    requires ascii { IsAscii word.now }
    requires placed { ArePlaced source.now item.now }
    ensures { result ≡ sheet.is_at_rule_named word.now source.now item.now }
{
    match item {
        [] => false,
        [x, ..] => is_at_keyword(x.kind) && is_named(&x.span.text(source)[1..], word),
    }
}

/// Whether this is an `@media` rule with a block.
pub(crate) fn is_media(source: &[u8], item: &[Lexeme]) -> bool
    requires { ArePlaced source.now item.now }
    ensures { result ≡ spec.is_media source.now item.now }
{
    is_at_rule_named(b"media", source, item) && has_block(item)
}

/// The piece from the first to the last of these.
fn piece_of(xs: &[Lexeme]) -> Piece
    ensures { result ≡ lexemes.piece_of xs.now }
{
    match (xs.first(), xs.last()) {
        (Some(first), Some(last)) => Piece {
            start: first.span.start,
            end: last.span.end,
        },
        _ => Piece { start: 0, end: 0 },
    }
}

/// How many tokens come before the block of an item.
fn head_len(item: &[Lexeme]) -> usize
    ensures value { result ≡ position_or_len items.opens_block item.now }
    ensures short { result ≤ length item.now }
{
    let mut n = 0;
    let mut rest = item;
    'lexemes: while let [x, behind @ ..] = rest {
        if opens_block(x) {
            return n;
        }
        n += 1;
        rest = behind;
    }
    n
}

/// The tokens of an item before its block, or all of them if it has none.
pub(crate) fn before_block(item: &[Lexeme]) -> &[Lexeme]
    ensures { result.now ≡ before_first items.opens_block item.now }
{
    &item[..head_len(item)]
}

/// What comes before the block of an item.
pub(crate) fn head_of(item: &[Lexeme]) -> Piece
    ensures { result ≡ spec.head_of item.now }
{
    piece_of(before_block(item))
}

/// Where the `}` of a block is. Its inside begins at this place.
fn body_end(at: u32, inside: &[Lexeme]) -> u32
    ensures { result ≡ spec.body_end at inside.now }
{
    let mut end = at;
    let mut rest = inside;
    'lexemes: while let [x, behind @ ..] = rest {
        if closes_block(x) {
            return x.span.start;
        }
        end = x.span.end;
        rest = behind;
    }
    end
}

/// What is inside the block of an item.
pub(crate) fn body_of(item: &[Lexeme]) -> Piece
    ensures { result ≡ spec.body_of item.now }
{
    let mut rest = item;
    'lexemes: while let [x, behind @ ..] = rest {
        if opens_block(x) {
            return Piece {
                start: x.span.end,
                end: body_end(x.span.end, behind),
            };
        }
        rest = behind;
    }
    Piece { start: 0, end: 0 }
}
