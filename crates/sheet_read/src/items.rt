//! The items of a sheet by their lexemes (CSS Syntax 3, sections 5.4.1 to 5.4.4).

ghost use Rattle.std.specs.Prelude.{◌≡◌, ◌<◌, ◌≤◌, ◌+◌, ◌∷◌, ◌++◌, List, [], length, take, drop, IfSome, MatchOption};
ghost use Rattle.std.specs.List.{position_or_len};
ghost use Rattle.css_model.specs.declared.token.Lexeme.{Lexeme};
ghost use Rattle.css_model.specs.Sheets.Items as spec;
ghost use Rattle.sheet_read.specs.Steps.{whole_items};

use crate::signs::{has_sign_at, is_sign_at};
use css_model::{Lexeme, TokenKind};

pub(crate) fn is_at_keyword(kind: TokenKind) -> bool
    ensures { result ≡ spec.is_at_keyword kind }
{
    match kind {
        TokenKind::AtKeyword => true,
        _ => false,
    }
}

/// Whether this is `<!--` or `-->`.
fn is_between_items(kind: TokenKind) -> bool
    ensures { result ≡ spec.is_between_items kind }
{
    match kind {
        TokenKind::CommentOpen | TokenKind::CommentClose => true,
        _ => false,
    }
}

fn opens_block(x: &Lexeme) -> bool
    ensures { result ≡ spec.opens_block x.now }
{
    is_sign_at(b'{', 0, x)
}

fn closes_block(x: &Lexeme) -> bool
    ensures { result ≡ spec.closes_block x.now }
{
    is_sign_at(b'}', 1, x)
}

/// Whether this ends a prelude: a block does, and after an at-keyword a semicolon.
fn ends_prelude(at_rule: bool, x: &Lexeme) -> bool
    ensures { result ≡ spec.ends_prelude at_rule x.now }
{
    opens_block(x) || (at_rule && is_sign_at(b';', 0, x))
}

fn prelude_len(at_rule: bool, xs: &[Lexeme]) -> usize
    ensures value { result ≡ position_or_len (spec.ends_prelude at_rule) xs.now }
    ensures short { result ≤ length xs.now }
{
    let mut n = 0;
    let mut rest = xs;
    'lexemes: while let [x, behind @ ..] = rest {
        if ends_prelude(at_rule, x) {
            return n;
        }
        n += 1;
        rest = behind;
    }
    n
}

fn inside_len(xs: &[Lexeme]) -> usize
    ensures value { result ≡ position_or_len spec.closes_block xs.now }
    ensures short { result ≤ length xs.now }
{
    let mut n = 0;
    let mut rest = xs;
    'lexemes: while let [x, behind @ ..] = rest {
        if closes_block(x) {
            return n;
        }
        n += 1;
        rest = behind;
    }
    n
}

/// How many tokens the end of an item has. The first of these is the `{` of its block, or its semicolon.
fn end_len(xs: &[Lexeme]) -> usize
    ensures value { result ≡ spec.end_len xs.now }
    ensures short { result ≤ length xs.now + 1 }
{
    match xs {
        [] => 0,
        [x, behind @ ..] => {
            if opens_block(x) {
                2 + inside_len(behind)
            } else {
                1
            }
        }
    }
}

/// How many tokens the item at the front has.
fn item_len(xs: &[Lexeme]) -> usize
    ensures { result ≡ spec.item_len xs.now }
{
    match xs {
        [] => 0,
        [x, ..] => {
            let n = prelude_len(is_at_keyword(x.kind), xs);
            n + end_len(&xs[n..])
        }
    }
}

/// The item at the front, and what comes after it.
fn split_item(xs: &[Lexeme]) -> (&[Lexeme], &[Lexeme])
    ensures item { result.0.now ≡ take (spec.item_len xs.now) xs.now }
    ensures behind { result.1.now ≡ drop (spec.item_len xs.now) xs.now }
{
    let n = item_len(xs);
    if n < xs.len() {
        (&xs[..n], &xs[n..])
    } else {
        (xs, &[])
    }
}

pub(crate) fn is_at_rule(item: &[Lexeme]) -> bool
    ensures { result ≡ spec.is_at_rule item.now }
{
    match item {
        [] => false,
        [x, ..] => is_at_keyword(x.kind),
    }
}

/// Whether this is an at-rule, or a qualified rule with its block.
fn is_whole(item: &[Lexeme]) -> bool
    ensures { result ≡ spec.is_whole item.now }
{
    is_at_rule(item) || has_sign_at(b'{', 0, item)
}

/// The first item that is whole, and what comes after it.
pub(crate) fn next_item(lexemes: &[Lexeme]) -> Option<(&[Lexeme], &[Lexeme])>
    ensures first { MatchOption result (whole_items lexemes.now ≡ []) (λ parts. whole_items lexemes.now ≡ parts.0.now ∷ whole_items parts.1.now) }
    ensures parts { IfSome result (λ parts. (before : List Lexeme) × (lexemes.now ≡ before ++ (parts.0.now ++ parts.1.now))) }
    ensures shorter { IfSome result (λ parts. length parts.1.now < length lexemes.now) }
{
    let mut rest = lexemes;
    'items: while let [x, behind @ ..] = rest {
        if is_between_items(x.kind) {
            rest = behind;
        } else {
            let (item, behind) = split_item(rest);
            if is_whole(item) {
                return Some((item, behind));
            }
            rest = behind;
        }
    }
    None
}
