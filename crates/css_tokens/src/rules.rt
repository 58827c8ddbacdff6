//! The token rules (CSS Syntax 3, section 4.3.1), in the order in which they are tried. Each gives a kind and a length
//! in bytes, or what is wrong. A comment has no kind.

ghost use Rattle.std.specs.Prelude.{◌≡◌, ◌≤◌, ◌+◌, ◌^◌, ◌<◌, IfOk, length};
ghost use Rattle.css_model.specs.Text.Characters as classes;
ghost use Rattle.css_model.specs.Text.TokenAt as rules;
ghost use Rattle.css_model.specs.Text.Units as units;

use crate::characters::{after, before, begins, begins_newline, is_sign, is_white};
use crate::comments::comment_len;
use crate::names::is_url;
use crate::numbers::{number_len, signed_decimal};
use crate::runs::{Unit, run};
use crate::strings::string_len;
use crate::units::{name_start, name_unit};
use css_model::{TokenFlaw, TokenKind};

/// A kind, or none for a comment, and a length.
type Shape = (Option<TokenKind>, usize);

fn done(kind: TokenKind, len: usize) -> Result<Shape, TokenFlaw>
    ensures { result ≡ rules.done kind len }
{
    Ok((Some(kind), len))
}

/// What follows `/*`.
fn comment_shape(text: &[u8]) -> Result<Shape, TokenFlaw>
    ensures { result ≡ rules.comment_shape text.now }
{
    match comment_len(text) {
        Some(len) => Ok((None, 4 + len)),
        None => Err(TokenFlaw::EndInside),
    }
}

/// What follows `/`.
fn slash_shape(text: &[u8]) -> Result<Shape, TokenFlaw>
    ensures { result ≡ rules.slash_shape text.now }
{
    match text {
        [b'*', rest @ ..] => comment_shape(rest),
        _ => done(TokenKind::Delim(b'/' as u32), 1),
    }
}

/// What follows a quote.
fn string_shape(quote: u8, text: &[u8]) -> Result<Shape, TokenFlaw>
    ensures { result ≡ rules.string_shape quote text.now }
{
    let len = string_len(quote, text);
    let rest = after(text, len);
    if begins(quote, rest) {
        done(TokenKind::Str, 2 + len)
    } else if begins_newline(rest) {
        Err(TokenFlaw::BadString)
    } else {
        Err(TokenFlaw::EndInside)
    }
}

/// What follows `#`.
fn hash_shape(text: &[u8]) -> Result<Shape, TokenFlaw>
    ensures { result ≡ rules.hash_shape text.now }
{
    if name_unit(text) == 0 {
        return done(TokenKind::Delim(b'#' as u32), 1);
    }
    let kind = if name_start(text) > 0 {
        TokenKind::IdHash
    } else {
        TokenKind::Hash
    };
    done(kind, 1 + run(Unit::Name, text))
}

/// What follows a number of `len` bytes.
fn number_shape(len: usize, rest: &[u8]) -> Result<Shape, TokenFlaw>
    requires { len ≤ 2 ^ 40 }
    ensures { result ≡ rules.number_shape len rest.now }
{
    if name_start(rest) > 0 {
        done(TokenKind::Dimension, len + run(Unit::Name, rest))
    } else if begins(b'%', rest) {
        done(TokenKind::Percentage, len + 1)
    } else {
        done(TokenKind::Number, len)
    }
}

/// What follows `<`.
fn less_shape(text: &[u8]) -> Result<Shape, TokenFlaw>
    ensures { result ≡ rules.less_shape text.now }
{
    if begins(b'!', text) && begins(b'-', after(text, 1)) && begins(b'-', after(text, 2)) {
        done(TokenKind::CommentOpen, 4)
    } else {
        done(TokenKind::Delim(b'<' as u32), 1)
    }
}

/// What follows `@`.
fn at_shape(text: &[u8]) -> Result<Shape, TokenFlaw>
    ensures { result ≡ rules.at_shape text.now }
{
    if name_start(text) > 0 {
        done(TokenKind::AtKeyword, 1 + run(Unit::Name, text))
    } else {
        done(TokenKind::Delim(b'@' as u32), 1)
    }
}

/// The end of a url, after `len` bytes of it.
fn url_end(len: usize, rest: &[u8]) -> Result<Shape, TokenFlaw>
    requires { len ≤ 2 ^ 40 }
    ensures { result ≡ rules.url_end len rest.now }
{
    if begins(b')', rest) {
        done(TokenKind::Url, len + 1)
    } else if rest.is_empty() {
        Err(TokenFlaw::EndInside)
    } else {
        Err(TokenFlaw::BadUrl)
    }
}

/// A url, after `len` bytes of it.
fn url_shape(len: usize, text: &[u8]) -> Result<Shape, TokenFlaw>
    requires small { len ≤ 2 ^ 36 }
    requires short { length text.now < 2 ^ 36 }
    ensures { result ≡ rules.url_shape len text.now }
{
    let inside = run(Unit::Url, text);
    let rest = after(text, inside);
    let white = run(Unit::White, rest);
    url_end(len + inside + white, after(rest, white))
}

fn begins_quote(text: &[u8]) -> bool
    ensures { result ≡ classes.first_passes rules.is_quote text.now }
{
    match text {
        [] => false,
        [c, ..] => is_quote(*c),
    }
}

fn is_quote(c: u8) -> bool
    ensures { result ≡ rules.is_quote c }
{
    c == b'"' || c == b'\''
}

/// What follows a name and `(` of `len` bytes together.
fn opened_shape(name: &[u8], len: usize, rest: &[u8]) -> Result<Shape, TokenFlaw>
    requires small { len ≤ 2 ^ 34 }
    requires short { length rest.now < 2 ^ 34 }
    ensures { result ≡ rules.opened_shape name.now len rest.now }
{
    if !is_url(name) {
        return done(TokenKind::Function, len);
    }
    let white = run(Unit::White, rest);
    let inside = after(rest, white);
    if begins_quote(inside) {
        done(TokenKind::Function, len)
    } else {
        url_shape(len + white, inside)
    }
}

/// A text that begins with an ident sequence.
fn named_shape(text: &[u8]) -> Result<Shape, TokenFlaw>
    requires { length text.now < 2 ^ 32 }
    ensures { result ≡ rules.named_shape text.now }
{
    let len = run(Unit::Name, text);
    if begins(b'(', after(text, len)) {
        opened_shape(before(text, len), len + 1, after(text, len + 1))
    } else {
        done(TokenKind::Ident, len)
    }
}

/// A text that begins with none of the others: `-->`, an ident sequence, a sign, or any other code point.
fn word_at(text: &[u8]) -> Result<Shape, TokenFlaw>
    requires { length text.now < 2 ^ 32 }
    ensures { result ≡ rules.word_at text.now }
{
    match text {
        [] => Err(TokenFlaw::EndInside),
        [first, rest @ ..] => {
            if *first == b'-' && begins(b'-', rest) && begins(b'>', after(rest, 1)) {
                done(TokenKind::CommentClose, 3)
            } else if name_start(text) > 0 {
                named_shape(text)
            } else if is_sign(*first) {
                done(TokenKind::Sign(*first), 1)
            } else {
                done(TokenKind::Delim(*first as u32), 1)
            }
        }
    }
}

/// A text that begins with a number, `<` or `@`, or with none of these.
fn symbol_at(text: &[u8]) -> Result<Shape, TokenFlaw>
    requires { length text.now < 2 ^ 32 }
    ensures { result ≡ rules.symbol_at text.now }
{
    match text {
        [] => Err(TokenFlaw::EndInside),
        [first, rest @ ..] => {
            let decimal_len = signed_decimal(text);
            if decimal_len > 0 {
                let len = number_len(text, decimal_len);
                number_shape(len, after(text, len))
            } else if *first == b'<' {
                less_shape(rest)
            } else if *first == b'@' {
                at_shape(rest)
            } else {
                word_at(text)
            }
        }
    }
}

/// The first rule that fits.
fn rule_at(text: &[u8]) -> Result<Shape, TokenFlaw>
    requires { length text.now < 2 ^ 32 }
    ensures { result ≡ rules.rule_at text.now }
{
    match text {
        [] => Err(TokenFlaw::EndInside),
        [first, rest @ ..] => {
            if *first == b'/' {
                slash_shape(rest)
            } else if is_white(*first) {
                done(TokenKind::White, run(Unit::White, text))
            } else if is_quote(*first) {
                string_shape(*first, rest)
            } else if *first == b'#' {
                hash_shape(rest)
            } else {
                symbol_at(text)
            }
        }
    }
}

/// The token or the comment at the front of the text.
pub(crate) fn part_at(text: &[u8]) -> Result<Shape, TokenFlaw>
    requires { length text.now < 2 ^ 32 }
    ensures value { result ≡ rules.part_at text.now }
    ensures fits { IfOk result (λ s. (0 < s.1) × (s.1 ≤ length text.now)) }
{
    let (kind, len) = rule_at(text)?;
    if len <= text.len() {
        Ok((kind, len))
    } else {
        Err(TokenFlaw::EndInside)
    }
}
