//! What counts of the tokens of a selector (Selectors 3, sections 4 and 10).

ghost use Rattle.std.specs.Prelude.{◌≡◌, ◌+◌, ◌<◌, ◌≤◌, ◌^◌, ◌-◌, length, take};
ghost use Rattle.css_model.specs.Selectors.Terms as spec;
ghost use Rattle.css_model.specs.Selectors.Tokens as tokens;
ghost use Rattle.css_model.specs.Text.Lexemes as lexemes;
ghost use Rattle.css_print.specs.Terms.{begins_operator, depth_after, is_combinator, is_end, is_position};

use css_model::{Gap, TokenKind};
use css_tokens::is_named;

fn is_delim_of(code: u32, kind: TokenKind) -> bool
    ensures { result ≡ lexemes.is_delim_of code kind }
{
    match kind {
        TokenKind::Delim(c) => c == code,
        _ => false,
    }
}

pub(crate) fn is_sign_of(byte: u8, kind: TokenKind) -> bool
    ensures { result ≡ lexemes.is_sign_of byte kind }
{
    match kind {
        TokenKind::Sign(b) => b == byte,
        _ => false,
    }
}

fn is_function(kind: TokenKind) -> bool
    ensures { result ≡ tokens.is_function kind }
{
    matches!(kind, TokenKind::Function)
}

/// The name of a function, without its bracket.
fn without_last(bytes: &[u8]) -> &[u8]
    ensures rest { result.now ≡ take (length bytes.now - 1) bytes.now }
{
    match bytes {
        [] => bytes,
        [front @ .., _] => front,
    }
}

/// Whether this is `nth-child(` or `nth-last-child(`.
pub(crate) fn is_position(kind: TokenKind, text: &[u8]) -> bool
    ensures { result ≡ is_position kind text.now }
{
    match kind {
        TokenKind::Function => {
            let name = without_last(text);
            is_named(name, b"nth-child") || is_named(name, b"nth-last-child")
        }
        _ => false,
    }
}

/// Whether this is `first-child` or `last-child`.
pub(crate) fn is_end(kind: TokenKind, text: &[u8]) -> bool
    ensures { result ≡ is_end kind text.now }
{
    match kind {
        TokenKind::Ident => is_named(text, b"first-child") || is_named(text, b"last-child"),
        _ => false,
    }
}

/// How many brackets are open after a token.
pub(crate) fn depth_after(depth: u32, kind: TokenKind) -> u32
    requires { depth + 1 < 2 ^ 32 }
    ensures depth { result ≡ depth_after kind depth }
    ensures small { result ≤ depth + 1 }
{
    if is_function(kind) || is_sign_of(b'[', kind) {
        depth + 1
    } else if is_sign_of(b']', kind) || is_sign_of(b')', kind) {
        depth.saturating_sub(1)
    } else {
        depth
    }
}

/// Whether this is the sign of a combinator.
fn is_combinator(kind: TokenKind) -> bool
    ensures { result ≡ is_combinator kind }
{
    match kind {
        TokenKind::Delim(0x3E | 0x2B | 0x7E) => true,
        _ => false,
    }
}

/// Whether an operator of an attribute selector may begin with this.
fn begins_operator(kind: TokenKind) -> bool
    ensures { result ≡ begins_operator kind }
{
    match kind {
        TokenKind::Delim(0x7E | 0x7C | 0x5E | 0x24 | 0x2A) => true,
        _ => false,
    }
}

fn white_alone(gap: Gap) -> Gap
    ensures { result ≡ spec.white_alone gap }
{
    match gap {
        Gap::White => Gap::White,
        _ => Gap::Nothing,
    }
}

/// What counts of the gap between a token and the next one, with so many brackets open.
pub(crate) fn counted_gap(depth: u32, kind: TokenKind, gap: Gap, next: Option<TokenKind>) -> Gap
    ensures { result ≡ spec.counted_gap depth kind gap next }
{
    match next {
        None => Gap::Nothing,
        Some(next) => {
            if is_delim_of(u32::from(b'.'), kind) || is_sign_of(b':', kind) {
                white_alone(gap)
            } else if depth > 0 {
                if begins_operator(kind) && !is_sign_of(b')', next) {
                    gap
                } else {
                    Gap::Nothing
                }
            } else if is_combinator(kind) || is_combinator(next) {
                Gap::Nothing
            } else {
                white_alone(gap)
            }
        }
    }
}
