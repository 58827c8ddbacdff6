//! The text between tokens that are printed as they are: nothing, a space or a comment, so that they are read back.
//! CSS Syntax 3, section 10, asks of a serialisation that it reads back. It takes no memory.
#![tactic(auto)]

ghost use Rattle.std.specs.Prelude.{◌≡◌, ◌∷◌, [], List, ℕ, MatchOption};
ghost use Rattle.css_model.specs.declared.token.Gap.{Gap};
ghost use Rattle.css_model.specs.declared.token.Token.{Token};
ghost use Rattle.css_model.specs.Text.Kept as kept;
ghost use Rattle.css_model.specs.Text.Lexemes as lexemes;

use css_model::{Gap, Token, TokenKind};
use css_tokens::ends_open;

/// Whether a token of this kind is white space.
pub fn is_white(kind: TokenKind) -> bool
    ensures { result ≡ lexemes.is_white_kind kind }
{
    matches!(kind, TokenKind::White)
}

/// What is between a token and this next one, or the end.
pub fn gap_before(next: Option<Token>) -> Gap
    ensures { MatchOption next (result ≡ lexemes.gap_of []) (λ token. (others : List Token) → result ≡ lexemes.gap_of (token ∷ others)) }
{
    match next {
        None => Gap::Nothing,
        Some(token) => {
            if is_white(token.kind) {
                Gap::White
            } else if token.comment_before {
                Gap::Comments
            } else {
                Gap::Nothing
            }
        }
    }
}

fn is_white_gap(gap: Gap) -> bool
    ensures { result ≡ kept.is_white_gap gap }
{
    matches!(gap, Gap::White)
}

/// Whether this is a backslash that begins no escape.
fn is_lone(kind: TokenKind) -> bool
    ensures { result ≡ kept.is_lone kind }
{
    matches!(kind, TokenKind::Delim(0x5C))
}

/// What is printed for a gap after a token of these bytes that is no lone backslash.
pub fn gap_text(text: &[u8], gap: Gap) -> &'static [u8]
    ensures { result.now ≡ kept.gap_text text.now gap }
{
    match gap {
        Gap::Nothing => b"",
        Gap::Comments => b"/**/",
        Gap::White => { if ends_open(text) { b"  " } else { b" " } }
    }
}

/// What is printed between a token of these bytes and the next one.
pub fn between(kind: TokenKind, text: &[u8], gap: Gap) -> &'static [u8]
    ensures { result.now ≡ kept.between (record { kind = kind; bytes = text.now; gap = gap }) }
{
    if is_lone(kind) {
        b"\n"
    } else {
        gap_text(text, gap)
    }
}

/// What is printed after the last token of a text that is kept.
pub fn behind_last(kind: TokenKind) -> &'static [u8]
    ensures { (bytes : List ℕ) (gap : Gap) → result.now ≡ kept.behind_last (record { kind = kind; bytes = bytes; gap = gap }) }
{
    if is_lone(kind) { b"\n" } else { b"" }
}

/// What is printed after the last token of a value, which has these bytes.
pub fn behind_value(kind: TokenKind, text: &[u8], gap: Gap) -> &'static [u8]
    ensures { result.now ≡ kept.behind_value (record { kind = kind; bytes = text.now; gap = gap }) }
{
    if is_lone(kind) {
        b"\n"
    } else if is_white_gap(gap) && ends_open(text) {
        b" "
    } else {
        b""
    }
}
