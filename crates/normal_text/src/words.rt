//! The words of a text: its tokens that are no white space.

ghost use Rattle.std.specs.Prelude.{◌≡◌, ◌≤◌, [], List, length, reverse, IfOk, OnOk};
ghost use Rattle.css_model.specs.Sheets.Limits.{max_bytes};
ghost use Rattle.css_model.specs.Text.Lexemes as lexemes;
ghost use Rattle.css_model.specs.declared.token.Token as stream_token;
ghost use Rattle.css_model.specs.Text.Source.{text_at};
ghost use Rattle.css_tokens.specs.Left.{left};
ghost use Rattle.normal_text.specs.Ahead.{front};
ghost use Rattle.normal_text.specs.Words as spec;

use css_model::{Piece, Token, TokenKind};
use css_tokens::Tokens;
use std::alloc::{AllocError, Global};
use std::marker::Model;
use verbatim_text::is_white;

/// A token that is no white space.
#[derive(Drop)]
pub(crate) struct Word<'a> {
    /// What it is.
    pub(crate) kind: TokenKind,
    /// Its bytes.
    pub(crate) bytes: &'a [u8],
    /// Whether white space comes after it.
    pub(crate) white: bool,
    /// Whether white space on either side of it says nothing.
    pub(crate) free: bool,
    ghost short: { length bytes.now ≤ max_bytes },
}

impl<'a> Model for Word<'a> {
    ghost use Rattle.normal_text.specs.Words as spec;

    ghost Value = { spec.Word };

    ghost view = { λ w. record { kind = w.kind; bytes = w.bytes.now; white = w.white; free = w.free } };
}

/// The next token, if there is one before the end and before a fault.
fn next_of(tokens: &mut Tokens<'_>) -> Option<Token>
    ensures { front result (left tokens.new).tokens ≡ (left tokens.old).tokens }
{
    match tokens.next() {
        Ok(token) => token,
        Err(_) => None,
    }
}

/// Whether the next token is white space.
fn begins_white(next: Option<Token>) -> bool
    ensures { (others : List stream_token.Token) → result ≡ spec.begin_white (front next others) }
{
    match next {
        None => false,
        Some(token) => is_white(token.kind),
    }
}

/// The bytes of a text in a piece, as far as the text goes.
fn part_of(text: &[u8], piece: Piece) -> &[u8]
    ensures part { result.now ≡ text_at text.now piece }
    ensures short { length result.now ≤ length text.now }
{
    let start = piece.start as usize;
    let end = (piece.end as usize).min(text.len());
    if start < end { &text[start..end] } else { b"" }
}

/// A token of a text before the next one.
fn word_at<'a>(text: &'a [u8], token: Token, next: Option<Token>) -> Word<'a>
    requires { length text.now ≤ max_bytes }
    ensures { (others : List stream_token.Token) → result ≡ spec.word text.now token (front next others) }
{
    Word {
        kind: token.kind,
        bytes: part_of(text, token.span),
        white: begins_white(next),
        free: false,
    }
}

/// The words of a text that is no longer than a sheet may be, up to its end or to what is no token.
pub(crate) fn words_of<'a>(alloc: Global, text: &'a [u8]) -> Result<Vec<Word<'a>>, AllocError>
    requires { length text.now ≤ max_bytes }
    ensures { IfOk result (λ words. words.items ≡ spec.words_of text.now) }
{
    let mut tokens = Tokens::from_place(text, 0);
    let mut words = Vec::new(alloc);
    let mut ahead = next_of(&mut tokens);
    'tokens: while let Some(token) = ahead {
        ahead = next_of(&mut tokens);
        if !is_white(token.kind) {
            words.push(word_at(text, token, ahead))?;
        }
    }
    Ok(words)
}

/// Whether a token is this sign.
pub(crate) fn is_sign_of(sign: u8, kind: TokenKind) -> bool
    ensures { result ≡ lexemes.is_sign_of sign kind }
{
    match kind {
        TokenKind::Sign(c) => c == sign,
        _ => false,
    }
}

/// Whether a token opens a bracket.
fn opens(kind: TokenKind) -> bool
    ensures { result ≡ lexemes.opens kind }
{
    match kind {
        TokenKind::Function => true,
        TokenKind::Sign(c) => c == b'(' || c == b'[' || c == b'{',
        _ => false,
    }
}

/// Whether a token closes a bracket.
fn is_closer(kind: TokenKind) -> bool
    ensures { result ≡ spec.is_closer kind }
{
    is_sign_of(b')', kind) || is_sign_of(b']', kind) || is_sign_of(b'}', kind)
}

/// Passes a token. For each open bracket, the innermost last, the list has whether it is a `(` and no function.
fn pass(rounds: &mut Vec<bool>, kind: TokenKind) -> Result<(), AllocError>
    ensures { OnOk result (reverse rounds.new.items ≡ spec.rounds_after kind (reverse rounds.old.items)) }
{
    if opens(kind) {
        rounds.push(is_sign_of(b'(', kind))?;
    } else if is_closer(kind) {
        let _closed = rounds.pop();
    }
    Ok(())
}

/// Whether the last of the open brackets, the innermost one, is a `(` and no function.
fn is_in_round(rounds: &[bool]) -> bool
    ensures { result ≡ spec.is_in_round (reverse rounds.now) }
{
    match rounds {
        [] => false,
        [.., innermost] => *innermost,
    }
}

/// A word in these brackets of a head.
fn freed<'a>(rounds: &[bool], w: &Word<'a>) -> Word<'a>
    ensures { result ≡ spec.freed (reverse rounds.now) w.now }
{
    Word {
        kind: w.kind,
        bytes: w.bytes,
        white: w.white,
        free: if is_sign_of(b':', w.kind) {
            is_in_round(rounds)
        } else {
            w.free
        },
    }
}

/// Words of the head of a block: white space beside a `:` directly in `(` says nothing.
pub(crate) fn head_words<'a>(alloc: Global, words: &[Word<'a>]) -> Result<Vec<Word<'a>>, AllocError>
    ensures { IfOk result (λ found. found.items ≡ spec.head_words [] words.now) }
{
    let mut found = Vec::new(alloc);
    let mut rounds = Vec::new(alloc);
    let mut rest = words;
    'words: while let [w, others @ ..] = rest {
        found.push(freed(&rounds, w))?;
        pass(&mut rounds, w.kind)?;
        rest = others;
    }
    Ok(found)
}
