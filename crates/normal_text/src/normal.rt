//! Normal texts.

ghost use Rattle.std.specs.Prelude.{◌≡◌, ◌++◌, ◌∷◌, [], IfOk, OnOk};
ghost use Rattle.std.specs.List.{list_any};
ghost use Rattle.css_model.specs.Sheets.Declarations as declarations;
ghost use Rattle.css_model.specs.Text.Lexemes as lexemes;
ghost use Rattle.css_model.specs.Text.Names.{decoded};
ghost use Rattle.normal_text.specs.Normal as spec;
ghost use Rattle.normal_text.specs.Words as words;

use crate::words::{Word, head_words, is_sign_of, words_of};
use css_model::{Bytes, Decl, MAX_BYTES, Piece, TokenKind};
use css_tokens::decode;
use std::alloc::{AllocError, Global};

/// The end of a token in a normal text.
const TOKEN_END: u8 = 0xFF;

/// Whether a token is a slash.
fn is_slash(kind: TokenKind) -> bool
    ensures { result ≡ lexemes.is_delim_of 47 kind }
{
    match kind {
        TokenKind::Delim(c) => c == 0x2F,
        _ => false,
    }
}

/// Whether white space before and after a token says nothing.
fn frees_both(kind: TokenKind) -> bool
    ensures { result ≡ spec.frees_both kind }
{
    is_sign_of(b',', kind)
        || is_sign_of(b';', kind)
        || is_sign_of(b'{', kind)
        || is_sign_of(b'}', kind)
        || is_slash(kind)
}

/// Whether a token is a function.
fn is_function(kind: TokenKind) -> bool
    ensures { result ≡ spec.is_function kind }
{
    matches!(kind, TokenKind::Function)
}

/// Whether white space after a word says nothing.
fn frees_after(w: &Word<'_>) -> bool
    ensures { result ≡ spec.frees_after w.now }
{
    w.free || frees_both(w.kind) || is_sign_of(b'(', w.kind) || is_function(w.kind)
}

/// Whether white space before a word says nothing.
fn frees_before(w: &Word<'_>) -> bool
    ensures { result ≡ spec.frees_before w.now }
{
    w.free || frees_both(w.kind) || is_sign_of(b')', w.kind)
}

/// Whether there is white space between a word and these that counts.
fn counts_between(w: &Word<'_>, others: &[Word<'_>]) -> bool
    ensures { result ≡ spec.counts_between w.now others.now }
{
    match others {
        [] => w.white && !frees_after(w),
        [next, ..] => w.white && !(frees_after(w) || frees_before(next)),
    }
}

/// Appends a token, and its end.
fn put_token(out: &mut Vec<u8>, bytes: &[u8]) -> Result<(), AllocError>
    ensures { OnOk result (out.new.items ≡ out.old.items ++ bytes.now ++ spec.token_end ∷ []) }
{
    out.extend_from_slice(bytes)?;
    out.push(TOKEN_END)?;
    Ok(())
}

/// The normal text of words.
fn spelled(alloc: Global, words: &[Word<'_>]) -> Result<Vec<u8>, AllocError>
    ensures { IfOk result (λ out. out.items ≡ spec.spelled words.now) }
{
    let mut out = Vec::new(alloc);
    let mut rest = words;
    'words: while let [w, others @ ..] = rest {
        put_token(&mut out, w.bytes)?;
        if counts_between(w, others) {
            put_token(&mut out, b" ")?;
        }
        rest = others;
    }
    Ok(out)
}

/// Whether a text is longer than a sheet may be.
fn is_long(text: &[u8]) -> bool
    ensures { result ≡ spec.is_long text.now }
{
    !(text.len() <= MAX_BYTES as usize)
}

/// The normal text of a value.
fn normal(alloc: Global, text: &[u8]) -> Result<Vec<u8>, AllocError>
    ensures { IfOk result (λ out. out.items ≡ spec.normal text.now) }
{
    if is_long(text) {
        return text.to_vec(alloc);
    }
    let words = words_of(alloc, text)?;
    spelled(alloc, &words)
}

/// Whether a name is that of a custom property.
fn is_custom(name: &[char]) -> bool
    ensures { result ≡ declarations.is_custom name.now }
{
    matches!(name, ['-', '-', ..])
}

/// Whether a word is the name of a custom property, or begins as one.
fn is_custom_word(alloc: Global, w: &Word<'_>) -> Result<bool, AllocError>
    ensures { IfOk result (λ found. found ≡ spec.is_custom_word w.now) }
{
    if !matches!(w.kind, TokenKind::Ident) {
        return Ok(false);
    }
    let name = Piece {
        start: 0,
        end: w.bytes.len() as u32,
    };
    let name = decode(alloc, w.bytes, &name)?;
    Ok(is_custom(name.codes()))
}

/// Whether one of some words is the name of a custom property, or begins as one.
fn has_custom_word(alloc: Global, words: &[Word<'_>]) -> Result<bool, AllocError>
    ensures { IfOk result (λ found. found ≡ list_any spec.is_custom_word words.now) }
{
    let mut rest = words;
    'words: while let [w, others @ ..] = rest {
        if is_custom_word(alloc, w)? {
            return Ok(true);
        }
        rest = others;
    }
    Ok(false)
}

/// The normal text of the head of an opened block, by the kept text of the head: its tokens without comments, each with
/// a byte FF after it, and a space where white space counts. White space says nothing after `(` and a function, before
/// `)`, on either side of `,`, `/`, `{`, `}` and `;`, and on either side of a `:` directly in `(`. A text of more than
/// 1,048,576 bytes is its own. `AllocError` where memory is short.
pub fn normal_head(alloc: Global, text: &[u8]) -> Result<Bytes, AllocError>
    ensures { IfOk result (λ out. out ≡ spec.normal_head text.now) }
{
    if is_long(text) {
        return Ok(Bytes::new(text.to_vec(alloc)?));
    }
    let words = words_of(alloc, text)?;
    let words = head_words(alloc, &words)?;
    Ok(Bytes::new(spelled(alloc, &words)?))
}

/// The normal text of a kept text: its tokens without comments, each with a byte FF after it, and a space where white
/// space counts. White space says nothing after `(` and a function, before `)`, and on either side of `,`, `/`, `{`, `}`
/// and `;`. A text with an ident that begins with `--` is its own, and so is one of more than 1,048,576 bytes.
/// `AllocError` where memory is short.
pub fn normal_kept(alloc: Global, text: &[u8]) -> Result<Bytes, AllocError>
    ensures { IfOk result (λ out. out ≡ spec.normal_kept text.now) }
{
    if is_long(text) {
        return Ok(Bytes::new(text.to_vec(alloc)?));
    }
    let words = words_of(alloc, text)?;
    if has_custom_word(alloc, &words)? {
        return Ok(Bytes::new(text.to_vec(alloc)?));
    }
    Ok(Bytes::new(spelled(alloc, &words)?))
}

/// The normal text of the value of a declaration, as `normal_kept` makes it of a text without such an ident. The value
/// of a custom property is its own. `AllocError` where memory is short.
pub fn normal_value(alloc: Global, decl: &Decl) -> Result<Bytes, AllocError>
    ensures { IfOk result (λ out. out ≡ spec.normal_value decl.now) }
{
    if is_custom(decl.name.codes()) {
        return decl.value.copy();
    }
    Ok(Bytes::new(normal(alloc, decl.value.bytes())?))
}
