//! What the grammar of selectors takes from a token (Selectors 3, section 10.2).

ghost use Rattle.std.specs.Prelude.{◌≡◌, ◌==◌, ◌-◌, ◌<◌, ◌≤◌, ◌^◌, codes, drop, take, length, IfOk};
ghost use Rattle.std.specs.List.{list_any};
ghost use Rattle.std.specs.Str.{IsAscii};
ghost use Rattle.css_model.specs.Lists.{begins_with};
ghost use Rattle.css_model.specs.Text.Characters.{backslash};
ghost use Rattle.css_model.specs.Lists.{same_text};
ghost use Rattle.css_model.specs.Text.Lexemes as lexemes;
ghost use Rattle.css_model.specs.Selectors.Tokens as spec;
ghost use Rattle.css_model.specs.Text.Names.{code_points, decoded};
ghost use Rattle.sel_parse.specs.Forms as forms;

use css_model::{Gap, Piece, Text, TokenKind};
use css_tokens::{decode, is_named};
use std::alloc::{AllocError, Global};
use std::marker::Model;

/// What a token is, without the byte or code point of a sign.
#[derive(Clone, Copy, Debug, PartialEq, Eq)]
enum Form {
    White,
    Str,
    IdHash,
    Hash,
    Number,
    Percentage,
    Dimension,
    CommentOpen,
    CommentClose,
    AtKeyword,
    Ident,
    Function,
    Url,
    Sign,
    Delim,
}

/// A token of a selector text that is no white space: a slice of its source.
// In this order, and with its kind in three parts, it takes 24 bytes and not 32.
#[derive(Debug, Drop)]
pub(crate) struct SelectorToken<'a> {
    bytes: &'a [u8],
    code: u32,
    sign: u8,
    form: Form,
    gap: Gap,
}

impl<'a> Model for SelectorToken<'a> {
    ghost use Rattle.std.specs.Prelude.{◌<◌, ◌^◌, length};
    ghost use Rattle.css_model.specs.Selectors.Tokens as tokens;
    ghost use Rattle.sel_parse.specs.Forms.{kind_of};

    ghost Value = { tokens.SelectorToken };

    ghost view = { λ t. tokens.selector_token (record { kind = kind_of t.form t.sign t.code; bytes = t.bytes.now; gap = t.gap }) };

    ghost invariant = { λ t. length t.bytes.now < 2 ^ 32 };
}

/// The form of a kind.
fn form_of(kind: TokenKind) -> Form
    ensures { result ≡ forms.form_of kind }
{
    match kind {
        TokenKind::White => Form::White,
        TokenKind::Str => Form::Str,
        TokenKind::IdHash => Form::IdHash,
        TokenKind::Hash => Form::Hash,
        TokenKind::Number => Form::Number,
        TokenKind::Percentage => Form::Percentage,
        TokenKind::Dimension => Form::Dimension,
        TokenKind::CommentOpen => Form::CommentOpen,
        TokenKind::CommentClose => Form::CommentClose,
        TokenKind::AtKeyword => Form::AtKeyword,
        TokenKind::Ident => Form::Ident,
        TokenKind::Function => Form::Function,
        TokenKind::Url => Form::Url,
        TokenKind::Sign(_) => Form::Sign,
        TokenKind::Delim(_) => Form::Delim,
    }
}

/// The byte of a sign, and 0 of any other kind.
fn sign_of(kind: TokenKind) -> u8
    ensures { result ≡ forms.sign_of kind }
{
    match kind {
        TokenKind::Sign(byte) => byte,
        _ => 0,
    }
}

/// The code point of one by itself, and 0 of any other kind.
fn code_of(kind: TokenKind) -> u32
    ensures { result ≡ forms.code_of kind }
{
    match kind {
        TokenKind::Delim(code) => code,
        _ => 0,
    }
}

/// The kind of a form with this byte and code point.
fn kind_of(form: Form, sign: u8, code: u32) -> TokenKind
    ensures { result ≡ forms.kind_of form sign code }
{
    match form {
        Form::White => TokenKind::White,
        Form::Str => TokenKind::Str,
        Form::IdHash => TokenKind::IdHash,
        Form::Hash => TokenKind::Hash,
        Form::Number => TokenKind::Number,
        Form::Percentage => TokenKind::Percentage,
        Form::Dimension => TokenKind::Dimension,
        Form::CommentOpen => TokenKind::CommentOpen,
        Form::CommentClose => TokenKind::CommentClose,
        Form::AtKeyword => TokenKind::AtKeyword,
        Form::Ident => TokenKind::Ident,
        Form::Function => TokenKind::Function,
        Form::Url => TokenKind::Url,
        Form::Sign => TokenKind::Sign(sign),
        Form::Delim => TokenKind::Delim(code),
    }
}

impl<'a> SelectorToken<'a> {
    /// A token of this kind with these bytes, before such a gap.
    #[tactic(auto, using(crate::proofs::FormLemmas::kind_again))]
    pub(crate) fn new(kind: TokenKind, bytes: &'a [u8], gap: Gap) -> SelectorToken<'a>
        requires { length bytes.now < 2 ^ 32 }
        ensures { result ≡ spec.selector_token (record { kind = kind; bytes = bytes.now; gap = gap }) }
    {
        let code = code_of(kind);
        let sign = sign_of(kind);
        let form = form_of(kind);
        SelectorToken {
            bytes,
            code,
            sign,
            form,
            gap,
        }
    }

    /// What it is.
    pub(crate) fn kind(&self) -> TokenKind
        ensures { result ≡ self.now.kind }
    {
        kind_of(self.form, self.sign, self.code)
    }

    /// What is between it and the next one.
    pub(crate) fn gap(&self) -> Gap
        ensures { result ≡ self.now.gap }
    {
        self.gap
    }

    /// Its bytes, or a backslash where it has an escape.
    pub(crate) fn plain_bytes(&self) -> &'a [u8]
        ensures { result.now ≡ self.now.bytes }
    {
        if has_backslash(self.bytes) {
            b"\\"
        } else {
            self.bytes
        }
    }

    /// Whether its name is this word of ASCII without ASCII case.
    pub(crate) fn is_word(&self, word: &[u8]) -> bool
        requires { IsAscii word.now }
        ensures { result ≡ spec.is_word word.now self.now.name }
    {
        is_named(name_in(self.kind(), self.bytes), word)
    }

    /// The code points of its name, or of what its string says.
    pub(crate) fn text(&self, alloc: Global) -> Result<Text, AllocError>
        ensures { IfOk result (λ t. t ≡ code_points self.now.name) }
    {
        decode_whole(alloc, name_in(self.kind(), self.bytes))
    }

    /// Whether it is spelled with `--` at its start.
    pub(crate) fn is_dashed(&self) -> bool
        ensures { result ≡ self.now.dashed }
    {
        begins_with_dashes(self.bytes)
    }

    /// Whether it is spelled `--`.
    pub(crate) fn is_only_dashes(&self) -> bool
        ensures { result ≡ self.now.only_dashes }
    {
        is_two_dashes(self.bytes)
    }
}

/// The name in the bytes of a token, or what is inside its quotes.
fn name_in(kind: TokenKind, bytes: &[u8]) -> &[u8]
    ensures name { result.now ≡ spec.name_in kind bytes.now }
    ensures within { length result.now ≤ length bytes.now }
{
    match kind {
        TokenKind::Ident => bytes,
        TokenKind::Function => without_last(bytes),
        TokenKind::IdHash => without_first(bytes),
        TokenKind::Str => without_quotes(bytes),
        _ => &[],
    }
}

fn without_first(bytes: &[u8]) -> &[u8]
    ensures rest { result.now ≡ drop 1 bytes.now }
    ensures within { length result.now ≤ length bytes.now }
{
    match bytes {
        [] => bytes,
        [_, rest @ ..] => rest,
    }
}

fn without_last(bytes: &[u8]) -> &[u8]
    ensures rest { result.now ≡ take (length bytes.now - 1) bytes.now }
    ensures within { length result.now ≤ length bytes.now }
{
    match bytes {
        [] => bytes,
        [front @ .., _] => front,
    }
}

fn without_quotes(bytes: &[u8]) -> &[u8]
    ensures rest { result.now ≡ take (length bytes.now - 2) (drop 1 bytes.now) }
    ensures within { length result.now ≤ length bytes.now }
{
    without_last(without_first(bytes))
}

fn has_backslash(bytes: &[u8]) -> bool
    ensures { result ≡ list_any (λ c. c == backslash) bytes.now }
{
    bytes.iter().any(|c| *c == b'\\')
}

fn begins_with_dashes(bytes: &[u8]) -> bool
    ensures { result ≡ begins_with bytes.now (codes "--") }
{
    matches!(bytes, [b'-', b'-', ..])
}

fn is_two_dashes(bytes: &[u8]) -> bool
    ensures { result ≡ same_text bytes.now (codes "--") }
{
    matches!(bytes, [b'-', b'-'])
}

/// The code points of a name or of the inside of a string.
fn decode_whole(alloc: Global, bytes: &[u8]) -> Result<Text, AllocError>
    requires { length bytes.now < 2 ^ 32 }
    ensures { IfOk result (λ t. t ≡ decoded bytes.now) }
{
    let whole = Piece {
        start: 0,
        end: bytes.len() as u32,
    };
    decode(alloc, bytes, &whole)
}

pub(crate) fn is_ident(kind: TokenKind) -> bool
    ensures { result ≡ lexemes.is_ident kind }
{
    matches!(kind, TokenKind::Ident)
}

pub(crate) fn is_function(kind: TokenKind) -> bool
    ensures { result ≡ spec.is_function kind }
{
    matches!(kind, TokenKind::Function)
}

pub(crate) fn is_id_hash(kind: TokenKind) -> bool
    ensures { result ≡ spec.is_id_hash kind }
{
    matches!(kind, TokenKind::IdHash)
}

pub(crate) fn is_string(kind: TokenKind) -> bool
    ensures { result ≡ spec.is_string kind }
{
    matches!(kind, TokenKind::Str)
}

pub(crate) fn is_gapless(gap: Gap) -> bool
    ensures { result ≡ spec.is_gapless gap }
{
    matches!(gap, Gap::Nothing)
}

pub(crate) fn is_delim_of(code: u32, kind: TokenKind) -> bool
    ensures { result ≡ lexemes.is_delim_of code kind }
{
    match kind {
        TokenKind::Delim(c) => c == code,
        _ => false,
    }
}

pub(crate) fn is_sign_of(byte: u8, kind: TokenKind) -> bool
    ensures { result ≡ lexemes.is_sign_of byte kind }
{
    match kind {
        TokenKind::Sign(b) => b == byte,
        _ => false,
    }
}
