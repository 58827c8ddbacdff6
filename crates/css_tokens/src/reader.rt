//! The tokens of a text, read one at a time.

ghost use Rattle.std.specs.Prelude.{◌≡◌, ◌≤◌, ◌<◌, ◌^◌, ◌↔◌, drop, length, IsOk, IfOk, IfErr};
ghost use Rattle.css_model.specs.Sheets.Limits.{max_bytes};
ghost use Rattle.css_model.specs.Text.Tokens as stream;

use crate::rules::part_at;
use css_model::{Piece, Token, TokenFault, TokenFlaw};
use simdutf8::compat::from_utf8;

/// U+FEFF in UTF-8.
const BYTE_ORDER_MARK: &[u8] = b"\xEF\xBB\xBF";

/// The tokens of a text, from a place on.
#[derive(Drop)]
pub struct Tokens<'a> {
    source: &'a [u8],
    at: usize,
    ghost in_range: { at ≤ length source.now },
    ghost short: { length source.now < 2 ^ 32 },
}

/// A text is not UTF-8.
#[derive(Clone, Copy, Debug, PartialEq, Eq, Hash)]
pub struct NotUtf8 {
    /// The first byte that is no part of a whole valid sequence.
    pub at: u32,
}

fn fault_at(at: usize, flaw: TokenFlaw) -> TokenFault
    requires { at < 2 ^ 32 }
    ensures { result ≡ stream.fault_at at flaw }
{
    let at = at as u32;
    match flaw {
        TokenFlaw::BadString => TokenFault::BadString { at },
        TokenFlaw::BadUrl => TokenFault::BadUrl { at },
        TokenFlaw::EndInside => TokenFault::EndInside { at },
    }
}

impl<'a> Tokens<'a> {
    ghost use Rattle.std.specs.Str.{IsUtf8};
    ghost use Rattle.std.specs.Str.Lossy.{utf8_valid_len};
    ghost use Rattle.css_model.specs.Text.Tokens.{Gives, tokens};
    ghost use Rattle.css_tokens.specs.Left.{left};

    /// The tokens of a source of at most 1,048,576 bytes. A byte order mark at the start of a whole sheet is skipped;
    /// anywhere else it is an ident code point. `NotUtf8` exactly where the source is not UTF-8.
    pub fn new(source: &'a [u8], sheet: bool) -> Result<Tokens<'a>, NotUtf8>
        requires { length source.now ≤ max_bytes }
        ensures utf8 { IsOk result ↔ IsUtf8 source.now }
        ensures all { IfOk result (λ t. left t ≡ tokens source.now sheet) }
        ensures at { IfErr result (λ e. e.at ≡ utf8_valid_len source.now) }
    {
        match from_utf8(source) {
            Ok(_) => {
                let at = if sheet && source.starts_with(BYTE_ORDER_MARK) {
                    3
                } else {
                    0
                };
                Ok(Tokens { source, at })
            }
            Err(error) => Err(NotUtf8 {
                at: error.valid_up_to() as u32,
            }),
        }
    }

    /// The tokens of a source from a place on, in bytes from 0. A byte order mark there is an ident code point.
    pub fn from_place(source: &'a [u8], at: usize) -> Tokens<'a>
        requires length { length source.now ≤ max_bytes }
        requires at { at ≤ length source.now }
        ensures { left result ≡ stream.stream at (drop at source.now) }
    {
        Tokens { source, at }
    }

    /// The next token (CSS Syntax 3, section 4); `None` exactly at the end. A fault comes exactly where no token can be
    /// read, with its place in bytes from 0:
    ///
    /// | fault | when | place |
    /// |---|---|---|
    /// | `BadString` | a newline is inside a string, without a backslash before it | the quote |
    /// | `BadUrl` | a url has a code point that it may not hold | its name |
    /// | `EndInside` | the text ends inside a comment, a string, a url or an escape | the comment or the token |
    ///
    /// After a fault the same fault is answered again.
    pub fn next(&mut self) -> Result<Option<Token>, TokenFault>
        ensures { Gives (left self.old) result (left self.new) }
    {
        let source = self.source;
        let mut at = self.at;
        let mut comment_before = false;
        'comments: while at < source.len() {
            match part_at(&source[at..]) {
                Err(flaw) => return Err(fault_at(at, flaw)),
                Ok((None, len)) => {
                    at += len;
                    comment_before = true;
                }
                Ok((Some(kind), len)) => {
                    let span = Piece {
                        start: at as u32,
                        end: (at + len) as u32,
                    };
                    self.at = at + len;
                    return Ok(Some(Token {
                        kind,
                        span,
                        comment_before,
                    }));
                }
            }
        }
        Ok(None)
    }
}
