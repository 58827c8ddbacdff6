//! The tokens of a piece of a source that are no white space.

ghost use Rattle.std.specs.Prelude.{◌≡◌, ◌<◌, ◌≤◌, ◌^◌, ◌∷◌, [], length, true, MatchOption};
ghost use Rattle.css_model.specs.Sheets.Limits.{max_bytes};
ghost use Rattle.css_tokens.specs.Left as reader;
ghost use Rattle.css_print.specs.Words.{cut, front, is_ahead, kind_of_first, past_white};

use css_model::{Gap, Piece, Token, TokenKind};
use css_tokens::{Tokens, tokens_restart};
use verbatim_text::{gap_before, is_white};

/// A token: what it is, its text, and what comes after it.
#[derive(Clone, Copy, Debug)]
pub(crate) struct Word<'a> {
    /// What it is.
    pub(crate) kind: TokenKind,
    /// Its text.
    pub(crate) text: &'a [u8],
    /// What is between it and the next one.
    pub(crate) gap: Gap,
}

/// The tokens of a piece that are no white space, one at a time.
#[derive(Drop)]
pub(crate) struct Walk<'a> {
    source: &'a [u8],
    tokens: Tokens<'a>,
    end: u32,
    ahead: Option<Token>,
}

/// The next token, if there is one before the end and before a fault.
fn read(tokens: &mut Tokens<'_>) -> Option<Token>
    ensures { front result (reader.left tokens.new).tokens ≡ (reader.left tokens.old).tokens }
{
    match tokens.next() {
        Ok(token) => token,
        Err(_) => None,
    }
}

/// A token, where it ends before a place or there.
fn up_to(end: u32, token: Option<Token>) -> Option<Token>
    ensures { result ≡ cut end token }
{
    match token {
        Some(token) => {
            if token.span.end <= end {
                Some(token)
            } else {
                None
            }
        }
        None => None,
    }
}

/// The first token up to a place that is no white space: this one, or one of the next.
fn read_solid(first: Option<Token>, tokens: &mut Tokens<'_>, end: u32) -> Option<Token>
    ensures same { front result (reader.left tokens.new).tokens ≡ past_white end (front first (reader.left tokens.old).tokens) }
    ensures ahead { is_ahead end result ≡ true }
{
    let mut ahead = up_to(end, first);
    'white: while let Some(token) = ahead {
        if !is_white(token.kind) {
            return ahead;
        }
        ahead = up_to(end, read(tokens));
    }
    None
}

impl<'a> Walk<'a> {
    ghost use Rattle.css_print.specs.Walking.{left, IsReady, Gives};
    ghost use Rattle.css_print.specs.Places.{solids_in};

    /// The tokens of a piece.
    pub(crate) fn new(source: &'a [u8], piece: Piece) -> Walk<'a>
        requires length { length source.now ≤ max_bytes }
        requires start { piece.start ≤ length source.now }
        ensures left { left result ≡ solids_in source.now piece }
        ensures ready { IsReady result }
    {
        tokens_restart();
        let mut tokens = Tokens::from_place(source, piece.start as usize);
        let first = read(&mut tokens);
        let ahead = read_solid(first, &mut tokens, piece.end);
        Walk {
            source,
            tokens,
            end: piece.end,
            ahead,
        }
    }

    /// The next token, or none after the last.
    pub(crate) fn next(&mut self) -> Option<Word<'a>>
        requires { IsReady self.old }
        ensures word { Gives (left self.old) result (left self.new) }
        ensures short { MatchOption result (left self.old ≡ []) (λ w. length w.text.now < 2 ^ 32) }
        ensures ready { IsReady self.new }
    {
        let token = self.ahead?;
        let next = read(&mut self.tokens);
        self.ahead = read_solid(next, &mut self.tokens, self.end);
        let text = token.span.text(self.source);
        Some(Word {
            kind: token.kind,
            text,
            gap: gap_before(next),
        })
    }

    /// What the next token is, if there is one.
    pub(crate) fn next_kind(&self) -> Option<TokenKind>
        requires { IsReady self.now }
        ensures { result ≡ kind_of_first (left self.now) }
    {
        let token = self.ahead?;
        Some(token.kind)
    }
}
