//! Selectors from the bytes of their texts.

ghost use Rattle.std.specs.Prelude.{◌≡◌, ◌≤◌, ◌++◌, [], ◌∷◌, false, is_some, length, map, IfOk, IfSome, OnOk};
ghost use Rattle.css_model.specs.Text.Lexemes.{gap_of, is_white_kind};
ghost use Rattle.std.specs.List.{AllByRecursion};
ghost use Rattle.css_model.specs.Selectors.Reading.{selector_of, selector_of_lexemes};
ghost use Rattle.css_model.specs.Selectors.Tokens.{selector_token};
ghost use Rattle.css_model.specs.Text.Kept.{solid};
ghost use Rattle.css_model.specs.Text.Source.{IsWithin};
ghost use Rattle.css_model.specs.Text.Tokens.{tokens};
ghost use Rattle.css_model.specs.Sheets.Limits.{max_bytes};
ghost use Rattle.css_tokens.specs.Laws.{StandsIn};
ghost use Rattle.sel_parse.specs.Answers.{Answers};
ghost use Rattle.sel_parse.specs.Tokens as spec;

use crate::error::{Refusal, SelError};
use crate::reading::read;
use crate::tokens::SelectorToken;
use css_model::{Gap, Lexeme, Reason, Selector, Token, TokenKind};
use css_tokens::{Tokens, tokens_restart};
use std::alloc::{AllocError, Global};

/// The tokens of a text that are no white space, up to its end or to a fault.
#[derive(Drop)]
struct SelectorTokens<'a> {
    tokens: Vec<SelectorToken<'a>>,
    ends_in_fault: bool,
}

fn is_white(kind: TokenKind) -> bool
    ensures { result ≡ is_white_kind kind }
{
    match kind {
        TokenKind::White => true,
        _ => false,
    }
}

/// What is before this token.
fn gap_before(token: Token) -> Gap
    ensures { result ≡ gap_of (token ∷ []) }
{
    if is_white(token.kind) {
        Gap::White
    } else if token.comment_before {
        Gap::Comments
    } else {
        Gap::Nothing
    }
}

/// A token, if it is no white space.
fn unless_white(token: Token) -> Option<Token>
    ensures { result ≡ spec.unless_white token }
{
    if is_white(token.kind) {
        None
    } else {
        Some(token)
    }
}

/// A token of a text, before such a gap.
fn token_before<'a>(text: &'a [u8], token: Token, gap: Gap) -> SelectorToken<'a>
    requires stands { StandsIn text.now token }
    requires short { length text.now ≤ max_bytes }
    ensures { result ≡ spec.token_before text.now token gap }
{
    SelectorToken::new(token.kind, token.span.text(text), gap)
}

/// The last token that is no white space, if there is one, before such a gap.
fn push_last<'a>(
    tokens: &mut Vec<SelectorToken<'a>>,
    text: &'a [u8],
    last: Option<Token>,
    gap: Gap,
) -> Result<(), AllocError>
    requires stands { IfSome last (StandsIn text.now) }
    requires short { length text.now ≤ max_bytes }
    ensures { OnOk result (tokens.new.items ≡ tokens.old.items ++ spec.last_before text.now last gap) }
{
    if let Some(token) = last {
        tokens.push(token_before(text, token, gap))?;
    }
    Ok(())
}

fn tokens_of<'a>(alloc: Global, text: &'a [u8]) -> Result<SelectorTokens<'a>, AllocError>
    requires { length text.now ≤ max_bytes }
    ensures tokens { IfOk result (λ r. r.tokens.items ≡ spec.tokens_of text.now (tokens text.now false).tokens) }
    ensures fault { IfOk result (λ r. r.ends_in_fault ≡ is_some (tokens text.now false).fault) }
{
    // A law that the places of the tokens need; it does nothing.
    tokens_restart();
    let mut reader = Tokens::from_place(text, 0);
    let mut tokens = Vec::new(alloc);
    let mut last = None;
    'tokens: loop {
        match reader.next() {
            Ok(Some(token)) => {
                push_last(&mut tokens, text, last, gap_before(token))?;
                last = unless_white(token);
            }
            Ok(None) => {
                push_last(&mut tokens, text, last, Gap::Nothing)?;
                let ends_in_fault = false;
                return Ok(SelectorTokens {
                    tokens,
                    ends_in_fault,
                });
            }
            Err(_) => {
                push_last(&mut tokens, text, last, Gap::Nothing)?;
                let ends_in_fault = true;
                return Ok(SelectorTokens {
                    tokens,
                    ends_in_fault,
                });
            }
        }
    }
}

/// The selector of a text of at most 1,048,576 bytes (Selectors 3, section 10). White space and comments at both ends
/// do not count.
///
/// | error | when |
/// |---|---|
/// | `Outside` | exactly where the text is outside the profile |
/// | `NoMemory` | memory is short |
///
/// The number of `Outside` is that of the reason that comes first from left to right; of those at one token, the least.
pub fn parse_selector(alloc: Global, text: &[u8]) -> Result<Selector, SelError>
    requires { length text.now ≤ max_bytes }
    ensures { Answers result (selector_of text.now) }
{
    let stream = match tokens_of(alloc, text) {
        Ok(stream) => stream,
        Err(_) => return Err(SelError::NoMemory),
    };
    match read(alloc, stream.tokens.as_slice()) {
        Ok(selector) => {
            if stream.ends_in_fault {
                Err(SelError::Outside(Reason::NotAllowed.number()))
            } else {
                Ok(selector)
            }
        }
        Err(Refusal::Outside(reason)) => Err(SelError::Outside(reason.number())),
        Err(Refusal::NoMemory) => Err(SelError::NoMemory),
    }
}

/// A token of a source by its place.
fn token_of<'a>(source: &'a [u8], x: &Lexeme) -> SelectorToken<'a>
    requires within { IsWithin source.now x.now.span }
    requires short { length source.now ≤ max_bytes }
    ensures { result ≡ selector_token (solid source.now x.now) }
{
    SelectorToken::new(x.kind, x.span.text(source), x.gap)
}

fn tokens_of_part<'a>(
    alloc: Global,
    source: &'a [u8],
    part: &[Lexeme],
) -> Result<Vec<SelectorToken<'a>>, AllocError>
    requires within { AllByRecursion (λ x. IsWithin source.now x.span) part.now }
    requires short { length source.now ≤ max_bytes }
    ensures { IfOk result (λ v. v.items ≡ map selector_token (map (solid source.now) part.now)) }
{
    let mut tokens = Vec::with_capacity(alloc, part.len())?;
    let mut rest = part;
    'tokens: while let [x, behind @ ..] = rest {
        tokens.push(token_of(source, x))?;
        rest = behind;
    }
    Ok(tokens)
}

/// The selector of a part of a prelude (Selectors 3, section 10). The part is the tokens that are no white space; they
/// lie in a source of at most 1,048,576 bytes.
///
/// | error | when |
/// |---|---|
/// | `Outside` | exactly where the part is outside the profile |
/// | `NoMemory` | memory is short |
///
/// The number of `Outside` is that of the reason that comes first from left to right; of those at one token, the least.
pub fn read_selector(alloc: Global, source: &[u8], part: &[Lexeme]) -> Result<Selector, SelError>
    requires within { AllByRecursion (λ x. IsWithin source.now x.span) part.now }
    requires short { length source.now ≤ max_bytes }
    ensures { Answers result (selector_of_lexemes source.now part.now) }
{
    let tokens = match tokens_of_part(alloc, source, part) {
        Ok(tokens) => tokens,
        Err(_) => return Err(SelError::NoMemory),
    };
    match read(alloc, tokens.as_slice()) {
        Ok(selector) => Ok(selector),
        Err(Refusal::Outside(reason)) => Err(SelError::Outside(reason.number())),
        Err(Refusal::NoMemory) => Err(SelError::NoMemory),
    }
}
