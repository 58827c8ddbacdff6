//! The arguments of `:nth-child()` and `:nth-last-child()` (Selectors 3, section 6.6.5).

ghost use Rattle.std.specs.Prelude.{◌≡◌, ◌<◌, ◌≤◌, ◌++◌, IfOk, OnOk, length, nat_lt};
ghost use Rattle.std.specs.List.{flat_map, list_any, position_or_len};
ghost use Rattle.css_model.specs.Selectors.Arguments as spec;
ghost use Rattle.sel_parse.specs.Answers.{Reads};

use crate::error::Refusal;
use crate::tokens::{SelectorToken, is_delim_of, is_function, is_gapless, is_sign_of};
use css_model::{AnB, Gap, Reason};
use nth_positions::{AnbFault, read_anb};
use std::alloc::{AllocError, Global};

/// Whether this is one of the two functions.
pub(crate) fn is_position_function(token: &SelectorToken) -> bool
    ensures { result ≡ spec.is_position_function token.now }
{
    is_function(token.kind()) && (token.is_word(b"nth-child") || token.is_word(b"nth-last-child"))
}

fn closes_round(token: &SelectorToken) -> bool
    ensures { result ≡ spec.closes_round token.now }
{
    is_sign_of(b')', token.kind())
}

fn is_bar(token: &SelectorToken) -> bool
    ensures { result ≡ spec.is_bar token.now }
{
    is_delim_of(u32::from(b'|'), token.kind())
}

/// How many tokens come before the first `)`, or all where there is none.
pub(crate) fn close_at(tokens: &[SelectorToken]) -> usize
    ensures at { result ≡ position_or_len spec.closes_round tokens.now }
    ensures within { result ≤ length tokens.now }
    ensures any { nat_lt result (length tokens.now) ≡ list_any spec.closes_round tokens.now }
{
    let mut at = 0;
    let mut rest = tokens;
    'tokens: while let [token, behind @ ..] = rest {
        if closes_round(token) {
            return at;
        }
        at += 1;
        rest = behind;
    }
    at
}

/// How many tokens come before the first `|`, or all where there is none.
fn bar_at(tokens: &[SelectorToken]) -> usize
    ensures at { result ≡ position_or_len spec.is_bar tokens.now }
    ensures within { result ≤ length tokens.now }
    ensures any { nat_lt result (length tokens.now) ≡ list_any spec.is_bar tokens.now }
{
    let mut at = 0;
    let mut rest = tokens;
    'tokens: while let [token, behind @ ..] = rest {
        if is_bar(token) {
            return at;
        }
        at += 1;
        rest = behind;
    }
    at
}

/// What an argument has in the place of a gap between two of its tokens.
fn blank(gap: Gap) -> &'static [u8]
    ensures { result.now ≡ spec.blank gap }
{
    match gap {
        Gap::Nothing => b"",
        _ => b" ",
    }
}

/// Appends a token of an argument and what replaces the gap after it.
fn push_token(text: &mut Vec<u8>, token: &SelectorToken) -> Result<(), AllocError>
    ensures { OnOk result (text.new.items ≡ text.old.items ++ (token.now.bytes ++ spec.blank token.now.gap)) }
{
    text.extend_from_slice(token.plain_bytes())?;
    text.extend_from_slice(blank(token.gap()))?;
    Ok(())
}

/// The text of an argument after such a gap.
fn argument_text(alloc: Global, gap: Gap, tokens: &[SelectorToken]) -> Result<Vec<u8>, AllocError>
    ensures { IfOk result (λ text. text.items ≡ spec.argument_text gap tokens.now) }
{
    let mut text = Vec::from_slice(alloc, blank(gap))?;
    'tokens: for token in tokens {
        push_token(&mut text, token)?;
    }
    Ok(text)
}

fn is_notation(text: &[u8]) -> bool
    ensures { result ≡ spec.is_notation text.now }
{
    match read_anb(text) {
        Err(AnbFault::NotAnB) => false,
        _ => true,
    }
}

/// Whether these are a `+` alone, directly before another token.
fn is_lone_plus(tokens: &[SelectorToken]) -> bool
    ensures { result ≡ spec.is_lone_plus tokens.now }
{
    match tokens {
        [token] => is_delim_of(u32::from(b'+'), token.kind()) && is_gapless(token.gap()),
        _ => false,
    }
}

/// Whether some argument begins with these tokens.
fn may_go_on(alloc: Global, gap: Gap, tokens: &[SelectorToken]) -> Result<bool, AllocError>
    ensures { IfOk result (λ b. b ≡ spec.may_go_on gap tokens.now) }
{
    let mut text = argument_text(alloc, gap, tokens)?;
    if is_notation(text.as_slice()) || is_lone_plus(tokens) {
        return Ok(true);
    }
    text.extend_from_slice(b" 5")?;
    Ok(is_notation(text.as_slice()))
}

/// The reason against tokens that are no argument, or not a closed one.
fn against_argument(alloc: Global, gap: Gap, tokens: &[SelectorToken]) -> Result<Reason, AllocError>
    ensures { IfOk result (λ r. r ≡ spec.against_argument gap tokens.now) }
{
    let bar = bar_at(tokens);
    if bar < tokens.len() && may_go_on(alloc, gap, &tokens[..bar])? {
        Ok(Reason::Namespace)
    } else {
        Ok(Reason::NotAllowed)
    }
}

/// The argument of a function before this gap and these tokens, up to the first `)`.
pub(crate) fn argument(alloc: Global, gap: Gap, tokens: &[SelectorToken]) -> Result<AnB, Refusal>
    ensures { Reads result (spec.argument_of gap tokens.now) }
{
    let close = close_at(tokens);
    let inside = &tokens[..close];
    if close == tokens.len() {
        return Err(Refusal::Outside(against_argument(alloc, gap, inside)?));
    }
    let text = argument_text(alloc, gap, inside)?;
    match read_anb(text.as_slice()) {
        Ok(x) => Ok(x),
        Err(AnbFault::OutOfRange) => Err(Refusal::Outside(Reason::PositionOutOfRange)),
        Err(AnbFault::NotAnB) => Err(Refusal::Outside(against_argument(alloc, gap, inside)?)),
    }
}
