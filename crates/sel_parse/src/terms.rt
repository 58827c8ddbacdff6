//! The terms of a selector text: its tokens, but a function of a position is one term with its whole argument.

ghost use Rattle.std.specs.Prelude.{◌≡◌, ◌∷◌, ◌≤◌, ◌<◌, ◌+◌, ◌^◌, [], drop, length, IfOk, MatchOption};
ghost use Rattle.std.specs.Str.{IsAscii};
ghost use Rattle.css_model.specs.Selectors.Arguments.{closes_round};
ghost use Rattle.css_model.specs.Selectors.Terms as spec;
ghost use Rattle.css_model.specs.Selectors.Tokens.{is_word};
ghost use Rattle.css_model.specs.Text.Names.{code_points};
ghost use Rattle.css_model.specs.Lists.{less_one};
ghost use Rattle.sel_parse.specs.Answers.{Reads};

use crate::arguments::{argument, close_at, is_position_function};
use crate::error::Refusal;
use crate::tokens::{SelectorToken, is_delim_of, is_function, is_sign_of};
use css_model::{AnB, Combinator, Gap, Op, Reason, Text, TokenKind};
use std::alloc::{AllocError, Global};
use std::marker::Model;

/// A term: a token, with what counts of the gap after it and the tokens after it.
#[derive(Drop)]
pub(crate) struct Term<'a> {
    token: &'a SelectorToken<'a>,
    behind: &'a [SelectorToken<'a>],
    gap: Gap,
}

impl<'a> Model for Term<'a> {
    ghost use Rattle.css_model.specs.Selectors.Terms as terms;

    ghost Value = { terms.Term };

    ghost view = { λ t. record {
      kind = t.token.now.kind;
      name = t.token.now.name;
      dashed = t.token.now.dashed;
      only_dashes = t.token.now.only_dashes;
      gap = t.gap;
      argument = terms.argument_of_term t.token.now t.behind.now;
    } };
}

impl Term<'_> {
    /// What it is.
    pub(crate) fn kind(&self) -> TokenKind
        ensures { result ≡ self.now.kind }
    {
        self.token.kind()
    }

    /// What counts of the gap after it.
    pub(crate) fn gap(&self) -> Gap
        ensures { result ≡ self.now.gap }
    {
        self.gap
    }

    /// Whether its name is this word of ASCII without ASCII case.
    pub(crate) fn is_word(&self, word: &[u8]) -> bool
        requires { IsAscii word.now }
        ensures { result ≡ is_word word.now self.now.name }
    {
        self.token.is_word(word)
    }

    /// The code points of its name, or of what its string says.
    pub(crate) fn text(&self, alloc: Global) -> Result<Text, AllocError>
        ensures { IfOk result (λ t. t ≡ code_points self.now.name) }
    {
        self.token.text(alloc)
    }

    /// Whether it is spelled with `--` at its start.
    pub(crate) fn is_dashed(&self) -> bool
        ensures { result ≡ self.now.dashed }
    {
        self.token.is_dashed()
    }

    /// Whether it is spelled `--`.
    pub(crate) fn is_only_dashes(&self) -> bool
        ensures { result ≡ self.now.only_dashes }
    {
        self.token.is_only_dashes()
    }

    /// The argument of a function of a position.
    pub(crate) fn argument(&self, alloc: Global) -> Result<AnB, Refusal>
        ensures { Reads result self.now.argument }
    {
        if is_position_function(self.token) {
            argument(alloc, self.token.gap(), self.behind)
        } else {
            Err(Refusal::Outside(Reason::NotAllowed))
        }
    }
}

/// The terms of tokens, with so many brackets open before them.
#[derive(Drop)]
pub(crate) struct Terms<'a> {
    depth: usize,
    tokens: &'a [SelectorToken<'a>],
}

impl<'a> Model for Terms<'a> {
    ghost use Rattle.std.specs.Prelude.{List, ◌+◌, ◌<◌, ◌^◌, length};
    ghost use Rattle.css_model.specs.Selectors.Terms as terms;

    ghost Value = { List terms.Term };

    ghost view = { λ t. terms.terms_from t.depth 0 t.tokens.now };

    ghost invariant = { λ t. t.depth + length t.tokens.now < 2 ^ 64 };
}

impl<'a> Terms<'a> {
    /// The terms of tokens.
    pub(crate) fn new(tokens: &'a [SelectorToken<'a>]) -> Terms<'a>
        ensures { result ≡ spec.terms_from 0 0 tokens.now }
    {
        Terms { depth: 0, tokens }
    }

    /// The first term and those after it.
    pub(crate) fn split_first(&self) -> Option<(Term<'a>, Terms<'a>)>
        ensures { MatchOption result (self.now ≡ []) (λ p. self.now ≡ p.0 ∷ p.1) }
    {
        match self.tokens {
            [] => None,
            [token, behind @ ..] => {
                let (inside, rest) = behind.split_at(more_of_term(token, behind));
                let depth = depth_behind_term(self.depth, token);
                let gap = counted_gap(
                    depth,
                    token.kind(),
                    gap_of_term(token, behind),
                    first_kind(rest),
                );
                Some((
                    Term { token, behind, gap },
                    Terms {
                        depth,
                        tokens: rest,
                    },
                ))
            }
        }
    }

    /// What directly follows a gap: nothing does where the gap is white space.
    pub(crate) fn right_behind(&self, gap: Gap) -> Terms<'a>
        ensures { result ≡ spec.right_behind gap self.now }
    {
        match gap {
            Gap::White => Terms {
                depth: 0,
                tokens: &[],
            },
            _ => Terms {
                depth: self.depth,
                tokens: self.tokens,
            },
        }
    }

    /// What comes after so many terms.
    pub(crate) fn skip(&self, n: usize) -> Terms<'a>
        ensures { result ≡ drop n self.now }
    {
        let mut rest = Terms {
            depth: self.depth,
            tokens: self.tokens,
        };
        let mut left = n;
        'terms: while left > 0 {
            match rest.split_first() {
                None => return rest,
                Some((_, behind)) => rest = behind,
            }
            left -= 1;
        }
        rest
    }
}

/// The combinator of a sign.
pub(crate) fn combinator_of(kind: TokenKind) -> Option<Combinator>
    ensures { result ≡ spec.combinator_of kind }
{
    match kind {
        TokenKind::Delim(0x3E) => Some(Combinator::Child),
        TokenKind::Delim(0x2B) => Some(Combinator::Next),
        TokenKind::Delim(0x7E) => Some(Combinator::Later),
        _ => None,
    }
}

/// The test of an attribute whose operator is this sign and `=`.
pub(crate) fn op_of(kind: TokenKind) -> Option<Op>
    ensures { result ≡ spec.op_of kind }
{
    match kind {
        TokenKind::Delim(0x7E) => Some(Op::Word),
        TokenKind::Delim(0x7C) => Some(Op::Dash),
        TokenKind::Delim(0x5E) => Some(Op::Prefix),
        TokenKind::Delim(0x24) => Some(Op::Suffix),
        TokenKind::Delim(0x2A) => Some(Op::Part),
        _ => None,
    }
}

/// How many brackets are open after a term, with so many open before it.
fn depth_behind_term(depth: usize, token: &SelectorToken) -> usize
    requires { depth + 1 < 2 ^ 64 }
    ensures depth { result ≡ spec.depth_behind_term depth token.now }
    ensures small { result ≤ depth + 1 }
{
    if is_position_function(token) {
        depth
    } else if is_function(token.kind()) || is_sign_of(b'[', token.kind()) {
        depth + 1
    } else if is_sign_of(b']', token.kind()) || is_sign_of(b')', token.kind()) {
        depth.saturating_sub(1)
    } else {
        depth
    }
}

fn white_alone(gap: Gap) -> Gap
    ensures { result ≡ spec.white_alone gap }
{
    match gap {
        Gap::White => Gap::White,
        _ => Gap::Nothing,
    }
}

/// What counts of the gap between a token and the next one, with so many brackets open.
fn counted_gap(depth: usize, kind: TokenKind, gap: Gap, next: Option<TokenKind>) -> Gap
    ensures { result ≡ spec.counted_gap depth kind gap next }
{
    match next {
        None => Gap::Nothing,
        Some(next) => {
            if is_delim_of(u32::from(b'.'), kind) || is_sign_of(b':', kind) {
                white_alone(gap)
            } else if depth > 0 {
                if op_of(kind).is_some() && !is_sign_of(b')', next) {
                    gap
                } else {
                    Gap::Nothing
                }
            } else if combinator_of(kind).is_some() || combinator_of(next).is_some() {
                Gap::Nothing
            } else {
                white_alone(gap)
            }
        }
    }
}

fn first_kind(tokens: &[SelectorToken]) -> Option<TokenKind>
    ensures { result ≡ spec.first_kind tokens.now }
{
    match tokens {
        [] => None,
        [token, ..] => Some(token.kind()),
    }
}

fn first_gap(tokens: &[SelectorToken]) -> Gap
    ensures { result ≡ spec.first_gap tokens.now }
{
    match tokens {
        [] => Gap::Nothing,
        [token, ..] => token.gap(),
    }
}

/// How many tokens a term has after its first one, of those that there are.
fn more_of_term(token: &SelectorToken, behind: &[SelectorToken]) -> usize
    ensures rest { drop result behind.now ≡ drop (spec.more_of_term token.now behind.now) behind.now }
    ensures within { result ≤ length behind.now }
{
    if is_position_function(token) {
        (close_at(behind) + 1).min(behind.len())
    } else {
        0
    }
}

/// The gap after a term.
fn gap_of_term(token: &SelectorToken, behind: &[SelectorToken]) -> Gap
    ensures { result ≡ spec.gap_of_term token.now behind.now }
{
    if is_position_function(token) {
        first_gap(&behind[close_at(behind)..])
    } else {
        token.gap()
    }
}
