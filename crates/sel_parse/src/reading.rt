//! Selectors from their tokens (Selectors 3, section 10.1).

ghost use Rattle.std.specs.Prelude.{◌≡◌};
ghost use Rattle.css_model.specs.Selectors.Reading as spec;
ghost use Rattle.css_model.specs.Selectors.Terms.{terms_from};
ghost use Rattle.sel_parse.specs.Answers.{Reads};

use crate::compounds::{SoFar, nothing_yet, step};
use crate::error::Refusal;
use crate::terms::Terms;
use crate::tokens::SelectorToken;
use css_model::{Compound, Gap, Reason, Selector};
use std::alloc::Global;

/// The selector that is read at the end, where a compound is there.
fn finish(state: SoFar) -> Result<Selector, Refusal>
    ensures { Reads result (spec.finish state state.compound) }
{
    let SoFar {
        mut chain,
        mut links,
        compound,
        pseudo,
        stepped: _,
    } = state;
    if compound.is_empty() {
        return Err(Refusal::Outside(Reason::NotAllowed));
    }
    chain.push(Compound { simples: compound })?;
    chain.reverse();
    links.reverse();
    Ok(Selector::new(chain, links, pseudo))
}

/// The selector of tokens, or the reason against them that comes first.
pub(crate) fn read(alloc: Global, tokens: &[SelectorToken]) -> Result<Selector, Refusal>
    ensures { Reads result (spec.selector_of_terms (terms_from 0 0 tokens.now)) }
{
    let mut state = nothing_yet(alloc);
    let mut gap = Gap::Nothing;
    let mut left = 0;
    let mut rest = Terms::new(tokens);
    'terms: while let Some((x, behind)) = rest.split_first() {
        if left > 0 {
            left -= 1;
        } else {
            left = step(alloc, &mut state, gap, &rest, &x, &behind)?.saturating_sub(1);
        }
        gap = x.gap();
        rest = behind;
    }
    finish(state)
}
