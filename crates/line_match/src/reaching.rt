//! Where the compounds of a selector match, carried from element to element.

ghost use Rattle.std.specs.Prelude.{◌≡◌, ◌<◌, ◌^◌, IfOk, map, drop};
ghost use Rattle.css_model.specs.Documents.Features.{element_of};
ghost use Rattle.element_tests.specs.Whereabouts.{surroundings_of};
ghost use Rattle.cascade_laws.specs.Eval.Reaching.{from_child, from_next, from_root, is_reached, leads, located};
ghost use Rattle.cascade_laws.specs.Eval.Surrounded.{chain_among};
ghost use Rattle.line_match.specs.Runs.{is_led};

use cascade_laws::Reached;
use css_model::{Combinator, Compound, Features, Selector};
use element_tests::{Whereabouts, passes_compound};
use std::alloc::{AllocError, Global};

/// What is known at the root before it is looked at.
pub(crate) fn at_root(alloc: Global, chain: &[Compound]) -> Result<Vec<Reached>, AllocError>
    ensures { IfOk result (λ reached. reached.items ≡ map (λ c. from_root) chain.now) }
{
    let mut reached = Vec::with_capacity(alloc, chain.len())?;
    let mut left = chain;
    while let [_, behind @ ..] = left {
        reached.push(from_root())?;
        left = behind;
    }
    Ok(reached)
}

fn from_root() -> Reached
    ensures { result ≡ from_root }
{
    Reached {
        here: false,
        next: false,
        later: false,
        child: false,
        inside: false,
    }
}

/// What matches at an element, from what was known before it was looked at.
#[tactic(auto, using(crate::proofs::Located::located_first))]
pub(crate) fn located(
    alloc: Global,
    selector: &Selector,
    element: &Features,
    place: &Whereabouts,
    reached: &[Reached],
) -> Result<Vec<Reached>, AllocError>
    requires before { place.now.before < 2 ^ 100 }
    requires behind { place.now.behind < 2 ^ 100 }
    ensures { IfOk result (λ found. found.items ≡
        located (chain_among selector.now.chain (element_of element.now) (surroundings_of place.now)) selector.now.links reached.now) }
{
    let mut found = Vec::with_capacity(alloc, reached.len())?;
    let mut chain = selector.chain.as_slice();
    let mut links = selector.links.as_slice();
    let mut left = reached;
    while let [compound, chain_behind @ ..] = chain {
        let [r, left_behind @ ..] = left else {
            return Ok(found);
        };
        let here = passes_compound(element, place, compound)
            && is_led(chain_behind, links, left_behind);
        found.push(put_here(here, r))?;
        chain = chain_behind;
        links = behind_first(links);
        left = left_behind;
    }
    Ok(found)
}

fn put_here(here: bool, r: &Reached) -> Reached
    ensures { result ≡ record r.now { here = here } }
{
    Reached { here, ..*r }
}

/// All combinators but the first.
fn behind_first(links: &[Combinator]) -> &[Combinator]
    ensures { result.now ≡ drop 1 links.now }
{
    match links {
        [] => links,
        [_, behind @ ..] => behind,
    }
}

/// Whether the compounds after one match where its combinator leads.
fn is_led(chain: &[Compound], links: &[Combinator], reached: &[Reached]) -> bool
    ensures { result ≡ is_led chain.now links.now reached.now }
{
    if chain.is_empty() {
        return true;
    }
    match links {
        [] => false,
        [link, ..] => leads(*link, reached),
    }
}

/// Whether the compounds from the first of these on match where a combinator leads.
fn leads(link: Combinator, reached: &[Reached]) -> bool
    ensures { result ≡ leads link reached.now }
{
    match reached {
        [] => false,
        [r, ..] => match link {
            Combinator::Inside => r.inside,
            Combinator::Child => r.child,
            Combinator::Next => r.next,
            Combinator::Later => r.later,
        },
    }
}

/// What matches, seen from the siblings after an element.
pub(crate) fn all_from_next(alloc: Global, reached: &[Reached]) -> Result<Vec<Reached>, AllocError>
    ensures { IfOk result (λ seen. seen.items ≡ map from_next reached.now) }
{
    reached.iter().map(|r| from_next(r)).collect(alloc)
}

fn from_next(r: &Reached) -> Reached
    ensures { result ≡ from_next r.now }
{
    Reached {
        here: false,
        next: r.here,
        later: r.here || r.later,
        child: r.child,
        inside: r.inside,
    }
}

/// What matches, seen from the first child of an element.
pub(crate) fn all_from_child(alloc: Global, reached: &[Reached]) -> Result<Vec<Reached>, AllocError>
    ensures { IfOk result (λ seen. seen.items ≡ map from_child reached.now) }
{
    reached.iter().map(|r| from_child(r)).collect(alloc)
}

fn from_child(r: &Reached) -> Reached
    ensures { result ≡ from_child r.now }
{
    Reached {
        here: false,
        next: false,
        later: false,
        child: r.here,
        inside: r.here || r.inside,
    }
}

/// Whether all compounds match.
pub(crate) fn is_reached(reached: &[Reached]) -> bool
    ensures { result ≡ is_reached reached.now }
{
    match reached {
        [] => false,
        [r, ..] => r.here,
    }
}
