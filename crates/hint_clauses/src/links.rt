//! What hints ask of combinators.

ghost use Rattle.std.specs.Prelude.{◌≡◌, ◌≤◌, ◌<◌, length, IsTrue};
ghost use Rattle.formula_laws.specs.Asked.{are_joined, is_next, is_next_at, starts_run};
ghost use Rattle.formula_laws.specs.Hints.{is_later, is_later_at};

use css_model::{Combinator, Selector};
use sibling_clauses::links_of;

/// Whether a combinator leads to a sibling somewhere before.
fn is_later(link: Combinator) -> bool
    ensures { result ≡ is_later link }
{
    match link {
        Combinator::Later => true,
        Combinator::Inside | Combinator::Child | Combinator::Next => false,
    }
}

/// Whether that between the k-th compound of a chain and the next one does.
#[tactic(auto, using(crate::proofs::Linked::later_read))]
pub(crate) fn is_later_at(links: &[Combinator], k: usize) -> bool
    requires { k < length links.now }
    ensures { result ≡ is_later_at links.now k }
{
    is_later(links[k])
}

/// Whether a combinator leads to the sibling right before.
fn is_next(link: Combinator) -> bool
    ensures { result ≡ is_next link }
{
    match link {
        Combinator::Next => true,
        Combinator::Inside | Combinator::Child | Combinator::Later => false,
    }
}

/// Whether that between the k-th compound of a chain and the next one does.
#[tactic(auto, using(crate::proofs::Linked::next_reads))]
fn is_next_at(links: &[Combinator], k: usize) -> bool
    ensures { result ≡ is_next_at links.now k }
{
    k < links.len() && is_next(links[k])
}

/// Whether the compounds from the p-th to the q-th are direct neighbours, one after the other.
#[tactic(auto, using(crate::proofs::Linked::joined_reads))]
pub(crate) fn are_joined(links: &[Combinator], p: usize, q: usize) -> bool
    ensures value { result ≡ are_joined links.now p q }
    ensures order { IsTrue result → p ≤ q }
{
    if p == q {
        true
    } else if q == 0 {
        false
    } else {
        are_joined(links, p, q - 1) && is_next_at(links, q - 1)
    }
}

/// Whether the k-th compound of a chain is the first of its run of direct neighbours.
#[tactic(auto, using(crate::proofs::Linked::run_reads))]
fn starts_run(links: &[Combinator], k: usize) -> bool
    ensures { result ≡ starts_run links.now k }
{
    k == 0 || !is_next_at(links, k - 1)
}

/// Whether the k-th compound of a selector is the first of its run of direct neighbours.
pub(crate) fn begins_run(selector: &Selector, k: u32) -> bool
    ensures { result ≡ starts_run selector.now.links k }
{
    starts_run(links_of(selector), k as usize)
}
