//! Ids that compounds ask for (Selectors 3, section 6.5).

ghost use Rattle.std.specs.Prelude.{true, ◌≡◌, ◌<◌, ◌+◌, ◌==◌, ◌&&◌, ◌||◌, not, suc, length, Some, None, MatchOption, codes};
ghost use Rattle.clause_encode.specs.Given.{asks_id, share, some_passes};
ghost use Rattle.css_model.specs.Documents.Document.{if_not_empty};
ghost use Rattle.css_model.specs.Lists.{same_text};
ghost use Rattle.formula_laws.specs.Allowed.{all_below, apart_in, own_ids_fit, share_id};
ghost use Rattle.grid_laws.specs.Solved.{nth_compound};
ghost use Rattle.slot_plan.specs.ValidShape.{asked_id};

use css_model::{Compound, Op, Selector, Simple, Test, Text};
use sibling_clauses::{chain_of, simples_at};

/// Whether no two compounds of a selector ask for one id.
pub(crate) fn own_ids_fit(selector: &Selector) -> bool
    requires { length selector.now.chain ≡ suc (length selector.now.links) }
    ensures { result ≡ own_ids_fit selector.now }
{
    are_apart(chain_of(selector))
}

/// Whether no two compounds of a chain ask for one id.
#[tactic(auto, using(crate::proofs::Apart::apart_found))]
fn are_apart(chain: &[Compound]) -> bool
    ensures { result ≡ all_below (length chain.now)
        (λ i. apart_in (nth_compound chain.now i) chain.now (length chain.now) true i) }
{
    for i in 0..chain.len() {
        if !is_apart(simples_at(chain, i), chain, true, i) {
            return false;
        }
    }
    true
}

/// Whether a compound asks for no id that one of a chain asks for. The k-th of the chain does not count where both are
/// together.
#[tactic(auto, using(crate::proofs::Apart::apart_found))]
pub(crate) fn is_apart(simples: &[Simple], chain: &[Compound], beside: bool, k: usize) -> bool
    ensures { result ≡ apart_in simples.now chain.now (length chain.now) beside k }
{
    for i in 0..chain.len() {
        if !may_stand(simples, simples_at(chain, i), beside, i, k) {
            return false;
        }
    }
    true
}

/// Whether two compounds are together, or do not both ask for an id.
fn may_stand(simples: &[Simple], others: &[Simple], beside: bool, i: usize, k: usize) -> bool
    ensures { result ≡ ((beside && (i == k)) || not (share_id simples.now others.now)) }
{
    beside && i == k || !share_id(simples, others)
}

/// Whether two compounds ask for one id.
fn share_id(simples: &[Simple], others: &[Simple]) -> bool
    ensures { result ≡ share_id simples.now others.now }
{
    share(simples, others)
}

/// Whether two compounds ask for one id, one simple selector after the other.
fn share(simples: &[Simple], others: &[Simple]) -> bool
    ensures { result ≡ share simples.now others.now }
{
    simples.iter().any(|simple| asks_same(simple, others))
}

/// Whether a simple selector asks for an id that one of others asks for.
fn asks_same(simple: &Simple, others: &[Simple]) -> bool
    ensures { result ≡ some_passes (λ id. asks_id id others.now) (asked_id simple.now) }
{
    match asked_id(simple) {
        Some(id) => asks_id(id, others),
        None => false,
    }
}

/// Whether one of some simple selectors asks for an id.
fn asks_id(id: &Text, simples: &[Simple]) -> bool
    ensures { result ≡ asks_id id.now simples.now }
{
    simples.iter().any(|simple| is_asked(id, simple))
}

/// Whether a simple selector asks for an id.
fn is_asked(id: &Text, simple: &Simple) -> bool
    ensures { result ≡ some_passes (λ w. same_text id.now w) (asked_id simple.now) }
{
    match asked_id(simple) {
        Some(other) => id == other,
        None => false,
    }
}

/// The id that a simple selector asks for, if it is not empty.
fn asked_id(simple: &Simple) -> Option<&Text>
    ensures { MatchOption result (asked_id simple.now ≡ None) (λ id. asked_id simple.now ≡ Some id.now) }
{
    if simple.negated {
        return None;
    }
    match &simple.test {
        Test::Id(value) => some_text(value),
        Test::Attr(test) => {
            if is_id(test.name.codes()) && test.op == Op::Equal {
                some_text(&test.value)
            } else {
                None
            }
        }
        _ => None,
    }
}

/// A text that is not empty.
fn some_text(text: &Text) -> Option<&Text>
    ensures { MatchOption result (if_not_empty (Some text.now) ≡ None) (λ t. if_not_empty (Some text.now) ≡ Some t.now) }
{
    if text.codes().is_empty() {
        None
    } else {
        Some(text)
    }
}

/// Whether a name is that of the attribute `id`.
fn is_id(name: &[char]) -> bool
    ensures { result ≡ same_text name.now (codes "id") }
{
    name == ['i', 'd'].as_slice()
}
