//! `:empty` and its negation (Selectors 3, section 6.6.5.12).

ghost use Rattle.std.specs.Prelude.{◌≡◌, ◌&&◌, ◌++◌, false, IsTrue, ◌↔◌};
ghost use Rattle.shape_laws.specs.Document.SlotElements.{asks_for_content};
ghost use Rattle.slot_plan.specs.ValidShape.{EmptyFits, is_empty_test};
ghost use Rattle.single_examples.specs.Trying.{asks_for_none};

use css_model::{Simple, Test};

/// Whether `:empty` is not asked for beside its negation, by two compounds.
pub(crate) fn empties_fit(x: &[Simple], y: &[Simple]) -> bool
    ensures { IsTrue result ↔ EmptyFits false (x.now ++ y.now) }
{
    !both(asks_for_none(x, y), asks_for_content(x, y))
}

fn both(none: bool, content: bool) -> bool
    ensures { result ≡ (none && content) }
{
    none && content
}

/// Whether `:empty` is asked for.
#[tactic(auto, using(crate::proofs::EmptyTests::none_joined))]
fn asks_for_none(x: &[Simple], y: &[Simple]) -> bool
    ensures { result ≡ asks_for_none (x.now ++ y.now) }
{
    has_none(x) || has_none(y)
}

/// Whether one compound asks for `:empty`.
fn has_none(simples: &[Simple]) -> bool
    ensures { result ≡ asks_for_none simples.now }
{
    for simple in simples {
        if !simple.negated && is_empty_test(&simple.test) {
            return true;
        }
    }
    false
}

/// Whether `:not(:empty)` is asked for.
#[tactic(auto, using(crate::proofs::EmptyTests::content_joined))]
pub(crate) fn asks_for_content(x: &[Simple], y: &[Simple]) -> bool
    ensures { result ≡ asks_for_content (x.now ++ y.now) }
{
    has_content(x) || has_content(y)
}

/// Whether one compound asks for `:not(:empty)`.
fn has_content(simples: &[Simple]) -> bool
    ensures { result ≡ asks_for_content simples.now }
{
    for simple in simples {
        if simple.negated && is_empty_test(&simple.test) {
            return true;
        }
    }
    false
}

fn is_empty_test(test: &Test) -> bool
    ensures { result ≡ is_empty_test test.now }
{
    matches!(test, Test::Empty)
}
