//! What is answered for pairs of selectors.

ghost use Rattle.std.specs.Prelude.{◌≡◌, IfOk, OnOk};
ghost use Rattle.std.specs.List.{AllByRecursion};
ghost use Rattle.css_model.specs.Selectors.Profile.{IsInProfile};
ghost use Rattle.bench_counts.specs.Asking as spec;

use css_model::Selector;
use overlap::{Answer, Pairs};
use std::alloc::{AllocError, Global};

/// What kind of answer is given for two selectors.
#[derive(Clone, Copy, Debug, PartialEq, Eq)]
pub(crate) enum Kind {
    /// They meet: some element of a legal document matches both.
    Meet,
    /// They do not.
    Apart,
    /// They are not compared.
    Outside,
}

/// The kind of an answer.
fn kind_of(answer: &Answer) -> Kind
    ensures { result ≡ spec.kind_of answer.now }
{
    match answer {
        Answer::Meet(_) => Kind::Meet,
        Answer::Apart => Kind::Apart,
        Answer::Outside(_, _) | Answer::Spent(_) => Kind::Outside,
    }
}

/// The kind of the answer for an ordered pair.
fn ask(pairs: &mut Pairs, x: &Selector, y: &Selector) -> Result<Kind, AllocError>
    requires first { IsInProfile x.now }
    requires second { IsInProfile y.now }
    ensures budget { pairs.new.budget ≡ pairs.old.budget }
    ensures kind { IfOk result (spec.IsKind pairs.old.budget x.now y.now) }
{
    let answer = pairs.ask(x, y)?;
    Ok(kind_of(answer))
}

/// Puts the kinds of the answers for a selector with each of a list after the others.
fn ask_row(
    pairs: &mut Pairs,
    x: &Selector,
    all: &[Selector],
    kinds: &mut Vec<Kind>,
) -> Result<(), AllocError>
    requires first { IsInProfile x.now }
    requires profile { AllByRecursion IsInProfile all.now }
    ensures budget { pairs.new.budget ≡ pairs.old.budget }
    ensures kinds { OnOk result (spec.AddsKinds pairs.old.budget (spec.row x.now all.now) kinds.old.items kinds.new.items) }
{
    for y in all {
        kinds.push(ask(pairs, x, y)?)?;
    }
    Ok(())
}

/// The kinds of the answers for every ordered pair of these selectors.
pub(crate) fn ask_all(
    alloc: Global,
    pairs: &mut Pairs,
    all: &[Selector],
) -> Result<Vec<Kind>, AllocError>
    requires profile { AllByRecursion IsInProfile all.now }
    ensures { IfOk result (λ kinds. spec.AreKinds pairs.old.budget (spec.ordered_pairs all.now) kinds.items) }
{
    let mut kinds = Vec::new(alloc);
    for x in all {
        ask_row(pairs, x, all, &mut kinds)?;
    }
    Ok(kinds)
}
