//! Where answers are kept: by the places of both selectors among those that were asked.

ghost use Rattle.std.specs.Prelude.{◌≡◌, ◌++◌, ◌∷◌, [], Some, IfOk, OnErr, OnOk, length, slice_get};
ghost use Rattle.overlap.specs.Remembered.{IsUnknown};
ghost use Rattle.overlap.specs.Stored as spec;
ghost use Rattle.overlap.specs.Stored.{Adds, AreAt, IsStore, answers_of};

use crate::answer::Answer;
use css_model::Selector;
use indexmap::{IndexMap, IndexSet};
use mixing::Mixer;
use std::alloc::{AllocError, AllocFailed};
use std::hash::BuildHasherDefault;

/// Selectors, each once, by a hasher that takes each code point at little cost.
pub(crate) type Selectors = IndexSet<Selector, BuildHasherDefault<Mixer>>;

/// The places of the two selectors of a pair among those that were asked.
#[derive(Clone, Copy, Debug, PartialEq, Eq, Hash)]
pub(crate) struct Places {
    /// The place of the selector that was asked first.
    pub left: usize,
    /// The place of the other one.
    pub right: usize,
}

/// The places of two selectors, if both were asked.
pub(crate) fn find_places(selectors: &Selectors, x: &Selector, y: &Selector) -> Option<Places>
    ensures { spec.ArePlaces selectors.now.keys x.now y.now result }
{
    let left = find_place(selectors, x)?;
    let right = find_place(selectors, y)?;
    Some(Places { left, right })
}

/// The place of a selector, if it was asked.
fn find_place(selectors: &Selectors, x: &Selector) -> Option<usize>
    ensures { spec.IsPlace selectors.now.keys x.now result }
{
    selectors.get_index_of(x)
}

/// Stores an answer for an ordered pair that has none, and gives its index.
pub(crate) fn store(
    selectors: &mut Selectors,
    answers: &mut IndexMap<Places, Answer>,
    x: &Selector,
    y: &Selector,
    answer: Answer,
) -> Result<usize, AllocError>
    requires store { ∥ IsStore selectors.old.keys answers.old.entries ∥₁ }
    requires unknown { IsUnknown (answers_of selectors.old.keys answers.old.entries) x.now y.now }
    ensures store { ∥ IsStore selectors.new.keys answers.new.entries ∥₁ }
    ensures at { IfOk result (λ at. at ≡ length answers.old.entries) }
    ensures ok { OnOk result (answers_of selectors.new.keys answers.new.entries
        ≡ answers_of selectors.old.keys answers.old.entries ++ record { left = x.now; right = y.now; answer = answer } ∷ []) }
    ensures err { OnErr result (answers_of selectors.new.keys answers.new.entries ≡ answers_of selectors.old.keys answers.old.entries) }
{
    let places = give_places(selectors, x, y)?;
    put(answers, places, answer)
}

/// The places of two selectors, which get one where they have none. After an error the first may have got one.
fn give_places(selectors: &mut Selectors, x: &Selector, y: &Selector) -> Result<Places, AllocError>
    requires { spec.IsOnce selectors.old.keys }
    ensures adds { Adds selectors.old.keys selectors.new.keys }
    ensures places { IfOk result (λ places. AreAt selectors.new.keys x.now y.now places) }
{
    let left = give_place(selectors, x)?;
    let right = give_place(selectors, y)?;
    Ok(Places { left, right })
}

/// The place of a selector, which gets one where it has none.
fn give_place(selectors: &mut Selectors, x: &Selector) -> Result<usize, AllocError>
    requires { spec.IsOnce selectors.old.keys }
    ensures adds { Adds selectors.old.keys selectors.new.keys }
    ensures place { IfOk result (λ place. slice_get selectors.new.keys place ≡ Some x.now) }
{
    if let Some(place) = find_place(selectors, x) {
        return Ok(place);
    }
    let copy = x.copy()?;
    let (place, _) = selectors.insert_full(copy)?;
    Ok(place)
}

/// Appends an answer for places that have none, and gives its index.
fn put(
    answers: &mut IndexMap<Places, Answer>,
    places: Places,
    answer: Answer,
) -> Result<usize, AllocError>
    requires { spec.HasNone answers.old.entries places }
    ensures at { IfOk result (λ at. at ≡ length answers.old.entries) }
    ensures ok { OnOk result (answers.new.entries ≡ answers.old.entries ++ (places, answer) ∷ []) }
    ensures err { OnErr result (answers.new.entries ≡ answers.old.entries) }
{
    let (at, _) = answers.insert_full(places, answer)?;
    Ok(at)
}
