//! The specificities of the selectors of a rule, by their numbers.

ghost use Rattle.std.specs.Prelude.{◌≡◌, ◌↔◌, IfOk, IsTrue, Some, slice_get};
ghost use Rattle.std.specs.List.{All, Contains};
ghost use Rattle.css_model.specs.declared.selector.Specificity as declared;
ghost use Rattle.css_model.specs.Documents.Specificity.{specificity_of};
ghost use Rattle.css_model.specs.Selectors.Profile.{IsInProfile};
ghost use Rattle.step_obstacles.specs.Turns as turns;

use crate::facing::Source;
use css_model::{Item, SelItem, Selector, Specificity, specificity};
use pair_laws::profile_keeps_the_limits;
use std::alloc::{AllocError, Global};
use window_order::Window;

/// The specificity of a selector of the profile.
pub(crate) fn specificity_in_profile(selector: &Selector) -> Specificity
    requires { IsInProfile selector.now }
    ensures { result ≡ specificity_of selector.now }
{
    profile_keeps_the_limits();
    specificity(selector)
}

/// The specificities of some selectors of the profile. `AllocError` where memory is short.
pub(crate) fn specificities_of(
    alloc: Global,
    selectors: &[SelItem],
) -> Result<Vec<Specificity>, AllocError>
    requires { All (λ x. IsInProfile x.selector) selectors.now }
    ensures { IfOk result (λ list. list.items ≡ turns.specificities_of selectors.now) }
{
    let mut list = Vec::with_capacity(alloc, selectors.len())?;
    for item in selectors {
        list.push(specificity_in_profile(&item.selector))?;
    }
    Ok(list)
}

/// The specificity of this number.
pub(crate) fn specificity_at(specificities: &[Specificity], number: u32) -> Specificity
    requires { (k : declared.Specificity) × (slice_get specificities.now number ≡ Some k) }
    ensures { slice_get specificities.now number ≡ Some result }
{
    match specificities.get(number as usize) {
        Some(specificity) => *specificity,
        None => unreachable!(),
    }
}

/// Whether two specificities are the same.
fn is_same(first: Specificity, second: Specificity) -> bool
    ensures { IsTrue result ↔ first ≡ second }
{
    first == second
}

/// Whether a specificity is among these.
pub(crate) fn is_among(specificities: &[Specificity], specificity: Specificity) -> bool
    ensures { IsTrue result ↔ Contains specificities.now specificity }
{
    let mut rest = specificities;
    'rest: while let Some((first, behind)) = rest.split_first() {
        if is_same(*first, specificity) {
            return true;
        }
        rest = behind;
    }
    false
}

/// Whether one of some selectors of the profile has a specificity that is among these. Those after it are not counted.
fn have_one_of(specificities: &[Specificity], selectors: &[SelItem]) -> bool
    requires { All (λ x. IsInProfile x.selector) selectors.now }
    ensures { IsTrue result ↔ turns.HaveOneOf specificities.now selectors.now }
{
    for item in selectors {
        if is_among(specificities, specificity_in_profile(&item.selector)) {
            return true;
        }
    }
    false
}

/// Whether something of an item may weigh with a pair of a rule, by specificity alone. A kept item may.
pub(crate) fn item_may_weigh(
    window: &Window<'_>,
    source: &Source<'_>,
    item: &Item,
    number: u32,
) -> bool
    requires askable { turns.IsAskable window.now.items.now }
    requires item { turns.IsItemOf window.now number item.now }
    ensures { IsTrue result ↔ turns.ItemMayWeigh source.now item.now }
{
    match item {
        Item::Rule(rule) => have_one_of(&source.specificities, &rule.selectors),
        Item::KeptRule(_) | Item::KeptBlock(_) => true,
    }
}
