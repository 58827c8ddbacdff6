//! Rules that are known to have no selector in common.

ghost use Rattle.std.specs.Prelude.{◌≡◌, ◌≢◌, true};
ghost use Rattle.step_savings.specs.Apart.{RulesApart, StepApart};

use indexed_sheet::IndexedSheet;
use step_laws::Step;
use step_savings::items_of;

/// Whether the rule of this number is known to have no selector in common with the other one, above it or below it.
fn has_own(indexed: &IndexedSheet, number: u32, other: u32) -> bool
    requires { other ≢ number }
    ensures forth { result ≡ true → RulesApart indexed.now.items number other }
    ensures back { result ≡ true → RulesApart indexed.now.items other number }
{
    indexed.facts(number).own_selectors
}

/// Whether the rules of these numbers are known to have no selector in common.
fn are_known_apart(indexed: &IndexedSheet, first: u32, last: u32) -> bool
    ensures { result ≡ true → RulesApart indexed.now.items first last }
{
    if first == last {
        return false;
    }
    has_own(indexed, first, last) || has_own(indexed, last, first)
}

/// Whether the rules of a step are known to have no selector in common.
pub(crate) fn is_known_apart(indexed: &IndexedSheet, step: &Step) -> bool
    ensures { result ≡ true → StepApart indexed.now.items step.now }
{
    let (first, last) = items_of(step);
    are_known_apart(indexed, first, last)
}
