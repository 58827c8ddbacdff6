//! Whether the steps of two rules come too late to be tried: they do not come before the first of the others that were found.
//! What the rules weigh limits what a step saves. A weight is added up only as far as it counts.

ghost use Rattle.std.specs.Prelude.{◌≡◌, ◌+◌, ◌<◌, ◌≤◌, ℕ, IfSome, length, slice_index, true};
ghost use Rattle.std.specs.List.{AllByRecursion};
ghost use Rattle.css_model.specs.Sheets.Limits.{max_bytes};
ghost use Rattle.css_model.specs.Sheets.Printed.{printed_declaration, printed_selector};
ghost use Rattle.css_model.specs.Sheets.Sound.{IsSoundDeclaration, IsSoundSelector};
ghost use Rattle.step_kinds.specs.StepsByKind.{step_of_kind};
ghost use Rattle.indexed_sheet.specs.MarkList.{order_keys_of};
ghost use Rattle.step_laws.specs.declared.step.Step as declared;
ghost use Rattle.step_laws.specs.declared.step.Step.TheVariants as kinds;
ghost use Rattle.step_laws.specs.Sizes as sizes;
ghost use Rattle.next_step.specs.Late.{CommonWeighsAtMost, DeclsWeighAtMost, IsFrom, IsLate, LeavesOfSelectors, SelectorsWeighAtMost};
ghost use Rattle.next_step.specs.Looking.{ReachesLast};
ghost use Rattle.next_step.specs.Viewed.{ArePartners, IsView};
ghost use Rattle.plan_laws.specs.Barrier.Hindering.{priority_of};

use crate::queue::found::Found;
use crate::queue::order::order_key_of;
use crate::too_late::by_order_keys::most_behind;
use crate::too_late::by_weights::weight_at;
use crate::view::{Partners, View};
use css_model::{DeclItem, SelItem};
use indexed_sheet::IndexedSheet;
use rule_parts::{Lengths, find_rule};
use saved_bytes::KnownLengths;
use step_kinds::Kind;
use step_queue::Candidate;

/// What is left of `most` without the weight of these selectors, if this is known.
fn without_selectors(source: &KnownLengths<'_>, items: &[SelItem], most: u64) -> Option<u64>
    requires sound { AllByRecursion (IsSoundSelector source.now) items.now }
    requires small { sizes.weight (printed_selector source.now) items.now ≤ max_bytes }
    ensures { IfSome result (λ left. left + sizes.weight (printed_selector source.now) items.now ≡ most) }
{
    let mut left = most;
    let mut rest = items;
    'rest: while let Some((first, behind)) = rest.split_first() {
        let length = source.selector(first);
        if left <= length {
            return None;
        }
        left -= length + 1;
        rest = behind;
    }
    Some(left)
}

/// What is left of `most` without the weight of these declarations, if this is known.
fn without_decls(source: &KnownLengths<'_>, items: &[DeclItem], most: u64) -> Option<u64>
    requires sound { AllByRecursion (IsSoundDeclaration source.now) items.now }
    requires small { sizes.weight (printed_declaration source.now) items.now ≤ max_bytes }
    ensures { IfSome result (λ left. left + sizes.weight (printed_declaration source.now) items.now ≡ most) }
{
    let mut left = most;
    let mut rest = items;
    'rest: while let Some((first, behind)) = rest.split_first() {
        let length = source.decl(first);
        if left <= length {
            return None;
        }
        left -= length + 1;
        rest = behind;
    }
    Some(left)
}

/// What is left of `most` without the weight of the selectors of the rule of this number, if this is known.
fn left_of_selectors(view: &View<'_>, number: u32, most: u64) -> Option<u64>
    requires { IsView view.now }
    ensures { IfSome result (λ left. LeavesOfSelectors view.now.source.now view.now.indexed.now.items number most left) }
{
    let rule = find_rule(view.indexed.items(), number)?;
    without_selectors(view.source, &rule.selectors, most)
}

/// Whether the selectors of the rule of this number are known to weigh at most `most`.
fn selectors_fit(view: &View<'_>, number: u32, most: u64) -> bool
    requires view { IsView view.now }
    requires there { number < length view.now.indexed.now.items }
    ensures { result ≡ true → SelectorsWeighAtMost view.now.source.now view.now.indexed.now.items number most }
{
    u64::from(weight_at(view, number).selectors) <= most
}

/// Whether the declarations of the rule of this number are known to weigh at most `most`.
fn decls_fit(view: &View<'_>, number: u32, most: u64) -> bool
    requires { IsView view.now }
    ensures { result ≡ true → DeclsWeighAtMost view.now.source.now view.now.indexed.now.items number most }
{
    match find_rule(view.indexed.items(), number) {
        Some(rule) => without_decls(view.source, &rule.decls, most).is_some(),
        None => false,
    }
}

/// A weight that, with that of the selectors of the lower rule that the upper one has, is at most `most`, if one is known.
fn without_common(view: &View<'_>, partners: &Partners, most: u64) -> Option<u64>
    requires view { IsView view.now }
    requires partners { ArePartners view.now.indexed.now partners.now }
    ensures { IfSome result (λ left. CommonWeighsAtMost view.now.source.now view.now.indexed.now.items partners.now.upper partners.now.lower left most) }
{
    if partners.apart {
        return Some(most);
    }
    left_of_selectors(view, partners.lower, most)
}

/// How much a step of two items may save, at most, and not come before the first of the others, if this is known.
/// The step is of this kind or a later one.
pub(crate) fn late_saving(
    indexed: &IndexedSheet,
    others: &Option<Candidate>,
    kind: Kind,
    partners: &Partners,
) -> Option<u64>
    requires { ArePartners indexed.now partners.now }
    ensures { IfSome result (λ most. (n : ℕ) (k : declared.Step) → n ≤ most
        → IsFrom (step_of_kind kind (slice_index (order_keys_of indexed.now.marks) partners.now.upper) (slice_index (order_keys_of indexed.now.marks) partners.now.lower)) k
        → ReachesLast others.now (priority_of n k)) }
{
    most_behind(
        others,
        kind,
        order_key_of(indexed, partners.upper),
        order_key_of(indexed, partners.lower),
    )
}

/// Whether the joins of two rules by their selectors are known not to come before the first of the others.
pub(crate) fn selector_joins_are_late(view: &View<'_>, partners: &Partners, found: &Found) -> bool
    requires view { IsView view.now }
    requires partners { ArePartners view.now.indexed.now partners.now }
    ensures up { result ≡ true → IsLate view.now.source.now view.now.indexed.now found.now (kinds.JoinSelUp partners.now.upper partners.now.lower) }
    ensures down { result ≡ true → IsLate view.now.source.now view.now.indexed.now found.now (kinds.JoinSelDown partners.now.upper partners.now.lower) }
{
    let Some(most) = late_saving(view.indexed, &found.others, Kind::SelJoinUp, partners) else {
        return false;
    };
    selectors_fit(view, partners.upper, most) && selectors_fit(view, partners.lower, most)
}

/// Whether the joins of two rules by their declarations are known not to come before the first of the others.
pub(crate) fn decl_joins_are_late(view: &View<'_>, partners: &Partners, found: &Found) -> bool
    requires view { IsView view.now }
    requires partners { ArePartners view.now.indexed.now partners.now }
    ensures up { result ≡ true → IsLate view.now.source.now view.now.indexed.now found.now (kinds.JoinDeclUp partners.now.upper partners.now.lower) }
    ensures down { result ≡ true → IsLate view.now.source.now view.now.indexed.now found.now (kinds.JoinDeclDown partners.now.upper partners.now.lower) }
{
    let Some(most) = late_saving(view.indexed, &found.others, Kind::DeclJoinUp, partners) else {
        return false;
    };
    let Some(left) = without_common(view, partners, most) else {
        return false;
    };
    decls_fit(view, partners.upper, left) && decls_fit(view, partners.lower, left)
}

/// Whether the share of two rules is known not to come before the first of the others.
pub(crate) fn share_is_late(view: &View<'_>, partners: &Partners, found: &Found) -> bool
    requires view { IsView view.now }
    requires partners { ArePartners view.now.indexed.now partners.now }
    ensures { result ≡ true → IsLate view.now.source.now view.now.indexed.now found.now (kinds.Share partners.now.upper partners.now.lower) }
{
    if !partners.lower_once {
        return false;
    }
    let Some(most) = late_saving(view.indexed, &found.others, Kind::Sharing, partners) else {
        return false;
    };
    let Some(left) = without_common(view, partners, most) else {
        return false;
    };
    decls_fit(view, partners.upper, left)
}
