//! Finds the priorities of steps by declarations of a rule and others: its joins by declarations, and its shares.
//! It goes along the order keys of the others, above the rule and below it, and ends once all the rest comes too late.
//! `joins` tries the steps of two rules, and `shares` says what their share saves.
//! `left_out` leaves out the lists of declarations that are too light.
//! `full` says which steps there are not if the sheet has no room for one more item.

ghost use Rattle.std.specs.Prelude.{◌≡◌, ◌≢◌, ℕ, ◌<◌, IfSome, OnOk, Some, length, slice_get, true};
ghost use Rattle.css_model.specs.declared.sheet.Item.TheVariants as item;
ghost use Rattle.css_model.specs.Sheets.RuleParts.{RuleParts};
ghost use Rattle.rule_tables.specs.Ahead.{IsAhead};
ghost use Rattle.rule_tables.specs.SharedKeys.{IsShared};
ghost use Rattle.step_kinds.specs.declared.kind.Kind.TheVariants as candidate_kinds;
ghost use Rattle.step_laws.specs.declared.step.Step as declared;
ghost use Rattle.step_laws.specs.Steps.{first_item, last_item};
ghost use Rattle.step_savings.specs.Apart.{RulesApart};
ghost use Rattle.next_step.specs.Common.{AreFocusAnd, AreInCommon, AreInCommonAt, TellCommon};
ghost use Rattle.next_step.specs.Kinds.{IsByDecls};
ghost use Rattle.next_step.specs.Late.{ByDeclsSaveAtMost};
ghost use Rattle.next_step.specs.LaterOrderKeys.{AreLateFrom};
ghost use Rattle.next_step.specs.Looking.{IsWith};
ghost use Rattle.next_step.specs.Viewed.{ArePartners, CoversIn, Grows, IsFocus, IsView};

pub(crate) mod full;
pub(crate) mod joins;
pub(crate) mod left_out;
pub(crate) mod shares;

use crate::apart::are_apart;
use crate::by_declarations::full::is_without_room;
use crate::by_declarations::joins::try_by_decls;
use crate::by_declarations::left_out::{leave_out_light, met_beside, none_left_out};
use crate::others::{other_number, owns_none_below};
use crate::queue::found::Found;
use crate::too_late::by_common::is_poor;
use crate::too_late::by_order_keys::most_beside;
use crate::too_late::by_weights::{is_known_once, is_light, is_within};
use crate::view::{Focus, Partners, View};
use rule_tables::{Ahead, Common, Met, SharedKeys};
use std::alloc::AllocError;
use step_kinds::Kind;

/// What the steps by declarations of the focus and a rule above it save at most, if this is known.
/// It holds if each declaration of the focus is in it once.
fn most_above(view: &View<'_>, focus: &Focus<'_>) -> Option<u64>
    requires view { IsView view.now }
    requires focus { IsFocus view.now focus.now }
    ensures { IfSome result (λ most. (upper : ℕ) → ByDeclsSaveAtMost view.now.source.now view.now.indexed.now.items upper focus.now.number most) }
{
    let heaviest = view.weights.heaviest();
    if focus.own_selectors {
        return Some(heaviest.decls);
    }
    let selectors = view
        .weights
        .under(view.indexed.mark(focus.number).item_id)
        .selectors;
    heaviest.decls.checked_add(u64::from(selectors))
}

/// What the steps by declarations of the focus and a rule below it save at most, if this is known.
/// It holds if each declaration of the one below is in it once.
fn most_below(view: &View<'_>, focus: &Focus<'_>) -> Option<u64>
    requires view { IsView view.now }
    requires focus { IsFocus view.now focus.now }
    ensures { IfSome result (λ most. (lower : ℕ) → ByDeclsSaveAtMost view.now.source.now view.now.indexed.now.items focus.now.number lower most) }
{
    let heaviest = view.weights.heaviest();
    if focus.own_selectors {
        return Some(heaviest.decls);
    }
    heaviest.decls.checked_add(heaviest.selectors)
}

/// Whether steps by declarations of the item with the order key `at` and others are known to come too late.
///
/// They are the steps that save at most `most`. The order keys of the other items are `order_key` or later ones, on the same side
/// of `at`. `true` only if `once` holds and `most` is known. None of these steps comes before the first of the others found.
fn are_late_from(found: &Found, most: Option<u64>, once: bool, at: u64, order_key: u64) -> bool
    ensures once { result ≡ true → once ≡ true }
    ensures late { result ≡ true → (limit : ℕ) × (most ≡ Some limit) × AreLateFrom found.now.others candidate_kinds.DeclJoinUp at order_key limit }
{
    if !once {
        return false;
    }
    let Some(most) = most else {
        return false;
    };
    if !is_within(found, most) {
        return false;
    }
    let Some(limit) = most_beside(&found.others, Kind::DeclJoinUp, at, order_key) else {
        return false;
    };
    if limit < most {
        return false;
    }
    true
}

/// Whether it is noted that the focus and the rule of another number have no selector in common.
fn are_noted_apart(view: &View<'_>, focus: &Focus<'_>, other: u32) -> bool
    requires view { IsView view.now }
    requires focus { IsFocus view.now focus.now }
    requires other { other < length view.now.indexed.now.items }
    requires differ { other ≢ focus.now.number }
    ensures forth { result ≡ true → RulesApart view.now.indexed.now.items focus.now.number other }
    ensures back { result ≡ true → RulesApart view.now.indexed.now.items other focus.now.number }
{
    if focus.own_selectors {
        return true;
    }
    let theirs = view.indexed.facts(other);
    theirs.own_selectors
}

/// Whether the focus and the rule of another number are known to have no selector in common.
fn are_known_apart(view: &View<'_>, focus: &Focus<'_>, other: u32) -> bool
    requires view { IsView view.now }
    requires focus { IsFocus view.now focus.now }
    requires other { other < length view.now.indexed.now.items }
    requires differ { other ≢ focus.now.number }
    ensures forth { result ≡ true → RulesApart view.now.indexed.now.items focus.now.number other }
    ensures back { result ≡ true → RulesApart view.now.indexed.now.items other focus.now.number }
{
    if are_noted_apart(view, focus, other) {
        return true;
    }
    are_apart(view, focus, other)
}

/// Whether the steps by declarations of the focus and the rule of another number are known not to come before the first of the
/// others, or not to be there, by what the rules weigh alone.
fn is_passed(
    view: &View<'_>,
    focus: &Focus<'_>,
    other: u32,
    partners: &Partners,
    common: Common,
    found: &Found,
) -> bool
    requires view { IsView view.now }
    requires focus { IsFocus view.now focus.now }
    requires other { other < length view.now.indexed.now.items }
    requires partners { ArePartners view.now.indexed.now partners.now }
    requires both { AreFocusAnd focus.now other partners.now }
    requires common { (r : RuleParts) → slice_get view.now.indexed.now.items other ≡ Some (item.Rule r) → AreInCommon view.now.source.now focus.now.rule.now r common }
    ensures { result ≡ true → (k : declared.Step) → IsByDecls k → first_item k ≡ partners.now.upper → last_item k ≡ partners.now.lower
        → CoversIn view.now found.now k }
{
    if is_without_room(view, focus, other, partners, common, found) {
        return true;
    }
    if is_poor(view, focus, other, partners, common, found) {
        return true;
    }
    is_light(view, partners, found)
}

/// Puts the priorities of the steps by declarations of the focus and an item below it.
fn try_lower(
    view: &View<'_>,
    focus: &Focus<'_>,
    other: u32,
    common: Common,
    found: &mut Found,
) -> Result<(), AllocError>
    requires view { IsView view.now }
    requires focus { IsFocus view.now focus.now }
    requires other { other < length view.now.indexed.now.items }
    requires in_order { focus.now.number < other }
    requires common { (r : RuleParts) → slice_get view.now.indexed.now.items other ≡ Some (item.Rule r) → AreInCommon view.now.source.now focus.now.rule.now r common }
    ensures grows { OnOk result (Grows view.now found.old found.new) }
    ensures covers { OnOk result ((k : declared.Step) → IsByDecls k → first_item k ≡ focus.now.number → last_item k ≡ other → CoversIn view.now found.new k) }
{
    let noted = Partners {
        upper: focus.number,
        lower: other,
        apart: are_noted_apart(view, focus, other),
        lower_once: false,
    };
    if is_passed(view, focus, other, &noted, common, found) {
        return Ok(());
    }
    let partners = Partners {
        apart: are_known_apart(view, focus, other),
        lower_once: is_known_once(view, other),
        ..noted
    };
    if is_poor(view, focus, other, &partners, common, found) {
        return Ok(());
    }
    try_by_decls(view, &partners, found)
}

/// Puts the priorities of the steps by declarations of the focus and an item above it.
fn try_upper(
    view: &View<'_>,
    focus: &Focus<'_>,
    other: u32,
    common: Common,
    found: &mut Found,
) -> Result<(), AllocError>
    requires view { IsView view.now }
    requires focus { IsFocus view.now focus.now }
    requires in_order { other < focus.now.number }
    requires common { (r : RuleParts) → slice_get view.now.indexed.now.items other ≡ Some (item.Rule r) → AreInCommon view.now.source.now focus.now.rule.now r common }
    ensures grows { OnOk result (Grows view.now found.old found.new) }
    ensures covers { OnOk result ((k : declared.Step) → IsByDecls k → first_item k ≡ other → last_item k ≡ focus.now.number → CoversIn view.now found.new k) }
{
    let noted = Partners {
        upper: other,
        lower: focus.number,
        apart: are_noted_apart(view, focus, other),
        lower_once: focus.once,
    };
    if is_passed(view, focus, other, &noted, common, found) {
        return Ok(());
    }
    let partners = Partners {
        apart: are_known_apart(view, focus, other),
        ..noted
    };
    if is_poor(view, focus, other, &partners, common, found) {
        return Ok(());
    }
    try_by_decls(view, &partners, found)
}

/// Puts the priorities of the steps by declarations of the focus and another item with this order key.
/// `last` is the number of the last other item that was found.
fn try_partner(
    view: &View<'_>,
    focus: &Focus<'_>,
    met: Met,
    last: &mut u32,
    found: &mut Found,
) -> Result<(), AllocError>
    requires view { IsView view.now }
    requires focus { IsFocus view.now focus.now }
    requires common { AreInCommonAt view.now focus.now met.order_key met.common }
    ensures grows { OnOk result (Grows view.now found.old found.new) }
    ensures covers { OnOk result ((k : declared.Step) → IsWith view.now.indexed.now focus.now.number met.order_key k → IsByDecls k → CoversIn view.now found.new k) }
{
    let _marks = view.indexed.marks();
    let number = focus.number;
    let Some(other) = other_number(view, focus, met.order_key, last) else {
        return Ok(());
    };
    if other < number {
        return try_upper(view, focus, other, met.common, found);
    }
    if number < other {
        return try_lower(view, focus, other, met.common, found);
    }
    Ok(())
}

/// Puts the priorities of the steps by declarations of the focus and items above it with these order keys, which ascend.
/// It ends once all the rest comes too late.
fn try_above(
    view: &View<'_>,
    focus: &Focus<'_>,
    mut order_keys: Ahead<'_>,
    found: &mut Found,
) -> Result<(), AllocError>
    requires view { IsView view.now }
    requires focus { IsFocus view.now focus.now }
    requires above { (order_key : ℕ) → IsAhead order_keys order_key → order_key < focus.now.order_key }
    requires common { (order_key : ℕ) → IsAhead order_keys order_key → TellCommon view.now focus.now order_keys order_key }
    ensures grows { OnOk result (Grows view.now found.old found.new) }
    ensures covers { OnOk result ((order_key : ℕ) (k : declared.Step) → IsAhead order_keys.entry order_key → IsWith view.now.indexed.now focus.now.number order_key k → IsByDecls k → CoversIn view.now found.new k) }
{
    let _marks = view.indexed.marks();
    let most = most_above(view, focus);
    let mut last = 0;
    let mut left = none_left_out();
    let mut spare = 0;
    'order_keys: loop {
        left = leave_out_light(view, focus, found, &mut order_keys, left, &mut spare);
        let Some(met) = order_keys.next() else {
            return Ok(());
        };
        if are_late_from(found, most, focus.once, focus.order_key, met.order_key) {
            return Ok(());
        }
        try_partner(view, focus, met_beside(met, left), &mut last, found)?;
    }
}

/// Puts the priorities of the steps by declarations of the focus and items below it with these order keys, which ascend.
/// If each declaration of each rule is in it once, it ends once all the rest comes too late.
fn try_below(
    view: &View<'_>,
    focus: &Focus<'_>,
    mut order_keys: Ahead<'_>,
    found: &mut Found,
) -> Result<(), AllocError>
    requires view { IsView view.now }
    requires focus { IsFocus view.now focus.now }
    requires below { (order_key : ℕ) → IsAhead order_keys order_key → focus.now.order_key < order_key }
    requires common { (order_key : ℕ) → IsAhead order_keys order_key → TellCommon view.now focus.now order_keys order_key }
    ensures grows { OnOk result (Grows view.now found.old found.new) }
    ensures covers { OnOk result ((order_key : ℕ) (k : declared.Step) → IsAhead order_keys.entry order_key → IsWith view.now.indexed.now focus.now.number order_key k → IsByDecls k → CoversIn view.now found.new k) }
{
    let _marks = view.indexed.marks();
    let most = most_below(view, focus);
    let mut last = focus.number;
    let mut left = none_left_out();
    let mut spare = 0;
    'order_keys: loop {
        left = leave_out_light(view, focus, found, &mut order_keys, left, &mut spare);
        let Some(met) = order_keys.next() else {
            return Ok(());
        };
        if are_late_from(
            found,
            most,
            view.weights.once(),
            focus.order_key,
            met.order_key,
        ) {
            return Ok(());
        }
        try_partner(view, focus, met_beside(met, left), &mut last, found)?;
    }
}

/// Puts the priorities of the steps by declarations of the focus and other items with these order keys.
/// These steps are joins by declarations and shares.
pub(crate) fn try_decl_partners(
    view: &View<'_>,
    focus: &Focus<'_>,
    order_keys: &SharedKeys<'_>,
    found: &mut Found,
) -> Result<(), AllocError>
    requires view { IsView view.now }
    requires focus { IsFocus view.now focus.now }
    requires common { (order_key : ℕ) → TellCommon view.now focus.now order_keys.now order_key }
    ensures grows { OnOk result (Grows view.now found.old found.new) }
    ensures covers { OnOk result ((order_key : ℕ) (k : declared.Step) → IsShared order_keys.now order_key → IsWith view.now.indexed.now focus.now.number order_key k → IsByDecls k → CoversIn view.now found.new k) }
{
    let _marks = view.indexed.marks();
    let before = order_keys.below(view.alloc, focus.order_key)?;
    try_above(view, focus, before, found)?;
    if owns_none_below(view, focus) {
        return Ok(());
    }
    let behind = order_keys.above(view.alloc, focus.order_key)?;
    try_below(view, focus, behind, found)
}
