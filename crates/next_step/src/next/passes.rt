//! The two passes over the partners of a rule: those with one of its declarations, and those with its selectors.

ghost use Rattle.std.specs.Prelude.{◌≡◌, ◌⊎◌, ◌+◌, ◌≤◌, ℕ, IfOk, OnOk, length, map, true};
ghost use Rattle.std.specs.List.{Contains};
ghost use Rattle.indexed_sheet.specs.Facts.{HasOwnDecls, HasOwnSelectors};
ghost use Rattle.std.specs.List.{AllByRecursion};
ghost use Rattle.css_model.specs.Sheets.Limits.{max_bytes};
ghost use Rattle.css_model.specs.Sheets.Printed.{printed_declaration};
ghost use Rattle.css_model.specs.Sheets.Sound.{IsSoundDeclaration};
ghost use Rattle.step_laws.specs.Sizes as sizes;
ghost use Rattle.step_laws.specs.declared.step.Step as declared;
ghost use Rattle.step_laws.specs.Steps.{first_item, last_item};
ghost use Rattle.next_step.specs.Kinds.{IsByDecls, IsSelectorJoin};
ghost use Rattle.next_step.specs.Viewed.{CoversIn, Grows, IsFocus, IsView};

use crate::by_declarations::try_decl_partners;
use crate::by_selectors::try_selector_partners;
use crate::queue::found::Found;
use crate::view::{Focus, View};
use css_model::DeclItem;
use indexed_sheet::IndexedSheet;
use rule_parts::Lengths;
use rule_tables::rules_are_order_keyed;
use saved_bytes::KnownLengths;
use std::alloc::{AllocError, Global};

/// Whether it is known that no other rule has one of the selectors of the rule of this number.
fn has_known_own_selectors(indexed: &IndexedSheet, number: u32) -> bool
    ensures { result ≡ true → HasOwnSelectors indexed.now.items number }
{
    indexed.facts(number).own_selectors
}

/// Whether it is known that no other rule has one of the focus's selectors.
pub(crate) fn has_own_selectors(view: &View<'_>, focus: &Focus<'_>) -> bool
    requires view { IsView view.now }
    requires focus { IsFocus view.now focus.now }
    ensures { result ≡ true → HasOwnSelectors view.now.indexed.now.items focus.now.number }
{
    rules_are_order_keyed();
    let _marks = view.indexed.marks();
    if has_known_own_selectors(view.indexed, focus.number) {
        return true;
    }
    view.tables.has_own_selectors(focus.rule, focus.order_key)
}

/// Whether it is known that no other rule has one of the declarations of the rule of this number.
fn is_known_alone(indexed: &IndexedSheet, number: u32) -> bool
    ensures { result ≡ true → HasOwnDecls indexed.now.items number }
{
    indexed.facts(number).own_decls
}

/// What each of the declarations weighs, in bytes. `Err(AllocError)` if memory is short.
fn decl_weights(
    alloc: Global,
    source: &KnownLengths<'_>,
    decls: &[DeclItem],
) -> Result<Vec<u64>, AllocError>
    requires sound { AllByRecursion (IsSoundDeclaration source.now) decls.now }
    requires small { sizes.weight (printed_declaration source.now) decls.now ≤ max_bytes }
    ensures { IfOk result (λ weights. weights.items ≡ map (λ d. length (printed_declaration source.now d) + 1) decls.now) }
{
    let mut weights = Vec::with_capacity(alloc, decls.len())?;
    let mut rest = decls;
    'rest: while let Some((first, behind)) = rest.split_first() {
        weights.push(source.decl(first) + 1)?;
        rest = behind;
    }
    Ok(weights)
}

/// Puts the priorities of the joins by declarations and of the shares of the focus.
/// Returns whether it is known that no other rule has one of its declarations. `Err(AllocError)` if memory is short.
pub(crate) fn look_at_decls(
    alloc: Global,
    view: &View<'_>,
    focus: &Focus<'_>,
    found: &mut Found,
) -> Result<bool, AllocError>
    requires view { IsView view.now }
    requires focus { IsFocus view.now focus.now }
    ensures grows { OnOk result (Grows view.now found.old found.new) }
    ensures covers { OnOk result ((k : declared.Step) → IsByDecls k → (first_item k ≡ focus.now.number) ⊎ (last_item k ≡ focus.now.number) → CoversIn view.now found.new k) }
    ensures alone { IfOk result (λ alone. alone ≡ true → HasOwnDecls view.now.indexed.now.items focus.now.number) }
{
    rules_are_order_keyed();
    let _marks = view.indexed.marks();
    if is_known_alone(view.indexed, focus.number) {
        return Ok(true);
    }
    let rule = focus.rule;
    let weights = decl_weights(alloc, view.source, &rule.decls)?;
    let order_keys = view.tables.with_decl(alloc, rule, &weights)?;
    if order_keys.has_no_other(focus.order_key) {
        return Ok(true);
    }
    try_decl_partners(view, focus, &order_keys, found)?;
    Ok(false)
}

/// Puts the priorities of the joins by selectors of the focus. `Err(AllocError)` if memory is short.
pub(crate) fn look_at_selectors(
    alloc: Global,
    view: &View<'_>,
    focus: &Focus<'_>,
    found: &mut Found,
) -> Result<(), AllocError>
    requires view { IsView view.now }
    requires focus { IsFocus view.now focus.now }
    ensures grows { OnOk result (Grows view.now found.old found.new) }
    ensures covers { OnOk result ((k : declared.Step) → IsSelectorJoin k → (first_item k ≡ focus.now.number) ⊎ (last_item k ≡ focus.now.number) → CoversIn view.now found.new k) }
{
    rules_are_order_keyed();
    let _marks = view.indexed.marks();
    if focus.own_selectors {
        return Ok(());
    }
    let order_keys = view.tables.with_selectors(alloc, focus.rule)?;
    try_selector_partners(view, focus, order_keys.list(), found)
}
