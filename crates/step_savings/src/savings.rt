//! What a step saves.

ghost use Rattle.std.specs.Prelude.{◌≡◌, ◌∷◌, [], true, false, ◌+◌, ◌≤◌, ◌++◌, ◌==◌, ◌||◌, ◌*◌, if◌then◌else◌, ◌-ℤ◌, ◌<◌, Some, pos, length, not, slice_get};
ghost use Rattle.std.specs.List.{AllByRecursion, filter, remove};
ghost use Rattle.css_model.specs.declared.sheet.Item.TheVariants as item;
ghost use Rattle.css_model.specs.Sheets.Limits.{max_bytes};
ghost use Rattle.css_model.specs.Sheets.Printed.{printed_selector, printed_declaration};
ghost use Rattle.css_model.specs.Sheets.Sound.{IsSound, IsSoundDeclaration, IsSoundSelector};
ghost use Rattle.step_savings.specs.Apart.{AreApart, StepApart};
ghost use Rattle.step_savings.specs.CutParts.{HasPart};
ghost use Rattle.step_savings.specs.Weighing as weighing;
ghost use Rattle.order_laws.specs.Edits.{Edit, edited};
ghost use Rattle.order_laws.specs.Members as members;
ghost use Rattle.step_laws.specs.RuleParting as parting;
ghost use Rattle.step_laws.specs.Sizes as sizes;
ghost use Rattle.step_laws.specs.StepEdits as kinds;
ghost use Rattle.step_laws.specs.Steps.{HasStep, IsStep, edit_of};

use crate::rules::{items_of, rule_at};
use css_model::{DeclItem, Item, Rule, SelItem, Sheet};
use rule_parts::{
    Lengths, are_decls_among, common_decls_weight, decls_among_weight, decls_weight,
    new_selectors_weight, selectors_among_weight, selectors_weight,
};
use step_laws::Step;

/// The parts of a rule.
#[derive(Clone, Copy, Debug)]
struct Parts<'a> {
    selectors: &'a [SelItem],
    decls: &'a [DeclItem],
}

/// The weight of the selectors of the lower rule that the upper one has. `apart` says that it is known to have none.
fn common_selectors_weight<L: Lengths>(
    lengths: &L,
    upper: &Parts,
    lower: &Parts,
    apart: bool,
) -> u64
    requires lower { weighing.IsWeighable (L.source lengths.now) (weighing.rule_of lower.now) }
    requires apart { apart ≡ true → AreApart (weighing.rule_of upper.now) (weighing.rule_of lower.now) }
    ensures exact { result ≡ sizes.weight (printed_selector (L.source lengths.now)) (filter (λ s. members.has_selector upper.now.selectors.now s.selector) lower.now.selectors.now) }
    ensures small { result ≤ max_bytes }
{
    if apart {
        return 0;
    }
    selectors_among_weight(lengths, lower.selectors, upper.selectors)
}

/// The weight of the selectors of the lower rule that the upper one lacks. `apart` says that it is known to lack each.
fn more_selectors_weight<L: Lengths>(lengths: &L, upper: &Parts, lower: &Parts, apart: bool) -> u64
    requires lower { weighing.IsWeighable (L.source lengths.now) (weighing.rule_of lower.now) }
    requires apart { apart ≡ true → AreApart (weighing.rule_of upper.now) (weighing.rule_of lower.now) }
    ensures exact { result ≡ sizes.weight (printed_selector (L.source lengths.now)) (filter (λ s. not (members.has_selector upper.now.selectors.now s.selector)) lower.now.selectors.now) }
    ensures small { result ≤ max_bytes }
{
    if apart {
        return selectors_weight(lengths, lower.selectors);
    }
    new_selectors_weight(lengths, lower.selectors, upper.selectors)
}

/// The weight of the selectors of the upper rule, and of those of the lower one that the upper one lacks.
#[tactic(auto, using(crate::proofs::JoinWeights::both_weigh))]
fn both_selectors_weight<L: Lengths>(lengths: &L, upper: &Parts, lower: &Parts, apart: bool) -> u64
    requires upper { weighing.IsWeighable (L.source lengths.now) (weighing.rule_of upper.now) }
    requires lower { weighing.IsWeighable (L.source lengths.now) (weighing.rule_of lower.now) }
    requires apart { apart ≡ true → AreApart (weighing.rule_of upper.now) (weighing.rule_of lower.now) }
    ensures exact { result ≡ sizes.weight (printed_selector (L.source lengths.now)) (parting.both_selectors (weighing.rule_of upper.now) (weighing.rule_of lower.now)) }
    ensures small { result ≤ max_bytes + max_bytes }
{
    let whole = selectors_weight(lengths, upper.selectors);
    let more = more_selectors_weight(lengths, upper, lower, apart);
    whole + more
}

/// The selector of this number.
fn selector_at(items: &[SelItem], number: u32) -> &SelItem
    requires { number < length items.now }
    ensures { slice_get items.now number ≡ Some result.now }
{
    &items[number as usize]
}

/// The declaration of this number.
fn decl_at(items: &[DeclItem], number: u32) -> &DeclItem
    requires { number < length items.now }
    ensures { slice_get items.now number ≡ Some result.now }
{
    &items[number as usize]
}

/// What the selector of this number adds to the weight of the others.
#[tactic(auto, using(crate::proofs::CutWeights::selector_is_sound, crate::proofs::CutWeights::decl_is_sound))]
fn one_selector_weight<L: Lengths>(lengths: &L, items: &[SelItem], number: u32) -> u64
    requires sound { AllByRecursion (IsSoundSelector (L.source lengths.now)) items.now }
    requires small { sizes.weight (printed_selector (L.source lengths.now)) items.now ≤ max_bytes }
    requires part { number < length items.now }
    ensures exact { result + sizes.weight (printed_selector (L.source lengths.now)) (remove items.now number) ≡ sizes.weight (printed_selector (L.source lengths.now)) items.now }
    ensures small { result ≤ 2 * max_bytes }
{
    let item = selector_at(items, number);
    lengths.selector(item) + 1
}

/// What the declaration of this number adds to the weight of the others.
#[tactic(auto, using(crate::proofs::CutWeights::selector_is_sound, crate::proofs::CutWeights::decl_is_sound))]
fn one_decl_weight<L: Lengths>(lengths: &L, items: &[DeclItem], number: u32) -> u64
    requires sound { AllByRecursion (IsSoundDeclaration (L.source lengths.now)) items.now }
    requires small { sizes.weight (printed_declaration (L.source lengths.now)) items.now ≤ max_bytes }
    requires part { number < length items.now }
    ensures exact { result + sizes.weight (printed_declaration (L.source lengths.now)) (remove items.now number) ≡ sizes.weight (printed_declaration (L.source lengths.now)) items.now }
    ensures small { result ≤ 2 * max_bytes }
{
    let item = decl_at(items, number);
    lengths.decl(item) + 1
}

/// The weight of a rule.
fn rule_weight<L: Lengths>(lengths: &L, rule: &Parts) -> u64
    requires weighable { weighing.IsWeighable (L.source lengths.now) (weighing.rule_of rule.now) }
    ensures exact { result ≡ sizes.rule_weight (L.source lengths.now) (weighing.rule_of rule.now) }
    ensures small { result ≤ 2 * max_bytes }
{
    let selectors = selectors_weight(lengths, rule.selectors);
    let decls = decls_weight(lengths, rule.decls);
    selectors + decls
}

/// Whether the cut of a declaration leaves nothing of a rule.
#[tactic(auto, using(crate::proofs::CutWeights::no_selectors_leave_none, crate::proofs::CutWeights::last_decl_leaves_none, crate::proofs::CutWeights::decl_leaves_rule))]
fn decl_cut_leaves_none(rule: &Parts, decl: u32) -> bool
    requires { decl < length rule.now.decls.now }
    ensures none { result ≡ true → parting.rule_or_none (record { selectors = rule.now.selectors.now; decls = remove rule.now.decls.now decl }) ≡ [] }
    ensures some { result ≡ false → parting.rule_or_none (record { selectors = rule.now.selectors.now; decls = remove rule.now.decls.now decl }) ≡ item.Rule (record { selectors = rule.now.selectors.now; decls = remove rule.now.decls.now decl }) ∷ [] }
{
    if rule.selectors.is_empty() {
        return true;
    }
    rule.decls.len() < 2
}

/// Whether the cut of a selector leaves nothing of a rule.
#[tactic(auto, using(crate::proofs::CutWeights::no_decls_leave_none, crate::proofs::CutWeights::last_selector_leaves_none, crate::proofs::CutWeights::selector_leaves_rule))]
fn selector_cut_leaves_none(rule: &Parts, sel: u32) -> bool
    requires { sel < length rule.now.selectors.now }
    ensures none { result ≡ true → parting.rule_or_none (record { selectors = remove rule.now.selectors.now sel; decls = rule.now.decls.now }) ≡ [] }
    ensures some { result ≡ false → parting.rule_or_none (record { selectors = remove rule.now.selectors.now sel; decls = rule.now.decls.now }) ≡ item.Rule (record { selectors = remove rule.now.selectors.now sel; decls = rule.now.decls.now }) ∷ [] }
{
    if rule.decls.is_empty() {
        return true;
    }
    rule.selectors.len() < 2
}

/// What a rule weighs more than what the cut of a declaration leaves of it.
#[tactic(auto, using(crate::proofs::CutWeights::decl_cut_weighs, crate::proofs::CutWeights::none_weighs))]
fn cut_decl_weight<L: Lengths>(lengths: &L, rule: &Parts, decl: u32) -> u64
    requires weighable { weighing.IsWeighable (L.source lengths.now) (weighing.rule_of rule.now) }
    requires part { decl < length rule.now.decls.now }
    ensures exact { result + sizes.rules_weight (L.source lengths.now) (parting.rule_or_none (record { selectors = rule.now.selectors.now; decls = remove rule.now.decls.now decl })) ≡ sizes.rule_weight (L.source lengths.now) (weighing.rule_of rule.now) }
    ensures small { result ≤ 2 * max_bytes }
{
    if decl_cut_leaves_none(rule, decl) {
        return rule_weight(lengths, rule);
    }
    one_decl_weight(lengths, rule.decls, decl)
}

/// What a rule weighs more than what the cut of a selector leaves of it.
#[tactic(auto, using(crate::proofs::CutWeights::selector_cut_weighs, crate::proofs::CutWeights::none_weighs))]
fn cut_selector_weight<L: Lengths>(lengths: &L, rule: &Parts, sel: u32) -> u64
    requires weighable { weighing.IsWeighable (L.source lengths.now) (weighing.rule_of rule.now) }
    requires part { sel < length rule.now.selectors.now }
    ensures exact { result + sizes.rules_weight (L.source lengths.now) (parting.rule_or_none (record { selectors = remove rule.now.selectors.now sel; decls = rule.now.decls.now })) ≡ sizes.rule_weight (L.source lengths.now) (weighing.rule_of rule.now) }
    ensures small { result ≤ 2 * max_bytes }
{
    if selector_cut_leaves_none(rule, sel) {
        return rule_weight(lengths, rule);
    }
    one_selector_weight(lengths, rule.selectors, sel)
}

/// What two rules weigh more than one with the selectors of the upper one and the declarations of both.
fn join_selectors_up_weight<L: Lengths>(lengths: &L, upper: &Parts, lower: &Parts) -> u64
    requires lower { weighing.IsWeighable (L.source lengths.now) (weighing.rule_of lower.now) }
    ensures exact { result + sizes.rule_weight (L.source lengths.now) (record { selectors = upper.now.selectors.now; decls = upper.now.decls.now ++ lower.now.decls.now }) ≡ weighing.both_weight (L.source lengths.now) (weighing.rule_of upper.now) (weighing.rule_of lower.now) }
    ensures small { result ≤ 2 * max_bytes }
{
    selectors_weight(lengths, lower.selectors)
}

/// What two rules weigh more than one with the selectors of the lower one and the declarations of both.
fn join_selectors_down_weight<L: Lengths>(lengths: &L, upper: &Parts, lower: &Parts) -> u64
    requires upper { weighing.IsWeighable (L.source lengths.now) (weighing.rule_of upper.now) }
    ensures exact { result + sizes.rule_weight (L.source lengths.now) (record { selectors = lower.now.selectors.now; decls = upper.now.decls.now ++ lower.now.decls.now }) ≡ weighing.both_weight (L.source lengths.now) (weighing.rule_of upper.now) (weighing.rule_of lower.now) }
    ensures small { result ≤ 2 * max_bytes }
{
    selectors_weight(lengths, upper.selectors)
}

/// What two rules weigh more than one with the selectors of both and the declarations of the upper one.
fn join_decls_up_weight<L: Lengths>(lengths: &L, upper: &Parts, lower: &Parts, apart: bool) -> u64
    requires lower { weighing.IsWeighable (L.source lengths.now) (weighing.rule_of lower.now) }
    requires apart { apart ≡ true → AreApart (weighing.rule_of upper.now) (weighing.rule_of lower.now) }
    ensures exact { result + sizes.rule_weight (L.source lengths.now) (record { selectors = parting.both_selectors (weighing.rule_of upper.now) (weighing.rule_of lower.now); decls = upper.now.decls.now }) ≡ weighing.both_weight (L.source lengths.now) (weighing.rule_of upper.now) (weighing.rule_of lower.now) }
    ensures small { result ≤ 2 * max_bytes }
{
    let common = common_selectors_weight(lengths, upper, lower, apart);
    let decls = decls_weight(lengths, lower.decls);
    common + decls
}

/// What two rules weigh more than one with the selectors of both and the declarations of the lower one.
fn join_decls_down_weight<L: Lengths>(lengths: &L, upper: &Parts, lower: &Parts, apart: bool) -> u64
    requires upper { weighing.IsWeighable (L.source lengths.now) (weighing.rule_of upper.now) }
    requires lower { weighing.IsWeighable (L.source lengths.now) (weighing.rule_of lower.now) }
    requires apart { apart ≡ true → AreApart (weighing.rule_of upper.now) (weighing.rule_of lower.now) }
    ensures exact { result + sizes.rule_weight (L.source lengths.now) (record { selectors = parting.both_selectors (weighing.rule_of upper.now) (weighing.rule_of lower.now); decls = lower.now.decls.now }) ≡ weighing.both_weight (L.source lengths.now) (weighing.rule_of upper.now) (weighing.rule_of lower.now) }
    ensures small { result ≤ 2 * max_bytes }
{
    let common = common_selectors_weight(lengths, upper, lower, apart);
    let decls = decls_weight(lengths, upper.decls);
    common + decls
}

/// Whether nothing is left of a rule without what it has in common with another one.
#[tactic(auto, using(crate::proofs::ShareWeights::gone_without, crate::proofs::ShareWeights::gone_with_all, crate::proofs::ShareWeights::stays))]
fn is_gone(rule: &Parts, other: &Parts) -> bool
    ensures gone { result ≡ true → weighing.rest_of (weighing.rule_of rule.now) (weighing.rule_of other.now) ≡ [] }
    ensures stays { result ≡ false → weighing.rest_of (weighing.rule_of rule.now) (weighing.rule_of other.now) ≡ item.Rule (parting.without_decls other.now.decls.now (weighing.rule_of rule.now)) ∷ [] }
{
    if rule.selectors.is_empty() {
        return true;
    }
    are_decls_among(rule.decls, other.decls)
}

/// What a rule weighs more than what is left of it without what it has in common with another one.
#[tactic(auto, using(crate::proofs::ShareWeights::gone_weighs, crate::proofs::ShareWeights::common_weigh))]
fn lost_weight<L: Lengths>(lengths: &L, rule: &Parts, other: &Parts) -> u64
    requires weighable { weighing.IsWeighable (L.source lengths.now) (weighing.rule_of rule.now) }
    ensures exact { result + weighing.rest_weight (L.source lengths.now) (weighing.rule_of rule.now) (weighing.rule_of other.now) ≡ sizes.rule_weight (L.source lengths.now) (weighing.rule_of rule.now) }
    ensures small { result ≤ 2 * max_bytes }
{
    if is_gone(rule, other) {
        return rule_weight(lengths, rule);
    }
    decls_among_weight(lengths, rule.decls, other.decls)
}

/// The weight of a rule with the selectors of both and their common declarations.
fn shared_weight<L: Lengths>(lengths: &L, upper: &Parts, lower: &Parts, apart: bool) -> u64
    requires upper { weighing.IsWeighable (L.source lengths.now) (weighing.rule_of upper.now) }
    requires lower { weighing.IsWeighable (L.source lengths.now) (weighing.rule_of lower.now) }
    requires apart { apart ≡ true → AreApart (weighing.rule_of upper.now) (weighing.rule_of lower.now) }
    ensures exact { result ≡ sizes.rule_weight (L.source lengths.now) (kinds.shared (weighing.rule_of upper.now) (weighing.rule_of lower.now)) }
    ensures small { result ≤ 4 * max_bytes }
{
    let selectors = both_selectors_weight(lengths, upper, lower, apart);
    let decls = common_decls_weight(lengths, lower.decls, upper.decls);
    selectors + decls
}

/// The weight of what a share puts in besides what it leaves of its rules; of other steps nothing.
fn brought_weight<L: Lengths>(
    lengths: &L,
    step: &Step,
    upper: &Parts,
    lower: &Parts,
    apart: bool,
) -> u64
    requires upper { weighing.IsWeighable (L.source lengths.now) (weighing.rule_of upper.now) }
    requires lower { weighing.IsWeighable (L.source lengths.now) (weighing.rule_of lower.now) }
    requires apart { apart ≡ true → AreApart (weighing.rule_of upper.now) (weighing.rule_of lower.now) }
    ensures exact { result + weighing.stays_weight (L.source lengths.now) step.now (weighing.rule_of upper.now) (weighing.rule_of lower.now) ≡ sizes.brought_weight (L.source lengths.now) (edit_of step.now (weighing.rule_of upper.now) (weighing.rule_of lower.now)).changes }
    ensures small { result ≤ 4 * max_bytes }
{
    match step {
        Step::Share { .. } => shared_weight(lengths, upper, lower, apart),
        Step::CutDecl { .. }
        | Step::CutSel { .. }
        | Step::JoinSelUp { .. }
        | Step::JoinSelDown { .. }
        | Step::JoinDeclUp { .. }
        | Step::JoinDeclDown { .. } => 0,
    }
}

/// The weight of the rules that a step takes, but for what stays of it.
fn taken_weight<L: Lengths>(
    lengths: &L,
    step: &Step,
    upper: &Parts,
    lower: &Parts,
    apart: bool,
) -> u64
    requires upper { weighing.IsWeighable (L.source lengths.now) (weighing.rule_of upper.now) }
    requires lower { weighing.IsWeighable (L.source lengths.now) (weighing.rule_of lower.now) }
    requires part { HasPart step.now (weighing.rule_of upper.now) }
    requires apart { apart ≡ true → AreApart (weighing.rule_of upper.now) (weighing.rule_of lower.now) }
    ensures exact { result + weighing.stays_weight (L.source lengths.now) step.now (weighing.rule_of upper.now) (weighing.rule_of lower.now) ≡ sizes.taken_weight (L.source lengths.now) step.now (weighing.rule_of upper.now) (weighing.rule_of lower.now) }
    ensures small { result ≤ 4 * max_bytes }
{
    match *step {
        Step::CutDecl { decl, .. } => cut_decl_weight(lengths, upper, decl),
        Step::CutSel { sel, .. } => cut_selector_weight(lengths, upper, sel),
        Step::JoinSelUp { .. } => join_selectors_up_weight(lengths, upper, lower),
        Step::JoinSelDown { .. } => join_selectors_down_weight(lengths, upper, lower),
        Step::JoinDeclUp { .. } => join_decls_up_weight(lengths, upper, lower, apart),
        Step::JoinDeclDown { .. } => join_decls_down_weight(lengths, upper, lower, apart),
        Step::Share { .. } => lost_weight(lengths, upper, lower)
            + lost_weight(lengths, lower, upper),
    }
}

/// The parts of a rule.
fn parts_of(rule: &Rule) -> Parts<'_>
    ensures { weighing.rule_of result ≡ rule.now }
{
    Parts {
        selectors: &rule.selectors,
        decls: &rule.decls,
    }
}

/// How much the first number is above the second.
fn difference(more: u32, less: u32) -> i64
    ensures { result ≡ pos more -ℤ pos less }
{
    i64::from(more) - i64::from(less)
}

/// What a step of a sheet saves, in bytes, as `saving_by` gives it. `apart` says that the rules of a step of two items
/// have no selector in common. Their selectors are not compared then.
pub fn saving_if_apart<L: Lengths>(lengths: &L, items: &[Item], step: &Step, apart: bool) -> i64
    requires is_step { HasStep items.now step.now }
    requires sound { IsSound (L.source lengths.now) items.now }
    requires short { sizes.size (L.source lengths.now) items.now ≤ max_bytes }
    requires apart { apart ≡ true → StepApart items.now step.now }
    ensures { (e : Edit) → IsStep items.now step.now e → result ≡ pos (sizes.size (L.source lengths.now) items.now) -ℤ pos (sizes.size (L.source lengths.now) (edited e items.now)) }
{
    let (first, last) = items_of(step);
    let upper = parts_of(rule_at(items, first));
    let lower = parts_of(rule_at(items, last));
    let taken = taken_weight(lengths, step, &upper, &lower, apart);
    let brought = brought_weight(lengths, step, &upper, &lower, apart);
    difference(taken as u32, brought as u32)
}

/// What a step of a sheet saves, in bytes, by the lengths of the parts: the length of the items' printed texts before
/// the step less that after it. A space before a byte order mark does not count.
pub fn saving_by<L: Lengths>(lengths: &L, sheet: &Sheet, step: &Step) -> i64
    requires is_step { HasStep sheet.now.items step.now }
    requires sound { IsSound (L.source lengths.now) sheet.now.items }
    requires short { sizes.size (L.source lengths.now) sheet.now.items ≤ max_bytes }
    ensures { (e : Edit) → IsStep sheet.now.items step.now e → result ≡ pos (sizes.size (L.source lengths.now) sheet.now.items) -ℤ pos (sizes.size (L.source lengths.now) (edited e sheet.now.items)) }
{
    saving_if_apart(lengths, &sheet.items, step, false)
}
