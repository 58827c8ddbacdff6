//! Upper bounds for the weights of the rules of a plan.

ghost use Rattle.std.specs.Prelude.{◌≡◌, ◌+◌, ◌<◌, ◌≢◌, ◌≤◌, ℕ, IfSome, OnOk, Some, length, min, slice_get, true};
ghost use Rattle.std.specs.List.{AllByRecursion, Contains};
ghost use Rattle.css_model.specs.declared.sheet.Item.TheVariants as kinds;
ghost use Rattle.css_model.specs.Sheets.Limits.{max_bytes, max_items};
ghost use Rattle.css_model.specs.Sheets.Printed.{printed_declaration, printed_selector};
ghost use Rattle.css_model.specs.Sheets.RuleParts.{RuleParts};
ghost use Rattle.css_model.specs.Sheets.Sound.{IsSoundDeclaration};
ghost use Rattle.queue_laws.specs.MarkNames.{IsMarked};
ghost use Rattle.step_queue.specs.Once.{StandOnce};
ghost use Rattle.step_queue.specs.RuleWeights as weights;
ghost use Rattle.step_queue.specs.RuleWeights.{ArePlain, WeighsAtMost};
ghost use Rattle.indexed_sheet.specs.declared.marks.Mark as marking;
ghost use Rattle.planner_state.specs.Created.{AreCreated};
ghost use Rattle.planner_state.specs.Weighing as spec;
ghost use Rattle.step_laws.specs.Sizes.{weight};
ghost use Rattle.step_laws.specs.Steps.{HasStep};
ghost use Rattle.step_savings.specs.Weighing.{IsWeighable};

use css_model::{Decl, DeclItem, Item, MAX_BYTES, Rule};
use indexed_sheet::IndexedSheet;
use rule_parts::{Lengths, decls_weight, selectors_weight};
use saved_bytes::KnownLengths;
use smallvec::SmallVec;
use std::alloc::AllocError;
use step_laws::Step;
use step_queue::{RuleWeight, RuleWeights, are_decls_different};
use step_savings::items_of;

/// If a rule has more declarations than this, it is not known whether it has each once.
const MANY: usize = 256;

/// Returns `true` only if a rule has each of its declarations once.
fn has_each_once(rule: &Rule) -> bool
    ensures { result ≡ true → StandOnce (λ x. x.decl) rule.now.decls }
{
    rule.decls.len() <= MANY && are_decls_different(&rule.decls)
}

/// Returns how long a declaration is printed, if its property is written in the source as it is told.
fn told_length(decl: &Decl) -> u64
    ensures { result ≡ weights.told_length decl.now }
{
    let importance: u64 = if decl.important { 10 } else { 0 };
    decl.name.codes().len() as u64 + 1 + decl.value.bytes().len() as u64 + importance
}

/// Returns `true` only if each of the declarations is printed as long as its parts tell.
fn are_plain(source: &KnownLengths<'_>, decls: &[DeclItem]) -> bool
    requires sound { AllByRecursion (IsSoundDeclaration source.now) decls.now }
    requires small { weight (printed_declaration source.now) decls.now ≤ max_bytes }
    ensures { result ≡ true → ArePlain source.now decls.now }
{
    let mut rest = decls;
    'rest: while let Some((first, behind)) = rest.split_first() {
        if source.decl(first) != told_length(&first.decl) {
            return false;
        }
        rest = behind;
    }
    true
}

/// How many selectors of a rule are weighed anew after a join.
const FEW: usize = 8;

/// Returns what the selectors of a rule weigh at least: the first of them.
fn least_weight(source: &KnownLengths<'_>, rule: &Rule) -> u32
    requires { IsWeighable source.now rule.now }
    ensures { result ≤ weight (printed_selector source.now) rule.now.selectors }
{
    selectors_weight(source, &rule.selectors[..FEW.min(rule.selectors.len())]) as u32
}

/// Returns how many declarations a rule has, or 2^32 - 1 if they are more.
fn count_of(rule: &Rule) -> u32
    ensures { result ≤ length rule.now.decls }
{
    rule.decls.len().min(u32::MAX as usize) as u32
}

/// Returns what a rule weighs at most.
fn weight_of(source: &KnownLengths<'_>, rule: &Rule) -> RuleWeight
    requires { IsWeighable source.now rule.now }
    ensures { WeighsAtMost source.now rule.now result }
{
    let selectors = selectors_weight(source, &rule.selectors) as u32;
    RuleWeight {
        selectors,
        decls: decls_weight(source, &rule.decls) as u32,
        least: selectors,
        count: count_of(rule),
        once: has_each_once(rule),
        plain: are_plain(source, &rule.decls),
    }
}

/// Returns the sum of two weights, or `max_bytes` if the sum is more.
fn together(one: u32, other: u32) -> u32
    ensures { result ≡ min (one + other) max_bytes }
{
    let sum = u64::from(one) + u64::from(other);
    sum.min(u64::from(MAX_BYTES)) as u32
}

/// Returns what the rule that a join by selectors makes weighs at most.
fn joined_by_selectors(upper: RuleWeight, lower: RuleWeight) -> RuleWeight
    ensures { result ≡ spec.joined_by_selectors upper lower }
{
    RuleWeight {
        selectors: upper.selectors.max(lower.selectors),
        decls: together(upper.decls, lower.decls),
        least: 0,
        count: 0,
        once: false,
        plain: upper.plain && lower.plain,
    }
}

/// Returns what the rule that a join by declarations makes weighs at most.
fn joined_by_decls(upper: RuleWeight, lower: RuleWeight) -> RuleWeight
    ensures { result ≡ spec.joined_by_decls upper lower }
{
    RuleWeight {
        selectors: together(upper.selectors, lower.selectors),
        decls: upper.decls.max(lower.decls),
        least: 0,
        count: 0,
        once: upper.once && lower.once,
        plain: upper.plain && lower.plain,
    }
}

/// Returns what the rule of this number weighs at most, if the weights are those of the indexed sheet.
fn weight_at(indexed: &IndexedSheet, weights: &RuleWeights, number: u32) -> RuleWeight
    requires { number < length indexed.now.items }
    ensures { spec.IsAtMost indexed.now weights.now number result }
{
    weights.under(indexed.mark(number).item_id)
}

/// Returns what each rule that a step makes weighs at most, if the rule can be weighed.
/// This needs weights that are those of the indexed sheet. `None` says nothing.
pub(crate) fn made_weight(
    indexed: &IndexedSheet,
    weights: &RuleWeights,
    step: &Step,
) -> Option<RuleWeight>
    requires is_step { HasStep indexed.now.items step.now }
    ensures { IfSome result (spec.MakesAtMost indexed.now weights.now step.now) }
{
    let (first, last) = items_of(step);
    let upper = weight_at(indexed, weights, first);
    let lower = weight_at(indexed, weights, last);
    match step {
        Step::JoinSelUp { .. } | Step::JoinSelDown { .. } => Some(joined_by_selectors(
            upper, lower,
        )),
        Step::JoinDeclUp { .. } | Step::JoinDeclDown { .. } => Some(joined_by_decls(upper, lower)),
        Step::CutDecl { .. } | Step::CutSel { .. } | Step::Share { .. } => None,
    }
}

/// Returns what a rule weighs at most. `known` may have it.
fn known_weight(source: &KnownLengths<'_>, known: Option<RuleWeight>, rule: &Rule) -> RuleWeight
    requires weighable { IsWeighable source.now rule.now }
    requires known { IfSome known (WeighsAtMost source.now rule.now) }
    ensures { WeighsAtMost source.now rule.now result }
{
    match known {
        Some(weight) => RuleWeight {
            least: least_weight(source, rule),
            count: count_of(rule),
            once: weight.once || has_each_once(rule),
            ..weight
        },
        None => weight_of(source, rule),
    }
}

/// Notes what a rule weighs at most, under its item id.
fn weigh_rule(
    source: &KnownLengths<'_>,
    known: Option<RuleWeight>,
    item_id: u32,
    rule: &Rule,
    weights: &mut RuleWeights,
) -> Result<(), AllocError>
    requires weighable { IsWeighable source.now rule.now }
    requires known { IfSome known (WeighsAtMost source.now rule.now) }
    ensures weighed { OnOk result (spec.IsWeighed source.now weights.new item_id rule.now) }
    ensures stay { OnOk result (spec.Stay (λ b. b ≢ item_id) weights.old weights.new) }
{
    weights.put(item_id, known_weight(source, known, rule))
}

/// Notes what an item weighs at most, if it is a rule.
fn weigh_item(
    source: &KnownLengths<'_>,
    known: Option<RuleWeight>,
    item_id: u32,
    item: &Item,
    weights: &mut RuleWeights,
) -> Result<(), AllocError>
    requires weighable { (r : RuleParts) → item.now ≡ kinds.Rule r → IsWeighable source.now r }
    requires known { IfSome known (λ w. (r : RuleParts) → item.now ≡ kinds.Rule r → WeighsAtMost source.now r w) }
    ensures weighed { OnOk result ((r : RuleParts) → item.now ≡ kinds.Rule r → spec.IsWeighed source.now weights.new item_id r) }
    ensures stay { OnOk result (spec.Stay (λ b. b ≢ item_id) weights.old weights.new) }
{
    match item {
        Item::Rule(rule) => weigh_rule(source, known, item_id, rule, weights),
        _ => Ok(()),
    }
}

/// Returns the item of this number.
fn item_at(items: &[Item], number: u32) -> &Item
    requires { number < length items.now }
    ensures { slice_get items.now number ≡ Some result.now }
{
    &items[number as usize]
}

/// Notes what the item of this number weighs at most, if it is a rule created at `next` or later.
fn weigh_at(
    source: &KnownLengths<'_>,
    known: Option<RuleWeight>,
    indexed: &IndexedSheet,
    next: u32,
    number: u32,
    weights: &mut RuleWeights,
) -> Result<(), AllocError>
    requires there { number < length indexed.now.items }
    requires weighable { spec.AreWeighable source.now indexed.now.items }
    requires known { IfSome known (spec.AreAtMost source.now next indexed.now) }
    ensures weighed { OnOk result (spec.IsWeighedAt source.now next indexed.now weights.new number) }
    ensures others { OnOk result ((m : marking.Mark) → slice_get indexed.now.marks number ≡ Some m → spec.Stay (λ b. b ≢ m.item_id) weights.old weights.new) }
    ensures stay { OnOk result (spec.Stay (λ b. b < next) weights.old weights.new) }
{
    let item_id = indexed.mark(number).item_id;
    if item_id < next {
        return Ok(());
    }
    let item = item_at(indexed.items(), number);
    weigh_item(source, known, item_id, item, weights)
}

/// Notes what those of the items of these numbers weigh at most that are rules created at `next` or later.
fn weigh_those(
    source: &KnownLengths<'_>,
    known: Option<RuleWeight>,
    indexed: &IndexedSheet,
    next: u32,
    numbers: &[u32],
    weights: &mut RuleWeights,
) -> Result<(), AllocError>
    requires there { (n : ℕ) → Contains numbers.now n → n < length indexed.now.items }
    requires marked { IsMarked indexed.now }
    requires weighable { spec.AreWeighable source.now indexed.now.items }
    requires known { IfSome known (spec.AreAtMost source.now next indexed.now) }
    ensures weighed { OnOk result ((n : ℕ) → Contains numbers.now n → spec.IsWeighedAt source.now next indexed.now weights.new n) }
    ensures stay { OnOk result (spec.Stay (λ b. b < next) weights.old weights.new) }
{
    let mut rest = numbers;
    'rest: while let Some((number, behind)) = rest.split_first() {
        weigh_at(source, known, indexed, next, *number, weights)?;
        rest = behind;
    }
    Ok(())
}

/// Notes what each rule created at `next` or later weighs at most.
fn weigh_each(
    source: &KnownLengths<'_>,
    known: Option<RuleWeight>,
    indexed: &IndexedSheet,
    next: u32,
    weights: &mut RuleWeights,
) -> Result<(), AllocError>
    requires few_items { length indexed.now.items ≤ max_items }
    requires marked { IsMarked indexed.now }
    requires weighable { spec.AreWeighable source.now indexed.now.items }
    requires known { IfSome known (spec.AreAtMost source.now next indexed.now) }
    ensures weighed { OnOk result ((n : ℕ) → spec.IsWeighedAt source.now next indexed.now weights.new n) }
    ensures stay { OnOk result (spec.Stay (λ b. b < next) weights.old weights.new) }
{
    'numbers: for number in 0..indexed.marks().len() {
        weigh_at(source, known, indexed, next, number as u32, weights)?;
    }
    Ok(())
}

/// Notes what each rule created at `next` or later weighs at most.
/// `known` may have a bound for all of them. `created` may have the numbers of all items created then.
pub(crate) fn weigh_created(
    source: &KnownLengths<'_>,
    known: Option<RuleWeight>,
    indexed: &IndexedSheet,
    next: u32,
    created: &Option<SmallVec<u32, 4>>,
    weights: &mut RuleWeights,
) -> Result<(), AllocError>
    requires few_items { length indexed.now.items ≤ max_items }
    requires marked { IsMarked indexed.now }
    requires weighable { spec.AreWeighable source.now indexed.now.items }
    requires known { IfSome known (spec.AreAtMost source.now next indexed.now) }
    requires created { IfSome created.now (λ numbers. AreCreated indexed.now next numbers.items) }
    ensures weighed { OnOk result ((n : ℕ) → spec.IsWeighedAt source.now next indexed.now weights.new n) }
    ensures stay { OnOk result (spec.Stay (λ b. b < next) weights.old weights.new) }
{
    match created {
        Some(numbers) => weigh_those(source, known, indexed, next, numbers, weights),
        None => weigh_each(source, known, indexed, next, weights),
    }
}
