//! Takes a step in a marked sheet.

ghost use Rattle.std.specs.Prelude.{◌≡◌, ◌↔◌, ◌≤◌, ◌<◌, ◌+◌, ◌^◌, ◌∷◌, [], IfOk, IsTrue, length, map, true};
ghost use Rattle.std.specs.List.{remove};
ghost use Rattle.pending_laws.specs.declared.way.Way.{Way};
ghost use Rattle.pending_laws.specs.Ways.{IsMove, mover};
ghost use Rattle.merge_steps.specs.StepParts.{IsCutKind, IsJoinKind};
ghost use Rattle.order_laws.specs.Edits.{Edit, edited};
ghost use Rattle.indexed_sheet.specs.MarkList.{order_keys_of};
ghost use Rattle.indexed_sheet.specs.Marking.{AreKept, HasOrderKeyBefore, HasOrderKeyFor};
ghost use Rattle.indexed_sheet.specs.Putting.{items_in};
ghost use Rattle.step_laws.specs.Steps.{HasStep, IsStep, edit_of, first_item, last_item};
ghost use Rattle.css_model.specs.declared.sheet.Item.TheVariants as item;
ghost use Rattle.step_laws.specs.StepEdits as kinds;
ghost use Rattle.step_savings.specs.Apart.{AreApart, StepApart};
ghost use Rattle.step_savings.specs.CutParts.{HasPart};
ghost use Rattle.indexed_sheet.specs.LeftMasks.{BothHaveSelectorsOf, CutHasSelectorsOf, masks_in};
ghost use Rattle.item_masks.specs.Masks.{item_mask};

use crate::left_masks::{
    LeftMasks, masks_of, masks_of_joined, masks_of_rest, masks_of_shared, union,
};
use crate::marked::MarkedSheet;
use crate::marks::Mark;
use crate::parts::{
    Left, above_left, joined_down, joined_up, selectors_and_left, widened_down, widened_up,
    with_copies, without_decl, without_decls, without_selector,
};
use css_model::Rule;
use item_masks::ItemMask;
use rule_parts::common_decls;
use std::alloc::{AllocError, Global};
use step_laws::Step;
use step_savings::items_of;

/// Returns whether an order key is free between the mark of this number and the one before it.
/// It is `true` if the mark is the first one, or if there is none of this number.
fn has_order_key_before(marks: &[Mark], number: u32) -> bool
    ensures { IsTrue result ↔ HasOrderKeyBefore marks.now number }
{
    let number = number as usize;
    if number == 0 || number >= marks.len() {
        return true;
    }
    let above = marks[number - 1].order_key;
    let below = marks[number].order_key;
    above < below && below - above > 1
}

/// What a step puts instead of its two rules.
#[derive(Debug, Drop)]
struct Halves {
    above: Left,
    below: Left,
}

/// Returns what a cut leaves of its rule.
fn cut(step: &Step, rule: Rule) -> Left
    requires cut { IsCutKind step.now }
    requires part { HasPart step.now rule }
    ensures { (edit_of step.now rule rule).changes ≡ record { at = first_item step.now; by = items_in result } ∷ [] }
{
    match *step {
        Step::CutDecl { decl, .. } => without_decl(rule, decl),
        Step::CutSel { sel, .. } => without_selector(rule, sel),
        _ => unreachable!(),
    }
}

/// Returns what a share leaves of its rules.
/// `apart` says that they have no selector in common.
fn share(
    alloc: Global,
    x: u32,
    upper: Rule,
    y: u32,
    lower: Rule,
    apart: bool,
) -> Result<Halves, AllocError>
    requires apart { apart ≡ true → AreApart upper lower }
    ensures changes { IfOk result (λ h. (kinds.share x y upper lower).changes ≡ record { at = x; by = items_in h.above } ∷ record { at = y; by = items_in h.below } ∷ []) }
{
    let decls = common_decls(alloc, &upper, &lower)?;
    let above = without_decls(alloc, &decls, upper)?;
    let below = without_decls(alloc, &decls, lower)?;
    let (selectors, above) = selectors_and_left(alloc, above)?;
    let selectors = with_copies(alloc, selectors, &below.selectors, apart)?;
    let made = Rule { selectors, decls };
    Ok(Halves {
        above,
        below: above_left(made, below),
    })
}

/// Returns what a step of two rules leaves of them.
/// `apart` says that they have no selector in common.
fn both_left(
    alloc: Global,
    step: &Step,
    upper: Rule,
    lower: Rule,
    apart: bool,
) -> Result<Halves, AllocError>
    requires join { IsJoinKind step.now }
    requires apart { apart ≡ true → AreApart upper lower }
    ensures changes { IfOk result (λ h. (edit_of step.now upper lower).changes ≡ record { at = first_item step.now; by = items_in h.above } ∷ record { at = last_item step.now; by = items_in h.below } ∷ []) }
{
    match *step {
        Step::JoinSelUp { .. } => Ok(up(joined_up(upper, lower)?)),
        Step::JoinSelDown { .. } => Ok(down(joined_down(upper, lower)?)),
        Step::JoinDeclUp { .. } => Ok(up(widened_up(alloc, upper, lower, apart)?)),
        Step::JoinDeclDown { .. } => Ok(down(widened_down(alloc, upper, lower, apart)?)),
        Step::Share { upper: x, lower: y } => share(alloc, x, upper, y, lower, apart),
        _ => unreachable!(),
    }
}

/// Returns the masks of what a cut leaves of a rule with this mask.
fn masks_of_cut(step: &Step, left: &Left, mask: ItemMask) -> LeftMasks
    requires { CutHasSelectorsOf step.now (items_in left.now) mask }
    ensures { masks_in result ≡ map item_mask (items_in left.now) }
{
    match step {
        Step::CutDecl { .. } => masks_of_rest(left, mask),
        _ => masks_of(left),
    }
}

/// Returns the masks of what a step of two rules with these masks leaves above and below.
fn masks_of_both(
    step: &Step,
    left: &Halves,
    upper: ItemMask,
    lower: ItemMask,
) -> (LeftMasks, LeftMasks)
    requires { BothHaveSelectorsOf step.now (items_in left.now.above) (items_in left.now.below) upper lower }
    ensures above { masks_in result.0 ≡ map item_mask (items_in left.now.above) }
    ensures below { masks_in result.1 ≡ map item_mask (items_in left.now.below) }
{
    let both = union(upper, lower);
    match step {
        Step::Share { .. } => (
            masks_of_rest(&left.above, upper),
            masks_of_shared(&left.below, both, lower),
        ),
        _ => (
            masks_of_joined(&left.above, both),
            masks_of_joined(&left.below, both),
        ),
    }
}

/// Returns a rule in the upper place, and nothing in the lower one.
fn up(rule: Rule) -> Halves
    ensures above { items_in result.above ≡ item.Rule rule ∷ [] }
    ensures below { items_in result.below ≡ [] }
{
    Halves {
        above: Left::One(rule),
        below: Left::Nothing,
    }
}

/// Returns a rule in the lower place, and nothing in the upper one.
fn down(rule: Rule) -> Halves
    ensures above { items_in result.above ≡ [] }
    ensures below { items_in result.below ≡ item.Rule rule ∷ [] }
{
    Halves {
        above: Left::Nothing,
        below: Left::One(rule),
    }
}

impl MarkedSheet {
    /// Returns whether a share has a free order key for its new rule, before the mark of its lower rule.
    /// Any other step needs no order key: the answer is `true`.
    pub(crate) fn has_order_key_for(&self, step: &Step) -> bool
        ensures { IsTrue result ↔ HasOrderKeyFor self.now.marks step.now }
    {
        match *step {
            Step::Share { lower, .. } => has_order_key_before(self.marks(), lower),
            _ => true,
        }
    }

    /// Returns the sheet after a cut.
    fn take_cut(self, step: &Step, number: u32) -> Result<MarkedSheet, AllocError>
        requires is_step { HasStep self.items step.now }
        requires cut { IsCutKind step.now }
        requires number { number ≡ first_item step.now }
        requires item_ids { self.next + 4 < 2 ^ 32 }
        ensures items { IfOk result (λ b. (e : Edit) → IsStep self.items step.now e → b.items ≡ edited e self.items) }
        ensures marks { IfOk result (λ b. (e : Edit) → IsStep self.items step.now e → AreKept self b e) }
        ensures more { IfOk result (λ b. self.next ≤ b.next) }
        ensures few { IfOk result (λ b. b.next ≤ self.next + 4) }
    {
        let mask = self.mask(number);
        let (indexed, rule) = self.lift(number);
        let left = cut(step, rule);
        let masks = masks_of_cut(step, &left, mask);
        let after = indexed.put(number, left, masks)?;
        Ok(after)
    }

    /// Returns the sheet after a step of two rules.
    /// `apart` says that they have no selector in common.
    fn take_two(
        self,
        alloc: Global,
        step: &Step,
        upper: u32,
        lower: u32,
        apart: bool,
    ) -> Result<MarkedSheet, AllocError>
        requires is_step { HasStep self.items step.now }
        requires join { IsJoinKind step.now }
        requires first { upper ≡ first_item step.now }
        requires last { lower ≡ last_item step.now }
        requires order_key { HasOrderKeyFor self.marks step.now }
        requires item_ids { self.next + 4 < 2 ^ 32 }
        requires apart { apart ≡ true → StepApart self.items step.now }
        ensures items { IfOk result (λ b. (e : Edit) → IsStep self.items step.now e → b.items ≡ edited e self.items) }
        ensures marks { IfOk result (λ b. (e : Edit) → IsStep self.items step.now e → AreKept self b e) }
        ensures order_keys { IfOk result (λ b. (way : Way) → IsMove way step.now → order_keys_of b.marks ≡ remove (order_keys_of self.marks) (mover way step.now)) }
        ensures more { IfOk result (λ b. self.next ≤ b.next) }
        ensures created { IfOk result (λ b. (way : Way) → IsMove way step.now → self.next < b.next) }
        ensures few { IfOk result (λ b. b.next ≤ self.next + 4) }
    {
        let (upper_mask, lower_mask) = (self.mask(upper), self.mask(lower));
        let (lifted, above) = self.lift(upper);
        let (again, below) = lifted.lift(lower);
        let left = both_left(alloc, step, above, below, apart)?;
        let (masks_above, masks_below) = masks_of_both(step, &left, upper_mask, lower_mask);
        let Halves { above, below } = left;
        let between = again.put(lower, below, masks_below)?;
        let after = between.put(upper, above, masks_above)?;
        Ok(after)
    }

    /// Returns the sheet after one of its steps.
    /// Items that the step leaves keep their marks. All other items have item ids from the old `next` on. `apart` says that the
    /// rules of the step have no selector in common. `Err(AllocError)` if memory is short; the sheet is consumed then too.
    pub(crate) fn take(
        self,
        alloc: Global,
        step: &Step,
        apart: bool,
    ) -> Result<MarkedSheet, AllocError>
        requires is_step { HasStep self.items step.now }
        requires order_key { HasOrderKeyFor self.marks step.now }
        requires item_ids { self.next + 4 < 2 ^ 32 }
        requires apart { apart ≡ true → StepApart self.items step.now }
        ensures items { IfOk result (λ b. (e : Edit) → IsStep self.items step.now e → b.items ≡ edited e self.items) }
        ensures marks { IfOk result (λ b. (e : Edit) → IsStep self.items step.now e → AreKept self b e) }
        ensures order_keys { IfOk result (λ b. (way : Way) → IsMove way step.now → order_keys_of b.marks ≡ remove (order_keys_of self.marks) (mover way step.now)) }
        ensures more { IfOk result (λ b. self.next ≤ b.next) }
        ensures created { IfOk result (λ b. (way : Way) → IsMove way step.now → self.next < b.next) }
        ensures few { IfOk result (λ b. b.next ≤ self.next + 4) }
    {
        let (first, last) = items_of(step);
        match step {
            Step::CutDecl { .. } | Step::CutSel { .. } => self.take_cut(step, first),
            _ => self.take_two(alloc, step, first, last, apart),
        }
    }
}
