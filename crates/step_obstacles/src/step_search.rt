//! What blocks a step, looked for among the items from its first to its last one.

ghost use Rattle.std.specs.Prelude.{◌≡◌, ◌<◌, true, IfNone, IfOk, IfSome, None, Some, bit_or, length, map, slice_get};
ghost use Rattle.css_model.specs.declared.sheet.Item.TheVariants as kinds;
ghost use Rattle.css_model.specs.Sheets.RuleParts.{RuleParts};
ghost use Rattle.std.specs.Option.{ForSome};
ghost use Rattle.item_masks.specs.declared.mask.ItemMask as declared;
ghost use Rattle.item_masks.specs.Masks.{item_mask};
ghost use Rattle.obstacles.specs.Blocking.{IsBlockedBy};
ghost use Rattle.order_laws.specs.Edits.{Edit};
ghost use Rattle.step_obstacles.specs.Asking.{Stays};
ghost use Rattle.sheet_order.specs.Laws.{answer_seen};
ghost use Rattle.sheet_order.specs.declared.places.Moved.TheVariants as moved;
ghost use Rattle.sheet_order.specs.Narrow.{CanBePlanned};
ghost use Rattle.sheet_order.specs.Taking as taking;
ghost use Rattle.step_laws.specs.Free.{IsFree};
ghost use Rattle.step_laws.specs.Steps.{HasStep, IsStep};
ghost use Rattle.step_obstacles.specs.Hinted.{IsFirstOf};
ghost use Rattle.step_obstacles.specs.Spans.{IsEnoughFor, IsWithin};
ghost use Rattle.step_obstacles.specs.StepWindow.{AreThere, IsToldBy, IsWindowFor};
ghost use Rattle.step_obstacles.specs.Turns as turns;
ghost use Rattle.plan_laws.specs.Window.Beside as beside;
ghost use Rattle.plan_laws.specs.Window.StepWindows as windows;

use crate::behind::{rule_is_behind, takes_rule};
use crate::bounded_pairs::BoundedPairs;
use crate::decl_masks::{bits_of, masks_of};
use crate::facing::Source;
use crate::hinted::by_hint;
use crate::hints::{Hints, Move, hint_of, move_of, mover_of, note_found};
use crate::left_parts::left_by;
use crate::selector_masks::selector_masks_of;
use crate::specificities::specificities_of;
use crate::window_search::{Span, in_window};
use css_model::{Item, Rule};
use indexed_sheet::IndexedSheet;
use item_masks::ItemMask;
use obstacles::{Obstacle, Stopped};
use plan_laws::{reversed_stand_beside, steps_have_windows, windows_tell_kept, windows_tell_pairs};
use print_laws::selectors_are_in_the_profile;
use sheet_order::Moved;
use std::alloc::{AllocError, Global};
use step_laws::{Step, parts_are_few, steps_are_one_edit};
use step_savings::{items_of, rule_at};
use window_order::Window;

/// Where the window of a step begins, and its middle part.
fn starts_of(step: &Step) -> (usize, usize)
    ensures start { result.0 ≡ windows.window_start step.now }
    ensures middle { result.1 ≡ windows.middle_start step.now }
{
    match *step {
        Step::CutDecl { .. } | Step::CutSel { .. } => (0, 0),
        Step::JoinSelUp { upper, .. }
        | Step::JoinSelDown { upper, .. }
        | Step::JoinDeclUp { upper, .. }
        | Step::JoinDeclDown { upper, .. }
        | Step::Share { upper, .. } => (upper as usize, upper as usize + 1),
    }
}

/// The bits of the masks of two items, by their numbers.
fn both_masks(masks: &[ItemMask], first: u32, last: u32) -> ItemMask
    requires first { first < length masks.now }
    requires last { last < length masks.now }
    ensures { (m n : declared.ItemMask) → slice_get masks.now first ≡ Some m → slice_get masks.now last ≡ Some n →
        result ≡ record { families = bit_or m.families n.families; selectors = bit_or m.selectors n.selectors } }
{
    let first = masks[first as usize];
    let last = masks[last as usize];
    ItemMask {
        families: first.families | last.families,
        selectors: first.selectors | last.selectors,
    }
}

/// The window of a step. No part of a rule is copied. `planned` is the indexed sheet of these items, if there is one.
pub fn window_of<'a>(
    items: &'a [Item],
    masks: &'a [ItemMask],
    planned: Option<&'a IndexedSheet>,
    step: &Step,
) -> Window<'a>
    requires is_step { HasStep items.now step.now }
    requires masks { masks.now ≡ map item_mask items.now }
    requires planned { ForSome planned (λ b. b.now.items ≡ items.now) }
    ensures items { result.items.now ≡ items.now }
    ensures window { (e : Edit) → IsStep items.now step.now e → IsWindowFor items.now step.now e result }
{
    let (start, middle) = starts_of(step);
    let (first, last) = items_of(step);
    let (first_left, last_left) = left_by(items, step);
    let left_mask = both_masks(masks, first, last);
    Window {
        items,
        masks,
        start,
        middle,
        last: last as usize,
        first_left,
        last_left,
        left_mask,
        planned,
    }
}

/// Which items of the window of a step are looked at: all but the receiver of a join by selectors.
fn span_of(step: &Step) -> Span
    ensures first { result.first ≡ beside.beside_first step.now }
    ensures end { result.end ≡ beside.beside_end step.now }
{
    match *step {
        Step::CutDecl { item, .. } | Step::CutSel { item, .. } => Span {
            first: 0,
            end: item as usize + 1,
        },
        Step::JoinSelUp { upper, lower } => Span {
            first: upper as usize + 1,
            end: lower as usize + 1,
        },
        Step::JoinSelDown { upper, lower } => Span {
            first: upper as usize,
            end: lower as usize,
        },
        Step::JoinDeclUp { upper, lower }
        | Step::JoinDeclDown { upper, lower }
        | Step::Share { upper, lower } => Span {
            first: upper as usize,
            end: lower as usize + 1,
        },
    }
}

/// All pairs of the rule of this number. `AllocError` where memory is short.
fn whole(alloc: Global, items: &[Item], item: u32) -> Result<Source<'_>, AllocError>
    requires askable { turns.IsAskable items.now }
    requires rule { (r : RuleParts) × (slice_get items.now item ≡ Some (kinds.Rule r)) }
    ensures item { IfOk result (λ s. s.item ≡ item) }
    ensures with { IfOk result (λ s. s.with ≡ None) }
    ensures rule { IfOk result (λ s. slice_get items.now item ≡ Some (kinds.Rule s.rule.now)) }
    ensures masked { IfOk result (λ s. turns.IsMasked s) }
{
    let rule = rule_at(items, item);
    let masks = masks_of(alloc, &rule.decls, None)?;
    let mask = bits_of(&masks);
    let specificities = specificities_of(alloc, &rule.selectors)?;
    let selectors = selector_masks_of(alloc, &rule.selectors)?;
    Ok(Source {
        item,
        rule,
        with: None,
        masks,
        mask,
        specificities,
        selectors,
    })
}

/// The pairs of the rule of this number whose declarations are in another rule too. `AllocError` where memory is short.
fn common(alloc: Global, items: &[Item], item: u32, other: u32) -> Result<Source<'_>, AllocError>
    requires askable { turns.IsAskable items.now }
    requires rule { (r : RuleParts) × (slice_get items.now item ≡ Some (kinds.Rule r)) }
    requires other { (r : RuleParts) × (slice_get items.now other ≡ Some (kinds.Rule r)) }
    ensures item { IfOk result (λ s. s.item ≡ item) }
    ensures with { IfOk result (λ s. IfSome s.with (λ r. slice_get items.now other ≡ Some (kinds.Rule r.now))) }
    ensures some { IfOk result (λ s. s.with ≡ None → ⊥) }
    ensures rule { IfOk result (λ s. slice_get items.now item ≡ Some (kinds.Rule s.rule.now)) }
    ensures masked { IfOk result (λ s. turns.IsMasked s) }
{
    let rule = rule_at(items, item);
    let with = rule_at(items, other);
    let masks = masks_of(alloc, &rule.decls, Some(with))?;
    let mask = bits_of(&masks);
    let specificities = specificities_of(alloc, &rule.selectors)?;
    let selectors = selector_masks_of(alloc, &rule.selectors)?;
    Ok(Source {
        item,
        rule,
        with: Some(with),
        masks,
        mask,
        specificities,
        selectors,
    })
}

/// The pairs that a step moves.
fn moved_of(step: &Step) -> Moved
    ensures { result ≡ taking.moved_of step.now }
{
    match *step {
        Step::CutDecl { item, .. } | Step::CutSel { item, .. } => Moved::Rule(item),
        Step::JoinSelUp { lower, .. } | Step::JoinDeclUp { lower, .. } => Moved::Rule(lower),
        Step::JoinSelDown { upper, .. } | Step::JoinDeclDown { upper, .. } => Moved::Rule(upper),
        Step::Share { upper, lower } => Moved::Common { upper, lower },
    }
}

/// Whether what is moved in this way is nearer to the last item of the window than to the first.
fn is_from_below(way: Move) -> bool {
    !matches!(way, Move::Down)
}

/// What blocks of the pairs of the rule of this number. A cut takes most rules whose pairs are all below; then no item
/// above needs to be looked at.
#[tactic(auto, using(crate::proofs::Sources::told_whole))]
fn by_whole(
    alloc: Global,
    pairs: &mut BoundedPairs,
    window: &Window<'_>,
    span: Span,
    items: &[Item],
    item: u32,
    upwards: bool,
) -> Result<Option<Obstacle>, Stopped>
    requires askable { turns.IsAskable items.now }
    requires items { window.now.items.now ≡ items.now }
    requires within { IsWithin window.now span }
    requires enough { IsEnoughFor items.now (moved.Rule item) window.now span }
    requires rule { (r : RuleParts) × (slice_get items.now item ≡ Some (kinds.Rule r)) }
    ensures stays { Stays pairs.old pairs.new }
    ensures told { IfOk result (λ found. IsToldBy pairs.new.answers items.now (moved.Rule item) window.now found) }
{
    let source = whole(alloc, items, item)?;
    if takes_rule(window, source.rule) && rule_is_behind(window, source.rule) {
        return Ok(None);
    }
    in_window(alloc, pairs, window, span, &[source], upwards)
}

/// What blocks of the common pairs of the rules of these numbers.
fn by_common(
    alloc: Global,
    pairs: &mut BoundedPairs,
    window: &Window<'_>,
    span: Span,
    items: &[Item],
    upper: u32,
    lower: u32,
    upwards: bool,
) -> Result<Option<Obstacle>, Stopped>
    requires askable { turns.IsAskable items.now }
    requires items { window.now.items.now ≡ items.now }
    requires within { IsWithin window.now span }
    requires enough { IsEnoughFor items.now (moved.Common upper lower) window.now span }
    requires upper { (r : RuleParts) × (slice_get items.now upper ≡ Some (kinds.Rule r)) }
    requires lower { (r : RuleParts) × (slice_get items.now lower ≡ Some (kinds.Rule r)) }
    ensures stays { Stays pairs.old pairs.new }
    ensures told { IfOk result (λ found. IsToldBy pairs.new.answers items.now (moved.Common upper lower) window.now found) }
{
    let above = common(alloc, items, upper, lower)?;
    let below = common(alloc, items, lower, upper)?;
    in_window(alloc, pairs, window, span, &[above, below], upwards)
}

/// What blocks of the pairs that are moved, looked for among the items of the window.
fn by_search(
    alloc: Global,
    pairs: &mut BoundedPairs,
    window: &Window<'_>,
    span: Span,
    items: &[Item],
    moved: &Moved,
    upwards: bool,
) -> Result<Option<Obstacle>, Stopped>
    requires askable { turns.IsAskable items.now }
    requires items { window.now.items.now ≡ items.now }
    requires within { IsWithin window.now span }
    requires enough { IsEnoughFor items.now moved.now window.now span }
    requires there { AreThere items.now moved.now }
    ensures stays { Stays pairs.old pairs.new }
    ensures told { IfOk result (λ found. IsToldBy pairs.new.answers items.now moved.now window.now found) }
{
    match *moved {
        Moved::Rule(item) => by_whole(alloc, pairs, window, span, items, item, upwards),
        Moved::Common { upper, lower } => by_common(
            alloc, pairs, window, span, items, upper, lower, upwards,
        ),
    }
}

/// The rule of this number. Nothing of it is looked up, which takes no memory.
fn bare<'a>(alloc: Global, items: &'a [Item], item: u32, with: Option<&'a Rule>) -> Source<'a>
    requires rule { (r : RuleParts) × (slice_get items.now item ≡ Some (kinds.Rule r)) }
    ensures item { result.item ≡ item }
    ensures with { result.with ≡ with.entry }
    ensures rule { slice_get items.now item ≡ Some (kinds.Rule result.rule.now) }
{
    Source {
        item,
        rule: rule_at(items, item),
        with,
        masks: Vec::new(alloc),
        mask: 0,
        specificities: Vec::new(alloc),
        selectors: Vec::new(alloc),
    }
}

/// The rule that is moved, of two the upper one. Nothing of it is looked up, which takes no memory.
fn first_moved<'a>(alloc: Global, items: &'a [Item], moved: &Moved) -> Source<'a>
    requires there { AreThere items.now moved.now }
    ensures { IsFirstOf items.now moved.now result }
{
    match *moved {
        Moved::Rule(item) => bare(alloc, items, item, None),
        Moved::Common { upper, lower } => bare(alloc, items, upper, Some(rule_at(items, lower))),
    }
}

/// What blocks of the pairs that are moved: what blocked them before, if it does still; otherwise what is looked for.
#[tactic(auto, using(crate::proofs::HeldAnswers::stays_on, crate::proofs::Hinting::first_there, crate::proofs::Hinting::told_first))]
fn by_moved(
    alloc: Global,
    pairs: &mut BoundedPairs,
    hints: &mut Hints,
    window: &Window<'_>,
    span: Span,
    items: &[Item],
    moved: &Moved,
    way: Move,
) -> Result<Option<Obstacle>, Stopped>
    requires askable { turns.IsAskable items.now }
    requires items { window.now.items.now ≡ items.now }
    requires within { IsWithin window.now span }
    requires enough { IsEnoughFor items.now moved.now window.now span }
    requires there { AreThere items.now moved.now }
    ensures stays { Stays pairs.old pairs.new }
    ensures told { IfOk result (λ found. IsToldBy pairs.new.answers items.now moved.now window.now found) }
{
    let first = first_moved(alloc, items, moved);
    let mover = mover_of(first.rule, way);
    if let Some(found) = by_hint(pairs, window, &first, hint_of(hints, mover))? {
        return Ok(Some(found));
    }
    let found = by_search(alloc, pairs, window, span, items, moved, is_from_below(way))?;
    note_found(alloc, hints, items, mover, found)?;
    Ok(found)
}

/// What blocks a step of the sheet of an indexed sheet, and `None` where it is free, with the masks of its items.
fn obstacle_in(
    alloc: Global,
    pairs: &mut BoundedPairs,
    hints: &mut Hints,
    planned: &IndexedSheet,
    items: &[Item],
    masks: &[ItemMask],
    step: &Step,
) -> Result<Option<Obstacle>, Stopped>
    requires same { planned.now.items ≡ items.now }
    requires is_step { HasStep items.now step.now }
    requires masks { masks.now ≡ map item_mask items.now }
    requires planned { CanBePlanned items.now }
    ensures stays { Stays pairs.old pairs.new }
    ensures free { IfOk result (λ found. IfNone found ((e : Edit) → IsStep items.now step.now e → IsFree (map answer_seen pairs.new.answers) items.now e)) }
    ensures blocked { IfOk result (λ found. IfSome found (λ o. IsBlockedBy (map answer_seen pairs.new.answers) items.now step.now o)) }
{
    selectors_are_in_the_profile();
    parts_are_few();
    steps_are_one_edit();
    steps_have_windows();
    windows_tell_pairs();
    windows_tell_kept();
    reversed_stand_beside();
    let window = window_of(items, masks, Some(planned), step);
    let span = span_of(step);
    let moved = moved_of(step);
    by_moved(
        alloc,
        pairs,
        hints,
        &window,
        span,
        items,
        &moved,
        move_of(step),
    )
}

/// What blocks a step of an indexed sheet, and `None` where it is free, by the answers for pairs of selectors. The answers
/// are asked for. All that was answered stays, and the budget. `AllocError` where memory runs out; they stay then too.
///
/// - The time is that of a look at each moved pair with each pair of the items from the step's first to its last one.
///   The receiver of a join by selectors is left out; for a cut the items are all those above. It is less where what
///   blocked before does still.
/// - The memory is that of the masks of what is moved, besides that of answers and of hints. No part of a rule is
///   copied.
pub(crate) fn step_obstacle(
    alloc: Global,
    pairs: &mut BoundedPairs,
    hints: &mut Hints,
    indexed: &IndexedSheet,
    step: &Step,
) -> Result<Option<Obstacle>, Stopped>
    requires is_step { HasStep indexed.now.items step.now }
    requires planned { CanBePlanned indexed.now.items }
    ensures stays { Stays pairs.old pairs.new }
    ensures free { IfOk result (λ found. IfNone found ((e : Edit) → IsStep indexed.now.items step.now e → IsFree (map answer_seen pairs.new.answers) indexed.now.items e)) }
    ensures blocked { IfOk result (λ found. IfSome found (λ o. IsBlockedBy (map answer_seen pairs.new.answers) indexed.now.items step.now o)) }
{
    let items = indexed.items();
    obstacle_in(alloc, pairs, hints, indexed, items, indexed.masks(), step)
}
