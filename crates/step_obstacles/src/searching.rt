//! The first that blocks of what moved pairs face, looked at one after the other.

ghost use Rattle.std.specs.Prelude.{◌≡◌, ◌≢◌, ◌↔◌, ℕ, IfOk, IsTrue, Some, slice_get};
ghost use Rattle.css_model.specs.declared.sheet.DeclItem as declared_decl;
ghost use Rattle.css_model.specs.declared.sheet.SelItem as declared_selector;
ghost use Rattle.related_props.specs.Masks.{decl_mask, item_mask};
ghost use Rattle.step_obstacles.specs.Asking.{Stays};
ghost use Rattle.step_obstacles.specs.Blocked.{IsToldOf};
ghost use Rattle.step_obstacles.specs.Among.{Among};
ghost use Rattle.step_obstacles.specs.Known.{FacedStands, IsKnown, IsNoted};
ghost use Rattle.step_obstacles.specs.Turns as turns;
ghost use Rattle.plan_laws.specs.Barrier.Hindering.{OfPair};
ghost use Rattle.window_order.specs.Weighing.{DeclsWeigh};

use crate::answering::blocks;
use crate::bounded_pairs::BoundedPairs;
use crate::decl_masks::{mask_at, masks_in};
use crate::facing::{DeclAt, Facing, Met, MetRule, MovedDecl, Source};
use crate::known::{Known, note, noted, or_own, own_faced};
use crate::numbered_parts::{decl_count, decl_of, selector_count, selector_of};
use crate::selector_masks::selector_mask;
use crate::specificities::{is_among, item_may_weigh, specificity_at, specificity_in_profile};
use css_model::{Decl, Item, Rule};
use item_masks::ItemMask;
use obstacles::{Obstacle, PairPlace, Stopped};
use related_props::{related, related_is_reflexive};
use rule_parts::is_same_decl;
use std::alloc::{AllocError, Global};
use window_order::{KnownPair, PairRef, Window, unknown_pair, weighs_kept};

/// The place of the pair of a selector of this number.
pub(crate) fn place_of(moved: &DeclAt<'_>, number: u32) -> PairPlace
    ensures { result ≡ record { item = moved.now.item; sel = number; decl = moved.now.number } }
{
    PairPlace {
        item: moved.item,
        sel: number,
        decl: moved.number,
    }
}

/// The obstacle of the pair of a selector of this number and what it faces.
pub(crate) fn named(moved: &DeclAt<'_>, number: u32, facing: &Facing<'_>) -> Obstacle
    ensures { result ≡ record { moved = record { item = moved.now.item; sel = number; decl = moved.now.number }; other = turns.other_of facing.now } }
{
    Obstacle {
        moved: place_of(moved, number),
        other: facing.other(),
    }
}

/// How many selectors a rule has, and how many pairs, if they can be counted.
fn counts_of(rule: &Rule) -> (usize, usize) {
    let selectors = rule.selectors.len();
    (selectors, selectors.wrapping_mul(rule.decls.len()))
}

/// Notes where the pair of the selector of this number is.
fn note_selector(
    alloc: Global,
    known: &mut Known,
    window: &Window<'_>,
    moved: &DeclAt<'_>,
    number: u32,
    standing: KnownPair,
) -> Result<(), AllocError>
    requires known { IsKnown window.now known.old }
    requires noted { IsNoted window.now (record { item = moved.now.item; sel = number; decl = moved.now.number }) standing }
    ensures { IsKnown window.now known.new }
{
    let (selectors, pairs) = counts_of(moved.rule);
    let place = place_of(moved, number);
    note(alloc, known, place, standing, selectors, pairs)
}

/// What is known of the pair of the selector of this number: what is noted of it, or else what its item tells.
fn noted_selector(known: &Known, window: &Window<'_>, moved: &DeclAt<'_>, number: u32) -> KnownPair
    requires { IsKnown window.now known.now }
    ensures { IsNoted window.now (record { item = moved.now.item; sel = number; decl = moved.now.number }) result }
{
    let (selectors, _) = counts_of(moved.rule);
    let place = place_of(moved, number);
    or_own(window, place, noted(known, place, selectors))
}

/// What blocks of the selector of this number. It is passed over where its specificity is not that of what it faces.
fn of_selector(
    alloc: Global,
    pairs: &mut BoundedPairs,
    known: &mut Known,
    window: &Window<'_>,
    moved: &MovedDecl<'_>,
    facing: &Facing<'_>,
    of_facing: &mut KnownPair,
    number: u32,
) -> Result<Option<Obstacle>, Stopped>
    requires askable { turns.IsAskable window.now.items.now }
    requires moved { turns.IsMovedDecl window.now.items.now moved.now }
    requires faces { turns.Faces window.now moved.now.at.decl.now facing.now }
    requires number { (x : declared_selector.SelItem) × (slice_get moved.now.at.rule.now.selectors number ≡ Some x) }
    requires known { IsKnown window.now known.old }
    requires faced { FacedStands window.now facing.now of_facing.old }
    ensures stays { Stays pairs.old pairs.new }
    ensures told { IfOk result (λ found. (x : declared_selector.SelItem) → slice_get moved.now.at.rule.now.selectors number ≡ Some x →
        IsToldOf pairs.new.answers window.now (λ by. by ≡ turns.hindrance_of window.now.items.now facing.now (turns.pair_of x moved.now.at.decl.now)) found) }
    ensures known { IsKnown window.now known.new }
    ensures faced { FacedStands window.now facing.now of_facing.new }
{
    if !facing.may_weigh(specificity_at(moved.specificities, number)) {
        return Ok(None);
    }
    let mask = ItemMask {
        families: moved.at.mask,
        selectors: mask_at(moved.selectors, number),
    };
    let p = PairRef {
        selector: selector_of(moved.at.rule, number),
        decl: moved.at.decl,
        mask,
    };
    let mut of_p = noted_selector(known, window, &moved.at, number);
    let blocked = blocks(pairs, window, &p, &mut of_p, facing, of_facing)?;
    note_selector(alloc, known, window, &moved.at, number, of_p)?;
    if blocked {
        return Ok(Some(named(&moved.at, number, facing)));
    }
    Ok(None)
}

/// What blocks of all selectors of the declaration's rule.
fn of_selectors(
    alloc: Global,
    pairs: &mut BoundedPairs,
    known: &mut Known,
    window: &Window<'_>,
    moved: &MovedDecl<'_>,
    facing: &Facing<'_>,
    of_facing: &mut KnownPair,
) -> Result<Option<Obstacle>, Stopped>
    requires askable { turns.IsAskable window.now.items.now }
    requires moved { turns.IsMovedDecl window.now.items.now moved.now }
    requires faces { turns.Faces window.now moved.now.at.decl.now facing.now }
    requires known { IsKnown window.now known.old }
    requires faced { FacedStands window.now facing.now of_facing.old }
    ensures stays { Stays pairs.old pairs.new }
    ensures told { IfOk result (λ found. IsToldOf pairs.new.answers window.now
        (Among moved.now.at.rule.now.selectors (λ x by. by ≡ turns.hindrance_of window.now.items.now facing.now (turns.pair_of x moved.now.at.decl.now))) found) }
    ensures known { IsKnown window.now known.new }
    ensures faced { FacedStands window.now facing.now of_facing.new }
{
    let count = selector_count(moved.at.rule);
    for number in 0..count {
        if let Some(found) = of_selector(
            alloc, pairs, known, window, moved, facing, of_facing, number,
        )? {
            return Ok(Some(found));
        }
    }
    Ok(None)
}

/// What blocks with the pair of another declaration and the selector of this number. It is passed over where no
/// selector of the moved rule has its specificity.
fn with_selector(
    alloc: Global,
    pairs: &mut BoundedPairs,
    known: &mut Known,
    window: &Window<'_>,
    moved: &MovedDecl<'_>,
    other: &DeclAt<'_>,
    number: u32,
) -> Result<Option<Obstacle>, Stopped>
    requires askable { turns.IsAskable window.now.items.now }
    requires moved { turns.IsMovedDecl window.now.items.now moved.now }
    requires other { turns.IsDeclAt window.now.items.now other.now }
    requires weigh { DeclsWeigh moved.now.at.decl.now other.now.decl.now }
    requires number { (y : declared_selector.SelItem) × (slice_get other.now.rule.now.selectors number ≡ Some y) }
    requires known { IsKnown window.now known.old }
    ensures stays { Stays pairs.old pairs.new }
    ensures told { IfOk result (λ found. (y : declared_selector.SelItem) → slice_get other.now.rule.now.selectors number ≡ Some y →
        IsToldOf pairs.new.answers window.now (turns.OfSelectors moved.now.at.rule.now moved.now.at.decl.now (λ p. OfPair p (turns.pair_of y other.now.decl.now))) found) }
    ensures known { IsKnown window.now known.new }
{
    let selector = selector_of(other.rule, number);
    let specificity = specificity_in_profile(selector);
    if !is_among(moved.specificities, specificity) {
        return Ok(None);
    }
    let mask = ItemMask {
        families: other.mask,
        selectors: selector_mask(selector),
    };
    let q = PairRef {
        selector,
        decl: other.decl,
        mask,
    };
    let facing = Facing::Pair(q, place_of(other, number), specificity);
    let mut of_q = own_faced(window, &facing);
    of_selectors(alloc, pairs, known, window, moved, &facing, &mut of_q)
}

/// What blocks with the pairs of another declaration, which weighs.
fn with_decl(
    alloc: Global,
    pairs: &mut BoundedPairs,
    known: &mut Known,
    window: &Window<'_>,
    moved: &MovedDecl<'_>,
    other: &DeclAt<'_>,
) -> Result<Option<Obstacle>, Stopped>
    requires askable { turns.IsAskable window.now.items.now }
    requires moved { turns.IsMovedDecl window.now.items.now moved.now }
    requires other { turns.IsDeclAt window.now.items.now other.now }
    requires weigh { DeclsWeigh moved.now.at.decl.now other.now.decl.now }
    requires known { IsKnown window.now known.old }
    ensures stays { Stays pairs.old pairs.new }
    ensures told { IfOk result (λ found. IsToldOf pairs.new.answers window.now
        (turns.OfOther moved.now.at.rule.now moved.now.at.decl.now other.now.rule.now other.now.decl.now) found) }
    ensures known { IsKnown window.now known.new }
{
    let count = selector_count(other.rule);
    for number in 0..count {
        if let Some(found) = with_selector(alloc, pairs, known, window, moved, other, number)? {
            return Ok(Some(found));
        }
    }
    Ok(None)
}

/// Whether two declarations are of one property.
fn have_same_name(first: &Decl, second: &Decl) -> bool
    ensures { IsTrue result ↔ first.now.name ≡ second.now.name }
{
    first.name == second.name
}

/// Whether two declarations differ.
fn differ(first: &Decl, second: &Decl) -> bool
    ensures { IsTrue result ↔ first.now ≢ second.now }
{
    !is_same_decl(first, second)
}

/// Whether two declarations weigh. The tests come in the order of what they cost: most that get as far are of one
/// property.
#[tactic(auto, using(crate::proofs::Masked::weigh_shows))]
fn weigh(moved: &DeclAt<'_>, other: &DeclAt<'_>) -> bool
    requires first { moved.now.mask ≡ decl_mask moved.now.decl.now }
    requires second { other.now.mask ≡ decl_mask other.now.decl.now }
    ensures { IsTrue result ↔ DeclsWeigh moved.now.decl.now other.now.decl.now }
{
    related_is_reflexive();
    if moved.mask & other.mask == 0 {
        return false;
    }
    if moved.decl.important != other.decl.important {
        return false;
    }
    if have_same_name(moved.decl, other.decl) {
        return differ(moved.decl, other.decl);
    }
    related(&moved.decl.name, &other.decl.name)
}

/// What blocks with the pairs of another declaration, if it weighs.
fn with_other(
    alloc: Global,
    pairs: &mut BoundedPairs,
    known: &mut Known,
    window: &Window<'_>,
    moved: &MovedDecl<'_>,
    other: &DeclAt<'_>,
) -> Result<Option<Obstacle>, Stopped>
    requires askable { turns.IsAskable window.now.items.now }
    requires moved { turns.IsMovedDecl window.now.items.now moved.now }
    requires other { turns.IsDeclAt window.now.items.now other.now }
    requires known { IsKnown window.now known.old }
    ensures stays { Stays pairs.old pairs.new }
    ensures told { IfOk result (λ found. IsToldOf pairs.new.answers window.now
        (turns.OfOther moved.now.at.rule.now moved.now.at.decl.now other.now.rule.now other.now.decl.now) found) }
    ensures known { IsKnown window.now known.new }
{
    if weigh(&moved.at, other) {
        with_decl(alloc, pairs, known, window, moved, other)
    } else {
        Ok(None)
    }
}

/// What blocks with the pairs of the declaration of this number of a rule.
fn with_number(
    alloc: Global,
    pairs: &mut BoundedPairs,
    known: &mut Known,
    window: &Window<'_>,
    moved: &MovedDecl<'_>,
    met: &MetRule<'_>,
    number: u32,
) -> Result<Option<Obstacle>, Stopped>
    requires askable { turns.IsAskable window.now.items.now }
    requires moved { turns.IsMovedDecl window.now.items.now moved.now }
    requires met { turns.IsMetRule window.now.items.now met.now }
    requires number { (g : declared_decl.DeclItem) × (slice_get met.now.rule.now.decls number ≡ Some g) }
    requires known { IsKnown window.now known.old }
    ensures stays { Stays pairs.old pairs.new }
    ensures told { IfOk result (λ found. (g : declared_decl.DeclItem) → slice_get met.now.rule.now.decls number ≡ Some g →
        IsToldOf pairs.new.answers window.now (turns.OfOther moved.now.at.rule.now moved.now.at.decl.now met.now.rule.now g.decl) found) }
    ensures known { IsKnown window.now known.new }
{
    let other = DeclAt {
        item: met.item,
        rule: met.rule,
        number,
        decl: decl_of(met.rule, number),
        mask: mask_at(met.masks, number),
    };
    with_other(alloc, pairs, known, window, moved, &other)
}

/// What blocks with the pairs of a rule.
fn with_rule(
    alloc: Global,
    pairs: &mut BoundedPairs,
    known: &mut Known,
    window: &Window<'_>,
    moved: &MovedDecl<'_>,
    met: &MetRule<'_>,
) -> Result<Option<Obstacle>, Stopped>
    requires askable { turns.IsAskable window.now.items.now }
    requires moved { turns.IsMovedDecl window.now.items.now moved.now }
    requires met { turns.IsMetRule window.now.items.now met.now }
    requires known { IsKnown window.now known.old }
    ensures stays { Stays pairs.old pairs.new }
    ensures told { IfOk result (λ found. IsToldOf pairs.new.answers window.now
        (turns.OfRule moved.now.at.rule.now moved.now.at.decl.now met.now.rule.now) found) }
    ensures known { IsKnown window.now known.new }
{
    let count = decl_count(met.rule);
    for number in 0..count {
        if let Some(found) = with_number(alloc, pairs, known, window, moved, met, number)? {
            return Ok(Some(found));
        }
    }
    Ok(None)
}

/// What blocks with a kept item, if it weighs.
fn with_kept(
    alloc: Global,
    pairs: &mut BoundedPairs,
    known: &mut Known,
    window: &Window<'_>,
    moved: &MovedDecl<'_>,
    item: &Item,
    number: u32,
) -> Result<Option<Obstacle>, Stopped>
    requires askable { turns.IsAskable window.now.items.now }
    requires moved { turns.IsMovedDecl window.now.items.now moved.now }
    requires item { turns.IsKeptHere window.now number item.now }
    requires known { IsKnown window.now known.old }
    ensures stays { Stays pairs.old pairs.new }
    ensures told { IfOk result (λ found. IsToldOf pairs.new.answers window.now
        (turns.OfSelectors moved.now.at.rule.now moved.now.at.decl.now (turns.with_kept window.now.items.now number)) found) }
    ensures known { IsKnown window.now known.new }
{
    if weighs_kept(moved.at.decl, item) {
        of_selectors(
            alloc,
            pairs,
            known,
            window,
            moved,
            &Facing::Kept(number),
            &mut unknown_pair(),
        )
    } else {
        Ok(None)
    }
}

/// What blocks with an item.
fn with_item(
    alloc: Global,
    pairs: &mut BoundedPairs,
    known: &mut Known,
    window: &Window<'_>,
    moved: &MovedDecl<'_>,
    met: &Met<'_>,
) -> Result<Option<Obstacle>, Stopped>
    requires askable { turns.IsAskable window.now.items.now }
    requires moved { turns.IsMovedDecl window.now.items.now moved.now }
    requires met { turns.IsMet window.now met.now }
    requires known { IsKnown window.now known.old }
    ensures stays { Stays pairs.old pairs.new }
    ensures told { IfOk result (λ found. IsToldOf pairs.new.answers window.now
        (turns.OfItem moved.now.at.rule.now moved.now.at.decl.now window.now.items.now met.now.number met.now.item.now) found) }
    ensures known { IsKnown window.now known.new }
{
    match met.item {
        Item::Rule(rule) => {
            let other = MetRule {
                item: met.number,
                rule,
                masks: met.masks,
            };
            with_rule(alloc, pairs, known, window, moved, &other)
        }
        Item::KeptRule(_) | Item::KeptBlock(_) => {
            with_kept(alloc, pairs, known, window, moved, met.item, met.number)
        }
    }
}

/// The mask of the declaration of this number of a rule.
fn own_mask(source: &Source<'_>, part: u32) -> u64
    requires { (m : ℕ) × (slice_get source.now.masks.items part ≡ Some m) }
    ensures { slice_get source.now.masks.items part ≡ Some result }
{
    mask_at(&source.masks, part)
}

/// What blocks of the declaration of this number of a rule with an item. It is passed over where it does not count, or
/// the masks have no bit in common.
#[tactic(auto, using(crate::proofs::Masked::decl_passed, crate::proofs::HeldAnswers::stays_itself))]
fn of_decl(
    alloc: Global,
    pairs: &mut BoundedPairs,
    known: &mut Known,
    window: &Window<'_>,
    source: &Source<'_>,
    met: &Met<'_>,
    part: u32,
) -> Result<Option<Obstacle>, Stopped>
    requires askable { turns.IsAskable window.now.items.now }
    requires source { turns.IsRuleAt window.now.items.now source.now.item source.now.rule.now }
    requires masked { turns.IsMasked source.now }
    requires met { turns.IsMet window.now met.now }
    requires part { (x : declared_decl.DeclItem) × (slice_get source.now.rule.now.decls part ≡ Some x) }
    requires known { IsKnown window.now known.old }
    ensures stays { Stays pairs.old pairs.new }
    ensures told { IfOk result (λ found. (x : declared_decl.DeclItem) → slice_get source.now.rule.now.decls part ≡ Some x →
        IsToldOf pairs.new.answers window.now (turns.OfDecl window.now.items.now met.now.number met.now.item.now source.now x) found) }
    ensures known { IsKnown window.now known.new }
{
    let mask = own_mask(source, part);
    if mask & met.mask == 0 {
        return Ok(None);
    }
    let at = DeclAt {
        item: source.item,
        rule: source.rule,
        number: part,
        decl: decl_of(source.rule, part),
        mask,
    };
    let moved = MovedDecl {
        at,
        specificities: &source.specificities,
        selectors: &source.selectors,
    };
    with_item(alloc, pairs, known, window, &moved, met)
}

/// What blocks of each declaration of a rule with an item.
fn of_each(
    alloc: Global,
    pairs: &mut BoundedPairs,
    known: &mut Known,
    window: &Window<'_>,
    source: &Source<'_>,
    met: &Met<'_>,
) -> Result<Option<Obstacle>, Stopped>
    requires askable { turns.IsAskable window.now.items.now }
    requires source { turns.IsRuleAt window.now.items.now source.now.item source.now.rule.now }
    requires masked { turns.IsMasked source.now }
    requires met { turns.IsMet window.now met.now }
    requires known { IsKnown window.now known.old }
    ensures stays { Stays pairs.old pairs.new }
    ensures told { IfOk result (λ found. IsToldOf pairs.new.answers window.now (turns.OfSource window.now.items.now met.now.number met.now.item.now source.now) found) }
    ensures known { IsKnown window.now known.new }
{
    let count = decl_count(source.rule);
    for decl in 0..count {
        if let Some(found) = of_decl(alloc, pairs, known, window, source, met, decl)? {
            return Ok(Some(found));
        }
    }
    Ok(None)
}

/// What blocks of a rule with an item of this mask. It is passed over where the masks have no bit in common, or no
/// specificity of the item is one of the rule.
#[tactic(auto, using(crate::proofs::HeldAnswers::stays_itself))]
pub(crate) fn of_source(
    alloc: Global,
    pairs: &mut BoundedPairs,
    known: &mut Known,
    window: &Window<'_>,
    source: &Source<'_>,
    item: &Item,
    number: u32,
    mask: u64,
) -> Result<Option<Obstacle>, Stopped>
    requires askable { turns.IsAskable window.now.items.now }
    requires source { turns.IsRuleAt window.now.items.now source.now.item source.now.rule.now }
    requires masked { turns.IsMasked source.now }
    requires item { turns.IsItemOf window.now number item.now }
    requires mask { mask ≡ item_mask item.now }
    requires known { IsKnown window.now known.old }
    ensures stays { Stays pairs.old pairs.new }
    ensures told { IfOk result (λ found. IsToldOf pairs.new.answers window.now (turns.OfSource window.now.items.now number item.now source.now) found) }
    ensures known { IsKnown window.now known.new }
{
    if source.mask & mask == 0 {
        return Ok(None);
    }
    if !item_may_weigh(window, source, item, number) {
        return Ok(None);
    }
    let masks = masks_in(alloc, item)?;
    let met = Met {
        item,
        number,
        mask,
        masks: &masks,
    };
    of_each(alloc, pairs, known, window, source, &met)
}
