//! Whether what blocked an earlier step blocks one.

ghost use Rattle.std.specs.Prelude.{◌≡◌, ◌≤◌, ◌∷◌, [], true, IfOk, IfSome, IsTrue, Some, slice_get};
ghost use Rattle.css_model.specs.Documents.Specificity.{specificity_of};
ghost use Rattle.css_model.specs.Selectors.Profile.{IsInProfile};
ghost use Rattle.step_obstacles.specs.Asking.{Stays};
ghost use Rattle.step_obstacles.specs.Blocked.{IsFound};
ghost use Rattle.step_obstacles.specs.declared.facing.Facing.TheVariants as variants;
ghost use Rattle.step_obstacles.specs.Hinted.{FacesWithin, IsDeclOf};
ghost use Rattle.step_obstacles.specs.Turns as turns;

use crate::answering::blocks;
use crate::bounded_pairs::BoundedPairs;
use crate::decl_masks::is_common;
use crate::facing::{DeclAt, Facing, Source};
use crate::hints::{Hint, places_by};
use crate::known::{own_faced, own_pair};
use crate::searching::{named, place_of};
use crate::specificities::specificity_in_profile;
use css_model::{DeclItem, Item, Rule, SelItem};
use obstacles::{Obstacle, Other, PairPlace, Stopped};
use related_props::decl_mask;
use window_order::{Window, decls_weigh, pair_of, weighs_kept};

/// The rule of this number, if there is one.
fn rule_there<'a>(window: &Window<'a>, number: u32) -> Option<&'a Rule>
    ensures { IfSome result (λ r. turns.IsRuleAt window.now.items.now number r.now) }
{
    match window.items.get(number as usize) {
        Some(Item::Rule(rule)) => Some(rule),
        _ => None,
    }
}

/// The declaration of this number, if there is one.
fn part_there(rule: &Rule, number: u32) -> Option<&DeclItem>
    ensures { IfSome result (λ x. slice_get rule.now.decls number ≡ Some x.now) }
{
    rule.decls.get(number as usize)
}

/// The selector of this number, if there is one.
fn selector_there(rule: &Rule, number: u32) -> Option<&SelItem>
    ensures { IfSome result (λ x. slice_get rule.now.selectors number ≡ Some x.now) }
{
    rule.selectors.get(number as usize)
}

/// The declaration of this number of a rule, if there is one.
fn decl_there(rule: &Rule, item: u32, number: u32) -> Option<DeclAt<'_>>
    ensures { IfSome result (λ d. IsDeclOf rule.now item number d) }
{
    match part_there(rule, number) {
        Some(part) => Some(DeclAt {
            item,
            rule,
            number,
            decl: &part.decl,
            mask: decl_mask(&part.decl),
        }),
        None => None,
    }
}

/// The pair of a declaration and the selector of this number.
fn pair_faced<'a>(other: &DeclAt<'a>, selector: &'a SelItem, number: u32) -> Facing<'a>
    requires { IsInProfile selector.now.selector }
    ensures { result ≡ variants.Pair (turns.pair_of selector.now other.now.decl.now) (record { item = other.now.item; sel = number; decl = other.now.number }) (specificity_of selector.now.selector) }
{
    let q = pair_of(&selector.selector, other.decl);
    let place = PairPlace {
        item: other.item,
        sel: number,
        decl: other.number,
    };
    Facing::Pair(q, place, specificity_in_profile(&selector.selector))
}

/// The pair of a declaration that weighs and the selector of this number, if there is one.
fn selector_faced<'a>(
    window: &Window<'a>,
    moved: &DeclAt<'_>,
    other: &DeclAt<'a>,
    number: u32,
) -> Option<Facing<'a>>
    requires askable { turns.IsAskable window.now.items.now }
    requires other { turns.IsDeclAt window.now.items.now other.now }
    requires above { window.now.start ≤ other.now.item }
    requires below { other.now.item ≤ window.now.last }
    ensures { IfSome result (λ f. FacesWithin window.now moved.now.decl.now f) }
{
    if !decls_weigh(moved.decl, other.decl) {
        return None;
    }
    match selector_there(other.rule, number) {
        Some(selector) => Some(pair_faced(other, selector, number)),
        None => None,
    }
}

/// The pair at a place, if there is one and its declaration weighs.
#[tactic(auto, using(crate::proofs::Hinting::decl_stands))]
fn place_faced<'a>(window: &Window<'a>, moved: &DeclAt<'_>, place: PairPlace) -> Option<Facing<'a>>
    requires askable { turns.IsAskable window.now.items.now }
    requires above { window.now.start ≤ place.item }
    requires below { place.item ≤ window.now.last }
    ensures { IfSome result (λ f. FacesWithin window.now moved.now.decl.now f) }
{
    let rule = match rule_there(window, place.item) {
        Some(rule) => rule,
        None => return None,
    };
    match decl_there(rule, place.item, place.decl) {
        Some(other) => selector_faced(window, moved, &other, place.sel),
        None => None,
    }
}

/// An item of this number, if it is kept and weighs.
fn item_faced<'a>(
    window: &Window<'a>,
    moved: &DeclAt<'_>,
    item: &Item,
    number: u32,
) -> Option<Facing<'a>>
    requires { turns.IsItemOf window.now number item.now }
    ensures { IfSome result (λ f. FacesWithin window.now moved.now.decl.now f) }
{
    match item {
        Item::Rule(_) => None,
        Item::KeptRule(_) | Item::KeptBlock(_) => {
            if weighs_kept(moved.decl, item) {
                Some(Facing::Kept(number))
            } else {
                None
            }
        }
    }
}

/// The kept item of this number, if there is one and it weighs.
fn kept_faced<'a>(window: &Window<'a>, moved: &DeclAt<'_>, number: u32) -> Option<Facing<'a>>
    requires above { window.now.start ≤ number }
    requires below { number ≤ window.now.last }
    ensures { IfSome result (λ f. FacesWithin window.now moved.now.decl.now f) }
{
    match window.items.get(number as usize) {
        Some(item) => item_faced(window, moved, item, number),
        None => None,
    }
}

/// Whether the item of this number is in a window.
fn is_within(window: &Window<'_>, number: u32) -> bool
    ensures above { IsTrue result → window.now.start ≤ number }
    ensures below { IsTrue result → number ≤ window.now.last }
{
    let number = number as usize;
    window.start <= number && number <= window.last
}

/// What is at a place of a window, if something is and weighs.
fn faced<'a>(window: &Window<'a>, moved: &DeclAt<'_>, other: &Other) -> Option<Facing<'a>>
    requires askable { turns.IsAskable window.now.items.now }
    ensures { IfSome result (λ f. FacesWithin window.now moved.now.decl.now f) }
{
    match other {
        Other::Pair(place) => {
            if is_within(window, place.item) {
                place_faced(window, moved, *place)
            } else {
                None
            }
        }
        Other::Kept(number) => {
            if is_within(window, *number) {
                kept_faced(window, moved, *number)
            } else {
                None
            }
        }
    }
}

/// What blocks of a selector of the declaration's rule with what it faces.
#[tactic(auto, using(crate::proofs::HeldAnswers::stays_itself))]
fn with_facing(
    pairs: &mut BoundedPairs,
    window: &Window<'_>,
    moved: &DeclAt<'_>,
    selector: &SelItem,
    number: u32,
    facing: &Facing<'_>,
) -> Result<Option<Obstacle>, Stopped>
    requires askable { turns.IsAskable window.now.items.now }
    requires moved { turns.IsDeclAt window.now.items.now moved.now }
    requires faces { turns.Faces window.now moved.now.decl.now facing.now }
    requires number { slice_get moved.now.rule.now.selectors number ≡ Some selector.now }
    ensures stays { Stays pairs.old pairs.new }
    ensures told { IfOk result (λ found. IfSome found (λ o.
        IsFound pairs.new.answers window.now (λ by. by ≡ turns.hindrance_of window.now.items.now facing.now (turns.pair_of selector.now moved.now.decl.now)) o)) }
{
    if !facing.may_weigh(specificity_in_profile(&selector.selector)) {
        return Ok(None);
    }
    let p = pair_of(&selector.selector, moved.decl);
    let mut of_p = own_pair(window, place_of(moved, number));
    let mut of_facing = own_faced(window, facing);
    let blocked = blocks(pairs, window, &p, &mut of_p, facing, &mut of_facing)?;
    if blocked {
        return Ok(Some(named(moved, number, facing)));
    }
    Ok(None)
}

/// What blocks of a moved declaration and the selector of this number with what is at a place.
#[tactic(auto, using(crate::proofs::Hinting::decl_stands, crate::proofs::HeldAnswers::stays_itself))]
fn with_other(
    pairs: &mut BoundedPairs,
    window: &Window<'_>,
    source: &Source<'_>,
    moved: &DeclAt<'_>,
    number: u32,
    other: &Other,
) -> Result<Option<Obstacle>, Stopped>
    requires askable { turns.IsAskable window.now.items.now }
    requires source { turns.IsRuleAt window.now.items.now source.now.item source.now.rule.now }
    requires moved { IsDeclOf source.now.rule.now source.now.item moved.now.number moved.now }
    requires common { turns.is_common source.now.with moved.now.decl.now ≡ true }
    ensures stays { Stays pairs.old pairs.new }
    ensures told { IfOk result (λ found. IfSome found (λ o. IsFound pairs.new.answers window.now (turns.OfWindow window.now (source.now ∷ [])) o)) }
{
    let facing = match faced(window, moved, other) {
        Some(facing) => facing,
        None => return Ok(None),
    };
    match selector_there(moved.rule, number) {
        Some(selector) => with_facing(pairs, window, moved, selector, number, &facing),
        None => Ok(None),
    }
}

/// What blocks of a moved declaration and the selector of this number with what is at a place, if the declaration
/// counts.
#[tactic(auto, using(crate::proofs::HeldAnswers::stays_itself))]
fn by_decl(
    pairs: &mut BoundedPairs,
    window: &Window<'_>,
    source: &Source<'_>,
    moved: &DeclAt<'_>,
    number: u32,
    other: &Other,
) -> Result<Option<Obstacle>, Stopped>
    requires askable { turns.IsAskable window.now.items.now }
    requires source { turns.IsRuleAt window.now.items.now source.now.item source.now.rule.now }
    requires moved { IsDeclOf source.now.rule.now source.now.item moved.now.number moved.now }
    ensures stays { Stays pairs.old pairs.new }
    ensures told { IfOk result (λ found. IfSome found (λ o. IsFound pairs.new.answers window.now (turns.OfWindow window.now (source.now ∷ [])) o)) }
{
    if is_common(source.with, moved.decl) {
        with_other(pairs, window, source, moved, number, other)
    } else {
        Ok(None)
    }
}

/// What blocks of a rule's pair at a place with what is at another place.
#[tactic(auto, using(crate::proofs::HeldAnswers::stays_itself))]
fn by_places(
    pairs: &mut BoundedPairs,
    window: &Window<'_>,
    source: &Source<'_>,
    places: &Obstacle,
) -> Result<Option<Obstacle>, Stopped>
    requires askable { turns.IsAskable window.now.items.now }
    requires source { turns.IsRuleAt window.now.items.now source.now.item source.now.rule.now }
    ensures stays { Stays pairs.old pairs.new }
    ensures told { IfOk result (λ found. IfSome found (λ o. IsFound pairs.new.answers window.now (turns.OfWindow window.now (source.now ∷ [])) o)) }
{
    match decl_there(source.rule, source.item, places.moved.decl) {
        Some(moved) => by_decl(
            pairs,
            window,
            source,
            &moved,
            places.moved.sel,
            &places.other,
        ),
        None => Ok(None),
    }
}

/// What blocks of a rule with what blocked it before, if that is known, at its place now.
#[tactic(auto, using(crate::proofs::HeldAnswers::stays_itself))]
pub(crate) fn by_hint(
    pairs: &mut BoundedPairs,
    window: &Window<'_>,
    source: &Source<'_>,
    hint: Option<Hint>,
) -> Result<Option<Obstacle>, Stopped>
    requires askable { turns.IsAskable window.now.items.now }
    requires source { turns.IsRuleAt window.now.items.now source.now.item source.now.rule.now }
    ensures stays { Stays pairs.old pairs.new }
    ensures told { IfOk result (λ found. IfSome found (λ o. IsFound pairs.new.answers window.now (turns.OfWindow window.now (source.now ∷ [])) o)) }
{
    match places_by(window.items, hint) {
        Some(places) => by_places(pairs, window, source, &places),
        None => Ok(None),
    }
}
