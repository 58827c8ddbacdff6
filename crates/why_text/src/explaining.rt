//! What hinders the move of an item, by answers for pairs of selectors.

ghost use Rattle.std.specs.Prelude.{◌≡◌, ◌<◌, ◌∷◌, [], Some, IfOk, length, slice_get};
ghost use Rattle.std.specs.List.{AllByRecursion};
ghost use Rattle.css_model.specs.declared.sheet.Item as declared;
ghost use Rattle.css_model.specs.declared.sheet.Item.TheVariants as kinds;
ghost use Rattle.css_model.specs.Sheets.RuleParts.{RuleParts};
ghost use Rattle.overlap.specs.declared.answer.Answer as answers;
ghost use Rattle.overlap.specs.Remembered.{IsAnswered, IsHeld};
ghost use Rattle.print_laws.specs.Profile.{HasSelectorsInProfile};
ghost use Rattle.sheet_order.specs.declared.places.Other.TheVariants as others;
ghost use Rattle.sheet_order.specs.Narrow.{CanBePlanned};
ghost use Rattle.why_text.specs.Explaining.{
  AsksAmong,
  EntriesTell,
  HasPlaces,
  IsExplained,
  Tells,
  TellsPair,
  reversed_by_moving,
  told_by,
};
ghost use Rattle.why_text.specs.PairTexts.{IsPlace};

use crate::pair::pair_at;
use css_model::{Example, Item, Selector, Sheet};
use order_laws::listed_is_reversed;
use overlap::{Answer, Pairs};
use print_laws::selectors_are_in_the_profile;
use sheet_order::{Moved, Other, PairPlace, Reversed, move_rule, reversed};
use std::alloc::{AllocError, Global};

/// What hinders the move of an item to another place, if anything does.
#[derive(Debug, PartialEq, Eq, Drop)]
pub enum Explained {
    /// Nothing: all that the move reverses is pairs whose selectors are answered to be apart.
    Free,
    /// The kept item of this number, from 0: the one that was to be moved, or one that is reversed.
    KeptItem(u32),
    /// Two pairs whose selectors meet.
    Blocked {
        /// The moved one.
        moved: PairPlace,
        /// The other one, at its last place.
        other: PairPlace,
        /// A document; both selectors match its marked element.
        example: Example,
    },
    /// Two pairs whose selectors were not compared, for the reason of this number.
    Outside(u32),
    /// Two pairs for whose selectors the budget was spent.
    Spent,
}

/// What an answer for a moved pair and another one says, if it is not that they are apart.
fn told(
    moved: PairPlace,
    other: PairPlace,
    answer: &Answer,
) -> Result<Option<Explained>, AllocError>
    ensures { IfOk result (λ x. told_by moved other answer.now ≡ x) }
{
    match answer {
        Answer::Apart => Ok(None),
        Answer::Meet(example) => Ok(Some(Explained::Blocked {
            moved,
            other,
            example: example.copy()?,
        })),
        Answer::Outside(reason, _) => Ok(Some(Explained::Outside(*reason))),
        Answer::Spent(_) => Ok(Some(Explained::Spent)),
    }
}

/// What the answer that is held for the selectors of a moved pair and of another one says.
#[tactic(auto, using(crate::proofs::Entries::not_unknown))]
fn known_told(
    pairs: &Pairs,
    x: &Selector,
    y: &Selector,
    moved: PairPlace,
    other: PairPlace,
) -> Result<Option<Explained>, AllocError>
    requires { IsHeld pairs.now.answers x.now y.now }
    ensures { IfOk result (λ t. (answer : answers.Answer) × IsAnswered pairs.now.answers x.now y.now answer × (told_by moved other answer ≡ t)) }
{
    match pairs.known(x, y) {
        Some(answer) => told(moved, other, answer),
        None => unreachable!(),
    }
}

/// What the answer for a moved pair and another one says. The answer is asked for.
#[tactic(auto, using(crate::proofs::Entries::asks_nothing))]
fn asked_told(
    pairs: &mut Pairs,
    sheet: &Sheet,
    moved: PairPlace,
    other: PairPlace,
) -> Result<Option<Explained>, AllocError>
    requires profile { AllByRecursion HasSelectorsInProfile sheet.now.items }
    requires moved { IsPlace sheet.now.items moved }
    requires other { IsPlace sheet.now.items other }
    ensures asks { AsksAmong sheet.now.items (record { moved = moved; other = others.Pair other } ∷ []) pairs.old pairs.new }
    ensures tells { IfOk result (λ x. TellsPair pairs.new.answers sheet.now.items moved other x) }
{
    let (first, _) = pair_at(sheet, moved);
    let (second, _) = pair_at(sheet, other);
    pairs.settle(&first.selector, &second.selector)?;
    known_told(pairs, &first.selector, &second.selector, moved, other)
}

/// What an entry says, if it is not a pair whose selectors are answered to be apart.
#[tactic(auto, using(crate::proofs::Entries::asks_nothing))]
fn told_of_entry(
    pairs: &mut Pairs,
    sheet: &Sheet,
    entry: &Reversed,
) -> Result<Option<Explained>, AllocError>
    requires profile { AllByRecursion HasSelectorsInProfile sheet.now.items }
    requires places { HasPlaces sheet.now.items entry.now }
    ensures asks { AsksAmong sheet.now.items (entry.now ∷ []) pairs.old pairs.new }
    ensures tells { IfOk result (λ x. Tells pairs.new.answers sheet.now.items entry.now x) }
{
    match entry.other {
        Other::Kept(number) => Ok(Some(Explained::KeptItem(number))),
        Other::Pair(other) => asked_told(pairs, sheet, entry.moved, other),
    }
}

/// What the first entry says that is not a pair whose selectors are answered to be apart.
#[tactic(auto, using(crate::proofs::Entries::asks_nothing))]
fn told_first(
    pairs: &mut Pairs,
    sheet: &Sheet,
    entries: &[Reversed],
) -> Result<Explained, AllocError>
    requires profile { AllByRecursion HasSelectorsInProfile sheet.now.items }
    requires places { AllByRecursion (HasPlaces sheet.now.items) entries.now }
    ensures asks { AsksAmong sheet.now.items entries.now pairs.old pairs.new }
    ensures tells { IfOk result (λ x. EntriesTell pairs.new.answers sheet.now.items entries.now x) }
{
    for entry in entries {
        if let Some(told) = told_of_entry(pairs, sheet, entry)? {
            return Ok(told);
        }
    }
    Ok(Explained::Free)
}

/// What is reversed by the move of a rule.
fn entries_of_move(
    alloc: Global,
    sheet: &Sheet,
    from: u32,
    to: u32,
) -> Result<Vec<Reversed>, AllocError>
    requires from { from < length sheet.now.items }
    requires to { to < length sheet.now.items }
    requires planned { CanBePlanned sheet.now.items }
    ensures places { IfOk result (λ found. AllByRecursion (HasPlaces sheet.now.items) found.items) }
    ensures found { IfOk result (λ found. (r : RuleParts) → slice_get sheet.now.items from ≡ Some (kinds.Rule r) →
        found.items ≡ reversed_by_moving sheet.now.items from to (kinds.Rule r)) }
{
    listed_is_reversed();
    let new = move_rule(sheet, from, to)?;
    reversed(alloc, sheet, &new, &Moved::Rule(from))
}

/// What hinders the move of a rule.
#[tactic(auto, using(crate::proofs::Entries::asks_nothing))]
fn explain_rule(
    alloc: Global,
    pairs: &mut Pairs,
    sheet: &Sheet,
    from: u32,
    to: u32,
) -> Result<Explained, AllocError>
    requires from { from < length sheet.now.items }
    requires to { to < length sheet.now.items }
    requires planned { CanBePlanned sheet.now.items }
    ensures asks { (r : RuleParts) → slice_get sheet.now.items from ≡ Some (kinds.Rule r) →
        AsksAmong sheet.now.items (reversed_by_moving sheet.now.items from to (kinds.Rule r)) pairs.old pairs.new }
    ensures tells { IfOk result (λ x. (r : RuleParts) → slice_get sheet.now.items from ≡ Some (kinds.Rule r) →
        EntriesTell pairs.new.answers sheet.now.items (reversed_by_moving sheet.now.items from to (kinds.Rule r)) x) }
{
    selectors_are_in_the_profile();
    let entries = entries_of_move(alloc, sheet, from, to)?;
    told_first(pairs, sheet, &entries)
}

/// What hinders the move of an item of a sheet to the place of another one, both numbers from 0, by what is answered
/// for pairs of selectors.
///
/// - A kept item is not moved.
/// - For a rule, the first decides of what its move reverses, nearest first, that is not a pair whose selectors are
///   answered to be apart.
/// - The move is free exactly where there is none, also where the numbers are equal.
/// - It asks for the answers up to that one; the moved pair's selector comes first.
///
/// All answers that were held stay, and come first. `AllocError` where memory is short; they stay then too.
#[tactic(auto, using(crate::proofs::Entries::asks_nothing))]
pub fn explain(
    alloc: Global,
    pairs: &mut Pairs,
    sheet: &Sheet,
    from: u32,
    to: u32,
) -> Result<Explained, AllocError>
    requires from { from < length sheet.now.items }
    requires to { to < length sheet.now.items }
    requires planned { CanBePlanned sheet.now.items }
    ensures asks { (item : declared.Item) → slice_get sheet.now.items from ≡ Some item →
        AsksAmong sheet.now.items (reversed_by_moving sheet.now.items from to item) pairs.old pairs.new }
    ensures explained { IfOk result (λ x. (item : declared.Item) → slice_get sheet.now.items from ≡ Some item →
        IsExplained pairs.new.answers sheet.now.items from to item x) }
{
    match &sheet.items[from as usize] {
        Item::Rule(_) => explain_rule(alloc, pairs, sheet, from, to),
        _ => Ok(Explained::KeptItem(from)),
    }
}
