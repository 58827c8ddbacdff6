//! Which entries of what a step reverses stop it.

ghost use Rattle.std.specs.Prelude.{◌≡◌, ◌<◌, ◌++◌, ◌∷◌, [], List, IfOk, OnOk, Some, false, true, length, replicate, slice_get, slice_index_or, slice_set};
ghost use Rattle.std.specs.List.{AllByRecursion};
ghost use Rattle.std.specs.Option.{option_copied};
ghost use Rattle.print_laws.specs.Profile.{HasSelectorsInProfile};
ghost use Rattle.sheet_order.specs.Taking as taking;
ghost use Rattle.step_laws.specs.Free.{Answered};
ghost use Rattle.blockers_text.specs.Later.{AddsEntry, AreInProfile, AreMarks, Grows, IsLater, TellsEntries, TellsEntry, TellsParts, seen};
ghost use Rattle.blockers_text.specs.Stopping as spec;

use crate::answers::asked_other;
use css_model::{DeclItem, Item, Rule, SelItem};
use overlap::Pairs;
use sheet_order::{Other, PairPlace, Reversed, is_kept};
use std::alloc::{AllocError, Global};

// ---- What stands at the place of a pair

/// The rule of this number, if it is one.
fn rule_at(items: &[Item], number: usize) -> Option<&Rule>
    ensures { option_copied result ≡ taking.rule_in (slice_get items.now number) }
{
    match items.get(number) {
        Some(Item::Rule(rule)) => Some(rule),
        _ => None,
    }
}

/// The selectors of a rule, if there is one.
fn selectors_in(rule: Option<&Rule>) -> &[SelItem]
    ensures { result.now ≡ spec.selectors_in (option_copied rule.entry) }
{
    match rule {
        Some(rule) => rule.selectors.as_slice(),
        None => &[],
    }
}

/// The declarations of a rule, if there is one.
fn decls_in(rule: Option<&Rule>) -> &[DeclItem]
    ensures { result.now ≡ spec.decls_in (option_copied rule.entry) }
{
    match rule {
        Some(rule) => rule.decls.as_slice(),
        None => &[],
    }
}

/// The selector at a place, if the sheet has it.
pub(crate) fn selector_at(items: &[Item], place: PairPlace) -> Option<&SelItem>
    ensures { option_copied result ≡ spec.selector_at items.now place }
{
    selectors_in(rule_at(items, place.item as usize)).get(place.sel as usize)
}

/// The declaration at a place, if the sheet has it.
pub(crate) fn decl_at(items: &[Item], place: PairPlace) -> Option<&DeclItem>
    ensures { option_copied result ≡ spec.decl_at items.now place }
{
    decls_in(rule_at(items, place.item as usize)).get(place.decl as usize)
}

// ---- One entry

/// Whether a kept item has this number.
fn is_kept_at(items: &[Item], number: usize) -> bool
    ensures { result ≡ spec.is_kept_in (slice_get items.now number) }
{
    match items.get(number) {
        Some(item) => is_kept(item),
        None => false,
    }
}

/// The item that an entry names.
pub(crate) fn item_of(entry: &Reversed) -> u32
    ensures { result ≡ spec.item_of entry.now }
{
    match entry.other {
        Other::Pair(place) => place.item,
        Other::Kept(number) => number,
    }
}

/// Whether two selectors are answered otherwise than apart. The answer is asked for.
fn both_stop(pairs: &mut Pairs, x: &SelItem, y: &SelItem) -> Result<bool, AllocError>
    requires { AreInProfile (Some x.now) (Some y.now) }
    ensures grows { Grows pairs.old pairs.new }
    ensures tells { IfOk result (λ stop. (later : List Answered) → IsLater (seen pairs.new) later → TellsParts later (Some x.now) (Some y.now) stop) }
{
    let other = asked_other(pairs, &x.selector, &y.selector)?;
    Ok(other)
}

/// The same, if there are both.
#[tactic(auto, using(crate::proofs::Answered::grows_itself))]
fn parts_stop(
    pairs: &mut Pairs,
    x: Option<&SelItem>,
    y: Option<&SelItem>,
) -> Result<bool, AllocError>
    requires { AreInProfile (option_copied x) (option_copied y) }
    ensures grows { Grows pairs.old pairs.new }
    ensures tells { IfOk result (λ stop. (later : List Answered) → IsLater (seen pairs.new) later →
        TellsParts later (option_copied x.entry) (option_copied y.entry) stop) }
{
    match x {
        Some(x) => match y {
            Some(y) => both_stop(pairs, x, y),
            None => Ok(false),
        },
        None => Ok(false),
    }
}

/// Whether the selectors of two pairs are. The answer is asked for.
fn pair_stops(
    pairs: &mut Pairs,
    items: &[Item],
    moved: PairPlace,
    other: PairPlace,
) -> Result<bool, AllocError>
    requires { AllByRecursion HasSelectorsInProfile items.now }
    ensures grows { Grows pairs.old pairs.new }
    ensures tells { IfOk result (λ stop. (later : List Answered) → IsLater (seen pairs.new) later →
        TellsParts later (spec.selector_at items.now moved) (spec.selector_at items.now other) stop) }
{
    parts_stop(pairs, selector_at(items, moved), selector_at(items, other))
}

/// Whether an entry stops its step. The answer is asked for.
#[tactic(auto, using(crate::proofs::Answered::grows_itself))]
fn entry_stops(pairs: &mut Pairs, items: &[Item], entry: &Reversed) -> Result<bool, AllocError>
    requires { AllByRecursion HasSelectorsInProfile items.now }
    ensures grows { Grows pairs.old pairs.new }
    ensures tells { IfOk result (λ stop. (later : List Answered) → IsLater (seen pairs.new) later → TellsEntry later items.now entry.now stop) }
{
    match entry.other {
        Other::Pair(other) => pair_stops(pairs, items, entry.moved, other),
        Other::Kept(number) => Ok(is_kept_at(items, number as usize)),
    }
}

// ---- All entries

/// Whether an item is marked.
fn is_marked(marks: &[bool], item: usize) -> bool
    ensures { result ≡ slice_index_or marks.now item false }
{
    match marks.get(item) {
        Some(marked) => *marked,
        None => false,
    }
}

/// Puts an entry after others, and marks its item.
fn put_entry(
    marks: &mut Vec<bool>,
    found: &mut Vec<Reversed>,
    entry: &Reversed,
) -> Result<(), AllocError>
    requires inside { spec.item_of entry.now < length marks.old.items }
    ensures marked { OnOk result (marks.new.items ≡ slice_set marks.old.items (spec.item_of entry.now) true) }
    ensures put { OnOk result (found.new.items ≡ found.old.items ++ entry.now ∷ []) }
{
    found.push(*entry)?;
    marks[item_of(entry) as usize] = true;
    Ok(())
}

/// Puts an entry after others that stop its step if it does too. None of them names its item. Their items are marked.
#[tactic(auto, using(crate::proofs::Answered::grows_itself))]
fn add_new(
    pairs: &mut Pairs,
    items: &[Item],
    marks: &mut Vec<bool>,
    found: &mut Vec<Reversed>,
    entry: &Reversed,
) -> Result<(), AllocError>
    requires profile { AllByRecursion HasSelectorsInProfile items.now }
    requires marked { AreMarks items.now found.old.items marks.old.items }
    requires unnamed { spec.has_item found.old.items (spec.item_of entry.now) ≡ false }
    ensures grows { Grows pairs.old pairs.new }
    ensures marked { OnOk result (AreMarks items.now found.new.items marks.new.items) }
    ensures adds { OnOk result ((later : List Answered) → IsLater (seen pairs.new) later → AddsEntry later items.now found.old.items entry.now found.new.items) }
{
    let stop = entry_stops(pairs, items, entry)?;
    if stop {
        // What is answered is true: a law, which does nothing.
        pairs.are_true();
        put_entry(marks, found, entry)?;
        Ok(())
    } else {
        Ok(())
    }
}

/// Puts an entry after others that stop its step if it does too, and none of them names its item. Their items are
/// marked.
#[tactic(auto, using(crate::proofs::Answered::grows_itself))]
fn add_entry(
    pairs: &mut Pairs,
    items: &[Item],
    marks: &mut Vec<bool>,
    found: &mut Vec<Reversed>,
    entry: &Reversed,
) -> Result<(), AllocError>
    requires profile { AllByRecursion HasSelectorsInProfile items.now }
    requires marked { AreMarks items.now found.old.items marks.old.items }
    ensures grows { Grows pairs.old pairs.new }
    ensures marked { OnOk result (AreMarks items.now found.new.items marks.new.items) }
    ensures adds { OnOk result ((later : List Answered) → IsLater (seen pairs.new) later → AddsEntry later items.now found.old.items entry.now found.new.items) }
{
    if is_marked(marks, item_of(entry) as usize) {
        Ok(())
    } else {
        add_new(pairs, items, marks, found, entry)
    }
}

/// The marks of so many items, of which no entry names one.
fn no_marks(alloc: Global, count: usize) -> Result<Vec<bool>, AllocError>
    ensures { IfOk result (λ marks. marks.items ≡ replicate count false) }
{
    Ok(vec![in alloc; false; count]?)
}

/// Of each item that stops a step with these entries the first one that does. The answers are asked for.
pub(crate) fn find_stopping(
    alloc: Global,
    pairs: &mut Pairs,
    items: &[Item],
    entries: &[Reversed],
) -> Result<Vec<Reversed>, AllocError>
    requires { AllByRecursion HasSelectorsInProfile items.now }
    ensures grows { Grows pairs.old pairs.new }
    ensures tells { IfOk result (λ found. (later : List Answered) → IsLater (seen pairs.new) later → TellsEntries later items.now entries.now found.items) }
{
    let mut found = Vec::new(alloc);
    let mut marks = no_marks(alloc, items.len())?;
    let mut rest = entries;
    'entries: while let [entry, others @ ..] = rest {
        add_entry(pairs, items, &mut marks, &mut found, entry)?;
        rest = others;
    }
    Ok(found)
}
