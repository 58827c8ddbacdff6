//! Two sheets, where each pair and each kept item of the first one is found at once in the second.

ghost use Rattle.std.specs.Prelude.{◌≡◌, ◌≤◌, ◌++◌, [], ◌∷◌, IfOk, OnOk};
ghost use Rattle.css_model.specs.Sheets.KeptItems.{kept_before as before};
ghost use Rattle.sheet_same.specs.Standing as standing;
ghost use Rattle.sheet_same.specs.Twins as spec;

use css_model::Item;
use sheet_order::{Ordered, PairIndex, is_kept, kept_before};
use std::alloc::{AllocError, Global};

/// Two sheets, where each pair and each kept item of the first one is found at once in the second.
#[derive(Drop)]
pub(crate) struct Twins<'a> {
    pub(crate) sheet: &'a Ordered<'a>,
    pub(crate) other: &'a Ordered<'a>,
    /// The pairs of the second one.
    pub(crate) index: PairIndex<'a>,
    /// For each item of the first one, how many kept ones there are before it.
    counts: Vec<usize>,
    /// The numbers of the kept items of the second one.
    places: Vec<usize>,
    ghost indexed: { index ≡ other.now.pairs.items },
    ghost counted: { counts.items ≡ spec.counts_from 0 sheet.now.items.now },
    ghost placed: { places.items ≡ spec.places_from 0 other.now.items.now },
}

/// One for a kept item, otherwise 0.
fn count_of(item: &Item) -> usize
    ensures exact { result ≡ spec.count_of item.now }
    ensures small { result ≤ 1 }
{
    if is_kept(item) { 1 } else { 0 }
}

/// For each of some items, how many kept ones there are before it.
fn counts(alloc: Global, items: &[Item]) -> Result<Vec<usize>, AllocError>
    ensures { IfOk result (λ found. found.items ≡ spec.counts_from 0 items.now) }
{
    let mut found = Vec::with_capacity(alloc, items.len())?;
    let mut count = 0;
    let mut rest = items;
    'rest: while let Some((first, behind)) = rest.split_first() {
        found.push(count)?;
        count += count_of(first);
        rest = behind;
    }
    Ok(found)
}

/// Puts the number of an item after the others, if it is kept.
fn push_if_kept(found: &mut Vec<usize>, number: usize, item: &Item) -> Result<(), AllocError>
    ensures { OnOk result (found.new.items ≡ found.old.items ++ spec.places_from number (item.now ∷ [])) }
{
    if is_kept(item) {
        found.push(number)?;
    }
    Ok(())
}

/// The numbers of the kept ones of some items.
fn places(alloc: Global, items: &[Item]) -> Result<Vec<usize>, AllocError>
    ensures { IfOk result (λ found. found.items ≡ spec.places_from 0 items.now) }
{
    let mut found = Vec::new(alloc);
    let mut number = 0;
    let mut rest = items;
    'rest: while let Some((first, behind)) = rest.split_first() {
        push_if_kept(&mut found, number, first)?;
        number += 1;
        rest = behind;
    }
    Ok(found)
}

/// The number among all items of the kept one of this number.
fn kept_at(items: &[Item], places: &[usize], number: usize) -> usize
    requires { places.now ≡ spec.places_from 0 items.now }
    ensures { result ≡ standing.kept_at 0 number items.now }
{
    match places.get(number) {
        Some(place) => *place,
        None => items.len(),
    }
}

impl<'a> Twins<'a> {
    /// Two sheets.
    pub(crate) fn new(
        alloc: Global,
        sheet: &'a Ordered<'a>,
        other: &'a Ordered<'a>,
    ) -> Result<Twins<'a>, AllocError>
        ensures sheet { IfOk result (λ twins. twins.sheet.now ≡ sheet.now) }
        ensures other { IfOk result (λ twins. twins.other.now ≡ other.now) }
    {
        let index = PairIndex::new(alloc, &other.pairs)?;
        let counts = counts(alloc, sheet.items)?;
        let places = places(alloc, other.items)?;
        Ok(Twins {
            sheet,
            other,
            index,
            counts,
            places,
        })
    }

    /// How many kept items of the first sheet there are before the one of this number.
    fn kept_before(&self, number: usize) -> usize
        ensures { result ≡ before number self.now.sheet.now.items.now }
    {
        match self.counts.get(number) {
            Some(count) => *count,
            None => kept_before(number, self.sheet.items),
        }
    }

    /// The number in the second sheet of the kept item that is there in the place of the one of this number.
    pub(crate) fn kept_twin(&self, number: usize) -> usize
        ensures { result ≡ standing.kept_at 0 (before number self.now.sheet.now.items.now) self.now.other.now.items.now }
    {
        kept_at(self.other.items, &self.places, self.kept_before(number))
    }
}
