//! Whether a declaration is repeated, and where its pair is last.

ghost use Rattle.std.specs.Prelude.{◌≡◌, slice_get};
ghost use Rattle.std.specs.Option.{option_copied};
ghost use Rattle.lint_laws.specs.Repeats as rules;
ghost use Rattle.lint_text.specs.Findings as spec;

use crate::level::Level;
use css_model::{Decl, DeclItem, Item, Rule, SelItem, Selector};
use sheet_order::{PairIndex, Placed};

/// The last place of a pair, if it has one.
fn last_of<'b, 'a>(
    lasts: &'b PairIndex<'a>,
    selector: &'a Selector,
    decl: &'a Decl,
) -> Option<&'b Placed<'a>>
    ensures { option_copied result ≡ rules.last_in lasts.now (rules.pair_of selector.now decl.now) }
{
    let pair = Placed {
        selector,
        decl,
        item: 0,
        selector_number: 0,
        decl_number: 0,
    };
    lasts.find(&pair)
}

/// Whether a place that was found is this declaration of this item, by their numbers.
fn is_at(found: Option<&Placed<'_>>, item: usize, number: usize) -> bool
    ensures { result ≡ rules.is_here item number (option_copied found.entry) }
{
    match found {
        Some(x) => x.item == item && x.decl_number == number,
        None => false,
    }
}

/// Whether a pair is last at this declaration of this item, by their numbers.
fn is_last_here<'a>(
    lasts: &PairIndex<'a>,
    item: usize,
    number: usize,
    selector: &'a Selector,
    decl: &'a Decl,
) -> bool
    ensures { result ≡ rules.is_here item number (rules.last_in lasts.now (rules.pair_of selector.now decl.now)) }
{
    is_at(last_of(lasts, selector, decl), item, number)
}

/// Whether a declaration is repeated. It has this number in the rule of this number, which has these selectors.
pub(crate) fn is_repeated<'a>(
    lasts: &PairIndex<'a>,
    item: usize,
    selectors: &'a [SelItem],
    number: usize,
    decl: &'a Decl,
) -> bool
    ensures { result ≡ rules.is_repeated lasts.now item selectors.now number decl.now }
{
    selectors
        .iter()
        .all(|s| !is_last_here(lasts, item, number, &s.selector, decl))
}

/// Where the declaration of this number begins.
fn decl_start(decls: &[DeclItem], number: usize) -> u32
    ensures { result ≡ spec.decl_start (slice_get decls.now number) }
{
    match decls.get(number) {
        Some(decl) => decl.name.start,
        None => 0,
    }
}

/// The rule of this number, if it is one.
fn rule_at(items: &[Item], number: usize) -> Option<&Rule>
    ensures { option_copied result ≡ spec.rule_in (slice_get items.now number) }
{
    match items.get(number) {
        Some(Item::Rule(rule)) => Some(rule),
        _ => None,
    }
}

/// Where the declaration of this number begins, if there is a rule.
fn rule_start(rule: Option<&Rule>, number: usize) -> u32
    ensures { result ≡ spec.rule_start (option_copied rule.entry) number }
{
    match rule {
        Some(rule) => decl_start(&rule.decls, number),
        None => 0,
    }
}

/// Where the declaration begins that a pair at its last place has.
fn pair_start(items: &[Item], found: Option<&Placed<'_>>) -> u32
    ensures { result ≡ spec.pair_start items.now (option_copied found.entry) }
{
    match found {
        Some(x) => rule_start(rule_at(items, x.item), x.decl_number),
        None => 0,
    }
}

/// Where the last declaration of the pair begins that the first of these selectors has with a declaration.
pub(crate) fn last_start<'a>(level: &Level<'a, '_>, selectors: &'a [SelItem], decl: &'a Decl) -> u32
    ensures { result ≡ spec.last_start level.now selectors.now decl.now }
{
    match selectors {
        [] => 0,
        [first, ..] => pair_start(level.items, last_of(level.lasts, &first.selector, decl)),
    }
}
