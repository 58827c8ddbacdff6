//! The pairs that are moved.

ghost use Rattle.std.specs.Prelude.{◌≡◌, IfOk, slice_get};
ghost use Rattle.std.specs.Option.{option_copied};
ghost use Rattle.std.specs.List.{filter};
ghost use Rattle.order_laws.specs.Edits as edits;
ghost use Rattle.order_laws.specs.Reversed as order;
ghost use Rattle.sheet_order.specs.Taking as taking;

use crate::members::{has_decl, has_selector};
use crate::pairs::{Placed, last_pairs};
use crate::places::Moved;
use css_model::{Item, Rule};
use std::alloc::{AllocError, Global};

/// Whether a pair is in a rule.
fn is_of_rule(rule: &Rule, number: u32, p: &Placed<'_>) -> bool
    ensures { result ≡ edits.is_moved (edits.whole_rule number rule.now) p.now.pair }
{
    has_selector(&rule.selectors, p.selector) && has_decl(&rule.decls, p.decl)
}

/// Whether a selector is in one of two rules, and a declaration in both.
fn is_of_both(upper: &Rule, lower: &Rule, p: &Placed<'_>) -> bool
    ensures { result ≡ taking.is_of_both upper.now lower.now p.now.pair }
{
    let selector = has_selector(&upper.selectors, p.selector)
        || has_selector(&lower.selectors, p.selector);
    selector && (has_decl(&upper.decls, p.decl) && has_decl(&lower.decls, p.decl))
}

/// Whether a pair is of a selector of either rule and a declaration of both.
fn is_common(upper: &Rule, lower: &Rule, p: &Placed<'_>) -> bool
    ensures { result ≡ edits.is_moved (taking.common_of 0 0 upper.now lower.now) p.now.pair }
{
    is_of_both(upper, lower, p)
}

/// Those of some pairs that are in a rule.
#[tactic(auto, using(crate::proofs::Lists::filter_append))]
fn among_rule<'a>(
    alloc: Global,
    pairs: &[Placed<'a>],
    number: u32,
    rule: &Rule,
) -> Result<Vec<Placed<'a>>, AllocError>
    ensures { IfOk result (λ found. found.items ≡ filter (λ p. edits.is_moved (edits.whole_rule number rule.now) p.pair) pairs.now) }
{
    let mut found = Vec::new(alloc);
    for p in pairs {
        if is_of_rule(rule, number, p) {
            found.push(p.copy())?;
        }
    }
    Ok(found)
}

/// Those of some pairs that are common to two rules.
#[tactic(auto, using(crate::proofs::Lists::filter_append))]
fn among_both<'a>(
    alloc: Global,
    pairs: &[Placed<'a>],
    upper: &Rule,
    lower: &Rule,
) -> Result<Vec<Placed<'a>>, AllocError>
    ensures { IfOk result (λ found. found.items ≡ filter (λ p. edits.is_moved (taking.common_of 0 0 upper.now lower.now) p.pair) pairs.now) }
{
    let mut found = Vec::new(alloc);
    for p in pairs {
        if is_common(upper, lower, p) {
            found.push(p.copy())?;
        }
    }
    Ok(found)
}

/// The pairs of a rule.
fn of_rule<'a>(
    alloc: Global,
    items: &'a [Item],
    number: u32,
    rule: &Rule,
) -> Result<Vec<Placed<'a>>, AllocError>
    ensures { IfOk result (λ found. found.items ≡ order.moved_pairs items.now (edits.whole_rule number rule.now)) }
{
    let pairs = last_pairs(alloc, Some(&[number]), items)?;
    among_rule(alloc, &pairs, number, rule)
}

/// The common pairs of two rules.
fn of_both<'a>(
    alloc: Global,
    items: &'a [Item],
    numbers: (u32, u32),
    upper: &Rule,
    lower: &Rule,
) -> Result<Vec<Placed<'a>>, AllocError>
    ensures { IfOk result (λ found. found.items ≡ order.moved_pairs items.now (taking.common_of numbers.0 numbers.1 upper.now lower.now)) }
{
    let (above, below) = numbers;
    let pairs = last_pairs(alloc, Some(&[above, below]), items)?;
    among_both(alloc, &pairs, upper, lower)
}

/// The rule of this number, if it is one.
fn find_rule(items: &[Item], number: u32) -> Option<&Rule>
    ensures { option_copied result ≡ taking.rule_in (slice_get items.now number) }
{
    match items.get(number as usize) {
        Some(Item::Rule(rule)) => Some(rule),
        _ => None,
    }
}

/// No pairs.
#[tactic(auto, using(crate::proofs::Common::nothing_moves))]
fn none_of<'a>(alloc: Global, items: &'a [Item]) -> Vec<Placed<'a>>
    ensures { result.items ≡ order.moved_pairs items.now taking.nothing }
{
    let _count = items.len();
    Vec::new(alloc)
}

/// The pairs of the rule of this number.
fn moved_rule<'a>(
    alloc: Global,
    items: &'a [Item],
    number: u32,
) -> Result<Vec<Placed<'a>>, AllocError>
    ensures { IfOk result (λ found. found.items ≡ order.moved_pairs items.now (taking.moved_rule number (taking.rule_in (slice_get items.now number)))) }
{
    match find_rule(items, number) {
        Some(rule) => of_rule(alloc, items, number, rule),
        None => Ok(none_of(alloc, items)),
    }
}

/// The common pairs of the rules of these numbers.
fn moved_common<'a>(
    alloc: Global,
    items: &'a [Item],
    upper: u32,
    lower: u32,
) -> Result<Vec<Placed<'a>>, AllocError>
    ensures { IfOk result (λ found. found.items ≡ order.moved_pairs items.now
        (taking.moved_common upper lower (taking.rule_in (slice_get items.now upper)) (taking.rule_in (slice_get items.now lower)))) }
{
    match find_rule(items, upper) {
        Some(above) => match find_rule(items, lower) {
            Some(below) => of_both(alloc, items, (upper, lower), above, below),
            None => Ok(none_of(alloc, items)),
        },
        None => Ok(none_of(alloc, items)),
    }
}

/// The pairs that are moved, each at its last place in what it is moved out of. `AllocError` where memory runs out.
pub fn moved_pairs<'a>(
    alloc: Global,
    items: &'a [Item],
    moved: &Moved,
) -> Result<Vec<Placed<'a>>, AllocError>
    ensures { IfOk result (λ found. found.items ≡ order.moved_pairs items.now (taking.moved_in items.now moved.now)) }
{
    match *moved {
        Moved::Rule(number) => moved_rule(alloc, items, number),
        Moved::Common { upper, lower } => moved_common(alloc, items, upper, lower),
    }
}
