//! All hints of a pair.

ghost use Rattle.std.specs.Prelude.{◌≡◌, ◌≤◌, ◌<◌, ◌+◌, ◌*◌, ◌^◌, length, suc, OnOk};
ghost use Rattle.std.specs.List.{AllByRecursion};
ghost use Rattle.formula_laws.specs.Counts.{steps_below};
ghost use Rattle.formula_laws.specs.Formula.{first_vars, names_of};
ghost use Rattle.formula_laws.specs.Hinted.{with_hints};
ghost use Rattle.formula_laws.specs.Hints.{with_asked_hints, with_remainders, with_run_rests, with_shared};
ghost use Rattle.hint_clauses.specs.Hints.{all_hints};
ghost use Rattle.hint_clauses.specs.Chains.{owns_at, row_at};
ghost use Rattle.selector_laws.specs.Limits.{KeepsCompound};
ghost use Rattle.sibling_clauses.specs.Bounds.{IsSmall, IsWhole};

use crate::asked::rests_of;
use crate::chains::{number_in_row, row_of};
use crate::denied::add_refused_hints;
use crate::distances::add_distance_hints;
use crate::links::begins_run;
use crate::rests::add_rests;
use crate::rises::add_rises;
use crate::shared::add_shared;
use cnf::Formula;
use css_model::Selector;
use formula_laws::Count;
use sibling_clauses::{Numbering, links_of, numbers_asked};
use std::alloc::{AllocError, Global};

/// Adds the hints of two selectors, where some test looks at a number of siblings. `AllocError` where memory runs
/// out; then the formula is not to be used again.
pub fn add_hints(
    alloc: Global,
    f: &mut Formula,
    g: Numbering,
    left: &Selector,
    right: &Selector,
) -> Result<(), AllocError>
    requires small { IsSmall g }
    requires left { IsWhole left.now g.left }
    requires right { IsWhole right.now g.right }
    requires left_tests { AllByRecursion KeepsCompound left.now.chain }
    requires right_tests { AllByRecursion KeepsCompound right.now.chain }
    requires in_range { first_vars g.left g.right g.digits ≤ f.old.vars }
    requires room { (with_hints left.now right.now (names_of g.left g.right g.digits) f.old).vars ≤ 2 ^ 30 }
    ensures { OnOk result (f.new ≡ with_hints left.now right.now (names_of g.left g.right g.digits) f.old) }
{
    if numbers_asked(left, right) {
        add_all_hints(alloc, f, g, left, right)?;
    }
    Ok(())
}

/// The same where one does.
fn add_all_hints(
    alloc: Global,
    f: &mut Formula,
    g: Numbering,
    left: &Selector,
    right: &Selector,
) -> Result<(), AllocError>
    requires small { IsSmall g }
    requires left { IsWhole left.now g.left }
    requires right { IsWhole right.now g.right }
    requires left_tests { AllByRecursion KeepsCompound left.now.chain }
    requires right_tests { AllByRecursion KeepsCompound right.now.chain }
    requires in_range { first_vars g.left g.right g.digits ≤ f.old.vars }
    requires room { (all_hints left.now right.now (names_of g.left g.right g.digits) f.old).vars ≤ 2 ^ 30 }
    ensures { OnOk result (f.new ≡ all_hints left.now right.now (names_of g.left g.right g.digits) f.old) }
{
    add_asked_hints(alloc, f, g, left, right)?;
    add_refused_hints(alloc, f, g, left, right)?;
    add_distance_hints(alloc, f, g, left, right)?;
    Ok(())
}

/// Adds the hints on numbers that rise, and on what they leave.
fn add_asked_hints(
    alloc: Global,
    f: &mut Formula,
    g: Numbering,
    left: &Selector,
    right: &Selector,
) -> Result<(), AllocError>
    requires small { IsSmall g }
    requires left { IsWhole left.now g.left }
    requires right { IsWhole right.now g.right }
    requires left_tests { AllByRecursion KeepsCompound left.now.chain }
    requires right_tests { AllByRecursion KeepsCompound right.now.chain }
    requires in_range { first_vars g.left g.right g.digits ≤ f.old.vars }
    requires room { (with_asked_hints left.now right.now (names_of g.left g.right g.digits) f.old).vars ≤ 2 ^ 30 }
    ensures { OnOk result (f.new ≡ with_asked_hints left.now right.now (names_of g.left g.right g.digits) f.old) }
{
    add_rises(alloc, f, g, links_of(left), 1)?;
    add_rises(alloc, f, g, links_of(right), 2 * (g.left + 1) + 1)?;
    add_remainders(alloc, f, g, Count::Before, left, right)?;
    add_remainders(alloc, f, g, Count::Behind, left, right)?;
    Ok(())
}

/// Adds the hints on one kind of numbers.
fn add_remainders(
    alloc: Global,
    f: &mut Formula,
    g: Numbering,
    count: Count,
    left: &Selector,
    right: &Selector,
) -> Result<(), AllocError>
    requires small { IsSmall g }
    requires left { IsWhole left.now g.left }
    requires right { IsWhole right.now g.right }
    requires left_tests { AllByRecursion KeepsCompound left.now.chain }
    requires right_tests { AllByRecursion KeepsCompound right.now.chain }
    requires in_range { first_vars g.left g.right g.digits ≤ f.old.vars }
    requires room { (with_remainders left.now right.now (owns_at g count) f.old).vars ≤ 2 ^ 30 }
    ensures { OnOk result (f.new ≡ with_remainders left.now right.now (owns_at g count) f.old) }
{
    let first = row_of(g, count, false);
    let second = row_of(g, count, true);
    add_runs(alloc, f, g, count, left, first, g.left)?;
    add_runs(alloc, f, g, count, right, second, g.right)?;
    add_run_pairs(alloc, f, g, count, left, right)?;
    Ok(())
}

/// Adds, for each run of a selector, what the number of its first compound leaves. `row` is the number of the
/// selector's first compound, and `last` says which compound is its last.
fn add_runs(
    alloc: Global,
    f: &mut Formula,
    g: Numbering,
    count: Count,
    selector: &Selector,
    row: u32,
    last: u32,
) -> Result<(), AllocError>
    requires small { IsSmall g }
    requires whole { IsWhole selector.now last }
    requires few { last < 12 }
    requires tests { AllByRecursion KeepsCompound selector.now.chain }
    requires row { row + 2 * last < 2 * suc g.left + 2 * suc g.right }
    requires in_range { first_vars g.left g.right g.digits ≤ f.old.vars }
    requires room { (steps_below (last + 1) (with_run_rests count selector.now.links selector.now.chain (row_at g row)) f.old).vars ≤ 2 ^ 30 }
    ensures { OnOk result (f.new ≡ steps_below (last + 1) (with_run_rests count selector.now.links selector.now.chain (row_at g row)) f.old) }
{
    for p in 0..last + 1 {
        add_run(alloc, f, g, count, selector, row, p)?;
    }
    Ok(())
}

/// The same for the run that begins with the p-th compound, if one does.
fn add_run(
    alloc: Global,
    f: &mut Formula,
    g: Numbering,
    count: Count,
    selector: &Selector,
    row: u32,
    p: u32,
) -> Result<(), AllocError>
    requires small { IsSmall g }
    requires chain { length selector.now.chain ≡ suc (length selector.now.links) }
    requires few { length selector.now.links < 12 }
    requires tests { AllByRecursion KeepsCompound selector.now.chain }
    requires row { row + 2 * p < 2 * suc g.left + 2 * suc g.right }
    requires in_range { first_vars g.left g.right g.digits ≤ f.old.vars }
    requires room { (with_run_rests count selector.now.links selector.now.chain (row_at g row) p f.old).vars ≤ 2 ^ 30 }
    ensures { OnOk result (f.new ≡ with_run_rests count selector.now.links selector.now.chain (row_at g row) p f.old) }
{
    if !begins_run(selector, p) {
        return Ok(());
    }
    let rests = rests_of(alloc, count, selector, p)?;
    let number = number_in_row(alloc, g, row, p)?;
    add_rests(alloc, f, &rests, &number)?;
    Ok(())
}

/// Adds, for each run of the left selector and each of the right one, what they ask together.
fn add_run_pairs(
    alloc: Global,
    f: &mut Formula,
    g: Numbering,
    count: Count,
    left: &Selector,
    right: &Selector,
) -> Result<(), AllocError>
    requires small { IsSmall g }
    requires left { IsWhole left.now g.left }
    requires right { IsWhole right.now g.right }
    requires left_tests { AllByRecursion KeepsCompound left.now.chain }
    requires right_tests { AllByRecursion KeepsCompound right.now.chain }
    requires in_range { first_vars g.left g.right g.digits ≤ f.old.vars }
    requires room { (steps_below (g.left + 1) (λ p. steps_below (g.right + 1) (with_shared left.now right.now (owns_at g count) p)) f.old).vars ≤ 2 ^ 30 }
    ensures { OnOk result (f.new ≡ steps_below (g.left + 1) (λ p. steps_below (g.right + 1) (with_shared left.now right.now (owns_at g count) p)) f.old) }
{
    for p in 0..g.left + 1 {
        add_run_pair_row(alloc, f, g, count, left, right, p)?;
    }
    Ok(())
}

/// The same for the left run that begins with the p-th compound, if one does.
fn add_run_pair_row(
    alloc: Global,
    f: &mut Formula,
    g: Numbering,
    count: Count,
    left: &Selector,
    right: &Selector,
    p: u32,
) -> Result<(), AllocError>
    requires small { IsSmall g }
    requires left { IsWhole left.now g.left }
    requires right { IsWhole right.now g.right }
    requires left_tests { AllByRecursion KeepsCompound left.now.chain }
    requires right_tests { AllByRecursion KeepsCompound right.now.chain }
    requires row { p ≤ g.left }
    requires in_range { first_vars g.left g.right g.digits ≤ f.old.vars }
    requires room { (steps_below (g.right + 1) (with_shared left.now right.now (owns_at g count) p) f.old).vars ≤ 2 ^ 30 }
    ensures { OnOk result (f.new ≡ steps_below (g.right + 1) (with_shared left.now right.now (owns_at g count) p) f.old) }
{
    for q in 0..g.right + 1 {
        add_shared(alloc, f, g, count, left, right, p, q)?;
    }
    Ok(())
}
