//! The hints on tests that must not hold, of whole selectors.

ghost use Rattle.std.specs.Prelude.{◌≡◌, ◌≤◌, ◌+◌, ◌^◌, OnOk};
ghost use Rattle.std.specs.List.{AllByRecursion};
ghost use Rattle.formula_laws.specs.Counts.{steps_below};
ghost use Rattle.formula_laws.specs.Formula.{first_vars, names_of};
ghost use Rattle.formula_laws.specs.Refused.{with_refused, with_refused_hints};
ghost use Rattle.hint_clauses.specs.Chains.{owns_at};
ghost use Rattle.hint_clauses.specs.Refusals.{left_run_step, right_run_step};
ghost use Rattle.selector_laws.specs.Limits.{KeepsCompound};
ghost use Rattle.sibling_clauses.specs.Bounds.{IsSmall, IsWhole};

use crate::chains::row_of;
use crate::joints::{left_joints, right_joints};
use crate::links::begins_run;
use crate::refusals::{KnownRun, add_refused_run};
use cnf::Formula;
use css_model::Selector;
use formula_laws::Count;
use sibling_clauses::Numbering;
use std::alloc::{AllocError, Global};

/// Adds the hints on tests of two selectors that must not hold.
pub(crate) fn add_refused_hints(
    alloc: Global,
    f: &mut Formula,
    g: Numbering,
    left: &Selector,
    right: &Selector,
) -> Result<(), AllocError>
    requires small { IsSmall g }
    requires left { IsWhole left.now g.left }
    requires right { IsWhole right.now g.right }
    requires left_tests { AllByRecursion KeepsCompound left.now.chain }
    requires right_tests { AllByRecursion KeepsCompound right.now.chain }
    requires in_range { first_vars g.left g.right g.digits ≤ f.old.vars }
    requires room { (with_refused_hints left.now right.now (names_of g.left g.right g.digits) f.old).vars ≤ 2 ^ 30 }
    ensures { OnOk result (f.new ≡ with_refused_hints left.now right.now (names_of g.left g.right g.digits) f.old) }
{
    add_refused(alloc, f, g, Count::Before, left, right)?;
    add_refused(alloc, f, g, Count::Behind, left, right)?;
    Ok(())
}

/// The same on one kind of numbers.
fn add_refused(
    alloc: Global,
    f: &mut Formula,
    g: Numbering,
    count: Count,
    left: &Selector,
    right: &Selector,
) -> Result<(), AllocError>
    requires small { IsSmall g }
    requires left { IsWhole left.now g.left }
    requires right { IsWhole right.now g.right }
    requires left_tests { AllByRecursion KeepsCompound left.now.chain }
    requires right_tests { AllByRecursion KeepsCompound right.now.chain }
    requires in_range { first_vars g.left g.right g.digits ≤ f.old.vars }
    requires room { (with_refused left.now right.now (owns_at g count) (names_of g.left g.right g.digits).rx (names_of g.left g.right g.digits).ry f.old).vars ≤ 2 ^ 30 }
    ensures { OnOk result (f.new ≡ with_refused left.now right.now (owns_at g count) (names_of g.left g.right g.digits).rx (names_of g.left g.right g.digits).ry f.old) }
{
    add_left_refused(alloc, f, g, count, left, right)?;
    add_right_refused(alloc, f, g, count, left, right)?;
    Ok(())
}

/// The same of the left selector.
fn add_left_refused(
    alloc: Global,
    f: &mut Formula,
    g: Numbering,
    count: Count,
    left: &Selector,
    right: &Selector,
) -> Result<(), AllocError>
    requires small { IsSmall g }
    requires left { IsWhole left.now g.left }
    requires right { IsWhole right.now g.right }
    requires left_tests { AllByRecursion KeepsCompound left.now.chain }
    requires right_tests { AllByRecursion KeepsCompound right.now.chain }
    requires in_range { first_vars g.left g.right g.digits ≤ f.old.vars }
    requires room { (steps_below (g.left + 1) (left_run_step g count left.now right.now) f.old).vars ≤ 2 ^ 30 }
    ensures { OnOk result (f.new ≡ steps_below (g.left + 1) (left_run_step g count left.now right.now) f.old) }
{
    for p in 0..g.left + 1 {
        add_left_run(alloc, f, g, count, left, right, p)?;
    }
    Ok(())
}

/// The same of the left run that begins with the p-th compound, if one does.
fn add_left_run(
    alloc: Global,
    f: &mut Formula,
    g: Numbering,
    count: Count,
    left: &Selector,
    right: &Selector,
    p: u32,
) -> Result<(), AllocError>
    requires small { IsSmall g }
    requires left { IsWhole left.now g.left }
    requires right { IsWhole right.now g.right }
    requires left_tests { AllByRecursion KeepsCompound left.now.chain }
    requires right_tests { AllByRecursion KeepsCompound right.now.chain }
    requires in_range { first_vars g.left g.right g.digits ≤ f.old.vars }
    requires room { (left_run_step g count left.now right.now p f.old).vars ≤ 2 ^ 30 }
    ensures { OnOk result (f.new ≡ left_run_step g count left.now right.now p f.old) }
{
    if !begins_run(left, p) {
        return Ok(());
    }
    let row = row_of(g, count, false);
    let root = g.left_root();
    let joints = left_joints(alloc, g, count, left, right, p)?;
    let run = KnownRun {
        numbering: g,
        count,
        row,
        root,
        first: p,
        joints,
    };
    add_refused_run(alloc, f, left, &run, g.left)?;
    Ok(())
}

/// The same of the right selector.
fn add_right_refused(
    alloc: Global,
    f: &mut Formula,
    g: Numbering,
    count: Count,
    left: &Selector,
    right: &Selector,
) -> Result<(), AllocError>
    requires small { IsSmall g }
    requires left { IsWhole left.now g.left }
    requires right { IsWhole right.now g.right }
    requires left_tests { AllByRecursion KeepsCompound left.now.chain }
    requires right_tests { AllByRecursion KeepsCompound right.now.chain }
    requires in_range { first_vars g.left g.right g.digits ≤ f.old.vars }
    requires room { (steps_below (g.right + 1) (right_run_step g count left.now right.now) f.old).vars ≤ 2 ^ 30 }
    ensures { OnOk result (f.new ≡ steps_below (g.right + 1) (right_run_step g count left.now right.now) f.old) }
{
    for q in 0..g.right + 1 {
        add_right_run(alloc, f, g, count, left, right, q)?;
    }
    Ok(())
}

/// The same of the right run that begins with the q-th compound, if one does.
fn add_right_run(
    alloc: Global,
    f: &mut Formula,
    g: Numbering,
    count: Count,
    left: &Selector,
    right: &Selector,
    q: u32,
) -> Result<(), AllocError>
    requires small { IsSmall g }
    requires left { IsWhole left.now g.left }
    requires right { IsWhole right.now g.right }
    requires left_tests { AllByRecursion KeepsCompound left.now.chain }
    requires right_tests { AllByRecursion KeepsCompound right.now.chain }
    requires in_range { first_vars g.left g.right g.digits ≤ f.old.vars }
    requires room { (right_run_step g count left.now right.now q f.old).vars ≤ 2 ^ 30 }
    ensures { OnOk result (f.new ≡ right_run_step g count left.now right.now q f.old) }
{
    if !begins_run(right, q) {
        return Ok(());
    }
    let row = row_of(g, count, true);
    let root = g.right_root();
    let joints = right_joints(alloc, g, count, left, right, q)?;
    let run = KnownRun {
        numbering: g,
        count,
        row,
        root,
        first: q,
        joints,
    };
    add_refused_run(alloc, f, right, &run, g.right)?;
    Ok(())
}
