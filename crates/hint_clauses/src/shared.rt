//! What two runs ask together where they share a slot, as clauses.

ghost use Rattle.std.specs.Prelude.{◌≡◌, ◌≤◌, ◌+◌, ◌^◌, true, IsTrue, OnOk};
ghost use Rattle.std.specs.List.{AllByRecursion};
ghost use Rattle.cnf.specs.Gates.{with_clauses};
ghost use Rattle.cnf.specs.Lits.{are_below};
ghost use Rattle.formula_laws.specs.Asked.{starts_run};
ghost use Rattle.formula_laws.specs.Formula.{first_vars, nodes_end};
ghost use Rattle.formula_laws.specs.Hints.{cell_rests, with_shared};
ghost use Rattle.formula_laws.specs.Path.{each_below};
ghost use Rattle.hint_clauses.specs.Cells.{AreRuns, with_cells};
ghost use Rattle.hint_clauses.specs.Chains.{owns_at};
ghost use Rattle.remainders.specs.Remainders.{most_joint};
ghost use Rattle.selector_laws.specs.Limits.{KeepsCompound};
ghost use Rattle.sibling_clauses.specs.Bounds.{IsSmall, IsWhole};

use crate::chains::{number_in_row, row_of};
use crate::links::begins_run;
use crate::rests::add_rest_if;
use crate::runs::{Runs, are_asked, cell_rest, is_cell, runs_of};
use cnf::{Formula, Lit, divide_by};
use css_model::Selector;
use formula_laws::Count;
use remainders::MOST_JOINT;
use sibling_clauses::Numbering;
use std::alloc::{AllocError, Global};

/// Adds the hints of two runs that begin with the p-th compound of the left selector and the q-th of the right one, if
/// runs do, where something is asked of each.
pub(crate) fn add_shared(
    alloc: Global,
    f: &mut Formula,
    g: Numbering,
    count: Count,
    left: &Selector,
    right: &Selector,
    p: u32,
    q: u32,
) -> Result<(), AllocError>
    requires small { IsSmall g }
    requires left { IsWhole left.now g.left }
    requires right { IsWhole right.now g.right }
    requires left_tests { AllByRecursion KeepsCompound left.now.chain }
    requires right_tests { AllByRecursion KeepsCompound right.now.chain }
    requires row { p ≤ g.left }
    requires column { q ≤ g.right }
    requires in_range { first_vars g.left g.right g.digits ≤ f.old.vars }
    requires room { (with_shared left.now right.now (owns_at g count) p q f.old).vars ≤ 2 ^ 30 }
    ensures { OnOk result (f.new ≡ with_shared left.now right.now (owns_at g count) p q f.old) }
{
    let left_begins = begins_run(left, p);
    if !left_begins {
        return Ok(());
    }
    let right_begins = begins_run(right, q);
    if !right_begins {
        return Ok(());
    }
    let runs = runs_of(alloc, g, count, left, right, p, q)?;
    add_runs_shared(alloc, f, left, right, &runs)?;
    Ok(())
}

/// Adds the hints of two runs, where something is asked of each.
fn add_runs_shared(
    alloc: Global,
    f: &mut Formula,
    left: &Selector,
    right: &Selector,
    runs: &Runs,
) -> Result<(), AllocError>
    requires small { IsSmall runs.now.numbering }
    requires left { IsWhole left.now runs.now.numbering.left }
    requires right { IsWhole right.now runs.now.numbering.right }
    requires runs { AreRuns runs.now left.now right.now }
    requires left_begins { starts_run left.now.links runs.now.left ≡ true }
    requires right_begins { starts_run right.now.links runs.now.right ≡ true }
    requires row { runs.now.left ≤ runs.now.numbering.left }
    requires in_range { first_vars runs.now.numbering.left runs.now.numbering.right runs.now.numbering.digits ≤ f.old.vars }
    requires room { (with_shared left.now right.now (owns_at runs.now.numbering runs.now.count) runs.now.left runs.now.right f.old).vars ≤ 2 ^ 30 }
    ensures { OnOk result (f.new ≡ with_shared left.now right.now (owns_at runs.now.numbering runs.now.count) runs.now.left runs.now.right f.old) }
{
    if !are_asked(runs) {
        return Ok(());
    }
    if MOST_JOINT < runs.step {
        return Ok(());
    }
    add_divided(alloc, f, left, right, runs)?;
    Ok(())
}

/// Adds the hints of two runs of which something is asked, by one division by the joint step of all of it.
fn add_divided(
    alloc: Global,
    f: &mut Formula,
    left: &Selector,
    right: &Selector,
    runs: &Runs,
) -> Result<(), AllocError>
    requires small { IsSmall runs.now.numbering }
    requires left { IsWhole left.now runs.now.numbering.left }
    requires right { IsWhole right.now runs.now.numbering.right }
    requires runs { AreRuns runs.now left.now right.now }
    requires row { runs.now.left ≤ runs.now.numbering.left }
    requires few { runs.now.step ≤ most_joint }
    requires in_range { first_vars runs.now.numbering.left runs.now.numbering.right runs.now.numbering.digits ≤ f.old.vars }
    requires room { (with_cells left.now right.now (owns_at runs.now.numbering runs.now.count) runs.now.left runs.now.right f.old).vars ≤ 2 ^ 30 }
    ensures { OnOk result (f.new ≡ with_cells left.now right.now (owns_at runs.now.numbering runs.now.count) runs.now.left runs.now.right f.old) }
{
    let row = row_of(runs.numbering, runs.count, false);
    let number = number_in_row(alloc, runs.numbering, row, runs.left)?;
    let (_, remainder) = divide_by(alloc, f, &number, runs.step)?;
    add_cells(alloc, f, left, right, runs, &remainder.bits)?;
    Ok(())
}

/// Adds, for each cell, what the number of the left run's first compound leaves.
#[tactic(auto, using(sibling_clauses::proofs::ForCallers::added_each))]
fn add_cells(
    alloc: Global,
    f: &mut Formula,
    left: &Selector,
    right: &Selector,
    runs: &Runs,
    remainder: &[Lit],
) -> Result<(), AllocError>
    requires small { IsSmall runs.now.numbering }
    requires right { IsWhole right.now runs.now.numbering.right }
    requires runs { AreRuns runs.now left.now right.now }
    requires few { runs.now.step ≤ most_joint }
    requires in_range { nodes_end runs.now.numbering.left runs.now.numbering.right ≤ f.old.vars }
    requires remainder { IsTrue (are_below f.old.vars remainder.now) }
    ensures { OnOk result (f.new ≡ with_clauses f.old (each_below (runs.now.numbering.left + 1) (λ i. each_below (runs.now.numbering.right + 1)
        (λ j. cell_rests runs.now.count left.now right.now runs.now.left runs.now.right remainder.now i j)))) }
{
    for i in 0..runs.numbering.left + 1 {
        add_cell_row(alloc, f, left, right, runs, remainder, i)?;
    }
    Ok(())
}

/// Adds the same for a row of cells.
#[tactic(auto, using(sibling_clauses::proofs::ForCallers::added_each))]
fn add_cell_row(
    alloc: Global,
    f: &mut Formula,
    left: &Selector,
    right: &Selector,
    runs: &Runs,
    remainder: &[Lit],
    i: u32,
) -> Result<(), AllocError>
    requires small { IsSmall runs.now.numbering }
    requires right { IsWhole right.now runs.now.numbering.right }
    requires runs { AreRuns runs.now left.now right.now }
    requires few { runs.now.step ≤ most_joint }
    requires row { i ≤ runs.now.numbering.left }
    requires in_range { nodes_end runs.now.numbering.left runs.now.numbering.right ≤ f.old.vars }
    requires remainder { IsTrue (are_below f.old.vars remainder.now) }
    ensures { OnOk result (f.new ≡ with_clauses f.old (each_below (runs.now.numbering.right + 1)
        (λ j. cell_rests runs.now.count left.now right.now runs.now.left runs.now.right remainder.now i j))) }
{
    for j in 0..runs.numbering.right + 1 {
        add_cell(alloc, f, left, right, runs, remainder, i, j)?;
    }
    Ok(())
}

/// Adds the same for a cell.
fn add_cell(
    alloc: Global,
    f: &mut Formula,
    left: &Selector,
    right: &Selector,
    runs: &Runs,
    remainder: &[Lit],
    i: u32,
    j: u32,
) -> Result<(), AllocError>
    requires small { IsSmall runs.now.numbering }
    requires right { IsWhole right.now runs.now.numbering.right }
    requires runs { AreRuns runs.now left.now right.now }
    requires few { runs.now.step ≤ most_joint }
    requires row { i ≤ runs.now.numbering.left }
    requires column { j ≤ runs.now.numbering.right }
    requires in_range { nodes_end runs.now.numbering.left runs.now.numbering.right ≤ f.old.vars }
    requires remainder { IsTrue (are_below f.old.vars remainder.now) }
    ensures { OnOk result (f.new ≡ with_clauses f.old
        (cell_rests runs.now.count left.now right.now runs.now.left runs.now.right remainder.now i j)) }
{
    if !is_cell(left, right, runs, i, j) {
        return Ok(());
    }
    let rest = cell_rest(alloc, runs, i, j)?;
    let node = runs.numbering.together(i, j);
    add_rest_if(f, node, remainder, rest)?;
    Ok(())
}
