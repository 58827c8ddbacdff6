//! The path through the grid, as clauses.

ghost use Rattle.std.specs.Prelude.{◌≡◌, ◌≤◌, ◌∷◌, ◌++◌, ◌+◌, ◌<◌, [], suc, nat_lt, ◌&&◌, length, IsTrue, IfOk, OnOk};
ghost use Rattle.sibling_clauses.specs.Bounds.{IsSmall};
ghost use Rattle.cnf.specs.Gates.{with_clauses};
ghost use Rattle.cnf.specs.Lits.{are_below, is_below, negation};
ghost use Rattle.formula_laws.specs.Formula.{nodes_end};
ghost use Rattle.formula_laws.specs.Path.{each_below, last_clauses, next_clauses, next_lits, path_clauses};

use cnf::{Formula, Lit, exactly_one};
use sibling_clauses::Numbering;
use smallvec::SmallVec;
use std::alloc::{AllocError, Global};

/// How many literals of a clause are kept without an allocation: a node and three next ones.
const CLAUSE: usize = 4;

/// Adds the clauses of the path: the first node, a next one for each, and one last one.
#[tactic(auto, using(crate::proofs::Adding::path_added, crate::proofs::InRange::clauses_in_range), unfolding(cnf::specs::Gates::with_exactly_one))]
pub(crate) fn add_path(alloc: Global, f: &mut Formula, g: Numbering) -> Result<(), AllocError>
    requires small { IsSmall g }
    requires in_range { nodes_end g.left g.right ≤ f.old.vars }
    ensures { OnOk result (f.new ≡ with_clauses (with_clauses f.old (path_clauses g.left g.right))
        (last_clauses g.left g.right)) }
{
    f.add_clause(&[g.together(0, 0)])?;
    add_rows(alloc, f, g)?;
    let (i, j) = (g.left, g.right);
    exactly_one(
        alloc,
        f,
        &[g.left_alone(i, j), g.right_alone(i, j), g.together(i, j)],
    )
}

/// Adds the next nodes of all cells.
#[tactic(auto, using(sibling_clauses::proofs::ForCallers::added_each))]
fn add_rows(alloc: Global, f: &mut Formula, g: Numbering) -> Result<(), AllocError>
    requires small { IsSmall g }
    requires in_range { nodes_end g.left g.right ≤ f.old.vars }
    ensures { OnOk result (f.new ≡ with_clauses f.old (each_below (g.left + 1)
        (λ i. each_below (g.right + 1) (λ j. next_clauses g.left g.right i j)))) }
{
    for i in 0..g.left + 1 {
        add_row(alloc, f, g, i)?;
    }
    Ok(())
}

/// Adds the next nodes of a row of cells.
#[tactic(auto, using(sibling_clauses::proofs::ForCallers::added_each))]
fn add_row(alloc: Global, f: &mut Formula, g: Numbering, i: u32) -> Result<(), AllocError>
    requires small { IsSmall g }
    requires row { i ≤ g.left }
    requires in_range { nodes_end g.left g.right ≤ f.old.vars }
    ensures { OnOk result (f.new ≡ with_clauses f.old (each_below (g.right + 1)
        (λ j. next_clauses g.left g.right i j))) }
{
    for j in 0..g.right + 1 {
        add_next(alloc, f, g, i, j)?;
    }
    Ok(())
}

/// Adds the next nodes of a cell.
#[tactic(auto, using(sibling_clauses::proofs::ForCallers::added_twice, sibling_clauses::proofs::ForCallers::added_none, crate::proofs::InRange::next_in_range))]
fn add_next(alloc: Global, f: &mut Formula, g: Numbering, i: u32, j: u32) -> Result<(), AllocError>
    requires small { IsSmall g }
    requires row { i ≤ g.left }
    requires column { j ≤ g.right }
    requires in_range { nodes_end g.left g.right ≤ f.old.vars }
    ensures { OnOk result (f.new ≡ with_clauses f.old (next_clauses g.left g.right i j)) }
{
    if i + j < g.left + g.right {
        let next = next_nodes(alloc, g, i, j)?;
        add_implied(alloc, f, g.left_alone(i, j), &next)?;
        add_implied(alloc, f, g.right_alone(i, j), &next)?;
        add_implied(alloc, f, g.together(i, j), &next)?;
    }
    Ok(())
}

/// The nodes next to a cell.
fn next_nodes(
    alloc: Global,
    g: Numbering,
    i: u32,
    j: u32,
) -> Result<SmallVec<Lit, CLAUSE>, AllocError>
    requires small { IsSmall g }
    requires row { i ≤ g.left }
    requires column { j ≤ g.right }
    ensures { IfOk result (λ v. v.items ≡ next_lits g.left g.right i j) }
{
    let mut next = SmallVec::new(alloc);
    if i < g.left {
        next.push(g.left_alone(i + 1, j))?;
    }
    if j < g.right {
        next.push(g.right_alone(i, j + 1))?;
    }
    if i < g.left && j < g.right {
        next.push(g.together(i + 1, j + 1))?;
    }
    Ok(next)
}

/// Adds the clause that one of some literals is true where a literal is.
#[tactic(auto, using(crate::proofs::InRange::implied_in_range))]
fn add_implied(alloc: Global, f: &mut Formula, lit: Lit, others: &[Lit]) -> Result<(), AllocError>
    requires lit { IsTrue (is_below f.old.vars lit) }
    requires others { IsTrue (are_below f.old.vars others.now) }
    ensures { OnOk result (f.new ≡ with_clauses f.old ((negation lit ∷ others.now) ∷ [])) }
{
    let mut clause: SmallVec<Lit, CLAUSE> = SmallVec::new(alloc);
    clause.push(lit.negation())?;
    clause.extend_from_slice(others)?;
    f.add_clause(clause.as_slice())
}
