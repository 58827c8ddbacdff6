//! The nodes that are refused, and what is refused for the whole pair.

ghost use Rattle.std.specs.Prelude.{◌≡◌, ◌≤◌, ◌<◌, ◌+◌, ◌++◌, ◌&&◌, suc, length, IsTrue, OnOk};
ghost use Rattle.sibling_clauses.specs.Bounds.{IsSmall, IsWhole};
ghost use Rattle.clause_encode.specs.Fits.{is_fit, is_fit_at};
ghost use Rattle.cnf.specs.Gates.{with_clauses};
ghost use Rattle.cnf.specs.Lits.{is_below};
ghost use Rattle.css_model.specs.Documents.Matching.{same_pseudo};
ghost use Rattle.formula_laws.specs.Allowed.{
  allowed_by,
  asks_empty,
  cell_clauses,
  empty_fits,
  node_fits,
  pair_fits,
  whole_clauses,
};
ghost use Rattle.formula_laws.specs.Formula.{nodes_end};
ghost use Rattle.formula_laws.specs.Path.{each_below, same_bool, unless};
ghost use Rattle.grid_laws.specs.Grid.{left_alone, right_alone, together};
ghost use Rattle.slot_plan.specs.ValidShape.{is_empty_test};

use crate::ids::{is_apart, own_ids_fit};
use cnf::{Formula, Lit};
use css_model::{Features, Pseudo, Selector, Simple, Test};
use sibling_clauses::{
    Numbering, both_fit, chain_of, is_above, left_fits, links_of, right_fits, simples_at,
};
use std::alloc::AllocError;

/// Adds that no node is true which the combinators, `:empty`, ids or features refuse.
#[tactic(auto, using(sibling_clauses::proofs::ForCallers::added_each))]
pub(crate) fn add_nodes(
    f: &mut Formula,
    g: Numbering,
    left: &Selector,
    right: &Selector,
    fits: &[Option<Features>],
) -> Result<(), AllocError>
    requires small { IsSmall g }
    requires left { IsWhole left.now g.left }
    requires right { IsWhole right.now g.right }
    requires in_range { nodes_end g.left g.right ≤ f.old.vars }
    ensures { OnOk result (f.new ≡ with_clauses f.old (each_below (g.left + 1) (λ i. each_below (g.right + 1)
        (λ j. cell_clauses g.right (node_fits left.now right.now (allowed_by (is_fit (length left.now.links) (length right.now.links) fits.now) left.now right.now)) i j)))) }
{
    for i in 0..g.left + 1 {
        add_node_row(f, g, left, right, fits, i)?;
    }
    Ok(())
}

/// Adds that no node of a row of cells is true which the combinators, `:empty`, ids or features refuse.
#[tactic(auto, using(sibling_clauses::proofs::ForCallers::added_each))]
fn add_node_row(
    f: &mut Formula,
    g: Numbering,
    left: &Selector,
    right: &Selector,
    fits: &[Option<Features>],
    i: u32,
) -> Result<(), AllocError>
    requires small { IsSmall g }
    requires left { IsWhole left.now g.left }
    requires right { IsWhole right.now g.right }
    requires row { i ≤ g.left }
    requires in_range { nodes_end g.left g.right ≤ f.old.vars }
    ensures { OnOk result (f.new ≡ with_clauses f.old (each_below (g.right + 1)
        (λ j. cell_clauses g.right (node_fits left.now right.now (allowed_by (is_fit (length left.now.links) (length right.now.links) fits.now) left.now right.now)) i j))) }
{
    for j in 0..g.right + 1 {
        add_cell(f, g, left, right, fits, i, j)?;
    }
    Ok(())
}

/// Adds that no node of a cell is true which the combinators, `:empty`, ids or features refuse.
#[tactic(auto, using(crate::proofs::Noded::cell_added))]
fn add_cell(
    f: &mut Formula,
    g: Numbering,
    left: &Selector,
    right: &Selector,
    fits: &[Option<Features>],
    i: u32,
    j: u32,
) -> Result<(), AllocError>
    requires small { IsSmall g }
    requires left { IsWhole left.now g.left }
    requires right { IsWhole right.now g.right }
    requires row { i ≤ g.left }
    requires column { j ≤ g.right }
    requires in_range { nodes_end g.left g.right ≤ f.old.vars }
    ensures { OnOk result (f.new ≡ with_clauses f.old
        (cell_clauses g.right (node_fits left.now right.now (allowed_by (is_fit (length left.now.links) (length right.now.links) fits.now) left.now right.now)) i j)) }
{
    let (row, column) = (i as usize, j as usize);
    let fit = left_alone_fits(left, right, fits, row, column);
    add_unless(f, fit, g.left_alone(i, j))?;
    let fit = right_alone_fits(left, right, fits, row, column);
    add_unless(f, fit, g.right_alone(i, j))?;
    let fit = together_fits(left, right, fits, row, column);
    add_unless(f, fit, g.together(i, j))
}

/// Adds that a literal is false, unless it is allowed.
#[tactic(auto, using(sibling_clauses::proofs::ForCallers::added_none, crate::proofs::InRange::unit_in_range))]
fn add_unless(f: &mut Formula, fits: bool, lit: Lit) -> Result<(), AllocError>
    requires { IsTrue (is_below f.old.vars lit) }
    ensures { OnOk result (f.new ≡ with_clauses f.old (unless fits lit)) }
{
    if !fits {
        f.add_clause(&[lit.negation()])?;
    }
    Ok(())
}

/// Whether the node of a left compound alone is allowed.
#[tactic(auto, using(crate::proofs::Noded::left_alone_reads))]
fn left_alone_fits(
    left: &Selector,
    right: &Selector,
    fits: &[Option<Features>],
    i: usize,
    j: usize,
) -> bool
    requires left { IsWhole left.now (length left.now.links) }
    requires right { IsWhole right.now (length right.now.links) }
    requires row { i ≤ length left.now.links }
    ensures { result ≡ node_fits left.now right.now (allowed_by (is_fit (length left.now.links) (length right.now.links) fits.now) left.now right.now) left_alone i j }
{
    let simples = simples_at(chain_of(left), i);
    left_fits(links_of(left), links_of(right), i, j)
        && (empty_fits(is_above(links_of(left), i), simples, &[])
            && (is_apart(simples, chain_of(right), false, j) && is_fit_at(fits, i)))
}

/// Whether the node of a right compound alone is allowed.
#[tactic(auto, using(crate::proofs::Noded::right_alone_reads))]
fn right_alone_fits(
    left: &Selector,
    right: &Selector,
    fits: &[Option<Features>],
    i: usize,
    j: usize,
) -> bool
    requires left { IsWhole left.now (length left.now.links) }
    requires right { IsWhole right.now (length right.now.links) }
    requires few { length left.now.links + j < 100 }
    requires column { j ≤ length right.now.links }
    ensures { result ≡ node_fits left.now right.now (allowed_by (is_fit (length left.now.links) (length right.now.links) fits.now) left.now right.now) right_alone i j }
{
    let simples = simples_at(chain_of(right), j);
    right_fits(links_of(left), links_of(right), i, j)
        && (empty_fits(is_above(links_of(right), j), &[], simples)
            && (is_apart(simples, chain_of(left), false, i)
                && is_fit_at(fits, links_of(left).len() + j)))
}

/// Whether the node of a compound of each is allowed.
#[tactic(auto, using(crate::proofs::Noded::together_reads))]
fn together_fits(
    left: &Selector,
    right: &Selector,
    fits: &[Option<Features>],
    i: usize,
    j: usize,
) -> bool
    requires left { IsWhole left.now (length left.now.links) }
    requires right { IsWhole right.now (length right.now.links) }
    requires few_left { length left.now.links < 12 }
    requires few_right { length right.now.links < 12 }
    requires row { i ≤ length left.now.links }
    requires column { j ≤ length right.now.links }
    ensures { result ≡ node_fits left.now right.now (allowed_by (is_fit (length left.now.links) (length right.now.links) fits.now) left.now right.now) together i j }
{
    let (first, second) = (
        simples_at(chain_of(left), i),
        simples_at(chain_of(right), j),
    );
    both_fit(links_of(left), links_of(right), i, j)
        && (empty_fits(is_above(links_of(left), i), first, second)
            && ((is_apart(first, chain_of(right), true, j)
                && is_apart(second, chain_of(left), true, i))
                && is_pair_fit(fits, links_of(left).len(), links_of(right).len(), i, j)))
}

/// Returns whether some element passes compounds i and j of two selectors together, each counted from 0 from the target
/// to the left. The fits are those of the selectors' table; `left` and `right` are the numbers of their last compounds.
#[tactic(auto, using(crate::proofs::Noded::pair_fit_reads, crate::proofs::Cells::pairs_few))]
pub fn is_pair_fit(fits: &[Option<Features>], left: usize, right: usize, i: usize, j: usize) -> bool
    requires left { left < 12 }
    requires right { right < 12 }
    requires row { i ≤ left }
    requires column { j ≤ right }
    ensures { result ≡ is_fit left right fits.now together i j }
{
    if i == 0 {
        is_fit_at(fits, 0)
    } else if j == 0 {
        false
    } else {
        is_fit_at(fits, 1 + left + right + ((i - 1) * right + (j - 1)))
    }
}

/// Whether there are features in a place of a table.
fn is_fit_at(fits: &[Option<Features>], k: usize) -> bool
    ensures { result ≡ is_fit_at fits.now k }
{
    k < fits.len() && fits[k].is_some()
}

/// Whether `:empty` can be as it is asked of an element by one or two compounds.
fn empty_fits(parent: bool, first: &[Simple], second: &[Simple]) -> bool
    ensures { result ≡ empty_fits parent (first.now ++ second.now) }
{
    !some_asks_empty(false, first, second) || !parent && !some_asks_empty(true, first, second)
}

/// Whether one of two compounds asks for `:empty`, or for its negation.
#[tactic(auto, using(crate::proofs::Noded::asks_both))]
fn some_asks_empty(negated: bool, first: &[Simple], second: &[Simple]) -> bool
    ensures { result ≡ asks_empty negated (first.now ++ second.now) }
{
    asks_empty(negated, first) || asks_empty(negated, second)
}

/// Whether a compound asks for `:empty`, or for its negation.
fn asks_empty(negated: bool, simples: &[Simple]) -> bool
    ensures { result ≡ asks_empty negated simples.now }
{
    simples.iter().any(|simple| is_empty_test(negated, simple))
}

/// Whether a simple selector is `:empty`, or its negation.
fn is_empty_test(negated: bool, simple: &Simple) -> bool
    ensures { result ≡ (is_empty_test simple.now.test && same_bool simple.now.negated negated) }
{
    let is_empty = match &simple.test {
        Test::Empty => true,
        _ => false,
    };
    is_empty && if simple.negated { negated } else { !negated }
}

/// Adds the empty clause where the pair is refused as a whole.
#[tactic(auto, using(sibling_clauses::proofs::ForCallers::added_none))]
pub(crate) fn add_whole(
    f: &mut Formula,
    left: &Selector,
    right: &Selector,
) -> Result<(), AllocError>
    requires left { IsWhole left.now (length left.now.links) }
    requires right { IsWhole right.now (length right.now.links) }
    ensures { OnOk result (f.new ≡ with_clauses f.old (whole_clauses (pair_fits left.now right.now))) }
{
    if !pair_fits(left, right) {
        f.add_clause(&[])?;
    }
    Ok(())
}

/// Whether no selector asks for an id twice, and both have the same pseudo-element, or none.
fn pair_fits(left: &Selector, right: &Selector) -> bool
    requires left { IsWhole left.now (length left.now.links) }
    requires right { IsWhole right.now (length right.now.links) }
    ensures { result ≡ pair_fits left.now right.now }
{
    own_ids_fit(left) && (own_ids_fit(right) && same_pseudo(left.pseudo, right.pseudo))
}

/// Whether two pseudo-elements are the same, or both are none.
fn same_pseudo(left: Option<Pseudo>, right: Option<Pseudo>) -> bool
    ensures { result ≡ same_pseudo left right }
{
    match (left, right) {
        (None, None) => true,
        (Some(Pseudo::FirstLine), Some(Pseudo::FirstLine)) => true,
        (Some(Pseudo::FirstLetter), Some(Pseudo::FirstLetter)) => true,
        (Some(Pseudo::Before), Some(Pseudo::Before)) => true,
        (Some(Pseudo::After), Some(Pseudo::After)) => true,
        _ => false,
    }
}
