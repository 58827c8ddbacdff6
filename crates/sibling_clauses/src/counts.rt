//! The numbers of siblings before and after the compounds, as clauses.

ghost use Rattle.std.specs.Prelude.{◌≡◌, ◌≤◌, ◌<◌, ◌+◌, ◌*◌, ◌^◌, ◌∷◌, [], suc, length, IsTrue, IfOk, OnOk};
ghost use Rattle.sibling_clauses.specs.Bounds.{IsSmall};
ghost use Rattle.sibling_clauses.specs.Rows.{after_at, before_at};
ghost use Rattle.cnf.specs.Gates.{with_clauses};
ghost use Rattle.formula_laws.specs.Counts.{
  steps_below,
  with_counts,
  with_equal,
  with_link,
  with_order_left,
  with_order_right,
  with_run,
};
ghost use Rattle.formula_laws.specs.Formula.{first_vars, names_of};

use crate::links::{both_fit, left_follows, right_follows};
use crate::numbering::Numbering;
use crate::relations::{add_equal_sums, add_less, add_same_if, add_sum};
use cnf::Formula;
use css_model::Combinator;
use std::alloc::{AllocError, Global};

/// Adds what the numbers of all compounds have to be.
pub(crate) fn add_counts(
    alloc: Global,
    f: &mut Formula,
    g: Numbering,
    left: &[Combinator],
    right: &[Combinator],
) -> Result<(), AllocError>
    requires small { IsSmall g }
    requires left { length left.now ≡ g.left }
    requires right { length right.now ≡ g.right }
    requires in_range { first_vars g.left g.right g.digits ≤ f.old.vars }
    requires room { (with_counts left.now right.now (names_of g.left g.right g.digits) f.old).vars ≤ 2 ^ 30 }
    ensures { OnOk result (f.new ≡ with_counts left.now right.now (names_of g.left g.right g.digits) f.old) }
{
    add_run(alloc, f, g, left, 0)?;
    add_run(alloc, f, g, right, 2 * (g.left + 1))?;
    add_equals(alloc, f, g, left, right)?;
    add_left_orders(alloc, f, g, left, right)?;
    add_right_orders(alloc, f, g, left, right)?;
    Ok(())
}

/// Adds the numbers of a chain along its combinators. `first` is the one before its first compound.
fn add_run(
    alloc: Global,
    f: &mut Formula,
    g: Numbering,
    links: &[Combinator],
    first: u32,
) -> Result<(), AllocError>
    requires small { IsSmall g }
    requires slots { first + 2 * length links.now + 1 < 2 * suc g.left + 2 * suc g.right }
    requires in_range { first_vars g.left g.right g.digits ≤ f.old.vars }
    requires room { (with_run links.now (before_at g first) (after_at g first) (names_of g.left g.right g.digits).one f.old).vars ≤ 2 ^ 30 }
    ensures { OnOk result (f.new
        ≡ with_run links.now (before_at g first) (after_at g first) (names_of g.left g.right g.digits).one f.old) }
{
    for k in 0..links.len() {
        add_link(alloc, f, g, links[k], first + 2 * k as u32)?;
    }
    Ok(())
}

/// Adds the numbers of two neighbouring compounds. `first` is the one before the first of them.
fn add_link(
    alloc: Global,
    f: &mut Formula,
    g: Numbering,
    link: Combinator,
    first: u32,
) -> Result<(), AllocError>
    requires small { IsSmall g }
    requires slots { first + 3 < 2 * suc g.left + 2 * suc g.right }
    requires in_range { first_vars g.left g.right g.digits ≤ f.old.vars }
    requires room { (with_link link (before_at g first 0) (before_at g first 1) (after_at g first 0) (after_at g first 1)
        (names_of g.left g.right g.digits).one f.old).vars ≤ 2 ^ 30 }
    ensures { OnOk result (f.new ≡ with_link link (before_at g first 0) (before_at g first 1)
        (after_at g first 0) (after_at g first 1) (names_of g.left g.right g.digits).one f.old) }
{
    match link {
        Combinator::Inside | Combinator::Child => Ok(()),
        Combinator::Next => add_next(alloc, f, g, first),
        Combinator::Later => add_later(alloc, f, g, first),
    }
}

/// Adds the numbers of two compounds that are direct neighbours.
#[tactic(auto, using(crate::proofs::Counting::rows_at, crate::proofs::InRange::later_in_range, crate::proofs::Growing::sum_grows))]
fn add_next(alloc: Global, f: &mut Formula, g: Numbering, first: u32) -> Result<(), AllocError>
    requires small { IsSmall g }
    requires slots { first + 3 < 2 * suc g.left + 2 * suc g.right }
    requires in_range { first_vars g.left g.right g.digits ≤ f.old.vars }
    requires room { (with_link Combinator.Next (before_at g first 0) (before_at g first 1) (after_at g first 0) (after_at g first 1)
        (names_of g.left g.right g.digits).one f.old).vars ≤ 2 ^ 30 }
    ensures { OnOk result (f.new ≡ with_link Combinator.Next (before_at g first 0) (before_at g first 1)
        (after_at g first 0) (after_at g first 1) (names_of g.left g.right g.digits).one f.old) }
{
    let one = g.one_number(alloc)?;
    let before = g.number(alloc, first)?;
    let after = g.number(alloc, first + 1)?;
    let next_before = g.number(alloc, first + 2)?;
    let next_after = g.number(alloc, first + 3)?;
    add_sum(alloc, f, &next_before, &one, &before)?;
    add_sum(alloc, f, &after, &one, &next_after)
}

/// Adds the numbers of two compounds that are siblings further apart.
#[tactic(auto, using(crate::proofs::Counting::rows_at, crate::proofs::InRange::later_in_range, crate::proofs::Growing::less_grows, crate::proofs::Growing::equal_sums_grows))]
fn add_later(alloc: Global, f: &mut Formula, g: Numbering, first: u32) -> Result<(), AllocError>
    requires small { IsSmall g }
    requires slots { first + 3 < 2 * suc g.left + 2 * suc g.right }
    requires in_range { first_vars g.left g.right g.digits ≤ f.old.vars }
    requires room { (with_link Combinator.Later (before_at g first 0) (before_at g first 1) (after_at g first 0) (after_at g first 1)
        (names_of g.left g.right g.digits).one f.old).vars ≤ 2 ^ 30 }
    ensures { OnOk result (f.new ≡ with_link Combinator.Later (before_at g first 0) (before_at g first 1)
        (after_at g first 0) (after_at g first 1) (names_of g.left g.right g.digits).one f.old) }
{
    let before = g.number(alloc, first)?;
    let after = g.number(alloc, first + 1)?;
    let next_before = g.number(alloc, first + 2)?;
    let next_after = g.number(alloc, first + 3)?;
    add_less(alloc, f, &[], &next_before, &before)?;
    add_equal_sums(alloc, f, &next_before, &next_after, &before, &after)
}

/// Adds that two compounds in one slot have the same numbers, for all cells.
#[tactic(auto, using(crate::proofs::Counting::steps_more))]
fn add_equals(
    alloc: Global,
    f: &mut Formula,
    g: Numbering,
    left: &[Combinator],
    right: &[Combinator],
) -> Result<(), AllocError>
    requires small { IsSmall g }
    requires right { length right.now ≡ g.right }
    requires in_range { first_vars g.left g.right g.digits ≤ f.old.vars }
    ensures formula { OnOk result (f.new ≡ steps_below (g.left + 1) (λ i. steps_below (g.right + 1)
        (with_equal left.now right.now (names_of g.left g.right g.digits) i)) f.old) }
    ensures same { OnOk result (f.new.vars ≡ f.old.vars) }
{
    for i in 0..g.left + 1 {
        add_equal_row(alloc, f, g, left, right, i)?;
    }
    Ok(())
}

/// Adds that two compounds in one slot have the same numbers, for a row of cells.
#[tactic(auto, using(crate::proofs::Counting::steps_more))]
fn add_equal_row(
    alloc: Global,
    f: &mut Formula,
    g: Numbering,
    left: &[Combinator],
    right: &[Combinator],
    i: u32,
) -> Result<(), AllocError>
    requires small { IsSmall g }
    requires right { length right.now ≡ g.right }
    requires row { i ≤ g.left }
    requires in_range { first_vars g.left g.right g.digits ≤ f.old.vars }
    ensures formula { OnOk result (f.new ≡ steps_below (g.right + 1)
        (with_equal left.now right.now (names_of g.left g.right g.digits) i) f.old) }
    ensures same { OnOk result (f.new.vars ≡ f.old.vars) }
{
    for j in 0..g.right + 1 {
        add_equal(alloc, f, g, left, right, i, j)?;
    }
    Ok(())
}

/// Adds that two compounds in one slot have the same numbers, for a cell.
#[tactic(auto, using(crate::proofs::Counting::equals_added, crate::proofs::InRange::later_in_range, crate::proofs::InRange::node_in_range))]
fn add_equal(
    alloc: Global,
    f: &mut Formula,
    g: Numbering,
    left: &[Combinator],
    right: &[Combinator],
    i: u32,
    j: u32,
) -> Result<(), AllocError>
    requires small { IsSmall g }
    requires right { length right.now ≡ g.right }
    requires row { i ≤ g.left }
    requires column { j ≤ g.right }
    requires in_range { first_vars g.left g.right g.digits ≤ f.old.vars }
    ensures formula { OnOk result (f.new ≡ with_equal left.now right.now (names_of g.left g.right g.digits) i j f.old) }
    ensures same { OnOk result (f.new.vars ≡ f.old.vars) }
{
    if both_fit(left, right, i as usize, j as usize) {
        let node = g.together(i, j);
        let (x, y) = (g.before_left(alloc, i)?, g.before_right(alloc, j)?);
        add_same_if(f, node, &x.bits, &y.bits)?;
        let (z, u) = (g.after_left(alloc, i)?, g.after_right(alloc, j)?);
        add_same_if(f, node, &z.bits, &u.bits)?;
    }
    Ok(())
}

/// Adds the order of a left compound directly after a right one, for all cells.
#[tactic(auto, using(crate::proofs::Counting::left_rows_added))]
fn add_left_orders(
    alloc: Global,
    f: &mut Formula,
    g: Numbering,
    left: &[Combinator],
    right: &[Combinator],
) -> Result<(), AllocError>
    requires small { IsSmall g }
    requires left { length left.now ≡ g.left }
    requires right { length right.now ≡ g.right }
    requires in_range { first_vars g.left g.right g.digits ≤ f.old.vars }
    requires room { (steps_below g.left (λ i. steps_below (g.right + 1)
        (with_order_left left.now right.now (names_of g.left g.right g.digits) i)) f.old).vars ≤ 2 ^ 30 }
    ensures { OnOk result (f.new ≡ steps_below g.left (λ i. steps_below (g.right + 1)
        (with_order_left left.now right.now (names_of g.left g.right g.digits) i)) f.old) }
{
    for i in 0..g.left {
        add_left_order_row(alloc, f, g, left, right, i)?;
    }
    Ok(())
}

/// Adds the order of a left compound directly after a right one, for a row of cells.
#[tactic(auto, using(crate::proofs::Counting::left_row_added))]
fn add_left_order_row(
    alloc: Global,
    f: &mut Formula,
    g: Numbering,
    left: &[Combinator],
    right: &[Combinator],
    i: u32,
) -> Result<(), AllocError>
    requires small { IsSmall g }
    requires right { length right.now ≡ g.right }
    requires row { i < g.left }
    requires in_range { first_vars g.left g.right g.digits ≤ f.old.vars }
    requires room { (steps_below (g.right + 1)
        (with_order_left left.now right.now (names_of g.left g.right g.digits) i) f.old).vars ≤ 2 ^ 30 }
    ensures { OnOk result (f.new ≡ steps_below (g.right + 1)
        (with_order_left left.now right.now (names_of g.left g.right g.digits) i) f.old) }
{
    for j in 0..g.right + 1 {
        add_left_order(alloc, f, g, left, right, i, j)?;
    }
    Ok(())
}

/// Adds the order of a left compound directly after a right one, for a cell.
#[tactic(auto, using(crate::proofs::Counting::left_orders_added, crate::proofs::InRange::order_in_range, crate::proofs::InRange::node_in_range))]
fn add_left_order(
    alloc: Global,
    f: &mut Formula,
    g: Numbering,
    left: &[Combinator],
    right: &[Combinator],
    i: u32,
    j: u32,
) -> Result<(), AllocError>
    requires small { IsSmall g }
    requires right { length right.now ≡ g.right }
    requires row { i < g.left }
    requires column { j ≤ g.right }
    requires in_range { first_vars g.left g.right g.digits ≤ f.old.vars }
    requires room { (with_order_left left.now right.now (names_of g.left g.right g.digits) i j f.old).vars ≤ 2 ^ 30 }
    ensures { OnOk result (f.new ≡ with_order_left left.now right.now (names_of g.left g.right g.digits) i j f.old) }
{
    if left_follows(left, right, i as usize, j as usize) {
        let first = g.right_alone(i, j).negation();
        let second = g.left_alone(i + 1, j).negation();
        let x = g.before_left(alloc, i + 1)?;
        let y = g.before_right(alloc, j)?;
        add_less(alloc, f, &[first, second], &x, &y)?;
    }
    Ok(())
}

/// Adds the order of a right compound directly after a left one, for all cells.
#[tactic(auto, using(crate::proofs::Counting::right_rows_added))]
fn add_right_orders(
    alloc: Global,
    f: &mut Formula,
    g: Numbering,
    left: &[Combinator],
    right: &[Combinator],
) -> Result<(), AllocError>
    requires small { IsSmall g }
    requires left { length left.now ≡ g.left }
    requires right { length right.now ≡ g.right }
    requires in_range { first_vars g.left g.right g.digits ≤ f.old.vars }
    requires room { (steps_below (g.left + 1) (λ i. steps_below g.right
        (with_order_right left.now right.now (names_of g.left g.right g.digits) i)) f.old).vars ≤ 2 ^ 30 }
    ensures { OnOk result (f.new ≡ steps_below (g.left + 1) (λ i. steps_below g.right
        (with_order_right left.now right.now (names_of g.left g.right g.digits) i)) f.old) }
{
    for i in 0..g.left + 1 {
        add_right_order_row(alloc, f, g, left, right, i)?;
    }
    Ok(())
}

/// Adds the order of a right compound directly after a left one, for a row of cells.
#[tactic(auto, using(crate::proofs::Counting::right_row_added))]
fn add_right_order_row(
    alloc: Global,
    f: &mut Formula,
    g: Numbering,
    left: &[Combinator],
    right: &[Combinator],
    i: u32,
) -> Result<(), AllocError>
    requires small { IsSmall g }
    requires right { length right.now ≡ g.right }
    requires row { i ≤ g.left }
    requires in_range { first_vars g.left g.right g.digits ≤ f.old.vars }
    requires room { (steps_below g.right
        (with_order_right left.now right.now (names_of g.left g.right g.digits) i) f.old).vars ≤ 2 ^ 30 }
    ensures { OnOk result (f.new ≡ steps_below g.right
        (with_order_right left.now right.now (names_of g.left g.right g.digits) i) f.old) }
{
    for j in 0..g.right {
        add_right_order(alloc, f, g, left, right, i, j)?;
    }
    Ok(())
}

/// Adds the order of a right compound directly after a left one, for a cell.
#[tactic(auto, using(crate::proofs::Counting::right_orders_added, crate::proofs::InRange::order_in_range, crate::proofs::InRange::node_in_range))]
fn add_right_order(
    alloc: Global,
    f: &mut Formula,
    g: Numbering,
    left: &[Combinator],
    right: &[Combinator],
    i: u32,
    j: u32,
) -> Result<(), AllocError>
    requires small { IsSmall g }
    requires right { length right.now ≡ g.right }
    requires row { i ≤ g.left }
    requires column { j < g.right }
    requires in_range { first_vars g.left g.right g.digits ≤ f.old.vars }
    requires room { (with_order_right left.now right.now (names_of g.left g.right g.digits) i j f.old).vars ≤ 2 ^ 30 }
    ensures { OnOk result (f.new ≡ with_order_right left.now right.now (names_of g.left g.right g.digits) i j f.old) }
{
    if right_follows(left, right, i as usize, j as usize) {
        let first = g.left_alone(i, j).negation();
        let second = g.right_alone(i, j + 1).negation();
        let x = g.before_right(alloc, j + 1)?;
        let y = g.before_left(alloc, i)?;
        add_less(alloc, f, &[first, second], &x, &y)?;
    }
    Ok(())
}
