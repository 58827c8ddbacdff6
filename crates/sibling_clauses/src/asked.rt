//! The numbers of siblings and the tests of positions of all compounds, as clauses.

ghost use Rattle.std.specs.Prelude.{◌≡◌, ◌≤◌, ◌<◌, ◌+◌, ◌^◌, ◌||◌, suc, length, OnOk};
ghost use Rattle.std.specs.List.{AllByRecursion, list_any};
ghost use Rattle.sibling_clauses.specs.Bounds.{IsSmall, IsWhole};
ghost use Rattle.sibling_clauses.specs.Rows.{left_tests, right_tests};
ghost use Rattle.formula_laws.specs.Counts.{steps_below};
ghost use Rattle.formula_laws.specs.Formula.{first_vars, names_of, with_numbers, with_tests};
ghost use Rattle.grid_laws.specs.Solved.{asks_numbers, is_counted, numbers_asked};
ghost use Rattle.selector_laws.specs.Limits.{KeepsCompound};

use crate::chains::{chain_of, links_of, simples_at};
use crate::counts::add_counts;
use crate::numbering::Numbering;
use crate::positions::add_positions;
use cnf::Formula;
use css_model::{Compound, Selector, Simple, Test};
use std::alloc::{AllocError, Global};

/// Whether some test of one of two selectors looks at a number of siblings.
pub fn numbers_asked(left: &Selector, right: &Selector) -> bool
    ensures { result ≡ numbers_asked left.now right.now }
{
    some_asks(chain_of(left)) || some_asks(chain_of(right))
}

/// Whether some test of a chain looks at a number of siblings.
fn some_asks(chain: &[Compound]) -> bool
    ensures { result ≡ list_any asks_numbers chain.now }
{
    chain
        .iter()
        .any(|compound| asks_numbers(compound.simples.as_slice()))
}

/// Whether some test of a compound looks at a number of siblings.
fn asks_numbers(simples: &[Simple]) -> bool
    ensures { result ≡ asks_numbers simples.now }
{
    simples.iter().any(|simple| is_counted(&simple.test))
}

/// Whether a test looks at a number of siblings.
fn is_counted(test: &Test) -> bool
    ensures { result ≡ is_counted test.now }
{
    match test {
        Test::Nth(_) | Test::NthLast(_) | Test::OnlyChild => true,
        _ => false,
    }
}

/// Adds what the numbers of siblings of all compounds have to be, where some test looks at them (Selectors 3,
/// sections 6.6.5 and 8.3). `AllocError` where memory runs out; then the formula is not to be used again.
pub fn add_numbers(
    alloc: Global,
    f: &mut Formula,
    g: Numbering,
    left: &Selector,
    right: &Selector,
) -> Result<(), AllocError>
    requires small { IsSmall g }
    requires left { IsWhole left.now g.left }
    requires right { IsWhole right.now g.right }
    requires in_range { first_vars g.left g.right g.digits ≤ f.old.vars }
    requires room { (with_numbers left.now right.now (names_of g.left g.right g.digits) f.old).vars ≤ 2 ^ 30 }
    ensures { OnOk result (f.new ≡ with_numbers left.now right.now (names_of g.left g.right g.digits) f.old) }
{
    if numbers_asked(left, right) {
        f.add_clause(&[g.one()])?;
        add_counts(alloc, f, g, links_of(left), links_of(right))?;
    }
    Ok(())
}

/// Adds the tests of positions of both selectors (Selectors 3, sections 6.6.1 and 6.6.5). `AllocError` where memory
/// runs out; then the formula is not to be used again.
pub fn add_tests(
    alloc: Global,
    f: &mut Formula,
    g: Numbering,
    left: &Selector,
    right: &Selector,
) -> Result<(), AllocError>
    requires small { IsSmall g }
    requires left { IsWhole left.now g.left }
    requires right { IsWhole right.now g.right }
    requires left_tests { AllByRecursion KeepsCompound left.now.chain }
    requires right_tests { AllByRecursion KeepsCompound right.now.chain }
    requires in_range { first_vars g.left g.right g.digits ≤ f.old.vars }
    requires room { (with_tests left.now right.now (names_of g.left g.right g.digits) f.old).vars ≤ 2 ^ 30 }
    ensures { OnOk result (f.new ≡ with_tests left.now right.now (names_of g.left g.right g.digits) f.old) }
{
    add_left_tests(alloc, f, g, chain_of(left))?;
    add_right_tests(alloc, f, g, chain_of(right))?;
    Ok(())
}

/// Adds the tests of positions of the left selector.
fn add_left_tests(
    alloc: Global,
    f: &mut Formula,
    g: Numbering,
    chain: &[Compound],
) -> Result<(), AllocError>
    requires small { IsSmall g }
    requires chain { length chain.now ≡ suc g.left }
    requires tests { AllByRecursion KeepsCompound chain.now }
    requires in_range { first_vars g.left g.right g.digits ≤ f.old.vars }
    requires room { (steps_below (g.left + 1) (left_tests g chain.now) f.old).vars ≤ 2 ^ 30 }
    ensures { OnOk result (f.new ≡ steps_below (g.left + 1) (left_tests g chain.now) f.old) }
{
    for i in 0..g.left + 1 {
        add_left_test(alloc, f, g, chain, i)?;
    }
    Ok(())
}

/// Adds the tests of positions of one compound of the left selector.
fn add_left_test(
    alloc: Global,
    f: &mut Formula,
    g: Numbering,
    chain: &[Compound],
    i: u32,
) -> Result<(), AllocError>
    requires small { IsSmall g }
    requires chain { length chain.now ≡ suc g.left }
    requires tests { AllByRecursion KeepsCompound chain.now }
    requires compound { i ≤ g.left }
    requires in_range { first_vars g.left g.right g.digits ≤ f.old.vars }
    requires room { (left_tests g chain.now i f.old).vars ≤ 2 ^ 30 }
    ensures { OnOk result (f.new ≡ left_tests g chain.now i f.old) }
{
    let before = g.before_left(alloc, i)?;
    let after = g.after_left(alloc, i)?;
    let simples = simples_at(chain, i as usize);
    let root = g.left_root();
    let child = g.child();
    add_positions(alloc, f, i == g.left, root, child, &before, &after, simples)?;
    Ok(())
}

/// Adds the tests of positions of the right selector.
fn add_right_tests(
    alloc: Global,
    f: &mut Formula,
    g: Numbering,
    chain: &[Compound],
) -> Result<(), AllocError>
    requires small { IsSmall g }
    requires chain { length chain.now ≡ suc g.right }
    requires tests { AllByRecursion KeepsCompound chain.now }
    requires in_range { first_vars g.left g.right g.digits ≤ f.old.vars }
    requires room { (steps_below (g.right + 1) (right_tests g chain.now) f.old).vars ≤ 2 ^ 30 }
    ensures { OnOk result (f.new ≡ steps_below (g.right + 1) (right_tests g chain.now) f.old) }
{
    for j in 0..g.right + 1 {
        add_right_test(alloc, f, g, chain, j)?;
    }
    Ok(())
}

/// Adds the tests of positions of one compound of the right selector.
fn add_right_test(
    alloc: Global,
    f: &mut Formula,
    g: Numbering,
    chain: &[Compound],
    j: u32,
) -> Result<(), AllocError>
    requires small { IsSmall g }
    requires chain { length chain.now ≡ suc g.right }
    requires tests { AllByRecursion KeepsCompound chain.now }
    requires compound { j ≤ g.right }
    requires in_range { first_vars g.left g.right g.digits ≤ f.old.vars }
    requires room { (right_tests g chain.now j f.old).vars ≤ 2 ^ 30 }
    ensures { OnOk result (f.new ≡ right_tests g chain.now j f.old) }
{
    let before = g.before_right(alloc, j)?;
    let after = g.after_right(alloc, j)?;
    let simples = simples_at(chain, j as usize);
    let root = g.right_root();
    let child = g.child();
    add_positions(
        alloc,
        f,
        j == g.right,
        root,
        child,
        &before,
        &after,
        simples,
    )?;
    Ok(())
}
