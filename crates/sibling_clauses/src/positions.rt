//! Tests of positions, as gates and clauses.

ghost use Rattle.std.specs.Prelude.{◌≡◌, ◌≢◌, ◌≤◌, ◌<◌, ◌+◌, ◌*◌, ◌-◌, ◌%◌, ◌^◌, ◌∷◌, ◌++◌, [], suc, map, length, IsTrue, IfOk, OnOk, unsigned_abs};
ghost use Rattle.std.specs.List.{AllByRecursion};
ghost use Rattle.sibling_clauses.specs.Signs.{is_negative};
ghost use Rattle.cnf.specs.Gates.{with_clauses, with_false};
ghost use Rattle.cnf.specs.Lits.{are_below, is_below, negation};
ghost use Rattle.css_model.specs.Positions.Range.{IsInRange};
ghost use Rattle.formula_laws.specs.Positions.{
  is_root_clauses,
  test_clauses,
  with_exact,
  with_falling,
  with_nth,
  with_positions,
  with_rising,
  with_test,
  with_zeros,
};
ghost use Rattle.selector_laws.specs.Limits.{KeepsTest};

use crate::relations::negations;
use cnf::{Bits, Formula, Lit, and_gate, at_least, divide_by};
use css_model::{AnB, Simple, Test};
use std::alloc::{AllocError, Global};

/// Adds the tests of positions of a compound. `last` says that it is its selector's last one, `root` that this one is
/// in the root, and `child` that the root counts as a child.
#[tactic(auto, using(crate::proofs::InRange::later_in_range))]
pub(crate) fn add_positions(
    alloc: Global,
    f: &mut Formula,
    last: bool,
    root: Lit,
    child: Lit,
    before: &Bits,
    after: &Bits,
    simples: &[Simple],
) -> Result<(), AllocError>
    requires tests { AllByRecursion (λ s. KeepsTest s.test) simples.now }
    requires root { IsTrue (is_below f.old.vars root) }
    requires child { IsTrue (is_below f.old.vars child) }
    requires before { IsTrue (are_below f.old.vars before.now) }
    requires after { IsTrue (are_below f.old.vars after.now) }
    requires room { (with_positions last root child before.now after.now simples.now f.old).vars ≤ 2 ^ 30 }
    ensures { OnOk result (f.new ≡ with_positions last root child before.now after.now simples.now f.old) }
{
    for simple in simples {
        add_test(alloc, f, last, root, child, before, after, simple)?;
    }
    Ok(())
}

/// Adds one test of a position.
#[tactic(auto, using(crate::proofs::InRange::later_in_range, crate::proofs::Growing::nth_grows, crate::proofs::Growing::gates_grow, crate::proofs::Adding::added_none))]
fn add_test(
    alloc: Global,
    f: &mut Formula,
    last: bool,
    root: Lit,
    child: Lit,
    before: &Bits,
    after: &Bits,
    simple: &Simple,
) -> Result<(), AllocError>
    requires test { KeepsTest simple.now.test }
    requires root { IsTrue (is_below f.old.vars root) }
    requires child { IsTrue (is_below f.old.vars child) }
    requires before { IsTrue (are_below f.old.vars before.now) }
    requires after { IsTrue (are_below f.old.vars after.now) }
    requires room { (with_test last simple.now.negated root child before.now after.now simple.now.test f.old).vars ≤ 2 ^ 30 }
    ensures { OnOk result (f.new
        ≡ with_test last simple.now.negated root child before.now after.now simple.now.test f.old) }
{
    match &simple.test {
        Test::Nth(positions) => {
            let gate = nth(alloc, f, *positions, before)?;
            add_tested(f, last, simple.negated, root, child, gate)
        }
        Test::NthLast(positions) => {
            let gate = nth(alloc, f, *positions, after)?;
            add_tested(f, last, simple.negated, root, child, gate)
        }
        Test::OnlyChild => {
            let gate = zeros(alloc, f, before, after)?;
            add_tested(f, last, simple.negated, root, child, gate)
        }
        Test::Root => add_root_test(f, last, simple.negated, root),
        _ => Ok(()),
    }
}

/// Adds what a test of a position says of its gate.
#[tactic(auto, using(crate::proofs::Adding::added_twice, crate::proofs::InRange::digits_in_range))]
fn add_tested(
    f: &mut Formula,
    last: bool,
    negated: bool,
    root: Lit,
    child: Lit,
    gate: Lit,
) -> Result<(), AllocError>
    requires root { IsTrue (is_below f.old.vars root) }
    requires child { IsTrue (is_below f.old.vars child) }
    requires gate { IsTrue (is_below f.old.vars gate) }
    ensures { OnOk result (f.new ≡ with_clauses f.old (test_clauses last negated root child gate)) }
{
    match (last, negated) {
        (true, false) => {
            f.add_clause(&[gate])?;
            f.add_clause(&[root.negation(), child])
        }
        (true, true) => {
            f.add_clause(&[gate.negation(), root])?;
            f.add_clause(&[gate.negation(), child.negation()])
        }
        (false, false) => f.add_clause(&[gate]),
        (false, true) => f.add_clause(&[gate.negation()]),
    }
}

/// Adds the test `:root`.
#[tactic(auto, using(crate::proofs::Adding::added_none, crate::proofs::InRange::digits_in_range))]
fn add_root_test(f: &mut Formula, last: bool, negated: bool, root: Lit) -> Result<(), AllocError>
    requires root { IsTrue (is_below f.old.vars root) }
    ensures { OnOk result (f.new ≡ with_clauses f.old (is_root_clauses last negated root)) }
{
    match (last, negated) {
        (true, false) => f.add_clause(&[root]),
        (true, true) => f.add_clause(&[root.negation()]),
        (false, false) => f.add_clause(&[]),
        (false, true) => Ok(()),
    }
}

/// Whether a number is negative.
fn is_negative(number: i32) -> bool
    ensures { result ≡ is_negative number }
{
    number < 0
}

/// The size of a number.
fn size(number: i32) -> u32
    ensures { result ≡ unsigned_abs number }
{
    number.unsigned_abs()
}

/// A literal for "the number + 1 is one of these positions".
#[tactic(auto, using(crate::proofs::Signed::nth_reads))]
fn nth(alloc: Global, f: &mut Formula, positions: AnB, number: &Bits) -> Result<Lit, AllocError>
    requires range { IsInRange positions }
    requires in_range { IsTrue (are_below f.old.vars number.now) }
    requires room { (with_nth positions.a positions.b number.now f.old).0.vars ≤ 2 ^ 30 }
    ensures formula { OnOk result (f.new ≡ (with_nth positions.a positions.b number.now f.old).0) }
    ensures answer { IfOk result (λ l. l ≡ (with_nth positions.a positions.b number.now f.old).1) }
    ensures in_range { IfOk result (λ l. IsTrue (is_below f.new.vars l)) }
{
    let step = size(positions.a);
    let offset = size(positions.b);
    let falls = is_negative(positions.a);
    let back = is_negative(positions.b);
    if step == 0 {
        if back || offset == 0 {
            never(f)
        } else {
            exact(alloc, f, offset - 1, number)
        }
    } else if falls {
        if back {
            never(f)
        } else {
            falling(alloc, f, step, (offset + step - 1) % step, offset, number)
        }
    } else if back {
        rising(alloc, f, step, (offset + 1) * (step - 1) % step, 0, number)
    } else {
        rising(
            alloc,
            f,
            step,
            (offset + step - 1) % step,
            offset.saturating_sub(1),
            number,
        )
    }
}

/// A literal that is false.
#[tactic(auto, using(crate::proofs::InRange::false_in_range, crate::proofs::InRange::digits_in_range), unfolding(cnf::specs::Gates::with_false))]
fn never(f: &mut Formula) -> Result<Lit, AllocError>
    requires room { (with_false f.old).0.vars ≤ 2 ^ 30 }
    ensures formula { OnOk result (f.new ≡ (with_false f.old).0) }
    ensures answer { IfOk result (λ l. l ≡ (with_false f.old).1) }
    ensures in_range { IfOk result (λ l. IsTrue (is_below f.new.vars l)) }
{
    let falsehood = f.fresh();
    f.add_clause(&[falsehood.negation()])?;
    Ok(falsehood)
}

/// A literal for "the number is this one".
#[tactic(auto, using(crate::proofs::InRange::later_in_range, crate::proofs::InRange::digits_in_range, crate::proofs::Growing::gates_grow), unfolding(formula_laws::specs::Positions::with_exact))]
fn exact(alloc: Global, f: &mut Formula, value: u32, number: &Bits) -> Result<Lit, AllocError>
    requires small { value < 2 ^ 31 }
    requires in_range { IsTrue (are_below f.old.vars number.now) }
    requires room { (with_exact value number.now f.old).0.vars ≤ 2 ^ 30 }
    ensures formula { OnOk result (f.new ≡ (with_exact value number.now f.old).0) }
    ensures answer { IfOk result (λ l. l ≡ (with_exact value number.now f.old).1) }
    ensures in_range { IfOk result (λ l. IsTrue (is_below f.new.vars l)) }
{
    let enough = at_least(alloc, f, number, value)?;
    let more = at_least(alloc, f, number, value + 1)?;
    and_gate(alloc, f, &[enough, more.negation()])
}

/// A literal for "the number leaves this rest when divided by the step, and is at least `low`".
#[tactic(auto, using(crate::proofs::InRange::later_in_range, crate::proofs::InRange::digits_in_range, crate::proofs::Growing::gates_grow), unfolding(formula_laws::specs::Positions::with_rising))]
fn rising(
    alloc: Global,
    f: &mut Formula,
    step: u32,
    rest: u32,
    low: u32,
    number: &Bits,
) -> Result<Lit, AllocError>
    requires step { step ≢ 0 }
    requires rest { rest < 2 ^ 31 }
    requires in_range { IsTrue (are_below f.old.vars number.now) }
    requires room { (with_rising step rest low number.now f.old).0.vars ≤ 2 ^ 30 }
    ensures formula { OnOk result (f.new ≡ (with_rising step rest low number.now f.old).0) }
    ensures answer { IfOk result (λ l. l ≡ (with_rising step rest low number.now f.old).1) }
    ensures in_range { IfOk result (λ l. IsTrue (is_below f.new.vars l)) }
{
    let (_, remainder) = divide_by(alloc, f, number, step)?;
    let bound = at_least(alloc, f, number, low)?;
    let enough = at_least(alloc, f, &remainder, rest)?;
    let more = at_least(alloc, f, &remainder, rest + 1)?;
    and_gate(alloc, f, &[bound, enough, more.negation()])
}

/// A literal for "the number leaves this rest when divided by the step, and is below `high`".
#[tactic(auto, using(crate::proofs::InRange::later_in_range, crate::proofs::InRange::digits_in_range, crate::proofs::Growing::gates_grow), unfolding(formula_laws::specs::Positions::with_falling))]
fn falling(
    alloc: Global,
    f: &mut Formula,
    step: u32,
    rest: u32,
    high: u32,
    number: &Bits,
) -> Result<Lit, AllocError>
    requires step { step ≢ 0 }
    requires rest { rest < 2 ^ 31 }
    requires in_range { IsTrue (are_below f.old.vars number.now) }
    requires room { (with_falling step rest high number.now f.old).0.vars ≤ 2 ^ 30 }
    ensures formula { OnOk result (f.new ≡ (with_falling step rest high number.now f.old).0) }
    ensures answer { IfOk result (λ l. l ≡ (with_falling step rest high number.now f.old).1) }
    ensures in_range { IfOk result (λ l. IsTrue (is_below f.new.vars l)) }
{
    let (_, remainder) = divide_by(alloc, f, number, step)?;
    let bound = at_least(alloc, f, number, high)?;
    let enough = at_least(alloc, f, &remainder, rest)?;
    let more = at_least(alloc, f, &remainder, rest + 1)?;
    and_gate(alloc, f, &[bound.negation(), enough, more.negation()])
}

/// A literal for "both numbers are 0".
#[tactic(auto, using(crate::proofs::InRange::zeros_in_range))]
fn zeros(alloc: Global, f: &mut Formula, before: &Bits, after: &Bits) -> Result<Lit, AllocError>
    requires before { IsTrue (are_below f.old.vars before.now) }
    requires after { IsTrue (are_below f.old.vars after.now) }
    requires room { (with_zeros before.now after.now f.old).0.vars ≤ 2 ^ 30 }
    ensures formula { OnOk result (f.new ≡ (with_zeros before.now after.now f.old).0) }
    ensures answer { IfOk result (λ l. l ≡ (with_zeros before.now after.now f.old).1) }
    ensures in_range { IfOk result (λ l. IsTrue (is_below f.new.vars l)) }
{
    let digits = negated(alloc, before, after)?;
    and_gate(alloc, f, &digits)
}

/// The digits of two numbers, each negated.
fn negated(alloc: Global, before: &Bits, after: &Bits) -> Result<Vec<Lit>, AllocError>
    ensures { IfOk result (λ v. v.items ≡ map negation before.now ++ map negation after.now) }
{
    let mut digits = negations(alloc, before)?.bits;
    let others = negations(alloc, after)?;
    digits.extend_from_slice(&others.bits)?;
    Ok(digits)
}
