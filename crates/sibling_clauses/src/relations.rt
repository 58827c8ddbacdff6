//! Relations of numbers in binary, as clauses.

ghost use Rattle.std.specs.Prelude.{◌≡◌, ◌≤◌, ◌^◌, ◌∷◌, [], map, length, IsTrue, IfOk, OnOk};
ghost use Rattle.cnf.specs.Gates.{with_clauses};
ghost use Rattle.cnf.specs.Lits.{are_below, is_below, negation};
ghost use Rattle.cnf.specs.Sums.{with_adder};
ghost use Rattle.formula_laws.specs.Counts.{implied, with_equal_sums};
ghost use Rattle.formula_laws.specs.Relations.{same_digits, with_less, with_sum};

use cnf::{Bits, Formula, Lit, adder, at_least};
use std::alloc::{AllocError, Global};

/// Adds that the digits of two numbers are the same. Digits that only the first one has are 0. `AllocError` where memory
/// runs out; then the formula is not to be used again.
#[tactic(auto, using(crate::proofs::Adding::same_added, crate::proofs::InRange::digits_in_range))]
pub fn add_same(f: &mut Formula, x: &[Lit], y: &[Lit]) -> Result<(), AllocError>
    requires x { IsTrue (are_below f.old.vars x.now) }
    requires y { IsTrue (are_below f.old.vars y.now) }
    ensures { OnOk result (f.new ≡ with_clauses f.old (same_digits x.now y.now)) }
{
    match (x, y) {
        ([], _) => Ok(()),
        ([a, xs @ ..], []) => {
            f.add_clause(&[a.negation()])?;
            add_same(f, xs, &[])
        }
        ([a, xs @ ..], [b, ys @ ..]) => {
            f.add_clause(&[a.negation(), *b])?;
            f.add_clause(&[*a, b.negation()])?;
            add_same(f, xs, ys)
        }
    }
}

/// Adds that the digits of two numbers are the same where a literal is true. `AllocError` where memory runs out; then
/// the formula is not to be used again.
#[tactic(auto, using(crate::proofs::Adding::same_added, crate::proofs::InRange::digits_in_range))]
pub fn add_same_if(f: &mut Formula, lit: Lit, x: &[Lit], y: &[Lit]) -> Result<(), AllocError>
    requires lit { IsTrue (is_below f.old.vars lit) }
    requires x { IsTrue (are_below f.old.vars x.now) }
    requires y { IsTrue (are_below f.old.vars y.now) }
    ensures { OnOk result (f.new ≡ with_clauses f.old (implied lit (same_digits x.now y.now))) }
{
    match (x, y) {
        ([], _) => Ok(()),
        ([a, xs @ ..], []) => {
            f.add_clause(&[lit.negation(), a.negation()])?;
            add_same_if(f, lit, xs, &[])
        }
        ([a, xs @ ..], [b, ys @ ..]) => {
            f.add_clause(&[lit.negation(), a.negation(), *b])?;
            f.add_clause(&[lit.negation(), *a, b.negation()])?;
            add_same_if(f, lit, xs, ys)
        }
    }
}

/// Adds x + y = z, where z has no more than one digit less than the sum.
#[tactic(auto, using(crate::proofs::InRange::later_in_range))]
pub(crate) fn add_sum(
    alloc: Global,
    f: &mut Formula,
    x: &Bits,
    y: &Bits,
    z: &Bits,
) -> Result<(), AllocError>
    requires x { IsTrue (are_below f.old.vars x.now) }
    requires y { IsTrue (are_below f.old.vars y.now) }
    requires z { IsTrue (are_below f.old.vars z.now) }
    requires room { (with_sum x.now y.now z.now f.old).vars ≤ 2 ^ 30 }
    ensures { OnOk result (f.new ≡ with_sum x.now y.now z.now f.old) }
{
    let sum = adder(alloc, f, x, y)?;
    add_same(f, &sum.bits, &z.bits)
}

/// Adds x + y = z + u.
#[tactic(auto, using(crate::proofs::InRange::later_in_range, crate::proofs::Growing::gates_grow))]
pub(crate) fn add_equal_sums(
    alloc: Global,
    f: &mut Formula,
    x: &Bits,
    y: &Bits,
    z: &Bits,
    u: &Bits,
) -> Result<(), AllocError>
    requires x { IsTrue (are_below f.old.vars x.now) }
    requires y { IsTrue (are_below f.old.vars y.now) }
    requires z { IsTrue (are_below f.old.vars z.now) }
    requires u { IsTrue (are_below f.old.vars u.now) }
    requires room { (with_equal_sums x.now y.now z.now u.now f.old).vars ≤ 2 ^ 30 }
    ensures { OnOk result (f.new ≡ with_equal_sums x.now y.now z.now u.now f.old) }
{
    let first = adder(alloc, f, x, y)?;
    let second = adder(alloc, f, z, u)?;
    add_same(f, &first.bits, &second.bits)
}

/// Adds x < y, or one of some literals, where x has at most 25 digits. `AllocError` where memory runs out; then the
/// formula is not to be used again.
#[tactic(auto, using(crate::proofs::InRange::later_in_range, crate::proofs::Growing::gates_grow))]
pub fn add_less(
    alloc: Global,
    f: &mut Formula,
    unless: &[Lit],
    x: &Bits,
    y: &Bits,
) -> Result<(), AllocError>
    requires unless { IsTrue (are_below f.old.vars unless.now) }
    requires x { IsTrue (are_below f.old.vars x.now) }
    requires y { IsTrue (are_below f.old.vars y.now) }
    requires digits { length x.now ≤ 25 }
    requires room { (with_less unless.now x.now y.now f.old).vars ≤ 2 ^ 30 }
    ensures { OnOk result (f.new ≡ with_less unless.now x.now y.now f.old) }
{
    let others = negations(alloc, x)?;
    let sum = adder(alloc, f, y, &others)?;
    let bound = 1 << x.bits.len();
    let top = at_least(alloc, f, &sum, bound)?;
    let clause = with_first(alloc, top, unless)?;
    f.add_clause(&clause)
}

/// The digits of a number, each negated. `AllocError` where memory runs out.
pub fn negations(alloc: Global, x: &Bits) -> Result<Bits, AllocError>
    ensures { IfOk result (λ b. b ≡ map negation x.now) }
{
    let bits = x.bits.iter().map(|lit| lit.negation()).collect(alloc)?;
    Ok(Bits { bits })
}

/// A literal before others. `AllocError` where memory runs out.
pub fn with_first(alloc: Global, first: Lit, others: &[Lit]) -> Result<Vec<Lit>, AllocError>
    ensures { IfOk result (λ v. v.items ≡ first ∷ others.now) }
{
    let mut lits = Vec::new(alloc);
    lits.push(first)?;
    lits.extend_from_slice(others)?;
    Ok(lits)
}
