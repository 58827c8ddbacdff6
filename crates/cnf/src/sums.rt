//! The gate that adds two numbers.

ghost use Rattle.std.specs.Prelude.{◌≡◌, ◌≤◌, ◌<◌, ◌+◌, ◌^◌, ◌∷◌, drop, max, length, IsTrue, IfOk, OnOk, None};
ghost use Rattle.std.specs.List.{list_all};
ghost use Rattle.cnf.specs.Gates.{with_clauses};
ghost use Rattle.cnf.specs.Lits.{is_below, are_below};
ghost use Rattle.cnf.specs.Sums.{with_half_adder, with_full_adder, with_cell, with_columns, columns, with_carry, with_adder, option_below, columns_below};

use crate::formula::Formula;
use crate::gates::false_literal;
use crate::ledger::Bits;
use crate::lit::Lit;
use std::alloc::{AllocError, Global};

// The literals of one place of a sum: one, and perhaps a second.
pub(crate) type Column = (Lit, Option<Lit>);

// Clauses of one length.
fn add_clauses<const N: usize>(f: &mut Formula, clauses: &[[Lit; N]]) -> Result<(), AllocError>
    requires { IsTrue (list_all (are_below f.old.vars) clauses.now) }
    ensures { OnOk result (f.new ≡ with_clauses f.old clauses.now) }
{
    for clause in clauses {
        f.add_clause(clause)?;
    }
    Ok(())
}

// Two fresh literals, the sum of the two and the carry.
fn half_adder(f: &mut Formula, x: Lit, y: Lit) -> Result<(Lit, Option<Lit>), AllocError>
    requires x { IsTrue (is_below f.old.vars x) }
    requires y { IsTrue (is_below f.old.vars y) }
    requires room { f.old.vars + 2 ≤ 2 ^ 30 }
    ensures formula { OnOk result (f.new ≡ (with_half_adder f.old x y).formula) }
    ensures sum { IfOk result (λ r. r.0 ≡ (with_half_adder f.old x y).sum) }
    ensures carry { IfOk result (λ r. r.1 ≡ (with_half_adder f.old x y).carry) }
{
    let sum = f.fresh();
    let carry = f.fresh();
    let (no_x, no_y) = (x.negation(), y.negation());
    let (no_sum, no_carry) = (sum.negation(), carry.negation());
    add_clauses(f, &[[no_carry, x], [no_carry, y], [no_carry, no_sum]])?;
    add_clauses(
        f,
        &[
            [carry, no_x, no_y],
            [no_sum, x, y],
            [no_sum, no_x, no_y],
            [sum, no_x, y],
            [sum, x, no_y],
        ],
    )?;
    Ok((sum, Some(carry)))
}

// Two fresh literals, the sum of the three and the carry.
fn full_adder(f: &mut Formula, x: Lit, y: Lit, z: Lit) -> Result<(Lit, Option<Lit>), AllocError>
    requires x { IsTrue (is_below f.old.vars x) }
    requires y { IsTrue (is_below f.old.vars y) }
    requires z { IsTrue (is_below f.old.vars z) }
    requires room { f.old.vars + 2 ≤ 2 ^ 30 }
    ensures formula { OnOk result (f.new ≡ (with_full_adder f.old x y z).formula) }
    ensures sum { IfOk result (λ r. r.0 ≡ (with_full_adder f.old x y z).sum) }
    ensures carry { IfOk result (λ r. r.1 ≡ (with_full_adder f.old x y z).carry) }
{
    let sum = f.fresh();
    let carry = f.fresh();
    let (no_x, no_y, no_z) = (x.negation(), y.negation(), z.negation());
    let (no_sum, no_carry) = (sum.negation(), carry.negation());
    add_clauses(
        f,
        &[
            [no_carry, x, y],
            [no_carry, x, z],
            [no_carry, y, z],
            [carry, no_x, no_y],
            [carry, no_x, no_z],
            [carry, no_y, no_z],
            [no_carry, no_sum, x],
            [no_carry, no_sum, y],
            [no_carry, no_sum, z],
            [carry, sum, no_x],
            [carry, sum, no_y],
            [carry, sum, no_z],
        ],
    )?;
    add_clauses(
        f,
        &[
            [no_sum, x, y, z],
            [no_sum, x, no_y, no_z],
            [no_sum, no_x, y, no_z],
            [no_sum, no_x, no_y, z],
            [sum, no_x, y, z],
            [sum, x, no_y, z],
            [sum, x, y, no_z],
            [sum, no_x, no_y, no_z],
        ],
    )?;
    Ok((sum, Some(carry)))
}

// The sum of the literals of a place and of the carry into it, and the carry out of it.
fn cell(
    f: &mut Formula,
    first: Lit,
    second: Option<Lit>,
    carry: Option<Lit>,
) -> Result<(Lit, Option<Lit>), AllocError>
    requires first { IsTrue (is_below f.old.vars first) }
    requires second { IsTrue (option_below f.old.vars second) }
    requires carry { IsTrue (option_below f.old.vars carry) }
    requires room { (with_cell f.old first second carry).formula.vars ≤ 2 ^ 30 }
    ensures formula { OnOk result (f.new ≡ (with_cell f.old first second carry).formula) }
    ensures sum { IfOk result (λ r. r.0 ≡ (with_cell f.old first second carry).sum) }
    ensures carry { IfOk result (λ r. r.1 ≡ (with_cell f.old first second carry).carry) }
{
    match (second, carry) {
        (None, None) => Ok((first, None)),
        (None, Some(carry)) => half_adder(f, first, carry),
        (Some(second), None) => half_adder(f, first, second),
        (Some(second), Some(carry)) => full_adder(f, first, second, carry),
    }
}

// The sum of columns, the lowest first, and the carry out of the last.
pub(crate) fn add_columns(
    alloc: Global,
    f: &mut Formula,
    columns: &[Column],
) -> Result<(Vec<Lit>, Option<Lit>), AllocError>
    requires in_range { IsTrue (columns_below f.old.vars columns.now) }
    requires room { (with_columns f.old None columns.now).formula.vars ≤ 2 ^ 30 }
    ensures formula { OnOk result (f.new ≡ (with_columns f.old None columns.now).formula) }
    ensures sums { IfOk result (λ r. r.0.items ≡ (with_columns f.old None columns.now).sums) }
    ensures carry { IfOk result (λ r. r.1 ≡ (with_columns f.old None columns.now).carry) }
{
    let mut sums = Vec::new(alloc);
    let mut carry = None;
    for column in columns {
        let (sum, next) = cell(f, column.0, column.1, carry)?;
        sums.push(sum)?;
        carry = next;
    }
    Ok((sums, carry))
}

// The k-th digits of two numbers, of which the longer one has a digit there.
fn column_at(x: &[Lit], y: &[Lit], k: usize) -> Column
    requires { k < max (length x.now) (length y.now) }
    ensures { columns (drop k x.now) (drop k y.now)
        ≡ result ∷ columns (drop (k + 1) x.now) (drop (k + 1) y.now) }
{
    if k < x.len() {
        (x[k], y.get(k).copied())
    } else {
        (y[k], None)
    }
}

// Two numbers, one above the other.
fn columns_of(alloc: Global, x: &[Lit], y: &[Lit]) -> Result<Vec<Column>, AllocError>
    ensures { IfOk result (λ v. v.items ≡ columns x.now y.now) }
{
    let mut columns = Vec::new(alloc);
    for k in 0..x.len().max(y.len()) {
        columns.push(column_at(x, y, k))?;
    }
    Ok(columns)
}

// The last carry, or a fresh literal that is false.
fn top_digit(f: &mut Formula, carry: Option<Lit>) -> Result<Lit, AllocError>
    requires { (with_carry f.old carry).0.vars ≤ 2 ^ 30 }
    ensures formula { OnOk result (f.new ≡ (with_carry f.old carry).0) }
    ensures digit { IfOk result (λ l. l ≡ (with_carry f.old carry).1) }
{
    match carry {
        Some(carry) => Ok(carry),
        None => false_literal(f),
    }
}

/// The sum of two numbers in binary, with one digit more than the longer one. `AllocError` where memory runs out; then
/// the formula is not to be used again.
///
/// It is a ripple-carry adder: a half or a full adder for each place.
pub fn adder(alloc: Global, f: &mut Formula, x: &Bits, y: &Bits) -> Result<Bits, AllocError>
    requires x { IsTrue (are_below f.old.vars x.now) }
    requires y { IsTrue (are_below f.old.vars y.now) }
    requires room { (with_adder f.old x.now y.now).0.vars ≤ 2 ^ 30 }
    ensures formula { OnOk result (f.new ≡ (with_adder f.old x.now y.now).0) }
    ensures answer { IfOk result (λ sum. sum ≡ (with_adder f.old x.now y.now).1) }
    ensures in_range { IfOk result (λ sum. IsTrue (are_below f.new.vars sum)) }
    ensures grows { OnOk result (f.old.vars ≤ f.new.vars) }
{
    Ok(Bits {
        bits: add_numbers(alloc, f, &x.bits, &y.bits)?,
    })
}

// The digits of the sum of two numbers.
fn add_numbers(alloc: Global, f: &mut Formula, x: &[Lit], y: &[Lit]) -> Result<Vec<Lit>, AllocError>
    requires x { IsTrue (are_below f.old.vars x.now) }
    requires y { IsTrue (are_below f.old.vars y.now) }
    requires room { (with_adder f.old x.now y.now).0.vars ≤ 2 ^ 30 }
    ensures formula { OnOk result (f.new ≡ (with_adder f.old x.now y.now).0) }
    ensures digits { IfOk result (λ v. v.items ≡ (with_adder f.old x.now y.now).1) }
{
    let columns = columns_of(alloc, x, y)?;
    let (mut digits, carry) = add_columns(alloc, f, &columns)?;
    let top = top_digit(f, carry)?;
    digits.push(top)?;
    Ok(digits)
}
