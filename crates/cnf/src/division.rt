//! The gate that divides a number by a constant.

ghost use Rattle.std.specs.Prelude.{◌≡◌, ◌≢◌, ◌≤◌, ◌<◌, ◌+◌, ◌-◌, ◌^◌, ◌∷◌, nat_le, length, reverse, IsTrue, IfOk, OnOk, None};
ghost use Rattle.cnf.specs.Lits.{is_below, are_below};
ghost use Rattle.cnf.specs.Numbers.{with_at_least, remainder_digits, scaled_columns, with_reduced, with_next_digit, with_division};

use crate::comparison::is_at_least;
use crate::formula::Formula;
use crate::ledger::Bits;
use crate::lit::Lit;
use crate::sums::{Column, add_columns};
use std::alloc::{AllocError, Global};

/// The quotient and the remainder of a number by a constant that is not 0. The quotient has as many digits as the
/// number, and the remainder at most as many as `by` - 1. `AllocError` where memory runs out; then the formula is not
/// to be used again.
///
/// It is school division: from the highest digit down, the constant is taken off what is left wherever it fits. Each
/// part computes forwards, so that unit propagation fixes the others from known digits.
pub fn divide_by(
    alloc: Global,
    f: &mut Formula,
    x: &Bits,
    by: u32,
) -> Result<(Bits, Bits), AllocError>
    requires divisor { by ≢ 0 }
    requires in_range { IsTrue (are_below f.old.vars x.now) }
    requires room { (with_division f.old x.now by).formula.vars ≤ 2 ^ 30 }
    ensures formula { OnOk result (f.new ≡ (with_division f.old x.now by).formula) }
    ensures quotient { IfOk result (λ r. r.0 ≡ (with_division f.old x.now by).quotient) }
    ensures remainder { IfOk result (λ r. r.1 ≡ (with_division f.old x.now by).remainder) }
    ensures quotient_in_range { IfOk result (λ r. IsTrue (are_below f.new.vars r.0)) }
    ensures remainder_in_range { IfOk result (λ r. IsTrue (are_below f.new.vars r.1)) }
    ensures grows { OnOk result (f.old.vars ≤ f.new.vars) }
{
    let (quotient, remainder) = divide(alloc, f, &x.bits, by)?;
    Ok((Bits { bits: quotient }, Bits { bits: remainder }))
}

// The same of the digits.
fn divide(
    alloc: Global,
    f: &mut Formula,
    x: &[Lit],
    by: u32,
) -> Result<(Vec<Lit>, Vec<Lit>), AllocError>
    requires divisor { by ≢ 0 }
    requires in_range { IsTrue (are_below f.old.vars x.now) }
    requires room { (with_division f.old x.now by).formula.vars ≤ 2 ^ 30 }
    ensures formula { OnOk result (f.new ≡ (with_division f.old x.now by).formula) }
    ensures quotient { IfOk result (λ r. r.0.items ≡ (with_division f.old x.now by).quotient) }
    ensures remainder { IfOk result (λ r. r.1.items ≡ (with_division f.old x.now by).remainder) }
{
    let mut quotient = Vec::new(alloc);
    let mut remainder = Vec::new(alloc);
    for k in (0..x.len()).rev() {
        let number = behind(alloc, x[k], &remainder)?;
        let (fits, rest) = take_off(alloc, f, &number, by)?;
        quotient.push(fits)?;
        remainder = rest;
    }
    quotient.reverse();
    Ok((quotient, remainder))
}

// A number with one digit more, the lowest.
fn behind(alloc: Global, digit: Lit, number: &[Lit]) -> Result<Vec<Lit>, AllocError>
    ensures { IfOk result (λ v. v.items ≡ digit ∷ number.now) }
{
    let mut longer = Vec::new(alloc);
    longer.push(digit)?;
    longer.extend_from_slice(number)?;
    Ok(longer)
}

// Whether the divisor fits into a number, and what is left of the number without it.
fn take_off(
    alloc: Global,
    f: &mut Formula,
    x: &[Lit],
    by: u32,
) -> Result<(Lit, Vec<Lit>), AllocError>
    requires divisor { by ≢ 0 }
    requires in_range { IsTrue (are_below f.old.vars x.now) }
    requires room { let fits = with_at_least f.old x.now by in
        (with_reduced fits.0 fits.1 x.now by).0.vars ≤ 2 ^ 30 }
    ensures formula { OnOk result (let fits = with_at_least f.old x.now by in
        f.new ≡ (with_reduced fits.0 fits.1 x.now by).0) }
    ensures fits { IfOk result (λ r. r.0 ≡ (with_at_least f.old x.now by).1) }
    ensures rest { IfOk result (λ r. let fits = with_at_least f.old x.now by in
        r.1.items ≡ (with_reduced fits.0 fits.1 x.now by).1) }
{
    let fits = is_at_least(alloc, f, x, by)?;
    let rest = reduce(alloc, f, fits, x, by)?;
    Ok((fits, rest))
}

// The number without the divisor, where that fits.
fn reduce(
    alloc: Global,
    f: &mut Formula,
    fits: Lit,
    x: &[Lit],
    by: u32,
) -> Result<Vec<Lit>, AllocError>
    requires divisor { by ≢ 0 }
    requires fits { IsTrue (is_below f.old.vars fits) }
    requires in_range { IsTrue (are_below f.old.vars x.now) }
    requires room { (with_reduced f.old fits x.now by).0.vars ≤ 2 ^ 30 }
    ensures formula { OnOk result (f.new ≡ (with_reduced f.old fits x.now by).0) }
    ensures rest { IfOk result (λ v. v.items ≡ (with_reduced f.old fits x.now by).1) }
{
    let digits = digits_of_remainder(by);
    if x.len() < digits {
        return Vec::from_slice(alloc, x);
    }
    let factor = complement(by, digits);
    let columns = scaled(alloc, fits, factor, &x[..digits])?;
    let (sums, _) = add_columns(alloc, f, &columns)?;
    Ok(sums)
}

// How many digits a remainder has at most.
fn digits_of_remainder(by: u32) -> usize
    requires { by ≢ 0 }
    ensures value { result ≡ remainder_digits by }
    ensures bound { result ≤ 32 }
    ensures enough { by ≤ 2 ^ result }
{
    (32 - (by - 1).leading_zeros()) as usize
}

// What adding in place of taking off the divisor asks for.
fn complement(by: u32, digits: usize) -> u64
    requires bound { digits ≤ 32 }
    requires enough { by ≤ 2 ^ digits }
    ensures { result ≡ 2 ^ digits - by }
{
    (1u64 << digits) - u64::from(by)
}

// A number above the gate times a constant.
fn scaled(alloc: Global, gate: Lit, factor: u64, digits: &[Lit]) -> Result<Vec<Column>, AllocError>
    ensures { IfOk result (λ v. v.items ≡ scaled_columns gate factor digits.now) }
{
    let mut columns = Vec::new(alloc);
    let mut rest = factor;
    for digit in digits {
        columns.push((*digit, if rest % 2 == 1 { Some(gate) } else { None }))?;
        rest /= 2;
    }
    Ok(columns)
}
