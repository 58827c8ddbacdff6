//! The gate that compares a number with a bound.

ghost use Rattle.std.specs.Prelude.{◌≡◌, ◌≤◌, ◌<◌, ◌+◌, ◌^◌, nat_le, length, IsTrue, IfOk, OnOk, None};
ghost use Rattle.cnf.specs.Lits.{is_below, are_below};
ghost use Rattle.cnf.specs.Numbers.{with_digit, with_compared_digit, with_comparison, with_found, with_at_least};
ghost use Rattle.cnf.specs.Sums.{option_below};

use crate::formula::Formula;
use crate::gates::{and_gate, false_literal, or_gate, true_literal};
use crate::ledger::Bits;
use crate::lit::Lit;
use std::alloc::{AllocError, Global};

/// A literal that is true exactly where the number is at least the bound. `AllocError` where memory runs out; then the
/// formula is not to be used again.
///
/// It goes from the least digit on. Where the bound has a 1, it needs both the number's digit and the outcome below it;
/// where it has a 0, one of the two.
pub fn at_least(alloc: Global, f: &mut Formula, x: &Bits, bound: u32) -> Result<Lit, AllocError>
    requires in_range { IsTrue (are_below f.old.vars x.now) }
    requires room { (with_at_least f.old x.now bound).0.vars ≤ 2 ^ 30 }
    ensures formula { OnOk result (f.new ≡ (with_at_least f.old x.now bound).0) }
    ensures answer { IfOk result (λ l. l ≡ (with_at_least f.old x.now bound).1) }
    ensures in_range { IfOk result (λ l. IsTrue (is_below f.new.vars l)) }
    ensures grows { OnOk result (f.old.vars ≤ f.new.vars) }
{
    is_at_least(alloc, f, &x.bits, bound)
}

// The same of the digits.
pub(crate) fn is_at_least(
    alloc: Global,
    f: &mut Formula,
    x: &[Lit],
    bound: u32,
) -> Result<Lit, AllocError>
    requires in_range { IsTrue (are_below f.old.vars x.now) }
    requires room { (with_at_least f.old x.now bound).0.vars ≤ 2 ^ 30 }
    ensures formula { OnOk result (f.new ≡ (with_at_least f.old x.now bound).0) }
    ensures answer { IfOk result (λ l. l ≡ (with_at_least f.old x.now bound).1) }
{
    if is_out_of_reach(x.len(), bound) {
        false_literal(f)
    } else {
        let found = compare(alloc, f, x, bound)?;
        found_literal(f, found)
    }
}

// Whether no number of so many digits is at least the bound.
fn is_out_of_reach(digits: usize, bound: u32) -> bool
    ensures { result ≡ nat_le (2 ^ digits) bound }
{
    digits < 32 && bound >> digits != 0
}

// The outcome of a comparison from the least digit up. None means "true".
fn compare(
    alloc: Global,
    f: &mut Formula,
    digits: &[Lit],
    bound: u32,
) -> Result<Option<Lit>, AllocError>
    requires in_range { IsTrue (are_below f.old.vars digits.now) }
    requires room { (with_comparison f.old None digits.now bound).0.vars ≤ 2 ^ 30 }
    ensures formula { OnOk result (f.new ≡ (with_comparison f.old None digits.now bound).0) }
    ensures found { IfOk result (λ o. o ≡ (with_comparison f.old None digits.now bound).1) }
{
    let mut below = None;
    let mut rest = bound;
    for digit in digits {
        below = compare_digit(alloc, f, below, *digit, rest % 2 == 1)?;
        rest /= 2;
    }
    Ok(below)
}

// The outcome by one digit more, against the bound's.
fn compare_digit(
    alloc: Global,
    f: &mut Formula,
    below: Option<Lit>,
    digit: Lit,
    one: bool,
) -> Result<Option<Lit>, AllocError>
    requires below { IsTrue (option_below f.old.vars below) }
    requires digit { IsTrue (is_below f.old.vars digit) }
    requires room { (with_compared_digit f.old below digit one).0.vars ≤ 2 ^ 30 }
    ensures formula { OnOk result (f.new ≡ (with_compared_digit f.old below digit one).0) }
    ensures found { IfOk result (λ o. o ≡ (with_compared_digit f.old below digit one).1) }
{
    match below {
        None => Ok(if one { Some(digit) } else { None }),
        Some(below) => Ok(Some(digit_gate(alloc, f, one, digit, below)?)),
    }
}

// Both literals, or one of both.
fn digit_gate(
    alloc: Global,
    f: &mut Formula,
    one: bool,
    digit: Lit,
    below: Lit,
) -> Result<Lit, AllocError>
    requires digit { IsTrue (is_below f.old.vars digit) }
    requires below { IsTrue (is_below f.old.vars below) }
    requires room { (with_digit f.old one digit below).0.vars ≤ 2 ^ 30 }
    ensures formula { OnOk result (f.new ≡ (with_digit f.old one digit below).0) }
    ensures answer { IfOk result (λ l. l ≡ (with_digit f.old one digit below).1) }
{
    if one {
        and_gate(alloc, f, &[digit, below])
    } else {
        or_gate(f, digit, below)
    }
}

// The outcome as a literal: a fresh one that is true for None.
fn found_literal(f: &mut Formula, found: Option<Lit>) -> Result<Lit, AllocError>
    requires { (with_found f.old found).0.vars ≤ 2 ^ 30 }
    ensures formula { OnOk result (f.new ≡ (with_found f.old found).0) }
    ensures answer { IfOk result (λ l. l ≡ (with_found f.old found).1) }
{
    match found {
        None => true_literal(f),
        Some(literal) => Ok(literal),
    }
}
