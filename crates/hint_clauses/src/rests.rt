//! What numbers of siblings leave when they are divided, as clauses.

ghost use Rattle.std.specs.Prelude.{◌≡◌, ◌≤◌, ◌^◌, ◌%◌, ◌==◌, if◌then◌else◌, IfSome, IsTrue, OnOk};
ghost use Rattle.std.specs.List.{AllByRecursion};
ghost use Rattle.cnf.specs.Gates.{with_clauses};
ghost use Rattle.cnf.specs.Lits.{are_below, is_below, negation};
ghost use Rattle.formula_laws.specs.Counts.{implied};
ghost use Rattle.formula_laws.specs.Distances.{given_clauses};
ghost use Rattle.formula_laws.specs.Hints.{rest_clauses, rest_digits, with_rests};
ghost use Rattle.remainders.specs.Sizes.{IsShort};

use cnf::{Bits, Formula, Lit, divide_by};
use remainders::{MOST_JOINT, Remainder, joint_rest, joint_step};
use std::alloc::{AllocError, Global};

/// Adds that a number leaves all of some remainders, where they are two or more.
#[tactic(auto, using(crate::proofs::Divided::rests_added))]
pub(crate) fn add_rests(
    alloc: Global,
    f: &mut Formula,
    rests: &[Remainder],
    number: &Bits,
) -> Result<(), AllocError>
    requires short { AllByRecursion IsShort rests.now }
    requires number { IsTrue (are_below f.old.vars number.now) }
    requires room { (with_rests rests.now number.now f.old).vars ≤ 2 ^ 30 }
    ensures { OnOk result (f.new ≡ with_rests rests.now number.now f.old) }
{
    if rests.len() < 2 {
        return Ok(());
    }
    let step = joint_step(rests);
    if MOST_JOINT < step {
        return Ok(());
    }
    let (_, remainder) = divide_by(alloc, f, number, step)?;
    add_rest(f, &remainder.bits, joint_rest(rests))?;
    Ok(())
}

/// Adds that these are the digits of what is left, or that nothing can be.
#[tactic(auto, using(crate::proofs::Digits::digits_added))]
fn add_rest(f: &mut Formula, digits: &[Lit], rest: Option<u32>) -> Result<(), AllocError>
    requires { IsTrue (are_below f.old.vars digits.now) }
    ensures { OnOk result (f.new ≡ with_clauses f.old (rest_clauses digits.now rest)) }
{
    match rest {
        None => f.add_clause(&[]),
        Some(number) => add_digits(f, digits, number),
    }
}

/// Adds that these are the digits of a number.
#[tactic(auto, using(crate::proofs::Digits::digits_added))]
fn add_digits(f: &mut Formula, digits: &[Lit], number: u32) -> Result<(), AllocError>
    requires { IsTrue (are_below f.old.vars digits.now) }
    ensures { OnOk result (f.new ≡ with_clauses f.old (rest_digits digits.now number)) }
{
    match digits {
        [] => Ok(()),
        [first, more @ ..] => {
            f.add_clause(&[digit(*first, number)])?;
            add_digits(f, more, number / 2)
        }
    }
}

/// A literal that is true where it is the lowest digit of a number.
fn digit(lit: Lit, number: u32) -> Lit
    ensures { result ≡ (if number % 2 == 1 then lit else negation lit) }
{
    if number % 2 == 1 { lit } else { lit.negation() }
}

/// Adds that these are the digits of what is left where a literal is true, or that it is false where nothing can be.
#[tactic(auto, using(crate::proofs::Digits::digits_added))]
pub(crate) fn add_rest_if(
    f: &mut Formula,
    lit: Lit,
    digits: &[Lit],
    rest: Option<u32>,
) -> Result<(), AllocError>
    requires lit { IsTrue (is_below f.old.vars lit) }
    requires digits { IsTrue (are_below f.old.vars digits.now) }
    ensures { OnOk result (f.new ≡ with_clauses f.old (implied lit (rest_clauses digits.now rest))) }
{
    match rest {
        None => f.add_clause(&[lit.negation()]),
        Some(number) => add_digits_if(f, lit, digits, number),
    }
}

/// Adds that these are the digits of a number, where a literal is true or always.
pub(crate) fn add_rest_given(
    f: &mut Formula,
    given: Option<Lit>,
    digits: &[Lit],
    number: u32,
) -> Result<(), AllocError>
    requires given { IfSome given (λ l. IsTrue (is_below f.old.vars l)) }
    requires digits { IsTrue (are_below f.old.vars digits.now) }
    ensures { OnOk result (f.new ≡ with_clauses f.old (given_clauses given (rest_digits digits.now number))) }
{
    match given {
        None => add_digits(f, digits, number),
        Some(lit) => add_digits_if(f, lit, digits, number),
    }
}

/// Adds, where a literal is true, that these are the digits of a number.
#[tactic(auto, using(crate::proofs::Digits::digits_added))]
fn add_digits_if(f: &mut Formula, lit: Lit, digits: &[Lit], number: u32) -> Result<(), AllocError>
    requires lit { IsTrue (is_below f.old.vars lit) }
    requires digits { IsTrue (are_below f.old.vars digits.now) }
    ensures { OnOk result (f.new ≡ with_clauses f.old (implied lit (rest_digits digits.now number))) }
{
    match digits {
        [] => Ok(()),
        [first, more @ ..] => {
            f.add_clause(&[lit.negation(), digit(*first, number)])?;
            add_digits_if(f, lit, more, number / 2)
        }
    }
}
