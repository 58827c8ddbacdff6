//! What values of the variables make of literals and numbers.

ghost use Rattle.std.specs.Prelude.{◌≡◌, ◌≤◌, ◌<◌, ◌^◌, false, length, slice_index_or};
ghost use Rattle.cnf.specs.Sums.{bit, number};
ghost use Rattle.cnf.specs.Values.{value};

use cnf::Lit;

/// Whether a literal is true; a variable without a value is false.
#[tactic(auto, unfolding(cnf::specs::Values::value))]
pub(crate) fn is_true(values: &[bool], lit: Lit) -> bool
    ensures { result ≡ value values.now lit }
{
    let truth = truth_at(values, lit.variable() as usize);
    if lit.0 % 2 == 1 { !truth } else { truth }
}

/// The value of a variable.
fn truth_at(values: &[bool], variable: usize) -> bool
    ensures { result ≡ slice_index_or values.now variable false }
{
    match values.get(variable) {
        Some(truth) => *truth,
        None => false,
    }
}

/// The number with literals as its digits, the least first.
#[tactic(auto, using(crate::proofs::Digits::number_small))]
pub(crate) fn number(values: &[bool], digits: &[Lit]) -> u32
    requires { length digits.now ≤ 25 }
    ensures value { result ≡ number values.now digits.now }
    ensures small { result < 2 ^ 25 }
{
    number_of(values, digits)
}

/// The number with literals as its digits, digit by digit.
#[tactic(auto, using(crate::proofs::Digits::number_small))]
fn number_of(values: &[bool], digits: &[Lit]) -> u32
    requires { length digits.now ≤ 25 }
    ensures { result ≡ number values.now digits.now }
{
    match digits {
        [] => 0,
        [digit, rest @ ..] => bit(is_true(values, *digit)) + 2 * number_of(values, rest),
    }
}

/// A truth value as a digit.
fn bit(truth: bool) -> u32
    ensures { result ≡ bit truth }
{
    if truth { 1 } else { 0 }
}
