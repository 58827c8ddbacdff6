//! The least number of siblings on one side that passes the tests of that side.

ghost use Rattle.std.specs.Prelude.{◌≡◌, ◌<◌, ◌≤◌, ◌+◌, ◌^◌, ◌↔◌, ℕ, IsTrue, IfOk, MatchOption, count_by};
ghost use Rattle.std.specs.List.{All};
ghost use Rattle.css_model.specs.Positions.Range.{IsInRange, is_stepped};
ghost use Rattle.css_model.specs.Sheets.Limits.{max_stepped};
ghost use Rattle.nth_positions.specs.Gaps.{period_of, threshold_of};
ghost use Rattle.sibling_counts.specs.Sides.{IsLeastFrom, IsLimit, NoneFrom, PassesTest, PassesTests, positions_of};

use crate::side::Asked;
use css_model::AnB;
use nth_positions::{bounds, member, reduction_keeps_members};
use smallvec::SmallVec;
use std::alloc::{AllocError, Global};

/// How many positions are kept without an allocation.
const INLINE: usize = 8;

/// The limit of the numbers of siblings to try: the threshold and the period of the positions of tests together.
/// `AllocError` where memory runs out.
pub(crate) fn limit(alloc: Global, tests: &[Asked]) -> Result<u32, AllocError>
    requires in_range { All IsInRange (positions_of tests.now) }
    requires few { count_by is_stepped (positions_of tests.now) ≤ max_stepped }
    ensures { IfOk result (λ n. IsLimit tests.now n) }
{
    let parts = positions_of(alloc, tests)?;
    Ok(limit_of(parts.as_slice()))
}

/// The threshold and the period of positions together.
fn limit_of(parts: &[AnB]) -> u32
    requires in_range { All IsInRange parts.now }
    requires few { count_by is_stepped parts.now ≤ max_stepped }
    ensures is { result ≡ threshold_of parts.now + period_of parts.now }
    ensures small { result < 2 ^ 26 }
{
    reduction_keeps_members();
    let bounds = bounds(parts);
    bounds.threshold + bounds.period
}

/// The positions of tests.
fn positions_of(alloc: Global, tests: &[Asked]) -> Result<SmallVec<AnB, INLINE>, AllocError>
    ensures { IfOk result (λ parts. parts.items ≡ positions_of tests.now) }
{
    let mut parts = SmallVec::new(alloc);
    for test in tests {
        parts.push(test.positions)?;
    }
    Ok(parts)
}

/// The least number from `start` on that passes. `start` is 0 or 1.
pub(crate) fn first_passing(tests: &[Asked], limit: u32, start: u32) -> Option<u32>
    requires near { start ≤ 1 }
    requires limit { IsLimit tests.now limit }
    ensures { MatchOption result (NoneFrom (PassesTests tests.now) start) (λ n. IsLeastFrom (PassesTests tests.now) start n) }
{
    reduction_keeps_members();
    let mut number = start;
    while number < limit {
        if passes(tests, number) {
            return Some(number);
        }
        number += stride(tests, number);
    }
    None
}

/// Whether a number of siblings passes each test.
fn passes(tests: &[Asked], number: u32) -> bool
    requires { number < 2 ^ 27 }
    ensures { IsTrue result ↔ PassesTests tests.now number }
{
    for test in tests {
        if !passes_one(test, number) {
            return false;
        }
    }
    true
}

/// Whether a number of siblings passes a test.
fn passes_one(test: &Asked, number: u32) -> bool
    requires { number < 2 ^ 27 }
    ensures { IsTrue result ↔ PassesTest number test.now }
{
    member(test.positions, number + 1) != test.negated
}

/// How far the next number that may pass is at least: a step of any test that is asked for and holds here.
fn stride(tests: &[Asked], number: u32) -> u32
    requires small { number < 2 ^ 27 }
    requires in_range { All IsInRange (positions_of tests.now) }
    ensures moves { 0 < result }
    ensures small { result ≤ 32 }
    ensures skips { (n : ℕ) → number < n → n < number + result → PassesTests tests.now n → ⊥ }
{
    let mut stride = 1;
    for test in tests {
        let step = step(test, number);
        if step > stride {
            stride = step;
        }
    }
    stride
}

/// How far the next number that may pass a test is at least: its step, where it is asked for and holds here.
fn step(test: &Asked, number: u32) -> u32
    requires small { number < 2 ^ 27 }
    requires in_range { IsInRange test.now.positions }
    ensures small { result ≤ 32 }
    ensures skips { (n : ℕ) → number < n → n < number + result → PassesTest n test.now → ⊥ }
{
    if !test.negated && member(test.positions, number + 1) {
        test.positions.a.unsigned_abs()
    } else {
        0
    }
}
