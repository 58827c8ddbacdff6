//! What tests of positions that must not hold need of numbers of siblings.

ghost use Rattle.std.specs.Prelude.{◌≡◌, ◌≤◌, ◌++◌, [], filter_map, IfOk, OnOk, IfSome};
ghost use Rattle.std.specs.List.{AllByRecursion, cons_option};
ghost use Rattle.css_model.specs.Positions.Range.{IsInRange};
ghost use Rattle.formula_laws.specs.Asked.{position_rest};
ghost use Rattle.formula_laws.specs.Refused.{needing, needing_rest, refused_test, test_needs};
ghost use Rattle.hint_clauses.specs.Known.{AreBrief};
ghost use Rattle.selector_laws.specs.Limits.{KeepsTest};

use crate::asked::{is_negative, position_rest, size};
use css_model::{AnB, Simple, Test};
use formula_laws::{Count, Refused};
use remainders::Remainder;
use std::alloc::{AllocError, Global};

/// What the tests of a compound need of one kind of numbers that must not hold.
pub(crate) fn refused_tests(
    alloc: Global,
    count: Count,
    simples: &[Simple],
) -> Result<Vec<Refused>, AllocError>
    requires { AllByRecursion (λ s. KeepsTest s.test) simples.now }
    ensures value { IfOk result (λ v. v.items ≡ filter_map (refused_test count) simples.now) }
    ensures brief { IfOk result (λ v. AreBrief v.items) }
{
    let mut tests = Vec::new(alloc);
    for simple in simples {
        push_refused(&mut tests, count, simple)?;
    }
    Ok(tests)
}

/// Adds what one test needs, if it must not hold.
#[tactic(auto, using(crate::proofs::Refusing::refused_added))]
fn push_refused(tests: &mut Vec<Refused>, count: Count, simple: &Simple) -> Result<(), AllocError>
    requires { KeepsTest simple.now.test }
    ensures { OnOk result (tests.new.items ≡ tests.old.items ++ cons_option (refused_test count simple.now) []) }
{
    match refused_test(count, simple) {
        Some(test) => {
            tests.push(test)?;
            Ok(())
        }
        None => Ok(()),
    }
}

/// What a test needs that must not hold.
fn refused_test(count: Count, simple: &Simple) -> Option<Refused>
    requires { KeepsTest simple.now.test }
    ensures { result ≡ refused_test count simple.now }
{
    if simple.negated {
        test_needs(count, &simple.test)
    } else {
        None
    }
}

/// What a test needs of one kind of numbers.
fn test_needs(count: Count, test: &Test) -> Option<Refused>
    requires { KeepsTest test.now }
    ensures { result ≡ test_needs count test.now }
{
    match count {
        Count::Before => match test {
            Test::Nth(positions) => needing_rest(*positions),
            _ => None,
        },
        Count::Behind => match test {
            Test::NthLast(positions) => needing_rest(*positions),
            _ => None,
        },
    }
}

/// What a position needs whose step is 2 or more.
#[tactic(auto, using(crate::proofs::Refusing::rest_reads))]
fn needing_rest(positions: AnB) -> Option<Refused>
    requires { IsInRange positions }
    ensures { result ≡ needing_rest positions (position_rest positions) }
{
    match position_rest(positions) {
        Some(rest) => needing(positions, rest),
        None => None,
    }
}

/// What a position needs besides its remainder.
#[tactic(auto, using(crate::proofs::Refusing::needing_reads))]
fn needing(positions: AnB, rest: Remainder) -> Option<Refused>
    ensures { result ≡ needing positions.a positions.b rest }
{
    let falls = is_negative(positions.a);
    let back = is_negative(positions.b);
    let offset = size(positions.b);
    if falls && back {
        return None;
    }
    if falls {
        return Some(Refused {
            rest,
            rises: false,
            bound: offset,
        });
    }
    if back {
        return Some(Refused {
            rest,
            rises: true,
            bound: 0,
        });
    }
    Some(Refused {
        rest,
        rises: true,
        bound: offset.saturating_sub(1),
    })
}
