//! What tests of positions ask of the remainders of numbers of siblings.

ghost use Rattle.std.specs.Prelude.{◌≡◌, ◌≤◌, ◌<◌, ◌++◌, [], suc, length, filter_map, unsigned_abs, IfOk, OnOk, IfSome};
ghost use Rattle.std.specs.List.{AllByRecursion, cons_option};
ghost use Rattle.css_model.specs.Positions.Range.{IsInRange};
ghost use Rattle.formula_laws.specs.Asked.{aside, asked_rest, compound_rests, least_rest, position_rest, run_rests, test_rest};
ghost use Rattle.remainders.specs.Sizes.{IsShort};
ghost use Rattle.selector_laws.specs.Limits.{KeepsCompound, KeepsTest};
ghost use Rattle.sibling_clauses.specs.Signs.{is_negative};

use crate::links::are_joined;
use css_model::{AnB, Combinator, Compound, Selector, Simple, Test};
use formula_laws::Count;
use remainders::Remainder;
use sibling_clauses::{chain_of, links_of, simples_at};
use std::alloc::{AllocError, Global};

/// What is asked of the number of a run's first compound, the p-th one of a selector, by all of the run.
pub(crate) fn rests_of(
    alloc: Global,
    count: Count,
    selector: &Selector,
    p: u32,
) -> Result<Vec<Remainder>, AllocError>
    requires chain { length selector.now.chain ≡ suc (length selector.now.links) }
    requires tests { AllByRecursion KeepsCompound selector.now.chain }
    requires few { length selector.now.links < 12 }
    ensures value { IfOk result (λ v. v.items ≡ run_rests count selector.now.links selector.now.chain p) }
    ensures short { IfOk result (λ v. AllByRecursion IsShort v.items) }
{
    run_rests(
        alloc,
        count,
        links_of(selector),
        chain_of(selector),
        p as usize,
    )
}

/// What is asked of the number of a run's first compound, the p-th one of a chain, by all of the run.
fn run_rests(
    alloc: Global,
    count: Count,
    links: &[Combinator],
    chain: &[Compound],
    p: usize,
) -> Result<Vec<Remainder>, AllocError>
    requires chain { length chain.now ≡ suc (length links.now) }
    requires tests { AllByRecursion KeepsCompound chain.now }
    requires few { length links.now < 12 }
    ensures value { IfOk result (λ v. v.items ≡ run_rests count links.now chain.now p) }
    ensures short { IfOk result (λ v. AllByRecursion IsShort v.items) }
{
    let mut rests = Vec::new(alloc);
    for q in 0..links.len() + 1 {
        push_compound_rests(&mut rests, count, links, chain, p, q)?;
    }
    Ok(rests)
}

/// Adds what the q-th compound asks, if it is of the run.
fn push_compound_rests(
    rests: &mut Vec<Remainder>,
    count: Count,
    links: &[Combinator],
    chain: &[Compound],
    p: usize,
    q: usize,
) -> Result<(), AllocError>
    requires compound { q < length chain.now }
    requires tests { AllByRecursion KeepsCompound chain.now }
    requires few { q < 12 }
    ensures { OnOk result (rests.new.items ≡ rests.old.items ++ compound_rests count links.now chain.now p q) }
{
    if !are_joined(links, p, q) {
        return Ok(());
    }
    let simples = simples_at(chain, q);
    push_rests(rests, count, (q - p) as u32, simples)?;
    Ok(())
}

/// Adds what simple selectors ask of the number so many places to the right.
fn push_rests(
    rests: &mut Vec<Remainder>,
    count: Count,
    right: u32,
    simples: &[Simple],
) -> Result<(), AllocError>
    requires tests { AllByRecursion (λ s. KeepsTest s.test) simples.now }
    requires right { right < 12 }
    ensures { OnOk result (rests.new.items ≡ rests.old.items ++ filter_map (asked_rest count right) simples.now) }
{
    for simple in simples {
        push_asked(rests, count, right, simple)?;
    }
    Ok(())
}

/// Adds what one simple selector asks of the number so many places to the right, if it asks something.
#[tactic(auto, using(crate::proofs::Gathered::asked_added))]
fn push_asked(
    rests: &mut Vec<Remainder>,
    count: Count,
    right: u32,
    simple: &Simple,
) -> Result<(), AllocError>
    requires test { KeepsTest simple.now.test }
    requires right { right < 12 }
    ensures { OnOk result (rests.new.items ≡ rests.old.items ++ cons_option (asked_rest count right simple.now) []) }
{
    match asked_rest(count, right, simple) {
        Some(rest) => {
            rests.push(rest)?;
            Ok(())
        }
        None => Ok(()),
    }
}

/// What a simple selector asks of the number so many places to the right, if it asks something.
#[tactic(auto, using(crate::proofs::Gathered::asked_reads))]
fn asked_rest(count: Count, right: u32, simple: &Simple) -> Option<Remainder>
    requires test { KeepsTest simple.now.test }
    requires right { right < 12 }
    ensures { result ≡ asked_rest count right simple.now }
{
    if simple.negated {
        return None;
    }
    match test_rest(count, &simple.test) {
        Some(rest) => Some(aside(count, right, 0, rest)),
        None => None,
    }
}

/// What a test asks of the number of its own compound.
fn test_rest(count: Count, test: &Test) -> Option<Remainder>
    requires test { KeepsTest test.now }
    ensures value { result ≡ test_rest count test.now }
    ensures short { IfSome result (λ r. IsShort r) }
{
    match count {
        Count::Before => match test {
            Test::Nth(positions) => position_rest(*positions),
            _ => None,
        },
        Count::Behind => match test {
            Test::NthLast(positions) => position_rest(*positions),
            _ => None,
        },
    }
}

/// What is left of the number before a position, where the step is 2 or more.
#[tactic(auto, using(crate::proofs::Gathered::position_reads))]
pub(crate) fn position_rest(positions: AnB) -> Option<Remainder>
    requires range { IsInRange positions }
    ensures value { result ≡ position_rest positions }
    ensures short { IfSome result (λ r. IsShort r) }
{
    let step = size(positions.a);
    if step < 2 {
        return None;
    }
    let rest = least_rest(step, positions.b);
    Some(Remainder { step, rest })
}

/// What b - 1 leaves when divided by the step.
#[tactic(auto, using(crate::proofs::Gathered::least_reads))]
fn least_rest(step: u32, offset: i32) -> u32
    requires step { (0 < step) × (step ≤ 32) }
    requires offset { unsigned_abs offset ≤ 1000 }
    ensures value { result ≡ least_rest step offset }
    ensures small { result < step }
{
    if is_negative(offset) {
        (size(offset) + 1) * (step - 1) % step
    } else {
        (size(offset) + (step - 1)) % step
    }
}

/// Whether a number is negative.
pub(crate) fn is_negative(number: i32) -> bool
    ensures { result ≡ is_negative number }
{
    number < 0
}

/// The size of a number.
pub(crate) fn size(number: i32) -> u32
    ensures { result ≡ unsigned_abs number }
{
    number.unsigned_abs()
}

/// What a number leaves that is so many places to the right of another one, or to the left.
pub(crate) fn aside(count: Count, right: u32, left: u32, rest: Remainder) -> Remainder
    requires short { IsShort rest }
    requires right { right < 100 }
    requires left { left < 100 }
    ensures value { result ≡ aside count right left rest }
    ensures short { IsShort result }
{
    match count {
        Count::Before => rest.moved(right, left),
        Count::Behind => rest.moved(left, right),
    }
}
