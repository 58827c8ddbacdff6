//! The distance of two runs in one row of siblings, as clauses.

ghost use Rattle.std.specs.Prelude.{◌≡◌, ◌≤◌, ◌<◌, ◌^◌, ◌∷◌, ◌++◌, ℕ, [], map, IfOk, IfSome, IsTrue, OnOk};
ghost use Rattle.cnf.specs.Cnf.{Cnf};
ghost use Rattle.cnf.specs.Gates.{with_clauses};
ghost use Rattle.cnf.specs.Lits.{are_below, is_below, negation};
ghost use Rattle.cnf.specs.Sums.{with_adder};
ghost use Rattle.formula_laws.specs.Distances.{are_related, gap_rest, given_clauses, top_digit, with_distance, with_gap};
ghost use Rattle.formula_laws.specs.Path.{only_if};
ghost use Rattle.formula_laws.specs.Relations.{same_digits};
ghost use Rattle.hint_clauses.specs.Fronts.{IsFront, first_by};
ghost use Rattle.hint_clauses.specs.Gaps.{IsGap, related_step};

use crate::fronts::Front;
use crate::rests::add_rest_given;
use cnf::{Bits, Formula, Lit, adder, divide_by};
use formula_laws::Count;
use remainders::{MOST_JOINT, common_divisor};
use sibling_clauses::{add_same, add_same_if, negations};
use std::alloc::{AllocError, Global};

/// Two runs in one row of siblings, by their first compounds.
#[derive(Drop)]
pub(crate) struct Gap {
    /// They are in one row where this literal is true, or always.
    pub(crate) given: Option<Lit>,
    /// Whether the own number of `big` is known to be greater than that of `small`.
    pub(crate) ordered: bool,
    /// The one of which the own number of the other is taken.
    pub(crate) big: Front,
    /// The other one.
    pub(crate) small: Front,
}

/// The gap between two runs, by that to the right: more siblings are before it, and fewer behind it. `ordered` says
/// whether it is known which one that is.
pub(crate) fn gap_of(
    count: Count,
    given: Option<Lit>,
    ordered: bool,
    right: Front,
    left: Front,
) -> Gap
    ensures value { (f : Cnf) → related_step result f ≡ with_distance count given ordered (first_by right) (first_by left) f }
    ensures gap { (v : ℕ) → IfSome given (λ l. IsTrue (is_below v l)) → IsFront v right → IsFront v left → IsGap v result }
{
    match count {
        Count::Before => Gap {
            given,
            ordered,
            big: right,
            small: left,
        },
        Count::Behind => Gap {
            given,
            ordered,
            big: left,
            small: right,
        },
    }
}

/// Adds what the distance of two runs leaves, if their steps have a common divisor.
pub(crate) fn add_related(alloc: Global, f: &mut Formula, gap: &Gap) -> Result<(), AllocError>
    requires gap { IsGap f.old.vars gap.now }
    requires room { (related_step gap.now f.old).vars ≤ 2 ^ 30 }
    ensures { OnOk result (f.new ≡ related_step gap.now f.old) }
{
    if !are_related(gap.big.step, gap.small.step) {
        return Ok(());
    }
    match (gap.big.rest, gap.small.rest) {
        (Some(more), Some(fewer)) => {
            let step = common_divisor(gap.big.step, gap.small.step);
            let rest = gap_rest(step, more, fewer, gap.small.own.bits.len() as u32);
            add_gap(alloc, f, gap, step, rest)
        }
        _ => Ok(()),
    }
}

/// Whether two steps have a common divisor of 2 or more.
fn are_related(a: u32, b: u32) -> bool
    ensures { result ≡ are_related a b }
{
    a <= MOST_JOINT && (b <= MOST_JOINT && common_divisor(a, b) >= 2)
}

/// What a distance leaves, with 2^digits - 1 added.
fn gap_rest(step: u32, big: u32, small: u32, digits: u32) -> u32
    requires step { 0 < step }
    requires digits { digits ≤ 25 }
    ensures { result ≡ gap_rest step big small digits }
{
    let most = (1 << digits) - 1;
    let distance = u64::from(big) + u64::from(step - small % step);
    ((distance + most) % u64::from(step)) as u32
}

/// Adds what the distance of two runs leaves, by both kinds of numbers.
fn add_gap(
    alloc: Global,
    f: &mut Formula,
    gap: &Gap,
    step: u32,
    rest: u32,
) -> Result<(), AllocError>
    requires gap { IsGap f.old.vars gap.now }
    requires step { 0 < step }
    requires room { (with_gap gap.now.given gap.now.ordered step rest (first_by gap.now.big) (first_by gap.now.small) f.old).vars ≤ 2 ^ 30 }
    ensures { OnOk result (f.new ≡ with_gap gap.now.given gap.now.ordered step rest (first_by gap.now.big) (first_by gap.now.small) f.old) }
{
    let owns = difference(alloc, f, &gap.big.own, &gap.small.own)?;
    let others = difference(alloc, f, &gap.small.other, &gap.big.other)?;
    let (_, remainder) = divide_by(alloc, f, &others, step)?;
    add_same_given(f, gap.given, &owns.bits, &others.bits)?;
    add_rest_given(f, gap.given, &remainder.bits, rest)?;
    add_order(f, gap, &owns.bits, &others.bits)?;
    Ok(())
}

/// The difference of two numbers, with 2^n - 1 added, where the second one has n digits.
#[tactic(auto, using(crate::proofs::Gapped::negated_below))]
fn difference(alloc: Global, f: &mut Formula, x: &Bits, y: &Bits) -> Result<Bits, AllocError>
    requires x { IsTrue (are_below f.old.vars x.now) }
    requires y { IsTrue (are_below f.old.vars y.now) }
    requires room { (with_adder f.old x.now (map negation y.now)).0.vars ≤ 2 ^ 30 }
    ensures formula { OnOk result (f.new ≡ (with_adder f.old x.now (map negation y.now)).0) }
    ensures answer { IfOk result (λ b. b ≡ (with_adder f.old x.now (map negation y.now)).1) }
    ensures in_range { IfOk result (λ b. IsTrue (are_below f.new.vars b)) }
    ensures grows { OnOk result (f.old.vars ≤ f.new.vars) }
{
    let others = negations(alloc, y)?;
    adder(alloc, f, x, &others)
}

/// Adds that the digits of two numbers are the same, where a literal is true or always.
fn add_same_given(
    f: &mut Formula,
    given: Option<Lit>,
    x: &[Lit],
    y: &[Lit],
) -> Result<(), AllocError>
    requires given { IfSome given (λ l. IsTrue (is_below f.old.vars l)) }
    requires x { IsTrue (are_below f.old.vars x.now) }
    requires y { IsTrue (are_below f.old.vars y.now) }
    ensures { OnOk result (f.new ≡ with_clauses f.old (given_clauses given (same_digits x.now y.now))) }
{
    match given {
        None => add_same(f, x, y),
        Some(lit) => add_same_if(f, lit, x, y),
    }
}

/// Adds that the distance is positive by either kind of numbers, if the order is known.
#[tactic(auto, using(crate::proofs::Gapped::order_added))]
fn add_order(f: &mut Formula, gap: &Gap, owns: &[Lit], others: &[Lit]) -> Result<(), AllocError>
    requires given { IfSome gap.now.given (λ l. IsTrue (is_below f.old.vars l)) }
    requires owns { IsTrue (are_below f.old.vars owns.now) }
    requires others { IsTrue (are_below f.old.vars others.now) }
    ensures { OnOk result (f.new ≡ with_clauses f.old (given_clauses gap.now.given (only_if gap.now.ordered (top_digit owns.now ++ top_digit others.now)))) }
{
    if !gap.ordered {
        return Ok(());
    }
    add_top_given(f, gap.given, owns)?;
    add_top_given(f, gap.given, others)?;
    Ok(())
}

/// Adds that the highest digit of a number is 1, where a literal is true or always.
#[tactic(auto, using(crate::proofs::Gapped::tops_read))]
fn add_top_given(f: &mut Formula, given: Option<Lit>, digits: &[Lit]) -> Result<(), AllocError>
    requires given { IfSome given (λ l. IsTrue (is_below f.old.vars l)) }
    requires digits { IsTrue (are_below f.old.vars digits.now) }
    ensures { OnOk result (f.new ≡ with_clauses f.old (given_clauses given (top_digit digits.now))) }
{
    match digits {
        [] => Ok(()),
        [top] => add_unit_given(f, given, *top),
        [_, more @ ..] => add_top_given(f, given, more),
    }
}

/// Adds that a literal is true, where another one is true or always.
#[tactic(auto, using(crate::proofs::Gapped::tops_read))]
fn add_unit_given(f: &mut Formula, given: Option<Lit>, lit: Lit) -> Result<(), AllocError>
    requires given { IfSome given (λ l. IsTrue (is_below f.old.vars l)) }
    requires lit { IsTrue (is_below f.old.vars lit) }
    ensures { OnOk result (f.new ≡ with_clauses f.old (given_clauses given ((lit ∷ []) ∷ []))) }
{
    match given {
        None => f.add_clause(&[lit]),
        Some(other) => f.add_clause(&[other.negation(), lit]),
    }
}
