//! Tests of positions that must not hold, as clauses: where the remainder is right, the bound fails.

ghost use Rattle.std.specs.Prelude.{◌≡◌, ◌≤◌, ◌<◌, ◌+◌, ◌*◌, ◌^◌, ◌==◌, ◌∷◌, [], filter_map, length, suc, IfOk, IfSome, IsTrue, OnOk};
ghost use Rattle.std.specs.List.{AllByRecursion, cons_option, list_any};
ghost use Rattle.cnf.specs.Gates.{with_clauses};
ghost use Rattle.cnf.specs.Lits.{are_below, is_below};
ghost use Rattle.formula_laws.specs.Asked.{are_joined};
ghost use Rattle.formula_laws.specs.Counts.{steps_below};
ghost use Rattle.formula_laws.specs.Formula.{first_vars, nodes_end};
ghost use Rattle.formula_laws.specs.Path.{only_if};
ghost use Rattle.formula_laws.specs.Refused.{failing, given_clause, is_met, met_clause, refused_test, with_each, with_refused_test};
ghost use Rattle.grid_laws.specs.Solved.{nth_compound};
ghost use Rattle.hint_clauses.specs.Known.{AreBrief, AreNear, HasPlaces, IsNear};
ghost use Rattle.hint_clauses.specs.Refusals.{compound_step, test_step};
ghost use Rattle.remainders.specs.Sizes.{IsShort};
ghost use Rattle.selector_laws.specs.Limits.{KeepsCompound};
ghost use Rattle.sibling_clauses.specs.Bounds.{IsSmall, IsWhole};

use crate::asked::aside;
use crate::chains::number_in_row;
use crate::links::are_joined;
use crate::refused::refused_tests;
use cnf::{Bits, Formula, Lit, at_least};
use css_model::Selector;
use formula_laws::{Count, Joint, Refused};
use remainders::Remainder;
use sibling_clauses::{Numbering, chain_of, links_of, simples_at, with_first};
use std::alloc::{AllocError, Global};

/// A run, and what is known of it.
#[derive(Drop)]
pub(crate) struct KnownRun {
    /// How the first variables are numbered.
    pub(crate) numbering: Numbering,
    /// Which siblings are counted.
    pub(crate) count: Count,
    /// Which number is that of its selector's first compound.
    pub(crate) row: u32,
    /// The literal for "the selector's last compound is in the root".
    pub(crate) root: Lit,
    /// The number of the run's first compound, from 0.
    pub(crate) first: u32,
    /// What is known of it.
    pub(crate) joints: Vec<Joint>,
}

/// Adds what follows from the tests of a run that must not hold. `last` is the number of the selector's last compound.
pub(crate) fn add_refused_run(
    alloc: Global,
    f: &mut Formula,
    selector: &Selector,
    run: &KnownRun,
    last: u32,
) -> Result<(), AllocError>
    requires small { IsSmall run.now.numbering }
    requires whole { IsWhole selector.now last }
    requires few { last < 12 }
    requires tests { AllByRecursion KeepsCompound selector.now.chain }
    requires row { run.now.row + 2 * last < 2 * suc run.now.numbering.left + 2 * suc run.now.numbering.right }
    requires near { AreNear (nodes_end run.now.numbering.left run.now.numbering.right) run.now.joints.items }
    requires root { IsTrue (is_below (first_vars run.now.numbering.left run.now.numbering.right run.now.numbering.digits) run.now.root) }
    requires in_range { first_vars run.now.numbering.left run.now.numbering.right run.now.numbering.digits ≤ f.old.vars }
    requires room { (steps_below (last + 1) (compound_step selector.now run.now) f.old).vars ≤ 2 ^ 30 }
    ensures { OnOk result (f.new ≡ steps_below (last + 1) (compound_step selector.now run.now) f.old) }
{
    for k in 0..last + 1 {
        add_refused_compound(alloc, f, selector, run, k)?;
    }
    Ok(())
}

/// The same of the tests of the k-th compound, if it is of the run.
fn add_refused_compound(
    alloc: Global,
    f: &mut Formula,
    selector: &Selector,
    run: &KnownRun,
    k: u32,
) -> Result<(), AllocError>
    requires small { IsSmall run.now.numbering }
    requires chain { k < length selector.now.chain }
    requires few { k < 12 }
    requires tests { AllByRecursion KeepsCompound selector.now.chain }
    requires row { run.now.row + 2 * k < 2 * suc run.now.numbering.left + 2 * suc run.now.numbering.right }
    requires near { AreNear (nodes_end run.now.numbering.left run.now.numbering.right) run.now.joints.items }
    requires root { IsTrue (is_below (first_vars run.now.numbering.left run.now.numbering.right run.now.numbering.digits) run.now.root) }
    requires in_range { first_vars run.now.numbering.left run.now.numbering.right run.now.numbering.digits ≤ f.old.vars }
    requires room { (compound_step selector.now run.now k f.old).vars ≤ 2 ^ 30 }
    ensures { OnOk result (f.new ≡ compound_step selector.now run.now k f.old) }
{
    if !is_of_run(selector, run.first, k) {
        return Ok(());
    }
    let tests = refused_of(alloc, run.count, selector, k)?;
    let number = number_in_row(alloc, run.numbering, run.row, k)?;
    let others = root_if_last(alloc, selector, run.root, k)?;
    add_refused_tests(alloc, f, run, k - run.first, &number, &others, &tests)?;
    Ok(())
}

/// Whether the k-th compound is of the run that begins with the p-th one.
fn is_of_run(selector: &Selector, p: u32, k: u32) -> bool
    ensures value { result ≡ are_joined selector.now.links p k }
    ensures order { IsTrue result → p ≤ k }
{
    are_joined(links_of(selector), p as usize, k as usize)
}

/// What the tests of the k-th compound need that must not hold.
fn refused_of(
    alloc: Global,
    count: Count,
    selector: &Selector,
    k: u32,
) -> Result<Vec<Refused>, AllocError>
    requires chain { k < length selector.now.chain }
    requires tests { AllByRecursion KeepsCompound selector.now.chain }
    ensures value { IfOk result (λ v. v.items ≡ filter_map (refused_test count) (nth_compound selector.now.chain k)) }
    ensures brief { IfOk result (λ v. AreBrief v.items) }
{
    let simples = simples_at(chain_of(selector), k as usize);
    refused_tests(alloc, count, simples)
}

/// The root's literal, if the k-th compound is the last one.
fn root_if_last(
    alloc: Global,
    selector: &Selector,
    root: Lit,
    k: u32,
) -> Result<Vec<Lit>, AllocError>
    ensures { IfOk result (λ v. v.items ≡ only_if (k == length selector.now.links) (root ∷ [])) }
{
    let mut lits = Vec::new(alloc);
    if k as usize == links_of(selector).len() {
        lits.push(root)?;
        return Ok(lits);
    }
    Ok(lits)
}

/// Adds what follows from tests of one compound that must not hold. It is `far` places to the left of its run's first
/// one, `number` is its own number, and one of `others` may be true instead.
fn add_refused_tests(
    alloc: Global,
    f: &mut Formula,
    run: &KnownRun,
    far: u32,
    number: &Bits,
    others: &[Lit],
    tests: &[Refused],
) -> Result<(), AllocError>
    requires brief { AreBrief tests.now }
    requires far { far < 12 }
    requires near { AreNear (nodes_end run.now.numbering.left run.now.numbering.right) run.now.joints.items }
    requires in_range { nodes_end run.now.numbering.left run.now.numbering.right ≤ f.old.vars }
    requires number { IsTrue (are_below f.old.vars number.now) }
    requires others { IsTrue (are_below f.old.vars others.now) }
    requires room { (with_each (test_step run.now far number.now others.now) tests.now f.old).vars ≤ 2 ^ 30 }
    ensures { OnOk result (f.new ≡ with_each (test_step run.now far number.now others.now) tests.now f.old) }
{
    match tests {
        [] => Ok(()),
        [first, more @ ..] => {
            add_refused_test(alloc, f, run, far, number, others, *first)?;
            add_refused_tests(alloc, f, run, far, number, others, more)
        }
    }
}

/// The same of one test.
fn add_refused_test(
    alloc: Global,
    f: &mut Formula,
    run: &KnownRun,
    far: u32,
    number: &Bits,
    others: &[Lit],
    test: Refused,
) -> Result<(), AllocError>
    requires short { IsShort test.rest }
    requires far { far < 12 }
    requires near { AreNear (nodes_end run.now.numbering.left run.now.numbering.right) run.now.joints.items }
    requires in_range { nodes_end run.now.numbering.left run.now.numbering.right ≤ f.old.vars }
    requires number { IsTrue (are_below f.old.vars number.now) }
    requires others { IsTrue (are_below f.old.vars others.now) }
    requires room { (test_step run.now far number.now others.now test f.old).vars ≤ 2 ^ 30 }
    ensures { OnOk result (f.new ≡ test_step run.now far number.now others.now test f.old) }
{
    let met = is_any_met(run.count, far, test.rest, run.joints.as_slice());
    if !met {
        return Ok(());
    }
    let literal = failing(alloc, f, number, test)?;
    let lits = with_first(alloc, literal, others)?;
    add_met_clauses(
        alloc,
        f,
        run.count,
        far,
        test.rest,
        lits.as_slice(),
        run.joints.as_slice(),
    )?;
    Ok(())
}

/// Whether the remainder is right by something that is known.
fn is_any_met(count: Count, far: u32, rest: Remainder, joints: &[Joint]) -> bool
    requires short { IsShort rest }
    requires far { far < 12 }
    requires places { AllByRecursion HasPlaces joints.now }
    ensures { result ≡ list_any (is_met count far rest) joints.now }
{
    match joints {
        [] => false,
        [first, more @ ..] => {
            is_met(count, far, rest, *first) || is_any_met(count, far, rest, more)
        }
    }
}

/// Whether the remainder is right by this.
fn is_met(count: Count, far: u32, rest: Remainder, joint: Joint) -> bool
    requires short { IsShort rest }
    requires far { far < 12 }
    requires places { HasPlaces joint }
    ensures { result ≡ is_met count far rest joint }
{
    match joint.rest {
        Some(left) => {
            let known = Remainder {
                step: rest.step,
                rest: left % rest.step,
            };
            let here = aside(count, joint.right, joint.left + far, known);
            joint.step % rest.step == 0 && here.rest == rest.rest
        }
        None => false,
    }
}

/// A literal for "the bound of the test fails".
fn failing(alloc: Global, f: &mut Formula, number: &Bits, test: Refused) -> Result<Lit, AllocError>
    requires number { IsTrue (are_below f.old.vars number.now) }
    requires room { (failing number.now test f.old).0.vars ≤ 2 ^ 30 }
    ensures formula { OnOk result (f.new ≡ (failing number.now test f.old).0) }
    ensures answer { IfOk result (λ l. l ≡ (failing number.now test f.old).1) }
    ensures in_range { IfOk result (λ l. IsTrue (is_below f.new.vars l)) }
    ensures grows { OnOk result (f.old.vars ≤ f.new.vars) }
{
    let reached = at_least(alloc, f, number, test.bound)?;
    if test.rises {
        return Ok(reached.negation());
    }
    Ok(reached)
}

/// Adds that one of some literals is true, wherever the remainder is right by something that is known.
#[tactic(auto, using(crate::proofs::Failing::mets_added))]
fn add_met_clauses(
    alloc: Global,
    f: &mut Formula,
    count: Count,
    far: u32,
    rest: Remainder,
    lits: &[Lit],
    joints: &[Joint],
) -> Result<(), AllocError>
    requires short { IsShort rest }
    requires far { far < 12 }
    requires near { AreNear f.old.vars joints.now }
    requires lits { IsTrue (are_below f.old.vars lits.now) }
    ensures { OnOk result (f.new ≡ with_clauses f.old (filter_map (met_clause count far rest lits.now) joints.now)) }
{
    match joints {
        [] => Ok(()),
        [first, more @ ..] => {
            add_met_clause(alloc, f, count, far, rest, lits, *first)?;
            add_met_clauses(alloc, f, count, far, rest, lits, more)
        }
    }
}

/// The same by this.
fn add_met_clause(
    alloc: Global,
    f: &mut Formula,
    count: Count,
    far: u32,
    rest: Remainder,
    lits: &[Lit],
    joint: Joint,
) -> Result<(), AllocError>
    requires short { IsShort rest }
    requires far { far < 12 }
    requires near { IsNear f.old.vars joint }
    requires lits { IsTrue (are_below f.old.vars lits.now) }
    ensures { OnOk result (f.new ≡ with_clauses f.old (cons_option (met_clause count far rest lits.now joint) [])) }
{
    if !is_met(count, far, rest, joint) {
        return Ok(());
    }
    add_given_clause(alloc, f, joint.given, lits)?;
    Ok(())
}

/// Adds a clause that says nothing where a literal is false.
fn add_given_clause(
    alloc: Global,
    f: &mut Formula,
    given: Option<Lit>,
    lits: &[Lit],
) -> Result<(), AllocError>
    requires given { IfSome given (λ l. IsTrue (is_below f.old.vars l)) }
    requires lits { IsTrue (are_below f.old.vars lits.now) }
    ensures { OnOk result (f.new ≡ with_clauses f.old (given_clause given lits.now ∷ [])) }
{
    match given {
        None => f.add_clause(lits),
        Some(lit) => {
            let clause = with_first(alloc, lit.negation(), lits)?;
            f.add_clause(clause.as_slice())
        }
    }
}
