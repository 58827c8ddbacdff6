//! Gates over literals: exactly one is true, all are true, or a literal is fixed.

ghost use Rattle.std.specs.Prelude.{◌≡◌, ◌≤◌, ◌^◌, [], ◌∷◌, map, length, IsTrue, IfOk, OnOk};
ghost use Rattle.cnf.specs.Gates.{with_clauses, with_exactly_one, with_and_gate, with_or_gate, with_true, with_false};
ghost use Rattle.cnf.specs.Lits.{is_below, are_below, negation};

use crate::formula::Formula;
use crate::lit::Lit;
use std::alloc::{AllocError, Global};

/// Asks that the literal is true at one place of the list, and at no other. `AllocError` where memory runs out; then
/// the formula is not to be used again.
///
/// The encoding is pairwise: the clause of all, and a clause for each two places.
pub fn exactly_one(_alloc: Global, f: &mut Formula, lits: &[Lit]) -> Result<(), AllocError>
    requires { IsTrue (are_below f.old.vars lits.now) }
    ensures formula { OnOk result (f.new ≡ with_exactly_one f.old lits.now) }
    ensures same_vars { OnOk result (f.new.vars ≡ f.old.vars) }
{
    f.add_clause(lits)?;
    for (k, lit) in lits.iter().enumerate() {
        exclude(f, *lit, &lits[k + 1..])?;
    }
    Ok(())
}

// Not the literal with one of the others.
fn exclude(f: &mut Formula, lit: Lit, others: &[Lit]) -> Result<(), AllocError>
    requires lit { IsTrue (is_below f.old.vars lit) }
    requires others { IsTrue (are_below f.old.vars others.now) }
    ensures { OnOk result (f.new
        ≡ with_clauses f.old (map (λ m. negation lit ∷ negation m ∷ []) others.now)) }
{
    for other in others {
        f.add_clause(&[lit.negation(), other.negation()])?;
    }
    Ok(())
}

/// A fresh literal that is true exactly where all of these are. `AllocError` where memory runs out; then the formula is
/// not to be used again.
///
/// The clauses say that it implies each of them, and that all of them imply it.
#[tactic(auto, using(crate::proofs::LitLemmas::clauses_in_range), unfolding(crate::specs::Gates::with_and_gate))]
pub fn and_gate(alloc: Global, f: &mut Formula, lits: &[Lit]) -> Result<Lit, AllocError>
    requires in_range { IsTrue (are_below f.old.vars lits.now) }
    requires room { (with_and_gate f.old lits.now).0.vars ≤ 2 ^ 30 }
    ensures formula { OnOk result (f.new ≡ (with_and_gate f.old lits.now).0) }
    ensures answer { IfOk result (λ gate. gate ≡ (with_and_gate f.old lits.now).1) }
    ensures in_range { IfOk result (λ gate. IsTrue (is_below f.new.vars gate)) }
    ensures grows { OnOk result (f.old.vars ≤ f.new.vars) }
{
    let gate = f.fresh();
    imply_each(f, gate, lits)?;
    let converse = or_not(alloc, gate, lits)?;
    f.add_clause(&converse)?;
    Ok(gate)
}

// The gate implies each of the literals.
fn imply_each(f: &mut Formula, gate: Lit, lits: &[Lit]) -> Result<(), AllocError>
    requires gate { IsTrue (is_below f.old.vars gate) }
    requires lits { IsTrue (are_below f.old.vars lits.now) }
    ensures { OnOk result (f.new
        ≡ with_clauses f.old (map (λ l. negation gate ∷ l ∷ []) lits.now)) }
{
    for lit in lits {
        f.add_clause(&[gate.negation(), *lit])?;
    }
    Ok(())
}

// The clause "the gate, or not one of the literals".
fn or_not(alloc: Global, gate: Lit, lits: &[Lit]) -> Result<Vec<Lit>, AllocError>
    ensures { IfOk result (λ v. v.items ≡ gate ∷ map negation lits.now) }
{
    let mut clause = Vec::new(alloc);
    clause.push(gate)?;
    for lit in lits {
        clause.push(lit.negation())?;
    }
    Ok(clause)
}

// A literal that is true exactly where one of these two is: a fresh one.
#[tactic(auto, using(crate::proofs::LitLemmas::clauses_in_range), unfolding(crate::specs::Gates::with_or_gate))]
pub(crate) fn or_gate(f: &mut Formula, a: Lit, b: Lit) -> Result<Lit, AllocError>
    requires a { IsTrue (is_below f.old.vars a) }
    requires b { IsTrue (is_below f.old.vars b) }
    requires room { (with_or_gate f.old a b).0.vars ≤ 2 ^ 30 }
    ensures formula { OnOk result (f.new ≡ (with_or_gate f.old a b).0) }
    ensures answer { IfOk result (λ gate. gate ≡ (with_or_gate f.old a b).1) }
{
    let gate = f.fresh();
    f.add_clause(&[gate, a.negation()])?;
    f.add_clause(&[gate, b.negation()])?;
    f.add_clause(&[gate.negation(), a, b])?;
    Ok(gate)
}

// A fresh literal that is true.
#[tactic(auto, using(crate::proofs::LitLemmas::clauses_in_range), unfolding(crate::specs::Gates::with_true))]
pub(crate) fn true_literal(f: &mut Formula) -> Result<Lit, AllocError>
    requires { (with_true f.old).0.vars ≤ 2 ^ 30 }
    ensures formula { OnOk result (f.new ≡ (with_true f.old).0) }
    ensures answer { IfOk result (λ l. l ≡ (with_true f.old).1) }
{
    let truth = f.fresh();
    f.add_clause(&[truth])?;
    Ok(truth)
}

// A fresh literal that is false.
#[tactic(auto, using(crate::proofs::LitLemmas::clauses_in_range), unfolding(crate::specs::Gates::with_false))]
pub(crate) fn false_literal(f: &mut Formula) -> Result<Lit, AllocError>
    requires { (with_false f.old).0.vars ≤ 2 ^ 30 }
    ensures formula { OnOk result (f.new ≡ (with_false f.old).0) }
    ensures answer { IfOk result (λ l. l ≡ (with_false f.old).1) }
{
    let falsehood = f.fresh();
    f.add_clause(&[falsehood.negation()])?;
    Ok(falsehood)
}
