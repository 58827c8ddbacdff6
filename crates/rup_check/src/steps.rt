//! Whether clauses can be steps of a log.
ghost use Rattle.std.specs.Prelude.{◌≡◌};
ghost use Rattle.cnf.specs.Lits.{is_among, are_below};
ghost use Rattle.cnf.specs.Propagation.{is_consistent, is_distinct};
ghost use Rattle.rup_check.specs.Checks.{is_step};
ghost use Rattle.rup_check.specs.Reading.{is_plain};

use cnf::Lit;

/// Whether a clause can be a step over so many variables.
pub(crate) fn is_step(vars: u32, clause: &[Lit]) -> bool
    ensures { result ≡ is_step vars clause.now }
{
    are_below(clause, vars) && is_consistent(clause)
}

/// Whether a clause can be read as a step: it can be one, and no literal occurs twice.
pub(crate) fn is_plain(vars: u32, clause: &[Lit]) -> bool
    ensures { result ≡ is_plain vars clause.now }
{
    is_step(vars, clause) && is_distinct(clause)
}

/// Whether no literal occurs twice.
fn is_distinct(lits: &[Lit]) -> bool
    ensures { result ≡ is_distinct lits.now }
{
    for k in 0..lits.len() {
        let (_, others) = lits.split_at(k + 1);
        if is_among(others, lits[k]) {
            return false;
        }
    }
    true
}

/// Whether the variables of literals are among so many.
pub(crate) fn are_below(lits: &[Lit], vars: u32) -> bool
    ensures { result ≡ are_below vars lits.now }
{
    lits.iter().all(|lit| lit.variable() < vars)
}

/// Whether no literal is beside its negation.
fn is_consistent(lits: &[Lit]) -> bool
    ensures { result ≡ is_consistent lits.now }
{
    lits.iter().all(|lit| !is_among(lits, lit.negation()))
}

/// Whether a literal is among others.
fn is_among(lits: &[Lit], lit: Lit) -> bool
    ensures { result ≡ is_among lits.now lit }
{
    lits.iter().any(|other| lit.0 == other.0)
}
