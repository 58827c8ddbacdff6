//! Formulas in conjunctive normal form, and how they grow.

ghost use Rattle.std.specs.Prelude.{◌≡◌, ◌+◌, ◌<◌, ◌≤◌, ◌^◌, ◌↔◌, [], length, slice_get, slice_index, slice_range, IsTrue, OnOk, OnErr, Some};
ghost use Rattle.cnf.specs.Layout.{start_of, RiseTo};

use crate::lit::Lit;
use std::alloc::{AllocError, Global};
use std::marker::Model;

/// A formula in conjunctive normal form. Its clauses lie in one buffer, one after the other.
#[derive(Debug, Drop)]
pub struct Formula {
    vars: u32,
    lits: Vec<Lit>,
    ends: Vec<usize>,
}

impl Model for Formula {
    ghost use Rattle.std.specs.Prelude.{◌≤◌, ◌^◌, length, IsTrue};
    ghost use Rattle.cnf.specs.Cnf.{Cnf, is_in_range};
    ghost use Rattle.cnf.specs.Layout.{cnf_of, RiseTo};

    ghost Value = { Cnf };

    ghost view = { λ f. cnf_of f.vars f.ends.items f.lits.items };

    ghost invariant = { λ f. (f.vars ≤ 2 ^ 30)
        × RiseTo 0 f.ends.items (length f.lits.items)
        × IsTrue (is_in_range (cnf_of f.vars f.ends.items f.lits.items)) };
}

impl Formula {
    ghost use Rattle.cnf.specs.Cnf.{is_in_range};
    ghost use Rattle.cnf.specs.Gates.{with_clause, with_fresh};
    ghost use Rattle.cnf.specs.Lits.{is_below, are_below, positive};

    /// A formula of so many variables, at most 2^30, without clauses.
    pub fn new(alloc: Global, vars: u32) -> Formula
        requires { vars ≤ 2 ^ 30 }
        ensures { result ≡ record { vars = vars; clauses = [] } }
    {
        Formula {
            vars,
            lits: Vec::new(alloc),
            ends: Vec::new(alloc),
        }
    }

    /// The number of variables, at most 2^30.
    pub fn vars(&self) -> u32
        ensures value { result ≡ self.now.vars }
        ensures small { result ≤ 2 ^ 30 }
        ensures in_range { IsTrue (is_in_range self.now) }
    {
        self.vars
    }

    /// The number of clauses.
    pub fn len(&self) -> usize
        ensures { result ≡ length self.now.clauses }
    {
        self.ends.len()
    }

    /// Whether there is no clause.
    pub fn is_empty(&self) -> bool
        ensures { IsTrue result ↔ (self.now.clauses ≡ []) }
    {
        self.ends.is_empty()
    }

    /// The k-th clause, counted from 0.
    pub fn clause(&self, k: usize) -> &[Lit]
        requires { k < length self.now.clauses }
        ensures clause { slice_get self.now.clauses k ≡ Some result.now }
        ensures in_range { IsTrue (are_below self.now.vars result.now) }
    {
        piece(&self.lits, &self.ends, k)
    }

    /// One more variable, as a literal that is not negated.
    pub fn fresh(&mut self) -> Lit
        requires { self.old.vars < 2 ^ 30 }
        ensures value { result ≡ positive self.old.vars }
        ensures after { self.new ≡ with_fresh self.old }
        ensures below { IsTrue (is_below self.new.vars result) }
    {
        let lit = Lit(2 * self.vars);
        self.vars += 1;
        lit
    }

    /// Adds a clause after the others. `AllocError` where memory runs out; then the formula is as it was.
    pub fn add_clause(&mut self, lits: &[Lit]) -> Result<(), AllocError>
        requires { IsTrue (are_below self.old.vars lits.now) }
        ensures ok { OnOk result (self.new ≡ with_clause self.old lits.now) }
        ensures err { OnErr result (self.new ≡ self.old) }
    {
        let before = self.lits.len();
        self.lits.extend_from_slice(lits)?;
        if self.ends.push(self.lits.len()).is_err() {
            self.lits.truncate(before);
            return Err(AllocError);
        }
        Ok(())
    }
}

// Where the k-th piece begins.
fn start(ends: &[usize], k: usize) -> usize
    requires { k < length ends.now }
    ensures { result ≡ start_of 0 ends.now k }
{
    if k == 0 { 0 } else { ends[k - 1] }
}

// The k-th piece.
fn piece<'a>(lits: &'a [Lit], ends: &[usize], k: usize) -> &'a [Lit]
    requires in_bounds { k < length ends.now }
    requires rise { RiseTo 0 ends.now (length lits.now) }
    ensures { result.now ≡ slice_range lits.now (start_of 0 ends.now k) (slice_index ends.now k) }
{
    let start = start(ends, k);
    let end = ends[k];
    &lits[start..end]
}
