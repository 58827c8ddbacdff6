//! Numbers in binary, clauses, and ledgers of learned clauses.

ghost use Rattle.std.specs.Prelude.{◌≡◌, ◌↔◌, IfOk, IsTrue};

use crate::lit::Lit;
use std::alloc::AllocError;
use std::marker::Model;

/// The budget without a limit, a number above the length of every list
/// ([`no_limit_is_defined`](crate::no_limit_is_defined)).
pub const NO_LIMIT: u32 = 4_294_967_295;

/// A number in binary, each bit a literal, the least bit first.
#[derive(Debug, Drop)]
pub struct Bits {
    /// The bits.
    pub bits: Vec<Lit>,
}

impl Model for Bits {
    ghost use Rattle.std.specs.Prelude.{List};
    ghost use Rattle.cnf.specs.declared.lit.Lit.{Lit};

    ghost Value = { List Lit };

    ghost view = { λ b. b.bits.items };
}

impl PartialEq for Bits {
    ghost use Rattle.std.specs.Cmp.Lexicographic.{pointwise, lists_per};
    ghost use Rattle.cnf.specs.contracts.lit.LitPartialEq.TheImpl.Laws.{laws-law};

    ghost eq = { λ a b. pointwise ⟦<Lit as PartialEq>⟧.eq a b };

    ghost laws = { lists_per laws-law };

    fn eq(&self, other: &Bits) -> bool {
        self.bits == other.bits
    }
}

impl Eq for Bits {
    ghost use Rattle.std.specs.Cmp.Lexicographic.{lists_equiv};
    ghost use Rattle.cnf.specs.contracts.lit.LitEq.TheImpl.Laws.{laws-law};

    ghost laws = { lists_equiv laws-law };
}

/// A clause: it holds where one of its literals is true.
#[derive(Debug, Drop)]
pub struct Clause {
    /// The literals.
    pub lits: Vec<Lit>,
}

impl Model for Clause {
    ghost use Rattle.std.specs.Prelude.{List};
    ghost use Rattle.cnf.specs.declared.lit.Lit.{Lit};

    ghost Value = { List Lit };

    ghost view = { λ c. c.lits.items };
}

impl PartialEq for Clause {
    ghost use Rattle.std.specs.Cmp.Lexicographic.{pointwise, lists_per};
    ghost use Rattle.cnf.specs.contracts.lit.LitPartialEq.TheImpl.Laws.{laws-law};

    ghost eq = { λ a b. pointwise ⟦<Lit as PartialEq>⟧.eq a b };

    ghost laws = { lists_per laws-law };

    fn eq(&self, other: &Clause) -> bool {
        self.lits == other.lits
    }
}

impl Eq for Clause {
    ghost use Rattle.std.specs.Cmp.Lexicographic.{lists_equiv};
    ghost use Rattle.cnf.specs.contracts.lit.LitEq.TheImpl.Laws.{laws-law};

    ghost laws = { lists_equiv laws-law };
}

impl Clause {
    /// An equal clause. `AllocError` where memory runs out.
    pub fn copy(&self) -> Result<Clause, AllocError>
        ensures { IfOk result (λ c. c ≡ self.now) }
    {
        Ok(Clause {
            lits: self.lits.clone()?,
        })
    }
}

/// The clauses that a solver learned, in the order in which it learned them.
#[derive(Debug, Drop)]
pub struct Ledger {
    /// The clauses.
    pub clauses: Vec<Clause>,
}

impl Model for Ledger {
    ghost use Rattle.std.specs.Prelude.{List};
    ghost use Rattle.cnf.specs.declared.lit.Lit.{Lit};

    ghost Value = { List (List Lit) };

    ghost view = { λ l. l.clauses.items };
}

impl PartialEq for Ledger {
    ghost use Rattle.std.specs.Cmp.Lexicographic.{pointwise, lists_per};
    ghost use Rattle.cnf.specs.contracts.lit.LitPartialEq.TheImpl.Laws.{laws-law};

    ghost eq = { λ a b. pointwise (pointwise ⟦<Lit as PartialEq>⟧.eq) a b };

    ghost laws = { lists_per (lists_per laws-law) };

    fn eq(&self, other: &Ledger) -> bool {
        self.clauses == other.clauses
    }
}

impl Eq for Ledger {
    ghost use Rattle.std.specs.Cmp.Lexicographic.{lists_equiv};
    ghost use Rattle.cnf.specs.contracts.lit.LitEq.TheImpl.Laws.{laws-law};

    ghost laws = { lists_equiv (lists_equiv laws-law) };
}

impl Ledger {
    /// An equal ledger. `AllocError` where memory runs out.
    pub fn copy(&self) -> Result<Ledger, AllocError>
        ensures { IfOk result (λ l. l ≡ self.now) }
    {
        let mut clauses = Vec::new(*self.clauses.allocator());
        for clause in &self.clauses {
            clauses.push(clause.copy()?)?;
        }
        Ok(Ledger { clauses })
    }
}
