//! The laws of the definitions in `specs/`, as functions that do nothing.
ghost use Rattle.sat_core.specs.Ledgers.{LedgerIsShort};

/// A ledger without the empty clause has fewer than 3^n clauses, n being the number of variables. No two clauses have
/// the same literals, none has a literal beside its negation, and none is empty.
pub fn ledger_is_short()
    ensures { LedgerIsShort }
{}
