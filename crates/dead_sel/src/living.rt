//! Whether a selector matches anything in any legal document.

use cnf::Ledger;
use css_model::Example;

/// Whether a selector matches anything in any legal document.
#[derive(Debug, PartialEq, Eq, Drop)]
pub enum Life {
    /// It does not: it matches no target of a legal document.
    Dead,
    /// It matches the marked element of this example, which has a legal document.
    Alive(Example),
    /// It was not decided: an attribute is asked for with a word, and each white space that could separate it is
    /// refused (Selectors 3, sections 6.3.1 and 6.3.2).
    SpacesTaken,
    /// It was not decided: the budget of learned clauses was spent on this ledger. It comes only where the selector has
    /// a combinator.
    Spent(Ledger),
}
