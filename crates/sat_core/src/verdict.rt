//! What the solver answers.
use cnf::Ledger;

/// What the solver says of a formula.
#[derive(Debug, Drop)]
pub enum Verdict {
    /// Values that satisfy every clause, one for each variable.
    Model(Vec<bool>),
    /// No values do. The ledger ends in the empty clause; it has no clause where the formula itself has an empty one.
    NoModel(Ledger),
    /// The budget of learned clauses is used up.
    Spent(Ledger),
}
