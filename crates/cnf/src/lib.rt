//! Formulas in conjunctive normal form: literals, clauses and what follows from them. Gates add clauses that fix a
//! literal or a number.
#![tactic(auto)]

mod comparison;
mod division;
mod formula;
mod gates;
mod laws;
mod ledger;
mod lit;
mod sums;

pub use comparison::at_least;
pub use division::divide_by;
pub use formula::Formula;
pub use gates::{and_gate, exactly_one};
pub use laws::{
    adder_gives_the_sum, and_gate_is_true_where_all_are, at_least_compares_with_the_bound,
    divide_by_gives_quotient_and_remainder, exactly_one_counts_one, extending_is_a_preorder,
    forced_clause_follows, literals_follow_variables, no_limit_is_defined,
};
pub use ledger::{Bits, Clause, Ledger, NO_LIMIT};
pub use lit::Lit;
pub use sums::adder;
