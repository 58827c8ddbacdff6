//! Formulas, counted by what is decided of them.

use crate::numbers::{formulas, numbers};
use cnf::NO_LIMIT;
use sat_core::{Verdict, solve};
use std::alloc::{AllocError, Global};

/// How many formulas have a model, how many have none, and how many clauses the ledgers of these have.
#[derive(Clone, Copy, Debug)]
pub(crate) struct Decided {
    pub(crate) models: u64,
    pub(crate) refuted: u64,
    pub(crate) learned: u64,
}

/// Decides the formulas of a text, as often as its first number says.
///
/// The text is numbers: how often each formula is decided; then for each formula its variables and its clauses, counted, and
/// the clauses, as in a DIMACS file, each with 0 at its end. `Err(AllocError)` if memory is short.
pub(crate) fn decide_all(alloc: Global, text: &[u8]) -> Result<Decided, AllocError> {
    let numbers = numbers(alloc, text)?;
    let times = match numbers.first() {
        Some((_, n)) => *n,
        None => 0,
    };
    let all = formulas(alloc, &numbers)?;
    let mut decided = Decided {
        models: 0,
        refuted: 0,
        learned: 0,
    };
    for _ in 0..times {
        for f in &all {
            match solve(alloc, f, NO_LIMIT)? {
                Verdict::Model(_) => decided.models = decided.models.wrapping_add(1),
                Verdict::NoModel(ledger) => {
                    decided.refuted = decided.refuted.wrapping_add(1);
                    decided.learned = decided.learned.wrapping_add(ledger.clauses.len() as u64);
                }
                Verdict::Spent(_) => {}
            }
        }
    }
    Ok(decided)
}
