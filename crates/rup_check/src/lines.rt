//! The lines of a log.
ghost use Rattle.std.specs.Prelude.{◌≡◌, ◌≤◌, ◌++◌, ℕ, List, IsTrue, IfOk, MatchOption};
ghost use Rattle.cnf.specs.Lits.{are_below};
ghost use Rattle.rup_check.specs.Reading.{NoLine, max_vars, max_clauses};
ghost use Rattle.rup_check.specs.Text.{head_text, line_text};

use crate::fronts::{after, literal, number};
use cnf::Lit;
use std::alloc::{AllocError, Global};

/// The most variables of a log.
const MAX_VARS: u32 = 16_777_215;

/// The numbers of variables and clauses that the first line gives, and what follows it.
pub(crate) fn head(text: &[u8]) -> Option<(u32, u32, &[u8])>
    ensures { MatchOption result ((vars count : ℕ) (rest : List ℕ) → vars ≤ max_vars
        → count ≤ max_clauses → text.now ≡ head_text vars count ++ rest → ⊥)
        (λ r. (r.0 ≤ max_vars) × (r.1 ≤ max_clauses)
        × (text.now ≡ head_text r.0 r.1 ++ r.2.now)) }
{
    let behind_word = match after(text, b"vars ") {
        None => return None,
        Some(rest) => rest,
    };
    let (vars, behind_vars) = match number(behind_word, b' ', MAX_VARS) {
        None => return None,
        Some(found) => found,
    };
    let behind_clauses = match after(behind_vars, b"clauses ") {
        None => return None,
        Some(rest) => rest,
    };
    match number(behind_clauses, b'\n', u32::MAX) {
        None => None,
        Some((count, rest)) => Some((vars, count, rest)),
    }
}

/// The literals of a clause's line, and what follows the line; None where no such line is in front. `AllocError` where
/// memory runs out.
pub(crate) fn line(
    alloc: Global,
    text: &[u8],
    vars: u32,
) -> Result<Option<(Vec<Lit>, &[u8])>, AllocError>
    requires { vars ≤ max_vars }
    ensures { IfOk result (λ o. MatchOption o (NoLine (are_below vars) text.now)
        (λ r. IsTrue (are_below vars r.0.items) × (text.now ≡ line_text r.0.items ++ r.1.now))) }
{
    let mut lits = Vec::new(alloc);
    let mut rest = text;
    'literals: loop {
        if let Some(next) = after(rest, b"0\n") {
            return Ok(Some((lits, next)));
        }
        match literal(rest, vars) {
            None => return Ok(None),
            Some((lit, next)) => {
                lits.push(lit)?;
                rest = next;
            }
        }
    }
}
