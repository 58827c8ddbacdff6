//! A log from its text.
ghost use Rattle.std.specs.Prelude.{◌≡◌, ◌+◌, ◌≤◌, ◌^◌, ◌<◌, ◌++◌, length, IsTrue, IfOk, IfErr};
ghost use Rattle.cnf.specs.Cnf.{is_in_range};
ghost use Rattle.rup_check.specs.Checks.{are_steps};
ghost use Rattle.rup_check.specs.Reading.{are_plain, ClauseFault, IsLogText, StepFault, TextFault, max_vars};
ghost use Rattle.rup_check.specs.Text.{lines_text};

use crate::lines::{head, line};
use crate::log::{Log, LogError};
use crate::steps::is_plain;
use cnf::{Clause, Formula};
use std::alloc::Global;

/// The formula and the steps of a text, fit to be checked. `BadLine` exactly where the text is not that of a log, with
/// the number of the first line, from 1, that no log has. `NoMemory` where memory runs out.
pub fn read_log(alloc: Global, text: &[u8]) -> Result<Log, LogError>
    ensures ok { IfOk result (λ log. IsLogText text.now log.formula log.steps.items) }
    ensures checkable { IfOk result (λ log. IsTrue (are_steps log.formula.vars log.steps.items)) }
    ensures err { IfErr result (TextFault text.now) }
{
    let (vars, count, lines) = match head(text) {
        None => return Err(LogError::BadLine(1)),
        Some(found) => found,
    };
    let (formula, rest) = read_formula(alloc, lines, vars, count)?;
    let steps = read_steps(alloc, rest, vars, u64::from(count) + 2)?;
    Ok(Log { formula, steps })
}

/// So many clauses, and what follows their lines.
fn read_formula(
    alloc: Global,
    lines: &[u8],
    vars: u32,
    count: u32,
) -> Result<(Formula, &[u8]), LogError>
    requires { vars ≤ max_vars }
    ensures ok { IfOk result (λ r. (r.0.vars ≡ vars) × (length r.0.clauses ≡ count)
        × (lines.now ≡ lines_text r.0.clauses ++ r.1.now)) }
    ensures in_range { IfOk result (λ r. IsTrue (is_in_range r.0)) }
    ensures err { IfErr result (ClauseFault vars count lines.now) }
{
    let mut formula = Formula::new(alloc, vars);
    let mut rest = lines;
    for k in 0..count {
        match line(alloc, rest, vars)? {
            None => return Err(LogError::BadLine(u64::from(k) + 2)),
            Some((lits, next)) => {
                formula.add_clause(&lits)?;
                rest = next;
            }
        }
    }
    Ok((formula, rest))
}

/// Steps up to the end of the text. Before them are so many lines less 1.
fn read_steps(alloc: Global, lines: &[u8], vars: u32, before: u64) -> Result<Vec<Clause>, LogError>
    requires vars { vars ≤ max_vars }
    requires before { before < 2 ^ 33 }
    ensures ok { IfOk result (λ steps. IsTrue (are_plain vars steps.items)
        × (lines.now ≡ lines_text steps.items)) }
    ensures err { IfErr result (StepFault vars before lines.now) }
{
    let mut steps = Vec::new(alloc);
    let mut rest = lines;
    'steps: while !rest.is_empty() {
        let (lits, next) = match line(alloc, rest, vars)? {
            None => return Err(LogError::BadLine(before + steps.len() as u64)),
            Some(found) => found,
        };
        if !is_plain(vars, &lits) {
            return Err(LogError::BadLine(before + steps.len() as u64));
        }
        steps.push(Clause { lits })?;
        rest = next;
    }
    Ok(steps)
}
