//! The check of a log.
ghost use Rattle.std.specs.Prelude.{◌≡◌, ◌↔◌, false, IsTrue, IfOk};
ghost use Rattle.sat_watch.specs.Nonempty.{are_nonempty};
ghost use Rattle.rup_check.specs.Checks.{are_steps, IsAtEnd, IsChecked};

use crate::log::{Checked, Log};
use crate::root::is_forced;
use crate::step::add_step;
use cnf::{Clause, Formula};
use sat_arena::Arena;
use sat_trail::Trail;
use sat_watch::{has_empty, propagate};
use std::alloc::{AllocError, Global};

/// Follows a log, by unit propagation alone. The variables of its steps are those of the formula. No step has a literal
/// beside its negation. `AllocError` where memory runs out.
pub fn check_log(alloc: Global, log: &Log) -> Result<Checked, AllocError>
    requires { IsTrue (are_steps log.now.formula.vars log.now.steps.items) }
    ensures { IfOk result (λ c. IsChecked log.now.formula.clauses log.now.steps.items c) }
{
    if has_empty(&log.formula) {
        return Ok(Checked::Yes);
    }
    check_steps(alloc, &log.formula, &log.steps)
}

/// Follows the steps over a formula without an empty clause. `AllocError` where memory runs out.
fn check_steps(alloc: Global, f: &Formula, steps: &[Clause]) -> Result<Checked, AllocError>
    requires nonempty { IsTrue (are_nonempty f.now.clauses) }
    requires steps { IsTrue (are_steps f.now.vars steps.now) }
    ensures { IfOk result (λ c. IsChecked f.now.clauses steps.now c) }
{
    let mut arena = Arena::new(alloc, f)?;
    let mut trail = Trail::new(alloc, f.vars())?;
    let mut head = 0;
    if propagate(&mut arena, &mut trail, &mut head).is_some() {
        return Ok(at_end(steps));
    }
    'steps: for k in 0..steps.len() {
        let step: &Clause = &steps[k];
        if !is_forced(&mut arena, &mut trail, &mut head, &step.lits) {
            return Ok(Checked::No(k as u64 + 1));
        }
        if add_step(&mut arena, &mut trail, &mut head, &step.lits)? {
            return Ok(at_end(steps));
        }
    }
    Ok(at_end(steps))
}

/// The answer where each step is forced, and no clause of the formula is empty.
fn at_end(steps: &[Clause]) -> Checked
    ensures { IsAtEnd steps.now result }
{
    match steps.last() {
        Some(last) if last.lits.is_empty() => Checked::Yes,
        _ => Checked::No(steps.len() as u64 + 1),
    }
}
