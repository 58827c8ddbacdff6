//! The search for a model.
ghost use Rattle.std.specs.Prelude.{◌≡◌, ◌≢◌, ◌≤◌, ◌<◌, ◌*◌, ◌+◌, ◌^◌, ◌↔◌, ℕ, Some, None, true, false, slice_index_or, length, IsTrue, IfOk, MatchOption};
ghost use Rattle.cnf.specs.Budgets.{no_limit};
ghost use Rattle.cnf.specs.Lits.{negation, positive};
ghost use Rattle.sat_trail.specs.Trail.{lits, value_in};
ghost use Rattle.sat_watch.specs.Nonempty.{are_nonempty};
ghost use Rattle.sat_core.specs.Verdict.{IsAnswer};

use crate::learning::learn;
use crate::phases::{as_before, remember};
use crate::restarts::Restarts;
use crate::verdict::Verdict;
use cnf::{Clause, Formula, Ledger, Lit, NO_LIMIT};
use sat_arena::Arena;
use sat_trail::Trail;
use sat_watch::{has_empty, propagate};
use std::alloc::{AllocError, Global};

/// Decides a formula by clause learning, with a budget of learned clauses. `NO_LIMIT` is a number above the length of
/// every list. If the budget is spent, the ledger has as many clauses as that. `AllocError` if memory runs out.
pub fn solve(alloc: Global, f: &Formula, budget: u32) -> Result<Verdict, AllocError>
    ensures { IfOk result (λ v. IsAnswer f.now budget v) }
{
    if has_empty(f) {
        return Ok(Verdict::NoModel(Ledger {
            clauses: Vec::new(alloc),
        }));
    }
    search(alloc, f, budget)
}

/// Decides a formula without an empty clause. `AllocError` where memory runs out.
fn search(alloc: Global, f: &Formula, budget: u32) -> Result<Verdict, AllocError>
    requires { IsTrue (are_nonempty f.now.clauses) }
    ensures { IfOk result (λ v. IsAnswer f.now budget v) }
{
    let mut arena = Arena::new(alloc, f)?;
    let mut trail = Trail::new(alloc, f.vars())?;
    let mut seen = vec![in alloc; false; f.vars() as usize]?;
    let mut phases = vec![in alloc; false; f.vars() as usize]?;
    let mut ledger = Vec::new(alloc);
    let mut restarts = Restarts::new();
    let mut head = 0;
    'search: loop {
        let found = propagate(&mut arena, &mut trail, &mut head);
        let level = trail.level();
        match found {
            None => match trail.next_free() {
                None => return Ok(Verdict::Model(values(alloc, &trail, f.vars())?)),
                Some(var) => trail.decide(as_before(&phases, var)),
            },
            Some(conflict) => {
                if level == 0 {
                    ledger.push(Clause {
                        lits: Vec::new(alloc),
                    })?;
                    return Ok(Verdict::NoModel(Ledger { clauses: ledger }));
                }
                if is_used_up(budget, ledger.len()) {
                    return Ok(Verdict::Spent(Ledger { clauses: ledger }));
                }
                remember(&mut phases, &trail);
                let learned = learn(
                    alloc, &mut arena, &mut trail, &mut head, &mut seen, conflict,
                )?;
                ledger.push(learned)?;
                restarts.after_learning(&mut trail, &mut head);
            }
        }
    }
}

/// Whether so many clauses use up a budget.
fn is_used_up(budget: u32, count: usize) -> bool
    ensures { IsTrue result ↔ ((budget ≢ no_limit) × (budget ≤ count)) }
{
    budget != NO_LIMIT && count >= budget as usize
}

/// The value of each variable of a trail. `AllocError` where memory runs out.
#[tactic(auto, unfolding(cnf::specs::Lits::positive))]
fn values(alloc: Global, trail: &Trail, vars: u32) -> Result<Vec<bool>, AllocError>
    requires vars { trail.now.vars ≡ vars }
    requires small { vars ≤ 2 ^ 30 }
    ensures size { IfOk result (λ vs. length vs.items ≡ vars) }
    ensures values { IfOk result (λ vs. (v : ℕ) → v < vars → (IsTrue (slice_index_or vs.items v false)
        ↔ (value_in (lits trail.now.entries) (positive v) ≡ Some true))) }
{
    let mut values = Vec::new(alloc);
    for var in 0..vars {
        values.push(trail.value(Lit(2 * var)) == Some(true))?;
    }
    Ok(values)
}
