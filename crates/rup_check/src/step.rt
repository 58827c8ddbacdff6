//! A step that joins the clauses.
ghost use Rattle.std.specs.Prelude.{◌≡◌, ◌∷◌, [], ◌++◌, false, IsTrue, IfOk, OnOk, MatchBool};
ghost use Rattle.cnf.specs.Lits.{is_below, are_below};
ghost use Rattle.cnf.specs.Propagation.{IsForced};
ghost use Rattle.sat_trail.specs.Trail.{lits, IsTrail};
ghost use Rattle.sat_watch.specs.Nonempty.{is_nonempty};
ghost use Rattle.sat_watch.specs.Numbered.{numbered, clauses_of};
ghost use Rattle.sat_watch.specs.Soundness.{is_false};
ghost use Rattle.rup_check.specs.Root.{IsHeadFor, IsRoot};

use cnf::Lit;
use sat_arena::Arena;
use sat_trail::Trail;
use sat_watch::{is_false, propagate, propagate_entries};
use std::alloc::AllocError;

/// Adds a step after the clauses, and makes true what follows. Answers whether a clause is false then: from there on
/// each clause is forced. `AllocError` where memory runs out.
pub(crate) fn add_step(
    arena: &mut Arena,
    trail: &mut Trail,
    head: &mut u32,
    step: &[Lit],
) -> Result<bool, AllocError>
    requires root { IsRoot arena.old trail.old head.old }
    requires in_range { IsTrue (are_below arena.old.vars step.now) }
    requires nonempty { IsTrue (is_nonempty step.now) }
    ensures clauses { OnOk result (clauses_of (numbered arena.new)
        ≡ clauses_of (numbered arena.old) ++ step.now ∷ []) }
    ensures vars { OnOk result (arena.new.vars ≡ arena.old.vars) }
    ensures root { IfOk result (λ refuted. MatchBool refuted
        (IsForced (clauses_of (numbered arena.new)) []) (IsRoot arena.new trail.new head.new)) }
{
    let clause = arena.attach(step)?;
    let (one, other) = arena.watches(clause);
    if one.0 == other.0 {
        return Ok(propagate(arena, trail, head).is_some());
    }
    *head = head_for(trail, *head, one, other);
    Ok(propagate_entries(arena, trail, head).is_some())
}

/// Where propagation goes on for a clause with these watches: from the first entry on, where one of them is false.
fn head_for(trail: &Trail, head: u32, one: Lit, other: Lit) -> u32
    requires one { IsTrue (is_below trail.now.vars one) }
    requires other { IsTrue (is_below trail.now.vars other) }
    requires trail { IsTrail trail.now }
    ensures { IsHeadFor trail.now head one other result }
{
    if is_false(trail, one) {
        return 0;
    }
    if is_false(trail, other) {
        return 0;
    }
    head
}
