//! Whether a clause is forced by clauses to which steps are added.
ghost use Rattle.std.specs.Prelude.{◌≡◌, ◌↔◌, ◌∷◌, [], ◌++◌, List, length, true, false, IsTrue, IfOk, OnOk, MatchBool};
ghost use Rattle.cnf.specs.declared.lit.Lit.{Lit};
ghost use Rattle.cnf.specs.Lits.{is_among, is_below, are_below};
ghost use Rattle.cnf.specs.Propagation.{IsForced, is_consistent};
ghost use Rattle.sat_trail.specs.Trail.{lits, IsTrail};
ghost use Rattle.sat_watch.specs.Nonempty.{is_nonempty};
ghost use Rattle.sat_watch.specs.Numbered.{numbered, clauses_of};
ghost use Rattle.sat_watch.specs.Soundness.{is_false};
ghost use Rattle.sat_watch.specs.Watches.{IsLonger};
ghost use Rattle.rup_check.specs.Checks.{is_step};
ghost use Rattle.rup_check.specs.Root.{DecidedBy, IsHeadFor, IsKept, IsQuiet, IsRoot};

use cnf::Lit;
use sat_arena::Arena;
use sat_trail::Trail;
use sat_watch::{propagate, propagate_entries, undo};
use std::alloc::AllocError;

/// Whether the clauses of an arena force a clause. At the end nothing is decided.
pub(crate) fn is_forced(
    arena: &mut Arena,
    trail: &mut Trail,
    head: &mut u32,
    clause: &[Lit],
) -> bool
    requires root { IsRoot arena.old trail.old head.old }
    requires step { IsTrue (is_step arena.old.vars clause.now) }
    ensures forced { IsTrue result ↔ IsForced (clauses_of (numbered arena.old)) clause.now }
    ensures same { numbered arena.new ≡ numbered arena.old }
    ensures vars { arena.new.vars ≡ arena.old.vars }
    ensures root { IsRoot arena.new trail.new head.new }
{
    let forced = refute(arena, trail, head, clause);
    undo(trail, head, 0);
    forced
}

/// Makes the literals of a clause false, one after the other, until a clause is false or a literal is true. Answers
/// whether it came to that.
fn refute(arena: &mut Arena, trail: &mut Trail, head: &mut u32, clause: &[Lit]) -> bool
    requires root { IsRoot arena.old trail.old head.old }
    requires step { IsTrue (is_step arena.old.vars clause.now) }
    ensures forced { IsTrue result ↔ IsForced (clauses_of (numbered arena.old)) clause.now }
    ensures same { numbered arena.new ≡ numbered arena.old }
    ensures vars { arena.new.vars ≡ arena.old.vars }
    ensures kept { IsKept arena.new trail.new head.new }
    ensures looked { trail.new.level ≡ 0 → head.new ≡ length trail.new.entries }
{
    for k in 0..clause.len() {
        if deny(arena, trail, head, clause[k]) {
            return true;
        }
    }
    false
}

/// Makes a literal false. Answers whether a clause is false then, or the literal is true.
fn deny(arena: &mut Arena, trail: &mut Trail, head: &mut u32, lit: Lit) -> bool
    requires quiet { IsQuiet arena.old trail.old head.old }
    requires in_range { IsTrue (is_below arena.old.vars lit) }
    ensures forced { IsTrue result → (clause : List Lit) → IsTrue (is_among clause lit)
        → IsTrue (is_consistent clause) → DecidedBy clause trail.old.entries
        → IsForced (clauses_of (numbered arena.old)) clause }
    ensures denied { result ≡ false → IsTrue (is_false (lits trail.new.entries) lit) }
    ensures quiet { result ≡ false → IsQuiet arena.new trail.new head.new }
    ensures decided { (clause : List Lit) → IsTrue (is_among clause lit)
        → DecidedBy clause trail.old.entries → DecidedBy clause trail.new.entries }
    ensures longer { IsLonger trail.old trail.new }
    ensures same { numbered arena.new ≡ numbered arena.old }
    ensures vars { arena.new.vars ≡ arena.old.vars }
    ensures kept { IsKept arena.new trail.new head.new }
    ensures looked { trail.new.level ≡ 0 → head.new ≡ length trail.new.entries }
{
    match trail.value(lit) {
        Some(value) => value,
        None => {
            trail.decide(lit.negation());
            propagate_entries(arena, trail, head).is_some()
        }
    }
}
