//! What is learned from a conflict: a clause, and the level to go back to.
ghost use Rattle.std.specs.Prelude.{◌≡◌, ◌≤◌, ◌<◌, ◌∷◌, [], ◌++◌, length, slice_get, IsTrue, IfOk, IfSome, OnOk, MatchOption, Some};
ghost use Rattle.cnf.specs.Lits.{are_below};
ghost use Rattle.cnf.specs.Propagation.{IsLogged};
ghost use Rattle.sat_trail.specs.declared.entry.Entry.{Entry};
ghost use Rattle.sat_trail.specs.Trail.{lits, IsTrail};
ghost use Rattle.sat_core.specs.Analysis.{marked, AreUnmarked, IsMarkedLast};
ghost use Rattle.sat_watch.specs.Nonempty.{is_nonempty};
ghost use Rattle.sat_watch.specs.Numbered.{numbered, clauses_of};
ghost use Rattle.sat_watch.specs.Soundness.{IsSound, IsConflict};
ghost use Rattle.sat_watch.specs.Watches.{IsReady};
ghost use Rattle.sat_core.specs.Analysis.{head_after};

use crate::analysis::resolve;
use crate::shortening::shorten;
use cnf::{Clause, Lit};
use sat_arena::Arena;
use sat_trail::Trail;
use std::alloc::{AllocError, Global};

/// Learns a clause from a conflict above level 0, and takes back the levels at whose end the clause would have been
/// unit. `AllocError` where memory runs out.
pub(crate) fn learn(
    alloc: Global,
    arena: &mut Arena,
    trail: &mut Trail,
    head: &mut u32,
    seen: &mut Vec<bool>,
    conflict: usize,
) -> Result<Clause, AllocError>
    requires vars { trail.old.vars ≡ arena.old.vars }
    requires sound { IsSound (numbered arena.old) trail.old }
    requires level { 0 < trail.old.level }
    requires conflict { IsConflict (numbered arena.old) (lits trail.old.entries) conflict }
    requires seen { length seen.old.items ≡ trail.old.vars }
    requires ready { IsReady arena.old trail.old head.old }
    ensures logged { IfOk result (λ c. IsLogged arena.old.vars (clauses_of (numbered arena.old)) c) }
    ensures nonempty { IfOk result (λ c. IsTrue (is_nonempty c)) }
    ensures clauses { IfOk result (λ c. clauses_of (numbered arena.new)
        ≡ clauses_of (numbered arena.old) ++ c ∷ []) }
    ensures arena_vars { OnOk result (arena.new.vars ≡ arena.old.vars) }
    ensures vars { OnOk result (trail.new.vars ≡ trail.old.vars) }
    ensures seen { OnOk result (length seen.new.items ≡ trail.old.vars) }
    ensures sound { OnOk result (IsSound (numbered arena.new) trail.new) }
    ensures ready { OnOk result (IsReady arena.new trail.new head.new) }
{
    let at = resolve(arena, trail, seen, conflict);
    shorten(alloc, arena, trail, seen, at)?;
    let lits = collect(alloc, trail, seen)?;
    let before = last_marked(trail, seen, at);
    let back = back_level(trail, before);
    bump(trail, &lits);
    trail.undo_to(back);
    *head = head_after(before, trail);
    arena.attach(&lits)?;
    Ok(Clause { lits })
}

/// Where propagation goes on: at the entry of the clause's other watch, or after all entries.
fn head_after(place: Option<u32>, trail: &Trail) -> u32
    ensures { result ≡ head_after place (length trail.now.entries) }
{
    match place {
        None => trail.len(),
        Some(place) => place,
    }
}

/// Raises the activities of the variables of a clause.
fn bump(trail: &mut Trail, lits: &[Lit])
    requires { IsTrue (are_below trail.old.vars lits.now) }
    ensures { trail.new ≡ trail.old }
{
    for lit in lits {
        trail.bump(lit.variable());
    }
}

/// The clause of the negations of the marked literals, in the order of the trail. `AllocError` where
/// memory runs out.
fn collect(alloc: Global, trail: &Trail, seen: &[bool]) -> Result<Vec<Lit>, AllocError>
    requires { length seen.now ≡ trail.now.vars }
    ensures { IfOk result (λ c. c.items ≡ marked seen.now (lits trail.now.entries)) }
{
    let mut clause = Vec::new(alloc);
    for k in 0..trail.len() {
        let lit = trail.entry(k);
        if seen[lit.variable() as usize] {
            clause.push(lit.negation())?;
        }
    }
    Ok(clause)
}

/// The place of the last marked entry before a place, or None where none is marked.
fn last_marked(trail: &Trail, seen: &[bool], at: u32) -> Option<u32>
    requires size { length seen.now ≡ trail.now.vars }
    requires place { at ≤ length trail.now.entries }
    ensures { MatchOption result (AreUnmarked trail.now.entries seen.now 0 at)
        (λ place. IsMarkedLast trail.now.entries seen.now place at) }
{
    for k in (0..at).rev() {
        if seen[trail.entry(k).variable() as usize] {
            return Some(k);
        }
    }
    None
}

/// The level of an entry, or 0 where there is none.
fn back_level(trail: &Trail, place: Option<u32>) -> u32
    requires place { IfSome place (λ k. k < length trail.now.entries) }
    requires trail { IsTrail trail.now }
    ensures { MatchOption place (result ≡ 0)
        (λ k. (e : Entry) → slice_get trail.now.entries k ≡ Some e → e.level ≡ result) }
{
    match place {
        None => 0,
        Some(k) => match trail.level_of(trail.entry(k).variable()) {
            None => 0,
            Some(level) => level,
        },
    }
}
