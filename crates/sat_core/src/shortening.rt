//! Learned clauses without the literals that follow from their others.
ghost use Rattle.std.specs.Prelude.{◌≡◌, ◌<◌, ◌≤◌, Contains, length, IfOk, OnOk};
ghost use Rattle.sat_arena.specs.Arena.{indexes};
ghost use Rattle.sat_core.specs.Analysis.{IsResolved};
ghost use Rattle.sat_watch.specs.Numbered.{numbered, clauses_of};
ghost use Rattle.sat_watch.specs.Soundness.{IsSound};

use crate::analysis::mark;
use sat_arena::Arena;
use sat_trail::Trail;
use std::alloc::{AllocError, Global};

/// Resolves a resolved conflict further, down to the marked literals that do not follow from the others. The literals
/// of level 0 go, and each whose reason has only literals that are marked or go as well. `AllocError` where memory runs
/// out.
pub(crate) fn shorten(
    alloc: Global,
    arena: &Arena,
    trail: &Trail,
    seen: &mut Vec<bool>,
    at: u32,
) -> Result<(), AllocError>
    requires vars { trail.now.vars ≡ arena.now.vars }
    requires sound { IsSound (numbered arena.now) trail.now }
    requires seen { length seen.old.items ≡ trail.now.vars }
    requires resolved { IsResolved (clauses_of (numbered arena.now)) trail.now seen.old.items at }
    ensures seen { OnOk result (length seen.new.items ≡ trail.now.vars) }
    ensures resolved { OnOk result
        (IsResolved (clauses_of (numbered arena.now)) trail.now seen.new.items at) }
{
    let level = trail.level();
    let follows = following(alloc, arena, trail, seen, at)?;
    'down: for k in (0..at).rev() {
        let var = trail.entry(k).variable();
        if seen[var as usize] {
            if let Some(number) = trail.reason(var) {
                if do_others_follow(arena, &follows, number, var) {
                    mark(seen, trail, arena, number, level);
                    seen[var as usize] = false;
                }
            }
        }
    }
    Ok(())
}

/// Which variables follow: those whose entry is before a place and is marked, or has a reason whose other variables all
/// follow. `AllocError` where memory runs out.
fn following(
    alloc: Global,
    arena: &Arena,
    trail: &Trail,
    seen: &[bool],
    at: u32,
) -> Result<Vec<bool>, AllocError>
    requires vars { trail.now.vars ≡ arena.now.vars }
    requires sound { IsSound (numbered arena.now) trail.now }
    requires seen { length seen.now ≡ trail.now.vars }
    requires place { at ≤ length trail.now.entries }
    ensures { IfOk result (λ follows. length follows.items ≡ trail.now.vars) }
{
    let mut follows = vec![in alloc; false; seen.len()]?;
    for k in 0..at {
        let var = trail.entry(k).variable();
        follows[var as usize] = seen[var as usize] || does_follow(arena, trail, &follows, var);
    }
    Ok(follows)
}

/// Whether a variable has a reason whose other variables all follow.
fn does_follow(arena: &Arena, trail: &Trail, follows: &[bool], var: u32) -> bool
    requires vars { trail.now.vars ≡ arena.now.vars }
    requires sound { IsSound (numbered arena.now) trail.now }
    requires size { length follows.now ≡ trail.now.vars }
    requires range { var < trail.now.vars }
{
    match trail.reason(var) {
        None => false,
        Some(number) => do_others_follow(arena, follows, number, var),
    }
}

/// Whether all variables but one of the clause under a number follow.
fn do_others_follow(arena: &Arena, follows: &[bool], number: usize, var: u32) -> bool
    requires known { Contains (indexes arena.now) number }
    requires size { length follows.now ≡ arena.now.vars }
{
    for k in 0..arena.size(number) {
        let other = arena.literal(number, k).variable();
        if other != var && !follows[other as usize] {
            return false;
        }
    }
    true
}
