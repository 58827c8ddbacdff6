//! The analysis of a conflict, down to its first implication point.
ghost use Rattle.std.specs.Prelude.{◌≡◌, ◌<◌, ◌+◌, ◌||◌, ℕ, length, Contains, false, true, slice_set, slice_index_or};
ghost use Rattle.sat_arena.specs.Arena.{indexes, clause_at};
ghost use Rattle.sat_trail.specs.Trail.{lits, IsTrail};
ghost use Rattle.sat_core.specs.Analysis.{has_variable, marked_at, IsResolved};
ghost use Rattle.sat_watch.specs.Numbered.{numbered, clauses_of};
ghost use Rattle.sat_watch.specs.Soundness.{IsSound, IsConflict};

use sat_arena::Arena;
use sat_trail::Trail;

/// Resolves a false clause, given by its number, with the reasons of its literals, until one literal of the present
/// level is left. Answers where on the trail that literal is. The clause then has the negations of the marked literals.
/// The variables that it resolves become more active.
pub(crate) fn resolve(
    arena: &Arena,
    trail: &mut Trail,
    seen: &mut Vec<bool>,
    conflict: usize,
) -> u32
    requires vars { trail.old.vars ≡ arena.now.vars }
    requires sound { IsSound (numbered arena.now) trail.old }
    requires level { 0 < trail.old.level }
    requires conflict { IsConflict (numbered arena.now) (lits trail.old.entries) conflict }
    requires seen { length seen.old.items ≡ trail.old.vars }
    ensures same { trail.new ≡ trail.old }
    ensures seen { length seen.new.items ≡ trail.old.vars }
    ensures trail { IsTrail trail.old }
    ensures resolved { IsResolved (clauses_of (numbered arena.now)) trail.old seen.new.items result }
{
    clear(seen);
    let level = trail.level();
    let mut open = mark(seen, trail, arena, conflict, level);
    let mut k = trail.len();
    'down: loop {
        k -= 1;
        let var = trail.entry(k).variable();
        if seen[var as usize] {
            match trail.reason(var) {
                Some(number) if open > 1 => {
                    open += mark(seen, trail, arena, number, level);
                    open -= 1;
                    seen[var as usize] = false;
                    trail.bump(var);
                }
                _ => return k,
            }
        }
    }
}

/// Takes all marks away.
fn clear(seen: &mut Vec<bool>)
    ensures size { length seen.new.items ≡ length seen.old.items }
    ensures clear { (v : ℕ) → slice_index_or seen.new.items v false ≡ false }
{
    for k in 0..seen.len() {
        seen[k] = false;
    }
}

/// Marks the variables of the clause under a number. Answers how many new marks are on entries of a level.
pub(crate) fn mark(
    seen: &mut Vec<bool>,
    trail: &Trail,
    arena: &Arena,
    number: usize,
    level: u32,
) -> u32
    requires known { Contains (indexes arena.now) number }
    requires vars { trail.now.vars ≡ arena.now.vars }
    requires size { length seen.old.items ≡ trail.now.vars }
    requires trail { IsTrail trail.now }
    ensures size { length seen.new.items ≡ trail.now.vars }
    ensures marks { (v : ℕ) → slice_index_or seen.new.items v false
        ≡ (slice_index_or seen.old.items v false
        || has_variable (clause_at arena.now number).lits v) }
    ensures count { marked_at seen.old.items level trail.now.entries + result
        ≡ marked_at seen.new.items level trail.now.entries }
{
    let mut count = 0;
    for k in 0..arena.size(number) {
        count += mark_one(seen, trail, arena.literal(number, k).variable(), level);
    }
    count
}

/// Marks a variable. Answers how many new marks are on entries of a level: 1 or 0.
fn mark_one(seen: &mut Vec<bool>, trail: &Trail, var: u32, level: u32) -> u32
    requires range { var < trail.now.vars }
    requires size { length seen.old.items ≡ trail.now.vars }
    requires trail { IsTrail trail.now }
    ensures marks { seen.new.items ≡ slice_set seen.old.items var true }
    ensures count { marked_at seen.old.items level trail.now.entries + result
        ≡ marked_at seen.new.items level trail.now.entries }
{
    if seen[var as usize] {
        return 0;
    }
    seen[var as usize] = true;
    match trail.level_of(var) {
        Some(of) if of == level => 1,
        _ => 0,
    }
}
