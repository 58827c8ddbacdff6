//! Unit propagation by watched literals.
ghost use Rattle.std.specs.Prelude.{◌≡◌, ◌<◌, ◌≤◌, ◌+◌, ◌++◌, List, length, slice_get, IsTrue, IfNone, MatchBool, MatchOption, Some};
ghost use Rattle.cnf.specs.Lits.{negation, is_below};
ghost use Rattle.sat_arena.specs.Arena.{IsArena};
ghost use Rattle.sat_trail.specs.declared.entry.Entry.{Entry};
ghost use Rattle.sat_trail.specs.Trail.{lits, IsTrail};
ghost use Rattle.sat_watch.specs.Nonempty.{are_nonempty};
ghost use Rattle.sat_watch.specs.Numbered.{numbered, clauses_of};
ghost use Rattle.sat_watch.specs.Soundness.{is_false, IsSound, IsConflict, Propagated};
ghost use Rattle.sat_watch.specs.Watches.{IsLonger, IsMadeTrue, IsReady, ShortAreTrue};

use crate::watch::Watch;
use cnf::Lit;
use sat_arena::Arena;
use sat_trail::Trail;

/// Makes true what unit propagation finds. It ends where no clause is unit or false (`None`), or where one is false
/// (`Some`, with its number). `head` says how many entries of the trail were looked at.
pub fn propagate(arena: &mut Arena, trail: &mut Trail, head: &mut u32) -> Option<usize>
    requires vars { trail.old.vars ≡ arena.old.vars }
    requires sound { IsSound (numbered arena.old) trail.old }
    requires nonempty { IsTrue (are_nonempty (clauses_of (numbered arena.old))) }
    requires ready { IsReady arena.old trail.old head.old }
    ensures same { numbered arena.new ≡ numbered arena.old }
    ensures arena_vars { arena.new.vars ≡ arena.old.vars }
    ensures sound { IsSound (numbered arena.new) trail.new }
    ensures vars { trail.new.vars ≡ trail.old.vars }
    ensures level { trail.new.level ≡ trail.old.level }
    ensures longer { IsLonger trail.old trail.new }
    ensures found { Propagated (numbered arena.new) (lits trail.new.entries) result }
    ensures ready { IsReady arena.new trail.new head.new }
    ensures looked { IfNone result (head.new ≡ length trail.new.entries) }
    ensures short { IfNone result (ShortAreTrue arena.new trail.new.entries) }
{
    match imply_short(arena, trail) {
        Some(conflict) => Some(conflict),
        None => propagate_entries(arena, trail, head),
    }
}

/// Makes true what unit propagation finds from `head` on, where the clauses that watch no literal are true. It ends
/// where no clause is unit or false (`None`), or where one is false (`Some`, with its number).
pub fn propagate_entries(arena: &mut Arena, trail: &mut Trail, head: &mut u32) -> Option<usize>
    requires vars { trail.old.vars ≡ arena.old.vars }
    requires sound { IsSound (numbered arena.old) trail.old }
    requires nonempty { IsTrue (are_nonempty (clauses_of (numbered arena.old))) }
    requires ready { IsReady arena.old trail.old head.old }
    requires short { ShortAreTrue arena.old trail.old.entries }
    ensures same { numbered arena.new ≡ numbered arena.old }
    ensures arena_vars { arena.new.vars ≡ arena.old.vars }
    ensures sound { IsSound (numbered arena.new) trail.new }
    ensures vars { trail.new.vars ≡ trail.old.vars }
    ensures level { trail.new.level ≡ trail.old.level }
    ensures longer { IsLonger trail.old trail.new }
    ensures found { Propagated (numbered arena.new) (lits trail.new.entries) result }
    ensures ready { IsReady arena.new trail.new head.new }
    ensures looked { IfNone result (head.new ≡ length trail.new.entries) }
    ensures short { ShortAreTrue arena.new trail.new.entries }
{
    'looks: while *head < trail.len() {
        let lit = trail.entry(*head).negation();
        if let Some(conflict) = visit(arena, trail, *head, lit) {
            return Some(conflict);
        }
        *head += 1;
    }
    None
}

/// At level 0, makes the clauses true that watch no literal, until one is false (`Some`, with its number). Above level
/// 0 they are true.
fn imply_short(arena: &Arena, trail: &mut Trail) -> Option<usize>
    requires vars { trail.old.vars ≡ arena.now.vars }
    requires sound { IsSound (numbered arena.now) trail.old }
    requires nonempty { IsTrue (are_nonempty (clauses_of (numbered arena.now))) }
    requires arena { IsArena arena.now }
    requires trail { IsTrail trail.old }
    requires short { 0 < trail.old.level → ShortAreTrue arena.now trail.old.entries }
    ensures sound { IsSound (numbered arena.now) trail.new }
    ensures vars { trail.new.vars ≡ trail.old.vars }
    ensures level { trail.new.level ≡ trail.old.level }
    ensures longer { IsLonger trail.old trail.new }
    ensures above { 0 < trail.old.level → trail.new ≡ trail.old }
    ensures trail { IsTrail trail.new }
    ensures found { MatchOption result (ShortAreTrue arena.now trail.new.entries)
        (λ number. IsConflict (numbered arena.now) (lits trail.new.entries) number) }
{
    if trail.level() > 0 {
        return None;
    }
    for k in 0..arena.len() {
        let clause = arena.at(k);
        let (one, other) = arena.watches(clause);
        if one.0 == other.0 && !make_true(trail, one, clause) {
            return Some(clause);
        }
    }
    None
}

/// Makes a literal true by the clause under a number, unless it is false. Answers whether it is true then.
fn make_true(trail: &mut Trail, lit: Lit, number: usize) -> bool
    requires { IsTrue (is_below trail.old.vars lit) }
    ensures { MatchBool result (IsMadeTrue trail.old trail.new lit number)
        ((trail.new ≡ trail.old) × IsTrue (is_false (lits trail.old.entries) lit)) }
{
    match trail.value(lit) {
        None => {
            trail.imply(lit, number);
            true
        }
        Some(value) => value,
    }
}

/// Looks at each clause that watches a literal which the entry at a place has made false. It watches another literal
/// instead, or its other watch is true or is made true. It ends at the first clause that is false (`Some`, with its
/// number).
fn visit(arena: &mut Arena, trail: &mut Trail, head: u32, lit: Lit) -> Option<usize>
    requires vars { trail.old.vars ≡ arena.old.vars }
    requires sound { IsSound (numbered arena.old) trail.old }
    requires ready { IsReady arena.old trail.old head }
    requires in_range { IsTrue (is_below trail.old.vars lit) }
    requires entry { slice_get (lits trail.old.entries) head ≡ Some (negation lit) }
    requires short { ShortAreTrue arena.old trail.old.entries }
    ensures same { numbered arena.new ≡ numbered arena.old }
    ensures arena_vars { arena.new.vars ≡ arena.old.vars }
    ensures sound { IsSound (numbered arena.new) trail.new }
    ensures vars { trail.new.vars ≡ trail.old.vars }
    ensures level { trail.new.level ≡ trail.old.level }
    ensures longer { IsLonger trail.old trail.new }
    ensures found { MatchOption result (IsReady arena.new trail.new (head + 1))
        (λ number. IsReady arena.new trail.new head
        × IsConflict (numbered arena.new) (lits trail.new.entries) number) }
    ensures short { ShortAreTrue arena.new trail.new.entries }
{
    let mut before = None;
    let mut next = arena.first(lit);
    'walk: while let Some(clause) = next {
        next = arena.next(lit, clause);
        match Watch::at(arena, clause, lit, trail) {
            Watch::Backed => before = Some(clause),
            Watch::Other(to) => arena.move_after(lit, before, clause, to),
            Watch::Unit(partner) => {
                trail.imply(partner, clause);
                before = Some(clause);
            }
            Watch::False => return Some(clause),
        }
    }
    None
}
