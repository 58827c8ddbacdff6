//! A look at a clause one of whose watches is false.
ghost use Rattle.std.specs.Prelude.{◌≡◌, Contains, IsTrue, IfSome, MatchOption};
ghost use Rattle.cnf.specs.Lits.{negation, is_among, is_below};
ghost use Rattle.sat_arena.specs.Arena.{indexes, clause_at, IsArena, IsWatching};
ghost use Rattle.sat_trail.specs.Trail.{lits, IsTrail};
ghost use Rattle.sat_watch.specs.Soundness.{is_false};
ghost use Rattle.sat_watch.specs.Watch.{AreFalseBut, IsOther};

use cnf::Lit;
use sat_arena::Arena;
use sat_trail::Trail;

/// What a clause is whose watch has become false.
#[derive(Clone, Copy, Debug)]
pub(crate) enum Watch {
    /// The other watch is true.
    Backed,
    /// This literal is not false, and not watched.
    Other(Lit),
    /// All its literals but the other watch are false, and this is open.
    Unit(Lit),
    /// All its literals are false.
    False,
}

impl Watch {
    ghost use Rattle.sat_watch.specs.Watch.{Shows};

    /// Looks at a clause that watches a false literal.
    pub(crate) fn at(arena: &Arena, clause: usize, lit: Lit, trail: &Trail) -> Watch
        requires arena { IsArena arena.now }
        requires known { Contains (indexes arena.now) clause }
        requires vars { trail.now.vars ≡ arena.now.vars }
        requires trail { IsTrail trail.now }
        requires watching { IsWatching (clause_at arena.now clause) lit }
        requires is_false { IsTrue (is_among (lits trail.now.entries) (negation lit)) }
        ensures shows { Shows (clause_at arena.now clause) (lits trail.now.entries) lit result }
        ensures other { (l : Lit) → result ≡ Watch.Other l → IsTrue (is_below trail.now.vars l) }
        ensures unit { (l : Lit) → result ≡ Watch.Unit l → IsTrue (is_below trail.now.vars l) }
    {
        let (one, other) = arena.watches(clause);
        let partner = if one.0 == lit.0 { other } else { one };
        if is_false(trail, partner.negation()) {
            return Watch::Backed;
        }
        match other_watch(arena, clause, one, other, trail) {
            Some(to) => Watch::Other(to),
            None => {
                if is_false(trail, partner) {
                    Watch::False
                } else {
                    Watch::Unit(partner)
                }
            }
        }
    }
}

/// A literal of a clause that is not false and is neither of two; None where all others are false.
fn other_watch(arena: &Arena, clause: usize, one: Lit, other: Lit, trail: &Trail) -> Option<Lit>
    requires known { Contains (indexes arena.now) clause }
    requires vars { trail.now.vars ≡ arena.now.vars }
    requires trail { IsTrail trail.now }
    ensures found { MatchOption result
        (AreFalseBut (clause_at arena.now clause).lits (lits trail.now.entries) one other)
        (λ to. IsOther (clause_at arena.now clause).lits (lits trail.now.entries) one other to) }
    ensures in_range { IfSome result (λ to. IsTrue (is_below trail.now.vars to)) }
{
    for k in 0..arena.size(clause) {
        let to = arena.literal(clause, k);
        if to.0 != one.0 && to.0 != other.0 && !is_false(trail, to) {
            return Some(to);
        }
    }
    None
}

/// Whether a literal is false.
pub fn is_false(trail: &Trail, lit: Lit) -> bool
    requires in_range { IsTrue (is_below trail.now.vars lit) }
    requires trail { IsTrail trail.now }
    ensures { result ≡ is_false (lits trail.now.entries) lit }
{
    match trail.value(lit) {
        None => false,
        Some(value) => !value,
    }
}
