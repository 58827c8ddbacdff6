//! The arena: all clauses, the watches of each, and the lists of those that watch a literal.
ghost use Rattle.std.specs.Prelude.{◌≡◌, ◌≢◌, ◌+◌, ◌<◌, ◌≤◌, ◌^◌, ◌↔◌, [], ◌∷◌, ◌++◌, length, map, slice_get, Contains, IsTrue, IfOk, OnOk, OnErr, Some};
ghost use Rattle.cnf.specs.declared.lit.Lit.{Lit};
ghost use Rattle.cnf.specs.Lits.{is_below, are_below, is_among};
ghost use Rattle.sat_arena.specs.Arena.{IsArena, IsWatching, IsBehind, indexes, clause_lits, clause_at, watch_list, first_of, next_in, without, with_watch, new_clause, with_new};

use crate::links::{link_of_new, linked_index, predecessor, put_in_front, relink, slot};
use crate::words::{LITS, OTHER, SIZE, lit_at, push_clause, watch_pair};
use cnf::{Formula, Lit};
use std::alloc::{AllocError, Global};
use std::marker::Model;

/// Clauses in one buffer of words. Each watches two of its literals. The clauses that watch a literal are threaded in a
/// list through their words: to move a watch takes no memory.
///
/// A clause is named by its index, which never changes.
#[derive(Debug, Drop)]
pub struct Arena {
    vars: u32,
    // the clauses, one after the other; the first word is of no clause, so that 0 ends a list
    words: Vec<usize>,
    // under each literal's number the first clause of its list, or 0
    firsts: Vec<usize>,
    // where the clauses begin, oldest first
    starts: Vec<usize>,
}

impl Model for Arena {
    ghost use Rattle.sat_arena.specs.Arena.{WatchedClauses};
    ghost use Rattle.sat_arena.specs.Words.{watched_clauses, IsArenaInside};

    ghost Value = { WatchedClauses };

    ghost view = { λ a. watched_clauses a.vars a.words.items a.firsts.items a.starts.items };

    ghost invariant = { λ a. IsArenaInside a.vars a.words.items a.firsts.items a.starts.items };
}

impl Arena {
    /// The clauses of a formula, in its order. `AllocError` where memory runs out.
    pub fn new(alloc: Global, f: &Formula) -> Result<Arena, AllocError>
        ensures vars { IfOk result (λ a. a.vars ≡ f.now.vars) }
        ensures clauses { IfOk result (λ a. clause_lits a ≡ f.now.clauses) }
        ensures arena { IfOk result (λ a. IsArena a) }
    {
        let mut arena = Arena::empty(alloc, f.vars())?;
        arena.reserve(f.len())?;
        for k in 0..f.len() {
            arena.attach(f.clause(k))?;
        }
        Ok(arena)
    }

    /// An arena without clauses.
    fn empty(alloc: Global, vars: u32) -> Result<Arena, AllocError>
        requires { vars ≤ 2 ^ 30 }
        ensures vars { IfOk result (λ a. a.vars ≡ vars) }
        ensures clauses { IfOk result (λ a. clause_lits a ≡ []) }
        ensures arena { IfOk result (λ a. IsArena a) }
    {
        let words = vec![in alloc; 0usize; 1]?;
        let firsts = vec![in alloc; 0usize; vars as usize + vars as usize]?;
        Ok(Arena {
            vars,
            words,
            firsts,
            starts: Vec::new(alloc),
        })
    }

    /// Makes room for so many short clauses, so that the buffers of most formulas do not grow while these are read.
    /// `AllocError` where memory runs out.
    fn reserve(&mut self, clauses: usize) -> Result<(), AllocError>
        ensures { self.new ≡ self.old }
    {
        self.starts.reserve(clauses)?;
        self.words.reserve(clauses.saturating_mul(LITS + 3))?;
        Ok(())
    }

    /// Adds a clause after the others, and answers its index. A clause with two different literals watches its last one
    /// and the last that differs from it, and comes to the front of the lists of both. `AllocError` where memory runs
    /// out; then the arena is unchanged.
    pub fn attach(&mut self, lits: &[Lit]) -> Result<usize, AllocError>
        requires { IsTrue (are_below self.old.vars lits.now) }
        ensures vars { self.new.vars ≡ self.old.vars }
        ensures clauses { IfOk result (λ c.
            self.new.clauses ≡ self.old.clauses ++ new_clause c lits.now ∷ []) }
        ensures fresh { IfOk result (λ c. Contains (indexes self.old) c → ⊥) }
        ensures known { IfOk result (λ c. Contains (indexes self.new) c) }
        ensures lists { IfOk result (λ c. (l : Lit)
            → watch_list self.new l ≡ with_new c lits.now l (watch_list self.old l)) }
        ensures arena { OnOk result (IsArena self.new) }
        ensures err { OnErr result (self.new ≡ self.old) }
    {
        let (one, other) = watch_pair(lits);
        self.starts.reserve(1)?;
        self.words.reserve(LITS + lits.len())?;
        let one_link = link_of_new(&self.firsts, one, other, one);
        let other_link = link_of_new(&self.firsts, one, other, other);
        let index = self.words.len();
        push_clause(&mut self.words, lits, one, one_link, other, other_link);
        self.starts.push(index).unwrap();
        put_in_front(&mut self.firsts, index, one, other);
        Ok(index)
    }

    /// The number of variables, at most 2^30.
    pub fn vars(&self) -> u32
        ensures value { result ≡ self.now.vars }
        ensures small { result ≤ 2 ^ 30 }
        ensures arena { IsArena self.now }
    {
        self.vars
    }

    /// The number of clauses.
    pub fn len(&self) -> usize
        ensures { result ≡ length self.now.clauses }
    {
        self.starts.len()
    }

    /// Whether there is no clause.
    pub fn is_empty(&self) -> bool
        ensures { IsTrue result ↔ (self.now.clauses ≡ []) }
    {
        self.starts.is_empty()
    }

    /// The index of the k-th clause, counted from 0 in the order in which they were attached.
    pub fn at(&self, k: usize) -> usize
        requires { k < length self.now.clauses }
        ensures clause { slice_get self.now.clauses k ≡ Some (clause_at self.now result) }
        ensures index { slice_get (indexes self.now) k ≡ Some result }
        ensures known { Contains (indexes self.now) result }
    {
        self.starts[k]
    }

    /// The number of a clause's literals.
    pub fn size(&self, clause: usize) -> usize
        requires { Contains (indexes self.now) clause }
        ensures { result ≡ length (clause_at self.now clause).lits }
    {
        self.words[clause + SIZE]
    }

    /// The k-th literal of a clause, counted from 0.
    pub fn literal(&self, clause: usize, k: usize) -> Lit
        requires known { Contains (indexes self.now) clause }
        requires in_bounds { k < length (clause_at self.now clause).lits }
        ensures literal { slice_get (clause_at self.now clause).lits k ≡ Some result }
        ensures in_range { IsTrue (is_below self.now.vars result) }
    {
        lit_at(&self.words, clause + LITS + k)
    }

    /// The two literals that a clause watches. They are the same where it has fewer than two different literals.
    pub fn watches(&self, clause: usize) -> (Lit, Lit)
        requires { Contains (indexes self.now) clause }
        ensures one { result.0 ≡ (clause_at self.now clause).one }
        ensures other { result.1 ≡ (clause_at self.now clause).other }
        ensures in_range { result.0 ≢ result.1
            → IsTrue (is_below self.now.vars result.0) × IsTrue (is_below self.now.vars result.1) }
    {
        (
            lit_at(&self.words, clause),
            lit_at(&self.words, clause + OTHER),
        )
    }

    /// The first clause of a literal's list, or None where the list is empty.
    pub fn first(&self, lit: Lit) -> Option<usize>
        requires { IsTrue (is_below self.now.vars lit) }
        ensures { result ≡ first_of (watch_list self.now lit) }
    {
        linked_index(self.firsts[lit.0 as usize])
    }

    /// The clause after another in a literal's list, or None at its end.
    pub fn next(&self, lit: Lit, clause: usize) -> Option<usize>
        requires in_range { IsTrue (is_below self.now.vars lit) }
        requires member { Contains (watch_list self.now lit) clause }
        ensures { result ≡ next_in (watch_list self.now lit) clause }
    {
        linked_index(self.words[slot(&self.words, lit, clause)])
    }

    /// Lets a clause watch another of its literals, `to`, in place of one that it watches, `lit`. It goes from the list
    /// of `lit` to the front of that of `to`.
    ///
    /// It walks along the list of `lit` to the clause: `move_after` does not.
    pub fn move_watch(&mut self, lit: Lit, clause: usize, to: Lit)
        requires lit { IsTrue (is_below self.old.vars lit) }
        requires to { IsTrue (is_below self.old.vars to) }
        requires known { Contains (indexes self.old) clause }
        requires watches { IsWatching (clause_at self.old clause) lit }
        requires holds { IsTrue (is_among (clause_at self.old clause).lits to) }
        requires unwatched { IsWatching (clause_at self.old clause) to → ⊥ }
        ensures vars { self.new.vars ≡ self.old.vars }
        ensures clauses { self.new.clauses ≡ map (with_watch clause lit to) self.old.clauses }
        ensures to { watch_list self.new to ≡ clause ∷ watch_list self.old to }
        ensures lit { watch_list self.new lit ≡ without clause (watch_list self.old lit) }
        ensures others { (l : Lit) → l ≢ lit → l ≢ to
            → watch_list self.new l ≡ watch_list self.old l }
        ensures arena { IsArena self.new }
    {
        let before = self.before(lit, clause);
        self.move_after(lit, before, clause, to);
    }

    /// Lets a clause watch `to` in place of `lit`, given the clause `before` it in the list of `lit` (`None` where it
    /// is the first). It goes from the list of `lit` to the front of that of `to`.
    pub fn move_after(&mut self, lit: Lit, before: Option<usize>, clause: usize, to: Lit)
        requires lit { IsTrue (is_below self.old.vars lit) }
        requires to { IsTrue (is_below self.old.vars to) }
        requires behind { IsBehind (watch_list self.old lit) before clause }
        requires holds { IsTrue (is_among (clause_at self.old clause).lits to) }
        requires unwatched { IsWatching (clause_at self.old clause) to → ⊥ }
        ensures vars { self.new.vars ≡ self.old.vars }
        ensures clauses { self.new.clauses ≡ map (with_watch clause lit to) self.old.clauses }
        ensures to { watch_list self.new to ≡ clause ∷ watch_list self.old to }
        ensures lit { watch_list self.new lit ≡ without clause (watch_list self.old lit) }
        ensures others { (l : Lit) → l ≢ lit → l ≢ to
            → watch_list self.new l ≡ watch_list self.old l }
        ensures arena { IsArena self.new }
    {
        relink(&mut self.words, &mut self.firsts, lit, before, clause, to);
    }

    /// The clause before another in the list of a literal that this one watches.
    fn before(&self, lit: Lit, clause: usize) -> Option<usize>
        requires lit { IsTrue (is_below self.now.vars lit) }
        requires known { Contains (indexes self.now) clause }
        requires watches { IsWatching (clause_at self.now clause) lit }
        ensures { IsBehind (watch_list self.now lit) result clause }
    {
        predecessor(&self.words, lit, self.firsts[lit.0 as usize], clause)
    }
}
