//! The candidates, in the order in which they come.

ghost use Rattle.std.specs.Prelude.{◌≡◌, ◌⊎◌, ◌+◌, ◌≤◌, [], ◌∷◌, IfNone, IfSome, OnErr, OnOk};
ghost use Rattle.std.specs.List.{Contains};
ghost use Rattle.pending_laws.specs.Candidates as pending;
ghost use Rattle.step_queue.specs.Told.{candidate_told};
ghost use Rattle.step_queue.specs.Weights.{total, weight};
ghost use Rattle.plan_laws.specs.Cover.{IsSooner};

use crate::candidate::Candidate;
use pending_laws::priorities_are_ordered;
use std::alloc::{AllocError, Global};
use std::collections::BTreeSet;
use std::marker::Model;

/// Candidates, each once. The one that comes before all others is the first.
#[derive(Drop)]
pub struct Queue {
    candidates: BTreeSet<Candidate>,
}

impl Model for Queue {
    ghost use Rattle.std.specs.Prelude.{List, map};
    ghost use Rattle.pending_laws.specs.Candidates as pending;
    ghost use Rattle.step_queue.specs.Told.{candidate_told};

    ghost Value = { List pending.Candidate };

    ghost view = { λ w. map candidate_told w.candidates.keys };
}

impl Queue {
    /// Returns the candidates at the start: none.
    pub fn new(alloc: Global) -> Queue
        ensures { result ≡ [] }
    {
        Queue {
            candidates: BTreeSet::new(alloc),
        }
    }

    /// Queues one more candidate. The others stay, also after `Err(AllocError)`.
    pub fn add(&mut self, candidate: Candidate) -> Result<(), AllocError>
        ensures stay { (l : pending.Candidate) → Contains self.old l → Contains self.new l }
        ensures added { OnOk result (Contains self.new (candidate_told candidate)) }
        ensures only { (l : pending.Candidate) → Contains self.new l → Contains self.old l ⊎ (l ≡ candidate_told candidate) }
        ensures weighs { OnOk result (total self.new ≤ total self.old + weight (candidate_told candidate)) }
    {
        self.candidates.insert(candidate)?;
        Ok(())
    }

    /// Takes out the first of the candidates, and returns it. None of them comes before it.
    /// It returns `None` if no candidate is queued.
    pub fn take_first(&mut self) -> Option<Candidate>
        ensures taken { IfSome result (λ l. self.old ≡ candidate_told l ∷ self.new) }
        ensures first { IfSome result (λ l. (other : pending.Candidate) → Contains self.old other → IsSooner other.priority (candidate_told l).priority → ⊥) }
        ensures none { IfNone result ((self.old ≡ []) × (self.new ≡ [])) }
    {
        priorities_are_ordered();
        self.candidates.pop_first()
    }
}
