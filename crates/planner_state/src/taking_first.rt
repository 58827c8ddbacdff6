//! The first of the candidates.

ghost use Rattle.std.specs.Prelude.{◌≡◌, ◌∷◌, [], ℕ, IfNone, IfSome, List};
ghost use Rattle.std.specs.List.{Contains};
ghost use Rattle.pending_laws.specs.Candidates as pending;
ghost use Rattle.step_queue.specs.Told.{candidate_told};
ghost use Rattle.plan_laws.specs.Cover.{IsSooner};
ghost use Rattle.planner_state.specs.State.{IsQueuedBy, IsState};
ghost use Rattle.step_laws.specs.Free.{Answered};

use crate::barriers::take_down_of;
use crate::plan::Plan;
use step_queue::Candidate;

impl Plan {
    /// Takes out the first of the candidates, or returns `None` if there is none.
    /// No other of them comes before it. Only the candidates and the barriers change. If the plan was a state, a step that saves
    /// bytes is on the watch list, or this candidate or one of those that are left stands for it.
    pub fn take_first(&mut self) -> Option<Candidate>
        ensures same { self.new ≡ record self.old { candidates = self.new.candidates; barriers = self.new.barriers } }
        ensures taken { IfSome result (λ l. self.old.candidates ≡ candidate_told l ∷ self.new.candidates) }
        ensures first { IfSome result (λ l. (other : pending.Candidate) → Contains self.old.candidates other → IsSooner other.priority (candidate_told l).priority → ⊥) }
        ensures queued { IfSome result (λ l. (answers : List Answered) (source : List ℕ) → IsState answers source self.old
            → IsQueuedBy answers source self.new (candidate_told l ∷ self.new.candidates)) }
        ensures none { IfNone result (self.old.candidates ≡ []) }
        ensures stays { IfNone result ((answers : List Answered) (source : List ℕ) → IsState answers source self.old → IsState answers source self.new) }
    {
        let candidate = self.queue.take_first()?;
        take_down_of(&mut self.barriers, &candidate);
        Some(candidate)
    }
}
