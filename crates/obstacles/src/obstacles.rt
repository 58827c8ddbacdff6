//! What is asked of a step while a sheet is planned.

ghost use Rattle.std.specs.Prelude.{◌≡◌, ℕ, List, IfErr, IfNone, IfOk, IfSome, length};
ghost use Rattle.obstacles.specs.Blocking.{IsBlockedBy};
ghost use Rattle.obstacles.specs.Bounds.{AreWithin, IsReached};
ghost use Rattle.obstacles.specs.declared.stopped.Stopped.TheVariants.{Work};
ghost use Rattle.order_laws.specs.Edits.{Edit};
ghost use Rattle.plan_laws.specs.Plannable.{IsPlannable};
ghost use Rattle.step_laws.specs.Free.{Answered, AreAmong, AreTrue, IsFree};
ghost use Rattle.step_laws.specs.Steps.{HasStep, IsStep};

use crate::obstacle::Obstacle;
use crate::stopped::Stopped;
use indexed_sheet::IndexedSheet;
use step_laws::Step;

/// What blocks the steps of a sheet, by answers for pairs of selectors. The answers become more and more.
pub trait Obstacles {
    /// The answers so far.
    ghost answers: { Self → List Answered };

    /// The budget for each pair of selectors that is compared, in learned clauses.
    ghost budget: { Self → ℕ };

    /// The answers are true: selectors that are answered to be apart do not meet. It does nothing.
    fn answers_are_true(&self)
        ensures { AreTrue (answers self.now) };

    /// How many answers there are so far.
    fn held(&self) -> usize
        ensures { result ≡ length (answers self.now) };

    /// What blocks a step of an indexed sheet, and `None` exactly where it is free. No answer is asked for where
    /// `most_answers` are held, if there is such a bound. All that was answered stays, and the budget.
    ///
    /// - `Stopped::Memory` where memory runs out.
    /// - `Stopped::Work` only where `most_answers` or more are held, and one more is needed.
    fn obstacle(
        &mut self,
        indexed: &IndexedSheet,
        step: &Step,
        most_answers: Option<usize>,
    ) -> Result<Option<Obstacle>, Stopped>
        requires is_step { HasStep indexed.now.items step.now }
        requires plannable { (source : List ℕ) × IsPlannable source indexed.now.items }
        ensures asked { AreAmong (answers self.old) (answers self.new) }
        ensures same_budget { budget self.new ≡ budget self.old }
        ensures within { AreWithin most_answers (length (answers self.old)) (length (answers self.new)) }
        ensures stopped { IfErr result (λ e. e ≡ Work → IsReached most_answers (length (answers self.new))) }
        ensures free { IfOk result (λ found. IfNone found ((e : Edit) → IsStep indexed.now.items step.now e → IsFree (answers self.new) indexed.now.items e)) }
        ensures blocked { IfOk result (λ found. IfSome found (λ o. IsBlockedBy (answers self.new) indexed.now.items step.now o)) };
}
