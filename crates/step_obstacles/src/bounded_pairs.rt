//! Answers for pairs of selectors, within a bound on how many are held.

ghost use Rattle.std.specs.Prelude.{◌↔◌, IsTrue, length};
ghost use Rattle.obstacles.specs.Bounds.{IsReached};

use overlap::Pairs;
use std::marker::Model;

/// Answers for pairs of selectors. If there is a bound, no new answer is asked for once so many are held.
#[derive(Debug, Drop)]
pub(crate) struct BoundedPairs {
    /// The answers.
    pub(crate) pairs: Pairs,
    /// How many may be held, if there is a bound.
    pub(crate) most: Option<usize>,
}

impl Model for BoundedPairs {
    ghost use Rattle.step_obstacles.specs.Asking.{AskedParts};

    ghost Value = { AskedParts };

    ghost view = { λ b. record { budget = b.pairs.budget; answers = b.pairs.answers; most = b.most } };
}

impl BoundedPairs {
    /// Whether there is a bound, and as many answers are held, or more.
    pub(crate) fn is_full(&self) -> bool
        ensures { IsTrue result ↔ IsReached self.now.most (length self.now.answers) }
    {
        match self.most {
            Some(most) => most <= self.pairs.held(),
            None => false,
        }
    }
}
