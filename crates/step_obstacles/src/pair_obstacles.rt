//! Answers for pairs of selectors, by which steps are free or blocked.

ghost use Rattle.std.specs.Prelude.{◌≡◌};

use crate::bounded_pairs::BoundedPairs;
use crate::held::{answers_are_true, count_answers, reason};
use crate::hints::{Hints, no_hints};
use crate::step_search::step_obstacle;
use indexed_sheet::IndexedSheet;
use obstacles::{Obstacle, Obstacles, Stopped};
use overlap::Pairs;
use std::alloc::Global;
use std::marker::Model;
use step_laws::Step;

/// The answers for pairs of selectors by which steps are free or blocked. Those that decide whether a step is free are
/// asked for. What blocked is looked at first the next time.
#[derive(Debug, Drop)]
pub struct PairObstacles {
    alloc: Global,
    bounded: BoundedPairs,
    hints: Hints,
}

impl Model for PairObstacles {
    ghost use Rattle.overlap.specs.PairsParts.{PairsParts};

    ghost Value = { PairsParts };

    ghost view = { λ obstacles. record { budget = obstacles.bounded.budget; answers = obstacles.bounded.answers } };
}

impl PairObstacles {
    /// The obstacles by these answers.
    pub fn new(alloc: Global, pairs: Pairs) -> PairObstacles
        ensures { result ≡ pairs }
    {
        PairObstacles {
            alloc,
            bounded: BoundedPairs { pairs, most: None },
            hints: no_hints(alloc),
        }
    }

    /// The answers that it holds.
    pub fn into_pairs(self) -> Pairs
        ensures { result ≡ self }
    {
        self.bounded.pairs
    }
}

impl Obstacles for PairObstacles {
    ghost use Rattle.std.specs.Prelude.{map};
    ghost use Rattle.sheet_order.specs.Laws.{answer_seen};

    ghost answers = { λ obstacles. map answer_seen obstacles.answers };

    ghost budget = { λ obstacles. obstacles.budget };

    fn answers_are_true(&self) {
        answers_are_true(&self.bounded.pairs);
    }

    fn held(&self) -> usize {
        count_answers(&self.bounded.pairs)
    }

    fn obstacle(
        &mut self,
        indexed: &IndexedSheet,
        step: &Step,
        most_answers: Option<usize>,
    ) -> Result<Option<Obstacle>, Stopped> {
        self.bounded.most = most_answers;
        match step_obstacle(
            self.alloc,
            &mut self.bounded,
            &mut self.hints,
            indexed,
            step,
        ) {
            Ok(found) => Ok(found),
            Err(stopped) => Err(reason(&self.bounded, stopped)),
        }
    }
}
