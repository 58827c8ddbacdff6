//! When the search begins again at level 0.
ghost use Rattle.std.specs.Prelude.{◌≡◌, List};
ghost use Rattle.sat_arena.specs.Arena.{WatchedClauses};
ghost use Rattle.sat_trail.specs.Trail.{IsTrail};
ghost use Rattle.sat_watch.specs.Numbered.{Numbered};
ghost use Rattle.sat_watch.specs.Soundness.{IsSound};
ghost use Rattle.sat_watch.specs.Watches.{IsReady};

use sat_trail::Trail;
use sat_watch::undo;

/// How many learned clauses are one unit of the sequence.
const UNIT: u32 = 100;

/// The sequence of Luby, Sinclair and Zuckerman (1993): 1, 1, 2, 1, 1, 2, 4 .., by Knuth's pair of numbers. No clause
/// says when a restart comes.
#[derive(Debug, Drop)]
pub(crate) struct Restarts {
    turn: u32,
    units: u32,
    // the clauses that are still learned before the next restart
    left: u32,
}

impl Restarts {
    /// The sequence from its first member.
    pub(crate) fn new() -> Restarts {
        Restarts {
            turn: 1,
            units: 1,
            left: UNIT,
        }
    }

    /// After one more learned clause, goes back to level 0 where the present member of the sequence is used up.
    pub(crate) fn after_learning(&mut self, trail: &mut Trail, head: &mut u32)
        ensures vars { trail.new.vars ≡ trail.old.vars }
        ensures ready { (a : WatchedClauses) → IsReady a trail.old head.old
            → IsReady a trail.new head.new }
        ensures sound { (ns : List Numbered) → IsTrail trail.old → IsSound ns trail.old
            → IsSound ns trail.new }
    {
        self.left = self.left.saturating_sub(1);
        if self.left == 0 {
            self.advance();
            undo(trail, head, 0);
        }
    }

    /// The next member of the sequence.
    fn advance(&mut self) {
        if self.turn & self.turn.wrapping_neg() == self.units {
            self.turn = self.turn.wrapping_add(1);
            self.units = 1;
        } else {
            self.units = self.units.saturating_mul(2);
        }
        self.left = self.units.saturating_mul(UNIT);
    }
}
