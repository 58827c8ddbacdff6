//! What a source of bytes and a sink for them do.

ghost use Rattle.std.specs.Prelude.{◌≡◌, ◌+◌, ◌<◌, ◌≤◌, ◌++◌, ℕ, List, Option, Result, Some, drop, length, IfOk, OnErr};
ghost use Rattle.css_io.specs.Io.{Rose, GivesFirst, TakesFirst};
ghost use Rattle.css_io.specs.Messages.{failed};
ghost use Rattle.css_io.specs.declared.traits.Failed.{Failed};

use std::fmt;
use thiserror::Error;

/// A read or a write failed. The source or sink has counted it, unless its count was at its last value.
#[derive(Clone, Copy, Debug, PartialEq, Eq, Error)]
pub struct Failed;

impl fmt::Display for Failed {
    ghost output = { λ _. Some failed };

    fn fmt<W: fmt::Write>(&self, f: &mut fmt::Formatter<W>) -> fmt::Result {
        f.write_str("the read or write failed")
    }
}

/// Where bytes come from.
pub trait Source {
    // The bytes still to come, where they are known.
    ghost left: { Self → Option (List ℕ) };

    // How often reading failed. It never falls, and stays at 18,446,744,073,709,551,615.
    ghost faults: { Self → ℕ };

    // That one read may lead from a state to another with this answer. It decides what reading all does, read by
    // read, also over a source whose bytes are not known.
    ghost read_gives: { Self → Result ℕ Failed → Self → Type 0 };

    /// Reads into the front of `into`, and answers how many bytes that were.
    ///
    /// `Ok(0)` into a buffer with room comes exactly at the end of the input. `Failed` takes no byte away, and raises
    /// the count of faults.
    fn read(&mut self, into: &mut [u8]) -> Result<usize, Failed>
        ensures bytes { GivesFirst (left self.old) (left self.new) into.new result }
        ensures bound { IfOk result (λ n. n ≤ length into.new) }
        ensures later { faults self.old ≤ faults self.new }
        ensures cause { OnErr result (Rose (faults self.old) (faults self.new)) }
        ensures gives { read_gives self.old result self.new };
}

/// Where bytes go to.
pub trait Sink {
    // The bytes taken so far, where they are known.
    ghost written: { Self → Option (List ℕ) };

    // How often writing failed. It never falls, and stays at 18,446,744,073,709,551,615.
    ghost faults: { Self → ℕ };

    // That a piece may be written: always, but for a sink that never fails, where it has to fit.
    ghost fits: { Self → List ℕ → Type 0 };

    /// Writes some bytes of the front of `from`, and answers how many: one at least, unless `from` is empty. `Failed`
    /// writes nothing, and raises the count of faults.
    fn write(&mut self, from: &[u8]) -> Result<usize, Failed>
        requires { fits self.old from.now }
        ensures bytes { TakesFirst (written self.old) (written self.new) from.now result }
        ensures later { faults self.old ≤ faults self.new }
        ensures cause { OnErr result (Rose (faults self.old) (faults self.new)) }

        // The rest of the piece fits afterwards, and what fitted after the piece does too.
        ensures rest { IfOk result (λ n. fits self.new (drop n from.now)) }
        ensures more { IfOk result (λ n. (behind : List ℕ) → fits self.old (from.now ++ behind)
            → fits self.new (drop n from.now ++ behind)) };
}
