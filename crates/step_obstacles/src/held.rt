//! What is held: it is true, and how much it is.

ghost use Rattle.std.specs.Prelude.{◌≡◌, length, map};
ghost use Rattle.obstacles.specs.Bounds.{IsReached};
ghost use Rattle.obstacles.specs.declared.stopped.Stopped.TheVariants as stops;
ghost use Rattle.sheet_order.specs.Laws.{answer_seen};
ghost use Rattle.step_laws.specs.Free.{AreTrue};

use crate::bounded_pairs::BoundedPairs;
use obstacles::Stopped;
use overlap::{Pairs, apart_selectors_do_not_meet};

/// Selectors that are answered to be apart do not meet. It does nothing.
pub(crate) fn answers_are_true(pairs: &Pairs)
    ensures { AreTrue (map answer_seen pairs.now.answers) }
{
    apart_selectors_do_not_meet();
    pairs.are_true();
}

/// How many answers are held.
pub(crate) fn count_answers(pairs: &Pairs) -> usize
    ensures { result ≡ length (map answer_seen pairs.now.answers) }
{
    pairs.held()
}

/// Why a look for what blocks stopped: `Work` only if as many answers are held as may be. A look says it nowhere else, but no
/// clause on the way tells so.
pub(crate) fn reason(bounded: &BoundedPairs, stopped: Stopped) -> Stopped
    ensures { result ≡ stops.Work → IsReached bounded.now.most (length bounded.now.answers) }
{
    match stopped {
        Stopped::Work if bounded.is_full() => Stopped::Work,
        _ => Stopped::Memory,
    }
}
