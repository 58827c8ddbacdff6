//! How much steps may save, at most, and come too late, by the order keys of their items.

ghost use Rattle.std.specs.Prelude.{◌≤◌, ℕ, IfSome};
ghost use Rattle.step_kinds.specs.StepsByKind.{step_of_kind};
ghost use Rattle.step_laws.specs.declared.step.Step as declared;
ghost use Rattle.next_step.specs.Late.{IsFrom};
ghost use Rattle.next_step.specs.LaterOrderKeys.{AreLateFrom};
ghost use Rattle.next_step.specs.Looking.{ReachesLast};
ghost use Rattle.plan_laws.specs.Barrier.Hindering.{priority_of};

use crate::queue::order::is_sooner;
use pending_laws::priorities_are_ordered;
use std::cmp::Reverse;
use step_kinds::Kind;
use step_queue::Candidate;

/// How much a step may save, at most, and not come before the first of the others. `None` if this is not known.
/// The step is of this kind with items of these order keys, or ranks after such a step.
pub(crate) fn most_behind(
    others: &Option<Candidate>,
    kind: Kind,
    first: u64,
    second: u64,
) -> Option<u64>
    ensures { IfSome result (λ most. (n : ℕ) (k : declared.Step) → n ≤ most → IsFrom (step_of_kind kind first second) k → ReachesLast others.now (priority_of n k)) }
{
    priorities_are_ordered();
    let Some(other) = others else {
        return None;
    };
    let saving = other.saving.0;
    let soonest = Candidate {
        saving: Reverse(saving),
        kind,
        first,
        second,
        owner: other.owner,
        scope: other.scope,
        room: other.room,
    };
    if !is_sooner(&soonest, other) {
        return Some(u64::from(saving));
    }
    if saving == 0 {
        return None;
    }
    Some(u64::from(saving - 1))
}

/// How much a step of the item with the order key `at` may save, at most, and not come before the first of the others.
/// `None` if this is not known. The other item of the step has this order key or a later one on the same side of `at`. The step is
/// of this kind, or ranks after the one of this kind and these order keys.
pub(crate) fn most_beside(
    others: &Option<Candidate>,
    kind: Kind,
    at: u64,
    order_key: u64,
) -> Option<u64>
    ensures { IfSome result (AreLateFrom others.now kind at order_key) }
{
    if order_key < at {
        most_behind(others, kind, order_key, at)
    } else {
        most_behind(others, kind, at, order_key)
    }
}
