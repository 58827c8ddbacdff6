//! The next priorities in the scope of a candidate. They are queued instead of it after it is passed.

ghost use Rattle.std.specs.Prelude.{◌≡◌, ◌∷◌, ◌+◌, ◌<◌, ◌≤◌, List, ℕ, IfOk, IfSome, OnOk, Some, false, length, slice_get};
ghost use Rattle.std.specs.List.{Contains};
ghost use Rattle.pending_laws.specs.Candidates as pending;
ghost use Rattle.queue_laws.specs.Known.{IsFollowed};
ghost use Rattle.planner.specs.Following.{AreBarredOff, Follows, IsSeen};
ghost use Rattle.step_queue.specs.Told.{alone, candidate_told};
ghost use Rattle.step_queue.specs.declared.candidate.Candidate as declared;
ghost use Rattle.step_queue.specs.Weights.{is_alone, room, total, weight};
ghost use Rattle.plan_laws.specs.Cover.{IsSooner};
ghost use Rattle.planner_state.specs.State.{IsIndexed};
ghost use Rattle.plan_laws.specs.Barrier.Hindering.{Watched};

use next_step::{Looked, Seen, View, next_candidates};
use planner_state::Plan;
use saved_bytes::KnownLengths;
use std::alloc::{AllocError, Global};
use step_queue::{Candidate, Queue, Scope, later_weighs_less};

/// Returns the order key under an item id. If there is none, it returns any number.
fn home_of(homes: &[u64], item_id: u32) -> u64
    ensures { (order_key : ℕ) → slice_get homes.now item_id ≡ Some order_key → result ≡ order_key }
{
    match homes.get(item_id as usize) {
        Some(order_key) => *order_key,
        None => 0,
    }
}

/// Returns the next priorities in the scope of a candidate, and what was seen of an item, if anything was.
fn next_of(
    alloc: Global,
    source: &KnownLengths<'_>,
    plan: &Plan,
    candidate: &Candidate,
) -> Result<Looked, AllocError>
    requires { IsIndexed source.now plan.now }
    ensures follows { IfOk result (λ l. Follows source.now plan.now candidate.now l.found) }
    ensures seen { IfOk result (λ l. IfSome l.seen (IsSeen plan.now.indexed.items)) }
{
    let at = home_of(&plan.homes, candidate.owner);
    let view = View {
        alloc,
        indexed: &plan.indexed,
        tables: &plan.tables,
        source,
        weights: &plan.weights,
        barriers: &plan.barriers,
        after: candidate,
    };
    next_candidates(alloc, &view, at)
}

/// Notes what was seen of an item. The plan stays the same.
fn note_seen(plan: &mut Plan, seen: Option<Seen>) -> Result<(), AllocError>
    requires { IfSome seen (IsSeen plan.old.indexed.items) }
    ensures { plan.new ≡ plan.old }
{
    match seen {
        Some(seen) => plan.indexed.note(seen.number, seen.facts),
        None => Ok(()),
    }
}

/// Queues a priority for its step alone. The candidates stay.
fn queue_alone(queue: &mut Queue, candidate: &Candidate) -> Result<(), AllocError>
    ensures stay { (l : pending.Candidate) → Contains queue.old l → Contains queue.new l }
    ensures added { OnOk result (Contains queue.new (alone candidate.now)) }
    ensures weighs { OnOk result (total queue.new ≤ total queue.old + 1) }
{
    queue.add(Candidate {
        scope: Scope::Alone,
        room: 0,
        ..*candidate
    })
}

/// Queues candidates, each for its step alone. The others stay.
fn queue_all_alone(queue: &mut Queue, candidates: &[Candidate]) -> Result<(), AllocError>
    ensures stay { (l : pending.Candidate) → Contains queue.old l → Contains queue.new l }
    ensures added { OnOk result ((l : declared.Candidate) → Contains candidates.now l → Contains queue.new (alone l)) }
    ensures weighs { OnOk result (total queue.new ≤ total queue.old + length candidates.now) }
{
    let mut rest = candidates;
    'rest: while let Some((first, behind)) = rest.split_first() {
        queue_alone(queue, first)?;
        rest = behind;
    }
    Ok(())
}

/// Queues the first of the other priorities after a candidate for the others, if there are some.
fn add_others(
    queue: &mut Queue,
    candidate: &Candidate,
    others: Option<Candidate>,
) -> Result<(), AllocError>
    requires all { is_alone (candidate_told candidate.now).scope ≡ false }
    requires others_all { IfSome others (λ n. is_alone (candidate_told n).scope ≡ false) }
    requires later { IfSome others (λ n. IsSooner (candidate_told candidate.now).priority (candidate_told n).priority) }
    ensures stay { (l : pending.Candidate) → Contains queue.old l → Contains queue.new l }
    ensures added { OnOk result (IfSome others (λ n. Contains queue.new (candidate_told n))) }
    ensures less { OnOk result (total queue.new + room < total queue.old + weight (candidate_told candidate.now)) }
{
    match others {
        Some(next) => {
            later_weighs_less(candidate, &next);
            queue.add(next)
        }
        None => {
            later_weighs_less(candidate, candidate);
            Ok(())
        }
    }
}

/// Queues candidates for the later steps in the scope of a candidate that is queued no more.
/// Each of these steps is then queued or on the watch list, if the joins past barriers are. Only the candidates of the plan change. Those that
/// were queued stay. All of them weigh less than before with the candidate.
pub(crate) fn follow(
    alloc: Global,
    source: &KnownLengths<'_>,
    plan: &mut Plan,
    candidate: &Candidate,
) -> Result<(), AllocError>
    requires { IsIndexed source.now plan.old }
    ensures same { OnOk result (plan.new ≡ record plan.old { candidates = plan.new.candidates }) }
    ensures stay { OnOk result ((l : pending.Candidate) → Contains plan.old.candidates l → Contains plan.new.candidates l) }
    ensures followed { OnOk result ((watched : List Watched) → AreBarredOff source.now plan.old plan.new.candidates watched
        → IsFollowed source.now plan.old.indexed (candidate_told candidate.now ∷ plan.old.candidates) plan.new.candidates watched (candidate_told candidate.now)) }
    ensures less { OnOk result (total plan.new.candidates < total plan.old.candidates + weight (candidate_told candidate.now)) }
{
    if candidate.is_alone() {
        later_weighs_less(candidate, candidate);
        return Ok(());
    }
    let Looked { found, seen } = next_of(alloc, source, plan, candidate)?;
    note_seen(plan, seen)?;
    queue_all_alone(&mut plan.queue, &found.candidates)?;
    add_others(&mut plan.queue, candidate, found.others)
}
