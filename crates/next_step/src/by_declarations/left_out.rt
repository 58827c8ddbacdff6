//! Declarations that are left out while partners of the focus are looked for.
//! A rule that has only light declarations in common with the focus has no step with it that comes before those that were found.

ghost use Rattle.std.specs.Prelude.{◌≡◌, ◌+◌, ◌<◌, ◌≤◌, ℕ, IfSome, true};
ghost use Rattle.plan_laws.specs.Barrier.Hindering.{priority_of};
ghost use Rattle.rule_tables.specs.Ahead.{IsAhead, Reaches, count_left};
ghost use Rattle.step_laws.specs.declared.step.Step as declared;
ghost use Rattle.next_step.specs.LeftOut.{AreTooLight, LeavesLight, TellCommonBeside};
ghost use Rattle.next_step.specs.Looking.{ReachesLast};
ghost use Rattle.next_step.specs.Viewed.{IsFocus, IsView};

use crate::queue::found::Found;
use crate::too_late::by_weights::weight_at;
use crate::view::{Focus, View};
use pending_laws::priorities_are_ordered;
use rule_tables::{Ahead, Common, Met};
use step_queue::Candidate;

/// No declarations.
pub(crate) fn none_left_out() -> Common
    ensures { result ≡ record { count = 0; weight = 0 } }
{
    Common {
        count: 0,
        weight: 0,
    }
}

/// How much a step may save, at most, and not come before the first of the others, whatever the step is.
fn saving_below(others: &Option<Candidate>) -> u64
    ensures late { (n : ℕ) (k : declared.Step) → 0 < n → n ≤ result → ReachesLast others.now (priority_of n k) }
    ensures small { result < 4294967296 }
{
    priorities_are_ordered();
    match others {
        Some(other) => u64::from(other.saving.0.saturating_sub(1)),
        None => 0,
    }
}

/// Whether what two rules have in common weighs the same in both: each rule has each of its declarations once, and prints it as
/// it tells. It must also be known that no other rule has a selector of the focus.
fn can_be_weighed(view: &View<'_>, focus: &Focus<'_>) -> bool
    ensures own { result ≡ true → focus.now.own_selectors ≡ true }
    ensures once { result ≡ true → view.now.weights.now.once ≡ true }
    ensures plain { result ≡ true → view.now.weights.now.plain ≡ true }
{
    focus.own_selectors && view.weights.once() && view.weights.plain()
}

/// The declarations of the focus that may be left out, at most. A rule that has no more in common with the focus has no step by
/// declarations with it that comes before the first of the others. `None` if nothing may be left out.
fn most_left_out(view: &View<'_>, focus: &Focus<'_>, found: &Found) -> Option<Common>
    requires view { IsView view.now }
    requires focus { IsFocus view.now focus.now }
    ensures { IfSome result (AreTooLight view.now focus.now found.now) }
{
    let _marks = view.indexed.marks();
    if !can_be_weighed(view, focus) {
        return None;
    }
    let ours = weight_at(view, focus.number);
    if ours.least == 0 || ours.count == 0 {
        return None;
    }
    let spare = saving_below(&found.others);
    Some(Common {
        count: (ours.count - 1) as usize,
        weight: u64::from(ours.least) + spare,
    })
}

/// Whether some declarations are no more than others, and weigh no more.
fn are_within(left: Common, most: Common) -> bool
    ensures count { result ≡ true → left.count ≤ most.count }
    ensures weight { result ≡ true → left.weight ≤ most.weight }
{
    left.count <= most.count && left.weight <= most.weight
}

/// Leaves out lists of order keys whose declarations weigh little. Returns all declarations that are left out then; those of `left`
/// were left out before. It does so only if they may weigh more than `spare`, and renews that.
pub(crate) fn leave_out_light(
    view: &View<'_>,
    focus: &Focus<'_>,
    found: &Found,
    order_keys: &mut Ahead<'_>,
    left: Common,
    spare: &mut u64,
) -> Common
    requires view { IsView view.now }
    requires focus { IsFocus view.now focus.now }
    requires common { (x : ℕ) → IsAhead order_keys.old x → TellCommonBeside view.now focus.now order_keys.old left x }
    ensures leaves { LeavesLight view.now focus.now found.now order_keys.old left order_keys.new result }
    ensures no_more { count_left order_keys.new ≤ count_left order_keys.old }
{
    let Some(most) = most_left_out(view, focus, found) else {
        return left;
    };
    if most.weight <= *spare {
        return left;
    }
    *spare = most.weight;
    if !are_within(left, most) {
        return left;
    }
    order_keys.leave_out(left, most)
}

/// The same order key, with the declarations of `left` besides.
pub(crate) fn met_beside(met: Met, left: Common) -> Met
    ensures order_key { result.order_key ≡ met.order_key }
    ensures count { Reaches result.common.count (met.common.count + left.count) }
    ensures weight { Reaches result.common.weight (met.common.weight + left.weight) }
{
    Met {
        order_key: met.order_key,
        common: met.common.with(left),
    }
}
