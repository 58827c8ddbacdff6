//! Along a run of equal elements.

ghost use Rattle.std.specs.Prelude.{◌≡◌, ◌<◌, ◌≤◌, ◌+◌, ◌-◌, ◌*◌, ◌^◌, ◌⊎◌, ◌↔◌, ℕ, IfOk, IsTrue, map, Bool, true};
ghost use Rattle.css_model.specs.Documents.FeatureParts.{FeatureParts};
ghost use Rattle.cascade_laws.specs.Eval.Reaching.{from_next, located, passed};
ghost use Rattle.cascade_laws.specs.Eval.Repeating.{Repeats};
ghost use Rattle.line_match.specs.Runs.{run_tests};

use crate::reaching::{all_from_next, located};
use crate::recurrence::Recurrence;
use cascade_laws::{Reached, repeating_changes_nothing};
use css_model::{Features, Selector};
use element_tests::Whereabouts;
use std::alloc::{AllocError, Global};

/// Elements side by side, and what they are asked.
#[derive(Clone, Copy)]
pub(crate) struct Run<'a> {
    pub(crate) selector: &'a Selector,
    pub(crate) element: &'a Features,
    pub(crate) has_children: bool,
}

/// What is known after an element, from what was known before it was looked at.
fn behind_one(
    alloc: Global,
    run: &Run<'_>,
    before: u128,
    behind: u128,
    reached: &[Reached],
) -> Result<Vec<Reached>, AllocError>
    requires before { before < 2 ^ 100 }
    requires behind { behind < 2 ^ 100 }
    ensures { IfOk result (λ seen. seen.items ≡ map from_next
        (located (run_tests run.now.selector.now.chain run.now.element.now run.now.has_children before behind) run.now.selector.now.links reached.now)) }
{
    let place = Whereabouts {
        before,
        behind,
        is_root: false,
        is_child: true,
        has_children: run.has_children,
    };
    let found = located(alloc, run.selector, run.element, &place, reached)?;
    all_from_next(alloc, found.as_slice())
}

/// What is known after so many elements, looked at one by one.
fn behind_each(
    alloc: Global,
    run: &Run<'_>,
    count: u64,
    before: u128,
    behind: u128,
    reached: &[Reached],
) -> Result<Vec<Reached>, AllocError>
    requires before { before + count < 2 ^ 100 }
    requires behind { behind + count < 2 ^ 100 }
    ensures { IfOk result (λ seen. seen.items ≡
        passed (run_tests run.now.selector.now.chain run.now.element.now run.now.has_children) run.now.selector.now.links count before behind reached.now) }
{
    let mut left = count;
    let mut at = before;
    let mut seen = Vec::from_slice(alloc, reached)?;
    while left > 0 {
        left -= 1;
        seen = behind_one(alloc, run, at, u128::from(left) + behind, seen.as_slice())?;
        at += 1;
    }
    Ok(seen)
}

/// What is known after a whole run. Where a period of elements leaves what is known as it was, the other periods do
/// too, and are not looked at.
pub(crate) fn behind_run(
    alloc: Global,
    run: &Run<'_>,
    recurrence: &Recurrence,
    count: u32,
    before: u128,
    behind: u128,
    reached: &[Reached],
) -> Result<Vec<Reached>, AllocError>
    requires before { before < 2 ^ 99 }
    requires behind { behind < 2 ^ 99 }
    requires moves { 0 < recurrence.now.period }
    requires near { recurrence.now.threshold < 2 ^ 32 }
    requires repeats { recurrence.now.period < 2 ^ 32 → (element : FeatureParts) (has_children : Bool) →
        Repeats (run_tests run.now.selector.now.chain element has_children) recurrence.now.threshold recurrence.now.period }
    ensures { IfOk result (λ seen. seen.items ≡
        passed (run_tests run.now.selector.now.chain run.now.element.now run.now.has_children) run.now.selector.now.links count before behind reached.now) }
{
    repeating_changes_nothing();
    let mut left = u64::from(count);
    let mut at = before;
    let mut seen = Vec::from_slice(alloc, reached)?;
    while left > 0 {
        if is_far(recurrence, left, at) {
            left -= recurrence.period;
            let later = behind_each(
                alloc,
                run,
                recurrence.period,
                at,
                u128::from(left) + behind,
                seen.as_slice(),
            )?;
            let same = is_same(later.as_slice(), seen.as_slice());
            let skipped = skipped(recurrence, same, left, behind);
            at += u128::from(recurrence.period) + u128::from(skipped);
            left -= skipped;
            seen = later;
        } else {
            left -= 1;
            seen = behind_one(alloc, run, at, u128::from(left) + behind, seen.as_slice())?;
            at += 1;
        }
    }
    Ok(seen)
}

/// Whether enough siblings are before an element, and a whole period is left.
fn is_far(recurrence: &Recurrence, left: u64, at: u128) -> bool
    ensures { IsTrue result ↔ (recurrence.now.threshold ≤ at) × (recurrence.now.period ≤ left) }
{
    recurrence.threshold <= at && recurrence.period <= left
}

/// How many of the elements that are left need not be looked at. They are as many periods as leave enough siblings
/// after them; none, where a period did not leave what is known as it was.
fn skipped(recurrence: &Recurrence, same: bool, left: u64, behind: u128) -> u64
    requires moves { 0 < recurrence.now.period }
    requires near { recurrence.now.threshold < 2 ^ 32 }
    requires behind { behind < 2 ^ 99 }
    ensures within { result ≤ left }
    ensures periods { (times : ℕ) × (result ≡ times * recurrence.now.period) }
    ensures same { (result ≡ 0) ⊎ ((same ≡ true) × (recurrence.now.threshold ≤ left - result + behind)) }
{
    let behind_last = u128::from(left) + behind;
    if !same || behind_last < recurrence.threshold {
        return 0;
    }
    let room = behind_last - recurrence.threshold;
    whole_periods(recurrence.period, left, room)
}

/// The greatest multiple of a period that is within both numbers.
fn whole_periods(period: u64, left: u64, room: u128) -> u64
    requires { 0 < period }
    ensures within { result ≤ left }
    ensures room { result ≤ room }
    ensures periods { (times : ℕ) × (result ≡ times * period) }
{
    let most = if room < u128::from(left) {
        room as u64
    } else {
        left
    };
    most / period * period
}

/// Whether the same is known.
fn is_same(a: &[Reached], b: &[Reached]) -> bool
    ensures { IsTrue result ↔ (a.now ≡ b.now) }
{
    a == b
}
