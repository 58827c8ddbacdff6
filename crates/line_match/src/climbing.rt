//! From the root's children down to the marked line.

ghost use Rattle.std.specs.Prelude.{◌≡◌, ◌<◌, ◌≤◌, ◌+◌, ◌^◌, IfOk, map, Bool, true};
ghost use Rattle.css_model.specs.Documents.FeatureParts.{FeatureParts};
ghost use Rattle.css_model.specs.Documents.Features.{element_of};
ghost use Rattle.css_model.specs.Documents.RunDocuments.{is_below};
ghost use Rattle.cascade_laws.specs.Eval.Climbing.{climbed, count_at, has_one_at, root_reached, standings_of};
ghost use Rattle.cascade_laws.specs.Eval.Reaching.{from_child, is_reached, located, passed};
ghost use Rattle.cascade_laws.specs.Eval.Repeating.{Repeats};
ghost use Rattle.line_match.specs.Runs.{run_tests};

use crate::counts::{count_at, has_one_at, is_below};
use crate::passing::{Run, behind_run};
use crate::reaching::{all_from_child, at_root, is_reached, located};
use crate::recurrence::{Recurrence, recurrence_of};
use cascade_laws::Reached;
use css_model::{RunLine, Selector};
use element_tests::Whereabouts;
use std::alloc::{AllocError, Global};

/// What a selector finds at the root, which these other lines follow.
pub(crate) fn root_reached(
    alloc: Global,
    selector: &Selector,
    root_is_child: bool,
    root: &RunLine,
    lines: &[RunLine],
) -> Result<Vec<Reached>, AllocError>
    ensures { IfOk result (λ found. found.items ≡
        root_reached root_is_child selector.now.chain selector.now.links root.now lines.now) }
{
    let place = Whereabouts {
        before: 0,
        behind: 0,
        is_root: true,
        is_child: root_is_child,
        has_children: has_one_at(lines, 1),
    };
    let reached = at_root(alloc, selector.chain.as_slice())?;
    located(alloc, selector, &root.element, &place, reached.as_slice())
}

/// What a selector finds at an element of a line, which these other lines follow.
fn line_reached(
    alloc: Global,
    selector: &Selector,
    line: &RunLine,
    lines: &[RunLine],
    depth: u64,
    before: u128,
    reached: &[Reached],
) -> Result<Vec<Reached>, AllocError>
    requires before { before < 2 ^ 99 }
    requires depth { depth < 2 ^ 60 }
    ensures { IfOk result (λ found. found.items ≡
        located (run_tests selector.now.chain line.now.element (has_one_at lines.now (depth + 1)) before (count_at lines.now depth)) selector.now.links reached.now) }
{
    let place = Whereabouts {
        before,
        behind: count_at(lines, depth),
        is_root: false,
        is_child: true,
        has_children: has_one_at(lines, depth + 1),
    };
    located(alloc, selector, &line.element, &place, reached)
}

/// What is known after the elements of a line, which these other lines follow.
fn line_passed(
    alloc: Global,
    selector: &Selector,
    recurrence: &Recurrence,
    line: &RunLine,
    lines: &[RunLine],
    depth: u64,
    before: u128,
    reached: &[Reached],
) -> Result<Vec<Reached>, AllocError>
    requires before { before < 2 ^ 99 }
    requires depth { depth < 2 ^ 60 }
    requires moves { 0 < recurrence.now.period }
    requires near { recurrence.now.threshold < 2 ^ 32 }
    requires repeats { recurrence.now.period < 2 ^ 32 → (element : FeatureParts) (has_children : Bool) →
        Repeats (run_tests selector.now.chain element has_children) recurrence.now.threshold recurrence.now.period }
    ensures { IfOk result (λ seen. seen.items ≡
        passed (run_tests selector.now.chain line.now.element (has_one_at lines.now (depth + 1))) selector.now.links line.now.count before (count_at lines.now depth) reached.now) }
{
    let run = Run {
        selector,
        element: &line.element,
        has_children: has_one_at(lines, depth + 1),
    };
    let behind = count_at(lines, depth);
    behind_run(alloc, &run, recurrence, line.count, before, behind, reached)
}

/// Whether a selector matches at the line of this number among these. The lines begin after the root; it goes on from
/// what was known before the first of them was looked at.
pub(crate) fn climb(
    alloc: Global,
    selector: &Selector,
    lines: &[RunLine],
    marked: u32,
    reached: Vec<Reached>,
) -> Result<bool, AllocError>
    ensures { IfOk result (λ found. found ≡
        climbed selector.now.chain selector.now.links lines.now (standings_of lines.now 1 marked) 0 reached.items) }
{
    let recurrence = recurrence_of(selector);
    let mut left = lines;
    let mut number = marked;
    let mut depth = 1u64;
    let mut before = 0u128;
    let mut known = reached;
    while let Some((line, behind)) = left.split_first() {
        if number == 0 {
            let found = line_reached(
                alloc,
                selector,
                line,
                behind,
                depth,
                before,
                known.as_slice(),
            )?;
            return Ok(is_reached(found.as_slice()));
        }
        number -= 1;
        if u64::from(line.depth) == depth {
            if is_below(behind, depth, number) {
                let found = line_reached(
                    alloc,
                    selector,
                    line,
                    behind,
                    depth,
                    before,
                    known.as_slice(),
                )?;
                known = all_from_child(alloc, found.as_slice())?;
                before = 0;
                depth += 1;
            } else {
                known = line_passed(
                    alloc,
                    selector,
                    &recurrence,
                    line,
                    behind,
                    depth,
                    before,
                    known.as_slice(),
                )?;
                before += u128::from(line.count);
            }
        }
        left = behind;
    }
    Ok(false)
}
