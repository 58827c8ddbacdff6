//! The lines of the document of a shape.

ghost use Rattle.std.specs.Prelude.{◌≡◌, ◌≤◌, ◌<◌, ◌+◌, ◌*◌, ◌^◌, ◌++◌, ◌∷◌, [], suc, ℕ, List, length, IfOk, OnOk};
ghost use Rattle.shape_laws.specs.Document.Trees.{plain};
ghost use Rattle.example_doc.specs.Lines.{
  AllFall,
  Falls,
  back_lines,
  depth_from,
  front_lines,
  height,
  line,
  lines_behind,
  lines_between,
  plain_line,
  rise,
  top_depth,
  top_lines,
};

use css_model::{Features, RunLine, Text};
use slot_plan::SlotStep;
use std::alloc::{AllocError, Global};

/// An element that no slot asks for.
fn plain(alloc: Global) -> Result<Features, AllocError>
    ensures { IfOk result (λ f. f ≡ plain) }
{
    let mut kind = Vec::new(alloc);
    kind.push('x')?;
    Ok(Features {
        kind: Text::new(kind),
        attrs: Vec::new(alloc),
        flags: 0,
        text: false,
    })
}

/// Appends the line of one element.
pub(crate) fn push_line(
    lines: &mut Vec<RunLine>,
    depth: u32,
    element: Features,
) -> Result<(), AllocError>
    ensures { OnOk result (lines.new.items ≡ lines.old.items ++ line depth element ∷ []) }
{
    lines.push(RunLine {
        depth,
        count: 1,
        element,
    })?;
    Ok(())
}

/// Appends the line of so many plain elements, if there are any.
pub(crate) fn push_plain(
    lines: &mut Vec<RunLine>,
    alloc: Global,
    depth: u32,
    count: u32,
) -> Result<(), AllocError>
    ensures { OnOk result (lines.new.items ≡ lines.old.items ++ plain_line depth count) }
{
    if count == 0 {
        return Ok(());
    }
    let element = plain(alloc)?;
    lines.push(RunLine {
        depth,
        count,
        element,
    })?;
    Ok(())
}

/// How many levels a step leads up.
fn rise(step: SlotStep) -> u32
    ensures { result ≡ rise step }
{
    match step {
        SlotStep::NextTo | SlotStep::Further => 0,
        SlotStep::UpOne => 1,
        SlotStep::UpMore => 2,
    }
}

/// Appends the lines in front of those of the last slot and its siblings, so many of which come before it.
fn push_top(
    lines: &mut Vec<RunLine>,
    alloc: Global,
    top_is_root: bool,
    before: u32,
) -> Result<(), AllocError>
    ensures { OnOk result (lines.new.items ≡ lines.old.items ++ top_lines top_is_root before) }
{
    if top_is_root {
        return Ok(());
    }
    let root = plain(alloc)?;
    push_line(lines, 0, root)?;
    push_plain(lines, alloc, 1, before)
}

/// Appends the lines between those of two slots, the second of which has this depth.
fn push_between(
    lines: &mut Vec<RunLine>,
    alloc: Global,
    step: SlotStep,
    depth: u32,
    before: u32,
    next: u32,
) -> Result<(), AllocError>
    requires fall { Falls step before next }
    requires low { depth < 2 ^ 31 }
    ensures { OnOk result (lines.new.items ≡ lines.old.items ++ lines_between step depth before next) }
{
    match step {
        SlotStep::NextTo | SlotStep::Further => push_plain(
            lines,
            alloc,
            depth,
            before - (next + 1),
        ),
        SlotStep::UpOne => push_plain(lines, alloc, depth + 1, before),
        SlotStep::UpMore => {
            let parent = plain(alloc)?;
            push_line(lines, depth + 1, parent)?;
            push_plain(lines, alloc, depth + 2, before)
        }
    }
}

/// Appends the lines in front of that of a slot, and gives its depth. So many siblings are before the slot. The steps
/// lead on from it; the numbers and the elements are those of the slots after it.
#[tactic(auto, using(crate::proofs::Heights::depth_small))]
pub(crate) fn push_front(
    lines: &mut Vec<RunLine>,
    alloc: Global,
    top_is_root: bool,
    steps: &[SlotStep],
    first: u32,
    before: &[u32],
    elements: &[Features],
) -> Result<u32, AllocError>
    requires fall { AllFall steps.now first before.now }
    requires elements { length elements.now ≡ length steps.now }
    requires few { length steps.now < 2 ^ 16 }
    ensures depth { IfOk result (λ depth. depth ≡ depth_from top_is_root steps.now) }
    ensures lines { OnOk result (lines.new.items
        ≡ lines.old.items ++ front_lines top_is_root steps.now first before.now elements.now) }
{
    let [step, steps @ ..] = steps else {
        push_top(lines, alloc, top_is_root, first)?;
        return Ok(top_depth(top_is_root));
    };
    let [next, before @ ..] = before else {
        unreachable!()
    };
    let [element, elements @ ..] = elements else {
        unreachable!()
    };
    let depth = push_front(lines, alloc, top_is_root, steps, *next, before, elements)?;
    let copy = element.copy()?;
    push_line(lines, depth, copy)?;
    push_between(lines, alloc, *step, depth, first, *next)?;
    Ok(depth + rise(*step))
}

/// The depth of the last slot.
fn top_depth(top_is_root: bool) -> u32
    ensures { result ≡ top_depth top_is_root }
{
    if top_is_root { 0 } else { 1 }
}

/// Appends the lines after a slot of this depth, what is in it and its siblings.
pub(crate) fn push_back(
    lines: &mut Vec<RunLine>,
    alloc: Global,
    depth: u32,
    steps: &[SlotStep],
    after: &[u32],
) -> Result<(), AllocError>
    requires depth { height steps.now ≤ depth }
    ensures { OnOk result (lines.new.items ≡ lines.old.items ++ back_lines depth steps.now after.now) }
{
    let [step, steps @ ..] = steps else {
        return Ok(());
    };
    let [behind, after @ ..] = after else {
        return Ok(());
    };
    let depth = depth - rise(*step);
    push_behind(lines, alloc, *step, depth, *behind)?;
    push_back(lines, alloc, depth, steps, after)
}

/// Appends the line of the siblings after a slot of this depth, if a step up leads to it.
fn push_behind(
    lines: &mut Vec<RunLine>,
    alloc: Global,
    step: SlotStep,
    depth: u32,
    behind: u32,
) -> Result<(), AllocError>
    ensures { OnOk result (lines.new.items ≡ lines.old.items ++ lines_behind step depth behind) }
{
    match step {
        SlotStep::NextTo | SlotStep::Further => Ok(()),
        SlotStep::UpOne | SlotStep::UpMore => push_plain(lines, alloc, depth, behind),
    }
}
