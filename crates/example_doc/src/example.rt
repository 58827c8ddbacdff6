//! The example of a shape.

ghost use Rattle.std.specs.Prelude.{◌≡◌, ◌≤◌, ◌<◌, ◌^◌, ◌∷◌, suc, length, IfOk};
ghost use Rattle.std.specs.List.{All, AllByRecursion};
ghost use Rattle.css_model.specs.Sheets.Limits.{max_compounds};
ghost use Rattle.compound_fit.specs.Conditions.{IsFittable};
ghost use Rattle.compound_fit.specs.Table.{IsTable, groups};
ghost use Rattle.shape_laws.specs.Document.Laws.{ShowsMeeting};
ghost use Rattle.shape_laws.specs.Document.Trees.{example_of, line_from, line_with, tree_with};
ghost use Rattle.cascade_laws.specs.Line.Runs.{lines_of};
ghost use Rattle.element_laws.specs.Names.{HaveNames};
ghost use Rattle.example_doc.specs.Built.{IsBuilt, most_lines};
ghost use Rattle.slot_plan.specs.Counts.{CountsFit};
ghost use Rattle.slot_plan.specs.ValidShape.{ValidShape};

use crate::elements::elements;
use crate::lines::{push_back, push_front, push_line, push_plain};
use compound_fit::FitTable;
use css_model::{Example, Features, Pseudo, RunDocument, RunLine};
use slot_plan::{PairPlan, Shape, SlotStep};
use std::alloc::{AllocError, Global};

/// The example of a shape that fits the two selectors of a plan: a legal document in which both match the marked
/// element, or its pseudo-element if they have one (Selectors 3, section 7). `fits` is the table of the two. Each has
/// at most twelve compounds, and all their types and attributes have names. `AllocError` where memory runs out.
///
/// - The element in slot 0 is marked. Those of the other slots are laid around it, with as many plain elements of the
///   type `x` before, between and after them as the shape says.
/// - The root is the last slot's element, or a plain one.
/// - The element of a slot has the features that the table gives for its compounds.
/// - It has text exactly where `:not(:empty)` is asked and it is no parent.
/// - Its id is a name of its own where an id is asked for, any will do and the empty one is refused: the first of `x`,
///   `x1`, `x2` .. that its slot does not refuse, that no compound of the two selectors asks for, and that no slot
///   before has got.
/// - The document has at most 4,095 lines.
pub fn build(
    alloc: Global,
    plan: &PairPlan,
    shape: &Shape,
    fits: &FitTable,
) -> Result<Example, AllocError>
    requires table { IsTable fits.now plan.now.left plan.now.right }
    requires fittable { All IsFittable (groups plan.now.left.chain plan.now.right.chain) }
    requires left_named { AllByRecursion HaveNames plan.now.left.chain }
    requires right_named { AllByRecursion HaveNames plan.now.right.chain }
    requires left_few { length plan.now.left.chain ≤ max_compounds }
    requires right_few { length plan.now.right.chain ≤ max_compounds }
    requires valid { ValidShape plan.now.left plan.now.right shape.now }
    ensures built { IfOk result (λ e. IsBuilt plan.now.left plan.now.right shape.now e) }
    ensures shows { IfOk result (λ e. ShowsMeeting plan.now.left plan.now.right e) }
    ensures few { IfOk result (λ e. length e.doc.lines ≤ most_lines) }
{
    let example = built(alloc, plan, shape, fits)?;
    Ok(example)
}

/// The example of the elements that are chosen for the slots.
fn built(
    alloc: Global,
    plan: &PairPlan,
    shape: &Shape,
    fits: &FitTable,
) -> Result<Example, AllocError>
    requires table { IsTable fits.now plan.now.left plan.now.right }
    requires few_left { length plan.now.left.chain ≤ max_compounds }
    requires few_right { length plan.now.right.chain ≤ max_compounds }
    requires valid { ValidShape plan.now.left plan.now.right shape.now }
    ensures { IfOk result (λ e. IsBuilt plan.now.left plan.now.right shape.now e) }
{
    let elements = elements(alloc, plan, shape, fits)?;
    let example = example_of(alloc, shape, elements.as_slice(), plan.left().pseudo)?;
    Ok(example)
}

/// The example of these elements.
fn example_of(
    alloc: Global,
    shape: &Shape,
    elements: &[Features],
    pseudo: Option<Pseudo>,
) -> Result<Example, AllocError>
    requires counts { CountsFit shape.now.steps shape.now.before shape.now.after }
    requires elements { length elements.now ≡ suc (length shape.now.steps) }
    requires few { length shape.now.steps < 2 ^ 16 }
    ensures { IfOk result (λ e. e ≡ example_of pseudo shape.now elements.now) }
{
    let (lines, marked) = written(
        alloc,
        shape.top_is_root,
        shape.steps.as_slice(),
        shape.before.as_slice(),
        shape.after.as_slice(),
        elements,
    )?;
    Ok(Example {
        doc: RunDocument {
            root_is_child: shape.root_is_child,
            lines,
        },
        marked,
        pseudo,
    })
}

/// The lines of an example, and the number of the marked one. They are made of the steps of a shape, of the numbers of
/// siblings before and after the slots, and of their elements.
#[tactic(auto, using(crate::proofs::Written::counts_some))]
fn written(
    alloc: Global,
    top_is_root: bool,
    steps: &[SlotStep],
    before: &[u32],
    after: &[u32],
    elements: &[Features],
) -> Result<(Vec<RunLine>, u32), AllocError>
    requires counts { CountsFit steps.now before.now after.now }
    requires elements { length elements.now ≡ suc (length steps.now) }
    requires few { length steps.now < 2 ^ 16 }
    ensures lines { IfOk result (λ r. r.0.items
        ≡ lines_of 0 (tree_with top_is_root steps.now before.now after.now elements.now)) }
    ensures marked { IfOk result (λ r. r.1 ≡ line_with top_is_root steps.now before.now) }
{
    let [first, before @ ..] = before else {
        unreachable!()
    };
    let [behind, after @ ..] = after else {
        unreachable!()
    };
    let [element, elements @ ..] = elements else {
        unreachable!()
    };
    let start = Start {
        before: *first,
        after: *behind,
        element,
    };
    written_around(alloc, top_is_root, steps, &start, before, after, elements)
}

/// What is said of slot 0.
#[derive(Clone, Copy)]
struct Start<'a> {
    /// How many siblings are before it.
    before: u32,
    /// How many siblings are after it.
    after: u32,
    /// Its element.
    element: &'a Features,
}

/// The lines of an example, and the number of the marked one, from what is said of slot 0 and of the slots after it.
#[tactic(auto, using(crate::proofs::Written::counts_fall, crate::proofs::Written::front_short, crate::proofs::Written::marked_is, crate::proofs::Heights::height_below))]
fn written_around(
    alloc: Global,
    top_is_root: bool,
    steps: &[SlotStep],
    start: &Start<'_>,
    before: &[u32],
    after: &[u32],
    elements: &[Features],
) -> Result<(Vec<RunLine>, u32), AllocError>
    requires counts { CountsFit steps.now (start.now.before ∷ before.now) (start.now.after ∷ after.now) }
    requires elements { length elements.now ≡ length steps.now }
    requires few { length steps.now < 2 ^ 16 }
    ensures lines { IfOk result (λ r. r.0.items
        ≡ lines_of 0 (tree_with top_is_root steps.now (start.now.before ∷ before.now) (start.now.after ∷ after.now) (start.now.element.now ∷ elements.now))) }
    ensures marked { IfOk result (λ r. r.1 ≡ line_from top_is_root steps.now start.now.before before.now 0) }
{
    let mut lines = Vec::new(alloc);
    let depth = push_front(
        &mut lines,
        alloc,
        top_is_root,
        steps,
        start.before,
        before,
        elements,
    )?;
    let marked = lines.len() as u32;
    let copy = start.element.copy()?;
    push_line(&mut lines, depth, copy)?;
    push_plain(&mut lines, alloc, depth, start.after)?;
    push_back(&mut lines, alloc, depth, steps, after)?;
    Ok((lines, marked))
}
