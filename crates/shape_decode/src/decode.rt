//! The shape of values of the variables.

ghost use Rattle.std.specs.Prelude.{◌≡◌, ◌+◌, ◌<◌, ◌^◌, length, IfOk};
ghost use Rattle.clause_encode.specs.Fits.{IsModel};
ghost use Rattle.formula_laws.specs.Deciding.{shape_from};
ghost use Rattle.nth_positions.specs.Gaps.{bounds_of};
ghost use Rattle.selector_laws.specs.Limits.{KeepsLimits};
ghost use Rattle.shape_decode.specs.Read.{shape_read, slots_read};
ghost use Rattle.shape_decode.specs.Reading.{IsReading};
ghost use Rattle.slot_plan.specs.Parts.{pair_parts};
ghost use Rattle.slot_plan.specs.ValidShape.{ValidShape};

use crate::lists::shape_of;
use crate::rows::{numbered, row_before};
use crate::slot::{Reading, Slot};
use crate::slots::push_slots;
use crate::values::{is_true, number};
use clause_encode::{numbering, tables_are_ready};
use formula_laws::satisfying_shapes_fit;
use sibling_clauses::{links_of, numbers_asked};
use slot_plan::{PairPlan, Shape};
use std::alloc::{AllocError, Global};

/// The shape of values that satisfy the formula of a pair. It fits both selectors of the plan. `values` has the value
/// of each variable, by its number. `AllocError` where memory runs out.
///
/// The slots are read along the true nodes: a left compound alone before a right one alone, and this before one of
/// each. The numbers of siblings before and after each are read from the values where some test looks at them.
/// Elsewhere all siblings are direct neighbours.
pub fn decode_shape(alloc: Global, plan: &PairPlan, values: &[bool]) -> Result<Shape, AllocError>
    requires left { KeepsLimits plan.now.left }
    requires right { KeepsLimits plan.now.right }
    requires model { IsModel plan.now.left plan.now.right values.now }
    ensures valid { IfOk result (λ shape. ValidShape plan.now.left plan.now.right shape) }
    ensures value { IfOk result (λ shape. shape
        ≡ shape_from (bounds_of (pair_parts plan.now.left plan.now.right)).width plan.now.left plan.now.right values.now) }
{
    tables_are_ready();
    satisfying_shapes_fit();
    let shape = shape_from(alloc, plan, values)?;
    Ok(shape)
}

/// The shape of values, by the plan of a pair.
fn shape_from(alloc: Global, plan: &PairPlan, values: &[bool]) -> Result<Shape, AllocError>
    requires left { KeepsLimits plan.now.left }
    requires right { KeepsLimits plan.now.right }
    ensures { IfOk result (λ shape. shape
        ≡ shape_from (bounds_of (pair_parts plan.now.left plan.now.right)).width plan.now.left plan.now.right values.now) }
{
    let asked = numbers_asked(plan.left(), plan.right());
    let reading = Reading {
        values,
        g: numbering(plan),
        left: links_of(plan.left()),
        right: links_of(plan.right()),
    };
    let shape = shape_read(alloc, &reading, asked)?;
    Ok(shape)
}

/// The shape of what it is read from, and by whether some test looks at a number of siblings.
fn shape_read(alloc: Global, reading: &Reading<'_>, asked: bool) -> Result<Shape, AllocError>
    requires { IsReading reading.now }
    ensures { IfOk result (λ shape. shape
        ≡ shape_read reading.now.g reading.now.values.now reading.now.left.now reading.now.right.now asked) }
{
    let Reading { values, g, .. } = *reading;
    let before = number(values, &g.before_left(alloc, 0)?.bits);
    let slots = slots(alloc, reading, before)?;
    let root = is_true(values, g.root());
    let child = is_true(values, g.child());
    if asked {
        let after = number(values, &g.after_left(alloc, 0)?.bits);
        shape_of(alloc, before, after, root, child, &slots)
    } else {
        let before = row_before(&slots);
        let slots = numbered(alloc, &slots)?;
        shape_of(alloc, before, 0, root, child, &slots)
    }
}

/// The slots after slot 0, before which there are so many siblings.
fn slots(alloc: Global, reading: &Reading<'_>, before: u32) -> Result<Vec<Slot>, AllocError>
    requires { IsReading reading.now }
    ensures value { IfOk result (λ v. v.items
        ≡ slots_read reading.now.g reading.now.values.now reading.now.left.now reading.now.right.now (reading.now.g.left + reading.now.g.right) 0 0 before) }
    ensures few { IfOk result (λ v. length v.items < 2 ^ 15) }
{
    let mut slots = Vec::new(alloc);
    let most = reading.g.left + reading.g.right;
    push_slots(&mut slots, alloc, reading, most, 0, 0, before)?;
    Ok(slots)
}
