//! What is known of runs: by what is asked of themselves, and by the runs of the other selector.

ghost use Rattle.std.specs.Prelude.{◌≡◌, ◌≤◌, ◌+◌, ◌-◌, ◌++◌, ◌&&◌, if◌then◌else◌, length, nat_le, IfOk, OnOk};
ghost use Rattle.std.specs.List.{AllByRecursion};
ghost use Rattle.formula_laws.specs.Formula.{nodes_end};
ghost use Rattle.formula_laws.specs.Path.{each_below};
ghost use Rattle.formula_laws.specs.Refused.{cell_joint, left_cells, left_joints, own_joint, right_cells, right_joints};
ghost use Rattle.hint_clauses.specs.Cells.{AreRuns};
ghost use Rattle.hint_clauses.specs.Known.{AreNear};
ghost use Rattle.remainders.specs.Remainders.{most_joint};
ghost use Rattle.remainders.specs.Sizes.{IsShort};
ghost use Rattle.selector_laws.specs.Limits.{KeepsCompound};
ghost use Rattle.sibling_clauses.specs.Bounds.{IsSmall, IsWhole};

use crate::asked::rests_of;
use crate::links::begins_run;
use crate::runs::{Runs, cell_rest, is_cell, runs_of};
use css_model::Selector;
use formula_laws::{Count, Joint};
use remainders::{MOST_JOINT, Remainder, joint_rest, joint_step};
use sibling_clauses::Numbering;
use std::alloc::{AllocError, Global};

/// All that is known of the left run that begins with the p-th compound.
pub(crate) fn left_joints(
    alloc: Global,
    g: Numbering,
    count: Count,
    left: &Selector,
    right: &Selector,
    p: u32,
) -> Result<Vec<Joint>, AllocError>
    requires small { IsSmall g }
    requires left { IsWhole left.now g.left }
    requires right { IsWhole right.now g.right }
    requires left_tests { AllByRecursion KeepsCompound left.now.chain }
    requires right_tests { AllByRecursion KeepsCompound right.now.chain }
    ensures value { IfOk result (λ v. v.items ≡ left_joints count left.now right.now p) }
    ensures near { IfOk result (λ v. AreNear (nodes_end g.left g.right) v.items) }
{
    let rests = rests_of(alloc, count, left, p)?;
    let mut joints = own_joints(alloc, &rests)?;
    for q in 0..g.right + 1 {
        push_left_cells(alloc, &mut joints, g, count, left, right, p, q)?;
    }
    Ok(joints)
}

/// All that is known of the right run that begins with the q-th compound.
pub(crate) fn right_joints(
    alloc: Global,
    g: Numbering,
    count: Count,
    left: &Selector,
    right: &Selector,
    q: u32,
) -> Result<Vec<Joint>, AllocError>
    requires small { IsSmall g }
    requires left { IsWhole left.now g.left }
    requires right { IsWhole right.now g.right }
    requires left_tests { AllByRecursion KeepsCompound left.now.chain }
    requires right_tests { AllByRecursion KeepsCompound right.now.chain }
    ensures value { IfOk result (λ v. v.items ≡ right_joints count left.now right.now q) }
    ensures near { IfOk result (λ v. AreNear (nodes_end g.left g.right) v.items) }
{
    let rests = rests_of(alloc, count, right, q)?;
    let mut joints = own_joints(alloc, &rests)?;
    for p in 0..g.left + 1 {
        push_right_cells(alloc, &mut joints, g, count, left, right, q, p)?;
    }
    Ok(joints)
}

/// What is known of a run by itself.
#[tactic(auto, using(crate::proofs::Known::own_reads))]
fn own_joints(alloc: Global, rests: &[Remainder]) -> Result<Vec<Joint>, AllocError>
    requires { AllByRecursion IsShort rests.now }
    ensures { IfOk result (λ v. v.items ≡ own_joint rests.now) }
{
    let mut joints = Vec::new(alloc);
    let step = joint_step(rests);
    if MOST_JOINT < step {
        return Ok(joints);
    }
    joints.push(Joint {
        given: None,
        step,
        rest: joint_rest(rests),
        right: 0,
        left: 0,
    })?;
    Ok(joints)
}

/// Adds what is known of the left run that begins with the p-th compound, by the right run that begins with the q-th
/// one, if a run does of which something is asked.
fn push_left_cells(
    alloc: Global,
    joints: &mut Vec<Joint>,
    g: Numbering,
    count: Count,
    left: &Selector,
    right: &Selector,
    p: u32,
    q: u32,
) -> Result<(), AllocError>
    requires small { IsSmall g }
    requires left { IsWhole left.now g.left }
    requires right { IsWhole right.now g.right }
    requires left_tests { AllByRecursion KeepsCompound left.now.chain }
    requires right_tests { AllByRecursion KeepsCompound right.now.chain }
    ensures { OnOk result (joints.new.items ≡ joints.old.items ++ left_cells count left.now right.now p q) }
{
    if !begins_run(right, q) {
        return Ok(());
    }
    let runs = runs_of(alloc, g, count, left, right, p, q)?;
    let asked = is_joint(&runs.right_rests, runs.step);
    if !asked {
        return Ok(());
    }
    push_cells(alloc, joints, left, right, &runs, false)?;
    Ok(())
}

/// The same of the right run that begins with the q-th compound, by the left run that begins with the p-th one.
fn push_right_cells(
    alloc: Global,
    joints: &mut Vec<Joint>,
    g: Numbering,
    count: Count,
    left: &Selector,
    right: &Selector,
    q: u32,
    p: u32,
) -> Result<(), AllocError>
    requires small { IsSmall g }
    requires left { IsWhole left.now g.left }
    requires right { IsWhole right.now g.right }
    requires left_tests { AllByRecursion KeepsCompound left.now.chain }
    requires right_tests { AllByRecursion KeepsCompound right.now.chain }
    ensures { OnOk result (joints.new.items ≡ joints.old.items ++ right_cells count left.now right.now q p) }
{
    if !begins_run(left, p) {
        return Ok(());
    }
    let runs = runs_of(alloc, g, count, left, right, p, q)?;
    let asked = is_joint(&runs.left_rests, runs.step);
    if !asked {
        return Ok(());
    }
    push_cells(alloc, joints, left, right, &runs, true)?;
    Ok(())
}

/// Whether something is asked of a run, and the joint step of two is not too great.
fn is_joint(rests: &[Remainder], step: u32) -> bool
    ensures { result ≡ (nat_le 1 (length rests.now) && nat_le step most_joint) }
{
    !rests.is_empty() && step <= MOST_JOINT
}

/// Adds what is known in each cell: of the right run, or of the left one.
#[tactic(auto, using(crate::proofs::Known::gathered_each))]
fn push_cells(
    alloc: Global,
    joints: &mut Vec<Joint>,
    left: &Selector,
    right: &Selector,
    runs: &Runs,
    of_right: bool,
) -> Result<(), AllocError>
    requires small { IsSmall runs.now.numbering }
    requires right { IsWhole right.now runs.now.numbering.right }
    requires runs { AreRuns runs.now left.now right.now }
    requires few { runs.now.step ≤ most_joint }
    ensures { OnOk result (joints.new.items ≡ joints.old.items ++ each_below (runs.now.numbering.left + 1) (λ i. each_below (runs.now.numbering.right + 1)
        (λ j. cell_joint runs.now.count left.now right.now runs.now.left runs.now.right (if of_right then j - runs.now.right else 0) (if of_right then i - runs.now.left else 0) i j))) }
{
    for i in 0..runs.numbering.left + 1 {
        push_cell_row(alloc, joints, left, right, runs, of_right, i)?;
    }
    Ok(())
}

/// Adds what is known in each cell of a row.
#[tactic(auto, using(crate::proofs::Known::gathered_each))]
fn push_cell_row(
    alloc: Global,
    joints: &mut Vec<Joint>,
    left: &Selector,
    right: &Selector,
    runs: &Runs,
    of_right: bool,
    i: u32,
) -> Result<(), AllocError>
    requires small { IsSmall runs.now.numbering }
    requires right { IsWhole right.now runs.now.numbering.right }
    requires runs { AreRuns runs.now left.now right.now }
    requires few { runs.now.step ≤ most_joint }
    requires row { i ≤ runs.now.numbering.left }
    ensures { OnOk result (joints.new.items ≡ joints.old.items ++ each_below (runs.now.numbering.right + 1)
        (λ j. cell_joint runs.now.count left.now right.now runs.now.left runs.now.right (if of_right then j - runs.now.right else 0) (if of_right then i - runs.now.left else 0) i j)) }
{
    for j in 0..runs.numbering.right + 1 {
        push_cell(alloc, joints, left, right, runs, of_right, i, j)?;
    }
    Ok(())
}

/// Adds what is known in a cell.
fn push_cell(
    alloc: Global,
    joints: &mut Vec<Joint>,
    left: &Selector,
    right: &Selector,
    runs: &Runs,
    of_right: bool,
    i: u32,
    j: u32,
) -> Result<(), AllocError>
    requires small { IsSmall runs.now.numbering }
    requires right { IsWhole right.now runs.now.numbering.right }
    requires runs { AreRuns runs.now left.now right.now }
    requires few { runs.now.step ≤ most_joint }
    requires row { i ≤ runs.now.numbering.left }
    requires column { j ≤ runs.now.numbering.right }
    ensures { OnOk result (joints.new.items ≡ joints.old.items
        ++ cell_joint runs.now.count left.now right.now runs.now.left runs.now.right (if of_right then j - runs.now.right else 0) (if of_right then i - runs.now.left else 0) i j) }
{
    if !is_cell(left, right, runs, i, j) {
        return Ok(());
    }
    let rest = cell_rest(alloc, runs, i, j)?;
    let node = runs.numbering.together(i, j);
    let to_right = places(of_right, j - runs.right);
    let to_left = places(of_right, i - runs.left);
    joints.push(Joint {
        given: Some(node),
        step: runs.step,
        rest,
        right: to_right,
        left: to_left,
    })?;
    Ok(())
}

/// So many places, or none.
fn places(some: bool, count: u32) -> u32
    ensures { result ≡ (if some then count else 0) }
{
    if some { count } else { 0 }
}
