//! The formula of a pair.

ghost use Rattle.std.specs.Prelude.{◌≡◌, ◌≤◌, ◌<◌, ◌+◌, ◌^◌, if◌then◌else◌, suc, length, IfOk, OnOk};
ghost use Rattle.std.specs.List.{AllByRecursion};
ghost use Rattle.sibling_clauses.specs.Bounds.{IsSmall, IsWhole, max_digits};
ghost use Rattle.clause_encode.specs.Fits.{IsSmallFormula, is_fit, numbering_of, pair_formula};
ghost use Rattle.compound_fit.specs.Table.{IsTable};
ghost use Rattle.formula_laws.specs.Allowed.{allowed_by};
ghost use Rattle.formula_laws.specs.Formula.{
  first_vars,
  names_of,
  with_all,
  with_conditions,
  with_refusals,
};
ghost use Rattle.nth_positions.specs.Gaps.{bounds_of};
ghost use Rattle.selector_laws.specs.Limits.{KeepsCompound, KeepsLimits};
ghost use Rattle.slot_plan.specs.Parts.{pair_parts};

use crate::nodes::{add_nodes, add_whole};
use crate::path::add_path;
use cnf::Formula;
use compound_fit::FitTable;
use css_model::{Features, Selector};
use formula_laws::formula_is_small;
use hint_clauses::add_hints;
use sibling_clauses::{Numbering, add_numbers, add_root, add_tests, links_of, numbers_asked};
use slot_plan::PairPlan;
use std::alloc::{AllocError, Global};

/// The formula of a pair, by the table of its two selectors. It can be satisfied exactly where a shape fits both whose
/// numbers of siblings are below `2^width`, for the width of the plan's bounds. `AllocError` where memory runs out.
pub fn encode(alloc: Global, plan: &PairPlan<'_>, fits: &FitTable) -> Result<Formula, AllocError>
    requires table { IsTable fits.now plan.now.left plan.now.right }
    requires left { KeepsLimits plan.now.left }
    requires right { KeepsLimits plan.now.right }
    ensures formula { IfOk result (λ f. f ≡ pair_formula plan.now.left plan.now.right fits.now.fits) }
    ensures small { IfOk result (λ f. IsSmallFormula f) }
{
    formula_is_small();
    let g = numbering(plan);
    let mut f = Formula::new(alloc, g.first_vars());
    add_all(alloc, &mut f, g, plan.left(), plan.right(), fits.fits())?;
    Ok(f)
}

/// How the variables of the formula of a pair are numbered.
pub fn numbering(plan: &PairPlan<'_>) -> Numbering
    requires left { KeepsLimits plan.now.left }
    requires right { KeepsLimits plan.now.right }
    ensures value { result ≡ numbering_of plan.now.left plan.now.right }
    ensures wide { (bounds_of (pair_parts plan.now.left plan.now.right)).width ≤ max_digits }
    ensures small { IsSmall result }
{
    let left = plan.left();
    let right = plan.right();
    let width = plan.bounds().width;
    Numbering {
        left: links_of(left).len() as u32,
        right: links_of(right).len() as u32,
        digits: digits_for(width, numbers_asked(left, right)),
    }
}

/// How many digits the numbers have: none where no test looks at them.
fn digits_for(width: u32, asked: bool) -> u32
    ensures { result ≡ (if asked then width else 0) }
{
    if asked { width } else { 0 }
}

/// Adds all conditions, and their hints.
fn add_all(
    alloc: Global,
    f: &mut Formula,
    g: Numbering,
    left: &Selector,
    right: &Selector,
    fits: &[Option<Features>],
) -> Result<(), AllocError>
    requires small { IsSmall g }
    requires left { IsWhole left.now g.left }
    requires right { IsWhole right.now g.right }
    requires left_tests { AllByRecursion KeepsCompound left.now.chain }
    requires right_tests { AllByRecursion KeepsCompound right.now.chain }
    requires in_range { first_vars g.left g.right g.digits ≤ f.old.vars }
    requires room { (with_all left.now right.now (allowed_by (is_fit (length left.now.links) (length right.now.links) fits.now) left.now right.now) (names_of g.left g.right g.digits) f.old).vars ≤ 2 ^ 30 }
    ensures { OnOk result (f.new ≡ with_all left.now right.now (allowed_by (is_fit (length left.now.links) (length right.now.links) fits.now) left.now right.now) (names_of g.left g.right g.digits) f.old) }
{
    add_conditions(alloc, f, g, left, right, fits)?;
    add_hints(alloc, f, g, left, right)?;
    Ok(())
}

/// Adds all conditions.
fn add_conditions(
    alloc: Global,
    f: &mut Formula,
    g: Numbering,
    left: &Selector,
    right: &Selector,
    fits: &[Option<Features>],
) -> Result<(), AllocError>
    requires small { IsSmall g }
    requires left { IsWhole left.now g.left }
    requires right { IsWhole right.now g.right }
    requires left_tests { AllByRecursion KeepsCompound left.now.chain }
    requires right_tests { AllByRecursion KeepsCompound right.now.chain }
    requires in_range { first_vars g.left g.right g.digits ≤ f.old.vars }
    requires room { (with_conditions left.now right.now (allowed_by (is_fit (length left.now.links) (length right.now.links) fits.now) left.now right.now) (names_of g.left g.right g.digits) f.old).vars ≤ 2 ^ 30 }
    ensures { OnOk result (f.new ≡ with_conditions left.now right.now (allowed_by (is_fit (length left.now.links) (length right.now.links) fits.now) left.now right.now) (names_of g.left g.right g.digits) f.old) }
{
    add_path(alloc, f, g)?;
    add_numbers(alloc, f, g, left, right)?;
    add_root(alloc, f, g, left, right)?;
    add_tests(alloc, f, g, left, right)?;
    add_refusals(f, g, left, right, fits)?;
    Ok(())
}

/// Adds what is refused.
fn add_refusals(
    f: &mut Formula,
    g: Numbering,
    left: &Selector,
    right: &Selector,
    fits: &[Option<Features>],
) -> Result<(), AllocError>
    requires small { IsSmall g }
    requires left { IsWhole left.now g.left }
    requires right { IsWhole right.now g.right }
    requires in_range { first_vars g.left g.right g.digits ≤ f.old.vars }
    ensures { OnOk result (f.new ≡ with_refusals left.now right.now (allowed_by (is_fit (length left.now.links) (length right.now.links) fits.now) left.now right.now) f.old) }
{
    add_nodes(f, g, left, right, fits)?;
    add_whole(f, left, right)?;
    Ok(())
}
