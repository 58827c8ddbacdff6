//! Selectors that do not meet, since no element passes two of their compounds that have to hold of one element.

ghost use Rattle.std.specs.Prelude.{◌≡◌, ◌+◌, IsTrue, slice_get};
ghost use Rattle.compound_fit.specs.Table.{IsTable};
ghost use Rattle.css_model.specs.Cascade.Order.{Meet as TheyMeet};
ghost use Rattle.selector_laws.specs.Limits.{KeepsLimits};
ghost use Rattle.shape_laws.specs.Forced.{AreOfOne, GoTogether};

use clause_encode::{is_pair_fit, tables_are_ready};
use compound_fit::FitTable;
use css_model::Combinator;
use shape_laws::forced_compounds_suit;
use sibling_clauses::links_of;
use slot_plan::PairPlan;

/// Returns whether two compounds of the selectors of a plan have to hold of one element, if the selectors meet, and no
/// element passes both. Then the selectors do not meet, and the formula need not be made. It looks at the targets, and
/// further to the left while both selectors go on with `+`, or both with `>`.
pub(crate) fn compounds_clash(plan: &PairPlan, table: &FitTable) -> bool
    requires left { KeepsLimits plan.now.left }
    requires right { KeepsLimits plan.now.right }
    requires table { IsTable table.now plan.now.left plan.now.right }
    ensures { IsTrue result → TheyMeet plan.now.left plan.now.right → ⊥ }
{
    let left = links_of(plan.left());
    let right = links_of(plan.right());
    for i in 0..left.len() + 1 {
        if is_clash(plan, table, i) {
            return true;
        }
        if !go_together(left, right, i) {
            return false;
        }
    }
    false
}

/// Returns whether no element passes compounds i of the selectors of a plan, counted from 0 from the target to the
/// left. They have to hold of one element, if the selectors meet.
fn is_clash(plan: &PairPlan, table: &FitTable, i: usize) -> bool
    requires left { KeepsLimits plan.now.left }
    requires right { KeepsLimits plan.now.right }
    requires table { IsTable table.now plan.now.left plan.now.right }
    requires of_one { AreOfOne plan.now.left.links plan.now.right.links i i i }
    ensures { IsTrue result → TheyMeet plan.now.left plan.now.right → ⊥ }
{
    forced_compounds_suit();
    tables_are_ready();
    let left = links_of(plan.left());
    let right = links_of(plan.right());
    !is_pair_fit(table.fits(), left.len(), right.len(), i, i)
}

/// Returns whether both selectors go on with `+` to the left of compound i, or both with `>`. Then the next compounds
/// have to hold of one element, if these have to.
fn go_together(left: &[Combinator], right: &[Combinator], i: usize) -> bool
    ensures { IsTrue result → GoTogether left.now right.now i i (i + 1) (i + 1) }
{
    match (link_at(left, i), link_at(right, i)) {
        (Some(Combinator::Next), Some(Combinator::Next)) => true,
        (Some(Combinator::Child), Some(Combinator::Child)) => true,
        _ => false,
    }
}

/// Returns the combinator at the left of compound i, if there is one.
fn link_at(links: &[Combinator], i: usize) -> Option<Combinator>
    ensures { result ≡ slice_get links.now i }
{
    links.get(i).copied()
}
