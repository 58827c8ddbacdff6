//! The hints on distances of runs, of whole selectors.

ghost use Rattle.std.specs.Prelude.{◌≡◌, ◌≤◌, ◌<◌, ◌+◌, ◌^◌, ◌==◌, ◌&&◌, if◌then◌else◌, not, true, ℕ, IsTrue, OnOk, Some};
ghost use Rattle.std.specs.List.{AllByRecursion};
ghost use Rattle.cnf.specs.Cnf.{Cnf};
ghost use Rattle.cnf.specs.Lits.{is_below};
ghost use Rattle.formula_laws.specs.Asked.{starts_run};
ghost use Rattle.formula_laws.specs.Counts.{steps_below};
ghost use Rattle.formula_laws.specs.Distances.{with_distance, with_distance_hints};
ghost use Rattle.formula_laws.specs.Formula.{first_vars, names_of};
ghost use Rattle.formula_laws.specs.Path.{both_fit};
ghost use Rattle.hint_clauses.specs.Counted.{IsCounted, last_of};
ghost use Rattle.hint_clauses.specs.Fronts.{IsFront, first_by};
ghost use Rattle.hint_clauses.specs.Gaps.{IsGap, distances_step, own_step, related_step, shared_step};
ghost use Rattle.selector_laws.specs.Limits.{KeepsCompound};
ghost use Rattle.sibling_clauses.specs.Bounds.{IsSmall, IsWhole};

use crate::counted::{Counted, last_of, side_of};
use crate::fronts::{Front, begin_in_one_row, front_of, row_start};
use crate::gaps::{Gap, add_related, gap_of};
use crate::links::begins_run;
use cnf::{Formula, Lit};
use css_model::Selector;
use formula_laws::Count;
use sibling_clauses::{Numbering, both_fit, links_of};
use std::alloc::{AllocError, Global};

/// Adds the hints on distances of runs of two selectors.
pub(crate) fn add_distance_hints(
    alloc: Global,
    f: &mut Formula,
    g: Numbering,
    left: &Selector,
    right: &Selector,
) -> Result<(), AllocError>
    requires small { IsSmall g }
    requires left { IsWhole left.now g.left }
    requires right { IsWhole right.now g.right }
    requires left_tests { AllByRecursion KeepsCompound left.now.chain }
    requires right_tests { AllByRecursion KeepsCompound right.now.chain }
    requires in_range { first_vars g.left g.right g.digits ≤ f.old.vars }
    requires room { (with_distance_hints left.now right.now (names_of g.left g.right g.digits) f.old).vars ≤ 2 ^ 30 }
    ensures { OnOk result (f.new ≡ with_distance_hints left.now right.now (names_of g.left g.right g.digits) f.old) }
{
    let befores = Counted {
        numbering: g,
        count: Count::Before,
        left,
        right,
    };
    let behinds = Counted {
        numbering: g,
        count: Count::Behind,
        left,
        right,
    };
    add_distances(alloc, f, &befores)?;
    add_distances(alloc, f, &behinds)?;
    Ok(())
}

/// The same on one kind of numbers.
fn add_distances(alloc: Global, f: &mut Formula, pair: &Counted<'_>) -> Result<(), AllocError>
    requires pair { IsCounted pair.now }
    requires in_range { first_vars pair.now.numbering.left pair.now.numbering.right pair.now.numbering.digits ≤ f.old.vars }
    requires room { (distances_step pair.now f.old).vars ≤ 2 ^ 30 }
    ensures { OnOk result (f.new ≡ distances_step pair.now f.old) }
{
    add_own_distances(alloc, f, pair, false)?;
    add_own_distances(alloc, f, pair, true)?;
    add_shared_distances(alloc, f, pair)?;
    Ok(())
}

/// Adds what the distances of runs of one selector leave: of the right one, or of the left one.
fn add_own_distances(
    alloc: Global,
    f: &mut Formula,
    pair: &Counted<'_>,
    right: bool,
) -> Result<(), AllocError>
    requires pair { IsCounted pair.now }
    requires in_range { first_vars pair.now.numbering.left pair.now.numbering.right pair.now.numbering.digits ≤ f.old.vars }
    requires room { (steps_below (last_of pair.now right + 1) (λ q. steps_below q (own_step pair.now right q)) f.old).vars ≤ 2 ^ 30 }
    ensures { OnOk result (f.new ≡ steps_below (last_of pair.now right + 1) (λ q. steps_below q (own_step pair.now right q)) f.old) }
{
    for q in 0..last_of(pair, right) + 1 {
        add_own_distances_to(alloc, f, pair, right, q)?;
    }
    Ok(())
}

/// The same for the run that begins with the q-th compound, and those to the right of it.
fn add_own_distances_to(
    alloc: Global,
    f: &mut Formula,
    pair: &Counted<'_>,
    right: bool,
    q: u32,
) -> Result<(), AllocError>
    requires pair { IsCounted pair.now }
    requires place { q ≤ last_of pair.now right }
    requires in_range { first_vars pair.now.numbering.left pair.now.numbering.right pair.now.numbering.digits ≤ f.old.vars }
    requires room { (steps_below q (own_step pair.now right q) f.old).vars ≤ 2 ^ 30 }
    ensures { OnOk result (f.new ≡ steps_below q (own_step pair.now right q) f.old) }
{
    for p in 0..q {
        add_own_distance(alloc, f, pair, right, q, p)?;
    }
    Ok(())
}

/// The same for the runs that begin with the q-th and the p-th compound, if runs of one row do.
fn add_own_distance(
    alloc: Global,
    f: &mut Formula,
    pair: &Counted<'_>,
    right: bool,
    q: u32,
    p: u32,
) -> Result<(), AllocError>
    requires pair { IsCounted pair.now }
    requires place { q ≤ last_of pair.now right }
    requires order { p < q }
    requires in_range { first_vars pair.now.numbering.left pair.now.numbering.right pair.now.numbering.digits ≤ f.old.vars }
    requires room { (own_step pair.now right q p f.old).vars ≤ 2 ^ 30 }
    ensures { OnOk result (f.new ≡ own_step pair.now right q p f.old) }
{
    if !begin_in_one_row(side_of(pair, right), p, q) {
        return Ok(());
    }
    let first = front_of(alloc, pair, right, p)?;
    let second = front_of(alloc, pair, right, q)?;
    let gap = gap_of(pair.count, None, true, first, second);
    add_related(alloc, f, &gap)?;
    Ok(())
}

/// Adds what the distances leave of each run of the left selector and each of the right one.
fn add_shared_distances(
    alloc: Global,
    f: &mut Formula,
    pair: &Counted<'_>,
) -> Result<(), AllocError>
    requires pair { IsCounted pair.now }
    requires in_range { first_vars pair.now.numbering.left pair.now.numbering.right pair.now.numbering.digits ≤ f.old.vars }
    requires room { (steps_below (pair.now.numbering.left + 1) (λ p. steps_below (pair.now.numbering.right + 1) (shared_step pair.now p)) f.old).vars ≤ 2 ^ 30 }
    ensures { OnOk result (f.new ≡ steps_below (pair.now.numbering.left + 1) (λ p. steps_below (pair.now.numbering.right + 1) (shared_step pair.now p)) f.old) }
{
    for p in 0..pair.numbering.left + 1 {
        add_shared_distances_of(alloc, f, pair, p)?;
    }
    Ok(())
}

/// The same for the left run that begins with the p-th compound.
fn add_shared_distances_of(
    alloc: Global,
    f: &mut Formula,
    pair: &Counted<'_>,
    p: u32,
) -> Result<(), AllocError>
    requires pair { IsCounted pair.now }
    requires row { p ≤ pair.now.numbering.left }
    requires in_range { first_vars pair.now.numbering.left pair.now.numbering.right pair.now.numbering.digits ≤ f.old.vars }
    requires room { (steps_below (pair.now.numbering.right + 1) (shared_step pair.now p) f.old).vars ≤ 2 ^ 30 }
    ensures { OnOk result (f.new ≡ steps_below (pair.now.numbering.right + 1) (shared_step pair.now p) f.old) }
{
    for q in 0..pair.numbering.right + 1 {
        add_shared_distance(alloc, f, pair, p, q)?;
    }
    Ok(())
}

/// The same for the left run that begins with the p-th compound and the right one that begins with the q-th, if runs do
/// and their rows may be one.
fn add_shared_distance(
    alloc: Global,
    f: &mut Formula,
    pair: &Counted<'_>,
    p: u32,
    q: u32,
) -> Result<(), AllocError>
    requires pair { IsCounted pair.now }
    requires row { p ≤ pair.now.numbering.left }
    requires column { q ≤ pair.now.numbering.right }
    requires in_range { first_vars pair.now.numbering.left pair.now.numbering.right pair.now.numbering.digits ≤ f.old.vars }
    requires room { (shared_step pair.now p q f.old).vars ≤ 2 ^ 30 }
    ensures { OnOk result (f.new ≡ shared_step pair.now p q f.old) }
{
    if !begin_runs(pair, p, q) {
        return Ok(());
    }
    let s = row_start(pair.left, p);
    let t = row_start(pair.right, q);
    if !may_be_apart(pair, s, t, p, q) {
        return Ok(());
    }
    let node = pair.numbering.together(s, t);
    let left = front_of(alloc, pair, false, p)?;
    let right = front_of(alloc, pair, true, q)?;
    let gap = row_gap(pair.count, node, p == s, q == t, left, right);
    add_related(alloc, f, &gap)?;
    Ok(())
}

/// Whether runs begin with the p-th compound of the left selector and the q-th of the right one.
fn begin_runs(pair: &Counted<'_>, p: u32, q: u32) -> bool
    ensures { result ≡ (starts_run pair.now.left.now.links p && starts_run pair.now.right.now.links q) }
{
    begins_run(pair.left, p) && begins_run(pair.right, q)
}

/// Whether the rows of siblings that begin with the compounds s and t may be one, and the compounds p and q of it are
/// not both the first.
fn may_be_apart(pair: &Counted<'_>, s: u32, t: u32, p: u32, q: u32) -> bool
    ensures { result ≡ (both_fit pair.now.left.now.links pair.now.right.now.links s t && not ((p == s) && (q == t))) }
{
    both_fit(
        links_of(pair.left),
        links_of(pair.right),
        s as usize,
        t as usize,
    ) && !(p == s && q == t)
}

/// The gap between two runs, in one row where a literal is true: by the right selector's run where it begins with the
/// first compound of the row, else by the left selector's.
fn row_gap(
    count: Count,
    node: Lit,
    left_first: bool,
    right_first: bool,
    left: Front,
    right: Front,
) -> Gap
    ensures value { (f : Cnf) → related_step result f ≡ (if right_first then with_distance count (Some node) true (first_by right) (first_by left)
        else with_distance count (Some node) left_first (first_by left) (first_by right)) f }
    ensures gap { (v : ℕ) → IsTrue (is_below v node) → IsFront v left → IsFront v right → IsGap v result }
{
    if right_first {
        gap_of(count, Some(node), true, right, left)
    } else {
        gap_of(count, Some(node), left_first, left, right)
    }
}
