//! Two runs of direct neighbours, one of each selector.

ghost use Rattle.std.specs.Prelude.{◌≡◌, ◌≤◌, ◌<◌, ◌++◌, ◌-◌, ◌&&◌, nat_le, length, map, IfOk, OnOk, IsTrue};
ghost use Rattle.std.specs.List.{AllByRecursion};
ghost use Rattle.formula_laws.specs.Asked.{aside};
ghost use Rattle.formula_laws.specs.Hints.{is_cell, shared_rests};
ghost use Rattle.hint_clauses.specs.Cells.{AreRuns};
ghost use Rattle.remainders.specs.Remainders.{joint_rest, joint_step, most_joint};
ghost use Rattle.remainders.specs.Sizes.{IsShort};
ghost use Rattle.selector_laws.specs.Limits.{KeepsCompound};
ghost use Rattle.sibling_clauses.specs.Bounds.{IsSmall, IsWhole};

use crate::asked::{aside, rests_of};
use crate::links::are_joined;
use css_model::Selector;
use formula_laws::Count;
use remainders::{Remainder, joint_rest, joint_step};
use sibling_clauses::{Numbering, both_fit, links_of};
use std::alloc::{AllocError, Global};

/// Two runs, one of each selector, and what is asked of the numbers of their first compounds.
#[derive(Drop)]
pub(crate) struct Runs {
    /// How the first variables are numbered.
    pub(crate) numbering: Numbering,
    /// Which siblings are counted.
    pub(crate) count: Count,
    /// The number of the left run's first compound, from 0.
    pub(crate) left: u32,
    /// The number of the right run's first compound, from 0.
    pub(crate) right: u32,
    /// What is asked of the left run.
    pub(crate) left_rests: Vec<Remainder>,
    /// What is asked of the right run.
    pub(crate) right_rests: Vec<Remainder>,
    /// The joint step of all that is asked.
    pub(crate) step: u32,
}

/// The runs that begin with the p-th compound of the left selector and the q-th of the right one, and what is asked of
/// them.
pub(crate) fn runs_of(
    alloc: Global,
    g: Numbering,
    count: Count,
    left: &Selector,
    right: &Selector,
    p: u32,
    q: u32,
) -> Result<Runs, AllocError>
    requires small { IsSmall g }
    requires left { IsWhole left.now g.left }
    requires right { IsWhole right.now g.right }
    requires left_tests { AllByRecursion KeepsCompound left.now.chain }
    requires right_tests { AllByRecursion KeepsCompound right.now.chain }
    ensures numbering { IfOk result (λ runs. runs.numbering ≡ g) }
    ensures count { IfOk result (λ runs. runs.count ≡ count) }
    ensures left { IfOk result (λ runs. runs.left ≡ p) }
    ensures right { IfOk result (λ runs. runs.right ≡ q) }
    ensures asked { IfOk result (λ runs. AreRuns runs left.now right.now) }
{
    let left_rests = rests_of(alloc, count, left, p)?;
    let right_rests = rests_of(alloc, count, right, q)?;
    let step = both_step(alloc, &left_rests, &right_rests)?;
    Ok(Runs {
        numbering: g,
        count,
        left: p,
        right: q,
        left_rests,
        right_rests,
        step,
    })
}

/// Whether something is asked of both.
#[tactic(auto, using(crate::proofs::Sharing::some_read))]
pub(crate) fn are_asked(runs: &Runs) -> bool
    ensures { result ≡ (nat_le 1 (length runs.now.left_rests.items) && nat_le 1 (length runs.now.right_rests.items)) }
{
    !runs.left_rests.is_empty() && !runs.right_rests.is_empty()
}

/// The joint step of what is asked of two runs.
fn both_step(alloc: Global, left: &[Remainder], right: &[Remainder]) -> Result<u32, AllocError>
    requires left { AllByRecursion IsShort left.now }
    requires right { AllByRecursion IsShort right.now }
    ensures value { IfOk result (λ s. s ≡ joint_step (left.now ++ right.now)) }
    ensures some { IfOk result (λ s. 0 < s) }
{
    let rests = both_rests(alloc, left, right)?;
    Ok(joint_step(&rests))
}

/// What is asked of one run, and then what is asked of another one.
fn both_rests(
    alloc: Global,
    left: &[Remainder],
    right: &[Remainder],
) -> Result<Vec<Remainder>, AllocError>
    ensures { IfOk result (λ v. v.items ≡ left.now ++ right.now) }
{
    let mut rests = Vec::from_slice(alloc, left)?;
    rests.extend_from_slice(right)?;
    Ok(rests)
}

/// Whether two compounds of the runs, one of which is the first of its run, may be in one slot.
pub(crate) fn is_cell(left: &Selector, right: &Selector, runs: &Runs, i: u32, j: u32) -> bool
    ensures value { result ≡ is_cell left.now right.now runs.now.left runs.now.right i j }
    ensures left { IsTrue result → runs.now.left ≤ i }
    ensures right { IsTrue result → runs.now.right ≤ j }
{
    are_joined(links_of(left), runs.left as usize, i as usize)
        && (are_joined(links_of(right), runs.right as usize, j as usize)
            && ((i == runs.left || j == runs.right)
                && both_fit(links_of(left), links_of(right), i as usize, j as usize)))
}

/// What the number of the left run's first compound leaves, where these compounds of the runs are in one slot: by the
/// joint step of what is asked. `None` where no number leaves all of it.
pub(crate) fn cell_rest(
    alloc: Global,
    runs: &Runs,
    i: u32,
    j: u32,
) -> Result<Option<u32>, AllocError>
    requires left { AllByRecursion IsShort runs.now.left_rests.items }
    requires right { AllByRecursion IsShort runs.now.right_rests.items }
    requires few { joint_step (runs.now.left_rests.items ++ runs.now.right_rests.items) ≤ most_joint }
    requires row { (runs.now.left ≤ i) × (i < 12) }
    requires column { (runs.now.right ≤ j) × (j < 12) }
    ensures { IfOk result (λ r. r ≡ joint_rest
        (shared_rests runs.now.count runs.now.left_rests.items runs.now.right_rests.items (i - runs.now.left) (j - runs.now.right))) }
{
    let rests = shared_rests(alloc, runs, i - runs.left, j - runs.right)?;
    Ok(joint_rest(&rests))
}

/// What both runs ask of the left one's first compound, where that of the right one is so many places to the right of
/// it and then so many to the left.
fn shared_rests(
    alloc: Global,
    runs: &Runs,
    right: u32,
    left: u32,
) -> Result<Vec<Remainder>, AllocError>
    requires short { AllByRecursion IsShort runs.now.right_rests.items }
    requires places { (right < 12) × (left < 12) }
    ensures { IfOk result (λ v. v.items ≡ shared_rests runs.now.count runs.now.left_rests.items runs.now.right_rests.items right left) }
{
    let mut rests = Vec::from_slice(alloc, &runs.left_rests)?;
    push_aside(&mut rests, runs.count, right, left, &runs.right_rests)?;
    Ok(rests)
}

/// Adds remainders, moved so many places to the right and then to the left.
#[tactic(auto, using(crate::proofs::Sharing::aside_added))]
fn push_aside(
    rests: &mut Vec<Remainder>,
    count: Count,
    right: u32,
    left: u32,
    more: &[Remainder],
) -> Result<(), AllocError>
    requires short { AllByRecursion IsShort more.now }
    requires right { right < 12 }
    requires left { left < 12 }
    ensures { OnOk result (rests.new.items ≡ rests.old.items ++ map (aside count right left) more.now) }
{
    match more {
        [] => Ok(()),
        [first, others @ ..] => {
            rests.push(aside(count, right, left, *first))?;
            push_aside(rests, count, right, left, others)
        }
    }
}
