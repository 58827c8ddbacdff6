//! The first compounds of runs.

ghost use Rattle.std.specs.Prelude.{◌≡◌, ◌≤◌, ◌==◌, ◌&&◌, ℕ, IfOk};
ghost use Rattle.std.specs.List.{AllByRecursion};
ghost use Rattle.formula_laws.specs.Asked.{starts_run};
ghost use Rattle.formula_laws.specs.Distances.{rest_within, row_start};
ghost use Rattle.formula_laws.specs.Formula.{first_vars};
ghost use Rattle.hint_clauses.specs.Counted.{IsCounted, last_of, opposite};
ghost use Rattle.hint_clauses.specs.Fronts.{IsFront, first_by, first_in};
ghost use Rattle.remainders.specs.Remainders.{joint_step};
ghost use Rattle.remainders.specs.Sizes.{IsShort};

use crate::asked::rests_of;
use crate::chains::{number_in_row, row_of};
use crate::counted::{Counted, side_of};
use crate::links::begins_run;
use cnf::Bits;
use css_model::Selector;
use formula_laws::Count;
use remainders::{MOST_JOINT, Remainder, joint_rest, joint_step};
use sibling_clauses::{goes_up_at, links_of};
use std::alloc::{AllocError, Global};

/// The first compound of a run: its numbers of both kinds, and what its own one leaves.
#[derive(Drop)]
pub(crate) struct Front {
    /// Its number of the kind that is spoken of.
    pub(crate) own: Bits,
    /// Its number of the other kind.
    pub(crate) other: Bits,
    /// By what its own number is divided.
    pub(crate) step: u32,
    /// What is left. `None` if nothing can be, or the step is too great.
    pub(crate) rest: Option<u32>,
}

/// The first compound of the run that begins with the p-th one of a selector: of the right one, or of the left one.
pub(crate) fn front_of(
    alloc: Global,
    pair: &Counted<'_>,
    right: bool,
    p: u32,
) -> Result<Front, AllocError>
    requires pair { IsCounted pair.now }
    requires compound { p ≤ last_of pair.now right }
    ensures value { IfOk result (λ front. first_by front ≡ first_in pair.now right p) }
    ensures front { IfOk result (λ front. (v : ℕ) →
        first_vars pair.now.numbering.left pair.now.numbering.right pair.now.numbering.digits ≤ v → IsFront v front) }
{
    let own_row = row_of(pair.numbering, pair.count, right);
    let other_row = row_of(pair.numbering, opposite(pair.count), right);
    let own = number_in_row(alloc, pair.numbering, own_row, p)?;
    let other = number_in_row(alloc, pair.numbering, other_row, p)?;
    let rests = rests_of(alloc, pair.count, side_of(pair, right), p)?;
    let step = joint_step(&rests);
    let rest = rest_within(&rests, step);
    Ok(Front {
        own,
        other,
        step,
        rest,
    })
}

/// What a number leaves that leaves all of some remainders, by their joint step, where that is not too great.
#[tactic(auto, using(crate::proofs::Fronting::within_reads))]
fn rest_within(rests: &[Remainder], step: u32) -> Option<u32>
    requires short { AllByRecursion IsShort rests.now }
    requires step { step ≡ joint_step rests.now }
    ensures { result ≡ rest_within rests.now }
{
    if step <= MOST_JOINT {
        joint_rest(rests)
    } else {
        None
    }
}

/// The other kind of numbers.
fn opposite(count: Count) -> Count
    ensures { result ≡ opposite count }
{
    match count {
        Count::Before => Count::Behind,
        Count::Behind => Count::Before,
    }
}

/// The compound with which the row of siblings begins that the k-th compound of a selector is in.
#[tactic(auto, using(crate::proofs::Fronting::start_reads))]
pub(crate) fn row_start(selector: &Selector, k: u32) -> u32
    ensures value { result ≡ row_start selector.now.links k }
    ensures order { result ≤ k }
{
    if k == 0 {
        return 0;
    }
    if goes_up_at(links_of(selector), k as usize) {
        return k;
    }
    row_start(selector, k - 1)
}

/// Whether runs of one row of siblings begin with the p-th and the q-th compound of a selector.
pub(crate) fn begin_in_one_row(selector: &Selector, p: u32, q: u32) -> bool
    ensures { result ≡ (starts_run selector.now.links p && (starts_run selector.now.links q && (row_start selector.now.links p == row_start selector.now.links q))) }
{
    begins_run(selector, p)
        && (begins_run(selector, q) && row_start(selector, p) == row_start(selector, q))
}
