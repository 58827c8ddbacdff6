//! What is in a slot of a shape: its compounds, and features that fit them.

ghost use Rattle.std.specs.Prelude.{◌≡◌, ◌≤◌, ◌<◌, ◌+◌, ◌^◌, ℕ, length, Some, IfSome};
ghost use Rattle.css_model.specs.Sheets.Limits.{max_compounds};
ghost use Rattle.compound_fit.specs.Fitting.{AreFeatures};
ghost use Rattle.compound_fit.specs.Table.{IsTable};
ghost use Rattle.example_doc.specs.Groups.{group_in, group_of, place_in};
ghost use Rattle.slot_plan.specs.ValidShape.{ValidShape, simples_at, simples_in};

use compound_fit::FitTable;
use css_model::{Compound, Features, Simple};
use slot_plan::{PairPlan, Shape};

/// The simple selectors of the compound in a slot; none where no compound of this chain is there.
fn simples_at<'a>(chain: &'a [Compound], slots: &[u32], slot: u32) -> &'a [Simple]
    ensures { result.now ≡ simples_at chain.now slots.now slot }
{
    let [compound, chain @ ..] = chain else {
        return &[];
    };
    let [first, slots @ ..] = slots else {
        return &[];
    };
    if *first == slot {
        compound.simples.as_slice()
    } else {
        simples_at(chain, slots, slot)
    }
}

/// The simple selectors of the left selector's compound in a slot.
pub(crate) fn left_in<'a>(plan: &'a PairPlan, shape: &Shape, slot: u32) -> &'a [Simple]
    ensures { result.now ≡ simples_at plan.now.left.chain shape.now.left slot }
{
    simples_at(plan.left().chain.as_slice(), shape.left.as_slice(), slot)
}

/// The simple selectors of the right selector's compound in a slot.
pub(crate) fn right_in<'a>(plan: &'a PairPlan, shape: &Shape, slot: u32) -> &'a [Simple]
    ensures { result.now ≡ simples_at plan.now.right.chain shape.now.right slot }
{
    simples_at(plan.right().chain.as_slice(), shape.right.as_slice(), slot)
}

/// The number of the compound in a slot, if one is there.
fn place_in(slots: &[u32], slot: u32) -> Option<usize>
    ensures place { result ≡ place_in slots.now slot }
    ensures within { IfSome result (λ place. place < length slots.now) }
{
    let [first, slots @ ..] = slots else {
        return None;
    };
    if *first == slot {
        return Some(0);
    }
    match place_in(slots, slot) {
        Some(place) => Some(place + 1),
        None => None,
    }
}

/// The number of the group of two compounds in the table, by their numbers in their chains.
fn group_of(
    others_left: usize,
    others_right: usize,
    left: Option<usize>,
    right: Option<usize>,
) -> usize
    requires few_left { others_left < 2 ^ 16 }
    requires few_right { others_right < 2 ^ 16 }
    requires left { IfSome left (λ i. i < 2 ^ 16) }
    requires right { IfSome right (λ j. j < 2 ^ 16) }
    ensures { result ≡ group_of others_left others_right left right }
{
    match (left, right) {
        (None, None) => 0,
        (None, Some(right)) => others_left + right,
        (Some(left), None) => left,
        (Some(left), Some(right)) => {
            if left == 0 || right == 0 {
                return 0;
            }
            1 + others_left + others_right + (left - 1) * others_right + (right - 1)
        }
    }
}

/// The number of the group of the compounds in a slot.
#[tactic(auto, using(crate::proofs::Table::few_others))]
fn group_in(plan: &PairPlan, shape: &Shape, slot: u32) -> usize
    requires valid { ValidShape plan.now.left plan.now.right shape.now }
    requires few_left { length plan.now.left.chain ≤ max_compounds }
    requires few_right { length plan.now.right.chain ≤ max_compounds }
    ensures { result ≡ group_in plan.now.left plan.now.right shape.now slot }
{
    group_of(
        plan.left().chain.len() - 1,
        plan.right().chain.len() - 1,
        place_in(shape.left.as_slice(), slot),
        place_in(shape.right.as_slice(), slot),
    )
}

/// Features that fit the compounds in a slot, from the table of the two selectors.
pub(crate) fn fit_in<'a>(
    plan: &PairPlan,
    shape: &Shape,
    fits: &'a FitTable,
    slot: u32,
) -> &'a Features
    requires table { IsTable fits.now plan.now.left plan.now.right }
    requires valid { ValidShape plan.now.left plan.now.right shape.now }
    requires few_left { length plan.now.left.chain ≤ max_compounds }
    requires few_right { length plan.now.right.chain ≤ max_compounds }
    requires slot { slot ≤ length shape.now.steps }
    ensures { AreFeatures result.now (simples_in plan.now.left plan.now.right shape.now slot) }
{
    let group = group_in(plan, shape, slot);
    match &fits.fits()[group] {
        Some(features) => features,
        None => unreachable!(),
    }
}
