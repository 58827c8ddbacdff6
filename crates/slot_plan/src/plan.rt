//! What is known of a pair of selectors before its shapes are looked for.

ghost use Rattle.std.specs.Prelude.{◌≡◌, ◌≤◌, ◌<◌, ◌+◌, ◌↔◌, ℕ, Err, IfOk};
ghost use Rattle.std.specs.List.{All};
ghost use Rattle.css_model.specs.Positions.Range.{IsInRange};
ghost use Rattle.css_model.specs.Sheets.Limits.{max_stepped};
ghost use Rattle.nth_positions.specs.Gaps.{bounds_of};
ghost use Rattle.nth_positions.specs.declared.limits.TheConstants.{MAX_WIDTH};
ghost use Rattle.slot_plan.specs.Parts.{pair_parts, stepped_count};
ghost use Rattle.slot_plan.specs.declared.plan.PlanError.TheVariants.{NthParts};

use crate::parts::pair_parts;
use crate::stepped::count_stepped;
use css_model::{MAX_STEPPED, Selector};
use nth_positions::{Bounds, bounds};
use std::alloc::{AllocError, Global};
use std::marker::Model;
use thiserror::Error;

/// Why there is no plan of a pair.
#[derive(Clone, Copy, Debug, PartialEq, Eq, Error)]
pub enum PlanError {
    /// More positions of the pair have a step of 2 or more in size than are looked at: so many.
    #[error("{0} positions of the pair have a step of 2 or more")]
    NthParts(u32),
    /// There is not enough memory.
    #[error("out of memory")]
    NoMemory,
}

impl From<AllocError> for PlanError {
    ghost use Rattle.slot_plan.specs.declared.plan.PlanError.TheVariants.{NoMemory};

    ghost from_gives = { λ _ e. e ≡ NoMemory };

    fn from(_: AllocError) -> PlanError {
        PlanError::NoMemory
    }
}

/// A pair of selectors with at most four positions whose step has a size of 2 or more, and how far its gaps between
/// siblings have to be looked at.
#[derive(Debug, Drop)]
pub struct PairPlan<'a> {
    left: &'a Selector,
    right: &'a Selector,
    bounds: Bounds,
}

impl<'a> Model for PairPlan<'a> {
    ghost use Rattle.std.specs.Prelude.{◌≡◌, ◌≤◌};
    ghost use Rattle.nth_positions.specs.Gaps.{bounds_of};
    ghost use Rattle.nth_positions.specs.declared.limits.TheConstants.{MAX_WIDTH};
    ghost use Rattle.slot_plan.specs.PairParts.{PairParts};
    ghost use Rattle.slot_plan.specs.Parts.{pair_parts};

    ghost Value = { PairParts };

    ghost view = { λ p. record { left = p.left.now; right = p.right.now } };

    ghost invariant = { λ p. (p.bounds ≡ bounds_of (pair_parts p.left.now p.right.now))
        × (p.bounds.width ≤ MAX_WIDTH) };
}

impl<'a> PairPlan<'a> {
    /// The plan of a pair. Each step of the two selectors is at most 32 and each offset at most 1,000 in size, and each
    /// selector has at most four positions whose step has a size of 2 or more (Selectors 3, section 6.6.5.2).
    ///
    /// `NthParts` exactly where both have more than four such positions together; its number is how many. `NoMemory`
    /// where memory is short.
    #[tactic(auto, using(crate::proofs::SteppedParts::stepped_parts))]
    pub fn new(
        alloc: Global,
        left: &'a Selector,
        right: &'a Selector,
    ) -> Result<PairPlan<'a>, PlanError>
        requires in_range { All IsInRange (pair_parts left.now right.now) }
        requires left_few { stepped_count left.now ≤ max_stepped }
        requires right_few { stepped_count right.now ≤ max_stepped }
        ensures ok { IfOk result (λ plan. plan ≡ record { left = left.now; right = right.now }) }
        ensures few { IfOk result (λ plan. stepped_count left.now + stepped_count right.now ≤ max_stepped) }
        ensures parts { (n : ℕ) → (result ≡ Err (NthParts n))
            ↔ ((n ≡ stepped_count left.now + stepped_count right.now) × (max_stepped < n)) }
    {
        let stepped = count_stepped(left) + count_stepped(right);
        if stepped > MAX_STEPPED as u32 {
            return Err(PlanError::NthParts(stepped));
        }
        let parts = pair_parts(alloc, left, right)?;
        Ok(PairPlan {
            left,
            right,
            bounds: bounds(parts.as_slice()),
        })
    }

    /// The left selector.
    pub fn left(&self) -> &Selector
        ensures { result.now ≡ self.now.left }
    {
        self.left
    }

    /// The right selector.
    pub fn right(&self) -> &Selector
        ensures { result.now ≡ self.now.right }
    {
        self.right
    }

    /// How far the gaps between siblings have to be looked at, and how many bits hold a number of siblings.
    pub fn bounds(&self) -> Bounds
        ensures value { result ≡ bounds_of (pair_parts self.now.left self.now.right) }
        ensures small { result.width ≤ MAX_WIDTH }
    {
        self.bounds
    }
}
