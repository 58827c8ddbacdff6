//! The steps and offsets that the tests of positions of selectors ask for.

ghost use Rattle.std.specs.Prelude.{◌≡◌, ◌++◌, OnOk, IfOk, filter_map};
ghost use Rattle.slot_plan.specs.Parts.{part_of, parts_of, pair_parts};

use css_model::{AnB, Compound, Selector, Test};
use smallvec::SmallVec;
use std::alloc::{AllocError, Global};

/// How many of them are kept without an allocation.
const INLINE: usize = 8;

/// The steps and offsets of a pair.
pub(crate) type Parts = SmallVec<AnB, INLINE>;

/// The steps and offsets of a pair of selectors.
pub(crate) fn pair_parts(
    alloc: Global,
    left: &Selector,
    right: &Selector,
) -> Result<Parts, AllocError>
    ensures { IfOk result (λ parts. parts.items ≡ pair_parts left.now right.now) }
{
    let mut parts = SmallVec::new(alloc);
    push_parts(&mut parts, left)?;
    push_parts(&mut parts, right)?;
    Ok(parts)
}

/// Adds the steps and offsets of a selector.
#[tactic(auto, using(crate::proofs::GatheredParts::parts_more))]
fn push_parts(parts: &mut Parts, selector: &Selector) -> Result<(), AllocError>
    ensures { OnOk result (parts.new.items ≡ parts.old.items ++ parts_of selector.now) }
{
    for compound in &selector.chain {
        push_parts_of(parts, compound)?;
    }
    Ok(())
}

/// Adds the steps and offsets of a compound.
#[tactic(auto, using(crate::proofs::GatheredParts::given_more, crate::proofs::GatheredParts::none_more))]
fn push_parts_of(parts: &mut Parts, compound: &Compound) -> Result<(), AllocError>
    ensures { OnOk result
        (parts.new.items ≡ parts.old.items ++ filter_map (λ s. part_of s.test) compound.now) }
{
    for simple in compound.simples.as_slice() {
        if let Some(part) = part_of(&simple.test) {
            parts.push(part)?;
        }
    }
    Ok(())
}

/// The step and the offset that a test asks for. An only child is the first one, and the first from the end.
fn part_of(test: &Test) -> Option<AnB>
    ensures { result ≡ part_of test.now }
{
    match test {
        Test::Nth(positions) => Some(*positions),
        Test::NthLast(positions) => Some(*positions),
        Test::OnlyChild => Some(AnB { a: 0, b: 1 }),
        _ => None,
    }
}
