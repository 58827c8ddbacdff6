//! The root, as far as its position is asked for (Selectors 3, sections 6.6.1 and 6.6.5).

ghost use Rattle.std.specs.Prelude.{◌≡◌, ◌++◌, true, IsTrue, ◌↔◌};
ghost use Rattle.css_model.specs.Documents.Matching.{IsNth};
ghost use Rattle.slot_plan.specs.Positions.{PositionFits};
ghost use Rattle.single_examples.specs.Examples.{RootPasses};

use css_model::{AnB, Simple, Test};
use nth_positions::member;

/// Whether the root passes two compounds, where it counts as a child or does not.
#[tactic(auto, using(crate::proofs::RootTests::roots_joined, crate::proofs::RootTests::roots_parted))]
pub(crate) fn root_passes(root_is_child: bool, x: &[Simple], y: &[Simple]) -> bool
    ensures { IsTrue result ↔ RootPasses root_is_child (x.now ++ y.now) }
{
    passes_all(root_is_child, x) && passes_all(root_is_child, y)
}

/// Whether the root passes one compound, where it counts as a child or does not.
fn passes_all(root_is_child: bool, simples: &[Simple]) -> bool
    ensures { IsTrue result ↔ RootPasses root_is_child simples.now }
{
    for simple in simples {
        if !passes(root_is_child, simple) {
            return false;
        }
    }
    true
}

/// Whether the root passes a simple selector, where it counts as a child or does not.
fn passes(root_is_child: bool, simple: &Simple) -> bool
    ensures { IsTrue result ↔ PositionFits true root_is_child 0 0 simple.now }
{
    match &simple.test {
        Test::Nth(positions) => is_first(root_is_child, *positions) != simple.negated,
        Test::NthLast(positions) => is_first(root_is_child, *positions) != simple.negated,
        Test::OnlyChild => root_is_child != simple.negated,
        Test::Root => !simple.negated,
        _ => true,
    }
}

/// Whether the root, where it counts as a child, is the first one.
fn is_first(root_is_child: bool, positions: AnB) -> bool
    ensures { IsTrue result ↔ ((root_is_child ≡ true) × IsNth positions 1) }
{
    root_is_child && member(positions, 1)
}
