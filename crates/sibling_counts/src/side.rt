//! What is asked of the siblings on one side of a child, and of those on both.

ghost use Rattle.std.specs.Prelude.{◌≡◌, ◌++◌, IfOk, OnOk, filter_map};
ghost use Rattle.std.specs.List.{list_all};
ghost use Rattle.sibling_counts.specs.Sides.{behind_test, both_hold, front_test};

use css_model::{AnB, Simple, Test};
use smallvec::SmallVec;
use std::alloc::{AllocError, Global};

/// How many tests are kept without an allocation.
const INLINE: usize = 8;

/// A test of the position among the siblings, from one end on (Selectors 3, section 6.6.5).
#[derive(Clone, Copy, Debug, Default, PartialEq, Eq)]
pub(crate) struct Asked {
    /// The positions.
    pub positions: AnB,
    /// Whether the test is in `:not()`.
    pub negated: bool,
}

/// The tests of one side.
pub(crate) type Tests = SmallVec<Asked, INLINE>;

/// The tests from the first sibling on, of both compounds.
#[tactic(auto, using(crate::proofs::Splitting::fronts_joined))]
pub(crate) fn front_tests(alloc: Global, x: &[Simple], y: &[Simple]) -> Result<Tests, AllocError>
    ensures { IfOk result (λ tests. tests.items ≡ filter_map front_test (x.now ++ y.now)) }
{
    let mut tests = SmallVec::new(alloc);
    push_fronts(&mut tests, x)?;
    push_fronts(&mut tests, y)?;
    Ok(tests)
}

/// Adds the tests from the first sibling on.
fn push_fronts(tests: &mut Tests, simples: &[Simple]) -> Result<(), AllocError>
    ensures { OnOk result (tests.new.items ≡ tests.old.items ++ filter_map front_test simples.now) }
{
    for simple in simples {
        if let Some(test) = front_test(simple) {
            tests.push(test)?;
        }
    }
    Ok(())
}

fn front_test(simple: &Simple) -> Option<Asked>
    ensures { result ≡ front_test simple.now }
{
    match &simple.test {
        Test::Nth(positions) => Some(Asked {
            positions: *positions,
            negated: simple.negated,
        }),
        _ => None,
    }
}

/// The tests from the last sibling on, of both compounds.
#[tactic(auto, using(crate::proofs::Splitting::behinds_joined))]
pub(crate) fn behind_tests(alloc: Global, x: &[Simple], y: &[Simple]) -> Result<Tests, AllocError>
    ensures { IfOk result (λ tests. tests.items ≡ filter_map behind_test (x.now ++ y.now)) }
{
    let mut tests = SmallVec::new(alloc);
    push_behinds(&mut tests, x)?;
    push_behinds(&mut tests, y)?;
    Ok(tests)
}

/// Adds the tests from the last sibling on.
fn push_behinds(tests: &mut Tests, simples: &[Simple]) -> Result<(), AllocError>
    ensures { OnOk result (tests.new.items ≡ tests.old.items ++ filter_map behind_test simples.now) }
{
    for simple in simples {
        if let Some(test) = behind_test(simple) {
            tests.push(test)?;
        }
    }
    Ok(())
}

fn behind_test(simple: &Simple) -> Option<Asked>
    ensures { result ≡ behind_test simple.now }
{
    match &simple.test {
        Test::NthLast(positions) => Some(Asked {
            positions: *positions,
            negated: simple.negated,
        }),
        _ => None,
    }
}

/// Whether each test of an only child, or of the root, holds of a child for both compounds. `alone` says whether the
/// child is alone.
#[tactic(auto, using(crate::proofs::Splitting::both_joined))]
pub(crate) fn both_pass(alone: bool, x: &[Simple], y: &[Simple]) -> bool
    ensures { result ≡ list_all (both_hold alone) (x.now ++ y.now) }
{
    both_hold(alone, x) && both_hold(alone, y)
}

/// Whether each test of an only child, or of the root, holds of a child for one compound. `alone` says whether the
/// child is alone.
fn both_hold(alone: bool, simples: &[Simple]) -> bool
    ensures { result ≡ list_all (both_hold alone) simples.now }
{
    for simple in simples {
        if !one_holds(alone, simple) {
            return false;
        }
    }
    true
}

fn one_holds(alone: bool, simple: &Simple) -> bool
    ensures { result ≡ both_hold alone simple.now }
{
    match &simple.test {
        Test::OnlyChild => alone != simple.negated,
        Test::Root => simple.negated,
        _ => true,
    }
}
