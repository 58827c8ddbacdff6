//! How many positions of a selector have a step of 2 or more in size.

ghost use Rattle.std.specs.Prelude.{◌≡◌, ◌≤◌, count_by};
ghost use Rattle.css_model.specs.Positions.Range.{is_stepped};
ghost use Rattle.css_model.specs.Selectors.Compounds.{is_stepped_test};
ghost use Rattle.css_model.specs.Sheets.Limits.{max_stepped};
ghost use Rattle.slot_plan.specs.Parts.{stepped_count};

use css_model::{AnB, Compound, Selector, Test};

/// How many positions of a selector have a step of 2 or more in size.
#[tactic(auto, using(crate::proofs::SteppedParts::stepped_within))]
pub(crate) fn count_stepped(selector: &Selector) -> u32
    requires { stepped_count selector.now ≤ max_stepped }
    ensures { result ≡ stepped_count selector.now }
{
    let mut count = 0;
    for compound in &selector.chain {
        count += stepped_in(compound);
    }
    count
}

/// How many positions of a compound have a step of 2 or more in size.
fn stepped_in(compound: &Compound) -> u32
    requires { count_by (λ s. is_stepped_test s.test) compound.now ≤ max_stepped }
    ensures { result ≡ count_by (λ s. is_stepped_test s.test) compound.now }
{
    let mut count = 0;
    for simple in compound.simples.as_slice() {
        if is_stepped_test(&simple.test) {
            count += 1;
        }
    }
    count
}

/// Whether a test is that of a position whose step has a size of 2 or more.
fn is_stepped_test(test: &Test) -> bool
    ensures { result ≡ is_stepped_test test.now }
{
    match test {
        Test::Nth(positions) => is_stepped(*positions),
        Test::NthLast(positions) => is_stepped(*positions),
        _ => false,
    }
}

/// Whether the step has a size of 2 or more.
fn is_stepped(positions: AnB) -> bool
    ensures { result ≡ is_stepped positions }
{
    positions.a.unsigned_abs() >= 2
}
