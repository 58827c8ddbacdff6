//! After how many elements of a run what a selector asks repeats.

ghost use Rattle.std.specs.Prelude.{◌≡◌, ◌<◌, ◌≤◌, ◌^◌, ℕ, Bool, List};
ghost use Rattle.css_model.specs.Documents.FeatureParts.{FeatureParts};
ghost use Rattle.cascade_laws.specs.Eval.Repeating.{Repeats};
ghost use Rattle.line_match.specs.Recurring.{recurrence_of, with_chain, with_compound, with_positions, with_step, with_test};
ghost use Rattle.line_match.specs.Runs.{run_tests};

use css_model::{AnB, Compound, Selector, Simple, Test};

/// From where on, and after how many elements, what a selector asks of a run repeats.
#[derive(Clone, Copy, Debug, PartialEq, Eq)]
pub struct Recurrence {
    /// How many siblings are before and after at least.
    pub threshold: u128,
    /// After how many elements it repeats. From 2^32 on it says nothing: no run has as many.
    pub period: u64,
}

/// The recurrence of a selector.
pub(crate) fn recurrence_of(selector: &Selector) -> Recurrence
    ensures moves { 0 < result.period }
    ensures near { result.threshold < 2 ^ 32 }
    ensures repeats { result.period < 2 ^ 32 → (element : FeatureParts) (has_children : Bool) →
        Repeats (run_tests selector.now.chain element has_children) result.threshold result.period }
{
    of_selector(selector)
}

/// The recurrence of a selector, as its definition makes it.
fn of_selector(selector: &Selector) -> Recurrence
    ensures value { result ≡ recurrence_of selector.now.chain }
    ensures near { result.threshold < 2 ^ 32 }
{
    of_chain(selector.chain.as_slice())
}

/// The recurrence of compounds.
fn of_chain(chain: &[Compound]) -> Recurrence
    ensures value { result ≡ recurrence_of chain.now }
    ensures near { result.threshold < 2 ^ 32 }
{
    let mut recurrence = Recurrence {
        threshold: 1,
        period: 1,
    };
    for compound in chain {
        recurrence = with_compound(recurrence, compound.simples.as_slice());
    }
    recurrence
}

/// A recurrence with the positions of one more compound.
fn with_compound(recurrence: Recurrence, simples: &[Simple]) -> Recurrence
    requires near { recurrence.threshold < 2 ^ 32 }
    ensures value { result ≡ with_compound recurrence simples.now }
    ensures near { result.threshold < 2 ^ 32 }
{
    let mut with = recurrence;
    for simple in simples {
        with = with_test(with, &simple.test);
    }
    with
}

/// A recurrence with the positions of one more test.
fn with_test(recurrence: Recurrence, test: &Test) -> Recurrence
    requires near { recurrence.threshold < 2 ^ 32 }
    ensures value { result ≡ with_test recurrence test.now }
    ensures near { result.threshold < 2 ^ 32 }
{
    match test {
        Test::Nth(x) | Test::NthLast(x) => with_positions(recurrence, *x),
        _ => recurrence,
    }
}

/// A recurrence with these positions.
fn with_positions(recurrence: Recurrence, x: AnB) -> Recurrence
    requires near { recurrence.threshold < 2 ^ 32 }
    ensures value { result ≡ with_positions recurrence x }
    ensures near { result.threshold < 2 ^ 32 }
{
    Recurrence {
        threshold: u128::from(x.b.unsigned_abs()).max(recurrence.threshold),
        period: with_step(recurrence.period, u64::from(x.a.unsigned_abs())),
    }
}

/// A multiple of a period and of a step's size. Where the period is no shorter than any run already, it stays.
fn with_step(period: u64, size: u64) -> u64
    requires { size < 2 ^ 32 }
    ensures { result ≡ with_step period size }
{
    if size == 0 || period % size == 0 || period > u64::from(u32::MAX) {
        period
    } else {
        period * size
    }
}
