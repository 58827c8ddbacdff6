//! Order keys on both sides of one.

ghost use Rattle.std.specs.Prelude.{◌<◌, ◌≤◌, ℕ, length, slice_index};
ghost use Rattle.std.specs.List.Sorted.{IsStrictlyIncreasing};
ghost use Rattle.next_step.specs.Halves.{AreAbove, AreBelow};

/// The order keys before the one of this number: those below `at`.
#[tactic(auto, using(crate::proofs::Halves::below_are))]
fn order_keys_before(order_keys: &[u64], at: u64, number: usize) -> &[u64]
    requires ascends { IsStrictlyIncreasing order_keys.now }
    requires place { number ≤ length order_keys.now }
    requires before { (k : ℕ) → k < number → slice_index order_keys.now k < at }
    requires behind { (k : ℕ) → number ≤ k → k < length order_keys.now → at ≤ slice_index order_keys.now k }
    ensures { AreBelow order_keys.now at result.now }
{
    &order_keys[..number]
}

/// The order keys from the one of this number on: those above `at`.
#[tactic(auto, using(crate::proofs::Halves::above_are))]
fn order_keys_from(order_keys: &[u64], at: u64, number: usize) -> &[u64]
    requires ascends { IsStrictlyIncreasing order_keys.now }
    requires place { number ≤ length order_keys.now }
    requires before { (k : ℕ) → k < number → k < length order_keys.now → slice_index order_keys.now k ≤ at }
    requires behind { (k : ℕ) → number ≤ k → k < length order_keys.now → at < slice_index order_keys.now k }
    ensures { AreAbove order_keys.now at result.now }
{
    &order_keys[number..]
}

/// The order keys below `at`, and those above it. The order keys ascend.
pub(crate) fn halves(order_keys: &[u64], at: u64) -> (&[u64], &[u64])
    requires { IsStrictlyIncreasing order_keys.now }
    ensures below { AreBelow order_keys.now at result.0.now }
    ensures above { AreAbove order_keys.now at result.1.now }
{
    match order_keys.binary_search(&at) {
        Ok(number) => (
            order_keys_before(order_keys, at, number),
            order_keys_from(order_keys, at, number + 1),
        ),
        Err(number) => (
            order_keys_before(order_keys, at, number),
            order_keys_from(order_keys, at, number),
        ),
    }
}
