//! Whether a pair of a selector and a declaration is in another rule.

ghost use Rattle.std.specs.Prelude.{◌≢◌, ◌↔◌, ℕ, IsTrue, List};
ghost use Rattle.std.specs.List.{Contains};
ghost use Rattle.std.specs.List.Sorted.{IsStrictlyIncreasing};
ghost use Rattle.rule_tables.specs.Pairs as pairs;
ghost use Rattle.rule_tables.specs.Tables as spec;

use crate::order_key_lists::has_order_key;
use css_model::{Decl, Selector};

/// Rules with order keys, which answer whether one of them has a pair.
pub trait OrderKeyedRules {
    /// The rules, each with its order key.
    ghost rules: { Self → List spec.OrderKeyed };

    /// Whether a rule with this order key has a selector and a declaration. It takes no memory.
    fn has_pair(&self, order_key: u64, selector: &Selector, decl: &Decl) -> bool
        ensures { IsTrue result ↔ pairs.OrderKeyHasBoth (rules self.now) order_key selector.now decl.now };
}

/// Whether an order key is another one, and a rule with it has a selector and a declaration.
fn is_pair_of_other<R: OrderKeyedRules>(
    rules: &R,
    own: u64,
    order_key: u64,
    selector: &Selector,
    decl: &Decl,
) -> bool
    ensures { IsTrue result ↔ ((order_key ≢ own) × pairs.OrderKeyHasBoth (R.rules rules.now) order_key selector.now decl.now) }
{
    if order_key == own {
        return false;
    }
    rules.has_pair(order_key, selector, decl)
}

/// Whether an order key is another one, and a rule with it has a selector and a declaration, where the order key of each rule
/// that has both is among others.
fn is_pair_of_listed<R: OrderKeyedRules>(
    others: &[u64],
    rules: &R,
    own: u64,
    order_key: u64,
    selector: &Selector,
    decl: &Decl,
) -> bool
    requires ascends { IsStrictlyIncreasing others.now }
    requires listed { pairs.OrderKeyHasBoth (R.rules rules.now) order_key selector.now decl.now → Contains others.now order_key }
    ensures { IsTrue result ↔ ((order_key ≢ own) × pairs.OrderKeyHasBoth (R.rules rules.now) order_key selector.now decl.now) }
{
    if !has_order_key(others, order_key) {
        return false;
    }
    is_pair_of_other(rules, own, order_key, selector, decl)
}

/// How many rules under a digest are looked at before it is known that they are few.
const SOON: usize = 4;

/// Whether one of the first of these order keys is another one whose rule has a selector and a declaration. Where none of
/// them is, a later one may be.
pub(crate) fn is_pair_soon<R: OrderKeyedRules>(
    order_keys: &[u64],
    rules: &R,
    own: u64,
    selector: &Selector,
    decl: &Decl,
) -> bool
    ensures { IsTrue result → pairs.AnotherHasBoth (R.rules rules.now) own selector.now decl.now }
{
    let mut rest = order_keys;
    for _ in 0..SOON {
        let Some((first, behind)) = rest.split_first() else {
            return false;
        };
        if is_pair_of_other(rules, own, *first, selector, decl) {
            return true;
        }
        rest = behind;
    }
    false
}

/// Whether one of these order keys is another one whose rule has a selector and a declaration, where the order key of each rule
/// that has both is in both lists.
pub(crate) fn is_pair_in_both<R: OrderKeyedRules>(
    order_keys: &[u64],
    others: &[u64],
    rules: &R,
    own: u64,
    selector: &Selector,
    decl: &Decl,
) -> bool
    requires ascends { IsStrictlyIncreasing others.now }
    requires all { (order_key : ℕ) → pairs.OrderKeyHasBoth (R.rules rules.now) order_key selector.now decl.now
        → Contains order_keys.now order_key × Contains others.now order_key }
    ensures { IsTrue result ↔ pairs.AnotherHasBoth (R.rules rules.now) own selector.now decl.now }
{
    let mut rest = order_keys;
    'rest: while let Some((first, behind)) = rest.split_first() {
        if is_pair_of_listed(others, rules, own, *first, selector, decl) {
            return true;
        }
        rest = behind;
    }
    false
}
