//! Whether a pair is in a rule of an indexed sheet from an order key on.

ghost use Rattle.std.specs.Prelude.{◌≡◌, ◌≢◌, ◌≤◌, ℕ, Some, false, length, slice_get};
ghost use Rattle.css_model.specs.declared.sheet.Item.TheVariants as item;
ghost use Rattle.css_model.specs.Sheets.Limits.{max_items};
ghost use Rattle.css_model.specs.Sheets.RuleParts.{RuleParts};
ghost use Rattle.indexed_sheet.specs.MarkList.{order_keys_of};
ghost use Rattle.rule_tables.specs.Pairs as pairs;
ghost use Rattle.rule_tables.specs.Tables.{Cover};
ghost use Rattle.next_step.specs.Marked.{rules_of};

use crate::cuts::possible::IndexedRules;
use css_model::{Decl, Selector};
use indexed_sheet::IndexedSheet;
use rule_tables::{OrderKeyedRules, Tables, rules_are_order_keyed};

/// The rules of an indexed sheet whose order keys are `from` or later ones.
#[derive(Clone, Copy, Debug)]
struct RulesFrom<'a> {
    all: IndexedRules<'a>,
    from: u64,
}

impl OrderKeyedRules for RulesFrom<'_> {
    ghost use Rattle.next_step.specs.Marked.{rules_from, rules_of};

    ghost rules = { λ r. rules_from r.from (rules_of r.all.indexed.now) };

    fn has_pair(&self, order_key: u64, selector: &Selector, decl: &Decl) -> bool {
        if order_key < self.from {
            return false;
        }
        self.all.has_pair(order_key, selector, decl)
    }
}

/// Whether a selector and a declaration may be together in a rule of an indexed sheet that has an order key from `from` on, but not `own`.
///
/// `false` only if no such rule has both. Takes no memory. The time is that of the entries with a declaration of the same digest.
pub fn stands_from(
    indexed: &IndexedSheet,
    tables: &Tables,
    from: u64,
    own: u64,
    selector: &Selector,
    decl: &Decl,
) -> bool
    requires few { length indexed.now.items ≤ max_items }
    requires cover { Cover tables.now (rules_of indexed.now) }
    ensures { result ≡ false → (n : ℕ) (r : RuleParts) (order_key : ℕ) → slice_get indexed.now.items n ≡ Some (item.Rule r) → slice_get (order_keys_of indexed.now.marks) n ≡ Some order_key
        → from ≤ order_key → order_key ≢ own → pairs.HasBoth r selector.now decl.now → ⊥ }
{
    rules_are_order_keyed();
    let rules = RulesFrom {
        all: IndexedRules { indexed },
        from,
    };
    tables.is_elsewhere(&rules, own, selector, decl)
}
