//! Tables of the rules of a sheet by their parts.

ghost use Rattle.std.specs.Prelude.{◌≡◌, ◌≢◌, ◌↔◌, ◌∷◌, [], ℕ, true, IfOk, IsTrue, List, OnErr, OnOk, length, map};
ghost use Rattle.std.specs.List.{Contains};
ghost use Rattle.std.specs.List.Sorted.{IsStrictlyIncreasing};
ghost use Rattle.css_model.specs.declared.sheet.Decl.{Decl};
ghost use Rattle.css_model.specs.Documents.SelectorParts.{SelectorParts};
ghost use Rattle.css_model.specs.Sheets.StyleRule.{HaveSameSelectors, selectors_of};
ghost use Rattle.rule_tables.specs.OrderKeys.{order_keys_of};
ghost use Rattle.order_laws.specs.Members.{has_decl};
ghost use Rattle.rule_tables.specs.Ahead.{Reaches, total_at};
ghost use Rattle.rule_tables.specs.Pairs as pairs;
ghost use Rattle.rule_tables.specs.SharedKeys.{IsShared};
ghost use Rattle.rule_tables.specs.Tables as spec;
ghost use Rattle.step_laws.specs.Steps.{decls_of};

use crate::digests::{decl_digest, selector_digest};
use crate::entries::{put_decls, put_selectors, take_decls, take_selectors};
use crate::order_key_lists::{OrderKeyLists, has_no_other};
use crate::order_keys::OrderKeys;
use crate::pairs::{OrderKeyedRules, is_pair_in_both, is_pair_soon};
use crate::partners::{
    have_no_others, in_order, is_under_none, order_keys_of_decls, order_keys_of_selectors,
    put_shared, put_under_decls,
};
use crate::shared_keys::SharedKeys;
use css_model::{Decl, Item, Rule, SelItem, Selector};
use std::alloc::{AllocError, Global};
use std::marker::Model;

/// The rules of a sheet by the digests of their selectors and of their declarations. Each rule has an order key of its own.
/// Entries of rules that are gone may stay, since each rule that is found is tested. Whoever takes a rule out of the
/// sheet takes its entries out by `remove`: what stays makes each look longer.
#[derive(Debug, Drop)]
pub struct Tables {
    selectors: OrderKeyLists,
    decls: OrderKeyLists,
}

impl Model for Tables {
    ghost use Rattle.rule_tables.specs.Tables.{TableParts};

    ghost Value = { TableParts };

    ghost view = { λ t. record { selectors = t.selectors; decls = t.decls } };
}

impl Tables {
    /// Tables of the rules among these items, which have these order keys. `AllocError` where memory is short.
    pub fn new(alloc: Global, items: &[Item], order_keys: &[u64]) -> Result<Tables, AllocError>
        ensures exact { IfOk result (λ tables. spec.StandFor tables (spec.order_keyed items.now order_keys.now)) }
        ensures covers { IfOk result (λ tables. spec.Cover tables (spec.order_keyed items.now order_keys.now)) }
    {
        let mut tables = Tables {
            selectors: OrderKeyLists::new(alloc),
            decls: OrderKeyLists::new(alloc),
        };
        let mut rest = items;
        let mut rest_of_order_keys = order_keys;
        'rest: while let Some((item, behind)) = rest.split_first() {
            let Some((order_key, order_keys_behind)) = rest_of_order_keys.split_first() else {
                return Ok(tables);
            };
            tables.put_item(item, *order_key)?;
            rest = behind;
            rest_of_order_keys = order_keys_behind;
        }
        Ok(tables)
    }

    /// Puts the entries of an item in, if it is a rule. After an error some may be there.
    fn put_item(&mut self, item: &Item, order_key: u64) -> Result<(), AllocError>
        ensures { OnOk result (spec.PutsRules self.old (spec.order_keyed (item.now ∷ []) (order_key ∷ [])) self.new) }
    {
        match item {
            Item::Rule(rule) => self.put_rule(rule, order_key),
            Item::KeptRule(_) | Item::KeptBlock(_) => Ok(()),
        }
    }

    /// Puts the entries of a rule in. After an error some may be there.
    fn put_rule(&mut self, rule: &Rule, order_key: u64) -> Result<(), AllocError>
        ensures ok { OnOk result (spec.PutsRule self.old rule.now order_key self.new) }
        ensures err { OnErr result (spec.PutsSomeOf self.old rule.now order_key self.new) }
    {
        put_selectors(&mut self.selectors, &rule.selectors, order_key)?;
        put_decls(&mut self.decls, &rule.decls, order_key)
    }

    /// Puts a rule in with its order key. What the tables cover they still cover, and the rule too. `AllocError` where
    /// memory is short; then some of the rule's entries may be there.
    pub fn insert(&mut self, rule: &Rule, order_key: u64) -> Result<(), AllocError>
        ensures ok { OnOk result (spec.PutsRule self.old rule.now order_key self.new) }
        ensures err { OnErr result (spec.PutsSomeOf self.old rule.now order_key self.new) }
        ensures still { (rules : List spec.OrderKeyed) → spec.Cover self.old rules → spec.Cover self.new rules }
        ensures covers { OnOk result ((rules : List spec.OrderKeyed) → spec.Cover self.old rules
            → spec.Cover self.new (spec.with_order_key rule.now order_key ∷ rules)) }
    {
        self.put_rule(rule, order_key)
    }

    /// Takes the entries of a rule with its order key out, and no others. What the tables cover they still cover, where
    /// none of it has the order key.
    pub fn remove(&mut self, rule: &Rule, order_key: u64)
        ensures exact { spec.TakesRule self.old rule.now order_key self.new }
        ensures still { (rules : List spec.OrderKeyed) → spec.HaveOtherOrderKeys rules order_key → spec.Cover self.old rules
            → spec.Cover self.new rules }
    {
        take_selectors(&mut self.selectors, &rule.selectors, order_key);
        take_decls(&mut self.decls, &rule.decls, order_key);
    }

    /// The order keys of the rules that can be partners of a rule in a step of two rules, ascending. `AllocError` where
    /// memory is short.
    ///
    /// - Of the rules that the tables cover, each is found that has the same selectors or a declaration in common.
    /// - None is found that is under no digest of a part of the rule.
    /// - The rule's own order key is among them, if the tables cover it.
    /// - Order keys of rules that are gone may be among them.
    ///
    /// The time is that of the rule's parts and of what is found, each with a logarithm.
    pub fn partners(&self, alloc: Global, rule: &Rule) -> Result<Vec<u64>, AllocError>
        ensures ascends { IfOk result (λ found. IsStrictlyIncreasing found.items) }
        ensures all { IfOk result (λ found. (rules : List spec.OrderKeyed) (x : spec.OrderKeyed) → spec.Cover self.now rules
            → Contains rules x → spec.CanBePartners rule.now x.rule → Contains found.items x.order_key) }
        ensures only { IfOk result (λ found. (order_key : ℕ) → Contains found.items order_key → spec.IsUnderPart self.now rule.now order_key) }
    {
        let mut found = Vec::new(alloc);
        put_shared(&mut found, &self.selectors, &rule.selectors)?;
        put_under_decls(alloc, &mut found, &self.decls, &rule.decls)?;
        in_order(found)
    }

    /// The order keys, ascending, of the rules with the same selectors, and maybe of others that have a selector whose
    /// digest one of them has. At most eight digests are looked at. By its contract `AllocError` may come; today it
    /// takes no memory.
    pub fn with_selectors(&self, _alloc: Global, rule: &Rule) -> Result<OrderKeys<'_>, AllocError>
        ensures ascends { IfOk result (λ l. IsStrictlyIncreasing (order_keys_of l)) }
        ensures all { IfOk result (λ l. (rules : List spec.OrderKeyed) (x : spec.OrderKeyed) (s : SelectorParts) → spec.Cover self.now rules
            → Contains rules x → Contains (selectors_of rule.now) s → HaveSameSelectors rule.now x.rule
            → Contains (order_keys_of l) x.order_key) }
        ensures only { IfOk result (λ l. (order_key : ℕ) → Contains (order_keys_of l) order_key
            → spec.IsUnderOne self.now.selectors (spec.selector_digests rule.now.selectors) order_key) }
    {
        Ok(OrderKeys::Under(order_keys_of_selectors(&self.selectors, &rule.selectors)))
    }

    /// The order keys of the rules that have one of the declarations, and maybe of others that have one with the digest of
    /// one of them. The declarations weigh so much each. `AllocError` where memory is short.
    pub fn with_decl(
        &self,
        alloc: Global,
        rule: &Rule,
        weights: &[u64],
    ) -> Result<SharedKeys<'_>, AllocError>
        requires { length weights.now ≡ length rule.now.decls }
        ensures all { IfOk result (λ l. (rules : List spec.OrderKeyed) (x : spec.OrderKeyed) (d : Decl) → spec.Cover self.now rules
            → Contains rules x → Contains (decls_of rule.now) d → Contains (decls_of x.rule) d → IsShared l x.order_key) }
        ensures only { IfOk result (λ l. (order_key : ℕ) → IsShared l order_key
            → spec.IsUnderOne self.now.decls (spec.decl_digests rule.now.decls) order_key) }
        ensures count { IfOk result (λ l. (rules : List spec.OrderKeyed) (x : spec.OrderKeyed) → spec.Cover self.now rules → Contains rules x
            → Reaches (total_at (λ c. c.count) l x.order_key) (spec.count_of (has_decl x.rule.decls) rule.now.decls)) }
        ensures weight { IfOk result (λ l. (rules : List spec.OrderKeyed) (x : spec.OrderKeyed) → spec.Cover self.now rules → Contains rules x
            → Reaches (total_at (λ c. c.weight) l x.order_key) (spec.weight_of (has_decl x.rule.decls) rule.now.decls weights.now)) }
    {
        order_keys_of_decls(alloc, &self.decls, &rule.decls, weights)
    }

    /// Whether no other rule than that with the order key `own` has one of the rule's selectors. The answer is no too where
    /// the rule has more than eight, or where others have the digest of one.
    pub fn has_own_selectors(&self, rule: &Rule, own: u64) -> bool
        ensures { result ≡ true → (rules : List spec.OrderKeyed) (x : spec.OrderKeyed) (s : SelectorParts) → spec.Cover self.now rules
            → Contains rules x → x.order_key ≢ own → Contains (selectors_of rule.now) s → Contains (selectors_of x.rule) s → ⊥ }
    {
        have_no_others(&self.selectors, &rule.selectors, own)
    }

    /// Whether the rule with this order key is known to have none of these selectors.
    pub fn has_none_of(&self, order_key: u64, selectors: &[SelItem]) -> bool
        ensures { result ≡ true → (rules : List spec.OrderKeyed) (x : spec.OrderKeyed) (s : SelectorParts) → spec.Cover self.now rules
            → Contains rules x → x.order_key ≡ order_key → Contains (map (λ i. i.selector) selectors.now) s → Contains (selectors_of x.rule) s → ⊥ }
    {
        is_under_none(&self.selectors, selectors, order_key)
    }

    /// Whether a selector and a declaration are together in one of these rules that has another order key than `own`. The
    /// tables cover the rules. The time is that of the entries of the rarer one of the two digests; it is short where
    /// one of the first rules with the declaration has the selector.
    pub fn is_elsewhere<R: OrderKeyedRules>(
        &self,
        rules: &R,
        own: u64,
        selector: &Selector,
        decl: &Decl,
    ) -> bool
        requires { spec.Cover self.now (R.rules rules.now) }
        ensures { IsTrue result ↔ pairs.AnotherHasBoth (R.rules rules.now) own selector.now decl.now }
    {
        let with_decl = self.decls.under(decl_digest(decl));
        if has_no_other(with_decl, own) {
            return false;
        }
        if is_pair_soon(with_decl, rules, own, selector, decl) {
            return true;
        }
        let with_selector = self.selectors.under(selector_digest(selector));
        if with_selector.len() < with_decl.len() {
            return is_pair_in_both(with_selector, with_decl, rules, own, selector, decl);
        }
        is_pair_in_both(with_decl, with_selector, rules, own, selector, decl)
    }
}
