//! What takes the place of an item after a step: parts of rules of the sheet, by reference.

ghost use Rattle.std.specs.Prelude.{◌≡◌, ◌++◌, ◌↔◌, ◌∷◌, ◌&&◌, ◌||◌, [], IsTrue, true};
ghost use Rattle.std.specs.Bool.{beq};
ghost use Rattle.css_model.specs.declared.sheet.Item.TheVariants as item;
ghost use Rattle.css_model.specs.Cascade.Order.{HasPair};
ghost use Rattle.order_laws.specs.Members as members;
ghost use Rattle.window_order.specs.Left as left;
ghost use Rattle.window_order.specs.Orders as orders;
ghost use Rattle.window_order.specs.Standing as standing;

use crate::ends::joined;
use crate::order::{PairOrder, first_alone};
use crate::pair::PairRef;
use crate::standing::decl_before;
use css_model::{Decl, DeclItem, SelItem, Selector};
use item_masks::ItemMask;
use rule_parts::{has_decl, has_selector};

/// Selectors that are in rules of a sheet.
#[derive(Clone, Copy)]
pub enum LeftSelectors<'a> {
    /// The selectors of this list.
    All(&'a [SelItem]),
    /// The selectors of the first list, then those of the second.
    Both(&'a [SelItem], &'a [SelItem]),
    /// The selectors of the first list, then those of the second that are not among them.
    Joined(&'a [SelItem], &'a [SelItem]),
}

/// Declarations that are in rules of a sheet.
#[derive(Clone, Copy)]
pub enum LeftDecls<'a> {
    /// The declarations of this list.
    All(&'a [DeclItem]),
    /// The declarations of the first list, then those of the second.
    Both(&'a [DeclItem], &'a [DeclItem]),
    /// The declarations of the first list that are in the second, each once, where it comes last.
    Common(&'a [DeclItem], &'a [DeclItem]),
    /// The declarations of the first list that are not in the second.
    Others(&'a [DeclItem], &'a [DeclItem]),
}

/// A rule of parts that are in rules of a sheet.
#[derive(Clone, Copy)]
pub struct LeftRule<'a> {
    /// Its selectors.
    pub selectors: LeftSelectors<'a>,
    /// Its declarations.
    pub decls: LeftDecls<'a>,
}

/// What takes the place of an item after a step: at most two rules.
#[derive(Clone, Copy)]
pub struct Left<'a> {
    /// A rule that the step makes.
    pub made: Option<LeftRule<'a>>,
    /// What the step leaves of the item, below the rule that it makes. There is no rule where it has no selector or no
    /// declaration.
    pub rest: Option<LeftRule<'a>>,
}

/// Whether a selector is among those of two lists.
fn has_either(first: &[SelItem], second: &[SelItem], selector: &Selector) -> bool
    ensures { result ≡ (members.has_selector first.now selector.now || members.has_selector second.now selector.now) }
{
    has_selector(first, selector) || has_selector(second, selector)
}

/// Whether a selector is among some that are left.
fn has_left_selector(selectors: &LeftSelectors<'_>, selector: &Selector) -> bool
    ensures { result ≡ members.has_selector (left.selectors_of selectors.now) selector.now }
{
    match *selectors {
        LeftSelectors::All(list) => has_selector(list, selector),
        LeftSelectors::Both(first, second) => has_either(first, second, selector),
        LeftSelectors::Joined(first, second) => has_either(first, second, selector),
    }
}

/// Whether a declaration is among those of two lists.
fn has_decl_in_either(first: &[DeclItem], second: &[DeclItem], decl: &Decl) -> bool
    ensures { result ≡ (members.has_decl first.now decl.now || members.has_decl second.now decl.now) }
{
    has_decl(first, decl) || has_decl(second, decl)
}

/// Whether a declaration is in the first list, and is in the others exactly where that is wanted.
fn has_decl_where(wanted: bool, list: &[DeclItem], others: &[DeclItem], decl: &Decl) -> bool
    ensures { result ≡ (beq (members.has_decl others.now decl.now) wanted && members.has_decl list.now decl.now) }
{
    has_decl(others, decl) == wanted && has_decl(list, decl)
}

/// Whether a declaration is among some that are left.
fn has_left_decl(decls: &LeftDecls<'_>, decl: &Decl) -> bool
    ensures { result ≡ members.has_decl (left.decls_of decls.now) decl.now }
{
    match *decls {
        LeftDecls::All(list) => has_decl(list, decl),
        LeftDecls::Both(first, second) => has_decl_in_either(first, second, decl),
        LeftDecls::Common(list, others) => has_decl_where(true, list, others, decl),
        LeftDecls::Others(list, others) => has_decl_where(false, list, others, decl),
    }
}

/// Whether a declaration is in the first list, and another one in the second.
fn are_apart(first: &[DeclItem], second: &[DeclItem], decl: &Decl, other: &Decl) -> bool
    ensures { result ≡ (members.has_decl first.now decl.now && members.has_decl second.now other.now) }
{
    has_decl(first, decl) && has_decl(second, other)
}

/// Whether the last of a declaration is before the last of another one in two lists, the second one below.
fn before_in_both(first: &[DeclItem], second: &[DeclItem], decl: &Decl, other: &Decl) -> bool
    ensures { result ≡ standing.decl_before (first.now ++ second.now) decl.now other.now }
{
    if has_decl(second, decl) {
        return decl_before(second, decl, other);
    }
    if are_apart(first, second, decl, other) {
        return true;
    }
    decl_before(first, decl, other)
}

/// Whether two declarations are both in a list where that is wanted, or are both not in it otherwise.
fn are_both(wanted: bool, list: &[DeclItem], decl: &Decl, other: &Decl) -> bool
    ensures { result ≡ (beq (members.has_decl list.now decl.now) wanted && beq (members.has_decl list.now other.now) wanted) }
{
    has_decl(list, decl) == wanted && has_decl(list, other) == wanted
}

/// Whether the last of a declaration is before the last of another one in the first list, and both are in the others
/// where that is wanted, or are both not in them otherwise.
fn before_where(
    wanted: bool,
    list: &[DeclItem],
    others: &[DeclItem],
    decl: &Decl,
    other: &Decl,
) -> bool
    ensures { result ≡ ((beq (members.has_decl others.now decl.now) wanted && beq (members.has_decl others.now other.now) wanted) && standing.decl_before list.now decl.now other.now) }
{
    are_both(wanted, others, decl, other) && decl_before(list, decl, other)
}

/// Whether the last of a declaration is before the last of another one among some that are left.
fn left_decl_before(decls: &LeftDecls<'_>, decl: &Decl, other: &Decl) -> bool
    ensures { result ≡ standing.decl_before (left.decls_of decls.now) decl.now other.now }
{
    match *decls {
        LeftDecls::All(list) => decl_before(list, decl, other),
        LeftDecls::Both(first, second) => before_in_both(first, second, decl, other),
        LeftDecls::Common(list, others) => before_where(true, list, others, decl, other),
        LeftDecls::Others(list, others) => before_where(false, list, others, decl, other),
    }
}

/// Whether a pair is in a rule that is left.
fn is_in_left(rule: &LeftRule<'_>, p: &PairRef<'_>) -> bool
    ensures { result ≡ standing.is_in_rule (left.rule_of rule.now) p.now }
{
    has_left_decl(&rule.decls, p.decl) && has_left_selector(&rule.selectors, p.selector)
}

/// Whether two pairs are in a rule that is left, the last of the first before the last of the second. The first one is
/// in it; `second` says whether the second one is.
fn left_before(rule: &LeftRule<'_>, p: &PairRef<'_>, q: &PairRef<'_>, second: bool) -> bool
    requires first { standing.is_in_rule (left.rule_of rule.now) p.now ≡ true }
    requires second { second ≡ standing.is_in_rule (left.rule_of rule.now) q.now }
    ensures { result ≡ standing.rule_before (left.rule_of rule.now) p.now q.now }
{
    second && left_decl_before(&rule.decls, p.decl, q.decl)
}

/// How two pairs are ordered in a rule that is left.
fn order_in_left(rule: &LeftRule<'_>, p: &PairRef<'_>, q: &PairRef<'_>) -> PairOrder
    ensures { orders.IsOrder (item.Rule (left.rule_of rule.now) ∷ []) p.now q.now result }
{
    let second = is_in_left(rule, q);
    if is_in_left(rule, p) {
        if left_before(rule, p, q, second) {
            PairOrder::Before
        } else {
            PairOrder::NotBefore
        }
    } else if second {
        PairOrder::Second
    } else {
        PairOrder::Neither
    }
}

/// How two pairs are ordered in a rule that has both.
fn order_in_whole(rule: &LeftRule<'_>, p: &PairRef<'_>, q: &PairRef<'_>) -> PairOrder
    requires first { standing.is_in_rule (left.rule_of rule.now) p.now ≡ true }
    requires second { standing.is_in_rule (left.rule_of rule.now) q.now ≡ true }
    ensures { orders.IsOrder (item.Rule (left.rule_of rule.now) ∷ []) p.now q.now result }
{
    if left_before(rule, p, q, true) {
        PairOrder::Before
    } else {
        PairOrder::NotBefore
    }
}

/// Whether a pair is in a rule that is there or not, made or left.
fn is_in_any(rule: &Option<LeftRule<'_>>, p: &PairRef<'_>) -> bool
    ensures made { IsTrue result ↔ HasPair (left.made_of rule.now) p.now }
    ensures rest { IsTrue result ↔ HasPair (left.rest_of rule.now) p.now }
{
    match rule {
        Some(rule) => is_in_left(rule, p),
        None => false,
    }
}

/// How two pairs are ordered in a rule that is there or not, made or left.
fn order_in_any(rule: &Option<LeftRule<'_>>, p: &PairRef<'_>, q: &PairRef<'_>) -> PairOrder
    ensures made { orders.IsOrder (left.made_of rule.now) p.now q.now result }
    ensures rest { orders.IsOrder (left.rest_of rule.now) p.now q.now result }
{
    match rule {
        Some(rule) => order_in_left(rule, p, q),
        None => PairOrder::Neither,
    }
}

impl<'a> Left<'a> {
    /// Whether a pair is in what is left.
    fn has_pair(&self, p: &PairRef<'_>) -> bool
        ensures { IsTrue result ↔ HasPair (left.items_of self.now) p.now }
    {
        is_in_any(&self.made, p) || is_in_any(&self.rest, p)
    }

    /// Whether a pair is in what is left, by a mask that meets those of all pairs in it.
    pub(crate) fn has_masked(&self, mask: ItemMask, p: &PairRef<'_>) -> bool
        requires { left.Covers mask (left.items_of self.now) }
        ensures { IsTrue result ↔ HasPair (left.items_of self.now) p.now }
    {
        if !mask.meets(p.mask) {
            return false;
        }
        self.has_pair(p)
    }

    /// How two pairs are ordered in what is left, by whether each is in it.
    pub(crate) fn order_by_both(
        &self,
        p: &PairRef<'_>,
        first: bool,
        q: &PairRef<'_>,
        second: bool,
    ) -> PairOrder
        requires first { IsTrue first ↔ HasPair (left.items_of self.now) p.now }
        requires second { IsTrue second ↔ HasPair (left.items_of self.now) q.now }
        ensures { orders.IsOrder (left.items_of self.now) p.now q.now result }
    {
        if !second {
            return first_alone(first);
        }
        if !first {
            return PairOrder::Second;
        }
        self.order_of(p, q)
    }

    /// How two pairs are ordered in what is left, which has both. In one rule alone neither has to be looked for.
    fn order_of(&self, p: &PairRef<'_>, q: &PairRef<'_>) -> PairOrder
        requires first { HasPair (left.items_of self.now) p.now }
        requires second { HasPair (left.items_of self.now) q.now }
        ensures { orders.IsOrder (left.items_of self.now) p.now q.now result }
    {
        match (&self.made, &self.rest) {
            (Some(rule), None) => order_in_whole(rule, p, q),
            (None, Some(rule)) => order_in_whole(rule, p, q),
            _ => self.order_in_each(p, q),
        }
    }

    /// How two pairs are ordered in what is left, looked for in both rules.
    fn order_in_each(&self, p: &PairRef<'_>, q: &PairRef<'_>) -> PairOrder
        ensures { orders.IsOrder (left.items_of self.now) p.now q.now result }
    {
        let above = order_in_any(&self.made, p, q);
        let below = order_in_any(&self.rest, p, q);
        joined(above, below)
    }
}
