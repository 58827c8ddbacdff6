//! Which common members weigh.

ghost use Rattle.std.specs.Prelude.{◌≡◌, ◌↔◌, ◌&&◌, IsTrue};
ghost use Rattle.order_laws.specs.Comparing as order;
ghost use Rattle.selector_laws.specs.Limits.{KeepsLimits};
ghost use Rattle.sheet_members.specs.Ready.{IsReady, IsReadyCommon};
ghost use Rattle.turned_members.specs.Weighing as spec;
ghost use Rattle.turned_members.specs.Weight as weights;

use crate::weight::{Weight, may_weigh};
use css_model::{Decl, DeclItem, Item, SelItem, Selector};
use order_laws::weighing_is_decided;
use related_props::related;
use sheet_members::{Common, Occurrence, Part};
use std::marker::Model;
use window_order::{same_specificity, weighs_kept};

/// A pair with the normal text of its value.
#[derive(Drop)]
struct NormalPair<'a> {
    selector: &'a Selector,
    decl: &'a Decl,
    text: &'a [u8],
}

impl<'a> Model for NormalPair<'a> {
    ghost use Rattle.css_model.specs.Cascade.Order as order;

    ghost Value = { order.Pair };

    ghost view = { λ p. record {
      selector = p.selector.now;
      decl = record { name = p.decl.now.name; value = p.text.now; important = p.decl.now.important };
    } };
}

/// A selector and a declaration that occur together, with the normal text of the value.
fn pair_of<'a>(s: &'a SelItem, d: &'a DeclItem, o: &'a Occurrence<'a>) -> NormalPair<'a>
    ensures { result ≡ spec.normal_pair s.now d.now o.now.text }
{
    NormalPair {
        selector: &s.selector,
        decl: &d.decl,
        text: o.text.bytes(),
    }
}

/// Whether all of three hold.
fn all_three(a: bool, b: bool, c: bool) -> bool
    ensures { result ≡ (a && (b && c)) }
{
    a && (b && c)
}

/// Whether all of four hold.
fn all_four(a: bool, b: bool, c: bool, d: bool) -> bool
    ensures { result ≡ (a && (b && (c && d))) }
{
    a && (b && (c && d))
}

/// Whether the declarations of two pairs are the same.
#[tactic(auto, using(crate::proofs::Weights::decls_test))]
fn same_decls(p: &NormalPair<'_>, q: &NormalPair<'_>) -> bool
    ensures { IsTrue result ↔ (p.now.decl ≡ q.now.decl) }
{
    let names = p.decl.name == q.decl.name;
    let values = p.text == q.text;
    let importance = p.decl.important == q.decl.important;
    all_three(names, values, importance)
}

/// Whether two pairs weigh.
#[tactic(auto, using(crate::proofs::Weights::weigh_test))]
fn normal_weigh(p: &NormalPair<'_>, q: &NormalPair<'_>) -> bool
    requires first { KeepsLimits p.now.selector }
    requires second { KeepsLimits q.now.selector }
    ensures { result ≡ order.weigh p.now q.now }
{
    // A law, which does nothing.
    weighing_is_decided();
    let same = same_decls(p, q);
    let names = related(&p.decl.name, &q.decl.name);
    let importance = p.decl.important == q.decl.important;
    let specificity = same_specificity(p.selector, q.selector);
    all_four(!same, names, importance, specificity)
}

/// Whether a pair and an item weigh.
#[tactic(auto, using(crate::proofs::Weights::kept_test))]
fn kept_weighs(p: &NormalPair<'_>, item: &Item) -> bool
    ensures { result ≡ order.weighs_kept p.now item.now }
{
    // A law, which does nothing.
    weighing_is_decided();
    weighs_kept(p.decl, item)
}

/// Whether two occurrences of one sheet weigh.
fn occurrences_weigh(o: &Occurrence<'_>, q: &Occurrence<'_>) -> bool
    requires first { IsReady o.now }
    requires second { IsReady q.now }
    ensures { result ≡ spec.parts_weigh o.now.part o.now.text q.now.part q.now.text }
{
    match (o.part, q.part) {
        (Part::Pair(s, d), Part::Pair(t, e)) => {
            let first = pair_of(s, d, o);
            let second = pair_of(t, e, q);
            normal_weigh(&first, &second)
        }
        (Part::Pair(s, d), Part::Kept(item)) => {
            let pair = pair_of(s, d, o);
            kept_weighs(&pair, item)
        }
        (Part::Kept(item), Part::Pair(s, d)) => {
            let pair = pair_of(s, d, q);
            kept_weighs(&pair, item)
        }
        (Part::Kept(_), Part::Kept(_)) => true,
    }
}

/// Whether two occurrences of the other sheet weigh, if they are pairs.
fn pairs_weigh(o: &Occurrence<'_>, q: &Occurrence<'_>) -> bool
    requires first { IsReady o.now }
    requires second { IsReady q.now }
    ensures { result ≡ spec.pairs_weigh o.now.part o.now.text q.now.part q.now.text }
{
    match (o.part, q.part) {
        (Part::Pair(s, d), Part::Pair(t, e)) => {
            let first = pair_of(s, d, o);
            let second = pair_of(t, e, q);
            normal_weigh(&first, &second)
        }
        _ => true,
    }
}

/// Whether two common members weigh.
fn both_weigh(c: &Common<'_>, d: &Common<'_>) -> bool
    requires first { IsReadyCommon c.now }
    requires second { IsReadyCommon d.now }
    ensures { result ≡ spec.commons_weigh c.now d.now }
{
    occurrences_weigh(c.here(), d.here()) && pairs_weigh(c.elsewhere(), d.elsewhere())
}

/// Whether two common members of these weights weigh. The weights are looked at first: most members that do not weigh
/// have different ones.
#[tactic(auto, using(crate::proofs::Weights::weights_tell))]
pub(crate) fn commons_weigh(c: &Common<'_>, v: &Weight, d: &Common<'_>, w: &Weight) -> bool
    requires first { IsReadyCommon c.now }
    requires second { IsReadyCommon d.now }
    requires weight { v.now ≡ weights.weight_of c.now.mine.occurrence.part }
    requires other { w.now ≡ weights.weight_of d.now.mine.occurrence.part }
    ensures { result ≡ spec.commons_weigh c.now d.now }
{
    // A law, which does nothing.
    weighing_is_decided();
    may_weigh(v, w) && both_weigh(c, d)
}
