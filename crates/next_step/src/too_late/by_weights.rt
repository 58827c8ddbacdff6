//! Whether the steps by declarations of two rules are known to come too late, by what the rules weigh.

ghost use Rattle.std.specs.Prelude.{◌≡◌, ◌<◌, length, true};
ghost use Rattle.step_laws.specs.declared.step.Step as declared;
ghost use Rattle.step_laws.specs.Steps.{first_item, last_item};
ghost use Rattle.next_step.specs.Kinds.{IsByDecls};
ghost use Rattle.next_step.specs.Late.{CommonWeighsAtMost, FirstByDecls, IsLate, IsWeighedAt};
ghost use Rattle.next_step.specs.Once.{DeclsStandOnce};
ghost use Rattle.next_step.specs.Viewed.{ArePartners, IsView};

use crate::apart::masks::{decls_differ, share_no_selector};
use crate::queue::found::Found;
use crate::queue::order::order_key_of;
use crate::too_late::by_order_keys::most_behind;
use crate::view::{Partners, View};
use indexed_sheet::IndexedSheet;
use step_kinds::Kind;
use step_queue::RuleWeight;

/// Whether a step that saves at most this may come too late, by what the first of the others saves.
pub(crate) fn is_within(found: &Found, most: u64) -> bool {
    match &found.others {
        Some(other) => most <= u64::from(other.saving.0),
        None => false,
    }
}

/// What the rule of this number weighs at most.
pub(crate) fn weight_at(view: &View<'_>, number: u32) -> RuleWeight
    requires view { IsView view.now }
    requires there { number < length view.now.indexed.now.items }
    ensures { IsWeighedAt view.now.source.now view.now.indexed.now.items number result }
{
    view.weights.under(view.indexed.mark(number).item_id)
}

/// Whether each declaration of the rule of this number is known to be in it once.
pub(crate) fn is_known_once(view: &View<'_>, number: u32) -> bool
    requires view { IsView view.now }
    requires there { number < length view.now.indexed.now.items }
    ensures { result ≡ true → DeclsStandOnce view.now.indexed.now.items number }
{
    weight_at(view, number).once
}

/// What the selectors of the lower rule that the upper one has weigh at most, and `more` besides.
/// `below` is what the lower rule weighs at most.
fn with_common(view: &View<'_>, partners: &Partners, below: RuleWeight, more: u32) -> u64
    requires partners { ArePartners view.now.indexed.now partners.now }
    requires weighed { IsWeighedAt view.now.source.now view.now.indexed.now.items partners.now.lower below }
    ensures { CommonWeighsAtMost view.now.source.now view.now.indexed.now.items partners.now.upper partners.now.lower more result }
{
    if partners.apart || share_no_selector(view.indexed, partners.upper, partners.lower) {
        return u64::from(more);
    }
    u64::from(more) + u64::from(below.selectors)
}

/// The first kind of the steps by declarations that two rules may have, and what the declarations that go weigh at most.
fn first_by_decls(
    indexed: &IndexedSheet,
    partners: &Partners,
    above: RuleWeight,
    below: RuleWeight,
) -> (Kind, u32)
    requires { ArePartners indexed.now partners.now }
    ensures { FirstByDecls indexed.now.items partners.now.upper partners.now.lower above below result.0 result.1 }
{
    if decls_differ(indexed, partners.upper, partners.lower) {
        return (Kind::Sharing, above.decls);
    }
    (Kind::DeclJoinUp, above.decls.max(below.decls))
}

/// Whether the steps by declarations of two rules are known not to come before the first of the others that were found.
/// What the rules weigh shows it.
pub(crate) fn is_light(view: &View<'_>, partners: &Partners, found: &Found) -> bool
    requires view { IsView view.now }
    requires partners { ArePartners view.now.indexed.now partners.now }
    ensures { result ≡ true → (k : declared.Step) → IsByDecls k → first_item k ≡ partners.now.upper → last_item k ≡ partners.now.lower
        → IsLate view.now.source.now view.now.indexed.now found.now k }
{
    let below = weight_at(view, partners.lower);
    if !below.once {
        return false;
    }
    let above = weight_at(view, partners.upper);
    let (kind, decls) = first_by_decls(view.indexed, partners, above, below);
    let most = with_common(view, partners, below, decls);
    if !is_within(found, most) {
        return false;
    }
    match most_behind(
        &found.others,
        kind,
        order_key_of(view.indexed, partners.upper),
        order_key_of(view.indexed, partners.lower),
    ) {
        Some(limit) => most <= limit,
        None => false,
    }
}
