//! Whether the steps by declarations of the focus and another rule come too late, by the declarations that both may have.

ghost use Rattle.std.specs.Prelude.{◌≡◌, ◌<◌, ◌≤◌, ◌^◌, ℕ, IfSome, List, Some, length, slice_get, true};
ghost use Rattle.css_model.specs.declared.sheet.Item.TheVariants as item;
ghost use Rattle.css_model.specs.Sheets.RuleParts.{RuleParts};
ghost use Rattle.next_step.specs.Common.{AreFocusAnd, AreInCommon, IsPlain, KeepsAtLeast, SavesAtMost};
ghost use Rattle.indexed_sheet.specs.MarkList.{order_keys_of};
ghost use Rattle.next_step.specs.Kinds.{IsByDecls};
ghost use Rattle.next_step.specs.Looking.{ReachesLast};
ghost use Rattle.next_step.specs.Viewed.{ArePartners, CoversIn, IsFocus, IsView};
ghost use Rattle.pending_laws.specs.Priorities.{named};
ghost use Rattle.step_laws.specs.declared.step.Step as declared;
ghost use Rattle.step_laws.specs.declared.step.Step.TheVariants as kinds;
ghost use Rattle.step_laws.specs.Steps.{first_item, last_item};
ghost use Rattle.step_queue.specs.RuleWeights.{WeighsAtMost};

use crate::queue::found::Found;
use crate::too_late::by_parts::late_saving;
use crate::too_late::by_weights::weight_at;
use crate::view::{Focus, Partners, View};
use rule_tables::Common;
use step_kinds::Kind;
use step_queue::RuleWeight;

/// What the selectors of a rule with this weight weigh at least, if it has more declarations than two rules may have in common.
/// Else it is 0. A share that leaves a declaration of the rule writes them again.
fn kept_at_least(weight: RuleWeight, common: Common) -> u64
    ensures keeps { (source : List ℕ) (r : RuleParts) → WeighsAtMost source r weight → KeepsAtLeast source r common.count result }
    ensures small { result < 2 ^ 32 }
{
    let count = weight.count as usize;
    if common.count < count {
        u64::from(weight.least)
    } else {
        0
    }
}

/// Whether a step of two rules that saves at most this is known not to come before the first of the others, if it is a share.
fn is_share_late(view: &View<'_>, partners: &Partners, found: &Found, most: u64) -> bool
    requires { ArePartners view.now.indexed.now partners.now }
    ensures { result ≡ true → (n : ℕ) → 0 < n → n ≤ most → ReachesLast found.now.others
        (named (order_keys_of view.now.indexed.now.marks) n (kinds.Share partners.now.upper partners.now.lower)) }
{
    if most == 0 {
        return true;
    }
    match late_saving(view.indexed, &found.others, Kind::Sharing, partners) {
        Some(limit) => most <= limit,
        None => false,
    }
}

/// Whether a rule is known to have each of its declarations once, and to print them as they tell.
fn is_once_and_plain(weight: RuleWeight) -> bool
    ensures once { result ≡ true → weight.once ≡ true }
    ensures plain { result ≡ true → weight.plain ≡ true }
{
    weight.once && weight.plain
}

/// Whether the focus and the rule of another number have each of their declarations once, and print them as they tell.
fn are_plain(view: &View<'_>, focus: &Focus<'_>, other: u32) -> bool
    requires view { IsView view.now }
    requires focus { IsFocus view.now focus.now }
    requires other { other < length view.now.indexed.now.items }
    ensures ours { result ≡ true → IsPlain view.now.source.now focus.now.rule.now }
    ensures theirs { result ≡ true → (r : RuleParts) → slice_get view.now.indexed.now.items other ≡ Some (item.Rule r) → IsPlain view.now.source.now r }
{
    if !focus.once {
        return false;
    }
    let theirs = weight_at(view, other);
    if !is_once_and_plain(theirs) {
        return false;
    }
    weight_at(view, focus.number).plain
}

/// What a share of two rules with these weights, which have at most these declarations in common and no selector, saves at most.
/// `Some` only if one of the rules keeps a declaration. Then they have no joins by declarations, and their share saves no more than
/// these declarations weigh, without the selectors that it writes again.
fn most_saved(ours: RuleWeight, theirs: RuleWeight, common: Common) -> Option<u64>
    ensures { IfSome result (λ most. (source : List ℕ) (r q : RuleParts) → WeighsAtMost source r ours → WeighsAtMost source q theirs → SavesAtMost source r q common most) }
{
    let kept = kept_at_least(ours, common) + kept_at_least(theirs, common);
    if kept == 0 {
        return None;
    }
    Some(common.weight.saturating_sub(kept))
}

/// Whether the steps by declarations of the focus and the rule of another number are known not to come before the first of the
/// others, by the declarations that they may have in common.
pub(crate) fn is_poor(
    view: &View<'_>,
    focus: &Focus<'_>,
    other: u32,
    partners: &Partners,
    common: Common,
    found: &Found,
) -> bool
    requires view { IsView view.now }
    requires focus { IsFocus view.now focus.now }
    requires other { other < length view.now.indexed.now.items }
    requires partners { ArePartners view.now.indexed.now partners.now }
    requires both { AreFocusAnd focus.now other partners.now }
    requires common { (r : RuleParts) → slice_get view.now.indexed.now.items other ≡ Some (item.Rule r) → AreInCommon view.now.source.now focus.now.rule.now r common }
    ensures { result ≡ true → (k : declared.Step) → IsByDecls k → first_item k ≡ partners.now.upper → last_item k ≡ partners.now.lower
        → CoversIn view.now found.now k }
{
    if !partners.apart {
        return false;
    }
    if !are_plain(view, focus, other) {
        return false;
    }
    let ours = weight_at(view, focus.number);
    let theirs = weight_at(view, other);
    match most_saved(ours, theirs, common) {
        Some(most) => is_share_late(view, partners, found, most),
        None => false,
    }
}
