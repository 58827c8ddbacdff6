//! What shares of two rules save. It weighs only the common declarations, and the selectors of the rules that keep others.

ghost use Rattle.std.specs.Prelude.{◌≡◌, ◌↔◌, ◌+◌, ◌<◌, ◌≤◌, IfNone, IfSome, IsTrue, false, true};
ghost use Rattle.std.specs.List.{AllByRecursion};
ghost use Rattle.css_model.specs.Sheets.Limits.{max_bytes};
ghost use Rattle.css_model.specs.Sheets.Printed.{printed_declaration, printed_selector};
ghost use Rattle.css_model.specs.Sheets.Sound.{IsSoundDeclaration};
ghost use Rattle.saved_bytes.specs.Savings.{IsSaving};
ghost use Rattle.step_laws.specs.declared.step.Step.TheVariants as kinds;
ghost use Rattle.step_laws.specs.Sizes as sizes;
ghost use Rattle.step_laws.specs.Steps.{AreDeclsAmong};
ghost use Rattle.step_savings.specs.Apart.{AreApart};
ghost use Rattle.next_step.specs.Once.{StandOnce};
ghost use Rattle.step_savings.specs.Weighing.{IsWeighable};
ghost use Rattle.next_step.specs.Shares.{IsKept, IsNumbered, among_weight, new_selectors};
ghost use Rattle.next_step.specs.Viewed.{ArePartners, IsView};

use crate::apart::masks::has_own_family;
use crate::view::{Partners, View};
use css_model::{DeclItem, Rule};
use indexed_sheet::IndexedSheet;
use rule_parts::{Lengths, are_decls_among, decls_weight, find_rule, has_decl, selectors_weight};
use saved_bytes::KnownLengths;
use step_queue::are_decls_different;

/// What the declarations that are among others weigh, together with `more`, if that is above a limit.
/// It looks at them only until it is known not to be.
fn weight_above(
    source: &KnownLengths<'_>,
    items: &[DeclItem],
    others: &[DeclItem],
    more: u64,
    limit: u64,
) -> Option<u64>
    requires sound { AllByRecursion (IsSoundDeclaration source.now) items.now }
    requires small { sizes.weight (printed_declaration source.now) items.now ≤ max_bytes }
    requires more { more ≤ max_bytes }
    ensures exact { IfSome result (λ n. n ≡ among_weight source.now items.now others.now + more) }
    ensures above { IfSome result (λ n. limit < n) }
    ensures small { IfSome result (λ n. n ≤ max_bytes + max_bytes) }
    ensures none { IfNone result (among_weight source.now items.now others.now + more ≤ limit) }
{
    let mut most = decls_weight(source, items) + more;
    let mut rest = items;
    'rest: while let Some((first, behind)) = rest.split_first() {
        if most <= limit {
            return None;
        }
        if !has_decl(others, &first.decl) {
            most -= source.decl(first) + 1;
        }
        rest = behind;
    }
    if most <= limit {
        return None;
    }
    Some(most)
}

/// Whether each declaration of a rule is one of another one's.
fn are_all_among(rule: &Rule, theirs: &Rule) -> bool
    ensures { IsTrue result ↔ AreDeclsAmong rule.now theirs.now }
{
    are_decls_among(&rule.decls, &theirs.decls)
}

/// A rule and its number.
#[derive(Clone, Copy)]
struct Numbered<'a> {
    number: u32,
    rule: &'a Rule,
}

/// Whether a rule keeps a declaration if those of another one are taken out.
fn keeps_some(indexed: &IndexedSheet, one: &Numbered<'_>, other: &Numbered<'_>) -> bool
    requires one { IsNumbered indexed.now.items one.now.number one.now.rule.now }
    requires other { IsNumbered indexed.now.items other.now.number other.now.rule.now }
    ensures keeps { result ≡ true → AreDeclsAmong one.now.rule.now other.now.rule.now → ⊥ }
    ensures none { result ≡ false → AreDeclsAmong one.now.rule.now other.now.rule.now }
{
    if has_own_family(indexed, one.number, other.number) {
        return true;
    }
    !are_all_among(one.rule, other.rule)
}

/// What the selectors of a rule weigh if it keeps a declaration once those of another one are taken out, or else 0.
fn kept_weight(view: &View<'_>, one: &Numbered<'_>, other: &Numbered<'_>) -> u64
    requires weighable { IsWeighable view.now.source.now one.now.rule.now }
    requires one { IsNumbered view.now.indexed.now.items one.now.number one.now.rule.now }
    requires other { IsNumbered view.now.indexed.now.items other.now.number other.now.rule.now }
    ensures kept { IsKept view.now.source.now one.now.rule.now other.now.rule.now result }
    ensures small { result ≤ max_bytes }
{
    if keeps_some(view.indexed, one, other) {
        let rule = one.rule;
        return selectors_weight(view.source, &rule.selectors);
    }
    0
}

/// At least what the selectors of the lower rule weigh that the upper one has, too. It is 0 if `apart` holds.
fn common_weight(source: &KnownLengths<'_>, above: &Rule, below: &Rule, apart: bool) -> u64
    requires weighable { IsWeighable source.now below.now }
    requires apart { apart ≡ true → AreApart above.now below.now }
    ensures most { sizes.weight (printed_selector source.now) below.now.selectors ≤ result + sizes.weight (printed_selector source.now) (new_selectors above.now below.now) }
    ensures exact { apart ≡ true → result ≡ 0 }
    ensures small { result ≤ max_bytes }
{
    if apart {
        return 0;
    }
    selectors_weight(source, &below.selectors)
}

/// How much `weight` is above `kept`, if `apart` holds. `None` says nothing.
/// This is what a share saves: the weight of the common declarations less that of the selectors that are written twice.
fn saving_above(weight: u64, kept: u64, apart: bool) -> Option<u32>
    requires more { kept < weight }
    requires small { weight ≤ max_bytes + max_bytes }
    ensures { IfSome result (λ n. (apart ≡ true) × (n + kept ≡ weight)) }
{
    if !apart {
        return None;
    }
    Some((weight - kept) as u32)
}

/// What the share of these two rules saves, if that is known. Each declaration of the lower one is in it once.
fn saving_of(view: &View<'_>, partners: &Partners, above: &Rule, below: &Rule) -> Option<u32>
    requires view { IsView view.now }
    requires partners { ArePartners view.now.indexed.now partners.now }
    requires above { IsNumbered view.now.indexed.now.items partners.now.upper above.now }
    requires below { IsNumbered view.now.indexed.now.items partners.now.lower below.now }
    requires once { StandOnce (λ x. x.decl) below.now.decls }
    ensures { IfSome result (IsSaving view.now.source.now view.now.indexed.now.items (kinds.Share partners.now.upper partners.now.lower)) }
{
    let upper = Numbered {
        number: partners.upper,
        rule: above,
    };
    let lower = Numbered {
        number: partners.lower,
        rule: below,
    };
    let kept = kept_weight(view, &upper, &lower) + kept_weight(view, &lower, &upper);
    let more = common_weight(view.source, above, below, partners.apart);
    match weight_above(view.source, &above.decls, &below.decls, more, kept) {
        Some(weight) => saving_above(weight, kept, partners.apart),
        None => Some(0),
    }
}

/// Whether each declaration of a rule is known to be in it once. `once` says that it is known already.
fn has_each_once(rule: &Rule, once: bool) -> bool
    requires { once ≡ true → StandOnce (λ x. x.decl) rule.now.decls }
    ensures { result ≡ true → StandOnce (λ x. x.decl) rule.now.decls }
{
    if once {
        return true;
    }
    are_decls_different(&rule.decls)
}

/// What the share of two rules saves, if that is known.
pub(crate) fn share_saving(view: &View<'_>, partners: &Partners) -> Option<u32>
    requires view { IsView view.now }
    requires partners { ArePartners view.now.indexed.now partners.now }
    ensures { IfSome result (IsSaving view.now.source.now view.now.indexed.now.items (kinds.Share partners.now.upper partners.now.lower)) }
{
    let Some(above) = find_rule(view.indexed.items(), partners.upper) else {
        return None;
    };
    let Some(below) = find_rule(view.indexed.items(), partners.lower) else {
        return None;
    };
    if !has_each_once(below, partners.lower_once) {
        return None;
    }
    saving_of(view, partners, above, below)
}
