//! What the masks of two rules say about the steps of both.

ghost use Rattle.std.specs.Prelude.{◌≡◌, ◌<◌, Some, length, map, slice_get, true};
ghost use Rattle.css_model.specs.declared.sheet.Item.TheVariants as item;
ghost use Rattle.css_model.specs.Sheets.RuleParts.{RuleParts};
ghost use Rattle.item_masks.specs.Masks.{item_mask};
ghost use Rattle.step_laws.specs.declared.step.Step.TheVariants as kinds;
ghost use Rattle.step_laws.specs.Steps.{AreDeclsAmong, HasStep};
ghost use Rattle.step_savings.specs.Apart.{RulesApart};

use indexed_sheet::IndexedSheet;
use item_masks::ItemMask;

/// The mask of the item of this number.
fn mask_at(indexed: &IndexedSheet, number: u32) -> ItemMask
    requires { number < length indexed.now.items }
    ensures { slice_get (map item_mask indexed.now.items) number ≡ Some result }
{
    indexed.masks()[number as usize]
}

/// Whether two rules are known to have no join up by their selectors.
pub(crate) fn selectors_differ(indexed: &IndexedSheet, upper: u32, lower: u32) -> bool
    requires upper { upper < length indexed.now.items }
    requires lower { lower < length indexed.now.items }
    ensures { result ≡ true → HasStep indexed.now.items (kinds.JoinSelUp upper lower) → ⊥ }
{
    let above = mask_at(indexed, upper);
    let below = mask_at(indexed, lower);
    above.selectors != below.selectors
}

/// Whether two rules are known to have no join up by their declarations.
pub(crate) fn decls_differ(indexed: &IndexedSheet, upper: u32, lower: u32) -> bool
    requires upper { upper < length indexed.now.items }
    requires lower { lower < length indexed.now.items }
    ensures { result ≡ true → HasStep indexed.now.items (kinds.JoinDeclUp upper lower) → ⊥ }
{
    let above = mask_at(indexed, upper);
    let below = mask_at(indexed, lower);
    above.families != below.families
}

/// Whether two rules are known to have no share.
pub(crate) fn share_no_decl(indexed: &IndexedSheet, upper: u32, lower: u32) -> bool
    requires upper { upper < length indexed.now.items }
    requires lower { lower < length indexed.now.items }
    ensures { result ≡ true → HasStep indexed.now.items (kinds.Share upper lower) → ⊥ }
{
    let above = mask_at(indexed, upper);
    let below = mask_at(indexed, lower);
    above.families & below.families == 0
}

/// Whether two rules are known to have no selector in common.
pub(crate) fn share_no_selector(indexed: &IndexedSheet, one: u32, other: u32) -> bool
    requires one { one < length indexed.now.items }
    requires other { other < length indexed.now.items }
    ensures { result ≡ true → RulesApart indexed.now.items one other }
{
    let ours = mask_at(indexed, one);
    let theirs = mask_at(indexed, other);
    ours.selectors & theirs.selectors == 0
}

/// Whether a rule is known to have a declaration that another one lacks.
pub(crate) fn has_own_family(indexed: &IndexedSheet, one: u32, other: u32) -> bool
    requires one { one < length indexed.now.items }
    requires other { other < length indexed.now.items }
    ensures { result ≡ true → (r q : RuleParts) → slice_get indexed.now.items one ≡ Some (item.Rule r) → slice_get indexed.now.items other ≡ Some (item.Rule q) → AreDeclsAmong r q → ⊥ }
{
    let ours = mask_at(indexed, one);
    let theirs = mask_at(indexed, other);
    ours.families & theirs.families != ours.families
}
