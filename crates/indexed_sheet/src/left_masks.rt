//! The masks of what a step leaves of its rules, by those of the rules.

ghost use Rattle.std.specs.Prelude.{◌≡◌, map};
ghost use Rattle.css_model.specs.declared.sheet.Item.TheVariants as item;
ghost use Rattle.indexed_sheet.specs.LeftMasks as spec;
ghost use Rattle.indexed_sheet.specs.Putting.{items_in};
ghost use Rattle.item_masks.specs.Masks as masks;

use crate::parts::Left;
use css_model::Rule;
use item_masks::{ItemMask, rule_mask};
use related_props::mask_of_items;

/// The masks of the rules that a step puts instead of one rule.
#[derive(Clone, Copy, Debug)]
pub(crate) enum LeftMasks {
    /// None.
    Nothing,
    /// That of one rule.
    One(ItemMask),
    /// Those of two rules, the first one above the second.
    Two(ItemMask, ItemMask),
}

/// Returns the bits of both masks.
pub(crate) fn union(one: ItemMask, other: ItemMask) -> ItemMask
    ensures { result ≡ spec.union one other }
{
    ItemMask {
        families: one.families | other.families,
        selectors: one.selectors | other.selectors,
    }
}

/// Returns the mask of a rule that has the selectors of a rule with this mask, or of two rules of which this has the bits.
fn with_selectors_of(rule: &Rule, mask: ItemMask) -> ItemMask
    requires { mask.selectors ≡ masks.with_selectors 0 rule.now.selectors }
    ensures { result ≡ masks.item_mask (item.Rule rule.now) }
{
    ItemMask {
        families: mask_of_items(&rule.decls),
        selectors: mask.selectors,
    }
}

/// Returns the masks of what a cut of a declaration or a share leaves of a rule with this mask.
pub(crate) fn masks_of_rest(left: &Left, mask: ItemMask) -> LeftMasks
    requires { spec.HaveSelectorsOf (items_in left.now) mask }
    ensures { spec.masks_in result ≡ map masks.item_mask (items_in left.now) }
{
    match left {
        Left::Nothing => LeftMasks::Nothing,
        Left::One(rule) => LeftMasks::One(with_selectors_of(rule, mask)),
        Left::Two(above, below) => LeftMasks::Two(rule_mask(above), rule_mask(below)),
    }
}

/// Returns the masks of any rules that a step leaves.
pub(crate) fn masks_of(left: &Left) -> LeftMasks
    ensures { spec.masks_in result ≡ map masks.item_mask (items_in left.now) }
{
    match left {
        Left::Nothing => LeftMasks::Nothing,
        Left::One(rule) => LeftMasks::One(rule_mask(rule)),
        Left::Two(above, below) => LeftMasks::Two(rule_mask(above), rule_mask(below)),
    }
}

/// Returns the masks of what a join leaves in a place: this mask, if it leaves a rule.
pub(crate) fn masks_of_joined(left: &Left, mask: ItemMask) -> LeftMasks
    requires { spec.AreOneWith (items_in left.now) mask }
    ensures { spec.masks_in result ≡ map masks.item_mask (items_in left.now) }
{
    match left {
        Left::Nothing => LeftMasks::Nothing,
        Left::One(_rule) => LeftMasks::One(mask),
        Left::Two(above, below) => LeftMasks::Two(rule_mask(above), rule_mask(below)),
    }
}

/// Returns the masks of what a share puts instead of its lower rule: its made rule, with the selectors of both rules, and the rest.
pub(crate) fn masks_of_shared(left: &Left, both: ItemMask, lower: ItemMask) -> LeftMasks
    requires { spec.AreSharedWith (items_in left.now) both lower }
    ensures { spec.masks_in result ≡ map masks.item_mask (items_in left.now) }
{
    match left {
        Left::Nothing => LeftMasks::Nothing,
        Left::One(made) => LeftMasks::One(with_selectors_of(made, both)),
        Left::Two(made, rest) => LeftMasks::Two(
            with_selectors_of(made, both),
            with_selectors_of(rest, lower),
        ),
    }
}
