//! Steps by declarations that a sheet has not, since it has as many items as one may have.
//! There, a share may only take all declarations of one of its rules, so that this rule goes.

ghost use Rattle.std.specs.Prelude.{◌≡◌, ◌<◌, ◌≤◌, Some, length, slice_get, true};
ghost use Rattle.css_model.specs.declared.sheet.Item.TheVariants as item;
ghost use Rattle.css_model.specs.Sheets.Limits.{max_items};
ghost use Rattle.css_model.specs.Sheets.RuleParts.{RuleParts};
ghost use Rattle.next_step.specs.Common.{AreFocusAnd, AreInCommon};
ghost use Rattle.next_step.specs.Kinds.{IsByDecls};
ghost use Rattle.next_step.specs.Viewed.{CoversIn, IsFocus, IsView};
ghost use Rattle.step_laws.specs.declared.step.Step as declared;
ghost use Rattle.step_laws.specs.Steps.{first_item, last_item};

use crate::queue::found::Found;
use crate::too_late::by_weights::weight_at;
use crate::view::{Focus, Partners, View};
use css_model::MAX_ITEMS;
use indexed_sheet::IndexedSheet;
use rule_tables::Common;
use step_queue::RuleWeight;

/// Whether a sheet has as many items as one may have.
fn is_full(indexed: &IndexedSheet) -> bool
    ensures { result ≡ true → max_items ≤ length indexed.now.items }
{
    indexed.items().len() >= MAX_ITEMS as usize
}

/// Whether a rule with this weight keeps a declaration if those go that it may have in common with another one.
fn keeps_decl(weight: RuleWeight, common: Common) -> bool
    ensures { result ≡ true → common.count < weight.count }
{
    common.count < weight.count as usize
}

/// Whether the sheet is full, and the focus and the rule of another number are known to keep a declaration each if those go that
/// they may have in common. Then they have no step by declarations.
pub(crate) fn is_without_room(
    view: &View<'_>,
    focus: &Focus<'_>,
    other: u32,
    partners: &Partners,
    common: Common,
    found: &Found,
) -> bool
    requires view { IsView view.now }
    requires focus { IsFocus view.now focus.now }
    requires other { other < length view.now.indexed.now.items }
    requires both { AreFocusAnd focus.now other partners.now }
    requires common { (r : RuleParts) → slice_get view.now.indexed.now.items other ≡ Some (item.Rule r) → AreInCommon view.now.source.now focus.now.rule.now r common }
    ensures { result ≡ true → (k : declared.Step) → IsByDecls k → first_item k ≡ partners.now.upper → last_item k ≡ partners.now.lower
        → CoversIn view.now found.now k }
{
    if !is_full(view.indexed) {
        return false;
    }
    let ours = weight_at(view, focus.number);
    if !keeps_decl(ours, common) {
        return false;
    }
    let theirs = weight_at(view, other);
    if !keeps_decl(theirs, common) {
        return false;
    }
    theirs.once
}
