//! What a plan does for the items that a step takes.

ghost use Rattle.std.specs.Prelude.{◌≡◌, List, Some, slice_get};
ghost use Rattle.css_model.specs.declared.sheet.Item.TheVariants as kinds;
ghost use Rattle.css_model.specs.Sheets.RuleParts.{RuleParts};
ghost use Rattle.queue_laws.specs.Beside.{HaveOtherOrderKeysThan, StayCovered};
ghost use Rattle.order_laws.specs.Edits.{Edit};
ghost use Rattle.indexed_sheet.specs.declared.marks.Mark as marking;
ghost use Rattle.rule_tables.specs.Tables as covering;
ghost use Rattle.step_laws.specs.Steps.{IsStep};

use css_model::Item;
use indexed_sheet::{IndexedSheet, Mark};
use queue_laws::others_stay_covered;
use rule_tables::Tables;
use step_laws::Step;
use step_savings::items_of;

/// Takes the entries of an item out of the tables, if it is a rule.
fn uncover_item(tables: &mut Tables, item: &Item, order_key: u64)
    ensures exact { (r : RuleParts) → item.now ≡ kinds.Rule r → covering.TakesRule tables.old r order_key tables.new }
    ensures still { (rules : List covering.OrderKeyed) → covering.HaveOtherOrderKeys rules order_key → covering.Cover tables.old rules
        → covering.Cover tables.new rules }
{
    match item {
        Item::Rule(rule) => tables.remove(rule, order_key),
        _ => (),
    }
}

/// Takes the entries of the item of this number out of the tables, if it is a rule.
fn uncover_at(tables: &mut Tables, marks: &[Mark], items: &[Item], number: u32)
    ensures exact { (m : marking.Mark) (r : RuleParts) → slice_get marks.now number ≡ Some m
        → slice_get items.now number ≡ Some (kinds.Rule r) → covering.TakesRule tables.old r m.order_key tables.new }
    ensures still { (rules : List covering.OrderKeyed) → HaveOtherOrderKeysThan marks.now number rules → covering.Cover tables.old rules
        → covering.Cover tables.new rules }
{
    let number = number as usize;
    let Some(mark) = marks.get(number) else {
        return;
    };
    let Some(item) = items.get(number) else {
        return;
    };
    uncover_item(tables, item, mark.order_key);
}

/// Takes the entries of the first and the last item of a step out of the tables.
/// The tables still cover each rule that the step leaves.
pub(crate) fn uncover(tables: &mut Tables, indexed: &IndexedSheet, step: &Step)
    ensures { (e : Edit) → IsStep indexed.now.items step.now e → StayCovered indexed.now e tables.old tables.new }
{
    others_stay_covered();
    let marks = indexed.marks();
    let items = indexed.items();
    let (first, last) = items_of(step);
    uncover_at(tables, marks, items, first);
    if first == last {
        return;
    }
    uncover_at(tables, marks, items, last);
}
