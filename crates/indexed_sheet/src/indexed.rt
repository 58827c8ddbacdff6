//! A sheet while it is planned.

ghost use Rattle.std.specs.Prelude.{◌≡◌, ◌↔◌, ℕ, ◌≤◌, ◌<◌, ◌+◌, ◌^◌, IfOk, IfSome, IfNone, IsTrue, Some, length, map, slice_get, true};
ghost use Rattle.std.specs.List.{remove};
ghost use Rattle.css_model.specs.Sheets.Limits.{max_items};
ghost use Rattle.pending_laws.specs.declared.way.Way.{Way};
ghost use Rattle.pending_laws.specs.Scopes.{IsDown, IsUp};
ghost use Rattle.pending_laws.specs.Ways.{IsMove, mover};
ghost use Rattle.item_masks.specs.Masks.{item_mask};
ghost use Rattle.order_laws.specs.Edits.{Edit, edited};
ghost use Rattle.indexed_sheet.specs.Facts.{AreTrueOf, AreTrueOfBoth, HasOwnPairs};
ghost use Rattle.indexed_sheet.specs.MarkList.{AreMarks, IsOrderKeyAt, IsOldestBelow, LacksOrderKey, order_keys_of};
ghost use Rattle.indexed_sheet.specs.Marking.{AreKept, HasOrderKeyFor};
ghost use Rattle.step_laws.specs.Steps.{HasStep, IsStep, first_item, last_item};
ghost use Rattle.step_savings.specs.Apart.{StepApart};

use crate::facts::{Facts, by_both, by_either, facts_under, learn, learn_of_step, nothing};
use crate::marked::MarkedSheet;
use crate::marks::Mark;
use css_model::{Item, Sheet};
use item_masks::ItemMask;
use pending_laws::{
    Way, joined_has_no_cut, joined_has_own_parts, no_cut_comes, own_pairs_go_on, own_parts_stay,
};
use std::alloc::{AllocError, Global};
use std::marker::Model;
use step_laws::Step;
use step_savings::items_of;

/// A sheet while it is planned, with a mark and a mask for each item.
/// It also keeps facts about its rules. Contracts see the items, the marks and the next item id, but not the facts.
#[derive(Debug, Drop)]
pub struct IndexedSheet {
    marked: MarkedSheet,
    facts: Vec<Facts>,
}

impl Model for IndexedSheet {
    ghost use Rattle.indexed_sheet.specs.IndexedParts.{IndexedParts};
    ghost use Rattle.indexed_sheet.specs.Facts.{AreKnown};

    ghost Value = { IndexedParts };

    ghost view = { λ b. b.marked };

    ghost invariant = { λ b. AreKnown b.marked b.facts.items };
}

/// Returns the way in which an item moves in a step, or `None` exactly if the step is no join.
pub fn way_of_join(step: &Step) -> Option<Way>
    ensures join { IfSome result (λ way. IsMove way step.now) }
    ensures none { IfNone result ((IsUp step.now → ⊥) × (IsDown step.now → ⊥)) }
{
    match step {
        Step::JoinSelUp { .. } | Step::JoinDeclUp { .. } => Some(Way::Up),
        Step::JoinSelDown { .. } | Step::JoinDeclDown { .. } => Some(Way::Down),
        Step::CutDecl { .. } | Step::CutSel { .. } | Step::Share { .. } => None,
    }
}

impl IndexedSheet {
    /// Returns an indexed sheet with the items of a sheet, with new marks.
    /// The next item id is the number of items. The sheet has at most `max_items` items. `Err(AllocError)` if memory is short.
    pub fn new(alloc: Global, sheet: Sheet) -> Result<IndexedSheet, AllocError>
        requires { length sheet.items ≤ max_items }
        ensures items { IfOk result (λ b. b.items ≡ sheet.items) }
        ensures next { IfOk result (λ b. b.next ≡ length sheet.items) }
    {
        let marked = MarkedSheet::new(alloc, sheet)?;
        Ok(IndexedSheet {
            marked,
            facts: Vec::new(alloc),
        })
    }

    /// Returns the items.
    pub fn items(&self) -> &[Item]
        ensures { result.now ≡ self.now.items }
    {
        self.marked.items()
    }

    /// Returns the masks of the items, in the order of the items.
    pub fn masks(&self) -> &[ItemMask]
        ensures { result.now ≡ map item_mask self.now.items }
    {
        self.marked.masks()
    }

    /// Returns the sheet without its marks.
    pub fn into_sheet(self) -> Sheet
        ensures { result.items ≡ self.items }
    {
        let IndexedSheet { marked, facts } = self;
        drop(facts);
        marked.into_sheet()
    }

    /// Returns the marks of the items, in the order of the items.
    /// Order keys ascend. Item ids differ, and each is below `next`.
    pub fn marks(&self) -> &[Mark]
        ensures marks { result.now ≡ self.now.marks }
        ensures are_marks { AreMarks self.now.marks self.now.next }
        ensures as_many { length self.now.marks ≡ length self.now.items }
    {
        self.marked.marks()
    }

    /// Returns the item id of the next item that is put in.
    /// All item ids are below it (see `marks`).
    pub fn next(&self) -> u32
        ensures { result ≡ self.now.next }
    {
        self.marked.next()
    }

    /// Returns the mark of the item of this number, from 0.
    /// The indexed sheet has an item of this number.
    pub fn mark(&self, number: u32) -> Mark
        requires { number < length self.now.items }
        ensures { slice_get self.now.marks number ≡ Some result }
    {
        self.marked.mark(number)
    }

    /// Returns `true` only if all items below the item of this number, from 0, were created later.
    /// `false` says nothing. The indexed sheet has an item of this number.
    pub fn is_oldest_below(&self, number: u32) -> bool
        requires { number < length self.now.items }
        ensures { result ≡ true → IsOldestBelow self.now.marks number }
    {
        self.marked.is_oldest_below(number)
    }

    /// Returns the number, from 0, of the item with this order key, or `None` if no item has it.
    /// The indexed sheet has at most `max_items` items.
    pub fn number_of(&self, order_key: u64) -> Option<u32>
        requires { length self.now.items ≤ max_items }
        ensures some { IfSome result (IsOrderKeyAt self.now.marks order_key) }
        ensures none { IfNone result (LacksOrderKey self.now.marks order_key) }
    {
        self.marked.number_of(order_key)
    }

    /// Returns facts that are true of the rule of this number, from 0.
    /// A field that is `false` says nothing.
    pub fn facts(&self, number: u32) -> Facts
        ensures { AreTrueOf self.now.items number result }
    {
        if (number as usize) < self.marked.marks().len() {
            facts_under(&self.facts, self.marked.mark(number).item_id)
        } else {
            nothing()
        }
    }

    /// Notes facts that are true of the rule of this number, from 0.
    /// The items, the marks and the next item id stay the same, also after an error. The contract does not say that `facts`
    /// returns these facts later. `Err(AllocError)` if memory is short.
    pub fn note(&mut self, number: u32, facts: Facts) -> Result<(), AllocError>
        requires { AreTrueOf self.old.items number facts }
        ensures { self.new ≡ self.old }
    {
        if (number as usize) < self.marked.marks().len() {
            let item_id = self.marked.mark(number).item_id;
            let known = by_either(facts_under(&self.facts, item_id), facts);
            learn(&mut self.facts, item_id, known)?;
        }
        Ok(())
    }

    /// Returns whether a share has a free order key for its new rule, before the mark of its lower rule.
    /// Any other step needs no order key: the answer is `true`.
    pub fn has_order_key_for(&self, step: &Step) -> bool
        ensures { IsTrue result ↔ HasOrderKeyFor self.now.marks step.now }
    {
        self.marked.has_order_key_for(step)
    }

    /// Returns facts that are true of both rules of a step. `Some` comes only if the step is a join.
    fn facts_of_join(&self, step: &Step) -> Option<Facts>
        ensures { IfSome result (AreTrueOfBoth self.now.items step.now) }
    {
        let (first, last) = items_of(step);
        match way_of_join(step) {
            Some(_) => Some(by_both(self.facts(first), self.facts(last))),
            None => None,
        }
    }

    /// Returns `true` only if each rule of a step is known to have pairs of its own.
    fn are_pairs_own(&self, step: &Step) -> bool
        ensures first { result ≡ true → HasOwnPairs self.now.items (first_item step.now) }
        ensures last { result ≡ true → HasOwnPairs self.now.items (last_item step.now) }
    {
        let (first, last) = items_of(step);
        self.facts(first).own_pairs && self.facts(last).own_pairs
    }

    /// Returns `true` only if the rules of a step are known to have no selector in common.
    fn is_known_apart(&self, step: &Step) -> bool
        ensures { result ≡ true → StepApart self.now.items step.now }
    {
        let (first, last) = items_of(step);
        first != last && (self.facts(first).own_selectors || self.facts(last).own_selectors)
    }

    /// Returns the indexed sheet after one of its steps.
    /// Items that the step leaves keep their marks. All other items have item ids from the old `next` on. A join removes the
    /// order key of the item that moves and keeps all others. `next` grows by at most 4. A share needs a free order key (see
    /// `has_order_key_for`), and `next` + 4 fits in 32 bits. `Err(AllocError)` if memory is short; the indexed sheet is consumed then
    /// too.
    pub fn take(self, alloc: Global, step: &Step) -> Result<IndexedSheet, AllocError>
        requires is_step { HasStep self.items step.now }
        requires order_key { HasOrderKeyFor self.marks step.now }
        requires item_ids { self.next + 4 < 2 ^ 32 }
        ensures items { IfOk result (λ b. (e : Edit) → IsStep self.items step.now e → b.items ≡ edited e self.items) }
        ensures marks { IfOk result (λ b. (e : Edit) → IsStep self.items step.now e → AreKept self b e) }
        ensures order_keys { IfOk result (λ b. (way : Way) → IsMove way step.now → order_keys_of b.marks ≡ remove (order_keys_of self.marks) (mover way step.now)) }
        ensures more { IfOk result (λ b. self.next ≤ b.next) }
        ensures few { IfOk result (λ b. b.next ≤ self.next + 4) }
    {
        no_cut_comes();
        own_parts_stay();
        joined_has_no_cut();
        joined_has_own_parts();
        own_pairs_go_on();
        let known = self.facts_of_join(step);
        let own_pairs = self.are_pairs_own(step);
        let apart = self.is_known_apart(step);
        let IndexedSheet { marked, facts } = self;
        let item_id = marked.next();
        let marked = marked.take(alloc, step, apart)?;
        let facts = learn_of_step(facts, item_id, marked.next(), known, own_pairs)?;
        Ok(IndexedSheet { marked, facts })
    }
}
