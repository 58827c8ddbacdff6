//! Takes a step in a plan.

ghost use Rattle.std.specs.Prelude.{◌≡◌, ◌<◌, ◌≤◌, ◌+◌, ◌^◌, IfOk, IfSome, IsTrue, List, OnOk, ℕ, length, true};
ghost use Rattle.std.specs.List.{Contains, remove};
ghost use Rattle.css_model.specs.Cascade.Order.{Pair};
ghost use Rattle.css_model.specs.Sheets.Limits.{max_items};
ghost use Rattle.pending_laws.specs.declared.way.Way.{Way};
ghost use Rattle.pending_laws.specs.Candidates as pending;
ghost use Rattle.pending_laws.specs.Ways.{IsMove, mover};
ghost use Rattle.planner_state.specs.Barriers.{IsFromOtherItem, SomeStay};
ghost use Rattle.planner_state.specs.Filled.{IsFilled};
ghost use Rattle.planner_state.specs.Reactivating.{IsActive};
ghost use Rattle.planner_state.specs.Reindexing.{AreReindexed};
ghost use Rattle.planner_state.specs.State.{IsIndexed, IsState};
ghost use Rattle.planner_state.specs.Weighing.{AreAtMost, AreWeighable};
ghost use Rattle.step_queue.specs.BarrierParts.{barriers_on};
ghost use Rattle.order_laws.specs.Edits.{Edit, edited, is_moved};
ghost use Rattle.indexed_sheet.specs.MarkList.{order_keys_of};
ghost use Rattle.indexed_sheet.specs.Marking.{AreKept, HasOrderKeyFor};
ghost use Rattle.step_laws.specs.Free.{Answered};
ghost use Rattle.step_laws.specs.Leading.{Takes};
ghost use Rattle.step_laws.specs.Steps.{HasStep, IsStep};

use crate::barriers::take_down_for;
use crate::created::created_near;
use crate::plan::{Created, Plan};
use crate::reactivating::reactivate_moved;
use crate::reindexing::reindex;
use crate::weighing::made_weight;
use css_model::MAX_ITEMS;
use indexed_sheet::IndexedSheet;
use merge_steps::apply;
use pending_laws::sheets_have_room;
use plan_laws::items_stay;
use queue_laws::{barriers_go_over, cover_goes_on, homes_go_on, taken_is_known};
use saved_bytes::KnownLengths;
use std::alloc::{AllocError, Global};
use step_laws::{Step, each_is_made_of_itself, steps_make_of};

/// Returns `true` only if a step can be taken in place.
/// Then the sheet has at least two items fewer than a sheet may have, and order keys and item ids are left.
fn has_room(indexed: &IndexedSheet, step: &Step) -> bool
    ensures items { IsTrue result → length indexed.now.items + 1 < max_items }
    ensures order_key { IsTrue result → HasOrderKeyFor indexed.now.marks step.now }
    ensures item_ids { IsTrue result → indexed.now.next + 4 < 2 ^ 32 }
{
    indexed.items().len() + 1 < MAX_ITEMS as usize
        && indexed.next() < u32::MAX - 4
        && indexed.has_order_key_for(step)
}

impl Plan {
    /// Makes a plan ready for a step that is taken in place. What waits for the pairs that the step moves is queued again, the barriers
    /// of its items are taken down, and its rules leave the tables. Returns whether the rules that it creates have to be put into the
    /// tables.
    fn prepare(&mut self, alloc: Global, step: &Step) -> Result<bool, AllocError>
        requires { HasStep self.old.indexed.items step.now }
        ensures same { OnOk result (self.new ≡ record self.old { tables = self.new.tables; candidates = self.new.candidates; barriers = self.new.barriers }) }
        ensures queued { OnOk result ((l : pending.Candidate) → Contains self.old.candidates l → Contains self.new.candidates l) }
        ensures active { OnOk result ((e : Edit) → IsStep self.old.indexed.items step.now e → (p : Pair) → is_moved e.moved p ≡ true
            → IsActive self.old.entries self.new.candidates p.selector p.decl) }
        ensures barriers { OnOk result ((way : Way) → SomeStay (barriers_on way self.old.barriers) (barriers_on way self.new.barriers) (IsFromOtherItem self.old.indexed.marks step.now)) }
        ensures tables { IfOk result (λ put. AreReindexed put self.old.indexed step.now self.old.tables self.new.tables) }
    {
        reactivate_moved(
            alloc,
            &self.watched,
            &mut self.queue,
            self.indexed.items(),
            step,
        )?;
        take_down_for(&mut self.barriers, &self.indexed, step);
        reindex(&mut self.tables, &self.indexed, step)
    }

    /// Returns the plan with its sheet after a step. All else is as it was.
    fn with_step(self, alloc: Global, step: &Step) -> Result<Plan, AllocError>
        requires is_step { HasStep self.indexed.items step.now }
        requires order_key { HasOrderKeyFor self.indexed.marks step.now }
        requires item_ids { self.indexed.next + 4 < 2 ^ 32 }
        ensures same { IfOk result (λ p. p ≡ record self { indexed = p.indexed }) }
        ensures items { IfOk result (λ p. (e : Edit) → IsStep self.indexed.items step.now e → p.indexed.items ≡ edited e self.indexed.items) }
        ensures marks { IfOk result (λ p. (e : Edit) → IsStep self.indexed.items step.now e → AreKept self.indexed p.indexed e) }
        ensures order_keys { IfOk result (λ p. (way : Way) → IsMove way step.now → order_keys_of p.indexed.marks ≡ remove (order_keys_of self.indexed.marks) (mover way step.now)) }
        ensures more { IfOk result (λ p. self.indexed.next ≤ p.indexed.next) }
    {
        let indexed = self.indexed.take(alloc, step)?;
        Ok(Plan { indexed, ..self })
    }

    /// Puts what a step created into a plan whose sheet is that after the step.
    fn put_created_by(
        &mut self,
        alloc: Global,
        source: &KnownLengths<'_>,
        step: &Step,
        created: Created,
    ) -> Result<(), AllocError>
        requires few_items { length self.old.indexed.items ≤ max_items }
        requires weighable { AreWeighable source.now self.old.indexed.items }
        requires known { IfSome created.known (AreAtMost source.now created.next self.old.indexed) }
        ensures { OnOk result (IsFilled source.now created.put created.next self.old self.new) }
    {
        let numbers = created_near(alloc, &self.indexed, created.next, step)?;
        self.put_created(source, created, &numbers)
    }

    /// Returns the plan after a step that is taken in place.
    fn take_in_place(
        mut self,
        alloc: Global,
        source: &KnownLengths<'_>,
        step: &Step,
    ) -> Result<Plan, AllocError>
        requires indexed { IsIndexed source.now self }
        requires is_step { HasStep self.indexed.items step.now }
        requires items { length self.indexed.items + 1 < max_items }
        requires order_key { HasOrderKeyFor self.indexed.marks step.now }
        requires item_ids { self.indexed.next + 4 < 2 ^ 32 }
        ensures items { IfOk result (λ p. (e : Edit) → IsStep self.indexed.items step.now e → p.indexed.items ≡ edited e self.indexed.items) }
        ensures state { IfOk result (λ p. (answers : List Answered) → IsState answers source.now self
            → ((e : Edit) → IsStep self.indexed.items step.now e → Takes answers source.now self.indexed.items (edited e self.indexed.items))
            → IsState answers source.now p) }
    {
        sheets_have_room();
        taken_is_known();
        barriers_go_over();
        cover_goes_on();
        homes_go_on();
        items_stay();
        each_is_made_of_itself();
        steps_make_of();
        let made = made_weight(&self.indexed, &self.weights, step);
        let put = self.prepare(alloc, step)?;
        let next = self.indexed.next();
        let mut plan = self.with_step(alloc, step)?;
        let created = Created {
            next,
            put,
            known: made,
        };
        plan.put_created_by(alloc, source, step, created)?;
        Ok(plan)
    }

    /// Returns the plan after a step of its sheet.
    /// Its sheet is the one after the step. If the plan was a state and the step is the next one, the new plan is a state.
    /// `Err(AllocError)` if memory is short; the plan is consumed then too.
    pub fn take(
        self,
        alloc: Global,
        source: &KnownLengths<'_>,
        step: &Step,
    ) -> Result<Plan, AllocError>
        requires is_step { HasStep self.indexed.items step.now }
        requires indexed { IsIndexed source.now self }
        ensures items { IfOk result (λ p. (e : Edit) → IsStep self.indexed.items step.now e → p.indexed.items ≡ edited e self.indexed.items) }
        ensures state { IfOk result (λ p. (answers : List Answered) → IsState answers source.now self
            → ((e : Edit) → IsStep self.indexed.items step.now e → Takes answers source.now self.indexed.items (edited e self.indexed.items))
            → IsState answers source.now p) }
    {
        if has_room(&self.indexed, step) {
            return self.take_in_place(alloc, source, step);
        }
        each_is_made_of_itself();
        steps_make_of();
        let sheet = apply(alloc, self.indexed.items(), step)?;
        Plan::begin(alloc, source, sheet)
    }
}
