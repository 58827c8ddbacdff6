//! A plan while it works.

ghost use Rattle.std.specs.Prelude.{◌≡◌, ◌≤◌, IfOk, IfSome, List, [], OnOk, length};
ghost use Rattle.css_model.specs.Sheets.Limits.{max_items};
ghost use Rattle.plan_laws.specs.Plannable.{IsPlannable};
ghost use Rattle.planner_state.specs.Created.{AreCreated};
ghost use Rattle.planner_state.specs.Filled.{IsFilled};
ghost use Rattle.planner_state.specs.State.{IsState};
ghost use Rattle.planner_state.specs.Weighing.{AreAtMost, AreWeighable};
ghost use Rattle.step_laws.specs.Free.{Answered};

use crate::enqueuing::enqueue;
use crate::weighing::weigh_created;
use css_model::Sheet;
use indexed_sheet::IndexedSheet;
use queue_laws::{cover_is_of_each, start_is_known};
use rule_tables::Tables;
use saved_bytes::KnownLengths;
use smallvec::SmallVec;
use std::alloc::{AllocError, Global};
use std::marker::Model;
use step_queue::{Barriers, Queue, RuleWeight, RuleWeights, WatchList};

/// What is known of the items that a step creates, or of all items of a new plan.
#[derive(Clone, Copy)]
pub(crate) struct Created {
    /// They have this item id or a later one.
    pub next: u32,
    /// Whether their rules have to be put into the tables.
    pub put: bool,
    /// What each of their rules weighs at most, if that is known.
    pub known: Option<RuleWeight>,
}

/// A sheet that is planned, with what is known of its steps.
#[derive(Drop)]
pub struct Plan {
    /// The sheet with its marks.
    pub indexed: IndexedSheet,
    /// The tables of the rules of the sheet.
    pub tables: Tables,
    /// The candidates.
    pub queue: Queue,
    /// The candidates that are on the watch list, each under the digests of a pair.
    pub watched: WatchList,
    /// The order key of the item of each item id, while the item is in the sheet.
    pub homes: Vec<u64>,
    /// The barriers: no join moves an item past its barrier.
    pub barriers: Barriers,
    /// Upper bounds for the weights of the rules.
    pub weights: RuleWeights,
}

impl Model for Plan {
    ghost use Rattle.planner_state.specs.PlanParts.{PlanParts};

    ghost Value = { PlanParts };

    ghost view = { λ p. record {
      indexed = p.indexed;
      tables = p.tables;
      candidates = p.queue;
      entries = p.watched;
      homes = p.homes.items;
      barriers = p.barriers;
      weights = p.weights;
    } };
}

impl Plan {
    /// Returns the first plan of a sheet. It is a state for any answers.
    /// The sheet can be planned (`IsPlannable`). `Err(AllocError)` if memory is short.
    pub fn new(alloc: Global, source: &KnownLengths<'_>, sheet: Sheet) -> Result<Plan, AllocError>
        requires plannable { IsPlannable source.now sheet.items }
        ensures items { IfOk result (λ p. p.indexed.items ≡ sheet.items) }
        ensures state { IfOk result (λ p. (answers : List Answered) → IsState answers source.now p) }
    {
        Plan::begin(alloc, source, sheet)
    }

    /// Returns the first plan of a sheet. It is a state if the sheet can be planned.
    pub(crate) fn begin(
        alloc: Global,
        source: &KnownLengths<'_>,
        sheet: Sheet,
    ) -> Result<Plan, AllocError>
        requires few_items { length sheet.items ≤ max_items }
        requires weighable { AreWeighable source.now sheet.items }
        ensures items { IfOk result (λ p. p.indexed.items ≡ sheet.items) }
        ensures state { IfOk result (λ p. (answers : List Answered) → IsPlannable source.now sheet.items → IsState answers source.now p) }
    {
        start_is_known();
        cover_is_of_each();
        let indexed = IndexedSheet::new(alloc, sheet)?;
        let mut plan = Plan::bare(alloc, indexed)?;
        let created = Created {
            next: 0,
            put: true,
            known: None,
        };
        plan.put_created(source, created, &None)?;
        Ok(plan)
    }

    /// Returns the plan of an indexed sheet before anything of it is in the tables and the queue.
    fn bare(alloc: Global, indexed: IndexedSheet) -> Result<Plan, AllocError>
        ensures indexed { IfOk result (λ p. p.indexed ≡ indexed) }
        ensures entries { IfOk result (λ p. p.entries ≡ []) }
        ensures ups { IfOk result (λ p. p.barriers.ups ≡ []) }
        ensures downs { IfOk result (λ p. p.barriers.downs ≡ []) }
    {
        let tables = Tables::new(alloc, &[], &[])?;
        Ok(Plan {
            indexed,
            tables,
            queue: Queue::new(alloc),
            watched: WatchList::new(alloc),
            homes: Vec::new(alloc),
            barriers: Barriers::new(alloc),
            weights: RuleWeights::new(alloc),
        })
    }

    /// Queues the items that were created, puts their rules into the tables if they have to be, and weighs them. `numbers` may have the
    /// numbers of all of them.
    pub(crate) fn put_created(
        &mut self,
        source: &KnownLengths<'_>,
        created: Created,
        numbers: &Option<SmallVec<u32, 4>>,
    ) -> Result<(), AllocError>
        requires few_items { length self.old.indexed.items ≤ max_items }
        requires weighable { AreWeighable source.now self.old.indexed.items }
        requires known { IfSome created.known (AreAtMost source.now created.next self.old.indexed) }
        requires created { IfSome numbers.now (λ ns. AreCreated self.old.indexed created.next ns.items) }
        ensures { OnOk result (IsFilled source.now created.put created.next self.old self.new) }
    {
        enqueue(
            created.put,
            &self.indexed,
            created.next,
            numbers,
            &mut self.tables,
            &mut self.queue,
            &mut self.homes,
        )?;
        weigh_created(
            source,
            created.known,
            &self.indexed,
            created.next,
            numbers,
            &mut self.weights,
        )
    }
}
