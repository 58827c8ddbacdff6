//! Which step a candidate names.

ghost use Rattle.std.specs.Prelude.{◌≡◌, ℕ, ◌≤◌, ◌<◌, ◌^◌, IfNone, IfOk, IfSome, length, slice_index};
ghost use Rattle.css_model.specs.Sheets.Limits.{max_items};
ghost use Rattle.pending_laws.specs.Priorities.{named};
ghost use Rattle.step_queue.specs.Told.{candidate_told};
ghost use Rattle.order_laws.specs.Edits.{Edit};
ghost use Rattle.plan_laws.specs.Plannable.{IsPlannable};
ghost use Rattle.rule_tables.specs.Tables.{Cover};
ghost use Rattle.step_laws.specs.declared.step.Step as declared;
ghost use Rattle.step_laws.specs.Sizes.{Saves};
ghost use Rattle.step_laws.specs.Steps.{HasStep, IsStep};
ghost use Rattle.indexed_sheet.specs.MarkList.{order_keys_of};
ghost use Rattle.next_step.specs.Marked.{rules_of};
ghost use Rattle.next_step.specs.Named.{IsStepOf, Names, NamesNone};
ghost use Rattle.next_step.specs.Seconds.{HasSecond, second_name};

use crate::apart::known::is_known_apart;
use crate::cuts::possible::is_step_of;
use indexed_sheet::IndexedSheet;
use rule_tables::Tables;
use saved_bytes::{KnownLengths, saved_if_apart};
use std::alloc::{AllocError, Global};
use step_kinds::{Kind, step_of};
use step_laws::{Step, parts_are_few};
use step_queue::Candidate;

/// A number as the number of a part, if it is less than 2^32.
fn part_number(number: u64) -> Option<u32>
    ensures some { IfSome result (λ n. n ≡ number) }
    ensures small { IfSome result (λ n. n < 2 ^ 32) }
    ensures none { IfNone result (2 ^ 32 ≤ number) }
{
    if number > u64::from(u32::MAX) {
        return None;
    }
    Some(number as u32)
}

/// The number of the item with an order key, if there is one.
fn item_number(indexed: &IndexedSheet, order_key: u64) -> Option<u32>
    requires { length indexed.now.items ≤ max_items }
    ensures some { IfSome result (λ n. slice_index (order_keys_of indexed.now.marks) n ≡ order_key) }
    ensures there { IfSome result (λ n. n < length indexed.now.items) }
    ensures none { IfNone result ((n : ℕ) → n < length indexed.now.items → slice_index (order_keys_of indexed.now.marks) n ≡ order_key → ⊥) }
{
    let _marks = indexed.marks();
    indexed.number_of(order_key)
}

/// The second number of the step that a candidate of this kind names.
fn second_number(indexed: &IndexedSheet, kind: Kind, name: u64) -> Option<u32>
    requires { length indexed.now.items ≤ max_items }
    ensures some { IfSome result (λ n. second_name kind (order_keys_of indexed.now.marks) n ≡ name) }
    ensures there { IfSome result (λ n. HasSecond kind n (length indexed.now.items)) }
    ensures none { IfNone result ((n : ℕ) → HasSecond kind n (length indexed.now.items) → second_name kind (order_keys_of indexed.now.marks) n ≡ name → ⊥) }
{
    match kind {
        Kind::DeclCut | Kind::SelCut => part_number(name),
        Kind::SelJoinUp
        | Kind::SelJoinDown
        | Kind::DeclJoinUp
        | Kind::DeclJoinDown
        | Kind::Sharing => item_number(indexed, name),
    }
}

/// The step that a candidate names, if there are items with its order keys. No other step has the kind and the order keys of the candidate.
fn named_step(indexed: &IndexedSheet, candidate: &Candidate) -> Option<Step>
    requires { length indexed.now.items ≤ max_items }
    ensures some { IfSome result (λ k. named (order_keys_of indexed.now.marks) candidate.now.saving.0 k ≡ (candidate_told candidate.now).priority) }
    ensures one { IfSome result (λ k. (j : declared.Step) → Names indexed.now candidate.now j → j ≡ k) }
    ensures none { IfNone result ((j : declared.Step) → Names indexed.now candidate.now j → ⊥) }
{
    let _marks = indexed.marks();
    let Some(first) = item_number(indexed, candidate.first) else {
        return None;
    };
    let Some(second) = second_number(indexed, candidate.kind, candidate.second) else {
        return None;
    };
    Some(step_of(candidate.kind, first, second))
}

/// A step, if it is one of the indexed sheet and saves exactly this, which is more than 0.
fn tested(
    alloc: Global,
    indexed: &IndexedSheet,
    tables: &Tables,
    source: &KnownLengths<'_>,
    step: Step,
    saving: u32,
) -> Result<Option<Step>, AllocError>
    requires plannable { IsPlannable source.now indexed.now.items }
    requires cover { Cover tables.now (rules_of indexed.now) }
    ensures same { IfOk result (λ found. IfSome found (λ k. k ≡ step)) }
    ensures has { IfOk result (λ found. IfSome found (λ k. HasStep indexed.now.items k)) }
    ensures some { IfOk result (λ found. IfSome found (λ k. 0 < saving)) }
    ensures saves { IfOk result (λ found. IfSome found (λ k. (e : Edit) → IsStep indexed.now.items step e → Saves source.now indexed.now.items e saving)) }
    ensures none { IfOk result (λ found. IfNone found ((e : Edit) → IsStep indexed.now.items step e → Saves source.now indexed.now.items e saving → 0 < saving → ⊥)) }
{
    if saving == 0 {
        return Ok(None);
    }
    if !is_step_of(alloc, indexed, tables, &step, false)? {
        return Ok(None);
    }
    let apart = is_known_apart(indexed, &step);
    if saved_if_apart(source, indexed.items(), &step, apart) != saving {
        return Ok(None);
    }
    Ok(Some(step))
}

/// The step of an indexed sheet that a candidate names, if it saves exactly what the candidate says, and this is more than 0.
///
/// `Ok(None)` if no such step saves as much. The tables cover the rules of the sheet, with the order keys of their items. The time
/// is that of the parts of the step's rules, and of a cut that of the rules with these parts. `Err(AllocError)` if memory is short.
pub fn step_of_candidate(
    alloc: Global,
    indexed: &IndexedSheet,
    tables: &Tables,
    source: &KnownLengths<'_>,
    candidate: &Candidate,
) -> Result<Option<Step>, AllocError>
    requires plannable { IsPlannable source.now indexed.now.items }
    requires cover { Cover tables.now (rules_of indexed.now) }
    ensures some { IfOk result (λ found. IfSome found (IsStepOf source.now indexed.now candidate.now)) }
    ensures none { IfOk result (λ found. IfNone found (NamesNone source.now indexed.now candidate.now)) }
{
    parts_are_few();
    let Some(step) = named_step(indexed, candidate) else {
        return Ok(None);
    };
    tested(alloc, indexed, tables, source, step, candidate.saving.0)
}
