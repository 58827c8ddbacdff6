//! Queues candidates again if a step moves pairs.

ghost use Rattle.std.specs.Prelude.{◌≡◌, ◌∷◌, [], IfNone, IfOk, IfSome, OnOk, Some, map, slice_get, true};
ghost use Rattle.std.specs.List.{Contains};
ghost use Rattle.css_model.specs.Cascade.Order.{Pair};
ghost use Rattle.css_model.specs.declared.sheet.Item.TheVariants as kinds;
ghost use Rattle.css_model.specs.Sheets.RuleParts.{RuleParts};
ghost use Rattle.pending_laws.specs.Candidates as pending;
ghost use Rattle.planner_state.specs.Reactivating as spec;
ghost use Rattle.step_queue.specs.Told.{candidate_told};
ghost use Rattle.step_queue.specs.declared.candidate.Candidate as declared;
ghost use Rattle.order_laws.specs.Edits.{Edit, is_moved};
ghost use Rattle.step_laws.specs.Steps.{HasStep, IsStep};

use css_model::{DeclItem, Item, Rule, SelItem};
use queue_laws::entries_are_found;
use rule_tables::{decl_digests, selector_digests};
use std::alloc::{AllocError, Global};
use step_laws::{Step, steps_rearrange};
use step_queue::{Candidate, Queue, WatchList};

/// Queues a candidate again.
fn reactivate(queue: &mut Queue, candidate: &Candidate) -> Result<(), AllocError>
    ensures stay { OnOk result ((l : pending.Candidate) → Contains queue.old l → Contains queue.new l) }
    ensures active { OnOk result (Contains queue.new (candidate_told candidate.now)) }
{
    queue.add(*candidate)
}

/// Queues candidates again.
fn reactivate_all(queue: &mut Queue, candidates: &[Candidate]) -> Result<(), AllocError>
    ensures stay { OnOk result ((l : pending.Candidate) → Contains queue.old l → Contains queue.new l) }
    ensures active { OnOk result ((l : declared.Candidate) → Contains candidates.now l → Contains queue.new (candidate_told l)) }
{
    let mut rest = candidates;
    'rest: while let Some((first, behind)) = rest.split_first() {
        reactivate(queue, first)?;
        rest = behind;
    }
    Ok(())
}

/// Returns candidates that include all that are on the watch list under two digests.
fn candidates_of(
    alloc: Global,
    watched: &WatchList,
    selector: u32,
    decl: u32,
) -> Result<Vec<Candidate>, AllocError>
    ensures { IfOk result (λ candidates. spec.HasCandidatesUnder watched.now candidates.items selector decl) }
{
    // A law; it does nothing.
    entries_are_found();
    watched.under(alloc, selector, decl)
}

/// Queues the candidates again that are on the watch list under two digests.
fn reactivate_pair(
    alloc: Global,
    watched: &WatchList,
    queue: &mut Queue,
    selector: u32,
    decl: u32,
) -> Result<(), AllocError>
    ensures stay { OnOk result ((l : pending.Candidate) → Contains queue.old l → Contains queue.new l) }
    ensures active { OnOk result (spec.IsActiveUnder watched.now queue.new selector decl) }
{
    let candidates = candidates_of(alloc, watched, selector, decl)?;
    reactivate_all(queue, &candidates)?;
    Ok(())
}

/// Queues the candidates again that are on the watch list under the digests of a selector and of one of some declarations.
fn reactivate_decls(
    alloc: Global,
    watched: &WatchList,
    queue: &mut Queue,
    selector: u32,
    decls: &[u32],
) -> Result<(), AllocError>
    ensures stay { OnOk result ((l : pending.Candidate) → Contains queue.old l → Contains queue.new l) }
    ensures active { OnOk result (spec.AreActiveUnder watched.now queue.new (selector ∷ []) decls.now) }
{
    let mut rest = decls;
    'rest: while let Some((first, behind)) = rest.split_first() {
        reactivate_pair(alloc, watched, queue, selector, *first)?;
        rest = behind;
    }
    Ok(())
}

/// Queues the candidates again that are on the watch list under the digests of one of some selectors and one of some declarations.
fn reactivate_pairs(
    alloc: Global,
    watched: &WatchList,
    queue: &mut Queue,
    selectors: &[u32],
    decls: &[u32],
) -> Result<(), AllocError>
    ensures stay { OnOk result ((l : pending.Candidate) → Contains queue.old l → Contains queue.new l) }
    ensures active { OnOk result (spec.AreActiveUnder watched.now queue.new selectors.now decls.now) }
{
    let mut rest = selectors;
    'rest: while let Some((first, behind)) = rest.split_first() {
        reactivate_decls(alloc, watched, queue, *first, decls)?;
        rest = behind;
    }
    Ok(())
}

/// Queues the candidates again that are on the watch list under the pairs of some selectors and some declarations.
fn reactivate_parts(
    alloc: Global,
    watched: &WatchList,
    queue: &mut Queue,
    selectors: &[SelItem],
    decls: &[DeclItem],
) -> Result<(), AllocError>
    ensures stay { OnOk result ((l : pending.Candidate) → Contains queue.old l → Contains queue.new l) }
    ensures active { OnOk result (spec.AreActive watched.now queue.new (map (λ s. s.selector) selectors.now) (map (λ d. d.decl) decls.now)) }
{
    let selectors = selector_digests(alloc, selectors)?;
    let decls = decl_digests(alloc, decls)?;
    reactivate_pairs(alloc, watched, queue, &selectors, &decls)?;
    Ok(())
}

/// Queues the candidates again that are on the watch list under the pairs of a rule.
fn reactivate_pairs_of(
    alloc: Global,
    watched: &WatchList,
    queue: &mut Queue,
    rule: &Rule,
) -> Result<(), AllocError>
    ensures stay { OnOk result ((l : pending.Candidate) → Contains queue.old l → Contains queue.new l) }
    ensures active { OnOk result (spec.IsRuleActive watched.now queue.new rule.now) }
{
    reactivate_parts(alloc, watched, queue, &rule.selectors, &rule.decls)?;
    Ok(())
}

/// Queues the candidates again that are on the watch list under the pairs of the item of this number, if it is a rule.
fn reactivate_rule(
    alloc: Global,
    watched: &WatchList,
    queue: &mut Queue,
    items: &[Item],
    number: u32,
) -> Result<(), AllocError>
    ensures stay { OnOk result ((l : pending.Candidate) → Contains queue.old l → Contains queue.new l) }
    ensures active { OnOk result ((r : RuleParts) → slice_get items.now number ≡ Some (kinds.Rule r) → spec.IsRuleActive watched.now queue.new r) }
{
    let Some(rule) = find_rule(items, number) else {
        return Ok(());
    };
    reactivate_pairs_of(alloc, watched, queue, rule)?;
    Ok(())
}

/// Returns the rule of this number, or `None` if no rule has it.
fn find_rule(items: &[Item], number: u32) -> Option<&Rule>
    ensures some { IfSome result (λ rule. slice_get items.now number ≡ Some (kinds.Rule rule.now)) }
    ensures none { IfNone result ((r : RuleParts) → slice_get items.now number ≡ Some (kinds.Rule r) → ⊥) }
{
    match items.get(number as usize) {
        Some(Item::Rule(rule)) => Some(rule),
        _ => None,
    }
}

/// Returns the numbers of the first and the last item that a step moves pairs out of.
fn moved_out(step: &Step) -> (u32, u32)
    ensures first { result.0 ≡ spec.first_out step.now }
    ensures last { result.1 ≡ spec.last_out step.now }
{
    match *step {
        Step::CutDecl { item, .. } | Step::CutSel { item, .. } => (item, item),
        Step::JoinSelUp { lower, .. } | Step::JoinDeclUp { lower, .. } => (lower, lower),
        Step::JoinSelDown { upper, .. } | Step::JoinDeclDown { upper, .. } => (upper, upper),
        Step::Share { upper, lower } => (upper, lower),
    }
}

/// Queues the candidates again that are on the watch list under the digests of a pair that a step moves.
pub(crate) fn reactivate_moved(
    alloc: Global,
    watched: &WatchList,
    queue: &mut Queue,
    items: &[Item],
    step: &Step,
) -> Result<(), AllocError>
    ensures stay { OnOk result ((l : pending.Candidate) → Contains queue.old l → Contains queue.new l) }
    ensures active { OnOk result ((e : Edit) → IsStep items.now step.now e → (p : Pair) → is_moved e.moved p ≡ true
        → spec.IsActive watched.now queue.new p.selector p.decl) }
{
    steps_rearrange();
    if watched.is_empty() {
        return Ok(());
    }
    let (first, last) = moved_out(step);
    reactivate_rule(alloc, watched, queue, items, first)?;
    if first == last {
        return Ok(());
    }
    reactivate_rule(alloc, watched, queue, items, last)?;
    Ok(())
}
