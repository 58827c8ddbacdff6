//! The elements that are chosen for the slots of a shape.

ghost use Rattle.std.specs.Prelude.{◌≡◌, ◌≤◌, ◌<◌, ◌+◌, ◌++◌, ◌∷◌, ◌&&◌, [], not, suc, ℕ, length, flat_map, IfOk, OnOk};
ghost use Rattle.css_model.specs.Documents.FeatureParts.{FeatureParts};
ghost use Rattle.css_model.specs.Lists.{same_text};
ghost use Rattle.css_model.specs.Sheets.Limits.{max_compounds};
ghost use Rattle.attr_values.specs.Asked.{some_of};
ghost use Rattle.compound_fit.specs.Fitting.{AreFeatures};
ghost use Rattle.compound_fit.specs.FreeNames.{is_among};
ghost use Rattle.compound_fit.specs.Table.{IsTable};
ghost use Rattle.shape_laws.specs.Document.SlotElements.{asks_for_content};
ghost use Rattle.element_laws.specs.Chosen.{AreChosen, IsChosen, taken_with, with_id};
ghost use Rattle.element_laws.specs.Ids.{asked_ids, asks_for_id, ids_of_pair, is_id_free, refused_ids};
ghost use Rattle.example_doc.specs.Choosing.{GetsElement, IsElement, IsOwnId};
ghost use Rattle.slot_plan.specs.Steps.{is_parent, is_up};
ghost use Rattle.slot_plan.specs.ValidShape.{ValidShape, is_empty_test, simples_in};

use crate::ids::{asks_for_id, is_id, push_asked, push_refused};
use crate::slots::{fit_in, left_in, right_in};
use compound_fit::{FitTable, first_free};
use css_model::{Compound, Features, Simple, Test, Text};
use slot_plan::{PairPlan, Shape, SlotStep};
use std::alloc::{AllocError, Global};

/// The elements for all slots, one after the other.
#[tactic(auto, using(crate::proofs::Choices::all_chosen, crate::proofs::Choices::few_steps))]
pub(crate) fn elements(
    alloc: Global,
    plan: &PairPlan,
    shape: &Shape,
    fits: &FitTable,
) -> Result<Vec<Features>, AllocError>
    requires table { IsTable fits.now plan.now.left plan.now.right }
    requires valid { ValidShape plan.now.left plan.now.right shape.now }
    requires few_left { length plan.now.left.chain ≤ max_compounds }
    requires few_right { length plan.now.right.chain ≤ max_compounds }
    ensures { IfOk result (λ es. AreChosen plan.now.left plan.now.right shape.now es.items) }
{
    let mut taken = Vec::new(alloc);
    push_all_asked(&mut taken, plan.left().chain.as_slice())?;
    push_all_asked(&mut taken, plan.right().chain.as_slice())?;
    let mut elements = Vec::new(alloc);
    for slot in 0..shape.steps.len() + 1 {
        push_element(
            &mut elements,
            &mut taken,
            alloc,
            plan,
            shape,
            fits,
            slot as u32,
        )?;
    }
    Ok(elements)
}

/// Appends the ids that the compounds of a chain ask for.
fn push_all_asked(ids: &mut Vec<Text>, chain: &[Compound]) -> Result<(), AllocError>
    ensures { OnOk result (ids.new.items ≡ ids.old.items ++ flat_map asked_ids chain.now) }
{
    for compound in chain {
        push_asked(ids, compound.simples.as_slice())?;
    }
    Ok(())
}

/// Appends the element of a slot. Where its id was free, the id joins those that are taken.
fn push_element(
    elements: &mut Vec<Features>,
    taken: &mut Vec<Text>,
    alloc: Global,
    plan: &PairPlan,
    shape: &Shape,
    fits: &FitTable,
    slot: u32,
) -> Result<(), AllocError>
    requires table { IsTable fits.now plan.now.left plan.now.right }
    requires valid { ValidShape plan.now.left plan.now.right shape.now }
    requires few_left { length plan.now.left.chain ≤ max_compounds }
    requires few_right { length plan.now.right.chain ≤ max_compounds }
    requires slot { slot ≤ length shape.now.steps }
    ensures { OnOk result (GetsElement (is_parent shape.now.steps slot) (simples_in plan.now.left plan.now.right shape.now slot)
        elements.old.items elements.new.items taken.old.items taken.new.items) }
{
    let left = left_in(plan, shape, slot);
    let right = right_in(plan, shape, slot);
    let text = has_text(shape, slot, left, right);
    let fit = fit_in(plan, shape, fits, slot);
    push_chosen(elements, taken, alloc, fit, text, left, right)
}

/// Appends the element of a slot, from features that fit, whether it has text, and the compounds in the slot.
#[tactic(auto, using(crate::proofs::Choices::free_element, crate::proofs::Choices::other_element))]
fn push_chosen(
    elements: &mut Vec<Features>,
    taken: &mut Vec<Text>,
    alloc: Global,
    fit: &Features,
    text: bool,
    left: &[Simple],
    right: &[Simple],
) -> Result<(), AllocError>
    requires { AreFeatures fit.now (left.now ++ right.now) }
    ensures { OnOk result (IsElement (left.now ++ right.now) fit.now text
        elements.old.items elements.new.items taken.old.items taken.new.items) }
{
    match own_id(alloc, left, right, taken.as_slice())? {
        Some(id) => {
            let element = element_with(alloc, fit, &id, text)?;
            elements.push(element)?;
            taken.push(id)?;
            Ok(())
        }
        None => {
            let element = element_of(fit, text)?;
            elements.push(element)?;
            Ok(())
        }
    }
}

/// These features, and whether there is text.
fn element_of(fit: &Features, text: bool) -> Result<Features, AllocError>
    ensures { IfOk result (λ f. f ≡ record fit.now { text = text }) }
{
    let copy = fit.copy()?;
    Ok(Features {
        kind: copy.kind,
        attrs: copy.attrs,
        flags: copy.flags,
        text,
    })
}

/// These features with another id, and whether there is text.
fn element_with(
    alloc: Global,
    fit: &Features,
    id: &Text,
    text: bool,
) -> Result<Features, AllocError>
    ensures { IfOk result (λ f. f ≡ record fit.now { attrs = with_id id.now fit.now.attrs; text = text }) }
{
    let kind = fit.kind.copy()?;
    let attrs = with_id(alloc, fit.attrs.as_slice(), id)?;
    Ok(Features {
        kind,
        attrs,
        flags: fit.flags,
        text,
    })
}

/// Attributes with another id in place of theirs.
fn with_id(
    alloc: Global,
    attrs: &[(Text, Text)],
    id: &Text,
) -> Result<Vec<(Text, Text)>, AllocError>
    ensures { IfOk result (λ given. given.items ≡ with_id id.now attrs.now) }
{
    let mut given = Vec::new(alloc);
    for (name, value) in attrs {
        let name_copy = name.copy()?;
        let value_copy = if is_id(name) {
            id.copy()?
        } else {
            value.copy()?
        };
        given.push((name_copy, value_copy))?;
    }
    Ok(given)
}

/// The id that an element gets where its id is free: the first free name that is neither refused nor taken.
#[tactic(auto, using(crate::proofs::Choices::no_own_id, crate::proofs::Choices::an_own_id))]
fn own_id(
    alloc: Global,
    left: &[Simple],
    right: &[Simple],
    taken: &[Text],
) -> Result<Option<Text>, AllocError>
    ensures { IfOk result (λ o. IsOwnId (is_id_free (left.now ++ right.now)) (refused_ids (left.now ++ right.now) ++ taken.now) o) }
{
    let mut refused = refused_ids(alloc, left, right)?;
    let free = is_free(alloc, left, right, refused.as_slice())?;
    if !free {
        return Ok(None);
    }
    push_copies(&mut refused, taken)?;
    let id = first_free(alloc, refused.as_slice())?;
    let _codes = id.codes();
    Ok(Some(id))
}

/// The ids that two compounds refuse.
#[tactic(auto, using(crate::proofs::Choices::refused_of_both))]
fn refused_ids(alloc: Global, left: &[Simple], right: &[Simple]) -> Result<Vec<Text>, AllocError>
    ensures { IfOk result (λ ids. ids.items ≡ refused_ids (left.now ++ right.now)) }
{
    let mut ids = Vec::new(alloc);
    push_refused(&mut ids, left)?;
    push_refused(&mut ids, right)?;
    Ok(ids)
}

/// The ids that two compounds ask for, other than the empty one.
#[tactic(auto, using(crate::proofs::Choices::asked_of_both))]
fn asked_ids(alloc: Global, left: &[Simple], right: &[Simple]) -> Result<Vec<Text>, AllocError>
    ensures { IfOk result (λ ids. ids.items ≡ asked_ids (left.now ++ right.now)) }
{
    let mut ids = Vec::new(alloc);
    push_asked(&mut ids, left)?;
    push_asked(&mut ids, right)?;
    Ok(ids)
}

/// Whether one of two compounds asks for an id.
#[tactic(auto, using(crate::proofs::Choices::id_of_both))]
fn ask_for_id(left: &[Simple], right: &[Simple]) -> bool
    ensures { result ≡ asks_for_id (left.now ++ right.now) }
{
    asks_for_id(left) || asks_for_id(right)
}

/// Whether the id is free in a slot with these compounds, which refuse these ids.
fn is_free(
    alloc: Global,
    left: &[Simple],
    right: &[Simple],
    refused: &[Text],
) -> Result<bool, AllocError>
    requires { refused.now ≡ refused_ids (left.now ++ right.now) }
    ensures { IfOk result (λ free. free ≡ is_id_free (left.now ++ right.now)) }
{
    let asked = asked_ids(alloc, left, right)?;
    let asks = ask_for_id(left, right);
    let is_asked = has_some(asked.as_slice());
    let is_empty_refused = has_empty(refused);
    Ok(all_three(asks, is_asked, is_empty_refused))
}

/// Whether the first and the third hold, and the second does not.
fn all_three(first: bool, second: bool, third: bool) -> bool
    ensures { result ≡ (first && (not second && third)) }
{
    first && (!second && third)
}

/// Whether there is a text.
fn has_some(texts: &[Text]) -> bool
    ensures { result ≡ some_of texts.now }
{
    match texts {
        [] => false,
        _ => true,
    }
}

/// Whether the empty text is among these.
fn has_empty(texts: &[Text]) -> bool
    ensures { result ≡ is_among texts.now [] }
{
    texts.iter().any(|text| is_empty(text))
}

/// Whether a text is empty.
fn is_empty(text: &Text) -> bool
    ensures { result ≡ same_text text.now [] }
{
    matches!(text.codes(), [])
}

/// Appends copies of texts.
fn push_copies(texts: &mut Vec<Text>, more: &[Text]) -> Result<(), AllocError>
    ensures { OnOk result (texts.new.items ≡ texts.old.items ++ more.now) }
{
    for text in more {
        let copy = text.copy()?;
        texts.push(copy)?;
    }
    Ok(())
}

/// Whether the element of a slot with these compounds has text: it has where content is asked for and no child is
/// there.
fn has_text(shape: &Shape, slot: u32, left: &[Simple], right: &[Simple]) -> bool
    requires { slot ≤ length shape.now.steps }
    ensures { result ≡ (not (is_parent shape.now.steps slot) && asks_for_content (left.now ++ right.now)) }
{
    !is_parent(shape.steps.as_slice(), slot) && ask_for_content(left, right)
}

/// Whether a slot is reached by a step up.
#[tactic(auto, using(crate::proofs::Choices::parent_at))]
fn is_parent(steps: &[SlotStep], slot: u32) -> bool
    requires { slot ≤ length steps.now }
    ensures { result ≡ is_parent steps.now slot }
{
    slot > 0 && is_up(steps[slot as usize - 1])
}

/// Whether a step leads to an ancestor.
fn is_up(step: SlotStep) -> bool
    ensures { result ≡ is_up step }
{
    matches!(step, SlotStep::UpOne | SlotStep::UpMore)
}

/// Whether one of two compounds asks for content.
#[tactic(auto, using(crate::proofs::Choices::content_of_both))]
fn ask_for_content(left: &[Simple], right: &[Simple]) -> bool
    ensures { result ≡ asks_for_content (left.now ++ right.now) }
{
    asks_for_content(left) || asks_for_content(right)
}

/// Whether a compound asks for content.
fn asks_for_content(simples: &[Simple]) -> bool
    ensures { result ≡ asks_for_content simples.now }
{
    simples
        .iter()
        .any(|simple| simple.negated && is_empty_test(&simple.test))
}

/// Whether a test is `:empty`.
fn is_empty_test(test: &Test) -> bool
    ensures { result ≡ is_empty_test test.now }
{
    matches!(test, Test::Empty)
}
