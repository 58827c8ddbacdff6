//! The ids that are asked for and refused in a slot, and those that are left (Selectors 3, section 6.5).

ghost use Rattle.std.specs.Prelude.{◌≡◌, ◌++◌, MatchOption, None, Some, OnOk, codes};
ghost use Rattle.css_model.specs.Documents.Document.{if_not_empty};
ghost use Rattle.css_model.specs.Lists.{same_text};
ghost use Rattle.element_laws.specs.Ids.{
  asked_ids,
  asks_for_id,
  id_value,
  is_id_test,
  refused_id,
  refused_ids,
};
ghost use Rattle.slot_plan.specs.ValidShape.{asked_id};

use css_model::{Op, Simple, Test, Text};
use std::alloc::AllocError;

/// Whether a name is `id`.
pub(crate) fn is_id(name: &Text) -> bool
    ensures { result ≡ same_text name.now (codes "id") }
{
    matches!(name.codes(), ['i', 'd'])
}

/// Whether a test is one of the id.
fn is_id_test(test: &Test) -> bool
    ensures { result ≡ is_id_test test.now }
{
    match test {
        Test::Id(_) => true,
        Test::Attr(test) => is_id(&test.name),
        _ => false,
    }
}

/// Whether some test of the id is asked to hold.
pub(crate) fn asks_for_id(simples: &[Simple]) -> bool
    ensures { result ≡ asks_for_id simples.now }
{
    simples
        .iter()
        .any(|simple| !simple.negated && is_id_test(&simple.test))
}

/// The id that a test names, by `#` or by `=`.
fn id_value(test: &Test) -> Option<&Text>
    ensures { MatchOption result (id_value test.now ≡ None) (λ id. id_value test.now ≡ Some id.now) }
{
    match test {
        Test::Id(id) => Some(id),
        Test::Attr(test) => {
            if is_id(&test.name) && test.op == Op::Equal {
                Some(&test.value)
            } else {
                None
            }
        }
        _ => None,
    }
}

/// The id that a simple selector asks for, if it is not empty.
fn asked_id(simple: &Simple) -> Option<&Text>
    ensures { MatchOption result (asked_id simple.now ≡ None) (λ id. asked_id simple.now ≡ Some id.now) }
{
    if simple.negated {
        return None;
    }
    match id_value(&simple.test) {
        Some(id) => if_not_empty(id),
        None => None,
    }
}

/// The id that a simple selector refuses.
fn refused_id(simple: &Simple) -> Option<&Text>
    ensures { MatchOption result (refused_id simple.now ≡ None) (λ id. refused_id simple.now ≡ Some id.now) }
{
    if simple.negated {
        id_value(&simple.test)
    } else {
        None
    }
}

/// A text that is not empty.
fn if_not_empty(text: &Text) -> Option<&Text>
    ensures { MatchOption result (if_not_empty (Some text.now) ≡ None) (λ t. if_not_empty (Some text.now) ≡ Some t.now) }
{
    match text.codes() {
        [] => None,
        _ => Some(text),
    }
}

/// Appends the ids that are asked for, other than the empty one.
pub(crate) fn push_asked(ids: &mut Vec<Text>, simples: &[Simple]) -> Result<(), AllocError>
    ensures { OnOk result (ids.new.items ≡ ids.old.items ++ asked_ids simples.now) }
{
    for simple in simples {
        if let Some(id) = asked_id(simple) {
            let copy = id.copy()?;
            ids.push(copy)?;
        }
    }
    Ok(())
}

/// Appends the ids that are refused.
pub(crate) fn push_refused(ids: &mut Vec<Text>, simples: &[Simple]) -> Result<(), AllocError>
    ensures { OnOk result (ids.new.items ≡ ids.old.items ++ refused_ids simples.now) }
{
    for simple in simples {
        if let Some(id) = refused_id(simple) {
            let copy = id.copy()?;
            ids.push(copy)?;
        }
    }
    Ok(())
}
