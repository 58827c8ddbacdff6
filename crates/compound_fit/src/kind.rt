//! The type of an element that compounds ask for (Selectors 3, sections 6.1 and 6.2).

ghost use Rattle.std.specs.Prelude.{◌≡◌, ◌++◌, [], Some, None, IfOk, OnOk, MatchOption};
ghost use Rattle.css_model.specs.Documents.Document.{IsText};
ghost use Rattle.attr_values.specs.Value.{head_of};
ghost use Rattle.compound_fit.specs.Kinds.{
  IsTriedKind,
  SolvesKind,
  asked_kinds,
  kind_holds,
  named_kind,
  passes_kind,
  passes_kinds,
  refused_kinds,
};

use crate::free_name::first_free;
use css_model::{Simple, Test, Text};
use std::alloc::{AllocError, Global};

/// The type of an element that passes, if there is one: the type that is asked for, or a free name.
pub(crate) fn kind(alloc: Global, x: &[Simple], y: &[Simple]) -> Result<Option<Text>, AllocError>
    ensures { IfOk result (λ kind. SolvesKind kind (x.now ++ y.now)) }
{
    let kind = tried_kind(alloc, x, y)?;
    if both_pass(x, y, kind.codes()) {
        Ok(Some(kind))
    } else {
        Ok(None)
    }
}

/// The first type that is asked for, or the first free name.
fn tried_kind(alloc: Global, x: &[Simple], y: &[Simple]) -> Result<Text, AllocError>
    ensures { IfOk result (λ kind. IsTriedKind kind (x.now ++ y.now)) }
{
    match first_kind(x, y) {
        Some(kind) => {
            let kind = kind.copy()?;
            Ok(kind)
        }
        None => {
            let refused = refused_kinds(alloc, x, y)?;
            let kind = first_free(alloc, refused.as_slice())?;
            Ok(kind)
        }
    }
}

/// The first type that is asked for in two lists.
fn first_kind<'a>(x: &'a [Simple], y: &'a [Simple]) -> Option<&'a Text>
    ensures { MatchOption result (head_of (asked_kinds (x.now ++ y.now)) ≡ None)
        (λ kind. head_of (asked_kinds (x.now ++ y.now)) ≡ Some kind.now) }
{
    match asked_kind(x) {
        Some(kind) => Some(kind),
        None => asked_kind(y),
    }
}

/// The first type that is asked for.
fn asked_kind(simples: &[Simple]) -> Option<&Text>
    ensures { MatchOption result (head_of (asked_kinds simples.now) ≡ None)
        (λ kind. head_of (asked_kinds simples.now) ≡ Some kind.now) }
{
    for simple in simples {
        if !simple.negated {
            if let Test::Kind(kind) = &simple.test {
                return Some(kind);
            }
        }
    }
    None
}

/// The types that are refused.
fn refused_kinds(alloc: Global, x: &[Simple], y: &[Simple]) -> Result<Vec<Text>, AllocError>
    ensures { IfOk result (λ kinds. kinds.items ≡ refused_kinds (x.now ++ y.now)) }
{
    let mut kinds = Vec::new(alloc);
    push_refused(&mut kinds, x)?;
    push_refused(&mut kinds, y)?;
    Ok(kinds)
}

/// Appends the types that are refused.
fn push_refused(kinds: &mut Vec<Text>, simples: &[Simple]) -> Result<(), AllocError>
    ensures { OnOk result (kinds.new.items ≡ kinds.old.items ++ refused_kinds simples.now) }
{
    for simple in simples {
        if simple.negated {
            push_kind(kinds, &simple.test)?;
        }
    }
    Ok(())
}

/// Appends the type that a test names, if it names one.
fn push_kind(kinds: &mut Vec<Text>, test: &Test) -> Result<(), AllocError>
    ensures { OnOk result (kinds.new.items ≡ kinds.old.items ++ named_kind test.now []) }
{
    match test {
        Test::Kind(kind) => {
            let copy = kind.copy()?;
            kinds.push(copy)?;
            Ok(())
        }
        _ => Ok(()),
    }
}

/// Whether a type passes each test of the type in two lists.
fn both_pass(x: &[Simple], y: &[Simple], kind: &[char]) -> bool
    ensures { result ≡ passes_kinds kind.now (x.now ++ y.now) }
{
    passes_kinds(x, kind) && passes_kinds(y, kind)
}

/// Whether a type passes each test of the type.
fn passes_kinds(simples: &[Simple], kind: &[char]) -> bool
    ensures { result ≡ passes_kinds kind.now simples.now }
{
    for simple in simples {
        if !passes_kind(simple, kind) {
            return false;
        }
    }
    true
}

/// Whether a type passes a simple selector, as far as that tests the type.
fn passes_kind(simple: &Simple, kind: &[char]) -> bool
    ensures { result ≡ passes_kind kind.now simple.now }
{
    match &simple.test {
        Test::Any => !simple.negated,
        Test::Kind(name) => (kind == name.codes()) != simple.negated,
        _ => true,
    }
}
