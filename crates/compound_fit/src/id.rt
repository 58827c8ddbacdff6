//! The attribute `id` (Selectors 3, section 6.5).

ghost use Rattle.std.specs.Prelude.{◌≡◌, Some, None, IfOk, MatchOption};
ghost use Rattle.attr_values.specs.Asked.{asked, is_asked, is_equal, passes_as_asked, refused};
ghost use Rattle.attr_values.specs.Value.{head_of};
ghost use Rattle.compound_fit.specs.Ids.{ArePlain, IsFreeId, IsTriedId, SolvesId, if_passes};

use crate::free_name::first_free;
use attr_values::{Fits, passes_as_asked};
use css_model::{AttrTest, Op, Text};
use std::alloc::{AllocError, Global};

/// How the id passes tests of presence and equality.
pub(crate) fn solve_id(alloc: Global, tests: &[(AttrTest, bool)]) -> Result<Fits, AllocError>
    requires { ArePlain tests.now }
    ensures { IfOk result (λ fits. SolvesId fits tests.now) }
{
    if !is_asked(tests) {
        return Ok(Fits::Absent);
    }
    let id = tried_id(alloc, tests)?;
    let fits = if_passes(alloc, tests, id)?;
    Ok(fits)
}

/// An id, if it passes each test as it is asked.
fn if_passes(alloc: Global, tests: &[(AttrTest, bool)], id: Text) -> Result<Fits, AllocError>
    ensures { IfOk result (λ fits. fits ≡ if_passes id (passes_as_asked tests.now id)) }
{
    if passes_as_asked(alloc, tests, id.codes())? {
        Ok(Fits::Value(id))
    } else {
        Ok(Fits::Nothing)
    }
}

/// Whether some test is asked to hold.
fn is_asked(tests: &[(AttrTest, bool)]) -> bool
    ensures { result ≡ is_asked tests.now }
{
    tests.iter().any(|(_, wanted)| *wanted)
}

/// The id that is asked for, or a free one.
fn tried_id(alloc: Global, tests: &[(AttrTest, bool)]) -> Result<Text, AllocError>
    ensures { IfOk result (λ id. IsTriedId id tests.now) }
{
    match asked_id(tests) {
        Some(id) => {
            let id = id.copy()?;
            Ok(id)
        }
        None => {
            let refused = refused_ids(alloc, tests)?;
            let id = free_id(alloc, refused.as_slice())?;
            Ok(id)
        }
    }
}

/// The first id that is asked for.
fn asked_id(tests: &[(AttrTest, bool)]) -> Option<&Text>
    ensures { MatchOption result (head_of (asked is_equal tests.now) ≡ None)
        (λ id. head_of (asked is_equal tests.now) ≡ Some id.now) }
{
    for (test, wanted) in tests {
        if *wanted && test.op == Op::Equal {
            return Some(&test.value);
        }
    }
    None
}

/// The ids that are refused.
fn refused_ids(alloc: Global, tests: &[(AttrTest, bool)]) -> Result<Vec<Text>, AllocError>
    ensures { IfOk result (λ ids. ids.items ≡ refused is_equal tests.now) }
{
    let mut ids = Vec::new(alloc);
    for (test, wanted) in tests {
        if !*wanted && test.op == Op::Equal {
            let copy = test.value.copy()?;
            ids.push(copy)?;
        }
    }
    Ok(ids)
}

/// The empty id, or where that is refused the first free name.
fn free_id(alloc: Global, refused: &[Text]) -> Result<Text, AllocError>
    ensures { IfOk result (λ id. IsFreeId id refused.now) }
{
    let empty = Text::new(Vec::new(alloc));
    if refused.contains(&empty) {
        let name = first_free(alloc, refused)?;
        Ok(name)
    } else {
        Ok(empty)
    }
}
