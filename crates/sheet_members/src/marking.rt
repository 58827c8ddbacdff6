//! The members of a sheet beside those of another one.

ghost use Rattle.std.specs.Prelude.{◌≡◌, IfOk, map};
ghost use Rattle.sheet_members.specs.Compared as spec;

use crate::label::key_of;
use crate::listing::{Member, numbered};
use crate::table::{Places, has_label, places_of};
use std::alloc::{AllocError, Global};

/// A member beside those whose places these are.
fn marked<'a>(places: &Places<'_>, m: &Member<'a>) -> Member<'a>
    ensures { result ≡ spec.marked places.now m.now }
{
    Member {
        occurrence: m.occurrence,
        label: if has_label(places, &m.label) {
            m.label.copy()
        } else {
            key_of(m.occurrence)
        },
    }
}

/// The members beside those whose places these are.
fn each_marked<'a>(
    alloc: Global,
    places: &Places<'_>,
    members: &[Member<'a>],
) -> Result<Vec<Member<'a>>, AllocError>
    ensures { IfOk result (λ found. found.items ≡ map (spec.marked places.now) members.now) }
{
    let mut found = Vec::with_capacity(alloc, members.len())?;
    let mut rest = members;
    'members: while let [m, others @ ..] = rest {
        found.push(marked(places, m))?;
        rest = others;
    }
    Ok(found)
}

/// The members of a sheet beside those of another one: those that the other one lacks are compared as changed ones. Of
/// these the k-th of a key has the number k from 0. `AllocError` where memory is short.
pub fn marked_all<'a>(
    alloc: Global,
    others: &'a [Member<'a>],
    members: &[Member<'a>],
) -> Result<Vec<Member<'a>>, AllocError>
    ensures { IfOk result (λ found. found.items ≡ spec.all_marked others.now members.now) }
{
    let places = places_of(alloc, others)?;
    let marked = each_marked(alloc, &places, members)?;
    numbered(alloc, &marked)
}
