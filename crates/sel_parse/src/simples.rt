//! Simple selectors (Selectors 3, section 6) other than those of a type and the negation.

ghost use Rattle.std.specs.Prelude.{◌≡◌, ◌≤◌, IfOk};
ghost use Rattle.css_model.specs.Selectors.Simples as spec;
ghost use Rattle.sel_parse.specs.Answers.{Reads};

use crate::attributes::attribute_at;
use crate::classes::class_at;
use crate::error::Refusal;
use crate::pseudo_classes::{pseudo_class_at, pseudo_class_follows};
use crate::refusals::Read;
use crate::terms::{Term, Terms};
use crate::tokens::{is_delim_of, is_id_hash, is_sign_of};
use css_model::{Reason, Test};
use std::alloc::Global;

/// Whether a simple selector other than a type begins with this term.
pub(crate) fn begins_simple(x: &Term, rest: &Terms) -> bool
    ensures { result ≡ spec.begins_simple x.now rest.now }
{
    is_id_hash(x.kind())
        || is_delim_of(u32::from(b'.'), x.kind())
        || is_sign_of(b'[', x.kind())
        || (is_sign_of(b':', x.kind()) && pseudo_class_follows(&rest.right_behind(x.gap())))
}

/// A pseudo-class, by what follows its colon.
fn behind_colon(alloc: Global, stepped: usize, terms: &Terms) -> Read<Test>
    ensures reads { Reads result (spec.behind_colon stepped terms.now) }
    ensures small { IfOk result (λ read. read.1 ≤ 8) }
{
    match terms.split_first() {
        None => Err(Refusal::Outside(Reason::NotAllowed)),
        Some((x, _)) => pseudo_class_at(alloc, stepped, &x),
    }
}

/// A simple selector other than a type or a negation, where one begins. Before it are so many positions whose step has
/// a size of 2 or more.
pub(crate) fn test_at(alloc: Global, stepped: usize, x: &Term, rest: &Terms) -> Read<Test>
    ensures reads { Reads result (spec.test_at stepped x.now rest.now) }
    ensures small { IfOk result (λ read. read.1 ≤ 8) }
{
    if is_id_hash(x.kind()) {
        Ok((Test::Id(x.text(alloc)?), 1))
    } else if is_delim_of(u32::from(b'.'), x.kind()) {
        class_at(alloc, &rest.right_behind(x.gap()))
    } else if is_sign_of(b'[', x.kind()) {
        attribute_at(alloc, rest)
    } else {
        behind_colon(alloc, stepped, rest)
    }
}
