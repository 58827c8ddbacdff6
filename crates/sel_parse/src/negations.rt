//! The negation (Selectors 3, section 6.6.7).

ghost use Rattle.std.specs.Prelude.{◌≡◌, ◌≤◌};
ghost use Rattle.css_model.specs.Selectors.Negations as spec;
ghost use Rattle.sel_parse.specs.Answers.{Reads};

use crate::error::Refusal;
use crate::refusals::{Read, against, against_first};
use crate::simples::{begins_simple, test_at};
use crate::terms::{Term, Terms};
use crate::tokens::{is_function, is_sign_of};
use crate::types::{begins_type, type_at};
use css_model::{Reason, Simple, Test};
use std::alloc::Global;

/// Whether `not(` is at the front.
fn not_follows(terms: &Terms) -> bool
    ensures { result ≡ spec.not_follows terms.now }
{
    match terms.split_first() {
        None => false,
        Some((x, _)) => is_function(x.kind()) && x.is_word(b"not"),
    }
}

/// The end of a negation, after what it negates, of so many terms.
fn end_at(test: Test, n: usize, terms: &Terms) -> Read<Simple>
    requires { n ≤ 8 }
    ensures { Reads result (spec.end_at test n terms.now) }
{
    match terms.split_first() {
        None => Err(Refusal::Outside(Reason::NotAllowed)),
        Some((x, _)) => {
            if is_sign_of(b')', x.kind()) {
                let negated = true;
                Ok((Simple { negated, test }, 3 + n))
            } else {
                Err(Refusal::Outside(against(&x)))
            }
        }
    }
}

/// What is in `:not()`, and its end.
fn negated_at(alloc: Global, stepped: usize, terms: &Terms) -> Read<Simple>
    ensures { Reads result (spec.negated_at stepped terms.now) }
{
    match terms.split_first() {
        None => Err(Refusal::Outside(Reason::NotAllowed)),
        Some((x, rest)) => {
            if begins_type(&x) {
                let test = type_at(alloc, &x)?;
                end_at(test, 1, &rest)
            } else if begins_simple(&x, &rest)
                && !(is_sign_of(b':', x.kind()) && not_follows(&rest))
            {
                let (test, n) = test_at(alloc, stepped, &x, &rest)?;
                end_at(test, n, &terms.skip(n))
            } else if is_sign_of(b':', x.kind()) {
                Err(Refusal::Outside(against_first(&rest.right_behind(x.gap()))))
            } else {
                Err(Refusal::Outside(against(&x)))
            }
        }
    }
}

/// A simple selector other than a type, where one begins. Before it are so many positions whose step has a size of 2 or
/// more.
pub(crate) fn simple_at(alloc: Global, stepped: usize, x: &Term, rest: &Terms) -> Read<Simple>
    ensures { Reads result (spec.simple_at stepped x.now rest.now) }
{
    if is_sign_of(b':', x.kind()) && not_follows(rest) {
        return negated_at(alloc, stepped, &rest.skip(1));
    }
    let (test, n) = test_at(alloc, stepped, x, rest)?;
    let negated = false;
    Ok((Simple { negated, test }, n))
}
