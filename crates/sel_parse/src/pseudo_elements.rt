//! Pseudo-elements (Selectors 3, section 7).

ghost use Rattle.std.specs.Prelude.{◌≡◌};
ghost use Rattle.css_model.specs.Selectors.PseudoElements as spec;
ghost use Rattle.css_model.specs.Selectors.Tokens.{row_of};
ghost use Rattle.sel_parse.specs.Answers.{Reads};

use crate::error::Refusal;
use crate::refusals::{Read, against};
use crate::terms::{Term, Terms};
use crate::tokens::{is_function, is_ident, is_sign_of};
use css_model::{Pseudo, Reason};

/// The pseudo-element of this name.
fn named_element(x: &Term) -> Option<Pseudo>
    ensures { result ≡ row_of x.now.name spec.pseudo_elements }
{
    if x.is_word(b"first-line") {
        Some(Pseudo::FirstLine)
    } else if x.is_word(b"first-letter") {
        Some(Pseudo::FirstLetter)
    } else if x.is_word(b"before") {
        Some(Pseudo::Before)
    } else if x.is_word(b"after") {
        Some(Pseudo::After)
    } else {
        None
    }
}

/// Whether a colon before this term begins a pseudo-element.
pub(crate) fn is_pseudo_element(x: &Term) -> bool
    ensures { result ≡ spec.is_pseudo_element x.now }
{
    is_sign_of(b':', x.kind()) || (is_ident(x.kind()) && named_element(x).is_some())
}

/// A pseudo-element, by what directly follows two colons.
fn behind_colons(terms: &Terms) -> Read<Pseudo>
    ensures { Reads result (spec.behind_colons terms.now) }
{
    match terms.split_first() {
        None => Err(Refusal::Outside(Reason::NotAllowed)),
        Some((x, _)) => {
            if is_ident(x.kind()) {
                match named_element(&x) {
                    Some(element) => Ok((element, 3)),
                    None => Err(Refusal::Outside(Reason::PseudoElement)),
                }
            } else if is_function(x.kind()) {
                Err(Refusal::Outside(Reason::PseudoElement))
            } else {
                Err(Refusal::Outside(against(&x)))
            }
        }
    }
}

/// A pseudo-element, by what directly follows one colon.
pub(crate) fn pseudo_element_at(terms: &Terms) -> Read<Pseudo>
    ensures { Reads result (spec.pseudo_element_at terms.now) }
{
    match terms.split_first() {
        None => Err(Refusal::Outside(Reason::NotAllowed)),
        Some((x, rest)) => {
            if is_sign_of(b':', x.kind()) {
                behind_colons(&rest.right_behind(x.gap()))
            } else if is_ident(x.kind()) {
                match named_element(&x) {
                    Some(element) => Ok((element, 2)),
                    None => Err(Refusal::Outside(against(&x))),
                }
            } else {
                Err(Refusal::Outside(against(&x)))
            }
        }
    }
}
