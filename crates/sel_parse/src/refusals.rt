//! What is read at the front of terms, and the reason against a term that no rule of the grammar allows.

ghost use Rattle.std.specs.Prelude.{◌≡◌};
ghost use Rattle.css_model.specs.Selectors.Refusals as spec;

use crate::error::Refusal;
use crate::terms::{Term, Terms};
use crate::tokens::is_delim_of;
use css_model::Reason;

/// What is read, and how many terms it takes.
pub(crate) type Read<T> = Result<(T, usize), Refusal>;

/// The reason against a term.
pub(crate) fn against(x: &Term) -> Reason
    ensures { result ≡ spec.against x.now }
{
    if is_delim_of(u32::from(b'|'), x.kind()) {
        Reason::Namespace
    } else {
        Reason::NotAllowed
    }
}

/// The reason against the first of these terms, or against an end where one has to follow.
pub(crate) fn against_first(terms: &Terms) -> Reason
    ensures { result ≡ spec.against_first terms.now }
{
    match terms.split_first() {
        None => Reason::NotAllowed,
        Some((x, _)) => against(&x),
    }
}
