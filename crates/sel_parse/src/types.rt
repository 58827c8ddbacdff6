//! Type selectors and the universal selector (Selectors 3, sections 6.1 and 6.2).

ghost use Rattle.std.specs.Prelude.{◌≡◌, IfOk};
ghost use Rattle.css_model.specs.Text.Lexemes.{is_delim_of};
ghost use Rattle.css_model.specs.Text.Names.{lower};
ghost use Rattle.css_model.specs.Text.Characters.{star};
ghost use Rattle.css_model.specs.Selectors.Types as spec;
ghost use Rattle.sel_parse.specs.Answers.{Reads};

use crate::error::Refusal;
use crate::terms::Term;
use crate::tokens::{is_delim_of, is_ident};
use css_model::{Reason, Test, Text};
use std::alloc::{AllocError, Global};

/// A name in ASCII lower case.
pub(crate) fn lower(alloc: Global, name: &Text) -> Result<Text, AllocError>
    ensures { IfOk result (λ t. t ≡ lower name.now) }
{
    let codes = name.codes();
    let mut lowered = Vec::with_capacity(alloc, codes.len())?;
    'codes: for c in codes {
        lowered.push(c.to_ascii_lowercase())?;
    }
    Ok(Text::new(lowered))
}

fn is_star(x: &Term) -> bool
    ensures { result ≡ is_delim_of star x.now.kind }
{
    is_delim_of(u32::from(b'*'), x.kind())
}

/// Whether a type selector or `*` begins with this term.
pub(crate) fn begins_type(x: &Term) -> bool
    ensures { result ≡ spec.begins_type x.now }
{
    is_ident(x.kind()) || is_star(x)
}

/// A type or `*`, where one begins.
pub(crate) fn type_at(alloc: Global, x: &Term) -> Result<Test, Refusal>
    ensures { Reads result (spec.type_at x.now) }
{
    if is_star(x) {
        Ok(Test::Any)
    } else if x.is_dashed() {
        Err(Refusal::Outside(Reason::NotAllowed))
    } else {
        let name = x.text(alloc)?;
        Ok(Test::Kind(lower(alloc, &name)?))
    }
}
