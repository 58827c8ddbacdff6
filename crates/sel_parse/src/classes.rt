//! Class selectors (Selectors 3, section 6.4).

ghost use Rattle.std.specs.Prelude.{◌≡◌, ◌≤◌, codes, IfOk};
ghost use Rattle.css_model.specs.Selectors.Classes as spec;
ghost use Rattle.sel_parse.specs.Answers.{Reads};

use crate::error::Refusal;
use crate::refusals::{Read, against};
use crate::terms::{Term, Terms};
use crate::tokens::is_ident;
use css_model::{AttrTest, Op, Reason, Test, Text};
use std::alloc::{AllocError, Global};

/// Whether this is the name of a class or an attribute.
pub(crate) fn is_name(x: &Term) -> bool
    ensures { result ≡ spec.is_name x.now }
{
    is_ident(x.kind()) && !x.is_only_dashes()
}

fn class_name(alloc: Global) -> Result<Text, AllocError>
    ensures { IfOk result (λ t. t ≡ codes "class") }
{
    Ok(Text::new(vec![in alloc; 'c', 'l', 'a', 's', 's']?))
}

/// A class, by what follows its dot directly.
pub(crate) fn class_at(alloc: Global, terms: &Terms) -> Read<Test>
    ensures reads { Reads result (spec.class_at terms.now) }
    ensures small { IfOk result (λ read. read.1 ≤ 8) }
{
    match terms.split_first() {
        None => Err(Refusal::Outside(Reason::NotAllowed)),
        Some((x, _)) => {
            if is_name(&x) {
                let test = AttrTest {
                    name: class_name(alloc)?,
                    op: Op::Word,
                    value: x.text(alloc)?,
                };
                Ok((Test::Attr(test), 2))
            } else {
                Err(Refusal::Outside(against(&x)))
            }
        }
    }
}
