//! Attribute selectors (Selectors 3, section 6.3).

ghost use Rattle.std.specs.Prelude.{◌≡◌, ◌≤◌, codes, IfOk};
ghost use Rattle.css_model.specs.Lists.{same_text};
ghost use Rattle.css_model.specs.Selectors.Attributes as spec;
ghost use Rattle.sel_parse.specs.Answers.{Reads};

use crate::classes::is_name;
use crate::error::Refusal;
use crate::refusals::{Read, against, against_first};
use crate::terms::{Term, Terms, op_of};
use crate::tokens::{is_delim_of, is_gapless, is_ident, is_sign_of, is_string};
use crate::types::lower;
use css_model::{AttrTest, Op, Reason, Test, Text};
use std::alloc::Global;

/// The test of so many terms, with its closing bracket.
fn closed_at(test: Test, n: usize, terms: &Terms) -> Read<Test>
    requires { n ≤ 7 }
    ensures reads { Reads result (spec.closed_at test n terms.now) }
    ensures small { IfOk result (λ read. read.1 ≤ 8) }
{
    match terms.split_first() {
        None => Err(Refusal::Outside(Reason::NotAllowed)),
        Some((x, _)) => {
            if is_sign_of(b']', x.kind()) {
                Ok((test, n + 1))
            } else if is_ident(x.kind()) {
                Err(Refusal::Outside(Reason::CaseFlag))
            } else {
                Err(Refusal::Outside(against(&x)))
            }
        }
    }
}

/// The test of so many terms, with its value after the operator, and its closing bracket.
fn value_at(alloc: Global, name: Text, op: Op, n: usize, terms: &Terms) -> Read<Test>
    requires { n ≤ 6 }
    ensures reads { Reads result (spec.value_at name op n terms.now) }
    ensures small { IfOk result (λ read. read.1 ≤ 8) }
{
    match terms.split_first() {
        None => Err(Refusal::Outside(Reason::NotAllowed)),
        Some((x, rest)) => {
            if is_ident(x.kind()) || is_string(x.kind()) {
                let value = x.text(alloc)?;
                closed_at(Test::Attr(AttrTest { name, op, value }), n + 1, &rest)
            } else {
                Err(Refusal::Outside(against(&x)))
            }
        }
    }
}

fn is_id(name: &Text) -> bool
    ensures { result ≡ same_text name.now (codes "id") }
{
    matches!(name.codes(), ['i', 'd'])
}

/// The test after the first sign of an operator: `=` has to follow directly.
fn operator_at(alloc: Global, name: Text, op: Op, sign: &Term, terms: &Terms) -> Read<Test>
    ensures reads { Reads result (spec.operator_at name op sign.now terms.now) }
    ensures small { IfOk result (λ read. read.1 ≤ 8) }
{
    match terms.split_first() {
        None => Err(Refusal::Outside(against(sign))),
        Some((x, rest)) => {
            if is_delim_of(u32::from(b'='), x.kind()) && is_gapless(sign.gap()) {
                if is_id(&name) {
                    Err(Refusal::Outside(Reason::IdTest))
                } else {
                    value_at(alloc, name, op, 4, &rest)
                }
            } else if is_delim_of(u32::from(b'|'), sign.kind()) {
                Err(Refusal::Outside(Reason::Namespace))
            } else {
                Err(Refusal::Outside(against_first(&terms.right_behind(sign.gap()))))
            }
        }
    }
}

/// The test after the name of an attribute.
fn match_at(alloc: Global, name: Text, terms: &Terms) -> Read<Test>
    ensures reads { Reads result (spec.match_at name terms.now) }
    ensures small { IfOk result (λ read. read.1 ≤ 8) }
{
    match terms.split_first() {
        None => Err(Refusal::Outside(Reason::NotAllowed)),
        Some((x, rest)) => {
            if is_sign_of(b']', x.kind()) {
                let value = Text::new(Vec::new(alloc));
                let op = Op::Present;
                Ok((Test::Attr(AttrTest { name, op, value }), 3))
            } else if is_delim_of(u32::from(b'='), x.kind()) {
                value_at(alloc, name, Op::Equal, 3, &rest)
            } else {
                match op_of(x.kind()) {
                    Some(op) => operator_at(alloc, name, op, &x, &rest),
                    None => Err(Refusal::Outside(against(&x))),
                }
            }
        }
    }
}

/// The test after `[`.
pub(crate) fn attribute_at(alloc: Global, terms: &Terms) -> Read<Test>
    ensures reads { Reads result (spec.attribute_at terms.now) }
    ensures small { IfOk result (λ read. read.1 ≤ 8) }
{
    match terms.split_first() {
        None => Err(Refusal::Outside(Reason::NotAllowed)),
        Some((x, rest)) => {
            if is_name(&x) {
                let name = x.text(alloc)?;
                match_at(alloc, lower(alloc, &name)?, &rest)
            } else {
                Err(Refusal::Outside(against(&x)))
            }
        }
    }
}
