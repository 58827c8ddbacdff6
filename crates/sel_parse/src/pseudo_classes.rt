//! Pseudo-classes (Selectors 3, section 6.6) but for the negation.

ghost use Rattle.std.specs.Prelude.{◌≡◌, ◌≤◌, ◌&&◌, nat_le, IfOk};
ghost use Rattle.css_model.specs.Positions.Range.{is_stepped};
ghost use Rattle.css_model.specs.Selectors.Compounds.{is_stepped_test};
ghost use Rattle.css_model.specs.Sheets.Limits.{max_stepped};
ghost use Rattle.css_model.specs.Selectors.PseudoClasses as spec;
ghost use Rattle.css_model.specs.Selectors.Tokens.{row_of};
ghost use Rattle.sel_parse.specs.Answers.{Reads};

use crate::error::Refusal;
use crate::pseudo_elements::is_pseudo_element;
use crate::refusals::Read;
use crate::terms::{Term, Terms};
use crate::tokens::{is_function, is_ident};
use css_model::{AnB, Flag, MAX_STEPPED, Reason, Test};
use std::alloc::Global;

/// What the pseudo-class of this name tests. It has no argument.
fn plain_test(x: &Term) -> Option<Test>
    ensures { result ≡ row_of x.now.name spec.plain_pseudo_classes }
{
    if x.is_word(b"first-child") {
        Some(Test::Nth(AnB { a: 0, b: 1 }))
    } else if x.is_word(b"last-child") {
        Some(Test::NthLast(AnB { a: 0, b: 1 }))
    } else if x.is_word(b"only-child") {
        Some(Test::OnlyChild)
    } else if x.is_word(b"root") {
        Some(Test::Root)
    } else if x.is_word(b"empty") {
        Some(Test::Empty)
    } else if x.is_word(b"link") {
        Some(Test::State(Flag::Link))
    } else if x.is_word(b"visited") {
        Some(Test::State(Flag::Visited))
    } else if x.is_word(b"hover") {
        Some(Test::State(Flag::Hover))
    } else if x.is_word(b"active") {
        Some(Test::State(Flag::Active))
    } else if x.is_word(b"focus") {
        Some(Test::State(Flag::Focus))
    } else if x.is_word(b"target") {
        Some(Test::State(Flag::Target))
    } else if x.is_word(b"enabled") {
        Some(Test::State(Flag::Enabled))
    } else if x.is_word(b"disabled") {
        Some(Test::State(Flag::Disabled))
    } else if x.is_word(b"checked") {
        Some(Test::State(Flag::Checked))
    } else {
        None
    }
}

fn is_stepped(x: AnB) -> bool
    ensures { result ≡ is_stepped x }
{
    x.a.unsigned_abs() >= 2
}

/// Whether a test is that of a position whose step has a size of 2 or more.
pub(crate) fn is_stepped_test(test: &Test) -> bool
    ensures { result ≡ is_stepped_test test.now }
{
    match test {
        Test::Nth(x) => is_stepped(*x),
        Test::NthLast(x) => is_stepped(*x),
        _ => false,
    }
}

/// Whether this position is one too many after so many whose step has a size of 2 or more.
fn is_one_too_many(stepped: usize, x: AnB) -> bool
    ensures { result ≡ (is_stepped x && nat_le max_stepped stepped) }
{
    is_stepped(x) && stepped >= MAX_STEPPED
}

/// The argument of a function of a position, after so many positions whose step has a size of 2 or more.
fn position_argument(alloc: Global, stepped: usize, x: &Term) -> Result<AnB, Refusal>
    ensures { Reads result (spec.counted_argument stepped x.now.argument) }
{
    let argument = x.argument(alloc)?;
    if is_one_too_many(stepped, argument) {
        Err(Refusal::Outside(Reason::TooManyStepped))
    } else {
        Ok(argument)
    }
}

/// A function after one colon, after so many positions whose step has a size of 2 or more.
fn function_at(alloc: Global, stepped: usize, x: &Term) -> Read<Test>
    ensures reads { Reads result (spec.function_or_none (row_of x.now.name spec.position_functions) stepped x.now) }
    ensures small { IfOk result (λ read. read.1 ≤ 8) }
{
    if x.is_word(b"nth-child") {
        Ok((Test::Nth(position_argument(alloc, stepped, x)?), 2))
    } else if x.is_word(b"nth-last-child") {
        Ok((Test::NthLast(position_argument(alloc, stepped, x)?), 2))
    } else {
        Err(Refusal::Outside(Reason::PseudoClass))
    }
}

/// A pseudo-class, by the ident or the function after its colon.
pub(crate) fn pseudo_class_at(alloc: Global, stepped: usize, x: &Term) -> Read<Test>
    ensures reads { Reads result (spec.pseudo_class_at stepped x.now) }
    ensures small { IfOk result (λ read. read.1 ≤ 8) }
{
    if is_ident(x.kind()) {
        match plain_test(x) {
            Some(test) => Ok((test, 2)),
            None => Err(Refusal::Outside(Reason::PseudoClass)),
        }
    } else {
        function_at(alloc, stepped, x)
    }
}

fn is_pseudo_class(x: &Term) -> bool
    ensures { result ≡ spec.is_pseudo_class x.now }
{
    (is_ident(x.kind()) || is_function(x.kind())) && !is_pseudo_element(x)
}

/// Whether a pseudo-class directly follows a colon.
pub(crate) fn pseudo_class_follows(terms: &Terms) -> bool
    ensures { result ≡ spec.pseudo_class_follows terms.now }
{
    match terms.split_first() {
        None => false,
        Some((x, _)) => is_pseudo_class(&x),
    }
}
