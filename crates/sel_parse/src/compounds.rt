//! Sequences of simple selectors and the combinators between them (Selectors 3, sections 4 and 8).

ghost use Rattle.std.specs.Prelude.{◌≡◌, ◌<◌, ◌≤◌, ◌+◌, ◌^◌, ◌∷◌, ◌++◌, [], None, IfOk, OnOk};
ghost use Rattle.css_model.specs.Selectors.Compounds as spec;
ghost use Rattle.css_model.specs.Selectors.Terms.{combinator_of};
ghost use Rattle.sel_parse.specs.Answers.{Steps};

use crate::error::Refusal;
use crate::negations::simple_at;
use crate::pseudo_classes::is_stepped_test;
use crate::pseudo_elements::pseudo_element_at;
use crate::refusals::{against, against_first};
use crate::simples::begins_simple;
use crate::terms::{Term, Terms, combinator_of};
use crate::tokens::{is_delim_of, is_id_hash, is_sign_of};
use crate::types::{begins_type, type_at};
use css_model::{
    Combinator, Compound, Gap, MAX_COMPOUNDS, MAX_SIMPLES, Pseudo, Reason, Simple, Test,
};
use smallvec::SmallVec;
use std::alloc::{AllocError, Global};
use std::marker::Model;

/// What is read so far.
#[derive(Drop)]
pub(crate) struct SoFar {
    /// The whole compounds, from left to right.
    pub(crate) chain: Vec<Compound>,
    /// The combinators after them.
    pub(crate) links: Vec<Combinator>,
    /// The compound that is being read, empty where one has to begin.
    pub(crate) compound: SmallVec<Simple, 1>,
    /// The pseudo-element, after which nothing may follow.
    pub(crate) pseudo: Option<Pseudo>,
    /// How many positions whose step has a size of 2 or more there are.
    pub(crate) stepped: usize,
}

impl Model for SoFar {
    ghost use Rattle.css_model.specs.Selectors.Compounds as compounds;

    ghost Value = { compounds.SoFar };

    ghost view = { λ s. record { chain = s.chain.items; links = s.links.items; compound = s.compound.items; pseudo = s.pseudo; stepped = s.stepped } };
}

pub(crate) fn nothing_yet(alloc: Global) -> SoFar
    ensures { result ≡ spec.nothing_yet }
{
    SoFar {
        chain: Vec::new(alloc),
        links: Vec::new(alloc),
        compound: SmallVec::new(alloc),
        pseudo: None,
        stepped: 0,
    }
}

/// Adds a simple selector to the compound that is read.
fn add_simple(state: &mut SoFar, simple: Simple) -> Result<(), AllocError>
    requires { state.old.stepped + 1 < 2 ^ 64 }
    ensures { OnOk result (state.new ≡ spec.with_simple state.old simple) }
{
    if is_stepped_test(&simple.test) {
        state.stepped += 1;
    }
    state.compound.push(simple)?;
    Ok(())
}

/// Adds the pseudo-element. A `*` that would be alone before it is not written.
fn add_element(state: &mut SoFar, element: Pseudo) -> Result<(), AllocError>
    ensures { OnOk result (state.new ≡ spec.with_element state.old element) }
{
    state.pseudo = Some(element);
    if !state.compound.is_empty() {
        return Ok(());
    }
    state.compound.push(Simple {
        negated: false,
        test: Test::Any,
    })?;
    Ok(())
}

/// Adds a combinator, which ends the compound.
fn add_link(alloc: Global, state: &mut SoFar, link: Combinator) -> Result<(), AllocError>
    ensures { OnOk result (state.new ≡ spec.with_link state.old link) }
{
    let simples = std::mem::replace(&mut state.compound, SmallVec::new(alloc));
    state.chain.push(Compound { simples })?;
    state.links.push(link)?;
    Ok(())
}

/// Reads one more simple selector, or the pseudo-element, of a compound that has begun.
fn go_on(alloc: Global, state: &mut SoFar, x: &Term, rest: &Terms) -> Result<usize, Refusal>
    requires { state.old.stepped + 1 < 2 ^ 64 }
    ensures steps { Steps state.new result (spec.go_on state.old x.now rest.now) }
    ensures few { IfOk result (λ _. state.new.stepped ≤ state.old.stepped + 1) }
{
    if begins_simple(x, rest) {
        if state.compound.len() >= MAX_SIMPLES {
            return Err(Refusal::Outside(Reason::TooManySimples));
        }
        let (simple, n) = simple_at(alloc, state.stepped, x, rest)?;
        add_simple(state, simple)?;
        Ok(n)
    } else if is_sign_of(b':', x.kind()) {
        let (element, n) = pseudo_element_at(&rest.right_behind(x.gap()))?;
        add_element(state, element)?;
        Ok(n)
    } else {
        Err(Refusal::Outside(against(x)))
    }
}

fn begins_compound(x: &Term) -> bool
    ensures { result ≡ spec.begins_compound x.now }
{
    begins_type(x)
        || is_id_hash(x.kind())
        || is_delim_of(u32::from(b'.'), x.kind())
        || is_sign_of(b'[', x.kind())
        || is_sign_of(b':', x.kind())
}

/// Reads the first simple selector of a compound, where one has to begin.
fn begin(alloc: Global, state: &mut SoFar, x: &Term, rest: &Terms) -> Result<usize, Refusal>
    requires { state.old.stepped + 1 < 2 ^ 64 }
    ensures steps { Steps state.new result (spec.begin state.old x.now rest.now) }
    ensures few { IfOk result (λ _. state.new.stepped ≤ state.old.stepped + 1) }
{
    if !begins_compound(x) {
        return Err(Refusal::Outside(against(x)));
    }
    if state.chain.len() >= MAX_COMPOUNDS {
        return Err(Refusal::Outside(Reason::TooManyCompounds));
    }
    if begins_type(x) {
        let test = type_at(alloc, x)?;
        let negated = false;
        add_simple(state, Simple { negated, test })?;
        Ok(1)
    } else {
        go_on(alloc, state, x, rest)
    }
}

/// Reads a combinator after a simple selector, or more of its compound.
fn in_compound(
    alloc: Global,
    state: &mut SoFar,
    gap: Gap,
    x: &Term,
    rest: &Terms,
) -> Result<usize, Refusal>
    requires { state.old.stepped + 1 < 2 ^ 64 }
    ensures steps { Steps state.new result (spec.in_compound state.old (combinator_of x.now.kind) gap x.now rest.now) }
    ensures few { IfOk result (λ _. state.new.stepped ≤ state.old.stepped + 1) }
{
    if let Some(link) = combinator_of(x.kind()) {
        add_link(alloc, state, link)?;
        return Ok(1);
    }
    match gap {
        Gap::White => {
            add_link(alloc, state, Combinator::Inside)?;
            begin(alloc, state, x, rest)
        }
        _ => go_on(alloc, state, x, rest),
    }
}

/// Reads one step after such a gap, from the term `x` and the rest. Answers how many terms it takes.
pub(crate) fn step(
    alloc: Global,
    state: &mut SoFar,
    gap: Gap,
    terms: &Terms,
    x: &Term,
    rest: &Terms,
) -> Result<usize, Refusal>
    requires stepped { state.old.stepped + 1 < 2 ^ 64 }
    requires whole { terms.now ≡ x.now ∷ rest.now }
    ensures steps { Steps state.new result (spec.step state.old state.old.pseudo gap x.now rest.now) }
    ensures few { IfOk result (λ _. state.new.stepped ≤ state.old.stepped + 1) }
{
    match state.pseudo {
        Some(_) => Err(Refusal::Outside(against_first(&terms.right_behind(gap)))),
        None => {
            if state.compound.is_empty() {
                begin(alloc, state, x, rest)
            } else {
                in_compound(alloc, state, gap, x, rest)
            }
        }
    }
}
