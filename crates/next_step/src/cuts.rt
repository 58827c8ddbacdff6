//! Finds the priorities of the cuts of a rule, and what is known of the rule then.
//! `possible` says whether a step is one of the sheet, by the tables, and `doubles` whether each part is in a rule once.
//! `uncut` knows rules of which no part can be cut.

ghost use Rattle.std.specs.Prelude.{◌≡◌, ℕ, ◌<◌, IfOk, OnOk, false, length, true};
ghost use Rattle.indexed_sheet.specs.Facts.{HasNoCut};
ghost use Rattle.step_laws.specs.declared.step.Step as declared;
ghost use Rattle.step_laws.specs.declared.step.Step.TheVariants as kinds;
ghost use Rattle.step_laws.specs.Steps.{HasStep, first_item};
ghost use Rattle.next_step.specs.Once.{DeclsStandOnce, SelectorsStandOnce};
ghost use Rattle.next_step.specs.Repeated.{RepeatsDecls, RepeatsSelectors};
ghost use Rattle.next_step.specs.Viewed.{CoversIn, Grows, IsFocus, IsView};
ghost use Rattle.plan_laws.specs.Barrier.Renumbering.{IsOfTwo};

pub(crate) mod doubles;
pub(crate) mod possible;
pub(crate) mod uncut;

use crate::cuts::doubles::{Repeated, repeated_decls, repeated_selectors};
use crate::cuts::uncut::is_known_uncut;
use crate::queue::found::Found;
use crate::trying::try_cut;
use crate::view::{Attempt, Focus, View};
use css_model::Rule;
use std::alloc::{AllocError, Global};
use step_laws::{Step, parts_are_few};

/// Whether one of two may hold. `false` only if neither does.
fn either(one: bool, other: bool) -> bool
    ensures one { result ≡ false → one ≡ false }
    ensures other { result ≡ false → other ≡ false }
{
    one || other
}

/// How many declarations a rule has.
pub(crate) fn decl_count(rule: &Rule) -> usize
    ensures { result ≡ length rule.now.decls }
{
    rule.decls.len()
}

/// How many selectors a rule has.
fn selector_count(rule: &Rule) -> usize
    ensures { result ≡ length rule.now.selectors }
{
    rule.selectors.len()
}

/// Puts the priorities of the cuts of the focus's declarations, and returns whether there may be one.
/// `Ok(false)` only if there is none. `Err(AllocError)` if memory is short.
fn try_decl_cuts(
    view: &View<'_>,
    focus: &Focus<'_>,
    repeated: &Repeated,
    found: &mut Found,
) -> Result<bool, AllocError>
    requires view { IsView view.now }
    requires focus { IsFocus view.now focus.now }
    requires repeated { RepeatsDecls repeated.now focus.now.rule.now }
    ensures grows { OnOk result (Grows view.now found.old found.new) }
    ensures covers { OnOk result ((i : ℕ) → i < length focus.now.rule.now.decls → CoversIn view.now found.new (kinds.CutDecl focus.now.number i)) }
    ensures none { IfOk result (λ some. some ≡ false → (i : ℕ) → i < length focus.now.rule.now.decls → HasStep view.now.indexed.now.items (kinds.CutDecl focus.now.number i) → ⊥) }
{
    parts_are_few();
    let count = decl_count(focus.rule) as u32;
    let mut some = false;
    for decl in 0..count {
        let item = focus.number;
        let attempt = Attempt {
            step: Step::CutDecl { item, decl },
            part_once: repeated.is_decl_once(focus.rule, decl),
            apart: false,
            past: false,
        };
        let has = try_cut(view, &attempt, found)?;
        some = either(some, has);
    }
    Ok(some)
}

/// Puts the priorities of the cuts of the focus's selectors, and returns whether there may be one.
/// `Ok(false)` only if there is none. `Err(AllocError)` if memory is short.
fn try_selector_cuts(
    view: &View<'_>,
    focus: &Focus<'_>,
    repeated: &Repeated,
    found: &mut Found,
) -> Result<bool, AllocError>
    requires view { IsView view.now }
    requires focus { IsFocus view.now focus.now }
    requires repeated { RepeatsSelectors repeated.now focus.now.rule.now }
    ensures grows { OnOk result (Grows view.now found.old found.new) }
    ensures covers { OnOk result ((i : ℕ) → i < length focus.now.rule.now.selectors → CoversIn view.now found.new (kinds.CutSel focus.now.number i)) }
    ensures none { IfOk result (λ some. some ≡ false → (i : ℕ) → i < length focus.now.rule.now.selectors → HasStep view.now.indexed.now.items (kinds.CutSel focus.now.number i) → ⊥) }
{
    parts_are_few();
    let count = selector_count(focus.rule) as u32;
    let mut some = false;
    for sel in 0..count {
        let item = focus.number;
        let attempt = Attempt {
            step: Step::CutSel { item, sel },
            part_once: repeated.is_selector_once(focus.rule, sel),
            apart: false,
            past: false,
        };
        let has = try_cut(view, &attempt, found)?;
        some = either(some, has);
    }
    Ok(some)
}

/// Puts the priorities of the cuts of the focus, and returns whether there may be one. `Ok(false)` only if there is none.
/// `Err(AllocError)` if memory is short.
fn try_cuts(
    view: &View<'_>,
    focus: &Focus<'_>,
    decls: &Repeated,
    selectors: &Repeated,
    found: &mut Found,
) -> Result<bool, AllocError>
    requires view { IsView view.now }
    requires focus { IsFocus view.now focus.now }
    requires decls { RepeatsDecls decls.now focus.now.rule.now }
    requires selectors { RepeatsSelectors selectors.now focus.now.rule.now }
    ensures grows { OnOk result (Grows view.now found.old found.new) }
    ensures covers { OnOk result ((k : declared.Step) → (IsOfTwo k → ⊥) → first_item k ≡ focus.now.number → CoversIn view.now found.new k) }
    ensures none { IfOk result (λ some. some ≡ false → HasNoCut view.now.indexed.now.items focus.now.number) }
{
    let some_decl = try_decl_cuts(view, focus, decls, found)?;
    let some_selector = try_selector_cuts(view, focus, selectors, found)?;
    Ok(either(some_decl, some_selector))
}

/// What is known of a rule after a look at its cuts. `false` says nothing.
#[derive(Clone, Copy, Debug)]
pub(crate) struct Parts {
    /// No part of it can be cut.
    pub no_cut: bool,
    /// Each of its declarations is in it once.
    pub once: bool,
    /// Each of its selectors is in it once.
    pub selectors_once: bool,
}

/// Puts the priorities of the cuts of the focus, and returns what is known of the rule then.
/// If it is known that the rule has no cut, it looks for none. `Err(AllocError)` if memory is short.
pub(crate) fn look_at_cuts(
    alloc: Global,
    view: &View<'_>,
    focus: &Focus<'_>,
    found: &mut Found,
) -> Result<Parts, AllocError>
    requires view { IsView view.now }
    requires focus { IsFocus view.now focus.now }
    ensures grows { OnOk result (Grows view.now found.old found.new) }
    ensures covers { OnOk result ((k : declared.Step) → (IsOfTwo k → ⊥) → first_item k ≡ focus.now.number → CoversIn view.now found.new k) }
    ensures uncut { IfOk result (λ parts. parts.no_cut ≡ true → HasNoCut view.now.indexed.now.items focus.now.number) }
    ensures once { IfOk result (λ parts. parts.once ≡ true → DeclsStandOnce view.now.indexed.now.items focus.now.number) }
    ensures selectors_once { IfOk result (λ parts. parts.selectors_once ≡ true → SelectorsStandOnce view.now.indexed.now.items focus.now.number) }
{
    if is_known_uncut(view.indexed, focus.number, focus.rule) {
        return Ok(Parts {
            no_cut: true,
            once: true,
            selectors_once: true,
        });
    }
    let decls = repeated_decls(alloc, focus.rule)?;
    let selectors = repeated_selectors(alloc, focus.rule)?;
    let some = try_cuts(view, focus, &decls, &selectors, found)?;
    Ok(Parts {
        no_cut: !some,
        once: decls.are_none(),
        selectors_once: selectors.are_none(),
    })
}
