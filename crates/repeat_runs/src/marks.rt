//! The marks of the parts of a rule: what each weighs that is again later.

ghost use Rattle.std.specs.Prelude.{◌≡◌, ◌≤◌, IfNone, IfOk, IfSome, reverse};
ghost use Rattle.std.specs.List.{AllByRecursion};
ghost use Rattle.css_model.specs.Sheets.Limits.{max_bytes};
ghost use Rattle.css_model.specs.Sheets.Printed.{printed_declaration, printed_selector};
ghost use Rattle.css_model.specs.Sheets.Sound.{IsSoundDeclaration, IsSoundRule, IsSoundSelector};
ghost use Rattle.repeat_runs.specs.Running.{AreMarks};
ghost use Rattle.run_laws.specs.Marks.{Descends};
ghost use Rattle.run_laws.specs.Runs as runs;
ghost use Rattle.step_laws.specs.Sizes.{rule_weight, weight};

use crate::keys::DeclKey;
use crate::seen::{Seen, see};
use css_model::{DeclItem, Rule, SelItem};
use rule_parts::{Lengths, SelectorKey};
use saved_bytes::KnownLengths;
use std::alloc::{AllocError, Global};
use std::collections::HashMap;
use std::hash::BuildHasherDefault;

/// The marks of the parts of a rule.
#[derive(Debug, Drop)]
pub(crate) struct Marks {
    /// Those of its declarations, in order.
    pub decls: Vec<u32>,
    /// Those of its selectors, in order.
    pub selectors: Vec<u32>,
}

/// Returns the marks of declarations, the last one first, or `None` if a later equal declaration weighs more.
fn decl_marks_back(
    alloc: Global,
    lengths: &KnownLengths<'_>,
    decls: &[DeclItem],
) -> Result<Option<Vec<u32>>, AllocError>
    requires sound { AllByRecursion (IsSoundDeclaration lengths.now) decls.now }
    requires small { weight (printed_declaration lengths.now) decls.now ≤ max_bytes }
    ensures marks { IfOk result (λ found. IfSome found (λ marks. marks.items ≡ reverse (runs.decl_marks lengths.now decls.now))) }
    ensures descends { IfOk result (λ found. IfSome found (λ _. Descends (λ d. d.decl) (runs.decl_weight lengths.now) decls.now)) }
    ensures none { IfOk result (λ found. IfNone found (Descends (λ d. d.decl) (runs.decl_weight lengths.now) decls.now → ⊥)) }
{
    let mut seen: Seen<DeclKey<'_>> = HashMap::with_hasher(alloc, BuildHasherDefault::new());
    let mut marks = Vec::new(alloc);
    let mut rest = decls;
    'rest: while let Some((last, before)) = rest.split_last() {
        let weight = lengths.decl(last) as u32 + 1;
        let Some(mark) = see(&mut seen, DeclKey { decl: &last.decl }, weight)? else {
            return Ok(None);
        };
        marks.push(mark)?;
        rest = before;
    }
    Ok(Some(marks))
}

/// Returns the marks of selectors, the last one first, or `None` if a later equal selector weighs more.
fn selector_marks_back(
    alloc: Global,
    lengths: &KnownLengths<'_>,
    selectors: &[SelItem],
) -> Result<Option<Vec<u32>>, AllocError>
    requires sound { AllByRecursion (IsSoundSelector lengths.now) selectors.now }
    requires small { weight (printed_selector lengths.now) selectors.now ≤ max_bytes }
    ensures marks { IfOk result (λ found. IfSome found (λ marks. marks.items ≡ reverse (runs.selector_marks lengths.now selectors.now))) }
    ensures descends { IfOk result (λ found. IfSome found (λ _. Descends (λ s. s.selector) (runs.selector_weight lengths.now) selectors.now)) }
    ensures none { IfOk result (λ found. IfNone found (Descends (λ s. s.selector) (runs.selector_weight lengths.now) selectors.now → ⊥)) }
{
    let mut seen: Seen<SelectorKey<'_>> = HashMap::with_hasher(alloc, BuildHasherDefault::new());
    let mut marks = Vec::new(alloc);
    let mut rest = selectors;
    'rest: while let Some((last, before)) = rest.split_last() {
        let weight = lengths.selector(last) as u32 + 1;
        let key = SelectorKey {
            selector: &last.selector,
        };
        let Some(mark) = see(&mut seen, key, weight)? else {
            return Ok(None);
        };
        marks.push(mark)?;
        rest = before;
    }
    Ok(Some(marks))
}

/// Returns the marks of a rule, or `None` if a later equal part weighs more.
pub(crate) fn marks_of(
    alloc: Global,
    lengths: &KnownLengths<'_>,
    rule: &Rule,
) -> Result<Option<Marks>, AllocError>
    requires sound { IsSoundRule lengths.now rule.now }
    requires small { rule_weight lengths.now rule.now ≤ max_bytes }
    ensures some { IfOk result (λ found. IfSome found (λ marks. AreMarks lengths.now rule.now marks.decls.items marks.selectors.items)) }
    ensures none { IfOk result (λ found. IfNone found (runs.Descend lengths.now rule.now → ⊥)) }
{
    let Some(mut decls) = decl_marks_back(alloc, lengths, &rule.decls)? else {
        return Ok(None);
    };
    let Some(mut selectors) = selector_marks_back(alloc, lengths, &rule.selectors)? else {
        return Ok(None);
    };
    decls.reverse();
    selectors.reverse();
    Ok(Some(Marks { decls, selectors }))
}
