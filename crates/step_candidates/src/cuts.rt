//! Checks whether a step is one of a sheet, with tables of its rules.

ghost use Rattle.std.specs.Prelude.{◌↔◌, IfOk, IsTrue};
ghost use Rattle.step_candidates.specs.Numbered as spec;
ghost use Rattle.step_laws.specs.declared.step.Step.TheVariants as kinds;
ghost use Rattle.step_laws.specs.Steps.{HasStep};

use crate::numbered::{Numbered, find_rule};
use merge_steps::is_step;
use rule_tables::{can_lose_decl, can_lose_selector, decl_cuts_are_told, selector_cuts_are_told};
use std::alloc::AllocError;
use step_laws::Step;

/// Returns whether a declaration of a rule can be cut.
fn can_cut_decl(on: &Numbered<'_>, number: u32, decl: u32) -> bool
    requires { spec.IsReady on.now.tables.now on.now.lengths.now on.now.sheet.now.items }
    ensures { IsTrue result ↔ HasStep on.now.sheet.now.items (kinds.CutDecl number decl) }
{
    decl_cuts_are_told();
    let own = u64::from(number);
    let Some(rule) = find_rule(on.sheet, own) else {
        return false;
    };
    can_lose_decl(on.tables, on, own, rule, decl, false)
}

/// Returns whether a selector of a rule can be cut.
fn can_cut_selector(on: &Numbered<'_>, number: u32, sel: u32) -> bool
    requires { spec.IsReady on.now.tables.now on.now.lengths.now on.now.sheet.now.items }
    ensures { IsTrue result ↔ HasStep on.now.sheet.now.items (kinds.CutSel number sel) }
{
    selector_cuts_are_told();
    let own = u64::from(number);
    let Some(rule) = find_rule(on.sheet, own) else {
        return false;
    };
    can_lose_selector(on.tables, on, own, rule, sel, false)
}

/// Returns whether a step is one of the sheet.
pub(crate) fn is_step_of(on: &Numbered<'_>, step: &Step) -> Result<bool, AllocError>
    requires { spec.IsReady on.now.tables.now on.now.lengths.now on.now.sheet.now.items }
    ensures { IfOk result (λ is. IsTrue is ↔ HasStep on.now.sheet.now.items step.now) }
{
    match *step {
        Step::CutDecl { item, decl } => Ok(can_cut_decl(on, item, decl)),
        Step::CutSel { item, sel } => Ok(can_cut_selector(on, item, sel)),
        _ => {
            let sheet = on.sheet;
            is_step(on.alloc, &sheet.items, step)
        }
    }
}
