//! The joins by declarations and the share of two rules.

ghost use Rattle.std.specs.Prelude.{◌≡◌, OnOk};
ghost use Rattle.step_laws.specs.declared.step.Step as declared;
ghost use Rattle.step_laws.specs.declared.step.Step.TheVariants as kinds;
ghost use Rattle.step_laws.specs.Steps.{first_item, last_item};
ghost use Rattle.next_step.specs.Kinds.{IsByDecls};
ghost use Rattle.next_step.specs.Viewed.{ArePartners, CoversIn, Grows, IsView};

use crate::apart::masks::{decls_differ, share_no_decl};
use crate::barriers::{is_down_past, is_share_past, is_up_past};
use crate::by_declarations::shares::share_saving;
use crate::queue::found::Found;
use crate::too_late::by_parts::{decl_joins_are_late, share_is_late};
use crate::trying::{try_both, try_known, try_step};
use crate::view::{Attempt, Partners, View};
use std::alloc::AllocError;
use step_laws::Step;

/// Puts the priorities of the joins of two rules by their declarations.
fn try_decl_joins(view: &View<'_>, partners: &Partners, found: &mut Found) -> Result<(), AllocError>
    requires view { IsView view.now }
    requires partners { ArePartners view.now.indexed.now partners.now }
    ensures grows { OnOk result (Grows view.now found.old found.new) }
    ensures up { OnOk result (CoversIn view.now found.new (kinds.JoinDeclUp partners.now.upper partners.now.lower)) }
    ensures down { OnOk result (CoversIn view.now found.new (kinds.JoinDeclDown partners.now.upper partners.now.lower)) }
{
    let Partners {
        upper,
        lower,
        apart,
        ..
    } = *partners;
    if decls_differ(view.indexed, upper, lower) {
        return Ok(());
    }
    if decl_joins_are_late(view, partners, found) {
        return Ok(());
    }
    let up = Attempt {
        step: Step::JoinDeclUp { upper, lower },
        part_once: false,
        apart,
        past: is_up_past(view.indexed, view.barriers, upper, lower),
    };
    let down = Attempt {
        step: Step::JoinDeclDown { upper, lower },
        past: is_down_past(view.indexed, view.barriers, upper, lower),
        ..up
    };
    try_both(view, &up, &down, found)
}

/// Puts the priority of the share of two rules.
fn try_share(view: &View<'_>, partners: &Partners, found: &mut Found) -> Result<(), AllocError>
    requires view { IsView view.now }
    requires partners { ArePartners view.now.indexed.now partners.now }
    ensures grows { OnOk result (Grows view.now found.old found.new) }
    ensures covers { OnOk result (CoversIn view.now found.new (kinds.Share partners.now.upper partners.now.lower)) }
{
    let Partners {
        upper,
        lower,
        apart,
        ..
    } = *partners;
    if is_share_past(view.indexed, view.barriers, upper, lower) {
        return Ok(());
    }
    if share_no_decl(view.indexed, upper, lower) {
        return Ok(());
    }
    if share_is_late(view, partners, found) {
        return Ok(());
    }
    let step = Step::Share { upper, lower };
    if let Some(saving) = share_saving(view, partners) {
        return try_known(view, &step, saving, found);
    }
    let attempt = Attempt {
        step,
        part_once: false,
        apart,
        past: false,
    };
    try_step(view, &attempt, found)
}

/// Puts the priorities of the joins of two items by their declarations, and of their share.
/// If the masks of the items say that they have none of a kind, it tries none of that kind.
pub(crate) fn try_by_decls(
    view: &View<'_>,
    partners: &Partners,
    found: &mut Found,
) -> Result<(), AllocError>
    requires view { IsView view.now }
    requires partners { ArePartners view.now.indexed.now partners.now }
    ensures grows { OnOk result (Grows view.now found.old found.new) }
    ensures covers { OnOk result ((k : declared.Step) → IsByDecls k → first_item k ≡ partners.now.upper → last_item k ≡ partners.now.lower → CoversIn view.now found.new k) }
{
    try_decl_joins(view, partners, found)?;
    try_share(view, partners, found)
}
