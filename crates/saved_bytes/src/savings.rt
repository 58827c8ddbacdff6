//! How many bytes a step saves.

ghost use Rattle.std.specs.Prelude.{◌≡◌, ◌<◌, ◌≤ℤ◌, pos, true};
ghost use Rattle.css_model.specs.Sheets.Limits.{max_bytes};
ghost use Rattle.saved_bytes.specs.Savings.{IsSaving};
ghost use Rattle.plan_laws.specs.Plannable.{IsPlannable};
ghost use Rattle.step_laws.specs.Steps.{HasStep};
ghost use Rattle.step_savings.specs.Apart.{StepApart};

use crate::lengths::KnownLengths;
use css_model::Item;
use merge_steps::Step;
use step_savings::saving_if_apart;

/// Returns the bytes that are saved, or 0 if none are.
fn gain(saving: i64) -> u32
    requires { saving ≤ℤ pos max_bytes }
    ensures most { saving ≤ℤ pos result }
    ensures exact { 0 < result → saving ≡ pos result }
{
    if saving > 0 { saving as u32 } else { 0 }
}

/// Returns how many bytes a step of a sheet saves, or 0 if it saves none.
/// `apart` says that the rules of the step have no selector in common. If they may have one, it is `false`.
pub fn saved_if_apart(source: &KnownLengths<'_>, items: &[Item], step: &Step, apart: bool) -> u32
    requires is_step { HasStep items.now step.now }
    requires plannable { IsPlannable source.now items.now }
    requires apart { apart ≡ true → StepApart items.now step.now }
    ensures { IsSaving source.now items.now step.now result }
{
    gain(saving_if_apart(source, items, step, apart))
}

/// Returns how many bytes a step of a sheet saves, or 0 if it saves none.
pub fn saved(source: &KnownLengths<'_>, items: &[Item], step: &Step) -> u32
    requires is_step { HasStep items.now step.now }
    requires plannable { IsPlannable source.now items.now }
    ensures { IsSaving source.now items.now step.now result }
{
    saved_if_apart(source, items, step, false)
}
