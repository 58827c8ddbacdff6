//! The part of a sheet that a step changes.

ghost use Rattle.std.specs.Prelude.{◌≡◌, map};
ghost use Rattle.item_masks.specs.Masks.{item_mask};
ghost use Rattle.order_index.specs.Listed.{IsChange};
ghost use Rattle.step_laws.specs.Steps.{HasStep};

use css_model::Sheet;
use item_masks::ItemMask;
use step_laws::Step;
use step_obstacles::window_of;
use window_order::Window;

/// The window of a step.
#[derive(Drop)]
pub(crate) struct StepWindow<'w> {
    pub(crate) window: Window<'w>,
    pub(crate) step: Step,
}

/// The window of a step of a sheet whose items have these masks.
pub(crate) fn find_window<'w>(
    sheet: &'w Sheet,
    masks: &'w [ItemMask],
    step: &Step,
) -> StepWindow<'w>
    requires is_step { HasStep sheet.now.items step.now }
    requires masks { masks.now ≡ map item_mask sheet.now.items }
    ensures items { result.window.items.now ≡ sheet.now.items }
    ensures step { result.step ≡ step.now }
    ensures change { IsChange result.window result.step }
{
    let window = window_of(&sheet.items, masks, None, step);
    StepWindow {
        window,
        step: *step,
    }
}
