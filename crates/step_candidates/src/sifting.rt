//! Finds the steps of a sheet that save bytes.

ghost use Rattle.std.specs.Prelude.{◌≤◌, IfOk, length};
ghost use Rattle.css_model.specs.Sheets.Limits.{max_bytes, max_items};
ghost use Rattle.css_model.specs.Sheets.Sound.{IsSound};
ghost use Rattle.step_candidates.specs.Saving.{AreSavingSteps};
ghost use Rattle.step_laws.specs.Sizes.{size};

use crate::found::Found;
use crate::numbered::{Numbered, numbers};
use crate::trying::try_rules;
use css_model::Sheet;
use rule_tables::Tables;
use saved_bytes::KnownLengths;
use std::alloc::{AllocError, Global};
use step_laws::Step;

/// Returns exactly the steps of a sheet that save bytes, in the order of steps.
pub(crate) fn find_saving_steps(
    alloc: Global,
    sheet: &Sheet,
    source: &[u8],
) -> Result<Vec<Step>, AllocError>
    requires length { length source.now ≤ max_bytes }
    requires few_items { length sheet.now.items ≤ max_items }
    requires sound { IsSound source.now sheet.now.items }
    requires short { size source.now sheet.now.items ≤ max_bytes }
    ensures { IfOk result (λ found. AreSavingSteps source.now sheet.now.items found.items) }
{
    let lengths = KnownLengths::of(alloc, source, sheet)?;
    let numbers = numbers(alloc, &sheet.items)?;
    let tables = Tables::new(alloc, &sheet.items, &numbers)?;
    let on = Numbered {
        alloc,
        sheet,
        tables: &tables,
        lengths: &lengths,
    };
    let mut found = Found::new(alloc);
    try_rules(alloc, &on, &mut found)?;
    found.list(alloc)
}
