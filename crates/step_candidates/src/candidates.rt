//! The steps of a sheet that save bytes.

ghost use Rattle.std.specs.Prelude.{◌≡◌, ◌≤◌, IfOk, length};
ghost use Rattle.css_model.specs.Sheets.Limits.{max_bytes, max_items};
ghost use Rattle.css_model.specs.Sheets.Sound.{IsSound};
ghost use Rattle.step_candidates.specs.Saving.{AreSavingSteps};
ghost use Rattle.step_laws.specs.Sizes.{size};

use crate::sifting::find_saving_steps;
use css_model::Sheet;
use merge_steps::Step;
use std::alloc::{AllocError, Global};
use std::marker::Model;

/// The steps of a sheet that save bytes. Contracts see them as a list.
#[derive(Debug, Drop)]
pub struct Candidates {
    found: Vec<Step>,
}

impl Model for Candidates {
    ghost use Rattle.std.specs.Prelude.{List};
    ghost use Rattle.step_laws.specs.declared.step.Step as declared;

    ghost Value = { List declared.Step };

    ghost view = { λ c. c.found.items };
}

impl Candidates {
    /// Returns exactly the steps of a sheet that save bytes.
    /// The sheet is sound for `source`, has at most `max_items` items, and prints to at most `max_bytes` bytes.
    /// `Err(AllocError)` if memory is short.
    pub fn new(alloc: Global, sheet: &Sheet, source: &[u8]) -> Result<Candidates, AllocError>
        requires length { length source.now ≤ max_bytes }
        requires few_items { length sheet.now.items ≤ max_items }
        requires sound { IsSound source.now sheet.now.items }
        requires short { size source.now sheet.now.items ≤ max_bytes }
        ensures { IfOk result (λ made. AreSavingSteps source.now sheet.now.items made) }
    {
        let found = find_saving_steps(alloc, sheet, source)?;
        Ok(Candidates { found })
    }

    /// Returns the steps that save bytes, in the order of steps.
    pub fn saving_steps(&self) -> &[Step]
        ensures { result.now ≡ self.now }
    {
        &self.found
    }
}
