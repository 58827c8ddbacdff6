//! Which declarations of a sheet win.

ghost use Rattle.std.specs.Prelude.{◌≡◌, IfOk, map};
ghost use Rattle.std.specs.List.{AllByRecursion, filter, filter_map};
ghost use Rattle.std.specs.Option.{option_map};
ghost use Rattle.css_model.specs.Cascade.Winner.{greatest, outcome};
ghost use Rattle.css_model.specs.Documents.RunDocuments.{KeepsRules};
ghost use Rattle.css_model.specs.Lists.{same_text};
ghost use Rattle.cascade_eval.specs.Entries.{HasSmallSelectors};
ghost use Rattle.cascade_eval.specs.Winners.{AreWinners, outcome_of};

use crate::best::best_of;
use crate::entries::{Entry, entries};
use crate::names::names;
use crate::won::Won;
use css_model::{Example, Sheet, Text};
use std::alloc::{AllocError, Global};

/// The declarations that win for the target of an example: one for each name of a declaration that a rule of a sheet
/// applies to it (CSS Cascading 3, section 6). They ascend by the names' code points. What kept items apply does not
/// count. `AllocError` where memory runs out.
pub fn winners(alloc: Global, x: &Example, sheet: &Sheet) -> Result<Vec<Won>, AllocError>
    requires rules { KeepsRules x.now }
    requires small { AllByRecursion HasSmallSelectors sheet.now.items }
    ensures { IfOk result (λ wons. AreWinners x.now sheet.now.items wons.items) }
{
    let entries = entries(alloc, x, sheet)?;
    let names = names(alloc, entries.as_slice())?;
    let wons = best_of_each(alloc, entries.as_slice(), names.as_slice())?;
    Ok(wons)
}

/// For each name its greatest entry.
fn best_of_each(
    alloc: Global,
    entries: &[Entry<'_>],
    names: &[Text],
) -> Result<Vec<Won>, AllocError>
    ensures { IfOk result (λ wons. map (λ won. outcome_of won) wons.items ≡
        filter_map (λ name. option_map outcome (greatest (filter (λ e. same_text e.decl.name name) entries.now))) names.now) }
{
    let mut wons = Vec::new(alloc);
    let mut left = names;
    'names: while let Some((name, behind)) = left.split_first() {
        if let Some(best) = best_of(entries, name) {
            let won = won(&best)?;
            wons.push(won)?;
        }
        left = behind;
    }
    Ok(wons)
}

/// A declaration that wins, without its place.
fn won(entry: &Entry<'_>) -> Result<Won, AllocError>
    ensures { IfOk result (λ won. outcome_of won ≡ outcome entry.now) }
{
    Ok(Won {
        decl: entry.decl.copy()?,
        weight: entry.weight,
    })
}
