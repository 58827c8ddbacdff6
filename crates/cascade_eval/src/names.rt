//! The names of declarations that apply.

ghost use Rattle.std.specs.Prelude.{◌≡◌, IfOk, map};
ghost use Rattle.cascade_eval.specs.Entries.{AscendingNames};

use crate::entries::Entry;
use css_model::Text;
use std::alloc::{AllocError, Global};

/// The names of all entries, each once, ascending by code points.
pub(crate) fn names(alloc: Global, entries: &[Entry<'_>]) -> Result<Vec<Text>, AllocError>
    ensures { IfOk result (λ names. AscendingNames names.items entries.now) }
{
    let mut names = all_names(alloc, entries)?;
    names.sort()?;
    names.dedup();
    Ok(names)
}

/// The names of all entries.
fn all_names(alloc: Global, entries: &[Entry<'_>]) -> Result<Vec<Text>, AllocError>
    ensures { IfOk result (λ names. names.items ≡ map (λ e. e.decl.name) entries.now) }
{
    let mut names = Vec::new(alloc);
    for entry in entries {
        let name = name_of(entry)?;
        names.push(name)?;
    }
    Ok(names)
}

/// The name of an entry.
fn name_of(entry: &Entry<'_>) -> Result<Text, AllocError>
    ensures { IfOk result (λ name. name ≡ entry.now.decl.name) }
{
    entry.decl.name.copy()
}
