//! What is left of a list.

ghost use Rattle.std.specs.Prelude.{◌≡◌, IfOk};
ghost use Rattle.run_laws.specs.Marks.{kept};

use std::alloc::{AllocError, Global};

/// Returns the elements that do not go, in order.
pub(crate) fn keep<T: Drop>(
    alloc: Global,
    items: Vec<T>,
    gone: &[bool],
) -> Result<Vec<T>, AllocError>
    ensures { IfOk result (λ left. left.items ≡ kept gone.now items.items) }
{
    let mut left = Vec::new(alloc);
    let mut rest = gone;
    'items: for item in items {
        match rest.split_first() {
            Some((goes, others)) => {
                rest = others;
                if !*goes {
                    left.push(item)?;
                }
            }
            None => left.push(item)?,
        }
    }
    Ok(left)
}
