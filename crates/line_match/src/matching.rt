//! Whether a selector matches the marked element of an example.

ghost use Rattle.std.specs.Prelude.{◌≡◌, IfOk};
ghost use Rattle.css_model.specs.Documents.Matching.{matches, same_pseudo};
ghost use Rattle.css_model.specs.Documents.RunDocuments.{KeepsRules, expand, target_of};
ghost use Rattle.cascade_laws.specs.Eval.Climbing.{chain_climbs};

use crate::climbing::{climb, root_reached};
use crate::reaching::{all_from_child, is_reached};
use cascade_laws::matching_is_climbing;
use css_model::{Example, Pseudo, RunLine, Selector};
use std::alloc::{AllocError, Global};

/// Whether a selector matches the marked element of an example (Selectors 3, sections 6 to 8). It has the
/// pseudo-element of the example, or both have none, and its compounds match. The document is not written out: a line
/// may have 4,294,967,295 elements. `AllocError` where memory runs out.
pub fn matches_in(alloc: Global, x: &Example, selector: &Selector) -> Result<bool, AllocError>
    requires { KeepsRules x.now }
    ensures { IfOk result (λ found. found ≡ matches (expand x.now) (target_of x.now) selector.now) }
{
    matching_is_climbing();
    if same_pseudo(x.pseudo, selector.pseudo) {
        chain_climbs(
            alloc,
            selector,
            x.doc.root_is_child,
            x.doc.lines.as_slice(),
            x.marked,
        )
    } else {
        Ok(false)
    }
}

/// Whether two pseudo-elements are the same, or both are none.
fn same_pseudo(a: Option<Pseudo>, b: Option<Pseudo>) -> bool
    ensures { result ≡ same_pseudo a b }
{
    a == b
}

/// Whether the compounds of a selector match at the line of this number.
fn chain_climbs(
    alloc: Global,
    selector: &Selector,
    root_is_child: bool,
    lines: &[RunLine],
    marked: u32,
) -> Result<bool, AllocError>
    ensures { IfOk result (λ found. found ≡
        chain_climbs root_is_child selector.now.chain selector.now.links lines.now marked) }
{
    match lines {
        [] => Ok(false),
        [root, behind @ ..] => {
            let found = root_reached(alloc, selector, root_is_child, root, behind)?;
            if marked == 0 {
                return Ok(is_reached(found.as_slice()));
            }
            let known = all_from_child(alloc, found.as_slice())?;
            climb(alloc, selector, behind, marked - 1, known)
        }
    }
}
