//! The least numbers of siblings on both sides.

ghost use Rattle.std.specs.Prelude.{◌++◌, true, false, IfOk, MatchOption};
ghost use Rattle.sibling_counts.specs.Places.{AreFew, AreLeast, NoChildPasses};
ghost use Rattle.sibling_counts.specs.Sides.{BothLeast, IsLimit, NoneLeast, PassesTests};

use crate::scan::{first_passing, limit};
use crate::side::{Asked, behind_tests, both_pass, front_tests};
use css_model::Simple;
use std::alloc::{AllocError, Global};

/// How many siblings an element has.
#[derive(Clone, Copy, Debug, PartialEq, Eq)]
pub struct Siblings {
    /// Before it.
    pub before: u32,
    /// After it.
    pub behind: u32,
}

/// The least numbers of siblings of a child that passes the simple selectors of two compounds, as far as they ask for
/// its position (Selectors 3, sections 6.6.1 and 6.6.5). They are the least number before it, and the least number
/// after it that passes with that. `None` exactly where no child passes. `AllocError` where memory runs out.
///
/// Each step that is asked for is at most 32 and each offset at most 1,000 in size, and at most four steps have a size
/// of 2 or more.
pub fn least_siblings(
    alloc: Global,
    x: &[Simple],
    y: &[Simple],
) -> Result<Option<Siblings>, AllocError>
    requires { AreFew (x.now ++ y.now) }
    ensures { IfOk result (λ found. MatchOption found
        (NoChildPasses (x.now ++ y.now))
        (λ s. AreLeast (x.now ++ y.now) s.before s.behind)) }
{
    let fronts = front_tests(alloc, x, y)?;
    let behinds = behind_tests(alloc, x, y)?;
    let front_limit = limit(alloc, fronts.as_slice())?;
    let behind_limit = limit(alloc, behinds.as_slice())?;
    let alone = both_pass(true, x, y);
    let apart = both_pass(false, x, y);
    Ok(least(
        fronts.as_slice(),
        front_limit,
        behinds.as_slice(),
        behind_limit,
        alone,
        apart,
    ))
}

/// The least numbers of siblings, from the tests of each side, and from whether those of both sides hold of a child
/// that is alone, and of one that is not.
fn least(
    fronts: &[Asked],
    front_limit: u32,
    behinds: &[Asked],
    behind_limit: u32,
    alone: bool,
    apart: bool,
) -> Option<Siblings>
    requires front { IsLimit fronts.now front_limit }
    requires behind { IsLimit behinds.now behind_limit }
    ensures { MatchOption result
        (NoneLeast (PassesTests fronts.now) (PassesTests behinds.now) alone apart)
        (λ s. BothLeast (PassesTests fronts.now) (PassesTests behinds.now) alone apart s.before s.behind) }
{
    let before = first_passing(fronts, front_limit, 0)?;
    let behind = first_passing(behinds, behind_limit, 0)?;
    if before == 0 && behind == 0 {
        if alone {
            return Some(Siblings { before, behind });
        }
        if !apart {
            return None;
        }
        return least_apart(fronts, front_limit, behinds, behind_limit);
    }
    if apart {
        Some(Siblings { before, behind })
    } else {
        None
    }
}

/// The least numbers of siblings, where a child that is alone does not pass for another cause than its sides.
fn least_apart(
    fronts: &[Asked],
    front_limit: u32,
    behinds: &[Asked],
    behind_limit: u32,
) -> Option<Siblings>
    requires front { IsLimit fronts.now front_limit }
    requires behind { IsLimit behinds.now behind_limit }
    requires front_alone { PassesTests fronts.now 0 }
    requires behind_alone { PassesTests behinds.now 0 }
    ensures { MatchOption result
        (NoneLeast (PassesTests fronts.now) (PassesTests behinds.now) false true)
        (λ s. BothLeast (PassesTests fronts.now) (PassesTests behinds.now) false true s.before s.behind) }
{
    if let Some(behind) = first_passing(behinds, behind_limit, 1) {
        return Some(Siblings { before: 0, behind });
    }
    if let Some(before) = first_passing(fronts, front_limit, 1) {
        return Some(Siblings { before, behind: 0 });
    }
    None
}
