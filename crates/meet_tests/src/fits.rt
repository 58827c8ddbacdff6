//! Features of elements that pass compounds, worked by hand.

ghost use Rattle.css_model.specs.Selectors.Profile.{IsInProfile};

use crate::reading::{example, selector, with_head};
use compound_fit::{FitError, FitTable, fit, is_fittable};
use css_model::{Features, Selector};
use pair_laws::profile_is_fittable;
use std::alloc::Global;
use std::process::Abort;

/// What passes the right compound of a selector.
pub(crate) fn fitted(
    rt: &impl Abort,
    alloc: Global,
    text: &str,
) -> Result<Option<Features>, FitError> {
    let x = selector(rt, alloc, text);
    let x = x.chain.first().expect(rt, "a compound");
    let fittable = is_fittable(x, None);
    assert!(rt; fittable);
    fit(alloc, x, None)
}

/// What passes the right compounds of two selectors.
fn both_fitted(
    rt: &impl Abort,
    alloc: Global,
    left: &str,
    right: &str,
) -> Result<Option<Features>, FitError> {
    let x = selector(rt, alloc, left);
    let y = selector(rt, alloc, right);
    let x = x.chain.first().expect(rt, "a compound");
    let y = y.chain.first().expect(rt, "a compound");
    let fittable = is_fittable(x, Some(y));
    assert!(rt; fittable);
    fit(alloc, x, Some(y))
}

/// Whether these are the features of the only element of a document.
fn are_told(rt: &impl Abort, alloc: Global, features: &Features, line: &str) -> bool {
    let example = example(rt, alloc, with_head(rt, alloc, line).as_slice());
    match example.doc.lines.as_slice() {
        [line] => line.element == *features,
        _ => false,
    }
}

/// Whether an answer is the wanted one: a line of a document, or a word.
pub(crate) fn is_answer(
    rt: &impl Abort,
    alloc: Global,
    found: &Result<Option<Features>, FitError>,
    wanted: &str,
) -> bool {
    match found {
        Ok(Some(features)) => are_told(rt, alloc, features, wanted),
        Ok(None) => wanted == "nothing",
        Err(FitError::SpacesTaken) => wanted == "no space",
        Err(FitError::NoMemory) => false,
    }
}

#[test]
fn what_passes_two_compounds(rt: HostRuntime) {
    let alloc = rt.alloc();
    for (x, y, wanted) in [
        ("p.k", "*", "0 1 * p class=k\n"),
        (".b.a", ".b", "0 1 * x class=b%20a\n"),
        (":not(x)", ":not(x1)#v", "0 1 * x2 id=v\n"),
        (":link:empty", "#a:not(#b)", "0 1 * x :link id=a\n"),
        (
            ":visited:not(:link)",
            ".k:not(:empty)",
            "0 1 * x :visited class=k\n",
        ),
        (
            "a:hover:link:not(:empty)",
            "[id]",
            "0 1 * a :link :hover id=\n",
        ),
        (":enabled", "[id]:not([id=''])", "0 1 * x :enabled id=x\n"),
        (
            "[id]:not(#x):not([id=''])",
            ":not([id=x1])",
            "0 1 * x id=x2\n",
        ),
        ("#a", "[id=a]", "0 1 * x id=a\n"),
        (":link", ":visited", "nothing"),
        (":enabled", ":disabled", "nothing"),
        (":hover", ":not(:hover)", "nothing"),
        ("#a", "#b", "nothing"),
        ("[id]", ":not([id])", "nothing"),
        ("p", "q", "nothing"),
        ("p", ":not(p)", "nothing"),
        (".k", ":not(.k)", "nothing"),
        ("p:not(*)", "p", "nothing"),
        (".k", ":not([class*=' \\9 \\a \\c \\d '])", "no space"),
    ] {
        let found = both_fitted(&rt, alloc, x, y);
        assert!(rt; is_answer(&rt, alloc, &found, wanted), "at {x} and {y}");
    }
}

/// The features that pass the groups of two selectors.
fn table(alloc: Global, x: &Selector, y: &Selector) -> Result<FitTable, FitError>
    requires left { IsInProfile x.now }
    requires right { IsInProfile y.now }
{
    profile_is_fittable();
    FitTable::new(alloc, x, y)
}

#[test]
fn what_passes_the_groups_of_two_selectors(rt: HostRuntime) {
    let alloc = rt.alloc();
    let x = selector(&rt, alloc, "a b");
    let y = selector(&rt, alloc, "b");
    let table = table(alloc, &x, &y).expect(&rt, "a table");
    match table.fits() {
        [Some(inner), Some(outer)] => {
            assert!(rt; are_told(&rt, alloc, inner, "0 1 * b\n"));
            assert!(rt; are_told(&rt, alloc, outer, "0 1 * a\n"));
        }
        _ => assert!(rt; false),
    }
}
