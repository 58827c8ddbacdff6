//! Plans of pairs, and the documents of their shapes, worked by hand.

ghost use Rattle.selector_laws.specs.Limits.{KeepsLimits};

use crate::reading::{example, selector, with_head};
use clause_encode::limits_allow_plans;
use cnf::NO_LIMIT;
use css_model::Selector;
use nth_positions::Bounds;
use overlap::{Answer, Pairs};
use pair_laws::profile_keeps_the_limits;
use slot_plan::{PairPlan, PlanError};
use std::alloc::Global;
use std::process::Abort;

/// The bounds of the plan of two selectors.
fn planned(alloc: Global, x: &Selector, y: &Selector) -> Result<Bounds, PlanError>
    requires left { KeepsLimits x.now }
    requires right { KeepsLimits y.now }
{
    limits_allow_plans();
    let plan = PairPlan::new(alloc, x, y)?;
    Ok(plan.bounds())
}

/// The bounds of the plan of two texts.
fn bounds(rt: &impl Abort, alloc: Global, left: &str, right: &str) -> Result<Bounds, PlanError> {
    let x = selector(rt, alloc, left);
    let y = selector(rt, alloc, right);
    profile_keeps_the_limits();
    planned(alloc, &x, &y)
}

#[test]
fn which_pairs_have_a_plan(rt: HostRuntime) {
    let alloc = rt.alloc();
    for (left, right, threshold, period, width) in [
        ("*", "*", 1, 1, 6),
        (
            ":nth-child(32n):nth-child(31n)",
            ":nth-child(29n):nth-child(-27n)",
            1,
            776_736,
            25,
        ),
        (
            ":nth-child(n):nth-child(-n):nth-child(0n)",
            ":nth-child(n):nth-child(2n)",
            1,
            2,
            7,
        ),
    ] {
        let wanted = Bounds {
            threshold,
            period,
            width,
        };
        assert!(rt;
            bounds(&rt, alloc, left, right) == Ok(wanted),
            "for {left} and {right}"
        );
    }
    let many = bounds(
        &rt,
        alloc,
        ":nth-child(2n):nth-child(2n)",
        ":nth-child(2n):nth-child(2n):nth-child(2n)",
    );
    assert!(rt; many == Err(PlanError::NthParts(5)));
}

/// Two selectors meet in a document of these lines.
fn draws(rt: &impl Abort, alloc: Global, row: (&str, &str, &str)) {
    let (left, right, lines) = row;
    let x = selector(rt, alloc, left);
    let y = selector(rt, alloc, right);
    let mut pairs = Pairs::new(alloc, NO_LIMIT);
    let wanted = example(rt, alloc, with_head(rt, alloc, lines).as_slice());
    match pairs.ask(&x, &y).expect(rt, "memory") {
        Answer::Meet(found) => {
            let same = found.doc.lines == wanted.doc.lines && found.marked == wanted.marked;
            assert!(rt; same, "for {left} and {right}");
        }
        _ => assert!(rt; false, "for {left} and {right}"),
    }
}

/// Each row leaves one shape, where an ancestor that may be anywhere above is the parent.
#[test]
fn which_documents_shapes_give(rt: HostRuntime) {
    let alloc = rt.alloc();
    for row in [
        // no test looks at a number of siblings
        (":root>b", "b", "0 1 - x\n1 1 * b\n"),
        ("a+b", ":root>b", "0 1 - x\n1 1 - a\n1 1 * b\n"),
        ("a>b", ":root>*", "0 1 - a\n1 1 * b\n"),
        ("a b", "c:root b", "0 1 - c\n1 1 - a\n2 1 * b\n"),
        // some test does
        (
            "a:nth-child(2)~b:nth-child(4):nth-last-child(2)",
            "b",
            "0 1 - x\n1 1 - x\n1 1 - a\n1 1 - x\n1 1 * b\n1 1 - x\n",
        ),
        (
            "a:nth-child(2)~b:nth-child(3):nth-last-child(2)",
            "b",
            "0 1 - x\n1 1 - x\n1 1 - a\n1 1 * b\n1 1 - x\n",
        ),
        (
            "c:first-child:nth-last-child(3)>b+a:last-child",
            "a:nth-child(2)",
            "0 1 - x\n1 1 - c\n2 1 - b\n2 1 * a\n1 2 - x\n",
        ),
        (
            "c:root b:nth-child(2)~a:nth-child(5):nth-last-child(4)",
            "a",
            "0 1 - c\n1 1 - x\n1 1 - b\n1 2 - x\n1 1 * a\n1 3 - x\n",
        ),
        // ids that are free
        (
            ":root#x>[id]:not([id=''])",
            "p",
            "0 1 - x id=x\n1 1 * p id=x1\n",
        ),
        (
            ":root#x>[id]",
            ":not([id=''])",
            "0 1 - x id=x\n1 1 * x id=x1\n",
        ),
        (
            ":root#x>[id]:not([id='']):not(#x1)",
            "p",
            "0 1 - x id=x\n1 1 * p id=x2\n",
        ),
        (
            ":root#x>[id]:not(#x1)",
            ":not([id='']):not([id=x2])",
            "0 1 - x id=x\n1 1 * x id=x3\n",
        ),
        // and those that are not
        (":root#x>[id]", "p", "0 1 - x id=x\n1 1 * p id=\n"),
        (":root#x>p", ":not([id=''])", "0 1 - x id=x\n1 1 * p\n"),
        (
            ":root#x>[id]:not([id=''])",
            "#a",
            "0 1 - x id=x\n1 1 * x id=a\n",
        ),
        (
            ":root#x>[id=a]:not([id=''])",
            "[id]",
            "0 1 - x id=x\n1 1 * x id=a\n",
        ),
    ] {
        draws(&rt, alloc, row);
    }
}
