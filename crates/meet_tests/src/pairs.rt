//! Answers for pairs of selectors, worked by hand.

use crate::reading::{example, selector};
use overlap::{Answer, NO_SPACE_LEFT, Pairs, TOO_MANY_STEPPED};
use std::alloc::Global;
use std::process::Abort;

/// Whether an answer is the wanted one: the text of an example, or a word.
fn is_answer(rt: &impl Abort, alloc: Global, answer: &Answer, wanted: &str) -> bool {
    match answer {
        Answer::Apart => wanted == "apart",
        Answer::Meet(found) => *found == example(rt, alloc, wanted.as_bytes()),
        Answer::Outside(TOO_MANY_STEPPED, 5) => wanted == "five stepped",
        Answer::Outside(NO_SPACE_LEFT, 0) => wanted == "no space",
        _ => false,
    }
}

/// Two selectors get this answer. It is held from then on.
fn gives(rt: &impl Abort, alloc: Global, pairs: &mut Pairs, row: (&str, &str, &str)) {
    let (left, right, wanted) = row;
    let x = selector(rt, alloc, left);
    let y = selector(rt, alloc, right);
    let answer = pairs.ask(&x, &y).expect(rt, "memory");
    assert!(rt;
        is_answer(rt, alloc, answer, wanted),
        "for {left} and {right}"
    );
    let held = pairs.known(&x, &y).expect(rt, "a held answer");
    assert!(rt;
        is_answer(rt, alloc, held, wanted),
        "held for {left} and {right}"
    );
}

#[test]
fn which_selectors_meet(rt: HostRuntime) {
    let alloc = rt.alloc();
    let mut pairs = Pairs::new(alloc, 0);
    for row in [
        ("a:link", "a:visited", "apart"),
        (
            "a:link",
            "a:link",
            "child 0 pseudo none\n0 1 - x\n1 1 * a :link\n",
        ),
        (
            ":nth-child(32n+1)",
            ":nth-last-child(31n+5)",
            "child 0 pseudo none\n0 1 - x\n1 1 * x\n1 4 - x\n",
        ),
        (
            "[class^=icon-]",
            ".b",
            "child 0 pseudo none\n0 1 - x\n1 1 * x class=icon-a%20b%20a\n",
        ),
        ("[lang|=en]:not([lang^=en-])", "[lang=en-GB]", "apart"),
        (
            "a:hover:link:not(:empty)",
            "[id]",
            "child 0 pseudo none\n0 1 - x\n1 1 * a +text :link :hover id=\n",
        ),
        (
            ":root:first-child",
            "html",
            "child 1 pseudo none\n0 1 * html\n",
        ),
        (":root", "html", "child 0 pseudo none\n0 1 * html\n"),
        (
            "p:not(:only-child)",
            "p",
            "child 0 pseudo none\n0 1 - x\n1 1 * p\n1 1 - x\n",
        ),
        (
            "p:nth-child(2n):nth-child(3n)",
            "p:nth-child(5n):nth-child(7n)",
            "child 0 pseudo none\n0 1 - x\n1 209 - x\n1 1 * p\n",
        ),
        (
            "p:nth-child(2n):nth-child(3n)",
            "p:nth-child(5n):nth-child(7n):nth-last-child(9n)",
            "five stepped",
        ),
        (
            "[class~=a]:not([class*=' ']):not([class*='\\9 ']):not([class*='\\a ']):not([class*='\\c ']):not([class*='\\d '])",
            "p",
            "no space",
        ),
        (
            "a::before",
            "a::before",
            "child 0 pseudo before\n0 1 - x\n1 1 * a\n",
        ),
        ("a::before", "a", "apart"),
        ("p:empty", "p:not(:empty)", "apart"),
        ("#a", "#b", "apart"),
    ] {
        gives(&rt, alloc, &mut pairs, row);
    }
}

#[test]
fn answers_are_of_ordered_pairs(rt: HostRuntime) {
    let alloc = rt.alloc();
    let mut pairs = Pairs::new(alloc, 0);
    let link = selector(&rt, alloc, "a:link");
    let visited = selector(&rt, alloc, "a:visited");
    pairs.settle(&link, &visited).expect(&rt, "memory");
    pairs.settle(&link, &link).expect(&rt, "memory");
    let apart = pairs.known(&link, &visited).expect(&rt, "a held answer");
    assert!(rt; *apart == Answer::Apart);
    let unknown = pairs.known(&visited, &link).is_none();
    assert!(rt; unknown);
}

/// How many clauses may be learned for a pair.
const BUDGET: u32 = 20_000;

/// Whether two selectors meet, asked without a log, and then with one, which comes where their formula refutes them.
fn decides(rt: &impl Abort, alloc: Global, row: (&str, &str, bool, bool)) {
    let (left, right, meet, logged) = row;
    let x = selector(rt, alloc, left);
    let y = selector(rt, alloc, right);
    let mut pairs = Pairs::new(alloc, BUDGET);
    let answer = pairs.ask(&x, &y).expect(rt, "memory");
    assert!(rt; is_decided(answer, meet), "for {left} and {right}");
    let mut pairs = Pairs::new(alloc, BUDGET);
    let log = pairs.ask_with_log(&x, &y).expect(rt, "memory");
    assert!(rt; log.is_some() == logged, "the log for {left} and {right}");
    let held = pairs.known(&x, &y).expect(rt, "a held answer");
    assert!(rt; is_decided(held, meet), "held for {left} and {right}");
}

/// Whether an answer is that two selectors meet, or that they do not.
fn is_decided(answer: &Answer, meet: bool) -> bool {
    match answer {
        Answer::Apart => !meet,
        Answer::Meet(_) => meet,
        _ => false,
    }
}

#[test]
fn which_formulas_refute(rt: HostRuntime) {
    let alloc = rt.alloc();
    for row in [
        (":nth-child(2n)+p", ":nth-child(2n)", false, true),
        ("a:empty>b", "b", false, true),
        ("a>b", ":root", false, true),
        (":not(:root)>a", ":root>a", false, true),
        (":first-child>a", ":nth-child(2)>a", false, true),
        ("a~:nth-child(2)", "b~*", false, true),
        ("b~a:first-child", "a", false, true),
        (":root:nth-child(2)>a", "a", false, true),
        (":root+a", "a", false, true),
        (":only-child>a", ":not(:last-child)>a", false, true),
        ("b+.l", "a.k+b", false, true),
        (":empty b", "*", false, true),
        ("#u>b", "#u", false, true),
        ("*", "#u+#u", false, true),
        ("#a #a", "b", false, true),
        ("a b:link", "b:visited", false, true),
        ("a+.k", "p+.l", false, true),
        ("a>.k", "p>.l", false, true),
        ("a>.j+.k", "p>.m+.l", false, true),
        ("a b", "b", true, false),
        ("a>b", "b", true, false),
        ("a~.k", "p~.l", true, false),
        ("a+.k", "p~.l", true, false),
        ("a .k", "p .l", true, false),
        ("a>.k", "p .l", true, false),
        ("ul>li+li", "li:last-child", true, false),
        (":nth-child(2n)+p", ":nth-child(2n+1)", true, false),
        ("#u>b", "#u b", true, false),
        // no formula
        ("a", "a", true, false),
        ("a:link", "a:visited", false, false),
        ("a>b::before", "b", false, false),
    ] {
        decides(&rt, alloc, row);
    }
}
