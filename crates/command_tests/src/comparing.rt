//! Pairs of selectors with what is written of them, worked by hand, and logs.

use crate::runs::{FAULTLESS, Row, SHEET, end_so, ends, run_line, write_so};
use cssmin_run::{LogFault, Status};

/// Pairs of selectors, with the answer; a tab is the white space of a selector.
const COMPARED: &[(&str, &str)] = &[
    ("cssmin cmp a:link a:visited --budget 0", "disjoint\n"),
    ("cssmin cmp a:link a:visited --budget=0", "disjoint\n"),
    (
        "cssmin cmp :nth-child(32n+1) :nth-last-child(31n+5)",
        "overlap\nchild 0 pseudo none\n0 1 - x\n1 1 * x\n1 4 - x\n",
    ),
    (
        "cssmin cmp [class^=\"icon-\"] .b",
        "overlap\nchild 0 pseudo none\n0 1 - x\n1 1 * x class=icon-a%20b%20a\n",
    ),
    (
        "cssmin cmp [lang|=en]:not([lang^=\"en-\"]) [lang=en-GB]",
        "disjoint\n",
    ),
    (
        "cssmin cmp a:hover:link:not(:empty) [id]",
        "overlap\nchild 0 pseudo none\n0 1 - x\n1 1 * a +text :link :hover id=\n",
    ),
    (
        "cssmin cmp :root:first-child html",
        "overlap\nchild 1 pseudo none\n0 1 * html\n",
    ),
    ("cssmin cmp a:is(b) c", "outside 1\n"),
    ("cssmin cmp --log a:link a:visited", "disjoint\n"),
    ("cssmin cmp --log a:is(b) c", "outside 1\n"),
    ("cssmin cmp c a:is(b)", "outside 1\n"),
    ("cssmin cmp a x|y", "outside 3\n"),
    ("cssmin cmp li:nth-child(33n) a", "outside 8\n"),
    ("cssmin cmp a|b li:nth-child(33n)", "outside 3\n"),
    (
        "cssmin cmp p:nth-child(2n):nth-child(3n):nth-child(5n) p:nth-child(7n):nth-child(11n)",
        "outside 11\n",
    ),
    ("cssmin cmp  ", "outside 10\n"),
    (
        "cssmin cmp p:nth-child(2n):nth-child(3n) p:nth-child(5n):nth-child(7n)",
        "overlap\nchild 0 pseudo none\n0 1 - x\n1 209 - x\n1 1 * p\n",
    ),
    (
        "cssmin cmp [a~=b]:not([a*=\"\\9\\a\\c\\d\\20\"]) a",
        "outside 12\n",
    ),
    // These take the solver, and a budget that suffices changes nothing.
    ("cssmin cmp #a\t#a b", "disjoint\n"),
    ("cssmin cmp #a\t#a b --budget=2000", "disjoint\n"),
    ("cssmin cmp :nth-child(2n)+p :nth-child(2n)", "disjoint\n"),
    (
        "cssmin cmp :nth-child(2n)+p :nth-child(2n) --budget=2000",
        "disjoint\n",
    ),
    ("cssmin cmp a:empty>b b", "disjoint\n"),
    ("cssmin cmp a:empty>b b --budget=2000", "disjoint\n"),
    ("cssmin cmp a>b :root", "disjoint\n"),
    ("cssmin cmp a>b :root --budget=2000", "disjoint\n"),
];

const CHECKED: &[Row] = &[
    (
        "cssmin check",
        b"vars 2 clauses 4\n1 2 0\n1 -2 0\n-1 2 0\n-1 -2 0\n1 0\n0\n",
        Status::Done,
        "yes\n",
        "",
    ),
    (
        "cssmin check",
        b"vars 2 clauses 4\n1 2 0\n1 -2 0\n-1 2 0\n-1 -2 0\n0\n",
        Status::Done,
        "no 1\n",
        "",
    ),
    (
        "cssmin check",
        b"vars 1 clauses 1\n2 0\n",
        Status::LogRefused(LogFault::BadLine(2)),
        "",
        "log refused: line 2\n",
    ),
];

#[test]
fn selectors_are_compared(rt: HostRuntime) {
    write_so(&rt, rt.alloc(), COMPARED);
}

#[test]
fn logs_are_checked(rt: HostRuntime) {
    end_so(&rt, rt.alloc(), CHECKED);
}

/// Budgets that suffice change nothing. Of this pair no document is worked by hand.
#[test]
fn budgets_that_suffice_change_nothing(rt: HostRuntime) {
    let alloc = rt.alloc();
    let line = "cssmin cmp ul>li+li li:last-child";
    let free = run_line(&rt, alloc, line, SHEET, FAULTLESS);
    assert!(rt; free.out.bytes().starts_with(b"overlap\nchild "));
    let line = "cssmin cmp ul>li+li li:last-child --budget=2000";
    let end = (Status::Done, SHEET.len(), free.out.bytes(), b"".as_slice());
    ends(&rt, alloc, line, SHEET, FAULTLESS, end);
}

/// Pairs, how what is written of them begins, and what the check says of that: there is a log only of a refuted
/// formula.
const LOGGED: &[(&str, &[u8], Status, &[u8], &[u8])] = &[
    (
        "cssmin cmp --log :nth-child(2n)+p :nth-child(2n)",
        b"vars ",
        Status::Done,
        b"yes\n",
        b"",
    ),
    (
        "cssmin cmp --log a:link a:visited",
        b"disjoint\n",
        Status::LogRefused(LogFault::BadLine(1)),
        b"",
        b"log refused: line 1\n",
    ),
    (
        "cssmin cmp --log a>b b",
        b"overlap\n",
        Status::LogRefused(LogFault::BadLine(1)),
        b"",
        b"log refused: line 1\n",
    ),
    (
        "cssmin cmp --log a a,b",
        b"outside ",
        Status::LogRefused(LogFault::BadLine(1)),
        b"",
        b"log refused: line 1\n",
    ),
];

#[test]
fn logs_of_refuted_pairs_pass(rt: HostRuntime) {
    let alloc = rt.alloc();
    for row in LOGGED {
        let (line, front, status, answer, told) = *row;
        let ran = run_line(&rt, alloc, line, SHEET, FAULTLESS);
        assert!(rt; ran.out.bytes().starts_with(front), "{line}");
        let end = (status, 0, answer, told);
        ends(&rt, alloc, "cssmin check", ran.out.bytes(), FAULTLESS, end);
    }
}
