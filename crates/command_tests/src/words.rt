//! Words of each form, and words of none.

use crate::runs::{FAULTLESS, SHEET, run_line, words_of};
use command_words::command_of;
use cssmin_run::Status;

/// Lines with the commands that they are, as `Debug` shows them.
const FORMS: &[(&str, &str)] = &[
    (
        "cssmin min",
        "Min { budget: None, work: None, report: false }",
    ),
    (
        "cssmin min --budget 9",
        "Min { budget: Some(9), work: None, report: false }",
    ),
    (
        "cssmin min --budget=20000",
        "Min { budget: Some(20000), work: None, report: false }",
    ),
    (
        "cssmin min --report",
        "Min { budget: None, work: None, report: true }",
    ),
    (
        "cssmin min --budget 9 --report",
        "Min { budget: Some(9), work: None, report: true }",
    ),
    (
        "cssmin min --report --budget 9",
        "Min { budget: Some(9), work: None, report: true }",
    ),
    (
        "cssmin min --work 4294967295",
        "Min { budget: None, work: Some(4294967295), report: false }",
    ),
    (
        "cssmin min --report --work=0 --budget 9",
        "Min { budget: Some(9), work: Some(0), report: true }",
    ),
    ("cssmin trial 0", "Trial { rules: RuleCount { number: 0 } }"),
    (
        "cssmin trial 2000",
        "Trial { rules: RuleCount { number: 2000 } }",
    ),
    ("cssmin trial -h", "Help(Trial)"),
    ("cssmin style", "Style"),
    ("cssmin style -h", "Help(Style)"),
    ("cssmin dead", "Dead { budget: None }"),
    ("cssmin dead --budget 9", "Dead { budget: Some(9) }"),
    ("cssmin dead --help", "Help(Dead)"),
    (
        "cssmin cmp a b",
        "Cmp { left: \"a\", right: \"b\", budget: None, log: false }",
    ),
    // An empty word is a text.
    (
        "cssmin cmp  ",
        "Cmp { left: \"\", right: \"\", budget: None, log: false }",
    ),
    (
        "cssmin cmp a b --budget 0",
        "Cmp { left: \"a\", right: \"b\", budget: Some(0), log: false }",
    ),
    (
        "cssmin cmp a --budget 20000 b",
        "Cmp { left: \"a\", right: \"b\", budget: Some(20000), log: false }",
    ),
    (
        "cssmin cmp --budget 2000 a>b .c",
        "Cmp { left: \"a>b\", right: \".c\", budget: Some(2000), log: false }",
    ),
    (
        "cssmin cmp a b --budget=7",
        "Cmp { left: \"a\", right: \"b\", budget: Some(7), log: false }",
    ),
    (
        "cssmin cmp a --budget=70 b",
        "Cmp { left: \"a\", right: \"b\", budget: Some(70), log: false }",
    ),
    (
        "cssmin cmp --budget=1 min cmp",
        "Cmp { left: \"min\", right: \"cmp\", budget: Some(1), log: false }",
    ),
    (
        "cssmin cmp --log a --budget 7 b",
        "Cmp { left: \"a\", right: \"b\", budget: Some(7), log: true }",
    ),
    ("cssmin --help", "Help(Program)"),
    ("cssmin -h", "Help(Program)"),
    ("cssmin help", "Help(Program)"),
    ("cssmin check", "Check"),
    ("cssmin check -h", "Help(Check)"),
    (
        "cssmin why 0 4294967295",
        "Why { from: 0, to: 4294967295, budget: None }",
    ),
    (
        "cssmin why --budget=5 20 17",
        "Why { from: 20, to: 17, budget: Some(5) }",
    ),
    ("cssmin why -h", "Help(Why)"),
    (
        "cssmin same 4294967295",
        "Same { split: 4294967295, budget: None }",
    ),
    (
        "cssmin same --budget 5 0",
        "Same { split: 0, budget: Some(5) }",
    ),
    ("cssmin same -h", "Help(Same)"),
    (
        "cssmin diff 4294967295",
        "Diff { split: 4294967295, budget: None, limit: 20 }",
    ),
    (
        "cssmin diff --budget 5 0 --limit 10000",
        "Diff { split: 0, budget: Some(5), limit: 10000 }",
    ),
    (
        "cssmin diff --limit=1 7 --budget=0",
        "Diff { split: 7, budget: Some(0), limit: 1 }",
    ),
    ("cssmin diff -h", "Help(Diff)"),
    ("cssmin blockers", "Blockers { budget: None }"),
    ("cssmin blockers --budget 9", "Blockers { budget: Some(9) }"),
    ("cssmin blockers -h", "Help(Blockers)"),
    ("cssmin list", "Listing"),
    ("cssmin list -h", "Help(Listing)"),
    ("cssmin lint", "Lint { budget: None }"),
    ("cssmin lint --budget=9", "Lint { budget: Some(9) }"),
    ("cssmin lint -h", "Help(Lint)"),
    ("cssmin inspect", "Inspect"),
    ("cssmin inspect -h", "Help(Inspect)"),
    ("cssmin min --help", "Help(Min)"),
    ("cssmin min -h", "Help(Min)"),
    ("cssmin cmp --help", "Help(Cmp)"),
    ("cssmin cmp -h", "Help(Cmp)"),
    ("cssmin --version", "Version"),
    ("cssmin -V", "Version"),
];

/// Lines that are no command.
const WRONG: &[&str] = &[
    "cssmin",
    // One empty word.
    "cssmin ",
    "cssmin mim",
    "cssmin Min",
    "cssmin --report",
    "cssmin min min",
    "cssmin min --report --report",
    "cssmin min --log --report",
    "cssmin min --budget 20001",
    "cssmin min --budget 07",
    "cssmin min --budget --report",
    "cssmin min --budget 1 --budget=1",
    "cssmin min --work",
    "cssmin min --work 07",
    "cssmin min --work=4294967296",
    "cssmin min --work 1 --work=1",
    "cssmin lint --work 1",
    "cssmin min --log",
    "cssmin min --help --report",
    "cssmin min --version",
    "cssmin min help",
    "cssmin --help min",
    "cssmin help min",
    "cssmin help help",
    "cssmin -V -V",
    "cssmin --budget 3",
    "cssmin trial",
    "cssmin trial 03",
    "cssmin trial 2001",
    "cssmin trial 3 3",
    "cssmin trial 3 --budget 3",
    "cssmin trial 3 --report",
    "cssmin dead --report",
    "cssmin cmp a b --report",
    "cssmin why 1 2 --report",
    "cssmin why 1",
    "cssmin why 1 02",
    "cssmin why 1 4294967296",
    "cssmin same",
    "cssmin same 01",
    "cssmin same 4294967296",
    "cssmin same 1 2",
    "cssmin same 1 --report",
    "cssmin same 1 --limit 3",
    "cssmin diff",
    "cssmin diff 01",
    "cssmin diff 4294967296",
    "cssmin diff 1 2",
    "cssmin diff 1 --report",
    "cssmin diff 1 --limit",
    "cssmin diff 1 --limit 0",
    "cssmin diff 1 --limit=0",
    "cssmin diff 1 --limit 10001",
    "cssmin diff 1 --limit 03",
    "cssmin diff 1 --limit 3 --limit=3",
    "cssmin diff --limit 1",
    "cssmin diff 1 --budget 20001",
    "cssmin blockers 1",
    "cssmin blockers --limit 3",
    "cssmin blockers --report",
    "cssmin min --limit 3",
    "cssmin list a",
    "cssmin list --report",
    "cssmin list --budget 3",
    "cssmin lint a",
    "cssmin lint --report",
    "cssmin lint --budget 20001",
    "cssmin inspect a",
    "cssmin inspect --report",
    "cssmin inspect --budget 3",
    "cssmin cmp",
    "cssmin cmp a",
    "cssmin cmp a b c",
    "cssmin style a",
    "cssmin style --budget 3",
    "cssmin dead a",
    "cssmin dead --budget",
    "cssmin cmp a b c d",
    "cssmin cmp a b c d e",
    "cssmin cmp a b --budget",
    "cssmin cmp a b --budget 07",
    "cssmin cmp a b --budget 20001",
    "cssmin cmp a b --budget +1",
    "cssmin cmp a b --budget -1",
    "cssmin cmp a b --budget 1x",
    "cssmin cmp a b --budget=",
    "cssmin cmp a b --budget=00",
    "cssmin cmp a b --budget=20001",
    "cssmin cmp a b --budget=4294967296",
    "cssmin cmp a b --bud=3",
    "cssmin cmp a b --Budget=3",
    "cssmin cmp a b --budget 1 --budget 2",
    "cssmin cmp a b --budget=1 --budget=2",
    "cssmin cmp --budget a b 1",
    "cssmin cmp a --budget=3",
    "cssmin cmp -- a b",
    "cssmin cmp a b --log --log",
    "cssmin cmp a b --budget --log",
    "cssmin cmp a --log",
    "cssmin dead --log",
    "cssmin check a",
    "cssmin check --budget 1",
    "cssmin cmp -a b",
    "cssmin cmp a -b",
    "cssmin cmp a --help",
    "cssmin cmp --help a",
];

#[test]
fn have_a_form(rt: HostRuntime) {
    let alloc = rt.alloc();
    for row in FORMS {
        let (line, form) = *row;
        let words = words_of(&rt, alloc, line);
        let command = command_of(&words).expect(&rt, line);
        let shown = format!(in alloc; "{command:?}").expect(&rt, line);
        assert_eq!(rt; shown.as_str(), form, "{line}");
    }
}

/// Why words have no form is written in whole lines.
#[test]
fn have_no_form(rt: HostRuntime) {
    let alloc = rt.alloc();
    for line in WRONG {
        let ran = run_line(&rt, alloc, line, SHEET, FAULTLESS);
        assert_eq!(rt; ran.status, Status::Usage, "{line}");
        assert!(rt; ran.out.bytes().is_empty(), "{line}");
        assert!(rt; ran.err.bytes().ends_with(b"\n"), "{line}");
        assert_eq!(rt; ran.left, SHEET.len(), "{line}");
    }
}
