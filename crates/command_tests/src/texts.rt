//! What is written of the words: help, the version, and why they are refused.

use crate::runs::{FAULTLESS, SHEET, ends, run_line, words_of, write_so};
use command_texts::refusal_text;
use cssmin_run::Status;

const PROGRAM: &[u8] =
    b"Makes a CSS style sheet smaller, with the same winners on every legal page\n";

const MIN: &[u8] = b"Make a style sheet smaller, with the same winners on each legal page\n";

const CMP: &[u8] = b"Tell whether one element of a legal page can match two selectors\n";

/// Lines that ask for help, with the first line of the help.
const HELP: &[(&str, &[u8])] = &[
    ("cssmin --help", PROGRAM),
    ("cssmin -h", PROGRAM),
    ("cssmin help", PROGRAM),
    ("cssmin min --help", MIN),
    ("cssmin min -h", MIN),
    ("cssmin cmp --help", CMP),
    ("cssmin cmp -h", CMP),
    (
        "cssmin dead --help",
        b"Tell which selectors of a sheet match nothing on any legal page\n",
    ),
    (
        "cssmin style --help",
        b"Tell which declarations win for an element of a small page\n",
    ),
    (
        "cssmin check --help",
        b"Check a log that refutes a formula\n",
    ),
    (
        "cssmin why --help",
        b"Tell why a rule of a style sheet may not be moved to another one\n",
    ),
    (
        "cssmin same --help",
        b"Compare which declarations win by two style sheets\n",
    ),
    (
        "cssmin diff --help",
        b"Tell how a style sheet differs from what another tool made of it\n",
    ),
    (
        "cssmin blockers --help",
        b"Tell which items of a style sheet stop merges that would save bytes\n",
    ),
    (
        "cssmin list --help",
        b"List the items of a style sheet, each with its number and its place\n",
    ),
    (
        "cssmin lint --help",
        b"Tell which selectors match nothing and which declarations come again\n",
    ),
    (
        "cssmin inspect --help",
        b"List all declarations for an element of a small page, and which win\n",
    ),
    (
        "cssmin trial --help",
        b"Make a sheet and merge it, and tell what came of it\n",
    ),
];

const USAGE: &[u8] = b"usage: cssmin COMMAND\n";

/// Lines that are no command, with what is written of them.
const REFUSED: &[(&str, &[u8])] = &[
    (
        "cssmin",
        b"error: 'cssmin' requires a subcommand but one was not provided
  [subcommands: min, cmp, dead, style, why, same, diff, blockers, list, lint, inspect, check, trial, help]

Usage: cssmin <COMMAND>

For more information, try '--help'.
",
    ),
    (
        "cssmin mim",
        b"error: unrecognized subcommand 'mim'

  tip: a similar subcommand exists: 'min'

Usage: cssmin <COMMAND>

For more information, try '--help'.
",
    ),
    (
        "cssmin min --log",
        b"error: unexpected argument '--log' found

Usage: cssmin min [OPTIONS] <SHEET >TARGET

For more information, try '--help'.
",
    ),
    (
        "cssmin cmp a",
        b"error: the following required arguments were not provided:
  <RIGHT>

Usage: cssmin cmp <LEFT> <RIGHT>

For more information, try '--help'.
",
    ),
    // No tip to write `-- -a`, which is no form either.
    (
        "cssmin cmp -a b",
        b"error: unexpected argument '-a' found

Usage: cssmin cmp [OPTIONS] <LEFT> <RIGHT>

For more information, try '--help'.
",
    ),
    (
        "cssmin cmp a b --lo",
        b"error: unexpected argument '--lo' found

  tip: a similar argument exists: '--log'

Usage: cssmin cmp --log <LEFT> <RIGHT>

For more information, try '--help'.
",
    ),
    (
        "cssmin cmp a b --budget 20001",
        b"error: invalid value '20001' for '--budget <N>': 20001 is not in 0..=20000

For more information, try '--help'.
",
    ),
    (
        "cssmin diff 9 --limit 0",
        b"error: invalid value '0' for '--limit <K>': 0 is not in 1..=10000

For more information, try '--help'.
",
    ),
    (
        "cssmin trial 2001",
        b"error: invalid value '2001' for '<N>': 2001 is not in 0..=2000

For more information, try '--help'.
",
    ),
    ("cssmin cmp a b --budget 07", USAGE),
    ("cssmin trial 07", USAGE),
    ("cssmin diff 9 --limit 07", USAGE),
    ("cssmin min --budget 07", USAGE),
    ("cssmin min --help --report", USAGE),
];

#[test]
fn help_is_that_of_the_command(rt: HostRuntime) {
    let alloc = rt.alloc();
    for row in HELP {
        let (line, first) = *row;
        let ran = run_line(&rt, alloc, line, SHEET, FAULTLESS);
        assert_eq!(rt; ran.status, Status::Done, "{line}");
        assert!(rt; ran.out.bytes().starts_with(first), "{line}");
        assert!(rt; ran.out.bytes().len() > 100, "{line}");
        assert!(rt; ran.err.bytes().is_empty(), "{line}");
        assert_eq!(rt; ran.left, SHEET.len(), "{line}");
    }
}

#[test]
fn version_is_a_line(rt: HostRuntime) {
    write_so(
        &rt,
        rt.alloc(),
        &[
            ("cssmin --version", "cssmin 1.0.0\n"),
            ("cssmin -V", "cssmin 1.0.0\n"),
        ],
    );
}

#[test]
fn refusals_are_told(rt: HostRuntime) {
    let alloc = rt.alloc();
    for row in REFUSED {
        let (line, text) = *row;
        let end = (Status::Usage, SHEET.len(), b"".as_slice(), text);
        ends(&rt, alloc, line, SHEET, FAULTLESS, end);
    }
    // The program asks this of no words that are a command.
    let words = words_of(&rt, alloc, "cssmin --version");
    let text = refusal_text(alloc, &words).expect(&rt, "a text");
    assert_eq!(rt; text.as_slice(), USAGE);
}
