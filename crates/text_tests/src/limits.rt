//! Sheets at each limit and beyond it.

use sheet_read::{SheetError, read_sheet};
use std::alloc::{AllocError, Global};
use std::process::Abort;
use std::test::Fail;

/// Texts in a row, each so many times.
type Repeated<'a> = &'a [(&'a str, usize)];

fn repeated(alloc: Global, parts: Repeated) -> Result<String, AllocError> {
    let mut text = String::new(alloc);
    for (part, times) in parts {
        for _ in 0..*times {
            text.push_str(part)?;
        }
    }
    Ok(text)
}

/// How many items a sheet has, or its fault.
fn outcome(alloc: Global, source: &[u8]) -> Result<String, AllocError> {
    match read_sheet(alloc, source) {
        Ok(sheet) => format!(in alloc; "{} items", sheet.items.len()),
        Err(SheetError::Fault(fault)) => format!(in alloc; "{fault}"),
        Err(SheetError::NoMemory) => format!(in alloc; "no memory"),
    }
}

fn are_read(rt: &impl Abort, alloc: Global, rows: &[(Repeated, &str)]) -> Result<(), Fail> {
    for (parts, want) in rows {
        let text = repeated(alloc, parts)?;
        let said = outcome(alloc, text.as_bytes())?;
        assert_eq!(rt; said.as_str(), *want, "of {parts:?}");
    }
    Ok(())
}

const BYTES: [(Repeated<'static>, &str); 5] = [
    (&[(" ", 1_048_576)], "0 items"),
    (&[("a", 1_048_576)], "0 items"),
    (&[("@a{}", 1), ("a,", 524_286)], "1 items"),
    (&[("a", 1_048_577)], "TooLong at 1048576"),
    (&[(" ", 1_048_577)], "TooLong at 1048576"),
];

const OPEN_BRACKETS: [(Repeated<'static>, &str); 7] = [
    (&[("a{b:", 1), ("(", 255), (")", 255), ("}", 1)], "1 items"),
    (
        &[("@a", 1), ("[", 256), ("]", 256), (";()", 300)],
        "1 items",
    ),
    (&[("a{b:", 1), ("(", 256)], "TooDeep at 259"),
    (&[("f(", 257)], "TooDeep at 512"),
    (&[("(", 256)], "EndInside at 0"),
    (&[("(", 257), (")", 257)], "TooDeep at 256"),
    (&[("{", 1_048_576)], "TooDeep at 256"),
];

const ITEMS: [(Repeated<'static>, &str); 7] = [
    (&[("@a;", 16_384)], "16384 items"),
    (&[("@a;", 16_384), ("a{}", 10)], "16384 items"),
    (&[("a{}", 16_385)], "0 items"),
    (&[("@a;", 16_385)], "TooManyItems at 49152"),
    (&[("a{}", 3), ("b{c:d}", 16_385)], "TooManyItems at 98313"),
    (&[("a{}", 16_385), ("@import", 1)], "TooManyItems at 49152"),
    (&[("@a;", 16_385), ("@namespace", 1)], "Namespace at 49155"),
];

const PAIRS: [(Repeated<'static>, &str); 4] = [
    (
        &[("a,", 511), ("a{", 1), ("b:c;", 512), ("}", 1)],
        "1 items",
    ),
    (
        &[("a,", 512), ("a{", 1), ("b:c;", 512), ("}", 1)],
        "TooManyPairs at 0",
    ),
    (
        &[
            ("a,", 511),
            ("a{", 1),
            ("b:c;", 512),
            ("}", 1),
            ("d{b:c}", 2),
        ],
        "TooManyPairs at 3073",
    ),
    (
        &[("a,", 512), ("a|b{", 1), ("b:c;", 512), ("}", 1)],
        "1 items",
    ),
];

/// Long sheets that are one long part.
const PARTS: [(Repeated<'static>, &str); 9] = [
    (&[("a,", 262_143), ("a{b:c}", 1)], "1 items"),
    (&[("a,", 262_144), ("a{b:c}", 1)], "TooManyPairs at 0"),
    (&[("a{", 1), ("b:c;", 262_143), ("}", 1)], "1 items"),
    (&[("a{", 1), (";", 1_048_573), ("}", 1)], "0 items"),
    (&[("a{b:", 1), ("1 ", 524_285), ("}", 1)], "1 items"),
    (&[("a{b:", 1), ("!important", 104_857), ("}", 1)], "1 items"),
    (&[("a{b:", 1), ("()", 524_285), ("}", 1)], "1 items"),
    (&[("a/**/", 209_713), ("{b:c}", 1)], "1 items"),
    (
        &[("@a", 1), ("b{", 256), ("}", 256), ("<!--", 261_951)],
        "1 items",
    ),
];

#[test]
fn reads_1048576_bytes(rt: HostRuntime) -> Result<(), Fail> {
    are_read(&rt, rt.alloc(), &BYTES)
}

#[test]
fn opens_256_brackets(rt: HostRuntime) -> Result<(), Fail> {
    are_read(&rt, rt.alloc(), &OPEN_BRACKETS)
}

#[test]
fn reads_16384_items(rt: HostRuntime) -> Result<(), Fail> {
    are_read(&rt, rt.alloc(), &ITEMS)
}

#[test]
fn reads_262144_pairs(rt: HostRuntime) -> Result<(), Fail> {
    are_read(&rt, rt.alloc(), &PAIRS)
}

#[test]
fn reads_long_parts(rt: HostRuntime) -> Result<(), Fail> {
    are_read(&rt, rt.alloc(), &PARTS)
}
