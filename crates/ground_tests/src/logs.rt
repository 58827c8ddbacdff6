//! The line of the answer for the text of a log.

use crate::refutations::{FOUR, joined};
use log_text::{CheckError, check_text};
use std::test::Fail;

#[test]
fn prints_the_answer(rt: HostRuntime) -> Result<(), Fail> {
    let alloc = rt.alloc();
    for (formula, steps, want) in [
        (FOUR, "1 0\n0\n", Ok("yes\n")),
        (FOUR, "0\n", Ok("no 1\n")),
        (FOUR, "1 0\n", Ok("no 2\n")),
        ("vars 1 clauses 1\n", "2 0\n", Err(CheckError::BadLine(2))),
    ] {
        match (check_text(alloc, &joined(alloc, formula, steps)?), want) {
            (Ok(line), Ok(want)) => assert_eq!(rt; line.as_slice(), want.as_bytes(), "{steps}"),
            (Err(error), Err(want)) => assert_eq!(rt; error, want, "{steps}"),
            _ => assert!(rt; false, "{steps}"),
        }
    }
    Ok(())
}
