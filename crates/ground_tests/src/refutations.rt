//! Logs that are read, followed and printed.

use cnf::Ledger;
use rup_check::{Checked, Log, LogError, check_log, print_log, read_log};
use std::alloc::{AllocError, Global};
use std::test::Fail;

/// The four clauses of two variables.
pub(crate) const FOUR: &str = "vars 2 clauses 4\n1 2 0\n1 -2 0\n-1 2 0\n-1 -2 0\n";

const CHAIN: &str = "vars 4 clauses 5\n-1 2 0\n-2 3 0\n-3 4 0\n1 0\n-4 0\n";

const WITH_FIRST: &str = "vars 3 clauses 5\n1 0\n-1 2 3 0\n-1 2 -3 0\n-1 -2 3 0\n-1 -2 -3 0\n";

/// A text with another one after it.
pub(crate) fn joined(alloc: Global, first: &str, second: &str) -> Result<Vec<u8>, AllocError> {
    let mut text = first.as_bytes().to_vec(alloc)?;
    text.extend_from_slice(second.as_bytes())?;
    Ok(text)
}

#[test]
fn follows_small_logs(rt: HostRuntime) -> Result<(), Fail> {
    let alloc = rt.alloc();
    for (formula, steps, want) in [
        (FOUR, "1 0\n0\n", Checked::Yes),
        (FOUR, "-2 0\n0\n", Checked::Yes),
        (FOUR, "0\n", Checked::No(1)),
        (FOUR, "0\n1 0\n", Checked::No(1)),
        (FOUR, "", Checked::No(1)),
        (FOUR, "1 0\n", Checked::No(2)),
        (FOUR, "1 0\n0\n2 0\n", Checked::No(4)),
        (CHAIN, "0\n", Checked::Yes),
        (CHAIN, "", Checked::No(1)),
        ("vars 2 clauses 2\n1 0\n0\n", "2 0\n", Checked::Yes),
        ("vars 0 clauses 1\n0\n", "", Checked::Yes),
        (WITH_FIRST, "2 -1 0\n0\n", Checked::Yes),
        (WITH_FIRST, "-1 2 0\n-1 3 0\n0\n", Checked::Yes),
        (
            "vars 3 clauses 1\n1 2 0\n",
            "3 1 2 0\n1 0\n",
            Checked::No(2),
        ),
        ("vars 0 clauses 0\n", "0\n", Checked::No(1)),
    ] {
        let log = read_log(alloc, &joined(alloc, formula, steps)?)?;
        assert_eq!(rt; check_log(alloc, &log)?, want, "{formula}{steps}");
    }
    Ok(())
}

/// How many clauses and steps a text has, once it is printed again as it was.
fn read_back(alloc: Global, text: &str) -> Result<(usize, usize), LogError> {
    let Log { formula, steps } = read_log(alloc, text.as_bytes())?;
    let ledger = Ledger { clauses: steps };
    let printed = print_log(alloc, &formula, &ledger)?;
    if printed.as_slice() == text.as_bytes() {
        Ok((formula.len(), ledger.clauses.len()))
    } else {
        Ok((0, 99))
    }
}

#[test]
fn reads_texts_and_prints_them_again(rt: HostRuntime) {
    for (text, want) in [
        ("vars 2 clauses 2\n1 2 0\n-1 0\n2 0\n0\n", Ok((2, 2))),
        ("vars 0 clauses 0\n", Ok((0, 0))),
        ("vars 1 clauses 1\n2 0\n", Err(LogError::BadLine(2))),
        ("vars 1 clauses 1\n0 0\n", Err(LogError::BadLine(2))),
        ("vars 1 clauses 2\n1 0\n", Err(LogError::BadLine(3))),
        ("vars 1 clauses 1\n1 0", Err(LogError::BadLine(2))),
        ("vars 1 clauses 1\n01 0\n", Err(LogError::BadLine(2))),
        ("vars 1 clauses 1\n1  0\n", Err(LogError::BadLine(2))),
        ("vars 1 clauses 1\n1 1 0\n", Ok((1, 0))),
        ("vars 1 clauses 1\n1 0\n1 1 0\n", Err(LogError::BadLine(3))),
        ("vars 1 clauses 1\n1 0\n1 -1 0\n", Err(LogError::BadLine(3))),
        ("vars 1 clauses 1\n1 0\n\n", Err(LogError::BadLine(3))),
        ("vars 16777216 clauses 0\n", Err(LogError::BadLine(1))),
        (
            "vars 16777215 clauses 4294967296\n",
            Err(LogError::BadLine(1)),
        ),
        ("vars 1 clauses 0", Err(LogError::BadLine(1))),
        ("", Err(LogError::BadLine(1))),
    ] {
        assert_eq!(rt; read_back(rt.alloc(), text), want, "{text}");
    }
}
