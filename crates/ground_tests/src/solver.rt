//! Small formulas with known answers. Values and ledgers are checked without the solver.

use cnf::{Formula, NO_LIMIT};
use rup_check::{Checked, LogError, check_log, print_log, read_log};
use sat_core::{Verdict, solve};
use std::alloc::Global;
use std::process::Abort;
use std::test::Fail;

/// Whether values satisfy a formula: one for each variable.
fn satisfy(values: &[bool], f: &Formula) -> bool {
    for k in 0..f.len() {
        let holds = f.clause(k).iter().any(|lit| values.get(lit.variable() as usize)
            == Some(&(lit.0 % 2 == 0)));
        if !holds {
            return false;
        }
    }
    values.len() == f.vars() as usize
}

/// None where values satisfy the formula; else how many clauses the ledger has, and what the check says of it as a log.
fn decided(
    rt: &impl Abort,
    alloc: Global,
    f: &Formula,
    budget: u32,
) -> Result<Option<(usize, Checked)>, LogError> {
    let ledger = match solve(alloc, f, budget)? {
        Verdict::Model(values) => {
            assert!(rt; satisfy(&values, f), "of {} clauses", f.len());
            return Ok(None);
        }
        Verdict::NoModel(ledger) => ledger,
        Verdict::Spent(ledger) => ledger,
    };
    let text = print_log(alloc, f, &ledger)?;
    let log = read_log(alloc, &text)?;
    Ok(Some((ledger.clauses.len(), check_log(alloc, &log)?)))
}

/// Where unit propagation alone refutes, the ledger has one clause, and none where the formula has an empty one. The
/// last two formulas are of "exactly one of two", with a literal for "both". In the last one this is true.
#[test]
fn decides_small_formulas(rt: HostRuntime) -> Result<(), Fail> {
    let alloc = rt.alloc();
    for (text, learned) in [
        ("vars 0 clauses 0\n", None),
        ("vars 3 clauses 0\n", None),
        ("vars 0 clauses 1\n0\n", Some(0)),
        ("vars 2 clauses 2\n1 2 0\n0\n", Some(0)),
        ("vars 2 clauses 2\n1 2 0\n-1 0\n", None),
        ("vars 1 clauses 2\n1 0\n-1 0\n", Some(1)),
        ("vars 5 clauses 2\n4 4 0\n-4 2 -4 0\n", None),
        ("vars 2 clauses 2\n1 -1 0\n2 -1 0\n", None),
        (
            "vars 2 clauses 4\n1 2 0\n1 -2 0\n-1 2 0\n-1 -2 0\n",
            Some(2),
        ),
        (
            "vars 4 clauses 5\n-1 2 0\n-2 3 0\n-3 4 0\n1 0\n-4 0\n",
            Some(1),
        ),
        (
            "vars 4 clauses 5\n-1 2 0\n-2 3 0\n-3 4 0\n4 0\n1 4 0\n",
            None,
        ),
        (
            "vars 3 clauses 6\n1 2 3 0\n-1 -2 0\n-1 -3 0\n-2 -3 0\n1 -2 0\n1 -3 0\n",
            None,
        ),
        (
            "vars 3 clauses 5\n1 2 0\n-1 -2 0\n-3 1 0\n-3 2 0\n3 -1 -2 0\n",
            None,
        ),
        (
            "vars 3 clauses 6\n1 2 0\n-1 -2 0\n-3 1 0\n-3 2 0\n3 -1 -2 0\n3 0\n",
            Some(1),
        ),
    ] {
        let log = read_log(alloc, text.as_bytes())?;
        let want = match learned {
            None => None,
            Some(count) => Some((count, Checked::Yes)),
        };
        let found = decided(&rt, alloc, &log.formula, NO_LIMIT)?;
        assert_eq!(rt; found, want, "{text}");
    }
    Ok(())
}

/// Three pigeons, each in one of two holes, and no two in one.
const TWO_HOLES: &str = "vars 6 clauses 9
1 2 0
3 4 0
5 6 0
-3 -1 0
-4 -2 0
-5 -1 0
-6 -2 0
-5 -3 0
-6 -4 0
";

/// Four pigeons and three holes.
const THREE_HOLES: &str = "vars 12 clauses 22
1 2 3 0
4 5 6 0
7 8 9 0
10 11 12 0
-4 -1 0
-5 -2 0
-6 -3 0
-7 -1 0
-8 -2 0
-9 -3 0
-7 -4 0
-8 -5 0
-9 -6 0
-10 -1 0
-11 -2 0
-12 -3 0
-10 -4 0
-11 -5 0
-12 -6 0
-10 -7 0
-11 -8 0
-12 -9 0
";

/// The empty clause does not count: a budget is enough from one less than the whole ledger on.
#[test]
fn spends_its_budget_to_the_clause(rt: HostRuntime) -> Result<(), Fail> {
    let alloc = rt.alloc();
    for text in [TWO_HOLES, THREE_HOLES] {
        let log = read_log(alloc, text.as_bytes())?;
        let whole = match decided(&rt, alloc, &log.formula, NO_LIMIT)? {
            Some((count, Checked::Yes)) => count,
            _ => 0,
        };
        assert!(rt; whole > 1 && whole < 12, "{text}");
        for budget in 0..12u32 {
            let spent = budget as usize;
            let want = if spent + 1 < whole {
                Some((spent, Checked::No(u64::from(budget) + 1)))
            } else {
                Some((whole, Checked::Yes))
            };
            let found = decided(&rt, alloc, &log.formula, budget)?;
            assert_eq!(rt; found, want, "{budget} of {whole}");
        }
    }
    Ok(())
}
