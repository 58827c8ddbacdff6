//! The formulas that numbers say.
ghost use Rattle.std.specs.Prelude.{IsTrue};
ghost use Rattle.cnf.specs.Lits.{are_below};

use cnf::{Formula, Lit};
use std::alloc::{AllocError, Global};

/// The numbers of a text, and whether a hyphen is in front of each.
pub(crate) fn numbers(alloc: Global, text: &[u8]) -> Result<Vec<(bool, u32)>, AllocError> {
    let mut all = Vec::new(alloc);
    let mut number: u32 = 0;
    let mut negative = false;
    let mut digits = false;
    for byte in text {
        match *byte {
            b'-' => negative = true,
            b'0'..=b'9' => {
                number = number
                    .wrapping_mul(10)
                    .wrapping_add(u32::from(*byte - b'0'));
                digits = true;
            }
            _ => {
                if digits {
                    all.push((negative, number))?;
                }
                number = 0;
                negative = false;
                digits = false;
            }
        }
    }
    Ok(all)
}

/// The formulas that the numbers after the first one say. A clause with a literal of another variable is left out.
pub(crate) fn formulas(alloc: Global, numbers: &[(bool, u32)]) -> Result<Vec<Formula>, AllocError> {
    let mut all = Vec::new(alloc);
    let mut f = Formula::new(alloc, 0);
    let mut left: u32 = 0;
    let mut has_vars = false;
    let mut clause = Vec::new(alloc);
    let mut is_first = true;
    for (negative, n) in numbers {
        if is_first {
            is_first = false;
        } else if left == 0 && !has_vars {
            f = Formula::new(alloc, if *n < 1_000_000 { *n } else { 0 });
            has_vars = true;
        } else if left == 0 {
            left = *n;
        } else if *n == 0 {
            add(&mut f, &clause)?;
            clause.clear();
            left = left.wrapping_sub(1);
            if left == 0 {
                has_vars = false;
                all.push(f)?;
                f = Formula::new(alloc, 0);
            }
        } else if *n <= 1_000_000 {
            clause.push(Lit(2 * (*n - 1) + u32::from(*negative)))?;
        }
    }
    Ok(all)
}

/// Adds a clause, unless it has a variable that the formula does not have.
fn add(f: &mut Formula, clause: &[Lit]) -> Result<(), AllocError> {
    if is_in_range(clause, f.vars()) {
        f.add_clause(clause)?;
    }
    Ok(())
}

/// Whether each literal of a clause is of one of so many variables.
fn is_in_range(clause: &[Lit], vars: u32) -> bool
    ensures { IsTrue result → IsTrue (are_below vars clause.now) }
{
    for lit in clause {
        if lit.variable() >= vars {
            return false;
        }
    }
    true
}
