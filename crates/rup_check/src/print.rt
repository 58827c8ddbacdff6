//! The text of a log.
ghost use Rattle.std.specs.Prelude.{◌≡◌, ◌+◌, ◌++◌, decimal, IfOk, IsTrue, OnOk};
ghost use Rattle.cnf.specs.Cnf.{Cnf, is_in_range};
ghost use Rattle.rup_check.specs.Text.{head_text, lines_text, line_text, lit_text, log_text};

use cnf::{Clause, Formula, Ledger, Lit};
use itoa::Buffer;
use std::alloc::{AllocError, Global};

/// The text of a formula and of the clauses of a ledger, as a log with these steps. Of a formula within the limits and
/// a ledger of it `read_log` reads both back. The variables of a formula are always in range. `AllocError` where memory
/// runs out.
pub fn print_log(alloc: Global, f: &Formula, ledger: &Ledger) -> Result<Vec<u8>, AllocError>
    ensures text { IfOk result (λ text. text.items ≡ log_text f.now ledger.now) }
    ensures in_range { IfOk result (λ _. IsTrue (is_in_range f.now)) }
{
    let mut text = Vec::new(alloc);
    push_head(&mut text, f.vars(), f.len())?;
    push_formula(&mut text, f)?;
    push_steps(&mut text, &ledger.clauses)?;
    Ok(text)
}

/// Adds the first line.
fn push_head(text: &mut Vec<u8>, vars: u32, count: usize) -> Result<(), AllocError>
    ensures { OnOk result (text.new.items ≡ text.old.items ++ head_text vars count) }
{
    text.extend_from_slice(b"vars ")?;
    text.extend_from_slice(Buffer::new().format(vars).as_bytes())?;
    text.extend_from_slice(b" clauses ")?;
    text.extend_from_slice(Buffer::new().format(count).as_bytes())?;
    text.extend_from_slice(b"\n")
}

/// Adds the lines of a formula's clauses.
fn push_formula(text: &mut Vec<u8>, f: &Formula) -> Result<(), AllocError>
    ensures { OnOk result (text.new.items ≡ text.old.items ++ lines_text f.now.clauses) }
{
    for k in 0..f.len() {
        push_line(text, f.clause(k))?;
    }
    Ok(())
}

/// Adds the lines of steps.
fn push_steps(text: &mut Vec<u8>, steps: &[Clause]) -> Result<(), AllocError>
    ensures { OnOk result (text.new.items ≡ text.old.items ++ lines_text steps.now) }
{
    for k in 0..steps.len() {
        let step: &Clause = &steps[k];
        push_line(text, &step.lits)?;
    }
    Ok(())
}

/// Adds the line of a clause.
fn push_line(text: &mut Vec<u8>, clause: &[Lit]) -> Result<(), AllocError>
    ensures { OnOk result (text.new.items ≡ text.old.items ++ line_text clause.now) }
{
    for k in 0..clause.len() {
        push_literal(text, clause[k])?;
        text.extend_from_slice(b" ")?;
    }
    text.extend_from_slice(b"0\n")
}

/// Adds a literal.
fn push_literal(text: &mut Vec<u8>, lit: Lit) -> Result<(), AllocError>
    ensures { OnOk result (text.new.items ≡ text.old.items ++ lit_text lit) }
{
    if lit.0 % 2 == 1 {
        text.extend_from_slice(b"-")?;
    }
    text.extend_from_slice(Buffer::new().format(lit.variable() + 1).as_bytes())
}
