//! Along `~` the numbers behind the compounds rise.

ghost use Rattle.std.specs.Prelude.{◌≡◌, ◌≤◌, ◌<◌, ◌+◌, ◌*◌, ◌^◌, suc, length, OnOk};
ghost use Rattle.formula_laws.specs.Formula.{first_vars};
ghost use Rattle.formula_laws.specs.Hints.{with_rise, with_rises};
ghost use Rattle.hint_clauses.specs.Chains.{row_at};
ghost use Rattle.sibling_clauses.specs.Bounds.{IsSmall};

use crate::links::is_later_at;
use cnf::Formula;
use css_model::Combinator;
use sibling_clauses::{Numbering, add_less};
use std::alloc::{AllocError, Global};

/// Adds that the numbers of a chain rise along each `~`, where `row` is that of its first compound.
#[tactic(auto, using(crate::proofs::Rising::rises_added))]
pub(crate) fn add_rises(
    alloc: Global,
    f: &mut Formula,
    g: Numbering,
    links: &[Combinator],
    row: u32,
) -> Result<(), AllocError>
    requires small { IsSmall g }
    requires row { row + 2 * length links.now < 2 * suc g.left + 2 * suc g.right }
    requires in_range { first_vars g.left g.right g.digits ≤ f.old.vars }
    requires room { (with_rises links.now (row_at g row) f.old).vars ≤ 2 ^ 30 }
    ensures { OnOk result (f.new ≡ with_rises links.now (row_at g row) f.old) }
{
    for k in 0..links.len() {
        add_rise(alloc, f, g, links, row, k)?;
    }
    Ok(())
}

/// The same along one combinator, if it is `~`.
#[tactic(auto, using(crate::proofs::Rising::rise_added))]
fn add_rise(
    alloc: Global,
    f: &mut Formula,
    g: Numbering,
    links: &[Combinator],
    row: u32,
    k: usize,
) -> Result<(), AllocError>
    requires small { IsSmall g }
    requires link { k < length links.now }
    requires row { row + 2 * length links.now < 2 * suc g.left + 2 * suc g.right }
    requires in_range { first_vars g.left g.right g.digits ≤ f.old.vars }
    requires room { (with_rise links.now (row_at g row) k f.old).vars ≤ 2 ^ 30 }
    ensures { OnOk result (f.new ≡ with_rise links.now (row_at g row) k f.old) }
{
    if is_later_at(links, k) {
        let here = row + 2 * k as u32;
        let x = g.number(alloc, here)?;
        let y = g.number(alloc, here + 2)?;
        add_less(alloc, f, &[], &x, &y)?;
    }
    Ok(())
}
