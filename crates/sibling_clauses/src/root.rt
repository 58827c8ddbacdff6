//! The root, as clauses.

ghost use Rattle.std.specs.Prelude.{◌≡◌, ◌≤◌, ◌<◌, ◌+◌, ◌^◌, ◌==◌, ◌∷◌, [], length, IsTrue, IfOk, OnOk};
ghost use Rattle.sibling_clauses.specs.Bounds.{IsSmall};
ghost use Rattle.cnf.specs.Gates.{with_clauses};
ghost use Rattle.cnf.specs.Lits.{are_below, is_below};
ghost use Rattle.css_model.specs.Documents.SelectorParts.{SelectorParts};
ghost use Rattle.formula_laws.specs.Formula.{first_vars, names_of, with_root};
ghost use Rattle.formula_laws.specs.Root.{root_clauses, top_clauses};

use crate::chains::links_of;
use crate::links::goes_up_at;
use crate::numbering::Numbering;
use crate::relations::add_same_if;
use cnf::{Bits, Formula, Lit};
use css_model::Selector;
use std::alloc::{AllocError, Global};

/// Adds which of the last compounds are in the root, and that these can be there. `AllocError` where memory runs out;
/// then the formula is not to be used again.
pub fn add_root(
    alloc: Global,
    f: &mut Formula,
    g: Numbering,
    left: &Selector,
    right: &Selector,
) -> Result<(), AllocError>
    requires small { IsSmall g }
    requires left { length left.now.links ≡ g.left }
    requires right { length right.now.links ≡ g.right }
    requires in_range { first_vars g.left g.right g.digits ≤ f.old.vars }
    ensures formula { OnOk result (f.new ≡ with_root left.now right.now (names_of g.left g.right g.digits) f.old) }
    ensures same { OnOk result (f.new.vars ≡ f.old.vars) }
{
    let (i, j) = (g.left, g.right);
    add_root_of(f, g.left_root(), g.root(), g.right_alone(i, j))?;
    add_root_of(f, g.right_root(), g.root(), g.left_alone(i, j))?;
    let (before, after) = (g.before_left(alloc, i)?, g.after_left(alloc, i)?);
    let up = goes_up_at(links_of(left), i as usize);
    add_top(f, g.left_root(), up, &before, &after)?;
    let (before, after) = (g.before_right(alloc, j)?, g.after_right(alloc, j)?);
    let up = goes_up_at(links_of(right), j as usize);
    add_top(f, g.right_root(), up, &before, &after)
}

/// Adds that a literal says "the last slot is that of the root, and this node is not there".
#[tactic(auto, using(crate::proofs::Adding::added_twice, crate::proofs::InRange::digits_in_range))]
fn add_root_of(f: &mut Formula, lit: Lit, root: Lit, other: Lit) -> Result<(), AllocError>
    requires lit { IsTrue (is_below f.old.vars lit) }
    requires root { IsTrue (is_below f.old.vars root) }
    requires other { IsTrue (is_below f.old.vars other) }
    ensures { OnOk result (f.new ≡ with_clauses f.old (root_clauses lit root other)) }
{
    f.add_clause(&[lit.negation(), root])?;
    f.add_clause(&[lit.negation(), other.negation()])?;
    f.add_clause(&[lit, root.negation(), other])
}

/// Adds that a last compound is in the root only where it can be, without siblings.
#[tactic(auto, using(crate::proofs::Adding::top_added, crate::proofs::InRange::digits_in_range))]
fn add_top(
    f: &mut Formula,
    lit: Lit,
    up: bool,
    before: &Bits,
    after: &Bits,
) -> Result<(), AllocError>
    requires lit { IsTrue (is_below f.old.vars lit) }
    requires before { IsTrue (are_below f.old.vars before.now) }
    requires after { IsTrue (are_below f.old.vars after.now) }
    ensures formula { OnOk result (f.new ≡ with_clauses f.old (top_clauses lit up before.now after.now)) }
    ensures same { OnOk result (f.new.vars ≡ f.old.vars) }
{
    if !up {
        f.add_clause(&[lit.negation()])?;
    }
    add_same_if(f, lit, &before.bits, &[])?;
    add_same_if(f, lit, &after.bits, &[])
}
