//! The numbers of one kind along a chain.

ghost use Rattle.std.specs.Prelude.{◌≡◌, ◌≤◌, ◌<◌, ◌+◌, ◌*◌, if◌then◌else◌, ℕ, suc, IsTrue, IfOk};
ghost use Rattle.cnf.specs.Lits.{are_below};
ghost use Rattle.formula_laws.specs.Formula.{first_vars};
ghost use Rattle.hint_clauses.specs.Chains.{first_row, row_at, row_of};
ghost use Rattle.sibling_clauses.specs.Bounds.{IsSmall};

use cnf::Bits;
use formula_laws::Count;
use sibling_clauses::Numbering;
use std::alloc::{AllocError, Global};

/// Where the numbers of a selector begin: of the right one, or of the left one.
fn first_row(g: Numbering, right: bool) -> u32
    requires { IsSmall g }
    ensures value { result ≡ first_row g right }
    ensures fits { result + 2 * (if right then g.right else g.left) + 1 < 2 * suc g.left + 2 * suc g.right }
{
    if right { 2 * (g.left + 1) } else { 0 }
}

/// Which number is that of a selector's first compound: of the right one, or of the left one.
pub(crate) fn row_of(g: Numbering, count: Count, right: bool) -> u32
    requires { IsSmall g }
    ensures value { result ≡ row_of g count right }
    ensures fits { result + 2 * (if right then g.right else g.left) < 2 * suc g.left + 2 * suc g.right }
{
    match count {
        Count::Before => first_row(g, right),
        Count::Behind => first_row(g, right) + 1,
    }
}

/// The number of the k-th compound of a chain, where `row` is that of its first one.
pub(crate) fn number_in_row(
    alloc: Global,
    g: Numbering,
    row: u32,
    k: u32,
) -> Result<Bits, AllocError>
    requires small { IsSmall g }
    requires slot { row + 2 * k < 2 * suc g.left + 2 * suc g.right }
    ensures value { IfOk result (λ b. b ≡ row_at g row k) }
    ensures in_range { IfOk result (λ b. (v : ℕ) → first_vars g.left g.right g.digits ≤ v → IsTrue (are_below v b)) }
{
    g.number(alloc, row + 2 * k)
}
