//! What the combinators of two selectors allow.

ghost use Rattle.std.specs.Prelude.{◌≡◌, ◌≤◌, ◌<◌, length};
ghost use Rattle.formula_laws.specs.Counts.{left_follows, right_follows};
ghost use Rattle.formula_laws.specs.Path.{both_fit, left_fits, right_fits};
ghost use Rattle.grid_laws.specs.Grid.{goes_up, goes_up_at, waits, waits_at};
ghost use Rattle.grid_laws.specs.Solved.{is_above};

use css_model::Combinator;

/// Whether a combinator goes up.
fn goes_up(link: Combinator) -> bool
    ensures { result ≡ goes_up link }
{
    match link {
        Combinator::Inside | Combinator::Child => true,
        Combinator::Next | Combinator::Later => false,
    }
}

/// Whether the step into the k-th compound, from the one before it, goes up. The first one counts as such.
#[tactic(auto, using(crate::proofs::Linked::links_read))]
pub fn goes_up_at(links: &[Combinator], k: usize) -> bool
    ensures { result ≡ goes_up_at links.now k }
{
    if k == 0 {
        true
    } else if k <= links.len() {
        goes_up(links[k - 1])
    } else {
        false
    }
}

/// Whether the element of the k-th compound of a chain with these combinators is a parent of another one that the
/// selector speaks of (Selectors 3, section 8).
#[tactic(auto, using(crate::proofs::Linked::links_read))]
pub fn is_above(links: &[Combinator], k: usize) -> bool
    ensures { result ≡ is_above links.now k }
{
    k != 0 && goes_up_at(links, k)
}

/// Whether a slot that is reached by such a step may be between two compounds.
fn waits(link: Combinator, up: bool) -> bool
    ensures { result ≡ waits link up }
{
    match link {
        Combinator::Inside => true,
        Combinator::Child | Combinator::Later => !up,
        Combinator::Next => false,
    }
}

/// Whether a slot that is reached by such a step may be directly after the k-th compound.
#[tactic(auto, using(crate::proofs::Linked::links_read))]
fn waits_at(links: &[Combinator], k: usize, up: bool) -> bool
    ensures { result ≡ waits_at links.now k up }
{
    if k < links.len() {
        waits(links[k], up)
    } else {
        true
    }
}

/// Whether the combinators allow the node of the i-th left compound alone.
#[tactic(auto, using(crate::proofs::Linked::cells_read))]
pub fn left_fits(left: &[Combinator], right: &[Combinator], i: usize, j: usize) -> bool
    ensures { result ≡ left_fits left.now right.now i j }
{
    i != 0 && waits_at(right, j, goes_up_at(left, i))
}

/// Whether the combinators allow the node of the j-th right compound alone.
#[tactic(auto, using(crate::proofs::Linked::cells_read))]
pub fn right_fits(left: &[Combinator], right: &[Combinator], i: usize, j: usize) -> bool
    ensures { result ≡ right_fits left.now right.now i j }
{
    j != 0 && waits_at(left, i, goes_up_at(right, j))
}

/// Whether the combinators allow the node of both compounds.
#[tactic(auto, using(crate::proofs::Linked::cells_read))]
pub fn both_fit(left: &[Combinator], right: &[Combinator], i: usize, j: usize) -> bool
    ensures { result ≡ both_fit left.now right.now i j }
{
    if i == 0 || j == 0 {
        i == j
    } else {
        goes_up_at(left, i) == goes_up_at(right, j)
    }
}

/// Whether the left compound i + 1 may come directly after the right one j, and is no parent.
#[tactic(auto, using(crate::proofs::Linked::follows_read))]
pub(crate) fn left_follows(left: &[Combinator], right: &[Combinator], i: usize, j: usize) -> bool
    requires { i < 12 }
    ensures { result ≡ left_follows left.now right.now i j }
{
    !goes_up_at(left, i + 1) && (right_fits(left, right, i, j) && left_fits(left, right, i + 1, j))
}

/// Whether the right compound j + 1 may come directly after the left one i, and is no parent.
#[tactic(auto, using(crate::proofs::Linked::follows_read))]
pub(crate) fn right_follows(left: &[Combinator], right: &[Combinator], i: usize, j: usize) -> bool
    requires { j < 12 }
    ensures { result ≡ right_follows left.now right.now i j }
{
    !goes_up_at(right, j + 1) && (left_fits(left, right, i, j) && right_fits(left, right, i, j + 1))
}
