//! The nodes of the grid: what follows on what.

ghost use Rattle.std.specs.Prelude.{◌≡◌, ◌≤◌, ◌<◌, ◌^◌, suc, IfSome};
ghost use Rattle.std.specs.Option.{option_map};
ghost use Rattle.formula_laws.specs.Path.{true_nodes};
ghost use Rattle.grid_laws.specs.Grid.{has_left, has_right};
ghost use Rattle.grid_laws.specs.Slots.{ahead, next_lays};
ghost use Rattle.shape_decode.specs.Laid.{lays_of};
ghost use Rattle.sibling_clauses.specs.Bounds.{IsSmall};

use crate::values::is_true;
use sibling_clauses::Numbering;

/// What a slot holds.
#[derive(Clone, Copy)]
pub(crate) enum Lays {
    /// A compound of the left selector.
    LeftAlone,
    /// A compound of the right selector.
    RightAlone,
    /// A compound of each.
    Together,
}

/// Whether a slot holds a compound of the left selector.
pub(crate) fn has_left(lays: Lays) -> bool
    ensures { result ≡ has_left (lays_of lays) }
{
    match lays {
        Lays::LeftAlone | Lays::Together => true,
        Lays::RightAlone => false,
    }
}

/// Whether a slot holds a compound of the right selector.
pub(crate) fn has_right(lays: Lays) -> bool
    ensures { result ≡ has_right (lays_of lays) }
{
    match lays {
        Lays::RightAlone | Lays::Together => true,
        Lays::LeftAlone => false,
    }
}

/// The number of the last compound laid, where one more is laid or not.
pub(crate) fn ahead(lays: bool, i: u32) -> u32
    requires { i < 2 ^ 16 }
    ensures { result ≡ ahead lays i }
{
    if lays { i + 1 } else { i }
}

/// Which node follows that of the compounds i and j.
pub(crate) fn next_lays(values: &[bool], g: Numbering, i: u32, j: u32) -> Option<Lays>
    requires small { IsSmall g }
    requires row { i ≤ g.left }
    requires column { j ≤ g.right }
    ensures next { option_map lays_of result
        ≡ next_lays g.left g.right (true_nodes (suc g.right) values.now) i j }
    ensures row { IfSome result (λ lays. ahead (has_left (lays_of lays)) i ≤ g.left) }
    ensures column { IfSome result (λ lays. ahead (has_right (lays_of lays)) j ≤ g.right) }
{
    if i < g.left && is_true(values, g.left_alone(i + 1, j)) {
        Some(Lays::LeftAlone)
    } else if j < g.right && is_true(values, g.right_alone(i, j + 1)) {
        Some(Lays::RightAlone)
    } else if i < g.left && j < g.right {
        Some(Lays::Together)
    } else {
        None
    }
}
