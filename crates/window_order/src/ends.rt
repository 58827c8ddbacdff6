//! What the parts at the ends of a window say of an order, whatever is between them.

ghost use Rattle.std.specs.Prelude.{◌≡◌, ◌↔◌, IsTrue};
ghost use Rattle.window_order.specs.Orders as orders;

use crate::order::PairOrder;

/// How two pairs are ordered in the parts at the ends.
#[derive(Clone, Copy)]
pub(crate) struct PairEnds {
    /// In the first part.
    pub above: PairOrder,
    /// In the last part.
    pub below: PairOrder,
}

/// How two pairs are ordered in items of which some are above the others.
pub(crate) fn joined(above: PairOrder, below: PairOrder) -> PairOrder
    ensures { result ≡ orders.joined above below }
{
    match below {
        PairOrder::Before => PairOrder::Before,
        PairOrder::NotBefore => PairOrder::NotBefore,
        PairOrder::Second => match above {
            PairOrder::Before | PairOrder::NotBefore => PairOrder::Before,
            PairOrder::Second | PairOrder::Neither => PairOrder::Second,
        },
        PairOrder::Neither => above,
    }
}

/// Whether the first of two pairs comes last before the second, by how they are ordered in the parts.
pub(crate) fn comes_before(ends: PairEnds, between: PairOrder) -> bool
    ensures { result ≡ orders.comes_before ends between }
{
    matches!(
        joined(ends.above, joined(between, ends.below)),
        PairOrder::Before
    )
}

/// Whether two pairs have the same order before and after a step, by how they are ordered in the parts.
fn same_with(old: PairEnds, new: PairEnds, between: PairOrder) -> bool
    ensures { result ≡ orders.same_with old new between }
{
    comes_before(old, between) == comes_before(new, between)
}

/// Whether two pairs have the same order before and after a step, whatever is between the ends.
pub(crate) fn always_same(old: PairEnds, new: PairEnds) -> bool
    ensures { IsTrue result ↔ orders.AreAlwaysSame old new }
{
    same_with(old, new, PairOrder::Neither)
        && same_with(old, new, PairOrder::Second)
        && same_with(old, new, PairOrder::NotBefore)
        && same_with(old, new, PairOrder::Before)
}
