//! How two pairs are ordered in items, and which of them comes last before the other.

ghost use Rattle.std.specs.Prelude.{◌≡◌};
ghost use Rattle.window_order.specs.Orders as orders;

use css_model::Item;

/// What the last of some items that has one of two pairs says of their order.
#[derive(Clone, Copy)]
pub(crate) enum Found<'a> {
    /// The first pair comes before the second.
    Before,
    /// The item has the first pair, which does not come before the second.
    NotBefore,
    /// The item has the second pair alone; these items are above it.
    Second(&'a [Item]),
    /// No item has one of them.
    Neither,
}

/// How two pairs are ordered in some items.
#[derive(Clone, Copy)]
pub(crate) enum PairOrder {
    /// The last of the first pair comes before the last of the second.
    Before,
    /// The items have the first pair, which does not come before the second.
    NotBefore,
    /// The items have the second pair alone.
    Second,
    /// The items have neither.
    Neither,
}

/// How two pairs are ordered in items that do not have the second one, by whether they have the first one.
pub(crate) fn first_alone(stands: bool) -> PairOrder
    ensures { result ≡ orders.first_alone stands }
{
    if stands {
        PairOrder::NotBefore
    } else {
        PairOrder::Neither
    }
}

/// How two pairs are ordered in items whose last one with one of them has the second alone, by whether the first one is
/// above it.
pub(crate) fn second_below(stands_above: bool) -> PairOrder
    ensures { result ≡ orders.second_below stands_above }
{
    if stands_above {
        PairOrder::Before
    } else {
        PairOrder::Second
    }
}
