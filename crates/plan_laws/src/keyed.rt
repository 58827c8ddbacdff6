//! The order of a sheet by keys.

ghost use Rattle.plan_laws.specs.Barrier.Keyed.{KeysAreOrder, ReversedWhereBetween};

/// Where order keys ascend from item to item, a pair comes last before another one exactly where its last key is below that
/// of the other. A key is an order key and the number of a declaration.
pub fn keys_are_order()
    ensures { KeysAreOrder }
{}

/// A pair whose last key stays is reversed with one of another declaration whose last key changes, exactly where its
/// key is between the old and the new one.
pub fn reversed_where_between()
    ensures { ReversedWhereBetween }
{}
