//! When a step, as a change of a sheet in general, keeps the sheet.

ghost use Rattle.order_laws.specs.Reversing.{RearrangingKeeps, UnmovedKeepTheirOrder};

/// What a rearrangement does not move keeps its order: two pairs, a pair and a kept item, and the kept
/// items among themselves.
pub fn unmoved_keep_their_order()
    ensures { UnmovedKeepTheirOrder }
{}

/// A rearrangement that reverses no pairs that meet, and no pair and a kept item, keeps the sheet.
pub fn rearranging_keeps()
    ensures { RearrangingKeeps }
{}
