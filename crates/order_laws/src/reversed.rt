//! What a step reverses, as a list.

ghost use Rattle.order_laws.specs.Reversed.{
  KeysTellApart,
  ListedAscends,
  ListedIsReversed,
  ReversingApartKeeps,
};

use cascade_laws::relating_is_decided;

/// The list of what is reversed has exactly that, at the last places. It has each moved pair with each other pair and
/// each kept item that weighs with it and has another order with it afterwards.
pub fn listed_is_reversed()
    ensures { ListedIsReversed }
{
    relating_is_decided();
}

/// The list of what is reversed ascends: by how far the other's item is from the moved pair's, then by the other's
/// place, then by the moved pair's.
pub fn listed_ascends()
    ensures { ListedAscends }
{}

/// Entries of the list of what is reversed that have one key are the same: the keys alone order it.
pub fn keys_tell_apart()
    ensures { KeysTellApart }
{
    relating_is_decided();
}

/// A rearrangement that by its list reverses only pairs that do not meet keeps the sheet.
pub fn reversing_apart_keeps()
    ensures { ReversingApartKeeps }
{
    relating_is_decided();
}
