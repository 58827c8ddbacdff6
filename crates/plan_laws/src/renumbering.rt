//! What becomes of a step of a sheet while a step of other rules is taken.

ghost use Rattle.plan_laws.specs.Barrier.Renumbering.{
  EditsCommute,
  HindrancesGoOn,
  ItemsStay,
  JoinsStay,
  KeptHindrancesGoOn,
  NumbersAscend,
};

use order_laws::unmoved_keep_their_order;

/// An item that an edit leaves has its new number after it.
pub fn items_stay()
    ensures { ItemsStay }
{}

/// Numbers ascend: an item that an edit leaves is before those that were after it.
pub fn numbers_ascend()
    ensures { NumbersAscend }
{}

/// Edits of other items may be made in either order, the second one with new numbers.
pub fn edits_commute()
    ensures { EditsCommute }
{}

/// A join or a share of two rules that an edit leaves is one after it too, with new numbers, where the edit does not
/// take the room for one more item.
pub fn joins_stay()
    ensures { JoinsStay }
{}

/// Two pairs that a step reverses are reversed by it after another step too, if that one moves neither of them.
pub fn hindrances_go_on()
    ensures { HindrancesGoOn }
{
    unmoved_keep_their_order();
}

/// A pair and a kept item that a step reverses are reversed by it after another step too, if that one does not move the
/// pair.
pub fn kept_hindrances_go_on()
    ensures { KeptHindrancesGoOn }
{
    unmoved_keep_their_order();
}
