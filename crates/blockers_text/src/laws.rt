//! What follows from what stops a step, as functions that do nothing.

ghost use Rattle.blockers_text.specs.Laws.{AloneWouldBeFree, OthersAreApart};

use order_laws::listed_is_reversed;

/// An item is not among those that stop a step exactly where all of it that the step reverses is answered to be apart
/// from the moved pairs.
pub fn others_are_apart()
    ensures { OthersAreApart }
{
    listed_is_reversed();
}

/// Of the items that stop a step one is alone exactly where the step would be free if nothing of this item met a moved
/// pair: all else that it reverses is answered to be apart.
pub fn alone_would_be_free()
    ensures { AloneWouldBeFree }
{
    listed_is_reversed();
}
